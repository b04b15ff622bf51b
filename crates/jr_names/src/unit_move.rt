// A unit that goes to another package with its only type.
ghost use Rattle.std.specs.Prelude.{◌≡◌, ◌<◌, ◌+◌, ◌^◌, IfErr, IfOk, OnOk};
ghost use Rattle.jr_marks.specs.Places.{IsOrdered};
ghost use Rattle.jr_edits.specs.Place.{pushed};
ghost use Rattle.jr_change.specs.declared.reason.ChangeFault.TheVariants as ChangeFault;
ghost use Rattle.jr_draft.specs.Drafting as drafting;
ghost use Rattle.jr_names.specs.Moving as spec;

use jr_base::{Path, Span, Text};
use jr_change::{ChangeFault, UnitSource};
use jr_draft::{Draft, Head, add_package_rows, declaration_of, edits_of, order_with};
use jr_edits::Edits;
use jr_marks::Marks;
use jr_places::end_at;
use jr_text::tokens_span;
use std::alloc::Global;

// Bytes become other ones.
fn replace(alloc: Global, edits: &mut Edits, span: Span, bytes: &[u8]) -> Result<(), ChangeFault>
    ensures ok { OnOk result (edits.new ≡ pushed edits.old span bytes.now) }
    ensures fault { IfErr result (λ fault. fault ≡ ChangeFault.OutOfMemory) }
{
    edits.push(span, Text::of(alloc, bytes)?)?;
    Ok(())
}

fn is_unnamed(named: &[u8]) -> bool
    ensures { result ≡ spec.is_unnamed named.now }
{
    named.is_empty()
}

// What of a package declaration the name of a package replaces: its name, and all of it where that is nothing.
fn declared_span(marks: &Marks, named: &[u8], declared: u32) -> Span
    ensures { IsOrdered marks.now → result ≡ spec.declared_span marks.now named.now declared }
{
    if is_unnamed(named) {
        tokens_span(marks, declared)
    } else {
        tokens_span(marks, declared.saturating_add(1))
    }
}

// A package declaration is put in front of all bytes.
fn put_in_front(alloc: Global, edits: &mut Edits, named: &[u8]) -> Result<(), ChangeFault>
    ensures ok { OnOk result (edits.new ≡ spec.put_in_front named.now edits.old) }
    ensures fault { IfErr result (λ fault. fault ≡ ChangeFault.OutOfMemory) }
{
    let declaration = declaration_of(alloc, named)?;
    let bytes = declaration.as_slice();
    replace(alloc, edits, Span { start: 0, end: 0 }, bytes)
}

// The package of a unit becomes another one.
fn redeclare(
    alloc: Global,
    edits: &mut Edits,
    marks: &Marks,
    named: &[u8],
    declared: Option<u32>,
) -> Result<(), ChangeFault>
    ensures ok { OnOk result (IsOrdered marks.now → edits.new ≡ spec.redeclared marks.now named.now declared edits.old) }
    ensures fault { IfErr result (λ fault. fault ≡ ChangeFault.OutOfMemory) }
{
    match declared {
        Some(row) => replace(alloc, edits, declared_span(marks, named, row), named),
        None => put_in_front(alloc, edits, named),
    }
}

/// A unit that goes to another package with its only type. Contracts see what it holds.
#[derive(Clone, Copy)]
pub struct UnitMove<'a> {
    pub marks: &'a Marks<'a>,
    /// What stands before the type.
    pub head: Head,
    /// The type.
    pub row: u32,
    /// The package.
    pub named: &'a [u8],
    /// The path that the unit gets.
    pub path: &'a Path,
}

impl<'a> UnitMove<'a> {
    // The edits of the unit.
    fn edits(&self, alloc: Global) -> Result<Edits, ChangeFault>
        ensures ok { IfOk result (λ edits. IsOrdered self.now.marks.now → edits ≡ spec.edits_of_move self.now.marks.now self.now.head self.now.row self.now.named.now) }
        ensures fault { IfErr result (λ fault. fault ≡ ChangeFault.OutOfMemory) }
    {
        let mut edits = edits_of(alloc, self.marks, self.row)?;
        redeclare(
            alloc,
            &mut edits,
            self.marks,
            self.named,
            self.head.declared,
        )?;
        Ok(edits)
    }

    // Adds the unit, but not its rows.
    fn add_text(&self, alloc: Global, draft: &mut Draft) -> Result<(), ChangeFault>
        ensures ok { OnOk result (IsOrdered self.now.marks.now
            → draft.new ≡ drafting.with_unit draft.old (spec.moved_unit self.now.marks.now self.now.head self.now.row self.now.named.now self.now.path.now)) }
        ensures fault { IfErr result (λ fault. fault ≡ ChangeFault.OutOfMemory) }
    {
        let marks = self.marks;
        let unit = marks.unit_of(self.row);
        let edits = self.edits(alloc)?;
        draft.add(self.path.copy(alloc)?, UnitSource::Edited { unit, edits })?;
        Ok(())
    }

    // Adds the unit.
    fn add_moved(&self, alloc: Global, draft: &mut Draft) -> Result<(), ChangeFault>
        ensures ok { OnOk result (IsOrdered self.now.marks.now → self.now.head.unit + 1 < 2 ^ 32
            → draft.new ≡ spec.with_moved self.now.marks.now self.now.head self.now.row self.now.named.now self.now.path.now draft.old) }
        ensures fault { IfErr result (λ fault. fault ≡ ChangeFault.OutOfMemory) }
    {
        let head = self.head;
        self.add_text(alloc, draft)?;
        draft.copy(head.unit, head.unit.saturating_add(1))?;
        add_package_rows(draft, self.named, head.declared)?;
        draft.copy(head.imports, end_at(self.marks.rows, head.unit))?;
        Ok(())
    }

    // Adds a unit: that of the type, or one that stays.
    fn add_one(&self, alloc: Global, draft: &mut Draft, unit: u32) -> Result<(), ChangeFault>
        ensures ok { OnOk result (IsOrdered self.now.marks.now → self.now.head.unit + 1 < 2 ^ 32
            → draft.new ≡ spec.with_one self.now.marks.now self.now.head self.now.row self.now.named.now self.now.path.now draft.old unit) }
        ensures fault { IfErr result (λ fault. fault ≡ ChangeFault.OutOfMemory) }
    {
        let marks = self.marks;
        if unit == marks.unit_of(self.row) {
            self.add_moved(alloc, draft)
        } else {
            draft.keep(alloc, marks, unit)?;
            Ok(())
        }
    }

    // Adds these units.
    fn add_these(&self, alloc: Global, draft: &mut Draft, units: &[u32]) -> Result<(), ChangeFault>
        ensures ok { OnOk result (IsOrdered self.now.marks.now → self.now.head.unit + 1 < 2 ^ 32
            → draft.new ≡ spec.with_all self.now.marks.now self.now.head self.now.row self.now.named.now self.now.path.now units.now draft.old) }
        ensures fault { IfErr result (λ fault. fault ≡ ChangeFault.OutOfMemory) }
    {
        for unit in units {
            self.add_one(alloc, draft, *unit)?;
        }
        Ok(())
    }

    /// Adds all units in the order of their new paths.
    pub fn add_all(&self, alloc: Global, draft: &mut Draft) -> Result<(), ChangeFault>
        ensures ok { OnOk result (IsOrdered self.now.marks.now → self.now.head.unit + 1 < 2 ^ 32 → draft.old ≡ drafting.begun self.now.marks.now
            → draft.new ≡ spec.with_path self.now.marks.now self.now.head self.now.row self.now.named.now self.now.path.now) }
        ensures fault { IfErr result (λ fault. fault ≡ ChangeFault.OutOfMemory) }
    {
        let marks = self.marks;
        let order = order_with(alloc, marks, marks.unit_of(self.row), self.path.bytes())?;
        self.add_these(alloc, draft, &order)?;
        Ok(())
    }
}
