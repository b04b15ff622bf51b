// Units that go to the folder of another package, and those that stay, in the order of their new paths.
ghost use Rattle.std.specs.Prelude.{◌≡◌, ◌<◌, ◌+◌, ◌^◌, All, IfErr, IfOk, OnOk, length};
ghost use Rattle.jr_marks.specs.Places.{IsOrdered};
ghost use Rattle.jr_edits.specs.Place.{pushed};
ghost use Rattle.jr_text.specs.Spans.{tokens_span};
ghost use Rattle.jr_draft.specs.Drafting.{copied, with_unit};
ghost use Rattle.jr_tree.specs.Rows.{end};
ghost use Rattle.jr_package.specs.Repackaging as spec;

use crate::units::{Package, head_at};
use jr_base::{OutOfMemory, Path, Text};
use jr_change::{ChangeFault, Target, UnitSource};
use jr_draft::{
    Draft, Head, PRELUDE, add_package_rows, behind_last, count_identifiers, count_units, edits_of,
    is_before, path_below, path_of,
};
use jr_edits::Edits;
use jr_marks::Marks;
use jr_places::end_at;
use jr_text::tokens_span;
use std::alloc::Global;

/// A package that gets a name, and the folder of that with its `/`.
#[derive(Clone, Copy)]
pub struct Moving<'a> {
    pub named: &'a Package<'a>,
    pub folder: &'a [u8],
    pub to: &'a [u8],
}

// What is known of a unit: its head, and the imports of the package in it.
#[derive(Clone, Copy)]
struct Known<'a> {
    unit: u32,
    head: Head,
    imports: &'a [u32],
}

// In the unit of these edits the name below a row becomes another one.
fn replace(
    alloc: Global,
    edits: &mut Edits,
    marks: &Marks,
    to: &[u8],
    at: u32,
) -> Result<(), ChangeFault>
    ensures ok { OnOk result (IsOrdered marks.now → edits.new ≡ pushed edits.old (tokens_span marks.now (spec.last_of at)) to.now) }
    ensures fault { IfErr result (λ fault. fault ≡ ChangeFault.OutOfMemory) }
{
    edits.push(
        tokens_span(marks, at.saturating_add(1)),
        Text::of(alloc, to)?,
    )?;
    Ok(())
}

// The names in these imports become another one.
fn replace_all(
    alloc: Global,
    edits: &mut Edits,
    marks: &Marks,
    to: &[u8],
    imports: &[u32],
) -> Result<(), ChangeFault>
    ensures ok { OnOk result (IsOrdered marks.now → edits.new ≡ spec.replaced marks.now to.now imports.now edits.old) }
    ensures fault { IfErr result (λ fault. fault ≡ ChangeFault.OutOfMemory) }
{
    for at in imports {
        replace(alloc, edits, marks, to, *at)?;
    }
    Ok(())
}

// The name in the package declaration becomes another one.
fn redeclare(
    alloc: Global,
    edits: &mut Edits,
    marks: &Marks,
    to: &[u8],
    declared: Option<u32>,
) -> Result<(), ChangeFault>
    ensures ok { OnOk result (IsOrdered marks.now → edits.new ≡ spec.redeclared marks.now to.now declared edits.old) }
    ensures fault { IfErr result (λ fault. fault ≡ ChangeFault.OutOfMemory) }
{
    match declared {
        Some(declared) => replace(alloc, edits, marks, to, declared),
        None => Ok(()),
    }
}

// The edits of a unit, in which these names become another one.
fn edits_in(
    alloc: Global,
    marks: &Marks,
    to: &[u8],
    row: u32,
    declared: Option<u32>,
    imports: &[u32],
) -> Result<Edits, ChangeFault>
    ensures ok { IfOk result (λ edits. IsOrdered marks.now → edits ≡ spec.edited_in marks.now to.now row declared imports.now) }
    ensures fault { IfErr result (λ fault. fault ≡ ChangeFault.OutOfMemory) }
{
    let mut edits = edits_of(alloc, marks, row)?;
    redeclare(alloc, &mut edits, marks, to, declared)?;
    replace_all(alloc, &mut edits, marks, to, imports)?;
    Ok(edits)
}

// Adds the rows of a name: the last identifier is that of the old one, those before it come from no old row.
fn add_name(draft: &mut Draft, to: &[u8], name: u32) -> Result<(), OutOfMemory>
    ensures { OnOk result (draft.new ≡ spec.with_name to.now name draft.old) }
{
    draft.turned(name)?;
    add_qualifiers(draft, count_identifiers(to).saturating_sub(1))
}

// Adds so many identifiers that name a package and come from no old row.
fn add_qualifiers(draft: &mut Draft, count: u32) -> Result<(), OutOfMemory>
    ensures { OnOk result (draft.new ≡ spec.with_qualifiers count draft.old) }
{
    for _qualifier in 0..count {
        draft.refer(Target::Package, None)?;
    }
    Ok(())
}

// Adds the rows of a unit from this one on, where the names in these imports are new.
fn add_rows(
    draft: &mut Draft,
    marks: &Marks,
    to: &[u8],
    unit: u32,
    first: u32,
    imports: &[u32],
) -> Result<(), OutOfMemory>
    ensures { OnOk result (unit + 1 < 2 ^ 32 → All (λ at. at + 1 < 2 ^ 32) imports.now
        → draft.new ≡ spec.with_imports marks.now.rows.now to.now unit first imports.now draft.old) }
{
    let mut from = first;
    for at in imports {
        let name = at.saturating_add(1);
        draft.copy(from, name)?;
        add_name(draft, to, name)?;
        from = end_at(marks.rows, *at);
    }
    add_end(draft, marks, unit, from)?;
    Ok(())
}

// Adds the rows of a unit from this one on.
fn add_end(draft: &mut Draft, marks: &Marks, unit: u32, first: u32) -> Result<(), OutOfMemory>
    ensures { OnOk result (unit + 1 < 2 ^ 32 → draft.new ≡ copied draft.old first (end marks.now.rows.now unit)) }
{
    draft.copy(first, end_at(marks.rows, unit))
}

impl<'a> Moving<'a> {
    // The path of a unit in the folder.
    fn new_path(&self, alloc: Global, unit: u32) -> Result<Path, OutOfMemory>
        ensures { IfOk result (λ path. path ≡ spec.new_path self.now.named.now.marks.now self.now.folder.now unit) }
    {
        let named = self.named;
        let path = path_of(alloc, named.marks, unit)?;
        path_below(alloc, self.folder, behind_last(path.bytes(), b'/'))
    }

    // A unit that moves stands before one that stays.
    fn is_before(&self, alloc: Global, next: u32, unit: u32) -> Result<bool, OutOfMemory>
        ensures { IfOk result (λ is. is ≡ spec.stands_before self.now.named.now.marks.now self.now.folder.now next unit) }
    {
        let named = self.named;
        let path = self.new_path(alloc, next)?;
        Ok(is_before(named.marks, path.bytes(), next, unit))
    }

    // Adds the units that move as far as they stand before one that stays. It gives those that are left.
    fn merge_before<'u>(
        &self,
        alloc: Global,
        units: &mut Vec<u32>,
        left: &'u [u32],
        unit: u32,
    ) -> Result<&'u [u32], OutOfMemory>
        ensures { IfOk result (λ rest. record { units = units.new.items; left = rest.now }
            ≡ spec.merged_before self.now.named.now.marks.now self.now.folder.now unit units.old.items left.now) }
    {
        let mut rest = left;
        while let Some((next, after)) = rest.split_first() {
            if !self.is_before(alloc, *next, unit)? {
                return Ok(rest);
            }
            units.push(*next)?;
            rest = after;
        }
        Ok(rest)
    }

    // Adds a unit if it stays, and before it those that move as far as they stand before it.
    fn merge<'u>(
        &self,
        alloc: Global,
        units: &mut Vec<u32>,
        left: &'u [u32],
        unit: u32,
    ) -> Result<&'u [u32], OutOfMemory>
        ensures { IfOk result (λ rest. IsOrdered self.now.named.now.marks.now → unit < length self.now.named.now.marks.now.units.now
            → record { units = units.new.items; left = rest.now }
            ≡ spec.merged_step self.now.named.now.marks.now self.now.folder.now self.now.named.now.from.now unit (record { units = units.old.items; left = left.now })) }
    {
        let named = self.named;
        if named.has(alloc, unit)? {
            return Ok(left);
        }
        let rest = self.merge_before(alloc, units, left, unit)?;
        units.push(unit)?;
        Ok(rest)
    }

    // All units of the workspace in the order of their new paths.
    fn order(&self, alloc: Global, moved: &[u32]) -> Result<Vec<u32>, OutOfMemory>
        ensures { IfOk result (λ order. IsOrdered self.now.named.now.marks.now
            → order.items ≡ spec.new_order self.now.named.now.marks.now self.now.folder.now self.now.named.now.from.now moved.now) }
    {
        let named = self.named;
        let mut units = Vec::new(alloc);
        let mut left = moved;
        for unit in PRELUDE..count_units(named.marks) {
            left = self.merge(alloc, &mut units, left, unit)?;
        }
        units.extend_from_slice(left)?;
        Ok(units)
    }

    // Adds a unit that goes to the folder, but not its rows.
    fn add_moved_text(&self, alloc: Global, draft: &mut Draft, of: Known) -> Result<(), ChangeFault>
        ensures ok { OnOk result (IsOrdered self.now.named.now.marks.now
            → draft.new ≡ with_unit draft.old (spec.moved_unit self.now.named.now.marks.now self.now.folder.now self.now.to.now of.entry.unit of.entry.head of.entry.imports.now)) }
        ensures fault { IfErr result (λ fault. fault ≡ ChangeFault.OutOfMemory) }
    {
        let named = self.named;
        let unit = of.unit;
        let edits = edits_in(
            alloc,
            named.marks,
            self.to,
            of.head.unit,
            of.head.declared,
            of.imports,
        )?;
        draft.add(
            self.new_path(alloc, unit)?,
            UnitSource::Edited { unit, edits },
        )?;
        Ok(())
    }

    // Adds a unit that goes to the folder.
    fn add_moved(&self, alloc: Global, draft: &mut Draft, of: Known) -> Result<(), ChangeFault>
        ensures ok { OnOk result (IsOrdered self.now.named.now.marks.now → of.entry.head.unit + 1 < 2 ^ 32 → All (λ at. at + 1 < 2 ^ 32) of.entry.imports.now
            → draft.new ≡ spec.with_moved self.now.named.now.marks.now self.now.folder.now self.now.to.now of.entry.unit of.entry.head of.entry.imports.now draft.old) }
        ensures fault { IfErr result (λ fault. fault ≡ ChangeFault.OutOfMemory) }
    {
        let named = self.named;
        let head = of.head;
        self.add_moved_text(alloc, draft, of)?;
        draft.copy(head.unit, head.unit.saturating_add(1))?;
        add_package_rows(draft, self.to, head.declared)?;
        add_rows(
            draft,
            named.marks,
            self.to,
            head.unit,
            head.imports,
            of.imports,
        )?;
        Ok(())
    }

    // Adds a unit that stays, and in which imports name the package.
    fn add_importing(&self, alloc: Global, draft: &mut Draft, of: Known) -> Result<(), ChangeFault>
        ensures ok { OnOk result (IsOrdered self.now.named.now.marks.now → of.entry.head.unit + 1 < 2 ^ 32 → All (λ at. at + 1 < 2 ^ 32) of.entry.imports.now
            → draft.new ≡ spec.with_importing self.now.named.now.marks.now self.now.to.now of.entry.unit of.entry.head of.entry.imports.now draft.old) }
        ensures fault { IfErr result (λ fault. fault ≡ ChangeFault.OutOfMemory) }
    {
        let named = self.named;
        let unit = of.unit;
        let row = of.head.unit;
        let edits = edits_in(alloc, named.marks, self.to, row, None, of.imports)?;
        draft.add(
            path_of(alloc, named.marks, unit)?,
            UnitSource::Edited { unit, edits },
        )?;
        add_rows(draft, named.marks, self.to, row, row, of.imports)?;
        Ok(())
    }

    // Adds a unit that stays.
    fn add_stayed(&self, alloc: Global, draft: &mut Draft, of: Known) -> Result<(), ChangeFault>
        ensures ok { OnOk result (IsOrdered self.now.named.now.marks.now → of.entry.head.unit + 1 < 2 ^ 32 → All (λ at. at + 1 < 2 ^ 32) of.entry.imports.now
            → draft.new ≡ spec.with_stayed self.now.named.now.marks.now self.now.to.now of.entry.unit of.entry.head of.entry.imports.now draft.old) }
        ensures fault { IfErr result (λ fault. fault ≡ ChangeFault.OutOfMemory) }
    {
        let named = self.named;
        if of.imports.is_empty() {
            draft.keep(alloc, named.marks, of.unit)?;
            return Ok(());
        }
        self.add_importing(alloc, draft, of)?;
        Ok(())
    }

    // Adds a unit, which has these imports of the package.
    fn add_either(&self, alloc: Global, draft: &mut Draft, of: Known) -> Result<(), ChangeFault>
        ensures ok { OnOk result (IsOrdered self.now.named.now.marks.now → of.entry.unit < length self.now.named.now.marks.now.units.now
            → of.entry.head.unit + 1 < 2 ^ 32 → All (λ at. at + 1 < 2 ^ 32) of.entry.imports.now
            → draft.new ≡ spec.with_either self.now.named.now.marks.now self.now.folder.now self.now.named.now.from.now self.now.to.now of.entry.unit of.entry.head of.entry.imports.now draft.old) }
        ensures fault { IfErr result (λ fault. fault ≡ ChangeFault.OutOfMemory) }
    {
        let named = self.named;
        let has = named.has(alloc, of.unit)?;
        if has {
            self.add_moved(alloc, draft, of)?;
            return Ok(());
        }
        self.add_stayed(alloc, draft, of)?;
        Ok(())
    }

    // Adds a unit; there is no memory for one that is not there.
    fn add_one(&self, alloc: Global, draft: &mut Draft, unit: u32) -> Result<(), ChangeFault>
        ensures ok { OnOk result (IsOrdered self.now.named.now.marks.now
            → draft.new ≡ spec.with_one self.now.named.now.marks.now self.now.named.now.table.now self.now.folder.now self.now.named.now.from.now self.now.to.now draft.old unit) }
        ensures fault { IfErr result (λ fault. fault ≡ ChangeFault.OutOfMemory) }
    {
        let named = self.named;
        if unit >= count_units(named.marks) {
            return Err(ChangeFault::OutOfMemory);
        }
        let head = head_at(named.marks, unit);
        let imports = named.imports(alloc, head)?;
        let these = imports.as_slice();
        let of = Known {
            unit,
            head,
            imports: these,
        };
        self.add_either(alloc, draft, of)?;
        Ok(())
    }

    // Adds these units.
    fn add_these(&self, alloc: Global, draft: &mut Draft, units: &[u32]) -> Result<(), ChangeFault>
        ensures ok { OnOk result (IsOrdered self.now.named.now.marks.now
            → draft.new ≡ spec.with_all self.now.named.now.marks.now self.now.named.now.table.now self.now.folder.now self.now.named.now.from.now self.now.to.now units.now draft.old) }
        ensures fault { IfErr result (λ fault. fault ≡ ChangeFault.OutOfMemory) }
    {
        for unit in units {
            self.add_one(alloc, draft, *unit)?;
        }
        Ok(())
    }

    /// Adds all units of the workspace, of which these move, in the order of their new paths.
    pub fn add_all(
        &self,
        alloc: Global,
        draft: &mut Draft,
        moved: &[u32],
    ) -> Result<(), ChangeFault>
        ensures ok { OnOk result (IsOrdered self.now.named.now.marks.now
            → draft.new ≡ spec.with_order self.now.named.now.marks.now self.now.named.now.table.now self.now.folder.now self.now.named.now.from.now self.now.to.now moved.now draft.old) }
        ensures fault { IfErr result (λ fault. fault ≡ ChangeFault.OutOfMemory) }
    {
        let order = self.order(alloc, moved)?;
        self.add_these(alloc, draft, &order)
    }
}
