// Units that lose a declaration, and types that leave their unit for one of their own.
ghost use Rattle.std.specs.Prelude.{◌≡◌, ◌<◌, ◌≤◌, ◌+◌, ◌^◌, ◌++◌, IfErr, IfOk, IfSome, OnOk, length};
ghost use Rattle.jr_marks.specs.Places.{IsOrdered};
ghost use Rattle.jr_change.specs.declared.change.Course.TheVariants as course;
ghost use Rattle.jr_draft.specs.Drafting as drafting;
ghost use Rattle.jr_draft.specs.Packages as packages;
ghost use Rattle.jr_draft.specs.Parting as parting;

use crate::asking::count_units;
use crate::draft::{Draft, edits_of, unit_row};
use crate::order::{order_with, path_of};
use crate::packages::{Head, count_identifiers, declaration_of, is_import, path_of_type};
use jr_base::{OutOfMemory, Path, Span, Text};
use jr_change::{Change, ChangeFault, RowRange, UnitSource};
use jr_marks::Marks;
use jr_places::{end_at, name_at};
use jr_text::{part, tokens_span, unit_bytes};
use std::alloc::Global;

/// Adds an old unit without some of its rows and the bytes at which they stand.
pub fn add_without(
    alloc: Global,
    draft: &mut Draft,
    marks: &Marks,
    rows: RowRange,
    span: Span,
) -> Result<(), ChangeFault>
    ensures ok { OnOk result (IsOrdered marks.now → draft.new ≡ drafting.without marks.now rows span draft.old) }
    ensures fault { IfErr result (λ fault. fault ≡ ChangeFault.OutOfMemory) }
{
    let unit = marks.unit_of(rows.first);
    let row = unit_row(marks, unit);
    let mut edits = edits_of(alloc, marks, rows.first)?;
    edits.push(span, Text::of(alloc, &[])?)?;
    draft.add(
        path_of(alloc, marks, unit)?,
        UnitSource::Edited { unit, edits },
    )?;
    draft.copy(row, rows.first)?;
    draft.copy(rows.end, end_at(marks.rows, row))?;
    Ok(())
}

/// A type that leaves its unit for a new one. Contracts see what it holds.
#[derive(Clone, Copy)]
pub struct Leaving<'a> {
    /// What stands before the types of the unit that it leaves.
    pub head: Head,
    /// The row of the type.
    pub row: u32,
    /// The row gets another label.
    pub is_turned: bool,
    /// The package of the new unit.
    pub named: &'a [u8],
    /// The bytes that stand behind the imports of the new unit.
    pub declaration: &'a [u8],
    /// The bytes that go from the old unit.
    pub span: Span,
}

// Adds the bytes of an import, with LF.
fn add_import(out: &mut Vec<u8>, marks: &Marks, head: Head, at: u32) -> Result<(), OutOfMemory>
    ensures { OnOk result (IsOrdered marks.now → head.imports ≤ at → out.new.items ≡ out.old.items ++ parting.import_line marks.now head at) }
{
    if is_import(marks.rows, at) {
        out.extend_from_slice(part(unit_bytes(marks, head.unit), tokens_span(marks, at)))?;
        out.push(b'\n')?;
    }
    Ok(())
}

// Adds the bytes of the imports of a unit, each with LF.
fn add_imports(out: &mut Vec<u8>, marks: &Marks, head: Head) -> Result<(), OutOfMemory>
    ensures { OnOk result (IsOrdered marks.now → out.new.items ≡ out.old.items ++ parting.import_lines marks.now head) }
{
    for at in head.imports..head.types {
        add_import(out, marks, head, at)?;
    }
    Ok(())
}

// The text of the new unit.
fn text_apart(alloc: Global, marks: &Marks, leaving: &Leaving) -> Result<Text, OutOfMemory>
    ensures { IfOk result (λ text. IsOrdered marks.now → text ≡ parting.text_apart marks.now (parting.parted leaving.now)) }
{
    let mut out = declaration_of(alloc, leaving.named)?;
    add_imports(&mut out, marks, leaving.head)?;
    out.extend_from_slice(leaving.declaration)?;
    out.push(b'\n')?;
    Ok(Text::new(out))
}

// Adds the row of a package declaration, which is a copy where there was one.
fn add_declared_row(draft: &mut Draft, declared: Option<u32>) -> Result<(), OutOfMemory>
    ensures { OnOk result (draft.new ≡ packages.declared_row draft.old declared) }
{
    match declared {
        Some(row) => draft.copy(row, row.saturating_add(1)),
        None => draft.glue(1),
    }
}

/// Adds the rows of the package declaration of a unit that has another package now, where it had one or none. No old row is the origin of an
/// identifier there, since these refer to nothing.
#[tactic(auto, using(crate::proofs::Building::rows_some, crate::proofs::Building::rows_none))]
pub fn add_package_rows(
    draft: &mut Draft,
    named: &[u8],
    declared: Option<u32>,
) -> Result<(), OutOfMemory>
    ensures { OnOk result (draft.new ≡ packages.with_package_rows named.now declared draft.old) }
{
    if named.is_empty() {
        return Ok(());
    }
    add_declared_row(draft, declared)?;
    draft.glue(count_identifiers(named))
}

// Adds the rows of the type.
fn add_type_rows(draft: &mut Draft, marks: &Marks, leaving: &Leaving) -> Result<(), OutOfMemory>
    ensures { OnOk result (leaving.now.row + 1 < 2 ^ 32 → draft.new ≡ parting.with_type marks.now (parting.parted leaving.now) draft.old) }
{
    let end = end_at(marks.rows, leaving.row);
    if leaving.is_turned {
        draft.turned(leaving.row)?;
        draft.copy(leaving.row.saturating_add(1), end)
    } else {
        draft.copy(leaving.row, end)
    }
}

// Adds the rows of the new unit.
fn add_rows_apart(draft: &mut Draft, marks: &Marks, leaving: &Leaving) -> Result<(), OutOfMemory>
    ensures { OnOk result (leaving.now.row + 1 < 2 ^ 32 → draft.new ≡ parting.with_rows_apart marks.now (parting.parted leaving.now) draft.old) }
{
    draft.glue(1)?;
    add_package_rows(draft, leaving.named, None)?;
    draft.copy(leaving.head.imports, leaving.head.types)?;
    add_type_rows(draft, marks, leaving)
}

// Adds the new unit.
fn add_apart(
    alloc: Global,
    draft: &mut Draft,
    marks: &Marks,
    leaving: &Leaving,
    path: &Path,
) -> Result<(), OutOfMemory>
    ensures { OnOk result (IsOrdered marks.now → leaving.now.row + 1 < 2 ^ 32
        → draft.new ≡ parting.with_apart marks.now (parting.parted leaving.now) path.now draft.old) }
{
    let text = text_apart(alloc, marks, leaving)?;
    draft.add(path.copy(alloc)?, UnitSource::New(text))?;
    add_rows_apart(draft, marks, leaving)
}

// The rows of the type, in the unit that it leaves.
fn rows_of(marks: &Marks, leaving: &Leaving) -> RowRange
    ensures { leaving.now.row + 1 < 2 ^ 32 → result ≡ parting.rows_parted marks.now (parting.parted leaving.now) }
{
    RowRange {
        first: leaving.row,
        end: end_at(marks.rows, leaving.row),
    }
}

// Adds a unit: the new one, whose number is behind the old ones, the old one without the type, or one that stays.
fn add_one(
    alloc: Global,
    draft: &mut Draft,
    marks: &Marks,
    leaving: &Leaving,
    path: &Path,
    unit: u32,
) -> Result<(), ChangeFault>
    ensures ok { OnOk result (IsOrdered marks.now → leaving.now.row + 1 < 2 ^ 32
        → draft.new ≡ parting.with_one marks.now (parting.parted leaving.now) path.now draft.old unit) }
    ensures fault { IfErr result (λ fault. fault ≡ ChangeFault.OutOfMemory) }
{
    if unit == count_units(marks) {
        add_apart(alloc, draft, marks, leaving, path)?;
        Ok(())
    } else if unit == marks.unit_of(leaving.row) {
        add_without(alloc, draft, marks, rows_of(marks, leaving), leaving.span)
    } else {
        draft.keep(alloc, marks, unit)?;
        Ok(())
    }
}

// Adds all units in this order.
fn add_units(
    alloc: Global,
    draft: &mut Draft,
    marks: &Marks,
    leaving: &Leaving,
    path: &Path,
    order: &[u32],
) -> Result<(), ChangeFault>
    ensures ok { OnOk result (IsOrdered marks.now → leaving.now.row + 1 < 2 ^ 32
        → draft.new ≡ parting.with_all marks.now (parting.parted leaving.now) path.now order.now draft.old) }
    ensures fault { IfErr result (λ fault. fault ≡ ChangeFault.OutOfMemory) }
{
    for unit in order {
        add_one(alloc, draft, marks, leaving, path, *unit)?;
    }
    Ok(())
}

impl<'a> Leaving<'a> {
    /// The change in which the type leaves its unit for one of its name in the folder of the package: the package declaration, the imports of the old
    /// unit and the declaration, each with LF. The new unit is numbered behind the old ones.
    pub fn to_own_file(&self, alloc: Global, marks: &Marks) -> Result<Change, ChangeFault>
        ensures ok { IfOk result (λ change. IsOrdered marks.now → self.now.row + 1 < 2 ^ 32
            → drafting.IsFinished (parting.parted_of marks.now (parting.parted self.now)) course.Same change) }
        ensures fault { IfErr result (λ fault. fault ≡ ChangeFault.OutOfMemory) }
    {
        let path = path_of_type(alloc, self.named, name_at(marks.rows, self.row))?;
        let order = order_with(alloc, marks, count_units(marks), path.bytes())?;
        let mut draft = Draft::new(alloc, marks)?;
        add_units(alloc, &mut draft, marks, self, &path, &order)?;
        Ok(draft.finish())
    }
}
