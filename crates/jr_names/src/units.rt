// Units in which rows get a name.
ghost use Rattle.std.specs.Prelude.{◌≡◌, ◌<◌, ◌↔◌, ◌++◌, ◌&&◌, true, nat_le, nat_lt, List, ℕ, IsTrue, IfErr, IfOk, IfSome, IsNone, OnOk, codes, length};
ghost use Rattle.jr_edits.specs.Place.{pushed};
ghost use Rattle.jr_marks.specs.Places.{IsOrdered, unit_of};
ghost use Rattle.jr_text.specs.Spans.{own_span};
ghost use Rattle.jr_plain.specs.Enclosing.{is_top_level};
ghost use Rattle.jr_change.specs.declared.reason.ChangeFault.TheVariants as ChangeFault;
ghost use Rattle.jr_draft.specs.Drafting as drafting;
ghost use Rattle.jr_names.specs.Renaming as spec;

use jr_base::{OutOfMemory, Path, Text};
use jr_change::{ChangeFault, UnitSource};
use jr_draft::{Draft, count_units, edits_of, order_with, path_in, path_of, unit_row};
use jr_edits::Edits;
use jr_marks::Marks;
use jr_places::{end_at, is_top_level, name_at};
use jr_text::own_span;
use std::alloc::Global;

// What stands before these bytes at the end.
#[tactic(auto, using(crate::proofs::Paths::stripped, crate::proofs::Paths::not_stripped))]
fn before<'a>(path: &'a [u8], tail: &[u8]) -> Option<&'a [u8]>
    ensures some { IfSome result (λ front. path.now ≡ front.now ++ tail.now) }
    ensures none { IsNone result → (front : List ℕ) → path.now ≡ front ++ tail.now → ⊥ }
{
    path.strip_suffix(tail)
}

fn is_folder(folder: &[u8]) -> bool
    ensures { IsTrue result ↔ spec.IsFolder folder.now }
{
    folder.is_empty() || folder.ends_with(b"/")
}

// The folder with its `/` of a file that has the name of a type.
fn folder_of<'a>(path: &'a [u8], name: &[u8]) -> Option<&'a [u8]>
    ensures some { IfSome result (λ folder. spec.IsFileOf path.now folder.now name.now) }
    ensures none { IsNone result → (folder : List ℕ) → spec.IsFileOf path.now folder name.now → ⊥ }
{
    match before(path, b".java") {
        Some(stem) => folder_before(path, stem, name),
        None => None,
    }
}

// The same, where this is the path without `.java`.
fn folder_before<'a>(path: &'a [u8], stem: &'a [u8], name: &[u8]) -> Option<&'a [u8]>
    requires { path.now ≡ stem.now ++ codes ".java" }
    ensures some { IfSome result (λ folder. spec.IsFileOf path.now folder.now name.now) }
    ensures none { IsNone result → (folder : List ℕ) → spec.IsFileOf path.now folder name.now → ⊥ }
{
    match before(stem, name) {
        Some(folder) => {
            if is_folder(folder) {
                Some(folder)
            } else {
                None
            }
        }
        None => None,
    }
}

// The path of the unit of a top-level type that gets a name: it takes along the file that has its name.
#[tactic(auto, using(crate::proofs::Paths::other_path))]
fn path_along(
    alloc: Global,
    marks: &Marks,
    declared: u32,
    to: &[u8],
    path: Path,
) -> Result<Path, OutOfMemory>
    ensures { IfOk result (λ new. path ≡ drafting.path_of marks.now (unit_of marks.now declared) → is_top_level marks.now.rows.now declared ≡ true
        → spec.IsPathWith marks.now declared to.now new) }
{
    match folder_of(path.bytes(), name_at(marks.rows, declared)) {
        Some(folder) => path_in(alloc, folder, to),
        None => Ok(path),
    }
}

/// The path of the unit of a declaration that gets a name.
#[tactic(auto, using(crate::proofs::Paths::top_path, crate::proofs::Paths::inside_path))]
pub fn path_with(
    alloc: Global,
    marks: &Marks,
    declared: u32,
    to: &[u8],
) -> Result<Path, OutOfMemory>
    ensures { IfOk result (λ path. IsOrdered marks.now → spec.IsPathWith marks.now declared to.now path) }
{
    let path = path_of(alloc, marks, marks.unit_of(declared))?;
    if is_top_level(marks.rows, declared) {
        path_along(alloc, marks, declared, to, path)
    } else {
        Ok(path)
    }
}

/// Rows that get a name.
#[derive(Clone, Copy)]
pub struct Renaming<'a> {
    /// The unit that goes to this path.
    pub moved: u32,
    pub path: &'a Path,
    pub rows: &'a [u32],
    pub to: &'a [u8],
}

fn is_between(first: u32, end: u32, row: u32) -> bool
    ensures { result ≡ (nat_le first row && nat_lt row end) }
{
    first <= row && row < end
}

fn stands_in(marks: &Marks, unit: u32, row: u32) -> bool
    ensures { IsOrdered marks.now → unit < length marks.now.units.now → result ≡ spec.stands_in marks.now unit row }
{
    let first = unit_row(marks, unit);
    is_between(first, end_at(marks.rows, first), row)
}

// Some of these rows stand in the unit.
#[tactic(auto, using(crate::proofs::Named::some_now, crate::proofs::Named::some_next, crate::proofs::Named::some_end))]
fn has_some(marks: &Marks, unit: u32, rows: &[u32]) -> bool
    ensures { IsOrdered marks.now → unit < length marks.now.units.now → result ≡ spec.has_some marks.now unit rows.now }
{
    for row in rows {
        if stands_in(marks, unit, *row) {
            return true;
        }
    }
    false
}

// The identifier of a row becomes another one.
fn replace(
    alloc: Global,
    edits: &mut Edits,
    marks: &Marks,
    to: &[u8],
    row: u32,
) -> Result<(), ChangeFault>
    ensures ok { OnOk result (IsOrdered marks.now → edits.new ≡ pushed edits.old (own_span marks.now row) to.now) }
    ensures fault { IfErr result (λ fault. fault ≡ ChangeFault.OutOfMemory) }
{
    edits.push(own_span(marks, row), Text::of(alloc, to)?)?;
    Ok(())
}

// The identifier of a row becomes another one, if it stands in the unit.
fn replace_at(
    alloc: Global,
    edits: &mut Edits,
    marks: &Marks,
    to: &[u8],
    unit: u32,
    row: u32,
) -> Result<(), ChangeFault>
    ensures ok { OnOk result (IsOrdered marks.now → unit < length marks.now.units.now → edits.new ≡ spec.renamed_at marks.now to.now unit row edits.old) }
    ensures fault { IfErr result (λ fault. fault ≡ ChangeFault.OutOfMemory) }
{
    if stands_in(marks, unit, row) {
        replace(alloc, edits, marks, to, row)
    } else {
        Ok(())
    }
}

// The identifiers of those of some rows that stand in the unit become another one.
fn replace_all(
    alloc: Global,
    edits: &mut Edits,
    marks: &Marks,
    to: &[u8],
    unit: u32,
    rows: &[u32],
) -> Result<(), ChangeFault>
    ensures ok { OnOk result (IsOrdered marks.now → unit < length marks.now.units.now → edits.new ≡ spec.renamed_in marks.now to.now unit rows.now edits.old) }
    ensures fault { IfErr result (λ fault. fault ≡ ChangeFault.OutOfMemory) }
{
    for row in rows {
        replace_at(alloc, edits, marks, to, unit, *row)?;
    }
    Ok(())
}

// The edits of a unit in which rows get a name.
fn edits_in(
    alloc: Global,
    marks: &Marks,
    to: &[u8],
    unit: u32,
    rows: &[u32],
) -> Result<Edits, ChangeFault>
    ensures ok { IfOk result (λ edits. IsOrdered marks.now → unit < length marks.now.units.now → edits ≡ spec.edited_in marks.now to.now unit rows.now) }
    ensures fault { IfErr result (λ fault. fault ≡ ChangeFault.OutOfMemory) }
{
    let mut edits = edits_of(alloc, marks, unit_row(marks, unit))?;
    replace_all(alloc, &mut edits, marks, to, unit, rows)?;
    Ok(edits)
}

impl<'a> Renaming<'a> {
    // The path that a unit gets.
    fn path_of(&self, alloc: Global, marks: &Marks, unit: u32) -> Result<Path, OutOfMemory>
        ensures { IfOk result (λ path. path ≡ spec.path_with marks.now self.now.moved self.now.path.now unit) }
    {
        if unit == self.moved {
            self.path.copy(alloc)
        } else {
            path_of(alloc, marks, unit)
        }
    }

    // The text that a unit gets.
    fn source_of(&self, alloc: Global, marks: &Marks, unit: u32) -> Result<UnitSource, ChangeFault>
        ensures ok { IfOk result (λ source. IsOrdered marks.now → unit < length marks.now.units.now → source ≡ spec.source_of marks.now self.now.to.now unit self.now.rows.now) }
        ensures fault { IfErr result (λ fault. fault ≡ ChangeFault.OutOfMemory) }
    {
        if has_some(marks, unit, self.rows) {
            let edits = edits_in(alloc, marks, self.to, unit, self.rows)?;
            Ok(UnitSource::Edited { unit, edits })
        } else {
            Ok(UnitSource::Kept(unit))
        }
    }

    // Adds a unit and its rows; there is no memory for one that is not there.
    fn add_unit(
        &self,
        alloc: Global,
        draft: &mut Draft,
        marks: &Marks,
        unit: u32,
    ) -> Result<(), ChangeFault>
        ensures ok { OnOk result (IsOrdered marks.now → draft.new ≡ spec.with_one marks.now self.now.moved self.now.path.now self.now.to.now self.now.rows.now draft.old unit) }
        ensures fault { IfErr result (λ fault. fault ≡ ChangeFault.OutOfMemory) }
    {
        if unit >= count_units(marks) {
            return Err(ChangeFault::OutOfMemory);
        }
        let source = self.source_of(alloc, marks, unit)?;
        draft.add(self.path_of(alloc, marks, unit)?, source)?;
        draft.copy_unit(marks, unit)?;
        Ok(())
    }

    // Adds these units.
    fn add_these(
        &self,
        alloc: Global,
        draft: &mut Draft,
        marks: &Marks,
        units: &[u32],
    ) -> Result<(), ChangeFault>
        ensures ok { OnOk result (IsOrdered marks.now
            → draft.new ≡ spec.with_all marks.now self.now.moved self.now.path.now self.now.to.now self.now.rows.now units.now draft.old) }
        ensures fault { IfErr result (λ fault. fault ≡ ChangeFault.OutOfMemory) }
    {
        for unit in units {
            self.add_unit(alloc, draft, marks, *unit)?;
        }
        Ok(())
    }

    /// Adds all units in the order of their new paths, with copies of their rows.
    #[tactic(auto, using(crate::proofs::Named::order_so))]
    pub fn add_all(
        &self,
        alloc: Global,
        draft: &mut Draft,
        marks: &Marks,
    ) -> Result<(), ChangeFault>
        ensures ok { OnOk result (IsOrdered marks.now → draft.old ≡ drafting.begun marks.now
            → draft.new ≡ spec.renamed marks.now self.now.moved self.now.path.now self.now.to.now self.now.rows.now) }
        ensures fault { IfErr result (λ fault. fault ≡ ChangeFault.OutOfMemory) }
    {
        let order = order_with(alloc, marks, self.moved, self.path.bytes())?;
        self.add_these(alloc, draft, marks, &order)
    }
}
