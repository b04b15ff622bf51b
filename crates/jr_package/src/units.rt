// The units of a package, and the imports of it.
ghost use Rattle.std.specs.Prelude.{◌≡◌, ◌<◌, ◌≤◌, ◌+◌, ◌^◌, ◌++◌, All, IfOk, IfSome, OnOk, length, map};
ghost use Rattle.jr_tree.specs.Rows.{label};
ghost use Rattle.jr_defs.specs.Referents.{entries};
ghost use Rattle.jr_marks.specs.Places.{IsOrdered};
ghost use Rattle.jr_package.specs.Repackaging as spec;

use jr_base::OutOfMemory;
use jr_defs::Referent;
use jr_draft::{Head, PRELUDE, count_units, head_of, name_below, name_of_package, unit_row};
use jr_marks::Marks;
use jr_tree::{ImportKind, Label, Row};
use std::alloc::Global;

/// A package by its name, and a program with what its names refer to.
#[derive(Clone, Copy)]
pub struct Package<'a> {
    pub marks: &'a Marks<'a>,
    pub table: &'a [Referent],
    pub from: &'a [u8],
}

fn is_on_demand(rows: &[Row], at: u32) -> bool
    ensures { result ≡ spec.is_on_demand (label rows.now at) }
{
    match rows.get(at as usize) {
        Some(row) => match row.label {
            Label::Import { kind } => is_kind_on_demand(kind),
            _ => false,
        },
        None => false,
    }
}

fn is_kind_on_demand(kind: ImportKind) -> bool
    ensures { result ≡ spec.is_kind_on_demand kind }
{
    match kind {
        ImportKind::OnDemand => true,
        _ => false,
    }
}

// The row refers to a package.
fn is_package(table: &[Referent], at: u32) -> bool
    ensures { result ≡ spec.is_package (entries table.now at) }
{
    match table.get(at as usize) {
        Some(Referent::Package) => true,
        _ => false,
    }
}

/// What stands in a unit before its types.
pub fn head_at(marks: &Marks, unit: u32) -> Head
    ensures is { IsOrdered marks.now → unit < length marks.now.units.now → result ≡ spec.head_at marks.now unit }
    ensures declared { IsOrdered marks.now → IfSome result.declared (λ row. row + 1 < 2 ^ 32) }
    ensures fits { IsOrdered marks.now → unit < length marks.now.units.now → result.unit + 1 < 2 ^ 32 }
{
    head_of(marks.rows, unit_row(marks, unit))
}

// Adds a number if it passes.
fn push_if(all: &mut Vec<u32>, passes: bool, number: u32) -> Result<(), OutOfMemory>
    ensures { OnOk result (all.new.items ≡ all.old.items ++ spec.only_if passes number) }
{
    if passes {
        all.push(number)?;
    }
    Ok(())
}

// Adds the last identifiers of the names in these imports.
fn push_names(all: &mut Vec<u32>, imports: &[u32]) -> Result<(), OutOfMemory>
    ensures { OnOk result (all.new.items ≡ all.old.items ++ map spec.last_of imports.now) }
{
    for at in imports {
        all.push(at.saturating_add(1))?;
    }
    Ok(())
}

impl<'a> Package<'a> {
    /// The unit is exactly in the package.
    pub fn has(&self, alloc: Global, unit: u32) -> Result<bool, OutOfMemory>
        ensures { IfOk result (λ has. IsOrdered self.now.marks.now → unit < length self.now.marks.now.units.now → has ≡ spec.is_of self.now.marks.now self.now.from.now unit) }
    {
        let marks = self.marks;
        let name = name_of_package(alloc, marks.rows, head_at(marks, unit).declared)?;
        Ok(name.as_slice() == self.from)
    }

    /// The units of the workspace that are in it.
    pub fn units(&self, alloc: Global) -> Result<Vec<u32>, OutOfMemory>
        ensures { IfOk result (λ all. IsOrdered self.now.marks.now → all.items ≡ spec.moved_units self.now.marks.now self.now.from.now) }
    {
        let mut all = Vec::new(alloc);
        for unit in PRELUDE..count_units(self.marks) {
            let has = self.has(alloc, unit)?;
            push_if(&mut all, has, unit)?;
        }
        Ok(all)
    }

    // The name below a row is that of the package.
    fn is_named(&self, alloc: Global, at: u32) -> Result<bool, OutOfMemory>
        ensures { IfOk result (λ is. at + 1 < 2 ^ 32 → is ≡ spec.has_name self.now.marks.now.rows.now self.now.from.now at) }
    {
        let marks = self.marks;
        let name = name_below(alloc, marks.rows, at)?;
        Ok(name.as_slice() == self.from)
    }

    // The row is an import on demand of the package, and not of a type of that name.
    fn is_imported(&self, alloc: Global, at: u32) -> Result<bool, OutOfMemory>
        ensures { IfOk result (λ is. at + 1 < 2 ^ 32 → is ≡ spec.imports_package self.now.marks.now.rows.now self.now.table.now self.now.from.now at) }
    {
        let marks = self.marks;
        if is_on_demand(marks.rows, at) && is_package(self.table, at.saturating_add(1)) {
            self.is_named(alloc, at)
        } else {
            Ok(false)
        }
    }

    /// The imports on demand of the package in a unit.
    pub fn imports(&self, alloc: Global, head: Head) -> Result<Vec<u32>, OutOfMemory>
        ensures all { IfOk result (λ all. all.items ≡ spec.imports_in self.now.marks.now.rows.now self.now.table.now self.now.from.now head) }
        ensures within { IfOk result (λ all. All (λ at. at + 1 < 2 ^ 32) all.items) }
    {
        let mut all = Vec::new(alloc);
        for at in head.imports..head.types {
            let is_one = self.is_imported(alloc, at)?;
            push_if(&mut all, is_one, at)?;
        }
        Ok(all)
    }

    // Adds the last identifiers of the names in those of a unit.
    fn add_names(&self, alloc: Global, all: &mut Vec<u32>, unit: u32) -> Result<(), OutOfMemory>
        ensures { OnOk result (IsOrdered self.now.marks.now → unit < length self.now.marks.now.units.now → 2 ≤ unit
            → all.new.items ≡ all.old.items ++ spec.names_of self.now.marks.now self.now.table.now self.now.from.now unit) }
    {
        let imports = self.imports(alloc, head_at(self.marks, unit))?;
        push_names(all, &imports)
    }

    /// The last identifiers of the names in all of them, as they rise.
    pub fn names(&self, alloc: Global) -> Result<Vec<u32>, OutOfMemory>
        ensures { IfOk result (λ all. IsOrdered self.now.marks.now → all.items ≡ spec.all_names self.now.marks.now self.now.table.now self.now.from.now) }
    {
        let mut all = Vec::new(alloc);
        for unit in PRELUDE..count_units(self.marks) {
            self.add_names(alloc, &mut all, unit)?;
        }
        Ok(all)
    }
}
