// Large tables in boxes: what holds several of them stays small.
ghost use Rattle.std.specs.Prelude.{◌≡◌, Ok, IfOk};
ghost use Rattle.jr_tree.specs.Tree.{IsTree};
ghost use Rattle.jr_defs.specs.Referents.{entries};
ghost use Rattle.jr_supers.specs.Direct.{HasSupers};
ghost use Rattle.jr_supers.specs.Supers.{IsWellHeaded, HasNoCycle, AreSupersOf};
ghost use Rattle.jr_supers.specs.Tabled.{IsSized};
ghost use Rattle.jr_members.specs.Sources.{ArePlaced, AreSeen};
ghost use Rattle.jr_members.specs.Worlds.{AreMembersOf};
ghost use Rattle.jr_lookup.specs.Imports.{AreImports};
ghost use Rattle.jr_constants.specs.Tables.{picks};
ghost use Rattle.jr_constants.specs.Resting.{IsAtRest};

use jr_base::OutOfMemory;
use jr_constants::Constants;
use jr_lookup::Imports;
use jr_members::Members;
use jr_supers::{Supers, Tabled};
use jr_tree::Row;
use std::alloc::Global;

/// What was made, in a box.
pub fn boxed<T: Drop>(alloc: Global, made: Result<T, OutOfMemory>) -> Result<Box<T>, OutOfMemory>
    ensures { IfOk result (λ all. made ≡ Ok all.value) }
{
    Ok(Box::new(alloc, made?)?)
}

/// Puts what was made in place of what is in the box.
pub fn put<T: Drop>(place: &mut Box<T>, made: Result<T, OutOfMemory>) -> Result<(), OutOfMemory> {
    **place = made?;
    Ok(())
}

/// The supertypes under a table.
pub fn supers_of(alloc: Global, under: Tabled) -> Result<Box<Supers>, OutOfMemory>
    ensures direct { IsWellHeaded under.entry.rows.now → IfOk result (λ supers. HasSupers under.entry.rows.now (entries under.entry.table.now) supers.value.direct.supers) }
    ensures all { IsWellHeaded under.entry.rows.now → HasNoCycle under.entry.rows.now (entries under.entry.table.now) → IfOk result (λ supers. AreSupersOf under.entry.rows.now (entries under.entry.table.now) supers.value) }
{
    boxed(alloc, Supers::of(alloc, under))
}

/// The supertypes of no types.
pub fn supers_none(alloc: Global, rows: &[Row]) -> Result<Box<Supers>, OutOfMemory> {
    boxed(alloc, Supers::none(alloc, rows))
}

/// The members under a table.
pub fn members_of(
    alloc: Global,
    under: Tabled,
    supers: &Supers,
) -> Result<Box<Members>, OutOfMemory>
    ensures { IsSized under.entry.rows.now → AreSeen under.entry.rows.now (entries under.entry.table.now) under.entry.places.now supers.now → IfOk result (λ members. AreMembersOf under.entry.rows.now (entries under.entry.table.now) supers.now members.value) }
{
    boxed(alloc, Members::of(alloc, under, supers))
}

/// The types that types declare.
pub fn members_of_types(alloc: Global, under: Tabled) -> Result<Box<Members>, OutOfMemory> {
    boxed(alloc, Members::of_types(alloc, under))
}

/// What imports bring under a table.
pub fn imports_of(alloc: Global, under: Tabled) -> Result<Box<Imports>, OutOfMemory>
    ensures { ArePlaced under.entry.rows.now under.entry.places.now → IfOk result (λ imports. AreImports under.entry.rows.now (entries under.entry.table.now) imports.value) }
{
    boxed(alloc, Imports::of(alloc, under))
}

/// No imports.
pub fn imports_none(alloc: Global) -> Result<Box<Imports>, OutOfMemory> {
    boxed(alloc, Ok(Imports::none(alloc)))
}

/// The values of constants under a table, of rows with these forms.
pub fn constants_of(
    alloc: Global,
    under: Tabled,
    forms: &[bool],
) -> Result<Box<Constants>, OutOfMemory>
    ensures { IsSized under.entry.rows.now → IsTree under.entry.rows.now → IfOk result (λ found. IsAtRest under.entry.rows.now (entries under.entry.table.now) (picks forms.now) found.value) }
{
    boxed(alloc, Constants::of(alloc, under, forms))
}
