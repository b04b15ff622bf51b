// Whether supertypes and members under a table are exact.
ghost use Rattle.std.specs.Prelude.{◌≡◌, List, IfOk, Decides};
ghost use Rattle.jr_defs.specs.Referents.{entries};
ghost use Rattle.jr_supers.specs.Supers.{IsWellHeaded, HasNoCycle};
ghost use Rattle.jr_members.specs.Held.{ObjectIsBare};
ghost use Rattle.jr_headed.specs.Founded as tell;

use crate::cycles::has_no_cycle;
use crate::heads::{are_packages_named, is_sized, is_well_headed};
use jr_base::OutOfMemory;
use jr_supers::{Supers, Tabled};
use jr_tree::Row;
use std::alloc::Global;

/// One bare Object, rows and brackets that can be counted, and packages with names: what rows alone tell.
pub fn are_well(rows: &[Row]) -> bool
    ensures { Decides result (tell.AreWell rows.now) }
{
    is_well_headed(rows) && is_sized(rows) && are_packages_named(rows)
}

// No type is above itself.
fn is_acyclic(alloc: Global, under: Tabled) -> Result<bool, OutOfMemory>
    ensures { IsWellHeaded under.entry.rows.now → ObjectIsBare under.entry.rows.now → IfOk result (λ is. Decides is (HasNoCycle under.entry.rows.now (entries under.entry.table.now))) }
{
    let supers = Supers::of(alloc, under)?;
    has_no_cycle(alloc, under.rows, &supers)
}

/// The rows of a program have one bare Object, can be counted, and name their packages, and no type is above itself under the table: then
/// supertypes, members and what calls find are exact.
pub fn is_well_founded(alloc: Global, under: Tabled) -> Result<bool, OutOfMemory>
    ensures { tell.IsProgram under.entry.rows.now → IfOk result (λ is. Decides is (tell.IsWellFounded under.entry.rows.now (entries under.entry.table.now))) }
{
    if !are_well(under.rows) {
        return Ok(false);
    }
    is_acyclic(alloc, under)
}
