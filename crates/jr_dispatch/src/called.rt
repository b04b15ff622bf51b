// The tables that calls of methods read.
ghost use Rattle.std.specs.Prelude.{◌≡◌, IfOk};
ghost use Rattle.jr_tree.specs.Local.{IsLocal};
ghost use Rattle.jr_defs.specs.Referents.{Table, entries};
ghost use Rattle.jr_places.specs.Packages.{PackagesAreNamed};
ghost use Rattle.jr_places.specs.Places.{ArePlaces};
ghost use Rattle.jr_supers.specs.Supers.{IsWellHeaded, HasNoCycle};
ghost use Rattle.jr_supers.specs.Tabled.{IsSized};
ghost use Rattle.jr_members.specs.Held.{ObjectIsBare};
ghost use Rattle.jr_dispatch.specs.Methods.{ObjectIsNoInterface, AreCalled, AreMethods};

use crate::dispatch::Methods;
use jr_base::OutOfMemory;
use jr_members::{Callables, Declared, MemberKind};
use jr_supers::{Supers, Tabled};
use std::alloc::Global;

/// The supertypes of a program under a table, and the methods that bodies declare.
#[derive(Drop)]
pub struct Called {
    supers: Supers,
    callables: Callables,
    declared: Declared,
}

impl Called {
    /// Those under a table, whose supertypes should have no cycle.
    pub fn of(alloc: Global, under: Tabled) -> Result<Called, OutOfMemory>
        ensures { IsWellHeaded under.entry.rows.now → HasNoCycle under.entry.rows.now (entries under.entry.table.now) → IsSized under.entry.rows.now → ArePlaces under.entry.rows.now under.entry.places.now → IfOk result (λ called. AreCalled under.entry.rows.now (entries under.entry.table.now) called) }
    {
        let supers = Supers::of(alloc, under)?;
        let callables = Callables::of(alloc, under)?;
        let declared = Declared::of(alloc, under, MemberKind::Method)?;
        Ok(Called {
            supers,
            callables,
            declared,
        })
    }

    /// What calls read, with the rows and places under the table.
    pub fn methods<'a>(&'a self, under: Tabled<'a>) -> Methods<'a>
        ensures under { result.under ≡ under.entry }
        ensures methods { (t : Table) → IsLocal under.entry.rows.now → PackagesAreNamed under.entry.rows.now → ObjectIsBare under.entry.rows.now → ObjectIsNoInterface under.entry.rows.now → ArePlaces under.entry.rows.now under.entry.places.now → AreCalled under.entry.rows.now t self.now → AreMethods under.entry.rows.now t result }
    {
        Methods {
            under,
            supers: &self.supers,
            callables: &self.callables,
            declared: &self.declared,
        }
    }
}
