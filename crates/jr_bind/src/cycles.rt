// The first type on a cycle of headers (JLS 8.1.4, 9.1.3).
ghost use Rattle.std.specs.Prelude.{◌+◌, ◌<◌, ◌^◌, length, IfOk};
ghost use Rattle.jr_defs.specs.Binding.{IsFirstOnCycle};
ghost use Rattle.jr_defs.specs.Referents.{entries};
ghost use Rattle.jr_headed.specs.Founded.{AreWell};
ghost use Rattle.jr_supers.specs.Supers.{IsWellHeaded, HasNoCycle, AreSupersOf};
ghost use Rattle.jr_bind.specs.Confirmed as confirmed;
ghost use Rattle.jr_bind.specs.Edges.{IsWhole};

use crate::boxes::{imports_of, members_of, supers_of};
use crate::confirming::are_countable;
use crate::edges::edges_of;
use crate::headers::Setting;
use crate::meeting::Ranked;
use crate::rounds::first_on_round;
use jr_base::OutOfMemory;
use jr_defs::Referent;
use jr_headed::has_no_cycle;
use jr_lookup::{Scopes, Sight};
use jr_members::World;
use jr_supers::{Supers, Tabled};
use jr_tree::Row;
use std::alloc::Global;

// The first number on a round of edges between types that are not settled.
fn first_under(alloc: Global, ranked: &Ranked) -> Result<u32, OutOfMemory>
    ensures { IsWhole ranked.now.sight → IfOk result (λ first. IsFirstOnCycle ranked.now.sight.world.under.rows.now first) }
{
    let edges = edges_of(alloc, ranked)?;
    let found = first_on_round(alloc, &edges, ranked.sight.world.under.rows.len())?;
    match found {
        Some(first) => Ok(first),
        None => Err(OutOfMemory),
    }
}

// The same, with the members and imports under the table.
fn first_with<'a>(
    alloc: Global,
    under: Tabled<'a>,
    scopes: &'a Scopes,
    supers: &'a Supers,
    ranks: &'a [u32],
) -> Result<u32, OutOfMemory>
    ensures { confirmed.IsProgramOf under.entry.rows.now under.entry.places.now scopes.now → AreWell under.entry.rows.now → length under.entry.rows.now + 3 < 2 ^ 32 → HasNoCycle under.entry.rows.now (entries under.entry.table.now) → (IsWellHeaded under.entry.rows.now → AreSupersOf under.entry.rows.now (entries under.entry.table.now) supers.now) → IfOk result (λ first. IsFirstOnCycle under.entry.rows.now first) }
{
    let members = members_of(alloc, under, supers)?;
    let imports = imports_of(alloc, under)?;
    let world = World {
        under,
        supers,
        members: &members,
    };
    let sight = Sight {
        world,
        scopes,
        imports: &imports,
    };
    let ranked = Ranked { sight, ranks };
    first_under(alloc, &ranked)
}

/// The first type on a cycle of headers (JLS 8.1.4, 9.1.3), by a table that has what lookup under it gives at headers with those of settled types alone, and by how many types were
/// settled when each was. Where lookup does not confirm the table, and where there is no cycle, the answer is want of memory.
pub fn first_on_cycle<'a>(
    alloc: Global,
    setting: Setting<'a>,
    table: &'a [Referent],
    ranks: &'a [u32],
) -> Result<u32, OutOfMemory>
    ensures { confirmed.IsProgramOf setting.entry.rows.now setting.entry.places.now setting.entry.scopes.now → IfOk result (λ first. IsFirstOnCycle setting.entry.rows.now first) }
{
    if !are_countable(setting.rows) {
        return Err(OutOfMemory);
    }
    let under = Tabled {
        rows: setting.rows,
        places: setting.places,
        table,
    };
    let supers = supers_of(alloc, under)?;
    let is_acyclic = has_no_cycle(alloc, setting.rows, &supers)?;
    if !is_acyclic {
        return Err(OutOfMemory);
    }
    first_with(alloc, under, setting.scopes, &supers, ranks)
}
