// The types for whose names a type has lists of its own.
ghost use Rattle.std.specs.Prelude.{◌≡◌, IfOk, OnOk};
ghost use Rattle.jr_defs.specs.Referents.{Table};
ghost use Rattle.jr_plain.specs.Search.{Lists};
ghost use Rattle.jr_supers.specs.Supers.{AreSupersOf};
ghost use Rattle.jr_members.specs.Gathered as gather;
ghost use Rattle.jr_members.specs.Sources.{links_of};

use jr_base::OutOfMemory;
use jr_supers::Supers;
use jr_tree::Row;
use std::alloc::Global;

fn is_the(linked: Option<u32>, at: u32) -> bool
    ensures { result ≡ gather.is_the linked at }
{
    match linked {
        Some(up) => up == at,
        None => false,
    }
}

// Adds a supertype and all above it, unless it is the first one.
fn push_up(
    alloc: Global,
    rows: &[Row],
    supers: &Supers,
    linked: Option<u32>,
    from: u32,
    all: &mut Vec<u32>,
) -> Result<(), OutOfMemory>
    ensures { (t : Table) → AreSupersOf rows.now t supers.now → OnOk result (gather.PushesUp rows.now t linked from all.old.items all.new.items) }
{
    if is_the(linked, from) {
        return Ok(());
    }
    let above = supers.with_above(alloc, rows, from)?;
    all.extend_from_slice(&above)?;
    Ok(())
}

// Adds the supertypes other than the first, and all above them.
fn push_further(
    alloc: Global,
    rows: &[Row],
    supers: &Supers,
    linked: Option<u32>,
    direct: &[u32],
    all: &mut Vec<u32>,
) -> Result<(), OutOfMemory>
    ensures { (t : Table) → AreSupersOf rows.now t supers.now → OnOk result (Lists all.new.items (gather.IsAddedUp rows.now t linked direct.now all.old.items)) }
{
    for from in direct {
        push_up(alloc, rows, supers, linked, *from, all)?;
    }
    Ok(())
}

/// The type itself, and what stands at or above its supertypes other than the first.
pub fn naming_types(
    alloc: Global,
    rows: &[Row],
    supers: &Supers,
    over: u32,
) -> Result<Vec<u32>, OutOfMemory>
    ensures { (t : Table) → AreSupersOf rows.now t supers.now → IfOk result (λ all. Lists all.items (gather.IsNaming rows.now t (links_of supers.now) over)) }
{
    let direct = supers.direct().rows(alloc, over, 0)?;
    let linked = supers.linked(over);
    let mut all = Vec::new(alloc);
    all.push(over)?;
    push_further(alloc, rows, supers, linked, &direct, &mut all)?;
    Ok(all)
}
