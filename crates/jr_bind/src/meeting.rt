// The first type that a name in a header meets and that is not settled, by lookup under the table as a whole (JLS 8.1.4, 8.1.5, 9.1.3).

ghost use Rattle.std.specs.Prelude.{◌≡◌, ◌⊎◌, ℕ, ◌+◌, ◌++◌, ◌<◌, ◌≤◌, true, false, length, None, Some, IfOk, OnOk, Decides};
ghost use Rattle.std.specs.Option.{option_or};
ghost use Rattle.jr_tree.specs.Rows as program;
ghost use Rattle.jr_tree.specs.Rows.{Rows};
ghost use Rattle.jr_defs.specs.Formed.{SeeksType};
ghost use Rattle.jr_defs.specs.Headers.{IsLookedForIn, NamesHeader};
ghost use Rattle.jr_defs.specs.Referents.{entries};
ghost use Rattle.jr_plain.specs.Search.{Lists};
ghost use Rattle.jr_plain.specs.Types.{referred_type};
ghost use Rattle.jr_headers.specs.Rounds.{look_type};
ghost use Rattle.jr_lookup.specs.Scopes.{AreScopes};
ghost use Rattle.jr_lookup.specs.Sights.{AreImportRows};
ghost use Rattle.jr_bind.specs.Edges as tell;
ghost use Rattle.jr_bind.specs.Edges.{IsWhole, IsImportIn, demanded_unless};
ghost use Rattle.jr_bind.specs.Ranked.{rank_in};

use crate::confirming::is_same;
use crate::ranking::rank_of;
use jr_base::OutOfMemory;
use jr_defs::Referent;
use jr_lookup::{Scopes, Sight};
use jr_places::{end_at, is_type, sought_at};
use jr_tree::{Row, Sought};
use std::alloc::Global;

/// Rows under a table as a whole, with the ranks of types: how many were settled when this one was, and it; 0 for those that are not.
#[derive(Clone, Copy)]
pub struct Ranked<'a> {
    pub sight: Sight<'a>,
    pub ranks: &'a [u32],
}

/// What has to be so; where it is not, the answer is want of memory.
pub fn claim(is_so: bool) -> Result<(), OutOfMemory>
    ensures { OnOk result (is_so ≡ true) }
{
    if is_so { Ok(()) } else { Err(OutOfMemory) }
}

// A rank is there, and below the other if that is.
fn is_rank_before(rank: u32, bound: u32) -> bool
    ensures { Decides result ((0 < rank) × ((bound ≡ 0) ⊎ (rank < bound))) }
{
    if rank == 0 {
        return false;
    }
    if bound == 0 {
        return true;
    }
    rank < bound
}

// The type was settled, and before the other if that was.
fn is_before(ranks: &[u32], low: u32, at: u32) -> bool
    ensures { Decides result (tell.IsBefore (rank_in ranks.now) low at) }
{
    is_rank_before(rank_of(ranks, at), rank_of(ranks, low))
}

// The type that a referent declares.
fn type_of(rows: &[Row], referent: Referent) -> Option<u32>
    ensures { result ≡ referred_type rows.now referent }
{
    match referent {
        Referent::Declared { row, .. } => { if is_type(rows, row) { Some(row) } else { None } }
        _ => None,
    }
}

/// The type, unless it was settled before.
pub fn unless_before(ranks: &[u32], low: u32, met: Option<u32>) -> Option<u32>
    ensures none { result ≡ None → (s : ℕ) → met ≡ Some s → tell.IsBefore (rank_in ranks.now) low s }
    ensures some { (s : ℕ) → result ≡ Some s → (met ≡ Some s) × (tell.IsBefore (rank_in ranks.now) low s → ⊥) }
{
    match met {
        Some(over) => {
            if is_before(ranks, low, over) {
                None
            } else {
                Some(over)
            }
        }
        None => None,
    }
}

fn first_of(one: Option<u32>, other: Option<u32>) -> Option<u32>
    ensures { result ≡ option_or one other }
{
    match one {
        Some(first) => Some(first),
        None => other,
    }
}

/// What lookup gives at a row that looks for a type.
pub fn looked_at(alloc: Global, sight: &Sight, at: u32) -> Result<Referent, OutOfMemory>
    ensures { IsWhole sight.now → at < length sight.now.world.under.rows.now → SeeksType (program.sought_at sight.now.world.under.rows.now at) → IfOk result (λ a. a ≡ look_type sight.now.world.under.rows.now (entries sight.now.world.under.table.now) at) }
{
    sight.look(alloc, &[], at)
}

// The type at one row, unless it was settled before. What the table has there is what lookup gives, where that is asked.
fn open_at(
    alloc: Global,
    ranked: &Ranked,
    low: u32,
    at: u32,
    is_asked: bool,
) -> Result<Option<u32>, OutOfMemory>
    ensures open { IsWhole ranked.now.sight → at < length ranked.now.sight.world.under.rows.now → SeeksType (program.sought_at ranked.now.sight.world.under.rows.now at) → IfOk result (λ found. tell.IsOpenAt ranked.now.sight.world.under.rows.now (entries ranked.now.sight.world.under.table.now) (rank_in ranked.now.ranks.now) low at found) }
    ensures same { IsWhole ranked.now.sight → at < length ranked.now.sight.world.under.rows.now → SeeksType (program.sought_at ranked.now.sight.world.under.rows.now at) → is_asked ≡ true → IfOk result (λ found. entries ranked.now.sight.world.under.table.now at ≡ look_type ranked.now.sight.world.under.rows.now (entries ranked.now.sight.world.under.table.now) at) }
{
    let found = looked_at(alloc, &ranked.sight, at)?;
    if is_asked {
        claim(is_same(ranked.sight.world.under.referent(at), found))?;
    }
    let met = type_of(ranked.sight.world.under.rows, found);
    Ok(unless_before(ranked.ranks, low, met))
}

// The first type of a name by its own identifiers that was not settled before. But for the row `own` the table has what lookup gives.
fn scan(
    alloc: Global,
    ranked: &Ranked,
    low: u32,
    own: u32,
    from: u32,
) -> Result<Option<u32>, OutOfMemory>
    ensures { IsWhole ranked.now.sight → from < length ranked.now.sight.world.under.rows.now → SeeksType (program.sought_at ranked.now.sight.world.under.rows.now from) → IfOk result (λ first. tell.IsScan ranked.now.sight.world.under.rows.now (entries ranked.now.sight.world.under.table.now) (rank_in ranked.now.ranks.now) low own from (program.end ranked.now.sight.world.under.rows.now from) first) }
{
    let rows = ranked.sight.world.under.rows;
    let till = end_at(rows, from);
    let mut first = None;
    let mut at = till;
    while at > from {
        at -= 1;
        let met = open_at(alloc, ranked, low, at, at != own)?;
        claim(end_at(rows, at) == till)?;
        first = first_of(first, met);
    }
    Ok(first)
}

/// The first is no larger.
pub fn is_up_to(low: u32, high: u32) -> bool
    ensures { result ≡ true → low ≤ high }
{
    low <= high
}

// The first type that imports name that was not settled before. They stand one behind another, and before the name.
fn scan_imports(
    alloc: Global,
    ranked: &Ranked,
    low: u32,
    imports: &[u32],
    name: u32,
) -> Result<Option<u32>, OutOfMemory>
    ensures { IsWhole ranked.now.sight → AreImportRows ranked.now.sight.world.under.rows.now imports.now → IfOk result (λ first. (behind : ℕ) × (behind ≤ name) × tell.ArePassed ranked.now.sight.world.under.rows.now (entries ranked.now.sight.world.under.table.now) (rank_in ranked.now.ranks.now) low imports.now (length imports.now) behind first) }
{
    let rows = ranked.sight.world.under.rows;
    let mut first = None;
    let mut behind = 0;
    for import in imports {
        claim(is_up_to(behind, *import))?;
        let next = import.saturating_add(1);
        let met = scan(alloc, ranked, low, *import, next)?;
        behind = end_at(rows, next);
        first = first_of(first, met);
    }
    claim(is_up_to(behind, name))?;
    Ok(first)
}

// The identifier stands before no dot, and no other before it.
fn is_simple(sought: Sought) -> bool
    ensures { Decides result (tell.IsSimple sought) }
{
    match sought {
        Sought::Simple { .. } => true,
        _ => false,
    }
}

// Adds the imports on demand of a unit, unless the name is found before them.
fn add_on_demand(
    alloc: Global,
    all: &mut Vec<u32>,
    scopes: &Scopes,
    unit: u32,
    is_named: bool,
) -> Result<(), OutOfMemory>
    ensures { (p : Rows) → AreScopes p scopes.now → OnOk result (all.new.items ≡ all.old.items ++ demanded_unless p unit is_named) }
{
    if is_named {
        return Ok(());
    }
    let found = scopes.imports_on_demand(alloc, unit)?;
    add_all(all, &found)
}

// Puts some rows behind a list.
fn add_all(all: &mut Vec<u32>, more: &[u32]) -> Result<(), OutOfMemory>
    ensures { OnOk result (all.new.items ≡ all.old.items ++ more.now) }
{
    for row in more {
        all.push(*row)?;
    }
    Ok(())
}

// The imports of a unit that may bring the name, as they rise: without those on demand where the name is found before them.
fn imports_of(
    alloc: Global,
    scopes: &Scopes,
    unit: u32,
    name: u32,
    is_named: bool,
) -> Result<Vec<u32>, OutOfMemory>
    ensures { (p : Rows) → AreScopes p scopes.now → IfOk result (λ all. Lists all.items (IsImportIn p unit name is_named)) }
{
    let mut all = scopes.single_imports(alloc, unit, name)?;
    let statics = scopes.static_imports(alloc, unit, name)?;
    add_all(&mut all, &statics)?;
    add_on_demand(alloc, &mut all, scopes, unit, is_named)?;
    all.sort_unstable();
    Ok(all)
}

// The imports where an identifier is looked for, as they rise.
fn looked_for_in(alloc: Global, sight: &Sight, at: u32) -> Result<Vec<u32>, OutOfMemory>
    ensures { IsWhole sight.now → at < length sight.now.world.under.rows.now → IfOk result (λ all. Lists all.items (IsLookedForIn sight.now.world.under.rows.now (entries sight.now.world.under.table.now) at)) }
{
    let name = sight.world.under.places.name(at);
    let around = sight.types_around(alloc, at, name)?;
    if !around.rows.is_empty() {
        return Ok(Vec::new(alloc));
    }
    match sight.importing_unit(at) {
        Some(unit) => {
            let named = sight.types_by_name(alloc, at, name)?;
            imports_of(alloc, sight.scopes, unit, name, !named.rows.is_empty())
        }
        None => Err(OutOfMemory),
    }
}

/// The first type that a name in the header of a type meets and that was not settled before.
pub fn first_met(
    alloc: Global,
    ranked: &Ranked,
    low: u32,
    name: u32,
) -> Result<Option<u32>, OutOfMemory>
    ensures { (c : ℕ) → IsWhole ranked.now.sight → NamesHeader ranked.now.sight.world.under.rows.now c name → IfOk result (λ first. tell.IsLookedAt ranked.now.sight.world.under.rows.now (entries ranked.now.sight.world.under.table.now) (rank_in ranked.now.ranks.now) low name first) }
{
    let rows = ranked.sight.world.under.rows;
    let at = end_at(rows, name).saturating_sub(1);
    claim(is_simple(sought_at(rows, at)))?;
    let imports = looked_for_in(alloc, &ranked.sight, at)?;
    let by_import = scan_imports(alloc, ranked, low, &imports, name)?;
    let own = scan(alloc, ranked, low, name, name)?;
    Ok(first_of(by_import, own))
}
