// Whether all types are settled: each ranks above the type round it and above all types that its header meets (JLS 8.1.4, 8.1.5, 9.1.3).
ghost use Rattle.std.specs.Prelude.{◌≡◌, ℕ, ◌+◌, ◌<◌, ◌^◌, true, IfOk};
ghost use Rattle.jr_defs.specs.Referents.{entries};
ghost use Rattle.jr_tree.specs.Rows.{Rows};
ghost use Rattle.jr_plain.specs.Search.{has};
ghost use Rattle.jr_lookup.specs.Scopes.{AreScopes};
ghost use Rattle.jr_lookup.specs.Sights.{IsSight};
ghost use Rattle.jr_bind.specs.Confirmed as confirmed;
ghost use Rattle.jr_bind.specs.Ranked as tell;

use jr_base::OutOfMemory;
use jr_lookup::{Scopes, Sight};
use jr_places::{declaring_type, end_at, is_type, parent_at};
use jr_supers::{Tabled, header_place};
use jr_tree::Row;
use std::alloc::Global;

/// The rank of a type, 0 where it has none.
pub fn rank_of(ranks: &[u32], at: u32) -> u32
    ensures { result ≡ tell.rank_in ranks.now at }
{
    match ranks.get(at as usize) {
        Some(rank) => *rank,
        None => 0,
    }
}

// The type ranks below the bound, if there is one.
fn is_below(ranks: &[u32], bound: u32, over: Option<u32>) -> bool
    ensures { result ≡ tell.is_below ranks.now bound over }
{
    match over {
        Some(at) => rank_of(ranks, at) < bound,
        None => true,
    }
}

// The types to which the identifiers of a name refer rank below the bound.
fn are_below(under: Tabled, ranks: &[u32], bound: u32, name: u32) -> bool
    ensures row { result ≡ true → name + 1 < 2 ^ 32 }
    ensures below { result ≡ true → tell.AreBelow under.entry.rows.now (entries under.entry.table.now) ranks.now bound name }
{
    if name == u32::MAX {
        return false;
    }
    let mut are = true;
    for at in name..end_at(under.rows, name) {
        are = are && is_below(ranks, bound, under.referred_type(at));
    }
    are
}

// So it is with the name of an import.
fn is_import_below(under: Tabled, ranks: &[u32], bound: u32, import: u32) -> bool
    ensures { result ≡ true → tell.AreBelow under.entry.rows.now (entries under.entry.table.now) ranks.now bound (import + 1) }
{
    match import.checked_add(1) {
        Some(name) => are_below(under, ranks, bound, name),
        None => false,
    }
}

// And with those of these imports.
fn are_imports_below(under: Tabled, ranks: &[u32], bound: u32, imports: &[u32]) -> bool
    ensures { result ≡ true → (i : ℕ) → has imports.now i ≡ true → tell.AreBelow under.entry.rows.now (entries under.entry.table.now) ranks.now bound (i + 1) }
{
    let mut are = true;
    for import in imports {
        are = are && is_import_below(under, ranks, bound, *import);
    }
    are
}

// The imports of a unit that bring this name alone, unless they are hidden.
fn named_imports(
    alloc: Global,
    scopes: &Scopes,
    unit: u32,
    name: u32,
    is_hidden: bool,
) -> Result<Vec<u32>, OutOfMemory>
    ensures { (p : Rows) → AreScopes p scopes.now → IfOk result (λ all. tell.HasNamedImports p unit name is_hidden all.items) }
{
    if is_hidden {
        return Ok(Vec::new(alloc));
    }
    let mut all = scopes.single_imports(alloc, unit, name)?;
    all.extend_from_slice(&scopes.static_imports(alloc, unit, name)?)?;
    Ok(all)
}

// And those on demand, unless the name is found before them.
fn imports_of(
    alloc: Global,
    scopes: &Scopes,
    unit: u32,
    name: u32,
    is_hidden: bool,
    is_named: bool,
) -> Result<Vec<u32>, OutOfMemory>
    ensures { (p : Rows) → AreScopes p scopes.now → IfOk result (λ all. tell.HasImports p unit name is_hidden is_named all.items) }
{
    let mut all = named_imports(alloc, scopes, unit, name, is_hidden)?;
    if is_named {
        return Ok(all);
    }
    all.extend_from_slice(&scopes.imports_on_demand(alloc, unit)?)?;
    Ok(all)
}

// The imports in which an identifier is looked for are among these: a type round the place hides imports of one name, and any type that is found by name
// those on demand (JLS 6.3.1, 7.5).
fn looked_for_in(alloc: Global, sight: Sight, at: u32) -> Result<Vec<u32>, OutOfMemory>
    ensures { IsSight (confirmed.table_of sight.entry) sight.entry → IfOk result (λ all. tell.HasAllLookedFor (confirmed.rows_of sight.entry) (confirmed.table_of sight.entry) at all.items) }
{
    let places = sight.world.under.places;
    let Some(unit) = places.unit(at) else {
        return Ok(Vec::new(alloc));
    };
    let name = places.name(at);
    let around = sight.types_around(alloc, at, name)?;
    let named = sight.types_by_name(alloc, at, name)?;
    imports_of(
        alloc,
        sight.scopes,
        unit,
        name,
        !around.rows.is_empty(),
        !named.rows.is_empty(),
    )
}

// All types that a name meets rank below the bound.
fn meets_below(
    alloc: Global,
    sight: Sight,
    ranks: &[u32],
    bound: u32,
    name: u32,
) -> Result<bool, OutOfMemory>
    ensures { IsSight (confirmed.table_of sight.entry) sight.entry → IfOk result (λ is. is ≡ true → tell.MeetsBelow (confirmed.rows_of sight.entry) (confirmed.table_of sight.entry) ranks.now bound name) }
{
    let under = sight.world.under;
    if !are_below(under, ranks, bound, name) {
        return Ok(false);
    }
    let first = end_at(under.rows, name).saturating_sub(1);
    let imports = looked_for_in(alloc, sight, first)?;
    Ok(are_imports_below(under, ranks, bound, &imports))
}

// A type ranks above the type round it.
fn is_above_outer(rows: &[Row], ranks: &[u32], at: u32) -> bool
    ensures { result ≡ true → tell.IsAboveOuter rows.now ranks.now at }
{
    !is_type(rows, at) || is_below(ranks, rank_of(ranks, at), declaring_type(rows, at))
}

// A name in the header of a type meets types of lower rank alone.
fn is_header_below(alloc: Global, sight: Sight, ranks: &[u32], at: u32) -> Result<bool, OutOfMemory>
    ensures { IsSight (confirmed.table_of sight.entry) sight.entry → IfOk result (λ is. is ≡ true → tell.IsHeaderBelow (confirmed.rows_of sight.entry) (confirmed.table_of sight.entry) ranks.now at) }
{
    let rows = sight.world.under.rows;
    if header_place(rows, at).is_none() {
        return Ok(true);
    }
    meets_below(alloc, sight, ranks, rank_of(ranks, parent_at(rows, at)), at)
}

fn is_ranked_at(alloc: Global, sight: Sight, ranks: &[u32], at: u32) -> Result<bool, OutOfMemory>
    ensures { IsSight (confirmed.table_of sight.entry) sight.entry → IfOk result (λ is. is ≡ true → tell.IsRankedAt (confirmed.rows_of sight.entry) (confirmed.table_of sight.entry) ranks.now at) }
{
    if !is_above_outer(sight.world.under.rows, ranks, at) {
        return Ok(false);
    }
    is_header_below(alloc, sight, ranks, at)
}

// So it is at the rows before the end.
fn are_ranked(alloc: Global, sight: Sight, ranks: &[u32], end: u32) -> Result<bool, OutOfMemory>
    ensures { IsSight (confirmed.table_of sight.entry) sight.entry → IfOk result (λ are. are ≡ true → (n : ℕ) → n < end → tell.IsRankedAt (confirmed.rows_of sight.entry) (confirmed.table_of sight.entry) ranks.now n) }
{
    let mut are = true;
    for at in 0..end {
        are = are && is_ranked_at(alloc, sight, ranks, at)?;
    }
    Ok(are)
}

/// Whether all types are settled under the table of a sight, which the ranks witness: each type ranks above the type round it and above all types that its header
/// meets (JLS 8.1.4, 8.1.5, 9.1.3).
pub fn are_settled(alloc: Global, sight: Sight, ranks: &[u32]) -> Result<bool, OutOfMemory>
    ensures { IsSight (confirmed.table_of sight.entry) sight.entry → IfOk result (λ are. are ≡ true → tell.AllSettled (confirmed.rows_of sight.entry) (confirmed.table_of sight.entry)) }
{
    let Ok(end) = u32::try_from(sight.world.under.rows.len()) else {
        return Ok(false);
    };
    are_ranked(alloc, sight, ranks, end)
}
