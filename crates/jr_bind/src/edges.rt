// The header graph between types that are not settled, found row by row, where lookup under the table as a whole confirms the table (JLS 8.1.4, 8.1.5, 9.1.3).

ghost use Rattle.std.specs.Prelude.{◌≡◌, ◌⊎◌, ℕ, ◌+◌, ◌<◌, ◌≤◌, [], true, length, None, Some, IfOk, OnOk};
ghost use Rattle.jr_tree.specs.Rows as program;
ghost use Rattle.jr_defs.specs.Declarations.{IsType};
ghost use Rattle.jr_defs.specs.Enclosing.{DeclaredIn};
ghost use Rattle.jr_defs.specs.Formed.{SeeksType};
ghost use Rattle.jr_defs.specs.Headers.{NamesHeader};
ghost use Rattle.jr_defs.specs.Referents.{entries};
ghost use Rattle.jr_defs.specs.declared.referent.Referent.TheVariants.{Unbound};
ghost use Rattle.jr_headers.specs.Rounds as headers;
ghost use Rattle.jr_places.specs.Chains.{entry_at};
ghost use Rattle.jr_places.specs.Places.{ArePlaces};
ghost use Rattle.jr_bind.specs.Edges as tell;
ghost use Rattle.jr_bind.specs.Edges.{IsWhole};
ghost use Rattle.jr_bind.specs.Ranked.{rank_in};
ghost use Rattle.jr_bind.specs.Rounds.{IsEdgeIn};

use crate::confirming::is_same;
use crate::meeting::{Ranked, claim, first_met, is_up_to, looked_at, unless_before};
use crate::ranking::rank_of;
use crate::rounds::first_at;
use jr_base::OutOfMemory;
use jr_defs::Referent;
use jr_places::{Chains, Entry, Places, declaring_type, is_type, parent_at};
use jr_supers::header_place;
use jr_tree::{Label, Row};
use std::alloc::Global;

// The type round a type, unless it was settled before.
fn outer_of(ranked: &Ranked, at: u32) -> Option<u32>
    ensures none { result ≡ None → (e : ℕ) → DeclaredIn ranked.now.sight.world.under.rows.now e at → tell.IsBefore (rank_in ranked.now.ranks.now) at e }
    ensures some { (s : ℕ) → result ≡ Some s → DeclaredIn ranked.now.sight.world.under.rows.now s at × (tell.IsBefore (rank_in ranked.now.ranks.now) at s → ⊥) }
{
    let over = declaring_type(ranked.sight.world.under.rows, at);
    unless_before(ranked.ranks, at, over)
}

// The last edge leads from no later number.
fn may_follow(edges: &Chains, first: u32) -> bool
    ensures { result ≡ true → (k : ℕ) → k + 1 ≡ length edges.now → (entry_at edges.now k).first ≤ first }
{
    let Ok(count) = u32::try_from(edges.len()) else {
        return false;
    };
    if count == 0 {
        return true;
    }
    let last = first_at(edges, count - 1);
    is_up_to(last, first)
}

// An edge more, if there is a type to which it leads.
fn add_edge(
    alloc: Global,
    edges: &mut Chains,
    low: u32,
    over: Option<u32>,
) -> Result<(), OutOfMemory>
    ensures { OnOk result (tell.AddsEdge low over edges.old edges.new) }
{
    let Some(row) = over else {
        return Ok(());
    };
    claim(may_follow(edges, low))?;
    edges.add(
        alloc,
        Entry {
            first: low,
            second: 0,
            row,
        },
    )?;
    Ok(())
}

// A name in the header of a type that is settled: the table has what lookup gives, and there is no edge.
fn settled_edge(
    alloc: Global,
    ranked: &Ranked,
    name: u32,
    first: Option<u32>,
) -> Result<Option<u32>, OutOfMemory>
    ensures { IsWhole ranked.now.sight → name < length ranked.now.sight.world.under.rows.now → SeeksType (program.sought_at ranked.now.sight.world.under.rows.now name) → IfOk result (λ edge. (entries ranked.now.sight.world.under.table.now name ≡ headers.look_type ranked.now.sight.world.under.rows.now (entries ranked.now.sight.world.under.table.now) name) × (first ≡ None) × (edge ≡ None)) }
{
    if let Some(_over) = first {
        return Err(OutOfMemory);
    }
    let found = looked_at(alloc, &ranked.sight, name)?;
    claim(is_same(ranked.sight.world.under.referent(name), found))?;
    Ok(None)
}

// A name in the header of a type that is not: the table has nothing, and the edge leads to the first type that is not settled, if the type round it is.
fn open_edge(
    ranked: &Ranked,
    low: u32,
    name: u32,
    first: Option<u32>,
) -> Result<Option<u32>, OutOfMemory>
    ensures { rank_in ranked.now.ranks.now low ≡ 0 → IfOk result (λ edge. tell.IsOpenName ranked.now.sight.world.under.rows.now (entries ranked.now.sight.world.under.table.now) (rank_in ranked.now.ranks.now) low name first edge) }
{
    claim(is_same(ranked.sight.world.under.referent(name), Referent::Unbound))?;
    match outer_of(ranked, low) {
        Some(_over) => Ok(None),
        None => Ok(first),
    }
}

// One name in the header of a type, and the type to which its edge leads, if it has one.
fn name_edge(
    alloc: Global,
    ranked: &Ranked,
    low: u32,
    name: u32,
) -> Result<Option<u32>, OutOfMemory>
    ensures { IsWhole ranked.now.sight → NamesHeader ranked.now.sight.world.under.rows.now low name → IfOk result (λ edge. tell.IsNameEdge ranked.now.sight.world.under.rows.now (entries ranked.now.sight.world.under.table.now) (rank_in ranked.now.ranks.now) low name edge) }
{
    let first = first_met(alloc, ranked, low, name)?;
    let rank = rank_of(ranked.ranks, low);
    if rank == 0 {
        return open_edge(ranked, low, name, first);
    }
    settled_edge(alloc, ranked, name, first)
}

// There is no type, or the rank is that of a type that is not settled.
fn is_none_or_open(over: Option<u32>, rank: u32) -> bool
    ensures { result ≡ true → (over ≡ None) ⊎ (rank ≡ 0) }
{
    match over {
        None => true,
        Some(_) => rank == 0,
    }
}

// A row that is a type: the type round it.
fn confirm_type(
    alloc: Global,
    ranked: &Ranked,
    edges: &mut Chains,
    at: u32,
) -> Result<(), OutOfMemory>
    ensures { OnOk result (tell.GoesOver ranked.now.sight.world.under.rows.now (entries ranked.now.sight.world.under.table.now) (rank_in ranked.now.ranks.now) edges.old edges.new × (IsType ranked.now.sight.world.under.rows.now at → tell.IsOuterConfirmed ranked.now.sight.world.under.rows.now (rank_in ranked.now.ranks.now) edges.new at)) }
{
    if !is_type(ranked.sight.world.under.rows, at) {
        return Ok(());
    }
    let over = outer_of(ranked, at);
    claim(is_none_or_open(over, rank_of(ranked.ranks, at)))?;
    add_edge(alloc, edges, at, over)?;
    Ok(())
}

// A row that is a name in a header.
fn confirm_name(
    alloc: Global,
    ranked: &Ranked,
    edges: &mut Chains,
    at: u32,
) -> Result<(), OutOfMemory>
    ensures { IsWhole ranked.now.sight → OnOk result (tell.GoesOver ranked.now.sight.world.under.rows.now (entries ranked.now.sight.world.under.table.now) (rank_in ranked.now.ranks.now) edges.old edges.new × ((c : ℕ) → NamesHeader ranked.now.sight.world.under.rows.now c at → tell.IsNameConfirmed ranked.now.sight.world.under.rows.now (entries ranked.now.sight.world.under.table.now) (rank_in ranked.now.ranks.now) edges.new c at)) }
{
    let Some(_place) = header_place(ranked.sight.world.under.rows, at) else {
        return Ok(());
    };
    let low = parent_at(ranked.sight.world.under.rows, at);
    let edge = name_edge(alloc, ranked, low, at)?;
    add_edge(alloc, edges, low, edge)?;
    Ok(())
}

fn is_import(rows: &[Row], at: u32) -> bool
    ensures { result ≡ headers.is_import (program.label rows.now at) }
{
    match rows.get(at as usize) {
        Some(row) => match row.label {
            Label::Import { .. } => true,
            _ => false,
        },
        None => false,
    }
}

// Both rows have one name.
fn have_one_name(places: &Places, one: u32, other: u32) -> bool
    ensures { (p : program.Rows) → ArePlaces p places.now → one < length p → other < length p → result ≡ true → program.name p one ≡ program.name p other }
{
    let first = places.name(one);
    let second = places.name(other);
    first == second
}

// What the row refers to, if it is a type, has the name of the row.
fn has_own_name(ranked: &Ranked, at: u32) -> bool
    ensures { IsWhole ranked.now.sight → at < length ranked.now.sight.world.under.rows.now → result ≡ true → tell.HasOwnName ranked.now.sight.world.under.rows.now (entries ranked.now.sight.world.under.table.now) at }
{
    let under = ranked.sight.world.under;
    match under.referred_type(at) {
        Some(over) => have_one_name(under.places, over, at),
        None => true,
    }
}

// A row that is an import: what it names has its name.
fn confirm_import(ranked: &Ranked, at: u32) -> Result<(), OutOfMemory>
    ensures { IsWhole ranked.now.sight → OnOk result (tell.IsImportConfirmed ranked.now.sight.world.under.rows.now (entries ranked.now.sight.world.under.table.now) at) }
{
    if !is_import(ranked.sight.world.under.rows, at) {
        return Ok(());
    }
    let name = at.saturating_add(1);
    claim(has_own_name(ranked, name))?;
    Ok(())
}

// One row.
fn confirm_row(
    alloc: Global,
    ranked: &Ranked,
    edges: &mut Chains,
    at: u32,
) -> Result<(), OutOfMemory>
    ensures { IsWhole ranked.now.sight → OnOk result (tell.GoesOver ranked.now.sight.world.under.rows.now (entries ranked.now.sight.world.under.table.now) (rank_in ranked.now.ranks.now) edges.old edges.new × tell.IsRowConfirmed ranked.now.sight.world.under.rows.now (entries ranked.now.sight.world.under.table.now) (rank_in ranked.now.ranks.now) edges.new at) }
{
    confirm_import(ranked, at)?;
    confirm_type(alloc, ranked, edges, at)?;
    confirm_name(alloc, ranked, edges, at)?;
    Ok(())
}

// The rows before the end.
fn confirm_rows(
    alloc: Global,
    ranked: &Ranked,
    edges: &mut Chains,
    end: u32,
) -> Result<(), OutOfMemory>
    ensures { IsWhole ranked.now.sight → edges.old ≡ [] → OnOk result (tell.AreConfirmedTo ranked.now.sight.world.under.rows.now (entries ranked.now.sight.world.under.table.now) (rank_in ranked.now.ranks.now) edges.new end) }
{
    for at in 0..end {
        confirm_row(alloc, ranked, edges, at)?;
    }
    Ok(())
}

// An edge leads from the number.
fn has_edge(alloc: Global, edges: &Chains, at: u32) -> Result<bool, OutOfMemory>
    ensures { IfOk result (λ is. is ≡ true → (s : ℕ) × IsEdgeIn edges.now at s) }
{
    let next = edges.rows(alloc, at, 0)?;
    Ok(!next.is_empty())
}

// An edge leads from the row, if it is a type that is not settled.
fn is_led_on(alloc: Global, ranked: &Ranked, edges: &Chains, at: u32) -> Result<bool, OutOfMemory>
    ensures { IfOk result (λ is. is ≡ true → IsType ranked.now.sight.world.under.rows.now at → rank_in ranked.now.ranks.now at ≡ 0 → (s : ℕ) × IsEdgeIn edges.now at s) }
{
    if !is_type(ranked.sight.world.under.rows, at) {
        return Ok(true);
    }
    let rank = rank_of(ranked.ranks, at);
    if rank > 0 {
        return Ok(true);
    }
    has_edge(alloc, edges, at)
}

// So it is with the rows before the end.
fn are_led_on(alloc: Global, ranked: &Ranked, edges: &Chains, end: u32) -> Result<bool, OutOfMemory>
    ensures { IfOk result (λ are. are ≡ true → tell.AreLedOn ranked.now.sight.world.under.rows.now (rank_in ranked.now.ranks.now) edges.now end) }
{
    let mut are = true;
    for at in 0..end {
        are = are && is_led_on(alloc, ranked, edges, at)?;
    }
    Ok(are)
}

/// The edges of the header graph between types that are not settled, where lookup under the table confirms it: else the answer is want of memory.
pub fn edges_of(alloc: Global, ranked: &Ranked) -> Result<Chains, OutOfMemory>
    ensures { IsWhole ranked.now.sight → IfOk result (λ edges. tell.AreConfirmed ranked.now.sight.world.under.rows.now (entries ranked.now.sight.world.under.table.now) (rank_in ranked.now.ranks.now) edges) }
{
    let Ok(end) = u32::try_from(ranked.sight.world.under.rows.len()) else {
        return Err(OutOfMemory);
    };
    let mut edges = Chains::new(alloc);
    confirm_rows(alloc, ranked, &mut edges, end)?;
    let are = are_led_on(alloc, ranked, &edges, end)?;
    claim(are)?;
    Ok(edges)
}
