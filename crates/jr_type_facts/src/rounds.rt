// Constructors that call themselves round (JLS 8.8.7.1).
ghost use Rattle.std.specs.Prelude.{◌≡◌, ◌+◌, None, Some, IfOk, length, replicate, slice_set};
ghost use Rattle.jr_defs.specs.Referents.{entries};
ghost use Rattle.jr_supers.specs.Tabled.{declared};
ghost use Rattle.jr_type_facts.specs.Rounds as tell;
ghost use Rattle.jr_type_facts.specs.Tables.{item as item_of};

use crate::labels::is_this_call;
use jr_base::OutOfMemory;
use jr_places::{parent_at, role_at};
use jr_supers::Tabled;
use jr_tree::{Role, Row};
use std::alloc::Global;

// What a table has for a row.
fn item(all: &[Option<u32>], at: u32) -> Option<u32>
    ensures { result ≡ item_of all.now at }
{
    match all.get(at as usize) {
        Some(found) => *found,
        None => None,
    }
}

fn put(all: &mut Vec<Option<u32>>, at: u32, value: Option<u32>)
    ensures { all.new.items ≡ slice_set all.old.items at value }
{
    if (at as usize) < all.len() {
        all[at as usize] = value;
    }
}

fn is_constructor(rows: &[Row], at: u32) -> bool
    ensures { result ≡ tell.is_constructor rows.now at }
{
    match role_at(rows, at) {
        Role::Constructor => true,
        _ => false,
    }
}

// The constructor whose body has the call at a row, if it is `this(..)`.
fn caller(rows: &[Row], call: u32) -> Option<u32>
    ensures { result ≡ tell.caller rows.now call }
{
    let over = parent_at(rows, parent_at(rows, call));
    if is_this_call(rows, call) && is_constructor(rows, over) {
        Some(over)
    } else {
        None
    }
}

// What one more row calls, if it is such a call.
fn put_call(under: Tabled, all: &mut Vec<Option<u32>>, call: u32)
    ensures { all.new.items ≡ tell.with_item all.old.items (tell.caller under.entry.rows.now call) (declared (entries under.entry.table.now call)) }
{
    let found = under.declared(call);
    if let Some(over) = caller(under.rows, call) {
        put(all, over, found);
    }
}

fn put_calls(under: Tabled, all: &mut Vec<Option<u32>>, count: u32)
    ensures { all.old.items ≡ replicate (length under.entry.rows.now) None → all.new.items ≡ tell.called_to under.entry.rows.now (entries under.entry.table.now) count }
{
    for call in 0..count {
        put_call(under, all, call);
    }
}

// Where a way goes on, if it has not been there.
fn onward(called: &[Option<u32>], ways: &[Option<u32>], here: u32) -> Option<u32>
    ensures { result ≡ tell.onward called.now ways.now here }
{
    match item(ways, here) {
        Some(_) => None,
        None => item(called, here),
    }
}

// Goes from a constructor to those that it calls, up to one that was met before or that calls none, and notes the way for each that it leaves.
fn walk(called: &[Option<u32>], ways: &mut Vec<Option<u32>>, first: u32) -> u32
    ensures { length ways.old.items ≡ length called.now → tell.IsWalked called.now ways.old.items first ways.new.items result }
{
    let mut here = first;
    for _turn in 0..called.len() {
        let Some(next) = onward(called, ways, here) else {
            return here;
        };
        put(ways, here, Some(first));
        here = next;
    }
    here
}

// The way is this one.
fn is_way(way: Option<u32>, first: u32) -> bool
    ensures { result ≡ tell.is_way way first }
{
    match way {
        Some(other) => other == first,
        None => false,
    }
}

// Walks from a constructor; where the way comes back to itself, marks the round.
fn walk_round(
    called: &[Option<u32>],
    met: &mut Vec<Option<u32>>,
    rounds: &mut Vec<Option<u32>>,
    at: u32,
)
    ensures { tell.AreRoundsTo called.now at met.old.items rounds.old.items → tell.AreRoundsTo called.now (at + 1) met.new.items rounds.new.items }
{
    let end = walk(called, met, at);
    if is_way(item(met, end), at) {
        let _ = walk(called, rounds, end);
    }
}

fn walk_all(
    called: &[Option<u32>],
    met: &mut Vec<Option<u32>>,
    rounds: &mut Vec<Option<u32>>,
    count: u32,
)
    ensures { tell.AreRoundsTo called.now 0 met.old.items rounds.old.items → tell.AreRoundsTo called.now count met.new.items rounds.new.items }
{
    for at in 0..count {
        walk_round(called, met, rounds, at);
    }
}

fn nothing(alloc: Global, count: usize) -> Result<Vec<Option<u32>>, OutOfMemory>
    ensures { IfOk result (λ all. all.items ≡ replicate count None) }
{
    Ok(vec![in alloc; None; count]?)
}

/// The constructors that come back to themselves by `this(..)`, each with one on its way.
pub fn rounds_of(alloc: Global, under: Tabled, count: u32) -> Result<Vec<Option<u32>>, OutOfMemory>
    ensures { count ≡ length under.entry.rows.now → IfOk result (λ rounds. tell.AreRounds (tell.called_to under.entry.rows.now (entries under.entry.table.now) count) rounds.items) }
{
    let mut called = nothing(alloc, under.rows.len())?;
    put_calls(under, &mut called, count);
    let mut met = nothing(alloc, under.rows.len())?;
    let mut rounds = nothing(alloc, under.rows.len())?;
    walk_all(&called, &mut met, &mut rounds, count);
    Ok(rounds)
}
