// Which numbers lead back to themselves by edges that are data.
ghost use Rattle.std.specs.Prelude.{◌≡◌, ℕ, ◌+◌, ◌-◌, List, [], ◌∷◌, ◌++◌, length, nat_eq, replicate, slice_set, Decides, IfOk, OnOk};
ghost use Rattle.jr_plain.specs.Search.{Finds};
ghost use Rattle.jr_places.specs.declared.chains.Entry.{Entry as EdgeOf};
ghost use Rattle.jr_places.specs.Chains.{entry_at};
ghost use Rattle.jr_places.specs.Stamps.{IsStamping};
ghost use Rattle.jr_dispatch.specs.Families.{with_if};
ghost use Rattle.jr_bind.specs.Rounds as tell;

use jr_base::OutOfMemory;
use jr_places::{Chains, Stamps};
use std::alloc::Global;

fn push_if(all: &mut Vec<u32>, is: bool, at: u32) -> Result<(), OutOfMemory>
    ensures { OnOk result (all.new.items ≡ with_if is all.old.items at) }
{
    if is {
        all.push(at)?;
    }
    Ok(())
}

// A number is met; it waits, unless it was met before.
fn put(met: &mut Stamps, waiting: &mut Vec<u32>, at: u32) -> Result<(), OutOfMemory>
    ensures { (bound : ℕ) → IsStamping met.old bound → OnOk result (tell.PutsOne bound at met.old met.new waiting.old.items waiting.new.items) }
{
    let is_new = met.add(at);
    push_if(waiting, is_new, at)?;
    Ok(())
}

// The same, of all these numbers.
fn put_all(met: &mut Stamps, waiting: &mut Vec<u32>, all: &[u32]) -> Result<(), OutOfMemory>
    ensures { (bound : ℕ) → IsStamping met.old bound → OnOk result (tell.IsPutting bound all.now met.old met.new waiting.old.items waiting.new.items []) }
{
    for at in all {
        put(met, waiting, *at)?;
    }
    Ok(())
}

// The same, of all that edges lead to from a number at once.
fn put_next(
    alloc: Global,
    edges: &Chains,
    met: &mut Stamps,
    waiting: &mut Vec<u32>,
    at: u32,
) -> Result<(), OutOfMemory>
    ensures { (bound : ℕ) → IsStamping met.old bound → OnOk result (tell.IsPutting bound (tell.next_of edges.now at) met.old met.new waiting.old.items waiting.new.items []) }
{
    let next = edges.rows(alloc, at, 0)?;
    put_all(met, waiting, &next)?;
    Ok(())
}

// Edges lead from the number back to it.
fn reaches_itself(
    alloc: Global,
    edges: &Chains,
    met: &mut Stamps,
    at: u32,
) -> Result<bool, OutOfMemory>
    requires { IsStamping met.old (length met.old.stamps.items) }
    ensures told { tell.AreEdges edges.now (length met.old.stamps.items) → IfOk result (λ is. Decides is (tell.IsOnRound edges.now at)) }
    ensures counted { OnOk result (IsStamping met.new (length met.old.stamps.items)) }
{
    met.empty()?;
    let mut waiting = Vec::new(alloc);
    put_next(alloc, edges, met, &mut waiting, at)?;
    while let Some(next) = waiting.pop() {
        put_next(alloc, edges, met, &mut waiting, next)?;
    }
    Ok(met.has(at))
}

fn count_at(counts: &[usize], at: u32) -> usize
    ensures { result ≡ tell.count_at counts.now at }
{
    match counts.get(at as usize) {
        Some(count) => *count,
        None => 0,
    }
}

fn put_count(counts: &mut Vec<usize>, at: u32, count: usize)
    ensures { counts.new.items ≡ slice_set counts.old.items at count }
{
    if (at as usize) < counts.len() {
        counts[at as usize] = count;
    }
}

// One edge more leads to the number.
fn raise(counts: &mut Vec<usize>, at: u32) -> Result<(), OutOfMemory>
    ensures { OnOk result (counts.new.items ≡ slice_set counts.old.items at (tell.count_at counts.old.items at + 1)) }
{
    let Some(more) = count_at(counts, at).checked_add(1) else {
        return Err(OutOfMemory);
    };
    put_count(counts, at, more);
    Ok(())
}

// One edge less leads to the number.
fn lower(counts: &mut Vec<usize>, at: u32) -> usize
    ensures counts { counts.new.items ≡ slice_set counts.old.items at (tell.count_at counts.old.items at - 1) }
    ensures left { result ≡ tell.count_at counts.old.items at - 1 }
{
    let less = count_at(counts, at).saturating_sub(1);
    put_count(counts, at, less);
    less
}

/// The number from which the edge at a place leads.
pub fn first_at(edges: &Chains, place: u32) -> u32
    ensures { result ≡ (entry_at edges.now place).first }
{
    match edges.entry(place) {
        Some(edge) => edge.first,
        None => 0,
    }
}

// The number to which it leads.
fn row_at(edges: &Chains, place: u32) -> u32
    ensures { result ≡ (entry_at edges.now place).row }
{
    match edges.entry(place) {
        Some(edge) => edge.row,
        None => 0,
    }
}

fn counts_none(alloc: Global, bound: usize) -> Result<Vec<usize>, OutOfMemory>
    ensures { IfOk result (λ counts. counts.items ≡ replicate bound 0) }
{
    Ok(vec![in alloc; 0usize; bound]?)
}

// How many edges lead to each number.
fn all_counts(alloc: Global, edges: &Chains, bound: usize) -> Result<Vec<usize>, OutOfMemory>
    ensures size { IfOk result (λ counts. length counts.items ≡ bound) }
    ensures enough { IfOk result (λ counts. tell.AreEnough edges.now [] [] counts.items (length edges.now)) }
{
    let mut counts = counts_none(alloc, bound)?;
    let Ok(count) = u32::try_from(edges.len()) else {
        return Err(OutOfMemory);
    };
    for place in 0..count {
        raise(&mut counts, row_at(edges, place))?;
    }
    Ok(counts)
}

// No edge leads to the number.
fn has_none(counts: &[usize], at: u32) -> bool
    ensures { result ≡ nat_eq (tell.count_at counts.now at) 0 }
{
    count_at(counts, at) == 0
}

// The number is left out next, if no edge leads to it and it was not before.
fn put_if_free(
    counts: &[usize],
    met: &mut Stamps,
    free: &mut Vec<u32>,
    at: u32,
) -> Result<(), OutOfMemory>
    ensures { (edges : List EdgeOf) (bound : ℕ) (left rest : List ℕ) → tell.IsTaking edges bound met.old left free.old.items rest counts.now → OnOk result (tell.IsTaking edges bound met.new left free.new.items rest counts.now) }
{
    let is_free = has_none(counts, at);
    if is_free {
        put(met, free, at)?;
    }
    Ok(())
}

// One edge from a number that is left out is taken away.
fn take_edge(
    counts: &mut Vec<usize>,
    met: &mut Stamps,
    free: &mut Vec<u32>,
    at: u32,
) -> Result<(), OutOfMemory>
    ensures { (edges : List EdgeOf) (bound : ℕ) (left rest : List ℕ) → tell.IsTaking edges bound met.old left free.old.items (at ∷ rest) counts.old.items → OnOk result (tell.IsTaking edges bound met.new left free.new.items rest counts.new.items) }
{
    let _ = lower(counts, at);
    put_if_free(counts, met, free, at)?;
    Ok(())
}

// The same, of all edges to these numbers.
fn take_edges(
    counts: &mut Vec<usize>,
    met: &mut Stamps,
    free: &mut Vec<u32>,
    all: &[u32],
) -> Result<(), OutOfMemory>
    ensures { (edges : List EdgeOf) (bound : ℕ) (left : List ℕ) → tell.IsTaking edges bound met.old left free.old.items all.now counts.old.items → OnOk result (tell.IsTaking edges bound met.new left free.new.items [] counts.new.items) }
{
    for at in all {
        take_edge(counts, met, free, *at)?;
    }
    Ok(())
}

// Leaves a number out.
fn leave_out(
    alloc: Global,
    edges: &Chains,
    counts: &mut Vec<usize>,
    met: &mut Stamps,
    free: &mut Vec<u32>,
    at: u32,
) -> Result<(), OutOfMemory>
    ensures { (bound : ℕ) (left : List ℕ) → tell.IsTaking edges.now bound met.old left (free.old.items ++ at ∷ []) [] counts.old.items → OnOk result (tell.IsTaking edges.now bound met.new (at ∷ left) free.new.items [] counts.new.items) }
{
    let next = edges.rows(alloc, at, 0)?;
    take_edges(counts, met, free, &next)?;
    Ok(())
}

// Leaves out numbers to which no edge leads, one after the other.
fn leave_out_all(
    alloc: Global,
    edges: &Chains,
    counts: &mut Vec<usize>,
    met: &mut Stamps,
    free: &mut Vec<u32>,
) -> Result<(), OutOfMemory>
    ensures { (bound : ℕ) → tell.IsLeaving edges.now bound met.old free.old.items counts.old.items → OnOk result (tell.IsLeaving edges.now bound met.new free.new.items counts.new.items) }
{
    for _turn in 0..edges.len() {
        let Some(at) = free.pop() else {
            return Ok(());
        };
        leave_out(alloc, edges, counts, met, free, at)?;
    }
    Ok(())
}

// The numbers from which edges lead, and to which none does.
fn find_free(
    edges: &Chains,
    counts: &[usize],
    met: &mut Stamps,
    free: &mut Vec<u32>,
) -> Result<(), OutOfMemory>
    ensures { (bound : ℕ) → tell.IsLeaving edges.now bound met.old free.old.items counts.now → OnOk result (tell.IsLeaving edges.now bound met.new free.new.items counts.now) }
{
    let Ok(count) = u32::try_from(edges.len()) else {
        return Err(OutOfMemory);
    };
    for place in 0..count {
        put_if_free(counts, met, free, first_at(edges, place))?;
    }
    Ok(())
}

// How many edges lead to each number, but for those from numbers that are left out.
fn counts_of(alloc: Global, edges: &Chains, bound: usize) -> Result<Vec<usize>, OutOfMemory>
    ensures { tell.AreEdges edges.now bound → IfOk result (λ counts. tell.AreCounts edges.now bound counts.items) }
{
    let mut counts = all_counts(alloc, edges, bound)?;
    let mut met = Stamps::new(alloc, bound)?;
    let mut free = Vec::new(alloc);
    find_free(edges, &counts, &mut met, &mut free)?;
    leave_out_all(alloc, edges, &mut counts, &mut met, &mut free)?;
    Ok(counts)
}

// Edges lead from the number back to it. Where it has no count, none do.
fn leads_back(
    alloc: Global,
    edges: &Chains,
    counts: &[usize],
    met: &mut Stamps,
    at: u32,
) -> Result<bool, OutOfMemory>
    requires { IsStamping met.old (length met.old.stamps.items) }
    ensures told { (bound : ℕ) → length met.old.stamps.items ≡ bound → tell.AreEdges edges.now bound → tell.AreCounts edges.now bound counts.now → IfOk result (λ is. Decides is (tell.IsOnRound edges.now at)) }
    ensures counted { OnOk result (IsStamping met.new (length met.old.stamps.items)) }
{
    if count_at(counts, at) == 0 {
        return Ok(false);
    }
    reaches_itself(alloc, edges, met, at)
}

// The first number from which edges lead back to it.
fn first_in(
    alloc: Global,
    edges: &Chains,
    counts: &[usize],
    met: &mut Stamps,
) -> Result<Option<u32>, OutOfMemory>
    requires { IsStamping met.old (length met.old.stamps.items) }
    ensures { (bound : ℕ) → length met.old.stamps.items ≡ bound → tell.AreEdges edges.now bound → tell.AreCounts edges.now bound counts.now → IfOk result (λ found. Finds found (tell.IsFirstOnRound edges.now)) }
{
    let Ok(count) = u32::try_from(edges.len()) else {
        return Err(OutOfMemory);
    };
    for place in 0..count {
        let at = first_at(edges, place);
        let is_on_round = leads_back(alloc, edges, counts, met, at)?;
        if is_on_round {
            return Ok(Some(at));
        }
    }
    Ok(None)
}

/// The first number from which edges lead back to it, of numbers below a bound.
pub fn first_on_round(
    alloc: Global,
    edges: &Chains,
    bound: usize,
) -> Result<Option<u32>, OutOfMemory>
    ensures { tell.AreEdges edges.now bound → IfOk result (λ found. Finds found (tell.IsFirstOnRound edges.now)) }
{
    let counts = counts_of(alloc, edges, bound)?;
    let mut met = Stamps::new(alloc, bound)?;
    first_in(alloc, edges, &counts, &mut met)
}
