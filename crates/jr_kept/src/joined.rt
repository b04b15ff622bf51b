// The graph of a body in which a call is replaced by the body of the method.
ghost use Rattle.std.specs.Prelude.{◌≡◌, ◌+◌, ◌<◌, ◌++◌, ◌∷◌, [], if◌then◌else◌, true, false, IfOk, OnOk, length, map, slice_get};
ghost use Rattle.jr_tree.specs.Rows.{Rows};
ghost use Rattle.jr_flow_defs.specs.Meaning.{Meaning};
ghost use Rattle.jr_flow_defs.specs.Edges.{IsGraph};
ghost use Rattle.jr_flow_defs.specs.Kept as kept;
ghost use Rattle.jr_flow.specs.Reached.{step_seen, steps_of, IsGraphOf};
ghost use Rattle.jr_kept.specs.Listed.{under_in};
ghost use Rattle.jr_kept.specs.Spliced as tell;

use crate::lists::Lists;
use crate::reached::{count_of, without_unreached};
use jr_base::OutOfMemory;
use jr_flow::{Graph, Point, Step};
use std::alloc::Global;

/// The numbers of the exits of each graph: by completing, and by a throw.
const EXIT: u32 = 1;

const THROWN: u32 = 2;

fn sum(one: u32, other: u32) -> Result<u32, OutOfMemory>
    ensures { IfOk result (λ n. n ≡ one + other) }
{
    match one.checked_add(other) {
        Some(sum) => Ok(sum),
        None => Err(OutOfMemory),
    }
}

// The call acts at the point of the number.
fn is_call(points: &[Point], call: u32, number: u32) -> bool
    ensures { result ≡ kept.is_call_at call (slice_get points.now number) }
{
    match points.get(number as usize) {
        Some(point) => point.row == call,
        None => false,
    }
}

/// Puts the number, if it is such.
pub(crate) fn push_if(all: &mut Vec<u32>, is_such: bool, number: u32) -> Result<(), OutOfMemory>
    ensures { OnOk result (all.new.items ≡ all.old.items ++ (if is_such then number ∷ [] else [])) }
{
    if is_such {
        all.push(number)?;
    }
    Ok(())
}

// The numbers of the points at which the call acts.
fn calls_of(alloc: Global, points: &[Point], call: u32) -> Result<Vec<u32>, OutOfMemory>
    ensures { IfOk result (λ calls. calls.items ≡ tell.calls_in points.now call) }
{
    let count = count_of(points.len())?;
    let mut all = Vec::new(alloc);
    for number in 0..count {
        push_if(&mut all, is_call(points, call, number), number)?;
    }
    Ok(all)
}

fn is_same_way(step: Step, is_throw: bool) -> bool
    ensures { result ≡ tell.is_same_way step.is_throw is_throw }
{
    if is_throw {
        step.is_throw
    } else {
        !step.is_throw
    }
}

fn push_end(pairs: &mut Vec<(u32, u32)>, step: Step, is_such: bool) -> Result<(), OutOfMemory>
    ensures { OnOk result (pairs.new.items ≡ pairs.old.items ++ (if is_such then (step.from, step.to) ∷ [] else [])) }
{
    if is_such {
        pairs.push((step.from, step.to))?;
    }
    Ok(())
}

// The ends of the steps that are throws, or of the others.
fn ends_of(alloc: Global, steps: &[Step], is_throw: bool) -> Result<Vec<(u32, u32)>, OutOfMemory>
    ensures { IfOk result (λ pairs. pairs.items ≡ tell.ends_by is_throw (map step_seen steps.now)) }
{
    let mut pairs = Vec::new(alloc);
    for step in steps {
        push_end(&mut pairs, *step, is_same_way(*step, is_throw))?;
    }
    Ok(pairs)
}

// Under each point those to which throws lead, or other steps.
fn targets_of(alloc: Global, graph: &Graph, is_throw: bool) -> Result<Lists, OutOfMemory>
    ensures { IfOk result (λ lists. tell.AreTargets lists (length graph.now.points.items) (steps_of graph.now) is_throw) }
{
    let pairs = ends_of(alloc, graph.steps.as_slice(), is_throw)?;
    Lists::of(alloc, 0, graph.points.len(), &pairs)
}

/// The points to which steps lead from each point, by completing and by a throw.
#[derive(Drop)]
struct Leaving {
    plain: Lists,
    thrown: Lists,
}

impl Leaving {
    fn of(alloc: Global, graph: &Graph) -> Result<Leaving, OutOfMemory>
        ensures { IfOk result (λ leaving. tell.IsLeaving leaving.plain leaving.thrown (length graph.now.points.items) (steps_of graph.now)) }
    {
        let plain = targets_of(alloc, graph, false)?;
        let thrown = targets_of(alloc, graph, true)?;
        Ok(Leaving { plain, thrown })
    }
}

// ---- steps

fn push_unless(all: &mut Vec<Step>, step: Step, is_call: bool) -> Result<(), OutOfMemory>
    ensures { OnOk result (map step_seen all.new.items ≡ map step_seen all.old.items ++ (if is_call then [] else step_seen step ∷ [])) }
{
    if is_call {
        return Ok(());
    }
    all.push(step)?;
    Ok(())
}

// Puts the steps of the body that do not leave the call.
fn push_outer(
    all: &mut Vec<Step>,
    points: &[Point],
    steps: &[Step],
    call: u32,
) -> Result<(), OutOfMemory>
    ensures { OnOk result (map step_seen all.new.items ≡ map step_seen all.old.items ++ tell.outside_calls points.now call (map step_seen steps.now)) }
{
    for step in steps {
        push_unless(all, *step, is_call(points, call, step.from))?;
    }
    Ok(())
}

fn push_shifted(all: &mut Vec<Step>, step: Step, base: u32) -> Result<(), OutOfMemory>
    ensures { OnOk result (map step_seen all.new.items ≡ map step_seen all.old.items ++ (base + step.from, base + step.to, step.is_throw) ∷ []) }
{
    all.push(Step {
        from: sum(base, step.from)?,
        to: sum(base, step.to)?,
        is_throw: step.is_throw,
    })?;
    Ok(())
}

// Puts the steps of the method, whose points begin at a base.
fn push_inner(all: &mut Vec<Step>, steps: &[Step], base: u32) -> Result<(), OutOfMemory>
    ensures { OnOk result (map step_seen all.new.items ≡ map step_seen all.old.items ++ tell.shifted base (map step_seen steps.now)) }
{
    for step in steps {
        push_shifted(all, *step, base)?;
    }
    Ok(())
}

// Puts the steps from a point to others.
fn push_from(
    all: &mut Vec<Step>,
    from: u32,
    targets: &[u32],
    is_throw: bool,
) -> Result<(), OutOfMemory>
    ensures { OnOk result (map step_seen all.new.items ≡ map step_seen all.old.items ++ tell.leading from is_throw targets.now) }
{
    for to in targets {
        all.push(Step {
            from,
            to: *to,
            is_throw,
        })?;
    }
    Ok(())
}

// Puts the steps of the method at one call, whose points begin at a base: the call goes to its entry, and its exits go where the call goes in the same way.
fn push_call(
    all: &mut Vec<Step>,
    leaving: &Leaving,
    inner: &[Step],
    call: u32,
    base: u32,
) -> Result<(), OutOfMemory>
    ensures { OnOk result (map step_seen all.new.items ≡ map step_seen all.old.items ++ tell.of_call (under_in leaving.now.plain call) (under_in leaving.now.thrown call) (map step_seen inner.now) call base) }
{
    let exit = sum(base, EXIT)?;
    let thrown = sum(base, THROWN)?;
    all.push(Step {
        from: call,
        to: base,
        is_throw: false,
    })?;
    push_inner(all, inner, base)?;
    push_from(all, exit, leaving.plain.under(call), false)?;
    push_from(all, thrown, leaving.thrown.under(call), true)?;
    Ok(())
}

// Puts the steps of the method at each call. The points of the method at the first call begin at a base, and there are so many at each.
fn push_calls(
    all: &mut Vec<Step>,
    leaving: &Leaving,
    inner: &[Step],
    calls: &[u32],
    first: u32,
    size: u32,
) -> Result<(), OutOfMemory>
    ensures { OnOk result (map step_seen all.new.items ≡ map step_seen all.old.items ++ tell.of_calls (under_in leaving.now.plain) (under_in leaving.now.thrown) (map step_seen inner.now) size calls.now first) }
{
    let mut base = first;
    for call in calls {
        push_call(all, leaving, inner, *call, base)?;
        base = sum(base, size)?;
    }
    Ok(())
}

fn joined_steps(
    alloc: Global,
    outer: &Graph,
    inner: &Graph,
    calls: &[u32],
    call: u32,
) -> Result<Vec<Step>, OutOfMemory>
    ensures { calls.now ≡ tell.calls_in outer.now.points.items call → IfOk result (λ steps. tell.AreJoinedSteps outer.now.points.items call (length inner.now.points.items) (steps_of outer.now) (steps_of inner.now) (map step_seen steps.items)) }
{
    let leaving = Leaving::of(alloc, outer)?;
    let first = count_of(outer.points.len())?;
    let size = count_of(inner.points.len())?;
    let mut all = Vec::new(alloc);
    push_outer(
        &mut all,
        outer.points.as_slice(),
        outer.steps.as_slice(),
        call,
    )?;
    push_calls(
        &mut all,
        &leaving,
        inner.steps.as_slice(),
        calls,
        first,
        size,
    )?;
    Ok(all)
}

// ---- points

fn push_copies(all: &mut Vec<Point>, points: &[Point], count: usize) -> Result<(), OutOfMemory>
    ensures { OnOk result (all.new.items ≡ all.old.items ++ tell.copies count points.now) }
{
    for _turn in 0..count {
        all.extend_from_slice(points)?;
    }
    Ok(())
}

fn joined_points(
    alloc: Global,
    outer: &Graph,
    inner: &Graph,
    count: usize,
) -> Result<Vec<Point>, OutOfMemory>
    ensures { IfOk result (λ points. points.items ≡ outer.now.points.items ++ tell.copies count inner.now.points.items) }
{
    let mut all = Vec::new(alloc);
    all.extend_from_slice(outer.points.as_slice())?;
    push_copies(&mut all, inner.points.as_slice(), count)?;
    Ok(all)
}

fn joined_whole(
    alloc: Global,
    outer: &Graph,
    inner: &Graph,
    call: u32,
) -> Result<Graph, OutOfMemory>
    ensures { IfOk result (λ whole. (whole.body ≡ outer.now.body) × tell.IsJoined call outer.now inner.now whole) }
{
    let calls = calls_of(alloc, outer.points.as_slice(), call)?;
    let points = joined_points(alloc, outer, inner, calls.len())?;
    let steps = joined_steps(alloc, outer, inner, &calls, call)?;
    Ok(Graph {
        body: outer.body,
        points,
        steps,
    })
}

/// The graph of a body in which each point of the call is followed by a copy of the points of the method. Where the method completes, control goes on as
/// the call does where it throws nothing; a throw that leaves the method goes where a throw of the call goes.
pub(crate) fn joined(
    alloc: Global,
    outer: &Graph,
    inner: &Graph,
    call: u32,
) -> Result<Graph, OutOfMemory>
    ensures { (p : Rows) (m : Meaning) → IsGraphOf p m outer.now → IsGraphOf p m inner.now → (outer.now.body ≡ inner.now.body → ⊥)
        → IfOk result (λ made. (made.body ≡ outer.now.body) × IsGraph (kept.joined_flow p m outer.now.body call inner.now.body) outer.now.body made.points.items (steps_of made)) }
{
    let whole = joined_whole(alloc, outer, inner, call)?;
    without_unreached(alloc, &whole)
}
