// A graph without the points that control does not reach.
ghost use Rattle.std.specs.Prelude.{◌≡◌, ◌+◌, ◌++◌, ◌∷◌, [], ◌||◌, ℕ, Some, true, false, List, IfOk, OnOk, length, map, slice_get};
ghost use Rattle.jr_places.specs.declared.stamps.Stamps as stamps;
ghost use Rattle.jr_flow_defs.specs.declared.point.Point as defs;
ghost use Rattle.jr_flow_defs.specs.Graphs.{StepList};
ghost use Rattle.jr_flow.specs.Reached.{step_seen, steps_of};
ghost use Rattle.jr_kept.specs.Searched.{AreWays};
ghost use Rattle.jr_kept.specs.Pruned as tell;

use crate::lists::Lists;
use crate::spreading::ways_of;
use jr_base::OutOfMemory;
use jr_flow::{Graph, Point, Step};
use jr_places::Stamps;
use std::alloc::Global;

/// How many points each graph has, whether control reaches them or not: its entry, which is the first, and its exits.
const OWN: u32 = 3;

/// The points that control was found to reach, and those to which steps lead and that are still to be looked at.
#[derive(Drop)]
struct Arriving {
    met: Stamps,
    waiting: Vec<u32>,
}

impl Arriving {
    // The entry alone is to be looked at, out of so many points.
    fn new(alloc: Global, count: usize) -> Result<Arriving, OutOfMemory>
        ensures { (steps : StepList) → IfOk result (λ arriving. tell.IsArriving count steps arriving.met arriving.waiting.items) }
    {
        let met = Stamps::new(alloc, count)?;
        let mut waiting = Vec::new(alloc);
        waiting.push(0)?;
        Ok(Arriving { met, waiting })
    }

    // A point that was to be looked at.
    fn meet(&mut self, ways: &Lists, at: u32) -> Result<(), OutOfMemory>
        ensures { (count : ℕ) (steps : StepList) → AreWays ways.now count steps → tell.IsArriving count steps self.old.met (self.old.waiting.items ++ at ∷ []) → OnOk result (tell.IsArriving count steps self.new.met self.new.waiting.items) }
    {
        if self.met.add(at) {
            self.waiting.extend_from_slice(ways.under(at))?;
            return Ok(());
        }
        Ok(())
    }

    // Goes on until nothing waits.
    fn finish(&mut self, ways: &Lists) -> Result<(), OutOfMemory>
        ensures { (count : ℕ) (steps : StepList) → AreWays ways.now count steps → tell.IsArriving count steps self.old.met self.old.waiting.items → OnOk result (tell.IsArriving count steps self.new.met []) }
    {
        for _turn in 0..u64::MAX {
            let Some(at) = self.waiting.pop() else {
                return Ok(());
            };
            self.meet(ways, at)?;
        }
        Err(OutOfMemory)
    }
}

// The points that control reaches from the entry.
fn reached(alloc: Global, graph: &Graph) -> Result<Stamps, OutOfMemory>
    ensures { IfOk result (λ met. tell.AreArrived met (length graph.now.points.items) (steps_of graph.now)) }
{
    let ways = ways_of(alloc, graph)?;
    let mut arriving = Arriving::new(alloc, graph.points.len())?;
    arriving.finish(&ways)?;
    Ok(arriving.met)
}

/// A count as a number.
pub(crate) fn count_of(count: usize) -> Result<u32, OutOfMemory>
    ensures { IfOk result (λ n. n ≡ count) }
{
    match u32::try_from(count) {
        Ok(number) => Ok(number),
        Err(_) => Err(OutOfMemory),
    }
}

fn point_at(points: &[Point], number: u32) -> Option<Point>
    ensures { result ≡ slice_get points.now number }
{
    points.get(number as usize).copied()
}

/// Points that are left, with the number that each point has among them, if it is left.
#[derive(Drop)]
struct Left {
    points: Vec<Point>,
    numbers: Vec<Option<u32>>,
}

impl Left {
    fn new(alloc: Global) -> Left
        ensures { (points : List defs.Point) (met : stamps.Stamps) → tell.AreNumbered points met 0 result.points.items result.numbers.items }
    {
        Left {
            points: Vec::new(alloc),
            numbers: Vec::new(alloc),
        }
    }

    // Puts a point that is left.
    fn put(&mut self, point: Point) -> Result<(), OutOfMemory>
        ensures { (points : List defs.Point) (met : stamps.Stamps) (n : ℕ) → slice_get points n ≡ Some point → tell.is_left met n ≡ true → tell.AreNumbered points met n self.old.points.items self.old.numbers.items
            → OnOk result (tell.AreNumbered points met (n + 1) self.new.points.items self.new.numbers.items) }
    {
        let number = count_of(self.points.len())?;
        self.points.push(point)?;
        self.numbers.push(Some(number))?;
        Ok(())
    }

    // Passes over a point.
    fn pass(&mut self) -> Result<(), OutOfMemory>
        ensures { (points : List defs.Point) (met : stamps.Stamps) (n : ℕ) → tell.is_left met n ≡ false → tell.AreNumbered points met n self.old.points.items self.old.numbers.items
            → OnOk result (tell.AreNumbered points met (n + 1) self.new.points.items self.new.numbers.items) }
    {
        self.numbers.push(None)?;
        Ok(())
    }

    // Puts a point, or passes over it.
    fn put_if(&mut self, point: Point, is_left: bool) -> Result<(), OutOfMemory>
        ensures { (points : List defs.Point) (met : stamps.Stamps) (n : ℕ) → slice_get points n ≡ Some point → tell.is_left met n ≡ is_left → tell.AreNumbered points met n self.old.points.items self.old.numbers.items
            → OnOk result (tell.AreNumbered points met (n + 1) self.new.points.items self.new.numbers.items) }
    {
        if is_left {
            return self.put(point);
        }
        self.pass()
    }

    // Puts the points that are reached, and the graph's own.
    fn put_all(&mut self, points: &[Point], met: &Stamps) -> Result<(), OutOfMemory>
        ensures { tell.AreNumbered points.now met.now 0 self.old.points.items self.old.numbers.items → OnOk result (tell.AreNumbered points.now met.now (length points.now) self.new.points.items self.new.numbers.items) }
    {
        let count = count_of(points.len())?;
        for number in 0..count {
            let Some(point) = point_at(points, number) else {
                return Err(OutOfMemory);
            };
            self.put_if(point, is_left(met, number))?;
        }
        Ok(())
    }
}

// The point is one of the graph's own, or it is reached.
fn is_left(met: &Stamps, number: u32) -> bool
    ensures { result ≡ tell.is_left met.now number }
{
    number < OWN || met.has(number)
}

fn left_points(alloc: Global, points: &[Point], met: &Stamps) -> Result<Left, OutOfMemory>
    ensures { IfOk result (λ left. tell.AreNumbered points.now met.now (length points.now) left.points.items left.numbers.items) }
{
    let mut left = Left::new(alloc);
    left.put_all(points, met)?;
    Ok(left)
}

fn number_in(numbers: &[Option<u32>], point: u32) -> Option<u32>
    ensures { result ≡ tell.number_in numbers.now point }
{
    match numbers.get(point as usize) {
        Some(number) => *number,
        None => None,
    }
}

// The number of a point that is reached.
fn number_from(met: &Stamps, numbers: &[Option<u32>], point: u32) -> Option<u32>
    ensures { result ≡ tell.number_from met.now numbers.now point }
{
    if met.has(point) {
        number_in(numbers, point)
    } else {
        None
    }
}

// Puts a step between two numbers, if both are there.
fn push_between(
    all: &mut Vec<Step>,
    from: Option<u32>,
    to: Option<u32>,
    is_throw: bool,
) -> Result<(), OutOfMemory>
    ensures { OnOk result (map step_seen all.new.items ≡ map step_seen all.old.items ++ tell.between from to is_throw) }
{
    match from {
        Some(from) => push_to(all, from, to, is_throw),
        None => Ok(()),
    }
}

fn push_to(
    all: &mut Vec<Step>,
    from: u32,
    to: Option<u32>,
    is_throw: bool,
) -> Result<(), OutOfMemory>
    ensures { OnOk result (map step_seen all.new.items ≡ map step_seen all.old.items ++ tell.between (Some from) to is_throw) }
{
    match to {
        Some(to) => {
            all.push(Step { from, to, is_throw })?;
            Ok(())
        }
        None => Ok(()),
    }
}

// The steps that leave points that are reached, by the numbers of what is left.
fn left_steps(
    alloc: Global,
    steps: &[Step],
    met: &Stamps,
    numbers: &[Option<u32>],
) -> Result<Vec<Step>, OutOfMemory>
    ensures { IfOk result (λ left. map step_seen left.items ≡ tell.left_steps met.now numbers.now (map step_seen steps.now)) }
{
    let mut all = Vec::new(alloc);
    for step in steps {
        push_between(
            &mut all,
            number_from(met, numbers, step.from),
            number_in(numbers, step.to),
            step.is_throw,
        )?;
    }
    Ok(all)
}

// The graph without the points that are not among these.
fn pruned(alloc: Global, graph: &Graph, met: &Stamps) -> Result<Graph, OutOfMemory>
    ensures { tell.AreArrived met.now (length graph.now.points.items) (steps_of graph.now) → IfOk result (λ made. (made.body ≡ graph.now.body) × tell.IsPruned graph.now.points.items (steps_of graph.now) made.points.items (steps_of made)) }
{
    let left = left_points(alloc, graph.points.as_slice(), met)?;
    let steps = left_steps(alloc, graph.steps.as_slice(), met, left.numbers.as_slice())?;
    Ok(Graph {
        body: graph.body,
        points: left.points,
        steps,
    })
}

/// The graph without the points that control does not reach.
pub(crate) fn without_unreached(alloc: Global, graph: &Graph) -> Result<Graph, OutOfMemory>
    ensures { IfOk result (λ made. (made.body ≡ graph.now.body) × tell.IsPruned graph.now.points.items (steps_of graph.now) made.points.items (steps_of made)) }
{
    let met = reached(alloc, graph)?;
    pruned(alloc, graph, &met)
}
