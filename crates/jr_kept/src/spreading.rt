// The points that steps reach.
ghost use Rattle.std.specs.Prelude.{◌≡◌, ◌++◌, ◌∷◌, [], ℕ, List, IfOk, OnOk, map, length};
ghost use Rattle.std.specs.List.{Contains};
ghost use Rattle.jr_places.specs.Stamps.{IsEmptied};
ghost use Rattle.jr_flow.specs.Reached.{steps_of};
ghost use Rattle.jr_kept.specs.Listed.{under_in};
ghost use Rattle.jr_kept.specs.Searched.{ends_of, AreWays};
ghost use Rattle.jr_kept.specs.Spread as tell;

use crate::lists::Lists;
use jr_base::OutOfMemory;
use jr_flow::Graph;
use jr_places::Stamps;
use std::alloc::Global;

// The ends of each step.
fn step_ends(alloc: Global, graph: &Graph) -> Result<Vec<(u32, u32)>, OutOfMemory>
    ensures { IfOk result (λ pairs. pairs.items ≡ map ends_of graph.now.steps.items) }
{
    let mut pairs = Vec::new(alloc);
    for step in &graph.steps {
        pairs.push((step.from, step.to))?;
    }
    Ok(pairs)
}

// The ends of each step, the last first.
fn ends_back(alloc: Global, graph: &Graph) -> Result<Vec<(u32, u32)>, OutOfMemory>
    ensures { IfOk result (λ pairs. pairs.items ≡ map tell.back_of graph.now.steps.items) }
{
    let mut pairs = Vec::new(alloc);
    for step in &graph.steps {
        pairs.push((step.to, step.from))?;
    }
    Ok(pairs)
}

/// The points to which steps lead from each point.
pub(crate) fn ways_of(alloc: Global, graph: &Graph) -> Result<Lists, OutOfMemory>
    ensures { IfOk result (λ ways. AreWays ways (length graph.now.points.items) (steps_of graph.now)) }
{
    let pairs = step_ends(alloc, graph)?;
    Lists::of(alloc, 0, graph.points.len(), &pairs)
}

/// The points from which steps lead to each point.
pub(crate) fn ways_back(alloc: Global, graph: &Graph) -> Result<Lists, OutOfMemory>
    ensures { IfOk result (λ ways. tell.AreWaysBack ways (length graph.now.points.items) (steps_of graph.now)) }
{
    let pairs = ends_back(alloc, graph)?;
    Lists::of(alloc, 0, graph.points.len(), &pairs)
}

/// The points that ways were found to reach, and those that are still to be looked at.
#[derive(Drop)]
struct Spreading {
    met: Stamps,
    waiting: Vec<u32>,
}

impl Spreading {
    fn new(alloc: Global, count: usize) -> Result<Spreading, OutOfMemory>
        ensures met { IfOk result (λ spreading. IsEmptied spreading.met count) }
        ensures waiting { IfOk result (λ spreading. spreading.waiting.items ≡ []) }
    {
        let met = Stamps::new(alloc, count)?;
        Ok(Spreading {
            met,
            waiting: Vec::new(alloc),
        })
    }

    // What ways reach from these points is to be looked at.
    fn begin(&mut self, ways: &Lists, from: &[u32]) -> Result<(), OutOfMemory>
        ensures met { OnOk result (self.new.met ≡ self.old.met) }
        ensures waiting { OnOk result ((i k : ℕ) → Contains from.now i → Contains (under_in ways.now i) k → Contains self.new.waiting.items k) }
        ensures only { OnOk result (tell.AreNext (under_in ways.now) from.now self.old.waiting.items self.new.waiting.items) }
    {
        for point in from {
            self.waiting.extend_from_slice(ways.under(*point))?;
        }
        Ok(())
    }

    // A point that was to be looked at.
    fn meet(&mut self, ways: &Lists, barred: &Stamps, at: u32) -> Result<(), OutOfMemory>
        ensures { (from : List ℕ) (bound : ℕ) → tell.IsSpreading (under_in ways.now) from barred.now bound self.old.met (self.old.waiting.items ++ at ∷ []) → OnOk result (tell.IsSpreading (under_in ways.now) from barred.now bound self.new.met self.new.waiting.items) }
    {
        if barred.has(at) {
            return Ok(());
        }
        if self.met.add(at) {
            self.waiting.extend_from_slice(ways.under(at))?;
            return Ok(());
        }
        Ok(())
    }

    // Goes on until nothing waits.
    fn finish(&mut self, ways: &Lists, barred: &Stamps) -> Result<(), OutOfMemory>
        ensures { (from : List ℕ) (bound : ℕ) → tell.IsSpreading (under_in ways.now) from barred.now bound self.old.met self.old.waiting.items → OnOk result (tell.IsSpreading (under_in ways.now) from barred.now bound self.new.met []) }
    {
        for _turn in 0..u64::MAX {
            let Some(at) = self.waiting.pop() else {
                return Ok(());
            };
            self.meet(ways, barred, at)?;
        }
        Err(OutOfMemory)
    }
}

/// The points, out of so many, that ways of one step or more reach from these without coming to a barred point.
pub(crate) fn spread(
    alloc: Global,
    ways: &Lists,
    from: &[u32],
    barred: &Stamps,
    count: usize,
) -> Result<Stamps, OutOfMemory>
    ensures every { IfOk result (λ met. tell.AreSpread (under_in ways.now) from.now barred.now count met) }
    ensures only { IfOk result (λ met. tell.OnlySpread (under_in ways.now) from.now barred.now count met) }
{
    let mut spreading = Spreading::new(alloc, count)?;
    spreading.begin(ways, from)?;
    spreading.finish(ways, barred)?;
    Ok(spreading.met)
}
