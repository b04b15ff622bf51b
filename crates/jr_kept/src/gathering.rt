// The definitions that reach a use, by what they are copies of.
ghost use Rattle.std.specs.Prelude.{◌≡◌, ◌<◌, ◌≤◌, ◌++◌, ◌∷◌, [], ℕ, List, Some, true, IfOk, IfSome, OnOk, length, slice_get};
ghost use Rattle.jr_places.specs.declared.stamps.Stamps as stamps;
ghost use Rattle.jr_places.specs.Stamps.{AddsStamp};
ghost use Rattle.jr_flow_defs.specs.Graphs.{ReachesByNumbers};
ghost use Rattle.jr_flow.specs.Reached.{steps_of};
ghost use Rattle.jr_kept.specs.Listed.{under_in};
ghost use Rattle.jr_kept.specs.Named.{origin_in};
ghost use Rattle.jr_kept.specs.Gathered as tell;

use crate::handing::Handing;
use crate::lists::Lists;
use jr_base::OutOfMemory;
use jr_flow::{Graph, Point, reaching};
use jr_locks::row_for;
use jr_places::Stamps;
use std::alloc::Global;

// ---- definitions by use

fn row_of(points: &[Point], number: u32) -> Option<u32>
    ensures { result ≡ tell.row_at points.now number }
{
    match points.get(number as usize) {
        Some(point) => Some(point.row),
        None => None,
    }
}

/// Puts a pair, if there are both of it.
pub(crate) fn push_pair(
    pairs: &mut Vec<(u32, u32)>,
    to: Option<u32>,
    from: Option<u32>,
) -> Result<(), OutOfMemory>
    ensures { OnOk result (pairs.new.items ≡ pairs.old.items ++ tell.pair_of to from) }
{
    match to {
        Some(to) => push_from(pairs, to, from),
        None => Ok(()),
    }
}

fn push_from(pairs: &mut Vec<(u32, u32)>, to: u32, from: Option<u32>) -> Result<(), OutOfMemory>
    ensures { OnOk result (pairs.new.items ≡ pairs.old.items ++ tell.pair_from to from) }
{
    match from {
        Some(from) => {
            pairs.push((to, from))?;
            Ok(())
        }
        None => Ok(()),
    }
}

// Puts the row of each use with that of a definition which reaches it; these are given by the numbers of their points.
fn put_pairs(
    pairs: &mut Vec<(u32, u32)>,
    points: &[Point],
    reaching: &[(u32, u32)],
) -> Result<(), OutOfMemory>
    ensures { OnOk result (pairs.new.items ≡ pairs.old.items ++ tell.pairs_of points.now reaching.now) }
{
    for (definition, used) in reaching {
        push_pair(pairs, row_of(points, *used), row_of(points, *definition))?;
    }
    Ok(())
}

fn row_pairs(alloc: Global, graph: &Graph) -> Result<Vec<(u32, u32)>, OutOfMemory>
    ensures { IfOk result (λ pairs. tell.ArePairs pairs.items (ReachesByNumbers graph.now.points.items (steps_of graph.now))) }
{
    let all = reaching(alloc, graph)?;
    let mut pairs = Vec::new(alloc);
    put_pairs(&mut pairs, graph.points.as_slice(), &all)?;
    Ok(pairs)
}

/// The point of the number.
pub(crate) fn point_at(points: &[Point], number: usize) -> Option<Point>
    ensures { result ≡ slice_get points.now number }
{
    points.get(number).copied()
}

// The row, or that of the point, if it comes before.
fn lesser(least: u32, point: Option<Point>) -> u32
    ensures kept { result ≤ least }
    ensures here { IfSome point (λ x. result ≤ x.row) }
{
    match point {
        Some(point) => least.min(point.row),
        None => least,
    }
}

// No point stands at a row before this.
fn least_row(points: &[Point]) -> u32
    ensures { tell.AreFrom points.now (length points.now) result }
{
    let mut least = u32::MAX;
    for number in 0..points.len() {
        least = lesser(least, point_at(points, number));
    }
    least
}

// The bound, or what is just above the row of the point.
fn above(bound: usize, point: Option<Point>) -> usize
    ensures kept { bound ≤ result }
    ensures here { IfSome point (λ x. x.row < result) }
{
    match point {
        Some(point) => bound.max((point.row as usize).saturating_add(1)),
        None => bound,
    }
}

/// Above the rows of all points.
pub(crate) fn row_bound(points: &[Point]) -> usize
    ensures { tell.AreBelow points.now (length points.now) result }
{
    let mut bound = 0;
    for number in 0..points.len() {
        bound = above(bound, point_at(points, number));
    }
    bound
}

/// The rows of the definitions that reach each use, under its row.
pub(crate) fn definitions_by_use(alloc: Global, graph: &Graph) -> Result<Lists, OutOfMemory>
    ensures { IfOk result (λ lists. tell.AreReached (under_in lists) (ReachesByNumbers graph.now.points.items (steps_of graph.now))) }
{
    let pairs = row_pairs(alloc, graph)?;
    let first = least_row(&graph.points);
    let bound = row_bound(&graph.points);
    Lists::of(alloc, first, bound.saturating_sub(first as usize), &pairs)
}

// ---- what a use is reached by

/// Old rows, each once, with those below a bound as a set.
#[derive(Drop)]
pub(crate) struct Originals {
    met: Stamps,
    all: Vec<u32>,
}

impl Originals {
    /// None, so far.
    pub(crate) fn new(alloc: Global, bound: usize) -> Result<Originals, OutOfMemory>
        ensures { IfOk result (λ originals. tell.AreOriginals originals bound) }
    {
        let met = Stamps::new(alloc, bound)?;
        Ok(Originals {
            met,
            all: Vec::new(alloc),
        })
    }

    fn empty(&mut self) -> Result<(), OutOfMemory>
        ensures { (bound : ℕ) → tell.AreOriginals self.old bound → OnOk result (tell.AreOriginals self.new bound × (self.new.all.items ≡ [])) }
    {
        self.met.empty()?;
        self.all.clear();
        Ok(())
    }

    /// The row is among them.
    pub(crate) fn has(&self, row: u32) -> bool
        ensures { result ≡ tell.is_original self.now row }
    {
        self.met.has(row)
    }

    fn put(&mut self, row: u32) -> Result<(), OutOfMemory>
        ensures { (bound : ℕ) → tell.AreOriginals self.old bound → OnOk result (tell.AreOriginals self.new bound × tell.AddsRow self.old.all.items self.new.all.items (Some row)) }
    {
        self.all.push(row)?;
        let _ = self.met.add(row);
        Ok(())
    }

    /// Puts the row, if it is not there.
    pub(crate) fn add(&mut self, row: u32) -> Result<(), OutOfMemory>
        ensures { (bound : ℕ) → tell.AreOriginals self.old bound → OnOk result (tell.AreOriginals self.new bound × tell.AddsRow self.old.all.items self.new.all.items (Some row)) }
    {
        if self.met.has(row) {
            return Ok(());
        }
        self.put(row)
    }

    // The old row of which the row is a copy, if it is one.
    fn add_origin(&mut self, origin: &[u32], at: u32) -> Result<(), OutOfMemory>
        ensures { (bound : ℕ) → tell.AreOriginals self.old bound → OnOk result (tell.AreOriginals self.new bound × tell.AddsRow self.old.all.items self.new.all.items (origin_in origin.now at)) }
    {
        match row_for(origin, at) {
            Some(row) => self.add(row),
            None => Ok(()),
        }
    }

    /// All of them.
    pub(crate) fn rows(&self) -> &[u32]
        ensures { result.now ≡ self.now.all.items }
    {
        self.all.as_slice()
    }
}

/// The search for the definitions that reach one use of the changed program.
#[derive(Drop)]
pub(crate) struct Gathering {
    /// The definitions that were found, by rows of the changed program.
    seen: Stamps,
    /// Those that are still to be looked at.
    waiting: Vec<u32>,
    /// The old rows of which they are copies.
    pub(crate) originals: Originals,
}

impl Gathering {
    /// Nothing, so far. Rows of both programs are below these bounds.
    pub(crate) fn new(alloc: Global, old: usize, new: usize) -> Result<Gathering, OutOfMemory>
        ensures { IfOk result (λ gathering. tell.CanGather gathering old new) }
    {
        let seen = Stamps::new(alloc, new)?;
        let originals = Originals::new(alloc, old)?;
        Ok(Gathering {
            seen,
            waiting: Vec::new(alloc),
            originals,
        })
    }

    // A definition that was found now: what it hands on waits, and another that is a copy has the name of the old one.
    fn pass(
        &mut self,
        definitions: &Lists,
        handing: &Handing,
        origin: &[u32],
        at: u32,
    ) -> Result<(), OutOfMemory>
        ensures { (used old new : ℕ) (met : stamps.Stamps) → tell.AreInside (under_in definitions.now) new → tell.AreOriginals self.old.originals old
            → tell.IsGathering (under_in definitions.now) (tell.use_in handing.now) (origin_in origin.now) used new met (self.old.waiting.items ++ at ∷ []) self.old.originals.all.items → AddsStamp met self.old.seen new at true
            → OnOk result (tell.AreOriginals self.new.originals old × tell.IsGathering (under_in definitions.now) (tell.use_in handing.now) (origin_in origin.now) used new self.new.seen self.new.waiting.items self.new.originals.all.items) }
    {
        match handing.use_of(at) {
            Some(from) => {
                self.waiting.extend_from_slice(definitions.under(from))?;
                Ok(())
            }
            None => self.originals.add_origin(origin, at),
        }
    }

    // A definition that was to be looked at.
    fn meet(
        &mut self,
        definitions: &Lists,
        handing: &Handing,
        origin: &[u32],
        at: u32,
    ) -> Result<(), OutOfMemory>
        ensures { (used old new : ℕ) → tell.AreInside (under_in definitions.now) new → tell.AreOriginals self.old.originals old
            → tell.IsGathering (under_in definitions.now) (tell.use_in handing.now) (origin_in origin.now) used new self.old.seen (self.old.waiting.items ++ at ∷ []) self.old.originals.all.items
            → OnOk result (tell.AreOriginals self.new.originals old × tell.IsGathering (under_in definitions.now) (tell.use_in handing.now) (origin_in origin.now) used new self.new.seen self.new.waiting.items self.new.originals.all.items) }
    {
        if self.seen.add(at) {
            return self.pass(definitions, handing, origin, at);
        }
        Ok(())
    }

    // Goes on until nothing waits.
    fn finish(
        &mut self,
        definitions: &Lists,
        handing: &Handing,
        origin: &[u32],
    ) -> Result<(), OutOfMemory>
        ensures { (used old new : ℕ) → tell.AreInside (under_in definitions.now) new → tell.AreOriginals self.old.originals old
            → tell.IsGathering (under_in definitions.now) (tell.use_in handing.now) (origin_in origin.now) used new self.old.seen self.old.waiting.items self.old.originals.all.items
            → OnOk result (tell.AreOriginals self.new.originals old × tell.IsGathering (under_in definitions.now) (tell.use_in handing.now) (origin_in origin.now) used new self.new.seen [] self.new.originals.all.items) }
    {
        for _turn in 0..u64::MAX {
            let Some(at) = self.waiting.pop() else {
                return Ok(());
            };
            self.meet(definitions, handing, origin, at)?;
        }
        Err(OutOfMemory)
    }

    /// Finds the old rows of the definitions that reach a use, also through those that hand on.
    pub(crate) fn run(
        &mut self,
        definitions: &Lists,
        handing: &Handing,
        origin: &[u32],
        used: u32,
    ) -> Result<(), OutOfMemory>
        ensures { (old new : ℕ) → tell.AreInside (under_in definitions.now) new → tell.CanGather self.old old new
            → OnOk result (tell.CanGather self.new old new × tell.AreOriginalsOf (under_in definitions.now) (tell.use_in handing.now) (origin_in origin.now) used self.new.originals.all.items) }
    {
        self.seen.empty()?;
        self.originals.empty()?;
        self.waiting.clear();
        self.waiting.extend_from_slice(definitions.under(used))?;
        self.finish(definitions, handing, origin)
    }
}
