// The nodes to which edges of control lead from a node.
ghost use Rattle.std.specs.Prelude.{◌≡◌, ◌+◌, ◌<◌, ◌++◌, ◌∷◌, [], ℕ, List, IfOk, OnOk, IfSome, IfNone, length, nat_lt, ◌&&◌, true, false, slice_get};
ghost use Rattle.std.specs.List.{Contains};
ghost use Rattle.jr_places.specs.declared.stamps.Stamps as stamps;
ghost use Rattle.jr_places.specs.Stamps.{is_stamped, AddsStamp};
ghost use Rattle.jr_tree.specs.Rows as tree;
ghost use Rattle.jr_flow_defs.specs.Graphs.{StepList};
ghost use Rattle.jr_flow_defs.specs.Computed as computed;
ghost use Rattle.jr_flow.specs.Reached.{steps_of};
ghost use Rattle.jr_kept.specs.Searched as tell;

use crate::lists::Lists;
use crate::names::NO_NAME;
use crate::spreading::ways_of;
use jr_base::OutOfMemory;
use jr_flow::{Graph, Point};
use jr_places::{Stamps, end_at};
use jr_tree::Row;
use std::alloc::Global;

/// The points of a graph with the names of nodes.
#[derive(Drop)]
pub(crate) struct Side<'a> {
    rows: &'a [Row],
    points: &'a [Point],
    /// The name of each point, or `NO_NAME`.
    names: Vec<u32>,
    /// The points to which steps lead from each point.
    ways: Lists,
    /// The points of each name.
    named: Lists,
}

fn item_at(all: &[u32], number: u32) -> Option<u32>
    ensures { result ≡ slice_get all.now number }
{
    all.get(number as usize).copied()
}

// Puts the name of a point before it, if it is one.
fn push_name(pairs: &mut Vec<(u32, u32)>, name: Option<u32>, point: u32) -> Result<(), OutOfMemory>
    ensures { (names : List ℕ) → slice_get names point ≡ name → tell.ArePairs names pairs.old.items point → OnOk result (tell.ArePairs names pairs.new.items (point + 1)) }
{
    match name {
        Some(name) => {
            pairs.push((name, point))?;
            Ok(())
        }
        None => Ok(()),
    }
}

// The points with their names before them.
fn names_with_points(alloc: Global, names: &[u32]) -> Result<Vec<(u32, u32)>, OutOfMemory>
    ensures { IfOk result (λ pairs. tell.ArePairs names.now pairs.items (length names.now)) }
{
    let Ok(count) = u32::try_from(names.len()) else {
        return Err(OutOfMemory);
    };
    let mut pairs = Vec::new(alloc);
    for point in 0..count {
        push_name(&mut pairs, item_at(names, point), point)?;
    }
    Ok(pairs)
}

// The points under their names, of which there are so many.
fn points_by_name(alloc: Global, names: &[u32], count: u32) -> Result<Lists, OutOfMemory>
    ensures { IfOk result (λ lists. tell.AreByName lists count names.now) }
{
    let pairs = names_with_points(alloc, names)?;
    Lists::of(alloc, 0, count as usize, &pairs)
}

// The second point holds the first.
fn is_inside(rows: &[Row], inner: Option<Point>, outer: Option<Point>) -> bool
    ensures { result ≡ computed.is_inside rows.now inner outer }
{
    match inner {
        Some(part) => match outer {
            Some(whole) => is_inside_row(rows, part.row, whole.row),
            None => false,
        },
        None => false,
    }
}

fn is_inside_row(rows: &[Row], part: u32, whole: u32) -> bool
    ensures { result ≡ (nat_lt whole part && nat_lt part (tree.end rows.now whole)) }
{
    if whole < part {
        part < end_at(rows, whole)
    } else {
        false
    }
}

impl<'a> Side<'a> {
    /// A graph over rows, whose points have these names, out of so many.
    pub(crate) fn of(
        alloc: Global,
        rows: &'a [Row],
        graph: &'a Graph,
        names: Vec<u32>,
        count: u32,
    ) -> Result<Side<'a>, OutOfMemory>
        ensures { length names.items ≡ length graph.now.points.items → tell.AreFew names.items count → tell.AreWithin (length graph.now.points.items) (steps_of graph.now) → IfOk result (λ side. tell.IsSideOf side rows.now graph.now names.items count) }
    {
        let ways = ways_of(alloc, graph)?;
        let named = points_by_name(alloc, &names, count)?;
        Ok(Side {
            rows,
            points: graph.points.as_slice(),
            names,
            ways,
            named,
        })
    }

    /// How many points there are.
    pub(crate) fn count(&self) -> usize
        ensures { result ≡ length self.now.points.now }
    {
        self.points.len()
    }

    fn name(&self, point: u32) -> u32
        ensures { result ≡ tell.name_in self.now.names.items point }
    {
        match self.names.get(point as usize) {
            Some(name) => *name,
            None => NO_NAME,
        }
    }

    fn point(&self, number: u32) -> Option<Point>
        ensures { result ≡ slice_get self.now.points.now number }
    {
        self.points.get(number as usize).copied()
    }

    // From a part of a longer name to the whole: they are one node.
    fn is_one_node(&self, from: u32, to: u32) -> bool
        ensures { result ≡ tell.is_one_node self.now.rows.now self.now.points.now self.now.names.items from to }
    {
        self.name(from) == self.name(to) && is_inside(self.rows, self.point(from), self.point(to))
    }
}

/// Names, each once.
#[derive(Drop)]
struct Targets {
    met: Stamps,
    all: Vec<u32>,
}

impl Targets {
    fn new(alloc: Global, count: u32) -> Result<Targets, OutOfMemory>
        ensures { IfOk result (λ targets. tell.IsTargets targets count) }
    {
        let met = Stamps::new(alloc, count as usize)?;
        Ok(Targets {
            met,
            all: Vec::new(alloc),
        })
    }

    fn empty(&mut self) -> Result<(), OutOfMemory>
        ensures { (count : ℕ) → tell.IsTargets self.old count → OnOk result (tell.IsTargets self.new count × (self.new.all.items ≡ [])) }
    {
        self.met.empty()?;
        self.all.clear();
        Ok(())
    }

    fn has(&self, name: u32) -> bool
        ensures { result ≡ is_stamped self.now.met name }
    {
        self.met.has(name)
    }

    fn add(&mut self, name: u32) -> Result<(), OutOfMemory>
        ensures { (count : ℕ) → tell.IsTargets self.old count → name < count → OnOk result (tell.IsTargets self.new count × tell.AddsTarget self.old self.new name) }
    {
        if self.met.add(name) {
            self.all.push(name)?;
        }
        Ok(())
    }

    // The least name that is here and not there.
    fn least_beyond(&self, other: &Targets) -> Option<u32>
        ensures none { IfNone result ((y : ℕ) → Contains self.now.all.items y → is_stamped other.now.met y ≡ true) }
        ensures some { IfSome result (λ y. Contains self.now.all.items y × (is_stamped other.now.met y ≡ false)) }
    {
        let mut least = None;
        for name in &self.all {
            least = least_with(least, *name, other.has(*name));
        }
        least
    }
}

/// What a search through one graph has found.
#[derive(Drop)]
pub(crate) struct Search {
    /// The points that were met on the way from one.
    met: Stamps,
    /// Points to which steps lead and that are still to be met.
    waiting: Vec<u32>,
    /// The names of the nodes that were reached.
    targets: Targets,
}

impl Search {
    /// A search through so many points with so many names.
    pub(crate) fn new(alloc: Global, points: usize, names: u32) -> Result<Search, OutOfMemory>
        ensures { IfOk result (λ search. tell.CanSearch search points names) }
    {
        let met = Stamps::new(alloc, points)?;
        let targets = Targets::new(alloc, names)?;
        Ok(Search {
            met,
            waiting: Vec::new(alloc),
            targets,
        })
    }

    // A point that was met now: its name is found, or what comes behind it is to be met.
    fn pass(&mut self, side: &Side, from: u32, to: u32) -> Result<(), OutOfMemory>
        ensures { (count : ℕ) (steps : StepList) (old : List ℕ) (met : stamps.Stamps) → tell.IsSide side.now count steps → tell.IsTargets self.old.targets count
            → tell.IsSearching side.now.rows.now side.now.points.now side.now.names.items steps from old met (self.old.waiting.items ++ to ∷ []) self.old.targets.all.items
            → AddsStamp met self.old.met (length side.now.points.now) to true
            → OnOk result (tell.IsTargets self.new.targets count × tell.IsSearchOf self.new side.now steps from old) }
    {
        let name = side.name(to);
        if name == NO_NAME {
            self.waiting.extend_from_slice(side.ways.under(to))?;
            return Ok(());
        }
        if side.is_one_node(from, to) {
            return Ok(());
        }
        self.targets.add(name)
    }

    // A point that was to be met.
    fn meet(&mut self, side: &Side, from: u32, to: u32) -> Result<(), OutOfMemory>
        ensures { (count : ℕ) (steps : StepList) (old : List ℕ) → tell.IsSide side.now count steps → tell.IsTargets self.old.targets count
            → tell.IsSearching side.now.rows.now side.now.points.now side.now.names.items steps from old self.old.met (self.old.waiting.items ++ to ∷ []) self.old.targets.all.items
            → OnOk result (tell.IsTargets self.new.targets count × tell.IsSearchOf self.new side.now steps from old) }
    {
        if self.met.add(to) {
            return self.pass(side, from, to);
        }
        Ok(())
    }

    // Goes on until nothing waits.
    fn finish(&mut self, side: &Side, from: u32) -> Result<(), OutOfMemory>
        ensures { (count : ℕ) (steps : StepList) (old : List ℕ) → tell.IsSide side.now count steps → tell.IsTargets self.old.targets count → tell.IsSearchOf self.old side.now steps from old
            → OnOk result (tell.IsTargets self.new.targets count × tell.IsSearching side.now.rows.now side.now.points.now side.now.names.items steps from old self.new.met [] self.new.targets.all.items) }
    {
        for _turn in 0..u64::MAX {
            let Some(to) = self.waiting.pop() else {
                return Ok(());
            };
            self.meet(side, from, to)?;
        }
        Err(OutOfMemory)
    }

    // Finds the nodes to which edges lead from one point.
    fn run_from(&mut self, side: &Side, from: u32) -> Result<(), OutOfMemory>
        ensures { (count : ℕ) (steps : StepList) → tell.IsSide side.now count steps → tell.IsReady self.old side.now count → from < length side.now.points.now
            → OnOk result (tell.IsReady self.new side.now count × tell.FindsFrom side.now steps from self.old.targets.all.items self.new.targets.all.items) }
    {
        self.met.empty()?;
        self.waiting.clear();
        self.waiting.extend_from_slice(side.ways.under(from))?;
        self.finish(side, from)
    }

    fn run_all(&mut self, side: &Side, points: &[u32]) -> Result<(), OutOfMemory>
        ensures { (count : ℕ) (steps : StepList) → tell.IsSide side.now count steps → tell.IsReady self.old side.now count → ((k : ℕ) → Contains points.now k → k < length side.now.points.now)
            → OnOk result (tell.IsReady self.new side.now count × tell.FindsFromAll side.now steps points.now self.old.targets.all.items self.new.targets.all.items) }
    {
        for point in points {
            self.run_from(side, *point)?;
        }
        Ok(())
    }

    /// Finds the nodes to which edges lead from the node of a name: by steps over points without a name.
    pub(crate) fn run(&mut self, side: &Side, name: u32) -> Result<(), OutOfMemory>
        ensures { (count : ℕ) (steps : StepList) → tell.IsSide side.now count steps → tell.IsReady self.old side.now count → name < count → OnOk result (tell.HasFound self.new side.now steps count name) }
    {
        self.targets.empty()?;
        self.run_all(side, side.named.under(name))
    }

    /// The least name that was found here and not there.
    pub(crate) fn least_beyond(&self, other: &Search) -> Option<u32>
        ensures none { IfNone result ((y : ℕ) → Contains self.now.targets.all.items y → is_stamped other.now.targets.met y ≡ true) }
        ensures some { IfSome result (λ y. Contains self.now.targets.all.items y × (is_stamped other.now.targets.met y ≡ false)) }
    {
        self.targets.least_beyond(&other.targets)
    }
}

// The lesser of a name and the least so far, unless it is there.
fn least_with(least: Option<u32>, name: u32, is_there: bool) -> Option<u32>
    ensures { result ≡ tell.least_with least name is_there }
{
    if is_there {
        return least;
    }
    match least {
        Some(known) => Some(name.min(known)),
        None => Some(name),
    }
}
