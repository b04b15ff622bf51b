// Edges of control that are lost.
ghost use Rattle.std.specs.Prelude.{◌≡◌, ◌<◌, ◌≤◌, ℕ, None, IfOk, OnOk, length};
ghost use Rattle.jr_flow_defs.specs.Meaning.{Meaning};
ghost use Rattle.jr_flow_defs.specs.Graphs.{StepList};
ghost use Rattle.jr_flow_defs.specs.Kept.{Same};
ghost use Rattle.jr_flow.specs.Reached.{steps_of, IsGraphOf};
ghost use Rattle.jr_kept.specs.Named.{AreNames, old_naming};
ghost use Rattle.jr_kept.specs.Ordered.{AreNone, Tells};
ghost use Rattle.jr_kept.specs.Searched.{AreWithin, IsSide};
ghost use Rattle.jr_kept.specs.Compared as tell;

use crate::copies::put_events_without_one_copy;
use crate::edges::{Edge, Firsts};
use crate::flows::Flows;
use crate::names::Names;
use crate::search::{Search, Side};
use jr_base::OutOfMemory;
use std::alloc::Global;

// An edge between the nodes of two names.
fn edge_between(names: &Names, first: u32, second: u32) -> Edge {
    Edge {
        first: names.row(first),
        second: names.row(second),
    }
}

// Puts an edge of the old program to a second name, if there is one.
fn put_old_to(names: &Names, first: u32, second: Option<u32>, lost: &mut Firsts)
    ensures { Tells lost.old lost.new (second ≡ None) }
{
    match second {
        Some(second) => lost.put_old(edge_between(names, first, second)),
        None => {}
    }
}

// Puts an edge of the changed program to a second name, if there is one.
fn put_new_to(names: &Names, first: u32, second: Option<u32>, lost: &mut Firsts)
    ensures { Tells lost.old lost.new (second ≡ None) }
{
    match second {
        Some(second) => lost.put_new(edge_between(names, first, second)),
        None => {}
    }
}

/// The searches through the graphs before and after the change.
#[derive(Drop)]
struct Searches {
    before: Search,
    after: Search,
}

impl Searches {
    // Puts the first edges that stand on one side alone.
    fn compare_all(
        &mut self,
        old: &Side,
        new: &Side,
        names: &Names,
        count: u32,
        lost: &mut Firsts,
    ) -> Result<(), OutOfMemory>
        ensures { (s t : StepList) → IsSide old.now count s → IsSide new.now count t → tell.AreReady self.old old.now new.now count → OnOk result (Tells lost.old lost.new (tell.SameNames old.now s new.now t count)) }
    {
        for name in 0..count {
            self.compare(old, new, names, name, lost)?;
        }
        Ok(())
    }

    // Puts the first edges from the node of a name that stand on one side alone.
    fn compare(
        &mut self,
        old: &Side,
        new: &Side,
        names: &Names,
        name: u32,
        lost: &mut Firsts,
    ) -> Result<(), OutOfMemory>
        ensures { (count : ℕ) (s t : StepList) → IsSide old.now count s → IsSide new.now count t → tell.AreReady self.old old.now new.now count → name < count
            → OnOk result (tell.AreReady self.new old.now new.now count × Tells lost.old lost.new (tell.SameFrom old.now s new.now t name)) }
    {
        self.before.run(old, name)?;
        self.after.run(new, name)?;
        put_old_to(names, name, self.before.least_beyond(&self.after), lost);
        put_new_to(names, name, self.after.least_beyond(&self.before), lost);
        Ok(())
    }
}

fn put_edges_of_one_side(
    alloc: Global,
    old: &Side,
    new: &Side,
    names: &Names,
    count: u32,
    lost: &mut Firsts,
) -> Result<(), OutOfMemory>
    ensures { (s t : StepList) → IsSide old.now count s → IsSide new.now count t → OnOk result (Tells lost.old lost.new (tell.SameNames old.now s new.now t count)) }
{
    let before = Search::new(alloc, old.count(), count)?;
    let after = Search::new(alloc, new.count(), count)?;
    let mut searches = Searches { before, after };
    searches.compare_all(old, new, names, count, lost)
}

// Puts the edges that stand on one side alone, where the old side is this.
fn put_edges_beside(
    alloc: Global,
    old: &Side,
    flows: &Flows,
    count: u32,
    lost: &mut Firsts,
) -> Result<(), OutOfMemory>
    ensures { IsSide old.now count (steps_of flows.now.before.now) → old.now.rows.now ≡ flows.now.names.rows.now → old.now.points.now ≡ flows.now.before.now.points.items
        → AreNames flows.now.names.body count (old_naming flows.now.names) flows.now.before.now.body flows.now.before.now.points.items old.now.names.items → 2 ≤ count → AreWithin (length flows.now.after.now.points.items) (steps_of flows.now.after.now)
        → OnOk result (Tells lost.old lost.new (Same (tell.OldEdge flows.now) (tell.NewEdge flows.now))) }
{
    let names = &flows.names;
    let after = flows.after;
    let of_points = names.of_new(alloc, after, flows.origin, count)?;
    let new = Side::of(alloc, flows.rows, after, of_points, count)?;
    put_edges_of_one_side(alloc, old, &new, names, count, lost)
}

// Puts the edges that stand on one side alone, where the points of the old graph have these names.
fn put_lost_edges(
    alloc: Global,
    flows: &Flows,
    of_points: Vec<u32>,
    count: u32,
    lost: &mut Firsts,
) -> Result<(), OutOfMemory>
    ensures { AreNames flows.now.names.body count (old_naming flows.now.names) flows.now.before.now.body flows.now.before.now.points.items of_points.items → 2 ≤ count
        → AreWithin (length flows.now.before.now.points.items) (steps_of flows.now.before.now) → AreWithin (length flows.now.after.now.points.items) (steps_of flows.now.after.now)
        → OnOk result (Tells lost.old lost.new (Same (tell.OldEdge flows.now) (tell.NewEdge flows.now))) }
{
    let names = &flows.names;
    let old = Side::of(alloc, names.rows, flows.before, of_points, count)?;
    put_edges_beside(alloc, &old, flows, count, lost)
}

fn put_lost_control(alloc: Global, flows: &Flows, lost: &mut Firsts) -> Result<(), OutOfMemory>
    ensures { AreWithin (length flows.now.before.now.points.items) (steps_of flows.now.before.now) → AreWithin (length flows.now.after.now.points.items) (steps_of flows.now.after.now)
        → OnOk result (Tells lost.old lost.new (tell.KeepsByNumbers flows.now)) }
{
    let names = &flows.names;
    let count = names.count();
    let of_points = names.of_old(alloc, flows.before, count)?;
    put_events_without_one_copy(alloc, flows, &of_points, lost)?;
    put_lost_edges(alloc, flows, of_points, count, lost)
}

/// The first edges of control that are lost, where nodes are named by what they are copies of: two named nodes are joined by steps over points without a
/// name. Of each event there is one copy.
pub(crate) fn lost_control(alloc: Global, flows: &Flows) -> Result<Firsts, OutOfMemory>
    ensures numbers { AreWithin (length flows.now.before.now.points.items) (steps_of flows.now.before.now) → AreWithin (length flows.now.after.now.points.items) (steps_of flows.now.after.now)
        → IfOk result (λ lost. (AreNone lost → tell.KeepsByNumbers flows.now) × (tell.KeepsByNumbers flows.now → AreNone lost)) }
    ensures bodies { (m w : Meaning) → IsGraphOf flows.now.names.rows.now m flows.now.before.now → IsGraphOf flows.now.rows.now w flows.now.after.now
        → IfOk result (λ lost. (AreNone lost → tell.KeepsBodies flows.now m w) × (tell.KeepsBodies flows.now m w → AreNone lost)) }
    ensures joined { (m w : Meaning) (call method : ℕ) → IsGraphOf flows.now.names.rows.now m flows.now.before.now → tell.IsJoinedGraph flows.now w call method
        → IfOk result (λ lost. (AreNone lost → tell.KeepsJoined flows.now m w call method) × (tell.KeepsJoined flows.now m w call method → AreNone lost)) }
{
    let mut lost = Firsts::none();
    put_lost_control(alloc, flows, &mut lost)?;
    Ok(lost)
}
