// The graph of a body: its points, and the steps that pass over no other place that is a point.
ghost use Rattle.std.specs.Prelude.{◌≡◌, ◌+◌, ◌-◌, ◌<◌, ◌≤◌, ◌^◌, ◌++◌, ◌∷◌, [], ℕ, true, false, List, Option, Some, None, if◌then◌else◌, IfOk, IfErr, IfSome, OnOk, length, map, slice_get, slice_set};
ghost use Rattle.std.specs.List.Sorted.{IsPermutation};
ghost use Rattle.jr_places.specs.declared.stamps.Stamps as stamps;
ghost use Rattle.jr_places.specs.Stamps.{IsStamping, IsEmptied, AddsStamp};
ghost use Rattle.jr_tree.specs.Rows.{Rows};
ghost use Rattle.jr_tree.specs.Tree.{IsTree};
ghost use Rattle.jr_flow_defs.specs.Meaning.{Meaning};
ghost use Rattle.jr_flow_defs.specs.Paths.{Flow};
ghost use Rattle.jr_flow_defs.specs.Graphs.{StepList};
ghost use Rattle.jr_flow.specs.declared.states.States as code_states;
ghost use Rattle.jr_flow.specs.Located.{states_in};
ghost use Rattle.jr_flow.specs.Views.{rows_in, IsViewOf};
ghost use Rattle.jr_flow.specs.Reached.{step_seen, IsGraphOf};
ghost use Rattle.jr_flow.specs.Coded.{IsTooLarge};
ghost use Rattle.jr_flow.specs.Grouped.{hops_in};
ghost use Rattle.jr_flow.specs.Numbered.{OnlyWhere};
ghost use Rattle.jr_flow.specs.Stated as stated;
ghost use Rattle.jr_flow.specs.Walked as tell;

use crate::code::code_of;
use crate::hops::Hop;
use crate::point::{FlowFault, Graph, Step};
use crate::states::{States, states_of};
use jr_base::OutOfMemory;
use jr_places::Stamps;
use jr_view::View;
use std::alloc::Global;

// ---- where chains of places that are no points end

// The only place to which control goes from a place that is no point, if there is one alone.
fn only_hop(states: &States, place: u32) -> Option<u32>
    ensures { place + 1 < 2 ^ 32 → (g : Flow ℕ) → tell.IsFlowOf states.now g → place < length (states_in states.now.locations) → tell.number_in states.now place ≡ None → IfSome result (λ e. tell.IsEnd states.now g place e) }
{
    if states.count_hops(place) != 1 {
        return None;
    }
    let first = states.first_hop(place);
    match states.hop(first) {
        Some(hop) => Some(hop.to),
        None => None,
    }
}

// The same where the place may be a point.
fn only_way(states: &States, place: u32) -> Option<u32>
    ensures { place + 1 < 2 ^ 32 → (g : Flow ℕ) → tell.IsFlowOf states.now g → place < length (states_in states.now.locations) → IfSome result (λ e. tell.IsEnd states.now g place e) }
{
    match states.point(place) {
        Some(_) => None,
        None => only_hop(states, place),
    }
}

// Where control comes to from a place by one way alone, or else the place.
fn first_end(states: &States, place: u32) -> u32
    ensures { place + 1 < 2 ^ 32 → (g : Flow ℕ) → tell.IsFlowOf states.now g → place < length (states_in states.now.locations) → tell.IsEnd states.now g place result }
{
    match only_way(states, place) {
        Some(end) => end,
        None => place,
    }
}

fn item(all: &[u32], number: u32) -> u32
    ensures { result ≡ tell.end_in all.now number }
{
    match all.get(number as usize) {
        Some(found) => *found,
        None => number,
    }
}

#[tactic(auto, using(std::proofs::lemmas::List::set_past))]
fn put(all: &mut Vec<u32>, at: usize, number: u32)
    ensures { all.new.items ≡ slice_set all.old.items at number }
{
    if at < all.len() {
        all[at] = number;
    }
}

fn end_at(ends: &[u32], place: usize) -> Option<u32>
    ensures { result ≡ slice_get ends.now place }
{
    ends.get(place).copied()
}

// Puts two ways together to one. Says whether that changed it.
fn shorten_one(ends: &mut Vec<u32>, place: usize) -> bool
    ensures { (states : code_states.States) (g : Flow ℕ) → tell.AreEnds states g ends.old.items → tell.AreEnds states g ends.new.items }
{
    match end_at(&*ends, place) {
        Some(end) => {
            let next = item(&*ends, end);
            put(ends, place, next);
            next != end
        }
        None => false,
    }
}

// Puts two ways together to one, for each place. Says whether that changed some.
fn shorten(ends: &mut Vec<u32>) -> bool
    ensures { (states : code_states.States) (g : Flow ℕ) → tell.AreEnds states g ends.old.items → tell.AreEnds states g ends.new.items }
{
    let mut is_changed = false;
    for place in 0..ends.len() {
        let is_new = shorten_one(ends, place);
        is_changed = is_changed || is_new;
    }
    is_changed
}

// How often ways are put together: a round of places that are no points never ends.
const ROUNDS: u32 = 32;

fn shorten_all(ends: &mut Vec<u32>)
    ensures { (states : code_states.States) (g : Flow ℕ) → tell.AreEnds states g ends.old.items → tell.AreEnds states g ends.new.items }
{
    for _round in 0..ROUNDS {
        if !shorten(ends) {
            return;
        }
    }
}

// For each place where control comes to by one way alone.
fn first_ends(alloc: Global, states: &States, count: u32) -> Result<Vec<u32>, OutOfMemory>
    ensures { count ≤ length (states_in states.now.locations) → (g : Flow ℕ) → tell.IsFlowOf states.now g → IfOk result (λ ends. tell.AreEnds states.now g ends.items) }
{
    let mut ends = Vec::new(alloc);
    for place in 0..count {
        ends.push(first_end(states, place))?;
    }
    Ok(ends)
}

// Where control comes to from each place by only ways over places that are no points, so that long chains of these are walked once.
fn ends_of(alloc: Global, states: &States) -> Result<Vec<u32>, OutOfMemory>
    ensures { (g : Flow ℕ) → tell.IsFlowOf states.now g → IfOk result (λ ends. tell.AreEnds states.now g ends.items) }
{
    let Ok(count) = u32::try_from(states.count()) else {
        return Err(OutOfMemory);
    };
    let mut ends = first_ends(alloc, states, count)?;
    shorten_all(&mut ends);
    Ok(ends)
}

// ---- what comes behind a place

// The hop is of this kind.
fn is_such(hop: Hop, is_throw: bool) -> bool
    ensures { result ≡ tell.such is_throw hop.is_throw }
{
    if is_throw {
        hop.is_throw
    } else {
        !hop.is_throw
    }
}

fn open_if(frontier: &mut Vec<u32>, is_such: bool, place: u32) -> Result<(), OutOfMemory>
    ensures { OnOk result (frontier.new.items ≡ frontier.old.items ++ (if is_such then place ∷ [] else [])) }
{
    if is_such {
        frontier.push(place)?;
    }
    Ok(())
}

fn open_one(
    ends: &[u32],
    frontier: &mut Vec<u32>,
    hop: Option<Hop>,
    is_throw: bool,
) -> Result<(), OutOfMemory>
    ensures { OnOk result (frontier.new.items ≡ frontier.old.items ++ tell.opened ends.now is_throw (tell.hop_then hop [])) }
{
    match hop {
        Some(hop) => open_if(frontier, is_such(hop, is_throw), item(ends, hop.to)),
        None => Ok(()),
    }
}

// Opens where the hops of one kind end, from one hop up to another.
fn open_hops(
    states: &States,
    ends: &[u32],
    frontier: &mut Vec<u32>,
    from: u32,
    end: u32,
    is_throw: bool,
) -> Result<(), OutOfMemory>
    ensures { OnOk result (frontier.new.items ≡ frontier.old.items ++ tell.opened ends.now is_throw (tell.hops_from (hops_in states.now.hops) from (end - from))) }
{
    for number in from..end {
        open_one(ends, frontier, states.hop(number), is_throw)?;
    }
    Ok(())
}

// Opens where the hops of one kind from a place end.
fn open_behind(
    states: &States,
    ends: &[u32],
    frontier: &mut Vec<u32>,
    place: u32,
    is_throw: bool,
) -> Result<(), OutOfMemory>
    ensures { place + 1 < 2 ^ 32 → OnOk result (frontier.new.items ≡ frontier.old.items ++ tell.opened ends.now is_throw (tell.hops_at states.now place)) }
{
    let first = states.first_hop(place);
    let end = states.first_hop(place.saturating_add(1));
    open_hops(states, ends, frontier, first, end, is_throw)
}

// ---- the search

// The point at which a search begins, by its place and its number, and whether for steps that are throws.
#[derive(Clone, Copy)]
pub(crate) struct Source {
    place: u32,
    point: u32,
    is_throw: bool,
}

// The search for the points behind one point.
#[derive(Drop)]
pub(crate) struct Walk {
    met: Stamps,
    frontier: Vec<u32>,
    steps: Vec<Step>,
}

impl Walk {
    // What comes behind a place that was met now: a step where it is a point, else what is opened.
    fn pass(
        &mut self,
        states: &States,
        ends: &[u32],
        of: Source,
        to: u32,
    ) -> Result<(), OutOfMemory>
        ensures { (g : Flow ℕ) (old : StepList) (met : stamps.Stamps) → tell.IsSource states.now g ends.now of → tell.IsWalkingOn states.now g ends.now of old met (self.old.frontier.items ++ to ∷ []) (tell.steps_in self.old)
            → AddsStamp met self.old.met (length (states_in states.now.locations)) to true → OnOk result (tell.IsWalkingOn states.now g ends.now of old self.new.met self.new.frontier.items (tell.steps_in self.new)) }
    {
        match states.point(to) {
            Some(point) => {
                self.steps.push(Step {
                    from: of.point,
                    to: point,
                    is_throw: of.is_throw,
                })?;
                Ok(())
            }
            None => {
                open_behind(states, ends, &mut self.frontier, to, false)?;
                open_behind(states, ends, &mut self.frontier, to, true)
            }
        }
    }

    // A place that was open.
    fn meet(
        &mut self,
        states: &States,
        ends: &[u32],
        of: Source,
        to: u32,
    ) -> Result<(), OutOfMemory>
        ensures { (g : Flow ℕ) (old : StepList) → tell.IsSource states.now g ends.now of → tell.IsWalkingOn states.now g ends.now of old self.old.met (self.old.frontier.items ++ to ∷ []) (tell.steps_in self.old)
            → OnOk result (tell.IsWalkingOn states.now g ends.now of old self.new.met self.new.frontier.items (tell.steps_in self.new)) }
    {
        if self.met.add(to) {
            return self.pass(states, ends, of, to);
        }
        Ok(())
    }

    // Begins a search.
    fn begin(&mut self, states: &States, ends: &[u32], of: Source) -> Result<(), OutOfMemory>
        ensures { (g : Flow ℕ) → tell.IsSource states.now g ends.now of → IsStamping self.old.met (length (states_in states.now.locations)) → tell.AreSound g (tell.number_in states.now) (tell.steps_in self.old)
            → OnOk result (tell.IsWalkingOn states.now g ends.now of (tell.steps_in self.old) self.new.met self.new.frontier.items (tell.steps_in self.new)) }
    {
        self.met.empty()?;
        self.frontier.clear();
        open_behind(states, ends, &mut self.frontier, of.place, of.is_throw)
    }

    // Goes on until nothing is open.
    fn finish(&mut self, states: &States, ends: &[u32], of: Source) -> Result<(), OutOfMemory>
        ensures { (g : Flow ℕ) (old : StepList) → tell.IsSource states.now g ends.now of → tell.IsWalkingOn states.now g ends.now of old self.old.met self.old.frontier.items (tell.steps_in self.old)
            → OnOk result (tell.IsWalkingOn states.now g ends.now of old self.new.met [] (tell.steps_in self.new)) }
    {
        for _turn in 0..u64::MAX {
            let Some(to) = self.frontier.pop() else {
                return Ok(());
            };
            self.meet(states, ends, of, to)?;
        }
        Err(OutOfMemory)
    }

    // Notes the steps from a point, those that are throws or the others.
    fn walk(&mut self, states: &States, ends: &[u32], of: Source) -> Result<(), OutOfMemory>
        ensures { (g : Flow ℕ) → tell.IsSource states.now g ends.now of → IsStamping self.old.met (length (states_in states.now.locations)) → tell.AreSound g (tell.number_in states.now) (tell.steps_in self.old)
            → OnOk result (tell.IsWalkingOn states.now g ends.now of (tell.steps_in self.old) self.new.met [] (tell.steps_in self.new)) }
    {
        self.begin(states, ends, of)?;
        self.finish(states, ends, of)
    }

    // Notes the steps from a point.
    fn walk_both(
        &mut self,
        states: &States,
        ends: &[u32],
        place: u32,
        point: u32,
    ) -> Result<(), OutOfMemory>
        ensures { (g : Flow ℕ) → tell.IsFlowOf states.now g → tell.AreEnds states.now g ends.now → length (states_in states.now.locations) < 2 ^ 32 → place < length (states_in states.now.locations) → tell.number_in states.now place ≡ Some point
            → tell.HaveSteps states.now g place self.old.met (tell.steps_in self.old) → OnOk result (tell.HaveSteps states.now g (place + 1) self.new.met (tell.steps_in self.new)) }
    {
        let plain = Source {
            place,
            point,
            is_throw: false,
        };
        self.walk(states, ends, plain)?;
        let thrown = Source {
            place,
            point,
            is_throw: true,
        };
        self.walk(states, ends, thrown)
    }

    // Notes the steps from the point of a place, if one stands there.
    fn walk_from(&mut self, states: &States, ends: &[u32], place: u32) -> Result<(), OutOfMemory>
        ensures { (g : Flow ℕ) → tell.IsFlowOf states.now g → tell.AreEnds states.now g ends.now → length (states_in states.now.locations) < 2 ^ 32 → place < length (states_in states.now.locations)
            → tell.HaveSteps states.now g place self.old.met (tell.steps_in self.old) → OnOk result (tell.HaveSteps states.now g (place + 1) self.new.met (tell.steps_in self.new)) }
    {
        match states.point(place) {
            Some(point) => self.walk_both(states, ends, place, point),
            None => Ok(()),
        }
    }

    fn walk_all(&mut self, states: &States, ends: &[u32], count: u32) -> Result<(), OutOfMemory>
        ensures { (g : Flow ℕ) → tell.IsFlowOf states.now g → tell.AreEnds states.now g ends.now → length (states_in states.now.locations) < 2 ^ 32 → count ≡ length (states_in states.now.locations)
            → tell.HaveSteps states.now g 0 self.old.met (tell.steps_in self.old) → OnOk result (tell.HaveSteps states.now g count self.new.met (tell.steps_in self.new)) }
    {
        for place in 0..count {
            self.walk_from(states, ends, place)?;
        }
        Ok(())
    }
}

fn walk_begun(alloc: Global, count: usize) -> Result<Walk, OutOfMemory>
    ensures { IfOk result (λ walk. IsEmptied walk.met count × (tell.steps_in walk ≡ [])) }
{
    let met = Stamps::new(alloc, count)?;
    Ok(Walk {
        met,
        frontier: Vec::new(alloc),
        steps: Vec::new(alloc),
    })
}

// The steps between the points.
fn steps_found(alloc: Global, states: &States) -> Result<Vec<Step>, OutOfMemory>
    ensures { (g : Flow ℕ) → tell.IsFlowOf states.now g → IfOk result (λ steps. tell.AreDrawn states.now g (map step_seen steps.items)) }
{
    let Ok(count) = u32::try_from(states.count()) else {
        return Err(OutOfMemory);
    };
    let ends = ends_of(alloc, states)?;
    let mut walk = walk_begun(alloc, states.count())?;
    walk.walk_all(states, &ends, count)?;
    Ok(walk.steps)
}

fn sort_steps(steps: &mut Vec<Step>)
    ensures { IsPermutation steps.old.items steps.new.items }
{
    steps.sort_unstable();
}

// The steps between the points, rising.
fn steps_of(alloc: Global, states: &States) -> Result<Vec<Step>, OutOfMemory>
    ensures { (g : Flow ℕ) → tell.IsFlowOf states.now g → IfOk result (λ steps. tell.AreDrawn states.now g (map step_seen steps.items)) }
{
    let mut steps = steps_found(alloc, states)?;
    sort_steps(&mut steps);
    Ok(steps)
}

// The graph of these places.
fn drawn(alloc: Global, states: &States, body: u32) -> Result<Graph, OutOfMemory>
    ensures { (p : Rows) (m : Meaning) → stated.AreAllTurned p m body states.now → IfOk result (λ made. (made.body ≡ body) × IsGraphOf p m made) }
{
    let steps = steps_of(alloc, states)?;
    let points = states.points().to_vec(alloc)?;
    Ok(Graph {
        body,
        points,
        steps,
    })
}

/// The graph of the body that is declared at a row. There is none where it has more than 65,536 points: its entry, its exits as far as they are reached, and all others.
pub fn graph(alloc: Global, view: &View, body: u32) -> Result<Graph, FlowFault>
    ensures graph { (m : Meaning) → IsViewOf view.now m → IsTree (rows_in view.now) → body < length (rows_in view.now) → IfOk result (λ made. (made.body ≡ body) × IsGraphOf (rows_in view.now) m made) }
    ensures large { (m : Meaning) → IsViewOf view.now m → IsTree (rows_in view.now) → body < length (rows_in view.now) → IfErr result (OnlyWhere (IsTooLarge (rows_in view.now) m body)) }
    ensures small { (m : Meaning) → IsViewOf view.now m → IsTree (rows_in view.now) → body < length (rows_in view.now) → OnOk result (IsTooLarge (rows_in view.now) m body → ⊥) }
{
    let code = code_of(alloc, view, body)?;
    let states = states_of(alloc, &code, view.sight.world.under.rows)?;
    Ok(drawn(alloc, &states, body)?)
}
