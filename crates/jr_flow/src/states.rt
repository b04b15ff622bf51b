// The places that control comes to in a body, from its entry on.
ghost use Rattle.std.specs.Prelude.{◌≡◌, ◌+◌, ◌-◌, ◌<◌, ◌≤◌, ◌^◌, ◌∷◌, ◌++◌, [], ℕ, List, Option, Some, IfOk, IfErr, OnOk, length, nat_lt, not, ◌&&◌, slice_get};
ghost use Rattle.jr_tree.specs.Rows.{end};
ghost use Rattle.jr_flow_defs.specs.Meaning.{Meaning};
ghost use Rattle.jr_flow_defs.specs.Paths.{IsReached};
ghost use Rattle.jr_flow_defs.specs.Edges.{body_flow};
ghost use Rattle.jr_flow.specs.declared.hops.Hop as code_hop;
ghost use Rattle.jr_flow.specs.declared.leaving.Way as code_way;
ghost use Rattle.jr_flow.specs.declared.states.States as code_states;
ghost use Rattle.jr_flow.specs.Coded.{IsCoded, IsTooLarge};
ghost use Rattle.jr_flow.specs.Pended.{lists_of};
ghost use Rattle.jr_flow.specs.Places.{state_seen};
ghost use Rattle.jr_flow.specs.Grouped.{hops_in};
ghost use Rattle.jr_flow.specs.Numbered.{points_in, OnlyWhere};
ghost use Rattle.jr_flow.specs.Stated as tell;
ghost use Rattle.jr_flow.specs.Walked as read;

use crate::code::Code;
use crate::hops::{Hop, Hops};
use crate::leaving::{State, Way, before, point_at, ways_of};
use crate::locations::Locations;
use crate::numbering::Numbering;
use crate::pending::{NOTHING, Pending};
use crate::point::{FlowFault, Point};
use jr_base::OutOfMemory;
use jr_places::end_at;
use jr_tree::Row;
use std::alloc::Global;

/// The places that control comes to in a body, each once, the points among them and the ways between them.
#[derive(Drop)]
pub(crate) struct States {
    pending: Pending,
    locations: Locations,
    numbering: Numbering,
    hops: Hops,
}

// The row stands in the body.
fn is_inside(code: &Code, rows: &[Row], row: u32) -> bool
    ensures { code.now.body + 1 < 2 ^ 32 → result ≡ (not (nat_lt row code.now.body) && nat_lt row (end rows.now code.now.body)) }
{
    let body = code.body();
    body <= row && row < end_at(rows, body)
}

fn way_at(ways: &[Way], nth: usize) -> Option<Way>
    ensures { result ≡ slice_get ways.now nth }
{
    ways.get(nth).copied()
}

impl States {
    // The place stands in the body, and its list is there.
    fn is_right(&self, code: &Code, rows: &[Row], state: State) -> bool
        ensures { code.now.body + 1 < 2 ^ 32 → result ≡ ((not (nat_lt state.row code.now.body) && nat_lt state.row (end rows.now code.now.body)) && not (nat_lt (length (lists_of self.now.pending)) state.list)) }
    {
        is_inside(code, rows, state.row) && self.pending.has(state.list)
    }

    // The number of a place, which may be new.
    fn number(&mut self, code: &Code, rows: &[Row], state: State) -> Result<u32, FlowFault>
        ensures done { (m : Meaning) → IsCoded rows.now m code.now → tell.AreStates rows.now m code.now.body self.old → IsReached (body_flow rows.now m code.now.body) (state_seen (lists_of self.old.pending) state)
            → IfOk result (λ n. tell.HasNumber rows.now m code.now.body self.old self.new state n) }
        ensures large { (m : Meaning) → IsCoded rows.now m code.now → tell.AreStates rows.now m code.now.body self.old → IsReached (body_flow rows.now m code.now.body) (state_seen (lists_of self.old.pending) state) → IfErr result (OnlyWhere (IsTooLarge rows.now m code.now.body)) }
    {
        if let Some(known) = self.locations.find(state) {
            return Ok(known);
        }
        if !self.is_right(code, rows, state) {
            return Err(FlowFault::OutOfMemory);
        }
        let number = self.locations.add(state)?;
        self.numbering.add(point_at(code, state))?;
        Ok(number)
    }

    // The entry is the first place.
    fn enter(&mut self, code: &Code, rows: &[Row]) -> Result<(), FlowFault>
        ensures done { (m : Meaning) → IsCoded rows.now m code.now → tell.AreBegun code.now.body self.old → OnOk result (tell.IsExploring rows.now m code.now.body self.new 0) }
        ensures large { (m : Meaning) → IsCoded rows.now m code.now → tell.AreBegun code.now.body self.old → IfErr result (OnlyWhere (IsTooLarge rows.now m code.now.body)) }
    {
        let number = self.number(code, rows, before(code.body(), 0, NOTHING))?;
        if number != 0 {
            return Err(FlowFault::OutOfMemory);
        }
        Ok(())
    }

    // Notes a way from the last place that has hops.
    fn note(&mut self, code: &Code, rows: &[Row], way: Way) -> Result<(), FlowFault>
        ensures done { (m : Meaning) (before : code_states.States) (groups : List (List code_hop.Hop)) (ways : List code_way.Way) (k : ℕ) → IsCoded rows.now m code.now
            → tell.AreNoted rows.now m code.now.body before self.old groups ways k → slice_get ways k ≡ Some way → IsReached (body_flow rows.now m code.now.body) (state_seen (lists_of before.pending) way.to)
            → OnOk result (tell.AreNoted rows.now m code.now.body before self.new groups ways (k + 1)) }
        ensures large { (m : Meaning) (before : code_states.States) (groups : List (List code_hop.Hop)) (ways : List code_way.Way) (k : ℕ) → IsCoded rows.now m code.now
            → tell.AreNoted rows.now m code.now.body before self.old groups ways k → slice_get ways k ≡ Some way → IsReached (body_flow rows.now m code.now.body) (state_seen (lists_of before.pending) way.to) → IfErr result (OnlyWhere (IsTooLarge rows.now m code.now.body)) }
    {
        let to = self.number(code, rows, way.to)?;
        self.hops.push(Hop {
            to,
            is_throw: way.is_throw,
        })?;
        Ok(())
    }

    // Notes the way of a number.
    fn note_at(
        &mut self,
        code: &Code,
        rows: &[Row],
        ways: &[Way],
        nth: usize,
    ) -> Result<(), FlowFault>
        ensures done { (m : Meaning) (before : code_states.States) (groups : List (List code_hop.Hop)) → IsCoded rows.now m code.now → nth < length ways.now
            → tell.AreNoted rows.now m code.now.body before self.old groups ways.now nth → tell.AreWaysReached rows.now m code.now.body before.pending ways.now
            → OnOk result (tell.AreNoted rows.now m code.now.body before self.new groups ways.now (nth + 1)) }
        ensures large { (m : Meaning) (before : code_states.States) (groups : List (List code_hop.Hop)) → IsCoded rows.now m code.now → nth < length ways.now
            → tell.AreNoted rows.now m code.now.body before self.old groups ways.now nth → tell.AreWaysReached rows.now m code.now.body before.pending ways.now → IfErr result (OnlyWhere (IsTooLarge rows.now m code.now.body)) }
    {
        match way_at(ways, nth) {
            Some(way) => self.note(code, rows, way),
            None => Ok(()),
        }
    }

    // Notes the ways from the last place that has hops.
    fn note_all(&mut self, code: &Code, rows: &[Row], ways: &[Way]) -> Result<(), FlowFault>
        ensures done { (m : Meaning) (before : code_states.States) (groups : List (List code_hop.Hop)) → IsCoded rows.now m code.now
            → tell.AreNoted rows.now m code.now.body before self.old groups ways.now 0 → tell.AreWaysReached rows.now m code.now.body before.pending ways.now
            → OnOk result (tell.AreNoted rows.now m code.now.body before self.new groups ways.now (length ways.now)) }
        ensures large { (m : Meaning) (before : code_states.States) (groups : List (List code_hop.Hop)) → IsCoded rows.now m code.now
            → tell.AreNoted rows.now m code.now.body before self.old groups ways.now 0 → tell.AreWaysReached rows.now m code.now.body before.pending ways.now → IfErr result (OnlyWhere (IsTooLarge rows.now m code.now.body)) }
    {
        for nth in 0..ways.len() {
            self.note_at(code, rows, ways, nth)?;
        }
        Ok(())
    }

    // Finds where control goes to from the next place.
    fn turn(
        &mut self,
        code: &Code,
        rows: &[Row],
        ways: &mut Vec<Way>,
        state: State,
    ) -> Result<(), FlowFault>
        ensures done { (m : Meaning) (groups : List (List code_hop.Hop)) → IsCoded rows.now m code.now → tell.AreTurned rows.now m code.now.body self.old groups → slice_get (tell.states_of self.old) (length groups) ≡ Some state
            → OnOk result (tell.IsTurned rows.now m code.now.body self.old self.new groups) }
        ensures large { (m : Meaning) (groups : List (List code_hop.Hop)) → IsCoded rows.now m code.now → tell.AreTurned rows.now m code.now.body self.old groups → slice_get (tell.states_of self.old) (length groups) ≡ Some state → IfErr result (OnlyWhere (IsTooLarge rows.now m code.now.body)) }
    {
        self.hops.begin()?;
        ways.clear();
        ways_of(code, rows, &mut self.pending, state, ways)?;
        self.note_all(code, rows, &*ways)
    }

    // Finds all places and the ways between them.
    fn explore(&mut self, code: &Code, rows: &[Row], ways: &mut Vec<Way>) -> Result<(), FlowFault>
        ensures done { (m : Meaning) → IsCoded rows.now m code.now → tell.IsExploring rows.now m code.now.body self.old 0 → OnOk result (tell.AreAllTurned rows.now m code.now.body self.new) }
        ensures large { (m : Meaning) → IsCoded rows.now m code.now → tell.IsExploring rows.now m code.now.body self.old 0 → IfErr result (OnlyWhere (IsTooLarge rows.now m code.now.body)) }
    {
        for number in 0..u32::MAX {
            let Some(state) = self.locations.get(number) else {
                self.hops.begin()?;
                return Ok(());
            };
            self.turn(code, rows, ways, state)?;
        }
        Err(FlowFault::OutOfMemory)
    }

    /// The number of the point at a place, if one stands there.
    pub(crate) fn point(&self, place: u32) -> Option<u32>
        ensures { result ≡ read.number_in self.now place }
    {
        self.numbering.at(place)
    }

    /// How many places there are.
    pub(crate) fn count(&self) -> usize
        ensures { result ≡ length (tell.states_of self.now) }
    {
        self.locations.len()
    }

    /// The number of the first hop of a place. Behind the last place there are no more.
    pub(crate) fn first_hop(&self, place: u32) -> u32
        ensures { result ≡ read.first_at self.now place }
    {
        self.hops.first(place)
    }

    /// How many hops there are from a place.
    pub(crate) fn count_hops(&self, place: u32) -> u32
        ensures { place + 1 < 2 ^ 32 → result ≡ read.first_at self.now (place + 1) - read.first_at self.now place }
    {
        let first = self.first_hop(place);
        self.first_hop(place.saturating_add(1))
            .saturating_sub(first)
    }

    pub(crate) fn hop(&self, number: u32) -> Option<Hop>
        ensures { result ≡ slice_get (hops_in self.now.hops) number }
    {
        self.hops.get(number)
    }

    pub(crate) fn points(&self) -> &[Point]
        ensures { result.now ≡ points_in self.now.numbering }
    {
        self.numbering.points()
    }
}

// No place yet.
fn begun(alloc: Global, body: u32) -> Result<States, OutOfMemory>
    ensures { IfOk result (λ states. tell.AreBegun body states) }
{
    let numbering = Numbering::begin(alloc, body)?;
    Ok(States {
        pending: Pending::new(alloc),
        locations: Locations::new(alloc),
        numbering,
        hops: Hops::new(alloc),
    })
}

// Finds all places of a body from its entry on.
fn explore_body(
    code: &Code,
    rows: &[Row],
    states: &mut States,
    ways: &mut Vec<Way>,
) -> Result<(), FlowFault>
    ensures done { (m : Meaning) → IsCoded rows.now m code.now → tell.AreBegun code.now.body states.old → OnOk result (tell.AreAllTurned rows.now m code.now.body states.new) }
    ensures large { (m : Meaning) → IsCoded rows.now m code.now → tell.AreBegun code.now.body states.old → IfErr result (OnlyWhere (IsTooLarge rows.now m code.now.body)) }
{
    states.enter(code, rows)?;
    states.explore(code, rows, ways)
}

/// The places that control comes to in a body, and the ways between them.
pub(crate) fn states_of(alloc: Global, code: &Code, rows: &[Row]) -> Result<Box<States>, FlowFault>
    ensures done { (m : Meaning) → IsCoded rows.now m code.now → IfOk result (λ states. tell.AreAllTurned rows.now m code.now.body states.value) }
    ensures large { (m : Meaning) → IsCoded rows.now m code.now → IfErr result (OnlyWhere (IsTooLarge rows.now m code.now.body)) }
{
    let mut states = Box::new(alloc, begun(alloc, code.body())?)?;
    let mut ways = Vec::new(alloc);
    explore_body(code, rows, &mut *states, &mut ways)?;
    Ok(states)
}
