// The places of control in a body, each once, by number.
ghost use Rattle.std.specs.Prelude.{◌≡◌, [], None, IfOk, length, slice_get};
ghost use Rattle.jr_flow.specs.Keys.{state_key};
ghost use Rattle.jr_flow.specs.Located.{states_in, number_at, AreLocations, AddsState};

use crate::leaving::{State, moment_key};
use jr_base::OutOfMemory;
use std::alloc::Global;
use std::collections::HashMap;

/// Places of control, each once, in the order in which they were found.
#[derive(Drop)]
pub(crate) struct Locations {
    numbers: HashMap<((u32, u32), (u32, u32)), u32>,
    all: Vec<State>,
}

fn key_of(state: State) -> ((u32, u32), (u32, u32))
    ensures { result ≡ state_key state }
{
    (moment_key(state.moment), (state.row, state.list))
}

impl Locations {
    pub(crate) fn new(alloc: Global) -> Locations
        ensures right { AreLocations result }
        ensures none { states_in result ≡ [] }
    {
        Locations {
            numbers: HashMap::new(alloc),
            all: Vec::new(alloc),
        }
    }

    /// The number of a place, if it has one.
    pub(crate) fn find(&self, state: State) -> Option<u32>
        ensures { result ≡ number_at self.now state }
    {
        let key = key_of(state);
        self.numbers.get(&key).copied()
    }

    /// A place that has no number gets the next one.
    pub(crate) fn add(&mut self, state: State) -> Result<u32, OutOfMemory>
        ensures { AreLocations self.old → number_at self.old state ≡ None → IfOk result (λ n. AddsState self.old self.new state n) }
    {
        let key = key_of(state);
        let Ok(number) = u32::try_from(self.all.len()) else {
            return Err(OutOfMemory);
        };
        self.all.push(state)?;
        self.numbers.insert(key, number)?;
        Ok(number)
    }

    /// The place of this number.
    pub(crate) fn get(&self, number: u32) -> Option<State>
        ensures { result ≡ slice_get (states_in self.now) number }
    {
        self.all.get(number as usize).copied()
    }

    /// How many places there are.
    pub(crate) fn len(&self) -> usize
        ensures { result ≡ length (states_in self.now) }
    {
        self.all.len()
    }
}
