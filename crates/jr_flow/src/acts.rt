// What rows do, one act after the other (JLS 14, 15.7).
ghost use Rattle.std.specs.Prelude.{◌≡◌, ◌∷◌, ◌++◌, [], length, OnOk, option_map, slice_get};
ghost use Rattle.jr_flow.specs.Seen.{act_seen, seen};
ghost use Rattle.jr_flow.specs.Keys as keys;

use jr_base::OutOfMemory;
use std::alloc::Global;

/// How a statement or expression completes (JLS 14.1, 15.6). A `break` and a `continue` have a target, by its row; `return` has the body.
#[derive(Clone, Copy)]
pub(crate) enum Completion {
    Normally,
    Break { target: u32 },
    Continue { target: u32 },
    Return,
    Throw,
}

/// The kind of a completion and its target, by numbers.
pub(crate) fn completion_key(completion: Completion) -> (u32, u32)
    ensures { result ≡ keys.completion_key completion }
{
    match completion {
        Completion::Normally => (0, 0),
        Completion::Break { target } => (1, target),
        Completion::Continue { target } => (2, target),
        Completion::Return => (3, 0),
        Completion::Throw => (4, 0),
    }
}

/// One act of a row. Control goes on at the next act, and behind the last one the row completes normally, unless it says otherwise.
#[derive(Clone, Copy)]
pub(crate) enum Act {
    /// The row below is executed or evaluated.
    Part { row: u32 },
    /// An event at the row: it can throw.
    Event { row: u32 },
    /// What cannot throw: a simple statement, the parameter of a catch, or a branch whose ways go on at one place.
    Node { row: u32 },
    /// At the row the local gets a value, or is used.
    Define { row: u32, local: u32 },
    Use { row: u32, local: u32 },
    /// A branch: control goes on, or the row completes normally.
    Quit,
    /// A branch: control goes on, or at the act of this number.
    Fork { to: u32 },
    /// A switch: control goes on at any later act, and without `default` the row may also complete normally.
    Choose { has_default: bool },
    /// Control goes to the act of this number.
    Go { to: u32 },
    /// The statement completes so.
    Jump { completion: Completion },
}

/// The acts of rows, as they are written.
#[derive(Drop)]
pub(crate) struct Acts {
    all: Vec<Act>,
}

impl Acts {
    pub(crate) fn new(alloc: Global) -> Acts
        ensures { seen result ≡ [] }
    {
        Acts {
            all: Vec::new(alloc),
        }
    }

    #[tactic(auto, using(crate::proofs::Written::seen_more))]
    pub(crate) fn push(&mut self, act: Act) -> Result<(), OutOfMemory>
        ensures { OnOk result (seen self.new ≡ seen self.old ++ act_seen act ∷ []) }
    {
        self.all.push(act)?;
        Ok(())
    }

    /// How many acts there are so far.
    pub(crate) fn len(&self) -> usize
        ensures { result ≡ length (seen self.now) }
    {
        self.all.len()
    }

    pub(crate) fn get(&self, number: usize) -> Option<Act>
        ensures { option_map act_seen result ≡ slice_get (seen self.now) number }
    {
        self.all.get(number).copied()
    }
}
