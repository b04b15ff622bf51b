// The completions that wait for the ends of blocks of `finally` (JLS 14.20.2).
ghost use Rattle.std.specs.Prelude.{◌≡◌, ◌≤◌, [], IfOk, length, nat_lt, not};
ghost use Rattle.jr_flow.specs.Keys.{waiting_key};
ghost use Rattle.jr_flow.specs.Places.{entry};
ghost use Rattle.jr_flow.specs.Pended.{lists_of, number_in, IsPending, HasList};

use crate::acts::{Completion, completion_key};
use jr_base::OutOfMemory;
use std::alloc::Global;
use std::collections::HashMap;

/// A list of completions: the innermost, and the list round it.
#[derive(Clone, Copy)]
pub(crate) struct Waiting {
    pub(crate) completion: Completion,
    pub(crate) outer: u32,
}

/// The list of no completions.
pub(crate) const NOTHING: u32 = 0;

/// Lists of pending completions, each with a number, which is greater than that of the list round it.
#[derive(Drop)]
pub(crate) struct Pending {
    numbers: HashMap<((u32, u32), u32), u32>,
    /// The list with the number 1 is the first.
    lists: Vec<Waiting>,
}

fn key_of(waiting: Waiting) -> ((u32, u32), u32)
    ensures { result ≡ waiting_key waiting }
{
    (completion_key(waiting.completion), waiting.outer)
}

impl Pending {
    pub(crate) fn new(alloc: Global) -> Pending
        ensures right { IsPending result }
        ensures none { lists_of result ≡ [] }
    {
        Pending {
            numbers: HashMap::new(alloc),
            lists: Vec::new(alloc),
        }
    }

    // The number of a list, if it has one.
    fn find(&self, waiting: Waiting) -> Option<u32>
        ensures { result ≡ number_in self.now waiting }
    {
        let key = key_of(waiting);
        self.numbers.get(&key).copied()
    }

    /// The list with one completion more.
    pub(crate) fn with(&mut self, outer: u32, completion: Completion) -> Result<u32, OutOfMemory>
        ensures { IfOk result (λ n. IsPending self.old → outer ≤ length (lists_of self.old) → HasList self.old self.new outer completion n) }
    {
        let waiting = Waiting { completion, outer };
        if let Some(known) = self.find(waiting) {
            return Ok(known);
        }
        let key = key_of(waiting);
        self.lists.push(waiting)?;
        let Ok(number) = u32::try_from(self.lists.len()) else {
            return Err(OutOfMemory);
        };
        self.numbers.insert(key, number)?;
        Ok(number)
    }

    /// There is a list of this number.
    pub(crate) fn has(&self, list: u32) -> bool
        ensures { result ≡ not (nat_lt (length (lists_of self.now)) list) }
    {
        list as usize <= self.lists.len()
    }

    /// The innermost completion of a list, with the list round it.
    pub(crate) fn innermost(&self, list: u32) -> Option<Waiting>
        ensures { result ≡ entry (lists_of self.now) list }
    {
        self.lists.get(list.checked_sub(1)? as usize).copied()
    }
}
