// The writes, removals and syncs that a store in memory has had. Its memory is taken when it is made.
ghost use Rattle.std.specs.Prelude.{◌≡◌, ◌≤◌, [], ◌∷◌, ◌++◌, length, IfOk, OnOk, OnErr, option_map, slice_get, nat_le};
ghost use Rattle.std.specs.List.{prefix_len};
ghost use Rattle.jr_store.specs.Calls.{Call, IsFull};

use crate::Failed;
use jr_base::OutOfMemory;
use std::alloc::Global;
use std::marker::Model;

/// The most calls that a record keeps.
const MOST_CALLS: usize = 16384;

/// The most bytes of paths and contents that a record keeps: 64 MiB.
const MOST_BYTES: usize = 67_108_864;

/// What a call did to the files.
#[derive(Clone, Copy, Debug, PartialEq, Eq)]
pub enum Action {
    Wrote,
    Removed,
    /// A write or a removal that failed, and left its path in doubt.
    Unsure,
    Synced,
}

// Where the parts of a call stand in the arena: the path, and from its end on the bytes.
#[derive(Clone, Copy)]
struct Entry {
    number: u64,
    action: Action,
    path_start: usize,
    bytes_start: usize,
    end: usize,
}

/// A call that the record lends.
#[derive(Clone, Copy)]
pub struct KeptCall<'a> {
    /// Its number among all calls of the store, from 1.
    pub number: u64,
    pub action: Action,
    pub path: &'a [u8],
    /// What a write was to write, also one that failed; else nothing.
    pub bytes: &'a [u8],
}

#[derive(Drop)]
pub struct Record {
    arena: Vec<u8>,
    entries: Vec<Entry>,
}

impl Model for Record {
    ghost use Rattle.std.specs.Prelude.{List};
    ghost use Rattle.jr_store.specs.Calls.{Call};

    ghost Value = { List Call };

    ghost use Rattle.jr_store.specs.Record.{calls_in, IsRecord};

    ghost view = { calls_in };

    ghost invariant = { IsRecord };
}

impl Record {
    ghost use Rattle.jr_store.specs.Record.{kept_call};

    pub fn new(alloc: Global) -> Result<Record, OutOfMemory>
        ensures { IfOk result (λ record_new. record_new ≡ []) }
    {
        Ok(Record {
            arena: Vec::with_capacity(alloc, MOST_BYTES)?,
            entries: Vec::with_capacity(alloc, MOST_CALLS)?,
        })
    }

    pub fn len(&self) -> usize
        ensures { result ≡ length self.now }
    {
        self.entries.len()
    }

    pub fn get(&self, index: usize) -> Option<KeptCall<'_>>
        ensures { option_map kept_call result ≡ slice_get self.now index }
    {
        let entry = self.entries.get(index)?;
        Some(KeptCall {
            number: entry.number,
            action: entry.action,
            path: &self.arena[entry.path_start..entry.bytes_start],
            bytes: &self.arena[entry.bytes_start..entry.end],
        })
    }

    /// Keeps a call. Where the record is full, it fails, and keeps what it had.
    pub fn push(&mut self, call: KeptCall<'_>) -> Result<(), Failed>
        ensures kept { OnOk result (self.new ≡ self.old ++ kept_call call.entry ∷ []) }
        ensures full { OnErr result (IsFull self.old call.entry.path.now call.entry.bytes.now) }
        ensures same { OnErr result (self.new ≡ self.old) }
    {
        let room = MOST_BYTES - self.arena.len().min(MOST_BYTES);
        if self.entries.len() >= MOST_CALLS
            || call.path.len() > room
            || call.bytes.len() > room - call.path.len()
        {
            return Err(Failed);
        }
        let path_start = self.arena.len();
        if self.arena.extend_from_slice(call.path).is_err() {
            return Err(Failed);
        }
        let bytes_start = self.arena.len();
        if self.arena.extend_from_slice(call.bytes).is_err() {
            return Err(Failed);
        }
        let end = self.arena.len();
        let entry = Entry {
            number: call.number,
            action: call.action,
            path_start,
            bytes_start,
            end,
        };
        if self.entries.push(entry).is_err() {
            return Err(Failed);
        }
        Ok(())
    }

    /// How many calls come before the first with a larger number.
    pub fn count_until(&self, number: u64) -> usize
        ensures { result ≡ prefix_len (λ call. nat_le call.number number) self.now }
    {
        for (index, entry) in self.entries.iter().enumerate() {
            if entry.number > number {
                return index;
            }
        }
        self.entries.len()
    }
}
