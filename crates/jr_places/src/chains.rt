// Entries under keys, each with the one before it under the same key.
ghost use Rattle.std.specs.Prelude.{◌≡◌, ◌++◌, ◌∷◌, [], ◌<◌, IfOk, OnOk, length, slice_get};
ghost use Rattle.jr_places.specs.Chains.{entry_at, last_under, last_like, rows_under, IsChained};

use jr_base::OutOfMemory;
use std::alloc::Global;
use std::collections::HashMap;
use std::marker::Model;

/// A row under a key of two numbers.
#[derive(Clone, Copy, Debug, PartialEq, Eq)]
pub struct Entry {
    pub first: u32,
    pub second: u32,
    pub row: u32,
}

/// A list of entries, seen by contracts as that list, in which the last one under a key is found at once.
#[derive(Drop)]
pub struct Chains {
    entries: Vec<Entry>,
    last: HashMap<(u32, u32), u32>,
    before: Vec<Option<u32>>,
}

impl Model for Chains {
    ghost use Rattle.std.specs.Prelude.{List};
    ghost use Rattle.jr_places.specs.declared.chains.Entry.{Entry};
    ghost use Rattle.jr_places.specs.Chains.{IsChained};

    ghost Value = { List Entry };

    ghost view = { λ chains. chains.entries.items };

    ghost invariant = { λ chains. IsChained chains.entries.items chains.last chains.before.items };
}

// One more entry in each part of a list.
fn put(
    entries: &mut Vec<Entry>,
    last: &mut HashMap<(u32, u32), u32>,
    before: &mut Vec<Option<u32>>,
    entry: Entry,
) -> Result<(), OutOfMemory>
    ensures more { OnOk result (entries.new.items ≡ entries.old.items ++ entry ∷ []) }
    ensures chained { IsChained entries.old.items last.old before.old.items → OnOk result (IsChained entries.new.items last.new before.new.items) }
{
    let count = entries.len();
    if count >= u32::MAX as usize {
        return Err(OutOfMemory);
    }
    let earlier = last.insert((entry.first, entry.second), count as u32)?;
    before.push(earlier)?;
    entries.push(entry)?;
    Ok(())
}

impl Chains {
    /// No entries.
    pub fn new(alloc: Global) -> Chains
        ensures { result ≡ [] }
    {
        Chains {
            entries: Vec::new(alloc),
            last: HashMap::new(alloc),
            before: Vec::new(alloc),
        }
    }

    /// One more entry at the end.
    pub fn push(self, entry: Entry) -> Result<Chains, OutOfMemory>
        ensures { IfOk result (λ chains. chains ≡ self ++ entry ∷ []) }
    {
        let Chains {
            mut entries,
            mut last,
            mut before,
        } = self;
        put(&mut entries, &mut last, &mut before, entry)?;
        Ok(Chains {
            entries,
            last,
            before,
        })
    }

    /// Puts one more entry at the end. Where memory is refused the entries are lost.
    pub fn add(&mut self, alloc: Global, entry: Entry) -> Result<(), OutOfMemory>
        ensures { OnOk result (self.new ≡ self.old ++ entry ∷ []) }
    {
        match put(&mut self.entries, &mut self.last, &mut self.before, entry) {
            Ok(()) => Ok(()),
            Err(fault) => {
                *self = Chains::new(alloc);
                Err(fault)
            }
        }
    }

    /// How many entries there are.
    pub fn len(&self) -> usize
        ensures { result ≡ length self.now }
    {
        self.entries.len()
    }

    /// The entry at a place.
    pub fn entry(&self, at: u32) -> Option<Entry>
        ensures { result ≡ slice_get self.now at }
    {
        self.entries.get(at as usize).copied()
    }

    /// The row of the entry at a place.
    pub fn row(&self, at: u32) -> u32
        requires { at < length self.now }
        ensures { result ≡ (entry_at self.now at).row }
    {
        match self.entries.get(at as usize) {
            Some(entry) => entry.row,
            None => 0,
        }
    }

    /// The place of the last entry under the key.
    pub fn last(&self, first: u32, second: u32) -> Option<u32>
        ensures { result ≡ last_under self.now first second (length self.now) }
    {
        self.last.get(&(first, second)).copied()
    }

    #[tactic(auto, using(crate::proofs::Tables::walked_done))]
    /// The rows under the key, from the last entry back.
    pub fn rows(&self, alloc: Global, first: u32, second: u32) -> Result<Vec<u32>, OutOfMemory>
        ensures { IfOk result (λ rows. rows.items ≡ rows_under self.now first second (length self.now)) }
    {
        let mut rows = Vec::new(alloc);
        let mut at = self.last(first, second);
        while let Some(place) = at {
            rows.push(self.row(place))?;
            at = self.before(place);
        }
        Ok(rows)
    }

    /// The place of the entry before this one under its key.
    pub fn before(&self, at: u32) -> Option<u32>
        requires { at < length self.now }
        ensures { result ≡ last_like self.now at }
    {
        self.before[at as usize]
    }
}
