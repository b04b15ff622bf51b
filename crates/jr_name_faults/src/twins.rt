// Different rows under one key.
ghost use Rattle.std.specs.Prelude.{◌≡◌, ◌<◌, ◌||◌, [], OnOk, is_some, length, nat_eq, not};
ghost use Rattle.jr_places.specs.Chains.{entry_at, last_like};
ghost use Rattle.jr_members.specs.Named.{under};
ghost use Rattle.jr_name_faults.specs.Twins as tell;

use jr_base::OutOfMemory;
use jr_places::{Chains, Entry};
use std::alloc::Global;

/// Rows under keys of two numbers, of which those that follow each other under one key are different.
#[derive(Drop)]
pub struct Twins {
    rows: Chains,
}

impl Twins {
    /// No rows.
    pub fn new(alloc: Global) -> Twins
        ensures { result.rows ≡ [] }
    {
        Twins {
            rows: Chains::new(alloc),
        }
    }

    // The row at a place.
    fn row_at(&self, place: u32) -> u32
        ensures { result ≡ (entry_at self.now.rows place).row }
    {
        match self.rows.entry(place) {
            Some(entry) => entry.row,
            None => 0,
        }
    }

    /// The place before this one under its key.
    pub fn before(&self, place: u32) -> Option<u32>
        ensures { place < length self.now.rows → result ≡ last_like self.now.rows place }
    {
        if (place as usize) < self.rows.len() {
            self.rows.before(place)
        } else {
            None
        }
    }

    // The row stands last under a key.
    #[tactic(auto, using(crate::proofs::Twinned::none_under, crate::proofs::Twinned::front_told))]
    fn is_last(&self, first: u32, second: u32, row: u32) -> bool
        ensures { result ≡ tell.is_front (under self.now.rows first second) row }
    {
        match self.rows.last(first, second) {
            Some(place) => self.row_at(place) == row,
            None => false,
        }
    }

    /// Puts a row under a key, unless it stands last there.
    pub fn add(
        &mut self,
        alloc: Global,
        first: u32,
        second: u32,
        row: u32,
    ) -> Result<(), OutOfMemory>
        ensures { OnOk result (self.new.rows ≡ tell.with_twin self.old.rows first second row) }
    {
        if self.is_last(first, second, row) {
            return Ok(());
        }
        self.rows.add(alloc, Entry { first, second, row })?;
        Ok(())
    }

    // Another row stands at the place, or any before it under its key.
    fn is_other(&self, place: u32, row: u32) -> bool
        ensures { place < length self.now.rows → result ≡ (not (nat_eq (entry_at self.now.rows place).row row) || is_some (last_like self.now.rows place)) }
    {
        self.row_at(place) != row || self.before(place).is_some()
    }

    /// Another row than this one stands under a key: the last, or the one before it.
    #[tactic(auto, using(crate::proofs::Twinned::none_under, crate::proofs::Twinned::last_inside, crate::proofs::Twinned::other_told))]
    pub fn has_other(&self, first: u32, second: u32, row: u32) -> bool
        ensures { result ≡ tell.has_other (under self.now.rows first second) row }
    {
        match self.rows.last(first, second) {
            Some(place) => self.is_other(place, row),
            None => false,
        }
    }
}
