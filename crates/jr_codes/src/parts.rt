// Parts that wait for the row round them. What they are is a parameter, since each exit of a function would write out what becomes of a part of a
// known type.
ghost use Rattle.std.specs.Prelude.{◌≡◌, [], ◌∷◌, ◌++◌, Some, IfOk, OnOk, length};
ghost use Rattle.jr_codes.specs.Waiting.{waiting, top_row, is_top, top_before, TakesIf, TakesBefore, TakesFront, HandsOn, StandsBefore, front};

use jr_base::{Boxed, Items, OutOfMemory};
use std::alloc::Global;

/// Parts that wait for the row round them, each with its own row. They are made from the last row back, so the one of the first row is on top.
#[derive(Drop)]
pub struct Parts<T> {
    entries: Vec<(u32, T)>,
}

/// Adds an item to a list, if it was made.
pub fn add<T: Drop>(all: &mut Items<T>, made: Result<T, OutOfMemory>) -> Result<(), OutOfMemory>
    ensures { OnOk result (IfOk made (λ item. all.new ≡ all.old ++ item ∷ [])) }
{
    all.push(made?)?;
    Ok(())
}

/// Adds what a box holds to a list.
pub fn add_item<T: Drop>(all: &mut Items<T>, item: Boxed<T>) -> Result<(), OutOfMemory>
    ensures { OnOk result (all.new ≡ all.old ++ item ∷ []) }
{
    all.push(item.into_inner())?;
    Ok(())
}

impl<T: Drop> Parts<T> {
    /// No parts.
    pub fn new(alloc: Global) -> Parts<T>
        ensures { waiting result ≡ [] }
    {
        Parts {
            entries: Vec::new(alloc),
        }
    }

    /// How many parts there are.
    pub fn len(&self) -> usize
        ensures { result ≡ length (waiting self.now) }
    {
        self.entries.len()
    }

    /// How many parts on top stand at rows before this one.
    pub fn count_before(&self, end: u32) -> usize
        ensures { result ≡ length (front end (waiting self.now)) }
    {
        let parts = self.entries.iter().rev();
        parts.take_while(|entry| entry.0 < end).count()
    }

    /// The row of the part on top.
    pub fn top(&self) -> Option<u32>
        ensures { result ≡ top_row (waiting self.now) }
    {
        match self.entries.last() {
            Some(entry) => Some(entry.0),
            None => None,
        }
    }

    /// The part on top is that of the row.
    pub fn has(&self, row: u32) -> bool
        ensures { result ≡ is_top row (waiting self.now) }
    {
        match self.entries.last() {
            Some(entry) => entry.0 == row,
            None => false,
        }
    }

    /// Puts the part of a row on top.
    pub fn push(&mut self, row: u32, part: T) -> Result<(), OutOfMemory>
        ensures { OnOk result (waiting self.new ≡ (row, part) ∷ waiting self.old) }
    {
        self.entries.push((row, part))?;
        Ok(())
    }

    /// Puts what a box holds on top, as the part of a row.
    pub fn push_boxed(&mut self, row: u32, part: Boxed<T>) -> Result<(), OutOfMemory>
        ensures { OnOk result (waiting self.new ≡ (row, part) ∷ waiting self.old) }
    {
        self.push(row, part.into_inner())
    }

    /// Takes the part of the row off; it should be on top.
    pub fn boxed(&mut self, alloc: Global, row: u32) -> Result<Boxed<T>, OutOfMemory>
        ensures { IfOk result (λ part. waiting self.old ≡ (row, part) ∷ waiting self.new) }
    {
        match self.entries.pop() {
            Some((at, part)) => {
                if at != row {
                    return Err(OutOfMemory);
                }
                Ok(Boxed::new(alloc, part)?)
            }
            None => Err(OutOfMemory),
        }
    }

    /// Takes the part of the row off, if there is such a row and its part is on top.
    pub fn boxed_if(
        &mut self,
        alloc: Global,
        row: Option<u32>,
    ) -> Result<Option<Boxed<T>>, OutOfMemory>
        ensures { IfOk result (λ found. TakesIf row (waiting self.old) (waiting self.new) found) }
    {
        match row {
            Some(row) => {
                if self.has(row) {
                    Ok(Some(self.boxed(alloc, row)?))
                } else {
                    Ok(None)
                }
            }
            None => Ok(None),
        }
    }

    // Takes the part on top off, if its row stands before this one.
    fn pop_before(&mut self, end: u32) -> Option<T>
        ensures { TakesBefore end (waiting self.old) (waiting self.new) result }
    {
        if !self.is_before(end) {
            return None;
        }
        match self.entries.pop() {
            Some((_, part)) => Some(part),
            None => None,
        }
    }

    // The row of the part on top stands before this one.
    fn is_before(&self, end: u32) -> bool
        ensures { result ≡ top_before end (waiting self.now) }
    {
        match self.entries.last() {
            Some(entry) => entry.0 < end,
            None => false,
        }
    }

    /// The row of the part on top, if it stands before this one.
    pub fn next(&self, end: u32) -> Option<u32>
        ensures { StandsBefore end (waiting self.now) result }
    {
        match self.entries.last() {
            Some(entry) => { if entry.0 < end { Some(entry.0) } else { None } }
            None => None,
        }
    }

    /// Takes the parts of the rows before this one off, in their order.
    pub fn before(&mut self, alloc: Global, end: u32) -> Result<Items<T>, OutOfMemory>
        ensures { IfOk result (λ all. TakesFront end (waiting self.old) (waiting self.new) all) }
    {
        let mut all = Items::new(alloc);
        while let Some(part) = self.pop_before(end) {
            all.push(part)?;
        }
        Ok(all)
    }

    /// The part of a row, which should be on top, becomes that of another one.
    pub fn hand_on(&mut self, from: u32, to: u32) -> Result<(), OutOfMemory>
        ensures { OnOk result (HandsOn from to (waiting self.old) (waiting self.new)) }
    {
        match self.entries.pop() {
            Some((at, part)) => {
                if at != from {
                    return Err(OutOfMemory);
                }
                self.entries.push((to, part))?;
                Ok(())
            }
            None => Err(OutOfMemory),
        }
    }
}
