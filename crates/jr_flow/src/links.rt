// Lists of numbers by number.
ghost use Rattle.std.specs.Prelude.{◌≡◌, ◌+◌, ◌<◌, ◌∷◌, ◌++◌, [], ℕ, List, IfOk, OnOk, Some, length, slice_get};
ghost use Rattle.std.specs.List.Sorted.{IsPermutation, IsNonDecreasingBy};
ghost use Rattle.jr_flow.specs.Linked.{firsts_in, items_in, first_of, AreLinked, HaveBegun, AreFilled};

use jr_base::OutOfMemory;
use std::alloc::Global;

/// For each number a list of numbers.
#[derive(Drop)]
pub(crate) struct Links {
    /// Where the list of each number begins.
    firsts: Vec<u32>,
    items: Vec<u32>,
}

// By their first numbers.
fn sort_pairs(pairs: &mut Vec<(u32, u32)>)
    ensures permutation { IsPermutation pairs.old.items pairs.new.items }
    ensures rising { IsNonDecreasingBy (λ pair. pair.0) pairs.new.items }
{
    pairs.sort_unstable_by_key(|pair| pair.0);
}

impl Links {
    fn new(alloc: Global) -> Links
        ensures firsts { firsts_in result ≡ [] }
        ensures items { items_in result ≡ [] }
    {
        Links {
            firsts: Vec::new(alloc),
            items: Vec::new(alloc),
        }
    }

    // The list of this number begins at the next item, and so do those before it that did not begin yet.
    fn begin(&mut self, number: u32) -> Result<(), OutOfMemory>
        ensures items { OnOk result (items_in self.new ≡ items_in self.old) }
        ensures begun { OnOk result (HaveBegun (firsts_in self.old) (firsts_in self.new) number (length (items_in self.old))) }
        ensures longer { OnOk result (number < length (firsts_in self.new)) }
    {
        let Ok(next) = u32::try_from(self.items.len()) else {
            return Err(OutOfMemory);
        };
        for _list in self.firsts.len()..(number as usize).saturating_add(1) {
            self.firsts.push(next)?;
        }
        Ok(())
    }

    // Adds a pair whose first number is not below those before.
    fn push(&mut self, pair: (u32, u32)) -> Result<(), OutOfMemory>
        ensures { (all : List (ℕ × ℕ)) (n : ℕ) → IsNonDecreasingBy (λ pair. pair.0) all → slice_get all n ≡ Some pair → AreFilled all n self.old → OnOk result (AreFilled all (n + 1) self.new) }
    {
        self.begin(pair.0)?;
        self.items.push(pair.1)?;
        Ok(())
    }

    // Adds pairs that rise by their first numbers.
    fn fill(&mut self, pairs: &[(u32, u32)]) -> Result<(), OutOfMemory>
        ensures { IsNonDecreasingBy (λ pair. pair.0) pairs.now → AreFilled pairs.now 0 self.old → OnOk result (AreFilled pairs.now (length pairs.now) self.new) }
    {
        for nth in 0..pairs.len() {
            self.push(pairs[nth])?;
        }
        Ok(())
    }

    /// For each first number the list of the second.
    pub(crate) fn of(alloc: Global, pairs: &mut Vec<(u32, u32)>) -> Result<Links, OutOfMemory>
        ensures { IfOk result (λ links. AreLinked pairs.old.items links) }
    {
        sort_pairs(pairs);
        let mut links = Links::new(alloc);
        links.fill(&*pairs)?;
        Ok(links)
    }

    /// Where the list of a number begins.
    pub(crate) fn first(&self, number: usize) -> usize
        ensures { result ≡ first_of self.now number }
    {
        match self.firsts.get(number) {
            Some(first) => *first as usize,
            None => self.items.len(),
        }
    }

    /// Where the list of a number ends.
    pub(crate) fn end(&self, number: u32) -> usize
        ensures { result ≡ first_of self.now (number + 1) }
    {
        self.first((number as usize).saturating_add(1))
    }

    pub(crate) fn item(&self, nth: usize) -> Option<u32>
        ensures { result ≡ slice_get (items_in self.now) nth }
    {
        self.items.get(nth).copied()
    }
}
