// Lists of numbers by number.
ghost use Rattle.std.specs.Prelude.{◌≡◌, ◌<◌, ◌≤◌, ◌∷◌, ◌++◌, [], ℕ, List, IfOk, OnOk, map, replicate};
ghost use Rattle.std.specs.List.{Contains};
ghost use Rattle.jr_kept.specs.Listed.{put_at, under_in, IsListing};

use jr_base::OutOfMemory;
use std::alloc::Global;

/// Lists of numbers, one under each number from a first one on.
#[derive(Drop)]
pub(crate) struct Lists {
    first: u32,
    lists: Vec<Vec<u32>>,
}

// So many empty lists.
fn empty_lists(alloc: Global, count: usize) -> Result<Vec<Vec<u32>>, OutOfMemory>
    ensures { IfOk result (λ lists. map (λ list. list.items) lists.items ≡ replicate count []) }
{
    let mut lists = Vec::new(alloc);
    for _list in 0..count {
        lists.push(Vec::new(alloc))?;
    }
    Ok(lists)
}

// Puts an item at the end of the list at a place, if there is one.
fn put(lists: &mut Vec<Vec<u32>>, place: usize, item: u32) -> Result<(), OutOfMemory>
    ensures { OnOk result (map (λ list. list.items) lists.new.items ≡ put_at (map (λ list. list.items) lists.old.items) place item) }
{
    if let Some(list) = lists.get_mut(place) {
        list.push(item)?;
    }
    Ok(())
}

fn lesser(least: u32, number: u32) -> u32
    ensures kept { result ≤ least }
    ensures here { result ≤ number }
{
    least.min(number)
}

// The bound, or what is just above the number.
fn above(bound: usize, number: u32) -> usize
    ensures kept { bound ≤ result }
    ensures here { number < result }
{
    bound.max((number as usize).saturating_add(1))
}

// The least first number of the pairs.
fn least_first(pairs: &[(u32, u32)]) -> u32
    ensures { (x : ℕ × ℕ) → Contains pairs.now x → result ≤ x.0 }
{
    let mut least = u32::MAX;
    for (number, _) in pairs {
        least = lesser(least, *number);
    }
    least
}

// Above the first numbers of the pairs.
fn first_bound(pairs: &[(u32, u32)]) -> usize
    ensures { (x : ℕ × ℕ) → Contains pairs.now x → x.0 < result }
{
    let mut bound = 0;
    for (number, _) in pairs {
        bound = above(bound, *number);
    }
    bound
}

impl Lists {
    // Puts the second number under the first, if there is a list under it.
    fn add(&mut self, number: u32, item: u32) -> Result<(), OutOfMemory>
        ensures { (first count : ℕ) (pairs : List (ℕ × ℕ)) → IsListing self.old first count pairs → OnOk result (IsListing self.new first count (pairs ++ (number, item) ∷ [])) }
    {
        match number.checked_sub(self.first) {
            Some(place) => put(&mut self.lists, place as usize, item),
            None => Ok(()),
        }
    }

    fn add_all(&mut self, pairs: &[(u32, u32)]) -> Result<(), OutOfMemory>
        ensures { (first count : ℕ) → IsListing self.old first count [] → OnOk result (IsListing self.new first count pairs.now) }
    {
        for (number, item) in pairs {
            self.add(*number, *item)?;
        }
        Ok(())
    }

    /// The second numbers of pairs, each under its first one. Pairs whose first number is none of so many from `first` on are left out.
    pub(crate) fn of(
        alloc: Global,
        first: u32,
        count: usize,
        pairs: &[(u32, u32)],
    ) -> Result<Lists, OutOfMemory>
        ensures { IfOk result (λ lists. IsListing lists first count pairs.now) }
    {
        let lists = empty_lists(alloc, count)?;
        let mut all = Lists { first, lists };
        all.add_all(pairs)?;
        Ok(all)
    }

    /// The second numbers of all pairs, each under its first one.
    pub(crate) fn of_all(alloc: Global, pairs: &[(u32, u32)]) -> Result<Lists, OutOfMemory>
        ensures every { IfOk result (λ lists. (k j : ℕ) → Contains pairs.now (k, j) → Contains (under_in lists k) j) }
        ensures only { IfOk result (λ lists. (k j : ℕ) → Contains (under_in lists k) j → Contains pairs.now (k, j)) }
    {
        let first = least_first(pairs);
        let bound = first_bound(pairs);
        Lists::of(alloc, first, bound.saturating_sub(first as usize), pairs)
    }

    /// The list under a number; an empty one, where there is none.
    pub(crate) fn under(&self, number: u32) -> &[u32]
        ensures { result.now ≡ under_in self.now number }
    {
        let Some(place) = number.checked_sub(self.first) else {
            return &[];
        };
        match self.lists.get(place as usize) {
            Some(list) => list.as_slice(),
            None => &[],
        }
    }
}
