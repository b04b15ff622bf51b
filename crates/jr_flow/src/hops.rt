// Ways between places by their numbers.
ghost use Rattle.std.specs.Prelude.{◌≡◌, ◌∷◌, ◌++◌, [], List, OnOk, slice_get, unwrap_or};
ghost use Rattle.jr_flow.specs.declared.hops.Hop as code;
ghost use Rattle.jr_flow.specs.Grouped.{firsts_of, hops_in, AreGrouped};

use jr_base::OutOfMemory;
use std::alloc::Global;

/// A way to a place, by its number.
#[derive(Clone, Copy)]
pub(crate) struct Hop {
    pub(crate) to: u32,
    pub(crate) is_throw: bool,
}

/// For each place the ways from it, one place after the other.
#[derive(Drop)]
pub(crate) struct Hops {
    /// For each place the number of its first hop.
    firsts: Vec<u32>,
    all: Vec<Hop>,
}

impl Hops {
    pub(crate) fn new(alloc: Global) -> Hops
        ensures { AreGrouped result [] }
    {
        Hops {
            firsts: Vec::new(alloc),
            all: Vec::new(alloc),
        }
    }

    /// The hops that follow are those of the next place.
    pub(crate) fn begin(&mut self) -> Result<(), OutOfMemory>
        ensures { (groups : List (List code.Hop)) → AreGrouped self.old groups → OnOk result (AreGrouped self.new (groups ++ [] ∷ [])) }
    {
        let Ok(first) = u32::try_from(self.all.len()) else {
            return Err(OutOfMemory);
        };
        self.firsts.push(first)?;
        Ok(())
    }

    /// One hop more of the last place.
    pub(crate) fn push(&mut self, hop: Hop) -> Result<(), OutOfMemory>
        ensures { (groups : List (List code.Hop)) (group : List code.Hop) → AreGrouped self.old (groups ++ group ∷ []) → OnOk result (AreGrouped self.new (groups ++ (group ++ hop ∷ []) ∷ [])) }
    {
        self.all.push(hop)?;
        Ok(())
    }

    /// The number of the first hop of a place. Behind the last place there are no more.
    pub(crate) fn first(&self, number: u32) -> u32
        ensures { result ≡ unwrap_or (slice_get (firsts_of self.now) number) 0 }
    {
        self.firsts.get(number as usize).copied().unwrap_or(0)
    }

    pub(crate) fn get(&self, number: u32) -> Option<Hop>
        ensures { result ≡ slice_get (hops_in self.now) number }
    {
        self.all.get(number as usize).copied()
    }
}
