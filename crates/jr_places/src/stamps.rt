// A set of numbers that is emptied at once.
ghost use Rattle.std.specs.Prelude.{◌≡◌, ℕ, IfOk, OnOk};
ghost use Rattle.jr_places.specs.Stamps.{is_stamped, IsStamping, IsEmptied, AddsStamp};

use jr_base::OutOfMemory;
use std::alloc::Global;

/// A set of numbers below a bound. Emptying it costs nothing.
#[derive(Drop)]
pub struct Stamps {
    stamps: Vec<u32>,
    round: u32,
}

impl Stamps {
    /// No numbers, out of those below the bound.
    #[tactic(auto, using(crate::proofs::Stamping::emptied_new))]
    pub fn new(alloc: Global, bound: usize) -> Result<Stamps, OutOfMemory>
        ensures { IfOk result (λ stamps. IsEmptied stamps bound) }
    {
        Ok(Stamps {
            stamps: vec![in alloc; 0u32; bound]?,
            round: 1,
        })
    }

    /// Takes all numbers out.
    #[tactic(auto, using(crate::proofs::Stamping::emptied_next))]
    pub fn empty(&mut self) -> Result<(), OutOfMemory>
        ensures { (bound : ℕ) → IsStamping self.old bound → OnOk result (IsEmptied self.new bound) }
    {
        let Some(next) = self.round.checked_add(1) else {
            return Err(OutOfMemory);
        };
        self.round = next;
        Ok(())
    }

    /// The number is in the set.
    pub fn has(&self, at: u32) -> bool
        ensures { result ≡ is_stamped self.now at }
    {
        match self.stamps.get(at as usize) {
            Some(stamp) => *stamp == self.round,
            None => false,
        }
    }

    /// Puts a number in, if it is below the bound. It was not in the set before.
    #[tactic(auto, using(crate::proofs::Stamping::adds_past, crate::proofs::Stamping::adds_at))]
    pub fn add(&mut self, at: u32) -> bool
        ensures { (bound : ℕ) → IsStamping self.old bound → AddsStamp self.old self.new bound at result }
    {
        if at as usize >= self.stamps.len() {
            return false;
        }
        let is_new = !self.has(at);
        self.stamps[at as usize] = self.round;
        is_new
    }
}
