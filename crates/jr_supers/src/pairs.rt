// Pairs of a type and one above it.
ghost use Rattle.std.specs.Prelude.{◌≡◌, [], IfOk};
ghost use Rattle.jr_supers.specs.Pairs.{has_pair, uppers, with_pair, with_pairs};

use jr_base::OutOfMemory;
use jr_places::{Chains, Entry};
use std::alloc::Global;
use std::marker::Model;

/// Pairs of a type and one above it, each once.
#[derive(Drop)]
pub struct Pairs {
    both: Chains,
    /// The same under the key of the lower type and 0.
    lower: Chains,
}

impl Model for Pairs {
    ghost use Rattle.std.specs.Prelude.{List};
    ghost use Rattle.jr_places.specs.declared.chains.Entry.{Entry};
    ghost use Rattle.jr_supers.specs.Pairs.{IsPaired};

    ghost Value = { List Entry };

    ghost view = { λ pairs. pairs.both };

    ghost invariant = { λ pairs. IsPaired pairs.both pairs.lower };
}

impl Pairs {
    /// No pairs.
    pub fn new(alloc: Global) -> Pairs
        ensures { result ≡ [] }
    {
        Pairs {
            both: Chains::new(alloc),
            lower: Chains::new(alloc),
        }
    }

    /// The pair is one of these.
    pub fn has(&self, low: u32, high: u32) -> bool
        ensures { result ≡ has_pair self.now low high }
    {
        self.both.last(low, high).is_some()
    }

    /// What stands above a type.
    pub fn uppers(&self, alloc: Global, low: u32) -> Result<Vec<u32>, OutOfMemory>
        ensures { IfOk result (λ all. all.items ≡ uppers self.now low) }
    {
        self.lower.rows(alloc, low, 0)
    }

    /// One more pair, unless it is one of these.
    pub fn add(self, low: u32, high: u32) -> Result<Pairs, OutOfMemory>
        ensures { IfOk result (λ pairs. pairs ≡ with_pair self low high) }
    {
        if self.has(low, high) {
            return Ok(self);
        }
        let Pairs { both, lower } = self;
        let both = both.push(Entry {
            first: low,
            second: high,
            row: high,
        })?;
        let lower = lower.push(Entry {
            first: low,
            second: 0,
            row: high,
        })?;
        Ok(Pairs { both, lower })
    }

    /// The pairs of a type and each item of a list.
    pub fn add_all(self, low: u32, highs: &[u32]) -> Result<Pairs, OutOfMemory>
        ensures { IfOk result (λ pairs. pairs ≡ with_pairs self low highs.now) }
    {
        let mut pairs = self;
        for high in highs {
            pairs = pairs.add(low, *high)?;
        }
        Ok(pairs)
    }
}
