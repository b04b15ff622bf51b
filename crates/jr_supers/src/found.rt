// Numbers, each once, in the order in which they are found.
ghost use Rattle.std.specs.Prelude.{◌≡◌, ◌++◌, ◌∷◌, [], OnOk};
ghost use Rattle.jr_plain.specs.Search.{has};
ghost use Rattle.jr_supers.specs.Found.{IsFound, with_item};

use jr_base::OutOfMemory;
use jr_places::{Chains, Entry};
use std::alloc::Global;
use std::marker::Model;

/// A list of numbers, seen by contracts as that list, in which each is found at once.
#[derive(Drop)]
pub struct Found {
    /// The same under the key of 0 and the number.
    seen: Chains,
    all: Vec<u32>,
}

impl Model for Found {
    ghost use Rattle.std.specs.Prelude.{ℕ, List};
    ghost use Rattle.jr_supers.specs.Found.{IsFound};

    ghost Value = { List ℕ };

    ghost view = { λ found. found.all.items };

    ghost invariant = { λ found. IsFound found.seen found.all.items };
}

// One more number in both parts.
fn put(alloc: Global, seen: &mut Chains, all: &mut Vec<u32>, at: u32) -> Result<(), OutOfMemory>
    ensures more { OnOk result (all.new.items ≡ all.old.items ++ at ∷ []) }
    ensures found { IsFound seen.old all.old.items → OnOk result (IsFound seen.new all.new.items) }
{
    seen.add(
        alloc,
        Entry {
            first: 0,
            second: at,
            row: at,
        },
    )?;
    all.push(at)?;
    Ok(())
}

impl Found {
    /// No numbers.
    pub fn new(alloc: Global) -> Found
        ensures { result ≡ [] }
    {
        Found {
            seen: Chains::new(alloc),
            all: Vec::new(alloc),
        }
    }

    /// The number is one of these.
    pub fn has(&self, at: u32) -> bool
        ensures { result ≡ has self.now at }
    {
        self.seen.last(0, at).is_some()
    }

    /// One more number, unless it is one of these. Where memory is refused the numbers are lost.
    pub fn add(&mut self, alloc: Global, at: u32) -> Result<(), OutOfMemory>
        ensures { OnOk result (self.new ≡ with_item self.old at) }
    {
        if self.has(at) {
            return Ok(());
        }
        match put(alloc, &mut self.seen, &mut self.all, at) {
            Ok(()) => Ok(()),
            Err(fault) => {
                *self = Found::new(alloc);
                Err(fault)
            }
        }
    }

    /// The list.
    pub fn into_items(self) -> Vec<u32>
        ensures { result.items ≡ self }
    {
        let Found { seen: _seen, all } = self;
        all
    }
}
