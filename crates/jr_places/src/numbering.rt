// Numbers of lists of numbers.
ghost use Rattle.std.specs.Prelude.{◌≡◌, IfOk};
ghost use Rattle.jr_places.specs.Numbers.{number_in, IsNumbering, Adds};

use jr_base::OutOfMemory;
use std::alloc::Global;
use std::collections::HashMap;

/// Numbers of lists. The empty list has 0; a list with one item more has a number of its own for each number and item before it.
#[derive(Drop)]
pub struct Numbering {
    steps: HashMap<(u32, u32), u32>,
    count: u32,
}

impl Numbering {
    /// The number of the empty list.
    pub const EMPTY: u32 = 0;

    /// No list but the empty one has a number.
    pub fn new(alloc: Global) -> Numbering
        ensures { IsNumbering result }
    {
        Numbering {
            steps: HashMap::new(alloc),
            count: 0,
        }
    }

    /// The number of a list with one item more, if it has one.
    pub fn find(&self, list: u32, item: u32) -> Option<u32>
        ensures { result ≡ number_in self.now list item }
    {
        self.steps.get(&(list, item)).copied()
    }

    /// The number of a list with one item more, which is a new one where it had none.
    pub fn number(&mut self, list: u32, item: u32) -> Result<u32, OutOfMemory>
        ensures { IsNumbering self.old → IfOk result (λ number. Adds self.old self.new list item number) }
    {
        if let Some(known) = self.find(list, item) {
            return Ok(known);
        }
        let Some(next) = self.count.checked_add(1) else {
            return Err(OutOfMemory);
        };
        self.steps.insert((list, item), next)?;
        self.count = next;
        Ok(next)
    }
}
