// The count of a store's, a source's or a sink's calls, and which of them are to fail.
ghost use Rattle.std.specs.Prelude.{◌≡◌, ◌≤◌, ◌+◌, ◌-◌, ◌^◌, ◌↔◌, min, Contains, IsErr, IfOk};
ghost use Rattle.jr_store.specs.Image.{Rose, HasCause};

use crate::Failed;

#[derive(Drop)]
pub struct Calls {
    made: u64,
    failing: Vec<u64>,
    faults: u64,
}

impl Calls {
    pub fn new(failing: Vec<u64>) -> Calls
        ensures failing { result.failing.items ≡ failing.items }
        ensures made { result.made ≡ 0 }
        ensures faults { result.faults ≡ 0 }
    {
        Calls {
            made: 0,
            failing,
            faults: 0,
        }
    }

    /// How many calls were made.
    pub fn made(&self) -> u64
        ensures { result ≡ self.now.made }
    {
        self.made
    }

    /// Counts a fault.
    pub fn fault(&mut self) -> Failed
        ensures rose { Rose self.old.faults self.new.faults }
        ensures later { self.old.faults ≤ self.new.faults }
        ensures made { self.new.made ≡ self.old.made }
    {
        self.faults = self.faults.saturating_add(1);
        Failed
    }

    /// Counts a call, and gives its number, or fails where it is one of those that are to fail.
    pub fn next(&mut self) -> Result<u64, Failed>
        ensures counted { self.new.made ≡ min (self.old.made + 1) (2 ^ 64 - 1) }
        ensures number { IfOk result (λ number. number ≡ self.new.made) }
        ensures asked { IsErr result ↔ Contains self.old.failing.items self.new.made }
        ensures cause { HasCause self.old.faults self.new.faults result }
    {
        self.made = self.made.saturating_add(1);
        if self.failing.contains(&self.made) {
            return Err(self.fault());
        }
        Ok(self.made)
    }
}
