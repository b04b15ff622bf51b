// What a run has printed.
ghost use Rattle.std.specs.Prelude.{◌≡◌, [], ◌++◌, OnOk};

use jr_base::{OutOfMemory, Units};
use std::alloc::Global;
use std::marker::Model;

/// Printed 16-bit units, which contracts see as their list.
#[derive(Drop)]
pub struct Printed {
    units: Vec<u16>,
}

impl Model for Printed {
    ghost use Rattle.std.specs.Prelude.{List, ℕ};

    ghost Value = { List ℕ };

    ghost view = { λ p. p.units.items };
}

impl Printed {
    /// Nothing.
    pub fn new(alloc: Global) -> Printed
        ensures { result ≡ [] }
    {
        Printed {
            units: Vec::new(alloc),
        }
    }

    /// Prints these units.
    pub fn extend(&mut self, units: &[u16]) -> Result<(), OutOfMemory>
        ensures { OnOk result (self.new ≡ self.old ++ units.now) }
    {
        self.units.extend_from_slice(units)?;
        Ok(())
    }

    /// The units.
    pub fn into_units(self) -> Units
        ensures { result ≡ self }
    {
        let Printed { units } = self;
        Units::new(units)
    }
}
