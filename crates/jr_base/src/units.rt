// 16-bit units of a string (JLS 3.1, 3.10.5).
ghost use Rattle.std.specs.Prelude.{◌≡◌, IfOk};

use crate::OutOfMemory;
use std::alloc::Global;
use std::marker::Model;

/// A list of 16-bit units, as a Java string holds them.
#[derive(Debug, Drop)]
pub struct Units {
    units: Vec<u16>,
}

impl Model for Units {
    ghost use Rattle.std.specs.Prelude.{List, ℕ};

    ghost Value = { List ℕ };

    ghost view = { λ u. u.units.items };
}

impl Units {
    /// The string of these units.
    pub fn new(units: Vec<u16>) -> Units
        ensures { result ≡ units.items }
    {
        Units { units }
    }

    /// The units of the string.
    pub fn units(&self) -> &[u16]
        ensures { result.now ≡ self.now }
    {
        &self.units
    }

    /// An equal string of its own.
    pub fn copy(&self, alloc: Global) -> Result<Units, OutOfMemory>
        ensures { IfOk result (λ copy. copy ≡ self.now) }
    {
        Ok(Units {
            units: self.units.to_vec(alloc)?,
        })
    }
}
