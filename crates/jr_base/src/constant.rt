// Values of constant expressions (JLS 15.28).
ghost use Rattle.std.specs.Prelude.{◌≡◌, IfOk};

use crate::{Copied, OutOfMemory, Units};
use std::alloc::Global;

/// The value of a constant expression, or of a literal other than `null`, by its type (JLS 15.28, 15.8.1).
#[derive(Drop)]
pub enum Const {
    Bool(bool),
    Byte(i8),
    Short(i16),
    Char(u16),
    Int(i32),
    Long(i64),
    Str(Units),
}

impl Const {
    /// An equal value of its own.
    pub fn copy(&self, alloc: Global) -> Result<Const, OutOfMemory>
        ensures { IfOk result (λ copy. copy ≡ self.now) }
    {
        match self {
            Const::Bool(value) => Ok(Const::Bool(*value)),
            Const::Byte(value) => Ok(Const::Byte(*value)),
            Const::Short(value) => Ok(Const::Short(*value)),
            Const::Char(value) => Ok(Const::Char(*value)),
            Const::Int(value) => Ok(Const::Int(*value)),
            Const::Long(value) => Ok(Const::Long(*value)),
            Const::Str(units) => Ok(Const::Str(units.copy(alloc)?)),
        }
    }
}

impl Copied for Const {
    fn copy(&self, alloc: Global) -> Result<Const, OutOfMemory> {
        Const::copy(self, alloc)
    }
}
