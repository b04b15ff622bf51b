// Why nothing is shown.

use jr_base::OutOfMemory;
use jr_engine::{EngineFault, Refused, StepFault};
use std::alloc::{AllocError, AllocFailed};

/// Why nothing is shown.
#[derive(Clone, Copy, Debug, PartialEq, Eq)]
pub enum DemoFault {
    /// The generated files were not changed as asked, or there are none of that number.
    Refused,
    OutOfMemory,
}

/// Why nothing is shown where a request was refused.
pub fn not_changed(refused: &Refused) -> DemoFault {
    match refused.fault {
        EngineFault::Step(StepFault::OutOfMemory) => DemoFault::OutOfMemory,
        _ => DemoFault::Refused,
    }
}

impl From<OutOfMemory> for DemoFault {
    fn from(_: OutOfMemory) -> Self {
        DemoFault::OutOfMemory
    }
}

impl From<AllocError> for DemoFault {
    fn from(_: AllocError) -> Self {
        DemoFault::OutOfMemory
    }
}

impl<T: Drop> From<AllocFailed<T>> for DemoFault {
    fn from(_: AllocFailed<T>) -> Self {
        DemoFault::OutOfMemory
    }
}
