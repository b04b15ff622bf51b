// Why references cannot be written.

use jr_base::OutOfMemory;
use jr_defs::Referent;
use std::alloc::{AllocError, AllocFailed};

/// Why there are no spellings.
#[derive(Clone, Copy, Debug, PartialEq, Eq)]
pub enum SpellFault {
    /// No spelling of the reference at this row fits. What is found is what its old shape refers to with the new names.
    NoSpelling { row: u32, found: Referent },
    OutOfMemory,
}

impl From<OutOfMemory> for SpellFault {
    fn from(_: OutOfMemory) -> Self {
        SpellFault::OutOfMemory
    }
}

impl From<AllocError> for SpellFault {
    fn from(_: AllocError) -> Self {
        SpellFault::OutOfMemory
    }
}

impl<T: Drop> From<AllocFailed<T>> for SpellFault {
    fn from(_: AllocFailed<T>) -> Self {
        SpellFault::OutOfMemory
    }
}
