// Why an edit is refused.
use jr_base::OutOfMemory;
use std::alloc::AllocFailed;
use thiserror::Error;

/// Why an edit is refused. The first of these, in this order, is answered.
#[derive(Clone, Copy, Debug, PartialEq, Eq, Error)]
pub enum EditFault {
    /// The span starts above its end, or ends above the text's length.
    #[error("OutOfRange")]
    OutOfRange,
    /// The span shares a byte with an earlier one, or one of both is an insertion strictly inside the
    /// other.
    #[error("Overlap")]
    Overlap,
    /// Memory was refused.
    #[error("OutOfMemory")]
    OutOfMemory,
}

impl From<OutOfMemory> for EditFault {
    ghost use Rattle.std.specs.Prelude.{◌≡◌};
    ghost use Rattle.jr_edits.specs.declared.fault.EditFault.TheVariants.{OutOfMemory};

    ghost from_gives = { λ _ e. e ≡ OutOfMemory };

    fn from(_: OutOfMemory) -> Self {
        EditFault::OutOfMemory
    }
}

impl<T: Drop> From<AllocFailed<T>> for EditFault {
    ghost use Rattle.std.specs.Prelude.{◌≡◌};
    ghost use Rattle.jr_edits.specs.declared.fault.EditFault.TheVariants.{OutOfMemory};

    ghost from_gives = { λ _ e. e ≡ OutOfMemory };

    fn from(_: AllocFailed<T>) -> Self {
        EditFault::OutOfMemory
    }
}
