// Why a request is none.

use jr_base::{OutOfMemory, Place};
use jr_edits::EditFault;
use std::alloc::{AllocError, AllocFailed};

/// Why what is asked for cannot be: the first of these, in this order.
#[derive(Clone, Copy, Debug, PartialEq, Eq)]
pub enum Reason {
    /// There is no such file.
    NoFile,
    /// The offset lies in no identifier.
    NoIdentifier,
    /// The declaration is the prelude's.
    InPrelude,
    /// The methods that would be renamed with it reach the prelude.
    ReachesPrelude,
    /// The name is no identifier, or the package no identifiers with dots between them.
    BadName,
    /// What stands there cannot be changed so.
    WrongKind,
    /// The range is no run of whole statements.
    BadRange,
    /// The superclass is not in the workspace, or holds the class.
    BadSuperclass,
}

impl Reason {
    /// The number by which a reason is answered.
    pub fn number(self) -> u8 {
        match self {
            Reason::NoFile => 1,
            Reason::NoIdentifier => 2,
            Reason::InPrelude => 3,
            Reason::ReachesPrelude => 4,
            Reason::BadName => 5,
            Reason::WrongKind => 6,
            Reason::BadRange => 7,
            Reason::BadSuperclass => 8,
        }
    }
}

/// Why there is no change.
#[derive(Clone, Copy, Debug, PartialEq, Eq)]
pub enum ChangeFault {
    Bad(Reason),
    /// What is to be removed is used there.
    StillUsed(Place),
    /// A body has too many points of flow.
    TooManyPoints,
    OutOfMemory,
}

impl From<OutOfMemory> for ChangeFault {
    ghost use Rattle.std.specs.Prelude.{◌≡◌};
    ghost use Rattle.jr_change.specs.declared.reason.ChangeFault.TheVariants.{OutOfMemory};

    ghost from_gives = { λ _ fault. fault ≡ OutOfMemory };

    fn from(_: OutOfMemory) -> Self {
        ChangeFault::OutOfMemory
    }
}

impl From<AllocError> for ChangeFault {
    ghost use Rattle.std.specs.Prelude.{◌≡◌};
    ghost use Rattle.jr_change.specs.declared.reason.ChangeFault.TheVariants.{OutOfMemory};

    ghost from_gives = { λ _ fault. fault ≡ OutOfMemory };

    fn from(_: AllocError) -> Self {
        ChangeFault::OutOfMemory
    }
}

impl<T: Drop> From<AllocFailed<T>> for ChangeFault {
    ghost use Rattle.std.specs.Prelude.{◌≡◌};
    ghost use Rattle.jr_change.specs.declared.reason.ChangeFault.TheVariants.{OutOfMemory};

    ghost from_gives = { λ _ fault. fault ≡ OutOfMemory };

    fn from(_: AllocFailed<T>) -> Self {
        ChangeFault::OutOfMemory
    }
}

impl From<EditFault> for ChangeFault {
    ghost use Rattle.std.specs.Prelude.{◌≡◌};
    ghost use Rattle.jr_change.specs.declared.reason.ChangeFault.TheVariants.{OutOfMemory};

    ghost from_gives = { λ _ fault. fault ≡ OutOfMemory };

    fn from(_: EditFault) -> Self {
        ChangeFault::OutOfMemory
    }
}
