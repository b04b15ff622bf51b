// Why files are not changed.

use jr_base::{DeclId, OccId, OutOfMemory, Path, Place, Size};
use jr_change::Reason;
use jr_front::FrontFault;
use jr_rule::Rule;
use std::alloc::{AllocError, AllocFailed};

/// Which kind of flow an edge is.
#[derive(Clone, Copy, Debug, PartialEq, Eq)]
pub enum LostKind {
    /// From a statement or event to one that may come next.
    Control,
    /// From a class and a method to the method that a call finds.
    Dispatch,
    /// From an assignment of a local to a use of it.
    DefUse,
}

/// Why a request leaves nothing of a program that compiles.
#[derive(Clone, Copy, Debug, PartialEq, Eq)]
pub enum StepFault {
    /// What is asked for cannot be.
    BadRequest(Reason),
    /// The occurrence cannot be written so that it refers to what it referred to. The place is in the old files.
    NoSpelling {
        occ: OccId,
        place: Place,
        lock: DeclId,
    },
    /// An edge of flow would be lost or added. Both places are in the old files; of dispatch they are those of a class and of a method.
    LostEdge {
        kind: LostKind,
        first: Place,
        second: Place,
        is_old: bool,
    },
    /// What is to be removed is used at the place in the old files.
    StillUsed {
        place: Place,
    },
    /// The files left would break a rule. The place is in them.
    Broken {
        rule: Rule,
        place: Place,
    },
    /// The files left would not be what was to be written. The place is in the old files.
    Differs {
        place: Place,
    },
    /// The files left would pass a limit.
    TooLarge(Size),
    /// An allocation failed.
    OutOfMemory,
}

/// Why files are not changed.
#[derive(Clone, Copy, Debug, PartialEq, Eq)]
pub enum EngineFault {
    /// The files found do not compile.
    Front(FrontFault),
    /// They do, and the request leaves nothing of them.
    Step(StepFault),
}

/// Why files are not changed, with the paths of the units, from 2 on, of the program in which the place lies.
#[derive(Debug, Drop)]
pub struct Refused {
    /// The number of the request in a list, from 1; 0 for a fault of the files found, and where there is one request.
    pub request: u32,
    pub fault: EngineFault,
    pub paths: Vec<Path>,
}

impl From<OutOfMemory> for StepFault {
    ghost use Rattle.std.specs.Prelude.{◌≡◌};
    ghost use Rattle.jr_engine.specs.declared.fault.StepFault.TheVariants.{OutOfMemory};

    ghost from_gives = { λ _ fault. fault ≡ OutOfMemory };

    fn from(_: OutOfMemory) -> Self {
        StepFault::OutOfMemory
    }
}

impl From<AllocError> for StepFault {
    ghost use Rattle.std.specs.Prelude.{◌≡◌};
    ghost use Rattle.jr_engine.specs.declared.fault.StepFault.TheVariants.{OutOfMemory};

    ghost from_gives = { λ _ fault. fault ≡ OutOfMemory };

    fn from(_: AllocError) -> Self {
        StepFault::OutOfMemory
    }
}

impl<T: Drop> From<AllocFailed<T>> for StepFault {
    ghost use Rattle.std.specs.Prelude.{◌≡◌};
    ghost use Rattle.jr_engine.specs.declared.fault.StepFault.TheVariants.{OutOfMemory};

    ghost from_gives = { λ _ fault. fault ≡ OutOfMemory };

    fn from(_: AllocFailed<T>) -> Self {
        StepFault::OutOfMemory
    }
}
