// Why words or a batch are no request.
use jr_base::{OutOfMemory, Text};
use std::alloc::{AllocError, AllocFailed};

/// Why words or a batch are refused.
#[derive(Debug, Drop)]
pub enum RequestFault {
    /// The words are no command.
    BadWords,
    /// The bytes are not JSON.
    BadJson,
    /// An element is no request. `request` is its number, counted from 1, or 0 where the value is no
    /// array. `field` is the first of its fields that is missing or ill-typed, or else the least key
    /// that does not belong.
    BadField { request: u32, field: Text },
    /// Memory was refused.
    OutOfMemory,
}

impl From<OutOfMemory> for RequestFault {
    ghost use Rattle.std.specs.Prelude.{◌≡◌};
    ghost use Rattle.jr_request.specs.declared.fault.RequestFault.TheVariants.{OutOfMemory};

    ghost from_gives = { λ _ e. e ≡ OutOfMemory };

    fn from(_: OutOfMemory) -> Self {
        RequestFault::OutOfMemory
    }
}

impl From<AllocError> for RequestFault {
    ghost use Rattle.std.specs.Prelude.{◌≡◌};
    ghost use Rattle.jr_request.specs.declared.fault.RequestFault.TheVariants.{OutOfMemory};

    ghost from_gives = { λ _ e. e ≡ OutOfMemory };

    fn from(_: AllocError) -> Self {
        RequestFault::OutOfMemory
    }
}

impl<T: Drop> From<AllocFailed<T>> for RequestFault {
    ghost use Rattle.std.specs.Prelude.{◌≡◌};
    ghost use Rattle.jr_request.specs.declared.fault.RequestFault.TheVariants.{OutOfMemory};

    ghost from_gives = { λ _ e. e ≡ OutOfMemory };

    fn from(_: AllocFailed<T>) -> Self {
        RequestFault::OutOfMemory
    }
}
