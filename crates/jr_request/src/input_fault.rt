// Why an input is no batch.
use jr_base::{OutOfMemory, Size, Text};
use std::alloc::AllocError;

/// Why the requests of an input are refused.
#[derive(Debug, Drop)]
pub enum BatchFault {
    /// The input counted a fault.
    SourceFault,
    /// The size `Input` or `Requests` is past its limit.
    TooLarge(Size),
    /// The input is no array of requests in JSON (RFC 8259). Where it is not JSON, `element` is 0 and there is no
    /// field. Else `element` is the number of the first element that is no request, counted from 1, or 0 where the
    /// value is no array, and `field` is the one to blame.
    Refused { element: u32, field: Option<Text> },
    /// Memory was refused.
    OutOfMemory,
}

impl From<OutOfMemory> for BatchFault {
    ghost use Rattle.std.specs.Prelude.{◌≡◌};
    ghost use Rattle.jr_request.specs.declared.input_fault.BatchFault.TheVariants.{OutOfMemory};

    ghost from_gives = { λ _ e. e ≡ OutOfMemory };

    fn from(_: OutOfMemory) -> Self {
        BatchFault::OutOfMemory
    }
}

impl From<AllocError> for BatchFault {
    ghost use Rattle.std.specs.Prelude.{◌≡◌};
    ghost use Rattle.jr_request.specs.declared.input_fault.BatchFault.TheVariants.{OutOfMemory};

    ghost from_gives = { λ _ e. e ≡ OutOfMemory };

    fn from(_: AllocError) -> Self {
        BatchFault::OutOfMemory
    }
}
