// What the input of a batch asks for.
ghost use Rattle.std.specs.Prelude.{◌≡◌, ℕ, List, Some};
ghost use Rattle.jr_request.specs.Input.{LeavesSome};
ghost use Rattle.jr_top.specs.Decisions.{HearsSo};

use crate::status::Status;
use jr_base::Request;
use jr_request::{BatchFault, read_requests};
use jr_store::Source;
use std::alloc::Global;

/// What an input comes to: requests, or an answer.
#[derive(Drop)]
pub enum Heard {
    Requests(Vec<Request>),
    Answer(Status),
}

/// Reads the requests of the input, and says what is to be answered where there are none.
pub fn hear<I: Source>(alloc: Global, input: &mut I) -> Heard
    ensures answer { HearsSo (I.left input.old) (I.faults input.old) (I.faults input.new) result }
    ensures taken { (bytes : List ℕ) → I.left input.old ≡ Some bytes → LeavesSome bytes (I.left input.new) }
{
    match read_requests(alloc, input) {
        Ok(requests) => Heard::Requests(requests),
        Err(fault) => match fault {
            BatchFault::SourceFault => Heard::Answer(Status::SourceFault),
            BatchFault::TooLarge(what) => { Heard::Answer(Status::TooLarge { what, request: 0 }) }
            BatchFault::Refused { element, field } => Heard::Answer(Status::BadRequest {
                request: element,
                reason: 9,
                field,
            }),
            BatchFault::OutOfMemory => Heard::Answer(Status::OutOfMemory),
        },
    }
}
