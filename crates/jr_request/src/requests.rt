// The requests of a batch.
ghost use Rattle.std.specs.Prelude.{◌≡◌, ◌⊎◌, ℕ, List, Some, Result};
ghost use Rattle.jr_base.specs.declared.request.Request.{Request};
ghost use Rattle.jr_request.specs.Input.{plain_answer, IsInputAnswer, AnswersInput, GivesUp, Leaves, HasInputCause};
ghost use Rattle.jr_request.specs.InputSteps.{AnswersBytes};
ghost use Rattle.jr_request.specs.declared.input_fault.BatchFault.{BatchFault};

use crate::input::read_input;
use crate::{BatchFault, RequestFault, read_batch};
use jr_base::{Limits, Request, Size};
use jr_store::Source;
use std::alloc::Global;

// The requests that these bytes ask for.
fn requests_of(alloc: Global, bytes: &[u8]) -> Result<Vec<Request>, BatchFault>
    ensures answer { AnswersBytes bytes.now result }
    ensures only { (answer : Result (List Request) BatchFault) → IsInputAnswer bytes.now answer → (plain_answer result ≡ answer) ⊎ GivesUp result }
{
    if bytes.len() > Limits::INPUT as usize {
        return Err(BatchFault::TooLarge(Size::Input));
    }
    match read_batch(alloc, bytes) {
        Ok(requests) => {
            if requests.len() > Limits::REQUESTS as usize {
                return Err(BatchFault::TooLarge(Size::Requests));
            }
            Ok(requests)
        }
        Err(RequestFault::BadJson) => Err(BatchFault::Refused {
            element: 0,
            field: None,
        }),
        Err(RequestFault::BadField { request, field }) => Err(BatchFault::Refused {
            element: request,
            field: Some(field),
        }),
        Err(_) => Err(BatchFault::OutOfMemory),
    }
}

/// The requests that an input asks for. It is read to its end, or to 1,048,577 bytes, one more than a batch may have.
///
/// What comes is decided by the first of these tests that fails: each read, the size `Input`, JSON and the array of
/// requests, the size `Requests`. Want of memory may come at any time.
pub fn read_requests<I: Source>(alloc: Global, input: &mut I) -> Result<Vec<Request>, BatchFault>
    // Each answer has its cause in the bytes that the input had. Where it does not tell them, there are such bytes.
    ensures answer { AnswersInput (I.left input.old) result }

    // An input has one answer, unless memory runs out or a fault is counted.
    ensures only { (bytes : List ℕ) (answer : Result (List Request) BatchFault) → I.left input.old ≡ Some bytes → IsInputAnswer bytes answer
        → (plain_answer result ≡ answer) ⊎ GivesUp result }

    // All but the first 1,048,577 bytes are left, or more where the reading gave up.
    ensures left { (bytes : List ℕ) → I.left input.old ≡ Some bytes → Leaves bytes (I.left input.new) result }

    // A fault of the input is answered only where its count rose.
    ensures cause { HasInputCause (I.faults input.old) (I.faults input.new) result }
{
    let bytes = read_input(alloc, input)?;
    requests_of(alloc, &bytes)
}
