// A batch of requests in JSON (RFC 8259).
ghost use Rattle.std.specs.Prelude.{◌≡◌, ◌⊎◌, List, Result};
ghost use Rattle.serde_json.specs.View.{view, items_view};
ghost use Rattle.jr_base.specs.declared.request.Request.{Request};
ghost use Rattle.jr_request.specs.declared.fault.RequestFault.{RequestFault};
ghost use Rattle.jr_request.specs.Batch.{IsBatchAnswer};
ghost use Rattle.jr_request.specs.Steps.{ReadsElements, ReadsValue, AnswersBatch, plain_answer};

use crate::RequestFault;
use crate::element::{bad_field, read_element};
use jr_base::Request;
use serde_json::Value;
use std::alloc::Global;
use std::str;

/// The requests of a batch. `BadJson` comes exactly where the bytes are not JSON; `BadField` exactly
/// where they are, and are no array of requests.
pub fn read_batch(alloc: Global, bytes: &[u8]) -> Result<Vec<Request>, RequestFault>
    ensures answer { AnswersBatch bytes.now result }
    ensures only { (answer : Result (List Request) RequestFault) → IsBatchAnswer bytes.now answer
        → (plain_answer result ≡ answer) ⊎ (result ≡ Err RequestFault.OutOfMemory) }
{
    let Ok(text) = str::from_utf8(bytes) else {
        return Err(RequestFault::BadJson);
    };
    match Value::from_str(alloc, text) {
        Ok(value) => read_value(alloc, &value),
        Err(error) => {
            if error.is_memory() {
                Err(RequestFault::OutOfMemory)
            } else {
                Err(RequestFault::BadJson)
            }
        }
    }
}

fn read_value(alloc: Global, value: &Value) -> Result<Vec<Request>, RequestFault>
    ensures { ReadsValue result (view value.now) }
{
    match value.as_array() {
        Some(elements) => read_elements(alloc, elements),
        None => Err(bad_field(alloc, 0, "do")),
    }
}

fn read_elements(alloc: Global, elements: &[Value]) -> Result<Vec<Request>, RequestFault>
    ensures { ReadsElements result (items_view elements.now) }
{
    let mut requests = Vec::new(alloc);
    let mut number: u32 = 0;
    for element in elements {
        if number == u32::MAX {
            return Err(RequestFault::OutOfMemory);
        }
        number += 1;
        requests.push(read_element(alloc, element, number)?)?;
    }
    Ok(requests)
}
