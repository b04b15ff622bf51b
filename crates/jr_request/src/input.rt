// The bytes of an input.
ghost use Rattle.std.specs.Prelude.{◌<◌, length};
ghost use Rattle.jr_request.specs.Input.{HasInputCause};
ghost use Rattle.jr_request.specs.InputSteps.{ReadsPart, TakesFront, most_read};

use crate::BatchFault;
use jr_base::Limits;
use jr_store::Source;
use std::alloc::Global;

/// The most bytes that one read asks for: 64 KiB.
const PART: usize = 65_536;

// Takes bytes from the front of the input to the end of `bytes`, as many as the buffer at most, and says how many.
fn read_part<I: Source>(
    input: &mut I,
    buffer: &mut [u8],
    bytes: &mut Vec<u8>,
) -> Result<usize, BatchFault>
    requires { 0 < length buffer.old }
    ensures part { ReadsPart (I.left input.old) (I.left input.new) (length buffer.old) bytes.old.items bytes.new.items result }
    ensures cause { HasInputCause (I.faults input.old) (I.faults input.new) result }
{
    match input.read(buffer) {
        Ok(count) => {
            bytes.extend_from_slice(&buffer[..count])?;
            Ok(count)
        }
        Err(_) => Err(BatchFault::SourceFault),
    }
}

// The front of an input: all of it, or `most` bytes where it has so many.
fn read_front<I: Source>(
    alloc: Global,
    input: &mut I,
    buffer: &mut [u8],
    most: usize,
) -> Result<Vec<u8>, BatchFault>
    requires { 0 < length buffer.old }
    ensures front { TakesFront most (I.left input.old) (I.left input.new) result }
    ensures cause { HasInputCause (I.faults input.old) (I.faults input.new) result }
{
    let mut bytes = Vec::new(alloc);
    while bytes.len() < most {
        let room = buffer.len().min(most - bytes.len());
        let count = read_part(input, &mut buffer[..room], &mut bytes)?;
        if count == 0 {
            return Ok(bytes);
        }
    }
    Ok(bytes)
}

/// The bytes of an input, or one more than a batch may have.
pub(crate) fn read_input<I: Source>(alloc: Global, input: &mut I) -> Result<Vec<u8>, BatchFault>
    ensures front { TakesFront most_read (I.left input.old) (I.left input.new) result }
    ensures cause { HasInputCause (I.faults input.old) (I.faults input.new) result }
{
    let mut buffer = vec![in alloc; 0u8; PART]?;
    read_front(alloc, input, &mut buffer, Limits::INPUT as usize + 1)
}
