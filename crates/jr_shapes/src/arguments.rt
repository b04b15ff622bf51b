// The arguments of a call.
ghost use Rattle.std.specs.Prelude.{◌≡◌, ◌+◌, ◌<◌, ◌^◌};
ghost use Rattle.jr_shapes.specs.Arguments as spec;

use crate::parts::{Before, before_call};
use crate::reading::end_of;
use jr_tree::{Label, ReceiverKind, Row};

fn argument_of_call(rows: &[Row], row: u32, receiver: ReceiverKind) -> u32
    requires { row + 1 < 2 ^ 32 }
    ensures { result ≡ spec.argument_of_call rows.now row receiver }
{
    match before_call(receiver) {
        Before::Nothing => row + 1,
        _ => end_of(rows, row + 1),
    }
}

fn argument_place(rows: &[Row], row: u32, label: &Label) -> u32
    requires { row + 1 < 2 ^ 32 }
    ensures { result ≡ spec.argument_place rows.now row label.now }
{
    match label {
        Label::Call { receiver } => argument_of_call(rows, row, *receiver),
        Label::New => end_of(rows, row + 1),
        Label::ConstructorCall { .. } => row + 1,
        _ => end_of(rows, row),
    }
}

// The row, if it is before the end of another one.
fn within(rows: &[Row], row: u32, at: u32) -> Option<u32>
    ensures { result ≡ spec.within rows.now row at }
{
    if at < end_of(rows, row) {
        Some(at)
    } else {
        None
    }
}

/// The row of the first argument of a call or creation, if it has arguments.
pub fn first_argument(rows: &[Row], row: u32) -> Option<u32>
    requires { row + 1 < 2 ^ 32 }
    ensures { result ≡ spec.first_argument rows.now row }
{
    match rows.get(row as usize) {
        Some(here) => within(rows, row, argument_place(rows, row, &here.label)),
        None => None,
    }
}

/// The row of the next argument of the same call or creation, if there is one.
pub fn argument_after(rows: &[Row], row: u32, argument: u32) -> Option<u32>
    ensures { result ≡ spec.argument_after rows.now row argument }
{
    let at = end_of(rows, argument);
    if argument < at {
        within(rows, row, at)
    } else {
        None
    }
}
