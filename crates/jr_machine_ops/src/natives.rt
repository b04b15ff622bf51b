// Native methods that the machine does itself.
ghost use Rattle.std.specs.Prelude.{◌≡◌, IfOk};
ghost use Rattle.std.specs.Option.{option_copied};
ghost use Rattle.jr_machine_defs.specs.Natives.{length_of, char_in, char_of, equals_units, equals_of, only_of, prints, native_call};
ghost use Rattle.jr_machine_defs.specs.Follows.{Follows};

use crate::arrays::place_in;
use crate::changes::{push, settle};
use crate::prelude::{char_at_method, equals_method, length_method, print_method};
use crate::texts::{int_of_count, shown, units_of};
use crate::variables::same_decl;
use jr_base::{DeclId, OutOfMemory};
use jr_machine_defs::{Cell, Fault, Outcome, RunEnd, Stack, State, Value};
use std::alloc::Global;

fn length_of(units: Option<&[u16]>) -> Outcome<'static>
    ensures { result ≡ length_of (option_copied units.entry) }
{
    match units {
        None => Outcome::Unfit,
        Some(units) => Outcome::Gives(Value::Int(int_of_count(units.len()))),
    }
}

fn char_in(units: &[u16], place: Option<usize>) -> Outcome<'static>
    ensures { result ≡ char_in units.now place }
{
    match place {
        None => Outcome::Throws(Fault::StringIndex),
        Some(place) => match units.get(place) {
            None => Outcome::Unfit,
            Some(unit) => Outcome::Gives(Value::Char(*unit)),
        },
    }
}

/// The one argument, where there is just one.
fn only(mut args: Stack<Value>) -> Option<Value>
    ensures { result ≡ only_of args.entry }
{
    let first = args.pop()?;
    match args.pop() {
        None => Some(first),
        Some(_) => None,
    }
}

fn char_of(units: Option<&[u16]>, arg: Option<Value>) -> Outcome<'static>
    ensures { result ≡ char_of (option_copied units.entry) arg.entry }
{
    match (units, arg) {
        (Some(units), Some(Value::Int(index))) => char_in(units, place_in(units.len(), index)),
        _ => Outcome::Unfit,
    }
}

fn equals_units(units: &[u16], others: Option<&[u16]>) -> bool
    ensures { result ≡ equals_units units.now (option_copied others.entry) }
{
    match others {
        None => false,
        Some(others) => units == others,
    }
}

fn equals_of(heap: &[Cell], units: Option<&[u16]>, arg: Option<Value>) -> Outcome<'static>
    ensures { result ≡ equals_of heap.now (option_copied units.entry) arg.entry }
{
    match (units, arg) {
        (Some(units), Some(other)) => Outcome::Gives(Value::Bool(equals_units(
            units,
            units_of(heap, &other),
        ))),
        _ => Outcome::Unfit,
    }
}

fn prints<'a>(state: &mut State<'a>, arg: Option<Value<'a>>) -> Result<bool, OutOfMemory>
    ensures { IfOk result (λ went. Follows (prints arg.entry state.old) went state.old state.new) }
{
    let Some(value) = arg else {
        return Ok(false);
    };
    match shown(state.heap.as_slice(), &value) {
        None => Ok(false),
        Some(units) => {
            state.printed.extend(units)?;
            push(state, Value::Void)
        }
    }
}

/// A call of a native method; one that the machine does not do itself ends the run.
pub fn native_call<'a>(
    state: &mut State<'a>,
    alloc: Global,
    method: DeclId,
    receiver: &Value<'a>,
    args: Stack<Value<'a>>,
) -> Result<bool, OutOfMemory>
    ensures { IfOk result (λ went. Follows (native_call method receiver.now args.entry state.old) went state.old state.new) }
{
    if same_decl(method, length_method()) {
        let outcome = length_of(units_of(state.heap.as_slice(), receiver));
        return settle(state, alloc, outcome);
    }
    if same_decl(method, char_at_method()) {
        let outcome = char_of(units_of(state.heap.as_slice(), receiver), only(args));
        return settle(state, alloc, outcome);
    }
    if same_decl(method, equals_method()) {
        let heap = state.heap.as_slice();
        let outcome = equals_of(heap, units_of(heap, receiver), only(args));
        return settle(state, alloc, outcome);
    }
    if same_decl(method, print_method()) {
        return prints(state, only(args));
    }
    state.end = RunEnd::Native(method);
    Ok(true)
}
