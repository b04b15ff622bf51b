// Changes of a state.
ghost use Rattle.std.specs.Prelude.{◌≡◌, OnOk, IfOk};
ghost use Rattle.jr_core.specs.Mirror as m;
ghost use Rattle.jr_machine_defs.specs.States.{push_value, set_local, throws, raises, settled};
ghost use Rattle.jr_machine_defs.specs.Follows.{Follows, Gives, Takes, Drops};

use crate::prelude::fault_class;
use crate::variables::assign;
use jr_base::{Boxed, DeclId, Items, OutOfMemory};
use jr_core::Code;
use jr_machine_defs::{Cell, Exit, Fault, Given, Outcome, Stack, State, Value, Work};
use std::alloc::Global;

/// Takes so many values off, the uppermost last; none where there are fewer.
#[tactic(auto, using(crate::proofs::Taking::taken_step, crate::proofs::Taking::taken_none))]
pub fn take<'a>(
    values: &mut Stack<Value<'a>>,
    alloc: Global,
    count: usize,
) -> Result<Option<Stack<Value<'a>>>, OutOfMemory>
    ensures { IfOk result (λ taken. Takes count values.old taken values.new) }
{
    let mut args = Stack::new(alloc);
    for i in 0..count {
        match values.pop() {
            None => return Ok(None),
            Some(value) => args.push(value)?,
        }
    }
    Ok(Some(args))
}

/// Pushes a value.
pub fn push_value<'a>(state: &mut State<'a>, value: Value<'a>) -> Result<(), OutOfMemory>
    ensures { OnOk result (state.new ≡ push_value value.entry state.old) }
{
    state.frame.values.push(value)
}

/// Pushes a value, as the next state.
pub fn push<'a>(state: &mut State<'a>, value: Value<'a>) -> Result<bool, OutOfMemory>
    ensures { IfOk result (λ went. Follows (Some (push_value value.entry state.old)) went state.old state.new) }
{
    push_value(state, value)?;
    Ok(true)
}

/// Gives a local variable a value.
pub fn set_local<'a>(
    state: &mut State<'a>,
    local: DeclId,
    value: Value<'a>,
) -> Result<(), OutOfMemory>
    ensures { OnOk result (state.new ≡ set_local local value.entry state.old) }
{
    assign(&mut state.frame.locals, local, value)
}

/// Throws a value.
pub fn throw<'a>(state: &mut State<'a>, value: Value<'a>) -> Result<(), OutOfMemory>
    ensures { OnOk result (state.new ≡ throws value.entry state.old) }
{
    state.frame.work.push(Work::Exiting(Exit::Throw(value)))
}

/// Throws a new exception of the machine.
pub fn raise<'a>(state: &mut State<'a>, alloc: Global, fault: Fault) -> Result<bool, OutOfMemory>
    ensures { IfOk result (λ went. Follows (Some (raises fault state.old)) went state.old state.new) }
{
    let at = state.heap.len();
    state.heap.push(Cell::Object {
        class: fault_class(fault),
        outer: Value::Null,
        fields: Items::new(alloc),
    })?;
    state
        .frame
        .work
        .push(Work::Exiting(Exit::Throw(Value::Ref(at))))?;
    Ok(true)
}

/// Pushes what an operation gives.
pub fn settle<'a>(
    state: &mut State<'a>,
    alloc: Global,
    outcome: Outcome<'a>,
) -> Result<bool, OutOfMemory>
    ensures { IfOk result (λ went. Follows (settled outcome.entry state.old) went state.old state.new) }
{
    match outcome {
        Outcome::Gives(value) => {
            push_value(state, value)?;
            Ok(true)
        }
        Outcome::Makes(units) => {
            let at = state.heap.len();
            state.heap.push(Cell::Text { units })?;
            push_value(state, Value::Ref(at))?;
            Ok(true)
        }
        Outcome::Throws(fault) => raise(state, alloc, fault),
        Outcome::Unfit => Ok(false),
    }
}

/// The value that an operation gives, to go on with.
pub fn give<'a>(
    state: &mut State<'a>,
    alloc: Global,
    outcome: Outcome<'a>,
) -> Result<Given<'a>, OutOfMemory>
    ensures { IfOk result (λ given. Gives outcome.entry state.old given state.new) }
{
    match outcome {
        Outcome::Gives(value) => Ok(Given::Value(value)),
        Outcome::Makes(units) => {
            let at = state.heap.len();
            state.heap.push(Cell::Text { units })?;
            Ok(Given::Value(Value::Ref(at)))
        }
        Outcome::Throws(fault) => Ok(Given::Done(raise(state, alloc, fault)?)),
        Outcome::Unfit => Ok(Given::Done(false)),
    }
}

/// Takes the receiver of a static member off, if it has one; it is not used (JLS 15.11.1).
pub fn drop_receiver<'a>(state: &mut State<'a>, on: &Option<Boxed<Code>>) -> bool
    ensures { Drops (m.plain_any_code on.now) state.old result state.new }
{
    match on {
        None => true,
        Some(_) => state.frame.values.pop().is_some(),
    }
}
