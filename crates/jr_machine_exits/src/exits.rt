// Completions other than the normal one, and the ends of frames (JLS 14.1, 14.15 to 14.20, 11.3, 15.12.4).
ghost use Rattle.std.specs.Prelude.{◌≡◌, ◌++◌, IfOk, OnOk};
ghost use Rattle.jr_core.specs.Mirror as m;
ghost use Rattle.jr_core.specs.Mirror.{plain_code};
ghost use Rattle.jr_machine_defs.specs.Exits.{goes_on, through_finally, at_loop, at_switch, at_label, after_catch, caught, thrown_to, at_try, at_finishing, at_finally, unwinds, leaves, throws_out, leaves_by};
ghost use Rattle.jr_machine_defs.specs.Classes.{class_of_object};
ghost use Rattle.jr_machine_defs.specs.Steps.{exits};
ghost use Rattle.jr_machine_defs.specs.Follows.{Follows};

use crate::control::push_relabeled;
use crate::parts::push_after_body;
use jr_base::{DeclId, Items, OutOfMemory};
use jr_core::{Catch, Code};
use jr_machine_defs::{CodeRef, Exit, Purpose, RunEnd, Stack, State, Value, Work};
use jr_machine_ops::{Program, class_of_object, push, push_codes, same_decl, set_local, throw};
use std::alloc::Global;

/// Puts the `finally` round a catch on top, if there is one.
fn push_after_catch<'a>(
    stack: &mut Stack<Work<'a>>,
    code: &'a Code,
    last: &Option<Items<Code>>,
) -> Result<(), OutOfMemory>
    ensures { OnOk result (stack.new ≡ after_catch (plain_code code.entry.now) (m.plain_any_codes last.now) ++ stack.old) }
{
    match last {
        None => Ok(()),
        Some(_) => stack.push(Work::Finally(CodeRef::new(code))),
    }
}

/// The completion goes on outwards.
fn go_on<'a>(state: &mut State<'a>, leaving: Exit<'a>) -> Result<bool, OutOfMemory>
    ensures { IfOk result (λ went. Follows (goes_on leaving.entry state.old) went state.old state.new) }
{
    state.frame.work.push(Work::Exiting(leaving))?;
    Ok(true)
}

/// A `finally` runs first, and then the completion goes on (JLS 14.20.2).
#[tactic(auto, using(jr_machine_ops::proofs::Counting::append_one))]
fn go_through<'a>(
    state: &mut State<'a>,
    last: &'a Option<Items<Code>>,
    leaving: Exit<'a>,
) -> Result<bool, OutOfMemory>
    ensures { IfOk result (λ went. Follows (through_finally (m.plain_any_codes last.entry.now) leaving.entry state.old) went state.old state.new) }
{
    state.frame.work.push(Work::Exiting(leaving))?;
    match last {
        None => Ok(true),
        Some(last) => {
            push_codes(&mut state.frame.work, last.as_slice())?;
            Ok(true)
        }
    }
}

/// A break ends at a loop, and a continue goes on there (JLS 14.15, 14.16).
fn at_loop<'a>(
    state: &mut State<'a>,
    code: &'a Code,
    leaving: Exit<'a>,
) -> Result<bool, OutOfMemory>
    ensures { IfOk result (λ went. Follows (at_loop (plain_code code.entry.now) leaving.entry state.old) went state.old state.new) }
{
    match leaving {
        Exit::Break(None) => Ok(true),
        Exit::Continue(None) => {
            push_after_body(&mut state.frame.work, code)?;
            Ok(true)
        }
        Exit::Break(Some(label)) => go_on(state, Exit::Break(Some(label))),
        Exit::Continue(Some(label)) => go_on(state, Exit::Continue(Some(label))),
        Exit::Throw(value) => go_on(state, Exit::Throw(value)),
        Exit::Return(value) => go_on(state, Exit::Return(value)),
    }
}

fn at_switch<'a>(state: &mut State<'a>, leaving: Exit<'a>) -> Result<bool, OutOfMemory>
    ensures { IfOk result (λ went. Follows (at_switch leaving.entry state.old) went state.old state.new) }
{
    match leaving {
        Exit::Break(None) => Ok(true),
        Exit::Break(Some(label)) => go_on(state, Exit::Break(Some(label))),
        Exit::Continue(label) => go_on(state, Exit::Continue(label)),
        Exit::Throw(value) => go_on(state, Exit::Throw(value)),
        Exit::Return(value) => go_on(state, Exit::Return(value)),
    }
}

/// A break with this label ends here, and a continue goes on with the loop (JLS 14.7, 14.15, 14.16).
fn at_label<'a>(
    state: &mut State<'a>,
    label: DeclId,
    code: &'a Code,
    leaving: Exit<'a>,
) -> Result<bool, OutOfMemory>
    ensures { IfOk result (λ went. Follows (at_label label (plain_code code.entry.now) leaving.entry state.old) went state.old state.new) }
{
    match leaving {
        Exit::Break(Some(target)) => {
            if same_decl(label, target) {
                return Ok(true);
            }
            go_on(state, Exit::Break(Some(target)))
        }
        Exit::Continue(Some(target)) => {
            if !same_decl(label, target) {
                return go_on(state, Exit::Continue(Some(target)));
            }
            push_relabeled(&mut state.frame.work, code)?;
            Ok(true)
        }
        Exit::Break(None) => go_on(state, Exit::Break(None)),
        Exit::Continue(None) => go_on(state, Exit::Continue(None)),
        Exit::Throw(value) => go_on(state, Exit::Throw(value)),
        Exit::Return(value) => go_on(state, Exit::Return(value)),
    }
}

/// The catch gets the thrown object and runs, and then the `finally` (JLS 14.20.1).
#[tactic(auto, using(jr_machine_ops::proofs::Joining::append_three))]
fn run_catch<'a>(
    state: &mut State<'a>,
    code: &'a Code,
    last: &'a Option<Items<Code>>,
    catch: &'a Catch,
    value: Value<'a>,
) -> Result<bool, OutOfMemory>
    ensures { IfOk result (λ went. Follows (caught (plain_code code.entry.now) (m.plain_any_codes last.entry.now) (Some (m.plain_catch catch.entry.now)) value.entry state.old) went state.old state.new) }
{
    push_after_catch(&mut state.frame.work, code, last)?;
    push_codes(&mut state.frame.work, catch.body.as_slice())?;
    set_local(state, catch.param, value)?;
    Ok(true)
}

fn throw_to<'a>(
    state: &mut State<'a>,
    alloc: Global,
    program: &Program<'a>,
    code: &'a Code,
    catches: &'a [Catch],
    last: &'a Option<Items<Code>>,
    value: Value<'a>,
) -> Result<bool, OutOfMemory>
    ensures { IfOk result (λ went. Follows (thrown_to program.now (plain_code code.entry.now) (m.plain_catches catches.entry.now) (m.plain_any_codes last.entry.now) (class_of_object state.old.heap value.entry) value.entry state.old) went state.old state.new) }
{
    let Some(class) = class_of_object(state.heap.as_slice(), &value) else {
        return Ok(false);
    };
    match program.catch_for(alloc, class, catches)? {
        None => go_through(state, last, Exit::Throw(value)),
        Some(catch) => run_catch(state, code, last, catch, value),
    }
}

fn at_try<'a>(
    state: &mut State<'a>,
    alloc: Global,
    program: &Program<'a>,
    code: &'a Code,
    catches: &'a [Catch],
    last: &'a Option<Items<Code>>,
    leaving: Exit<'a>,
) -> Result<bool, OutOfMemory>
    ensures { IfOk result (λ went. Follows (at_try program.now (plain_code code.entry.now) (m.plain_catches catches.entry.now) (m.plain_any_codes last.entry.now) leaving.entry state.old) went state.old state.new) }
{
    match leaving {
        Exit::Throw(value) => throw_to(state, alloc, program, code, catches, last, value),
        Exit::Break(label) => go_through(state, last, Exit::Break(label)),
        Exit::Continue(label) => go_through(state, last, Exit::Continue(label)),
        Exit::Return(value) => go_through(state, last, Exit::Return(value)),
    }
}

fn at_finishing<'a>(
    state: &mut State<'a>,
    alloc: Global,
    program: &Program<'a>,
    code: &'a Code,
    leaving: Exit<'a>,
) -> Result<bool, OutOfMemory>
    ensures { IfOk result (λ went. Follows (at_finishing program.now (plain_code code.entry.now) leaving.entry state.old) went state.old state.new) }
{
    match code {
        Code::Labeled { label, .. } => at_label(state, *label, code, leaving),
        Code::Try { catches, last, .. } => at_try(
            state,
            alloc,
            program,
            code,
            catches.as_slice(),
            last,
            leaving,
        ),
        _ => go_on(state, leaving),
    }
}

fn at_finally<'a>(
    state: &mut State<'a>,
    code: &'a Code,
    leaving: Exit<'a>,
) -> Result<bool, OutOfMemory>
    ensures { IfOk result (λ went. Follows (at_finally (plain_code code.entry.now) leaving.entry state.old) went state.old state.new) }
{
    match code {
        Code::Try { last, .. } => go_through(state, last, leaving),
        _ => go_on(state, leaving),
    }
}

/// An item of work is taken off by a completion (JLS 14.1).
fn unwind<'a>(
    state: &mut State<'a>,
    alloc: Global,
    program: &Program<'a>,
    leaving: Exit<'a>,
    item: Work<'a>,
) -> Result<bool, OutOfMemory>
    ensures { IfOk result (λ went. Follows (unwinds program.now leaving.entry item.entry state.old) went state.old state.new) }
{
    match item {
        Work::AfterBody(code) => at_loop(state, code.get(), leaving),
        Work::Breakable => at_switch(state, leaving),
        Work::Finish(code) => at_finishing(state, alloc, program, code.get(), leaving),
        Work::Finally(code) => at_finally(state, code.get(), leaving),
        _ => go_on(state, leaving),
    }
}

/// The frame is taken off; without a caller the run has ended.
pub fn leave<'a>(state: &mut State<'a>, value: Value<'a>) -> Result<bool, OutOfMemory>
    ensures { IfOk result (λ went. Follows (leaves state.old.callers state.old.frame.purpose value.entry state.old) went state.old state.new) }
{
    let Some(caller) = state.callers.pop() else {
        state.end = RunEnd::Ended;
        return Ok(true);
    };
    let purpose = state.frame.purpose;
    state.frame = caller;
    match purpose {
        Purpose::Method => push(state, value),
        Purpose::Constructor | Purpose::Initializer(_) => Ok(true),
    }
}

/// A throw goes on in the caller; out of an initialization it ends the run (JLS 12.4.2).
fn throw_out<'a>(state: &mut State<'a>, value: Value<'a>) -> Result<bool, OutOfMemory>
    ensures { IfOk result (λ went. Follows (throws_out state.old.frame.purpose state.old.callers value.entry state.old) went state.old state.new) }
{
    if let Purpose::Initializer(class) = state.frame.purpose {
        state.end = RunEnd::InitFailed(class);
        return Ok(true);
    }
    match state.callers.pop() {
        None => match class_of_object(state.heap.as_slice(), &value) {
            None => Ok(false),
            Some(class) => {
                state.end = RunEnd::Uncaught(class);
                Ok(true)
            }
        },
        Some(caller) => {
            state.frame = caller;
            throw(state, value)?;
            Ok(true)
        }
    }
}

fn leave_by<'a>(state: &mut State<'a>, leaving: Exit<'a>) -> Result<bool, OutOfMemory>
    ensures { IfOk result (λ went. Follows (leaves_by leaving.entry state.old) went state.old state.new) }
{
    match leaving {
        Exit::Return(value) => leave(state, value),
        Exit::Throw(value) => throw_out(state, value),
        Exit::Break(_) | Exit::Continue(_) => Ok(false),
    }
}

/// A completion takes the next item off, or the frame (JLS 14.1).
pub fn exit<'a>(
    state: &mut State<'a>,
    alloc: Global,
    program: &Program<'a>,
    leaving: Exit<'a>,
) -> Result<bool, OutOfMemory>
    ensures { IfOk result (λ went. Follows (exits program.now leaving.entry state.old.frame.work state.old) went state.old state.new) }
{
    match state.frame.work.pop() {
        None => leave_by(state, leaving),
        Some(item) => unwind(state, alloc, program, leaving, item),
    }
}
