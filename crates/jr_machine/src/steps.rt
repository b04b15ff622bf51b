// A step of the machine.
ghost use Rattle.std.specs.Prelude.{[], ◌∷◌, ◌++◌, IfOk};
ghost use Rattle.jr_core.specs.Mirror.{plain_code};
ghost use Rattle.jr_machine_defs.specs.Steps.{evaluates, finally_of, begins_any, acts, next};
ghost use Rattle.jr_machine_defs.specs.declared.work.Work.TheVariants as w;
ghost use Rattle.jr_machine_defs.specs.Parts.{target_parts, after_body};
ghost use Rattle.jr_machine_defs.specs.States.{add_work};
ghost use Rattle.jr_machine_defs.specs.Follows.{Follows};

use crate::finishing::{finish, finish_try};
use jr_base::{OutOfMemory, TypeId};
use jr_core::Code;
use jr_machine_defs::{CodeRef, RunEnd, State, Value, Work};
use jr_machine_exits::{
    exit, leave, literal, push_finish, push_parts, push_target_parts, push_turn, read_old,
};
use jr_machine_ops::{Program, begin, first_use, push, push_eval, value_of};
use std::alloc::Global;

/// Evaluates code: its value at once, or its parts.
fn evaluate<'a>(state: &mut State<'a>, code: &'a Code) -> Result<bool, OutOfMemory>
    ensures { IfOk result (λ went. Follows (evaluates (plain_code code.entry.now) state.old) went state.old state.new) }
{
    match code {
        Code::Lit { value } => push(state, literal(value)),
        Code::Var { local } => match value_of(state.frame.locals.as_slice(), *local) {
            None => Ok(false),
            Some(value) => {
                let value = value.copy();
                push(state, value)
            }
        },
        code => {
            push_parts(&mut state.frame.work, code)?;
            Ok(true)
        }
    }
}

/// Code is evaluated, or first the class that it creates is initialized.
fn evaluate_first<'a>(
    state: &mut State<'a>,
    alloc: Global,
    program: &Program<'a>,
    code: &'a Code,
) -> Result<bool, OutOfMemory>
    ensures { IfOk result (λ went. Follows (acts program.now (w.Eval (plain_code code.entry.now)) state.old) went state.old state.new) }
{
    match first_use(state.begun.as_slice(), program.created_class(code)) {
        None => evaluate(state, code),
        Some(class) => {
            push_eval(&mut state.frame.work, code)?;
            begin(state, alloc, program, class)?;
            Ok(true)
        }
    }
}

/// The finishing item of code acts, or first the class that it uses is initialized.
fn finish_first<'a>(
    state: &mut State<'a>,
    alloc: Global,
    program: &Program<'a>,
    code: &'a Code,
) -> Result<bool, OutOfMemory>
    ensures { IfOk result (λ went. Follows (acts program.now (w.Finish (plain_code code.entry.now)) state.old) went state.old state.new) }
{
    match first_use(state.begun.as_slice(), program.used_class(code)) {
        None => finish(state, alloc, program, code),
        Some(class) => {
            push_finish(&mut state.frame.work, code)?;
            begin(state, alloc, program, class)?;
            Ok(true)
        }
    }
}

/// The old value of a target is read, or first the class that it uses is initialized.
fn read_old_first<'a>(
    state: &mut State<'a>,
    alloc: Global,
    program: &Program<'a>,
    target: &'a Code,
) -> Result<bool, OutOfMemory>
    ensures { IfOk result (λ went. Follows (acts program.now (w.ReadOld (plain_code target.entry.now)) state.old) went state.old state.new) }
{
    match first_use(state.begun.as_slice(), program.target_class(target)) {
        None => read_old(state, alloc, program, target),
        Some(class) => {
            state.frame.work.push(Work::ReadOld(CodeRef::new(target)))?;
            begin(state, alloc, program, class)?;
            Ok(true)
        }
    }
}

/// The parts of the target of a plain assignment.
#[tactic(auto, using(jr_machine_ops::proofs::Counting::append_one))]
fn open_target<'a>(state: &mut State<'a>, target: &'a Code) -> Result<bool, OutOfMemory>
    ensures { IfOk result (λ went. Follows (Some (add_work (target_parts (plain_code target.entry.now) ++ w.Nothing ∷ []) state.old)) went state.old state.new) }
{
    state.frame.work.push(Work::Nothing)?;
    push_target_parts(&mut state.frame.work, target)?;
    Ok(true)
}

/// The parts of the target of a compound assignment or a step.
#[tactic(auto, using(jr_machine_ops::proofs::Counting::append_one))]
fn open_old_target<'a>(state: &mut State<'a>, target: &'a Code) -> Result<bool, OutOfMemory>
    ensures { IfOk result (λ went. Follows (Some (add_work (target_parts (plain_code target.entry.now) ++ w.ReadOld (plain_code target.entry.now) ∷ []) state.old)) went state.old state.new) }
{
    state.frame.work.push(Work::ReadOld(CodeRef::new(target)))?;
    push_target_parts(&mut state.frame.work, target)?;
    Ok(true)
}

fn turn<'a>(state: &mut State<'a>, code: &'a Code) -> Result<bool, OutOfMemory>
    ensures { IfOk result (λ went. Follows (Some (add_work (after_body (plain_code code.entry.now)) state.old)) went state.old state.new) }
{
    push_turn(&mut state.frame.work, code)?;
    Ok(true)
}

fn run_finally<'a>(state: &mut State<'a>, code: &'a Code) -> Result<bool, OutOfMemory>
    ensures { IfOk result (λ went. Follows (Some (add_work (finally_of (plain_code code.entry.now)) state.old)) went state.old state.new) }
{
    match code {
        Code::Try { last, .. } => finish_try(state, last),
        _ => Ok(true),
    }
}

fn begin_any<'a>(
    state: &mut State<'a>,
    alloc: Global,
    program: &Program<'a>,
    class: Option<TypeId>,
) -> Result<bool, OutOfMemory>
    ensures { IfOk result (λ went. Follows (Some (begins_any program.now class state.old)) went state.old state.new) }
{
    match class {
        None => Ok(true),
        Some(class) => {
            begin(state, alloc, program, class)?;
            Ok(true)
        }
    }
}

/// An item of work, taken off, acts.
fn act<'a>(
    state: &mut State<'a>,
    alloc: Global,
    program: &Program<'a>,
    item: Work<'a>,
) -> Result<bool, OutOfMemory>
    ensures { IfOk result (λ went. Follows (acts program.now item.entry state.old) went state.old state.new) }
{
    match item {
        Work::Eval(code) => evaluate_first(state, alloc, program, code.get()),
        Work::Finish(code) => finish_first(state, alloc, program, code.get()),
        Work::Target(target) => open_target(state, target.get()),
        Work::OldValue(target) => open_old_target(state, target.get()),
        Work::ReadOld(target) => read_old_first(state, alloc, program, target.get()),
        Work::AfterBody(code) => turn(state, code.get()),
        Work::Nothing | Work::Breakable => Ok(true),
        Work::Finally(code) => run_finally(state, code.get()),
        Work::Begin(class) => {
            let class = first_use(state.begun.as_slice(), Some(class));
            begin_any(state, alloc, program, class)
        }
        Work::Exiting(leaving) => exit(state, alloc, program, leaving),
    }
}

/// One step; false where the run has ended or no line covers the top item.
pub fn step<'a>(
    state: &mut State<'a>,
    alloc: Global,
    program: &Program<'a>,
) -> Result<bool, OutOfMemory>
    ensures { IfOk result (λ went. Follows (next program.now state.old) went state.old state.new) }
{
    match state.end {
        RunEnd::Running => match state.frame.work.pop() {
            None => leave(state, Value::Void),
            Some(item) => act(state, alloc, program, item),
        },
        _ => Ok(false),
    }
}
