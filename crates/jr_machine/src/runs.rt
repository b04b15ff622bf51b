// A run.
ghost use Rattle.std.specs.Prelude.{◌≡◌, IfOk};
ghost use Rattle.jr_base.specs.Mirror as t;
ghost use Rattle.jr_base.specs.Mirror.{plain_ty};
ghost use Rattle.jr_machine_defs.specs.Prelude.{string_class};
ghost use Rattle.jr_core.specs.Mirror.{plain_code, plain_core};
ghost use Rattle.jr_machine_defs.specs.Steps.{is_running, start_call, start_with, IsRunFrom, IsRun};
ghost use Rattle.jr_machine_defs.specs.Follows.{Advances};

use crate::steps::step;
use jr_base::{DeclId, Items, OutOfMemory, Ty};
use jr_core::{Code, Core};
use jr_machine_defs::{
    Cell, Cells, CodeRef, Frame, Printed, Purpose, Ran, RunEnd, Stack, State, TyRef, Value, Work,
};
use jr_machine_ops::{Program, object_class, string_class};
use std::alloc::Global;

fn is_running(end: RunEnd) -> bool
    ensures { result ≡ is_running end }
{
    matches!(end, RunEnd::Running)
}

/// The state before a run: a call, on a new array of length 0.
fn start_with<'a>(alloc: Global, item: &'a Ty, call: &'a Code) -> Result<State<'a>, OutOfMemory>
    ensures { IfOk result (λ state. state ≡ start_with (plain_ty item.entry.now) (plain_code call.entry.now)) }
{
    let mut heap = Cells::new(alloc);
    heap.push(Cell::Array {
        item: TyRef::new(item),
        items: Items::new(alloc),
    })?;
    let mut work = Stack::new(alloc);
    work.push(Work::Finish(CodeRef::new(call)))?;
    let mut values = Stack::new(alloc);
    values.push(Value::Ref(0))?;
    Ok(State {
        heap,
        statics: Items::new(alloc),
        begun: Items::new(alloc),
        frame: Frame {
            purpose: Purpose::Method,
            class: object_class(),
            this: Value::Null,
            locals: Items::new(alloc),
            work,
            values,
        },
        callers: Stack::new(alloc),
        printed: Printed::new(alloc),
        end: RunEnd::Running,
    })
}

/// One step; false where no line covers the top item.
#[tactic(auto, using(crate::proofs::Running::advances))]
fn advance<'a>(
    state: &mut State<'a>,
    alloc: Global,
    program: &Program<'a>,
) -> Result<bool, OutOfMemory>
    ensures { IfOk result (λ went. Advances program.now went state.old state.new) }
{
    step(state, alloc, program)
}

/// What the run came to in so many steps.
fn into_ran<'a>(state: State<'a>, end: RunEnd, steps: u64) -> Ran
    ensures end { result.end ≡ end }
    ensures printed { result.printed ≡ state.entry.printed }
    ensures steps { result.steps ≡ steps }
{
    Ran {
        end,
        printed: state.printed.into_units(),
        steps,
    }
}

/// A run of at most so many steps from a state.
fn run_from<'a>(
    alloc: Global,
    program: &Program<'a>,
    mut state: State<'a>,
    n: u64,
) -> Result<Ran, OutOfMemory>
    ensures { IfOk result (λ ran. IsRunFrom program.now state.entry n ran) }
{
    for i in 0..n {
        if !is_running(state.end) {
            let end = state.end;
            return Ok(into_ran(state, end, i));
        }
        if !advance(&mut state, alloc, program)? {
            return Ok(into_ran(state, RunEnd::Running, n));
        }
    }
    let end = state.end;
    Ok(into_ran(state, end, n))
}

/// A run of at most so many steps from a call.
fn run_call<'a>(
    alloc: Global,
    core: &'a Core,
    item: &'a Ty,
    call: &'a Code,
    n: u64,
) -> Result<Ran, OutOfMemory>
    ensures { IfOk result (λ ran. IsRunFrom (plain_core core.entry.now) (start_with (plain_ty item.entry.now) (plain_code call.entry.now)) n ran) }
{
    let program = Program::new(alloc, core)?;
    let state = start_with(alloc, item, call)?;
    run_from(alloc, &program, state, n)
}

/// The type of strings.
fn strings() -> Ty
    ensures { plain_ty result ≡ t.Class string_class }
{
    Ty::Class(string_class())
}

/// The static call that a run begins with; its argument is there already.
fn start_call(alloc: Global, start: DeclId) -> Result<Code, OutOfMemory>
    ensures { IfOk result (λ call. plain_code call ≡ start_call start) }
{
    let mut args = Items::new(alloc);
    args.push(Code::Lit { value: None })?;
    Ok(Code::Call {
        receiver: None,
        is_super: false,
        method: start,
        args,
    })
}

/// A run of at most `n` steps, from a call of the start method on a new array of strings of length 0 (JLS 12.1.4).
pub fn run(alloc: Global, core: &Core, start: DeclId, n: u64) -> Result<Ran, OutOfMemory>
    ensures { IfOk result (λ ran. IsRun (plain_core core.now) start n ran) }
{
    let call = start_call(alloc, start)?;
    let strings = strings();
    let ran = run_call(alloc, core, &strings, &call, n);
    drop(call);
    ran
}
