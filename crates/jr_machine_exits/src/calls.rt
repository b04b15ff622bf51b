// Calls of methods and constructors, and creations (JLS 8.8.7, 15.9, 15.12).
ghost use Rattle.std.specs.Prelude.{IfOk};
ghost use Rattle.jr_core.specs.Mirror as m;
ghost use Rattle.jr_core.specs.Mirror.{plain_body};
ghost use Rattle.jr_machine_defs.specs.Calls.{runs, dispatches, calls_on, calls, creates, creates_any, constructs};
ghost use Rattle.jr_machine_defs.specs.Follows.{Follows};
ghost use Rattle.jr_machine_defs.specs.Places.{without_receiver};
ghost use Rattle.jr_machine_defs.specs.declared.value.Value.TheVariants as v;

use jr_base::{Boxed, DeclId, Items, OutOfMemory, TypeId};
use jr_core::{Body, Code};
use jr_machine_defs::{Cell, Fault, Purpose, Stack, State, Value};
use jr_machine_ops::{
    Program, class_of_object, drop_receiver, enter, native_call, push_class, push_value, raise,
};
use std::alloc::Global;

/// Runs a method.
fn run_body<'a>(
    state: &mut State<'a>,
    alloc: Global,
    body: &'a Body,
    this: Value<'a>,
    args: Stack<Value<'a>>,
) -> Result<bool, OutOfMemory>
    ensures { IfOk result (λ went. Follows (runs (plain_body body.entry.now) this.entry args.entry state.old) went state.old state.new) }
{
    if body.is_native {
        return native_call(state, alloc, body.decl, &this, args);
    }
    enter(state, alloc, body, Purpose::Method, this, args)?;
    Ok(true)
}

/// Runs the method that is found in the receiver's class (JLS 15.12.4.4).
fn dispatch<'a>(
    state: &mut State<'a>,
    alloc: Global,
    program: &Program<'a>,
    class: Option<TypeId>,
    method: DeclId,
    receiver: Value<'a>,
    args: Stack<Value<'a>>,
) -> Result<bool, OutOfMemory>
    ensures { IfOk result (λ went. Follows (dispatches program.now class method receiver.entry args.entry state.old) went state.old state.new) }
{
    let Some(class) = class else {
        return Ok(false);
    };
    let Some(target) = program.found(class, method) else {
        return Ok(false);
    };
    match program.body(target) {
        None => Ok(false),
        Some(body) => run_body(state, alloc, body, receiver, args),
    }
}

/// Calls a method on an object; null is checked.
pub fn call_on<'a>(
    state: &mut State<'a>,
    alloc: Global,
    program: &Program<'a>,
    method: DeclId,
    receiver: Value<'a>,
    args: Stack<Value<'a>>,
) -> Result<bool, OutOfMemory>
    ensures { IfOk result (λ went. Follows (calls_on program.now method receiver.entry args.entry state.old) went state.old state.new) }
{
    match receiver {
        Value::Null => raise(state, alloc, Fault::NullPointer),
        receiver => {
            let class = class_of_object(state.heap.as_slice(), &receiver);
            dispatch(state, alloc, program, class, method, receiver, args)
        }
    }
}

/// A call of a static method; its receiver is not used (JLS 15.12.4.1).
fn call_static<'a>(
    state: &mut State<'a>,
    alloc: Global,
    body: &'a Body,
    receiver: &Option<Boxed<Code>>,
    args: Stack<Value<'a>>,
) -> Result<bool, OutOfMemory>
    ensures { IfOk result (λ went. Follows (without_receiver (m.plain_any_code receiver.now) state.old (runs (plain_body body.entry.now) v.Null args.entry)) went state.old state.new) }
{
    if !drop_receiver(state, receiver) {
        return Ok(false);
    }
    run_body(state, alloc, body, Value::Null, args)
}

/// A call, with its arguments (JLS 15.12.4).
pub fn call<'a>(
    state: &mut State<'a>,
    alloc: Global,
    program: &Program<'a>,
    body: &'a Body,
    receiver: &Option<Boxed<Code>>,
    is_super: bool,
    args: Stack<Value<'a>>,
) -> Result<bool, OutOfMemory>
    ensures { IfOk result (λ went. Follows (calls program.now (Some (plain_body body.entry.now)) (m.plain_any_code receiver.now) is_super args.entry state.old) went state.old state.new) }
{
    if body.is_static {
        return call_static(state, alloc, body, receiver, args);
    }
    if is_super {
        let this = state.frame.this.copy();
        return run_body(state, alloc, body, this, args);
    }
    let Some(object) = state.frame.values.pop() else {
        return Ok(false);
    };
    call_on(state, alloc, program, body.decl, object, args)
}

/// A new object, on which the constructor runs (JLS 15.9.4).
fn create<'a>(
    state: &mut State<'a>,
    alloc: Global,
    body: &'a Body,
    outer: Value<'a>,
    args: Stack<Value<'a>>,
) -> Result<bool, OutOfMemory>
    ensures { IfOk result (λ went. Follows (creates (plain_body body.entry.now) outer.entry args.entry state.old) went state.old state.new) }
{
    let at = state.heap.len();
    state.heap.push(Cell::Object {
        class: body.class,
        outer,
        fields: Items::new(alloc),
    })?;
    push_value(state, Value::Ref(at))?;
    enter(
        state,
        alloc,
        body,
        Purpose::Constructor,
        Value::Ref(at),
        args,
    )?;
    Ok(true)
}

/// A creation, with its arguments.
pub fn create_any<'a>(
    state: &mut State<'a>,
    alloc: Global,
    body: &'a Body,
    outer: &Option<Boxed<Code>>,
    args: Stack<Value<'a>>,
) -> Result<bool, OutOfMemory>
    ensures { IfOk result (λ went. Follows (creates_any (Some (plain_body body.entry.now)) (m.plain_any_code outer.now) args.entry state.old) went state.old state.new) }
{
    match outer {
        None => create(state, alloc, body, Value::Null, args),
        Some(_) => match state.frame.values.pop() {
            None => Ok(false),
            Some(object) => create(state, alloc, body, object, args),
        },
    }
}

/// A call of a constructor of the same class or of the superclass (JLS 12.5).
pub fn construct<'a>(
    state: &mut State<'a>,
    alloc: Global,
    program: &Program<'a>,
    body: &'a Body,
    is_super: bool,
    args: Stack<Value<'a>>,
) -> Result<bool, OutOfMemory>
    ensures { IfOk result (λ went. Follows (constructs program.now (Some (plain_body body.entry.now)) is_super args.entry state.old) went state.old state.new) }
{
    let this = state.frame.this.copy();
    if is_super {
        let class = program.class(state.frame.class);
        push_class(&mut state.frame.work, program, false, class)?;
    }
    enter(state, alloc, body, Purpose::Constructor, this, args)?;
    Ok(true)
}
