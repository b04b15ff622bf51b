// What the finishing item of a statement or an expression does (JLS 14, 15).
ghost use Rattle.std.specs.Prelude.{◌≡◌, if◌then◌else◌, IfOk, [], ◌∷◌};
ghost use Rattle.jr_base.specs.Mirror.{plain_ty};
ghost use Rattle.jr_core.specs.Mirror as m;
ghost use Rattle.jr_core.specs.Mirror.{plain_code, plain_codes};
ghost use Rattle.jr_machine_defs.specs.declared.work.Work.TheVariants as w;
ghost use Rattle.jr_machine_defs.specs.Operators.{number_of, unary, binary};
ghost use Rattle.jr_machine_defs.specs.Strings.{text_of, units_of};
ghost use Rattle.jr_machine_defs.specs.Parts.{eval_any, codes_count};
ghost use Rattle.jr_machine_defs.specs.Finishing.{pushes_any, finally_work, assigns, steps, branches, and_also, or_else, tests, casts_object, casts, shows_object, shows, creates_array, declares, loops, switches, returns, throws_any, finishes};
ghost use Rattle.jr_machine_defs.specs.Classes.{body_in};
ghost use Rattle.jr_machine_defs.specs.Places.{length_of, store};
ghost use Rattle.jr_machine_defs.specs.Control.{instance_of};
ghost use Rattle.jr_machine_defs.specs.Calls.{calls, creates_any, constructs};
ghost use Rattle.jr_machine_defs.specs.States.{with_one, with_two, with_some, with_outcome, settled, add_work};
ghost use Rattle.jr_machine_defs.specs.Follows.{Follows, TakesArgs};

use jr_base::{Boxed, DeclId, Items, OutOfMemory, Ty, TypeId};
use jr_core::{BinaryOp, Code, Group, StepOp, UnaryOp};
use jr_machine_defs::{Cell, Exit, Fault, Number, Outcome, Stack, State, Value, Work};
use jr_machine_exits::{
    call, call_on, chosen, construct, create_any, length_of, push_after_body, push_any,
    push_groups, read_field, read_item, store,
};
use jr_machine_ops::{
    Program, binary, compound, converted_to, make_array, make_arrays, number_of, push, push_codes,
    push_eval, raise, set_local, settle, stepped, take, text_of, throw, to_string_method, unary,
    units_of,
};
use std::alloc::Global;

/// The old value or the new one.
fn one_of<'a>(is_post: bool, old: Value<'a>, new: &Value<'a>) -> Value<'a>
    ensures { result ≡ (if is_post then old.entry else new.now) }
{
    if is_post { old } else { new.copy() }
}

/// A plain assignment, with its value (JLS 15.26.1).
fn assign_plain<'a>(
    state: &mut State<'a>,
    alloc: Global,
    program: &Program<'a>,
    target: &Code,
) -> Result<bool, OutOfMemory>
    ensures { IfOk result (λ went. Follows (assigns program.now (plain_code target.now) None state.old) went state.old state.new) }
{
    let Some(value) = state.frame.values.pop() else {
        return Ok(false);
    };
    let gives = value.copy();
    store(state, alloc, program, target, value, gives)
}

/// Stores what an operation gives, and pushes it.
fn store_outcome<'a>(
    state: &mut State<'a>,
    alloc: Global,
    program: &Program<'a>,
    target: &Code,
    outcome: Outcome<'a>,
) -> Result<bool, OutOfMemory>
    ensures { IfOk result (λ went. Follows (with_outcome outcome.entry state.old (λ new s. store program.now (plain_code target.now) new new s)) went state.old state.new) }
{
    match outcome {
        Outcome::Gives(new) => {
            let gives = new.copy();
            store(state, alloc, program, target, new, gives)
        }
        Outcome::Makes(units) => {
            let at = state.heap.len();
            state.heap.push(Cell::Text { units })?;
            store(
                state,
                alloc,
                program,
                target,
                Value::Ref(at),
                Value::Ref(at),
            )
        }
        Outcome::Throws(fault) => raise(state, alloc, fault),
        Outcome::Unfit => Ok(false),
    }
}

/// A compound assignment, with its value (JLS 15.26.2).
fn assign_compound<'a>(
    state: &mut State<'a>,
    alloc: Global,
    program: &Program<'a>,
    target: &Code,
    op: BinaryOp,
) -> Result<bool, OutOfMemory>
    ensures { IfOk result (λ went. Follows (assigns program.now (plain_code target.now) (Some op) state.old) went state.old state.new) }
{
    let Some(value) = state.frame.values.pop() else {
        return Ok(false);
    };
    let Some(old) = state.frame.values.pop() else {
        return Ok(false);
    };
    let outcome = compound(alloc, state.heap.as_slice(), op, &old, &value)?;
    store_outcome(state, alloc, program, target, outcome)
}

fn assign_any<'a>(
    state: &mut State<'a>,
    alloc: Global,
    program: &Program<'a>,
    target: &Code,
    op: Option<BinaryOp>,
) -> Result<bool, OutOfMemory>
    ensures { IfOk result (λ went. Follows (assigns program.now (plain_code target.now) op state.old) went state.old state.new) }
{
    match op {
        None => assign_plain(state, alloc, program, target),
        Some(op) => assign_compound(state, alloc, program, target, op),
    }
}

/// Stores what a step gives, and pushes that or the old value.
fn store_stepped<'a>(
    state: &mut State<'a>,
    alloc: Global,
    program: &Program<'a>,
    target: &Code,
    outcome: Outcome<'a>,
    old: Value<'a>,
    is_post: bool,
) -> Result<bool, OutOfMemory>
    ensures { IfOk result (λ went. Follows (with_outcome outcome.entry state.old (λ new s. store program.now (plain_code target.now) new (if is_post then old.entry else new) s)) went state.old state.new) }
{
    match outcome {
        Outcome::Gives(new) => {
            let gives = one_of(is_post, old, &new);
            store(state, alloc, program, target, new, gives)
        }
        Outcome::Makes(units) => {
            let at = state.heap.len();
            state.heap.push(Cell::Text { units })?;
            let gives = one_of(is_post, old, &Value::Ref(at));
            store(state, alloc, program, target, Value::Ref(at), gives)
        }
        Outcome::Throws(fault) => raise(state, alloc, fault),
        Outcome::Unfit => Ok(false),
    }
}

/// `++` and `--`, which give the new value or the old one (JLS 15.14, 15.15).
fn step_target<'a>(
    state: &mut State<'a>,
    alloc: Global,
    program: &Program<'a>,
    target: &Code,
    op: StepOp,
    is_post: bool,
) -> Result<bool, OutOfMemory>
    ensures { IfOk result (λ went. Follows (steps program.now (plain_code target.now) op is_post state.old) went state.old state.new) }
{
    let Some(old) = state.frame.values.pop() else {
        return Ok(false);
    };
    let outcome = stepped(op, &old);
    store_stepped(state, alloc, program, target, outcome, old, is_post)
}

fn branch<'a>(
    state: &mut State<'a>,
    value: Value<'a>,
    first: &'a Code,
    second: &'a Code,
) -> Result<bool, OutOfMemory>
    ensures { IfOk result (λ went. Follows (branches (w.Eval (plain_code first.entry.now) ∷ []) (w.Eval (plain_code second.entry.now) ∷ []) value.entry state.old) went state.old state.new) }
{
    match value {
        Value::Bool(answer) => {
            if answer {
                push_eval(&mut state.frame.work, first)?;
            } else {
                push_eval(&mut state.frame.work, second)?;
            }
            Ok(true)
        }
        _ => Ok(false),
    }
}

/// One of two expressions goes on (JLS 15.25).
fn choose<'a>(state: &mut State<'a>, first: &'a Code, second: &'a Code) -> Result<bool, OutOfMemory>
    ensures { IfOk result (λ went. Follows (with_one state.old.frame.values state.old (branches (w.Eval (plain_code first.entry.now) ∷ []) (w.Eval (plain_code second.entry.now) ∷ []))) went state.old state.new) }
{
    match state.frame.values.pop() {
        None => Ok(false),
        Some(value) => branch(state, value, first, second),
    }
}

fn branch_stmt<'a>(
    state: &mut State<'a>,
    value: Value<'a>,
    first: &'a Code,
    second: &'a Option<Boxed<Code>>,
) -> Result<bool, OutOfMemory>
    ensures { IfOk result (λ went. Follows (branches (w.Eval (plain_code first.entry.now) ∷ []) (eval_any (m.plain_any_code second.entry.now)) value.entry state.old) went state.old state.new) }
{
    match value {
        Value::Bool(answer) => {
            if answer {
                push_eval(&mut state.frame.work, first)?;
            } else {
                push_any(&mut state.frame.work, second)?;
            }
            Ok(true)
        }
        _ => Ok(false),
    }
}

/// One of two statements goes on (JLS 14.9).
fn choose_stmt<'a>(
    state: &mut State<'a>,
    first: &'a Code,
    second: &'a Option<Boxed<Code>>,
) -> Result<bool, OutOfMemory>
    ensures { IfOk result (λ went. Follows (with_one state.old.frame.values state.old (branches (w.Eval (plain_code first.entry.now) ∷ []) (eval_any (m.plain_any_code second.entry.now)))) went state.old state.new) }
{
    match state.frame.values.pop() {
        None => Ok(false),
        Some(value) => branch_stmt(state, value, first, second),
    }
}

fn and_also_of<'a>(
    state: &mut State<'a>,
    value: Value<'a>,
    right: &'a Code,
) -> Result<bool, OutOfMemory>
    ensures { IfOk result (λ went. Follows (and_also (plain_code right.entry.now) value.entry state.old) went state.old state.new) }
{
    match value {
        Value::Bool(answer) => {
            if !answer {
                return push(state, Value::Bool(false));
            }
            push_eval(&mut state.frame.work, right)?;
            Ok(true)
        }
        _ => Ok(false),
    }
}

/// After the left operand of `&&` (JLS 15.23).
fn and_also<'a>(state: &mut State<'a>, right: &'a Code) -> Result<bool, OutOfMemory>
    ensures { IfOk result (λ went. Follows (with_one state.old.frame.values state.old (and_also (plain_code right.entry.now))) went state.old state.new) }
{
    match state.frame.values.pop() {
        None => Ok(false),
        Some(value) => and_also_of(state, value, right),
    }
}

fn or_else_of<'a>(
    state: &mut State<'a>,
    value: Value<'a>,
    right: &'a Code,
) -> Result<bool, OutOfMemory>
    ensures { IfOk result (λ went. Follows (or_else (plain_code right.entry.now) value.entry state.old) went state.old state.new) }
{
    match value {
        Value::Bool(answer) => {
            if answer {
                return push(state, Value::Bool(true));
            }
            push_eval(&mut state.frame.work, right)?;
            Ok(true)
        }
        _ => Ok(false),
    }
}

/// After the left operand of `||` (JLS 15.24).
fn or_else<'a>(state: &mut State<'a>, right: &'a Code) -> Result<bool, OutOfMemory>
    ensures { IfOk result (λ went. Follows (with_one state.old.frame.values state.old (or_else (plain_code right.entry.now))) went state.old state.new) }
{
    match state.frame.values.pop() {
        None => Ok(false),
        Some(value) => or_else_of(state, value, right),
    }
}

fn finish_binary<'a>(
    state: &mut State<'a>,
    alloc: Global,
    op: BinaryOp,
) -> Result<bool, OutOfMemory>
    ensures { IfOk result (λ went. Follows (with_two state.old.frame.values state.old (λ a b s. settled (binary s.heap op a b) s)) went state.old state.new) }
{
    let Some(right) = state.frame.values.pop() else {
        return Ok(false);
    };
    let Some(left) = state.frame.values.pop() else {
        return Ok(false);
    };
    let outcome = binary(alloc, state.heap.as_slice(), op, &left, &right)?;
    settle(state, alloc, outcome)
}

fn finish_unary<'a>(state: &mut State<'a>, alloc: Global, op: UnaryOp) -> Result<bool, OutOfMemory>
    ensures { IfOk result (λ went. Follows (with_one state.old.frame.values state.old (λ a s. settled (unary op a) s)) went state.old state.new) }
{
    let Some(value) = state.frame.values.pop() else {
        return Ok(false);
    };
    let outcome = unary(op, &value);
    settle(state, alloc, outcome)
}

/// A type of a program.
#[derive(Clone, Copy)]
struct TypeIn<'p, 'a> {
    program: &'p Program<'a>,
    ty: &'p Ty,
}

fn test_of<'a>(
    state: &mut State<'a>,
    alloc: Global,
    of: &TypeIn<'_, 'a>,
    value: Value<'a>,
) -> Result<bool, OutOfMemory>
    ensures { IfOk result (λ went. Follows (tests of.now.program.now (plain_ty of.now.ty.now) value.entry state.old) went state.old state.new) }
{
    match value {
        Value::Null => push(state, Value::Bool(false)),
        value => {
            let program = of.program;
            let answer = program.is_instance(alloc, state.heap.as_slice(), &value, of.ty)?;
            push(state, Value::Bool(answer))
        }
    }
}

/// `value instanceof ty` (JLS 15.20.2).
fn test<'a>(
    state: &mut State<'a>,
    alloc: Global,
    program: &Program<'a>,
    ty: &Ty,
) -> Result<bool, OutOfMemory>
    ensures { IfOk result (λ went. Follows (with_one state.old.frame.values state.old (tests program.now (plain_ty ty.now))) went state.old state.new) }
{
    match state.frame.values.pop() {
        None => Ok(false),
        Some(value) => test_of(state, alloc, &TypeIn { program, ty }, value),
    }
}

/// A narrowing conversion of references is checked (JLS 5.1.5).
fn cast_object<'a>(
    state: &mut State<'a>,
    alloc: Global,
    of: &TypeIn<'_, 'a>,
    value: Value<'a>,
) -> Result<bool, OutOfMemory>
    ensures { IfOk result (λ went. Follows (casts_object of.now.program.now (plain_ty of.now.ty.now) value.entry state.old) went state.old state.new) }
{
    match value {
        Value::Null => push(state, Value::Null),
        value => {
            let program = of.program;
            if program.is_instance(alloc, state.heap.as_slice(), &value, of.ty)? {
                push(state, value)
            } else {
                raise(state, alloc, Fault::ClassCast)
            }
        }
    }
}

fn cast_value<'a>(
    state: &mut State<'a>,
    alloc: Global,
    of: &TypeIn<'_, 'a>,
    value: Value<'a>,
) -> Result<bool, OutOfMemory>
    ensures { IfOk result (λ went. Follows (casts of.now.program.now (plain_ty of.now.ty.now) value.entry state.old) went state.old state.new) }
{
    match of.ty {
        Ty::Class(_) | Ty::Array(_) => cast_object(state, alloc, of, value),
        Ty::Boolean | Ty::Byte | Ty::Short | Ty::Char | Ty::Int | Ty::Long | Ty::Null | Ty::Void =>
            {
                let outcome = converted_to(of.ty, &value);
                settle(state, alloc, outcome)
            }
    }
}

fn cast<'a>(
    state: &mut State<'a>,
    alloc: Global,
    program: &Program<'a>,
    ty: &Ty,
) -> Result<bool, OutOfMemory>
    ensures { IfOk result (λ went. Follows (with_one state.old.frame.values state.old (casts program.now (plain_ty ty.now))) went state.old state.new) }
{
    match state.frame.values.pop() {
        None => Ok(false),
        Some(value) => cast_value(state, alloc, &TypeIn { program, ty }, value),
    }
}

fn read_length<'a>(state: &mut State<'a>, alloc: Global) -> Result<bool, OutOfMemory>
    ensures { IfOk result (λ went. Follows (with_one state.old.frame.values state.old (λ a s. settled (length_of s.heap a) s)) went state.old state.new) }
{
    let Some(array) = state.frame.values.pop() else {
        return Ok(false);
    };
    let outcome = length_of(state.heap.as_slice(), &array);
    settle(state, alloc, outcome)
}

/// An object that is no string is shown by its `toString` (JLS 5.1.11).
fn show_other<'a>(
    state: &mut State<'a>,
    alloc: Global,
    program: &Program<'a>,
    value: Value<'a>,
) -> Result<bool, OutOfMemory>
    ensures { IfOk result (λ went. Follows (shows_object program.now None value.entry state.old) went state.old state.new) }
{
    match value {
        Value::Null => push(state, Value::Null),
        value => call_on(
            state,
            alloc,
            program,
            to_string_method(),
            value,
            Stack::new(alloc),
        ),
    }
}

/// An object is shown by its `toString` (JLS 5.1.11, 15.18.1.1).
fn show_object<'a>(
    state: &mut State<'a>,
    alloc: Global,
    program: &Program<'a>,
    value: Value<'a>,
) -> Result<bool, OutOfMemory>
    ensures { IfOk result (λ went. Follows (shows_object program.now (units_of state.old.heap value.entry) value.entry state.old) went state.old state.new) }
{
    match units_of(state.heap.as_slice(), &value) {
        Some(_) => push(state, value),
        None => show_other(state, alloc, program, value),
    }
}

fn show<'a>(
    state: &mut State<'a>,
    alloc: Global,
    program: &Program<'a>,
) -> Result<bool, OutOfMemory>
    ensures { IfOk result (λ went. Follows (with_one state.old.frame.values state.old (λ a s. shows program.now (text_of a) a s)) went state.old state.new) }
{
    let Some(value) = state.frame.values.pop() else {
        return Ok(false);
    };
    match text_of(alloc, &value)? {
        Some(text) => settle(state, alloc, Outcome::Makes(text)),
        None => show_object(state, alloc, program, value),
    }
}

fn push_instance<'a>(
    state: &mut State<'a>,
    program: &Program<'a>,
    class: TypeId,
) -> Result<bool, OutOfMemory>
    ensures { IfOk result (λ went. Follows (pushes_any (instance_of program.now state.old.heap class state.old.frame.class state.old.frame.this) state.old) went state.old state.new) }
{
    match program.instance_of(
        state.heap.as_slice(),
        class,
        state.frame.class,
        &state.frame.this,
    ) {
        None => Ok(false),
        Some(value) => push(state, value),
    }
}

/// A declared local gets its initial value, if it has one (JLS 14.4).
fn declare<'a>(
    state: &mut State<'a>,
    local: DeclId,
    init: &Option<Boxed<Code>>,
) -> Result<bool, OutOfMemory>
    ensures { IfOk result (λ went. Follows (declares local (m.plain_any_code init.now) state.old) went state.old state.new) }
{
    match init {
        None => Ok(true),
        Some(_) => match state.frame.values.pop() {
            None => Ok(false),
            Some(value) => {
                set_local(state, local, value)?;
                Ok(true)
            }
        },
    }
}

fn repeat_of<'a>(
    state: &mut State<'a>,
    value: Value<'a>,
    code: &'a Code,
    body: &'a Code,
) -> Result<bool, OutOfMemory>
    ensures { IfOk result (λ went. Follows (branches (w.Eval (plain_code body.entry.now) ∷ w.AfterBody (plain_code code.entry.now) ∷ []) [] value.entry state.old) went state.old state.new) }
{
    match value {
        Value::Bool(answer) => {
            if !answer {
                return Ok(true);
            }
            push_after_body(&mut state.frame.work, code)?;
            push_eval(&mut state.frame.work, body)?;
            Ok(true)
        }
        _ => Ok(false),
    }
}

/// After the condition of a loop (JLS 14.12, 14.13, 14.14).
fn repeat<'a>(state: &mut State<'a>, code: &'a Code, body: &'a Code) -> Result<bool, OutOfMemory>
    ensures { IfOk result (λ went. Follows (loops (plain_code code.entry.now) (plain_code body.entry.now) state.old) went state.old state.new) }
{
    match state.frame.values.pop() {
        None => Ok(false),
        Some(value) => repeat_of(state, value, code, body),
    }
}

fn drop_value<'a>(state: &mut State<'a>) -> Result<bool, OutOfMemory>
    ensures { IfOk result (λ went. Follows (with_one state.old.frame.values state.old (λ dropped s. Some s)) went state.old state.new) }
{
    match state.frame.values.pop() {
        None => Ok(false),
        Some(_) => Ok(true),
    }
}

/// A switch goes on at its case or its default (JLS 14.11).
#[tactic(auto, using(jr_machine_ops::proofs::Counting::append_one))]
fn switch<'a>(state: &mut State<'a>, groups: &'a [Group]) -> Result<bool, OutOfMemory>
    ensures { IfOk result (λ went. Follows (with_one state.old.frame.values state.old (λ a s. switches (m.plain_groups groups.entry.now) (number_of a) s)) went state.old state.new) }
{
    let Some(value) = state.frame.values.pop() else {
        return Ok(false);
    };
    match number_of(&value) {
        Some(Number::Int(value)) => {
            state.frame.work.push(Work::Breakable)?;
            push_groups(&mut state.frame.work, chosen(value, groups))?;
            Ok(true)
        }
        Some(Number::Long(_)) | None => Ok(false),
    }
}

/// A return, with its value, if it has one (JLS 14.17).
fn finish_return<'a>(
    state: &mut State<'a>,
    value: &Option<Boxed<Code>>,
) -> Result<bool, OutOfMemory>
    ensures { IfOk result (λ went. Follows (returns (m.plain_any_code value.now) state.old) went state.old state.new) }
{
    match value {
        None => {
            state
                .frame
                .work
                .push(Work::Exiting(Exit::Return(Value::Void)))?;
            Ok(true)
        }
        Some(_) => match state.frame.values.pop() {
            None => Ok(false),
            Some(value) => {
                state.frame.work.push(Work::Exiting(Exit::Return(value)))?;
                Ok(true)
            }
        },
    }
}

fn throw_any<'a>(
    state: &mut State<'a>,
    alloc: Global,
    value: Value<'a>,
) -> Result<bool, OutOfMemory>
    ensures { IfOk result (λ went. Follows (throws_any value.entry state.old) went state.old state.new) }
{
    match value {
        Value::Null => raise(state, alloc, Fault::NullPointer),
        value => {
            throw(state, value)?;
            Ok(true)
        }
    }
}

/// A throw; null is checked (JLS 14.18).
fn finish_throw<'a>(state: &mut State<'a>, alloc: Global) -> Result<bool, OutOfMemory>
    ensures { IfOk result (λ went. Follows (with_one state.old.frame.values state.old throws_any) went state.old state.new) }
{
    match state.frame.values.pop() {
        None => Ok(false),
        Some(value) => throw_any(state, alloc, value),
    }
}

/// The `finally` of a `try` that completed normally (JLS 14.20.2).
pub fn finish_try<'a>(
    state: &mut State<'a>,
    last: &'a Option<Items<Code>>,
) -> Result<bool, OutOfMemory>
    ensures { IfOk result (λ went. Follows (Some (add_work (finally_work (m.plain_any_codes last.entry.now)) state.old)) went state.old state.new) }
{
    match last {
        None => Ok(true),
        Some(last) => {
            push_codes(&mut state.frame.work, last.as_slice())?;
            Ok(true)
        }
    }
}

/// A call, after its arguments (JLS 15.12.4).
fn finish_call<'a>(
    state: &mut State<'a>,
    alloc: Global,
    program: &Program<'a>,
    receiver: &Option<Boxed<Code>>,
    is_super: bool,
    method: DeclId,
    args: &[Code],
) -> Result<bool, OutOfMemory>
    ensures { IfOk result (λ went. Follows (with_some (codes_count (plain_codes args.now)) [] state.old.frame.values state.old (calls program.now (body_in program.now method) (m.plain_any_code receiver.now) is_super)) went state.old state.new) }
{
    let Some(args) = take_args(state, alloc, args)? else {
        return Ok(false);
    };
    match program.body(method) {
        None => Ok(false),
        Some(body) => call(state, alloc, program, body, receiver, is_super, args),
    }
}

/// A creation, after its arguments (JLS 15.9.4).
fn finish_new<'a>(
    state: &mut State<'a>,
    alloc: Global,
    program: &Program<'a>,
    outer: &Option<Boxed<Code>>,
    ctor: DeclId,
    args: &[Code],
) -> Result<bool, OutOfMemory>
    ensures { IfOk result (λ went. Follows (with_some (codes_count (plain_codes args.now)) [] state.old.frame.values state.old (creates_any (body_in program.now ctor) (m.plain_any_code outer.now))) went state.old state.new) }
{
    let Some(args) = take_args(state, alloc, args)? else {
        return Ok(false);
    };
    match program.body(ctor) {
        None => Ok(false),
        Some(body) => create_any(state, alloc, body, outer, args),
    }
}

/// A call of a constructor, after its arguments (JLS 8.8.7).
fn finish_ctor<'a>(
    state: &mut State<'a>,
    alloc: Global,
    program: &Program<'a>,
    is_super: bool,
    ctor: DeclId,
    args: &[Code],
) -> Result<bool, OutOfMemory>
    ensures { IfOk result (λ went. Follows (with_some (codes_count (plain_codes args.now)) [] state.old.frame.values state.old (constructs program.now (body_in program.now ctor) is_super)) went state.old state.new) }
{
    let Some(args) = take_args(state, alloc, args)? else {
        return Ok(false);
    };
    match program.body(ctor) {
        None => Ok(false),
        Some(body) => construct(state, alloc, program, body, is_super, args),
    }
}

/// A creation of an array, after its dimensions or its items (JLS 15.10, 10.6).
fn finish_array<'a>(
    state: &mut State<'a>,
    alloc: Global,
    ty: &'a Ty,
    dims: &[Code],
    init: &Option<Items<Code>>,
) -> Result<bool, OutOfMemory>
    ensures { IfOk result (λ went. Follows (creates_array (plain_ty ty.entry.now) (plain_codes dims.now) (m.plain_any_codes init.now) state.old) went state.old state.new) }
{
    match init {
        None => match take_args(state, alloc, dims)? {
            None => Ok(false),
            Some(dims) => make_arrays(state, alloc, ty, dims),
        },
        Some(items) => match take_args(state, alloc, items.as_slice())? {
            None => Ok(false),
            Some(items) => make_array(state, alloc, ty, items),
        },
    }
}

/// Takes the values of these arguments off.
#[tactic(auto, using(jr_machine_ops::proofs::Counting::count_length))]
fn take_args<'a>(
    state: &mut State<'a>,
    alloc: Global,
    args: &[Code],
) -> Result<Option<Stack<Value<'a>>>, OutOfMemory>
    ensures { IfOk result (λ taken. TakesArgs (plain_codes args.now) state.old taken state.new) }
{
    take(&mut state.frame.values, alloc, args.len())
}

/// The finishing item of this code acts.
pub fn finish<'a>(
    state: &mut State<'a>,
    alloc: Global,
    program: &Program<'a>,
    code: &'a Code,
) -> Result<bool, OutOfMemory>
    ensures { IfOk result (λ went. Follows (finishes program.now (plain_code code.entry.now) state.old) went state.old state.new) }
{
    match code {
        Code::Assign { target, op, .. } => assign_any(state, alloc, program, target.get(), *op),
        Code::Cond { yes, no, .. } => choose(state, yes.get(), no.get()),
        Code::AndAlso { right, .. } => and_also(state, right.get()),
        Code::OrElse { right, .. } => or_else(state, right.get()),
        Code::Binary { op, .. } => finish_binary(state, alloc, *op),
        Code::IsA { ty, .. } => test(state, alloc, program, ty),
        Code::Unary { op, .. } => finish_unary(state, alloc, *op),
        Code::Cast { ty, .. } => cast(state, alloc, program, ty),
        Code::PreStep { op, target } => step_target(
            state,
            alloc,
            program,
            target.get(),
            *op,
            false,
        ),
        Code::PostStep { target, op } => step_target(
            state,
            alloc,
            program,
            target.get(),
            *op,
            true,
        ),
        Code::This { class } => push_instance(state, program, *class),
        Code::FieldAt { on, field } => read_field(state, alloc, program, on, *field),
        Code::Length { .. } => read_length(state, alloc),
        Code::Index { .. } => read_item(state, alloc),
        Code::Call {
            receiver,
            is_super,
            method,
            args,
        } => finish_call(
            state,
            alloc,
            program,
            receiver,
            *is_super,
            *method,
            args.as_slice(),
        ),
        Code::New { outer, ctor, args } => finish_new(
            state,
            alloc,
            program,
            outer,
            *ctor,
            args.as_slice(),
        ),
        Code::NewArray { ty, dims, init } => finish_array(state, alloc, ty, dims.as_slice(), init),
        Code::Show { .. } => show(state, alloc, program),
        Code::Local { local, init } => declare(state, *local, init),
        Code::Nest { .. } | Code::Skip | Code::Labeled { .. } => Ok(true),
        Code::Do { body, .. } => repeat(state, code, body.get()),
        Code::While { body, .. } => repeat(state, code, body.get()),
        Code::For { body, .. } => repeat(state, code, body.get()),
        Code::If { yes, no, .. } => choose_stmt(state, yes.get(), no),
        Code::Eval { .. } => drop_value(state),
        Code::Switch { groups, .. } => switch(state, groups.as_slice()),
        Code::Return { value } => finish_return(state, value),
        Code::Throw { .. } => finish_throw(state, alloc),
        Code::Try { last, .. } => finish_try(state, last),
        Code::CtorCall {
            is_super,
            ctor,
            args,
        } => finish_ctor(state, alloc, program, *is_super, *ctor, args.as_slice()),
        Code::Lit { .. } | Code::Var { .. } | Code::Break { .. } | Code::Continue { .. } => Ok(
            false,
        ),
    }
}
