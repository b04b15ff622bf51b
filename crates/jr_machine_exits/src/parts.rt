// What code is replaced by (JLS 14, 15.7).
ghost use Rattle.std.specs.Prelude.{◌≡◌, [], ◌∷◌, ◌++◌, OnOk};
ghost use Rattle.jr_core.specs.Mirror as m;
ghost use Rattle.jr_core.specs.Mirror.{plain_code, plain_codes};
ghost use Rattle.jr_machine_defs.specs.declared.work.Work.TheVariants as w;
ghost use Rattle.jr_machine_defs.specs.declared.work.Exit.TheVariants as exit;
ghost use Rattle.jr_machine_defs.specs.Parts.{evals, eval_any, literal, plain_target, old_target, assign_target, target_parts, for_turn, new_array_parts, parts, after_body};

use jr_base::{Boxed, Const, DeclId, Items, OutOfMemory};
use jr_core::{BinaryOp, Code};
use jr_machine_defs::{CodeRef, Exit, Stack, UnitsRef, Value, Work};
use jr_machine_ops::{push_codes, push_eval};

/// The value of a literal (JLS 15.8.1, 3.10.5).
pub fn literal<'a>(value: &'a Option<Const>) -> Value<'a>
    ensures { result ≡ literal value.entry.now }
{
    match value {
        None => Value::Null,
        Some(Const::Bool(value)) => Value::Bool(*value),
        Some(Const::Byte(value)) => Value::Byte(*value),
        Some(Const::Short(value)) => Value::Short(*value),
        Some(Const::Char(unit)) => Value::Char(*unit),
        Some(Const::Int(value)) => Value::Int(*value),
        Some(Const::Long(value)) => Value::Long(*value),
        Some(Const::Str(units)) => Value::Text(UnitsRef::new(units)),
    }
}

/// Puts the finishing item of this code on top.
pub fn push_finish<'a>(stack: &mut Stack<Work<'a>>, code: &'a Code) -> Result<(), OutOfMemory>
    ensures { OnOk result (stack.new ≡ w.Finish (plain_code code.entry.now) ∷ stack.old) }
{
    stack.push(Work::Finish(CodeRef::new(code)))
}

/// Puts what follows the body of this loop on top.
pub fn push_after_body<'a>(stack: &mut Stack<Work<'a>>, code: &'a Code) -> Result<(), OutOfMemory>
    ensures { OnOk result (stack.new ≡ w.AfterBody (plain_code code.entry.now) ∷ stack.old) }
{
    stack.push(Work::AfterBody(CodeRef::new(code)))
}

/// Puts code on top, if there is some.
pub fn push_any<'a>(
    stack: &mut Stack<Work<'a>>,
    code: &'a Option<Boxed<Code>>,
) -> Result<(), OutOfMemory>
    ensures { OnOk result (stack.new ≡ eval_any (m.plain_any_code code.entry.now) ++ stack.old) }
{
    match code {
        None => Ok(()),
        Some(code) => push_eval(stack, code.get()),
    }
}

/// Puts one part and the finishing item on top.
fn push_one<'a>(
    stack: &mut Stack<Work<'a>>,
    part: &'a Code,
    code: &'a Code,
) -> Result<(), OutOfMemory>
    ensures { OnOk result (stack.new ≡ w.Eval (plain_code part.entry.now) ∷ w.Finish (plain_code code.entry.now) ∷ stack.old) }
{
    push_finish(stack, code)?;
    push_eval(stack, part)
}

/// Puts two parts and the finishing item on top.
fn push_two<'a>(
    stack: &mut Stack<Work<'a>>,
    first: &'a Code,
    second: &'a Code,
    code: &'a Code,
) -> Result<(), OutOfMemory>
    ensures { OnOk result (stack.new ≡ w.Eval (plain_code first.entry.now) ∷ w.Eval (plain_code second.entry.now) ∷ w.Finish (plain_code code.entry.now) ∷ stack.old) }
{
    push_one(stack, second, code)?;
    push_eval(stack, first)
}

/// Puts these parts and the finishing item on top.
fn push_all<'a>(
    stack: &mut Stack<Work<'a>>,
    codes: &'a [Code],
    code: &'a Code,
) -> Result<(), OutOfMemory>
    ensures { OnOk result (stack.new ≡ evals (plain_codes codes.entry.now) ++ w.Finish (plain_code code.entry.now) ∷ stack.old) }
{
    push_finish(stack, code)?;
    push_codes(stack, codes)
}

/// Puts a part, if there is one, and the finishing item on top.
fn push_maybe<'a>(
    stack: &mut Stack<Work<'a>>,
    part: &'a Option<Boxed<Code>>,
    code: &'a Code,
) -> Result<(), OutOfMemory>
    ensures { OnOk result (stack.new ≡ eval_any (m.plain_any_code part.entry.now) ++ w.Finish (plain_code code.entry.now) ∷ stack.old) }
{
    push_finish(stack, code)?;
    push_any(stack, part)
}

/// Puts a part, if there is one, then others, and the finishing item on top.
fn push_maybe_all<'a>(
    stack: &mut Stack<Work<'a>>,
    part: &'a Option<Boxed<Code>>,
    codes: &'a [Code],
    code: &'a Code,
) -> Result<(), OutOfMemory>
    ensures { OnOk result (stack.new ≡ eval_any (m.plain_any_code part.entry.now) ++ (evals (plain_codes codes.entry.now) ++ w.Finish (plain_code code.entry.now) ∷ stack.old)) }
{
    push_all(stack, codes, code)?;
    push_any(stack, part)
}

/// Puts the target of a plain assignment on top (JLS 15.26.1).
fn push_plain_target<'a>(stack: &mut Stack<Work<'a>>, target: &'a Code) -> Result<(), OutOfMemory>
    ensures { OnOk result (stack.new ≡ plain_target (plain_code target.entry.now) ++ stack.old) }
{
    match target {
        Code::Var { .. } => Ok(()),
        target => stack.push(Work::Target(CodeRef::new(target))),
    }
}

/// Puts the target of a compound assignment or a step on top (JLS 15.26.2).
fn push_old_target<'a>(stack: &mut Stack<Work<'a>>, target: &'a Code) -> Result<(), OutOfMemory>
    ensures { OnOk result (stack.new ≡ old_target (plain_code target.entry.now) ++ stack.old) }
{
    match target {
        Code::Var { .. } => push_eval(stack, target),
        target => stack.push(Work::OldValue(CodeRef::new(target))),
    }
}

fn push_assign_target<'a>(
    stack: &mut Stack<Work<'a>>,
    op: Option<BinaryOp>,
    target: &'a Code,
) -> Result<(), OutOfMemory>
    ensures { OnOk result (stack.new ≡ assign_target op (plain_code target.entry.now) ++ stack.old) }
{
    match op {
        None => push_plain_target(stack, target),
        Some(_) => push_old_target(stack, target),
    }
}

/// Puts the parts of a target on top.
pub fn push_target_parts<'a>(
    stack: &mut Stack<Work<'a>>,
    target: &'a Code,
) -> Result<(), OutOfMemory>
    ensures { OnOk result (stack.new ≡ target_parts (plain_code target.entry.now) ++ stack.old) }
{
    match target {
        Code::FieldAt { on, .. } => push_any(stack, on),
        Code::Index { array, at } => {
            push_eval(stack, at.get())?;
            push_eval(stack, array.get())
        }
        _ => Ok(()),
    }
}

/// Puts the condition of a loop and the loop itself on top, or where it has no condition its body.
fn push_for_turn<'a>(
    stack: &mut Stack<Work<'a>>,
    code: &'a Code,
    cond: &'a Option<Boxed<Code>>,
    body: &'a Code,
) -> Result<(), OutOfMemory>
    ensures { OnOk result (stack.new ≡ for_turn (plain_code code.entry.now) (m.plain_any_code cond.entry.now) (plain_code body.entry.now) ++ stack.old) }
{
    match cond {
        None => {
            push_after_body(stack, code)?;
            push_eval(stack, body)
        }
        Some(cond) => push_one(stack, cond.get(), code),
    }
}

/// Puts the parts of a creation of an array and its finishing item on top.
fn push_new_array<'a>(
    stack: &mut Stack<Work<'a>>,
    dims: &'a Items<Code>,
    init: &'a Option<Items<Code>>,
    code: &'a Code,
) -> Result<(), OutOfMemory>
    ensures { OnOk result (stack.new ≡ new_array_parts (plain_codes dims.entry.now) (m.plain_any_codes init.entry.now) ++ w.Finish (plain_code code.entry.now) ∷ stack.old) }
{
    match init {
        None => push_all(stack, dims.as_slice(), code),
        Some(items) => push_all(stack, items.as_slice(), code),
    }
}

/// Puts the target, the value and the finishing item of an assignment on top.
fn push_assign<'a>(
    stack: &mut Stack<Work<'a>>,
    target: &'a Code,
    op: Option<BinaryOp>,
    value: &'a Code,
    code: &'a Code,
) -> Result<(), OutOfMemory>
    ensures { OnOk result (stack.new ≡ assign_target op (plain_code target.entry.now) ++ w.Eval (plain_code value.entry.now) ∷ w.Finish (plain_code code.entry.now) ∷ stack.old) }
{
    push_one(stack, value, code)?;
    push_assign_target(stack, op, target)
}

/// Puts the target and the finishing item of a step on top.
fn push_step<'a>(
    stack: &mut Stack<Work<'a>>,
    target: &'a Code,
    code: &'a Code,
) -> Result<(), OutOfMemory>
    ensures { OnOk result (stack.new ≡ old_target (plain_code target.entry.now) ++ w.Finish (plain_code code.entry.now) ∷ stack.old) }
{
    push_finish(stack, code)?;
    push_old_target(stack, target)
}

/// Puts what a `for` begins with on top.
fn push_for<'a>(
    stack: &mut Stack<Work<'a>>,
    first: &'a [Code],
    code: &'a Code,
    cond: &'a Option<Boxed<Code>>,
    body: &'a Code,
) -> Result<(), OutOfMemory>
    ensures { OnOk result (stack.new ≡ evals (plain_codes first.entry.now) ++ (for_turn (plain_code code.entry.now) (m.plain_any_code cond.entry.now) (plain_code body.entry.now) ++ stack.old)) }
{
    push_for_turn(stack, code, cond, body)?;
    push_codes(stack, first)
}

/// Puts the body of a `do` on top, and what follows it.
fn push_do<'a>(
    stack: &mut Stack<Work<'a>>,
    body: &'a Code,
    code: &'a Code,
) -> Result<(), OutOfMemory>
    ensures { OnOk result (stack.new ≡ w.Eval (plain_code body.entry.now) ∷ w.AfterBody (plain_code code.entry.now) ∷ stack.old) }
{
    push_after_body(stack, code)?;
    push_eval(stack, body)
}

fn push_break<'a>(stack: &mut Stack<Work<'a>>, label: Option<DeclId>) -> Result<(), OutOfMemory>
    ensures { OnOk result (stack.new ≡ w.Exiting (exit.Break label) ∷ stack.old) }
{
    stack.push(Work::Exiting(Exit::Break(label)))
}

fn push_continue<'a>(stack: &mut Stack<Work<'a>>, label: Option<DeclId>) -> Result<(), OutOfMemory>
    ensures { OnOk result (stack.new ≡ w.Exiting (exit.Continue label) ∷ stack.old) }
{
    stack.push(Work::Exiting(Exit::Continue(label)))
}

/// Puts the parts of code and its finishing item on top.
pub fn push_parts<'a>(stack: &mut Stack<Work<'a>>, code: &'a Code) -> Result<(), OutOfMemory>
    ensures { OnOk result (stack.new ≡ parts (plain_code code.entry.now) ++ stack.old) }
{
    match code {
        Code::Assign { target, op, value } => push_assign(
            stack,
            target.get(),
            *op,
            value.get(),
            code,
        ),
        Code::Cond { cond, .. } => push_one(stack, cond.get(), code),
        Code::AndAlso { left, .. } => push_one(stack, left.get(), code),
        Code::OrElse { left, .. } => push_one(stack, left.get(), code),
        Code::Binary { left, right, .. } => push_two(stack, left.get(), right.get(), code),
        Code::IsA { value, .. } => push_one(stack, value.get(), code),
        Code::Unary { value, .. } => push_one(stack, value.get(), code),
        Code::Cast { value, .. } => push_one(stack, value.get(), code),
        Code::PreStep { target, .. } => push_step(stack, target.get(), code),
        Code::PostStep { target, .. } => push_step(stack, target.get(), code),
        Code::Lit { .. } => Ok(()),
        Code::This { .. } => push_finish(stack, code),
        Code::Var { .. } => Ok(()),
        Code::FieldAt { on, .. } => push_maybe(stack, on, code),
        Code::Length { array } => push_one(stack, array.get(), code),
        Code::Index { array, at } => push_two(stack, array.get(), at.get(), code),
        Code::Call { receiver, args, .. } => push_maybe_all(stack, receiver, args.as_slice(), code),
        Code::New { outer, args, .. } => push_maybe_all(stack, outer, args.as_slice(), code),
        Code::NewArray { dims, init, .. } => push_new_array(stack, dims, init, code),
        Code::Show { value } => push_one(stack, value.get(), code),
        Code::Nest { stmts } => push_all(stack, stmts.as_slice(), code),
        Code::Local { init, .. } => push_maybe(stack, init, code),
        Code::Skip => push_finish(stack, code),
        Code::Do { body, .. } => push_do(stack, body.get(), code),
        Code::While { cond, .. } => push_one(stack, cond.get(), code),
        Code::If { cond, .. } => push_one(stack, cond.get(), code),
        Code::Eval { value } => push_one(stack, value.get(), code),
        Code::For {
            first,
            cond,
            body,
            ..
        } => push_for(stack, first.as_slice(), code, cond, body.get()),
        Code::Switch { value, .. } => push_one(stack, value.get(), code),
        Code::Labeled { body, .. } => push_one(stack, body.get(), code),
        Code::Break { label } => push_break(stack, *label),
        Code::Continue { label } => push_continue(stack, *label),
        Code::Return { value } => push_maybe(stack, value, code),
        Code::Throw { value } => push_one(stack, value.get(), code),
        Code::Try { body, .. } => push_all(stack, body.as_slice(), code),
        Code::CtorCall { args, .. } => push_all(stack, args.as_slice(), code),
    }
}

/// Puts what follows the body of a loop on top: its update, its condition and the loop itself.
pub fn push_turn<'a>(stack: &mut Stack<Work<'a>>, code: &'a Code) -> Result<(), OutOfMemory>
    ensures { OnOk result (stack.new ≡ after_body (plain_code code.entry.now) ++ stack.old) }
{
    match code {
        Code::While { cond, .. } => push_one(stack, cond.get(), code),
        Code::Do { cond, .. } => push_one(stack, cond.get(), code),
        Code::For {
            cond,
            update,
            body,
            ..
        } => push_for(stack, update.as_slice(), code, cond, body.get()),
        _ => Ok(()),
    }
}
