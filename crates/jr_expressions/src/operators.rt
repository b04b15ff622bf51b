// Expressions with operators (JLS 15.14 to 15.26).
ghost use Rattle.std.specs.Prelude.{◌≡◌, ◌<◌, ◌^◌, Some, IfOk, OnOk, length};
ghost use Rattle.jr_core.specs.declared.code.Code.TheVariants as c;
ghost use Rattle.jr_plain.specs.Types as types;
ghost use Rattle.jr_codes.specs.Conversions as plain_conversions;
ghost use Rattle.jr_codes.specs.Making.{of_one, of_two_parts, code, code_if};
ghost use Rattle.jr_codes.specs.Waiting.{waiting};
ghost use Rattle.jr_expressions.specs.Expressions as made;
ghost use Rattle.jr_codes.specs.Reads.{rows_of, table_of, facts, Becomes};

use crate::conversions::{converted, shown};
use jr_base::{OutOfMemory, Symbol};
use jr_codes::{Parts, Source, binary_operator, is_plus, step_operator, type_of, unary_operator};
use jr_core::Code;
use jr_defs::RowType;
use jr_supers::is_reference;
use jr_types::operator_of;

// `left && right`
fn and_also(source: &Source, codes: &mut Parts<Code>, at: u32) -> Result<(), OutOfMemory>
    ensures { OnOk result (Becomes source.now at (λ parts. of_two_parts parts (λ m a k b. code (c.AndAlso a b))) (waiting codes.old) (waiting codes.new)) }
{
    let left = codes.boxed(source.alloc, source.first(at))?;
    let right = codes.boxed(source.alloc, source.second(at))?;
    codes.push(at, Code::AndAlso { left, right })
}

// `left || right`
fn or_else(source: &Source, codes: &mut Parts<Code>, at: u32) -> Result<(), OutOfMemory>
    ensures { OnOk result (Becomes source.now at (λ parts. of_two_parts parts (λ m a k b. code (c.OrElse a b))) (waiting codes.old) (waiting codes.new)) }
{
    let left = codes.boxed(source.alloc, source.first(at))?;
    let right = codes.boxed(source.alloc, source.second(at))?;
    codes.push(at, Code::OrElse { left, right })
}

// The operator is `+`, and the row is a string.
fn is_joined(source: &Source, op: Symbol, at: u32) -> Result<bool, OutOfMemory>
    ensures { IfOk result (λ joined. made.is_joined op (facts source.now) at ≡ Some joined) }
{
    if is_plus(op) {
        source.is_string(at)
    } else {
        Ok(false)
    }
}

fn strict(source: &Source, codes: &mut Parts<Code>, at: u32, op: Symbol) -> Result<(), OutOfMemory>
    ensures { OnOk result (Becomes source.now at (λ parts. made.strict_made op (facts source.now) at parts) (waiting codes.old) (waiting codes.new)) }
{
    let joined = is_joined(source, op, at)?;
    let op = binary_operator(op)?;
    let left = shown(source, codes, source.first(at), joined)?;
    let right = shown(source, codes, source.second(at), joined)?;
    codes.push(at, Code::Binary { left, op, right })
}

/// `left op right`
pub fn binary(
    source: &Source,
    codes: &mut Parts<Code>,
    at: u32,
    op: Symbol,
) -> Result<(), OutOfMemory>
    ensures { OnOk result (Becomes source.now at (λ parts. made.binary_made op (facts source.now) at parts) (waiting codes.old) (waiting codes.new)) }
{
    match op {
        Symbol::AndAnd => and_also(source, codes, at),
        Symbol::OrOr => or_else(source, codes, at),
        _ => strict(source, codes, at, op),
    }
}

fn compound(
    source: &Source,
    codes: &mut Parts<Code>,
    at: u32,
    sign: Symbol,
) -> Result<(), OutOfMemory>
    ensures { OnOk result (Becomes source.now at (λ parts. made.assign_by (Some sign) (facts source.now) parts) (waiting codes.old) (waiting codes.new)) }
{
    let op = binary_operator(sign)?;
    let first = source.first(at);
    let joined = is_joined(source, sign, first)?;
    let target = codes.boxed(source.alloc, first)?;
    let value = shown(source, codes, source.second(at), joined)?;
    let op = Some(op);
    codes.push(at, Code::Assign { target, op, value })
}

fn plain(source: &Source, codes: &mut Parts<Code>, at: u32) -> Result<(), OutOfMemory>
    ensures { OnOk result (Becomes source.now at (λ parts. made.assign_by None (facts source.now) parts) (waiting codes.old) (waiting codes.new)) }
{
    let first = source.first(at);
    let wanted = source.type_of(first)?;
    let target = codes.boxed(source.alloc, first)?;
    let value = converted(source, codes, source.second(at), wanted)?;
    let op = None;
    codes.push(at, Code::Assign { target, op, value })
}

/// `target = value` or `target op= value`
pub fn assign(
    source: &Source,
    codes: &mut Parts<Code>,
    at: u32,
    sign: Symbol,
) -> Result<(), OutOfMemory>
    ensures { OnOk result (Becomes source.now at (λ parts. made.assign_made sign (facts source.now) parts) (waiting codes.old) (waiting codes.new)) }
{
    match operator_of(sign) {
        Some(op) => compound(source, codes, at, op),
        None => plain(source, codes, at),
    }
}

/// `op value`
pub fn unary(
    source: &Source,
    codes: &mut Parts<Code>,
    at: u32,
    op: Symbol,
) -> Result<(), OutOfMemory>
    ensures { OnOk result (Becomes source.now at (λ parts. made.unary_made op parts) (waiting codes.old) (waiting codes.new)) }
{
    let op = unary_operator(op)?;
    let value = codes.boxed(source.alloc, source.first(at))?;
    codes.push(at, Code::Unary { op, value })
}

/// `op target`
pub fn step_before(
    source: &Source,
    codes: &mut Parts<Code>,
    at: u32,
    op: Symbol,
) -> Result<(), OutOfMemory>
    ensures { OnOk result (Becomes source.now at (λ parts. made.step_before_made op parts) (waiting codes.old) (waiting codes.new)) }
{
    let op = step_operator(op)?;
    let target = codes.boxed(source.alloc, source.first(at))?;
    codes.push(at, Code::PreStep { op, target })
}

/// `target op`
pub fn step_after(
    source: &Source,
    codes: &mut Parts<Code>,
    at: u32,
    op: Symbol,
) -> Result<(), OutOfMemory>
    ensures { OnOk result (Becomes source.now at (λ parts. made.step_after_made op parts) (waiting codes.old) (waiting codes.new)) }
{
    let op = step_operator(op)?;
    let target = codes.boxed(source.alloc, source.first(at))?;
    codes.push(at, Code::PostStep { target, op })
}

/// `cond ? yes : no`
pub fn conditional(source: &Source, codes: &mut Parts<Code>, at: u32) -> Result<(), OutOfMemory>
    ensures { OnOk result (Becomes source.now at (λ parts. made.conditional_made (facts source.now) at parts) (waiting codes.old) (waiting codes.new)) }
{
    let wanted = source.type_of(at)?;
    let cond = codes.boxed(source.alloc, source.first(at))?;
    let yes = converted(source, codes, source.second(at), wanted)?;
    let no = converted(source, codes, source.third(at), wanted)?;
    codes.push(at, Code::Cond { cond, yes, no })
}

// The type that is written at a row.
fn written(source: &Source, at: u32) -> Result<RowType, OutOfMemory>
    ensures { IfOk result (λ ty. length (rows_of source.now) < 2 ^ 32 → types.type_at (rows_of source.now) (table_of source.now) at ≡ Some ty) }
{
    match source.under().type_at(at) {
        Some(ty) => Ok(ty),
        None => Err(OutOfMemory),
    }
}

/// `value instanceof type`
pub fn instance_test(source: &Source, codes: &mut Parts<Code>, at: u32) -> Result<(), OutOfMemory>
    ensures { OnOk result (Becomes source.now at (λ parts. made.instance_test_made (facts source.now) at parts) (waiting codes.old) (waiting codes.new)) }
{
    let tested = written(source, source.second(at))?;
    let value = codes.boxed(source.alloc, source.first(at))?;
    let ty = type_of(source, tested)?;
    codes.push(at, Code::IsA { value, ty })
}

// A cast between reference types; one that widens is no code.
fn reference_cast(
    source: &Source,
    codes: &mut Parts<Code>,
    at: u32,
    to: RowType,
) -> Result<(), OutOfMemory>
    ensures { OnOk result (Becomes source.now at (λ parts. of_one parts (λ m a. code_if (made.reference_cast ((facts source.now).typed m) (facts source.now) to a))) (waiting codes.old) (waiting codes.new)) }
{
    let operand = source.second(at);
    let from = source.type_of(operand)?;
    if source.is_subtype(from, to) {
        return codes.hand_on(operand, at);
    }
    let value = codes.boxed(source.alloc, operand)?;
    let ty = type_of(source, to)?;
    codes.push(at, Code::Cast { ty, value })
}

// A cast to a primitive type.
fn plain_cast(
    source: &Source,
    codes: &mut Parts<Code>,
    at: u32,
    to: RowType,
) -> Result<(), OutOfMemory>
    ensures { OnOk result (Becomes source.now at (λ parts. of_one parts (λ m a. code_if (plain_conversions.converted (facts source.now) m to a))) (waiting codes.old) (waiting codes.new)) }
{
    let value = converted(source, codes, source.second(at), to)?;
    codes.push_boxed(at, value)
}

/// `(type) value`
pub fn cast(source: &Source, codes: &mut Parts<Code>, at: u32) -> Result<(), OutOfMemory>
    ensures { OnOk result (Becomes source.now at (λ parts. made.cast_made (facts source.now) at parts) (waiting codes.old) (waiting codes.new)) }
{
    let to = written(source, source.first(at))?;
    if is_reference(to) {
        reference_cast(source, codes, at, to)
    } else {
        plain_cast(source, codes, at, to)
    }
}
