// What operators make of numbers and booleans (JLS 15.15 to 15.24).

ghost use Rattle.std.specs.Prelude.{◌≡◌};
ghost use Rattle.std.specs.Int.{w32, w64};
ghost use Rattle.jr_base.specs.declared.constant.Const.TheVariants as c;
ghost use Rattle.jr_defs.specs.Operators as defined;
ghost use Rattle.jr_constants.specs.Values.{seen, seen_if};

use crate::value::{Value, as_int, as_long};
use jr_base::Symbol;

// A shift of an int, by less than 32.
fn int_shift(op: Symbol, left: i32, right: i64) -> Option<Value>
    ensures { seen_if result ≡ defined.shift_value w32 32 (λ z. c.Int z) op left right }
{
    let by = (right.cast_unsigned() % 32) as u32;
    match op {
        Symbol::ShiftLeft => Some(Value::Int(left << by)),
        Symbol::ShiftRight => Some(Value::Int(left >> by)),
        Symbol::ShiftRightUnsigned => Some(Value::Int((left.cast_unsigned() >> by).cast_signed())),
        _ => None,
    }
}

// A shift of a long, by less than 64.
fn long_shift(op: Symbol, left: i64, right: i64) -> Option<Value>
    ensures { seen_if result ≡ defined.shift_value w64 64 (λ z. c.Long z) op left right }
{
    let by = (right.cast_unsigned() % 64) as u32;
    match op {
        Symbol::ShiftLeft => Some(Value::Long(left << by)),
        Symbol::ShiftRight => Some(Value::Long(left >> by)),
        Symbol::ShiftRightUnsigned => Some(Value::Long((left.cast_unsigned() >> by).cast_signed())),
        _ => None,
    }
}

fn is_shift(op: Symbol) -> bool
    ensures { result ≡ defined.is_shift op }
{
    match op {
        Symbol::ShiftLeft => true,
        Symbol::ShiftRight => true,
        Symbol::ShiftRightUnsigned => true,
        _ => false,
    }
}

// An operator on two ints; there is no value where the divisor is 0.
fn int_value(op: Symbol, left: i32, right: i32) -> Option<Value>
    ensures { seen_if result ≡ defined.number_value w32 (λ z. c.Int z) op left right }
{
    match op {
        Symbol::Star => Some(Value::Int(left.wrapping_mul(right))),
        Symbol::Slash if right == 0 => None,
        Symbol::Slash => Some(Value::Int(left.wrapping_div(right))),
        Symbol::Percent if right == 0 => None,
        Symbol::Percent => Some(Value::Int(left.wrapping_rem(right))),
        Symbol::Plus => Some(Value::Int(left.wrapping_add(right))),
        Symbol::Minus => Some(Value::Int(left.wrapping_sub(right))),
        Symbol::And => Some(Value::Int(left & right)),
        Symbol::Or => Some(Value::Int(left | right)),
        Symbol::Caret => Some(Value::Int(left ^ right)),
        Symbol::Less => Some(Value::Bool(left < right)),
        Symbol::Greater => Some(Value::Bool(left > right)),
        Symbol::LessEqual => Some(Value::Bool(left <= right)),
        Symbol::GreaterEqual => Some(Value::Bool(left >= right)),
        Symbol::Equal => Some(Value::Bool(left == right)),
        Symbol::NotEqual => Some(Value::Bool(left != right)),
        _ => None,
    }
}

// An operator on two longs; there is no value where the divisor is 0.
fn long_value(op: Symbol, left: i64, right: i64) -> Option<Value>
    ensures { seen_if result ≡ defined.number_value w64 (λ z. c.Long z) op left right }
{
    match op {
        Symbol::Star => Some(Value::Long(left.wrapping_mul(right))),
        Symbol::Slash if right == 0 => None,
        Symbol::Slash => Some(Value::Long(left.wrapping_div(right))),
        Symbol::Percent if right == 0 => None,
        Symbol::Percent => Some(Value::Long(left.wrapping_rem(right))),
        Symbol::Plus => Some(Value::Long(left.wrapping_add(right))),
        Symbol::Minus => Some(Value::Long(left.wrapping_sub(right))),
        Symbol::And => Some(Value::Long(left & right)),
        Symbol::Or => Some(Value::Long(left | right)),
        Symbol::Caret => Some(Value::Long(left ^ right)),
        Symbol::Less => Some(Value::Bool(left < right)),
        Symbol::Greater => Some(Value::Bool(left > right)),
        Symbol::LessEqual => Some(Value::Bool(left <= right)),
        Symbol::GreaterEqual => Some(Value::Bool(left >= right)),
        Symbol::Equal => Some(Value::Bool(left == right)),
        Symbol::NotEqual => Some(Value::Bool(left != right)),
        _ => None,
    }
}

// A shift has the type of its left operand, promoted (JLS 15.19).
fn shifted(op: Symbol, left: Value, right: Value) -> Option<Value>
    ensures { seen_if result ≡ defined.shift_of op (defined.as_int (seen left)) (defined.as_long (seen left)) (defined.as_long (seen right)) }
{
    let by = as_long(right)?;
    match as_int(left) {
        Some(number) => int_shift(op, number, by),
        None => long_shift(op, as_long(left)?, by),
    }
}

/// An operator on two numbers.
pub fn number_value(op: Symbol, left: Value, right: Value) -> Option<Value>
    ensures { seen_if result ≡ defined.numbers_value op (seen left) (seen right) }
{
    if is_shift(op) {
        return shifted(op, left, right);
    }
    if let Some(first) = as_int(left) {
        if let Some(second) = as_int(right) {
            return int_value(op, first, second);
        }
    }
    long_value(op, as_long(left)?, as_long(right)?)
}

/// An operator on two booleans.
pub fn bool_value(op: Symbol, left: bool, right: bool) -> Option<Value>
    ensures { seen_if result ≡ defined.bool_value op left right }
{
    match op {
        Symbol::AndAnd => Some(Value::Bool(left && right)),
        Symbol::OrOr => Some(Value::Bool(left || right)),
        Symbol::And => Some(Value::Bool(left && right)),
        Symbol::Or => Some(Value::Bool(left || right)),
        Symbol::Caret => Some(Value::Bool(left != right)),
        Symbol::Equal => Some(Value::Bool(left == right)),
        Symbol::NotEqual => Some(Value::Bool(left != right)),
        _ => None,
    }
}

fn negated(value: Value) -> Option<Value>
    ensures { seen_if result ≡ defined.negated (seen value) }
{
    match value {
        Value::Long(number) => Some(Value::Long(number.wrapping_neg())),
        _ => Some(Value::Int(as_int(value)?.wrapping_neg())),
    }
}

fn complemented(value: Value) -> Option<Value>
    ensures { seen_if result ≡ defined.complemented (seen value) }
{
    match value {
        Value::Long(number) => Some(Value::Long(!number)),
        _ => Some(Value::Int(!as_int(value)?)),
    }
}

fn promoted(value: Value) -> Option<Value>
    ensures { seen_if result ≡ defined.promoted (seen value) }
{
    match value {
        Value::Long(_) => Some(value),
        _ => Some(Value::Int(as_int(value)?)),
    }
}

/// An operator before its operand (JLS 15.15.3 to 15.15.6).
pub fn unary_value(op: Symbol, value: Value) -> Option<Value>
    ensures { seen_if result ≡ defined.unary_value op (seen value) }
{
    match op {
        Symbol::Plus => promoted(value),
        Symbol::Minus => negated(value),
        Symbol::Tilde => complemented(value),
        Symbol::Not => match value {
            Value::Bool(test) => Some(Value::Bool(!test)),
            _ => None,
        },
        _ => None,
    }
}
