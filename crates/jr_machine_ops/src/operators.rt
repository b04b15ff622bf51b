// Operators on numbers and booleans (JLS 15.15 to 15.22).
ghost use Rattle.std.specs.Prelude.{◌≡◌, ◌<◌};
ghost use Rattle.std.specs.Int.{w32, w64};
ghost use Rattle.jr_machine_defs.specs.Operators.{number_of, number_value, arithmetic, arithmetic_of, promoted, shifted, shifted_by, distance, is_shift, on_numbers, on_bools, unary, unary_of};
ghost use Rattle.jr_machine_defs.specs.declared.value.Value.TheVariants as v;

use jr_core::{BinaryOp, UnaryOp};
use jr_machine_defs::{Fault, Number, Outcome, Pair, Value};

/// Unary numeric promotion (JLS 5.6.1).
pub fn number_of(value: &Value) -> Option<Number>
    ensures { result ≡ number_of value.now }
{
    match value {
        Value::Byte(value) => Some(Number::Int(i32::from(*value))),
        Value::Short(value) => Some(Number::Int(i32::from(*value))),
        Value::Char(unit) => Some(Number::Int(i32::from(*unit))),
        Value::Int(value) => Some(Number::Int(*value)),
        Value::Long(value) => Some(Number::Long(*value)),
        _ => None,
    }
}

/// The number as a `long`.
pub fn number_value(number: Number) -> i64
    ensures { result ≡ number_value number }
{
    match number {
        Number::Int(value) => i64::from(value),
        Number::Long(value) => value,
    }
}

/// Binary numeric promotion (JLS 5.6.2).
fn promoted(left: Number, right: Number) -> Pair
    ensures { result ≡ promoted left right }
{
    match (left, right) {
        (Number::Int(left), Number::Int(right)) => Pair::Ints(left, right),
        (Number::Int(left), Number::Long(right)) => Pair::Longs(i64::from(left), right),
        (Number::Long(left), right) => Pair::Longs(left, number_value(right)),
    }
}

/// An operator on two numbers of type `int`.
fn int_arithmetic(op: BinaryOp, left: i32, right: i32) -> Outcome<'static>
    ensures { result ≡ arithmetic w32 v.Int op left right }
{
    match op {
        BinaryOp::Multiply => Outcome::Gives(Value::Int(left.wrapping_mul(right))),
        BinaryOp::Divide if right == 0 => Outcome::Throws(Fault::Arithmetic),
        BinaryOp::Divide => Outcome::Gives(Value::Int(left.wrapping_div(right))),
        BinaryOp::Remainder if right == 0 => Outcome::Throws(Fault::Arithmetic),
        BinaryOp::Remainder => Outcome::Gives(Value::Int(left.wrapping_rem(right))),
        BinaryOp::Add => Outcome::Gives(Value::Int(left.wrapping_add(right))),
        BinaryOp::Subtract => Outcome::Gives(Value::Int(left.wrapping_sub(right))),
        BinaryOp::ShiftLeft | BinaryOp::ShiftRight | BinaryOp::ShiftRightUnsigned => Outcome::Unfit,
        BinaryOp::Less => Outcome::Gives(Value::Bool(left < right)),
        BinaryOp::Greater => Outcome::Gives(Value::Bool(left > right)),
        BinaryOp::LessEqual => Outcome::Gives(Value::Bool(left <= right)),
        BinaryOp::GreaterEqual => Outcome::Gives(Value::Bool(left >= right)),
        BinaryOp::Equal => Outcome::Gives(Value::Bool(left == right)),
        BinaryOp::NotEqual => Outcome::Gives(Value::Bool(left != right)),
        BinaryOp::And => Outcome::Gives(Value::Int(left & right)),
        BinaryOp::Xor => Outcome::Gives(Value::Int(left ^ right)),
        BinaryOp::Or => Outcome::Gives(Value::Int(left | right)),
    }
}

/// An operator on two numbers of type `long`.
fn long_arithmetic(op: BinaryOp, left: i64, right: i64) -> Outcome<'static>
    ensures { result ≡ arithmetic w64 v.Long op left right }
{
    match op {
        BinaryOp::Multiply => Outcome::Gives(Value::Long(left.wrapping_mul(right))),
        BinaryOp::Divide if right == 0 => Outcome::Throws(Fault::Arithmetic),
        BinaryOp::Divide => Outcome::Gives(Value::Long(left.wrapping_div(right))),
        BinaryOp::Remainder if right == 0 => Outcome::Throws(Fault::Arithmetic),
        BinaryOp::Remainder => Outcome::Gives(Value::Long(left.wrapping_rem(right))),
        BinaryOp::Add => Outcome::Gives(Value::Long(left.wrapping_add(right))),
        BinaryOp::Subtract => Outcome::Gives(Value::Long(left.wrapping_sub(right))),
        BinaryOp::ShiftLeft | BinaryOp::ShiftRight | BinaryOp::ShiftRightUnsigned => Outcome::Unfit,
        BinaryOp::Less => Outcome::Gives(Value::Bool(left < right)),
        BinaryOp::Greater => Outcome::Gives(Value::Bool(left > right)),
        BinaryOp::LessEqual => Outcome::Gives(Value::Bool(left <= right)),
        BinaryOp::GreaterEqual => Outcome::Gives(Value::Bool(left >= right)),
        BinaryOp::Equal => Outcome::Gives(Value::Bool(left == right)),
        BinaryOp::NotEqual => Outcome::Gives(Value::Bool(left != right)),
        BinaryOp::And => Outcome::Gives(Value::Long(left & right)),
        BinaryOp::Xor => Outcome::Gives(Value::Long(left ^ right)),
        BinaryOp::Or => Outcome::Gives(Value::Long(left | right)),
    }
}

/// The low 5 bits of the right operand of a shift (JLS 15.19).
fn int_distance(count: Number) -> u32
    ensures { result ≡ distance 32 count }
{
    match count {
        Number::Int(value) => value.cast_unsigned() % 32,
        Number::Long(value) => (value.cast_unsigned() % 32) as u32,
    }
}

/// The low 6 bits of the right operand of a shift (JLS 15.19).
fn long_distance(count: Number) -> u32
    ensures { result ≡ distance 64 count }
{
    match count {
        Number::Int(value) => value.cast_unsigned() % 64,
        Number::Long(value) => (value.cast_unsigned() % 64) as u32,
    }
}

/// A shift of an `int`.
fn int_shift(op: BinaryOp, left: i32, by: u32) -> Outcome<'static>
    requires { by < 32 }
    ensures { result ≡ shifted w32 v.Int op left by }
{
    match op {
        BinaryOp::ShiftLeft => Outcome::Gives(Value::Int(left << by)),
        BinaryOp::ShiftRight => Outcome::Gives(Value::Int(left >> by)),
        BinaryOp::ShiftRightUnsigned => {
            Outcome::Gives(Value::Int((left.cast_unsigned() >> by).cast_signed()))
        }
        _ => Outcome::Unfit,
    }
}

/// A shift of a `long`.
fn long_shift(op: BinaryOp, left: i64, by: u32) -> Outcome<'static>
    requires { by < 64 }
    ensures { result ≡ shifted w64 v.Long op left by }
{
    match op {
        BinaryOp::ShiftLeft => Outcome::Gives(Value::Long(left << by)),
        BinaryOp::ShiftRight => Outcome::Gives(Value::Long(left >> by)),
        BinaryOp::ShiftRightUnsigned => {
            Outcome::Gives(Value::Long((left.cast_unsigned() >> by).cast_signed()))
        }
        _ => Outcome::Unfit,
    }
}

/// A shift.
fn shifted_by(op: BinaryOp, left: Number, right: Number) -> Outcome<'static>
    ensures { result ≡ shifted_by op left right }
{
    match left {
        Number::Int(left) => int_shift(op, left, int_distance(right)),
        Number::Long(left) => long_shift(op, left, long_distance(right)),
    }
}

fn is_shift(op: BinaryOp) -> bool
    ensures { result ≡ is_shift op }
{
    matches!(
        op,
        BinaryOp::ShiftLeft | BinaryOp::ShiftRight | BinaryOp::ShiftRightUnsigned
    )
}

fn arithmetic_of(op: BinaryOp, pair: Pair) -> Outcome<'static>
    ensures { result ≡ arithmetic_of op pair }
{
    match pair {
        Pair::Ints(left, right) => int_arithmetic(op, left, right),
        Pair::Longs(left, right) => long_arithmetic(op, left, right),
    }
}

/// `left op right` of numbers.
pub fn on_numbers(op: BinaryOp, left: Number, right: Number) -> Outcome<'static>
    ensures { result ≡ on_numbers op left right }
{
    if is_shift(op) {
        shifted_by(op, left, right)
    } else {
        arithmetic_of(op, promoted(left, right))
    }
}

/// `left op right` of booleans (JLS 15.21.2, 15.22.2).
pub fn on_bools(op: BinaryOp, left: bool, right: bool) -> Outcome<'static>
    ensures { result ≡ on_bools op left right }
{
    match op {
        BinaryOp::Equal => Outcome::Gives(Value::Bool(if left { right } else { !right })),
        BinaryOp::NotEqual | BinaryOp::Xor => {
            Outcome::Gives(Value::Bool(if left { !right } else { right }))
        }
        BinaryOp::And => Outcome::Gives(Value::Bool(if left { right } else { false })),
        BinaryOp::Or => Outcome::Gives(Value::Bool(if left { true } else { right })),
        _ => Outcome::Unfit,
    }
}

/// `op value` of an `int`.
fn int_unary(op: UnaryOp, value: i32) -> Outcome<'static>
    ensures { result ≡ unary_of w32 v.Int op value }
{
    match op {
        UnaryOp::Plus => Outcome::Gives(Value::Int(value)),
        UnaryOp::Minus => Outcome::Gives(Value::Int(value.wrapping_neg())),
        UnaryOp::Complement => Outcome::Gives(Value::Int(!value)),
        UnaryOp::Not => Outcome::Unfit,
    }
}

/// `op value` of a `long`.
fn long_unary(op: UnaryOp, value: i64) -> Outcome<'static>
    ensures { result ≡ unary_of w64 v.Long op value }
{
    match op {
        UnaryOp::Plus => Outcome::Gives(Value::Long(value)),
        UnaryOp::Minus => Outcome::Gives(Value::Long(value.wrapping_neg())),
        UnaryOp::Complement => Outcome::Gives(Value::Long(!value)),
        UnaryOp::Not => Outcome::Unfit,
    }
}

/// `op value` (JLS 15.15.3 to 15.15.6).
pub fn unary(op: UnaryOp, value: &Value) -> Outcome<'static>
    ensures { result ≡ unary op value.now }
{
    match (op, value) {
        (UnaryOp::Not, Value::Bool(value)) => Outcome::Gives(Value::Bool(!*value)),
        (op, value) => match number_of(value) {
            None => Outcome::Unfit,
            Some(Number::Int(value)) => int_unary(op, value),
            Some(Number::Long(value)) => long_unary(op, value),
        },
    }
}
