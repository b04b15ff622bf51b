// Conversions of values (JLS 5.1, 15.26.2).
ghost use Rattle.std.specs.Prelude.{◌≡◌, ◌%◌, ◌^◌};
ghost use Rattle.std.specs.Int.{w8, w16, w32, w64, cast_unsigned};
ghost use Rattle.jr_base.specs.Mirror.{plain_ty};
ghost use Rattle.jr_machine_defs.specs.Operators.{lowest, converted, converted_number, converted_to, number_of, cast_back, step_operator, stepped};

use crate::operators::{number_of, number_value, on_numbers};
use jr_base::Ty;
use jr_core::{BinaryOp, StepOp};
use jr_machine_defs::{Number, Outcome, Value};

/// The lowest 8 bits (JLS 5.1.3).
fn lowest_byte(number: i64) -> i8
    ensures { result ≡ lowest w8 number }
{
    ((number.cast_unsigned() % 256) as u8).cast_signed()
}

/// The lowest 16 bits (JLS 5.1.3).
fn lowest_short(number: i64) -> i16
    ensures { result ≡ lowest w16 number }
{
    ((number.cast_unsigned() % 65536) as u16).cast_signed()
}

/// The lowest 32 bits (JLS 5.1.3).
fn lowest_int(number: i64) -> i32
    ensures { result ≡ lowest w32 number }
{
    ((number.cast_unsigned() % 4_294_967_296) as u32).cast_signed()
}

/// The lowest 16 bits, without a sign (JLS 5.1.3).
fn lowest_char(number: i64) -> u16
    ensures { result ≡ cast_unsigned w64 number % 2 ^ 16 }
{
    (number.cast_unsigned() % 65536) as u16
}

/// A conversion between numeric types (JLS 5.1.2, 5.1.3).
fn converted(ty: &Ty, number: i64) -> Outcome<'static>
    ensures { result ≡ converted (plain_ty ty.now) number }
{
    match ty {
        Ty::Byte => Outcome::Gives(Value::Byte(lowest_byte(number))),
        Ty::Short => Outcome::Gives(Value::Short(lowest_short(number))),
        Ty::Char => Outcome::Gives(Value::Char(lowest_char(number))),
        Ty::Int => Outcome::Gives(Value::Int(lowest_int(number))),
        Ty::Long => Outcome::Gives(Value::Long(number)),
        Ty::Boolean | Ty::Null | Ty::Void | Ty::Class(_) | Ty::Array(_) => Outcome::Unfit,
    }
}

/// A conversion to a numeric type.
fn converted_number(ty: &Ty, value: &Value) -> Outcome<'static>
    ensures { result ≡ converted_number (plain_ty ty.now) (number_of value.now) }
{
    match number_of(value) {
        None => Outcome::Unfit,
        Some(number) => converted(ty, number_value(number)),
    }
}

/// A conversion to a primitive type.
pub fn converted_to(ty: &Ty, value: &Value) -> Outcome<'static>
    ensures { result ≡ converted_to (plain_ty ty.now) value.now }
{
    match (ty, value) {
        (Ty::Boolean, Value::Bool(value)) => Outcome::Gives(Value::Bool(*value)),
        (ty, value) => converted_number(ty, value),
    }
}

/// What a compound assignment or a step gives, cast back to the type of the old value (JLS 15.26.2).
pub fn cast_back<'a>(old: &Value<'a>, outcome: Outcome<'a>) -> Outcome<'a>
    ensures { result ≡ cast_back old.now outcome.entry }
{
    match (old, outcome) {
        (Value::Byte(_), Outcome::Gives(value)) => converted_to(&Ty::Byte, &value),
        (Value::Short(_), Outcome::Gives(value)) => converted_to(&Ty::Short, &value),
        (Value::Char(_), Outcome::Gives(value)) => converted_to(&Ty::Char, &value),
        (Value::Int(_), Outcome::Gives(value)) => converted_to(&Ty::Int, &value),
        (Value::Long(_), Outcome::Gives(value)) => converted_to(&Ty::Long, &value),
        (_, outcome) => outcome,
    }
}

fn step_operator(op: StepOp) -> BinaryOp
    ensures { result ≡ step_operator op }
{
    match op {
        StepOp::Increment => BinaryOp::Add,
        StepOp::Decrement => BinaryOp::Subtract,
    }
}

/// `old ++` or `old --` (JLS 15.14, 15.15).
pub fn stepped<'a>(op: StepOp, old: &Value<'a>) -> Outcome<'a>
    ensures { result ≡ stepped op old.now (number_of old.now) }
{
    match number_of(old) {
        None => Outcome::Unfit,
        Some(number) => cast_back(old, on_numbers(step_operator(op), number, Number::Int(1))),
    }
}
