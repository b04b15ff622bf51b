// Operators on references, and on any operands (JLS 15.18.1, 15.21.3, 15.26.2).
ghost use Rattle.std.specs.Prelude.{◌≡◌, IfOk};
ghost use Rattle.jr_machine_defs.specs.Operators.{same_object, compared, on_references, on_others, binary, compound, number_of};

use crate::conversions::cast_back;
use crate::operators::{number_of, on_bools, on_numbers};
use crate::texts::{joined, shown};
use jr_base::OutOfMemory;
use jr_core::BinaryOp;
use jr_machine_defs::{Cell, Outcome, Value};
use std::alloc::Global;

/// Whether the two refer to one object or are both null (JLS 15.21.3); none where one is no reference.
fn same_object(left: &Value, right: &Value) -> Option<bool>
    ensures { result ≡ same_object left.now right.now }
{
    match (left, right) {
        (Value::Null, Value::Null) => Some(true),
        (Value::Ref(left), Value::Ref(right)) => Some(*left == *right),
        (Value::Text(left), Value::Text(right)) => Some(left.get() == right.get()),
        (Value::Null, Value::Ref(_) | Value::Text(_)) => Some(false),
        (Value::Ref(_), Value::Null | Value::Text(_)) => Some(false),
        (Value::Text(_), Value::Null | Value::Ref(_)) => Some(false),
        _ => None,
    }
}

fn compared(is_equal: bool, same: Option<bool>) -> Outcome<'static>
    ensures { result ≡ compared is_equal same }
{
    match same {
        None => Outcome::Unfit,
        Some(same) => Outcome::Gives(Value::Bool(if is_equal { same } else { !same })),
    }
}

/// An operator and its operands.
#[derive(Clone, Copy)]
struct Operation<'v, 'a> {
    op: BinaryOp,
    left: &'v Value<'a>,
    right: &'v Value<'a>,
}

/// An operator on two references.
fn on_references<'a>(
    alloc: Global,
    heap: &[Cell<'a>],
    of: Operation<'_, 'a>,
) -> Result<Outcome<'a>, OutOfMemory>
    ensures { IfOk result (λ outcome. outcome ≡ on_references heap.now of.entry.op of.entry.left.now of.entry.right.now) }
{
    match of.op {
        BinaryOp::Equal => Ok(compared(true, same_object(of.left, of.right))),
        BinaryOp::NotEqual => Ok(compared(false, same_object(of.left, of.right))),
        BinaryOp::Add => joined(alloc, shown(heap, of.left), shown(heap, of.right)),
        _ => Ok(Outcome::Unfit),
    }
}

/// An operator on two values that are not both numbers.
fn on_others<'a>(
    alloc: Global,
    heap: &[Cell<'a>],
    of: Operation<'_, 'a>,
) -> Result<Outcome<'a>, OutOfMemory>
    ensures { IfOk result (λ outcome. outcome ≡ on_others heap.now of.entry.op of.entry.left.now of.entry.right.now) }
{
    match (of.left, of.right) {
        (Value::Bool(left), Value::Bool(right)) => Ok(on_bools(of.op, *left, *right)),
        _ => on_references(alloc, heap, of),
    }
}

/// `left op right`.
pub fn binary<'a>(
    alloc: Global,
    heap: &[Cell<'a>],
    op: BinaryOp,
    left: &Value<'a>,
    right: &Value<'a>,
) -> Result<Outcome<'a>, OutOfMemory>
    ensures { IfOk result (λ outcome. outcome ≡ binary heap.now op left.now right.now) }
{
    match (number_of(left), number_of(right)) {
        (Some(left), Some(right)) => Ok(on_numbers(op, left, right)),
        _ => on_others(alloc, heap, Operation { op, left, right }),
    }
}

/// `old op= value`.
pub fn compound<'a>(
    alloc: Global,
    heap: &[Cell<'a>],
    op: BinaryOp,
    old: &Value<'a>,
    value: &Value<'a>,
) -> Result<Outcome<'a>, OutOfMemory>
    ensures { IfOk result (λ outcome. outcome ≡ compound heap.now op old.now value.now) }
{
    let outcome = binary(alloc, heap, op, old, value)?;
    Ok(cast_back(old, outcome))
}
