// Fields and components of arrays: the checks, reading and writing (JLS 15.11, 15.13, 15.26).
ghost use Rattle.std.specs.Prelude.{◌≡◌, IfOk, Some, slice_get};
ghost use Rattle.jr_base.specs.Mirror.{plain_ty};
ghost use Rattle.jr_core.specs.Mirror as m;
ghost use Rattle.jr_core.specs.Mirror.{plain_code, plain_body};
ghost use Rattle.jr_machine_defs.specs.Classes.{body_in};
ghost use Rattle.jr_machine_defs.specs.Places.{static_value, field_of, item_at, item_of_cell, item_of, fits_item, item_place, with_field_set, with_item_set, set_field, set_item, placed, set_static, store_field, store, value_read, read_field, read_item, read_old_field, read_old_item, read_old, length_of};
ghost use Rattle.jr_machine_defs.specs.States.{with_one, with_two, with_outcome, push_value};
ghost use Rattle.jr_machine_defs.specs.Follows.{Follows};

use crate::parts::literal;
use jr_base::{Boxed, Const, DeclId, OutOfMemory, Ty, Units};
use jr_core::{Body, Code};
use jr_machine_defs::{Cell, Fault, Given, Outcome, Placed, Slot, State, Value};
use jr_machine_ops::{
    Program, assign, default_of, drop_receiver, give, int_of_count, place_in, push, push_value,
    raise, set_local, settle, value_of,
};
use std::alloc::Global;

/// The value of a variable, or the default value of its type.
fn value_or_default<'a>(slots: &[Slot<'a>], field: DeclId, body: &Body) -> Value<'a>
    ensures { result ≡ static_value (plain_body body.now) slots.now field }
{
    match value_of(slots, field) {
        None => default_of(&body.ty),
        Some(value) => value.copy(),
    }
}

/// The value of a field of what a value refers to; null is checked.
fn field_of<'a>(body: &Body, field: DeclId, heap: &[Cell<'a>], object: &Value<'a>) -> Outcome<'a>
    ensures { result ≡ field_of (plain_body body.now) field heap.now object.now }
{
    match object {
        Value::Null => Outcome::Throws(Fault::NullPointer),
        Value::Ref(at) => match heap.get(*at) {
            Some(Cell::Object { fields, .. }) => {
                Outcome::Gives(value_or_default(fields.as_slice(), field, body))
            }
            Some(Cell::Array { .. }) | Some(Cell::Text { .. }) | None => Outcome::Unfit,
        },
        _ => Outcome::Unfit,
    }
}

fn item_at<'a>(items: &[Value<'a>], place: Option<usize>) -> Outcome<'a>
    ensures { result ≡ item_at items.now place }
{
    match place {
        None => Outcome::Throws(Fault::ArrayIndex),
        Some(place) => match items.get(place) {
            None => Outcome::Unfit,
            Some(value) => Outcome::Gives(value.copy()),
        },
    }
}

fn item_of_cell<'a>(cell: &Cell<'a>, index: &i32) -> Outcome<'a>
    ensures { result ≡ item_of_cell (Some cell.now) index.now }
{
    match cell {
        Cell::Array { items, .. } => item_at(items.as_slice(), place_in(items.len(), *index)),
        Cell::Object { .. } | Cell::Text { .. } => Outcome::Unfit,
    }
}

fn item_in<'a>(heap: &[Cell<'a>], array: usize, index: &i32) -> Outcome<'a>
    ensures { result ≡ item_of_cell (slice_get heap.now array) index.now }
{
    match heap.get(array) {
        None => Outcome::Unfit,
        Some(cell) => item_of_cell(cell, index),
    }
}

/// The value of a component; null and the bounds are checked.
fn item_of<'a>(heap: &[Cell<'a>], array: &Value<'a>, index: &Value<'a>) -> Outcome<'a>
    ensures { result ≡ item_of heap.now array.now index.now }
{
    match (array, index) {
        (Value::Null, Value::Int(_)) => Outcome::Throws(Fault::NullPointer),
        (Value::Ref(at), Value::Int(index)) => item_in(heap, *at, index),
        _ => Outcome::Unfit,
    }
}

/// The length of an array (JLS 10.7).
pub fn length_of<'a>(heap: &[Cell<'a>], array: &Value<'a>) -> Outcome<'a>
    ensures { result ≡ length_of heap.now array.now }
{
    match array {
        Value::Null => Outcome::Throws(Fault::NullPointer),
        Value::Ref(at) => match heap.get(*at) {
            Some(Cell::Array { items, .. }) => Outcome::Gives(Value::Int(int_of_count(
                items.len(),
            ))),
            Some(Cell::Object { .. }) | Some(Cell::Text { .. }) | None => Outcome::Unfit,
        },
        _ => Outcome::Unfit,
    }
}

/// What stands in the place of a cell that is taken out.
fn hole(alloc: Global) -> Cell<'static> {
    Cell::Text {
        units: Units::new(Vec::new(alloc)),
    }
}

/// An object with a field set.
fn with_field_set<'a>(
    cell: Cell<'a>,
    field: DeclId,
    value: Value<'a>,
) -> Result<Option<Cell<'a>>, OutOfMemory>
    ensures { IfOk result (λ set. set ≡ with_field_set field value.entry (Some cell.entry)) }
{
    match cell {
        Cell::Object {
            class,
            outer,
            mut fields,
        } => {
            assign(&mut fields, field, value)?;
            Ok(Some(Cell::Object {
                class,
                outer,
                fields,
            }))
        }
        Cell::Array { .. } | Cell::Text { .. } => Ok(None),
    }
}

/// An array with a component set.
fn with_item_set<'a>(cell: Cell<'a>, place: usize, value: Value<'a>) -> Option<Cell<'a>>
    ensures { result ≡ with_item_set place value.entry (Some cell.entry) }
{
    match cell {
        Cell::Array { item, mut items } => {
            if place < items.len() {
                items.set(place, value);
            }
            Some(Cell::Array { item, items })
        }
        Cell::Object { .. } | Cell::Text { .. } => None,
    }
}

/// Whether the value may stand in an array of such components (JLS 10.10).
fn fits_item<'a>(
    program: &Program<'a>,
    alloc: Global,
    heap: &[Cell<'a>],
    item: &Ty,
    value: &Value<'a>,
) -> Result<bool, OutOfMemory>
    ensures { IfOk result (λ answer. answer ≡ fits_item program.now heap.now (plain_ty item.now) value.now) }
{
    match value {
        Value::Ref(_) | Value::Text(_) => program.is_instance(alloc, heap, value, item),
        _ => Ok(true),
    }
}

/// Where the value goes in an array; the bounds and the store are checked.
fn item_place<'a>(
    program: &Program<'a>,
    alloc: Global,
    heap: &[Cell<'a>],
    array: usize,
    index: i32,
    value: &Value<'a>,
) -> Result<Placed, OutOfMemory>
    ensures { IfOk result (λ place. place ≡ item_place program.now heap.now (slice_get heap.now array) index value.now) }
{
    match heap.get(array) {
        Some(Cell::Array { item, items }) => match place_in(items.len(), index) {
            None => Ok(Placed::Throws(Fault::ArrayIndex)),
            Some(place) => {
                if fits_item(program, alloc, heap, item.get(), value)? {
                    Ok(Placed::At(place))
                } else {
                    Ok(Placed::Throws(Fault::ArrayStore))
                }
            }
        },
        Some(Cell::Object { .. }) | Some(Cell::Text { .. }) | None => Ok(Placed::Unfit),
    }
}

/// Stores into a field of an object; null is checked.
#[tactic(auto, using(crate::proofs::Setting::set_twice))]
fn set_field<'a>(
    state: &mut State<'a>,
    alloc: Global,
    field: DeclId,
    value: Value<'a>,
    gives: Value<'a>,
    object: Value<'a>,
) -> Result<bool, OutOfMemory>
    ensures { IfOk result (λ went. Follows (set_field field value.entry gives.entry object.entry state.old) went state.old state.new) }
{
    match object {
        Value::Null => raise(state, alloc, Fault::NullPointer),
        Value::Ref(at) => {
            if at >= state.heap.len() {
                return Ok(false);
            }
            let cell = state.heap.take(at, hole(alloc));
            match with_field_set(cell, field, value)? {
                None => Ok(false),
                Some(cell) => {
                    state.heap.put(at, cell);
                    push(state, gives)
                }
            }
        }
        _ => Ok(false),
    }
}

#[tactic(auto, using(crate::proofs::Setting::set_twice))]
fn place<'a>(
    state: &mut State<'a>,
    alloc: Global,
    goes: Placed,
    array: usize,
    value: Value<'a>,
    gives: Value<'a>,
) -> Result<bool, OutOfMemory>
    ensures { IfOk result (λ went. Follows (placed goes array value.entry gives.entry state.old) went state.old state.new) }
{
    match goes {
        Placed::Throws(fault) => raise(state, alloc, fault),
        Placed::Unfit => Ok(false),
        Placed::At(place) => {
            if array >= state.heap.len() {
                return Ok(false);
            }
            let cell = state.heap.take(array, hole(alloc));
            match with_item_set(cell, place, value) {
                None => Ok(false),
                Some(cell) => {
                    state.heap.put(array, cell);
                    push(state, gives)
                }
            }
        }
    }
}

/// Stores into a component of an array; null, the bounds and the store are checked.
fn set_item<'a>(
    state: &mut State<'a>,
    alloc: Global,
    program: &Program<'a>,
    array: Value<'a>,
    index: Value<'a>,
    value: Value<'a>,
    gives: Value<'a>,
) -> Result<bool, OutOfMemory>
    ensures { IfOk result (λ went. Follows (set_item program.now array.entry index.entry value.entry gives.entry state.old) went state.old state.new) }
{
    match (array, index) {
        (Value::Null, Value::Int(_)) => raise(state, alloc, Fault::NullPointer),
        (Value::Ref(array), Value::Int(index)) => {
            let goes = item_place(program, alloc, state.heap.as_slice(), array, index, &value)?;
            place(state, alloc, goes, array, value, gives)
        }
        _ => Ok(false),
    }
}

fn set_static<'a>(
    state: &mut State<'a>,
    field: DeclId,
    value: Value<'a>,
    gives: Value<'a>,
) -> Result<bool, OutOfMemory>
    ensures { IfOk result (λ went. Follows (set_static field value.entry gives.entry state.old) went state.old state.new) }
{
    assign(&mut state.statics, field, value)?;
    push(state, gives)
}

fn store_field<'a>(
    state: &mut State<'a>,
    alloc: Global,
    body: &Body,
    on: &Option<Boxed<Code>>,
    field: DeclId,
    value: Value<'a>,
    gives: Value<'a>,
) -> Result<bool, OutOfMemory>
    ensures { IfOk result (λ went. Follows (store_field (Some (plain_body body.now)) (m.plain_any_code on.now) field value.entry gives.entry state.old) went state.old state.new) }
{
    if body.is_static {
        if !drop_receiver(state, on) {
            return Ok(false);
        }
        return set_static(state, field, value, gives);
    }
    let Some(object) = state.frame.values.pop() else {
        return Ok(false);
    };
    set_field(state, alloc, field, value, gives, object)
}

fn store_item<'a>(
    state: &mut State<'a>,
    alloc: Global,
    program: &Program<'a>,
    value: Value<'a>,
    gives: Value<'a>,
) -> Result<bool, OutOfMemory>
    ensures { IfOk result (λ went. Follows (with_two state.old.frame.values state.old (λ array index s. set_item program.now array index value.entry gives.entry s)) went state.old state.new) }
{
    let Some(index) = state.frame.values.pop() else {
        return Ok(false);
    };
    let Some(array) = state.frame.values.pop() else {
        return Ok(false);
    };
    set_item(state, alloc, program, array, index, value, gives)
}

/// Stores a value in a target, and pushes what the assignment gives (JLS 15.26).
pub fn store<'a>(
    state: &mut State<'a>,
    alloc: Global,
    program: &Program<'a>,
    target: &Code,
    value: Value<'a>,
    gives: Value<'a>,
) -> Result<bool, OutOfMemory>
    ensures { IfOk result (λ went. Follows (store program.now (plain_code target.now) value.entry gives.entry state.old) went state.old state.new) }
{
    match target {
        Code::Var { local } => {
            set_local(state, *local, value)?;
            push(state, gives)
        }
        Code::FieldAt { on, field } => match program.body(*field) {
            None => Ok(false),
            Some(body) => store_field(state, alloc, body, on, *field, value, gives),
        },
        Code::Index { .. } => store_item(state, alloc, program, value, gives),
        _ => Ok(false),
    }
}

/// What a read of a field gives: of a constant variable its value, and of another one what is stored (JLS 4.12.4, 13.1).
fn value_read<'a>(constant: &'a Option<Const>, stored: Value<'a>) -> Value<'a>
    ensures { result ≡ value_read constant.entry.now stored.entry }
{
    match constant {
        None => stored,
        Some(_) => literal(constant),
    }
}

fn read_instance<'a>(
    state: &mut State<'a>,
    alloc: Global,
    body: &'a Body,
    field: DeclId,
) -> Result<bool, OutOfMemory>
    ensures { IfOk result (λ went. Follows (with_one state.old.frame.values state.old (λ object s. with_outcome (field_of (plain_body body.entry.now) field s.heap object) s (λ stored s. Some (push_value (value_read (plain_body body.entry.now).constant stored) s)))) went state.old state.new) }
{
    let Some(object) = state.frame.values.pop() else {
        return Ok(false);
    };
    let outcome = field_of(body, field, state.heap.as_slice(), &object);
    match give(state, alloc, outcome)? {
        Given::Done(went) => Ok(went),
        Given::Value(stored) => push(state, value_read(&body.constant, stored)),
    }
}

/// Reads a field (JLS 15.11).
pub fn read_field<'a>(
    state: &mut State<'a>,
    alloc: Global,
    program: &Program<'a>,
    on: &Option<Boxed<Code>>,
    field: DeclId,
) -> Result<bool, OutOfMemory>
    ensures { IfOk result (λ went. Follows (read_field (body_in program.now field) (m.plain_any_code on.now) field state.old) went state.old state.new) }
{
    let Some(body) = program.body(field) else {
        return Ok(false);
    };
    if !body.is_static {
        return read_instance(state, alloc, body, field);
    }
    if !drop_receiver(state, on) {
        return Ok(false);
    }
    let stored = value_or_default(state.statics.as_slice(), field, body);
    push(state, value_read(&body.constant, stored))
}

/// Reads a component of an array (JLS 15.13).
pub fn read_item<'a>(state: &mut State<'a>, alloc: Global) -> Result<bool, OutOfMemory>
    ensures { IfOk result (λ went. Follows (read_item state.old) went state.old state.new) }
{
    let Some(index) = state.frame.values.pop() else {
        return Ok(false);
    };
    let Some(array) = state.frame.values.pop() else {
        return Ok(false);
    };
    let outcome = item_of(state.heap.as_slice(), &array, &index);
    settle(state, alloc, outcome)
}

fn read_old_field<'a>(
    state: &mut State<'a>,
    alloc: Global,
    body: &Body,
    field: DeclId,
) -> Result<bool, OutOfMemory>
    ensures { IfOk result (λ went. Follows (read_old_field (Some (plain_body body.now)) field state.old) went state.old state.new) }
{
    if body.is_static {
        let value = value_or_default(state.statics.as_slice(), field, body);
        return push(state, value);
    }
    let Some(object) = state.frame.values.pop() else {
        return Ok(false);
    };
    let outcome = field_of(body, field, state.heap.as_slice(), &object);
    match give(state, alloc, outcome)? {
        Given::Done(went) => Ok(went),
        Given::Value(value) => {
            push_value(state, object)?;
            push(state, value)
        }
    }
}

fn read_old_item<'a>(state: &mut State<'a>, alloc: Global) -> Result<bool, OutOfMemory>
    ensures { IfOk result (λ went. Follows (read_old_item state.old) went state.old state.new) }
{
    let Some(index) = state.frame.values.pop() else {
        return Ok(false);
    };
    let Some(array) = state.frame.values.pop() else {
        return Ok(false);
    };
    let outcome = item_of(state.heap.as_slice(), &array, &index);
    match give(state, alloc, outcome)? {
        Given::Done(went) => Ok(went),
        Given::Value(value) => {
            push_value(state, array)?;
            push_value(state, index)?;
            push(state, value)
        }
    }
}

/// Reads the old value of a target, after the checks, and keeps the target's own operands (JLS 15.26.2).
pub fn read_old<'a>(
    state: &mut State<'a>,
    alloc: Global,
    program: &Program<'a>,
    target: &Code,
) -> Result<bool, OutOfMemory>
    ensures { IfOk result (λ went. Follows (read_old program.now (plain_code target.now) state.old) went state.old state.new) }
{
    match target {
        Code::FieldAt { field, .. } => match program.body(*field) {
            None => Ok(false),
            Some(body) => read_old_field(state, alloc, body, *field),
        },
        Code::Index { .. } => read_old_item(state, alloc),
        _ => Ok(false),
    }
}
