// The order of occurrences.
ghost use Rattle.std.specs.Prelude.{◌≡◌, ◌++◌, ◌<◌, ◌^◌, IfOk, OnOk, length};
ghost use Rattle.jr_tree.specs.Rows.{label};
ghost use Rattle.jr_plain.specs.Enclosing as enclosing;
ghost use Rattle.jr_marks.specs.Order as order;

use jr_base::OutOfMemory;
use jr_tree::{Label, NamePlace, Row, Sought};
use std::alloc::Global;

/// The rows that are occurrences, in their order by nodes and parts: the identifiers of a name from its first one on, and the call of `super()` in a
/// default constructor before the names in the header of its class.
pub fn order_of_occurrences(alloc: Global, rows: &[Row]) -> Result<Vec<u32>, OutOfMemory>
    ensures { IfOk result (λ all. all.items ≡ order.occurrences rows.now) }
{
    let mut all = Vec::new(alloc);
    let Ok(count) = u32::try_from(rows.len()) else {
        return Err(OutOfMemory);
    };
    for at in 0..count {
        push_turn(&mut all, rows, at)?;
    }
    Ok(all)
}

// What comes at the turn of a row: nothing where it had its turn before.
fn push_turn(all: &mut Vec<u32>, rows: &[Row], at: u32) -> Result<(), OutOfMemory>
    requires { length rows.now < 2 ^ 32 }
    ensures { OnOk result (all.new.items ≡ all.old.items ++ order.turn rows.now at) }
{
    let Some(row) = rows.get(at as usize) else {
        return Ok(());
    };
    match row.label {
        Label::Name { place, .. } => push_any_name(all, rows, at, place),
        Label::Class { .. } => push_default_call(all, rows, at, row.end),
        Label::ImplicitCall => push_call(all, rows, at, row.parent),
        _ => push_occurrence(all, rows, at),
    }
}

fn is_default_constructor(rows: &[Row], at: u32) -> bool
    ensures { result ≡ order.is_default_constructor (label rows.now at) }
{
    match rows.get(at as usize) {
        Some(row) => match row.label {
            Label::DefaultConstructor => true,
            _ => false,
        },
        None => false,
    }
}

fn is_body(rows: &[Row], at: u32) -> bool
    ensures { result ≡ enclosing.is_body (label rows.now at) }
{
    match rows.get(at as usize) {
        Some(row) => match row.label {
            Label::Body => true,
            _ => false,
        },
        None => false,
    }
}

fn is_occurrence(rows: &[Row], at: u32) -> bool
    ensures { result ≡ order.seeks rows.now at }
{
    match rows.get(at as usize) {
        Some(row) => match row.label.sought() {
            Sought::Nothing => false,
            _ => true,
        },
        None => false,
    }
}

fn push_occurrence(all: &mut Vec<u32>, rows: &[Row], at: u32) -> Result<(), OutOfMemory>
    ensures { OnOk result (all.new.items ≡ all.old.items ++ order.itself rows.now at) }
{
    if is_occurrence(rows, at) {
        all.push(at)?;
    }
    Ok(())
}

// A call of `super()` that is not written, unless it stands in a constructor that is not written.
fn push_call(all: &mut Vec<u32>, rows: &[Row], at: u32, over: u32) -> Result<(), OutOfMemory>
    ensures { OnOk result (all.new.items ≡ all.old.items ++ order.call_by rows.now over at) }
{
    if is_default_constructor(rows, over) {
        Ok(())
    } else {
        push_occurrence(all, rows, at)
    }
}

// The identifiers of a name at the turn of its last one.
fn push_any_name(
    all: &mut Vec<u32>,
    rows: &[Row],
    at: u32,
    place: NamePlace,
) -> Result<(), OutOfMemory>
    requires { at < length rows.now }
    ensures { OnOk result (all.new.items ≡ all.old.items ++ order.name_by place rows.now at) }
{
    match place {
        NamePlace::Qualifier => Ok(()),
        _ => push_name(all, rows, at, rows[at as usize].end),
    }
}

// The identifiers of a name, of which the first is the last row below it.
fn push_name(all: &mut Vec<u32>, rows: &[Row], at: u32, end: u32) -> Result<(), OutOfMemory>
    ensures { OnOk result (all.new.items ≡ all.old.items ++ order.name_turn rows.now at end) }
{
    for back in 0..end.saturating_sub(at) {
        push_occurrence(all, rows, end.saturating_sub(back).saturating_sub(1))?;
    }
    Ok(())
}

// The body of a class that ends before this row.
fn first_body(rows: &[Row], class: u32, end: u32) -> Option<u32>
    ensures { result ≡ order.first_body rows.now class end }
{
    for at in class.saturating_add(1)..end {
        if is_body(rows, at) {
            return Some(at);
        }
    }
    None
}

// The call in the default constructor of a class, which stands first in its body.
fn push_default_call(
    all: &mut Vec<u32>,
    rows: &[Row],
    class: u32,
    end: u32,
) -> Result<(), OutOfMemory>
    requires { length rows.now < 2 ^ 32 }
    ensures { OnOk result (all.new.items ≡ all.old.items ++ order.default_call_in rows.now (order.first_body rows.now class end)) }
{
    match first_body(rows, class, end) {
        None => Ok(()),
        Some(body) => push_first_call(all, rows, body),
    }
}

// The call in the constructor that stands first in a body, if that is not written.
fn push_first_call(all: &mut Vec<u32>, rows: &[Row], body: u32) -> Result<(), OutOfMemory>
    requires { length rows.now < 2 ^ 32 }
    ensures { OnOk result (all.new.items ≡ all.old.items ++ order.first_call rows.now body) }
{
    let Some(constructor) = body.checked_add(1) else {
        return Ok(());
    };
    if !is_default_constructor(rows, constructor) {
        return Ok(());
    }
    match constructor.checked_add(1) {
        Some(call) => push_occurrence(all, rows, call),
        None => Ok(()),
    }
}
