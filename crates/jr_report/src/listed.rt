// References to a declaration, and subtypes of a type.
ghost use Rattle.std.specs.Prelude.{◌≡◌, Decides, IfOk, OnOk};
ghost use Rattle.jr_tree.specs.Rows.{label, parent};
ghost use Rattle.jr_plain.specs.Declarations as plain;
ghost use Rattle.jr_supers.specs.Supers.{AreSupersOf, ListsOnce};
ghost use Rattle.jr_report.specs.Listed as tell;

use jr_base::OutOfMemory;
use jr_members::World;
use jr_places::{is_object, is_type, parent_at, sought_at};
use jr_tree::{Label, Row, Sought};
use std::alloc::Global;

fn is_nothing(sought: Sought) -> bool
    ensures { result ≡ plain.is_nothing sought }
{
    match sought {
        Sought::Nothing => true,
        _ => false,
    }
}

fn is_implicit_call(rows: &[Row], at: u32) -> bool
    ensures { result ≡ plain.is_implicit_call (label rows.now at) }
{
    match rows.get(at as usize) {
        Some(row) => match row.label {
            Label::ImplicitCall => true,
            _ => false,
        },
        None => false,
    }
}

// The class of the constructor in which the row stands is Object.
fn is_in_object(rows: &[Row], at: u32) -> bool
    ensures { result ≡ plain.is_object rows.now (parent rows.now (parent rows.now (parent rows.now at))) }
{
    is_object(rows, parent_at(rows, parent_at(rows, parent_at(rows, at))))
}

// The row refers to something.
fn is_occurrence(rows: &[Row], at: u32) -> bool
    ensures { result ≡ plain.is_occurrence rows.now at }
{
    !is_nothing(sought_at(rows, at)) && !(is_implicit_call(rows, at) && is_in_object(rows, at))
}

/// The row is this one.
pub fn is_this(found: Option<u32>, row: u32) -> bool
    ensures { result ≡ tell.is_this row found }
{
    match found {
        Some(found) => found == row,
        None => false,
    }
}

// The row refers to the declaration.
fn is_reference(world: &World, at: u32, declared: u32) -> bool
    ensures { Decides result (tell.IsReferenceTo (tell.rows_in world.now) (tell.table_in world.now) declared at) }
{
    if !is_occurrence(world.under.rows, at) {
        return false;
    }
    is_this(world.under.declared(at), declared)
}

// The row is a type below another.
fn is_subtype(world: &World, at: u32, over: u32) -> bool
    ensures { AreSupersOf (tell.rows_in world.now) (tell.table_in world.now) world.now.supers.now
        → Decides result (tell.IsSubtypeOf (tell.rows_in world.now) (tell.table_in world.now) over at) }
{
    if !is_type(world.under.rows, at) {
        return false;
    }
    world.is_above(at, over)
}

/// Puts a row behind the list, if it is such.
pub fn push_if(all: &mut Vec<u32>, at: u32, is_such: bool) -> Result<(), OutOfMemory>
    ensures { OnOk result (all.new.items ≡ tell.with_such is_such at all.old.items) }
{
    if is_such {
        all.push(at)?;
    }
    Ok(())
}

/// The occurrences that refer to a declaration, as they rise.
pub fn references(alloc: Global, world: &World, declared: u32) -> Result<Vec<u32>, OutOfMemory>
    ensures { IfOk result (λ all. ListsOnce all.items (tell.IsReferenceTo (tell.rows_in world.now) (tell.table_in world.now) declared)) }
{
    let Ok(count) = u32::try_from(world.under.rows.len()) else {
        return Err(OutOfMemory);
    };
    let mut all = Vec::new(alloc);
    for at in 0..count {
        let is_such = is_reference(world, at, declared);
        push_if(&mut all, at, is_such)?;
    }
    Ok(all)
}

/// The types strictly below a type, as they rise (JLS 4.10.2).
pub fn subtypes(alloc: Global, world: &World, over: u32) -> Result<Vec<u32>, OutOfMemory>
    ensures { AreSupersOf (tell.rows_in world.now) (tell.table_in world.now) world.now.supers.now
        → IfOk result (λ all. ListsOnce all.items (tell.IsSubtypeOf (tell.rows_in world.now) (tell.table_in world.now) over)) }
{
    let Ok(count) = u32::try_from(world.under.rows.len()) else {
        return Err(OutOfMemory);
    };
    let mut all = Vec::new(alloc);
    for at in 0..count {
        let is_such = is_subtype(world, at, over);
        push_if(&mut all, at, is_such)?;
    }
    Ok(all)
}
