// Whose code may run a method.
ghost use Rattle.std.specs.Prelude.{◌≡◌, ◌+◌, ◌^◌, ◌<◌, ◌&&◌, ◌||◌, Decides, IfOk};
ghost use Rattle.jr_tree.specs.declared.label.Role.TheVariants as role;
ghost use Rattle.jr_tree.specs.Rows as all_rows;
ghost use Rattle.jr_dispatch.specs.Methods.{IsWholeWorld};
ghost use Rattle.jr_supers.specs.Supers.{ListsOnce};
ghost use Rattle.jr_report.specs.Calls as calls;
ghost use Rattle.jr_report.specs.Calling as tell;
ghost use Rattle.jr_report.specs.Listed.{rows_in, table_in};
ghost use Rattle.jr_report.specs.Reports.{types_in};

use crate::called::{called_as, has_to_string};
use crate::listed::push_if;
use jr_base::{OutOfMemory, Symbol};
use jr_defs::RowType;
use jr_places::{Stamps, end_at};
use jr_supers::is_reference;
use jr_tree::{Label, Row};
use jr_types::is_string_type;
use jr_view::View;
use std::alloc::Global;

// What runs a method. Contracts see what it holds.
#[derive(Clone, Copy)]
struct Sought<'a> {
    /// Calls of these methods.
    called: &'a Stamps,
    /// String conversions of objects.
    is_to_string: bool,
}

fn type_at(view: &View, at: u32) -> Option<RowType>
    ensures { result ≡ types_in view.now at }
{
    match view.types.get(at as usize) {
        Some(ty) => *ty,
        None => None,
    }
}

fn is_text(view: &View, at: u32) -> bool
    ensures { result ≡ calls.is_text (rows_in view.now.sight.world) (types_in view.now at) }
{
    match type_at(view, at) {
        Some(ty) => is_string_type(view.sight.world.under.rows, ty),
        None => false,
    }
}

// An expression of a reference type other than String; null is of none.
fn is_shown(view: &View, at: u32) -> bool
    ensures { result ≡ calls.is_shown (rows_in view.now.sight.world) (types_in view.now at) }
{
    match type_at(view, at) {
        Some(ty) => is_reference(ty) && !is_string_type(view.sight.world.under.rows, ty),
        None => false,
    }
}

// A sum with these operands is a text, and one of them is shown by its `toString`.
fn shows_either(view: &View, at: u32, left: u32, right: u32) -> bool
    ensures { result ≡ (calls.is_text (rows_in view.now.sight.world) (types_in view.now at)
        && (calls.is_shown (rows_in view.now.sight.world) (types_in view.now left) || calls.is_shown (rows_in view.now.sight.world) (types_in view.now right))) }
{
    is_text(view, at) && (is_shown(view, left) || is_shown(view, right))
}

// An operator that makes a text, with an operand that is turned to one by its `toString` (JLS 15.18.1.1, 15.26.2).
fn shows_object(view: &View, at: u32) -> bool
    ensures { at + 2 < 2 ^ 32 → result ≡ calls.shows_object (rows_in view.now.sight.world) (types_in view.now) at }
{
    let rows = view.sight.world.under.rows;
    let left = at.saturating_add(1);
    let right = end_at(rows, left);
    match rows.get(at as usize) {
        Some(row) => match row.label {
            Label::Binary { op: Symbol::Plus } => shows_either(view, at, left, right),
            Label::Assign {
                op: Symbol::PlusAssign,
            } => is_text(view, left) && is_shown(view, right),
            _ => false,
        },
        None => false,
    }
}

// A call of a method, a creation, or a call of a constructor.
fn is_call(rows: &[Row], at: u32) -> bool
    ensures { result ≡ calls.is_call (all_rows.label rows.now at) }
{
    match rows.get(at as usize) {
        Some(row) => match row.label {
            Label::Call { .. } => true,
            Label::New => true,
            Label::ConstructorCall { .. } => true,
            Label::ImplicitCall => true,
            _ => false,
        },
        None => false,
    }
}

// The row calls one of these.
fn calls_one(view: &View, called: &Stamps, at: u32) -> bool
    ensures { Decides result (tell.CallsOne (rows_in view.now.sight.world) (table_in view.now.sight.world) called.now at) }
{
    if !is_call(view.sight.world.under.rows, at) {
        return false;
    }
    match view.sight.world.under.declared(at) {
        Some(target) => called.has(target),
        None => false,
    }
}

// The row is a string conversion, where these are sought.
fn is_conversion(view: &View, is_to_string: bool, at: u32) -> bool
    ensures { at + 2 < 2 ^ 32 → Decides result (tell.IsShownAt view.now is_to_string at) }
{
    if !is_to_string {
        return false;
    }
    shows_object(view, at)
}

// The row is a call or conversion that is sought.
fn is_sought(view: &View, sought: Sought<'_>, at: u32) -> bool
    ensures { at + 2 < 2 ^ 32 → Decides result (tell.IsSoughtAt view.now sought.entry.called.now sought.entry.is_to_string at) }
{
    if calls_one(view, sought.called, at) {
        return true;
    }
    is_conversion(view, sought.is_to_string, at)
}

// A declaration whose code runs.
fn has_code(rows: &[Row], at: u32) -> bool
    ensures { result ≡ calls.has_code (all_rows.label rows.now at) }
{
    match rows.get(at as usize) {
        Some(row) => match row.label {
            Label::Method { .. } => true,
            Label::Constructor { .. } => true,
            Label::DefaultConstructor => true,
            Label::Initializer { .. } => true,
            Label::Field { .. } => true,
            _ => false,
        },
        None => false,
    }
}

// One of the rows from this one on, up to the end, is sought.
fn holds(view: &View, sought: Sought<'_>, first: u32, end: u32) -> bool
    ensures { end + 1 < 2 ^ 32 → Decides result (tell.HoldsSought view.now sought.entry.called.now sought.entry.is_to_string first end) }
{
    for at in first..end {
        if is_sought(view, sought, at) {
            return true;
        }
    }
    false
}

// The code of the declaration holds what is sought.
fn is_caller(view: &View, sought: Sought<'_>, at: u32) -> bool
    ensures { tell.IsInRange view.now at → Decides result (tell.IsSoughtIn view.now sought.entry.called.now sought.entry.is_to_string at) }
{
    let rows = view.sight.world.under.rows;
    if !has_code(rows, at) {
        return false;
    }
    holds(view, sought, at, end_at(rows, at))
}

// The declarations, as they rise, whose code holds what is sought.
fn all_callers(alloc: Global, view: &View, sought: Sought<'_>) -> Result<Vec<u32>, OutOfMemory>
    ensures { tell.IsTreeOf view.now → IfOk result (λ all. ListsOnce all.items (tell.IsSoughtIn view.now sought.entry.called.now sought.entry.is_to_string)) }
{
    let Ok(count) = u32::try_from(view.sight.world.under.rows.len()) else {
        return Err(OutOfMemory);
    };
    if count >= u32::MAX {
        return Err(OutOfMemory);
    }
    let mut all = Vec::new(alloc);
    for at in 0..count {
        let is_such = is_caller(view, sought, at);
        push_if(&mut all, at, is_such)?;
    }
    Ok(all)
}

/// The methods, constructors, initializers and fields, as they rise, whose code holds a call, creation or constructor call that may run the method,
/// or a string conversion whose `toString` it may be (JLS 15.12.4.4, 15.18.1.1).
pub fn callers(alloc: Global, view: &View, method: u32) -> Result<Vec<u32>, OutOfMemory>
    ensures { IsWholeWorld (table_in view.now.sight.world) view.now.sight.world → all_rows.role_at (rows_in view.now.sight.world) method ≡ role.Method
        → IfOk result (λ all. ListsOnce all.items (calls.IsCallerOf (rows_in view.now.sight.world) (table_in view.now.sight.world) (types_in view.now) method)) }
{
    let world = &view.sight.world;
    let called = called_as(alloc, world, method)?;
    let is_to_string = has_to_string(alloc, world, &called)?;
    let sought = Sought {
        called: &called,
        is_to_string,
    };
    all_callers(alloc, view, sought)
}
