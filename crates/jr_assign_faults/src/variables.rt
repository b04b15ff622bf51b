// Which variable a row reads or assigns (JLS 14.4, 15.26, 16).
ghost use Rattle.std.specs.Prelude.{◌≡◌, ◌+◌, ◌<◌, ◌^◌, length};
ghost use Rattle.jr_tree.specs.Rows.{label, role_at};
ghost use Rattle.jr_defs.specs.Referents.{entries};
ghost use Rattle.jr_supers.specs.Tabled.{declared};
ghost use Rattle.jr_assign.specs.Changes.{field_body, member_in};
ghost use Rattle.jr_assign_faults.specs.Known as tell;

use crate::operands::{Operand, bare};
use jr_places::{end_at, parent_at, role_at};
use jr_supers::Tabled;
use jr_tree::{Label, Role, Row};

/// The member that holds a row.
pub(crate) fn member_of(members: &[u32], at: u32) -> u32
    ensures { result ≡ member_in members.now at }
{
    match members.get(at as usize) {
        Some(member) => *member,
        None => 0,
    }
}

fn is_static_field(rows: &[Row], field: u32) -> bool
    ensures { result ≡ tell.is_static_field (label rows.now field) }
{
    match rows.get(field as usize) {
        Some(row) => match row.label {
            Label::Field { modifiers, .. } => modifiers.is_static,
            _ => false,
        },
        None => false,
    }
}

fn is_same(first: bool, second: bool) -> bool
    ensures { result ≡ tell.is_same first second }
{
    if first { second } else { !second }
}

// The body in which a field stands.
fn body_of_field(rows: &[Row], field: u32) -> u32
    ensures { result ≡ field_body rows.now field }
{
    parent_at(rows, parent_at(rows, field))
}

// The member makes what a field of the body belongs to: the class, or an instance of it.
fn makes(rows: &[Row], member: u32, body: u32, is_static: bool) -> bool
    ensures { result ≡ tell.makes (label rows.now member) rows.now member body is_static }
{
    match rows.get(member as usize) {
        Some(row) => match row.label {
            Label::Constructor { .. } => parent_at(rows, member) == body && !is_static,
            Label::Initializer {
                is_static: of_class,
            } => parent_at(rows, member) == body && is_same(of_class, is_static),
            Label::Field { modifiers, .. } => {
                body_of_field(rows, member) == body && is_same(modifiers.is_static, is_static)
            }
            _ => false,
        },
        None => false,
    }
}

fn is_this(rows: &[Row], at: u32) -> bool
    ensures { result ≡ tell.is_this (label rows.now at) }
{
    match rows.get(at as usize) {
        Some(row) => match row.label {
            Label::This { is_qualified } => !is_qualified,
            _ => false,
        },
        None => false,
    }
}

// A field by its simple name, or by `this.` and that, where the row has this label.
fn is_own_in(label: &Label, rows: &[Row], at: u32) -> bool
    ensures { at + 1 < 2 ^ 32 → result ≡ tell.is_own label.now rows.now at }
{
    match label {
        Label::Name { is_qualified, .. } => !*is_qualified,
        Label::Select => is_this(rows, at.saturating_add(1)),
        _ => false,
    }
}

fn is_own(rows: &[Row], at: u32) -> bool
    ensures { length rows.now < 2 ^ 32 → result ≡ tell.is_own (label rows.now at) rows.now at }
{
    match rows.get(at as usize) {
        Some(row) => is_own_in(&row.label, rows, at),
        None => false,
    }
}

// The variable, where it is a field of what is made where the target of an assignment stands.
fn field_by(rows: &[Row], members: &[u32], target: u32, variable: u32) -> Option<u32>
    ensures { length rows.now < 2 ^ 32 → result ≡ tell.field_by rows.now (member_in members.now target) target variable }
{
    let is_made = makes(
        rows,
        member_of(members, target),
        body_of_field(rows, variable),
        is_static_field(rows, variable),
    );
    if is_own(rows, target) && is_made {
        Some(variable)
    } else {
        None
    }
}

// The variable that the target of an assignment assigns: a local, or such a field.
fn target_by(rows: &[Row], members: &[u32], target: u32, variable: u32) -> Option<u32>
    ensures { length rows.now < 2 ^ 32 → result ≡ tell.target_by (role_at rows.now variable) rows.now (member_in members.now target) target variable }
{
    match role_at(rows, variable) {
        Role::Local => Some(variable),
        Role::Field => field_by(rows, members, target, variable),
        _ => None,
    }
}

fn target_at(under: &Tabled, members: &[u32], target: u32) -> Option<u32>
    ensures { length under.now.rows.now < 2 ^ 32 → result ≡ tell.target_at under.now.rows.now (entries under.now.table.now) members.now target }
{
    match under.declared(target) {
        Some(variable) => target_by(under.rows, members, target, variable),
        None => None,
    }
}

// A local, where it has an initializer.
fn valued_local(rows: &[Row], at: u32) -> Option<u32>
    requires { at + 1 < 2 ^ 32 }
    ensures { result ≡ tell.valued_local rows.now at }
{
    if at + 1 < end_at(rows, at) {
        Some(at)
    } else {
        None
    }
}

/// The variable that is assigned once the parts of the row are done.
pub(crate) fn assigned_at(under: &Tabled, members: &[u32], at: u32) -> Option<u32>
    requires { at + 1 < 2 ^ 32 }
    ensures { length under.now.rows.now < 2 ^ 32 → result ≡ tell.assigned_by (label under.now.rows.now at) under.now.rows.now (entries under.now.table.now) members.now at }
{
    match under.rows.get(at as usize) {
        Some(row) => match row.label {
            Label::Assign { .. } => target_at(under, members, bare(under.rows, at + 1)),
            Label::Local { .. } => valued_local(under.rows, at),
            _ => None,
        },
        None => None,
    }
}

fn is_read(operand: Operand) -> bool
    ensures { result ≡ tell.is_read operand }
{
    match operand {
        Operand::Target => false,
        _ => true,
    }
}

fn local_of(rows: &[Row], declared: Option<u32>) -> Option<u32>
    ensures { result ≡ tell.local_of rows.now declared }
{
    match declared {
        Some(variable) => match role_at(rows, variable) {
            Role::Local => Some(variable),
            _ => None,
        },
        None => None,
    }
}

/// The local that the row reads.
pub(crate) fn read_at(under: &Tabled, operand: Operand, at: u32) -> Option<u32>
    ensures { result ≡ tell.read_by (label under.now.rows.now at) operand (tell.local_of under.now.rows.now (declared (entries under.now.table.now at))) }
{
    let local = local_of(under.rows, under.declared(at));
    match under.rows.get(at as usize) {
        Some(row) => match row.label {
            Label::Name { .. } => { if is_read(operand) { local } else { None } }
            _ => None,
        },
        None => None,
    }
}
