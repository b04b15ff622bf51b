// Bodies of methods, names of constructors, and what classes and interfaces may not declare (JLS 8.1.1.1, 8.4.3.1, 8.4.7, 8.8, 9.1.4, 9.3.1).
ghost use Rattle.std.specs.Prelude.{◌≡◌, ◌+◌, ◌<◌, ◌^◌};
ghost use Rattle.jr_tree.specs.declared.label.Role.TheVariants as role;
ghost use Rattle.jr_tree.specs.Rows as rows;
ghost use Rattle.jr_plain.specs.Same as same;
ghost use Rattle.jr_defs.specs.MemberRules as defined;
ghost use Rattle.jr_member_rules.specs.Bodies as plain;

use jr_places::{
    constructed_class, declaring_type, is_abstract, is_body_of, is_class, is_in_interface,
    is_interface, is_method, name_at, parent_at, role_at, written_at,
};
use jr_tree::{Label, Role, Row};

// The method is native.
fn is_native(all: &[Row], at: u32) -> bool
    ensures { result ≡ plain.is_native all.now at }
{
    written_at(all, at).is_native
}

// A method has a body; all else counts as having one.
fn has_body(all: &[Row], at: u32) -> bool
    ensures { result ≡ defined.has_body (rows.label all.now at) }
{
    match all.get(at as usize) {
        Some(row) => match row.label {
            Label::Method { has_body, .. } => has_body,
            _ => true,
        },
        None => true,
    }
}

// An abstract or native method has a body, or another one has none.
fn has_wrong_body(all: &[Row], at: u32) -> bool
    ensures { result ≡ plain.has_wrong_body all.now at }
{
    is_method(all, at)
        && (((is_abstract(all, at) || is_native(all, at)) && has_body(all, at))
            || ((!is_abstract(all, at) && !is_native(all, at)) && !has_body(all, at)))
}

// A constructor that is written.
fn is_written_constructor(all: &[Row], at: u32) -> bool
    ensures { result ≡ plain.is_constructor_label (rows.label all.now at) }
{
    match all.get(at as usize) {
        Some(row) => match row.label {
            Label::Constructor { .. } => true,
            _ => false,
        },
        None => false,
    }
}

// The constructor has another name than its class.
fn is_named_otherwise(all: &[Row], at: u32) -> bool
    ensures { result ≡ plain.is_named_otherwise all.now at }
{
    match constructed_class(all, at) {
        Some(class) => is_written_constructor(all, at) && name_at(all, at) != name_at(all, class),
        None => false,
    }
}

// An abstract method in a class that is not abstract.
fn is_abstract_in_class(all: &[Row], at: u32) -> bool
    ensures { result ≡ plain.is_abstract_in_class all.now at }
{
    match declaring_type(all, at) {
        Some(over) => {
            is_method(all, at)
                && is_abstract(all, at)
                && (is_class(all, over) && !is_abstract(all, over))
        }
        None => false,
    }
}

// A constructor in an interface.
fn is_constructor_in_interface(all: &[Row], at: u32) -> bool
    ensures { result ≡ plain.is_constructor_in_interface all.now at }
{
    match constructed_class(all, at) {
        Some(over) => is_interface(all, over),
        None => false,
    }
}

/// An initializer of a class or interface.
pub fn is_initializer(all: &[Row], at: u32) -> bool
    ensures { result ≡ plain.is_initializer (rows.label all.now at) }
{
    match all.get(at as usize) {
        Some(row) => match row.label {
            Label::Initializer { .. } => true,
            _ => false,
        },
        None => false,
    }
}

/// The type in whose body the row stands, right below it.
pub fn body_type(all: &[Row], at: u32) -> Option<u32>
    ensures { result ≡ plain.body_type all.now at }
{
    let body = parent_at(all, at);
    let over = parent_at(all, body);
    if is_body_of(all, over, body) {
        Some(over)
    } else {
        None
    }
}

// An initializer in an interface.
fn is_initializer_in_interface(all: &[Row], at: u32) -> bool
    ensures { result ≡ plain.is_initializer_in_interface all.now at }
{
    match body_type(all, at) {
        Some(over) => is_initializer(all, at) && is_interface(all, over),
        None => false,
    }
}

fn is_field(all: &[Row], at: u32) -> bool
    ensures { result ≡ same.same_role (rows.role_at all.now at) role.Field }
{
    match role_at(all, at) {
        Role::Field => true,
        _ => false,
    }
}

// A field of an interface without an initializer, which would stand behind it.
fn is_not_initialized(all: &[Row], at: u32) -> bool
    ensures { at + 1 < 2 ^ 32 → result ≡ plain.is_not_initialized all.now at }
{
    is_field(all, at) && is_in_interface(all, at) && parent_at(all, at.saturating_add(1)) != at
}

/// A body that may not be there or is missing, a constructor of another name, or a declaration that its class or interface may not have.
pub fn stands_wrong(all: &[Row], at: u32) -> bool
    ensures { at + 1 < 2 ^ 32 → result ≡ plain.stands_wrong all.now at }
{
    has_wrong_body(all, at)
        || (is_named_otherwise(all, at)
            || (is_abstract_in_class(all, at)
                || (is_constructor_in_interface(all, at)
                    || (is_initializer_in_interface(all, at) || is_not_initialized(all, at)))))
}
