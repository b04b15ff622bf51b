// The modifiers of declarations, with those that an interface gives its members (JLS 6.6, 8.1.1, 8.3.1, 8.4.3, 8.5.2, 9.3, 9.4, 9.5).
ghost use Rattle.std.specs.Prelude.{◌≡◌};
ghost use Rattle.jr_tree.specs.Rows as rows;
ghost use Rattle.jr_tree.specs.declared.label.Role.TheVariants as role;
ghost use Rattle.jr_defs.specs.Enclosing as enclosed;
ghost use Rattle.jr_defs.specs.Modifiers as modified;
ghost use Rattle.jr_plain.specs.Access as access;
ghost use Rattle.jr_plain.specs.Enclosing as enclosing;
ghost use Rattle.jr_plain.specs.Modifiers as modifiers;
ghost use Rattle.jr_plain.specs.Members as members;
ghost use Rattle.jr_plain.specs.Same as same;

use crate::reading::{is_body_of, is_class, is_interface, is_type, parent_at, role_at};
use jr_tree::{Label, Modifiers, Role, Row};

const UNMODIFIED: Modifiers = Modifiers {
    is_public: false,
    is_protected: false,
    is_private: false,
    is_abstract: false,
    is_static: false,
    is_final: false,
    is_native: false,
};

// The modifiers that are written.
fn written(label: &Label) -> Modifiers
    ensures { result ≡ modified.written label.now }
{
    match label {
        Label::Class { modifiers, .. } => *modifiers,
        Label::Interface { modifiers, .. } => *modifiers,
        Label::Fields { modifiers } => *modifiers,
        Label::Field { modifiers, .. } => *modifiers,
        Label::Method { modifiers, .. } => *modifiers,
        Label::Constructor { modifiers } => *modifiers,
        _ => UNMODIFIED,
    }
}

/// The modifiers that are written at a row.
pub fn written_at(all: &[Row], at: u32) -> Modifiers
    ensures { result ≡ modified.written (rows.label all.now at) }
{
    match all.get(at as usize) {
        Some(row) => written(&row.label),
        None => UNMODIFIED,
    }
}

// The row is a default constructor.
fn is_default(all: &[Row], at: u32) -> bool
    ensures { result ≡ modifiers.is_default_constructor (rows.label all.now at) }
{
    match all.get(at as usize) {
        Some(row) => match row.label {
            Label::DefaultConstructor => true,
            _ => false,
        },
        None => false,
    }
}

/// The modifiers that say who has access; a default constructor has those of its class.
#[tactic(auto, using(crate::proofs::Accessed::access_is))]
pub fn access_of(all: &[Row], at: u32) -> Modifiers
    ensures { result ≡ modified.access_of all.now at }
{
    if is_default(all, at) {
        written_at(all, parent_at(all, parent_at(all, at)))
    } else {
        written_at(all, at)
    }
}

/// Fields, methods and member types are members; constructors and initializers are not.
pub fn is_member_role(role: Role) -> bool
    ensures { result ≡ enclosing.is_member_role role }
{
    match role {
        Role::Type => true,
        Role::Field => true,
        Role::Method => true,
        _ => false,
    }
}

// The row round a declaration.
fn holder(all: &[Row], at: u32) -> u32
    ensures { result ≡ enclosed.holder (rows.role_at all.now at) all.now at }
{
    match role_at(all, at) {
        Role::Field => parent_at(all, parent_at(all, at)),
        _ => parent_at(all, at),
    }
}

/// The type whose body declares a member.
pub fn declaring_type(all: &[Row], at: u32) -> Option<u32>
    ensures { result ≡ enclosing.declaring_type all.now at }
{
    let body = holder(all, at);
    let over = parent_at(all, body);
    if is_member_role(role_at(all, at)) && is_body_of(all, over, body) {
        Some(over)
    } else {
        None
    }
}

/// The class of a constructor.
pub fn constructed_class(all: &[Row], at: u32) -> Option<u32>
    ensures { result ≡ enclosing.constructed_class all.now at }
{
    let body = parent_at(all, at);
    let over = parent_at(all, body);
    match role_at(all, at) {
        Role::Constructor => {
            if is_body_of(all, over, body) {
                Some(over)
            } else {
                None
            }
        }
        _ => None,
    }
}

/// An interface declares the member.
pub fn is_in_interface(all: &[Row], at: u32) -> bool
    ensures { result ≡ modifiers.is_in_interface all.now at }
{
    match declaring_type(all, at) {
        Some(over) => is_interface(all, over),
        None => false,
    }
}

// The row is the default constructor of a class that an interface declares.
fn is_default_in_interface(all: &[Row], at: u32) -> bool
    ensures { result ≡ modifiers.is_default_in_interface all.now at }
{
    match constructed_class(all, at) {
        Some(over) => is_default(all, at) && is_in_interface(all, over),
        None => false,
    }
}

/// The declaration is public: it is written so, or an interface declares it.
pub fn is_public(all: &[Row], at: u32) -> bool
    ensures { result ≡ modifiers.is_public all.now at }
{
    access_of(all, at).is_public || (is_in_interface(all, at) || is_default_in_interface(all, at))
}

/// The declaration is protected.
pub fn is_protected(all: &[Row], at: u32) -> bool
    ensures { result ≡ modifiers.is_protected all.now at }
{
    access_of(all, at).is_protected
}

/// The declaration is private.
pub fn is_private(all: &[Row], at: u32) -> bool
    ensures { result ≡ modifiers.is_private all.now at }
{
    access_of(all, at).is_private
}

fn is_field(all: &[Row], at: u32) -> bool
    ensures { result ≡ same.same_role (rows.role_at all.now at) role.Field }
{
    match role_at(all, at) {
        Role::Field => true,
        _ => false,
    }
}

pub fn is_method(all: &[Row], at: u32) -> bool
    ensures { result ≡ same.same_role (rows.role_at all.now at) role.Method }
{
    match role_at(all, at) {
        Role::Method => true,
        _ => false,
    }
}

/// The declaration is static: it is written so, or an interface declares the field or type, or it is an interface.
pub fn is_static(all: &[Row], at: u32) -> bool
    ensures { result ≡ modifiers.is_static all.now at }
{
    written_at(all, at).is_static
        || ((is_field(all, at) || is_type(all, at)) && is_in_interface(all, at))
        || is_interface(all, at)
}

/// The declaration is abstract: it is written so, or an interface declares the method, or it is an interface.
pub fn is_abstract(all: &[Row], at: u32) -> bool
    ensures { result ≡ modifiers.is_abstract all.now at }
{
    written_at(all, at).is_abstract
        || (is_method(all, at) && is_in_interface(all, at))
        || is_interface(all, at)
}

// The word `final` at a variable, or at any other declaration.
fn is_label_final(label: &Label) -> bool
    ensures { result ≡ modified.final_variable label.now }
{
    match label {
        Label::Local { is_final, .. } => *is_final,
        Label::Parameter { is_final, .. } => *is_final,
        _ => written(label).is_final,
    }
}

fn is_written_final(all: &[Row], at: u32) -> bool
    ensures { result ≡ modified.final_variable (rows.label all.now at) }
{
    match all.get(at as usize) {
        Some(row) => is_label_final(&row.label),
        None => false,
    }
}

/// The declaration is final: it is written so, or an interface declares the field.
pub fn is_final(all: &[Row], at: u32) -> bool
    ensures { result ≡ modifiers.is_final all.now at }
{
    is_written_final(all, at) || (is_field(all, at) && is_in_interface(all, at))
}

/// The class is a member class that is not static, so its objects have an enclosing object (JLS 8.1.3).
pub fn is_inner(all: &[Row], at: u32) -> bool
    ensures { result ≡ modifiers.is_inner all.now at }
{
    is_class(all, at) && declaring_type(all, at).is_some() && !is_static(all, at)
}

/// What an interface has of Object does not reach types from it.
pub fn passes(all: &[Row], over: u32, at: u32) -> bool
    ensures { result ≡ members.passes all.now over at }
{
    !is_interface(all, over) || is_in_interface(all, at)
}

/// The row is a type, a member that is static or one that is an interface's: what is not reached through an object.
pub fn needs_no_object(all: &[Row], at: u32) -> bool
    ensures { result ≡ access.needs_no_object all.now at }
{
    is_static(all, at) || is_type(all, at)
}
