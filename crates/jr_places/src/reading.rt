// What stands at a number; past the end there is nothing, below itself.
ghost use Rattle.std.specs.Prelude.{◌≡◌, ◌+◌, ◌<◌, ◌^◌};
ghost use Rattle.jr_tree.specs.Rows as rows;
ghost use Rattle.jr_plain.specs.Declarations as plain;
ghost use Rattle.jr_plain.specs.Enclosing as enclosing;

use jr_tree::{Label, Role, Row, Sought};

/// The identifier of a row.
pub fn name_at(all: &[Row], at: u32) -> &[u8]
    ensures { result.now ≡ rows.name all.now at }
{
    match all.get(at as usize) {
        Some(row) => row.name.bytes(),
        None => &[],
    }
}

/// The row round a row.
pub fn parent_at(all: &[Row], at: u32) -> u32
    ensures { result ≡ rows.parent all.now at }
{
    match all.get(at as usize) {
        Some(row) => row.parent,
        None => at,
    }
}

/// What a row declares.
pub fn role_at(all: &[Row], at: u32) -> Role
    ensures { result ≡ rows.role_at all.now at }
{
    match all.get(at as usize) {
        Some(row) => row.label.role(),
        None => Role::Nothing,
    }
}

/// The row is a type.
pub fn is_type(all: &[Row], at: u32) -> bool
    ensures { result ≡ plain.is_type all.now at }
{
    match role_at(all, at) {
        Role::Type => true,
        _ => false,
    }
}

fn is_body(all: &[Row], at: u32) -> bool
    ensures { result ≡ enclosing.is_body (rows.label all.now at) }
{
    match all.get(at as usize) {
        Some(row) => match row.label {
            Label::Body => true,
            _ => false,
        },
        None => false,
    }
}

/// The row `body` is the body of the type `over`.
pub fn is_body_of(all: &[Row], over: u32, body: u32) -> bool
    ensures { result ≡ enclosing.is_body_of all.now over body }
{
    is_type(all, over) && is_body(all, body) && parent_at(all, body) == over
}

/// The number behind the last row below a row.
pub fn end_at(all: &[Row], at: u32) -> u32
    ensures { at + 1 < 2 ^ 32 → result ≡ rows.end all.now at }
{
    match all.get(at as usize) {
        Some(row) => row.end,
        None => at.saturating_add(1),
    }
}

/// What a row looks for.
pub fn sought_at(all: &[Row], at: u32) -> Sought
    ensures { result ≡ rows.sought_at all.now at }
{
    match all.get(at as usize) {
        Some(row) => row.label.sought(),
        None => Sought::Nothing,
    }
}

/// The row is a unit.
pub fn is_unit(all: &[Row], at: u32) -> bool
    ensures { result ≡ enclosing.is_unit (rows.label all.now at) }
{
    match all.get(at as usize) {
        Some(row) => match row.label {
            Label::Unit => true,
            _ => false,
        },
        None => false,
    }
}

/// The row is a type that its unit declares outside any other.
pub fn is_top_level(all: &[Row], at: u32) -> bool
    ensures { result ≡ enclosing.is_top_level all.now at }
{
    is_type(all, at) && is_unit(all, parent_at(all, at))
}

/// The row is an interface.
pub fn is_interface(all: &[Row], at: u32) -> bool
    ensures { result ≡ plain.is_interface all.now at }
{
    match all.get(at as usize) {
        Some(row) => match row.label {
            Label::Interface { .. } => true,
            _ => false,
        },
        None => false,
    }
}

/// The row is a class.
pub fn is_class(all: &[Row], at: u32) -> bool
    ensures { result ≡ plain.is_class all.now at }
{
    match all.get(at as usize) {
        Some(row) => match row.label {
            Label::Class { .. } => true,
            _ => false,
        },
        None => false,
    }
}

// A type of java.lang of this name, which the first unit of the prelude declares.
fn is_of_prelude(all: &[Row], at: u32, name: &[u8]) -> bool
    ensures { result ≡ plain.is_prelude all.now name.now at }
{
    is_type(all, at) && parent_at(all, at) == 1 && name_at(all, at) == name
}

/// The row is the class Object.
pub fn is_object(all: &[Row], at: u32) -> bool
    ensures { result ≡ plain.is_object all.now at }
{
    is_of_prelude(all, at, b"Object")
}

/// The row is the class String.
pub fn is_string(all: &[Row], at: u32) -> bool
    ensures { result ≡ plain.is_string all.now at }
{
    is_of_prelude(all, at, b"String")
}
