// Parts of rows.
ghost use Rattle.std.specs.Prelude.{◌≡◌, ◌||◌, IfOk};
ghost use Rattle.jr_tree.specs.Rows.{label, end};
ghost use Rattle.jr_plain.specs.Search.{any_below};
ghost use Rattle.jr_assign.specs.Blank as blank;
ghost use Rattle.jr_assign.specs.Changes as changes;
ghost use Rattle.jr_assign.specs.Made as made;

use jr_base::OutOfMemory;
use jr_places::parent_at;
use jr_tree::{Label, Row, ThisOrSuper};

fn is_same(first: bool, second: bool) -> bool
    ensures { result ≡ blank.is_same first second }
{
    if first { second } else { !second }
}

fn either(first: bool, second: bool) -> bool
    ensures { result ≡ (first || second) }
{
    first || second
}

/// The row is an interface.
pub(crate) fn is_interface(rows: &[Row], at: u32) -> bool
    ensures { result ≡ changes.is_interface (label rows.now at) }
{
    match rows.get(at as usize) {
        Some(row) => match row.label {
            Label::Interface { .. } => true,
            _ => false,
        },
        None => false,
    }
}

fn is_class(rows: &[Row], at: u32) -> bool
    ensures { result ≡ blank.is_class (label rows.now at) }
{
    match rows.get(at as usize) {
        Some(row) => match row.label {
            Label::Class { .. } => true,
            _ => false,
        },
        None => false,
    }
}

/// Where a row ends.
pub(crate) fn end_in(rows: &[Row], at: u32) -> Result<u32, OutOfMemory>
    ensures { IfOk result (λ found. found ≡ end rows.now at) }
{
    match rows.get(at as usize) {
        Some(row) => Ok(row.end),
        None => Err(OutOfMemory),
    }
}

/// The body in which a field stands, below its declaration.
pub(crate) fn body_of_field(rows: &[Row], at: u32) -> u32
    ensures { result ≡ changes.field_body rows.now at }
{
    parent_at(rows, parent_at(rows, at))
}

/// The variable at a row has an initializer.
pub(crate) fn is_valued(rows: &[Row], at: u32) -> bool
    ensures { result ≡ changes.has_value rows.now at }
{
    match rows.get(at as usize) {
        Some(row) => at < row.end && row.end - at > 1,
        None => false,
    }
}

/// The row is a blank final field of a class.
pub(crate) fn is_blank(rows: &[Row], at: u32) -> bool
    ensures { result ≡ blank.is_blank rows.now at }
{
    match rows.get(at as usize) {
        Some(row) => match row.label {
            Label::Field { modifiers, .. } => {
                modifiers.is_final
                    && !is_valued(rows, at)
                    && is_class(rows, parent_at(rows, body_of_field(rows, at)))
            }
            _ => false,
        },
        None => false,
    }
}

/// The row is a field of a class itself.
pub(crate) fn is_static_field(rows: &[Row], at: u32) -> bool
    ensures { result ≡ blank.is_static_field (label rows.now at) }
{
    match rows.get(at as usize) {
        Some(row) => match row.label {
            Label::Field { modifiers, .. } => modifiers.is_static,
            _ => false,
        },
        None => false,
    }
}

/// The row is an initializer or fields, of a class or of its instances.
pub(crate) fn is_part(rows: &[Row], at: u32, is_static: bool) -> bool
    ensures { result ≡ blank.is_part (label rows.now at) is_static }
{
    match rows.get(at as usize) {
        Some(row) => match row.label {
            Label::Initializer {
                is_static: of_class,
            } => is_same(of_class, is_static),
            Label::Fields { modifiers } => is_same(modifiers.is_static, is_static),
            _ => false,
        },
        None => false,
    }
}

fn is_constructor(rows: &[Row], at: u32) -> bool
    ensures { result ≡ blank.is_constructor (label rows.now at) }
{
    match rows.get(at as usize) {
        Some(row) => match row.label {
            Label::Constructor { .. } => true,
            Label::DefaultConstructor => true,
            _ => false,
        },
        None => false,
    }
}

fn is_this_call(rows: &[Row], at: u32) -> bool
    ensures { result ≡ blank.is_this_call (label rows.now at) }
{
    match rows.get(at as usize) {
        Some(row) => match row.label {
            Label::ConstructorCall {
                which: ThisOrSuper::This,
            } => true,
            _ => false,
        },
        None => false,
    }
}

// The row is a call `this(..)` with which the constructor begins.
fn is_handing(rows: &[Row], constructor: u32, at: u32) -> bool
    ensures { result ≡ made.is_handing rows.now constructor at }
{
    constructor < at
        && is_this_call(rows, at)
        && parent_at(rows, parent_at(rows, at)) == constructor
}

// Of the rows before the end one is such a call.
#[tactic(auto, using(crate::proofs::Handing::handing_begins))]
fn hands_below(rows: &[Row], constructor: u32, end: u32) -> bool
    ensures { result ≡ any_below end (made.is_handing rows.now constructor) }
{
    let mut hands = false;
    for inside in 0..end.saturating_sub(constructor) {
        let is_here = is_handing(rows, constructor, constructor + inside);
        hands = either(hands, is_here);
    }
    hands
}

// The constructor at a row begins with a call `this(..)`.
#[tactic(auto, using(crate::proofs::Handing::none_past))]
fn hands_on(rows: &[Row], constructor: u32) -> bool
    ensures { result ≡ blank.hands_on rows.now constructor }
{
    match rows.get(constructor as usize) {
        Some(row) => hands_below(rows, constructor, row.end),
        None => false,
    }
}

/// The row is a constructor of the body that begins with no call `this(..)`.
pub(crate) fn is_first(rows: &[Row], body: u32, at: u32) -> bool
    ensures { result ≡ blank.is_first rows.now body at }
{
    is_constructor(rows, at) && parent_at(rows, at) == body && !hands_on(rows, at)
}
