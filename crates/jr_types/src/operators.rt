// Types of operators (JLS 15.14, 15.15, 15.17 to 15.26).

ghost use Rattle.std.specs.Prelude.{◌≡◌, ◌||◌, if◌then◌else◌, Some, None};
ghost use Rattle.jr_defs.specs.Referents.{Table};
ghost use Rattle.jr_defs.specs.Types as types;
ghost use Rattle.jr_defs.specs.Typing as typing;
ghost use Rattle.jr_defs.specs.declared.referent.Element.TheVariants as element;
ghost use Rattle.jr_plain.specs.Conversions as conversions;
ghost use Rattle.jr_plain.specs.Same.{same_type};
ghost use Rattle.jr_plain.specs.Typing as plain;
ghost use Rattle.jr_supers.specs.Supers.{AreSupersOf};
ghost use Rattle.jr_types.specs.Seen.{class_seen};

use crate::conversions::{
    is_boolean, is_castable, is_condition, is_number, is_numeric, is_plain_primitive,
    is_reference_or_null, is_same_type, is_void, plain_if, plain_of, plain_type, promote, promoted,
};
use jr_base::Symbol;
use jr_defs::{Element, RowType};
use jr_places::is_string;
use jr_supers::Supers;
use jr_tree::Row;

/// Binary operators of one typing rule.
#[derive(Clone, Copy, Debug, PartialEq, Eq)]
pub enum OperatorClass {
    Plus,
    Arithmetic,
    Shift,
    Comparison,
    Equality,
    Bitwise,
    Logical,
    Other,
}

/// The typing rule of a binary operator.
pub fn class_of(op: Symbol) -> OperatorClass
    ensures { class_seen result ≡ typing.class_of op }
{
    match op {
        Symbol::Plus => OperatorClass::Plus,
        Symbol::Minus => OperatorClass::Arithmetic,
        Symbol::Star => OperatorClass::Arithmetic,
        Symbol::Slash => OperatorClass::Arithmetic,
        Symbol::Percent => OperatorClass::Arithmetic,
        Symbol::ShiftLeft => OperatorClass::Shift,
        Symbol::ShiftRight => OperatorClass::Shift,
        Symbol::ShiftRightUnsigned => OperatorClass::Shift,
        Symbol::Less => OperatorClass::Comparison,
        Symbol::Greater => OperatorClass::Comparison,
        Symbol::LessEqual => OperatorClass::Comparison,
        Symbol::GreaterEqual => OperatorClass::Comparison,
        Symbol::Equal => OperatorClass::Equality,
        Symbol::NotEqual => OperatorClass::Equality,
        Symbol::And => OperatorClass::Bitwise,
        Symbol::Or => OperatorClass::Bitwise,
        Symbol::Caret => OperatorClass::Bitwise,
        Symbol::AndAnd => OperatorClass::Logical,
        Symbol::OrOr => OperatorClass::Logical,
        _ => OperatorClass::Other,
    }
}

/// The operator within a compound assignment.
pub fn operator_of(sign: Symbol) -> Option<Symbol>
    ensures { result ≡ typing.operator_of sign }
{
    match sign {
        Symbol::PlusAssign => Some(Symbol::Plus),
        Symbol::MinusAssign => Some(Symbol::Minus),
        Symbol::StarAssign => Some(Symbol::Star),
        Symbol::SlashAssign => Some(Symbol::Slash),
        Symbol::PercentAssign => Some(Symbol::Percent),
        Symbol::AndAssign => Some(Symbol::And),
        Symbol::OrAssign => Some(Symbol::Or),
        Symbol::CaretAssign => Some(Symbol::Caret),
        Symbol::ShiftLeftAssign => Some(Symbol::ShiftLeft),
        Symbol::ShiftRightAssign => Some(Symbol::ShiftRight),
        Symbol::ShiftRightUnsignedAssign => Some(Symbol::ShiftRightUnsigned),
        _ => None,
    }
}

fn is_string_element(rows: &[Row], element: Element) -> bool
    ensures { result ≡ plain.is_string_element rows.now element }
{
    match element {
        Element::Class(at) => is_string(rows, at),
        _ => false,
    }
}

/// The type is that of the class String.
pub fn is_string_type(rows: &[Row], ty: RowType) -> bool
    ensures { result ≡ plain.is_string_type rows.now ty }
{
    match plain_of(ty) {
        Some(element) => is_string_element(rows, element),
        None => false,
    }
}

// The type of a sum: of a string and anything but void, or of numbers (JLS 15.18).
fn sum_type(rows: &[Row], first: RowType, second: RowType) -> Option<RowType>
    ensures { result ≡ plain.sum_type rows.now first second }
{
    if is_string_type(rows, first) && !is_void(second) {
        return Some(first);
    }
    if is_string_type(rows, second) && !is_void(first) {
        return Some(second);
    }
    arithmetic_type(first, second)
}

fn arithmetic_type(first: RowType, second: RowType) -> Option<RowType>
    ensures { result ≡ plain.from_plain conversions.promoted_both first second }
{
    match plain_of(first) {
        Some(low) => match plain_of(second) {
            Some(high) => plain_if(promote(low, high)),
            None => None,
        },
        None => None,
    }
}

fn shift_element(first: Element, second: Element) -> Option<Element>
    ensures { result ≡ plain.shift_type first second }
{
    if is_numeric(second) {
        promoted(first)
    } else {
        None
    }
}

fn shift_type(first: RowType, second: RowType) -> Option<RowType>
    ensures { result ≡ plain.from_plain plain.shift_type first second }
{
    match plain_of(first) {
        Some(low) => match plain_of(second) {
            Some(high) => plain_if(shift_element(low, high)),
            None => None,
        },
        None => None,
    }
}

fn bitwise_element(first: Element, second: Element) -> Option<Element>
    ensures { result ≡ plain.bitwise_type first second }
{
    if is_boolean(first) && is_boolean(second) {
        Some(Element::Boolean)
    } else {
        promote(first, second)
    }
}

fn bitwise_type(first: RowType, second: RowType) -> Option<RowType>
    ensures { result ≡ plain.from_plain plain.bitwise_type first second }
{
    match plain_of(first) {
        Some(low) => match plain_of(second) {
            Some(high) => plain_if(bitwise_element(low, high)),
            None => None,
        },
        None => None,
    }
}

fn boolean_if(test: bool) -> Option<RowType>
    ensures { result ≡ (if test then Some (types.plain element.Boolean) else None) }
{
    if test {
        Some(plain_type(Element::Boolean))
    } else {
        None
    }
}

fn comparison_type(first: RowType, second: RowType) -> Option<RowType>
    ensures { result ≡ plain.from_plain plain.comparison_type first second }
{
    boolean_if(is_number(first) && is_number(second))
}

fn logical_type(first: RowType, second: RowType) -> Option<RowType>
    ensures { result ≡ plain.from_plain plain.logical_type first second }
{
    boolean_if(is_condition(first) && is_condition(second))
}

// One type may be cast to the other, or both are one.
fn is_castable_either(rows: &[Row], supers: &Supers, first: RowType, second: RowType) -> bool
    ensures { (t : Table) → AreSupersOf rows.now t supers.now → result ≡ (conversions.is_castable rows.now t first second || (conversions.is_castable rows.now t second first || same_type first second)) }
{
    is_castable(rows, supers, first, second)
        || (is_castable(rows, supers, second, first) || is_same_type(first, second))
}

// Two operands that may be compared (JLS 15.21).
fn is_comparable(rows: &[Row], supers: &Supers, first: RowType, second: RowType) -> bool
    ensures { (t : Table) → AreSupersOf rows.now t supers.now → result ≡ plain.is_comparable rows.now t first second }
{
    (is_number(first) && is_number(second))
        || (is_condition(first) && is_condition(second))
        || (is_reference_or_null(first)
            && is_reference_or_null(second)
            && is_castable_either(rows, supers, first, second))
}

/// The type of a binary operator on operands of two types (JLS 15.17 to 15.24).
pub fn binary_type(
    rows: &[Row],
    supers: &Supers,
    class: OperatorClass,
    first: RowType,
    second: RowType,
) -> Option<RowType>
    ensures { (t : Table) → AreSupersOf rows.now t supers.now → result ≡ plain.binary_type rows.now t (class_seen class) first second }
{
    match class {
        OperatorClass::Plus => sum_type(rows, first, second),
        OperatorClass::Arithmetic => arithmetic_type(first, second),
        OperatorClass::Shift => shift_type(first, second),
        OperatorClass::Comparison => comparison_type(first, second),
        OperatorClass::Equality => boolean_if(is_comparable(rows, supers, first, second)),
        OperatorClass::Bitwise => bitwise_type(first, second),
        OperatorClass::Logical => logical_type(first, second),
        OperatorClass::Other => None,
    }
}

fn unary_element(op: Symbol, element: Element) -> Option<Element>
    ensures { result ≡ plain.unary_type op element }
{
    match op {
        Symbol::Plus => promoted(element),
        Symbol::Minus => promoted(element),
        Symbol::Tilde => promoted(element),
        Symbol::Not => {
            if is_boolean(element) {
                Some(Element::Boolean)
            } else {
                None
            }
        }
        _ => None,
    }
}

/// The type of an operator before its operand (JLS 15.15.3 to 15.15.6).
pub fn unary_type(op: Symbol, operand: RowType) -> Option<RowType>
    ensures { result ≡ plain.unary_of op operand }
{
    match plain_of(operand) {
        Some(element) => plain_if(unary_element(op, element)),
        None => None,
    }
}

fn is_plus(op: Symbol) -> bool
    ensures { result ≡ plain.is_plus op }
{
    match op {
        Symbol::Plus => true,
        _ => false,
    }
}

// What an operator gives may be cast to the type.
fn is_cast_back(rows: &[Row], supers: &Supers, to: RowType, outcome: Option<RowType>) -> bool
    ensures { (t : Table) → AreSupersOf rows.now t supers.now → result ≡ plain.is_cast_back rows.now t to outcome }
{
    match outcome {
        Some(from) => is_castable(rows, supers, from, to),
        None => false,
    }
}

// What the operator gives on the two types may be cast to the first.
fn is_back(rows: &[Row], supers: &Supers, op: Symbol, place: RowType, value: RowType) -> bool
    ensures { (t : Table) → AreSupersOf rows.now t supers.now → result ≡ plain.is_cast_back rows.now t place (plain.binary_type rows.now t (typing.class_of op) place value) }
{
    let outcome = binary_type(rows, supers, class_of(op), place, value);
    is_cast_back(rows, supers, place, outcome)
}

/// A compound assignment to a place of the first type (JLS 15.26.2).
pub fn is_compound(
    rows: &[Row],
    supers: &Supers,
    op: Symbol,
    place: RowType,
    value: RowType,
) -> bool
    ensures { (t : Table) → AreSupersOf rows.now t supers.now → result ≡ plain.is_compound rows.now t op place value }
{
    (is_plus(op) && is_string_type(rows, place) && !is_void(value))
        || (is_plain_primitive(place)
            && is_plain_primitive(value)
            && is_back(rows, supers, op, place, value))
}
