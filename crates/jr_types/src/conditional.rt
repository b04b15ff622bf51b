// The type of the conditional operator (JLS 15.25).

ghost use Rattle.std.specs.Prelude.{◌≡◌, ◌&&◌, if◌then◌else◌, Some, None};
ghost use Rattle.jr_defs.specs.Operators as defined;
ghost use Rattle.jr_defs.specs.Referents.{Table};
ghost use Rattle.jr_plain.specs.Conversions as conversions;
ghost use Rattle.jr_plain.specs.Typing as plain;
ghost use Rattle.jr_supers.specs.Supers.{AreSupersOf};
ghost use Rattle.jr_types.specs.Seen.{int_if, operands};

use crate::conversions::{is_null, is_same_type, is_void, plain_if, plain_of, promote};
use jr_defs::{Element, RowType};
use jr_supers::{Supers, is_reference};
use jr_tree::Row;

/// The type of an operand of `?:`, with its value where it is a constant int.
#[derive(Clone, Copy, Debug, PartialEq, Eq)]
pub struct Operand {
    pub ty: RowType,
    pub value: Option<i32>,
}

fn is_small(element: Element) -> bool
    ensures { result ≡ plain.is_small element }
{
    match element {
        Element::Byte => true,
        Element::Short => true,
        Element::Char => true,
        _ => false,
    }
}

fn is_in_range(element: Element, number: i32) -> bool
    ensures { result ≡ defined.fits element number }
{
    match element {
        Element::Byte => -128 <= number && number <= 127,
        Element::Short => -32768 <= number && number <= 32767,
        Element::Char => 0 <= number && number <= 65535,
        _ => false,
    }
}

fn is_value_in(element: Element, value: Option<i32>) -> bool
    ensures { result ≡ plain.is_int_that_fits element (int_if value) }
{
    match value {
        Some(number) => is_in_range(element, number),
        None => false,
    }
}

// The value is one of the type, which is smaller than int.
fn fits(element: Element, value: Option<i32>) -> bool
    ensures { result ≡ (plain.is_small element && plain.is_int_that_fits element (int_if value)) }
{
    is_small(element) && is_value_in(element, value)
}

// The type, where an int of this value fits it.
fn fitting(element: Element, value: Option<i32>) -> Option<Element>
    ensures { result ≡ (if plain.is_small element && plain.is_int_that_fits element (int_if value) then Some element else None) }
{
    if fits(element, value) {
        Some(element)
    } else {
        None
    }
}

// The type that two numeric types have of their own.
fn own_type(
    first: Element,
    second: Element,
    first_value: Option<i32>,
    second_value: Option<i32>,
) -> Option<Element>
    ensures { result ≡ plain.own_type (operands first_value second_value) 0 1 first second }
{
    match second {
        Element::Int => fitting(first, second_value),
        Element::Short => match first {
            Element::Byte => Some(Element::Short),
            Element::Int => fitting(second, first_value),
            _ => None,
        },
        Element::Byte => match first {
            Element::Short => Some(Element::Short),
            Element::Int => fitting(second, first_value),
            _ => None,
        },
        _ => match first {
            Element::Int => fitting(second, first_value),
            _ => None,
        },
    }
}

fn number_element(
    first: Element,
    second: Element,
    first_value: Option<i32>,
    second_value: Option<i32>,
) -> Option<Element>
    ensures { result ≡ plain.number_type (operands first_value second_value) 0 1 first second }
{
    match own_type(first, second, first_value, second_value) {
        Some(element) => Some(element),
        None => promote(first, second),
    }
}

// The type of two numbers.
fn number_type(first: Operand, second: Operand) -> Option<RowType>
    ensures { result ≡ plain.from_plain (plain.number_type (operands first.value second.value) 0 1) first.ty second.ty }
{
    match plain_of(first.ty) {
        Some(low) => match plain_of(second.ty) {
            Some(high) => plain_if(number_element(low, high, first.value, second.value)),
            None => None,
        },
        None => None,
    }
}

// The wider of two reference types.
fn wider_type(rows: &[Row], supers: &Supers, first: RowType, second: RowType) -> Option<RowType>
    ensures { (t : Table) → AreSupersOf rows.now t supers.now → result ≡ plain.wider_type rows.now t first second }
{
    if supers.is_subtype(rows, first, second) {
        Some(second)
    } else if supers.is_subtype(rows, second, first) {
        Some(first)
    } else {
        None
    }
}

// The type, unless it is void.
fn unless_void(ty: RowType) -> Option<RowType>
    ensures { result ≡ (if conversions.is_plain conversions.is_void ty then None else Some ty) }
{
    if is_void(ty) { None } else { Some(ty) }
}

// The type of `?:` on two operands of different types.
fn mixed_type(rows: &[Row], supers: &Supers, first: Operand, second: Operand) -> Option<RowType>
    ensures { (t : Table) → AreSupersOf rows.now t supers.now → result ≡ plain.mixed_type rows.now t (operands first.value second.value) 0 1 first.ty second.ty }
{
    if is_reference(first.ty) && is_reference(second.ty) {
        return wider_type(rows, supers, first.ty, second.ty);
    }
    if is_null(first.ty) && is_reference(second.ty) {
        return Some(second.ty);
    }
    if is_reference(first.ty) && is_null(second.ty) {
        return Some(first.ty);
    }
    number_type(first, second)
}

/// The type of `?:` on two operands.
pub fn conditional_type(
    rows: &[Row],
    supers: &Supers,
    first: Operand,
    second: Operand,
) -> Option<RowType>
    ensures { (t : Table) → AreSupersOf rows.now t supers.now → result ≡ plain.conditional_type rows.now t (operands first.value second.value) 0 1 first.ty second.ty }
{
    if is_same_type(first.ty, second.ty) {
        unless_void(first.ty)
    } else {
        mixed_type(rows, supers, first, second)
    }
}
