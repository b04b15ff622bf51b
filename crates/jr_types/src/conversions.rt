// Promotion and casts (JLS 5.5, 5.6).
ghost use Rattle.std.specs.Prelude.{◌≡◌, ◌⊎◌, ◌≤◌, option_map};
ghost use Rattle.jr_defs.specs.Referents.{Table};
ghost use Rattle.jr_defs.specs.Types as types;
ghost use Rattle.jr_plain.specs.Conversions as plain;
ghost use Rattle.jr_plain.specs.Same.{same_type};
ghost use Rattle.jr_plain.specs.Supertypes as supertypes;
ghost use Rattle.jr_supers.specs.Supers.{AreSupersOf};
ghost use Rattle.jr_types.specs.Casts as casts;

use jr_defs::{Element, RowType};
use jr_places::{is_class, is_final, is_interface};
use jr_supers::{Supers, is_reference};
use jr_tree::Row;

/// boolean
pub fn is_boolean(element: Element) -> bool
    ensures { result ≡ plain.is_boolean element }
{
    match element {
        Element::Boolean => true,
        _ => false,
    }
}

/// byte, short, char and int
pub fn is_integral(element: Element) -> bool
    ensures { result ≡ plain.is_integral element }
{
    match element {
        Element::Byte => true,
        Element::Short => true,
        Element::Char => true,
        Element::Int => true,
        _ => false,
    }
}

/// byte, short, char, int and long (JLS 4.2.1)
pub fn is_numeric(element: Element) -> bool
    ensures { result ≡ plain.is_numeric element }
{
    match element {
        Element::Byte => true,
        Element::Short => true,
        Element::Char => true,
        Element::Int => true,
        Element::Long => true,
        _ => false,
    }
}

/// boolean and the numeric types (JLS 4.2)
pub fn is_primitive(element: Element) -> bool
    ensures { result ≡ plain.is_primitive element }
{
    is_numeric(element) || is_boolean(element)
}

/// The type of a promoted operand (JLS 5.6.1).
pub fn promoted(element: Element) -> Option<Element>
    ensures { result ≡ plain.promoted_type element }
{
    if is_integral(element) {
        Some(Element::Int)
    } else {
        match element {
            Element::Long => Some(Element::Long),
            _ => None,
        }
    }
}

/// The type of two promoted operands (JLS 5.6.2).
pub fn promote(first: Element, second: Element) -> Option<Element>
    ensures { result ≡ plain.promoted_both first second }
{
    if is_integral(first) && is_integral(second) {
        Some(Element::Int)
    } else if is_numeric(first) && is_numeric(second) {
        Some(Element::Long)
    } else {
        None
    }
}

/// The element type, where there are no dimensions.
pub fn plain_of(ty: RowType) -> Option<Element>
    ensures { result ≡ plain.plain_of ty }
{
    if ty.dims == 0 { Some(ty.element) } else { None }
}

/// The type with no dimensions.
pub fn plain_type(element: Element) -> RowType
    ensures { result ≡ types.plain element }
{
    RowType { element, dims: 0 }
}

/// The type with no dimensions, if there is an element type.
pub fn plain_if(element: Option<Element>) -> Option<RowType>
    ensures { result ≡ option_map types.plain element }
{
    match element {
        Some(element) => Some(plain_type(element)),
        None => None,
    }
}

fn is_void_element(element: Element) -> bool
    ensures { result ≡ plain.is_void element }
{
    match element {
        Element::Void => true,
        _ => false,
    }
}

fn is_null_element(element: Element) -> bool
    ensures { result ≡ supertypes.is_null element }
{
    match element {
        Element::Null => true,
        _ => false,
    }
}

/// The type is plain, and its element type is void.
pub fn is_void(ty: RowType) -> bool
    ensures { result ≡ plain.is_plain plain.is_void ty }
{
    match plain_of(ty) {
        Some(element) => is_void_element(element),
        None => false,
    }
}

/// The type is plain, and its element type is that of null.
pub fn is_null(ty: RowType) -> bool
    ensures { result ≡ plain.is_plain supertypes.is_null ty }
{
    match plain_of(ty) {
        Some(element) => is_null_element(element),
        None => false,
    }
}

/// The type is plain and numeric.
pub fn is_number(ty: RowType) -> bool
    ensures { result ≡ plain.is_plain plain.is_numeric ty }
{
    match plain_of(ty) {
        Some(element) => is_numeric(element),
        None => false,
    }
}

/// The type is plain boolean.
pub fn is_condition(ty: RowType) -> bool
    ensures { result ≡ plain.is_plain plain.is_boolean ty }
{
    match plain_of(ty) {
        Some(element) => is_boolean(element),
        None => false,
    }
}

/// The type is plain and primitive.
pub fn is_plain_primitive(ty: RowType) -> bool
    ensures { result ≡ plain.is_plain plain.is_primitive ty }
{
    match plain_of(ty) {
        Some(element) => is_primitive(element),
        None => false,
    }
}

/// Both types are one.
pub fn is_same_type(first: RowType, second: RowType) -> bool
    ensures { result ≡ same_type first second }
{
    first == second
}

/// Class, interface and array types, and that of null.
pub fn is_reference_or_null(ty: RowType) -> bool
    ensures { result ≡ plain.is_reference_or_null ty }
{
    is_reference(ty) || is_null(ty)
}

// One of the two types is a subtype of the other.
fn is_related(rows: &[Row], supers: &Supers, from: RowType, to: RowType) -> bool
    ensures { (t : Table) → AreSupersOf rows.now t supers.now → result ≡ plain.is_related rows.now t from to }
{
    (is_reference_or_null(from) && is_reference(to) && supers.is_subtype(rows, from, to))
        || (is_reference(from) && is_reference(to) && supers.is_subtype(rows, to, from))
}

// A cast between a class and an interface, or two interfaces, neither of them below the other.
fn is_castable_class(rows: &[Row], from: Element, to: Element) -> bool
    ensures { result ≡ plain.is_castable_class rows.now from to }
{
    match from {
        Element::Class(low) => match to {
            Element::Class(high) => {
                (is_interface(rows, low) && is_class(rows, high) && !is_final(rows, high))
                    || (is_class(rows, low) && !is_final(rows, low) && is_interface(rows, high))
                    || (is_interface(rows, low) && is_interface(rows, high))
            }
            _ => false,
        },
        _ => false,
    }
}

// A cast between plain types, but for subtypes.
fn is_castable_plain(rows: &[Row], from: Element, to: Element) -> bool
    ensures { result ≡ casts.is_castable_plain rows.now from to }
{
    (is_numeric(from) && is_numeric(to))
        || (is_boolean(from) && is_boolean(to))
        || is_castable_class(rows, from, to)
}

// The type of the items of an array type.
fn item(ty: RowType) -> RowType
    ensures { result ≡ casts.item ty }
{
    RowType {
        element: ty.element,
        dims: ty.dims.saturating_sub(1),
    }
}

// A cast between two types of which one at least has no items.
fn is_castable_end(rows: &[Row], supers: &Supers, from: RowType, to: RowType) -> bool
    ensures { (t : Table) → AreSupersOf rows.now t supers.now → result ≡ casts.is_castable_end rows.now t from to }
{
    (from.dims == 0 && to.dims == 0 && is_castable_plain(rows, from.element, to.element))
        || is_related(rows, supers, from, to)
}

// A cast between two array types, where it is told of their items.
fn is_castable_over(
    rows: &[Row],
    supers: &Supers,
    from: RowType,
    to: RowType,
    is_inner: bool,
) -> bool
    ensures { (t : Table) → AreSupersOf rows.now t supers.now → result ≡ casts.is_castable_over rows.now t from to is_inner }
{
    (is_reference(item(from)) && is_reference(item(to)) && is_inner)
        || is_related(rows, supers, from, to)
}

// The type with other dimensions.
fn with_dims(ty: RowType, dims: usize) -> RowType
    ensures { result ≡ types.array ty.element dims }
{
    RowType {
        element: ty.element,
        dims,
    }
}

// The lesser number.
fn least(first: usize, second: usize) -> usize
    ensures below_first { result ≤ first }
    ensures below_second { result ≤ second }
    ensures one { (first ≡ result) ⊎ (second ≡ result) }
{
    if first < second { first } else { second }
}

/// A cast from one type to another is allowed (JLS 5.5). From the innermost types that both have, out to the two.
pub fn is_castable(rows: &[Row], supers: &Supers, from: RowType, to: RowType) -> bool
    ensures { (t : Table) → AreSupersOf rows.now t supers.now → result ≡ plain.is_castable rows.now t from to }
{
    let shared = least(from.dims, to.dims);
    let low = from.dims - shared;
    let high = to.dims - shared;
    let first_low = with_dims(from, low);
    let first_high = with_dims(to, high);
    let mut is = is_castable_end(rows, supers, first_low, first_high);
    for more in 0..shared {
        let next_low = with_dims(from, low + more + 1);
        let next_high = with_dims(to, high + more + 1);
        is = is_castable_over(rows, supers, next_low, next_high, is);
    }
    is
}
