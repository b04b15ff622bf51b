// Values of constant expressions, and conversions of them (JLS 5.1.2, 5.1.3, 5.2, 5.5, 5.6).

ghost use Rattle.std.specs.Prelude.{◌≡◌, if◌then◌else◌};
ghost use Rattle.std.specs.Int.{w8, w16, w32};
ghost use Rattle.jr_base.specs.declared.constant.Const.TheVariants as c;
ghost use Rattle.jr_defs.specs.declared.referent.Element.TheVariants as element;
ghost use Rattle.jr_defs.specs.Operators as defined;
ghost use Rattle.jr_constants.specs.Values.{seen, seen_if};

use jr_defs::Element;

/// The value of a constant expression. A string is a number of the pool of texts.
#[derive(Clone, Copy, Debug, PartialEq, Eq)]
pub enum Value {
    Bool(bool),
    Byte(i8),
    Short(i16),
    Char(u16),
    Int(i32),
    Long(i64),
    Str(u32),
}

/// A number below long (JLS 5.6.1).
pub fn as_int(value: Value) -> Option<i32>
    ensures { result ≡ defined.as_int (seen value) }
{
    match value {
        Value::Byte(number) => Some(i32::from(number)),
        Value::Short(number) => Some(i32::from(number)),
        Value::Char(unit) => Some(i32::from(unit)),
        Value::Int(number) => Some(number),
        _ => None,
    }
}

/// Any number.
pub fn as_long(value: Value) -> Option<i64>
    ensures { result ≡ defined.as_long (seen value) }
{
    match value {
        Value::Long(number) => Some(number),
        _ => Some(i64::from(as_int(value)?)),
    }
}

// The lowest 8 bits (JLS 5.1.3).
fn lowest_byte(number: i64) -> i8
    ensures { result ≡ defined.narrowed w8 number }
{
    ((number.cast_unsigned() % 256) as u8).cast_signed()
}

// The lowest 16 bits (JLS 5.1.3).
fn lowest_short(number: i64) -> i16
    ensures { result ≡ defined.narrowed w16 number }
{
    ((number.cast_unsigned() % 65536) as u16).cast_signed()
}

// The lowest 32 bits (JLS 5.1.3).
fn lowest_int(number: i64) -> i32
    ensures { result ≡ defined.narrowed w32 number }
{
    ((number.cast_unsigned() % 4_294_967_296) as u32).cast_signed()
}

// The number as one of the type: the low bits of it that the type has (JLS 5.1.3).
fn number_to(element: Element, number: i64) -> Option<Value>
    ensures { seen_if result ≡ defined.number_to element number }
{
    match element {
        Element::Byte => Some(Value::Byte(lowest_byte(number))),
        Element::Short => Some(Value::Short(lowest_short(number))),
        Element::Char => Some(Value::Char((number.cast_unsigned() % 65536) as u16)),
        Element::Int => Some(Value::Int(lowest_int(number))),
        Element::Long => Some(Value::Long(number)),
        _ => None,
    }
}

/// A cast to a primitive type (JLS 5.5).
pub fn cast_to(element: Element, value: Value) -> Option<Value>
    ensures { seen_if result ≡ defined.cast_to element (seen value) }
{
    match element {
        Element::Boolean => match value {
            Value::Bool(_) => Some(value),
            _ => None,
        },
        _ => number_to(element, as_long(value)?),
    }
}

/// The number is one of a type smaller than int (JLS 5.2).
pub fn fits(element: Element, number: i32) -> bool
    ensures { result ≡ defined.fits element number }
{
    match element {
        Element::Byte => -128 <= number && number <= 127,
        Element::Short => -32768 <= number && number <= 32767,
        Element::Char => 0 <= number && number <= 65535,
        _ => false,
    }
}

/// The constant as a value of a primitive type, where it may be assigned to it: by widening, or where it fits (JLS 5.2).
pub fn assigned_to(element: Element, value: Value) -> Option<Value>
    ensures { seen_if result ≡ defined.assigned_to element (seen value) }
{
    match element {
        Element::Boolean => cast_to(element, value),
        Element::Long => cast_to(element, value),
        Element::Int => number_to(element, i64::from(as_int(value)?)),
        _ => {
            let number = as_int(value)?;
            if fits(element, number) {
                number_to(element, i64::from(number))
            } else {
                None
            }
        }
    }
}

// The type of `?:` on a number of a small type and an int.
fn small_or_int(small: Element, number: i32) -> Element
    ensures { result ≡ (if defined.fits small number then small else element.Int) }
{
    if fits(small, number) {
        small
    } else {
        Element::Int
    }
}

// The type of `?:` where the first is a byte.
fn with_byte(first: i8, second: Value) -> Option<Element>
    ensures { result ≡ defined.common (c.Byte first) (seen second) }
{
    match second {
        Value::Bool(_) => None,
        Value::Byte(_) => Some(Element::Byte),
        Value::Short(_) => Some(Element::Short),
        Value::Char(_) => Some(Element::Int),
        Value::Int(number) => Some(small_or_int(Element::Byte, number)),
        Value::Long(_) => Some(Element::Long),
        Value::Str(_) => None,
    }
}

// The type of `?:` where the first is a short.
fn with_short(first: i16, second: Value) -> Option<Element>
    ensures { result ≡ defined.common (c.Short first) (seen second) }
{
    match second {
        Value::Bool(_) => None,
        Value::Byte(_) => Some(Element::Short),
        Value::Short(_) => Some(Element::Short),
        Value::Char(_) => Some(Element::Int),
        Value::Int(number) => Some(small_or_int(Element::Short, number)),
        Value::Long(_) => Some(Element::Long),
        Value::Str(_) => None,
    }
}

// The type of `?:` where the first is a char.
fn with_char(first: u16, second: Value) -> Option<Element>
    ensures { result ≡ defined.common (c.Char first) (seen second) }
{
    match second {
        Value::Bool(_) => None,
        Value::Byte(_) => Some(Element::Int),
        Value::Short(_) => Some(Element::Int),
        Value::Char(_) => Some(Element::Char),
        Value::Int(number) => Some(small_or_int(Element::Char, number)),
        Value::Long(_) => Some(Element::Long),
        Value::Str(_) => None,
    }
}

// The type of `?:` where the first is an int.
fn with_int(first: i32, second: Value) -> Option<Element>
    ensures { result ≡ defined.common (c.Int first) (seen second) }
{
    match second {
        Value::Bool(_) => None,
        Value::Byte(_) => Some(small_or_int(Element::Byte, first)),
        Value::Short(_) => Some(small_or_int(Element::Short, first)),
        Value::Char(_) => Some(small_or_int(Element::Char, first)),
        Value::Int(_) => Some(Element::Int),
        Value::Long(_) => Some(Element::Long),
        Value::Str(_) => None,
    }
}

// The type of `?:` where the first is a long.
fn with_long(first: i64, second: Value) -> Option<Element>
    ensures { result ≡ defined.common (c.Long first) (seen second) }
{
    match second {
        Value::Bool(_) => None,
        Value::Byte(_) => Some(Element::Long),
        Value::Short(_) => Some(Element::Long),
        Value::Char(_) => Some(Element::Long),
        Value::Int(_) => Some(Element::Long),
        Value::Long(_) => Some(Element::Long),
        Value::Str(_) => None,
    }
}

// The type of `?:` where the first is a boolean.
fn with_bool(first: bool, second: Value) -> Option<Element>
    ensures { result ≡ defined.common (c.Bool first) (seen second) }
{
    match second {
        Value::Bool(_) => Some(Element::Boolean),
        _ => None,
    }
}

// The type of `?:` on two constants of primitive types (JLS 15.25).
fn common(first: Value, second: Value) -> Option<Element>
    ensures { result ≡ defined.common (seen first) (seen second) }
{
    match first {
        Value::Bool(test) => with_bool(test, second),
        Value::Byte(number) => with_byte(number, second),
        Value::Short(number) => with_short(number, second),
        Value::Char(unit) => with_char(unit, second),
        Value::Int(number) => with_int(number, second),
        Value::Long(number) => with_long(number, second),
        Value::Str(_) => None,
    }
}

/// The value of `?:` on constants (JLS 15.25).
pub fn chosen(test: bool, first: Value, second: Value) -> Option<Value>
    ensures { seen_if result ≡ defined.chosen test (seen first) (seen second) }
{
    let value = if test { first } else { second };
    match first {
        Value::Str(_) => match second {
            Value::Str(_) => Some(value),
            _ => None,
        },
        _ => cast_to(common(first, second)?, value),
    }
}
