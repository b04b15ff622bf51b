// Conversions of values (JLS 5.1, 5.2, 5.6, 15.18.1.1).
ghost use Rattle.std.specs.Prelude.{◌≡◌, Some, IfOk};
ghost use Rattle.jr_core.specs.declared.code.Code.TheVariants as c;
ghost use Rattle.jr_plain.specs.Conversions as conversions;
ghost use Rattle.jr_constants.specs.Values.{seen_if, value_in, value_in_if};
ghost use Rattle.jr_codes.specs.Facts.{type_in};
ghost use Rattle.jr_codes.specs.Waiting.{waiting};
ghost use Rattle.jr_codes.specs.Conversions as plain;
ghost use Rattle.jr_codes.specs.Conversions.{Converts, Shows, int};
ghost use Rattle.jr_codes.specs.Reads.{texts_of, facts};

use jr_base::{Boxed, OutOfMemory};
use jr_codes::{Parts, Source, constant_of, type_of};
use jr_constants::{Value, cast_to};
use jr_core::Code;
use jr_defs::{Element, RowType};
use jr_types::{is_primitive, plain_of, plain_type};

fn is_plain_primitive(given: RowType) -> bool
    ensures { result ≡ conversions.is_plain conversions.is_primitive given }
{
    match plain_of(given) {
        Some(element) => is_primitive(element),
        None => false,
    }
}

// Both are one primitive type.
fn is_one_primitive(first: Element, second: Element) -> bool
    ensures { result ≡ plain.is_one_primitive first second }
{
    match first {
        Element::Boolean => match second {
            Element::Boolean => true,
            _ => false,
        },
        Element::Byte => match second {
            Element::Byte => true,
            _ => false,
        },
        Element::Short => match second {
            Element::Short => true,
            _ => false,
        },
        Element::Char => match second {
            Element::Char => true,
            _ => false,
        },
        Element::Int => match second {
            Element::Int => true,
            _ => false,
        },
        Element::Long => match second {
            Element::Long => true,
            _ => false,
        },
        _ => false,
    }
}

// A conversion from one primitive type to another one.
fn is_written(from: RowType, to: RowType) -> bool
    ensures { result ≡ plain.is_written from to }
{
    is_plain_primitive(from)
        && is_plain_primitive(to)
        && !is_one_primitive(from.element, to.element)
}

// The constant after a cast to the type.
fn folded(value: Option<Value>, to: Element) -> Option<Value>
    ensures { seen_if result ≡ plain.folded (seen_if value) to }
{
    match value {
        Some(value) => cast_to(to, value),
        None => None,
    }
}

/// A literal of this value.
pub fn literal(source: &Source, value: Value) -> Result<Boxed<Code>, OutOfMemory>
    ensures { IfOk result (λ made. made ≡ c.Lit (Some (value_in (texts_of source.now) value))) }
{
    let value = constant_of(source, value)?;
    Ok(Boxed::new(source.alloc, Code::Lit { value: Some(value) })?)
}

fn cast(source: &Source, value: Boxed<Code>, to: RowType) -> Result<Boxed<Code>, OutOfMemory>
    ensures { IfOk result (λ made. made ≡ c.Cast (type_in (facts source.now) to) value) }
{
    let ty = type_of(source, to)?;
    Ok(Boxed::new(source.alloc, Code::Cast { ty, value })?)
}

// A conversion that is written, and that of a constant, which is made.
fn cast_or(
    source: &Source,
    code: Boxed<Code>,
    value: Option<Value>,
    to: RowType,
) -> Result<Boxed<Code>, OutOfMemory>
    ensures { IfOk result (λ made. made ≡ plain.cast_or (value_in_if (texts_of source.now) value) (facts source.now) to code) }
{
    match value {
        Some(value) => {
            drop(code);
            literal(source, value)
        }
        None => cast(source, code, to),
    }
}

// The code of a row of this type, as that of a value of the other type.
fn conversion(
    source: &Source,
    code: Boxed<Code>,
    at: u32,
    from: RowType,
    to: RowType,
) -> Result<Boxed<Code>, OutOfMemory>
    ensures { IfOk result (λ made. made ≡ plain.converted_from from (facts source.now) at to code) }
{
    if is_written(from, to) {
        cast_or(source, code, folded(source.value(at), to.element), to)
    } else {
        Ok(code)
    }
}

/// The value at a row, as one of the type: a conversion to another primitive type is written out, and that of a constant is made.
pub fn converted(
    source: &Source,
    codes: &mut Parts<Code>,
    at: u32,
    to: RowType,
) -> Result<Boxed<Code>, OutOfMemory>
    ensures { IfOk result (λ made. Converts (facts source.now) at to (waiting codes.old) (waiting codes.new) made) }
{
    let from = source.type_of(at)?;
    let code = codes.boxed(source.alloc, at)?;
    conversion(source, code, at, from, to)
}

/// The value at a row as an int: an index or a length, promoted (JLS 15.10, 15.13).
pub fn promoted(
    source: &Source,
    codes: &mut Parts<Code>,
    at: u32,
) -> Result<Boxed<Code>, OutOfMemory>
    ensures { IfOk result (λ made. Converts (facts source.now) at int (waiting codes.old) (waiting codes.new) made) }
{
    converted(source, codes, at, plain_type(Element::Int))
}

/// The value at a row, as a string where it is joined to one.
pub fn shown(
    source: &Source,
    codes: &mut Parts<Code>,
    at: u32,
    is_joined: bool,
) -> Result<Boxed<Code>, OutOfMemory>
    ensures { IfOk result (λ made. Shows (facts source.now) at is_joined (waiting codes.old) (waiting codes.new) made) }
{
    let is_string = source.is_string(at)?;
    let value = codes.boxed(source.alloc, at)?;
    if is_joined && !is_string {
        Ok(Boxed::new(source.alloc, Code::Show { value })?)
    } else {
        Ok(value)
    }
}
