// Values of constants in a core, and its types.
ghost use Rattle.std.specs.Prelude.{◌≡◌, IfOk, slice_get};
ghost use Rattle.jr_base.specs.declared.constant.Const.TheVariants as c;
ghost use Rattle.jr_base.specs.declared.ty.Ty.TheVariants as ty;
ghost use Rattle.jr_constants.specs.Values.{value_in, text_at};
ghost use Rattle.jr_codes.specs.Facts.{element_in, type_in};
ghost use Rattle.jr_codes.specs.Reads.{texts_of, facts};

use crate::source::Source;
use jr_base::{Boxed, Const, OutOfMemory, Ty, Units};
use jr_constants::Value;
use jr_defs::{Element, RowType};
use std::alloc::Global;

fn text(source: &Source, number: u32) -> Result<Const, OutOfMemory>
    ensures { IfOk result (λ made. made ≡ c.Str (text_at (slice_get (texts_of source.now) number))) }
{
    let units = Vec::from_slice(source.alloc, source.units(number))?;
    Ok(Const::Str(Units::new(units)))
}

/// The value of a constant expression (JLS 15.28).
pub fn constant_of(source: &Source, value: Value) -> Result<Const, OutOfMemory>
    ensures { IfOk result (λ made. made ≡ value_in (texts_of source.now) value) }
{
    match value {
        Value::Bool(is_true) => Ok(Const::Bool(is_true)),
        Value::Byte(number) => Ok(Const::Byte(number)),
        Value::Short(number) => Ok(Const::Short(number)),
        Value::Char(unit) => Ok(Const::Char(unit)),
        Value::Int(number) => Ok(Const::Int(number)),
        Value::Long(number) => Ok(Const::Long(number)),
        Value::Str(number) => text(source, number),
    }
}

fn element(source: &Source, element: Element) -> Ty
    ensures { result ≡ element_in (facts source.now) element }
{
    match element {
        Element::Boolean => Ty::Boolean,
        Element::Byte => Ty::Byte,
        Element::Short => Ty::Short,
        Element::Char => Ty::Char,
        Element::Int => Ty::Int,
        Element::Long => Ty::Long,
        Element::Null => Ty::Null,
        Element::Void => Ty::Void,
        Element::Class(row) => Ty::Class(source.type_id(row)),
    }
}

fn array(alloc: Global, item: Ty) -> Result<Ty, OutOfMemory>
    ensures { IfOk result (λ made. made ≡ ty.Array item) }
{
    Ok(Ty::Array(Boxed::new(alloc, item)?))
}

/// A type in a core.
#[tactic(auto, using(crate::proofs::Folding::arrays_more))]
pub fn type_of(source: &Source, given: RowType) -> Result<Ty, OutOfMemory>
    ensures { IfOk result (λ made. made ≡ type_in (facts source.now) given) }
{
    let mut made = element(source, given.element);
    for _dim in 0..given.dims {
        made = array(source.alloc, made)?;
    }
    Ok(made)
}
