// Expressions by what their rows are (JLS 15).
ghost use Rattle.std.specs.Prelude.{None, OnOk};
ghost use Rattle.jr_core.specs.declared.code.Code.TheVariants as c;
ghost use Rattle.jr_constants.specs.Values.{value_in};
ghost use Rattle.jr_codes.specs.Making.{of_none, of_one, code};
ghost use Rattle.jr_codes.specs.Waiting.{waiting};
ghost use Rattle.jr_expressions.specs.Expressions as made;
ghost use Rattle.jr_codes.specs.Reads.{texts_of, facts, Becomes};

use crate::arrays::{index, list, new_array, value};
use crate::calls::{call, constructor_call, creation, implicit_call};
use crate::names::{constant, name, select, super_select, this};
use crate::operators::{
    assign, binary, cast, conditional, instance_test, step_after, step_before, unary,
};
use jr_base::OutOfMemory;
use jr_codes::{Parts, Source};
use jr_constants::Value;
use jr_core::Code;
use jr_tree::Label;

/// Makes a constant expression, unless it stands in another one.
pub fn add_constant(
    source: &Source,
    codes: &mut Parts<Code>,
    at: u32,
    value: Value,
) -> Result<(), OutOfMemory>
    ensures { OnOk result (Becomes source.now at (λ parts. made.constant_made (value_in (texts_of source.now) value) (facts source.now) at parts) (waiting codes.old) (waiting codes.new)) }
{
    if source.value(source.parent(at)).is_some() {
        return Ok(());
    }
    constant(source, codes, at, value)
}

// `(e)`
fn parenthesized(source: &Source, codes: &mut Parts<Code>, at: u32) -> Result<(), OutOfMemory>
    ensures { OnOk result (Becomes source.now at (λ parts. of_one parts (λ m a. code a)) (waiting codes.old) (waiting codes.new)) }
{
    codes.hand_on(source.first(at), at)
}

// `null`
fn null(source: &Source, codes: &mut Parts<Code>, at: u32) -> Result<(), OutOfMemory>
    ensures { OnOk result (Becomes source.now at (λ parts. of_none parts (code (c.Lit None))) (waiting codes.old) (waiting codes.new)) }
{
    let _ = source;
    codes.push(at, Code::Lit { value: None })
}

// An expression that names something or makes it.
fn add_named(
    source: &Source,
    codes: &mut Parts<Code>,
    at: u32,
    label: &Label,
) -> Result<(), OutOfMemory>
    ensures { OnOk result (Becomes source.now at (λ parts. made.named_made label.now (facts source.now) at parts) (waiting codes.old) (waiting codes.new)) }
{
    match label {
        Label::Name { .. } => name(source, codes, at),
        Label::Select => select(source, codes, at),
        Label::SuperSelect => super_select(source, codes, at),
        Label::This { is_qualified } => this(source, codes, at, *is_qualified),
        Label::Literal { .. } => null(source, codes, at),
        Label::Call { receiver } => call(source, codes, at, *receiver),
        Label::New => creation(source, codes, at),
        Label::ConstructorCall { which } => constructor_call(source, codes, at, *which),
        Label::ImplicitCall => implicit_call(source, codes, at),
        Label::NewArray {
            primitive,
            lengths,
            ..
        } => new_array(source, codes, at, primitive.is_none(), *lengths),
        _ => Ok(()),
    }
}

/// Makes the expression at a row, or a call of a constructor, whose parts are made. Rows of types and declarations make no code.
pub fn add_expression(
    source: &Source,
    codes: &mut Parts<Code>,
    at: u32,
    label: &Label,
) -> Result<(), OutOfMemory>
    ensures { OnOk result (Becomes source.now at (λ parts. made.expression_made label.now (facts source.now) at parts) (waiting codes.old) (waiting codes.new)) }
{
    match label {
        Label::Paren => parenthesized(source, codes, at),
        Label::Index => index(source, codes, at),
        Label::Value => value(source, codes, at),
        Label::List => list(source, codes, at),
        Label::IsA => instance_test(source, codes, at),
        Label::Unary { op } => unary(source, codes, at, *op),
        Label::Cast => cast(source, codes, at),
        Label::PreStep { op } => step_before(source, codes, at, *op),
        Label::PostStep { op } => step_after(source, codes, at, *op),
        Label::Binary { op } => binary(source, codes, at, *op),
        Label::Conditional => conditional(source, codes, at),
        Label::Assign { op } => assign(source, codes, at, *op),
        _ => add_named(source, codes, at, label),
    }
}
