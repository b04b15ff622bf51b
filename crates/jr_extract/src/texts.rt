// The texts of the statement and the method that are added.
ghost use Rattle.std.specs.Prelude.{◌≡◌, ◌++◌, codes, IfOk, OnOk};
ghost use Rattle.jr_tree.specs.Rows.{name};
ghost use Rattle.jr_weave.specs.Wording.{brackets};
ghost use Rattle.jr_extract.specs.Writing as spec;

use crate::extraction::Extraction;
use crate::locals::Variable;
use crate::run::Run;
use jr_base::{OutOfMemory, Text};
use jr_defs::{Element, RowType};
use jr_places::name_at;
use jr_tree::Row;
use jr_weave::word_of;
use std::alloc::Global;

fn put(text: &mut Vec<u8>, bytes: &[u8]) -> Result<(), OutOfMemory>
    ensures { OnOk result (text.new.items ≡ text.old.items ++ bytes.now) }
{
    text.extend_from_slice(bytes)?;
    Ok(())
}

fn put_element(text: &mut Vec<u8>, rows: &[Row], element: Element) -> Result<(), OutOfMemory>
    ensures { OnOk result (text.new.items ≡ text.old.items ++ spec.element_text rows.now element) }
{
    match element {
        Element::Class(class) => put(text, name_at(rows, class)),
        _ => put(text, word_of(element)),
    }
}

fn put_dimensions(text: &mut Vec<u8>, count: usize) -> Result<(), OutOfMemory>
    ensures { OnOk result (text.new.items ≡ text.old.items ++ brackets count) }
{
    for _pair in 0..count {
        put(text, b"[]")?;
    }
    Ok(())
}

// A type: its element type and all dimensions (JLS 10.2).
#[tactic(auto, using(jr_weave::proofs::Adding::adds_two))]
fn put_type(text: &mut Vec<u8>, rows: &[Row], ty: RowType) -> Result<(), OutOfMemory>
    ensures { OnOk result (text.new.items ≡ text.old.items ++ spec.type_text rows.now ty) }
{
    put_element(text, rows, ty.element)?;
    put_dimensions(text, ty.dims)
}

// `T x`.
#[tactic(auto, using(jr_weave::proofs::Adding::adds_three))]
fn put_variable(text: &mut Vec<u8>, rows: &[Row], variable: Variable) -> Result<(), OutOfMemory>
    ensures { OnOk result (text.new.items ≡ text.old.items ++ spec.variable_text rows.now variable) }
{
    put_type(text, rows, variable.ty)?;
    put(text, b" ")?;
    put(text, name_at(rows, variable.row))
}

// `T x;` and LF.
#[tactic(auto, using(jr_weave::proofs::Adding::adds_two))]
fn put_declaration(text: &mut Vec<u8>, rows: &[Row], variable: Variable) -> Result<(), OutOfMemory>
    ensures { OnOk result (text.new.items ≡ text.old.items ++ spec.declaration_text rows.now variable) }
{
    put_variable(text, rows, variable)?;
    put(text, b";\n")
}

fn put_declarations(
    text: &mut Vec<u8>,
    rows: &[Row],
    variables: &[Variable],
) -> Result<(), OutOfMemory>
    ensures { OnOk result (text.new.items ≡ text.old.items ++ spec.declarations_text rows.now variables.now) }
{
    for variable in variables {
        put_declaration(text, rows, *variable)?;
    }
    Ok(())
}

// What the call is assigned to: the local, or its declaration where that stands in the run.
fn put_assigned(
    text: &mut Vec<u8>,
    rows: &[Row],
    run: Run,
    variable: Variable,
) -> Result<(), OutOfMemory>
    ensures { OnOk result (text.new.items ≡ text.old.items ++ spec.assigned_text rows.now run variable) }
{
    if run.holds(variable.row) {
        put_variable(text, rows, variable)
    } else {
        put(text, name_at(rows, variable.row))
    }
}

// What stands before a call that is assigned, and ` = `.
#[tactic(auto, using(jr_weave::proofs::Adding::adds_two))]
fn put_left(
    text: &mut Vec<u8>,
    rows: &[Row],
    run: Run,
    variable: Variable,
) -> Result<(), OutOfMemory>
    ensures { OnOk result (text.new.items ≡ text.old.items ++ (spec.assigned_text rows.now run variable ++ codes " = ")) }
{
    put_assigned(text, rows, run, variable)?;
    put(text, b" = ")
}

#[tactic(auto, using(jr_weave::proofs::Adding::adds_none))]
fn put_target(
    text: &mut Vec<u8>,
    rows: &[Row],
    run: Run,
    given: Option<Variable>,
) -> Result<(), OutOfMemory>
    ensures { OnOk result (text.new.items ≡ text.old.items ++ spec.target_text rows.now run given) }
{
    match given {
        Some(variable) => put_left(text, rows, run, variable),
        None => Ok(()),
    }
}

// Bytes, and the identifier of a row.
#[tactic(auto, using(jr_weave::proofs::Adding::adds_two))]
fn put_name(text: &mut Vec<u8>, rows: &[Row], lead: &[u8], row: u32) -> Result<(), OutOfMemory>
    ensures { OnOk result (text.new.items ≡ text.old.items ++ (lead.now ++ name rows.now row)) }
{
    put(text, lead)?;
    put(text, name_at(rows, row))
}

// Bytes, and `T x`.
#[tactic(auto, using(jr_weave::proofs::Adding::adds_two))]
fn put_parameter(
    text: &mut Vec<u8>,
    rows: &[Row],
    lead: &[u8],
    variable: Variable,
) -> Result<(), OutOfMemory>
    ensures { OnOk result (text.new.items ≡ text.old.items ++ (lead.now ++ spec.variable_text rows.now variable)) }
{
    put(text, lead)?;
    put_variable(text, rows, variable)
}

fn put_arguments(
    text: &mut Vec<u8>,
    rows: &[Row],
    variables: &[Variable],
) -> Result<(), OutOfMemory>
    ensures { OnOk result (text.new.items ≡ text.old.items ++ spec.separated (codes "") (spec.argument_text rows.now) variables.now) }
{
    let mut lead: &[u8] = b"";
    for variable in variables {
        put_name(text, rows, lead, variable.row)?;
        lead = b", ";
    }
    Ok(())
}

fn put_parameters(
    text: &mut Vec<u8>,
    rows: &[Row],
    variables: &[Variable],
) -> Result<(), OutOfMemory>
    ensures { OnOk result (text.new.items ≡ text.old.items ++ spec.separated (codes "") (spec.variable_text rows.now) variables.now) }
{
    let mut lead: &[u8] = b"";
    for variable in variables {
        put_parameter(text, rows, lead, *variable)?;
        lead = b", ";
    }
    Ok(())
}

fn put_thrown(text: &mut Vec<u8>, rows: &[Row], classes: &[u32]) -> Result<(), OutOfMemory>
    ensures { OnOk result (text.new.items ≡ text.old.items ++ spec.separated (codes " throws ") (name rows.now) classes.now) }
{
    let mut lead: &[u8] = b" throws ";
    for class in classes {
        put_name(text, rows, lead, *class)?;
        lead = b", ";
    }
    Ok(())
}

#[tactic(auto, using(jr_weave::proofs::Adding::adds_four))]
fn put_call(text: &mut Vec<u8>, rows: &[Row], added: &Extraction) -> Result<(), OutOfMemory>
    ensures { OnOk result (text.new.items ≡ text.old.items ++ spec.call_text rows.now (spec.extracted added.now)) }
{
    put(text, added.name)?;
    put(text, b"(")?;
    put_arguments(text, rows, &added.locals.parameters)?;
    put(text, b");")
}

#[tactic(auto, using(jr_weave::proofs::Adding::adds_two))]
fn put_statement(text: &mut Vec<u8>, rows: &[Row], added: &Extraction) -> Result<(), OutOfMemory>
    ensures { OnOk result (text.new.items ≡ text.old.items ++ spec.statement_text rows.now (spec.extracted added.now)) }
{
    put_target(text, rows, added.run, added.locals.result)?;
    put_call(text, rows, added)
}

/// The statement in place of the run.
pub(crate) fn statement_text(
    alloc: Global,
    rows: &[Row],
    added: &Extraction,
) -> Result<Text, OutOfMemory>
    ensures { IfOk result (λ text. text ≡ spec.statement_text rows.now (spec.extracted added.now)) }
{
    let mut text = Vec::new(alloc);
    put_statement(&mut text, rows, added)?;
    Ok(Text::new(text))
}

#[tactic(auto, using(jr_weave::proofs::Adding::adds_none))]
fn put_static(text: &mut Vec<u8>, is_static: bool) -> Result<(), OutOfMemory>
    ensures { OnOk result (text.new.items ≡ text.old.items ++ spec.static_text is_static) }
{
    if is_static {
        put(text, b"static ")
    } else {
        Ok(())
    }
}

fn put_result(text: &mut Vec<u8>, rows: &[Row], given: Option<Variable>) -> Result<(), OutOfMemory>
    ensures { OnOk result (text.new.items ≡ text.old.items ++ spec.result_text rows.now given) }
{
    match given {
        Some(variable) => put_type(text, rows, variable.ty),
        None => put(text, b"void"),
    }
}

// What stands before the parameters.
#[tactic(auto, using(crate::proofs::Adding::adds_five))]
fn put_begin(text: &mut Vec<u8>, rows: &[Row], added: &Extraction) -> Result<(), OutOfMemory>
    ensures { OnOk result (text.new.items ≡ text.old.items ++ spec.begin_text rows.now (spec.extracted added.now)) }
{
    put(text, b"\n\nprivate ")?;
    put_static(text, added.is_static)?;
    put_result(text, rows, added.locals.result)?;
    put(text, b" ")?;
    put(text, added.name)
}

// The parameters, and the classes that are thrown.
#[tactic(auto, using(jr_weave::proofs::Adding::adds_four))]
fn put_signature(text: &mut Vec<u8>, rows: &[Row], added: &Extraction) -> Result<(), OutOfMemory>
    ensures { OnOk result (text.new.items ≡ text.old.items ++ spec.signature_text rows.now (spec.extracted added.now)) }
{
    put(text, b"(")?;
    put_parameters(text, rows, &added.locals.parameters)?;
    put(text, b")")?;
    put_thrown(text, rows, added.thrown)
}

#[tactic(auto, using(jr_weave::proofs::Adding::adds_two))]
fn put_given(text: &mut Vec<u8>, rows: &[Row], variable: Variable) -> Result<(), OutOfMemory>
    ensures { OnOk result (text.new.items ≡ text.old.items ++ spec.given_text rows.now variable) }
{
    put_name(text, rows, b"return ", variable.row)?;
    put(text, b";\n")
}

#[tactic(auto, using(jr_weave::proofs::Adding::adds_none))]
fn put_return(text: &mut Vec<u8>, rows: &[Row], given: Option<Variable>) -> Result<(), OutOfMemory>
    ensures { OnOk result (text.new.items ≡ text.old.items ++ spec.return_text rows.now given) }
{
    match given {
        Some(variable) => put_given(text, rows, variable),
        None => Ok(()),
    }
}

// The declarations of the locals that the method does not take, the run, and what is given back.
#[tactic(auto, using(jr_weave::proofs::Adding::adds_four))]
fn put_statements(text: &mut Vec<u8>, rows: &[Row], added: &Extraction) -> Result<(), OutOfMemory>
    ensures { OnOk result (text.new.items ≡ text.old.items ++ spec.statements_text rows.now (spec.extracted added.now)) }
{
    put_declarations(text, rows, &added.locals.fresh)?;
    put(text, added.text)?;
    put(text, b"\n")?;
    put_return(text, rows, added.locals.result)
}

#[tactic(auto, using(jr_weave::proofs::Adding::adds_three))]
fn put_body(text: &mut Vec<u8>, rows: &[Row], added: &Extraction) -> Result<(), OutOfMemory>
    ensures { OnOk result (text.new.items ≡ text.old.items ++ spec.body_text rows.now (spec.extracted added.now)) }
{
    put(text, b" {\n")?;
    put_statements(text, rows, added)?;
    put(text, b"}")
}

#[tactic(auto, using(jr_weave::proofs::Adding::adds_three))]
fn put_method(text: &mut Vec<u8>, rows: &[Row], added: &Extraction) -> Result<(), OutOfMemory>
    ensures { OnOk result (text.new.items ≡ text.old.items ++ spec.method_text rows.now (spec.extracted added.now)) }
{
    put_begin(text, rows, added)?;
    put_signature(text, rows, added)?;
    put_body(text, rows, added)
}

/// The method, which stands behind an empty line.
pub(crate) fn method_text(
    alloc: Global,
    rows: &[Row],
    added: &Extraction,
) -> Result<Text, OutOfMemory>
    ensures { IfOk result (λ text. text ≡ spec.method_text rows.now (spec.extracted added.now)) }
{
    let mut text = Vec::new(alloc);
    put_method(&mut text, rows, added)?;
    Ok(Text::new(text))
}
