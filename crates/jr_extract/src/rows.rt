// The rows of the statement and the method that are added.
ghost use Rattle.std.specs.Prelude.{◌≡◌, IfOk, OnOk};
ghost use Rattle.jr_extract.specs.Writing as spec;

use crate::extraction::Extraction;
use crate::locals::Variable;
use crate::run::Run;
use jr_base::OutOfMemory;
use jr_change::Target;
use jr_defs::{Element, RowType};
use jr_draft::Draft;

// A name of one identifier that refers to what an old row declares.
fn add_name(draft: &mut Draft, declared: u32) -> Result<(), OutOfMemory>
    ensures { OnOk result (draft.new ≡ spec.with_name declared draft.old) }
{
    draft.refer(Target::Old(declared), None)
}

fn add_element(draft: &mut Draft, element: Element) -> Result<(), OutOfMemory>
    ensures { OnOk result (draft.new ≡ spec.with_element element draft.old) }
{
    match element {
        Element::Class(class) => add_name(draft, class),
        _ => Ok(()),
    }
}

fn add_type(draft: &mut Draft, ty: RowType) -> Result<(), OutOfMemory>
    ensures { OnOk result (draft.new ≡ spec.with_type ty draft.old) }
{
    draft.glue(1)?;
    add_element(draft, ty.element)
}

// A parameter, whose row stands before that of its type.
fn add_parameter(draft: &mut Draft, variable: Variable) -> Result<(), OutOfMemory>
    ensures { OnOk result (draft.new ≡ spec.with_parameter variable draft.old) }
{
    draft.turned(variable.row)?;
    add_type(draft, variable.ty)
}

// A declaration of a local up to its initializer.
fn add_local(draft: &mut Draft, variable: Variable) -> Result<(), OutOfMemory>
    ensures { OnOk result (draft.new ≡ spec.with_local variable draft.old) }
{
    draft.glue(1)?;
    add_type(draft, variable.ty)?;
    draft.turned(variable.row)
}

// A declaration of the result with the call as initializer.
fn add_declared(draft: &mut Draft, variable: Variable) -> Result<(), OutOfMemory>
    ensures { OnOk result (draft.new ≡ spec.with_declared variable draft.old) }
{
    add_local(draft, variable)?;
    draft.glue(1)
}

// An assignment of the call to the result.
fn add_assigned(draft: &mut Draft, variable: Variable) -> Result<(), OutOfMemory>
    ensures { OnOk result (draft.new ≡ spec.with_assigned variable draft.old) }
{
    draft.glue(2)?;
    add_name(draft, variable.row)
}

/// The statement of the call, up to that.
pub(crate) fn add_target(
    draft: &mut Draft,
    run: Run,
    given: Option<Variable>,
) -> Result<(), OutOfMemory>
    ensures { OnOk result (draft.new ≡ spec.with_target run given draft.old) }
{
    match given {
        Some(variable) => {
            if run.holds(variable.row) {
                add_declared(draft, variable)
            } else {
                add_assigned(draft, variable)
            }
        }
        None => draft.glue(1),
    }
}

fn add_arguments(draft: &mut Draft, variables: &[Variable]) -> Result<(), OutOfMemory>
    ensures { OnOk result (draft.new ≡ spec.with_arguments variables.now draft.old) }
{
    for variable in variables {
        add_name(draft, variable.row)?;
    }
    Ok(())
}

// The number behind so many more.
fn behind_many(number: u32, count: usize) -> u32
    ensures { result ≡ spec.behind_many number count }
{
    let mut behind = number;
    for _one in 0..count {
        behind = behind.saturating_add(1);
    }
    behind
}

// The row behind that of a call, its arguments, and so many others.
fn method_row(call: u32, arguments: &[Variable], between: u32) -> u32
    ensures { result ≡ spec.method_row arguments.now call between }
{
    behind_many(
        call.saturating_add(1).saturating_add(between),
        arguments.len(),
    )
}

/// The call of the method, whose row stands behind so many others that follow the call.
pub(crate) fn add_call(
    draft: &mut Draft,
    added: &Extraction,
    between: u32,
) -> Result<(), OutOfMemory>
    ensures { OnOk result (draft.new ≡ spec.with_call (spec.extracted added.now) between draft.old) }
{
    let method = method_row(draft.rows(), &added.locals.parameters, between);
    draft.refer(Target::New(method), Some(added.class))?;
    add_arguments(draft, &added.locals.parameters)
}

fn add_result(draft: &mut Draft, given: Option<Variable>) -> Result<(), OutOfMemory>
    ensures { OnOk result (draft.new ≡ spec.with_result given draft.old) }
{
    match given {
        Some(variable) => add_type(draft, variable.ty),
        None => Ok(()),
    }
}

fn add_parameters(draft: &mut Draft, variables: &[Variable]) -> Result<(), OutOfMemory>
    ensures { OnOk result (draft.new ≡ spec.with_parameters variables.now draft.old) }
{
    for variable in variables {
        add_parameter(draft, *variable)?;
    }
    Ok(())
}

fn add_thrown(draft: &mut Draft, classes: &[u32]) -> Result<(), OutOfMemory>
    ensures { OnOk result (draft.new ≡ spec.with_thrown classes.now draft.old) }
{
    for class in classes {
        add_name(draft, *class)?;
    }
    Ok(())
}

// What stands before the body of the method.
fn add_head(draft: &mut Draft, added: &Extraction) -> Result<(), OutOfMemory>
    ensures { OnOk result (draft.new ≡ spec.with_head (spec.extracted added.now) draft.old) }
{
    draft.glue(1)?;
    add_result(draft, added.locals.result)?;
    add_parameters(draft, &added.locals.parameters)?;
    add_thrown(draft, added.thrown)
}

fn add_declarations(draft: &mut Draft, variables: &[Variable]) -> Result<(), OutOfMemory>
    ensures { OnOk result (draft.new ≡ spec.with_declarations variables.now draft.old) }
{
    for variable in variables {
        add_local(draft, *variable)?;
    }
    Ok(())
}

fn add_given(draft: &mut Draft, variable: Variable) -> Result<(), OutOfMemory>
    ensures { OnOk result (draft.new ≡ spec.with_given variable draft.old) }
{
    draft.glue(1)?;
    add_name(draft, variable.row)
}

fn add_return(draft: &mut Draft, given: Option<Variable>) -> Result<(), OutOfMemory>
    ensures { OnOk result (draft.new ≡ spec.with_return given draft.old) }
{
    match given {
        Some(variable) => add_given(draft, variable),
        None => Ok(()),
    }
}

fn add_body(draft: &mut Draft, added: &Extraction) -> Result<(), OutOfMemory>
    ensures { OnOk result (draft.new ≡ spec.with_body (spec.extracted added.now) draft.old) }
{
    draft.glue(1)?;
    add_declarations(draft, &added.locals.fresh)?;
    draft.copy(added.run.rows.first, added.run.rows.end)?;
    add_return(draft, added.locals.result)
}

/// The method.
pub(crate) fn add_method(draft: &mut Draft, added: &Extraction) -> Result<(), OutOfMemory>
    ensures { OnOk result (draft.new ≡ spec.with_method (spec.extracted added.now) draft.old) }
{
    add_head(draft, added)?;
    add_body(draft, added)
}
