// Bodies of methods, constructors, initializers and fields (JLS 8.3 to 8.8).
ghost use Rattle.std.specs.Prelude.{◌≡◌, ℕ, ◌+◌, ◌<◌, [], ◌∷◌, ◌++◌, map, length, flat_map, Some, None, IfOk, OnOk, if◌then◌else◌};
ghost use Rattle.jr_tree.specs.declared.label.Role.TheVariants as role;
ghost use Rattle.jr_tree.specs.Rows as rows;
ghost use Rattle.jr_core.specs.declared.code.Code.TheVariants as c;
ghost use Rattle.jr_defs.specs.Types.{plain};
ghost use Rattle.jr_defs.specs.declared.referent.Element.TheVariants as element;
ghost use Rattle.jr_defs.specs.declared.referent.RowType.{RowType};
ghost use Rattle.jr_plain.specs.Modifiers as modifiers;
ghost use Rattle.jr_plain.specs.Same.{same_role};
ghost use Rattle.jr_plain.specs.Search.{all_such};
ghost use Rattle.jr_plain.specs.Types.{type_of_declared};
ghost use Rattle.jr_codes.specs.Reads.{rows_of, table_of, texts_of, facts, IsReadAt};
ghost use Rattle.jr_constants.specs.Values.{value_in};
ghost use Rattle.jr_codes.specs.Waiting.{waiting};
ghost use Rattle.jr_elab.specs.Cores.{AreEach, IsCodeBelow, IsInitialization, IsMethodBy, IsValueBelow, MayAdd, declares_body, first_before};
ghost use Rattle.jr_elab.specs.Stacked.{AreRead, parameter_if, stacks_in};
ghost use Rattle.jr_expressions.specs.Bodies.{BodyAt, IsCallable, IsFieldBody, field_place, parameters_of};
ghost use Rattle.jr_expressions.specs.Names.{this_in};
ghost use Rattle.jr_expressions.specs.Stacks.{stacks_of};

use crate::reads::{add_made, children, label_of, row_count};
use crate::statements::{Making, make_below};
use jr_base::{Boxed, Const, DeclId, Items, OutOfMemory};
use jr_codes::{Parts, Source, add, add_item, constant_of, type_of};
use jr_constants::Value;
use jr_core::{Body, Code};
use jr_defs::{Element, RowType};
use jr_expressions::this_of;
use jr_places::{is_static, role_at, written_at};
use jr_tree::{Label, Role};
use jr_types::plain_type;

// The row is a parameter.
fn is_parameter(source: &Source, row: u32) -> bool
    ensures { result ≡ same_role (rows.role_at (rows_of source.now) row) role.Parameter }
{
    match role_at(source.rows(), row) {
        Role::Parameter => true,
        _ => false,
    }
}

// Adds a row to a list, if it is a parameter.
fn add_parameter(source: &Source, all: &mut Items<DeclId>, row: u32) -> Result<(), OutOfMemory>
    ensures { OnOk result (all.new ≡ all.old ++ parameter_if (facts source.now) row) }
{
    if is_parameter(source, row) {
        add(all, Ok(source.decl(row)))
    } else {
        Ok(())
    }
}

// The parameters among rows.
fn parameters_among(source: &Source, rows: &[u32]) -> Result<Items<DeclId>, OutOfMemory>
    ensures { IfOk result (λ all. all ≡ flat_map (parameter_if (facts source.now)) rows.now) }
{
    let mut all = Items::new(source.alloc);
    for row in rows {
        add_parameter(source, &mut all, *row)?;
    }
    Ok(all)
}

// The parameters of a method or constructor.
fn parameters(source: &Source, at: u32) -> Result<Items<DeclId>, OutOfMemory>
    ensures { IfOk result (λ all. all ≡ map (facts source.now).decl (parameters_of (facts source.now) at)) }
{
    let rows = children(source, at)?;
    let all = parameters_among(source, &rows)?;
    Ok(all)
}

// The code of what stands below a row, where nothing waits.
fn code_below(source: &Source, making: &mut Making, at: u32) -> Result<Items<Code>, OutOfMemory>
    ensures { IfOk result (λ code. AreRead source.now → at < length (rows_of source.now) → stacks_in making.old ≡ stacks_of [] → IsCodeBelow (facts source.now) making.old.result_type at code) }
{
    make_below(source, making, at)?;
    let code = making.codes.before(source.alloc, source.end(at))?;
    Ok(code)
}

// The statements of a method, constructor or initializer whose result has this type.
fn statements_of(source: &Source, at: u32, result_type: RowType) -> Result<Items<Code>, OutOfMemory>
    ensures { IfOk result (λ code. AreRead source.now → at < length (rows_of source.now) → IsCodeBelow (facts source.now) (Some result_type) at code) }
{
    let mut making = Making::new(source.alloc, Some(result_type));
    let code = code_below(source, &mut making, at);
    drop(making);
    code
}

// Takes the first code that waits off, if its row stands before this one.
#[tactic(auto, using(crate::proofs::Callable::before_some, crate::proofs::Callable::before_none))]
fn first_of(
    source: &Source,
    codes: &mut Parts<Code>,
    end: u32,
) -> Result<Option<Boxed<Code>>, OutOfMemory>
    ensures { IfOk result (λ value. value ≡ first_before end (waiting codes.old)) }
{
    match codes.next(end) {
        Some(row) => Ok(Some(codes.boxed(source.alloc, row)?)),
        None => Ok(None),
    }
}

// The first code of what stands below a row, where nothing waits.
fn value_below(
    source: &Source,
    making: &mut Making,
    at: u32,
) -> Result<Option<Boxed<Code>>, OutOfMemory>
    ensures { IfOk result (λ value. AreRead source.now → at < length (rows_of source.now) → stacks_in making.old ≡ stacks_of [] → IsValueBelow (facts source.now) making.old.result_type at value) }
{
    make_below(source, making, at)?;
    first_of(source, &mut making.codes, source.end(at))
}

// The value of a field's initializer, if it has one.
fn initial_value(source: &Source, at: u32) -> Result<Option<Boxed<Code>>, OutOfMemory>
    ensures { IfOk result (λ value. AreRead source.now → at < length (rows_of source.now) → IsValueBelow (facts source.now) None at value) }
{
    let mut making = Making::new(source.alloc, None);
    let value = value_below(source, &mut making, at);
    drop(making);
    value
}

// The declaration is static.
fn is_static_at(source: &Source, at: u32) -> bool
    ensures { result ≡ modifiers.is_static (rows_of source.now) at }
{
    is_static(source.rows(), at)
}

// The object whose field it is, if the field is not static.
fn owner(source: &Source, at: u32, class: u32) -> Result<Option<Boxed<Code>>, OutOfMemory>
    ensures { IfOk result (λ on. on ≡ if modifiers.is_static (rows_of source.now) at then None else Some (this_in (facts source.now) class)) }
{
    if is_static_at(source, at) {
        Ok(None)
    } else {
        Ok(Some(this_of(source, class)?))
    }
}

// The field as the place to which its initializer is assigned.
fn place_of_field(source: &Source, at: u32, class: u32) -> Result<Boxed<Code>, OutOfMemory>
    ensures { IfOk result (λ place. place ≡ field_place (facts source.now) class at) }
{
    let on = owner(source, at, class)?;
    let field = source.decl(at);
    Ok(Boxed::new(source.alloc, Code::FieldAt { on, field })?)
}

// The assignment of a value to a field, as a statement.
fn assignment(
    source: &Source,
    at: u32,
    class: u32,
    value: Boxed<Code>,
) -> Result<Boxed<Code>, OutOfMemory>
    ensures { IfOk result (λ code. code ≡ c.Eval (c.Assign (field_place (facts source.now) class at) None value)) }
{
    let target = place_of_field(source, at, class)?;
    let op = None;
    let value = Boxed::new(source.alloc, Code::Assign { target, op, value })?;
    Ok(Boxed::new(source.alloc, Code::Eval { value })?)
}

// One statement.
fn single(source: &Source, code: Boxed<Code>) -> Result<Items<Code>, OutOfMemory>
    ensures { IfOk result (λ all. all ≡ code ∷ []) }
{
    let mut all = Items::new(source.alloc);
    add_item(&mut all, code)?;
    Ok(all)
}

fn initialization_of(
    source: &Source,
    at: u32,
    class: u32,
    value: Boxed<Code>,
) -> Result<Items<Code>, OutOfMemory>
    ensures { IfOk result (λ all. all ≡ c.Eval (c.Assign (field_place (facts source.now) class at) None value) ∷ []) }
{
    let code = assignment(source, at, class, value)?;
    single(source, code)
}

// The assignment of a field's initializer to it, if it has one.
fn field_code(source: &Source, at: u32, class: u32) -> Result<Items<Code>, OutOfMemory>
    ensures { IfOk result (λ all. AreRead source.now → at < length (rows_of source.now) → IsInitialization (facts source.now) class at all) }
{
    let value = initial_value(source, at)?;
    match value {
        Some(value) => initialization_of(source, at, class, value),
        None => Ok(Items::new(source.alloc)),
    }
}

// The value of a constant, as a field has it.
fn some_constant(source: &Source, value: Value) -> Result<Option<Const>, OutOfMemory>
    ensures { IfOk result (λ constant. constant ≡ Some (value_in (texts_of source.now) value)) }
{
    Ok(Some(constant_of(source, value)?))
}

// The value of a field that is a constant variable.
fn field_constant(source: &Source, at: u32) -> Result<Option<Const>, OutOfMemory>
    ensures { IfOk result (λ constant. constant ≡ (facts source.now).variable at) }
{
    match source.variable(at) {
        Some(value) => some_constant(source, value),
        None => Ok(None),
    }
}

fn declared_type(source: &Source, at: u32) -> Result<RowType, OutOfMemory>
    ensures { IfOk result (λ ty. (n : ℕ) → IsReadAt source.now n → type_of_declared (rows_of source.now) (table_of source.now) at ≡ Some ty) }
{
    match source.under().type_of_declared(at) {
        Some(ty) => Ok(ty),
        None => Err(OutOfMemory),
    }
}

// The class whose body it is.
fn class_round(source: &Source, at: u32) -> Result<u32, OutOfMemory>
    ensures { IfOk result (λ class. (facts source.now).around at ≡ Some class) }
{
    match source.around(at) {
        Some(class) => Ok(class),
        None => Err(OutOfMemory),
    }
}

fn field(source: &Source, at: u32) -> Result<Body, OutOfMemory>
    ensures { IfOk result (λ body. AreRead source.now → at < length (rows_of source.now) → IsFieldBody (facts source.now) at body) }
{
    let class = class_round(source, at)?;
    let code = field_code(source, at, class)?;
    let declared = declared_type(source, at)?;
    let constant = field_constant(source, at)?;
    let ty = type_of(source, declared)?;
    let decl = source.decl(at);
    let class = source.type_id(class);
    let is_static = is_static_at(source, at);
    let params = Items::new(source.alloc);
    Ok(Body {
        decl,
        class,
        is_static,
        is_native: false,
        ty,
        constant,
        params,
        code,
    })
}

// A method, constructor or initializer with a result of this type.
fn callable(
    source: &Source,
    at: u32,
    is_static: bool,
    result_type: RowType,
) -> Result<Body, OutOfMemory>
    ensures { IfOk result (λ body. AreRead source.now → at < length (rows_of source.now) → IsCallable (facts source.now) at is_static result_type body) }
{
    let class = class_round(source, at)?;
    let code = statements_of(source, at, result_type)?;
    let params = parameters(source, at)?;
    let ty = type_of(source, result_type)?;
    let decl = source.decl(at);
    let class = source.type_id(class);
    let written = written_at(source.rows(), at);
    Ok(Body {
        decl,
        class,
        is_static,
        is_native: written.is_native,
        ty,
        constant: None,
        params,
        code,
    })
}

fn method(source: &Source, at: u32) -> Result<Body, OutOfMemory>
    ensures { IfOk result (λ body. AreRead source.now → at < length (rows_of source.now) → IsMethodBy (facts source.now) at body) }
{
    let result_type = declared_type(source, at)?;
    let is_static = is_static_at(source, at);
    callable(source, at, is_static, result_type)
}

// A constructor or initializer.
fn creating(source: &Source, at: u32, is_static: bool) -> Result<Body, OutOfMemory>
    ensures { IfOk result (λ body. AreRead source.now → at < length (rows_of source.now) → IsCallable (facts source.now) at is_static (plain element.Void) body) }
{
    callable(source, at, is_static, plain_type(Element::Void))
}

// Adds the body that a row with this label declares, if it declares one.
fn add_labeled(
    source: &Source,
    bodies: &mut Items<Body>,
    at: u32,
    label: &Label,
) -> Result<(), OutOfMemory>
    ensures { OnOk result (rows.label (rows_of source.now) at ≡ label.now → AreRead source.now → at < length (rows_of source.now) → MayAdd (declares_body label.now) (BodyAt (facts source.now) at) bodies.old bodies.new) }
{
    match label {
        Label::Field { .. } => add_made(bodies, field(source, at)),
        Label::Method { .. } => add_made(bodies, method(source, at)),
        Label::Constructor { .. } => add_made(bodies, creating(source, at, false)),
        Label::DefaultConstructor => add_made(bodies, creating(source, at, false)),
        Label::Initializer { is_static } => add_made(bodies, creating(source, at, *is_static)),
        _ => Ok(()),
    }
}

// Adds the body that a row declares, if it declares one.
fn add_body(source: &Source, bodies: &mut Items<Body>, at: u32) -> Result<(), OutOfMemory>
    ensures { OnOk result (AreRead source.now → at < length (rows_of source.now) → MayAdd (declares_body (rows.label (rows_of source.now) at)) (BodyAt (facts source.now) at) bodies.old bodies.new) }
{
    match label_of(source, at) {
        Some(label) => add_labeled(source, bodies, at, label),
        None => Err(OutOfMemory),
    }
}

/// The bodies of a program.
pub fn bodies_of(source: &Source) -> Result<Items<Body>, OutOfMemory>
    ensures { IfOk result (λ bodies. AreRead source.now → AreEach (BodyAt (facts source.now)) (all_such (length (rows_of source.now)) (λ n. declares_body (rows.label (rows_of source.now) n))) bodies) }
{
    let count = row_count(source)?;
    let mut bodies = Items::new(source.alloc);
    for at in 0..count {
        add_body(source, &mut bodies, at)?;
    }
    Ok(bodies)
}
