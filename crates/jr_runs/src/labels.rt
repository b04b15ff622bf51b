// Equality of labels.
ghost use Rattle.std.specs.Prelude.{◌≡◌, ◌↔◌, IsTrue, None};
ghost use Rattle.jr_tree.specs.declared.label.Label.TheVariants as is;
ghost use Rattle.jr_runs.specs.Labels as spec;

use crate::kinds::same_kind;
use jr_base::{Kind, Symbol};
use jr_tree::{
    ImportKind, Label, Modifiers, NameKind, NamePlace, Primitive, ReceiverKind, ThisOrSuper,
};

/// The number of a label of a declaration that has nothing besides.
fn number_of_declaration(label: &Label) -> Option<u8>
    ensures { result ≡ spec.number_of_declaration label.now }
{
    match label {
        Label::Program => Some(0),
        Label::Unit => Some(1),
        Label::Package => Some(2),
        Label::Body => Some(3),
        Label::DefaultConstructor => Some(4),
        Label::ImplicitCall => Some(5),
        Label::Value => Some(6),
        Label::List => Some(7),
        _ => None,
    }
}

/// The number of a label of a simple statement that has nothing besides.
fn number_of_simple(label: &Label) -> Option<u8>
    ensures { result ≡ spec.number_of_simple label.now }
{
    match label {
        Label::Block => Some(10),
        Label::Nest => Some(11),
        Label::Locals => Some(12),
        Label::Skip => Some(13),
        Label::Do => Some(14),
        Label::While => Some(15),
        Label::If => Some(16),
        Label::Eval => Some(17),
        _ => None,
    }
}

/// The number of a label of another statement that has nothing besides.
fn number_of_statement(label: &Label) -> Option<u8>
    ensures { result ≡ spec.number_of_statement label.now }
{
    match label {
        Label::ForLocals => Some(20),
        Label::ForExprs => Some(21),
        Label::Switch => Some(22),
        Label::Group => Some(23),
        Label::Case => Some(24),
        Label::Default => Some(25),
        Label::Labeled => Some(26),
        Label::Return => Some(27),
        Label::Throw => Some(28),
        Label::Catch => Some(29),
        _ => None,
    }
}

/// The number of a label of an expression that has nothing besides.
fn number_of_expression(label: &Label) -> Option<u8>
    ensures { result ≡ spec.number_of_expression label.now }
{
    match label {
        Label::Conditional => Some(30),
        Label::IsA => Some(31),
        Label::Cast => Some(32),
        Label::Paren => Some(33),
        Label::Select => Some(34),
        Label::SuperSelect => Some(35),
        Label::Index => Some(36),
        Label::New => Some(37),
        _ => None,
    }
}

fn first_some(one: Option<u8>, other: Option<u8>) -> Option<u8>
    ensures { result ≡ spec.first_some one other }
{
    match one {
        Some(number) => Some(number),
        None => other,
    }
}

/// The number of a label that has nothing besides.
fn number_of(label: &Label) -> Option<u8>
    ensures { result ≡ spec.number_of label.now }
{
    first_some(
        first_some(number_of_declaration(label), number_of_simple(label)),
        first_some(number_of_statement(label), number_of_expression(label)),
    )
}

fn same_modifiers(one: Modifiers, other: Modifiers) -> bool
    ensures { IsTrue result ↔ (one ≡ other) }
{
    one == other
}

fn is_import(label: &Label, kind: ImportKind) -> bool
    ensures { IsTrue result ↔ (label.now ≡ is.Import kind) }
{
    match label {
        Label::Import { kind: again } => *again == kind,
        _ => false,
    }
}

fn is_class(label: &Label, modifiers: Modifiers, is_member: bool) -> bool
    ensures { IsTrue result ↔ (label.now ≡ is.Class modifiers is_member) }
{
    match label {
        Label::Class {
            modifiers: again,
            is_member: inside,
        } => same_modifiers(*again, modifiers) && *inside == is_member,
        _ => false,
    }
}

fn is_interface(label: &Label, modifiers: Modifiers, is_member: bool) -> bool
    ensures { IsTrue result ↔ (label.now ≡ is.Interface modifiers is_member) }
{
    match label {
        Label::Interface {
            modifiers: again,
            is_member: inside,
        } => same_modifiers(*again, modifiers) && *inside == is_member,
        _ => false,
    }
}

fn is_empty(label: &Label, is_member: bool) -> bool
    ensures { IsTrue result ↔ (label.now ≡ is.EmptyDecl is_member) }
{
    match label {
        Label::EmptyDecl { is_member: inside } => *inside == is_member,
        _ => false,
    }
}

fn same_type(one: &Label, other: &Label) -> bool
    ensures sound { IsTrue result → one.now ≡ other.now }
    ensures whole { IsTrue (spec.is_type_like one.now) → one.now ≡ other.now → IsTrue result }
{
    match one {
        Label::Import { kind } => is_import(other, *kind),
        Label::Class {
            modifiers,
            is_member,
        } => is_class(other, *modifiers, *is_member),
        Label::Interface {
            modifiers,
            is_member,
        } => is_interface(other, *modifiers, *is_member),
        Label::EmptyDecl { is_member } => is_empty(other, *is_member),
        _ => false,
    }
}

fn is_fields(label: &Label, modifiers: Modifiers) -> bool
    ensures { IsTrue result ↔ (label.now ≡ is.Fields modifiers) }
{
    match label {
        Label::Fields { modifiers: again } => same_modifiers(*again, modifiers),
        _ => false,
    }
}

fn is_field(label: &Label, modifiers: Modifiers, dims: usize) -> bool
    ensures { IsTrue result ↔ (label.now ≡ is.Field modifiers dims) }
{
    match label {
        Label::Field {
            modifiers: again,
            dims: count,
        } => same_modifiers(*again, modifiers) && *count == dims,
        _ => false,
    }
}

fn is_method(label: &Label, modifiers: Modifiers, is_void: bool, has_body: bool) -> bool
    ensures { IsTrue result ↔ (label.now ≡ is.Method modifiers is_void has_body) }
{
    match label {
        Label::Method {
            modifiers: again,
            is_void: void,
            has_body: body,
        } => same_modifiers(*again, modifiers) && *void == is_void && *body == has_body,
        _ => false,
    }
}

fn is_constructor(label: &Label, modifiers: Modifiers) -> bool
    ensures { IsTrue result ↔ (label.now ≡ is.Constructor modifiers) }
{
    match label {
        Label::Constructor { modifiers: again } => same_modifiers(*again, modifiers),
        _ => false,
    }
}

fn is_initializer(label: &Label, is_static: bool) -> bool
    ensures { IsTrue result ↔ (label.now ≡ is.Initializer is_static) }
{
    match label {
        Label::Initializer { is_static: again } => *again == is_static,
        _ => false,
    }
}

fn same_member(one: &Label, other: &Label) -> bool
    ensures sound { IsTrue result → one.now ≡ other.now }
    ensures whole { IsTrue (spec.is_member_like one.now) → one.now ≡ other.now → IsTrue result }
{
    match one {
        Label::Fields { modifiers } => is_fields(other, *modifiers),
        Label::Field { modifiers, dims } => is_field(other, *modifiers, *dims),
        Label::Method {
            modifiers,
            is_void,
            has_body,
        } => is_method(other, *modifiers, *is_void, *has_body),
        Label::Constructor { modifiers } => is_constructor(other, *modifiers),
        Label::Initializer { is_static } => is_initializer(other, *is_static),
        _ => false,
    }
}

fn is_parameter(label: &Label, is_final: bool, dims: usize) -> bool
    ensures { IsTrue result ↔ (label.now ≡ is.Parameter is_final dims) }
{
    match label {
        Label::Parameter {
            is_final: again,
            dims: count,
        } => *again == is_final && *count == dims,
        _ => false,
    }
}

fn is_local(label: &Label, is_final: bool, dims: usize) -> bool
    ensures { IsTrue result ↔ (label.now ≡ is.Local is_final dims) }
{
    match label {
        Label::Local {
            is_final: again,
            dims: count,
        } => *again == is_final && *count == dims,
        _ => false,
    }
}

fn same_variable(one: &Label, other: &Label) -> bool
    ensures sound { IsTrue result → one.now ≡ other.now }
    ensures whole { IsTrue (spec.is_variable_like one.now) → one.now ≡ other.now → IsTrue result }
{
    match one {
        Label::Parameter { is_final, dims } => is_parameter(other, *is_final, *dims),
        Label::Local { is_final, dims } => is_local(other, *is_final, *dims),
        _ => false,
    }
}

fn is_for(label: &Label, has_first: bool, has_condition: bool) -> bool
    ensures { IsTrue result ↔ (label.now ≡ is.For has_first has_condition) }
{
    match label {
        Label::For {
            has_first: first,
            has_condition: condition,
        } => *first == has_first && *condition == has_condition,
        _ => false,
    }
}

fn is_break(label: &Label, has_label: bool) -> bool
    ensures { IsTrue result ↔ (label.now ≡ is.Break has_label) }
{
    match label {
        Label::Break { has_label: again } => *again == has_label,
        _ => false,
    }
}

fn is_continue(label: &Label, has_label: bool) -> bool
    ensures { IsTrue result ↔ (label.now ≡ is.Continue has_label) }
{
    match label {
        Label::Continue { has_label: again } => *again == has_label,
        _ => false,
    }
}

fn is_try(label: &Label, has_finally: bool) -> bool
    ensures { IsTrue result ↔ (label.now ≡ is.Try has_finally) }
{
    match label {
        Label::Try { has_finally: again } => *again == has_finally,
        _ => false,
    }
}

fn is_constructor_call(label: &Label, which: ThisOrSuper) -> bool
    ensures { IsTrue result ↔ (label.now ≡ is.ConstructorCall which) }
{
    match label {
        Label::ConstructorCall { which: again } => *again == which,
        _ => false,
    }
}

fn same_statement(one: &Label, other: &Label) -> bool
    ensures sound { IsTrue result → one.now ≡ other.now }
    ensures whole { IsTrue (spec.is_statement_like one.now) → one.now ≡ other.now → IsTrue result }
{
    match one {
        Label::For {
            has_first,
            has_condition,
        } => is_for(other, *has_first, *has_condition),
        Label::Break { has_label } => is_break(other, *has_label),
        Label::Continue { has_label } => is_continue(other, *has_label),
        Label::Try { has_finally } => is_try(other, *has_finally),
        Label::ConstructorCall { which } => is_constructor_call(other, *which),
        _ => false,
    }
}

fn is_assign(label: &Label, op: Symbol) -> bool
    ensures { IsTrue result ↔ (label.now ≡ is.Assign op) }
{
    match label {
        Label::Assign { op: again } => *again == op,
        _ => false,
    }
}

fn is_binary(label: &Label, op: Symbol) -> bool
    ensures { IsTrue result ↔ (label.now ≡ is.Binary op) }
{
    match label {
        Label::Binary { op: again } => *again == op,
        _ => false,
    }
}

fn is_unary(label: &Label, op: Symbol) -> bool
    ensures { IsTrue result ↔ (label.now ≡ is.Unary op) }
{
    match label {
        Label::Unary { op: again } => *again == op,
        _ => false,
    }
}

fn is_step_before(label: &Label, op: Symbol) -> bool
    ensures { IsTrue result ↔ (label.now ≡ is.PreStep op) }
{
    match label {
        Label::PreStep { op: again } => *again == op,
        _ => false,
    }
}

fn is_step_behind(label: &Label, op: Symbol) -> bool
    ensures { IsTrue result ↔ (label.now ≡ is.PostStep op) }
{
    match label {
        Label::PostStep { op: again } => *again == op,
        _ => false,
    }
}

fn same_operation(one: &Label, other: &Label) -> bool
    ensures sound { IsTrue result → one.now ≡ other.now }
    ensures whole { IsTrue (spec.is_operation_like one.now) → one.now ≡ other.now → IsTrue result }
{
    match one {
        Label::Assign { op } => is_assign(other, *op),
        Label::Binary { op } => is_binary(other, *op),
        Label::Unary { op } => is_unary(other, *op),
        Label::PreStep { op } => is_step_before(other, *op),
        Label::PostStep { op } => is_step_behind(other, *op),
        _ => false,
    }
}

pub fn is_name(label: &Label, kind: NameKind, place: NamePlace, is_qualified: bool) -> bool
    ensures { IsTrue result ↔ (label.now ≡ is.Name kind place is_qualified) }
{
    match label {
        Label::Name {
            kind: again,
            place: there,
            is_qualified: qualified,
        } => *again == kind && *there == place && *qualified == is_qualified,
        _ => false,
    }
}

pub fn is_type_use(label: &Label, primitive: Option<Primitive>, dims: usize) -> bool
    ensures { IsTrue result ↔ (label.now ≡ is.TypeUse primitive dims) }
{
    match label {
        Label::TypeUse {
            primitive: again,
            dims: count,
        } => *again == primitive && *count == dims,
        _ => false,
    }
}

fn is_literal(label: &Label, kind: &Kind) -> bool
    ensures { IsTrue result ↔ (label.now ≡ is.Literal kind.now) }
{
    match label {
        Label::Literal { kind: again } => same_kind(again.get(), kind),
        _ => false,
    }
}

pub fn is_this(label: &Label, is_qualified: bool) -> bool
    ensures { IsTrue result ↔ (label.now ≡ is.This is_qualified) }
{
    match label {
        Label::This {
            is_qualified: again,
        } => *again == is_qualified,
        _ => false,
    }
}

pub fn is_call(label: &Label, receiver: ReceiverKind) -> bool
    ensures { IsTrue result ↔ (label.now ≡ is.Call receiver) }
{
    match label {
        Label::Call { receiver: again } => *again == receiver,
        _ => false,
    }
}

fn is_new_array(label: &Label, primitive: Option<Primitive>, lengths: usize, more: usize) -> bool
    ensures { IsTrue result ↔ (label.now ≡ is.NewArray primitive lengths more) }
{
    match label {
        Label::NewArray {
            primitive: again,
            lengths: count,
            more: rest,
        } => *again == primitive && *count == lengths && *rest == more,
        _ => false,
    }
}

fn same_operand(one: &Label, other: &Label) -> bool
    ensures sound { IsTrue result → one.now ≡ other.now }
    ensures whole { IsTrue (spec.is_operand_like one.now) → one.now ≡ other.now → IsTrue result }
{
    match one {
        Label::Name {
            kind,
            place,
            is_qualified,
        } => is_name(other, *kind, *place, *is_qualified),
        Label::TypeUse { primitive, dims } => is_type_use(other, *primitive, *dims),
        Label::Literal { kind } => is_literal(other, kind.get()),
        Label::This { is_qualified } => is_this(other, *is_qualified),
        Label::Call { receiver } => is_call(other, *receiver),
        Label::NewArray {
            primitive,
            lengths,
            more,
        } => is_new_array(other, *primitive, *lengths, *more),
        _ => false,
    }
}

// Equality of labels that have something besides.
#[tactic(auto, using(crate::proofs::Numbered::is_some_like))]
fn same_other(one: &Label, other: &Label) -> bool
    requires { spec.number_of one.now ≡ None }
    ensures { IsTrue result ↔ (one.now ≡ other.now) }
{
    same_type(one, other)
        || same_member(one, other)
        || same_variable(one, other)
        || same_statement(one, other)
        || same_operation(one, other)
        || same_operand(one, other)
}

/// Equality of labels.
#[tactic(auto, using(crate::proofs::Numbered::numbered_are_same))]
pub fn same_label(one: &Label, other: &Label) -> bool
    ensures { IsTrue result ↔ (one.now ≡ other.now) }
{
    match number_of(one) {
        Some(number) => number_of(other) == Some(number),
        None => same_other(one, other),
    }
}
