// What kind of row stands at a number.
ghost use Rattle.std.specs.Prelude.{◌≡◌};
ghost use Rattle.jr_tree.specs.Rows as rows;
ghost use Rattle.jr_rules.specs.InitializingTests as initializing;
ghost use Rattle.jr_rules.specs.ObjectTests as objects;
ghost use Rattle.jr_rules.specs.CreationTests as creations;
ghost use Rattle.jr_rules.specs.OperandTests as operands;
ghost use Rattle.jr_rules.specs.StatementTests as statements;
ghost use Rattle.jr_rules.specs.PlaceTests as places;
ghost use Rattle.jr_plain.specs.Instances as instances;
ghost use Rattle.jr_plain.specs.Constants as constants;
ghost use Rattle.jr_plain.specs.Typing as typing;

use jr_base::Symbol;
use jr_tree::{Label, NamePlace, ReceiverKind, Row, ThisOrSuper};

// The sign `=`.
fn is_assign(op: Symbol) -> bool
    ensures { result ≡ typing.is_assign op }
{
    match op {
        Symbol::Assign => true,
        _ => false,
    }
}

/// The row is a creation of an object.
pub fn is_new(all: &[Row], at: u32) -> bool
    ensures { result ≡ objects.is_new (rows.label all.now at) }
{
    match all.get(at as usize) {
        Some(row) => match row.label {
            Label::New => true,
            _ => false,
        },
        None => false,
    }
}

/// The row is a declaration of fields, or an initializer.
pub fn is_initializing(all: &[Row], at: u32) -> bool
    ensures { result ≡ initializing.is_initializing (rows.label all.now at) }
{
    match all.get(at as usize) {
        Some(row) => match row.label {
            Label::Fields { .. } => true,
            Label::Initializer { .. } => true,
            _ => false,
        },
        None => false,
    }
}

/// The row is `this(..)`.
pub fn is_this_call(all: &[Row], at: u32) -> bool
    ensures { result ≡ creations.is_this_call (rows.label all.now at) }
{
    match all.get(at as usize) {
        Some(row) => match row.label {
            Label::ConstructorCall {
                which: ThisOrSuper::This,
            } => true,
            _ => false,
        },
        None => false,
    }
}

/// The row is `super.m(..)`.
pub fn is_super_call(all: &[Row], at: u32) -> bool
    ensures { result ≡ creations.is_super_call (rows.label all.now at) }
{
    match all.get(at as usize) {
        Some(row) => match row.label {
            Label::Call {
                receiver: ReceiverKind::Super,
            } => true,
            _ => false,
        },
        None => false,
    }
}

/// The row is `this(..)` or `super(..)`.
pub fn is_call_of_constructor(all: &[Row], at: u32) -> bool
    ensures { result ≡ instances.is_call_of_constructor (rows.label all.now at) }
{
    match all.get(at as usize) {
        Some(row) => match row.label {
            Label::ConstructorCall { .. } => true,
            _ => false,
        },
        None => false,
    }
}

/// The row is an operator on one operand.
pub fn takes_one(all: &[Row], at: u32) -> bool
    ensures { result ≡ operands.takes_one (rows.label all.now at) }
{
    match all.get(at as usize) {
        Some(row) => match row.label {
            Label::Unary { .. } => true,
            Label::PreStep { .. } => true,
            Label::PostStep { .. } => true,
            _ => false,
        },
        None => false,
    }
}

/// The row is an operator on two operands, or a compound assignment.
pub fn takes_two(all: &[Row], at: u32) -> bool
    ensures { result ≡ operands.takes_two (rows.label all.now at) }
{
    match all.get(at as usize) {
        Some(row) => match row.label {
            Label::Binary { .. } => true,
            Label::Assign { op } => !is_assign(op),
            _ => false,
        },
        None => false,
    }
}

/// The row is an assignment with `=`.
pub fn is_plain_assignment(all: &[Row], at: u32) -> bool
    ensures { result ≡ initializing.is_plain_assignment (rows.label all.now at) }
{
    match all.get(at as usize) {
        Some(row) => match row.label {
            Label::Assign { op } => is_assign(op),
            _ => false,
        },
        None => false,
    }
}

/// The row is `?:`.
pub fn is_conditional(all: &[Row], at: u32) -> bool
    ensures { result ≡ operands.is_conditional (rows.label all.now at) }
{
    match all.get(at as usize) {
        Some(row) => match row.label {
            Label::Conditional => true,
            _ => false,
        },
        None => false,
    }
}

/// The row is a component of an array.
pub fn is_index(all: &[Row], at: u32) -> bool
    ensures { result ≡ operands.is_index (rows.label all.now at) }
{
    match all.get(at as usize) {
        Some(row) => match row.label {
            Label::Index => true,
            _ => false,
        },
        None => false,
    }
}

/// The row is an expression in parentheses.
pub fn is_paren(all: &[Row], at: u32) -> bool
    ensures { result ≡ operands.is_paren (rows.label all.now at) }
{
    match all.get(at as usize) {
        Some(row) => match row.label {
            Label::Paren => true,
            _ => false,
        },
        None => false,
    }
}

/// The row changes its first operand.
pub fn changes_first(all: &[Row], at: u32) -> bool
    ensures { result ≡ operands.changes_first (rows.label all.now at) }
{
    match all.get(at as usize) {
        Some(row) => match row.label {
            Label::Assign { .. } => true,
            Label::PreStep { .. } => true,
            Label::PostStep { .. } => true,
            _ => false,
        },
        None => false,
    }
}

/// The row is a cast.
pub fn is_cast(all: &[Row], at: u32) -> bool
    ensures { result ≡ operands.is_cast (rows.label all.now at) }
{
    match all.get(at as usize) {
        Some(row) => match row.label {
            Label::Cast => true,
            _ => false,
        },
        None => false,
    }
}

/// The row is an `instanceof`.
pub fn is_test(all: &[Row], at: u32) -> bool
    ensures { result ≡ operands.is_test (rows.label all.now at) }
{
    match all.get(at as usize) {
        Some(row) => match row.label {
            Label::IsA => true,
            _ => false,
        },
        None => false,
    }
}

/// The row is a `throw`.
pub fn is_throw(all: &[Row], at: u32) -> bool
    ensures { result ≡ statements.is_throw (rows.label all.now at) }
{
    match all.get(at as usize) {
        Some(row) => match row.label {
            Label::Throw => true,
            _ => false,
        },
        None => false,
    }
}

/// The row is a `catch`.
pub fn is_catch(all: &[Row], at: u32) -> bool
    ensures { result ≡ statements.is_catch (rows.label all.now at) }
{
    match all.get(at as usize) {
        Some(row) => match row.label {
            Label::Catch => true,
            _ => false,
        },
        None => false,
    }
}

/// The row is the last identifier of a name that is neither an expression nor in a header of a type.
pub fn is_other_name(all: &[Row], at: u32) -> bool
    ensures { result ≡ statements.is_other_name (rows.label all.now at) }
{
    match all.get(at as usize) {
        Some(row) => match row.label {
            Label::Name {
                place: NamePlace::Other,
                ..
            } => true,
            _ => false,
        },
        None => false,
    }
}

/// The row has its condition first.
pub fn tests_first(all: &[Row], at: u32) -> bool
    ensures { result ≡ statements.tests_first (rows.label all.now at) }
{
    match all.get(at as usize) {
        Some(row) => match row.label {
            Label::If => true,
            Label::While => true,
            Label::Conditional => true,
            Label::For {
                has_first: false,
                has_condition: true,
            } => true,
            _ => false,
        },
        None => false,
    }
}

/// The row has its condition second.
pub fn tests_second(all: &[Row], at: u32) -> bool
    ensures { result ≡ statements.tests_second (rows.label all.now at) }
{
    match all.get(at as usize) {
        Some(row) => match row.label {
            Label::Do => true,
            Label::For {
                has_first: true,
                has_condition: true,
            } => true,
            _ => false,
        },
        None => false,
    }
}

/// The row is a `switch`.
pub fn is_switch(all: &[Row], at: u32) -> bool
    ensures { result ≡ statements.is_switch (rows.label all.now at) }
{
    match all.get(at as usize) {
        Some(row) => match row.label {
            Label::Switch => true,
            _ => false,
        },
        None => false,
    }
}

/// The row is a label `case`.
pub fn is_case(all: &[Row], at: u32) -> bool
    ensures { result ≡ statements.is_case (rows.label all.now at) }
{
    match all.get(at as usize) {
        Some(row) => match row.label {
            Label::Case => true,
            _ => false,
        },
        None => false,
    }
}

/// The row is a label `default`.
pub fn is_default(all: &[Row], at: u32) -> bool
    ensures { result ≡ statements.is_default (rows.label all.now at) }
{
    match all.get(at as usize) {
        Some(row) => match row.label {
            Label::Default => true,
            _ => false,
        },
        None => false,
    }
}

/// The row is a `return`.
pub fn is_return(all: &[Row], at: u32) -> bool
    ensures { result ≡ statements.is_return (rows.label all.now at) }
{
    match all.get(at as usize) {
        Some(row) => match row.label {
            Label::Return => true,
            _ => false,
        },
        None => false,
    }
}

/// The row is an initializer of a class.
pub fn is_initializer(all: &[Row], at: u32) -> bool
    ensures { result ≡ statements.is_initializer (rows.label all.now at) }
{
    match all.get(at as usize) {
        Some(row) => match row.label {
            Label::Initializer { .. } => true,
            _ => false,
        },
        None => false,
    }
}

/// The row is a method without result, or a constructor.
pub fn gives_nothing(all: &[Row], at: u32) -> bool
    ensures { result ≡ statements.gives_nothing (rows.label all.now at) }
{
    match all.get(at as usize) {
        Some(row) => match row.label {
            Label::Method { is_void, .. } => is_void,
            Label::Constructor { .. } => true,
            _ => false,
        },
        None => false,
    }
}

/// The row is a method with a result.
pub fn gives_result(all: &[Row], at: u32) -> bool
    ensures { result ≡ statements.gives_result (rows.label all.now at) }
{
    match all.get(at as usize) {
        Some(row) => match row.label {
            Label::Method { is_void, .. } => !is_void,
            _ => false,
        },
        None => false,
    }
}

/// The row is an expression as an initializer.
pub fn is_value(all: &[Row], at: u32) -> bool
    ensures { result ≡ constants.is_value (rows.label all.now at) }
{
    match all.get(at as usize) {
        Some(row) => match row.label {
            Label::Value => true,
            _ => false,
        },
        None => false,
    }
}

/// The row is a creation of an array.
pub fn is_new_array(all: &[Row], at: u32) -> bool
    ensures { result ≡ places.is_new_array (rows.label all.now at) }
{
    match all.get(at as usize) {
        Some(row) => match row.label {
            Label::NewArray { .. } => true,
            _ => false,
        },
        None => false,
    }
}

/// The row is a list in braces.
pub fn is_list(all: &[Row], at: u32) -> bool
    ensures { result ≡ places.is_list (rows.label all.now at) }
{
    match all.get(at as usize) {
        Some(row) => match row.label {
            Label::List => true,
            _ => false,
        },
        None => false,
    }
}

/// The row is a statement that is an expression, or the expressions in the first part of a `for`.
pub fn drops_values(all: &[Row], at: u32) -> bool
    ensures { result ≡ places.drops_values (rows.label all.now at) }
{
    match all.get(at as usize) {
        Some(row) => match row.label {
            Label::Eval => true,
            Label::ForExprs => true,
            _ => false,
        },
        None => false,
    }
}

/// The row is a `for`.
pub fn is_for(all: &[Row], at: u32) -> bool
    ensures { result ≡ places.is_for (rows.label all.now at) }
{
    match all.get(at as usize) {
        Some(row) => match row.label {
            Label::For { .. } => true,
            _ => false,
        },
        None => false,
    }
}

/// The row is a call of a method.
pub fn is_call(all: &[Row], at: u32) -> bool
    ensures { result ≡ places.is_call (rows.label all.now at) }
{
    match all.get(at as usize) {
        Some(row) => match row.label {
            Label::Call { .. } => true,
            _ => false,
        },
        None => false,
    }
}
