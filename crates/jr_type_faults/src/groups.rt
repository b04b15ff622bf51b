// At which rows a rule of a group may be broken: most rows are passed over by what they are and stand in.
ghost use Rattle.std.specs.Prelude.{◌≡◌};
ghost use Rattle.jr_tree.specs.Rows as rows;
ghost use Rattle.jr_rules.specs.ObjectTests.{is_field_or_method};
ghost use Rattle.jr_rules.specs.StatementTests.{is_catch};
ghost use Rattle.jr_type_facts.specs.Facts as tell;
ghost use Rattle.jr_type_faults.specs.Groups as groups;

use crate::statements::is_declared_class;
use jr_places::{parent_at, role_at};
use jr_tree::{Label, Role, Row};
use jr_type_facts::{Facts, is_catch};

fn needs_object(all: &[Row], at: u32) -> bool
    ensures { result ≡ groups.needs_object (rows.label all.now at) }
{
    match all.get(at as usize) {
        Some(row) => match row.label {
            Label::This { .. } => true,
            Label::SuperSelect => true,
            Label::Call { .. } => true,
            Label::New => true,
            Label::Throw => true,
            Label::Constructor { .. } => true,
            Label::DefaultConstructor => true,
            _ => false,
        },
        None => false,
    }
}

fn is_field_or_method(role: Role) -> bool
    ensures { result ≡ is_field_or_method role }
{
    match role {
        Role::Field => true,
        Role::Method => true,
        _ => false,
    }
}

fn refers_to_member(facts: &Facts, at: u32) -> bool
    ensures { result ≡ groups.refers_to_member (tell.rows_of facts.now) (tell.table_of facts.now) at }
{
    match facts.view.sight.world.under.declared(at) {
        Some(row) => is_field_or_method(role_at(facts.rows(), row)),
        None => false,
    }
}

fn is_in_catch(all: &[Row], at: u32) -> bool
    ensures { result ≡ is_catch (rows.label all.now (rows.parent all.now at)) }
{
    is_catch(all, parent_at(all, at))
}

/// A rule on objects, initializers, constructors or what is thrown may be broken at the row.
pub fn may_break_contexts(facts: &Facts, at: u32) -> bool
    ensures { result ≡ groups.may_break_contexts (tell.rows_of facts.now) (tell.table_of facts.now) at }
{
    needs_object(facts.rows(), at)
        || (is_in_catch(facts.rows(), at)
            || (refers_to_member(facts, at) || is_declared_class(facts.rows(), at)))
}

fn is_operator(all: &[Row], at: u32) -> bool
    ensures { result ≡ groups.is_operator (rows.label all.now at) }
{
    match all.get(at as usize) {
        Some(row) => match row.label {
            Label::Assign { .. } => true,
            Label::Conditional => true,
            Label::Binary { .. } => true,
            Label::IsA => true,
            Label::Unary { .. } => true,
            Label::Cast => true,
            Label::PreStep { .. } => true,
            Label::PostStep { .. } => true,
            _ => false,
        },
        None => false,
    }
}

fn holds_value(all: &[Row], at: u32) -> bool
    ensures { result ≡ groups.holds_value (rows.label all.now at) }
{
    match all.get(at as usize) {
        Some(row) => match row.label {
            Label::Value => true,
            Label::Do => true,
            Label::While => true,
            Label::If => true,
            Label::For { .. } => true,
            Label::Assign { .. } => true,
            Label::Conditional => true,
            Label::PreStep { .. } => true,
            Label::PostStep { .. } => true,
            _ => false,
        },
        None => false,
    }
}

/// A rule on operands, values, variables, casts or conditions may be broken at the row.
pub fn may_break_values(all: &[Row], at: u32) -> bool
    ensures { result ≡ groups.may_break_values all.now at }
{
    is_operator(all, at) || holds_value(all, parent_at(all, at))
}

fn uses_value(all: &[Row], at: u32) -> bool
    ensures { result ≡ groups.uses_value (rows.label all.now at) }
{
    match all.get(at as usize) {
        Some(row) => match row.label {
            Label::List => true,
            Label::Switch => true,
            Label::Case => true,
            Label::Default => true,
            Label::Return => true,
            Label::Conditional => true,
            Label::Call { .. } => true,
            Label::New => true,
            _ => false,
        },
        None => false,
    }
}

fn holds_index(all: &[Row], at: u32) -> bool
    ensures { result ≡ groups.holds_index (rows.label all.now at) }
{
    match all.get(at as usize) {
        Some(row) => match row.label {
            Label::Index => true,
            Label::NewArray { .. } => true,
            _ => false,
        },
        None => false,
    }
}

/// A rule on switches, void calls, returns, what is abstract, arrays or branches may be broken at the row.
pub fn may_break_uses(all: &[Row], at: u32) -> bool
    ensures { result ≡ groups.may_break_uses all.now at }
{
    uses_value(all, at) || holds_index(all, parent_at(all, at))
}
