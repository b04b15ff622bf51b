// Thrown classes, conditions and returns (JLS 8.4.6, 14.9 to 14.18, 14.20).
ghost use Rattle.std.specs.Prelude.{◌≡◌, ◌<◌, ◌^◌, ◌&&◌, length, not};
ghost use Rattle.jr_tree.specs.Rows as all_rows;
ghost use Rattle.jr_plain.specs.Conversions as conversions;
ghost use Rattle.jr_rules.specs.StatementTests as statements;
ghost use Rattle.jr_rules.specs.TypedTests.{found};
ghost use Rattle.jr_type_facts.specs.Facts as tell;
ghost use Rattle.jr_type_facts.specs.Tables.{AreRightFacts, HasNoOtherThrowable};
ghost use Rattle.jr_type_faults.specs.Parts as parts;

use crate::objects::member;
use crate::rows::{is_next, is_second};
use crate::values::first_does_not_fit;
use jr_defs::RowType;
use jr_places::{parent_at, role_at};
use jr_supers::class_type;
use jr_tree::{Role, Row};
use jr_type_facts::{
    Facts, gives_nothing, gives_result, is_catch, is_initializer, is_other_name, is_return,
    is_throw, tests_first, tests_second,
};
use jr_types::is_condition as is_boolean_type;

/// The row is the condition of an `if`, a loop or of `?:`.
pub fn is_condition(rows: &[Row], at: u32) -> bool
    ensures { length rows.now < 2 ^ 32 → result ≡ statements.is_condition rows.now at }
{
    let over = parent_at(rows, at);
    (tests_first(rows, over) && is_next(over, at))
        || (tests_second(rows, over) && is_second(rows, over, at))
}

// Throwable or below, or the type of null (JLS 11.5, 14.18).
fn is_throwable(facts: &Facts, ty: RowType) -> bool
    ensures { AreRightFacts facts.now → HasNoOtherThrowable (tell.rows_of facts.now) → result ≡ statements.is_throwable (tell.rows_of facts.now) (tell.table_of facts.now) ty }
{
    match facts.tables.throwable {
        Some(class) => facts.is_subtype(ty, class_type(class)),
        None => false,
    }
}

fn may_not_throw(facts: &Facts, ty: Option<RowType>) -> bool
    ensures { AreRightFacts facts.now → HasNoOtherThrowable (tell.rows_of facts.now) → result ≡ parts.may_not_throw facts.now ty }
{
    match ty {
        Some(thrown) => !is_throwable(facts, thrown),
        None => false,
    }
}

fn is_method_or_constructor(role: Role) -> bool
    ensures { result ≡ statements.is_method_or_constructor role }
{
    match role {
        Role::Method => true,
        Role::Constructor => true,
        _ => false,
    }
}

// The class that a row refers to is not Throwable or below.
fn refers_to_other(facts: &Facts, at: u32) -> bool
    ensures { AreRightFacts facts.now → HasNoOtherThrowable (tell.rows_of facts.now) → result ≡ parts.refers_to_other facts.now at }
{
    match facts.view.sight.world.under.declared(at) {
        Some(class) => !is_throwable(facts, class_type(class)),
        None => false,
    }
}

/// The row names a class that a method or constructor declares.
pub fn is_declared_class(rows: &[Row], at: u32) -> bool
    ensures { result ≡ (statements.is_method_or_constructor (all_rows.role_at rows.now (all_rows.parent rows.now at)) && statements.is_other_name (all_rows.label rows.now at)) }
{
    is_method_or_constructor(role_at(rows, parent_at(rows, at))) && is_other_name(rows, at)
}

// The parameter of a catch is not Throwable or below.
fn is_wrong_parameter(facts: &Facts, at: u32) -> bool
    ensures { AreRightFacts facts.now → HasNoOtherThrowable (tell.rows_of facts.now) → result ≡ parts.is_wrong_parameter facts.now at }
{
    is_catch(facts.rows(), parent_at(facts.rows(), at))
        && may_not_throw(facts, facts.view.sight.world.under.type_of_declared(at))
}

// The same, or a class that a method or constructor declares is not Throwable or below.
fn is_not_caught(facts: &Facts, at: u32) -> bool
    ensures { AreRightFacts facts.now → HasNoOtherThrowable (tell.rows_of facts.now) → result ≡ parts.is_not_caught facts.now at }
{
    is_wrong_parameter(facts, at)
        || (is_declared_class(facts.rows(), at) && refers_to_other(facts, at))
}

/// A thrown value, the parameter of a catch, or a class that a method or constructor declares is not Throwable or below.
pub fn is_not_throwable(facts: &Facts, at: u32) -> bool
    ensures { AreRightFacts facts.now → HasNoOtherThrowable (tell.rows_of facts.now) → result ≡ statements.is_not_throwable (tell.rows_of facts.now) (tell.table_of facts.now) (tell.types_of facts.now) at }
{
    (is_throw(facts.rows(), at) && may_not_throw(facts, facts.first(at)))
        || is_not_caught(facts, at)
}

// The expression has a type other than boolean.
fn is_not_boolean(facts: &Facts, at: u32) -> bool
    ensures { result ≡ found (tell.types_of facts.now at) (λ a. not (conversions.is_plain conversions.is_boolean a)) }
{
    match facts.type_of(at) {
        Some(ty) => !is_boolean_type(ty),
        None => false,
    }
}

/// A condition is not boolean.
pub fn condition_is_not_boolean(facts: &Facts, at: u32) -> bool
    ensures { tell.AreSeenFacts facts.now → result ≡ statements.condition_is_not_boolean (tell.rows_of facts.now) (tell.types_of facts.now) at }
{
    is_condition(facts.rows(), at) && is_not_boolean(facts, at)
}

// The return has a value.
fn has_value(facts: &Facts, at: u32) -> bool
    ensures { tell.AreSeenFacts facts.now → result ≡ statements.has_value (tell.rows_of facts.now) at }
{
    match facts.view.sight.world.under.first_child(at) {
        Some(_) => true,
        None => false,
    }
}

// The value of a return is not assignable to the result of the member.
fn value_is_not_returned(facts: &Facts, at: u32, member: u32) -> bool
    ensures { tell.AreSeenFacts facts.now → result ≡ parts.value_is_not_returned facts.now at member }
{
    first_does_not_fit(
        facts,
        at,
        facts.view.sight.world.under.type_of_declared(member),
    )
}

// The return has no value, or one that is not assignable to the result of the member.
fn result_is_not_returned(facts: &Facts, at: u32, member: u32) -> bool
    ensures { tell.AreSeenFacts facts.now → result ≡ parts.result_is_not_returned facts.now at member }
{
    !has_value(facts, at) || value_is_not_returned(facts, at, member)
}

// The return has a value where the member gives none, or none that fits where it gives one.
fn does_not_fit_method(facts: &Facts, at: u32, member: u32) -> bool
    ensures { tell.AreSeenFacts facts.now → result ≡ parts.does_not_fit_method facts.now at member }
{
    (gives_nothing(facts.rows(), member) && has_value(facts, at))
        || (gives_result(facts.rows(), member) && result_is_not_returned(facts, at, member))
}

// The return does not fit the member that holds it.
fn does_not_fit_member(facts: &Facts, at: u32, member: u32) -> bool
    ensures { tell.AreSeenFacts facts.now → result ≡ parts.does_not_fit_member facts.now at member }
{
    is_initializer(facts.rows(), member) || does_not_fit_method(facts, at, member)
}

// The return does not fit the member that holds it, if there is one.
fn does_not_fit_there(facts: &Facts, at: u32) -> bool
    ensures { AreRightFacts facts.now → result ≡ parts.does_not_fit_there facts.now at }
{
    match member(facts, at) {
        Some(member) => does_not_fit_member(facts, at, member),
        None => false,
    }
}

/// A return in an initializer, with a value where none is given, without one where a result is given, or with a value that is not assignable to the result.
pub fn return_does_not_fit(facts: &Facts, at: u32) -> bool
    ensures { AreRightFacts facts.now → result ≡ statements.return_does_not_fit (tell.rows_of facts.now) (tell.table_of facts.now) (tell.constants_of facts.now) (tell.types_of facts.now) at }
{
    is_return(facts.rows(), at) && does_not_fit_there(facts, at)
}
