// Operands, what is assigned to, casts and branches (JLS 15.14 to 15.26).
ghost use Rattle.std.specs.Prelude.{◌≡◌, Some};
ghost use Rattle.jr_plain.specs.Typing as typing;
ghost use Rattle.jr_rules.specs.OperandTests as operands;
ghost use Rattle.jr_type_facts.specs.Facts as tell;
ghost use Rattle.jr_type_faults.specs.Parts as parts;

use crate::rows::is_next;
use jr_defs::RowType;
use jr_places::parent_at;
use jr_supers::is_reference;
use jr_type_facts::{
    Facts, changes_first, is_cast, is_conditional, is_index, is_paren, is_test, is_variable,
    takes_one, takes_two,
};
use jr_types::{Operand, conditional_type, is_reference_or_null};

// An operator whose operand has a type gives none for it.
fn does_not_take(facts: &Facts, at: u32) -> bool
    ensures { tell.AreSeenFacts facts.now → result ≡ parts.takes_one_wrongly facts.now at }
{
    takes_one(facts.rows(), at) && facts.first(at).is_some() && !facts.type_of(at).is_some()
}

// An operator whose two operands have types gives none for them.
fn does_not_take_both(facts: &Facts, at: u32) -> bool
    ensures { tell.AreSeenFacts facts.now → result ≡ parts.takes_two_wrongly facts.now at }
{
    takes_two(facts.rows(), at)
        && facts.first(at).is_some()
        && facts.second(at).is_some()
        && !facts.type_of(at).is_some()
}

// An operand of `?:` at a row, if there is one, with its value where it is a constant int.
fn operand_at(facts: &Facts, at: Option<u32>, ty: RowType) -> Operand
    ensures { result ≡ parts.operand_in facts.now at ty }
{
    match at {
        Some(row) => facts.operand(row, ty),
        None => Operand { ty, value: None },
    }
}

// `?:` has a type on two branches of these types.
fn are_typed(facts: &Facts, at: u32, left: RowType, right: RowType) -> bool
    ensures { tell.AreSeenFacts facts.now → typing.second (tell.rows_of facts.now) (tell.types_of facts.now) at ≡ Some left → typing.third (tell.rows_of facts.now) (tell.types_of facts.now) at ≡ Some right → result ≡ parts.are_typed facts.now at left right }
{
    let one = operand_at(facts, facts.second_row(at), left);
    let other = operand_at(facts, facts.third_row(at), right);
    let world = &facts.view.sight.world;
    conditional_type(world.under.rows, world.supers, one, other).is_some()
}

// Two branches that `?:` takes neither as references nor otherwise.
fn are_no_branches(facts: &Facts, at: u32, left: RowType, right: RowType) -> bool
    ensures { tell.AreSeenFacts facts.now → typing.second (tell.rows_of facts.now) (tell.types_of facts.now) at ≡ Some left → typing.third (tell.rows_of facts.now) (tell.types_of facts.now) at ≡ Some right → result ≡ parts.are_no_branches facts.now at left right }
{
    !(is_reference(left) && is_reference(right)) && !are_typed(facts, at, left, right)
}

// The third operand of a row, and a second one of this type, are no branches of `?:`.
fn is_not_taken_after(facts: &Facts, at: u32, left: RowType) -> bool
    ensures { tell.AreSeenFacts facts.now → typing.second (tell.rows_of facts.now) (tell.types_of facts.now) at ≡ Some left → result ≡ parts.is_not_taken_after facts.now at left }
{
    match facts.third(at) {
        Some(right) => are_no_branches(facts, at, left, right),
        None => false,
    }
}

// The branches of a row are no branches of `?:`.
fn branches_are_not_taken(facts: &Facts, at: u32) -> bool
    ensures { tell.AreSeenFacts facts.now → result ≡ parts.branches_are_not_taken facts.now at }
{
    match facts.second(at) {
        Some(left) => is_not_taken_after(facts, at, left),
        None => false,
    }
}

// An operator on two operands that have types, or `?:`, gives none for them.
fn operands_do_not_fit_both(facts: &Facts, at: u32) -> bool
    ensures { tell.AreSeenFacts facts.now → result ≡ parts.operands_do_not_fit_both facts.now at }
{
    does_not_take_both(facts, at)
        || (is_conditional(facts.rows(), at) && branches_are_not_taken(facts, at))
}

/// An operator whose operands have types gives none for them.
pub fn operands_do_not_fit(facts: &Facts, at: u32) -> bool
    ensures { tell.AreSeenFacts facts.now → result ≡ operands.operands_do_not_fit (tell.rows_of facts.now) (tell.table_of facts.now) (tell.constants_of facts.now) (tell.types_of facts.now) at }
{
    does_not_take(facts, at) || operands_do_not_fit_both(facts, at)
}

// What the row refers to is a variable.
fn refers_to_variable(facts: &Facts, at: u32) -> bool
    ensures { result ≡ parts.refers_to_variable facts.now at }
{
    match facts.view.sight.world.under.declared(at) {
        Some(row) => is_variable(facts.rows(), row),
        None => false,
    }
}

// The expression denotes a variable, without parentheses.
fn denotes_plainly(facts: &Facts, at: u32) -> bool
    ensures { result ≡ parts.denotes_plainly facts.now at }
{
    refers_to_variable(facts, at) || is_index(facts.rows(), at)
}

// What is in parentheses at a row.
fn inner_of(facts: &Facts, at: u32) -> Option<u32>
    ensures { tell.AreSeenFacts facts.now → result ≡ parts.inner_of facts.now at }
{
    if is_paren(facts.rows(), at) {
        facts.view.sight.world.under.first_child(at)
    } else {
        None
    }
}

// The expression denotes a variable, in any number of parentheses.
fn denotes_variable(facts: &Facts, at: u32) -> bool
    ensures { tell.AreSeenFacts facts.now → result ≡ operands.denotes_variable (tell.rows_of facts.now) (tell.table_of facts.now) at }
{
    let rows = facts.view.sight.world.under.rows;
    let mut here = at;
    for _turn in 0..rows.len() {
        if denotes_plainly(facts, here) {
            return true;
        }
        match inner_of(facts, here) {
            Some(inner) => here = inner,
            None => return false,
        }
    }
    false
}

/// What is assigned to or stepped is no variable.
pub fn is_no_variable(facts: &Facts, at: u32) -> bool
    ensures { tell.AreSeenFacts facts.now → result ≡ operands.is_no_variable (tell.rows_of facts.now) (tell.table_of facts.now) at }
{
    let over = parent_at(facts.rows(), at);
    changes_first(facts.rows(), over) && is_next(over, at) && !denotes_variable(facts, at)
}

// A cast that is not allowed.
fn is_no_cast(facts: &Facts, at: u32) -> bool
    ensures { tell.AreSeenFacts facts.now → result ≡ parts.is_no_cast facts.now at }
{
    match facts.first_written(at) {
        Some(to) => match facts.second(at) {
            Some(from) => !facts.is_castable(from, to),
            None => false,
        },
        None => false,
    }
}

// A reference that may be cast to the type.
fn is_testable(facts: &Facts, from: RowType, to: RowType) -> bool
    ensures { tell.AreSeenFacts facts.now → result ≡ parts.is_testable facts.now from to }
{
    is_reference_or_null(from) && facts.is_castable(from, to)
}

// An `instanceof` of no reference or whose cast is not allowed.
fn is_no_test(facts: &Facts, at: u32) -> bool
    ensures { tell.AreSeenFacts facts.now → result ≡ parts.is_no_test facts.now at }
{
    match facts.first(at) {
        Some(from) => match facts.second_written(at) {
            Some(to) => !is_testable(facts, from, to),
            None => false,
        },
        None => false,
    }
}

/// A cast that is not allowed, or an `instanceof` of no reference or whose cast is not allowed (JLS 15.16, 15.20.2).
pub fn cast_is_not_allowed(facts: &Facts, at: u32) -> bool
    ensures { tell.AreSeenFacts facts.now → result ≡ operands.cast_is_not_allowed (tell.rows_of facts.now) (tell.table_of facts.now) (tell.types_of facts.now) at }
{
    (is_cast(facts.rows(), at) && is_no_cast(facts, at))
        || (is_test(facts.rows(), at) && is_no_test(facts, at))
}

// Neither type is a subtype of the other.
fn are_apart(facts: &Facts, left: RowType, right: RowType) -> bool
    ensures { tell.AreSeenFacts facts.now → result ≡ parts.are_apart facts.now left right }
{
    !facts.is_subtype(left, right) && !facts.is_subtype(right, left)
}

// Two reference types of which neither is assignable to the other.
fn are_unrelated(facts: &Facts, left: RowType, right: RowType) -> bool
    ensures { tell.AreSeenFacts facts.now → result ≡ parts.are_unrelated facts.now left right }
{
    is_reference(left) && is_reference(right) && are_apart(facts, left, right)
}

// The second and third operand are two such references.
fn operands_are_unrelated(facts: &Facts, at: u32) -> bool
    ensures { tell.AreSeenFacts facts.now → result ≡ parts.of_branches facts.now at (λ a b. parts.are_unrelated facts.now a b) }
{
    match facts.second(at) {
        Some(left) => match facts.third(at) {
            Some(right) => are_unrelated(facts, left, right),
            None => false,
        },
        None => false,
    }
}

/// Two reference branches of `?:` of which neither is assignable to the other (JLS 15.25).
pub fn branches_are_unrelated(facts: &Facts, at: u32) -> bool
    ensures { tell.AreSeenFacts facts.now → result ≡ operands.branches_are_unrelated (tell.rows_of facts.now) (tell.table_of facts.now) (tell.types_of facts.now) at }
{
    is_conditional(facts.rows(), at) && operands_are_unrelated(facts, at)
}
