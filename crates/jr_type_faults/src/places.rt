// Values and their places, void calls and arrays (JLS 5.2, 8.3.2, 10.6, 14.4, 14.8, 14.14.1, 15.10, 15.13, 15.26.1).
ghost use Rattle.std.specs.Prelude.{◌≡◌, ◌<◌, ◌^◌, length, nat_eq, not};
ghost use Rattle.jr_plain.specs.Conversions as conversions;
ghost use Rattle.jr_rules.specs.PlaceTests as places;
ghost use Rattle.jr_rules.specs.TypedTests as typed;
ghost use Rattle.jr_type_facts.specs.Facts as tell;
ghost use Rattle.jr_type_facts.specs.Tables.{AreRightFacts};
ghost use Rattle.jr_type_faults.specs.Parts as parts;

use crate::rows::{is_next, is_second};
use crate::statements::is_condition;
use crate::values::does_not_fit;
use jr_defs::RowType;
use jr_places::parent_at;
use jr_tree::Row;
use jr_type_facts::{
    Facts, drops_values, is_call, is_for, is_index, is_int_like, is_list, is_new_array,
    is_plain_assignment, is_value,
};
use jr_types::is_void;

// The expression stands as a statement, or in the first part or the update of a `for`.
fn stands_alone(rows: &[Row], at: u32) -> bool
    ensures { length rows.now < 2 ^ 32 → result ≡ places.stands_alone rows.now at }
{
    let over = parent_at(rows, at);
    drops_values(rows, over) || (is_for(rows, over) && !is_condition(rows, at))
}

// The type that a row stands for as an initializer.
fn initializer_type(facts: &Facts, at: u32) -> Option<RowType>
    ensures { AreRightFacts facts.now → result ≡ places.initializer_type (tell.rows_of facts.now) (tell.table_of facts.now) (tell.types_of facts.now) at }
{
    facts.tables.initializer_type(at)
}

// The type that the row round a value stands for as an initializer.
fn initialized_type(facts: &Facts, over: u32) -> Option<RowType>
    ensures { AreRightFacts facts.now → result ≡ parts.initialized_type facts.now over }
{
    if is_value(facts.rows(), over) {
        initializer_type(facts, over)
    } else {
        None
    }
}

// The value stands on the right of a plain assignment.
fn is_assigned(rows: &[Row], over: u32, at: u32) -> bool
    ensures { length rows.now < 2 ^ 32 → result ≡ parts.is_assigned rows.now over at }
{
    is_plain_assignment(rows, over) && is_second(rows, over, at)
}

// The type of the place of a value: on the right of a plain assignment, or as an initializer.
fn place_type(facts: &Facts, at: u32) -> Option<RowType>
    ensures { AreRightFacts facts.now → result ≡ places.place_type (tell.rows_of facts.now) (tell.table_of facts.now) (tell.types_of facts.now) at }
{
    let over = parent_at(facts.rows(), at);
    if is_assigned(facts.rows(), over, at) {
        facts.first(over)
    } else {
        initialized_type(facts, over)
    }
}

/// A value that is not assignable to its place.
pub fn value_does_not_fit(facts: &Facts, at: u32) -> bool
    ensures { AreRightFacts facts.now → result ≡ places.value_does_not_fit (tell.rows_of facts.now) (tell.table_of facts.now) (tell.constants_of facts.now) (tell.types_of facts.now) at }
{
    does_not_fit(facts, at, place_type(facts, at), facts.type_of(at))
}

// The expression has the type void.
fn is_void_there(facts: &Facts, at: u32) -> bool
    ensures { result ≡ parts.is_typed facts.now (λ a. conversions.is_plain conversions.is_void a) at }
{
    match facts.type_of(at) {
        Some(ty) => is_void(ty),
        None => false,
    }
}

/// A call of a void method that is used as a value.
pub fn void_is_used(facts: &Facts, at: u32) -> bool
    ensures { tell.AreSeenFacts facts.now → result ≡ places.void_is_used (tell.rows_of facts.now) (tell.types_of facts.now) at }
{
    is_call(facts.rows(), at) && is_void_there(facts, at) && !stands_alone(facts.rows(), at)
}

// The expression has a type that does not promote to int.
fn is_no_int(facts: &Facts, at: u32) -> bool
    ensures { result ≡ parts.is_typed facts.now (λ a. not (typed.is_int_like a)) at }
{
    match facts.type_of(at) {
        Some(ty) => !is_int_like(ty),
        None => false,
    }
}

// The expression has a type that is no array type.
fn is_no_array(facts: &Facts, at: u32) -> bool
    ensures { result ≡ parts.is_typed facts.now (λ a. nat_eq a.dims 0) at }
{
    match facts.type_of(at) {
        Some(ty) => ty.dims == 0,
        None => false,
    }
}

// An index that is no int.
fn index_is_no_int(facts: &Facts, at: u32) -> bool
    ensures { tell.AreSeenFacts facts.now → result ≡ parts.index_is_no_int facts.now at }
{
    let over = parent_at(facts.rows(), at);
    is_index(facts.rows(), over) && is_second(facts.rows(), over, at) && is_no_int(facts, at)
}

// An index of no array.
fn indexes_no_array(facts: &Facts, at: u32) -> bool
    ensures { result ≡ parts.indexes_no_array facts.now at }
{
    let over = parent_at(facts.rows(), at);
    is_index(facts.rows(), over) && is_next(over, at) && is_no_array(facts, at)
}

// A length that is no int.
fn length_is_no_int(facts: &Facts, at: u32) -> bool
    ensures { result ≡ parts.length_is_no_int facts.now at }
{
    is_new_array(facts.rows(), parent_at(facts.rows(), at)) && is_no_int(facts, at)
}

// A row stands for an initializer of a type that is no array type.
fn initializes_no_array(facts: &Facts, at: u32) -> bool
    ensures { AreRightFacts facts.now → result ≡ parts.initializes_no_array facts.now at }
{
    match initializer_type(facts, at) {
        Some(ty) => ty.dims == 0,
        None => false,
    }
}

// A length that is no int, or a list in a place of no array type.
fn creation_does_not_fit(facts: &Facts, at: u32) -> bool
    ensures { AreRightFacts facts.now → result ≡ parts.creation_does_not_fit facts.now at }
{
    length_is_no_int(facts, at) || (is_list(facts.rows(), at) && initializes_no_array(facts, at))
}

// The same, or an index of no array.
fn array_is_none(facts: &Facts, at: u32) -> bool
    ensures { AreRightFacts facts.now → result ≡ parts.array_is_none facts.now at }
{
    indexes_no_array(facts, at) || creation_does_not_fit(facts, at)
}

/// An index or a length that is no int, an index of no array, and a list in a place of no array type.
pub fn array_does_not_fit(facts: &Facts, at: u32) -> bool
    ensures { AreRightFacts facts.now → result ≡ places.array_does_not_fit (tell.rows_of facts.now) (tell.table_of facts.now) (tell.types_of facts.now) at }
{
    index_is_no_int(facts, at) || array_is_none(facts, at)
}
