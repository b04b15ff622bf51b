//! Plain functions that compute what names, types and members of a program are, each proved to give what the definition says.
//!
//! They are slow and small: a test for each relation, an `Option` where a relation determines a value, a list for a set.
#![tactic(auto)]

mod law;

pub use law::{
    access_is_computed, answers_are_computed, arguments_are_computed, choices_are_computed,
    declarations_are_computed, enclosing_types_are_computed, headers_stand_below_types,
    imports_are_computed, instances_are_computed, lookup_is_computed, members_are_computed,
    modifiers_are_computed, overriding_is_computed, packages_are_computed, scope_is_computed,
    searches_are_exact, supertypes_are_computed, types_are_computed,
};
