//! The rules of compiling on types and static contexts, with plain functions that tell where each is broken.
#![tactic(auto)]

mod law;

pub use law::{
    compiling_keeps_rules_of_names, contexts_are_tested, creations_are_tested,
    expressions_have_types_or_break_rules, kept_rules_hold, operands_are_tested, places_are_tested,
    statements_are_tested, type_rules_are_tested,
};
