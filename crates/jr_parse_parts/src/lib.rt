//! Expressions and initializers that were read, each with its depth, and the levels of operators.
#![tactic(auto)]

mod form;
mod listed;
mod measured;

pub use form::{binary_level, is_assignment, is_new_array, is_statement, is_target, level};
pub use listed::{ListItems, MeasuredInit, MeasuredList};
pub use measured::{Arguments, Measured, Receiving};
