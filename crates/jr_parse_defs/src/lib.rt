//! The reading functions of statements, declarations and units, and the laws that make them the grammar.
#![tactic(auto)]

mod law;

pub use law::{one_reading, statements_are_read, statements_are_written, units_are_read};
