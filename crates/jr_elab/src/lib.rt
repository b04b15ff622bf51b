//! Elaboration: the core of a program that compiles, made from its rows. Each body is made from its last row back, when the parts below a row are
//! there already, so that no function calls itself.
#![tactic(auto)]

mod bodies;
mod classes;
mod jumps;
mod law;
mod loops;
mod program;
mod reads;
mod statements;

pub use law::{a_program_has_one_core, rows_have_parts, whole_worlds_are_read};
pub use program::elaborate;
