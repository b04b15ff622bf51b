//! A law of the rows of a program: locals and parameters stand where the grammar has them.
#![tactic(auto)]

mod law;

pub use law::{locals_stand_where_they_may, tries_have_blocks};
