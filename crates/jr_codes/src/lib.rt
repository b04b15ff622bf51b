//! What elaboration reads of a program, parts that wait for the row round them, and constants, types and operators of a core.
#![tactic(auto)]

mod constants;
mod ids;
mod parts;
mod source;
mod symbols;

pub use constants::{constant_of, type_of};
pub use ids::Ids;
pub use parts::{Parts, add, add_item};
pub use source::Source;
pub use symbols::{binary_operator, is_plus, step_operator, unary_operator};
