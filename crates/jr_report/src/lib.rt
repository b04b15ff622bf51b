//! What refers to a declaration, what stands below a type, and what calls a method.
#![tactic(auto)]

mod called;
mod calling;
mod kind;
mod lines;
mod listed;
mod reporting;

pub use calling::callers;
pub use kind::Report;
pub use listed::{references, subtypes};
pub use reporting::report;
