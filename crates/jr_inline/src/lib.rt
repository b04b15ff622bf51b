//! The change that an inline of a local makes, before names are spelled anew, and whether it gives expressions other types.
#![tactic(auto)]

mod course;
mod form;
mod inlining;
mod local;
mod removal;
mod retyped;

pub use inlining::inline;
pub use retyped::first_retyped;
