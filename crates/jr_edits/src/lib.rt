//! Replacing spans of a text.
#![tactic(auto)]

mod edit;
mod edits;
mod fault;

pub use edits::{Edits, apply};
pub use fault::EditFault;
