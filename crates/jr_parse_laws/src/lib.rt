//! What every reader of tokens stands on: a cursor, faults, and laws of readers that are put together from smaller ones.
#![tactic(auto)]

mod cursor;
mod fault;

pub use cursor::Cursor;
pub use fault::Fault;
