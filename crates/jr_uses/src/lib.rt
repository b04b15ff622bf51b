//! The rows that refer to each declaration.
#![tactic(auto)]

mod referring;

pub use referring::Uses;
