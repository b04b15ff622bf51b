//! The change that a pull up of a method makes, before names are spelled anew.
#![tactic(auto)]

mod pulled;
mod pulling;

pub use pulling::pull_up;
