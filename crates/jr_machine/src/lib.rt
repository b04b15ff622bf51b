//! The reference machine: a program, run step by step.
#![tactic(auto)]

mod finishing;
mod runs;
mod steps;

pub use runs::run;
