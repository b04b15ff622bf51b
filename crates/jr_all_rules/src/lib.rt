//! All rules of compiling that are defined so far, and whether a program with its binding keeps them.
#![tactic(auto)]

mod law;

pub use law::all_rules_are_tested;
