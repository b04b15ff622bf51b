//! The rules of compiling on declarations, headers, imports and access, with plain functions that tell where each is broken.
#![tactic(auto)]

mod law;

pub use law::name_rules_are_tested;
