//! The rules of compiling on members, with plain functions that tell where each is broken.
#![tactic(auto)]

mod law;

pub use law::{
    inherited_methods_are_tested, member_rules_are_tested, redefined_methods_are_tested,
    thrown_classes_are_tested,
};
