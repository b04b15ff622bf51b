//! The binding of a program of files: whether there is one is decided, and a plain function computes it.
#![tactic(auto)]

mod law;

pub use law::{
    calls_of_files_find_one_method, files_have_a_cycle_or_a_binding, files_have_one_binding,
    rules_of_files_are_decided,
};
