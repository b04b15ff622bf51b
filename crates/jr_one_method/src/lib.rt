//! A call finds one method in a class of a program, whatever its names refer to.
#![tactic(auto)]

mod law;

pub use law::{calls_find_one_method, types_name_one_superclass};
