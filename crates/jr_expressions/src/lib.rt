//! The code of expressions in the core of a program: each part is made from its row when the parts below it are there already, so that no function
//! calls itself.
#![tactic(auto)]

mod arrays;
mod calls;
mod conversions;
mod expressions;
mod names;
mod operators;

pub use conversions::converted;
pub use expressions::{add_constant, add_expression};
pub use names::this_of;
