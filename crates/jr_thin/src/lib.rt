//! The rename of a local or parameter in a class of static int methods, from bytes to bytes.
//!
//! A class has methods `static int f(int a, ..)` of statements `int x = e;` and `return e;`, whose expressions are int literals
//! and simple names joined by `+`.
#![tactic(auto)]

mod answers;
mod binding;
mod clashes;
mod laws;
mod reading;
mod served;
mod sites;
mod spelling;

pub use answers::{Renaming, rename};
pub use laws::one_answer;
pub use reading::{Terminal, added, terminal_of};
pub use served::{Class, class_in, tokens_of};
pub use sites::{Role, Site};
