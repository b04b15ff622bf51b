//! The changes that give a package another name, and that take a member type out of its type.
#![tactic(auto)]

mod lifting;
mod moving;
mod repackaging;
mod units;

pub use lifting::lift;
pub use repackaging::repackage;
