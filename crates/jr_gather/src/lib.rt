//! All files of a store, within the limits of their sizes.
#![tactic(auto)]

mod collect;
mod pile;

pub use collect::{Gathered, gather};
