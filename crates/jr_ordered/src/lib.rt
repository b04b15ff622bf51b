//! That tokens that are read stand apart.
#![tactic(auto)]

mod law;

pub use law::{tokens_stand_apart, units_have_tokens_apart};
