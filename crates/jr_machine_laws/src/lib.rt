//! Laws of the reference machine over cores that are seen as finite maps: what their look-ups give decides what a program does.
#![tactic(auto)]

mod law;

pub use law::{
    order_does_not_matter, renamings_keep_same_cores, same_cores_are_an_equivalence,
    same_cores_step_alike,
};
