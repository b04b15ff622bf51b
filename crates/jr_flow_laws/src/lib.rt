//! Laws of the flow of bodies that are copied, as by renames, moves and pull ups.
#![tactic(auto)]

mod law;

pub use law::{
    bodies_stand_where_they_are, copied_bodies_are_copies, copied_bodies_keep_control,
    copied_bodies_keep_definitions, labels_do_not_tell_edges, parents_follow_from_ends,
};
