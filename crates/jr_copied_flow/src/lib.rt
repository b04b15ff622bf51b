//! Laws of the flow of bodies that a change leaves alone.
//!
//! Of what they ask, a change under its locks (`IsChanged`) gives labels, ends, origins and referents. That the rows of the changed program are those of a tree is known where it was read;
//! that a body is one by itself (`IsWholeBody`: counts of parts, targets of jumps, scopes of locals), and what `KeepsMeaning` says besides (references stay bound to what has the same role,
//! constants, strings, casts), is tested by `jr_meaning`.
#![tactic(auto)]

mod law;

pub use law::{bodies_left_alone_keep_flow, segments_leave_bodies_alone};
