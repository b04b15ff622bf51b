//! Which edges of control and which definitions of uses a change loses where it moves code (JLS 11.3, 14, 15.7).
#![tactic(auto)]

mod arriving;
mod carried;
mod control;
mod copies;
mod creating;
mod defining;
mod dropped;
mod edges;
mod flows;
mod gathering;
mod handing;
mod joined;
mod kept;
mod lists;
mod names;
mod parts;
mod raising;
mod reached;
mod returning;
mod search;
mod spreading;
mod starting;

pub use kept::{LostEdge, LostFlow, lost_flow};
