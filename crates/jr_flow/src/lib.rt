//! The flow of control through bodies: points, the steps between them, and the definitions that reach uses (JLS 11.3, 14, 15.7, 15.25, 15.26).
#![tactic(auto)]

mod acts;
mod code;
mod declared;
mod drawing;
mod expressions;
mod hops;
mod jumps;
mod leaving;
mod limit;
mod links;
mod locals;
mod locations;
mod meaning;
mod numbering;
mod pending;
mod point;
mod search;
mod statements;
mod states;
mod webs;

pub use declared::bodies;
pub use drawing::graph;
pub use limit::has_too_many_points;
pub use point::{FlowFault, Graph, Point, PointKind, Step};
pub use webs::reaching;
