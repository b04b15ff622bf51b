//! Definitions of the flow of control through bodies: points, steps between them, edges of control, and edges from definitions to uses (JLS 11.3, 14, 15.6, 15.7).
#![tactic(auto)]

mod law;
mod point;

pub use law::{
    copies_keep_edges, edges_are_computed, paths_go_by_numbers, worked_changes, worked_flow,
};
pub use point::{Point, PointKind};
