//! Laws of the rows of a program: the nodes that they stand for are those of the trees.
#![tactic(auto)]

mod law;

pub use law::{rows_count_the_nodes, rows_count_their_forest};
