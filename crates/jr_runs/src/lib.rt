//! Whether the rows of a written program are those of a program with its spellings: each row becomes a run of rows.
#![tactic(auto)]

mod compare;
mod equal;
mod item;
mod kinds;
mod labels;
mod law;
mod marking;
mod placing;
mod plan;
mod shaping;
mod suiting;
mod turning;
mod writing;

pub use compare::first_difference;
pub use kinds::same_kind;
pub use labels::same_label;
pub use law::locks_are_kept;
