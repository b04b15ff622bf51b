//! What a request changes before names are spelled anew, and how each reference is to be written.
#![tactic(auto)]

mod change;
mod project;
mod reason;

pub use change::{
    Added, Change, ChangedUnit, Course, Naming, Raised, RowRange, Segment, Target, UnitSource,
};
pub use jr_shapes::{Shape, Spelling, Suffix, TypeName};
pub use project::{Locks, NO_ROW, Project};
pub use reason::{ChangeFault, Reason};
