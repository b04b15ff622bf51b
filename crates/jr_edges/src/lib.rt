//! Which edges of a program are lost in the changed one: so far those of calls to the methods that they find.
#![tactic(auto)]

mod dispatched;

pub use dispatched::{Lost, lost_dispatch};
