//! The binding of a program: what each occurrence refers to, or the first type on a cycle of headers; and lookup under a table of locks.
#![tactic(auto)]

mod binder;
mod boxes;
mod confirming;
mod cycles;
mod dotted;
mod edges;
mod filling;
mod headers;
mod meeting;
mod ranking;
mod rebinding;
mod rounds;
mod stages;

pub use binder::{Binding, Bound, bind};
pub use boxes::boxed;
pub use rebinding::{Rebound, bind_under, rebind};
