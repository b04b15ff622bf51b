//! Compile rules on members, by rows under a binding: what is declared twice, supertypes, overriding, what types inherit, and bodies.
#![tactic(auto)]

mod access;
mod beside;
mod bodies;
mod descent;
mod faults;
mod headers;
mod inheriting;
mod inner;
mod law;
mod listing;
mod names;
mod nearest;
mod redefining;
mod throwing;
mod together;
mod tops;
mod twice;
mod unfound;

pub use faults::member_faults;
pub use law::variables_are_valued;
pub use tops::top_type_faults;
