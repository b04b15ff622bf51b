//! Members of types by kind and name, and access, by rows under a table.
#![tactic(auto)]

mod access;
mod callables;
mod declared;
mod inheriting;
mod law;
mod lists;
mod members;
mod named;
mod nearest;
mod wanted;

pub use callables::Callables;
pub use declared::{Declared, MemberKind};
pub use law::members_are_held;
pub use lists::has;
pub use members::{Members, World, kind_of};
pub use named::{Named, Sources, can_inherit};
