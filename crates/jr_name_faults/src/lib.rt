//! Compile rules on names, by rows under a binding: locals and labels within others of their names, imports, and access.
#![tactic(auto)]

mod access;
mod canonical;
mod ends;
mod faults;
mod imports;
mod locals;
mod statics;
mod twins;

pub use faults::name_faults;
