//! The core of a program: its classes and bodies after elaboration, where each name is a declaration.
#![tactic(auto)]

mod bodies;
mod code;
mod law;
mod operators;

pub use bodies::{Body, Class, Core};
pub use code::{Catch, Code, Group, SwitchLabel};
pub use law::plain_codes_are_faithful;
pub use operators::{BinaryOp, StepOp, UnaryOp};
