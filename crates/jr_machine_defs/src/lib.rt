//! The reference machine: what a program does, step by step.
#![tactic(auto)]

mod cells;
mod heap;
mod law;
mod number;
mod outcome;
mod printed;
mod reference;
mod slots;
mod stack;
mod state;
mod value;
mod work;

pub use cells::Cells;
pub use heap::Cell;
pub use law::{renaming_commutes, renamings_compose, tables_rename};
pub use number::{Number, Pair};
pub use outcome::{Fault, Given, Outcome, Placed, Sizes};
pub use printed::Printed;
pub use reference::{CodeRef, TyRef, UnitsRef};
pub use slots::Slot;
pub use stack::Stack;
pub use state::{Frame, Purpose, Ran, RunEnd, State};
pub use value::Value;
pub use work::{Exit, Work};
