//! Readers of names, types and expressions.
#![tactic(auto)]

mod begin;
mod cast;
mod creation;
mod effects;
mod grammar;
mod inits;
mod law;
mod lead;
mod name;
mod operand;
mod operator;
mod read;
mod suffix;

pub use law::expressions_have_one_reading;
pub use lead::Lead;
pub use name::{
    Dotted, dims, dims_behind, dotted_name, element, name_after, primitive_at, type_use, whole_name,
};
pub use read::{call_arguments, effect, expr, init, list};
