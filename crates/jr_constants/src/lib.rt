//! Constant variables and the values of constant expressions, by rows under a table.
#![tactic(auto)]

mod constants;
mod operators;
mod row_value;
mod texts;
mod value;

pub use constants::{Constants, constant_forms, has_constant_form};
pub use operators::{bool_value, number_value, unary_value};
pub use texts::Texts;
pub use value::{Value, as_int, as_long, assigned_to, cast_to, chosen, fits};
