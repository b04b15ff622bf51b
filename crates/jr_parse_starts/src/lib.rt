//! Which tokens begin an expression, an operand of a cast, an initializer or a statement's expression.
#![tactic(auto)]

mod start;

pub use start::{
    is_least_kind, is_plain_literal, is_step, is_unary, starts_cast_operand, starts_effect,
    starts_expr, starts_init, starts_list, starts_plain_literal,
};
