//! Readers of statements.
#![tactic(auto)]

mod begin;
mod block;
mod branch;
mod ctor;
mod declarator;
mod for_stmt;
mod grammar;
mod named;
mod parameter;
mod simple;
mod start;
mod switch_stmt;
mod try_stmt;

pub use block::body;
pub use ctor::ctor_body;
pub use declarator::declarators_after;
pub use grammar::stmt;
pub use parameter::param;
