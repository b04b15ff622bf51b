//! The parser: the one tree that a list of tokens is, or the first token that no tree allows.
#![tactic(auto)]

mod begin;
mod declaration;
mod fault;
mod grammar;
mod imports;
mod lists;
mod member;
mod parser;
mod unit;

pub use fault::ParseFault;
pub use parser::{parse, parse_within};
