//! The tokens of a file (JLS 3), exact in both directions.
#![tactic(auto)]

mod escapes;
mod fault;
mod gaps;
mod items;
mod keywords;
pub mod laws;
mod lexer;
mod literals;
mod numerals;
mod symbols;
mod words;

pub use fault::LexFault;
pub use lexer::lex;
