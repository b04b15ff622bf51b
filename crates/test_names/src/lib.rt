//! Tests of the tables of names.
#![tactic(auto)]

#[cfg(test)]
mod defs;
