//! Tests of reading: texts with their tokens, and sources with the outline of their tree or with the fault.
#![tactic(auto)]

#[cfg(test)]
mod escapes;
#[cfg(test)]
mod lexing;
#[cfg(test)]
mod outline;
#[cfg(test)]
mod sources;
#[cfg(test)]
mod tables;
