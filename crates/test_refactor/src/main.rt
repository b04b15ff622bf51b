//! Tests of the top call on a store, an input and an output in memory: requests of every kind, runs and reports, and changes in which a call of the store fails.
//!
//! A program, since no crate stands above it; without its tests it does nothing.
#![tactic(auto)]

#[cfg(test)]
mod batches;
#[cfg(test)]
mod calling;
#[cfg(test)]
mod calls;
#[cfg(test)]
mod changes;
#[cfg(test)]
mod failing;
#[cfg(test)]
mod files;
#[cfg(test)]
mod moves;
#[cfg(test)]
mod one;
#[cfg(test)]
mod shown;
#[cfg(test)]
mod stops;
#[cfg(test)]
mod tests;

fn main() {}
