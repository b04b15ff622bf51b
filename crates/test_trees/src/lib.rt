//! Tests of trees: a source of every form is read, and its tree is written out and tested for shape and depth; so are trees that no source reads as. The numbers of nodes, and the index.
#![tactic(auto)]

#[cfg(test)]
mod by_hand;
#[cfg(test)]
mod numbers;
#[cfg(test)]
mod reading;
#[cfg(test)]
mod samples;
#[cfg(test)]
mod written;
