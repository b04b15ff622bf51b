//! Tests of what the words of a command and a batch ask for, of edits, and of the answers of the rename in a small file.
#![tactic(auto)]

#[cfg(test)]
mod base;
#[cfg(test)]
mod batch;
#[cfg(test)]
mod edits;
#[cfg(test)]
mod request;
#[cfg(test)]
mod thin;
#[cfg(test)]
mod workspace;
