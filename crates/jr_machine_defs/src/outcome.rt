// What an operation comes to.

use crate::value::Value;
use jr_base::{Items, Units};

/// An exception that the machine throws by itself (JLS 15.6).
#[derive(Clone, Copy, Debug, PartialEq, Eq)]
pub enum Fault {
    Arithmetic,
    NullPointer,
    ClassCast,
    ArrayStore,
    NegativeArraySize,
    ArrayIndex,
    StringIndex,
}

/// What an operation on values comes to.
#[derive(Drop)]
pub enum Outcome<'a> {
    /// It gives a value.
    Gives(Value<'a>),
    /// It makes a new string.
    Makes(Units),
    /// It throws.
    Throws(Fault),
    /// It takes no such operands.
    Unfit,
}

/// The value of an operation to go on with, or whether the step that it made went on.
#[derive(Drop)]
pub enum Given<'a> {
    Value(Value<'a>),
    Done(bool),
}

/// Where a value goes in an array.
#[derive(Clone, Copy, Debug, PartialEq, Eq)]
pub enum Placed {
    At(usize),
    Throws(Fault),
    /// It is no array.
    Unfit,
}

/// The dimensions of an array that is made (JLS 15.10.1).
#[derive(Drop)]
pub enum Sizes {
    Fit(Items<usize>),
    /// One of them is negative.
    Negative,
    /// One of them is no `int`.
    Unfit,
}
