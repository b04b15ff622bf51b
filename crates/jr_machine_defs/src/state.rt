// The state of a run.

use crate::cells::Cells;
use crate::heap::Cell;
use crate::printed::Printed;
use crate::slots::Slot;
use crate::stack::Stack;
use crate::value::Value;
use crate::work::Work;
use jr_base::{DeclId, Items, TypeId, Units};

/// What a frame was put for.
#[derive(Clone, Copy, Debug, PartialEq, Eq)]
pub enum Purpose {
    /// A call, whose result goes to the caller.
    Method,
    /// A constructor, which gives no value.
    Constructor,
    /// The initialization of a class (JLS 12.4).
    Initializer(TypeId),
}

/// A method, constructor or initializer that runs.
#[derive(Drop)]
pub struct Frame<'a> {
    pub purpose: Purpose,
    /// The class that declares the running body.
    pub class: TypeId,
    /// The object that it runs on, or `null`.
    pub this: Value<'a>,
    pub locals: Items<Slot<'a>>,
    pub work: Stack<Work<'a>>,
    pub values: Stack<Value<'a>>,
}

/// How a run stands.
#[derive(Clone, Copy, Debug, PartialEq, Eq)]
pub enum RunEnd {
    Running,
    Ended,
    /// The start method threw an object of this class.
    Uncaught(TypeId),
    /// The initialization of this class threw.
    InitFailed(TypeId),
    /// A native method was called that the machine does not do itself.
    Native(DeclId),
}

/// The state of a run.
#[derive(Drop)]
pub struct State<'a> {
    pub heap: Cells<Cell<'a>>,
    /// The static fields that have been assigned.
    pub statics: Items<Slot<'a>>,
    /// The classes whose initialization has begun.
    pub begun: Items<TypeId>,
    /// The running frame.
    pub frame: Frame<'a>,
    /// The frames that wait, the nearest first.
    pub callers: Stack<Frame<'a>>,
    /// The printed 16-bit units.
    pub printed: Printed,
    pub end: RunEnd,
}

/// What a run came to.
#[derive(Drop)]
pub struct Ran {
    pub end: RunEnd,
    /// The printed 16-bit units.
    pub printed: Units,
    /// How many steps were made.
    pub steps: u64,
}
