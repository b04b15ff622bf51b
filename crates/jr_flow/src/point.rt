// Points of flow, and the graph of a body.
ghost use Rattle.std.specs.Prelude.{◌≡◌};
ghost use Rattle.jr_flow.specs.declared.point.FlowFault.TheVariants.{OutOfMemory};

use jr_base::OutOfMemory;
pub use jr_flow_defs::{Point, PointKind};
use std::alloc::{AllocError, AllocFailed};

/// Control goes from the one point to the other, by their numbers.
#[derive(Clone, Copy, Debug, PartialEq, Eq, PartialOrd, Ord)]
pub struct Step {
    pub from: u32,
    pub to: u32,
    pub is_throw: bool,
}

/// The points of a body and the steps between them. Points 0, 1 and 2 are its entry, its exit and its exit by a throw; the others are those that control
/// reaches from the entry. A row has a point for each list of pending completions. The steps rise.
#[derive(Drop)]
pub struct Graph {
    /// The row of the method, constructor, initializer or field.
    pub body: u32,
    pub points: Vec<Point>,
    pub steps: Vec<Step>,
}

/// Why there is no graph.
#[derive(Clone, Copy, Debug, PartialEq, Eq)]
pub enum FlowFault {
    /// The body has more points than it may have.
    TooManyPoints,
    OutOfMemory,
}

impl From<OutOfMemory> for FlowFault {
    ghost from_gives = { λ _ fault. fault ≡ OutOfMemory };

    fn from(_: OutOfMemory) -> Self {
        FlowFault::OutOfMemory
    }
}

impl From<AllocError> for FlowFault {
    ghost from_gives = { λ _ fault. fault ≡ OutOfMemory };

    fn from(_: AllocError) -> Self {
        FlowFault::OutOfMemory
    }
}

impl<T: Drop> From<AllocFailed<T>> for FlowFault {
    ghost from_gives = { λ _ fault. fault ≡ OutOfMemory };

    fn from(_: AllocFailed<T>) -> Self {
        FlowFault::OutOfMemory
    }
}
