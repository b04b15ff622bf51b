// Points of flow.

/// What stands at a point of flow.
#[derive(Clone, Copy, Debug, PartialEq, Eq)]
pub enum PointKind {
    Entry,
    /// The exit that is reached by completing.
    Exit,
    /// The exit that is reached by a throw that nobody catches.
    Thrown,
    /// A simple statement, an event, or the parameter of a catch.
    Node,
    /// The local or parameter that is declared at the row gets a value.
    Definition { local: u32 },
    /// The local or parameter that is declared at the row is used.
    Use { local: u32 },
}

/// A point of flow, with one list of pending completions of the blocks of `finally` that were entered (JLS 14.20.2).
/// The definition of an assignment stands at the row of the name that is assigned, that of a step at the row of the step, and that of a declarator or parameter at its own.
#[derive(Clone, Copy, Debug, PartialEq, Eq)]
pub struct Point {
    /// The row that acts; that of the body's declaration for its entry and its exits.
    pub row: u32,
    pub kind: PointKind,
}
