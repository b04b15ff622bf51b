// The commands that the words ask for.
use jr_base::{Request, Text};

/// What the words ask for. Offsets are byte offsets in the file.
#[derive(Debug, Drop)]
pub enum Command {
    /// One change of the program.
    One(Request),
    /// The requests that stand as JSON in the input, all or nothing.
    Batch,
    /// The compile checks.
    Check,
    /// At most so many steps of the class's `main`.
    Run { class: Text, steps: u64 },
    /// Refactorings of a workspace of so many classes, from 1 to 4000, in memory.
    Demo(u32),
    /// Takes back the last change.
    Undo,
    /// The references to the declaration at the offset.
    Refs { file: Text, at: u32 },
    /// The types below the one at the offset.
    Subtypes { file: Text, at: u32 },
    /// The callers of the method at the offset.
    Callers { file: Text, at: u32 },
}
