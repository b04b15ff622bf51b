// What a user asks for.
ghost use Rattle.std.specs.Prelude.{◌≡◌, IfOk};

use crate::{OutOfMemory, Text};
use std::alloc::Global;

/// A change of the program. Offsets are byte offsets in the file.
#[derive(Debug, Drop)]
pub enum Request {
    /// Gives the declaration at the offset the name.
    Rename {
        file: Text,
        at: u32,
        name: Text,
    },
    /// Moves the top-level type at the offset to the package.
    Move {
        file: Text,
        at: u32,
        package: Text,
    },
    /// Puts the statements from `start` to `end` into a new method.
    Extract {
        file: Text,
        start: u32,
        end: u32,
        name: Text,
    },
    /// Replaces the uses of the local at the offset by its initializer.
    Inline {
        file: Text,
        at: u32,
    },
    /// Moves the method at the offset to the superclass.
    PullUp {
        file: Text,
        at: u32,
    },
    /// Removes the declaration at the offset, where nothing uses it.
    Delete {
        file: Text,
        at: u32,
    },
    /// Moves all units of the package `old` to the package `new`.
    Repackage {
        old: Text,
        new: Text,
    },
    /// Makes the member type at the offset a top-level type.
    Lift {
        file: Text,
        at: u32,
    },
}

// Equal texts of their own.
fn copies(alloc: Global, first: &Text, second: &Text) -> Result<(Text, Text), OutOfMemory>
    ensures { IfOk result (λ pair. pair ≡ (first.now, second.now)) }
{
    let first = first.copy(alloc)?;
    let second = second.copy(alloc)?;
    Ok((first, second))
}

impl Request {
    /// An equal request of its own.
    pub fn copy(&self, alloc: Global) -> Result<Request, OutOfMemory>
        ensures { IfOk result (λ copy. copy ≡ self.now) }
    {
        match self {
            Request::Rename { file, at, name } => {
                let (file, name) = copies(alloc, file, name)?;
                Ok(Request::Rename {
                    file,
                    at: *at,
                    name,
                })
            }
            Request::Move { file, at, package } => {
                let (file, package) = copies(alloc, file, package)?;
                Ok(Request::Move {
                    file,
                    at: *at,
                    package,
                })
            }
            Request::Extract {
                file,
                start,
                end,
                name,
            } => {
                let (file, name) = copies(alloc, file, name)?;
                Ok(Request::Extract {
                    file,
                    start: *start,
                    end: *end,
                    name,
                })
            }
            Request::Inline { file, at } => Ok(Request::Inline {
                file: file.copy(alloc)?,
                at: *at,
            }),
            Request::PullUp { file, at } => Ok(Request::PullUp {
                file: file.copy(alloc)?,
                at: *at,
            }),
            Request::Delete { file, at } => Ok(Request::Delete {
                file: file.copy(alloc)?,
                at: *at,
            }),
            Request::Repackage { old, new } => {
                let (old, new) = copies(alloc, old, new)?;
                Ok(Request::Repackage { old, new })
            }
            Request::Lift { file, at } => Ok(Request::Lift {
                file: file.copy(alloc)?,
                at: *at,
            }),
        }
    }
}
