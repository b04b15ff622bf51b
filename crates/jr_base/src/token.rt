// Tokens and places in a text.
ghost use Rattle.std.specs.Prelude.{◌≡◌, IfOk};

use crate::{CuId, Kind, OutOfMemory};
use std::alloc::Global;

/// The bytes from `start` up to `end`, in byte offsets of one file.
#[derive(Clone, Copy, Debug, PartialEq, Eq)]
pub struct Span {
    pub start: u32,
    pub end: u32,
}

/// A byte offset in a unit. A place of the prelude has `at` 0.
#[derive(Clone, Copy, Debug, PartialEq, Eq, PartialOrd, Ord)]
pub struct Place {
    pub cu: CuId,
    pub at: u32,
}

/// A token and where it stands.
#[derive(Debug, Drop)]
pub struct Token {
    pub kind: Kind,
    pub span: Span,
}

impl Token {
    /// An equal token of its own.
    pub fn copy(&self, alloc: Global) -> Result<Token, OutOfMemory>
        ensures { IfOk result (λ copy. copy ≡ self.now) }
    {
        Ok(Token {
            kind: self.kind.copy(alloc)?,
            span: self.span,
        })
    }
}
