// Why tokens are no unit.
use thiserror::Error;

/// Why tokens are no unit of at most the depth allowed, and the number of the token where that shows, or of all tokens.
#[derive(Clone, Copy, Debug, PartialEq, Eq, Error)]
pub enum ParseFault {
    /// No unit begins with the tokens up to this one, or, at the end, none is all of them.
    #[error("NoTree")]
    NoTree(u32),
    /// One does, but none that is shallow enough.
    #[error("TooDeep")]
    TooDeep(u32),
    /// An allocation failed.
    #[error("OutOfMemory")]
    OutOfMemory,
}
