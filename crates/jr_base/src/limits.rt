// The sizes that are limited.

/// What was too large.
#[derive(Clone, Copy, Debug, PartialEq, Eq)]
pub enum Size {
    /// `.java` files, found or left.
    Files,
    /// Bytes of one path.
    Path,
    /// Bytes of one file.
    File,
    /// Bytes of all files.
    Total,
    /// Tokens of all files.
    Tokens,
    /// Depth of the changed text.
    Nesting,
    /// Flow points of one method.
    Flow,
    /// Bytes of a batch.
    Input,
    /// Requests of a batch.
    Requests,
}

/// The most that is taken of each size. One more is refused.
pub struct Limits;

impl Limits {
    /// The most `.java` files, found or left.
    pub const FILES: u32 = 4_096;
    /// The most bytes of one path.
    pub const PATH: u32 = 1_024;
    /// The most bytes of one file.
    pub const FILE: u32 = 1_048_576;
    /// The most bytes of all files.
    pub const TOTAL: u32 = 16_777_216;
    /// The most tokens of all files.
    pub const TOKENS: u32 = 4_194_304;
    /// The greatest depth of a text.
    pub const NESTING: u32 = 256;
    /// The most flow points of one method.
    pub const FLOW: u32 = 65_536;
    /// The most bytes of a batch.
    pub const INPUT: u32 = 1_048_576;
    /// The most requests of a batch.
    pub const REQUESTS: u32 = 1_024;
}
