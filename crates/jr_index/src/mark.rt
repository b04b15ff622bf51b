// Where a row stands among the tokens of its unit.

/// Where a row stands: numbers of tokens, counted from the first token of its unit.
#[derive(Clone, Copy, Debug, PartialEq, Eq)]
pub struct Mark {
    pub first: u32,
    /// The number after its last token. A constructor or call that is not written has no token, and stands at its `own`.
    pub after: u32,
    /// The declared or referring identifier, or the keyword of a call of a constructor; `NO_TOKEN` where there is none.
    /// A creation has that of its class name, and what is not written that of the constructor or class over it.
    pub own: u32,
}

/// The number of a token that is not there.
pub const NO_TOKEN: u32 = u32::MAX;
