// What reports list.

/// What a report lists.
#[derive(Clone, Copy, Debug, PartialEq, Eq)]
pub enum Report {
    /// What refers to a declaration.
    References,
    /// The types below a type (JLS 4.10.2).
    Subtypes,
    /// The declarations whose code may call a method (JLS 15.12.4.4).
    Callers,
}
