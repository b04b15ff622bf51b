// How a reference is written.

use jr_defs::{Element, Referent};

/// The last identifiers of the canonical name of a type, so many of them (JLS 6.7).
#[derive(Clone, Copy, Debug, PartialEq, Eq)]
pub struct Suffix {
    pub of: u32,
    pub count: u32,
}

/// How a type is written in a cast: a primitive type, or a suffix of the name of a class, with dimensions.
#[derive(Clone, Copy, Debug, PartialEq, Eq)]
pub struct TypeName {
    pub element: Element,
    /// How many identifiers of the name of the class are written; 0 for a primitive type.
    pub count: u32,
    pub dims: usize,
}

/// How a reference is written. The name of what it refers to is `x`.
#[derive(Clone, Copy, Debug, PartialEq, Eq)]
pub enum Shape {
    /// The old shape, each identifier replaced by the name that its target has now, a package before a dot as a whole.
    Kept,
    /// `x`
    Bare,
    /// `this.x`
    This,
    /// `T.this.x`
    Outer(Suffix),
    /// `super.x`
    Super,
    /// `((S)this).x`, in place of the name alone or of `super` and the name
    CastThis(Suffix),
    /// `((S)T.this).x`, of which S is the first
    CastOuter(Suffix, Suffix),
    /// `T.x`
    Type(Suffix),
    /// `((S)e).x` with the receiver e that stands there
    Cast(Suffix),
    /// a type by the last identifiers of its own name
    Named(Suffix),
}

/// How one reference is written, and what its parts refer to when it is written so.
#[derive(Debug, Drop)]
pub struct Spelling {
    /// The row of its last identifier, or of the call.
    pub row: u32,
    pub shape: Shape,
    /// The types to which its arguments are cast, in their order; empty where they are not.
    pub casts: Vec<TypeName>,
    /// What it refers to when it is written so: its lock, with the level of the shape.
    pub found: Referent,
    /// What the identifiers before the last one refer to when it is written so, from the first on: packages and types.
    pub trace: Vec<Referent>,
}
