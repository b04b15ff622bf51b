// A change at one place.

use jr_base::Span;
use jr_shapes::{Shape, Suffix, TypeName};

/// What is written at a place.
#[derive(Clone, Copy)]
pub enum Wording {
    /// The identifier of a row.
    Identifier(u32),
    /// The package of the unit of a type.
    Package(u32),
    /// A reference in a shape, whose last identifier is that of a row.
    Shaped(Shape, u32),
    /// `((S)this)`
    CastThis(Suffix),
    /// `((S)`, and `(` where what follows is no atom.
    OpenReceiver(Suffix, bool),
    /// `(P)`, and `(` where what follows is no atom.
    OpenArgument(TypeName, bool),
    /// `)`, or two of them.
    Close(bool),
}

/// What is written in place of a span of a unit.
#[derive(Clone, Copy)]
pub struct Piece {
    pub unit: u32,
    pub span: Span,
    pub wording: Wording,
}
