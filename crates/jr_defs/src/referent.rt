// What names refer to and what types are, with rows for declarations.

/// Kinds of declarations whose names are apart (JLS 6.3.1, 14.7).
#[derive(Clone, Copy, Debug, PartialEq, Eq)]
pub enum Space {
    Variable,
    Method,
    Type,
    Label,
}

/// What an occurrence refers to, by rows of the program.
#[derive(Clone, Copy, Debug, PartialEq, Eq)]
pub enum Referent {
    Unbound,
    Ambiguous,
    /// `length` of an array (JLS 10.7)
    ArrayLength,
    /// The package that the name spells (JLS 7.4).
    Package,
    /// A declaration. The level is the enclosing type whose member the field or method is, or the enclosing class whose instance
    /// encloses the object that a creation makes.
    Declared { row: u32, level: Option<u32> },
}

/// A type that is no array type (JLS 4.2, 4.3, 4.1), or the `void` of a method.
#[derive(Clone, Copy, Debug, PartialEq, Eq)]
pub enum Element {
    Boolean,
    Byte,
    Short,
    Char,
    Int,
    Long,
    Null,
    Void,
    /// A class or interface, by the row that declares it.
    Class(u32),
}

/// A type: its element type, and how many dimensions it has as an array type (JLS 10.1).
#[derive(Clone, Copy, Debug, PartialEq, Eq)]
pub struct RowType {
    pub element: Element,
    pub dims: usize,
}
