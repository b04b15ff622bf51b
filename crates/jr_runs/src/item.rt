// The rows that are written.

use jr_defs::Referent;
use jr_shapes::{Suffix, TypeName};
use jr_tree::{NameKind, NamePlace, Primitive, ReceiverKind};

/// What a written row refers to.
#[derive(Clone, Copy)]
pub enum Refers {
    /// This, by the rows of the old program.
    To(Referent),
    /// A package or a type.
    ToPart,
}

/// The label of a written row.
#[derive(Clone, Copy)]
pub enum Form {
    /// That of the old row.
    Same,
    Paren,
    Cast,
    Select,
    SuperSelect,
    TypeUse {
        primitive: Option<Primitive>,
        dims: usize,
    },
    This {
        is_qualified: bool,
    },
    Name {
        kind: NameKind,
        place: NamePlace,
        is_qualified: bool,
    },
    Call {
        receiver: ReceiverKind,
    },
}

/// A written row.
#[derive(Clone, Copy)]
pub struct Item {
    /// The old row for which it is written.
    pub of: u32,
    pub form: Form,
    /// The old row whose identifier it has.
    pub name: Option<u32>,
    /// The written row that it stands in; what the old row stood in where none is said.
    pub over: Option<usize>,
    /// The number of the written row behind what is below it; where what is below the old row ends, where none is said.
    pub end: Option<usize>,
    pub refers: Refers,
}

/// What is written before a row by the spelling of the row over it.
#[derive(Clone, Copy)]
pub enum Front {
    Nothing,
    /// The cast of a receiver, of which the spelling of this number says what its names refer to.
    Receiver { suffix: Suffix, spelling: usize },
    /// The cast of an argument.
    Argument(TypeName),
}

/// What the last identifier of a name means, and where it stands.
#[derive(Clone, Copy)]
pub struct Meaning {
    pub kind: NameKind,
    pub place: NamePlace,
}
