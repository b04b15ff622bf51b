// A change of a program.

use jr_base::{Path, Text};
use jr_edits::Edits;

/// Where the text of a unit of the changed program comes from.
#[derive(Debug, Drop)]
pub enum UnitSource {
    /// The text of an old unit, as it is.
    Kept(u32),
    /// The text of an old unit with edits.
    Edited { unit: u32, edits: Edits },
    /// A new text.
    New(Text),
}

/// A unit of the changed program.
#[derive(Debug, Drop)]
pub struct ChangedUnit {
    pub path: Path,
    pub source: UnitSource,
}

/// Where rows of the changed program come from.
#[derive(Clone, Copy, Debug, PartialEq, Eq)]
pub enum Segment {
    /// Copies of the old rows from `first` to before `end`: each with the label of the old row, and its identifier, unless the change names it anew.
    Copy { first: u32, end: u32 },
    /// A copy of one old row with another label. Its identifier is as that of other copies.
    Turned { row: u32 },
    /// So many rows that come from no old row.
    Glue { count: u32 },
}

/// The identifier that some rows get.
#[derive(Debug, Drop)]
pub struct Naming {
    pub name: Text,
    /// The old rows whose identifier it becomes, as they rise: declarations, names of constructors, members of static imports.
    pub rows: Vec<u32>,
}

/// The declaration that a row refers to which comes from no old row.
#[derive(Clone, Copy, Debug, PartialEq, Eq)]
pub enum Target {
    /// The copy of this old row.
    Old(u32),
    /// This row of the changed program.
    New(u32),
    /// The package that the name spells.
    Package,
}

/// What a row must refer to that comes from no old row.
#[derive(Clone, Copy, Debug, PartialEq, Eq)]
pub struct Added {
    /// The row of the changed program.
    pub row: u32,
    pub target: Target,
    /// The old row of the type through which a field or method is found.
    pub level: Option<u32>,
}

/// Rows from `first` to before `end`.
#[derive(Clone, Copy, Debug, PartialEq, Eq)]
pub struct RowRange {
    pub first: u32,
    pub end: u32,
}

/// The type that takes the place of another as level in a method that is pulled up. Both are old rows.
#[derive(Clone, Copy, Debug, PartialEq, Eq)]
pub struct Raised {
    /// The old rows of the method.
    pub method: RowRange,
    pub from: u32,
    pub to: u32,
}

/// What a change does to the order in which statements run.
#[derive(Clone, Copy, Debug, PartialEq, Eq)]
pub enum Course {
    /// Each body stays as it is.
    Same,
    /// The bodies in these old rows are gone, and all others stay as they are.
    Removed(RowRange),
    /// The uses of a local are copies of its initializer. Both are old rows: the local, and its declaration.
    Inlined { local: u32, statement: u32 },
    /// Statements stand in an added method. Both are rows of the changed program: the call of the method, and the method.
    Extracted { call: u32, method: u32 },
}

/// What a request changes before names are spelled anew.
#[derive(Debug, Drop)]
pub struct Change {
    /// The units of the changed program in the order of their paths, behind the two of the prelude. Two may have one path.
    pub units: Vec<ChangedUnit>,
    /// Where its rows come from, in their order; the first row, that of the program, is a copy of row 0.
    pub segments: Vec<Segment>,
    /// The identifiers that rows get.
    pub namings: Vec<Naming>,
    /// What added rows refer to, by their rows as they rise.
    pub added: Vec<Added>,
    /// The rows of the changed program in which what is declared twice is found among themselves.
    pub inner: Option<RowRange>,
    pub raised: Option<Raised>,
    pub course: Course,
}
