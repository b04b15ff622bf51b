// What the program answers.
ghost use Rattle.std.specs.Prelude.{◌≡◌};

use jr_base::{CuId, DeclId, OccId, Path, Place, Size, Text};
use jr_rule::Rule;

/// What the store was doing when it failed.
#[derive(Clone, Copy, Debug, PartialEq, Eq)]
pub enum Phase {
    /// Putting back what an earlier run left half done.
    Recovering,
    /// Listing and reading the files.
    Reading,
    /// Writing the changed files.
    Writing,
}

/// What a command that is done reports.
#[derive(Debug, Drop)]
pub enum Report {
    /// The number of paths written or removed.
    Changed(u32),
    /// The number of files of a program that is accepted.
    Checked(u32),
    /// The text of a run or a demonstration, with its last line end.
    Printed(Text),
}

/// The first reason why the files are no program. Kinds of the first two are counted from 1, in the order of the
/// faults of a lexer and of a parser.
#[derive(Clone, Copy, Debug, PartialEq, Eq)]
pub enum NotCompiling {
    /// The bytes are no tokens (JLS 3).
    Lex { kind: u8, place: Place },
    /// The tokens are no compilation unit (JLS 7.3).
    Parse { kind: u8, place: Place },
    /// The path is not that of the unit's package and type (JLS 7.6).
    PathMismatch(CuId),
    /// Two top-level types have one name (JLS 7.6).
    Duplicate(Place),
    /// A type is its own supertype (JLS 8.1.4, 9.1.3).
    Cycle(Place),
    /// A name has no declaration, or more than one (JLS 6.5).
    Unbound(Place),
    /// A rule of the language is broken.
    Rule(Rule, Place),
}

/// Which kind of flow an edge is.
#[derive(Clone, Copy, Debug, PartialEq, Eq)]
pub enum EdgeKind {
    /// From a statement to one that may run next.
    Control,
    /// From a class and a method to the method that runs.
    Dispatch,
    /// From an assignment of a variable to a use of it.
    DefUse,
}

/// Where an edge stands alone.
#[derive(Clone, Copy, Debug, PartialEq, Eq)]
pub enum Side {
    /// In the program found.
    Old,
    /// In the changed program.
    New,
}

/// A flow edge that a change would lose or add.
#[derive(Clone, Copy, Debug, PartialEq, Eq)]
pub struct Edge {
    pub kind: EdgeKind,
    pub first: Place,
    pub second: Place,
    pub side: Side,
}

/// What the program answers. `request` is the number of the request in a batch, from 1, and 0 outside a batch.
#[derive(Debug, Drop)]
pub enum Status {
    Done(Report),
    /// The words are outside the grammar.
    BadWords,
    /// The request asks for what there is not. The reasons are counted from 1.
    BadRequest {
        request: u32,
        reason: u8,
        field: Option<Text>,
    },
    NotCompiling(NotCompiling),
    /// No spelling of the occurrence refers to its locked declaration in the changed program.
    NoSpelling {
        request: u32,
        occ: OccId,
        place: Place,
        lock: DeclId,
    },
    /// The change would lose or add the edge.
    LostEdge {
        request: u32,
        edge: Edge,
    },
    /// The changed text breaks the rule at the place.
    BrokenRule {
        request: u32,
        rule: Rule,
        place: Place,
    },
    /// The store failed.
    StoreFault {
        phase: Phase,
    },
    /// The input failed.
    SourceFault,
    /// The output failed. The files are those of the answer whose line was being written.
    SinkFault,
    /// A size is past its limit.
    TooLarge {
        what: Size,
        request: u32,
    },
    OutOfMemory,
    /// An earlier run was stopped, and its journal cannot be read.
    BadJournal,
    /// The last change is not taken back, by the first of these reasons: 1, there is no journal; 2, it does not keep both
    /// sides; 3, the file at the path was edited since.
    NoUndo {
        reason: u8,
        path: Option<Path>,
    },
    /// What is to be removed is used at the place.
    StillUsed {
        place: Place,
    },
    /// The changed text does not read as it is to at the place.
    Differs {
        request: u32,
        place: Place,
    },
}

impl Status {
    ghost use Rattle.jr_top.specs.Status.{number_of};

    /// The exit status of the program.
    pub fn number(&self) -> u8
        ensures { result ≡ number_of self.now }
    {
        match self {
            Status::Done(_) => 0,
            Status::BadWords => 1,
            Status::BadRequest { .. } => 2,
            Status::NotCompiling(_) => 3,
            Status::NoSpelling { .. } => 4,
            Status::LostEdge { .. } => 5,
            Status::BrokenRule { .. } => 6,
            Status::StoreFault { .. } => 7,
            Status::SourceFault => 8,
            Status::TooLarge { .. } => 9,
            Status::OutOfMemory => 10,
            Status::BadJournal => 11,
            Status::NoUndo { .. } => 12,
            Status::StillUsed { .. } => 13,
            Status::SinkFault => 14,
            Status::Differs { .. } => 21,
        }
    }
}
