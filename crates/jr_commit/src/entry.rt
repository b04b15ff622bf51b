// The entries of a journal.
ghost use Rattle.std.specs.Prelude.{◌≡◌, ◌↔◌, IsTrue, IfOk};

use jr_base::{OutOfMemory, Path};
use std::alloc::Global;

/// What a journal says of a path.
#[derive(Debug, Drop)]
pub enum Side {
    /// There is no file.
    Absent,
    /// The file has these bytes.
    Holds(Vec<u8>),
    /// The journal does not say it: the new side of version 1.
    Unknown,
}

/// A path, what stood there, and what stands there after the change.
#[derive(Debug, Drop)]
pub struct Entry {
    pub path: Path,
    pub old: Side,
    pub new: Side,
}

/// The entries of a journal, and the version of the grammar that it is in: 1 or 2.
#[derive(Debug, Drop)]
pub struct Journal {
    pub version: u8,
    pub entries: Vec<Entry>,
}

// An entry whose path has not been tried.
#[derive(Drop)]
pub struct RawEntry {
    pub path: Vec<u8>,
    pub old: Side,
    pub new: Side,
}

#[derive(Clone, Copy, Debug, PartialEq, Eq)]
pub enum Version {
    One,
    Two,
}

impl Version {
    ghost use Rattle.jr_commit.specs.Journal.{version_number};

    pub fn number(self) -> u8
        ensures { result ≡ version_number self }
    {
        match self {
            Version::One => 1,
            Version::Two => 2,
        }
    }
}

impl Side {
    ghost use Rattle.jr_commit.specs.Entries.{known_of};

    /// Whether both say the same.
    pub fn is_same(&self, other: &Side) -> bool
        ensures { IsTrue result ↔ (known_of self.now ≡ known_of other.now) }
    {
        match (self, other) {
            (Side::Absent, Side::Absent) => true,
            (Side::Unknown, Side::Unknown) => true,
            (Side::Holds(one), Side::Holds(two)) => one.as_slice() == two.as_slice(),
            _ => false,
        }
    }
}

// The path of the journal or the gate.
pub fn own_path(alloc: Global, text: &str) -> Result<Path, OutOfMemory>
    ensures { IfOk result (λ p. p ≡ text.now) }
{
    match Path::parse(alloc, text.as_bytes()) {
        Ok(path) => Ok(path),
        Err(_) => Err(OutOfMemory),
    }
}
