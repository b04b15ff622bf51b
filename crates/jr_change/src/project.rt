// A program with its tables and texts.

use jr_defs::Referent;
use jr_marks::Marks;
use jr_view::View;

/// A program, what its names refer to, and where its rows stand in texts.
#[derive(Clone, Copy)]
pub struct Project<'a> {
    pub marks: Marks<'a>,
    pub view: View<'a>,
}

/// The number of no row.
pub const NO_ROW: u32 = u32::MAX;

/// How the rows of a changed program stand to those of the old one, and what its occurrences must refer to.
#[derive(Debug, Drop)]
pub struct Locks {
    /// The old row of which each row is a copy, or `NO_ROW`.
    pub origin: Vec<u32>,
    /// The copy of each old row, or `NO_ROW`; the first, where there are more.
    pub copy: Vec<u32>,
    /// What each row must refer to, by rows of the changed program: the copy of what the old row referred to, its level too.
    pub table: Vec<Referent>,
}
