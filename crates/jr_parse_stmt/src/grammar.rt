// Statements of at most so many levels. The rules that hold statements take the reader of those as a parameter, so that each is proved by itself.
ghost use Rattle.std.specs.Prelude.{◌≡◌, true, false, nat_lt, if◌then◌else◌};
ghost use Rattle.jr_tree.specs.Mirror.Stmts.{plain_stmt};
ghost use Rattle.jr_parse_laws.specs.declared.fault.Fault.TheVariants.{NoTree, TooDeep};
ghost use Rattle.jr_parse_laws.specs.Parsers.{Reads, first, kinds};
ghost use Rattle.jr_parse_defs.specs.Begins.{starts_block_stmt, starts_stmt};
ghost use Rattle.jr_parse_defs.specs.Stmts as spec;
ghost use Rattle.jr_parse_stmt.specs.Nests.{Nests};

use crate::start::{starts_block_stmt, starts_stmt};
use jr_base::Boxed;
use jr_parse_laws::{Cursor, Fault};
use jr_tree::Stmt;
use std::alloc::Global;

/// What the rules read the parts of a statement with.
#[derive(Drop)]
pub struct Grammar<F> {
    pub alloc: Global,
    /// How many levels a part may have.
    pub room: usize,
    /// Reads a statement of at most so many levels, that may declare variables directly or not.
    pub stmt: F,
}

impl<F: Fn(Global, &mut Cursor<'_>, usize, bool) -> Result<Stmt, Fault>> Grammar<F> {
    /// A part that may not declare variables directly (JLS 14.5).
    pub fn inner(&self, cursor: &mut Cursor<'_>) -> Result<Boxed<Stmt>, Fault>
        requires { Nests self.now.room (F.pre self.now.stmt) (F.post self.now.stmt) }
        ensures { Reads (λ (body : _). plain_stmt body) (spec.stmt self.now.room false (kinds cursor.old)) result (kinds cursor.new) }
    {
        let body = (self.stmt)(self.alloc, cursor, self.room, false)?;
        Ok(Boxed::new(self.alloc, body)?)
    }

    /// A part that may declare variables directly (JLS 14.2).
    pub fn outer(&self, cursor: &mut Cursor<'_>) -> Result<Stmt, Fault>
        requires { Nests self.now.room (F.pre self.now.stmt) (F.post self.now.stmt) }
        ensures { Reads plain_stmt (spec.stmt self.now.room true (kinds cursor.old)) result (kinds cursor.new) }
    {
        (self.stmt)(self.alloc, cursor, self.room, true)
    }

    /// Whether there is no level for a part.
    pub fn is_lowest(&self) -> bool
        ensures { result ≡ nat_lt self.now.room 1 }
    {
        self.room < 1
    }
}

/// The fault where no level is left: too deep if a statement begins here.
fn lowest(cursor: &Cursor<'_>, declares: bool) -> Fault
    ensures { result ≡ (if (if declares then starts_block_stmt (first (kinds cursor.now)) else starts_stmt (first (kinds cursor.now))) then TooDeep else NoTree) }
{
    let begins = if declares {
        starts_block_stmt(cursor)
    } else {
        starts_stmt(cursor)
    };
    if begins {
        Fault::TooDeep
    } else {
        Fault::NoTree
    }
}

/// A statement of at most so many levels, that may declare variables directly or not (JLS 14).
pub fn stmt(
    alloc: Global,
    cursor: &mut Cursor<'_>,
    room: usize,
    declares: bool,
) -> Result<Stmt, Fault>
    ensures { Reads plain_stmt (spec.stmt room declares (kinds cursor.old)) result (kinds cursor.new) }
{
    if room == 0 {
        return Err(lowest(cursor, declares));
    }
    Grammar {
        alloc,
        room: room - 1,
        stmt,
    }
    .stmt_of(cursor, declares)
}
