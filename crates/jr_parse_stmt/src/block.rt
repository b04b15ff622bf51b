// Blocks and the bodies of methods and constructors (JLS 8.4.5, 8.8.7, 14.2).
ghost use Rattle.std.specs.Prelude.{◌≡◌, true, map};
ghost use Rattle.jr_tree.specs.Mirror.Stmts.{plain_block, plain_stmt};
ghost use Rattle.jr_parse_laws.specs.Parsers.{Reads, kinds, many, with_front};
ghost use Rattle.jr_parse_defs.specs.Begins.{starts_block_stmt};
ghost use Rattle.jr_parse_defs.specs.Stmts as spec;
ghost use Rattle.jr_parse_stmt.specs.Nests.{Nests, in_room};

use crate::grammar::{Grammar, stmt};
use crate::start::starts_block_stmt;
use jr_base::{Items, Symbol};
use jr_parse_laws::{Cursor, Fault};
use jr_tree::{Block, Stmt};
use std::alloc::Global;

impl<F: Fn(Global, &mut Cursor<'_>, usize, bool) -> Result<Stmt, Fault>> Grammar<F> {
    /// Statements behind these, as long as one begins.
    pub fn more_stmts(
        &self,
        cursor: &mut Cursor<'_>,
        front: Items<Stmt>,
    ) -> Result<Items<Stmt>, Fault>
        requires { Nests self.now.room (F.pre self.now.stmt) (F.post self.now.stmt) }
        ensures { Reads (λ (all : _). map plain_stmt all) (with_front (map plain_stmt front) (many starts_block_stmt (spec.stmt self.now.room true) (kinds cursor.old))) result (kinds cursor.new) }
    {
        let mut all = front;
        'stmts: while starts_block_stmt(cursor) {
            let next = self.outer(cursor)?;
            all.push(next)?;
        }
        Ok(all)
    }

    /// Statements, as long as one begins.
    #[tactic(auto, using(crate::proofs::Viewed::front_none), unfolding(jr_parse_defs::specs::Stmts::stmts))]
    pub fn stmts(&self, cursor: &mut Cursor<'_>) -> Result<Items<Stmt>, Fault>
        requires { Nests self.now.room (F.pre self.now.stmt) (F.post self.now.stmt) }
        ensures { Reads (λ (all : _). map plain_stmt all) (in_room spec.stmts self.now.room (kinds cursor.old)) result (kinds cursor.new) }
    {
        self.more_stmts(cursor, Items::new(self.alloc))
    }

    /// Statements in braces.
    #[tactic(auto, unfolding(jr_parse_defs::specs::Stmts::block))]
    pub fn block(&self, cursor: &mut Cursor<'_>) -> Result<Block, Fault>
        requires { Nests self.now.room (F.pre self.now.stmt) (F.post self.now.stmt) }
        ensures { Reads plain_block (in_room spec.block self.now.room (kinds cursor.old)) result (kinds cursor.new) }
    {
        cursor.expect(Symbol::OpenBrace)?;
        let stmts = self.stmts(cursor)?;
        cursor.expect(Symbol::CloseBrace)?;
        Ok(Block { stmts })
    }
}

/// The body of a method or an initializer, whose statements have at most so many levels.
pub fn body(alloc: Global, cursor: &mut Cursor<'_>, room: usize) -> Result<Block, Fault>
    ensures { Reads plain_block (spec.body room (kinds cursor.old)) result (kinds cursor.new) }
{
    Grammar { alloc, room, stmt }.block(cursor)
}
