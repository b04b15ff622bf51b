// Handlers of exceptions (JLS 14.20).
ghost use Rattle.std.specs.Prelude.{◌≡◌, map};
ghost use Rattle.jr_tree.specs.Mirror.Stmts.{plain_any_block, plain_catch, plain_stmt};
ghost use Rattle.jr_parse_laws.specs.Parsers.{Reads, kinds, many};
ghost use Rattle.jr_parse_starts.specs.Starts.{next_is};
ghost use Rattle.jr_parse_defs.specs.Begins.{is_catch};
ghost use Rattle.jr_parse_defs.specs.Stmts as spec;
ghost use Rattle.jr_parse_stmt.specs.Nests.{Nests, in_room};

use crate::grammar::Grammar;
use crate::parameter::param;
use crate::start::starts_catch;
use jr_base::{Items, Keyword, Symbol};
use jr_parse_laws::{Cursor, Fault};
use jr_tree::{Block, Catch, Stmt};
use std::alloc::Global;

impl<F: Fn(Global, &mut Cursor<'_>, usize, bool) -> Result<Stmt, Fault>> Grammar<F> {
    /// A handler.
    #[tactic(auto, unfolding(jr_parse_defs::specs::Stmts::catch_clause))]
    fn catch_clause(&self, cursor: &mut Cursor<'_>) -> Result<Catch, Fault>
        requires { Nests self.now.room (F.pre self.now.stmt) (F.post self.now.stmt) }
        ensures { Reads plain_catch (in_room spec.catch_clause self.now.room (kinds cursor.old)) result (kinds cursor.new) }
    {
        cursor.expect_word(Keyword::Catch)?;
        cursor.expect(Symbol::OpenParen)?;
        let param = param(self.alloc, cursor)?;
        if let Err(fault) = cursor.expect(Symbol::CloseParen) {
            drop(param);
            return Err(fault);
        }
        let body = match self.block(cursor) {
            Ok(body) => body,
            Err(fault) => {
                drop(param);
                return Err(fault);
            }
        };
        Ok(Catch { param, body })
    }

    /// Handlers, as long as one begins.
    fn catches(&self, cursor: &mut Cursor<'_>) -> Result<Items<Catch>, Fault>
        requires { Nests self.now.room (F.pre self.now.stmt) (F.post self.now.stmt) }
        ensures { Reads (λ (all : _). map plain_catch all) (many (next_is is_catch) (in_room spec.catch_clause self.now.room) (kinds cursor.old)) result (kinds cursor.new) }
    {
        let mut all = Items::new(self.alloc);
        'catches: while starts_catch(cursor) {
            let next = self.catch_clause(cursor)?;
            all.push(next)?;
        }
        Ok(all)
    }

    /// The block that is run at the end, which must stand behind a block without handlers.
    #[tactic(auto, using(crate::proofs::Begins::no_finally))]
    fn finally_part(
        &self,
        cursor: &mut Cursor<'_>,
        catches: &Items<Catch>,
    ) -> Result<Option<Block>, Fault>
        requires { Nests self.now.room (F.pre self.now.stmt) (F.post self.now.stmt) }
        ensures { Reads (λ (any : _). plain_any_block any) (in_room spec.finally_part self.now.room (map plain_catch catches.now) (kinds cursor.old)) result (kinds cursor.new) }
    {
        if !catches.is_empty() && !cursor.is_at_word(Keyword::Finally) {
            return Ok(None);
        }
        cursor.expect_word(Keyword::Finally)?;
        Ok(Some(self.block(cursor)?))
    }

    /// Behind `try`
    #[tactic(auto, unfolding(jr_parse_defs::specs::Stmts::try_stmt))]
    pub fn try_stmt(&self, cursor: &mut Cursor<'_>) -> Result<Stmt, Fault>
        requires { Nests self.now.room (F.pre self.now.stmt) (F.post self.now.stmt) }
        ensures { Reads plain_stmt (in_room spec.try_stmt self.now.room (kinds cursor.old)) result (kinds cursor.new) }
    {
        let body = self.block(cursor)?;
        let catches = self.catches(cursor)?;
        let last = self.finally_part(cursor, &catches)?;
        Ok(Stmt::Try {
            body,
            catches,
            last,
        })
    }
}
