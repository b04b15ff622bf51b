// Statements by how they begin (JLS 14).
ghost use Rattle.std.specs.Prelude.{◌≡◌, ◌<◌};
ghost use Rattle.jr_tree.specs.Mirror.Stmts.{plain_stmt};
ghost use Rattle.jr_parse_laws.specs.Parsers.{Reads, kinds};
ghost use Rattle.jr_parse_defs.specs.Stmts as spec;
ghost use Rattle.jr_parse_stmt.specs.Begun as begun;
ghost use Rattle.jr_parse_stmt.specs.Nests.{Nests, in_room};

use crate::grammar::Grammar;
use crate::parameter::finality;
use crate::start::{PartWord, StmtStart, starts_local, stmt_start};
use jr_parse_expr::{Lead, type_use};
use jr_parse_laws::{Cursor, Fault};
use jr_parse_starts::starts_effect;
use jr_tree::Stmt;
use std::alloc::Global;

impl<F: Fn(Global, &mut Cursor<'_>, usize, bool) -> Result<Stmt, Fault>> Grammar<F> {
    /// Behind a word that wants a part.
    fn parted(&self, cursor: &mut Cursor<'_>, word: PartWord) -> Result<Stmt, Fault>
        requires nests { Nests self.now.room (F.pre self.now.stmt) (F.post self.now.stmt) }
        requires room { self.now.room < usize.MAX }
        ensures { Reads plain_stmt (in_room begun.parted self.now.room word (kinds cursor.old)) result (kinds cursor.new) }
    {
        match word {
            PartWord::Do => self.do_stmt(cursor),
            PartWord::While => self.while_stmt(cursor),
            PartWord::If => self.if_stmt(cursor),
            PartWord::For => self.for_stmt(cursor),
            PartWord::Switch => self.switch_stmt(cursor),
            PartWord::Throw => self.throw_stmt(cursor),
        }
    }

    /// At a token that begins a declaration of variables or an expression, if a statement at all.
    fn other_begun(&self, cursor: &mut Cursor<'_>, declares: bool) -> Result<Stmt, Fault>
        requires { self.now.room < usize.MAX }
        ensures { Reads plain_stmt (in_room begun.other_begun self.now.room declares (kinds cursor.old)) result (kinds cursor.new) }
    {
        if declares && starts_local(cursor) {
            let is_final = finality(cursor);
            let ty = type_use(self.alloc, cursor)?;
            return self.local(cursor, is_final, ty);
        }
        if !starts_effect(cursor) {
            return Err(Fault::NoTree);
        }
        if self.is_lowest() {
            return Err(Fault::TooDeep);
        }
        self.evaluated(cursor, Lead::Nothing)
    }

    /// At the token that a statement begins with.
    fn begun(
        &self,
        cursor: &mut Cursor<'_>,
        declares: bool,
        start: StmtStart,
    ) -> Result<Stmt, Fault>
        requires nests { Nests self.now.room (F.pre self.now.stmt) (F.post self.now.stmt) }
        requires room { self.now.room < usize.MAX }
        ensures { Reads plain_stmt (in_room begun.begun self.now.room declares start (kinds cursor.old)) result (kinds cursor.new) }
    {
        match start {
            StmtStart::Block => Ok(Stmt::Nest {
                block: self.block(cursor)?,
            }),
            StmtStart::Skip => {
                cursor.skip();
                Ok(Stmt::Skip)
            }
            StmtStart::Part(word) => {
                if self.is_lowest() {
                    return Err(Fault::TooDeep);
                }
                cursor.skip();
                self.parted(cursor, word)
            }
            StmtStart::Break => {
                cursor.skip();
                self.break_stmt(cursor)
            }
            StmtStart::Continue => {
                cursor.skip();
                self.continue_stmt(cursor)
            }
            StmtStart::Return => {
                cursor.skip();
                self.return_stmt(cursor)
            }
            StmtStart::Try => {
                cursor.skip();
                self.try_stmt(cursor)
            }
            StmtStart::Name => self.from_name(cursor, declares),
            StmtStart::Other => self.other_begun(cursor, declares),
        }
    }

    /// A statement whose parts have at most so many levels.
    #[tactic(auto, using(crate::proofs::Begins::stmt_is_begun))]
    pub fn stmt_of(&self, cursor: &mut Cursor<'_>, declares: bool) -> Result<Stmt, Fault>
        requires nests { Nests self.now.room (F.pre self.now.stmt) (F.post self.now.stmt) }
        requires room { self.now.room < usize.MAX }
        ensures { Reads plain_stmt (in_room spec.stmt_of self.now.room declares (kinds cursor.old)) result (kinds cursor.new) }
    {
        match stmt_start(cursor) {
            Some(start) => self.begun(cursor, declares, start),
            None => Err(Fault::NoTree),
        }
    }
}
