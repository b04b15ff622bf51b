// Choices and loops by a condition (JLS 14.9, 14.12, 14.13).
ghost use Rattle.std.specs.Prelude.{◌≡◌};
ghost use Rattle.std.specs.Option.{option_map};
ghost use Rattle.jr_tree.specs.Mirror.Stmts.{plain_any_stmt, plain_stmt};
ghost use Rattle.jr_parse_laws.specs.Parsers.{Reads, kinds};
ghost use Rattle.jr_parse_defs.specs.Stmts as spec;
ghost use Rattle.jr_parse_stmt.specs.Nests.{Nests, in_room};

use crate::grammar::Grammar;
use crate::simple::condition;
use jr_base::{Boxed, Keyword, Symbol};
use jr_parse_laws::{Cursor, Fault};
use jr_tree::Stmt;
use std::alloc::Global;

impl<F: Fn(Global, &mut Cursor<'_>, usize, bool) -> Result<Stmt, Fault>> Grammar<F> {
    /// Behind `do`
    #[tactic(auto, unfolding(jr_parse_defs::specs::Stmts::do_stmt))]
    pub fn do_stmt(&self, cursor: &mut Cursor<'_>) -> Result<Stmt, Fault>
        requires { Nests self.now.room (F.pre self.now.stmt) (F.post self.now.stmt) }
        ensures { Reads plain_stmt (in_room spec.do_stmt self.now.room (kinds cursor.old)) result (kinds cursor.new) }
    {
        let body = self.inner(cursor)?;
        cursor.expect_word(Keyword::While)?;
        let cond = condition(self.alloc, cursor, self.room)?;
        if let Err(fault) = cursor.expect(Symbol::Semicolon) {
            drop(cond);
            return Err(fault);
        }
        Ok(Stmt::Do { body, cond })
    }

    /// Behind `while`
    #[tactic(auto, unfolding(jr_parse_defs::specs::Stmts::while_stmt))]
    pub fn while_stmt(&self, cursor: &mut Cursor<'_>) -> Result<Stmt, Fault>
        requires { Nests self.now.room (F.pre self.now.stmt) (F.post self.now.stmt) }
        ensures { Reads plain_stmt (in_room spec.while_stmt self.now.room (kinds cursor.old)) result (kinds cursor.new) }
    {
        let cond = condition(self.alloc, cursor, self.room)?;
        let body = match self.inner(cursor) {
            Ok(body) => body,
            Err(fault) => {
                drop(cond);
                return Err(fault);
            }
        };
        Ok(Stmt::While { cond, body })
    }

    /// What stands behind the first part of an `if`: `else` and another, if that word comes next.
    fn otherwise(&self, cursor: &mut Cursor<'_>) -> Result<Option<Boxed<Stmt>>, Fault>
        requires { Nests self.now.room (F.pre self.now.stmt) (F.post self.now.stmt) }
        ensures { Reads (λ (any : _). plain_any_stmt any) (in_room spec.otherwise self.now.room (kinds cursor.old)) result (kinds cursor.new) }
    {
        if !cursor.is_at_word(Keyword::Else) {
            return Ok(None);
        }
        cursor.skip();
        Ok(Some(self.inner(cursor)?))
    }

    /// Behind `if`
    #[tactic(auto, unfolding(jr_parse_defs::specs::Stmts::if_stmt))]
    pub fn if_stmt(&self, cursor: &mut Cursor<'_>) -> Result<Stmt, Fault>
        requires { Nests self.now.room (F.pre self.now.stmt) (F.post self.now.stmt) }
        ensures { Reads plain_stmt (in_room spec.if_stmt self.now.room (kinds cursor.old)) result (kinds cursor.new) }
    {
        let cond = condition(self.alloc, cursor, self.room)?;
        let yes = match self.inner(cursor) {
            Ok(yes) => yes,
            Err(fault) => {
                drop(cond);
                return Err(fault);
            }
        };
        let no = match self.otherwise(cursor) {
            Ok(no) => no,
            Err(fault) => {
                drop(cond);
                return Err(fault);
            }
        };
        Ok(Stmt::If { cond, yes, no })
    }
}
