// The bodies of constructors (JLS 8.8.7).
ghost use Rattle.std.specs.Prelude.{◌≡◌, ◌<◌, map};
ghost use Rattle.jr_tree.specs.Mirror.Stmts.{plain_block, plain_stmt};
ghost use Rattle.jr_parse_laws.specs.Parsers.{Reads, kinds};
ghost use Rattle.jr_parse_expr.specs.Views.{plain_lead};
ghost use Rattle.jr_parse_defs.specs.Stmts as spec;
ghost use Rattle.jr_parse_stmt.specs.Bodies as bodies;
ghost use Rattle.jr_parse_stmt.specs.Nests.{in_room};

use crate::block::body;
use crate::grammar::{Grammar, stmt};
use jr_base::{Items, Keyword, Kind, Symbol};
use jr_parse_expr::{Lead, call_arguments};
use jr_parse_laws::{Cursor, Fault};
use jr_tree::{Block, Stmt, ThisOrSuper};
use std::alloc::Global;

impl<F> Grammar<F> {
    /// A call of another constructor, or an expression, behind `this` or `super`.
    fn ctor_call(
        &self,
        cursor: &mut Cursor<'_>,
        which: ThisOrSuper,
        lead: Lead,
    ) -> Result<Stmt, Fault>
        requires { self.now.room < usize.MAX }
        ensures { Reads plain_stmt (in_room spec.ctor_call self.now.room which (plain_lead lead) (kinds cursor.old)) result (kinds cursor.new) }
    {
        if !cursor.is_at(Symbol::OpenParen) {
            return self.evaluated(cursor, lead);
        }
        drop(lead);
        cursor.skip();
        let args = call_arguments(self.alloc, cursor, self.room)?;
        cursor.expect(Symbol::Semicolon)?;
        Ok(Stmt::CtorCall { which, args })
    }

    /// The first statement, if it begins with `this` or `super`.
    #[tactic(auto, unfolding(jr_parse_defs::specs::Stmts::ctor_first))]
    fn ctor_first(&self, cursor: &mut Cursor<'_>) -> Result<Items<Stmt>, Fault>
        requires { self.now.room < usize.MAX }
        ensures { Reads (λ (all : _). map plain_stmt all) (in_room spec.ctor_first self.now.room (kinds cursor.old)) result (kinds cursor.new) }
    {
        let mut front = Items::new(self.alloc);
        match cursor.peek() {
            Some(Kind::Word(Keyword::This)) => {
                cursor.skip();
                front.push(self.ctor_call(cursor, ThisOrSuper::This, Lead::This)?)?;
            }
            Some(Kind::Word(Keyword::Super)) => {
                cursor.skip();
                front.push(self.ctor_call(cursor, ThisOrSuper::Super, Lead::Super)?)?;
            }
            _ => {}
        }
        Ok(front)
    }
}

/// The body of a constructor, where a statement has at least one level.
fn ctor_block(alloc: Global, cursor: &mut Cursor<'_>, room: usize) -> Result<Block, Fault>
    requires { 0 < room }
    ensures { Reads plain_block (bodies.ctor_block room (kinds cursor.old)) result (kinds cursor.new) }
{
    let first = Grammar {
        alloc,
        room: room - 1,
        stmt,
    };
    let others = Grammar { alloc, room, stmt };
    cursor.expect(Symbol::OpenBrace)?;
    let front = first.ctor_first(cursor)?;
    let stmts = others.more_stmts(cursor, front)?;
    cursor.expect(Symbol::CloseBrace)?;
    Ok(Block { stmts })
}

/// The body of a constructor, whose statements have at most so many levels, and of which the first may call another constructor.
pub fn ctor_body(alloc: Global, cursor: &mut Cursor<'_>, room: usize) -> Result<Block, Fault>
    ensures { Reads plain_block (spec.ctor_body room (kinds cursor.old)) result (kinds cursor.new) }
{
    if room == 0 {
        return body(alloc, cursor, room);
    }
    ctor_block(alloc, cursor, room)
}
