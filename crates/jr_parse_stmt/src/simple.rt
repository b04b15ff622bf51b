// Statements that hold no others (JLS 14.4, 14.8, 14.15 to 14.18).
ghost use Rattle.std.specs.Prelude.{◌≡◌, ◌<◌};
ghost use Rattle.std.specs.Option.{option_map};
ghost use Rattle.jr_tree.specs.Mirror.Exprs.{plain_expr};
ghost use Rattle.jr_tree.specs.Mirror.Stmts.{plain_stmt};
ghost use Rattle.jr_parse_laws.specs.Parsers.{Reads, kinds, optional};
ghost use Rattle.jr_parse_expr.specs.Exprs.{Nothing, expr};
ghost use Rattle.jr_parse_starts.specs.Starts.{starts_expr};
ghost use Rattle.jr_parse_expr.specs.Views.{plain_lead};
ghost use Rattle.jr_parse_defs.specs.Stmts as spec;
ghost use Rattle.jr_parse_stmt.specs.Nests.{in_room};

use crate::declarator::declarators;
use crate::grammar::Grammar;
use jr_base::{Kind, Symbol, Text};
use jr_parse_expr::{Lead, effect, expr};
use jr_parse_laws::{Cursor, Fault};
use jr_parse_starts::starts_expr;
use jr_tree::{Expr, Stmt, TypeUse};
use std::alloc::Global;

/// A label, if one comes next.
fn label(alloc: Global, cursor: &mut Cursor<'_>) -> Result<Option<Text>, Fault>
    ensures { Reads (λ (l : _). l) (spec.label (kinds cursor.old)) result (kinds cursor.new) }
{
    match cursor.peek() {
        Some(Kind::Ident(_)) => Ok(Some(cursor.identifier(alloc)?)),
        _ => Ok(None),
    }
}

/// An expression in parentheses behind a word.
pub fn condition(alloc: Global, cursor: &mut Cursor<'_>, room: usize) -> Result<Expr, Fault>
    ensures { Reads plain_expr (spec.condition room (kinds cursor.old)) result (kinds cursor.new) }
{
    cursor.expect(Symbol::OpenParen)?;
    let condition = expr(alloc, cursor, room, Lead::Nothing, 0)?;
    if let Err(fault) = cursor.expect(Symbol::CloseParen) {
        drop(condition);
        return Err(fault);
    }
    Ok(condition)
}

/// An expression, if one comes next.
pub fn any_expr(alloc: Global, cursor: &mut Cursor<'_>, room: usize) -> Result<Option<Expr>, Fault>
    ensures { Reads (option_map plain_expr) (optional starts_expr (expr room Nothing 0) (kinds cursor.old)) result (kinds cursor.new) }
{
    if starts_expr(cursor) {
        Ok(Some(expr(alloc, cursor, room, Lead::Nothing, 0)?))
    } else {
        Ok(None)
    }
}

impl<F> Grammar<F> {
    /// Variables of a type that was read.
    pub fn local(&self, cursor: &mut Cursor<'_>, is_final: bool, ty: TypeUse) -> Result<Stmt, Fault>
        requires { self.now.room < usize.MAX }
        ensures { Reads plain_stmt (in_room spec.local self.now.room is_final ty (kinds cursor.old)) result (kinds cursor.new) }
    {
        let decls = match declarators(self.alloc, cursor, self.room) {
            Ok(decls) => decls,
            Err(fault) => {
                drop(ty);
                return Err(fault);
            }
        };
        if let Err(fault) = cursor.expect(Symbol::Semicolon) {
            drop(ty);
            return Err(fault);
        }
        Ok(Stmt::Local {
            is_final,
            ty,
            decls,
        })
    }

    /// An expression that stands as a statement, behind what was read of it.
    pub fn evaluated(&self, cursor: &mut Cursor<'_>, lead: Lead) -> Result<Stmt, Fault>
        ensures { Reads plain_stmt (in_room spec.evaluated self.now.room (plain_lead lead) (kinds cursor.old)) result (kinds cursor.new) }
    {
        let value = effect(self.alloc, cursor, self.room, lead)?;
        if let Err(fault) = cursor.expect(Symbol::Semicolon) {
            drop(value);
            return Err(fault);
        }
        Ok(Stmt::Eval { value })
    }

    /// Behind `break`
    pub fn break_stmt(&self, cursor: &mut Cursor<'_>) -> Result<Stmt, Fault>
        ensures { Reads plain_stmt (in_room spec.break_stmt self.now.room (kinds cursor.old)) result (kinds cursor.new) }
    {
        let label = label(self.alloc, cursor)?;
        cursor.expect(Symbol::Semicolon)?;
        Ok(Stmt::Break { label })
    }

    /// Behind `continue`
    pub fn continue_stmt(&self, cursor: &mut Cursor<'_>) -> Result<Stmt, Fault>
        ensures { Reads plain_stmt (in_room spec.continue_stmt self.now.room (kinds cursor.old)) result (kinds cursor.new) }
    {
        let label = label(self.alloc, cursor)?;
        cursor.expect(Symbol::Semicolon)?;
        Ok(Stmt::Continue { label })
    }

    /// Behind `return`
    pub fn return_stmt(&self, cursor: &mut Cursor<'_>) -> Result<Stmt, Fault>
        ensures { Reads plain_stmt (in_room spec.return_stmt self.now.room (kinds cursor.old)) result (kinds cursor.new) }
    {
        let value = any_expr(self.alloc, cursor, self.room)?;
        if let Err(fault) = cursor.expect(Symbol::Semicolon) {
            drop(value);
            return Err(fault);
        }
        Ok(Stmt::Return { value })
    }

    /// Behind `throw`
    pub fn throw_stmt(&self, cursor: &mut Cursor<'_>) -> Result<Stmt, Fault>
        ensures { Reads plain_stmt (in_room spec.throw_stmt self.now.room (kinds cursor.old)) result (kinds cursor.new) }
    {
        let value = expr(self.alloc, cursor, self.room, Lead::Nothing, 0)?;
        if let Err(fault) = cursor.expect(Symbol::Semicolon) {
            drop(value);
            return Err(fault);
        }
        Ok(Stmt::Throw { value })
    }
}
