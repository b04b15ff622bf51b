// What stands behind an operand (JLS 15.11 to 15.14).
ghost use Rattle.std.specs.Prelude.{◌≡◌, ◌≤◌, suc, IfOk};
ghost use Rattle.jr_tree.specs.Mirror.Exprs.{plain_expr};
ghost use Rattle.jr_parse_laws.specs.Parsers.{kinds, symbol_at};
ghost use Rattle.jr_parse_expr.specs.Exprs as spec;
ghost use Rattle.jr_parse_expr.specs.Nests.{Nests};
ghost use Rattle.jr_parse_expr.specs.Steps as step;
ghost use Rattle.jr_parse_expr.specs.Views.{ReadsExpr};

use crate::grammar::Grammar;
use crate::lead::Lead;
use jr_base::Symbol;
use jr_parse_laws::{Cursor, Fault};
use jr_parse_parts::{Measured, MeasuredList, Receiving, is_new_array, level};
use jr_parse_starts::is_step;
use jr_tree::Expr;
use std::alloc::Global;

/// How an operand goes on.
#[derive(Clone, Copy)]
pub enum Suffix {
    /// `.`, and a member
    Member,
    /// `[`, and the place in an array
    Index,
    /// `++` or `--`
    Step(Symbol),
}

/// How the operand goes on, if it does.
pub fn suffix_at(cursor: &Cursor<'_>, left: &Expr) -> Option<Suffix>
    ensures { result ≡ step.suffix_of (plain_expr left.now) (symbol_at (kinds cursor.now)) }
{
    match cursor.symbol()? {
        Symbol::Dot => (level(left) >= 14).then_some(Suffix::Member),
        Symbol::OpenBracket => {
            (level(left) >= 14 && !is_new_array(left)).then_some(Suffix::Index)
        }
        symbol => (is_step(symbol) && level(left) >= 13).then_some(Suffix::Step(symbol)),
    }
}

impl<
    F: Fn(Global, &mut Cursor<'_>, usize, Lead, u8) -> Result<Measured, Fault>,
    L: Fn(Global, &mut Cursor<'_>, usize) -> Result<MeasuredList, Fault>,
> Grammar<F, L> {
    /// A member of an operand, behind the dot (JLS 15.11.1, 15.12).
    fn selected(&self, cursor: &mut Cursor<'_>, left: Measured) -> Result<Measured, Fault>
        requires nests { Nests self.now.room (F.pre self.now.expr) (F.post self.now.expr) (L.pre self.now.list) (L.post self.now.list) }
        requires low { left.height ≤ self.now.room }
        ensures reads { ReadsExpr (spec.selected self.now.room (spec.expr self.now.room) (spec.list self.now.room) (plain_expr left.expr) (kinds cursor.old)) result (kinds cursor.new) }
        ensures low { IfOk result (λ m. m.height ≤ suc self.now.room) }
    {
        let member = match cursor.identifier(self.alloc) {
            Ok(member) => member,
            Err(fault) => {
                drop(left);
                return Err(fault);
            }
        };
        if cursor.is_at(Symbol::OpenParen) {
            cursor.skip();
            return self.call(cursor, Receiving::object(self.alloc, left)?, member);
        }
        Ok(Measured::select(self.alloc, left, member)?)
    }

    /// A place in an array, behind the open bracket (JLS 15.13).
    pub fn indexed(&self, cursor: &mut Cursor<'_>, left: Measured) -> Result<Measured, Fault>
        requires nests { Nests self.now.room (F.pre self.now.expr) (F.post self.now.expr) (L.pre self.now.list) (L.post self.now.list) }
        requires low { left.height ≤ self.now.room }
        ensures reads { ReadsExpr (spec.indexed self.now.room (spec.expr self.now.room) (spec.list self.now.room) (plain_expr left.expr) (kinds cursor.old)) result (kinds cursor.new) }
        ensures low { IfOk result (λ m. m.height ≤ suc self.now.room) }
    {
        let at = match self.expr(cursor, Lead::Nothing, 0) {
            Ok(at) => at,
            Err(fault) => {
                drop(left);
                return Err(fault);
            }
        };
        if let Err(fault) = cursor.expect(Symbol::CloseBracket) {
            drop(left);
            drop(at);
            return Err(fault);
        }
        Ok(Measured::index(self.alloc, left, at)?)
    }

    /// What goes on so, behind the token.
    pub fn suffixed(
        &self,
        cursor: &mut Cursor<'_>,
        left: Measured,
        suffix: Suffix,
    ) -> Result<Measured, Fault>
        requires nests { Nests self.now.room (F.pre self.now.expr) (F.post self.now.expr) (L.pre self.now.list) (L.post self.now.list) }
        requires low { left.height ≤ self.now.room }
        ensures reads { ReadsExpr (step.suffixed self.now.room (spec.expr self.now.room) (spec.list self.now.room) (plain_expr left.expr) suffix (kinds cursor.old)) result (kinds cursor.new) }
        ensures low { IfOk result (λ m. m.height ≤ suc self.now.room) }
    {
        match suffix {
            Suffix::Member => self.selected(cursor, left),
            Suffix::Index => self.indexed(cursor, left),
            Suffix::Step(symbol) => Ok(Measured::post_step(self.alloc, left, symbol)?),
        }
    }

    /// All that goes on behind an operand.
    pub fn suffixes(&self, cursor: &mut Cursor<'_>, operand: Measured) -> Result<Measured, Fault>
        requires nests { Nests self.now.room (F.pre self.now.expr) (F.post self.now.expr) (L.pre self.now.list) (L.post self.now.list) }
        requires low { operand.height ≤ suc self.now.room }
        ensures reads { ReadsExpr (spec.suffixes self.now.room (spec.expr self.now.room) (spec.list self.now.room) (plain_expr operand.expr) (kinds cursor.old)) result (kinds cursor.new) }
        ensures low { IfOk result (λ m. m.height ≤ suc self.now.room) }
    {
        let mut left = operand;
        'suffixes: while let Some(suffix) = suffix_at(cursor, &left.expr) {
            if left.height > self.room {
                drop(left);
                return Err(Fault::TooDeep);
            }
            cursor.skip();
            left = self.suffixed(cursor, left, suffix)?;
        }
        Ok(left)
    }
}
