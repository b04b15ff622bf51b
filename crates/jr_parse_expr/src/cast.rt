// Casts and expressions in parentheses (JLS 15.8.5, 15.16).
ghost use Rattle.std.specs.Prelude.{◌≡◌, ◌≤◌, ◌<◌, suc, true, IfOk};
ghost use Rattle.jr_base.specs.declared.kind.Symbol.TheVariants as y;
ghost use Rattle.jr_parse_laws.specs.Parsers.{is_at, kinds};
ghost use Rattle.jr_parse_expr.specs.Exprs as spec;
ghost use Rattle.jr_parse_expr.specs.Nests.{Nests};
ghost use Rattle.jr_parse_expr.specs.Steps.{inner_closed};
ghost use Rattle.jr_parse_expr.specs.Views.{plain_dotted, plain_lead, ReadsExpr};

use crate::grammar::Grammar;
use crate::lead::Lead;
use crate::name::{Dotted, dims, dims_behind, dotted_name, element, primitive_at, whole_name};
use jr_base::{Kind, Symbol};
use jr_parse_laws::{Cursor, Fault};
use jr_parse_parts::{Measured, MeasuredList};
use jr_parse_starts::starts_cast_operand;
use jr_tree::{Base, Name, TypeUse};
use std::alloc::Global;

impl<
    F: Fn(Global, &mut Cursor<'_>, usize, Lead, u8) -> Result<Measured, Fault>,
    L: Fn(Global, &mut Cursor<'_>, usize) -> Result<MeasuredList, Fault>,
> Grammar<F, L> {
    /// An expression, and the parenthesis that closes it.
    pub fn closed(&self, cursor: &mut Cursor<'_>, lead: Lead) -> Result<Measured, Fault>
        requires { Nests self.now.room (F.pre self.now.expr) (F.post self.now.expr) (L.pre self.now.list) (L.post self.now.list) }
        ensures reads { ReadsExpr (inner_closed self.now.room (spec.expr self.now.room) (spec.list self.now.room) (plain_lead lead) (kinds cursor.old)) result (kinds cursor.new) }
        ensures low { IfOk result (λ m. m.height ≤ suc self.now.room) }
    {
        let inner = self.expr(cursor, lead, 0)?;
        if let Err(fault) = cursor.expect(Symbol::CloseParen) {
            drop(inner);
            return Err(fault);
        }
        Ok(Measured::paren(self.alloc, inner)?)
    }

    /// A cast, behind the type in parentheses.
    fn cast(&self, cursor: &mut Cursor<'_>, base: Base, dims: usize) -> Result<Measured, Fault>
        requires { Nests self.now.room (F.pre self.now.expr) (F.post self.now.expr) (L.pre self.now.list) (L.post self.now.list) }
        ensures reads { ReadsExpr (spec.cast self.now.room (spec.expr self.now.room) (spec.list self.now.room) base dims (kinds cursor.old)) result (kinds cursor.new) }
        ensures low { IfOk result (λ m. m.height ≤ suc self.now.room) }
    {
        let value = self.expr(cursor, Lead::Nothing, 12)?;
        Ok(Measured::cast(self.alloc, TypeUse { base, dims }, value)?)
    }

    /// A cast to a primitive type or to an array of one, behind the open parenthesis.
    #[tactic(auto, unfolding(crate::specs::Exprs::primitive_cast))]
    fn primitive_cast(&self, cursor: &mut Cursor<'_>) -> Result<Measured, Fault>
        requires { Nests self.now.room (F.pre self.now.expr) (F.post self.now.expr) (L.pre self.now.list) (L.post self.now.list) }
        ensures reads { ReadsExpr (spec.primitive_cast self.now.room (spec.expr self.now.room) (spec.list self.now.room) (kinds cursor.old)) result (kinds cursor.new) }
        ensures low { IfOk result (λ m. m.height ≤ suc self.now.room) }
    {
        let base = element(self.alloc, cursor)?;
        let pairs = dims(cursor)?;
        cursor.expect(Symbol::CloseParen)?;
        self.cast(cursor, base, pairs)
    }

    /// A name in parentheses or a cast to it, behind both parentheses.
    #[tactic(auto, unfolding(crate::specs::Exprs::name_in_parens))]
    fn name_in_parens(&self, cursor: &mut Cursor<'_>, name: Name) -> Result<Measured, Fault>
        requires nests { Nests self.now.room (F.pre self.now.expr) (F.post self.now.expr) (L.pre self.now.list) (L.post self.now.list) }
        requires room { 0 < self.now.room }
        ensures reads { ReadsExpr (spec.name_in_parens self.now.room (spec.expr self.now.room) (spec.list self.now.room) name (kinds cursor.old)) result (kinds cursor.new) }
        ensures low { IfOk result (λ m. m.height ≤ suc self.now.room) }
    {
        if starts_cast_operand(cursor) {
            self.cast(cursor, Base::Named(name), 0)
        } else {
            Ok(Measured::paren(self.alloc, Measured::name(name))?)
        }
    }

    /// A cast to an array of a named type, at the close bracket of the first pair.
    #[tactic(auto, unfolding(crate::specs::Exprs::array_cast))]
    fn array_cast(&self, cursor: &mut Cursor<'_>, name: Name) -> Result<Measured, Fault>
        requires nests { Nests self.now.room (F.pre self.now.expr) (F.post self.now.expr) (L.pre self.now.list) (L.post self.now.list) }
        requires at { is_at y.CloseBracket (kinds cursor.old) ≡ true }
        ensures reads { ReadsExpr (spec.skipping (spec.array_cast self.now.room (spec.expr self.now.room) (spec.list self.now.room) name) (kinds cursor.old)) result (kinds cursor.new) }
        ensures low { IfOk result (λ m. m.height ≤ suc self.now.room) }
    {
        let more = dims_behind(cursor)?;
        cursor.expect(Symbol::CloseParen)?;
        if !starts_cast_operand(cursor) {
            return Err(Fault::NoTree);
        }
        self.cast(cursor, Base::Named(name), more + 1)
    }

    /// A cast or an expression, behind the open parenthesis, a name and an open bracket.
    #[tactic(auto, unfolding(crate::specs::Exprs::bracket_in_parens))]
    fn bracket_in_parens(&self, cursor: &mut Cursor<'_>, name: Name) -> Result<Measured, Fault>
        requires { Nests self.now.room (F.pre self.now.expr) (F.post self.now.expr) (L.pre self.now.list) (L.post self.now.list) }
        ensures reads { ReadsExpr (spec.bracket_in_parens self.now.room (spec.expr self.now.room) (spec.list self.now.room) name (kinds cursor.old)) result (kinds cursor.new) }
        ensures low { IfOk result (λ m. m.height ≤ suc self.now.room) }
    {
        if cursor.is_at(Symbol::CloseBracket) {
            self.array_cast(cursor, name)
        } else {
            self.closed(cursor, Lead::Indexed(name))
        }
    }

    /// A cast or an expression, behind the open parenthesis and a name.
    #[tactic(auto, unfolding(crate::specs::Exprs::dotted_in_parens))]
    fn dotted_in_parens(&self, cursor: &mut Cursor<'_>, dotted: Dotted) -> Result<Measured, Fault>
        requires nests { Nests self.now.room (F.pre self.now.expr) (F.post self.now.expr) (L.pre self.now.list) (L.post self.now.list) }
        requires room { 0 < self.now.room }
        ensures reads { ReadsExpr (spec.dotted_in_parens self.now.room (spec.expr self.now.room) (spec.list self.now.room) (plain_dotted dotted) (kinds cursor.old)) result (kinds cursor.new) }
        ensures low { IfOk result (λ m. m.height ≤ suc self.now.room) }
    {
        if dotted.has_this {
            return self.closed(cursor, Lead::Named(dotted));
        }
        match cursor.symbol() {
            Some(Symbol::CloseParen) => {
                cursor.skip();
                self.name_in_parens(cursor, whole_name(dotted.before, dotted.last)?)
            }
            Some(Symbol::OpenBracket) => {
                cursor.skip();
                self.bracket_in_parens(cursor, whole_name(dotted.before, dotted.last)?)
            }
            _ => self.closed(cursor, Lead::Named(dotted)),
        }
    }

    /// A cast or an expression, behind the open parenthesis.
    #[tactic(auto, unfolding(crate::specs::Exprs::in_parens))]
    pub fn in_parens(&self, cursor: &mut Cursor<'_>) -> Result<Measured, Fault>
        requires nests { Nests self.now.room (F.pre self.now.expr) (F.post self.now.expr) (L.pre self.now.list) (L.post self.now.list) }
        requires room { 0 < self.now.room }
        ensures reads { ReadsExpr (spec.in_parens self.now.room (spec.expr self.now.room) (spec.list self.now.room) (kinds cursor.old)) result (kinds cursor.new) }
        ensures low { IfOk result (λ m. m.height ≤ suc self.now.room) }
    {
        if primitive_at(cursor).is_some() {
            return self.primitive_cast(cursor);
        }
        match cursor.peek() {
            None => Err(Fault::NoTree),
            Some(Kind::Ident(_)) => {
                let head = cursor.identifier(self.alloc)?;
                let dotted = dotted_name(self.alloc, cursor, true, head)?;
                self.dotted_in_parens(cursor, dotted)
            }
            Some(_) => self.closed(cursor, Lead::Nothing),
        }
    }
}
