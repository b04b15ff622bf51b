// Operands (JLS 15.8, 15.11.2, 15.12, 15.15).
ghost use Rattle.std.specs.Prelude.{◌≡◌, ◌≤◌, ◌<◌, suc, map, IfOk};
ghost use Rattle.jr_tree.specs.Mirror.Exprs.{plain_any_receiver, plain_expr};
ghost use Rattle.jr_parse_laws.specs.Parsers.{commas, kinds, with_front};
ghost use Rattle.jr_parse_expr.specs.Begun.{begun, new_operand, signed};
ghost use Rattle.jr_parse_expr.specs.Exprs as spec;
ghost use Rattle.jr_parse_expr.specs.Nests.{Nests};
ghost use Rattle.jr_parse_starts.specs.Starts.{starts_expr};
ghost use Rattle.jr_parse_expr.specs.Steps.{called, literal, more_exprs, named_operand};
ghost use Rattle.jr_parse_expr.specs.Views.{plain_dotted, plain_lead, ReadsExpr, ReadsExprs};

use crate::begin::{OperandStart, operand_start};
use crate::grammar::Grammar;
use crate::lead::Lead;
use crate::name::{Dotted, dotted_name, whole_name};
use jr_base::{Items, Symbol, Text};
use jr_parse_laws::{Cursor, Fault};
use jr_parse_parts::{Arguments, Measured, MeasuredList, Receiving};
use jr_parse_starts::{is_least_kind, is_plain_literal, is_step, is_unary, starts_expr};
use jr_tree::{Name, Receiver};
use std::alloc::Global;

/// Nothing, where the name has no other identifiers before it; otherwise those.
fn named_receiver(before: Items<Text>) -> Receiving
    ensures receiver { plain_any_receiver result.receiver ≡ spec.receiver_of before }
    ensures height { result.height ≡ 0 }
{
    if before.is_empty() {
        return Receiving {
            receiver: None,
            height: 0,
        };
    }
    Receiving {
        receiver: Some(Receiver::OfName {
            name: Name { parts: before },
        }),
        height: 0,
    }
}

impl<
    F: Fn(Global, &mut Cursor<'_>, usize, Lead, u8) -> Result<Measured, Fault>,
    L: Fn(Global, &mut Cursor<'_>, usize) -> Result<MeasuredList, Fault>,
> Grammar<F, L> {
    /// Further expressions behind these, each behind a comma.
    fn more_exprs(&self, cursor: &mut Cursor<'_>, front: Arguments) -> Result<Arguments, Fault>
        requires nests { Nests self.now.room (F.pre self.now.expr) (F.post self.now.expr) (L.pre self.now.list) (L.post self.now.list) }
        requires low { front.height ≤ self.now.room }
        ensures reads { ReadsExprs (with_front (map plain_expr front.args) (more_exprs (spec.expr self.now.room) (kinds cursor.old))) result (kinds cursor.new) }
        ensures low { IfOk result (λ m. m.height ≤ self.now.room) }
    {
        let mut all = front;
        'exprs: while cursor.is_at(Symbol::Comma) {
            cursor.skip();
            let next = self.expr(cursor, Lead::Nothing, 0)?;
            all = all.with(next)?;
        }
        Ok(all)
    }

    /// Expressions with commas between them.
    fn exprs(&self, cursor: &mut Cursor<'_>) -> Result<Arguments, Fault>
        requires { Nests self.now.room (F.pre self.now.expr) (F.post self.now.expr) (L.pre self.now.list) (L.post self.now.list) }
        ensures reads { ReadsExprs (commas (spec.expr self.now.room spec.Nothing 0) (kinds cursor.old)) result (kinds cursor.new) }
        ensures low { IfOk result (λ m. m.height ≤ self.now.room) }
    {
        let first = self.expr(cursor, Lead::Nothing, 0)?;
        let front = Arguments::none(self.alloc).with(first)?;
        self.more_exprs(cursor, front)
    }

    /// The same, if one begins.
    fn any_exprs(&self, cursor: &mut Cursor<'_>) -> Result<Arguments, Fault>
        requires { Nests self.now.room (F.pre self.now.expr) (F.post self.now.expr) (L.pre self.now.list) (L.post self.now.list) }
        ensures reads { ReadsExprs (spec.any_commas starts_expr (spec.expr self.now.room spec.Nothing 0) (kinds cursor.old)) result (kinds cursor.new) }
        ensures low { IfOk result (λ a. a.height ≤ self.now.room) }
    {
        if starts_expr(cursor) {
            self.exprs(cursor)
        } else {
            Ok(Arguments::none(self.alloc))
        }
    }

    /// Arguments, behind the open parenthesis (JLS 15.12).
    #[tactic(auto, unfolding(crate::specs::Exprs::arguments))]
    pub fn arguments(&self, cursor: &mut Cursor<'_>) -> Result<Arguments, Fault>
        requires { Nests self.now.room (F.pre self.now.expr) (F.post self.now.expr) (L.pre self.now.list) (L.post self.now.list) }
        ensures reads { ReadsExprs (spec.arguments self.now.room (spec.expr self.now.room) (spec.list self.now.room) (kinds cursor.old)) result (kinds cursor.new) }
        ensures low { IfOk result (λ a. a.height ≤ self.now.room) }
    {
        let all = self.any_exprs(cursor)?;
        cursor.expect(Symbol::CloseParen)?;
        Ok(all)
    }

    /// A call, behind the open parenthesis.
    pub fn call(
        &self,
        cursor: &mut Cursor<'_>,
        receiver: Receiving,
        method: Text,
    ) -> Result<Measured, Fault>
        requires nests { Nests self.now.room (F.pre self.now.expr) (F.post self.now.expr) (L.pre self.now.list) (L.post self.now.list) }
        requires low { receiver.height ≤ self.now.room }
        ensures reads { ReadsExpr (called self.now.room (spec.expr self.now.room) (spec.list self.now.room) (plain_any_receiver receiver.receiver) method (kinds cursor.old)) result (kinds cursor.new) }
        ensures low { IfOk result (λ m. m.height ≤ suc self.now.room) }
    {
        let args = self.arguments(cursor)?;
        Ok(Measured::call(receiver, method, args))
    }

    /// What a name makes, behind it.
    #[tactic(auto, unfolding(crate::specs::Exprs::after_dotted))]
    pub fn after_dotted(&self, cursor: &mut Cursor<'_>, dotted: Dotted) -> Result<Measured, Fault>
        requires { Nests self.now.room (F.pre self.now.expr) (F.post self.now.expr) (L.pre self.now.list) (L.post self.now.list) }
        ensures reads { ReadsExpr (spec.after_dotted self.now.room (spec.expr self.now.room) (spec.list self.now.room) (plain_dotted dotted) (kinds cursor.old)) result (kinds cursor.new) }
        ensures low { IfOk result (λ m. m.height ≤ suc self.now.room) }
    {
        if dotted.has_this {
            return Ok(Measured::this(Some(whole_name(dotted.before, dotted.last)?)));
        }
        if cursor.is_at(Symbol::OpenParen) {
            cursor.skip();
            return self.call(cursor, named_receiver(dotted.before), dotted.last);
        }
        Ok(Measured::name(whole_name(dotted.before, dotted.last)?))
    }

    /// An element of an array, behind the name and the open bracket (JLS 15.13).
    #[tactic(auto, unfolding(crate::specs::Exprs::after_bracket))]
    pub fn after_bracket(&self, cursor: &mut Cursor<'_>, name: Name) -> Result<Measured, Fault>
        requires { Nests self.now.room (F.pre self.now.expr) (F.post self.now.expr) (L.pre self.now.list) (L.post self.now.list) }
        ensures reads { ReadsExpr (spec.after_bracket self.now.room (spec.expr self.now.room) (spec.list self.now.room) name (kinds cursor.old)) result (kinds cursor.new) }
        ensures low { IfOk result (λ m. m.height ≤ suc self.now.room) }
    {
        let at = self.expr(cursor, Lead::Nothing, 0)?;
        if let Err(fault) = cursor.expect(Symbol::CloseBracket) {
            drop(at);
            return Err(fault);
        }
        Ok(Measured::index(self.alloc, Measured::name(name), at)?)
    }

    /// A member of the superclass, behind `super` (JLS 15.11.2, 15.12).
    #[tactic(auto, unfolding(crate::specs::Exprs::super_member))]
    pub fn super_member(&self, cursor: &mut Cursor<'_>) -> Result<Measured, Fault>
        requires { Nests self.now.room (F.pre self.now.expr) (F.post self.now.expr) (L.pre self.now.list) (L.post self.now.list) }
        ensures reads { ReadsExpr (spec.super_member self.now.room (spec.expr self.now.room) (spec.list self.now.room) (kinds cursor.old)) result (kinds cursor.new) }
        ensures low { IfOk result (λ m. m.height ≤ suc self.now.room) }
    {
        cursor.expect(Symbol::Dot)?;
        let member = cursor.identifier(self.alloc)?;
        if cursor.is_at(Symbol::OpenParen) {
            cursor.skip();
            return self.call(cursor, Receiving::parent(), member);
        }
        Ok(Measured::super_select(member))
    }

    /// An operand with a sign or a step before it (JLS 15.15).
    pub fn prefix(&self, cursor: &mut Cursor<'_>, symbol: Symbol) -> Result<Measured, Fault>
        requires { Nests self.now.room (F.pre self.now.expr) (F.post self.now.expr) (L.pre self.now.list) (L.post self.now.list) }
        ensures reads { ReadsExpr (signed self.now.room (spec.expr self.now.room) (spec.list self.now.room) symbol (kinds cursor.old)) result (kinds cursor.new) }
        ensures low { IfOk result (λ m. m.height ≤ suc self.now.room) }
    {
        if is_unary(symbol) {
            if self.is_lowest() {
                return Err(Fault::TooDeep);
            }
            cursor.skip();
            let value = self.expr(cursor, Lead::Nothing, 12)?;
            return Ok(Measured::unary(self.alloc, symbol, value)?);
        }
        if is_step(symbol) {
            if self.is_lowest() {
                return Err(Fault::TooDeep);
            }
            cursor.skip();
            let value = self.expr(cursor, Lead::Nothing, 12)?;
            return Ok(Measured::pre_step(self.alloc, symbol, value)?);
        }
        Err(Fault::NoTree)
    }

    /// What stands behind a minus (JLS 15.15.4).
    #[tactic(auto, unfolding(crate::specs::Exprs::negated))]
    fn negated(&self, cursor: &mut Cursor<'_>) -> Result<Measured, Fault>
        requires nests { Nests self.now.room (F.pre self.now.expr) (F.post self.now.expr) (L.pre self.now.list) (L.post self.now.list) }
        requires room { 0 < self.now.room }
        ensures reads { ReadsExpr (spec.negated self.now.room (spec.expr self.now.room) (spec.list self.now.room) (kinds cursor.old)) result (kinds cursor.new) }
        ensures low { IfOk result (λ m. m.height ≤ suc self.now.room) }
    {
        match cursor.peek() {
            None => Err(Fault::NoTree),
            Some(kind) if is_least_kind(kind) => {
                let number = Measured::literal(kind.copy(self.alloc)?);
                cursor.skip();
                Ok(Measured::unary(self.alloc, Symbol::Minus, number)?)
            }
            Some(_) => {
                let value = self.expr(cursor, Lead::Nothing, 12)?;
                Ok(Measured::unary(self.alloc, Symbol::Minus, value)?)
            }
        }
    }

    /// A literal.
    pub fn literal(&self, cursor: &mut Cursor<'_>) -> Result<Measured, Fault>
        ensures reads { ReadsExpr (literal (kinds cursor.old)) result (kinds cursor.new) }
        ensures low { IfOk result (λ m. m.height ≤ suc self.now.room) }
    {
        match cursor.peek() {
            Some(kind) if is_plain_literal(kind) => {
                let literal = Measured::literal(kind.copy(self.alloc)?);
                cursor.skip();
                Ok(literal)
            }
            _ => Err(Fault::NoTree),
        }
    }

    /// An operand that begins so.
    pub fn begun(&self, cursor: &mut Cursor<'_>, start: OperandStart) -> Result<Measured, Fault>
        requires { Nests self.now.room (F.pre self.now.expr) (F.post self.now.expr) (L.pre self.now.list) (L.post self.now.list) }
        ensures reads { ReadsExpr (begun self.now.room (spec.expr self.now.room) (spec.list self.now.room) start (kinds cursor.old)) result (kinds cursor.new) }
        ensures low { IfOk result (λ m. m.height ≤ suc self.now.room) }
    {
        match start {
            OperandStart::Name => self.named_operand(cursor),
            OperandStart::This => {
                cursor.skip();
                Ok(Measured::this(None))
            }
            OperandStart::Super => {
                cursor.skip();
                self.super_member(cursor)
            }
            OperandStart::New => {
                cursor.skip();
                self.creation(cursor)
            }
            OperandStart::Parenthesis => {
                if self.is_lowest() {
                    return Err(Fault::TooDeep);
                }
                cursor.skip();
                self.in_parens(cursor)
            }
            OperandStart::Minus => {
                if self.is_lowest() {
                    return Err(Fault::TooDeep);
                }
                cursor.skip();
                self.negated(cursor)
            }
            OperandStart::Sign(symbol) => self.prefix(cursor, symbol),
            OperandStart::Literal => self.literal(cursor),
        }
    }

    /// An operand of which nothing was read.
    fn new_operand(&self, cursor: &mut Cursor<'_>) -> Result<Measured, Fault>
        requires { Nests self.now.room (F.pre self.now.expr) (F.post self.now.expr) (L.pre self.now.list) (L.post self.now.list) }
        ensures reads { ReadsExpr (new_operand self.now.room (spec.expr self.now.room) (spec.list self.now.room) (kinds cursor.old)) result (kinds cursor.new) }
        ensures low { IfOk result (λ m. m.height ≤ suc self.now.room) }
    {
        match operand_start(cursor) {
            Some(start) => self.begun(cursor, start),
            None => Err(Fault::NoTree),
        }
    }

    /// An operand that begins with a name.
    pub fn named_operand(&self, cursor: &mut Cursor<'_>) -> Result<Measured, Fault>
        requires { Nests self.now.room (F.pre self.now.expr) (F.post self.now.expr) (L.pre self.now.list) (L.post self.now.list) }
        ensures reads { ReadsExpr (named_operand self.now.room (spec.expr self.now.room) (spec.list self.now.room) (kinds cursor.old)) result (kinds cursor.new) }
        ensures low { IfOk result (λ m. m.height ≤ suc self.now.room) }
    {
        let head = cursor.identifier(self.alloc)?;
        let dotted = dotted_name(self.alloc, cursor, true, head)?;
        self.after_dotted(cursor, dotted)
    }

    /// An operand.
    #[tactic(auto, unfolding(crate::specs::Exprs::operand))]
    pub fn operand(&self, cursor: &mut Cursor<'_>, lead: Lead) -> Result<Measured, Fault>
        requires { Nests self.now.room (F.pre self.now.expr) (F.post self.now.expr) (L.pre self.now.list) (L.post self.now.list) }
        ensures reads { ReadsExpr (spec.operand self.now.room (spec.expr self.now.room) (spec.list self.now.room) (plain_lead lead) (kinds cursor.old)) result (kinds cursor.new) }
        ensures low { IfOk result (λ m. m.height ≤ suc self.now.room) }
    {
        match lead {
            Lead::Nothing => self.new_operand(cursor),
            Lead::Named(dotted) => self.after_dotted(cursor, dotted),
            Lead::Indexed(name) => self.after_bracket(cursor, name),
            Lead::This => Ok(Measured::this(None)),
            Lead::Super => self.super_member(cursor),
        }
    }
}
