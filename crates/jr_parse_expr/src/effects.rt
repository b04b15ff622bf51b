// Expressions that stand as statements (JLS 14.8).
ghost use Rattle.std.specs.Prelude.{◌≡◌, ◌≤◌, ◌-◌, suc, nat_lt, IfOk};
ghost use Rattle.jr_tree.specs.Mirror.Exprs.{plain_expr};
ghost use Rattle.jr_parse_laws.specs.Parsers.{kinds, symbol_at};
ghost use Rattle.jr_parse_expr.specs.declared.begin.OperandStart.TheVariants as start;
ghost use Rattle.jr_parse_expr.specs.Begun as begun;
ghost use Rattle.jr_parse_expr.specs.Exprs as spec;
ghost use Rattle.jr_parse_expr.specs.Nests.{Nests};
ghost use Rattle.jr_parse_expr.specs.Views.{plain_lead, ReadsExpr};

use crate::begin::{OperandStart, operand_start};
use crate::grammar::Grammar;
use crate::lead::Lead;
use crate::name::{dotted_name, name_after, primitive_at};
use crate::suffix::{Suffix, suffix_at};
use jr_base::Symbol;
use jr_parse_laws::{Cursor, Fault};
use jr_parse_parts::{Measured, MeasuredList, is_assignment, is_statement, is_target};
use jr_parse_starts::{is_step, starts_plain_literal};
use jr_tree::{Expr, Name};
use std::alloc::Global;

/// What the rules read the parts of an expression with that stands as a statement.
#[derive(Drop)]
pub struct EffectGrammar<F, L> {
    /// Reads the parts.
    pub inner: Grammar<F, L>,
    /// Reads the parts of what is no statement by itself: it is a part of one, and so has a level less.
    pub low: Grammar<F, L>,
    ghost below: { low.room ≡ inner.room - 1 },
}

/// The operator of the assignment that the expression goes on with, if it does (JLS 15.26).
fn assignment_at(cursor: &Cursor<'_>, left: &Expr) -> Option<Symbol>
    ensures { result ≡ begun.assignment_of (plain_expr left.now) (symbol_at (kinds cursor.now)) }
{
    let op = cursor.symbol()?;
    (is_assignment(op) && is_target(left)).then_some(op)
}

/// Whether so many levels are too few for an operand of this height to go on so.
fn is_too_high(room: usize, height: usize, suffix: Suffix) -> bool
    ensures { result ≡ nat_lt room (begun.levels_for height suffix) }
{
    match suffix {
        Suffix::Index => room <= height,
        _ => room < height,
    }
}

impl<
    F: Fn(Global, &mut Cursor<'_>, usize, Lead, u8) -> Result<Measured, Fault>,
    L: Fn(Global, &mut Cursor<'_>, usize) -> Result<MeasuredList, Fault>,
> EffectGrammar<F, L> {
    /// One that begins with a name.
    fn named(&self, cursor: &mut Cursor<'_>) -> Result<Measured, Fault>
        requires { Nests self.now.inner.room (F.pre self.now.inner.expr) (F.post self.now.inner.expr) (L.pre self.now.inner.list) (L.post self.now.inner.list) }
        ensures reads { ReadsExpr (begun.effect_named self.now.inner.room (spec.expr self.now.inner.room) (spec.list self.now.inner.room) self.now.low.room (spec.expr self.now.low.room) (spec.list self.now.low.room) (kinds cursor.old)) result (kinds cursor.new) }
        ensures low { IfOk result (λ m. m.height ≤ suc self.now.inner.room) }
    {
        let head = cursor.identifier(self.inner.alloc)?;
        let has_level = !self.inner.is_lowest();
        let dotted = dotted_name(self.inner.alloc, cursor, has_level, head)?;
        self.inner.after_dotted(cursor, dotted)
    }

    /// What a name behind `new` makes, behind the name. An array is no statement.
    fn created(&self, cursor: &mut Cursor<'_>, name: Name) -> Result<Measured, Fault>
        requires nests { Nests self.now.inner.room (F.pre self.now.inner.expr) (F.post self.now.inner.expr) (L.pre self.now.inner.list) (L.post self.now.inner.list) }
        requires low { Nests self.now.low.room (F.pre self.now.low.expr) (F.post self.now.low.expr) (L.pre self.now.low.list) (L.post self.now.low.list) }
        ensures reads { ReadsExpr (begun.effect_created self.now.inner.room (spec.expr self.now.inner.room) (spec.list self.now.inner.room) self.now.low.room (spec.expr self.now.low.room) (spec.list self.now.low.room) name (kinds cursor.old)) result (kinds cursor.new) }
        ensures low { IfOk result (λ m. m.height ≤ suc self.now.inner.room) }
    {
        if cursor.is_at(Symbol::OpenBracket) {
            self.low.created(cursor, name)
        } else {
            self.inner.created(cursor, name)
        }
    }

    /// A creation, behind `new`.
    fn creation(&self, cursor: &mut Cursor<'_>) -> Result<Measured, Fault>
        requires nests { Nests self.now.inner.room (F.pre self.now.inner.expr) (F.post self.now.inner.expr) (L.pre self.now.inner.list) (L.post self.now.inner.list) }
        requires low { Nests self.now.low.room (F.pre self.now.low.expr) (F.post self.now.low.expr) (L.pre self.now.low.list) (L.post self.now.low.list) }
        ensures reads { ReadsExpr (begun.effect_creation self.now.inner.room (spec.expr self.now.inner.room) (spec.list self.now.inner.room) self.now.low.room (spec.expr self.now.low.room) (spec.list self.now.low.room) (kinds cursor.old)) result (kinds cursor.new) }
        ensures low { IfOk result (λ m. m.height ≤ suc self.now.inner.room) }
    {
        if let Some(primitive) = primitive_at(cursor) {
            return self.low.primitive_array(cursor, primitive);
        }
        let head = cursor.identifier(self.inner.alloc)?;
        let name = name_after(self.inner.alloc, cursor, head)?;
        self.created(cursor, name)
    }

    /// A literal.
    fn literal(&self, cursor: &mut Cursor<'_>) -> Result<Measured, Fault>
        ensures reads { ReadsExpr (begun.effect_literal self.now.inner.room (spec.expr self.now.inner.room) (spec.list self.now.inner.room) self.now.low.room (spec.expr self.now.low.room) (spec.list self.now.low.room) (kinds cursor.old)) result (kinds cursor.new) }
        ensures low { IfOk result (λ m. m.height ≤ suc self.now.inner.room) }
    {
        if !starts_plain_literal(cursor) {
            return Err(Fault::NoTree);
        }
        if self.inner.is_lowest() {
            return Err(Fault::TooDeep);
        }
        self.inner.literal(cursor)
    }

    /// One in parentheses, at the open parenthesis. It is no statement.
    fn parenthesized(&self, cursor: &mut Cursor<'_>) -> Result<Measured, Fault>
        requires { Nests self.now.low.room (F.pre self.now.low.expr) (F.post self.now.low.expr) (L.pre self.now.low.list) (L.post self.now.low.list) }
        ensures reads { ReadsExpr (begun.effect_begun self.now.inner.room (spec.expr self.now.inner.room) (spec.list self.now.inner.room) self.now.low.room (spec.expr self.now.low.room) (spec.list self.now.low.room) start.Parenthesis (kinds cursor.old)) result (kinds cursor.new) }
        ensures low { IfOk result (λ m. m.height ≤ suc self.now.inner.room) }
    {
        if self.inner.room < 2 {
            return Err(Fault::TooDeep);
        }
        cursor.skip();
        self.low.closed(cursor, Lead::Nothing)
    }

    /// One that begins so.
    fn begun(&self, cursor: &mut Cursor<'_>, start: OperandStart) -> Result<Measured, Fault>
        requires nests { Nests self.now.inner.room (F.pre self.now.inner.expr) (F.post self.now.inner.expr) (L.pre self.now.inner.list) (L.post self.now.inner.list) }
        requires low { Nests self.now.low.room (F.pre self.now.low.expr) (F.post self.now.low.expr) (L.pre self.now.low.list) (L.post self.now.low.list) }
        ensures reads { ReadsExpr (begun.effect_begun self.now.inner.room (spec.expr self.now.inner.room) (spec.list self.now.inner.room) self.now.low.room (spec.expr self.now.low.room) (spec.list self.now.low.room) start (kinds cursor.old)) result (kinds cursor.new) }
        ensures low { IfOk result (λ m. m.height ≤ suc self.now.inner.room) }
    {
        match start {
            OperandStart::Name => self.named(cursor),
            OperandStart::This => {
                if self.inner.is_lowest() {
                    return Err(Fault::TooDeep);
                }
                cursor.skip();
                Ok(Measured::this(None))
            }
            OperandStart::Super => {
                cursor.skip();
                self.inner.super_member(cursor)
            }
            OperandStart::New => {
                cursor.skip();
                self.creation(cursor)
            }
            OperandStart::Parenthesis => self.parenthesized(cursor),
            OperandStart::Minus => Err(Fault::NoTree),
            OperandStart::Sign(symbol) => {
                if is_step(symbol) {
                    self.inner.prefix(cursor, symbol)
                } else {
                    Err(Fault::NoTree)
                }
            }
            OperandStart::Literal => self.literal(cursor),
        }
    }

    /// One of which nothing was read.
    fn new_effect(&self, cursor: &mut Cursor<'_>) -> Result<Measured, Fault>
        requires nests { Nests self.now.inner.room (F.pre self.now.inner.expr) (F.post self.now.inner.expr) (L.pre self.now.inner.list) (L.post self.now.inner.list) }
        requires low { Nests self.now.low.room (F.pre self.now.low.expr) (F.post self.now.low.expr) (L.pre self.now.low.list) (L.post self.now.low.list) }
        ensures reads { ReadsExpr (begun.new_effect self.now.inner.room (spec.expr self.now.inner.room) (spec.list self.now.inner.room) self.now.low.room (spec.expr self.now.low.room) (spec.list self.now.low.room) (kinds cursor.old)) result (kinds cursor.new) }
        ensures low { IfOk result (λ m. m.height ≤ suc self.now.inner.room) }
    {
        match operand_start(cursor) {
            Some(start) => self.begun(cursor, start),
            None => Err(Fault::NoTree),
        }
    }

    /// The operand that it begins with.
    fn operand(&self, cursor: &mut Cursor<'_>, lead: Lead) -> Result<Measured, Fault>
        requires nests { Nests self.now.inner.room (F.pre self.now.inner.expr) (F.post self.now.inner.expr) (L.pre self.now.inner.list) (L.post self.now.inner.list) }
        requires low { Nests self.now.low.room (F.pre self.now.low.expr) (F.post self.now.low.expr) (L.pre self.now.low.list) (L.post self.now.low.list) }
        ensures reads { ReadsExpr (spec.effect_operand self.now.inner.room (spec.expr self.now.inner.room) (spec.list self.now.inner.room) (spec.expr self.now.low.room) (spec.list self.now.low.room) (plain_lead lead) (kinds cursor.old)) result (kinds cursor.new) }
        ensures low { IfOk result (λ m. m.height ≤ suc self.now.inner.room) }
    {
        match lead {
            Lead::Nothing => self.new_effect(cursor),
            Lead::Named(dotted) => self.inner.after_dotted(cursor, dotted),
            Lead::Indexed(name) => self.low.after_bracket(cursor, name),
            Lead::This => Ok(Measured::this(None)),
            Lead::Super => self.inner.super_member(cursor),
        }
    }

    /// What goes on so, behind the token. An element of an array is no statement.
    fn suffixed(
        &self,
        cursor: &mut Cursor<'_>,
        left: Measured,
        suffix: Suffix,
    ) -> Result<Measured, Fault>
        requires nests { Nests self.now.inner.room (F.pre self.now.inner.expr) (F.post self.now.inner.expr) (L.pre self.now.inner.list) (L.post self.now.inner.list) }
        requires low { Nests self.now.low.room (F.pre self.now.low.expr) (F.post self.now.low.expr) (L.pre self.now.low.list) (L.post self.now.low.list) }
        requires levels { begun.levels_for left.height suffix ≤ self.now.inner.room }
        ensures reads { ReadsExpr (begun.effect_suffixed self.now.inner.room (spec.expr self.now.inner.room) (spec.list self.now.inner.room) self.now.low.room (spec.expr self.now.low.room) (spec.list self.now.low.room) (plain_expr left.expr) suffix (kinds cursor.old)) result (kinds cursor.new) }
        ensures low { IfOk result (λ m. m.height ≤ suc self.now.inner.room) }
    {
        match suffix {
            Suffix::Index => self.low.indexed(cursor, left),
            suffix => self.inner.suffixed(cursor, left, suffix),
        }
    }

    /// All that goes on behind an operand.
    fn suffixes(&self, cursor: &mut Cursor<'_>, operand: Measured) -> Result<Measured, Fault>
        requires nests { Nests self.now.inner.room (F.pre self.now.inner.expr) (F.post self.now.inner.expr) (L.pre self.now.inner.list) (L.post self.now.inner.list) }
        requires low { Nests self.now.low.room (F.pre self.now.low.expr) (F.post self.now.low.expr) (L.pre self.now.low.list) (L.post self.now.low.list) }
        requires height { operand.height ≤ suc self.now.inner.room }
        ensures reads { ReadsExpr (spec.effect_suffixes self.now.inner.room (spec.expr self.now.inner.room) (spec.list self.now.inner.room) (spec.expr self.now.low.room) (spec.list self.now.low.room) (plain_expr operand.expr) (kinds cursor.old)) result (kinds cursor.new) }
        ensures low { IfOk result (λ m. m.height ≤ suc self.now.inner.room) }
    {
        let mut left = operand;
        'suffixes: while let Some(suffix) = suffix_at(cursor, &left.expr) {
            if is_too_high(self.inner.room, left.height, suffix) {
                drop(left);
                return Err(Fault::TooDeep);
            }
            cursor.skip();
            left = self.suffixed(cursor, left, suffix)?;
        }
        Ok(left)
    }

    /// The assignment that follows, if one does.
    fn end(&self, cursor: &mut Cursor<'_>, left: Measured) -> Result<Measured, Fault>
        requires nests { Nests self.now.inner.room (F.pre self.now.inner.expr) (F.post self.now.inner.expr) (L.pre self.now.inner.list) (L.post self.now.inner.list) }
        requires height { left.height ≤ suc self.now.inner.room }
        ensures reads { ReadsExpr (spec.effect_end self.now.inner.room (spec.expr self.now.inner.room) (spec.list self.now.inner.room) (plain_expr left.expr) (kinds cursor.old)) result (kinds cursor.new) }
        ensures low { IfOk result (λ m. m.height ≤ suc self.now.inner.room) }
    {
        match assignment_at(cursor, &left.expr) {
            Some(op) => {
                if left.height > self.inner.room {
                    drop(left);
                    return Err(Fault::TooDeep);
                }
                cursor.skip();
                self.inner.assigned(cursor, left, op)
            }
            None => {
                if is_statement(&left.expr) {
                    Ok(left)
                } else {
                    drop(left);
                    Err(Fault::NoTree)
                }
            }
        }
    }

    /// An expression that stands as a statement.
    #[tactic(auto, unfolding(crate::specs::Exprs::effects))]
    pub fn effects(&self, cursor: &mut Cursor<'_>, lead: Lead) -> Result<Measured, Fault>
        requires nests { Nests self.now.inner.room (F.pre self.now.inner.expr) (F.post self.now.inner.expr) (L.pre self.now.inner.list) (L.post self.now.inner.list) }
        requires low { Nests self.now.low.room (F.pre self.now.low.expr) (F.post self.now.low.expr) (L.pre self.now.low.list) (L.post self.now.low.list) }
        ensures reads { ReadsExpr (spec.effects self.now.inner.room (spec.expr self.now.inner.room) (spec.list self.now.inner.room) (spec.expr self.now.low.room) (spec.list self.now.low.room) (plain_lead lead) (kinds cursor.old)) result (kinds cursor.new) }
        ensures low { IfOk result (λ m. m.height ≤ suc self.now.inner.room) }
    {
        let operand = self.operand(cursor, lead)?;
        let left = self.suffixes(cursor, operand)?;
        self.end(cursor, left)
    }
}
