// Operators (JLS 15.17 to 15.26), by how tightly they bind.
ghost use Rattle.std.specs.Prelude.{◌≡◌, ◌≤◌, suc, IfOk};
ghost use Rattle.jr_tree.specs.Levels as levels;
ghost use Rattle.jr_tree.specs.Mirror.Exprs.{plain_expr};
ghost use Rattle.jr_parse_laws.specs.Parsers.{first, kinds};
ghost use Rattle.jr_parse_expr.specs.Exprs as spec;
ghost use Rattle.jr_parse_expr.specs.Nests.{Nests};
ghost use Rattle.jr_parse_expr.specs.Steps as step;
ghost use Rattle.jr_parse_expr.specs.Views.{plain_lead, ReadsExpr};

use crate::grammar::Grammar;
use crate::lead::Lead;
use crate::name::type_use;
use jr_base::{Keyword, Kind, Symbol};
use jr_parse_laws::{Cursor, Fault};
use jr_parse_parts::{Measured, MeasuredList, binary_level, is_assignment, is_target, level};
use jr_tree::Expr;
use std::alloc::Global;

/// How an expression goes on with an operator.
#[derive(Clone, Copy)]
pub enum Operation {
    /// `?`, and the two choices
    Choice,
    /// An assignment
    Assign(Symbol),
    /// A binary operator
    Binary(Symbol),
    /// `instanceof`, and a type
    Test,
}

/// How the expression goes on with this symbol as a binary operator or an assignment, if it does.
fn binary_operation(symbol: Symbol, left: &Expr, least: u8) -> Option<Operation>
    ensures { result ≡ step.binary_operation_of least (plain_expr left.now) symbol }
{
    if is_assignment(symbol) {
        (least == 0 && is_target(left)).then_some(Operation::Assign(symbol))
    } else {
        let binds = binary_level(symbol);
        (binds >= 1 && binds >= least && level(left) >= binds).then_some(Operation::Binary(symbol))
    }
}

/// How the expression goes on with this symbol, if it does so with an operator that binds as tightly as `least`.
fn symbol_operation(symbol: Symbol, left: &Expr, least: u8) -> Option<Operation>
    ensures { result ≡ step.symbol_operation_of least (plain_expr left.now) symbol }
{
    match symbol {
        Symbol::Question => (least <= 1 && level(left) >= 2).then_some(Operation::Choice),
        symbol => binary_operation(symbol, left, least),
    }
}

/// How the expression goes on with an operator that binds as tightly as `least`, if it does.
fn operation_at(cursor: &Cursor<'_>, left: &Expr, least: u8) -> Option<Operation>
    ensures { result ≡ step.operation_of least (plain_expr left.now) (first (kinds cursor.now)) }
{
    match cursor.peek()? {
        Kind::Sym(symbol) => symbol_operation(*symbol, left, least),
        Kind::Word(Keyword::Instanceof) => (least <= 8 && level(left) >= 8).then_some(
            Operation::Test,
        ),
        _ => None,
    }
}

impl<
    F: Fn(Global, &mut Cursor<'_>, usize, Lead, u8) -> Result<Measured, Fault>,
    L: Fn(Global, &mut Cursor<'_>, usize) -> Result<MeasuredList, Fault>,
> Grammar<F, L> {
    /// A conditional, behind its condition and the question mark (JLS 15.25).
    fn choice(&self, cursor: &mut Cursor<'_>, cond: Measured) -> Result<Measured, Fault>
        requires nests { Nests self.now.room (F.pre self.now.expr) (F.post self.now.expr) (L.pre self.now.list) (L.post self.now.list) }
        requires low { cond.height ≤ self.now.room }
        ensures reads { ReadsExpr (spec.choice self.now.room (spec.expr self.now.room) (spec.list self.now.room) (plain_expr cond.expr) (kinds cursor.old)) result (kinds cursor.new) }
        ensures low { IfOk result (λ m. m.height ≤ suc self.now.room) }
    {
        let yes = match self.expr(cursor, Lead::Nothing, 0) {
            Ok(yes) => yes,
            Err(fault) => {
                drop(cond);
                return Err(fault);
            }
        };
        if let Err(fault) = cursor.expect(Symbol::Colon) {
            drop(cond);
            drop(yes);
            return Err(fault);
        }
        self.otherwise(cursor, cond, yes)
    }

    /// A conditional, behind the colon.
    fn otherwise(
        &self,
        cursor: &mut Cursor<'_>,
        cond: Measured,
        yes: Measured,
    ) -> Result<Measured, Fault>
        requires nests { Nests self.now.room (F.pre self.now.expr) (F.post self.now.expr) (L.pre self.now.list) (L.post self.now.list) }
        requires cond { cond.height ≤ self.now.room }
        requires yes { yes.height ≤ self.now.room }
        ensures reads { ReadsExpr (step.otherwise self.now.room (spec.expr self.now.room) (spec.list self.now.room) (plain_expr cond.expr) (plain_expr yes.expr) (kinds cursor.old)) result (kinds cursor.new) }
        ensures low { IfOk result (λ m. m.height ≤ suc self.now.room) }
    {
        let no = match self.expr(cursor, Lead::Nothing, 1) {
            Ok(no) => no,
            Err(fault) => {
                drop(cond);
                drop(yes);
                return Err(fault);
            }
        };
        Ok(Measured::cond(self.alloc, cond, yes, no)?)
    }

    /// A binary operation, behind the operator (JLS 15.17 to 15.24).
    fn binary(&self, cursor: &mut Cursor<'_>, left: Measured, op: Symbol) -> Result<Measured, Fault>
        requires nests { Nests self.now.room (F.pre self.now.expr) (F.post self.now.expr) (L.pre self.now.list) (L.post self.now.list) }
        requires low { left.height ≤ self.now.room }
        ensures reads { ReadsExpr (spec.binary self.now.room (spec.expr self.now.room) (spec.list self.now.room) (plain_expr left.expr) op (kinds cursor.old)) result (kinds cursor.new) }
        ensures low { IfOk result (λ m. m.height ≤ suc self.now.room) }
    {
        let right = match self.expr(cursor, Lead::Nothing, binary_level(op) + 1) {
            Ok(right) => right,
            Err(fault) => {
                drop(left);
                return Err(fault);
            }
        };
        Ok(Measured::binary(self.alloc, left, op, right)?)
    }

    /// An assignment, behind the operator (JLS 15.26).
    pub fn assigned(
        &self,
        cursor: &mut Cursor<'_>,
        target: Measured,
        op: Symbol,
    ) -> Result<Measured, Fault>
        requires nests { Nests self.now.room (F.pre self.now.expr) (F.post self.now.expr) (L.pre self.now.list) (L.post self.now.list) }
        requires low { target.height ≤ self.now.room }
        ensures reads { ReadsExpr (spec.assigned self.now.room (spec.expr self.now.room) (spec.list self.now.room) (plain_expr target.expr) op (kinds cursor.old)) result (kinds cursor.new) }
        ensures low { IfOk result (λ m. m.height ≤ suc self.now.room) }
    {
        let value = match self.expr(cursor, Lead::Nothing, 0) {
            Ok(value) => value,
            Err(fault) => {
                drop(target);
                return Err(fault);
            }
        };
        Ok(Measured::assign(self.alloc, target, op, value)?)
    }

    /// A test of a type, behind `instanceof` (JLS 15.20.2).
    fn tested(&self, cursor: &mut Cursor<'_>, value: Measured) -> Result<Measured, Fault>
        requires nests { Nests self.now.room (F.pre self.now.expr) (F.post self.now.expr) (L.pre self.now.list) (L.post self.now.list) }
        requires low { value.height ≤ self.now.room }
        ensures reads { ReadsExpr (spec.tested self.now.room (spec.expr self.now.room) (spec.list self.now.room) (plain_expr value.expr) (kinds cursor.old)) result (kinds cursor.new) }
        ensures low { IfOk result (λ m. m.height ≤ suc self.now.room) }
    {
        let ty = match type_use(self.alloc, cursor) {
            Ok(ty) => ty,
            Err(fault) => {
                drop(value);
                return Err(fault);
            }
        };
        Ok(Measured::is_a(self.alloc, value, ty)?)
    }

    /// What goes on so, behind the token.
    fn operated(
        &self,
        cursor: &mut Cursor<'_>,
        left: Measured,
        operation: Operation,
    ) -> Result<Measured, Fault>
        requires nests { Nests self.now.room (F.pre self.now.expr) (F.post self.now.expr) (L.pre self.now.list) (L.post self.now.list) }
        requires low { left.height ≤ self.now.room }
        ensures reads { ReadsExpr (step.operated self.now.room (spec.expr self.now.room) (spec.list self.now.room) (plain_expr left.expr) operation (kinds cursor.old)) result (kinds cursor.new) }
        ensures low { IfOk result (λ m. m.height ≤ suc self.now.room) }
    {
        match operation {
            Operation::Choice => self.choice(cursor, left),
            Operation::Assign(op) => self.assigned(cursor, left, op),
            Operation::Binary(op) => self.binary(cursor, left, op),
            Operation::Test => self.tested(cursor, left),
        }
    }

    /// All that goes on with operators that bind as tightly as `least`.
    fn climb(
        &self,
        cursor: &mut Cursor<'_>,
        operand: Measured,
        least: u8,
    ) -> Result<Measured, Fault>
        requires nests { Nests self.now.room (F.pre self.now.expr) (F.post self.now.expr) (L.pre self.now.list) (L.post self.now.list) }
        requires low { operand.height ≤ suc self.now.room }
        ensures reads { ReadsExpr (spec.climb self.now.room (spec.expr self.now.room) (spec.list self.now.room) least (plain_expr operand.expr) (kinds cursor.old)) result (kinds cursor.new) }
        ensures low { IfOk result (λ m. m.height ≤ suc self.now.room) }
    {
        let mut left = operand;
        'operators: while let Some(operation) = operation_at(cursor, &left.expr, least) {
            if left.height > self.room {
                drop(left);
                return Err(Fault::TooDeep);
            }
            cursor.skip();
            left = self.operated(cursor, left, operation)?;
        }
        Ok(left)
    }

    /// An expression from a level of binding on.
    #[tactic(auto, unfolding(crate::specs::Exprs::operations))]
    pub fn operations(
        &self,
        cursor: &mut Cursor<'_>,
        lead: Lead,
        least: u8,
    ) -> Result<Measured, Fault>
        requires { Nests self.now.room (F.pre self.now.expr) (F.post self.now.expr) (L.pre self.now.list) (L.post self.now.list) }
        ensures reads { ReadsExpr (spec.operations self.now.room (spec.expr self.now.room) (spec.list self.now.room) (plain_lead lead) least (kinds cursor.old)) result (kinds cursor.new) }
        ensures low { IfOk result (λ m. m.height ≤ suc self.now.room) }
    {
        let operand = self.operand(cursor, lead)?;
        let primary = self.suffixes(cursor, operand)?;
        self.climb(cursor, primary, least)
    }
}
