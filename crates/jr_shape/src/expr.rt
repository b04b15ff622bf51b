// Tests of expressions.
ghost use Rattle.std.specs.Prelude.{◌≡◌};
ghost use Rattle.jr_tree.specs.Mirror.Exprs as m;
ghost use Rattle.jr_shape.specs.Exprs as t;

use crate::form::{
    fits, has_expr, is_least, is_name, is_named, is_new_array, is_signed, is_statement, is_target,
    level,
};
use crate::levels::{binary_level, is_assignment, is_literal, is_minus, is_step, is_unary};
use crate::parts::{is_shaped_any_name, is_shaped_base, is_shaped_name, is_shaped_type};
use jr_tree::{Expr, Init, InitList, Receiver};

#[cycle(is_shaped_expr)]
pub fn is_shaped_expr(expr: &Expr) -> bool
    ensures { result ≡ t.is_shaped_expr (m.plain_expr expr.now) }
{
    match expr {
        Expr::Assign { target, op, value } => {
            is_assignment(*op)
                && is_target(target.get())
                && is_shaped_expr(target.get())
                && is_operand(0, value.get())
        }
        Expr::Cond { cond, yes, no } => {
            is_operand(2, cond.get()) && is_operand(0, yes.get()) && is_operand(1, no.get())
        }
        Expr::Binary { left, op, right } => {
            let level = binary_level(*op);
            0 < level && is_operand(level, left.get()) && is_operand(level + 1, right.get())
        }
        Expr::IsA { value, ty } => is_shaped_type(ty) && is_operand(8, value.get()),
        Expr::Unary { op, value } => {
            is_unary(*op)
                && 12 <= level(value.get())
                && (is_minus(*op) || !is_least(value.get()))
                && is_shaped_expr(value.get())
        }
        Expr::Cast { ty, value } => {
            is_shaped_type(ty)
                && !(is_named(&ty.base) && is_signed(value.get()))
                && is_operand(12, value.get())
        }
        Expr::PreStep { op, value } => is_step(*op) && is_operand(12, value.get()),
        Expr::PostStep { value, op } => is_step(*op) && is_operand(13, value.get()),
        Expr::Lit { kind } => is_literal(kind),
        Expr::This { name } => is_shaped_any_name(name),
        Expr::Paren { inner } => is_operand(0, inner.get()),
        Expr::NameExpr { name } => is_shaped_name(name),
        Expr::Select { object, .. } => is_before_dot(object.get()),
        Expr::SuperSelect { .. } => true,
        Expr::Index { array, at } => {
            !is_new_array(array.get()) && is_operand(14, array.get()) && is_operand(0, at.get())
        }
        Expr::Call { receiver, args, .. } => match receiver {
            None => are_shaped_exprs(args.as_slice()),
            Some(receiver) => is_shaped_receiver(receiver) && are_shaped_exprs(args.as_slice()),
        },
        Expr::New { name, args } => is_shaped_name(name) && are_shaped_exprs(args.as_slice()),
        Expr::NewArray {
            base,
            dims,
            more,
            init,
        } => match init {
            None => {
                is_shaped_base(base)
                    && are_shaped_exprs(dims.as_slice())
                    && has_expr(dims.as_slice())
            }
            Some(list) => {
                is_shaped_base(base)
                    && are_shaped_exprs(dims.as_slice())
                    && (!has_expr(dims.as_slice()) && 0 < *more)
                    && is_shaped_list(list)
            }
        },
    }
}

/// An operand of a level or tighter.
#[cycle(is_shaped_expr)]
pub fn is_operand(least: u8, expr: &Expr) -> bool
    ensures { result ≡ t.is_operand least (m.plain_expr expr.now) }
{
    fits(least, expr) && is_shaped_expr(expr)
}

#[cycle(is_shaped_expr)]
fn is_before_dot(expr: &Expr) -> bool
    ensures { result ≡ t.is_before_dot (m.plain_expr expr.now) }
{
    !is_name(expr) && is_operand(14, expr)
}

#[cycle(is_shaped_expr)]
fn is_shaped_receiver(receiver: &Receiver) -> bool
    ensures { result ≡ t.is_shaped_receiver (m.plain_receiver receiver.now) }
{
    match receiver {
        Receiver::Of { object } => is_before_dot(object.get()),
        Receiver::OfName { name } => is_shaped_name(name),
        Receiver::Super => true,
    }
}

#[cycle(is_shaped_expr)]
pub fn are_shaped_exprs(exprs: &[Expr]) -> bool
    ensures { result ≡ t.are_shaped_exprs (m.plain_exprs exprs.now) }
{
    let mut shaped = true;
    for expr in exprs {
        shaped = shaped && is_operand(0, expr);
    }
    shaped
}

#[cycle(is_shaped_expr)]
fn is_shaped_list(list: &InitList) -> bool
    ensures { result ≡ t.is_shaped_list (m.plain_list list.now) }
{
    are_shaped_inits(list.items.as_slice())
}

#[cycle(is_shaped_expr)]
pub fn is_shaped_init(init: &Init) -> bool
    ensures { result ≡ t.is_shaped_init (m.plain_init init.now) }
{
    match init {
        Init::Value { value } => is_operand(0, value),
        Init::List { list } => is_shaped_list(list),
    }
}

#[cycle(is_shaped_expr)]
fn are_shaped_inits(inits: &[Init]) -> bool
    ensures { result ≡ t.are_shaped_inits (m.plain_inits inits.now) }
{
    let mut shaped = true;
    for init in inits {
        shaped = shaped && is_shaped_init(init);
    }
    shaped
}

/// An expression that stands as a statement (JLS 14.8).
pub fn is_statement_expr(expr: &Expr) -> bool
    ensures { result ≡ t.is_statement_expr (m.plain_expr expr.now) }
{
    is_statement(expr) && is_shaped_expr(expr)
}

pub fn are_statement_exprs(exprs: &[Expr]) -> bool
    ensures { result ≡ t.are_statement_exprs (m.plain_exprs exprs.now) }
{
    let mut shaped = true;
    for expr in exprs {
        shaped = shaped && is_statement_expr(expr);
    }
    shaped
}
