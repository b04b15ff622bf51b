// Tests of the outermost form of an expression or a statement.
ghost use Rattle.std.specs.Prelude.{◌≡◌};
ghost use Rattle.jr_tree.specs.Mirror.Exprs as m;
ghost use Rattle.jr_tree.specs.Mirror.Stmts as n;
ghost use Rattle.jr_tree.specs.Shape as s;
ghost use Rattle.jr_shape.specs.Exprs as t;

use crate::levels::{binary_level, is_least_kind, is_sign};
use jr_tree::{Base, Catch, Expr, Stmt};

/// How tightly an expression binds, from 0 for an assignment to 14.
pub fn level(expr: &Expr) -> u8
    ensures { result ≡ s.level (m.plain_expr expr.now) }
{
    match expr {
        Expr::Assign { .. } => 0,
        Expr::Cond { .. } => 1,
        Expr::Binary { op, .. } => binary_level(*op),
        Expr::IsA { .. } => 8,
        Expr::Unary { .. } | Expr::Cast { .. } | Expr::PreStep { .. } => 12,
        Expr::PostStep { .. } => 13,
        _ => 14,
    }
}

pub fn is_least(expr: &Expr) -> bool
    ensures { result ≡ s.is_least (m.plain_expr expr.now) }
{
    match expr {
        Expr::Lit { kind } => is_least_kind(kind),
        _ => false,
    }
}

/// Whether an expression is of a level or tighter, and no number that wants a minus.
pub fn fits(least: u8, expr: &Expr) -> bool
    ensures { result ≡ t.fits least (m.plain_expr expr.now) }
{
    least <= level(expr) && !is_least(expr)
}

/// What an assignment can assign to (JLS 15.26).
pub fn is_target(expr: &Expr) -> bool
    ensures { result ≡ s.is_target (m.plain_expr expr.now) }
{
    match expr {
        Expr::NameExpr { .. }
        | Expr::Select { .. }
        | Expr::SuperSelect { .. }
        | Expr::Index { .. } => true,
        _ => false,
    }
}

/// What can stand as a statement (JLS 14.8).
pub fn is_statement(expr: &Expr) -> bool
    ensures { result ≡ s.is_statement (m.plain_expr expr.now) }
{
    match expr {
        Expr::Assign { .. }
        | Expr::PreStep { .. }
        | Expr::PostStep { .. }
        | Expr::Call { .. }
        | Expr::New { .. } => true,
        _ => false,
    }
}

/// What a cast to a name cannot take (JLS 15.16).
pub fn is_signed(expr: &Expr) -> bool
    ensures { result ≡ s.is_signed (m.plain_expr expr.now) }
{
    match expr {
        Expr::Unary { op, .. } => is_sign(*op),
        Expr::PreStep { .. } => true,
        _ => false,
    }
}

pub fn is_name(expr: &Expr) -> bool
    ensures { result ≡ s.is_name (m.plain_expr expr.now) }
{
    match expr {
        Expr::NameExpr { .. } => true,
        _ => false,
    }
}

pub fn is_new_array(expr: &Expr) -> bool
    ensures { result ≡ s.is_new_array (m.plain_expr expr.now) }
{
    match expr {
        Expr::NewArray { .. } => true,
        _ => false,
    }
}

pub fn is_named(base: &Base) -> bool
    ensures { result ≡ s.is_named base.now }
{
    match base {
        Base::Primitive(_) => false,
        Base::Named(_) => true,
    }
}

#[tactic(auto, using(crate::proofs::Empty::has_expr_plain))]
pub fn has_expr(exprs: &[Expr]) -> bool
    ensures { result ≡ s.has_expr (m.plain_exprs exprs.now) }
{
    !exprs.is_empty()
}

#[tactic(auto, using(crate::proofs::Empty::has_stmt_plain))]
pub fn has_stmt(stmts: &[Stmt]) -> bool
    ensures { result ≡ s.has_stmt (n.plain_stmts stmts.now) }
{
    !stmts.is_empty()
}

#[tactic(auto, using(crate::proofs::Empty::has_catch_plain))]
pub fn has_catch(catches: &[Catch]) -> bool
    ensures { result ≡ s.has_catch (n.plain_catches catches.now) }
{
    !catches.is_empty()
}

/// A declaration of locals stands directly in a block or a group (JLS 14.4).
pub fn is_local(stmt: &Stmt) -> bool
    ensures { result ≡ s.is_local (n.plain_stmt stmt.now) }
{
    match stmt {
        Stmt::Local { .. } => true,
        _ => false,
    }
}

/// Whether an `else` after the statement would belong to an `if` in it (JLS 14.5).
pub fn takes_else(stmt: &Stmt) -> bool
    ensures { result ≡ s.takes_else (n.plain_stmt stmt.now) }
{
    match stmt {
        Stmt::While { body, .. } | Stmt::For { body, .. } | Stmt::Labeled { body, .. } => {
            takes_else(body.get())
        }
        Stmt::If { no, .. } => match no {
            None => true,
            Some(no) => takes_else(no.get()),
        },
        _ => false,
    }
}
