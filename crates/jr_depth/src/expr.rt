// Depth of expressions.
ghost use Rattle.std.specs.Prelude.{◌≡◌};
ghost use Rattle.jr_tree.specs.Mirror.Exprs as m;
ghost use Rattle.jr_depth.specs.Within as t;

use jr_tree::{Expr, Init, InitList, Receiver};

#[cycle(is_expr_within)]
pub fn is_expr_within(most: usize, expr: &Expr) -> bool
    ensures { result ≡ t.expr_within most (m.plain_expr expr.now) }
{
    0 < most && are_parts_within(most - 1, expr)
}

#[cycle(is_expr_within)]
fn are_parts_within(most: usize, expr: &Expr) -> bool
    ensures { result ≡ t.expr_parts_within most (m.plain_expr expr.now) }
{
    match expr {
        Expr::Assign { target, value, .. } => {
            is_expr_within(most, target.get()) && is_expr_within(most, value.get())
        }
        Expr::Cond { cond, yes, no } => {
            is_expr_within(most, cond.get())
                && is_expr_within(most, yes.get())
                && is_expr_within(most, no.get())
        }
        Expr::Binary { left, right, .. } => {
            is_expr_within(most, left.get()) && is_expr_within(most, right.get())
        }
        Expr::IsA { value, .. }
        | Expr::Unary { value, .. }
        | Expr::Cast { value, .. }
        | Expr::PreStep { value, .. }
        | Expr::PostStep { value, .. } => is_expr_within(most, value.get()),
        Expr::Paren { inner } => is_expr_within(most, inner.get()),
        Expr::Lit { .. } | Expr::This { .. } | Expr::NameExpr { .. } | Expr::SuperSelect { .. } =>
            true,
        Expr::Select { object, .. } => is_expr_within(most, object.get()),
        Expr::Index { array, at } => {
            is_expr_within(most, array.get()) && is_expr_within(most, at.get())
        }
        Expr::Call { receiver, args, .. } => match receiver {
            None => are_exprs_within(most, args.as_slice()),
            Some(receiver) => {
                are_exprs_within(most, args.as_slice()) && is_receiver_within(most, receiver)
            }
        },
        Expr::New { args, .. } => are_exprs_within(most, args.as_slice()),
        Expr::NewArray { dims, init, .. } => match init {
            None => are_exprs_within(most, dims.as_slice()),
            Some(list) => are_exprs_within(most, dims.as_slice()) && is_list_within(most, list),
        },
    }
}

#[cycle(is_expr_within)]
fn is_receiver_within(most: usize, receiver: &Receiver) -> bool
    ensures { result ≡ t.receiver_within most (m.plain_receiver receiver.now) }
{
    match receiver {
        Receiver::Of { object } => is_expr_within(most, object.get()),
        Receiver::OfName { .. } | Receiver::Super => true,
    }
}

#[cycle(is_expr_within)]
pub fn are_exprs_within(most: usize, exprs: &[Expr]) -> bool
    ensures { result ≡ t.exprs_within most (m.plain_exprs exprs.now) }
{
    let mut within = true;
    for expr in exprs {
        within = within && is_expr_within(most, expr);
    }
    within
}

#[cycle(is_expr_within)]
fn is_list_within(most: usize, list: &InitList) -> bool
    ensures { result ≡ t.list_within most (m.plain_list list.now) }
{
    0 < most && are_inits_within(most - 1, list.items.as_slice())
}

#[cycle(is_expr_within)]
pub fn is_init_within(most: usize, init: &Init) -> bool
    ensures { result ≡ t.init_within most (m.plain_init init.now) }
{
    match init {
        Init::Value { value } => is_expr_within(most, value),
        Init::List { list } => is_list_within(most, list),
    }
}

#[cycle(is_expr_within)]
fn are_inits_within(most: usize, inits: &[Init]) -> bool
    ensures { result ≡ t.inits_within most (m.plain_inits inits.now) }
{
    let mut within = true;
    for init in inits {
        within = within && is_init_within(most, init);
    }
    within
}
