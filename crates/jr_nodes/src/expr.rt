// The search over expressions.
ghost use Rattle.std.specs.Prelude.{◌≡◌};
ghost use Rattle.jr_tree.specs.Mirror.Exprs as x;
ghost use Rattle.jr_tree.specs.Nodes as n;
ghost use Rattle.jr_nodes.specs.Progress.{go_on, progress};

use crate::node_ref::NodeRef;
use crate::search::{Search, step};
use crate::words::{in_any_name, in_base, in_name, in_type};
use jr_tree::{Expr, Init, InitList, Receiver};

#[cycle(in_expr)]
pub fn in_expr<'a>(state: Search<'a>, expr: &'a Expr) -> Search<'a>
    ensures { progress result ≡ go_on (n.expr_nodes (x.plain_expr expr.now)) (progress state.entry) }
{
    let state = step(state, NodeRef::Expr(expr));
    match expr {
        Expr::Assign { target, value, .. } => in_expr(in_expr(state, target.get()), value.get()),
        Expr::Cond { cond, yes, no } => {
            let state = in_expr(in_expr(state, cond.get()), yes.get());
            in_expr(state, no.get())
        }
        Expr::Binary { left, right, .. } => in_expr(in_expr(state, left.get()), right.get()),
        Expr::IsA { value, ty } => in_type(in_expr(state, value.get()), ty),
        Expr::Unary { value, .. } => in_expr(state, value.get()),
        Expr::Cast { ty, value } => in_expr(in_type(state, ty), value.get()),
        Expr::PreStep { value, .. } => in_expr(state, value.get()),
        Expr::PostStep { value, .. } => in_expr(state, value.get()),
        Expr::Lit { .. } => state,
        Expr::This { name } => in_any_name(state, name),
        Expr::Paren { inner } => in_expr(state, inner.get()),
        Expr::NameExpr { name } => in_name(state, name),
        Expr::Select { object, .. } => in_expr(state, object.get()),
        Expr::SuperSelect { .. } => state,
        Expr::Index { array, at } => in_expr(in_expr(state, array.get()), at.get()),
        Expr::Call { receiver, args, .. } => match receiver {
            None => in_exprs(state, args.as_slice()),
            Some(receiver) => in_exprs(in_receiver(state, receiver), args.as_slice()),
        },
        Expr::New { name, args } => in_exprs(in_name(state, name), args.as_slice()),
        Expr::NewArray {
            base,
            dims,
            init,
            ..
        } => {
            let state = in_exprs(in_base(state, base), dims.as_slice());
            match init {
                None => state,
                Some(list) => in_list(state, list),
            }
        }
    }
}

#[cycle(in_expr)]
pub fn in_exprs<'a>(mut state: Search<'a>, exprs: &'a [Expr]) -> Search<'a>
    ensures { progress result ≡ go_on (n.exprs_nodes (x.plain_exprs exprs.now)) (progress state.entry) }
{
    for expr in exprs {
        state = in_expr(state, expr);
    }
    state
}

#[cycle(in_expr)]
fn in_receiver<'a>(state: Search<'a>, receiver: &'a Receiver) -> Search<'a>
    ensures { progress result ≡ go_on (n.receiver_nodes (x.plain_receiver receiver.now)) (progress state.entry) }
{
    let state = step(state, NodeRef::Receiver(receiver));
    match receiver {
        Receiver::Of { object } => in_expr(state, object.get()),
        Receiver::OfName { name } => in_name(state, name),
        Receiver::Super => state,
    }
}

#[cycle(in_expr)]
fn in_list<'a>(state: Search<'a>, list: &'a InitList) -> Search<'a>
    ensures { progress result ≡ go_on (n.list_nodes (x.plain_list list.now)) (progress state.entry) }
{
    in_inits(step(state, NodeRef::InitList(list)), list.items.as_slice())
}

#[cycle(in_expr)]
pub fn in_init<'a>(state: Search<'a>, init: &'a Init) -> Search<'a>
    ensures { progress result ≡ go_on (n.init_nodes (x.plain_init init.now)) (progress state.entry) }
{
    match init {
        Init::Value { value } => in_expr(step(state, NodeRef::Init(init)), value),
        Init::List { list } => in_list(state, list),
    }
}

#[cycle(in_expr)]
fn in_inits<'a>(mut state: Search<'a>, inits: &'a [Init]) -> Search<'a>
    ensures { progress result ≡ go_on (n.inits_nodes (x.plain_inits inits.now)) (progress state.entry) }
{
    for init in inits {
        state = in_init(state, init);
    }
    state
}
