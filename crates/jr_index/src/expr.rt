// The labels of expressions (JLS 15).
ghost use Rattle.std.specs.Prelude.{◌≡◌, IfOk};
ghost use Rattle.std.specs.Option.{option_map};
ghost use Rattle.jr_tree.specs.Mirror.Exprs as m;
ghost use Rattle.jr_index.specs.Events as e;
ghost use Rattle.jr_index.specs.Writing.{Adds};
ghost use Rattle.jr_tree.specs.Exprs as l;
ghost use Rattle.jr_tree.specs.declared.label.Label.TheVariants as is;

use crate::words::{add_base, add_name, add_type, add_type_name, primitive_of};
use crate::writer::RowWriter;
use jr_base::{Boxed, Kind, OutOfMemory};
use jr_tree::{
    Base, Expr, Init, InitList, Label, Name, NameKind, NamePlace, Receiver, ReceiverKind,
};
use std::alloc::Global;

#[cycle(add_expr)]
pub fn add_expr(out: &mut RowWriter, expr: &Expr)
    ensures { Adds out.old out.new (e.expr_events (m.plain_expr expr.now)) }
{
    match expr {
        Expr::Assign { target, op, value } => {
            out.begin(Label::Assign { op: *op });
            add_expr(out, target.get());
            out.pass(1);
            add_expr(out, value.get());
            out.close();
        }
        Expr::Cond { cond, yes, no } => {
            out.begin(Label::Conditional);
            add_expr(out, cond.get());
            out.pass(1);
            add_expr(out, yes.get());
            out.pass(1);
            add_expr(out, no.get());
            out.close();
        }
        Expr::Binary { left, op, right } => {
            out.begin(Label::Binary { op: *op });
            add_expr(out, left.get());
            out.pass(1);
            add_expr(out, right.get());
            out.close();
        }
        Expr::IsA { value, ty } => {
            out.begin(Label::IsA);
            add_expr(out, value.get());
            out.pass(1);
            add_type(out, ty);
            out.close();
        }
        Expr::Unary { op, value } => {
            out.begin(Label::Unary { op: *op });
            out.pass(1);
            add_expr(out, value.get());
            out.close();
        }
        Expr::Cast { ty, value } => {
            out.begin(Label::Cast);
            out.pass(1);
            add_type(out, ty);
            out.pass(1);
            add_expr(out, value.get());
            out.close();
        }
        Expr::PreStep { op, value } => {
            out.begin(Label::PreStep { op: *op });
            out.pass(1);
            add_expr(out, value.get());
            out.close();
        }
        Expr::PostStep { value, op } => {
            out.begin(Label::PostStep { op: *op });
            add_expr(out, value.get());
            out.pass(1);
            out.close();
        }
        Expr::Lit { kind } => add_literal(out, kind),
        Expr::This { name } => add_this(out, name),
        Expr::Paren { inner } => {
            out.begin(Label::Paren);
            out.pass(1);
            add_expr(out, inner.get());
            out.pass(1);
            out.close();
        }
        Expr::NameExpr { name } => add_name(out, NameKind::Variable, NamePlace::Expression, name),
        Expr::Select { object, name } => {
            out.open(Label::Select, name);
            add_expr(out, object.get());
            out.pass(1);
            out.own();
            out.close();
        }
        Expr::SuperSelect { name } => {
            out.open(Label::SuperSelect, name);
            out.pass(2);
            out.own();
            out.close();
        }
        Expr::Index { array, at } => {
            out.begin(Label::Index);
            add_expr(out, array.get());
            out.pass(1);
            add_expr(out, at.get());
            out.pass(1);
            out.close();
        }
        Expr::Call {
            receiver,
            name,
            args,
        } => {
            out.open(call_label(receiver), name);
            add_any_receiver(out, receiver);
            out.own();
            add_args(out, args.as_slice());
            out.close();
        }
        Expr::New { name, args } => {
            out.begin(Label::New);
            out.pass(1);
            add_type_name(out, name);
            out.own_last();
            add_args(out, args.as_slice());
            out.close();
        }
        Expr::NewArray {
            base,
            dims,
            more,
            init,
        } => {
            out.begin(array_label(base, dims.as_slice(), *more));
            out.pass(1);
            add_base(out, base);
            add_lengths(out, dims.as_slice());
            out.pass_brackets(*more);
            add_any_list(out, init);
            out.close();
        }
    }
}

// The token of a literal, in a box of its own.
fn boxed(alloc: Global, kind: &Kind) -> Result<Boxed<Kind>, OutOfMemory>
    ensures { IfOk result (λ own. own ≡ kind.now) }
{
    Ok(Boxed::new(alloc, kind.copy(alloc)?)?)
}

fn add_literal(out: &mut RowWriter, kind: &Kind)
    ensures { Adds out.old out.new (e.leaf (is.Literal kind.now) 1) }
{
    match boxed(out.alloc, kind) {
        Ok(kind) => out.leaf(Label::Literal { kind }, 1),
        Err(_) => out.fail(),
    }
}

fn add_this(out: &mut RowWriter, class: &Option<Name>)
    ensures { Adds out.old out.new (e.this_events class.now) }
{
    match class {
        None => out.leaf(
            Label::This {
                is_qualified: false,
            },
            1,
        ),
        Some(name) => {
            out.begin(Label::This { is_qualified: true });
            add_type_name(out, name);
            out.pass(2);
            out.close();
        }
    }
}

/// The label of a creation of an array with these lengths and so many more pairs of brackets.
#[tactic(auto, using(crate::proofs::Counting::count_all))]
fn array_label(base: &Base, lengths: &[Expr], more: usize) -> Label
    ensures { result ≡ is.NewArray (l.primitive_of base.now) (l.count (m.plain_exprs lengths.now)) more }
{
    Label::NewArray {
        primitive: primitive_of(base),
        lengths: lengths.len(),
        more,
    }
}

/// The label of a call with this receiver.
fn call_label(receiver: &Option<Receiver>) -> Label
    ensures { result ≡ e.call_label (m.plain_any_receiver receiver.now) }
{
    match receiver {
        None => Label::Call {
            receiver: ReceiverKind::Absent,
        },
        Some(Receiver::Of { .. }) => Label::Call {
            receiver: ReceiverKind::Expression,
        },
        Some(Receiver::OfName { .. }) => Label::Call {
            receiver: ReceiverKind::Name,
        },
        Some(Receiver::Super) => Label::Call {
            receiver: ReceiverKind::Super,
        },
    }
}

/// A receiver and its dot.
#[cycle(add_expr)]
fn add_any_receiver(out: &mut RowWriter, receiver: &Option<Receiver>)
    ensures { Adds out.old out.new (e.any_receiver_events (m.plain_any_receiver receiver.now)) }
{
    match receiver {
        None => (),
        Some(receiver) => {
            add_receiver(out, receiver);
            out.pass(1);
        }
    }
}

#[cycle(add_expr)]
fn add_receiver(out: &mut RowWriter, receiver: &Receiver)
    ensures { Adds out.old out.new (e.receiver_events (m.plain_receiver receiver.now)) }
{
    match receiver {
        Receiver::Of { object } => add_expr(out, object.get()),
        Receiver::OfName { name } => {
            add_name(out, NameKind::Ambiguous, NamePlace::Receiver, name)
        }
        Receiver::Super => out.pass(1),
    }
}

/// Expressions with commas between them.
#[cycle(add_expr)]
pub fn add_exprs(out: &mut RowWriter, exprs: &[Expr])
    ensures { Adds out.old out.new (e.exprs_events 0 (m.plain_exprs exprs.now)) }
{
    let mut commas = 0;
    for expr in exprs {
        out.pass(commas);
        add_expr(out, expr);
        commas = 1;
    }
}

/// Arguments in parentheses.
#[cycle(add_expr)]
pub fn add_args(out: &mut RowWriter, args: &[Expr])
    ensures { Adds out.old out.new (e.args_events (m.plain_exprs args.now)) }
{
    out.pass(1);
    add_exprs(out, args);
    out.pass(1);
}

/// Lengths of an array, each in brackets.
#[cycle(add_expr)]
fn add_lengths(out: &mut RowWriter, lengths: &[Expr])
    ensures { Adds out.old out.new (e.lengths_events (m.plain_exprs lengths.now)) }
{
    for size in lengths {
        out.pass(1);
        add_expr(out, size);
        out.pass(1);
    }
}

#[cycle(add_expr)]
fn add_any_list(out: &mut RowWriter, list: &Option<InitList>)
    ensures { Adds out.old out.new (e.any_list_events (m.plain_any_list list.now)) }
{
    match list {
        None => (),
        Some(list) => add_list(out, list),
    }
}

#[cycle(add_expr)]
fn add_list(out: &mut RowWriter, list: &InitList)
    ensures { Adds out.old out.new (e.list_events (m.plain_list list.now)) }
{
    out.begin(Label::List);
    out.pass(1);
    add_inits(out, list.items.as_slice());
    out.pass_if(list.is_open_ended);
    out.pass(1);
    out.close();
}

#[cycle(add_expr)]
pub fn add_init(out: &mut RowWriter, init: &Init)
    ensures { Adds out.old out.new (e.init_events (m.plain_init init.now)) }
{
    match init {
        Init::Value { value } => {
            out.begin(Label::Value);
            add_expr(out, value);
            out.close();
        }
        Init::List { list } => add_list(out, list),
    }
}

#[cycle(add_expr)]
fn add_inits(out: &mut RowWriter, inits: &[Init])
    ensures { Adds out.old out.new (e.inits_events 0 (m.plain_inits inits.now)) }
{
    let mut commas = 0;
    for init in inits {
        out.pass(commas);
        add_init(out, init);
        commas = 1;
    }
}

/// An initializer and the `=` before it.
pub fn add_any_init(out: &mut RowWriter, init: &Option<Init>)
    ensures { Adds out.old out.new (e.any_init_events (option_map m.plain_init init.now)) }
{
    if let Some(init) = init {
        out.pass(1);
        add_init(out, init);
    }
}

pub fn add_any_expr(out: &mut RowWriter, expr: &Option<Expr>)
    ensures { Adds out.old out.new (e.if_some e.expr_events (option_map m.plain_expr expr.now)) }
{
    if let Some(expr) = expr {
        add_expr(out, expr);
    }
}
