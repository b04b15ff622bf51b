// Tokens of expressions.
ghost use Rattle.std.specs.Prelude.{◌≡◌, ◌++◌, OnOk};
ghost use Rattle.jr_base.specs.declared.kind.Keyword.TheVariants as k;
ghost use Rattle.jr_base.specs.declared.kind.Symbol.TheVariants as y;
ghost use Rattle.jr_tree.specs.Mirror.Exprs as m;
ghost use Rattle.jr_tree.specs.Tokens as e;
ghost use Rattle.jr_tree.specs.Words as t;

use crate::words::{
    brackets, ident, mark, mark_if, word, write_base, write_name, write_token, write_type,
};
use jr_base::{Keyword, Kind, OutOfMemory, Symbol, Text};
use jr_tree::{Base, Expr, Init, InitList, Name, Receiver, TypeUse};
use std::alloc::Global;

#[cycle(write_expr)]
pub fn write_expr(alloc: Global, out: &mut Vec<Kind>, expr: &Expr) -> Result<(), OutOfMemory>
    ensures { OnOk result (out.new.items ≡ out.old.items ++ e.expr_tokens (m.plain_expr expr.now)) }
{
    match expr {
        Expr::Assign { target, op, value } => {
            write_expr(alloc, out, target.get())?;
            write_behind(alloc, out, *op, value.get())
        }
        Expr::Cond { cond, yes, no } => {
            write_expr(alloc, out, cond.get())?;
            write_behind(alloc, out, Symbol::Question, yes.get())?;
            write_behind(alloc, out, Symbol::Colon, no.get())
        }
        Expr::Binary { left, op, right } => {
            write_expr(alloc, out, left.get())?;
            write_behind(alloc, out, *op, right.get())
        }
        Expr::IsA { value, ty } => {
            write_expr(alloc, out, value.get())?;
            write_tested_type(alloc, out, ty)
        }
        Expr::Unary { op, value } => write_behind(alloc, out, *op, value.get()),
        Expr::Cast { ty, value } => {
            write_cast_type(alloc, out, ty)?;
            write_expr(alloc, out, value.get())
        }
        Expr::PreStep { op, value } => write_behind(alloc, out, *op, value.get()),
        Expr::PostStep { value, op } => {
            write_expr(alloc, out, value.get())?;
            mark(out, *op)
        }
        Expr::Lit { kind } => write_literal(alloc, out, kind),
        Expr::This { name } => write_this(alloc, out, name),
        Expr::Paren { inner } => {
            write_behind(alloc, out, Symbol::OpenParen, inner.get())?;
            mark(out, Symbol::CloseParen)
        }
        Expr::NameExpr { name } => write_name(alloc, out, name),
        Expr::Select { object, name } => {
            write_expr(alloc, out, object.get())?;
            write_selected(alloc, out, name)
        }
        Expr::SuperSelect { name } => {
            word(out, Keyword::Super)?;
            write_selected(alloc, out, name)
        }
        Expr::Index { array, at } => {
            write_expr(alloc, out, array.get())?;
            write_behind(alloc, out, Symbol::OpenBracket, at.get())?;
            mark(out, Symbol::CloseBracket)
        }
        Expr::Call {
            receiver,
            name,
            args,
        } => {
            if let Some(receiver) = receiver {
                write_receiver(alloc, out, receiver)?;
                mark(out, Symbol::Dot)?;
            }
            ident(alloc, out, name)?;
            write_args(alloc, out, args.as_slice())
        }
        Expr::New { name, args } => {
            write_created(alloc, out, name)?;
            write_args(alloc, out, args.as_slice())
        }
        Expr::NewArray {
            base,
            dims,
            more,
            init,
        } => {
            write_element(alloc, out, base)?;
            write_dims(alloc, out, dims.as_slice())?;
            brackets(out, *more)?;
            match init {
                None => Ok(()),
                Some(list) => write_list(alloc, out, list),
            }
        }
    }
}

/// A symbol, and an expression behind it.
#[cycle(write_expr)]
fn write_behind(
    alloc: Global,
    out: &mut Vec<Kind>,
    symbol: Symbol,
    expr: &Expr,
) -> Result<(), OutOfMemory>
    ensures { OnOk result (out.new.items ≡ out.old.items ++ t.mark symbol ++ e.expr_tokens (m.plain_expr expr.now)) }
{
    mark(out, symbol)?;
    write_expr(alloc, out, expr)
}

fn write_literal(alloc: Global, out: &mut Vec<Kind>, kind: &Kind) -> Result<(), OutOfMemory>
    ensures { OnOk result (out.new.items ≡ out.old.items ++ e.expr_tokens (m.Lit kind.now)) }
{
    write_token(out, kind.copy(alloc)?)
}

fn write_this(alloc: Global, out: &mut Vec<Kind>, class: &Option<Name>) -> Result<(), OutOfMemory>
    ensures { OnOk result (out.new.items ≡ out.old.items ++ e.expr_tokens (m.This class.now)) }
{
    write_qualifier(alloc, out, class)?;
    word(out, Keyword::This)
}

/// The type of a test, behind its value.
fn write_tested_type(alloc: Global, out: &mut Vec<Kind>, ty: &TypeUse) -> Result<(), OutOfMemory>
    ensures { OnOk result (out.new.items ≡ out.old.items ++ t.word k.Instanceof ++ t.type_tokens ty.now) }
{
    word(out, Keyword::Instanceof)?;
    write_type(alloc, out, ty)
}

/// The type of a cast, in parentheses.
fn write_cast_type(alloc: Global, out: &mut Vec<Kind>, ty: &TypeUse) -> Result<(), OutOfMemory>
    ensures { OnOk result (out.new.items ≡ out.old.items ++ t.parens (t.type_tokens ty.now)) }
{
    mark(out, Symbol::OpenParen)?;
    write_type(alloc, out, ty)?;
    mark(out, Symbol::CloseParen)
}

/// A member's name, behind what it is selected from.
fn write_selected(alloc: Global, out: &mut Vec<Kind>, name: &Text) -> Result<(), OutOfMemory>
    ensures { OnOk result (out.new.items ≡ out.old.items ++ t.mark y.Dot ++ t.ident name.now) }
{
    mark(out, Symbol::Dot)?;
    ident(alloc, out, name)
}

/// The class of a new object.
fn write_created(alloc: Global, out: &mut Vec<Kind>, class: &Name) -> Result<(), OutOfMemory>
    ensures { OnOk result (out.new.items ≡ out.old.items ++ t.word k.New ++ t.name_tokens class.now) }
{
    word(out, Keyword::New)?;
    write_name(alloc, out, class)
}

/// The element type of a new array.
fn write_element(alloc: Global, out: &mut Vec<Kind>, base: &Base) -> Result<(), OutOfMemory>
    ensures { OnOk result (out.new.items ≡ out.old.items ++ t.word k.New ++ t.base_tokens base.now) }
{
    word(out, Keyword::New)?;
    write_base(alloc, out, base)
}

fn write_qualifier(
    alloc: Global,
    out: &mut Vec<Kind>,
    class: &Option<Name>,
) -> Result<(), OutOfMemory>
    ensures { OnOk result (out.new.items ≡ out.old.items ++ t.if_some (λ n. t.name_tokens n ++ t.mark y.Dot) class.now) }
{
    match class {
        None => Ok(()),
        Some(name) => {
            write_name(alloc, out, name)?;
            mark(out, Symbol::Dot)
        }
    }
}

#[cycle(write_expr)]
fn write_receiver(
    alloc: Global,
    out: &mut Vec<Kind>,
    receiver: &Receiver,
) -> Result<(), OutOfMemory>
    ensures { OnOk result (out.new.items ≡ out.old.items ++ e.receiver_tokens (m.plain_receiver receiver.now)) }
{
    match receiver {
        Receiver::Of { object } => write_expr(alloc, out, object.get()),
        Receiver::OfName { name } => write_name(alloc, out, name),
        Receiver::Super => word(out, Keyword::Super),
    }
}

/// Expressions with commas.
#[cycle(write_expr)]
pub fn write_exprs(alloc: Global, out: &mut Vec<Kind>, exprs: &[Expr]) -> Result<(), OutOfMemory>
    ensures { OnOk result (out.new.items ≡ out.old.items ++ e.exprs_tokens (m.plain_exprs exprs.now)) }
{
    if let [first, rest @ ..] = exprs {
        write_expr(alloc, out, first)?;
        for expr in rest {
            write_behind(alloc, out, Symbol::Comma, expr)?;
        }
    }
    Ok(())
}

#[cycle(write_expr)]
pub fn write_args(alloc: Global, out: &mut Vec<Kind>, args: &[Expr]) -> Result<(), OutOfMemory>
    ensures { OnOk result (out.new.items ≡ out.old.items ++ t.parens (e.exprs_tokens (m.plain_exprs args.now))) }
{
    mark(out, Symbol::OpenParen)?;
    write_exprs(alloc, out, args)?;
    mark(out, Symbol::CloseParen)
}

#[cycle(write_expr)]
fn write_dims(alloc: Global, out: &mut Vec<Kind>, dims: &[Expr]) -> Result<(), OutOfMemory>
    ensures { OnOk result (out.new.items ≡ out.old.items ++ e.dims_tokens (m.plain_exprs dims.now)) }
{
    for dim in dims {
        write_behind(alloc, out, Symbol::OpenBracket, dim)?;
        mark(out, Symbol::CloseBracket)?;
    }
    Ok(())
}

#[cycle(write_expr)]
pub fn write_init(alloc: Global, out: &mut Vec<Kind>, init: &Init) -> Result<(), OutOfMemory>
    ensures { OnOk result (out.new.items ≡ out.old.items ++ e.init_tokens (m.plain_init init.now)) }
{
    match init {
        Init::Value { value } => write_expr(alloc, out, value),
        Init::List { list } => write_list(alloc, out, list),
    }
}

#[cycle(write_expr)]
fn write_list(alloc: Global, out: &mut Vec<Kind>, list: &InitList) -> Result<(), OutOfMemory>
    ensures { OnOk result (out.new.items ≡ out.old.items ++ e.list_tokens (m.plain_list list.now)) }
{
    mark(out, Symbol::OpenBrace)?;
    write_inits(alloc, out, list.items.as_slice())?;
    mark_if(out, list.is_open_ended, Symbol::Comma)?;
    mark(out, Symbol::CloseBrace)
}

#[cycle(write_expr)]
fn write_inits(alloc: Global, out: &mut Vec<Kind>, inits: &[Init]) -> Result<(), OutOfMemory>
    ensures { OnOk result (out.new.items ≡ out.old.items ++ e.inits_tokens (m.plain_inits inits.now)) }
{
    if let [first, rest @ ..] = inits {
        write_init(alloc, out, first)?;
        for init in rest {
            mark(out, Symbol::Comma)?;
            write_init(alloc, out, init)?;
        }
    }
    Ok(())
}
