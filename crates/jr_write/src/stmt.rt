// Tokens of statements.
ghost use Rattle.std.specs.Prelude.{◌≡◌, ◌++◌, OnOk};
ghost use Rattle.std.specs.Option.{option_map};
ghost use Rattle.jr_base.specs.declared.kind.Symbol.TheVariants as y;
ghost use Rattle.jr_tree.specs.Mirror.Exprs as x;
ghost use Rattle.jr_tree.specs.Mirror.Stmts as m;
ghost use Rattle.jr_tree.specs.Tokens as s;
ghost use Rattle.jr_tree.specs.Words as t;

use crate::expr::{write_expr, write_exprs, write_init};
use crate::simple::{
    write_ctor_call, write_eval, write_jump, write_local, write_return, write_throw,
};
use crate::words::{brackets, ident, mark, word, word_if, write_param, write_type};
use jr_base::{Keyword, Kind, OutOfMemory, Symbol, Text};
use jr_tree::{Block, Catch, Declarator, Expr, ForInit, Group, Stmt, SwitchLabel, TypeUse};
use std::alloc::Global;

fn write_declarator(
    alloc: Global,
    out: &mut Vec<Kind>,
    declarator: &Declarator,
) -> Result<(), OutOfMemory>
    ensures { OnOk result (out.new.items ≡ out.old.items ++ s.declarator_tokens (m.plain_declarator declarator.now)) }
{
    ident(alloc, out, &declarator.name)?;
    brackets(out, declarator.dims)?;
    match &declarator.init {
        None => Ok(()),
        Some(init) => {
            mark(out, Symbol::Assign)?;
            write_init(alloc, out, init)
        }
    }
}

pub fn write_declarators(
    alloc: Global,
    out: &mut Vec<Kind>,
    decls: &[Declarator],
) -> Result<(), OutOfMemory>
    ensures { OnOk result (out.new.items ≡ out.old.items ++ s.declarators_tokens (m.plain_declarators decls.now)) }
{
    if let [first, rest @ ..] = decls {
        write_declarator(alloc, out, first)?;
        for decl in rest {
            mark(out, Symbol::Comma)?;
            write_declarator(alloc, out, decl)?;
        }
    }
    Ok(())
}

pub fn write_locals(
    alloc: Global,
    out: &mut Vec<Kind>,
    is_final: bool,
    ty: &TypeUse,
    decls: &[Declarator],
) -> Result<(), OutOfMemory>
    ensures { OnOk result (out.new.items ≡ out.old.items ++ s.locals_tokens is_final ty.now (m.plain_declarators decls.now)) }
{
    word_if(out, is_final, Keyword::Final)?;
    write_type(alloc, out, ty)?;
    write_declarators(alloc, out, decls)
}

fn write_for_init(
    alloc: Global,
    out: &mut Vec<Kind>,
    first: &Option<ForInit>,
) -> Result<(), OutOfMemory>
    ensures { OnOk result (out.new.items ≡ out.old.items ++ t.if_some s.for_init_tokens (option_map m.plain_for first.now)) }
{
    match first {
        None => Ok(()),
        Some(
            ForInit::Locals {
                is_final,
                ty,
                decls,
            },
        ) => write_locals(alloc, out, *is_final, ty, decls.as_slice()),
        Some(ForInit::Exprs { exprs }) => write_exprs(alloc, out, exprs.as_slice()),
    }
}

fn write_labels(
    alloc: Global,
    out: &mut Vec<Kind>,
    labels: &[SwitchLabel],
) -> Result<(), OutOfMemory>
    ensures { OnOk result (out.new.items ≡ out.old.items ++ s.labels_tokens (m.plain_labels labels.now)) }
{
    for label in labels {
        write_label(alloc, out, label)?;
    }
    Ok(())
}

fn write_label(alloc: Global, out: &mut Vec<Kind>, label: &SwitchLabel) -> Result<(), OutOfMemory>
    ensures { OnOk result (out.new.items ≡ out.old.items ++ s.label_tokens (m.plain_label label.now)) }
{
    match label {
        SwitchLabel::Case { value } => {
            word(out, Keyword::Case)?;
            write_expr(alloc, out, value)?;
            mark(out, Symbol::Colon)
        }
        SwitchLabel::Default => {
            word(out, Keyword::Default)?;
            mark(out, Symbol::Colon)
        }
    }
}

/// A condition in parentheses.
fn write_cond(alloc: Global, out: &mut Vec<Kind>, cond: &Expr) -> Result<(), OutOfMemory>
    ensures { OnOk result (out.new.items ≡ out.old.items ++ s.cond_tokens (x.plain_expr cond.now)) }
{
    mark(out, Symbol::OpenParen)?;
    write_expr(alloc, out, cond)?;
    mark(out, Symbol::CloseParen)
}

pub fn write_value(
    alloc: Global,
    out: &mut Vec<Kind>,
    value: &Option<Expr>,
) -> Result<(), OutOfMemory>
    ensures { OnOk result (out.new.items ≡ out.old.items ++ t.if_some s.expr_tokens (option_map x.plain_expr value.now)) }
{
    match value {
        None => Ok(()),
        Some(value) => write_expr(alloc, out, value),
    }
}

pub fn write_target(
    alloc: Global,
    out: &mut Vec<Kind>,
    label: &Option<Text>,
) -> Result<(), OutOfMemory>
    ensures { OnOk result (out.new.items ≡ out.old.items ++ t.if_some t.ident label.now) }
{
    match label {
        None => Ok(()),
        Some(label) => ident(alloc, out, label),
    }
}

/// What stands before the body of a `for`.
fn write_header(
    alloc: Global,
    out: &mut Vec<Kind>,
    first: &Option<ForInit>,
    cond: &Option<Expr>,
    update: &[Expr],
) -> Result<(), OutOfMemory>
    ensures { OnOk result (out.new.items ≡ out.old.items ++ s.header_tokens (option_map m.plain_for first.now) (option_map x.plain_expr cond.now) (x.plain_exprs update.now)) }
{
    word(out, Keyword::For)?;
    mark(out, Symbol::OpenParen)?;
    write_for_init(alloc, out, first)?;
    mark(out, Symbol::Semicolon)?;
    write_value(alloc, out, cond)?;
    mark(out, Symbol::Semicolon)?;
    write_exprs(alloc, out, update)?;
    mark(out, Symbol::CloseParen)
}

/// A word and a condition in parentheses.
fn write_headed(
    alloc: Global,
    out: &mut Vec<Kind>,
    keyword: Keyword,
    cond: &Expr,
) -> Result<(), OutOfMemory>
    ensures { OnOk result (out.new.items ≡ out.old.items ++ t.word keyword ++ s.cond_tokens (x.plain_expr cond.now)) }
{
    word(out, keyword)?;
    write_cond(alloc, out, cond)
}

/// A label and its colon.
fn write_colon_behind(alloc: Global, out: &mut Vec<Kind>, label: &Text) -> Result<(), OutOfMemory>
    ensures { OnOk result (out.new.items ≡ out.old.items ++ t.ident label.now ++ t.mark y.Colon) }
{
    ident(alloc, out, label)?;
    mark(out, Symbol::Colon)
}

#[cycle(write_stmt)]
pub fn write_stmt(alloc: Global, out: &mut Vec<Kind>, stmt: &Stmt) -> Result<(), OutOfMemory>
    ensures { OnOk result (out.new.items ≡ out.old.items ++ s.stmt_tokens (m.plain_stmt stmt.now)) }
{
    match stmt {
        Stmt::Nest { block } => write_block(alloc, out, block),
        Stmt::Local {
            is_final,
            ty,
            decls,
        } => write_local(alloc, out, *is_final, ty, decls),
        Stmt::Skip => mark(out, Symbol::Semicolon),
        Stmt::Do { body, cond } => {
            word(out, Keyword::Do)?;
            write_stmt(alloc, out, body.get())?;
            write_headed(alloc, out, Keyword::While, cond)?;
            mark(out, Symbol::Semicolon)
        }
        Stmt::While { cond, body } => {
            write_headed(alloc, out, Keyword::While, cond)?;
            write_stmt(alloc, out, body.get())
        }
        Stmt::If { cond, yes, no } => {
            write_headed(alloc, out, Keyword::If, cond)?;
            write_stmt(alloc, out, yes.get())?;
            match no {
                None => Ok(()),
                Some(no) => {
                    word(out, Keyword::Else)?;
                    write_stmt(alloc, out, no.get())
                }
            }
        }
        Stmt::Eval { value } => write_eval(alloc, out, value),
        Stmt::For {
            first,
            cond,
            update,
            body,
        } => {
            write_header(alloc, out, first, cond, update.as_slice())?;
            write_stmt(alloc, out, body.get())
        }
        Stmt::Switch { value, groups } => {
            write_headed(alloc, out, Keyword::Switch, value)?;
            write_groups(alloc, out, groups.as_slice())
        }
        Stmt::Labeled { label, body } => {
            write_colon_behind(alloc, out, label)?;
            write_stmt(alloc, out, body.get())
        }
        Stmt::Break { label } => write_jump(alloc, out, Keyword::Break, label),
        Stmt::Continue { label } => write_jump(alloc, out, Keyword::Continue, label),
        Stmt::Return { value } => write_return(alloc, out, value),
        Stmt::Throw { value } => write_throw(alloc, out, value),
        Stmt::Try {
            body,
            catches,
            last,
        } => {
            word(out, Keyword::Try)?;
            write_block(alloc, out, body)?;
            write_catches(alloc, out, catches.as_slice())?;
            match last {
                None => Ok(()),
                Some(last) => {
                    word(out, Keyword::Finally)?;
                    write_block(alloc, out, last)
                }
            }
        }
        Stmt::CtorCall { which, args } => write_ctor_call(alloc, out, *which, args),
    }
}

#[cycle(write_stmt)]
pub fn write_block(alloc: Global, out: &mut Vec<Kind>, block: &Block) -> Result<(), OutOfMemory>
    ensures { OnOk result (out.new.items ≡ out.old.items ++ s.block_tokens (m.plain_block block.now)) }
{
    mark(out, Symbol::OpenBrace)?;
    write_stmts(alloc, out, block.stmts.as_slice())?;
    mark(out, Symbol::CloseBrace)
}

#[cycle(write_stmt)]
pub fn write_stmts(alloc: Global, out: &mut Vec<Kind>, stmts: &[Stmt]) -> Result<(), OutOfMemory>
    ensures { OnOk result (out.new.items ≡ out.old.items ++ s.stmts_tokens (m.plain_stmts stmts.now)) }
{
    for stmt in stmts {
        write_stmt(alloc, out, stmt)?;
    }
    Ok(())
}

/// Groups in braces.
#[cycle(write_stmt)]
fn write_groups(alloc: Global, out: &mut Vec<Kind>, groups: &[Group]) -> Result<(), OutOfMemory>
    ensures { OnOk result (out.new.items ≡ out.old.items ++ t.in_braces (s.groups_tokens (m.plain_groups groups.now))) }
{
    mark(out, Symbol::OpenBrace)?;
    for group in groups {
        write_group(alloc, out, group)?;
    }
    mark(out, Symbol::CloseBrace)
}

#[cycle(write_stmt)]
fn write_group(alloc: Global, out: &mut Vec<Kind>, group: &Group) -> Result<(), OutOfMemory>
    ensures { OnOk result (out.new.items ≡ out.old.items ++ s.group_tokens (m.plain_group group.now)) }
{
    write_labels(alloc, out, group.labels.as_slice())?;
    write_stmts(alloc, out, group.stmts.as_slice())
}

#[cycle(write_stmt)]
fn write_catches(alloc: Global, out: &mut Vec<Kind>, catches: &[Catch]) -> Result<(), OutOfMemory>
    ensures { OnOk result (out.new.items ≡ out.old.items ++ s.catches_tokens (m.plain_catches catches.now)) }
{
    for catch in catches {
        write_catch(alloc, out, catch)?;
    }
    Ok(())
}

#[cycle(write_stmt)]
fn write_catch(alloc: Global, out: &mut Vec<Kind>, catch: &Catch) -> Result<(), OutOfMemory>
    ensures { OnOk result (out.new.items ≡ out.old.items ++ s.catch_tokens (m.plain_catch catch.now)) }
{
    word(out, Keyword::Catch)?;
    mark(out, Symbol::OpenParen)?;
    write_param(alloc, out, &catch.param)?;
    mark(out, Symbol::CloseParen)?;
    write_block(alloc, out, &catch.body)
}
