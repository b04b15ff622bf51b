// Tests of statements.
ghost use Rattle.std.specs.Prelude.{◌≡◌, true, false, not};
ghost use Rattle.std.specs.Option.{option_map, option_map_or};
ghost use Rattle.jr_tree.specs.Mirror.Exprs as x;
ghost use Rattle.jr_tree.specs.Mirror.Stmts as m;
ghost use Rattle.jr_tree.specs.Shape as s;
ghost use Rattle.jr_shape.specs.Exprs as e;
ghost use Rattle.jr_shape.specs.Stmts as t;

use crate::expr::{
    are_shaped_exprs, are_statement_exprs, is_operand, is_shaped_init, is_statement_expr,
};
use crate::form::{has_catch, has_expr, has_stmt, is_local, takes_else};
use crate::parts::{is_shaped_param, is_shaped_type};
use jr_tree::{Block, Catch, Declarator, Expr, ForInit, Group, Stmt, SwitchLabel, TypeUse};

fn is_shaped_declarator(declarator: &Declarator) -> bool
    ensures { result ≡ t.is_shaped_declarator (m.plain_declarator declarator.now) }
{
    match &declarator.init {
        None => true,
        Some(init) => is_shaped_init(init),
    }
}

#[tactic(auto, using(crate::proofs::Empty::length_empty_map))]
fn has_declarator(declarators: &[Declarator]) -> bool
    ensures { result ≡ not (s.is_empty (m.plain_declarators declarators.now)) }
{
    !declarators.is_empty()
}

fn are_shaped_declarators(declarators: &[Declarator]) -> bool
    ensures { result ≡ t.are_shaped_declarators (m.plain_declarators declarators.now) }
{
    let mut shaped = has_declarator(declarators);
    for declarator in declarators {
        shaped = shaped && is_shaped_declarator(declarator);
    }
    shaped
}

/// A type and one variable at least.
pub fn are_shaped_variables(ty: &TypeUse, declarators: &[Declarator]) -> bool
    ensures { result ≡ t.are_shaped_variables ty.now (m.plain_declarators declarators.now) }
{
    is_shaped_type(ty) && are_shaped_declarators(declarators)
}

fn is_shaped_for_init(first: &ForInit) -> bool
    ensures { result ≡ t.is_shaped_for_init (m.plain_for first.now) }
{
    match first {
        ForInit::Locals { ty, decls, .. } => are_shaped_variables(ty, decls.as_slice()),
        ForInit::Exprs { exprs } => {
            has_expr(exprs.as_slice()) && are_statement_exprs(exprs.as_slice())
        }
    }
}

fn is_shaped_any_for_init(first: &Option<ForInit>) -> bool
    ensures { result ≡ option_map_or t.is_shaped_for_init (option_map m.plain_for first.now) true }
{
    match first {
        None => true,
        Some(first) => is_shaped_for_init(first),
    }
}

fn is_any_operand(expr: &Option<Expr>) -> bool
    ensures { result ≡ option_map_or (e.is_operand 0) (option_map x.plain_expr expr.now) true }
{
    match expr {
        None => true,
        Some(expr) => is_operand(0, expr),
    }
}

fn is_shaped_label(label: &SwitchLabel) -> bool
    ensures { result ≡ t.is_shaped_label (m.plain_label label.now) }
{
    match label {
        SwitchLabel::Case { value } => is_operand(0, value),
        SwitchLabel::Default => true,
    }
}

#[tactic(auto, using(crate::proofs::Empty::length_empty_map))]
fn has_label(labels: &[SwitchLabel]) -> bool
    ensures { result ≡ not (s.is_empty (m.plain_labels labels.now)) }
{
    !labels.is_empty()
}

fn are_shaped_labels(labels: &[SwitchLabel]) -> bool
    ensures { result ≡ t.are_shaped_labels (m.plain_labels labels.now) }
{
    let mut shaped = has_label(labels);
    for label in labels {
        shaped = shaped && is_shaped_label(label);
    }
    shaped
}

fn is_bare(group: &Group) -> bool
    ensures { result ≡ t.is_bare (m.plain_group group.now) }
{
    !has_stmt(group.stmts.as_slice())
}

/// A statement that calls no constructor.
#[cycle(is_shaped_stmt)]
fn is_shaped_stmt(stmt: &Stmt) -> bool
    ensures { result ≡ t.is_shaped_stmt (m.plain_stmt stmt.now) }
{
    match stmt {
        Stmt::Nest { block } => is_shaped_block(block),
        Stmt::Local { ty, decls, .. } => are_shaped_variables(ty, decls.as_slice()),
        Stmt::Skip => true,
        Stmt::Do { body, cond } => {
            !is_local(body.get()) && is_shaped_stmt(body.get()) && is_operand(0, cond)
        }
        Stmt::While { cond, body } => {
            is_operand(0, cond) && !is_local(body.get()) && is_shaped_stmt(body.get())
        }
        Stmt::If { cond, yes, no } => match no {
            None => is_operand(0, cond) && !is_local(yes.get()) && is_shaped_stmt(yes.get()),
            Some(no) => {
                is_operand(0, cond)
                    && !is_local(yes.get())
                    && is_shaped_stmt(yes.get())
                    && (!takes_else(yes.get()) && !is_local(no.get()) && is_shaped_stmt(no.get()))
            }
        },
        Stmt::Eval { value } => is_statement_expr(value),
        Stmt::For {
            first,
            cond,
            update,
            body,
        } => {
            is_shaped_any_for_init(first)
                && is_any_operand(cond)
                && are_statement_exprs(update.as_slice())
                && (!is_local(body.get()) && is_shaped_stmt(body.get()))
        }
        Stmt::Switch { value, groups } => {
            is_operand(0, value) && are_shaped_groups(groups.as_slice())
        }
        Stmt::Labeled { body, .. } => !is_local(body.get()) && is_shaped_stmt(body.get()),
        Stmt::Break { .. } | Stmt::Continue { .. } => true,
        Stmt::Return { value } => is_any_operand(value),
        Stmt::Throw { value } => is_operand(0, value),
        Stmt::Try {
            body,
            catches,
            last,
        } => match last {
            None => {
                is_shaped_block(body)
                    && are_shaped_catches(catches.as_slice())
                    && has_catch(catches.as_slice())
            }
            Some(last) => {
                is_shaped_block(body)
                    && are_shaped_catches(catches.as_slice())
                    && is_shaped_block(last)
            }
        },
        Stmt::CtorCall { .. } => false,
    }
}

#[cycle(is_shaped_stmt)]
pub fn is_shaped_block(block: &Block) -> bool
    ensures { result ≡ t.is_shaped_block (m.plain_block block.now) }
{
    are_shaped_stmts(block.stmts.as_slice())
}

#[cycle(is_shaped_stmt)]
fn is_shaped_catch(catch: &Catch) -> bool
    ensures { result ≡ t.is_shaped_catch (m.plain_catch catch.now) }
{
    is_shaped_param(&catch.param) && is_shaped_block(&catch.body)
}

#[cycle(is_shaped_stmt)]
fn is_shaped_group(group: &Group) -> bool
    ensures { result ≡ t.is_shaped_group (m.plain_group group.now) }
{
    are_shaped_stmts(group.stmts.as_slice()) && are_shaped_labels(group.labels.as_slice())
}

#[cycle(is_shaped_stmt)]
fn are_shaped_stmts(stmts: &[Stmt]) -> bool
    ensures { result ≡ t.are_shaped_stmts (m.plain_stmts stmts.now) }
{
    let mut shaped = true;
    for stmt in stmts {
        shaped = shaped && is_shaped_stmt(stmt);
    }
    shaped
}

/// Only the last group may have no statements (JLS 14.11).
#[cycle(is_shaped_stmt)]
fn are_shaped_groups(groups: &[Group]) -> bool
    ensures { result ≡ t.are_shaped_groups false (m.plain_groups groups.now) }
{
    let mut shaped = true;
    let mut bare = false;
    for group in groups {
        shaped = shaped && !bare && is_shaped_group(group);
        bare = is_bare(group);
    }
    shaped
}

#[cycle(is_shaped_stmt)]
fn are_shaped_catches(catches: &[Catch]) -> bool
    ensures { result ≡ t.are_shaped_catches (m.plain_catches catches.now) }
{
    let mut shaped = true;
    for catch in catches {
        shaped = shaped && is_shaped_catch(catch);
    }
    shaped
}

/// The call of a constructor (JLS 8.8.7.1).
fn is_shaped_call(stmt: &Stmt) -> bool
    ensures { result ≡ t.is_shaped_call (m.plain_stmt stmt.now) }
{
    match stmt {
        Stmt::CtorCall { args, .. } => are_shaped_exprs(args.as_slice()),
        _ => false,
    }
}

/// The statements of a constructor, which may begin by calling another (JLS 8.8.7).
fn are_shaped_in_ctor(stmts: &[Stmt]) -> bool
    ensures { result ≡ t.are_shaped_in_ctor (m.plain_stmts stmts.now) }
{
    match stmts {
        [] => true,
        [first, rest @ ..] => {
            (is_shaped_stmt(first) || is_shaped_call(first)) && are_shaped_stmts(rest)
        }
    }
}

pub fn is_shaped_ctor_body(body: &Block) -> bool
    ensures { result ≡ t.is_shaped_ctor_body (m.plain_block body.now) }
{
    are_shaped_in_ctor(body.stmts.as_slice())
}
