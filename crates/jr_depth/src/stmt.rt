// Depth of statements.
ghost use Rattle.std.specs.Prelude.{◌≡◌, true};
ghost use Rattle.std.specs.List.{list_all};
ghost use Rattle.std.specs.Option.{option_map, option_map_or};
ghost use Rattle.jr_tree.specs.Mirror.Exprs as x;
ghost use Rattle.jr_tree.specs.Mirror.Stmts as m;
ghost use Rattle.jr_depth.specs.Within as t;

use crate::expr::{are_exprs_within, is_expr_within, is_init_within};
use jr_tree::{Block, Catch, Declarator, Expr, ForInit, Group, Stmt, SwitchLabel};

fn is_declarator_within(most: usize, declarator: &Declarator) -> bool
    ensures { result ≡ t.declarator_within most (m.plain_declarator declarator.now) }
{
    match &declarator.init {
        None => true,
        Some(init) => is_init_within(most, init),
    }
}

pub fn are_declarators_within(most: usize, declarators: &[Declarator]) -> bool
    ensures { result ≡ list_all (t.declarator_within most) (m.plain_declarators declarators.now) }
{
    let mut within = true;
    for declarator in declarators {
        within = within && is_declarator_within(most, declarator);
    }
    within
}

fn is_for_init_within(most: usize, first: &ForInit) -> bool
    ensures { result ≡ t.for_init_within most (m.plain_for first.now) }
{
    match first {
        ForInit::Locals { decls, .. } => are_declarators_within(most, decls.as_slice()),
        ForInit::Exprs { exprs } => are_exprs_within(most, exprs.as_slice()),
    }
}

fn is_any_for_init_within(most: usize, first: &Option<ForInit>) -> bool
    ensures { result ≡ option_map_or (t.for_init_within most) (option_map m.plain_for first.now) true }
{
    match first {
        None => true,
        Some(first) => is_for_init_within(most, first),
    }
}

fn is_any_expr_within(most: usize, expr: &Option<Expr>) -> bool
    ensures { result ≡ option_map_or (t.expr_within most) (option_map x.plain_expr expr.now) true }
{
    match expr {
        None => true,
        Some(expr) => is_expr_within(most, expr),
    }
}

fn is_label_within(most: usize, label: &SwitchLabel) -> bool
    ensures { result ≡ t.label_within most (m.plain_label label.now) }
{
    match label {
        SwitchLabel::Case { value } => is_expr_within(most, value),
        SwitchLabel::Default => true,
    }
}

fn are_labels_within(most: usize, labels: &[SwitchLabel]) -> bool
    ensures { result ≡ list_all (t.label_within most) (m.plain_labels labels.now) }
{
    let mut within = true;
    for label in labels {
        within = within && is_label_within(most, label);
    }
    within
}

#[cycle(is_stmt_within)]
fn is_stmt_within(most: usize, stmt: &Stmt) -> bool
    ensures { result ≡ t.stmt_within most (m.plain_stmt stmt.now) }
{
    0 < most && are_parts_within(most - 1, stmt)
}

#[cycle(is_stmt_within)]
fn are_parts_within(most: usize, stmt: &Stmt) -> bool
    ensures { result ≡ t.stmt_parts_within most (m.plain_stmt stmt.now) }
{
    match stmt {
        Stmt::Nest { block } => is_block_within(most, block),
        Stmt::Local { decls, .. } => are_declarators_within(most, decls.as_slice()),
        Stmt::Skip | Stmt::Break { .. } | Stmt::Continue { .. } => true,
        Stmt::Do { body, cond } => is_stmt_within(most, body.get()) && is_expr_within(most, cond),
        Stmt::While { cond, body } => {
            is_expr_within(most, cond) && is_stmt_within(most, body.get())
        }
        Stmt::If { cond, yes, no } => match no {
            None => is_expr_within(most, cond) && is_stmt_within(most, yes.get()),
            Some(no) => {
                is_expr_within(most, cond)
                    && is_stmt_within(most, yes.get())
                    && is_stmt_within(most, no.get())
            }
        },
        Stmt::Eval { value } | Stmt::Throw { value } => is_expr_within(most, value),
        Stmt::For {
            first,
            cond,
            update,
            body,
        } => {
            is_any_for_init_within(most, first)
                && is_any_expr_within(most, cond)
                && are_exprs_within(most, update.as_slice())
                && is_stmt_within(most, body.get())
        }
        Stmt::Switch { value, groups } => {
            are_groups_within(most, groups.as_slice()) && is_expr_within(most, value)
        }
        Stmt::Labeled { body, .. } => is_stmt_within(most, body.get()),
        Stmt::Return { value } => is_any_expr_within(most, value),
        Stmt::Try {
            body,
            catches,
            last,
        } => match last {
            None => is_block_within(most, body) && are_catches_within(most, catches.as_slice()),
            Some(last) => {
                is_block_within(most, body)
                    && are_catches_within(most, catches.as_slice())
                    && is_block_within(most, last)
            }
        },
        Stmt::CtorCall { args, .. } => are_exprs_within(most, args.as_slice()),
    }
}

#[cycle(is_stmt_within)]
pub fn is_block_within(most: usize, block: &Block) -> bool
    ensures { result ≡ t.block_within most (m.plain_block block.now) }
{
    are_stmts_within(most, block.stmts.as_slice())
}

#[cycle(is_stmt_within)]
fn is_catch_within(most: usize, catch: &Catch) -> bool
    ensures { result ≡ t.catch_within most (m.plain_catch catch.now) }
{
    is_block_within(most, &catch.body)
}

#[cycle(is_stmt_within)]
fn is_group_within(most: usize, group: &Group) -> bool
    ensures { result ≡ t.group_within most (m.plain_group group.now) }
{
    are_stmts_within(most, group.stmts.as_slice())
        && are_labels_within(most, group.labels.as_slice())
}

#[cycle(is_stmt_within)]
fn are_stmts_within(most: usize, stmts: &[Stmt]) -> bool
    ensures { result ≡ t.stmts_within most (m.plain_stmts stmts.now) }
{
    let mut within = true;
    for stmt in stmts {
        within = within && is_stmt_within(most, stmt);
    }
    within
}

#[cycle(is_stmt_within)]
fn are_groups_within(most: usize, groups: &[Group]) -> bool
    ensures { result ≡ t.groups_within most (m.plain_groups groups.now) }
{
    let mut within = true;
    for group in groups {
        within = within && is_group_within(most, group);
    }
    within
}

#[cycle(is_stmt_within)]
fn are_catches_within(most: usize, catches: &[Catch]) -> bool
    ensures { result ≡ t.catches_within most (m.plain_catches catches.now) }
{
    let mut within = true;
    for catch in catches {
        within = within && is_catch_within(most, catch);
    }
    within
}
