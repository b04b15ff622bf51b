// The search over statements.
ghost use Rattle.std.specs.Prelude.{◌≡◌};
ghost use Rattle.std.specs.Option.{option_map};
ghost use Rattle.jr_tree.specs.Mirror.Exprs as x;
ghost use Rattle.jr_tree.specs.Mirror.Stmts as s;
ghost use Rattle.jr_tree.specs.Nodes as n;
ghost use Rattle.jr_nodes.specs.Progress.{go_on, progress};

use crate::expr::{in_expr, in_exprs, in_init};
use crate::node_ref::NodeRef;
use crate::search::{Search, step};
use crate::words::{in_param, in_type};
use jr_tree::{Block, Catch, Declarator, Expr, ForInit, Group, Stmt, SwitchLabel, TypeUse};

fn in_declarator<'a>(state: Search<'a>, declarator: &'a Declarator) -> Search<'a>
    ensures { progress result ≡ go_on (n.declarator_nodes (s.plain_declarator declarator.now)) (progress state.entry) }
{
    let state = step(state, NodeRef::Declarator(declarator));
    match &declarator.init {
        None => state,
        Some(init) => in_init(state, init),
    }
}

fn in_declarators<'a>(mut state: Search<'a>, decls: &'a [Declarator]) -> Search<'a>
    ensures { progress result ≡ go_on (n.each n.declarator_nodes (s.plain_declarators decls.now)) (progress state.entry) }
{
    for decl in decls {
        state = in_declarator(state, decl);
    }
    state
}

/// Over a type and the variables that are declared with it.
pub fn in_variables<'a>(state: Search<'a>, ty: &'a TypeUse, decls: &'a [Declarator]) -> Search<'a>
    ensures { progress result ≡ go_on (n.variables_nodes ty.now (s.plain_declarators decls.now)) (progress state.entry) }
{
    in_declarators(in_type(state, ty), decls)
}

fn in_for_init<'a>(state: Search<'a>, first: &'a Option<ForInit>) -> Search<'a>
    ensures { progress result ≡ go_on (n.if_some n.for_init_nodes (option_map s.plain_for first.now)) (progress state.entry) }
{
    match first {
        None => state,
        Some(first) => {
            let state = step(state, NodeRef::ForInit(first));
            match first {
                ForInit::Locals { ty, decls, .. } => in_variables(state, ty, decls.as_slice()),
                ForInit::Exprs { exprs } => in_exprs(state, exprs.as_slice()),
            }
        }
    }
}

fn in_any_expr<'a>(state: Search<'a>, value: &'a Option<Expr>) -> Search<'a>
    ensures { progress result ≡ go_on (n.if_some n.expr_nodes (option_map x.plain_expr value.now)) (progress state.entry) }
{
    match value {
        None => state,
        Some(value) => in_expr(state, value),
    }
}

fn in_label<'a>(state: Search<'a>, label: &'a SwitchLabel) -> Search<'a>
    ensures { progress result ≡ go_on (n.label_nodes (s.plain_label label.now)) (progress state.entry) }
{
    match label {
        SwitchLabel::Case { value } => in_expr(state, value),
        SwitchLabel::Default => state,
    }
}

fn in_labels<'a>(mut state: Search<'a>, labels: &'a [SwitchLabel]) -> Search<'a>
    ensures { progress result ≡ go_on (n.each n.label_nodes (s.plain_labels labels.now)) (progress state.entry) }
{
    for label in labels {
        state = in_label(state, label);
    }
    state
}

#[cycle(in_stmt)]
fn in_stmt<'a>(state: Search<'a>, stmt: &'a Stmt) -> Search<'a>
    ensures { progress result ≡ go_on (n.stmt_nodes (s.plain_stmt stmt.now)) (progress state.entry) }
{
    let state = step(state, NodeRef::Stmt(stmt));
    match stmt {
        Stmt::Nest { block } => in_block(state, block),
        Stmt::Local { ty, decls, .. } => in_variables(state, ty, decls.as_slice()),
        Stmt::Skip => state,
        Stmt::Do { body, cond } => in_expr(in_stmt(state, body.get()), cond),
        Stmt::While { cond, body } => in_stmt(in_expr(state, cond), body.get()),
        Stmt::If { cond, yes, no } => {
            let state = in_stmt(in_expr(state, cond), yes.get());
            match no {
                None => state,
                Some(no) => in_stmt(state, no.get()),
            }
        }
        Stmt::Eval { value } => in_expr(state, value),
        Stmt::For {
            first,
            cond,
            update,
            body,
        } => {
            let state = in_any_expr(in_for_init(state, first), cond);
            in_stmt(in_exprs(state, update.as_slice()), body.get())
        }
        Stmt::Switch { value, groups } => in_groups(in_expr(state, value), groups.as_slice()),
        Stmt::Labeled { body, .. } => in_stmt(state, body.get()),
        Stmt::Break { .. } => state,
        Stmt::Continue { .. } => state,
        Stmt::Return { value } => in_any_expr(state, value),
        Stmt::Throw { value } => in_expr(state, value),
        Stmt::Try {
            body,
            catches,
            last,
        } => {
            let state = in_catches(in_block(state, body), catches.as_slice());
            match last {
                None => state,
                Some(last) => in_block(state, last),
            }
        }
        Stmt::CtorCall { args, .. } => in_exprs(state, args.as_slice()),
    }
}

#[cycle(in_stmt)]
pub fn in_block<'a>(state: Search<'a>, block: &'a Block) -> Search<'a>
    ensures { progress result ≡ go_on (n.block_nodes (s.plain_block block.now)) (progress state.entry) }
{
    in_stmts(step(state, NodeRef::Block(block)), block.stmts.as_slice())
}

#[cycle(in_stmt)]
fn in_stmts<'a>(mut state: Search<'a>, stmts: &'a [Stmt]) -> Search<'a>
    ensures { progress result ≡ go_on (n.stmts_nodes (s.plain_stmts stmts.now)) (progress state.entry) }
{
    for stmt in stmts {
        state = in_stmt(state, stmt);
    }
    state
}

#[cycle(in_stmt)]
fn in_group<'a>(state: Search<'a>, group: &'a Group) -> Search<'a>
    ensures { progress result ≡ go_on (n.group_nodes (s.plain_group group.now)) (progress state.entry) }
{
    let state = step(state, NodeRef::Group(group));
    in_stmts(
        in_labels(state, group.labels.as_slice()),
        group.stmts.as_slice(),
    )
}

#[cycle(in_stmt)]
fn in_groups<'a>(mut state: Search<'a>, groups: &'a [Group]) -> Search<'a>
    ensures { progress result ≡ go_on (n.groups_nodes (s.plain_groups groups.now)) (progress state.entry) }
{
    for group in groups {
        state = in_group(state, group);
    }
    state
}

#[cycle(in_stmt)]
fn in_catch<'a>(state: Search<'a>, catch: &'a Catch) -> Search<'a>
    ensures { progress result ≡ go_on (n.catch_nodes (s.plain_catch catch.now)) (progress state.entry) }
{
    let state = step(state, NodeRef::Catch(catch));
    in_block(in_param(state, &catch.param), &catch.body)
}

#[cycle(in_stmt)]
fn in_catches<'a>(mut state: Search<'a>, catches: &'a [Catch]) -> Search<'a>
    ensures { progress result ≡ go_on (n.catches_nodes (s.plain_catches catches.now)) (progress state.entry) }
{
    for catch in catches {
        state = in_catch(state, catch);
    }
    state
}
