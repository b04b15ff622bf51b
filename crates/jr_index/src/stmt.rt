// The labels of statements (JLS 14).
ghost use Rattle.std.specs.Prelude.{◌≡◌, []};
ghost use Rattle.std.specs.Option.{option_map};
ghost use Rattle.jr_tree.specs.Mirror.Stmts as m;
ghost use Rattle.jr_index.specs.Events as e;
ghost use Rattle.jr_index.specs.Writing.{Adds};
ghost use Rattle.jr_tree.specs.Stmts as l;

use crate::expr::{add_any_expr, add_any_init, add_args, add_expr, add_exprs};
use crate::words::{add_param, add_type};
use crate::writer::RowWriter;
use jr_base::{Boxed, Text};
use jr_tree::{Block, Catch, Declarator, ForInit, Group, Label, Stmt, SwitchLabel};

fn add_local(out: &mut RowWriter, is_final: bool, local: &Declarator)
    ensures { Adds out.old out.new (e.local_events is_final (m.plain_declarator local.now)) }
{
    let label = Label::Local {
        is_final,
        dims: local.dims,
    };
    out.open(label, &local.name);
    out.own();
    out.pass_brackets(local.dims);
    add_any_init(out, &local.init);
    out.close();
}

fn add_locals(out: &mut RowWriter, is_final: bool, locals: &[Declarator])
    ensures { Adds out.old out.new (e.locals_events 0 is_final (m.plain_declarators locals.now)) }
{
    let mut commas = 0;
    for local in locals {
        out.pass(commas);
        add_local(out, is_final, local);
        commas = 1;
    }
}

fn add_for(out: &mut RowWriter, first: &ForInit)
    ensures { Adds out.old out.new (e.for_events (m.plain_for first.now)) }
{
    match first {
        ForInit::Locals {
            is_final,
            ty,
            decls,
        } => {
            out.begin(Label::ForLocals);
            out.pass_if(*is_final);
            add_type(out, ty);
            add_locals(out, *is_final, decls.as_slice());
            out.close();
        }
        ForInit::Exprs { exprs } => {
            out.begin(Label::ForExprs);
            add_exprs(out, exprs.as_slice());
            out.close();
        }
    }
}

fn add_any_for(out: &mut RowWriter, first: &Option<ForInit>)
    ensures { Adds out.old out.new (e.if_some e.for_events (option_map m.plain_for first.now)) }
{
    if let Some(first) = first {
        add_for(out, first);
    }
}

fn add_case(out: &mut RowWriter, label: &SwitchLabel)
    ensures { Adds out.old out.new (e.case_events (m.plain_label label.now)) }
{
    match label {
        SwitchLabel::Case { value } => {
            out.begin(Label::Case);
            out.pass(1);
            add_expr(out, value);
            out.pass(1);
            out.close();
        }
        SwitchLabel::Default => out.leaf(Label::Default, 2),
    }
}

fn add_cases(out: &mut RowWriter, labels: &[SwitchLabel])
    ensures { Adds out.old out.new (e.cases_events (m.plain_labels labels.now)) }
{
    for label in labels {
        add_case(out, label);
    }
}

/// A `break` or `continue`.
fn add_jump(out: &mut RowWriter, jump: Label, target: &Option<Text>)
    ensures { Adds out.old out.new (e.jump_events jump target.now) }
{
    match target {
        None => out.leaf(jump, 2),
        Some(name) => {
            out.open(jump, name);
            out.pass(1);
            out.own();
            out.pass(1);
            out.close();
        }
    }
}

#[cycle(add_stmt)]
pub fn add_stmt(out: &mut RowWriter, stmt: &Stmt)
    ensures { Adds out.old out.new (e.stmt_events (m.plain_stmt stmt.now)) }
{
    match stmt {
        Stmt::Nest { block } => {
            out.begin(Label::Nest);
            add_block(out, block);
            out.close();
        }
        Stmt::Local {
            is_final,
            ty,
            decls,
        } => {
            out.begin(Label::Locals);
            out.pass_if(*is_final);
            add_type(out, ty);
            add_locals(out, *is_final, decls.as_slice());
            out.pass(1);
            out.close();
        }
        Stmt::Skip => out.leaf(Label::Skip, 1),
        Stmt::Do { body, cond } => {
            out.begin(Label::Do);
            out.pass(1);
            add_stmt(out, body.get());
            out.pass(2);
            add_expr(out, cond);
            out.pass(2);
            out.close();
        }
        Stmt::While { cond, body } => {
            out.begin(Label::While);
            out.pass(2);
            add_expr(out, cond);
            out.pass(1);
            add_stmt(out, body.get());
            out.close();
        }
        Stmt::If { cond, yes, no } => {
            out.begin(Label::If);
            out.pass(2);
            add_expr(out, cond);
            out.pass(1);
            add_stmt(out, yes.get());
            add_else(out, no);
            out.close();
        }
        Stmt::Eval { value } => {
            out.begin(Label::Eval);
            add_expr(out, value);
            out.pass(1);
            out.close();
        }
        Stmt::For {
            first,
            cond,
            update,
            body,
        } => {
            out.begin(Label::For {
                has_first: first.is_some(),
                has_condition: cond.is_some(),
            });
            out.pass(2);
            add_any_for(out, first);
            out.pass(1);
            add_any_expr(out, cond);
            out.pass(1);
            add_exprs(out, update.as_slice());
            out.pass(1);
            add_stmt(out, body.get());
            out.close();
        }
        Stmt::Switch { value, groups } => {
            out.begin(Label::Switch);
            out.pass(2);
            add_expr(out, value);
            out.pass(2);
            add_groups(out, groups.as_slice());
            out.pass(1);
            out.close();
        }
        Stmt::Labeled { label, body } => {
            out.open(Label::Labeled, label);
            out.own();
            out.pass(1);
            add_stmt(out, body.get());
            out.close();
        }
        Stmt::Break { label } => add_jump(
            out,
            Label::Break {
                has_label: label.is_some(),
            },
            label,
        ),
        Stmt::Continue { label } => add_jump(
            out,
            Label::Continue {
                has_label: label.is_some(),
            },
            label,
        ),
        Stmt::Return { value } => {
            out.begin(Label::Return);
            out.pass(1);
            add_any_expr(out, value);
            out.pass(1);
            out.close();
        }
        Stmt::Throw { value } => {
            out.begin(Label::Throw);
            out.pass(1);
            add_expr(out, value);
            out.pass(1);
            out.close();
        }
        Stmt::Try {
            body,
            catches,
            last,
        } => {
            out.begin(Label::Try {
                has_finally: last.is_some(),
            });
            out.pass(1);
            add_block(out, body);
            add_catches(out, catches.as_slice());
            add_finally(out, last);
            out.close();
        }
        Stmt::CtorCall { which, args } => {
            out.begin(Label::ConstructorCall { which: *which });
            out.own();
            add_args(out, args.as_slice());
            out.pass(1);
            out.close();
        }
    }
}

#[cycle(add_stmt)]
fn add_else(out: &mut RowWriter, no: &Option<Boxed<Stmt>>)
    ensures { Adds out.old out.new (e.any_stmt_events (m.plain_any_stmt no.now)) }
{
    match no {
        None => (),
        Some(no) => {
            out.pass(1);
            add_stmt(out, no.get());
        }
    }
}

#[cycle(add_stmt)]
fn add_finally(out: &mut RowWriter, last: &Option<Block>)
    ensures { Adds out.old out.new (e.any_block_events (m.plain_any_block last.now)) }
{
    match last {
        None => (),
        Some(last) => {
            out.pass(1);
            add_block(out, last);
        }
    }
}

#[cycle(add_stmt)]
pub fn add_block(out: &mut RowWriter, block: &Block)
    ensures { Adds out.old out.new (e.block_events (m.plain_block block.now)) }
{
    out.begin(Label::Block);
    out.pass(1);
    add_stmts(out, block.stmts.as_slice());
    out.pass(1);
    out.close();
}

#[cycle(add_stmt)]
fn add_stmts(out: &mut RowWriter, stmts: &[Stmt])
    ensures { Adds out.old out.new (e.stmts_events (m.plain_stmts stmts.now)) }
{
    for stmt in stmts {
        add_stmt(out, stmt);
    }
}

#[cycle(add_stmt)]
fn add_groups(out: &mut RowWriter, groups: &[Group])
    ensures { Adds out.old out.new (e.groups_events (m.plain_groups groups.now)) }
{
    for group in groups {
        add_group(out, group);
    }
}

#[cycle(add_stmt)]
fn add_group(out: &mut RowWriter, group: &Group)
    ensures { Adds out.old out.new (e.group_events (m.plain_group group.now)) }
{
    out.begin(Label::Group);
    add_cases(out, group.labels.as_slice());
    add_stmts(out, group.stmts.as_slice());
    out.close();
}

#[cycle(add_stmt)]
fn add_catches(out: &mut RowWriter, catches: &[Catch])
    ensures { Adds out.old out.new (e.catches_events (m.plain_catches catches.now)) }
{
    for catch in catches {
        add_catch(out, catch);
    }
}

#[cycle(add_stmt)]
fn add_catch(out: &mut RowWriter, catch: &Catch)
    ensures { Adds out.old out.new (e.catch_events (m.plain_catch catch.now)) }
{
    out.begin(Label::Catch);
    out.pass(2);
    add_param(out, &catch.param);
    out.pass(1);
    add_block(out, &catch.body);
    out.close();
}
