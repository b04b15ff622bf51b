// What declarations and statements do, one part after the other (JLS 8, 14).
ghost use Rattle.std.specs.Prelude.{◌≡◌, ℕ, Bool, ◌+◌, ◌<◌, ◌^◌, ◌∷◌, ◌++◌, [], false, map, OnOk};
ghost use Rattle.std.specs.List.{list_any};
ghost use Rattle.jr_tree.specs.declared.label.Label.TheVariants as is;
ghost use Rattle.jr_tree.specs.Rows.{Rows, label, end};
ghost use Rattle.jr_flow_defs.specs.Meaning.{Meaning};
ghost use Rattle.jr_flow_defs.specs.Acts as defs;
ghost use Rattle.jr_flow.specs.Seen.{act_seen, completion_seen, seen, such, part_if, only, is_direct};
ghost use Rattle.jr_flow.specs.Views.{rows_in, IsViewOf};

use crate::acts::{Act, Acts, Completion};
use crate::expressions::{
    write_behind, write_conditional, write_expression, write_guarded, write_parts, write_siblings,
};
use crate::jumps::{breaks, continues};
use jr_base::OutOfMemory;
use jr_places::{end_at, parent_at};
use jr_tree::{Label, Row};
use jr_view::View;

fn is_parameter(rows: &[Row], at: u32) -> bool
    ensures { result ≡ defs.is_parameter (label rows.now at) }
{
    match rows.get(at as usize) {
        Some(row) => match row.label {
            Label::Parameter { .. } => true,
            _ => false,
        },
        None => false,
    }
}

pub(crate) fn is_catch(rows: &[Row], at: u32) -> bool
    ensures { result ≡ defs.is_catch (label rows.now at) }
{
    match rows.get(at as usize) {
        Some(row) => match row.label {
            Label::Catch => true,
            _ => false,
        },
        None => false,
    }
}

fn is_default(rows: &[Row], at: u32) -> bool
    ensures { result ≡ defs.is_default (label rows.now at) }
{
    match rows.get(at as usize) {
        Some(row) => match row.label {
            Label::Default => true,
            _ => false,
        },
        None => false,
    }
}

// The row is a parameter, or is none.
fn is_such(rows: &[Row], at: u32, are_parameters: bool) -> bool
    ensures { result ≡ such rows.now are_parameters at }
{
    if are_parameters {
        is_parameter(rows, at)
    } else {
        !is_parameter(rows, at)
    }
}

fn write_if_such(acts: &mut Acts, at: u32, is_such: bool) -> Result<(), OutOfMemory>
    ensures { OnOk result (seen acts.new ≡ seen acts.old ++ part_if is_such at) }
{
    if is_such {
        acts.push(Act::Part { row: at })?;
    }
    Ok(())
}

// Writes the parameters among siblings, or all others.
fn write_only(
    rows: &[Row],
    acts: &mut Acts,
    from: u32,
    stop: u32,
    room: u32,
    are_parameters: bool,
) -> Result<(), OutOfMemory>
    ensures { OnOk result (seen acts.new ≡ seen acts.old ++ map defs.part (only rows.now are_parameters (defs.siblings rows.now room from stop))) }
{
    let mut part = from;
    for _turn in 0..room {
        if part >= stop {
            return Ok(());
        }
        write_if_such(acts, part, is_such(rows, part, are_parameters))?;
        part = end_at(rows, part);
    }
    Ok(())
}

// Writes the parameters right below a row, or all else there.
fn write_only_parts(
    rows: &[Row],
    acts: &mut Acts,
    at: u32,
    are_parameters: bool,
) -> Result<(), OutOfMemory>
    ensures { at + 1 < 2 ^ 32 → OnOk result (seen acts.new ≡ seen acts.old ++ map defs.part (only rows.now are_parameters (defs.children rows.now at))) }
{
    let end = end_at(rows, at);
    write_only(
        rows,
        acts,
        at.saturating_add(1),
        end,
        end.saturating_sub(at),
        are_parameters,
    )
}

// Parameters have their values before anything else happens.
fn write_callable(rows: &[Row], acts: &mut Acts, at: u32) -> Result<(), OutOfMemory>
    ensures { at + 1 < 2 ^ 32 → OnOk result (seen acts.new ≡ seen acts.old ++ defs.callable_acts rows.now at) }
{
    write_only_parts(rows, acts, at, true)?;
    write_only_parts(rows, acts, at, false)
}

// A parameter is a definition. That of a catch is a node before.
fn write_parameter(rows: &[Row], acts: &mut Acts, at: u32) -> Result<(), OutOfMemory>
    ensures { OnOk result (seen acts.new ≡ seen acts.old ++ defs.parameter_acts rows.now at) }
{
    if is_catch(rows, parent_at(rows, at)) {
        acts.push(Act::Node { row: at })?;
    }
    acts.push(Act::Define { row: at, local: at })
}

fn write_local(rows: &[Row], acts: &mut Acts, at: u32) -> Result<(), OutOfMemory>
    ensures { at + 1 < 2 ^ 32 → OnOk result (seen acts.new ≡ seen acts.old ++ defs.local_acts rows.now at) }
{
    if at.saturating_add(1) < end_at(rows, at) {
        return write_behind(rows, acts, at, Act::Define { row: at, local: at });
    }
    Ok(())
}

fn write_if(rows: &[Row], acts: &mut Acts, at: u32) -> Result<(), OutOfMemory>
    ensures { at + 2 < 2 ^ 32 → end rows.now (at + 1) + 1 < 2 ^ 32 → OnOk result (seen acts.new ≡ seen acts.old ++ defs.if_acts rows.now at) }
{
    let test = at.saturating_add(1);
    let yes = end_at(rows, test);
    if end_at(rows, yes) < end_at(rows, at) {
        return write_conditional(rows, acts, at);
    }
    write_guarded(acts, test, yes)
}

fn write_while(rows: &[Row], acts: &mut Acts, at: u32) -> Result<(), OutOfMemory>
    ensures { at + 2 < 2 ^ 32 → (m : Meaning) → OnOk result (seen acts.new ≡ seen acts.old ++ defs.acts_by is.While rows.now m at) }
{
    let test = at.saturating_add(1);
    write_guarded(acts, test, end_at(rows, test))?;
    acts.push(Act::Go { to: 0 })
}

fn write_do(rows: &[Row], acts: &mut Acts, at: u32) -> Result<(), OutOfMemory>
    ensures { at + 2 < 2 ^ 32 → (m : Meaning) → OnOk result (seen acts.new ≡ seen acts.old ++ defs.acts_by is.Do rows.now m at) }
{
    let body = at.saturating_add(1);
    acts.push(Act::Part { row: body })?;
    acts.push(Act::Part {
        row: end_at(rows, body),
    })?;
    acts.push(Act::Fork { to: 0 })
}

// The last of siblings, or else the row.
fn last_sibling(rows: &[Row], at: u32, from: u32, stop: u32, room: u32) -> u32
    ensures { result ≡ defs.last_or at (defs.siblings rows.now room from stop) }
{
    let mut last = at;
    let mut part = from;
    for _turn in 0..room {
        if part >= stop {
            return last;
        }
        last = part;
        part = end_at(rows, part);
    }
    last
}

/// The last row right below a row, or else the row itself.
pub(crate) fn last_part(rows: &[Row], at: u32) -> u32
    ensures { at + 1 < 2 ^ 32 → result ≡ defs.last rows.now at }
{
    let end = end_at(rows, at);
    last_sibling(rows, at, at.saturating_add(1), end, end.saturating_sub(at))
}

// The first part of a `for`, if it has one.
fn write_first(acts: &mut Acts, at: u32, has_first: bool) -> Result<(), OutOfMemory>
    ensures { at + 1 < 2 ^ 32 → (p : Rows) → OnOk result (seen acts.new ≡ seen acts.old ++ defs.for_first p at has_first) }
{
    if has_first {
        acts.push(Act::Part {
            row: at.saturating_add(1),
        })?;
    }
    Ok(())
}

// The condition of a `for`, if it has one, which is left where it does not hold.
fn write_test(acts: &mut Acts, condition: u32, has_condition: bool) -> Result<(), OutOfMemory>
    ensures { OnOk result (seen acts.new ≡ seen acts.old ++ defs.for_test condition has_condition) }
{
    if has_condition {
        acts.push(Act::Part { row: condition })?;
        acts.push(Act::Quit)?;
    }
    Ok(())
}

// The row behind the first part of a `for`.
fn for_condition(rows: &[Row], at: u32, has_first: bool) -> u32
    ensures { at + 2 < 2 ^ 32 → result ≡ defs.for_condition rows.now at has_first }
{
    let first = at.saturating_add(1);
    if has_first {
        end_at(rows, first)
    } else {
        first
    }
}

// The row behind the condition of a `for`.
fn for_updates(rows: &[Row], condition: u32, has_condition: bool) -> u32
    ensures { condition + 1 < 2 ^ 32 → result ≡ defs.for_updates rows.now condition has_condition }
{
    if has_condition {
        end_at(rows, condition)
    } else {
        condition
    }
}

// The act at which a turn of a `for` begins.
fn for_start(has_first: bool) -> u32
    ensures { result ≡ defs.for_start has_first }
{
    if has_first { 1 } else { 0 }
}

// The first part, and then in turns the condition, the body and the updates.
fn write_for(
    rows: &[Row],
    acts: &mut Acts,
    at: u32,
    has_first: bool,
    has_condition: bool,
) -> Result<(), OutOfMemory>
    ensures { at + 2 < 2 ^ 32 → end rows.now (at + 1) + 1 < 2 ^ 32 → OnOk result (seen acts.new ≡ seen acts.old ++ defs.for_acts rows.now at has_first has_condition) }
{
    let condition = for_condition(rows, at, has_first);
    let updates = for_updates(rows, condition, has_condition);
    let body = last_part(rows, at);
    write_first(acts, at, has_first)?;
    write_test(acts, condition, has_condition)?;
    acts.push(Act::Part { row: body })?;
    let room = end_at(rows, at).saturating_sub(at);
    write_siblings(rows, acts, updates, body, room)?;
    acts.push(Act::Go {
        to: for_start(has_first),
    })
}

// One of the siblings is a label `default`.
fn has_default(rows: &[Row], from: u32, stop: u32, room: u32) -> bool
    ensures { result ≡ list_any (λ k. defs.is_default (label rows.now k)) (defs.siblings rows.now room from stop) }
{
    let mut part = from;
    for _turn in 0..room {
        if part >= stop {
            return false;
        }
        if is_default(rows, part) {
            return true;
        }
        part = end_at(rows, part);
    }
    false
}

// The group of a switch has a label `default`.
fn is_default_group(rows: &[Row], at: u32) -> bool
    ensures { at + 1 < 2 ^ 32 → result ≡ defs.is_default_group rows.now at }
{
    let end = end_at(rows, at);
    has_default(rows, at.saturating_add(1), end, end.saturating_sub(at))
}

// One of the groups has a label `default`.
fn has_default_group(rows: &[Row], from: u32, stop: u32, room: u32) -> bool
    ensures { result ≡ list_any (defs.is_default_group rows.now) (defs.siblings rows.now room from stop) }
{
    let mut group = from;
    for _turn in 0..room {
        if group >= stop {
            return false;
        }
        if is_default_group(rows, group) {
            return true;
        }
        group = end_at(rows, group);
    }
    false
}

fn write_switch(rows: &[Row], acts: &mut Acts, at: u32) -> Result<(), OutOfMemory>
    ensures { at + 2 < 2 ^ 32 → OnOk result (seen acts.new ≡ seen acts.old ++ defs.switch_acts rows.now at) }
{
    let value = at.saturating_add(1);
    let groups = end_at(rows, value);
    let end = end_at(rows, at);
    let room = end.saturating_sub(at);
    acts.push(Act::Part { row: value })?;
    acts.push(Act::Choose {
        has_default: has_default_group(rows, groups, end, room),
    })?;
    write_siblings(rows, acts, groups, end, room)
}

fn write_jump(
    rows: &[Row],
    acts: &mut Acts,
    at: u32,
    completion: Completion,
) -> Result<(), OutOfMemory>
    ensures { at + 1 < 2 ^ 32 → OnOk result (seen acts.new ≡ seen acts.old ++ defs.parts rows.now at ++ defs.jump (completion_seen completion) ∷ []) }
{
    write_behind(rows, acts, at, Act::Jump { completion })
}

// Writes what a loop does, a branch or a jump, or else an expression.
fn write_branch(view: &View, acts: &mut Acts, at: u32, label: &Label) -> Result<(), OutOfMemory>
    ensures { at + 2 < 2 ^ 32 → end (rows_in view.now) (at + 1) + 1 < 2 ^ 32 → (m : Meaning) → IsViewOf view.now m → is_direct label.now ≡ false
        → OnOk result (seen acts.new ≡ seen acts.old ++ defs.acts_by label.now (rows_in view.now) m at) }
{
    let rows = view.sight.world.under.rows;
    match label {
        Label::If => write_if(rows, acts, at),
        Label::While => write_while(rows, acts, at),
        Label::Do => write_do(rows, acts, at),
        Label::For {
            has_first,
            has_condition,
        } => write_for(rows, acts, at, *has_first, *has_condition),
        Label::Switch => write_switch(rows, acts, at),
        Label::Break { has_label } => write_jump(rows, acts, at, breaks(view, at, *has_label)),
        Label::Continue { has_label } => {
            write_jump(rows, acts, at, continues(view, at, *has_label))
        }
        Label::Return => write_jump(rows, acts, at, Completion::Return),
        Label::Throw => write_jump(rows, acts, at, Completion::Throw),
        _ => write_expression(view, acts, at, label),
    }
}

/// Writes all that a row does, by its label.
pub(crate) fn write_row(
    view: &View,
    acts: &mut Acts,
    at: u32,
    label: &Label,
) -> Result<(), OutOfMemory>
    ensures { at + 2 < 2 ^ 32 → end (rows_in view.now) (at + 1) + 1 < 2 ^ 32 → (m : Meaning) → IsViewOf view.now m
        → OnOk result (seen acts.new ≡ seen acts.old ++ defs.acts_by label.now (rows_in view.now) m at) }
{
    let rows = view.sight.world.under.rows;
    let node = Act::Node { row: at };
    match label {
        Label::Method { .. } => write_callable(rows, acts, at),
        Label::Constructor { .. } => write_callable(rows, acts, at),
        Label::Field { .. } => write_behind(rows, acts, at, Act::Event { row: at }),
        Label::Parameter { .. } => write_parameter(rows, acts, at),
        Label::Local { .. } => write_local(rows, acts, at),
        Label::Skip => acts.push(node),
        Label::Eval => write_behind(rows, acts, at, node),
        Label::Locals => write_behind(rows, acts, at, node),
        Label::Case => Ok(()),
        Label::Try { .. } => acts.push(Act::Part {
            row: at.saturating_add(1),
        }),
        _ => write_branch(view, acts, at, label),
    }
}
