// `switch`, labels, catches and enclosing instances (JLS 14.7, 14.11, 14.20, 15.8.4).
ghost use Rattle.std.specs.Prelude.{◌≡◌, ◌++◌, OnOk};
ghost use Rattle.jr_core.specs.Mirror as m;
ghost use Rattle.jr_core.specs.Mirror.{plain_code};
ghost use Rattle.jr_machine_defs.specs.Control.{is_case, has_case, has_default, group_work, groups_work, cases_from, default_from, or_default, chosen, relabeled};

use crate::parts::push_after_body;
use jr_base::OutOfMemory;
use jr_core::{Code, Group, SwitchLabel};
use jr_machine_defs::{CodeRef, Stack, Work};
use jr_machine_ops::push_codes;

fn is_case(value: i32, label: SwitchLabel) -> bool
    ensures { result ≡ is_case value label }
{
    match label {
        SwitchLabel::Case(case) => case == value,
        SwitchLabel::Default => false,
    }
}

fn has_case(value: i32, labels: &[SwitchLabel]) -> bool
    ensures { result ≡ has_case value labels.now }
{
    for label in labels {
        if is_case(value, *label) {
            return true;
        }
    }
    false
}

fn has_default(labels: &[SwitchLabel]) -> bool
    ensures { result ≡ has_default labels.now }
{
    for label in labels {
        match label {
            SwitchLabel::Default => return true,
            SwitchLabel::Case(_) => {}
        }
    }
    false
}

/// The groups from the first with this case on.
fn cases_from<'a>(value: i32, mut groups: &'a [Group]) -> &'a [Group]
    ensures { m.plain_groups result.now ≡ cases_from value (m.plain_groups groups.entry.now) }
{
    while let [first, rest @ ..] = groups {
        if has_case(value, first.labels.as_slice()) {
            break;
        }
        groups = rest;
    }
    groups
}

/// The groups from that with the default on.
fn default_from<'a>(mut groups: &'a [Group]) -> &'a [Group]
    ensures { m.plain_groups result.now ≡ default_from (m.plain_groups groups.entry.now) }
{
    while let [first, rest @ ..] = groups {
        if has_default(first.labels.as_slice()) {
            break;
        }
        groups = rest;
    }
    groups
}

#[tactic(auto, using(crate::proofs::Choosing::or_default_some, crate::proofs::Choosing::or_default_none))]
fn or_default<'a>(found: &'a [Group], groups: &'a [Group]) -> &'a [Group]
    ensures { m.plain_groups result.now ≡ or_default (m.plain_groups found.entry.now) (m.plain_groups groups.entry.now) }
{
    if found.len() > 0 {
        found
    } else {
        default_from(groups)
    }
}

/// The groups that a switch goes on with (JLS 14.11).
pub fn chosen<'a>(value: i32, groups: &'a [Group]) -> &'a [Group]
    ensures { m.plain_groups result.now ≡ chosen value (m.plain_groups groups.entry.now) }
{
    or_default(cases_from(value, groups), groups)
}

fn push_group<'a>(stack: &mut Stack<Work<'a>>, group: &'a Group) -> Result<(), OutOfMemory>
    ensures { OnOk result (stack.new ≡ group_work (m.plain_group group.entry.now) ++ stack.old) }
{
    push_codes(stack, group.stmts.as_slice())
}

/// Puts the statements of these groups on top, the first uppermost.
#[tactic(auto, using(jr_machine_ops::proofs::Joining::append_three, jr_machine_ops::proofs::Joining::groups_more))]
pub fn push_groups<'a>(stack: &mut Stack<Work<'a>>, groups: &'a [Group]) -> Result<(), OutOfMemory>
    ensures { OnOk result (stack.new ≡ groups_work (m.plain_groups groups.entry.now) ++ stack.old) }
{
    let mut left = groups.len();
    while left > 0 {
        left -= 1;
        push_group(stack, &groups[left])?;
    }
    Ok(())
}

/// Puts the labels directly round a loop back, and then what follows its body (JLS 14.16).
pub fn push_relabeled<'a>(
    stack: &mut Stack<Work<'a>>,
    mut code: &'a Code,
) -> Result<(), OutOfMemory>
    ensures { OnOk result (stack.new ≡ relabeled (plain_code code.entry.now) stack.old) }
{
    while let Code::Labeled { body, .. } = code {
        stack.push(Work::Finish(CodeRef::new(code)))?;
        code = body.get();
    }
    push_after_body(stack, code)
}
