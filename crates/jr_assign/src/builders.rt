// Finals that are changed where they may not be (JLS 4.12.4, 8.3.1.2).
ghost use Rattle.std.specs.Prelude.{◌≡◌, ◌<◌, ◌^◌, None, OnOk, length, slice_index_or};
ghost use Rattle.jr_tree.specs.Rows.{label};
ghost use Rattle.jr_plain.specs.Search.{all_such};
ghost use Rattle.jr_rule.specs.declared.Rule.TheVariants as rule;
ghost use Rattle.jr_rule.specs.Faults.{AreFaultsOf};
ghost use Rattle.jr_faults.specs.Added.{is_rule, AreOnly};
ghost use Rattle.jr_assign.specs.Changes.{builds, is_fixed, is_changed_wrongly, is_wrong_at, member_in, wrong_rows};

use crate::member::{member_of, members_of};
use crate::parts::{body_of_field, is_interface, is_valued};
use jr_base::OutOfMemory;
use jr_faults::rule_if;
use jr_places::parent_at;
use jr_rule::{Fault, Rule};
use jr_tree::{Label, Row};
use std::alloc::Global;

// The member is a constructor or an initializer that stands in this body.
fn is_builder(rows: &[Row], member: u32, body: u32) -> bool
    ensures { result ≡ builds (label rows.now member) rows.now member body }
{
    match rows.get(member as usize) {
        Some(row) => match row.label {
            Label::Constructor { .. } => parent_at(rows, member) == body,
            Label::Initializer { .. } => parent_at(rows, member) == body,
            Label::Field { .. } => body_of_field(rows, member) == body,
            _ => false,
        },
        None => false,
    }
}

// A variable that the member may not change. Each field of an interface is final.
fn is_final_for(rows: &[Row], at: u32, member: u32) -> bool
    ensures { result ≡ is_fixed (label rows.now at) rows.now at member }
{
    match rows.get(at as usize) {
        Some(row) => match &row.label {
            Label::Local { is_final, .. } => *is_final && is_valued(rows, at),
            Label::Parameter { is_final, .. } => *is_final,
            Label::Field { modifiers, .. } => {
                let body = body_of_field(rows, at);
                (modifiers.is_final || is_interface(rows, parent_at(rows, body)))
                    && (is_valued(rows, at) || !is_builder(rows, member, body))
            }
            _ => false,
        },
        None => false,
    }
}

// The variable that is changed at the row may not be changed there.
fn is_wrong_change(rows: &[Row], members: &[u32], changed: Option<u32>, at: u32) -> bool
    ensures { result ≡ is_changed_wrongly rows.now (member_in members.now) changed at }
{
    match changed {
        Some(variable) => is_final_for(rows, variable, member_of(members, at)),
        None => false,
    }
}

fn changed_at(changed: &[Option<u32>], at: u32) -> Option<u32>
    ensures { result ≡ slice_index_or changed.now at None }
{
    match changed.get(at as usize) {
        Some(variable) => *variable,
        None => None,
    }
}

#[tactic(auto, using(jr_faults::proofs::Told::row_more, jr_faults::proofs::Told::only_more))]
fn note_changes(
    rows: &[Row],
    members: &[u32],
    changed: &[Option<u32>],
    out: &mut Vec<Fault>,
) -> Result<(), OutOfMemory>
    requires { length rows.now < 2 ^ 32 }
    ensures found { OnOk result (AreFaultsOf rule.FinalAssignment (all_such (length rows.now) (is_wrong_at rows.now changed.now (member_in members.now))) out.old.items out.new.items) }
    ensures others { OnOk result (AreOnly (is_rule rule.FinalAssignment) out.old.items out.new.items) }
{
    for n in 0..rows.len() {
        let at = n as u32;
        let is_broken = is_wrong_change(rows, members, changed_at(changed, at), at);
        rule_if(out, is_broken, at, Rule::FinalAssignment)?;
    }
    Ok(())
}

/// Adds the finals that are changed where they may not be, each by the row that refers to it; `changed` has for each row the variable that is
/// changed there.
pub fn change_faults(
    alloc: Global,
    rows: &[Row],
    changed: &[Option<u32>],
    out: &mut Vec<Fault>,
) -> Result<(), OutOfMemory>
    requires { length rows.now < 2 ^ 32 }
    ensures found { OnOk result (AreFaultsOf rule.FinalAssignment (wrong_rows rows.now changed.now) out.old.items out.new.items) }
    ensures others { OnOk result (AreOnly (is_rule rule.FinalAssignment) out.old.items out.new.items) }
{
    let members = members_of(alloc, rows)?;
    note_changes(rows, &members, changed, out)
}
