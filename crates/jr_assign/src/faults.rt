// The faults of the rules on assignment.
ghost use Rattle.std.specs.Prelude.{◌≡◌, ◌<◌, ◌^◌, true, None, IfOk, OnOk, length, replicate};
ghost use Rattle.jr_tree.specs.Tree.{IsTree};
ghost use Rattle.jr_rule.specs.declared.Rule.TheVariants as rule;
ghost use Rattle.jr_rule.specs.Faults.{AreFaultsOf};
ghost use Rattle.jr_faults.specs.Added.{is_rule, AreOnly};
ghost use Rattle.jr_assign.specs.Changes.{Facts, is_of_courses, members};
ghost use Rattle.jr_assign.specs.Confirmed.{are_last, have_parts};
ghost use Rattle.jr_assign.specs.Judged as tell;
ghost use Rattle.jr_assign.specs.Made as made;

use crate::confirm::{are_last, have_parts};
use crate::fact::{Fact, fact_of};
use crate::fields::judge_fields;
use crate::locals::judge_locals;
use crate::member::members_of;
use crate::parts::is_blank;
use jr_base::OutOfMemory;
use jr_faults::rule_if;
use jr_rule::{Fault, Rule};
use jr_tree::Row;
use std::alloc::Global;

// The variable is asked for and not assigned.
fn is_lost(asked: Option<u32>, verdict: Option<bool>) -> bool
    ensures { result ≡ tell.is_lost asked verdict }
{
    match (asked, verdict) {
        (Some(_), Some(false)) => true,
        _ => false,
    }
}

// Where a variable is asked for it is judged.
fn is_settled(asked: Option<u32>, verdict: Option<bool>) -> bool
    ensures { result ≡ tell.is_settled asked verdict }
{
    match (asked, verdict) {
        (Some(_), None) => false,
        _ => true,
    }
}

fn verdict_at(verdicts: &[Option<bool>], at: usize) -> Option<bool>
    ensures { result ≡ tell.verdict verdicts.now at }
{
    match verdicts.get(at) {
        Some(verdict) => *verdict,
        None => None,
    }
}

// Adds the locals that are read and not assigned.
#[tactic(auto, using(jr_faults::proofs::Told::row_more, jr_faults::proofs::Told::only_more))]
fn note_reads(
    rows: &[Row],
    facts: &[Fact],
    verdicts: &[Option<bool>],
    out: &mut Vec<Fault>,
) -> Result<(), OutOfMemory>
    requires { length rows.now < 2 ^ 32 }
    ensures found { OnOk result (AreFaultsOf rule.UnassignedLocal (tell.lost_rows rows.now facts.now verdicts.now) out.old.items out.new.items) }
    ensures others { OnOk result (AreOnly (is_rule rule.UnassignedLocal) out.old.items out.new.items) }
{
    for at in 0..rows.len() {
        let is_broken = is_lost(fact_of(facts, at).read, verdict_at(verdicts, at));
        rule_if(out, is_broken, at as u32, Rule::UnassignedLocal)?;
    }
    Ok(())
}

// Each local that is read is judged.
fn are_settled(rows: &[Row], facts: &[Fact], verdicts: &[Option<bool>]) -> bool
    ensures { result ≡ tell.are_settled rows.now facts.now verdicts.now }
{
    let mut are = true;
    for at in 0..rows.len() {
        let is_here = is_settled(fact_of(facts, at).read, verdict_at(verdicts, at));
        are = are && is_here;
    }
    are
}

// The row, if it is a blank final field.
fn blank_field(rows: &[Row], at: u32) -> Option<u32>
    ensures { result ≡ made.blank_field rows.now at }
{
    if is_blank(rows, at) {
        return Some(at);
    }
    None
}

// Adds the blank final fields that are not assigned.
#[tactic(auto, using(jr_faults::proofs::Told::row_more, jr_faults::proofs::Told::only_more))]
fn note_blanks(
    rows: &[Row],
    verdicts: &[Option<bool>],
    out: &mut Vec<Fault>,
) -> Result<(), OutOfMemory>
    requires { length rows.now < 2 ^ 32 }
    ensures found { OnOk result (AreFaultsOf rule.UnassignedFinal (made.left_rows rows.now verdicts.now) out.old.items out.new.items) }
    ensures others { OnOk result (AreOnly (is_rule rule.UnassignedFinal) out.old.items out.new.items) }
{
    for n in 0..rows.len() {
        let at = n as u32;
        let is_broken = is_lost(blank_field(rows, at), verdict_at(verdicts, n));
        rule_if(out, is_broken, at, Rule::UnassignedFinal)?;
    }
    Ok(())
}

// Each blank final field is judged.
fn are_fields_settled(rows: &[Row], verdicts: &[Option<bool>]) -> bool
    requires { length rows.now < 2 ^ 32 }
    ensures { result ≡ made.are_fields_settled rows.now verdicts.now }
{
    let mut are = true;
    for n in 0..rows.len() {
        let is_here = is_settled(blank_field(rows, n as u32), verdict_at(verdicts, n));
        are = are && is_here;
    }
    are
}

fn no_verdicts(alloc: Global, rows: &[Row]) -> Result<Vec<Option<bool>>, OutOfMemory>
    ensures { IfOk result (λ all. all.items ≡ replicate (length rows.now) None) }
{
    Ok(vec![in alloc; None; rows.len()]?)
}

// Adds the locals that are read and not assigned, by what is judged.
fn note_lost(
    rows: &[Row],
    facts: &[Fact],
    verdicts: &[Option<bool>],
    out: &mut Vec<Fault>,
) -> Result<(), OutOfMemory>
    requires { length rows.now < 2 ^ 32 }
    ensures exact { IsTree rows.now → are_last rows.now facts.now ≡ true → have_parts rows.now facts.now ≡ true → tell.AreJudged rows.now facts.now (members rows.now (length rows.now)) verdicts.now → OnOk result (tell.AreUnassignedReads rows.now facts.now out.old.items out.new.items) }
    ensures others { OnOk result (AreOnly (is_rule rule.UnassignedLocal) out.old.items out.new.items) }
{
    if !are_settled(rows, facts, verdicts) {
        return Err(OutOfMemory);
    }
    note_reads(rows, facts, verdicts, out)?;
    Ok(())
}

// Adds the blank final fields that are not assigned, by what is judged.
fn note_left(
    rows: &[Row],
    verdicts: &[Option<bool>],
    out: &mut Vec<Fault>,
) -> Result<(), OutOfMemory>
    requires { length rows.now < 2 ^ 32 }
    ensures exact { (f : Facts) → IsTree rows.now → are_last rows.now f ≡ true → have_parts rows.now f ≡ true → made.AreFieldsJudged rows.now f verdicts.now → OnOk result (made.AreLeftBlank rows.now f out.old.items out.new.items) }
    ensures others { OnOk result (AreOnly (is_rule rule.UnassignedFinal) out.old.items out.new.items) }
{
    if !are_fields_settled(rows, verdicts) {
        return Err(OutOfMemory);
    }
    note_blanks(rows, verdicts, out)?;
    Ok(())
}

// Adds the locals that are read and not assigned.
fn read_faults(
    alloc: Global,
    rows: &[Row],
    facts: &[Fact],
    size: u32,
    out: &mut Vec<Fault>,
) -> Result<(), OutOfMemory>
    requires { length rows.now < 2 ^ 32 }
    ensures exact { IsTree rows.now → are_last rows.now facts.now ≡ true → have_parts rows.now facts.now ≡ true → OnOk result (tell.AreUnassignedReads rows.now facts.now out.old.items out.new.items) }
    ensures others { OnOk result (AreOnly (is_rule rule.UnassignedLocal) out.old.items out.new.items) }
{
    let members = members_of(alloc, rows)?;
    let mut verdicts = no_verdicts(alloc, rows)?;
    judge_locals(alloc, rows, facts, &members, size, &mut verdicts)?;
    note_lost(rows, facts, &verdicts, out)
}

// Adds the blank final fields that are not assigned at an end.
fn blank_faults(
    alloc: Global,
    rows: &[Row],
    facts: &[Fact],
    size: u32,
    out: &mut Vec<Fault>,
) -> Result<(), OutOfMemory>
    requires { length rows.now < 2 ^ 32 }
    ensures exact { IsTree rows.now → are_last rows.now facts.now ≡ true → have_parts rows.now facts.now ≡ true → OnOk result (made.AreLeftBlank rows.now facts.now out.old.items out.new.items) }
    ensures others { OnOk result (AreOnly (is_rule rule.UnassignedFinal) out.old.items out.new.items) }
{
    let mut verdicts = no_verdicts(alloc, rows)?;
    judge_fields(alloc, rows, facts, size, &mut verdicts)?;
    note_left(rows, &verdicts, out)
}

// Adds both, where the parts of all rows are known.
#[tactic(auto, using(jr_faults::proofs::Told::only_then))]
fn all_faults(
    alloc: Global,
    rows: &[Row],
    facts: &[Fact],
    out: &mut Vec<Fault>,
) -> Result<(), OutOfMemory>
    requires { length rows.now < 2 ^ 32 }
    ensures exact { IsTree rows.now → are_last rows.now facts.now ≡ true → have_parts rows.now facts.now ≡ true → OnOk result (tell.AreUnassignedReads rows.now facts.now out.old.items out.new.items) }
    ensures blank { IsTree rows.now → are_last rows.now facts.now ≡ true → have_parts rows.now facts.now ≡ true → OnOk result (made.AreLeftBlank rows.now facts.now out.old.items out.new.items) }
    ensures only { OnOk result (AreOnly is_of_courses out.old.items out.new.items) }
{
    let size = rows.len() as u32;
    read_faults(alloc, rows, facts, size, out)?;
    blank_faults(alloc, rows, facts, size, out)?;
    Ok(())
}

/// Adds the locals that are read and not assigned, and the blank final fields that are not assigned at an end, each by its row.
pub fn assignment_faults(
    alloc: Global,
    rows: &[Row],
    facts: &[Fact],
    out: &mut Vec<Fault>,
) -> Result<(), OutOfMemory>
    requires { length rows.now < 2 ^ 32 }
    ensures lasts { OnOk result (are_last rows.now facts.now ≡ true) }
    ensures exact { IsTree rows.now → OnOk result (tell.AreUnassignedReads rows.now facts.now out.old.items out.new.items) }
    ensures blank { IsTree rows.now → OnOk result (made.AreLeftBlank rows.now facts.now out.old.items out.new.items) }
    ensures only { OnOk result (AreOnly is_of_courses out.old.items out.new.items) }
{
    if !are_last(rows, facts) {
        return Err(OutOfMemory);
    }
    if !have_parts(rows, facts) {
        return Err(OutOfMemory);
    }
    all_faults(alloc, rows, facts, out)
}
