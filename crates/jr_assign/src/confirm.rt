// The last part of each row is known, and each row has the parts that are read.
ghost use Rattle.std.specs.Prelude.{◌≡◌, ◌<◌, ◌^◌, IfOk, length};
ghost use Rattle.jr_tree.specs.Rows.{label};
ghost use Rattle.jr_assign.specs.Assigned as tell;
ghost use Rattle.jr_assign.specs.Confirmed as sure;

use crate::course::{end_of, is_guarded, parent_of, second_of, third_of, update_of};
use crate::fact::{Fact, fact_of};
use jr_base::OutOfMemory;
use jr_tree::{Label, Row};
use std::alloc::Global;

fn ends_by(part: Option<u32>, at: usize) -> bool
    ensures { result ≡ tell.ends_by part at }
{
    match part {
        None => false,
        Some(part) => part as usize >= at,
    }
}

fn has_first(rows: &[Row], at: usize) -> bool
    requires { at < 2 ^ 60 }
    ensures { result ≡ tell.has_first rows.now at }
{
    at + 1 < end_of(rows, at)
}

fn has_second(rows: &[Row], at: usize) -> bool
    requires { at < 2 ^ 60 }
    ensures { result ≡ tell.has_second rows.now at }
{
    second_of(rows, at) < end_of(rows, at)
}

fn has_third(rows: &[Row], at: usize) -> bool
    requires { at < 2 ^ 60 }
    ensures { result ≡ tell.has_third rows.now at }
{
    third_of(rows, at) < end_of(rows, at)
}

fn has_parts_in(label: &Label, rows: &[Row], facts: &[Fact], at: usize) -> bool
    requires { at < 2 ^ 60 }
    ensures { result ≡ tell.has_parts_in label.now rows.now facts.now at }
{
    match label {
        Label::If => has_second(rows, at),
        Label::While => has_second(rows, at),
        Label::Do => has_second(rows, at),
        Label::For {
            has_first,
            has_condition,
        } => ends_by(
            fact_of(facts, at).last,
            update_of(rows, at, *has_first, *has_condition),
        ),
        Label::Switch => has_first(rows, at),
        Label::Try { .. } => has_first(rows, at),
        Label::Conditional => has_third(rows, at),
        Label::Binary { .. } => has_second(rows, at),
        Label::Unary { .. } => has_first(rows, at),
        Label::Paren => has_first(rows, at),
        _ => true,
    }
}

fn has_parts(rows: &[Row], facts: &[Fact], at: usize) -> bool
    requires { at < 2 ^ 60 }
    ensures { result ≡ tell.has_parts rows.now facts.now at }
{
    match rows.get(at) {
        Some(row) => has_parts_in(&row.label, rows, facts, at),
        None => true,
    }
}

fn is_last(part: Option<u32>, rows: &[Row], at: usize) -> bool
    requires { at < 2 ^ 60 }
    ensures { result ≡ tell.is_last part rows.now at }
{
    match part {
        None => !has_first(rows, at),
        Some(part) => {
            let last = part as usize;
            at < last && parent_of(rows, last) == at && end_of(rows, last) >= end_of(rows, at)
        }
    }
}

/// The last part of each row is known.
pub(crate) fn are_last(rows: &[Row], facts: &[Fact]) -> bool
    requires { length rows.now < 2 ^ 32 }
    ensures { result ≡ sure.are_last rows.now facts.now }
{
    let mut are = true;
    for at in 0..rows.len() {
        let is_here = is_last(fact_of(facts, at).last, rows, at);
        are = are && is_here;
    }
    facts.len() == rows.len() && are
}

/// All rows have the parts that are read.
pub(crate) fn have_parts(rows: &[Row], facts: &[Fact]) -> bool
    requires { length rows.now < 2 ^ 32 }
    ensures { result ≡ sure.have_parts rows.now facts.now }
{
    let mut have = true;
    for at in 0..rows.len() {
        let is_here = has_parts(rows, facts, at);
        have = have && is_here;
    }
    have
}

/// The `try` statements with a `finally` in a member.
pub(crate) fn guarded_in(alloc: Global, rows: &[Row], root: u32) -> Result<Vec<u32>, OutOfMemory>
    ensures { IfOk result (λ all. all.items ≡ tell.guarded_in rows.now root) }
{
    let mut all = Vec::new(alloc);
    for inside in 0..end_of(rows, root as usize).saturating_sub(root as usize) {
        let at = root as usize + inside;
        if is_guarded(rows, at) {
            match u32::try_from(at) {
                Ok(row) => all.push(row)?,
                Err(_) => return Err(OutOfMemory),
            }
        }
    }
    Ok(all)
}
