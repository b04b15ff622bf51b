// Rows of a body by itself: with their parts, targets of jumps in the body, and locals of its own.
ghost use Rattle.std.specs.Prelude.{◌≡◌, ◌+◌, ◌-◌, ◌<◌, ◌^◌};
ghost use Rattle.jr_tree.specs.Rows.{label};
ghost use Rattle.jr_locks.specs.Locked as locked;
ghost use Rattle.jr_flow_defs.specs.Meaning as defs;
ghost use Rattle.jr_flow_defs.specs.Meaning.{Meaning};
ghost use Rattle.jr_flow_laws.specs.Shifted as laws;
ghost use Rattle.jr_meaning.specs.Meaning.{IsMeant};
ghost use Rattle.jr_meaning.specs.Whole as tell;

use crate::nearing::is_target_at;
use crate::reading::{Meant, declared_at};
use jr_change::RowRange;
use jr_locks::row_for;
use jr_places::{end_at, role_at};
use jr_tree::{Label, Role, Row};

/// The innermost loop or switch round each row, and the innermost loop; or no row.
#[derive(Clone, Copy)]
pub(crate) struct Near<'a> {
    pub(crate) targets: &'a [u32],
    pub(crate) loops: &'a [u32],
}

// ---- parts

fn for_parts(has_first: bool, has_condition: bool) -> u32
    ensures { result ≡ laws.for_parts has_first has_condition }
{
    if has_first {
        if has_condition { 3 } else { 2 }
    } else {
        if has_condition { 2 } else { 1 }
    }
}

// How many rows stand right below one of the label at least, where its acts go to one of them by its place.
fn least_parts(label: &Label) -> u32
    ensures { result ≡ laws.least_parts label.now }
{
    match label {
        Label::If => 2,
        Label::While => 2,
        Label::Do => 2,
        Label::For {
            has_first,
            has_condition,
        } => for_parts(*has_first, *has_condition),
        Label::Switch => 1,
        Label::Try { .. } => 1,
        Label::Assign { .. } => 2,
        Label::Conditional => 3,
        Label::Binary { .. } => 2,
        Label::Cast => 2,
        Label::PreStep { .. } => 1,
        Label::PostStep { .. } => 1,
        Label::Paren => 1,
        _ => 0,
    }
}

fn least_parts_at(rows: &[Row], at: u32) -> u32
    ensures { result ≡ laws.least_parts (label rows.now at) }
{
    match rows.get(at as usize) {
        Some(row) => least_parts(&row.label),
        None => 0,
    }
}

// So many rows stand from one on before the end, each behind the one before.
fn has_rows(rows: &[Row], from: u32, end: u32, count: u32) -> bool
    ensures { result ≡ tell.has_rows rows.now from end count }
{
    let mut at = from;
    for _turn in 0..count {
        if at >= end {
            return false;
        }
        at = end_at(rows, at);
    }
    true
}

fn has_parts(rows: &[Row], at: u32) -> bool
    ensures { at + 1 < 2 ^ 32 → result ≡ tell.has_parts rows.now at }
{
    has_rows(
        rows,
        at.saturating_add(1),
        end_at(rows, at),
        least_parts_at(rows, at),
    )
}

// ---- targets of jumps

fn holds(range: RowRange, row: u32) -> bool
    ensures { result ≡ locked.is_within range row }
{
    range.first <= row && row < range.end
}

fn holds_some(range: RowRange, row: Option<u32>) -> bool
    ensures { result ≡ tell.holds_some range row }
{
    match row {
        Some(row) => holds(range, row),
        None => false,
    }
}

// The row behind one that stands before another.
fn next_before(at: u32, end: u32) -> u32
    ensures { at < end → result ≡ at + 1 }
{
    if at < end { at + 1 } else { at }
}

// The label stands in the range, and below it a loop.
fn holds_loop_below(rows: &[Row], range: RowRange, label: u32) -> bool
    ensures { result ≡ tell.holds_loop_below rows.now range label }
{
    if !holds(range, label) {
        return false;
    }
    let next = next_before(label, range.end);
    is_target_at(rows, next, false) && holds(range, next)
}

fn holds_labeled(rows: &[Row], range: RowRange, label: Option<u32>) -> bool
    ensures { result ≡ tell.holds_labeled rows.now range label }
{
    match label {
        Some(label) => holds_loop_below(rows, range, label),
        None => false,
    }
}

// The target of a `break` stands in the range (JLS 14.15).
fn holds_break(read: &Meant, near: Near, range: RowRange, at: u32, has_label: bool) -> bool
    ensures { (m : Meaning) → IsMeant read.now m → result ≡ tell.holds_break m near.entry.targets.now range at has_label }
{
    if has_label {
        holds_some(range, declared_at(read, at))
    } else {
        holds_some(range, row_for(near.targets, at))
    }
}

// The target of a `continue` stands in the range (JLS 14.16).
fn holds_continue(read: &Meant, near: Near, range: RowRange, at: u32, has_label: bool) -> bool
    ensures { (m : Meaning) → IsMeant read.now m → result ≡ tell.holds_continue read.now.rows.now m near.entry.loops.now range at has_label }
{
    if has_label {
        holds_labeled(read.rows, range, declared_at(read, at))
    } else {
        holds_some(range, row_for(near.loops, at))
    }
}

fn holds_target(read: &Meant, near: Near, range: RowRange, at: u32, label: &Label) -> bool
    ensures { (m : Meaning) → IsMeant read.now m → result ≡ tell.holds_target read.now.rows.now m near.entry.targets.now near.entry.loops.now range at label.now }
{
    match label {
        Label::Break { has_label } => holds_break(read, near, range, at, *has_label),
        Label::Continue { has_label } => holds_continue(read, near, range, at, *has_label),
        _ => true,
    }
}

fn holds_target_at(read: &Meant, near: Near, range: RowRange, at: u32) -> bool
    ensures { (m : Meaning) → IsMeant read.now m → result ≡ tell.holds_target read.now.rows.now m near.entry.targets.now near.entry.loops.now range at (label read.now.rows.now at) }
{
    match read.rows.get(at as usize) {
        Some(row) => holds_target(read, near, range, at, &row.label),
        None => true,
    }
}

// ---- locals

fn is_local_role(role: Role) -> bool
    ensures { result ≡ defs.is_local_role role }
{
    match role {
        Role::Local => true,
        Role::Parameter => true,
        _ => false,
    }
}

// What is declared is no local or parameter, or stands in the range (JLS 6.3).
fn holds_local(rows: &[Row], range: RowRange, declared: Option<u32>) -> bool
    ensures { result ≡ tell.holds_local rows.now range declared }
{
    match declared {
        Some(row) => {
            if is_local_role(role_at(rows, row)) {
                holds(range, row)
            } else {
                true
            }
        }
        None => true,
    }
}

/// The row of a range has its parts, a jump has its target there, and the locals are of the range.
pub(crate) fn is_whole_at(read: &Meant, near: Near, range: RowRange, at: u32) -> bool
    ensures { at + 1 < 2 ^ 32 → (m : Meaning) → IsMeant read.now m → result ≡ tell.is_whole_at read.now.rows.now m near.entry.targets.now near.entry.loops.now range at }
{
    has_parts(read.rows, at)
        && holds_target_at(read, near, range, at)
        && holds_local(read.rows, range, declared_at(read, at))
}
