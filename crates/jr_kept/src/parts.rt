// Rows that have the parts to which their acts go, and blocks of `finally` round them.
ghost use Rattle.std.specs.Prelude.{◌≡◌, ◌+◌, ◌^◌, ◌<◌, ◌||◌, Decides, length, nat_lt, not, true};
ghost use Rattle.jr_tree.specs.Rows as tree;
ghost use Rattle.jr_flow_defs.specs.Acts as acts;
ghost use Rattle.jr_kept.specs.Waiting as tell;

use crate::dropped::is_either;
use crate::flows::rows_of;
use jr_places::{end_at, parent_at};
use jr_tree::{Label, Row};

// ---- blocks of `finally`

// Where a row ends that is a `try` with a `finally`.
fn try_end(rows: &[Row], at: u32) -> Option<u32>
    ensures { result ≡ tell.try_end rows.now at }
{
    match rows.get(at as usize) {
        Some(row) => match row.label {
            Label::Try { has_finally: true } => Some(row.end),
            _ => None,
        },
        None => None,
    }
}

fn ends_at(end: Option<u32>, at: u32) -> bool
    ensures { result ≡ tell.ends_at end at }
{
    match end {
        Some(end) => at == end,
        None => false,
    }
}

// The row is the block of `finally` of the `try` above it, which is the last row there (JLS 14.20.2).
fn is_finally(rows: &[Row], at: u32) -> bool
    ensures { result ≡ tell.is_finally rows.now at }
{
    match rows.get(at as usize) {
        Some(row) => ends_at(try_end(rows, row.parent), row.end),
        None => false,
    }
}

// The row stands right below the one above it.
fn is_below(rows: &[Row], at: u32) -> bool
    ensures { Decides result (tell.IsBelow rows.now (tree.parent rows.now at) at) }
{
    let over = parent_at(rows, at);
    if over >= at {
        return false;
    }
    at < end_at(rows, over)
}

// The way up from a row came to that of the body, and through no block of `finally`, or it came past the body.
fn is_free_at(body: u32, at: u32, is_held: bool) -> bool
    ensures { result ≡ (nat_lt at body || not is_held) }
{
    at < body || !is_held
}

/// Nothing is pending at a row of the body, since it stands in no block of `finally`.
pub(crate) fn is_free(rows: &[Row], body: u32, row: u32) -> bool
    ensures { Decides result (tell.IsFree rows.now body row) }
{
    let mut at = row;
    let mut is_held = false;
    for _turn in 0..row {
        if at <= body {
            return is_free_at(body, at, is_held);
        }
        if !is_below(rows, at) {
            return true;
        }
        is_held = is_either(is_held, is_finally(rows, at));
        at = parent_at(rows, at);
    }
    is_free_at(body, at, is_held)
}

// ---- parts

fn for_parts(has_first: bool, has_condition: bool) -> u32
    ensures { result ≡ tell.for_parts has_first has_condition }
{
    if has_first {
        if has_condition { 3 } else { 2 }
    } else {
        if has_condition { 2 } else { 1 }
    }
}

fn try_parts(has_finally: bool) -> u32
    ensures { result ≡ tell.try_parts has_finally }
{
    if has_finally { 2 } else { 1 }
}

// How many rows stand right below one of the label at least, where its acts go to one of them by its place.
fn parts_of(label: &Label) -> u32
    ensures { result ≡ tell.parts_by label.now }
{
    match label {
        Label::If => 2,
        Label::While => 2,
        Label::Do => 2,
        Label::For {
            has_first,
            has_condition,
        } => for_parts(*has_first, *has_condition),
        Label::Switch => 1,
        Label::Try { has_finally } => try_parts(*has_finally),
        Label::Conditional => 3,
        Label::Binary { .. } => 2,
        _ => 0,
    }
}

// So many rows stand from one on before the end, each behind the one before.
fn has_rows(rows: &[Row], from: u32, end: u32, count: u32) -> bool
    ensures { result ≡ true → tell.HasRows rows.now from end count }
{
    let mut at = from;
    for _turn in 0..count {
        if at >= end {
            return false;
        }
        at = end_at(rows, at);
    }
    true
}

fn is_catch(label: &Label) -> bool
    ensures { result ≡ acts.is_catch label.now }
{
    match label {
        Label::Catch => true,
        _ => false,
    }
}

// The row has the parts to which its acts go, and is no catch in the place of a `finally`.
fn is_shaped(rows: &[Row], at: u32) -> bool
    ensures { result ≡ true → tell.IsShaped rows.now at }
{
    let Some(row) = rows.get(at as usize) else {
        return false;
    };
    if is_catch(&row.label) && is_finally(rows, at) {
        return false;
    }
    has_rows(rows, at.saturating_add(1), row.end, parts_of(&row.label))
}

fn are_shaped(rows: &[Row], first: u32, end: u32) -> bool
    ensures { result ≡ true → tell.AreShapedTo rows.now first end }
{
    for at in first..end {
        if !is_shaped(rows, at) {
            return false;
        }
    }
    true
}

/// Each row of the body has the parts to which its acts go. The rows of a program that was read do.
pub(crate) fn have_parts(rows: &[Row], body: u32) -> bool
    ensures { body + 1 < 2 ^ 32 → result ≡ true → tell.AreShaped rows.now body }
{
    let range = rows_of(rows, body);
    are_shaped(rows, range.first, range.end)
}
