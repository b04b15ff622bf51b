// A body before and after the change.
ghost use Rattle.std.specs.Prelude.{◌≡◌, ◌+◌, ◌-◌, ◌<◌, ◌≤◌, ◌^◌, ◌&&◌, ℕ, if◌then◌else◌, None, Some, IfOk, IfSome, Decides, length, nat_lt, not};
ghost use Rattle.jr_tree.specs.Rows as tree;
ghost use Rattle.jr_flow_defs.specs.Acts as acts;
ghost use Rattle.jr_kept.specs.Courses.{AreBodies, IsBodyRound};

use crate::names::Names;
use jr_base::OutOfMemory;
use jr_change::RowRange;
use jr_flow::{Graph, bodies};
use jr_places::end_at;
use jr_tree::{Label, Row};
use std::alloc::Global;

/// The flow of a body before and after the change.
#[derive(Clone, Copy)]
pub(crate) struct Flows<'a> {
    pub(crate) names: Names<'a>,
    pub(crate) before: &'a Graph,
    /// The rows of the changed program.
    pub(crate) rows: &'a [Row],
    pub(crate) after: &'a Graph,
    /// The rows of the changed program at which the points of `after` stand.
    pub(crate) span: RowRange,
    /// The old row of which each row of the changed program is a copy, or `NO_ROW`.
    pub(crate) origin: &'a [u32],
}

/// The rows of a declaration.
pub(crate) fn rows_of(rows: &[Row], at: u32) -> RowRange
    ensures first { result.first ≡ at }
    ensures few { result.end < 2 ^ 32 }
    ensures near { result.first < 2 ^ 32 }
    ensures end { at + 1 < 2 ^ 32 → result.end ≡ tree.end rows.now at }
{
    RowRange {
        first: at,
        end: end_at(rows, at),
    }
}

/// The row lies in the range.
pub(crate) fn is_within(range: RowRange, row: u32) -> bool
    ensures { result ≡ (not (nat_lt row range.first) && nat_lt row range.end) }
{
    range.first <= row && row < range.end
}

/// How many rows a range has.
pub(crate) fn count_rows(range: RowRange) -> usize
    ensures { result ≡ range.end - range.first }
{
    range.end.saturating_sub(range.first) as usize
}

/// The row is a parameter, of a method or of a catch.
pub(crate) fn is_parameter(rows: &[Row], at: u32) -> bool
    ensures { result ≡ acts.is_parameter (tree.label rows.now at) }
{
    match rows.get(at as usize) {
        Some(row) => match row.label {
            Label::Parameter { .. } => true,
            _ => false,
        },
        None => false,
    }
}

// The row stands in the body.
fn is_in_body(rows: &[Row], body: u32, row: u32) -> bool
    ensures { body + 1 < 2 ^ 32 → Decides result ((body ≤ row) × (row < tree.end rows.now body)) }
{
    is_within(rows_of(rows, body), row)
}

fn last_if(found: Option<u32>, is_such: bool, body: u32) -> Option<u32>
    ensures { result ≡ (if is_such then Some body else found) }
{
    if is_such { Some(body) } else { found }
}

// The last of some bodies in which a row stands.
fn body_among(rows: &[Row], bodies: &[u32], row: u32) -> Option<u32>
    ensures round { length rows.now < 2 ^ 32 → AreBodies rows.now bodies.now → IfSome result (λ body. IsBodyRound rows.now row body) }
    ensures none { length rows.now < 2 ^ 32 → AreBodies rows.now bodies.now → result ≡ None → (body : ℕ) → IsBodyRound rows.now row body → ⊥ }
{
    let mut found = None;
    for body in bodies {
        found = last_if(found, is_in_body(rows, *body, row), *body);
    }
    found
}

/// The innermost body in which a row stands.
pub(crate) fn body_round(alloc: Global, rows: &[Row], row: u32) -> Result<Option<u32>, OutOfMemory>
    ensures round { length rows.now < 2 ^ 32 → IfOk result (λ found. IfSome found (λ body. IsBodyRound rows.now row body)) }
    ensures none { length rows.now < 2 ^ 32 → IfOk result (λ found. found ≡ None → (body : ℕ) → IsBodyRound rows.now row body → ⊥) }
{
    let all = bodies(alloc, rows)?;
    Ok(body_among(rows, &all, row))
}
