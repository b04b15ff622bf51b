// Uses of what is to be removed.
ghost use Rattle.std.specs.Prelude.{◌≡◌, IfOk};
ghost use Rattle.jr_delete.specs.Deleting as deleting;

use jr_base::OutOfMemory;
use jr_change::{Project, RowRange};
use jr_draft::refers_to;
use jr_marks::order_of_occurrences;
use std::alloc::Global;

fn is_within(range: RowRange, at: u32) -> bool
    ensures { result ≡ deleting.is_within range at }
{
    range.first <= at && at < range.end
}

// What the row refers to is one of these rows.
fn refers_into(old: &Project, range: RowRange, at: u32) -> bool
    ensures { result ≡ deleting.refers_into old.now range at }
{
    match refers_to(old, at) {
        Some(declared) => is_within(range, declared),
        None => false,
    }
}

// The row stands outside these rows, and refers to one of them.
fn is_use(old: &Project, range: RowRange, at: u32) -> bool
    ensures { result ≡ deleting.is_use old.now range at }
{
    !is_within(range, at) && refers_into(old, range, at)
}

/// The first occurrence outside these rows that refers to one of them.
pub fn first_use(alloc: Global, old: &Project, range: RowRange) -> Result<Option<u32>, OutOfMemory>
    ensures { IfOk result (λ found. found ≡ deleting.first_use old.now range) }
{
    let order = order_of_occurrences(alloc, old.marks.rows)?;
    Ok(first_among(old, range, &order))
}

// The first of these rows that is a use.
fn first_among(old: &Project, range: RowRange, order: &[u32]) -> Option<u32>
    ensures { result ≡ deleting.first_among old.now range order.now }
{
    for at in order {
        if is_use(old, range, *at) {
            return Some(*at);
        }
    }
    None
}
