// Where a row stands below another.
ghost use Rattle.std.specs.Prelude.{◌≡◌, ◌+◌, ◌<◌, ◌^◌, length, nat_eq, nat_lt};
ghost use Rattle.jr_tree.specs.Rows as rows;

use jr_places::end_at;
use jr_tree::Row;

/// The row stands right behind the other, as its first child would.
pub fn is_next(over: u32, at: u32) -> bool
    ensures { result ≡ nat_eq at (over + 1) }
{
    match at.checked_sub(1) {
        Some(before) => before == over,
        None => false,
    }
}

/// The row is the second child of the other, no matter what that is.
pub fn is_second(all: &[Row], over: u32, at: u32) -> bool
    ensures { length all.now < 2 ^ 32 → result ≡ nat_eq at (rows.end all.now (over + 1)) }
{
    match over.checked_add(2) {
        Some(_) => at == end_at(all, over + 1),
        None => false,
    }
}

/// The row stands before the end of the other.
pub fn is_before_end(all: &[Row], at: u32, over: u32) -> bool
    ensures { result ≡ nat_lt at (rows.end all.now over) }
{
    match all.get(over as usize) {
        Some(row) => at < row.end,
        None => at <= over,
    }
}
