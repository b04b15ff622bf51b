// Rows by their numbers.
ghost use Rattle.std.specs.Prelude.{◌≡◌, ◌+◌, ◌^◌, ◌<◌, Decides, length};

use jr_tree::Row;

/// How many rows there are, as far as they can be numbered.
pub fn row_count(rows: &[Row]) -> u32
    ensures { length rows.now + 3 < 2 ^ 32 → result ≡ length rows.now }
{
    if rows.len() > u32::MAX as usize {
        u32::MAX
    } else {
        rows.len() as u32
    }
}

/// Whether the rows can be counted, with room for three more.
pub fn are_few(rows: &[Row]) -> bool
    ensures { Decides result (length rows.now + 3 < 2 ^ 32) }
{
    rows.len() < u32::MAX as usize - 2
}
