// Parts of rows, and what is known of them.
ghost use Rattle.std.specs.Prelude.{◌≡◌, ◌<◌, ◌≤◌, ◌+◌, ◌^◌, IfOk, length};
ghost use Rattle.jr_tree.specs.Rows.{parent, end, label};
ghost use Rattle.jr_reach.specs.Courses.{begun};
ghost use Rattle.jr_reach.specs.Statements.{nothing, later, is_catch, has_next, kids, for_condition};

use crate::course::{copied, start};
use crate::{Course, Entry, Fact};
use jr_base::OutOfMemory;
use jr_tree::{Label, Row};
use std::alloc::Global;

// What is known where a row gets its course.
#[derive(Clone, Copy)]
pub(crate) struct Known<'a> {
    pub(crate) rows: &'a [Row],
    pub(crate) facts: &'a [Fact],
    // The entries of the last rows, the last one first.
    pub(crate) all: &'a [Entry],
    // That of no row.
    pub(crate) none: &'a Entry,
}

impl<'a> Known<'a> {
    // The entry of a row.
    pub(crate) fn entry(self, n: usize) -> &'a Entry
        requires none { self.none.now ≡ nothing }
        ensures { result.now ≡ later (length self.entry.rows.now) self.entry.all.now n }
    {
        let total = self.rows.len();
        if n >= total {
            return self.none;
        }
        match self.all.get(total - 1 - n) {
            Some(entry) => entry,
            None => self.none,
        }
    }
}

// The number after what stands below a row; past the end, that of a row alone.
pub(crate) fn end_of(rows: &[Row], n: usize) -> usize
    requires { n < 2 ^ 33 }
    ensures is { result ≡ end rows.now n }
    ensures most { result ≤ n + 2 ^ 32 }
{
    match rows.get(n) {
        Some(row) => row.end as usize,
        None => n + 1,
    }
}

pub(crate) fn parent_of(rows: &[Row], n: usize) -> usize
    requires { n < length rows.now }
    ensures is { result ≡ parent rows.now n }
    ensures most { result < 2 ^ 32 }
{
    rows[n].parent as usize
}

/// What is known of no row.
pub(crate) fn no_entry(alloc: Global) -> Entry
    ensures { result ≡ nothing }
{
    Entry {
        own: start(alloc),
        rest: start(alloc),
    }
}

pub(crate) fn catches(rows: &[Row], n: usize) -> bool
    ensures { result ≡ is_catch (label rows.now n) }
{
    match rows.get(n) {
        Some(row) => match row.label {
            Label::Catch => true,
            _ => false,
        },
        None => false,
    }
}

// There is a row behind it with the same parent.
pub(crate) fn is_followed(rows: &[Row], n: usize) -> bool
    requires there { n < length rows.now }
    requires few { length rows.now < 2 ^ 32 }
    ensures { result ≡ has_next rows.now n }
{
    end_of(rows, n) < end_of(rows, parent_of(rows, n))
}

// All that stands right below the row, one after the other.
pub(crate) fn below(alloc: Global, known: Known, n: usize) -> Result<Course, OutOfMemory>
    requires there { n < length known.rows.now }
    requires few { length known.rows.now < 2 ^ 32 }
    requires none { known.none.now ≡ nothing }
    ensures { IfOk result (λ course. course ≡ kids known.entry.rows.now (later (length known.entry.rows.now) known.entry.all.now) n) }
{
    if n + 1 < end_of(known.rows, n) {
        return copied(alloc, &known.entry(n + 1).rest);
    }
    Ok(start(alloc))
}

// The condition of a `for`.
pub(crate) fn condition_of(rows: &[Row], n: usize, has_first: bool) -> usize
    requires { n < 2 ^ 32 }
    ensures { result ≡ for_condition rows.now n has_first }
{
    if has_first {
        end_of(rows, n + 1)
    } else {
        n + 1
    }
}
