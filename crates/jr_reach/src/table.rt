// The courses of all rows.
ghost use Rattle.std.specs.Prelude.{◌≡◌, ◌<◌, ◌^◌, IfOk, length};
ghost use Rattle.jr_reach.specs.Statements.{later, entries};

use crate::at::entry_of;
use crate::parts::{Known, no_entry};
use crate::{Entry, Fact};
use jr_base::OutOfMemory;
use jr_tree::Row;
use std::alloc::Global;

/// The courses of all rows, the last row first.
pub fn courses_of(alloc: Global, rows: &[Row], facts: &[Fact]) -> Result<Vec<Entry>, OutOfMemory>
    requires { length rows.now < 2 ^ 32 }
    ensures { IfOk result (λ all. all.items ≡ entries rows.now facts.now (length rows.now)) }
{
    let none = no_entry(alloc);
    let mut all = Vec::new(alloc);
    for done in 0..rows.len() {
        let known = Known {
            rows,
            facts,
            all: &all,
            none: &none,
        };
        let made = entry_of(alloc, known, rows.len() - 1 - done)?;
        all.push(made)?;
    }
    Ok(all)
}

/// The row can complete normally, by the courses of so many rows.
pub fn completes_at(all: &[Entry], total: usize, n: usize) -> bool
    ensures { result ≡ (later total all.now n).own.completes }
{
    if n >= total {
        return true;
    }
    match all.get(total - 1 - n) {
        Some(entry) => entry.own.completes,
        None => true,
    }
}
