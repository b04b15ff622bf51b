// Which rows can be reached.
ghost use Rattle.std.specs.Prelude.{◌≡◌, ◌<◌, ◌^◌, IfOk, length};
ghost use Rattle.jr_tree.specs.Rows.{label};
ghost use Rattle.jr_reach.specs.Statements.{later};
ghost use Rattle.jr_reach.specs.Reached.{is_switch_label, behind, is_no, reached_at, earlier, reaches};

use crate::fact::fact_of;
use crate::parts::{condition_of, parent_of};
use crate::table::completes_at;
use crate::{Entry, Fact};
use jr_base::OutOfMemory;
use jr_tree::{Label, Row};
use std::alloc::Global;

pub(crate) fn was_reached(before: &[bool], n: usize) -> bool
    ensures { result ≡ earlier before.now n }
{
    match before.get(n) {
        Some(reached) => *reached,
        None => true,
    }
}

fn labels_switch(rows: &[Row], n: usize) -> bool
    ensures { result ≡ is_switch_label (label rows.now n) }
{
    match rows.get(n) {
        Some(row) => match row.label {
            Label::Case => true,
            Label::Default => true,
            _ => false,
        },
        None => false,
    }
}

// First in what is round it, or behind a statement that can be reached and can complete.
fn is_behind(rows: &[Row], all: &[Entry], before: &[bool], n: usize) -> bool
    requires { n < length rows.now }
    ensures { result ≡ behind rows.now (later (length rows.now) all.now) (earlier before.now) n }
{
    let sibling = rows[n].previous as usize;
    let over = rows[n].parent as usize;
    if sibling == over || labels_switch(rows, sibling) {
        return was_reached(before, over);
    }
    was_reached(before, sibling) && completes_at(all, rows.len(), sibling)
}

fn is_false(truth: Option<bool>) -> bool
    ensures { result ≡ is_no truth }
{
    match truth {
        Some(false) => true,
        _ => false,
    }
}

// Whether a row can be reached, by those before it.
fn is_reached(rows: &[Row], facts: &[Fact], all: &[Entry], before: &[bool], n: usize) -> bool
    requires there { n < length rows.now }
    requires few { length rows.now < 2 ^ 32 }
    ensures { result ≡ reached_at rows.now facts.now (later (length rows.now) all.now) (earlier before.now) n }
{
    let over = parent_of(rows, n);
    let around = was_reached(before, over);
    match rows.get(over) {
        None => around,
        Some(row) => match &row.label {
            Label::Block => is_behind(rows, all, before, n),
            Label::Group => is_behind(rows, all, before, n),
            Label::While => around && !is_false(fact_of(facts, over + 1).truth),
            Label::For {
                has_first,
                has_condition: true,
            } => around && !is_false(fact_of(facts, condition_of(rows, over, *has_first)).truth),
            _ => around,
        },
    }
}

/// Which rows can be reached, by the courses of all.
pub fn reached_of(
    alloc: Global,
    rows: &[Row],
    facts: &[Fact],
    all: &[Entry],
) -> Result<Vec<bool>, OutOfMemory>
    requires { length rows.now < 2 ^ 32 }
    ensures { IfOk result (λ found. found.items ≡ reaches rows.now facts.now (later (length rows.now) all.now) (length rows.now)) }
{
    let mut found = Vec::new(alloc);
    for n in 0..rows.len() {
        let made = is_reached(rows, facts, all, &found, n);
        found.push(made)?;
    }
    Ok(found)
}
