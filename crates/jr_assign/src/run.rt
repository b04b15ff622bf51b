// The table of a member, row by row in the order of evaluation.
ghost use Rattle.std.specs.Prelude.{◌≡◌, ◌<◌, ◌≤◌, ◌-◌, ◌^◌, IfOk, slice_set};
ghost use Rattle.jr_tree.specs.Rows.{label};
ghost use Rattle.jr_assign.specs.Walked as tell;
ghost use Rattle.jr_assign.specs.Words.{seen_at, seen_in};

use crate::course::{Course, Seen, end_of, update_of};
use crate::fact::{Fact, fact_of};
use jr_base::OutOfMemory;
use jr_tree::{Label, Row};
use std::alloc::Global;

/// What is known of a member, but for its table.
#[derive(Clone, Copy)]
pub(crate) struct Frame<'a> {
    pub(crate) rows: &'a [Row],
    pub(crate) facts: &'a [Fact],
    pub(crate) numbers: &'a [Option<u32>],
    pub(crate) from: u32,
    pub(crate) root: u32,
    pub(crate) guarded: &'a [u32],
}

/// Where the updates and the body of a `for` begin. The updates stand between its header and its body (JLS 14.14.1).
#[derive(Clone, Copy)]
pub(crate) struct ForParts {
    pub(crate) update: usize,
    pub(crate) body: u32,
}

fn for_parts(rows: &[Row], facts: &[Fact], at: usize) -> Option<ForParts>
    requires { at < 2 ^ 60 }
    ensures { result ≡ tell.for_parts (label rows.now at) rows.now facts.now at }
{
    match rows.get(at) {
        Some(row) => match row.label {
            Label::For {
                has_first,
                has_condition,
            } => {
                let update = update_of(rows, at, has_first, has_condition);
                match fact_of(facts, at).last {
                    Some(body) => Some(ForParts { update, body }),
                    None => None,
                }
            }
            _ => None,
        },
        None => None,
    }
}

fn put(seen: &mut Vec<Seen>, at: usize, row: Seen)
    ensures { seen.new.items ≡ slice_set seen.old.items at row }
{
    if at < seen.len() {
        seen[at] = row;
    }
}

// A row that is entered: what is before it; what is behind it is not known yet.
fn entry_of(frame: Frame, seen: &[Seen], at: usize) -> Seen
    requires { at < 2 ^ 33 }
    ensures { result ≡ tell.with_before frame.entry seen.now at }
{
    let course = Course {
        rows: frame.rows,
        facts: frame.facts,
        numbers: frame.numbers,
        from: frame.from,
        root: frame.root as usize,
        seen,
        guarded: frame.guarded,
    };
    let old = course.seen(at);
    Seen {
        before: course.before(at),
        done: old.done,
        yes: old.yes,
        no: old.no,
    }
}

// A row that is left: what is behind it.
fn exit_of(frame: Frame, seen: &[Seen], at: usize) -> Seen
    requires { at < 2 ^ 33 }
    ensures { result ≡ tell.with_gain frame.entry seen.now at }
{
    let course = Course {
        rows: frame.rows,
        facts: frame.facts,
        numbers: frame.numbers,
        from: frame.from,
        root: frame.root as usize,
        seen,
        guarded: frame.guarded,
    };
    let gain = course.gain(at);
    Seen {
        before: course.seen(at).before,
        done: gain.done,
        yes: gain.yes,
        no: gain.no,
    }
}

fn enter(frame: Frame, seen: &mut Vec<Seen>, at: usize)
    requires { at < 2 ^ 33 }
    ensures { seen.new.items ≡ tell.after_entry frame.entry seen.old.items at }
{
    let row = entry_of(frame, seen, at);
    put(seen, at.saturating_sub(frame.root as usize), row);
}

fn leave(frame: Frame, seen: &mut Vec<Seen>, at: usize)
    requires { at < 2 ^ 33 }
    ensures { seen.new.items ≡ tell.after_exit frame.entry seen.old.items at }
{
    let row = exit_of(frame, seen, at);
    put(seen, at.saturating_sub(frame.root as usize), row);
}

// All that stands inside a row, at most so many levels down.
#[cycle(walk)]
fn fill_parts(frame: Frame, seen: &mut Vec<Seen>, at: usize, room: usize)
    requires { at < 2 ^ 32 }
    ensures { tell.FillsParts frame.entry seen.old.items seen.new.items at room }
{
    let end = end_of(frame.rows, at);
    match for_parts(frame.rows, frame.facts, at) {
        None => run_on(frame, seen, at + 1, end, room),
        Some(parts) => {
            let body = parts.body as usize;
            if parts.update > body {
                return;
            }
            run_on(frame, seen, at + 1, parts.update, room);
            run_on(frame, seen, body, end, room);
            run_on(frame, seen, parts.update, body, room);
        }
    }
}

// The children of a row from one on, and what stands inside them.
#[cycle(walk)]
fn run_on(frame: Frame, seen: &mut Vec<Seen>, from: usize, to: usize, room: usize)
    requires { to ≤ 2 ^ 32 }
    ensures { tell.RunsOn frame.entry seen.old.items seen.new.items from to room }
{
    if room == 0 {
        return;
    }
    let mut at = from;
    for _turn in from..to {
        if at >= to {
            return;
        }
        enter(frame, seen, at);
        fill_parts(frame, seen, at, room - 1);
        leave(frame, seen, at);
        at = end_of(frame.rows, at);
    }
}

/// The table of a member, from what is assigned before it on.
pub(crate) fn table_of(alloc: Global, frame: Frame, start: u64) -> Result<Vec<Seen>, OutOfMemory>
    ensures { IfOk result (λ all. tell.IsTableOf frame.entry start all.items) }
{
    let root = frame.root as usize;
    let size = end_of(frame.rows, root).saturating_sub(root);
    let begun = Seen {
        before: start,
        done: start,
        yes: start,
        no: start,
    };
    let mut seen = vec![in alloc; begun; size]?;
    fill_parts(frame, &mut seen, root, size);
    leave(frame, &mut seen, root);
    Ok(seen)
}
