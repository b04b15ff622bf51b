// The locals that are read in each member: those with an initializer by their scopes, the others 64 at a time.
ghost use Rattle.std.specs.Prelude.{◌≡◌, ◌<◌, ◌^◌, OnOk, length};
ghost use Rattle.jr_assign.specs.Assigned.{guarded_in};
ghost use Rattle.jr_assign.specs.Judged.{AreJudged};

use crate::confirm::guarded_in;
use crate::course::Course;
use crate::fact::Fact;
use crate::judge::Owners;
use crate::numbers::Numbers;
use crate::run::{Frame, table_of};
use crate::scope::{Reads, are_linked};
use jr_base::OutOfMemory;
use jr_tree::Row;
use std::alloc::Global;

// What is known of the rows of a program.
#[derive(Clone, Copy)]
struct Known<'a> {
    rows: &'a [Row],
    facts: &'a [Fact],
    numbers: &'a Numbers,
    // The member that holds each row.
    members: &'a [u32],
}

// For the locals with numbers from one on.
fn judge_word(
    alloc: Global,
    known: Known,
    from: u32,
    root: u32,
    guarded: &[u32],
    owners: &[Option<u32>],
    verdicts: &mut Vec<Option<bool>>,
) -> Result<(), OutOfMemory>
    requires { guarded.now ≡ guarded_in known.rows.now root }
    ensures { OnOk result (AreJudged known.entry.rows.now known.entry.facts.now known.entry.members.now verdicts.old.items → AreJudged known.entry.rows.now known.entry.facts.now known.entry.members.now verdicts.new.items) }
{
    let frame = Frame {
        rows: known.rows,
        facts: known.facts,
        numbers: known.numbers.all(),
        from,
        root,
        guarded,
    };
    let table = table_of(alloc, frame, 0)?;
    let course = Course {
        rows: frame.rows,
        facts: frame.facts,
        numbers: frame.numbers,
        from: frame.from,
        root: frame.root as usize,
        seen: &table,
        guarded: frame.guarded,
    };
    let round = Owners {
        owners,
        members: known.members,
    };
    course.judge(0, round, verdicts)
}

fn judge_words(
    alloc: Global,
    known: Known,
    root: u32,
    guarded: &[u32],
    owners: &[Option<u32>],
    verdicts: &mut Vec<Option<bool>>,
) -> Result<(), OutOfMemory>
    requires { guarded.now ≡ guarded_in known.rows.now root }
    ensures { OnOk result (AreJudged known.entry.rows.now known.entry.facts.now known.entry.members.now verdicts.old.items → AreJudged known.entry.rows.now known.entry.facts.now known.entry.members.now verdicts.new.items) }
{
    for word in 0..known.numbers.words(root) {
        let from = word.saturating_mul(64);
        judge_word(alloc, known, from, root, guarded, owners, verdicts)?;
    }
    Ok(())
}

// The rows of one member.
fn judge_member(
    alloc: Global,
    known: Known,
    root: u32,
    verdicts: &mut Vec<Option<bool>>,
) -> Result<(), OutOfMemory>
    ensures { OnOk result (AreJudged known.entry.rows.now known.entry.facts.now known.entry.members.now verdicts.old.items → AreJudged known.entry.rows.now known.entry.facts.now known.entry.members.now verdicts.new.items) }
{
    let guarded = guarded_in(alloc, known.rows, root)?;
    let owners = known.numbers.owners(alloc, known.rows, root)?;
    judge_words(alloc, known, root, &guarded, &owners, verdicts)
}

fn judge_members(
    alloc: Global,
    known: Known,
    size: u32,
    verdicts: &mut Vec<Option<bool>>,
) -> Result<(), OutOfMemory>
    ensures { OnOk result (AreJudged known.entry.rows.now known.entry.facts.now known.entry.members.now verdicts.old.items → AreJudged known.entry.rows.now known.entry.facts.now known.entry.members.now verdicts.new.items) }
{
    for at in 0..size {
        if known.numbers.count(at) > 0 {
            judge_member(alloc, known, at, verdicts)?;
        }
    }
    Ok(())
}

/// Judges in all members the rows that read a local.
pub(crate) fn judge_locals(
    alloc: Global,
    rows: &[Row],
    facts: &[Fact],
    members: &[u32],
    size: u32,
    verdicts: &mut Vec<Option<bool>>,
) -> Result<(), OutOfMemory>
    requires { length rows.now < 2 ^ 32 }
    ensures { OnOk result (AreJudged rows.now facts.now members.now verdicts.old.items → AreJudged rows.now facts.now members.now verdicts.new.items) }
{
    let mut open = vec![in alloc; false; rows.len()]?;
    let reads = Reads {
        rows,
        facts,
        members,
        are_linked: are_linked(rows),
    };
    reads.judge(size, &mut open, verdicts);
    let numbers = Numbers::of_locals(alloc, rows, members, &open, size)?;
    let known = Known {
        rows,
        facts,
        numbers: &numbers,
        members,
    };
    judge_members(alloc, known, size, verdicts)?;
    Ok(())
}
