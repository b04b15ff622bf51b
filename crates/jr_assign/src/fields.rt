// The blank final fields of each body, 64 at a time, by what is assigned when its class and its instances are made (JLS 8.3.1.2, 8.6 to 8.8, 12.4.2, 12.5).
ghost use Rattle.std.specs.Prelude.{◌≡◌, ℕ, ◌+◌, ◌-◌, ◌<◌, ◌^◌, false, true, IfOk, None, OnOk, slice_index_or};
ghost use Rattle.jr_tree.specs.Rows.{end};
ghost use Rattle.jr_assign.specs.Assigned.{guarded_in};
ghost use Rattle.jr_assign.specs.Made as tell;
ghost use Rattle.jr_assign.specs.Walked.{frame_of, IsTableOf};
ghost use Rattle.jr_assign.specs.Words.{mask};

use crate::confirm::guarded_in;
use crate::course::{Course, mask_of};
use crate::fact::Fact;
use crate::judge::{is_owner, put};
use crate::numbers::Numbers;
use crate::parts::{body_of_field, end_in, is_first, is_part, is_static_field};
use crate::run::{Frame, table_of};
use jr_base::OutOfMemory;
use jr_places::{end_at, parent_at};
use jr_tree::Row;
use std::alloc::Global;

/// The blank final fields of a body with numbers from one on, and the field of each number.
#[derive(Clone, Copy)]
pub(crate) struct Group<'a> {
    pub(crate) rows: &'a [Row],
    pub(crate) facts: &'a [Fact],
    pub(crate) numbers: &'a [Option<u32>],
    pub(crate) owners: &'a [Option<u32>],
    pub(crate) from: u32,
}

// ---- members

// What is assigned wherever the member ends, by its table.
fn ended_by(course: Course, start: u64, owners: &[Option<u32>]) -> Result<u64, OutOfMemory>
    requires guarded { course.guarded.now ≡ guarded_in course.rows.now course.root }
    requires few { course.root < 2 ^ 32 }
    ensures { IsTableOf (frame_of course.entry) start course.entry.seen.now → IfOk result (λ word. tell.AreEnded course.entry.rows.now course.entry.facts.now course.entry.numbers.now owners.now course.entry.from course.entry.root start word) }
{
    if !course.are_owned(owners) {
        return Err(OutOfMemory);
    }
    Ok(course.ended())
}

fn ended(alloc: Global, group: Group, root: u32, start: u64) -> Result<u64, OutOfMemory>
    ensures { IfOk result (λ word. tell.AreEnded group.entry.rows.now group.entry.facts.now group.entry.numbers.now group.entry.owners.now group.entry.from root start word) }
{
    let guarded = guarded_in(alloc, group.rows, root)?;
    let frame = Frame {
        rows: group.rows,
        facts: group.facts,
        numbers: group.numbers,
        from: group.from,
        root,
        guarded: &guarded,
    };
    let table = table_of(alloc, frame, start)?;
    let course = Course {
        rows: frame.rows,
        facts: frame.facts,
        numbers: frame.numbers,
        from: frame.from,
        root: frame.root as usize,
        seen: &table,
        guarded: frame.guarded,
    };
    ended_by(course, start, group.owners)
}

// ---- the parts of a body

// Behind a member of the body, from what is assigned before it on.
#[tactic(auto, using(crate::proofs::Ended::before_passes, crate::proofs::Ended::before_behind))]
fn behind(
    alloc: Global,
    group: Group,
    body: u32,
    is_static: bool,
    at: u32,
    word: u64,
) -> Result<u64, OutOfMemory>
    ensures { IfOk result (λ out. tell.AreBefore group.entry body is_static at word → tell.AreBefore group.entry body is_static (end group.entry.rows.now at) out) }
{
    if parent_at(group.rows, at) != body {
        return Err(OutOfMemory);
    }
    if !is_part(group.rows, at, is_static) {
        return Ok(word);
    }
    let out = ended(alloc, group, at, word)?;
    Ok(out)
}

// Behind all members of the body.
#[tactic(auto, using(crate::proofs::Ended::before_begins, crate::proofs::Ended::before_end))]
fn made(alloc: Global, group: Group, body: u32, is_static: bool) -> Result<u64, OutOfMemory>
    ensures { IfOk result (λ word. tell.AreBefore group.entry body is_static (end group.entry.rows.now body) word) }
{
    let Some(mut at) = body.checked_add(1) else {
        return Err(OutOfMemory);
    };
    let mut word = 0;
    for _turn in 0..group.rows.len() {
        if at == end_at(group.rows, body) {
            return Ok(word);
        }
        word = behind(alloc, group, body, is_static, at, word)?;
        at = end_in(group.rows, at)?;
    }
    Err(OutOfMemory)
}

// What is assigned where a row that is a constructor ends, too.
#[tactic(auto, using(crate::proofs::Ended::built_passes, crate::proofs::Ended::built_more))]
fn with_built(
    alloc: Global,
    group: Group,
    body: u32,
    at: u32,
    start: u64,
    word: u64,
) -> Result<u64, OutOfMemory>
    ensures { IfOk result (λ out. (k : ℕ) → body + k ≡ at → tell.AreBuilt group.entry body k start word → tell.AreBuilt group.entry body (k + 1) start out) }
{
    if !is_first(group.rows, body, at) {
        return Ok(word);
    }
    let ended = ended(alloc, group, at, start)?;
    Ok(word & ended)
}

// Where all constructors of the body end.
#[tactic(auto, using(crate::proofs::Ended::built_begins))]
fn built(alloc: Global, group: Group, body: u32, start: u64) -> Result<u64, OutOfMemory>
    ensures { IfOk result (λ word. tell.AreBuilt group.entry body (end group.entry.rows.now body - body) start word) }
{
    let end = end_in(group.rows, body)?;
    let mut word = u64::MAX;
    for inside in 0..end.saturating_sub(body) {
        word = with_built(alloc, group, body, body + inside, start, word)?;
    }
    Ok(word)
}

// ---- the fields of a group

impl<'a> Group<'a> {
    fn number(self, field: u32) -> Option<u32>
        ensures { result ≡ slice_index_or self.entry.numbers.now field None }
    {
        match self.numbers.get(field as usize) {
            Some(number) => *number,
            None => None,
        }
    }

    fn mask(self, field: u32) -> u64
        ensures { result ≡ mask self.entry.numbers.now self.entry.from field }
    {
        mask_of(self.from, self.number(field))
    }

    fn is_in(self, field: u32, word: u64) -> bool
        ensures { result ≡ tell.is_in self.entry.numbers.now self.entry.from field word }
    {
        word & self.mask(field) != 0
    }

    fn is_asked(self, body: u32, field: u32) -> bool
        ensures { result ≡ tell.is_asked_field self.entry body field }
    {
        self.mask(field) != 0
            && is_owner(self.owners, self.number(field), field as usize)
            && body_of_field(self.rows, field) == body
    }
}

fn note_field(
    group: Group,
    body: u32,
    statics: u64,
    built: u64,
    field: u32,
    verdicts: &mut Vec<Option<bool>>,
)
    ensures { verdicts.new.items ≡ tell.judged_field group.entry body statics built field verdicts.old.items }
{
    if group.is_asked(body, field) {
        let word = if is_static_field(group.rows, field) {
            statics
        } else {
            built
        };
        let is_assigned = group.is_in(field, word);
        put(verdicts, field as usize, is_assigned);
    }
}

// All of them.
#[tactic(auto, using(crate::proofs::Ended::field_more))]
fn note_fields(group: Group, body: u32, statics: u64, built: u64, verdicts: &mut Vec<Option<bool>>)
    ensures { tell.AreMade group.entry body statics built → tell.AreFieldsJudged group.entry.rows.now group.entry.facts.now verdicts.old.items → tell.AreFieldsJudged group.entry.rows.now group.entry.facts.now verdicts.new.items }
{
    for owner in group.owners {
        if let Some(field) = owner {
            note_field(group, body, statics, built, *field, verdicts);
        }
    }
}

#[tactic(auto, using(crate::proofs::Ended::all_made))]
fn judge_group(
    alloc: Global,
    group: Group,
    body: u32,
    verdicts: &mut Vec<Option<bool>>,
) -> Result<(), OutOfMemory>
    ensures { OnOk result (tell.AreFieldsJudged group.entry.rows.now group.entry.facts.now verdicts.old.items → tell.AreFieldsJudged group.entry.rows.now group.entry.facts.now verdicts.new.items) }
{
    let statics = made(alloc, group, body, true)?;
    let instances = made(alloc, group, body, false)?;
    let built = built(alloc, group, body, instances)?;
    note_fields(group, body, statics, built, verdicts);
    Ok(())
}

// ---- all bodies

fn judge_groups(
    alloc: Global,
    group: Group,
    body: u32,
    words: u32,
    verdicts: &mut Vec<Option<bool>>,
) -> Result<(), OutOfMemory>
    ensures { OnOk result (tell.AreFieldsJudged group.entry.rows.now group.entry.facts.now verdicts.old.items → tell.AreFieldsJudged group.entry.rows.now group.entry.facts.now verdicts.new.items) }
{
    for word in 0..words {
        let next = Group {
            rows: group.rows,
            facts: group.facts,
            numbers: group.numbers,
            owners: group.owners,
            from: word.saturating_mul(64),
        };
        judge_group(alloc, next, body, verdicts)?;
    }
    Ok(())
}

fn judge_body(
    alloc: Global,
    rows: &[Row],
    facts: &[Fact],
    numbers: &Numbers,
    body: u32,
    verdicts: &mut Vec<Option<bool>>,
) -> Result<(), OutOfMemory>
    ensures { OnOk result (tell.AreFieldsJudged rows.now facts.now verdicts.old.items → tell.AreFieldsJudged rows.now facts.now verdicts.new.items) }
{
    let owners = numbers.owners(alloc, rows, body)?;
    let group = Group {
        rows,
        facts,
        numbers: numbers.all(),
        owners: &owners,
        from: 0,
    };
    judge_groups(alloc, group, body, numbers.words(body), verdicts)
}

fn judge_bodies(
    alloc: Global,
    rows: &[Row],
    facts: &[Fact],
    numbers: &Numbers,
    size: u32,
    verdicts: &mut Vec<Option<bool>>,
) -> Result<(), OutOfMemory>
    ensures { OnOk result (tell.AreFieldsJudged rows.now facts.now verdicts.old.items → tell.AreFieldsJudged rows.now facts.now verdicts.new.items) }
{
    for at in 0..size {
        if numbers.count(at) > 0 {
            judge_body(alloc, rows, facts, numbers, at, verdicts)?;
        }
    }
    Ok(())
}

/// Judges the blank final fields of all classes: whether each is assigned when all is made that it belongs to.
pub(crate) fn judge_fields(
    alloc: Global,
    rows: &[Row],
    facts: &[Fact],
    size: u32,
    verdicts: &mut Vec<Option<bool>>,
) -> Result<(), OutOfMemory>
    ensures { OnOk result (tell.AreFieldsJudged rows.now facts.now verdicts.old.items → tell.AreFieldsJudged rows.now facts.now verdicts.new.items) }
{
    let numbers = Numbers::of_fields(alloc, rows, size)?;
    judge_bodies(alloc, rows, facts, &numbers, size, verdicts)
}
