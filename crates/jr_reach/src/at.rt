// The course of one row, by those of the rows behind it.
ghost use Rattle.std.specs.Prelude.{◌≡◌, ◌<◌, ◌^◌, IfOk, Some, false, length};
ghost use Rattle.jr_tree.specs.Rows.{label};
ghost use Rattle.jr_reach.specs.Courses.{looped, looped_once, switched, labeled};
ghost use Rattle.jr_reach.specs.Plain.{has_course};
ghost use Rattle.jr_reach.specs.Statements.{nothing, later, if_course, tried, try_course, course_at, rest_by, entry_at, Facts};

use crate::course::{
    copied, either, group, has, jump_course, passed, past, past_loop, start, turn,
};
use crate::fact::fact_of;
use crate::parts::{Known, below, catches, condition_of, end_of, is_followed};
use crate::{Course, Entry, Exit};
use jr_base::{Items, OutOfMemory};
use jr_tree::Label;
use std::alloc::Global;

fn loop_course(
    alloc: Global,
    truth: Option<bool>,
    n: u32,
    body: &Course,
) -> Result<Course, OutOfMemory>
    ensures { IfOk result (λ course. course ≡ looped truth n body.now) }
{
    match truth {
        Some(false) => Ok(start(alloc)),
        Some(true) => Ok(Course {
            completes: has(body.exits.as_slice(), Exit::Break(n)),
            exits: past_loop(alloc, body.exits.as_slice(), n)?,
        }),
        None => Ok(Course {
            completes: true,
            exits: past_loop(alloc, body.exits.as_slice(), n)?,
        }),
    }
}

fn do_course(
    alloc: Global,
    truth: Option<bool>,
    n: u32,
    body: &Course,
) -> Result<Course, OutOfMemory>
    ensures { IfOk result (λ course. course ≡ looped_once truth n body.now) }
{
    let is_tested = body.completes || has(body.exits.as_slice(), Exit::Continue(n));
    let is_always = match truth {
        Some(true) => true,
        _ => false,
    };
    Ok(Course {
        completes: (is_tested && !is_always) || has(body.exits.as_slice(), Exit::Break(n)),
        exits: past_loop(alloc, body.exits.as_slice(), n)?,
    })
}

fn switch_course(
    alloc: Global,
    has_default: bool,
    n: u32,
    body: &Course,
) -> Result<Course, OutOfMemory>
    ensures { IfOk result (λ course. course ≡ switched has_default n body.now) }
{
    Ok(Course {
        completes: !has_default || body.completes || has(body.exits.as_slice(), Exit::Break(n)),
        exits: past(alloc, body.exits.as_slice(), Exit::Break(n))?,
    })
}

fn labeled_course(alloc: Global, n: u32, body: &Course) -> Result<Course, OutOfMemory>
    ensures { IfOk result (λ course. course ≡ labeled n body.now) }
{
    Ok(Course {
        completes: body.completes || has(body.exits.as_slice(), Exit::Break(n)),
        exits: past(alloc, body.exits.as_slice(), Exit::Break(n))?,
    })
}

fn branch_course(alloc: Global, known: Known, n: usize) -> Result<Course, OutOfMemory>
    requires there { n < length known.rows.now }
    requires few { length known.rows.now < 2 ^ 32 }
    requires none { known.none.now ≡ nothing }
    ensures { IfOk result (λ course. course ≡ if_course known.entry.rows.now (later (length known.entry.rows.now) known.entry.all.now) n) }
{
    let yes = end_of(known.rows, n + 1);
    let no = end_of(known.rows, yes);
    let first = &known.entry(yes).own;
    if no < end_of(known.rows, n) {
        return either(alloc, first, &known.entry(no).own);
    }
    Ok(Course {
        completes: true,
        exits: Items::from_slice(alloc, first.exits.as_slice())?,
    })
}

// The body of a `try`, or one of its catches.
fn tried_course(alloc: Global, known: Known, n: usize) -> Result<Course, OutOfMemory>
    requires there { n < length known.rows.now }
    requires few { length known.rows.now < 2 ^ 32 }
    requires none { known.none.now ≡ nothing }
    ensures { IfOk result (λ course. course ≡ tried known.entry.rows.now (later (length known.entry.rows.now) known.entry.all.now) n) }
{
    let next = end_of(known.rows, n + 1);
    let body = &known.entry(n + 1).own;
    if catches(known.rows, next) && next < end_of(known.rows, n) {
        return either(alloc, body, &known.entry(next).rest);
    }
    copied(alloc, body)
}

// And then its `finally`.
fn guarded_course(
    alloc: Global,
    known: Known,
    n: usize,
    last: Option<u32>,
) -> Result<Course, OutOfMemory>
    requires there { n < length known.rows.now }
    requires few { length known.rows.now < 2 ^ 32 }
    requires none { known.none.now ≡ nothing }
    ensures { IfOk result (λ course. course ≡ try_course known.entry.rows.now (later (length known.entry.rows.now) known.entry.all.now) n last) }
{
    let course = tried_course(alloc, known, n)?;
    match last {
        None => Ok(course),
        Some(row) => passed(alloc, &course, &known.entry(row as usize).own),
    }
}

// The course of a row.
fn own_course(alloc: Global, known: Known, n: usize) -> Result<Course, OutOfMemory>
    requires there { n < length known.rows.now }
    requires few { length known.rows.now < 2 ^ 32 }
    requires none { known.none.now ≡ nothing }
    ensures { IfOk result (λ course. course ≡ course_at known.entry.rows.now known.entry.facts.now (later (length known.entry.rows.now) known.entry.all.now) n) }
{
    match &known.rows[n].label {
        Label::Block => below(alloc, known, n),
        Label::Nest => below(alloc, known, n),
        Label::Group => below(alloc, known, n),
        Label::Catch => below(alloc, known, n),
        Label::Method { .. } => below(alloc, known, n),
        Label::Initializer { .. } => below(alloc, known, n),
        Label::Labeled => labeled_course(alloc, n as u32, &below(alloc, known, n)?),
        Label::If => branch_course(alloc, known, n),
        Label::While => loop_course(
            alloc,
            fact_of(known.facts, n + 1).truth,
            n as u32,
            &below(alloc, known, n)?,
        ),
        Label::For {
            has_first,
            has_condition: true,
        } => loop_course(
            alloc,
            fact_of(known.facts, condition_of(known.rows, n, *has_first)).truth,
            n as u32,
            &below(alloc, known, n)?,
        ),
        Label::For {
            has_condition: false,
            ..
        } => loop_course(alloc, Some(true), n as u32, &below(alloc, known, n)?),
        Label::Do => do_course(
            alloc,
            fact_of(known.facts, end_of(known.rows, n + 1)).truth,
            n as u32,
            &below(alloc, known, n)?,
        ),
        Label::Switch => switch_course(
            alloc,
            fact_of(known.facts, n).has_default,
            n as u32,
            &below(alloc, known, n)?,
        ),
        Label::Break { .. } => jump_course(alloc, fact_of(known.facts, n).exit),
        Label::Continue { .. } => jump_course(alloc, fact_of(known.facts, n).exit),
        Label::Return => jump_course(alloc, None),
        Label::Throw => jump_course(alloc, None),
        Label::Try { .. } => guarded_course(alloc, known, n, fact_of(known.facts, n).last),
        _ => Ok(start(alloc)),
    }
}

// That of the row and its later siblings.
fn rest_course(alloc: Global, known: Known, n: usize, own: &Course) -> Result<Course, OutOfMemory>
    requires there { n < length known.rows.now }
    requires few { length known.rows.now < 2 ^ 32 }
    requires none { known.none.now ≡ nothing }
    ensures { IfOk result (λ course. course ≡ rest_by (label known.entry.rows.now n) known.entry.rows.now (later (length known.entry.rows.now) known.entry.all.now) n own.now) }
{
    let next = end_of(known.rows, n);
    let follows = is_followed(known.rows, n);
    let more = &known.entry(next).rest;
    match &known.rows[n].label {
        Label::Catch => {
            if follows && catches(known.rows, next) {
                return either(alloc, own, more);
            }
            copied(alloc, own)
        }
        Label::Group => {
            if follows {
                return group(alloc, own, more);
            }
            copied(alloc, own)
        }
        _ => {
            if follows {
                return turn(alloc, own, more);
            }
            copied(alloc, own)
        }
    }
}

// A statement, a body, or a part of a statement that may end otherwise than it began.
fn has_course(label: &Label) -> bool
    ensures { result ≡ has_course label.now }
{
    match label {
        Label::Block => true,
        Label::Nest => true,
        Label::Group => true,
        Label::Catch => true,
        Label::Method { .. } => true,
        Label::Initializer { .. } => true,
        Label::Labeled => true,
        Label::If => true,
        Label::While => true,
        Label::For { .. } => true,
        Label::Do => true,
        Label::Switch => true,
        Label::Break { .. } => true,
        Label::Continue { .. } => true,
        Label::Return => true,
        Label::Throw => true,
        Label::Try { .. } => true,
        _ => false,
    }
}

// What is known of any other row: it does nothing itself.
fn plain_entry(alloc: Global, known: Known, n: usize) -> Result<Entry, OutOfMemory>
    requires there { n < length known.rows.now }
    requires few { length known.rows.now < 2 ^ 32 }
    requires none { known.none.now ≡ nothing }
    ensures { has_course (label known.entry.rows.now n) ≡ false → IfOk result (λ made. (facts : Facts) → made ≡ entry_at known.entry.rows.now facts (later (length known.entry.rows.now) known.entry.all.now) n) }
{
    let own = start(alloc);
    if !is_followed(known.rows, n) {
        return Ok(Entry {
            own,
            rest: start(alloc),
        });
    }
    let more = &known.entry(end_of(known.rows, n)).rest;
    let rest = turn(alloc, &own, more)?;
    Ok(Entry { own, rest })
}

// What is known of a row that has a course of its own.
fn full_entry(alloc: Global, known: Known, n: usize) -> Result<Entry, OutOfMemory>
    requires there { n < length known.rows.now }
    requires few { length known.rows.now < 2 ^ 32 }
    requires none { known.none.now ≡ nothing }
    ensures { IfOk result (λ made. made ≡ entry_at known.entry.rows.now known.entry.facts.now (later (length known.entry.rows.now) known.entry.all.now) n) }
{
    let own = own_course(alloc, known, n)?;
    let rest = rest_course(alloc, known, n, &own)?;
    Ok(Entry { own, rest })
}

pub(crate) fn entry_of(alloc: Global, known: Known, n: usize) -> Result<Entry, OutOfMemory>
    requires there { n < length known.rows.now }
    requires few { length known.rows.now < 2 ^ 32 }
    requires none { known.none.now ≡ nothing }
    ensures { IfOk result (λ made. made ≡ entry_at known.entry.rows.now known.entry.facts.now (later (length known.entry.rows.now) known.entry.all.now) n) }
{
    if has_course(&known.rows[n].label) {
        return full_entry(alloc, known, n);
    }
    plain_entry(alloc, known, n)
}
