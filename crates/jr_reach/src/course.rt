// What may become of a statement once it is begun.
ghost use Rattle.std.specs.Prelude.{◌≡◌, IfOk, OnOk};
ghost use Rattle.jr_reach.specs.Courses.{same_exit, has_exit, with_exit, union, without, without_loop, begun, jump, in_turn, either_of, groups, through};

use crate::Exit;
use jr_base::{Items, OutOfMemory};
use std::alloc::Global;

/// Whether it can complete normally, and which jumps leave it.
#[derive(Drop)]
pub struct Course {
    pub completes: bool,
    pub exits: Items<Exit>,
}

/// The course of a row, and that of the row and its later siblings together.
#[derive(Drop)]
pub struct Entry {
    pub own: Course,
    pub rest: Course,
}

fn is_same(one: Exit, other: Exit) -> bool
    ensures { result ≡ same_exit one other }
{
    match one {
        Exit::Break(m) => match other {
            Exit::Break(n) => m == n,
            Exit::Continue(_) => false,
        },
        Exit::Continue(m) => match other {
            Exit::Break(_) => false,
            Exit::Continue(n) => m == n,
        },
    }
}

pub(crate) fn has(exits: &[Exit], exit: Exit) -> bool
    ensures { result ≡ has_exit exits.now exit }
{
    let mut found = false;
    for each in exits {
        found = found || is_same(*each, exit);
    }
    found
}

// Adds an exit, unless it is there.
fn add(exits: &mut Items<Exit>, exit: Exit) -> Result<(), OutOfMemory>
    ensures { OnOk result (exits.new ≡ with_exit exits.old exit) }
{
    if has(exits.as_slice(), exit) {
        return Ok(());
    }
    exits.push(exit)?;
    Ok(())
}

// Most courses have no exits: no memory is asked for.
fn same_exits(alloc: Global, exits: &[Exit]) -> Result<Items<Exit>, OutOfMemory>
    ensures { IfOk result (λ all. all ≡ exits.now) }
{
    if exits.is_empty() {
        return Ok(Items::new(alloc));
    }
    Ok(Items::from_slice(alloc, exits)?)
}

// The exits of both.
fn joined(alloc: Global, first: &[Exit], second: &[Exit]) -> Result<Items<Exit>, OutOfMemory>
    ensures { IfOk result (λ all. all ≡ union first.now second.now) }
{
    let mut all = same_exits(alloc, first)?;
    for exit in second {
        add(&mut all, *exit)?;
    }
    Ok(all)
}

// The exits but one.
pub(crate) fn past(alloc: Global, exits: &[Exit], exit: Exit) -> Result<Items<Exit>, OutOfMemory>
    ensures { IfOk result (λ all. all ≡ without exit exits.now) }
{
    let mut all = Items::new(alloc);
    for each in exits {
        if !is_same(*each, exit) {
            all.push(*each)?;
        }
    }
    Ok(all)
}

// The exits but those that end at a loop.
pub(crate) fn past_loop(alloc: Global, exits: &[Exit], n: u32) -> Result<Items<Exit>, OutOfMemory>
    ensures { IfOk result (λ all. all ≡ without_loop n exits.now) }
{
    let unbroken = past(alloc, exits, Exit::Break(n))?;
    past(alloc, unbroken.as_slice(), Exit::Continue(n))
}

pub(crate) fn start(alloc: Global) -> Course
    ensures { result ≡ begun }
{
    Course {
        completes: true,
        exits: Items::new(alloc),
    }
}

// What never completes, and jumps there.
pub(crate) fn jump_course(alloc: Global, exit: Option<Exit>) -> Result<Course, OutOfMemory>
    ensures { IfOk result (λ course. course ≡ jump exit) }
{
    let mut exits = Items::new(alloc);
    match exit {
        None => Ok(Course {
            completes: false,
            exits,
        }),
        Some(to) => {
            exits.push(to)?;
            Ok(Course {
                completes: false,
                exits,
            })
        }
    }
}

pub(crate) fn copied(alloc: Global, course: &Course) -> Result<Course, OutOfMemory>
    ensures { IfOk result (λ copy. copy ≡ course.now) }
{
    Ok(Course {
        completes: course.completes,
        exits: same_exits(alloc, course.exits.as_slice())?,
    })
}

// The first, and then the second.
pub(crate) fn turn(alloc: Global, first: &Course, second: &Course) -> Result<Course, OutOfMemory>
    ensures { IfOk result (λ course. course ≡ in_turn first.now second.now) }
{
    if !first.completes {
        return copied(alloc, first);
    }
    Ok(Course {
        completes: second.completes,
        exits: joined(alloc, first.exits.as_slice(), second.exits.as_slice())?,
    })
}

// One of two.
pub(crate) fn either(alloc: Global, first: &Course, second: &Course) -> Result<Course, OutOfMemory>
    ensures { IfOk result (λ course. course ≡ either_of first.now second.now) }
{
    Ok(Course {
        completes: first.completes || second.completes,
        exits: joined(alloc, first.exits.as_slice(), second.exits.as_slice())?,
    })
}

// A group of a switch, and the groups behind it.
pub(crate) fn group(alloc: Global, first: &Course, second: &Course) -> Result<Course, OutOfMemory>
    ensures { IfOk result (λ course. course ≡ groups first.now second.now) }
{
    Ok(Course {
        completes: second.completes,
        exits: joined(alloc, first.exits.as_slice(), second.exits.as_slice())?,
    })
}

// What goes on through a `finally`.
pub(crate) fn passed(alloc: Global, course: &Course, last: &Course) -> Result<Course, OutOfMemory>
    ensures { IfOk result (λ all. all ≡ through course.now last.now) }
{
    if !last.completes {
        return copied(alloc, last);
    }
    Ok(Course {
        completes: course.completes,
        exits: joined(alloc, course.exits.as_slice(), last.exits.as_slice())?,
    })
}
