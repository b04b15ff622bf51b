// The rows that are written for a program.
ghost use Rattle.std.specs.Prelude.{◌≡◌, ◌+◌, ◌++◌, ◌<◌, ◌^◌, IfOk, OnOk, length, slice_index_or};
ghost use Rattle.jr_defs.specs.Referents.{entries};
ghost use Rattle.jr_runs.specs.Forms.{spelling_at, turned as turned_names};
ghost use Rattle.jr_runs.specs.Marks.{seen};
ghost use Rattle.jr_runs.specs.Plans as spec;
ghost use Rattle.jr_runs.specs.Planned as planned;

use crate::item::{Item, Refers};
use crate::marking::Marking;
use crate::placing::{push_back, push_front};
use crate::shaping::{form_of, spelling_of};
use crate::turning::turned;
use jr_base::OutOfMemory;
use jr_defs::Referent;
use jr_shapes::{Spelling, named_by, referent_at};
use jr_tree::Row;
use std::alloc::Global;

/// The rows that are written, with where they come from.
#[derive(Drop)]
pub struct Plan {
    pub items: Vec<Item>,
    /// Where the run of each row begins, and where the last one ends.
    pub starts: Vec<usize>,
    /// Where each row itself stands.
    pub copies: Vec<usize>,
}

/// What is written: the rows of a program, what they refer to, their spellings, and which of them are turned.
#[derive(Clone, Copy)]
struct Source<'a> {
    rows: &'a [Row],
    table: &'a [Referent],
    spellings: &'a [Spelling],
    marks: &'a Marking,
    back: &'a [bool],
}

fn own_item(from: &Source, row: u32, over: Option<usize>) -> Item
    ensures { result ≡ spec.own_item from.now.rows.now (entries from.now.table.now) from.now.spellings.now (seen from.now.marks.now) from.now.back.now row over }
{
    let form = form_of(from.rows, from.spellings, from.marks, from.back, row);
    match spelling_of(from.marks, from.spellings, row) {
        Some(spelling) => Item {
            of: row,
            form,
            name: Some(named_by(from.rows, row, spelling.found)),
            over,
            end: None,
            refers: Refers::To(spelling.found),
        },
        None => Item {
            of: row,
            form,
            name: Some(row),
            over,
            end: None,
            refers: Refers::To(referent_at(from.table, row)),
        },
    }
}

fn push_behind(
    items: &mut Vec<Item>,
    alloc: Global,
    from: &Source,
    row: u32,
    own: usize,
) -> Result<(), OutOfMemory>
    requires there { row + 1 < 2 ^ 32 }
    requires place { length items.old.items ≡ own + 1 }
    ensures { OnOk result (items.new.items ≡ items.old.items ++ spec.back_by from.now.rows.now (entries from.now.table.now) row (spelling_at from.now.spellings.now (seen from.now.marks.now) row) own) }
{
    match spelling_of(from.marks, from.spellings, row) {
        Some(spelling) => push_back(items, alloc, from.rows, from.table, spelling, row, own),
        None => Ok(()),
    }
}

// The run of a row that is no qualifier. It gives where the row itself stands.
#[tactic(auto, using(crate::proofs::Runs::run_whole))]
fn push_run(
    items: &mut Vec<Item>,
    alloc: Global,
    from: &Source,
    row: u32,
) -> Result<usize, OutOfMemory>
    requires { row + 1 < 2 ^ 32 }
    ensures items { OnOk result (items.new.items ≡ items.old.items ++ spec.kept_run from.now.rows.now (entries from.now.table.now) from.now.spellings.now (seen from.now.marks.now) from.now.back.now row (length items.old.items)) }
    ensures own { IfOk result (λ own. own ≡ length items.old.items + length (spec.before_own from.now.rows.now from.now.spellings.now (seen from.now.marks.now) row (length items.old.items))) }
{
    let front = from.marks.front(row);
    let over = push_front(items, alloc, from.rows, from.spellings, row, front)?;
    let own = items.len();
    items.push(own_item(from, row, over))?;
    push_behind(items, alloc, from, row, own)?;
    Ok(own)
}

impl Plan {
    fn push_row(&mut self, alloc: Global, from: &Source, row: u32) -> Result<(), OutOfMemory>
        requires { row + 1 < 2 ^ 32 }
        ensures { OnOk result (planned.seen_plan self.new ≡ spec.with_run from.now.rows.now (entries from.now.table.now) from.now.spellings.now (seen from.now.marks.now) from.now.back.now row (planned.seen_plan self.old)) }
    {
        let at = self.items.len();
        self.starts.push(at)?;
        if from.marks.is_dropped(row) {
            self.copies.push(at)?;
            return Ok(());
        }
        let items = &mut self.items;
        let own = push_run(items, alloc, from, row)?;
        self.copies.push(own)?;
        Ok(())
    }

    /// The runs of the rows of a program with these spellings.
    #[tactic(auto, using(crate::proofs::Runs::ended_by))]
    pub fn of(
        alloc: Global,
        rows: &[Row],
        table: &[Referent],
        spellings: &[Spelling],
        marks: &Marking,
    ) -> Result<Plan, OutOfMemory>
        requires { length rows.now + 1 < 2 ^ 32 }
        ensures { IfOk result (λ plan. planned.seen_plan plan ≡ spec.plan_by rows.now (entries table.now) spellings.now (seen marks.now)) }
    {
        let back = turned(alloc, rows, spellings, marks)?;
        let mut plan = Plan {
            items: Vec::new(alloc),
            starts: Vec::new(alloc),
            copies: Vec::new(alloc),
        };
        for row in 0..rows.len() {
            let from = Source {
                rows,
                table,
                spellings,
                marks,
                back: &back,
            };
            plan.push_row(alloc, &from, row as u32)?;
        }
        let end = plan.items.len();
        plan.starts.push(end)?;
        Ok(plan)
    }

    /// Where the run of a row begins, and for the number of rows where the last run ends.
    pub fn start(&self, row: u32) -> usize
        ensures { result ≡ slice_index_or self.now.starts.items row 0 }
    {
        match self.starts.get(row as usize) {
            Some(start) => *start,
            None => 0,
        }
    }

    /// Where a row itself stands.
    pub fn copy(&self, row: u32) -> usize
        ensures { result ≡ slice_index_or self.now.copies.items row 0 }
    {
        match self.copies.get(row as usize) {
            Some(copy) => *copy,
            None => 0,
        }
    }
}
