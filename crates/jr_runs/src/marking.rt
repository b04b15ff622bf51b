// Which rows are spelled, which are cast, and which are written by another row.
ghost use Rattle.std.specs.Prelude.{◌≡◌, ◌+◌, ◌<◌, ◌^◌, IfOk, OnOk, Some, true, length, slice_set};
ghost use Rattle.jr_defs.specs.Referents.{entries};
ghost use Rattle.jr_runs.specs.Marks as spec;

use crate::item::Front;
use jr_base::OutOfMemory;
use jr_defs::Referent;
use jr_shapes::{Shape, Spelling, TypeName, argument_after, first_argument, parts_of, receiver_of};
use jr_tree::Row;
use std::alloc::Global;

/// What spellings say of rows.
#[derive(Drop)]
pub struct Marking {
    /// The number of the spelling of each row.
    pub chosen: Vec<Option<usize>>,
    pub fronts: Vec<Front>,
    /// Qualifiers, which are written with the row over them.
    pub dropped: Vec<bool>,
}

#[tactic(auto, using(std::proofs::lemmas::List::set_past))]
fn set_chosen(all: &mut [Option<usize>], at: u32, number: usize)
    ensures { all.new ≡ slice_set all.old at (Some number) }
{
    if (at as usize) < all.len() {
        all[at as usize] = Some(number);
    }
}

#[tactic(auto, using(std::proofs::lemmas::List::set_past))]
fn set_front(all: &mut [Front], at: u32, front: Front)
    ensures { all.new ≡ slice_set all.old at front }
{
    if (at as usize) < all.len() {
        all[at as usize] = front;
    }
}

#[tactic(auto, using(std::proofs::lemmas::List::set_past))]
fn set_dropped(all: &mut [bool], at: u32)
    ensures { all.new ≡ slice_set all.old at true }
{
    if (at as usize) < all.len() {
        all[at as usize] = true;
    }
}

fn drop_parts(all: &mut [bool], parts: &[u32])
    ensures { all.new ≡ spec.with_dropped parts.now all.old }
{
    for at in parts {
        set_dropped(all, *at);
    }
}

fn mark_receiver(fronts: &mut [Front], shape: Shape, number: usize, receiver: Option<u32>)
    ensures { fronts.new ≡ spec.with_receiver_at shape number receiver fronts.old }
{
    if let Shape::Cast(suffix) = shape {
        if let Some(at) = receiver {
            let front = Front::Receiver {
                suffix,
                spelling: number,
            };
            set_front(fronts, at, front);
        }
    }
}

// The casts of arguments, from one on.
#[tactic(auto, using(crate::proofs::Casts::casts_none))]
fn mark_casts(fronts: &mut [Front], rows: &[Row], row: u32, first: Option<u32>, casts: &[TypeName])
    ensures { fronts.new ≡ spec.with_casts rows.now row first casts.now fronts.old }
{
    let mut next = first;
    for ty in casts {
        match next {
            Some(at) => {
                set_front(fronts, at, Front::Argument(*ty));
                next = argument_after(rows, row, at);
            }
            None => return,
        }
    }
}

#[tactic(auto, using(crate::proofs::Runs::marked_outside, crate::proofs::Runs::marked_inside))]
fn mark(
    marks: &mut Marking,
    alloc: Global,
    rows: &[Row],
    table: &[Referent],
    number: usize,
    spelling: &Spelling,
) -> Result<(), OutOfMemory>
    requires { length rows.now < 2 ^ 32 }
    ensures { OnOk result (spec.seen marks.new ≡ spec.marked rows.now (entries table.now) number spelling.now (spec.seen marks.old)) }
{
    let row = spelling.row;
    if row as usize >= rows.len() {
        return Ok(());
    }
    let parts = parts_of(alloc, rows, table, row)?;
    set_chosen(&mut marks.chosen, row, number);
    let receiver = receiver_of(rows, table, row);
    mark_receiver(&mut marks.fronts, spelling.shape, number, receiver);
    let first = first_argument(rows, row);
    mark_casts(&mut marks.fronts, rows, row, first, &spelling.casts);
    drop_parts(&mut marks.dropped, &parts);
    Ok(())
}

impl Marking {
    // Nothing is said of so many rows.
    fn none(alloc: Global, count: usize) -> Result<Marking, OutOfMemory>
        ensures { IfOk result (λ marks. spec.seen marks ≡ spec.no_marks count) }
    {
        Ok(Marking {
            chosen: vec![in alloc; None; count]?,
            fronts: vec![in alloc; Front::Nothing; count]?,
            dropped: vec![in alloc; false; count]?,
        })
    }

    /// What the spellings say.
    pub fn of(
        alloc: Global,
        rows: &[Row],
        table: &[Referent],
        spellings: &[Spelling],
    ) -> Result<Marking, OutOfMemory>
        requires { length rows.now < 2 ^ 32 }
        ensures { IfOk result (λ marks. spec.seen marks ≡ spec.marks rows.now (entries table.now) spellings.now) }
    {
        let mut all = Marking::none(alloc, rows.len())?;
        for (number, spelling) in spellings.iter().enumerate() {
            mark(&mut all, alloc, rows, table, number, spelling)?;
        }
        Ok(all)
    }

    /// The number of the spelling of a row, if it has one.
    pub fn chosen(&self, row: u32) -> Option<usize>
        ensures { result ≡ spec.chosen_at (spec.seen self.now) row }
    {
        match self.chosen.get(row as usize) {
            Some(chosen) => *chosen,
            None => None,
        }
    }

    /// What stands before a row.
    pub fn front(&self, row: u32) -> Front
        ensures { result ≡ spec.front_at (spec.seen self.now) row }
    {
        match self.fronts.get(row as usize) {
            Some(front) => *front,
            None => Front::Nothing,
        }
    }

    /// The row is written with the one over it.
    pub fn is_dropped(&self, row: u32) -> bool
        ensures { result ≡ spec.is_dropped (spec.seen self.now) row }
    {
        match self.dropped.get(row as usize) {
            Some(is_dropped) => *is_dropped,
            None => false,
        }
    }
}
