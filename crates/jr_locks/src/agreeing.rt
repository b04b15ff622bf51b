// Whether copies are copies.

ghost use Rattle.std.specs.Prelude.{◌≡◌, ◌≢◌, ◌↔◌, ◌-◌, IsTrue, IfOk, false, length, slice_set};
ghost use Rattle.jr_locks.specs.Origins.{no_row};
ghost use Rattle.jr_locks.specs.Copying as spec;
ghost use Rattle.jr_locks.specs.Ending as ending;

use crate::moving::origin_at;
use crate::origins::Origins;
use jr_base::OutOfMemory;
use jr_change::{NO_ROW, Naming};
use jr_runs::same_label;
use jr_tree::{Label, Row};
use std::alloc::Global;

/// The old rows, the identifiers that some get, and which of them each gets.
#[derive(Clone, Copy)]
pub struct Copying<'a> {
    pub old: &'a [Row],
    pub namings: &'a [Naming],
    /// The number of the naming of each old row, or `NO_ROW`.
    pub numbers: &'a [u32],
}

#[tactic(auto, using(std::proofs::lemmas::List::set_past))]
fn set_number(numbers: &mut [u32], at: u32, number: u32)
    ensures { numbers.new ≡ slice_set numbers.old at number }
{
    if (at as usize) < numbers.len() {
        numbers[at as usize] = number;
    }
}

// Gives these old rows the number.
#[tactic(auto, using(crate::proofs::Numbers::more_numbers, crate::proofs::Numbers::all_numbers))]
fn set_numbers(numbers: &mut [u32], rows: &[u32], number: u32)
    ensures { numbers.new ≡ spec.with_number numbers.old rows.now number }
{
    for at in rows {
        set_number(numbers, *at, number);
    }
}

// Numbers the old rows by their namings, where they have none yet.
#[tactic(auto, using(crate::proofs::Numbers::numbered_all))]
fn number_rows(numbers: &mut [u32], namings: &[Naming], old: usize)
    requires { spec.AreNumberedTo namings.now old numbers.old 0 }
    ensures { spec.AreNumbered namings.now old numbers.new }
{
    let mut number = 0u32;
    for naming in namings {
        set_numbers(numbers, &naming.rows, number);
        number = number.saturating_add(1);
    }
}

/// Which naming each of so many old rows has: the last one that names it, or none.
#[tactic(auto, using(crate::proofs::Numbers::none_numbered))]
pub fn numbers_of(alloc: Global, namings: &[Naming], old: usize) -> Result<Vec<u32>, OutOfMemory>
    ensures { IfOk result (λ all. spec.AreNumbered namings.now old all.items) }
{
    if namings.len() >= u32::MAX as usize {
        return Err(OutOfMemory);
    }
    let mut all = vec![in alloc; NO_ROW; old]?;
    number_rows(&mut all, namings, old);
    Ok(all)
}

// The identifier of copies of an old row whose naming has this number.
fn name_at<'a>(namings: &'a [Naming], number: u32, own: &'a [u8]) -> &'a [u8]
    ensures { result.now ≡ spec.name_at namings.now number own.now }
{
    match namings.get(number as usize) {
        Some(naming) => naming.name.bytes(),
        None => own,
    }
}

// The rows have one label, unless the new one is turned.
fn has_label(old: &Label, is_turned: bool, new: &Label) -> bool
    ensures { IsTrue result ↔ (is_turned ≡ false → new.now ≡ old.now) }
{
    is_turned || same_label(new, old)
}

// Below such a row a declaration can be added as the last one.
fn takes_declarations(label: &Label) -> bool
    ensures { result ≡ ending.takes_declarations label.now }
{
    match label {
        Label::Program => true,
        Label::Unit => true,
        Label::Class { .. } => true,
        Label::Interface { .. } => true,
        Label::Body => true,
        _ => false,
    }
}

// How many rows a row of this number makes with all below it.
fn size_of(row: &Row, at: usize) -> usize
    ensures { result ≡ row.now.end - at }
{
    (row.end as usize).saturating_sub(at)
}

// A row has a copy of this size, where so many rows of its run stand from it on.
fn is_as_long(is_open: bool, rest: usize, old: usize, new: usize) -> bool
    ensures { IsTrue result → ending.IsAsLong is_open rest old new }
{
    if old < rest || (old == rest && !is_open) {
        new == old
    } else {
        rest <= new
    }
}

// The copy of a row of this number ends where that does, if so many rows of its run stand from it on.
fn ends_alike(old: &Row, from: u32, rest: u32, new: &Row, at: usize) -> bool
    ensures { IsTrue result → ending.IsAsLong (ending.takes_declarations old.now.label) rest (old.now.end - from) (new.now.end - at) }
{
    is_as_long(
        takes_declarations(&old.label),
        rest as usize,
        size_of(old, from as usize),
        size_of(new, at),
    )
}

fn rest_at(rests: &[u32], at: usize) -> u32
    ensures { result ≡ ending.rest_at rests.now at }
{
    match rests.get(at) {
        Some(rest) => *rest,
        None => 0,
    }
}

fn turned_at(is_turned: &[bool], at: usize) -> bool
    ensures { result ≡ spec.turned_at is_turned.now at }
{
    match is_turned.get(at) {
        Some(turned) => *turned,
        None => false,
    }
}

impl<'a> Copying<'a> {
    // The identifier of copies of the old row.
    fn name_in(&self, from: u32, own: &'a [u8]) -> &'a [u8]
        ensures { result.now ≡ spec.name_in self.now.namings.now self.now.numbers.now from own.now }
    {
        match self.numbers.get(from as usize) {
            Some(number) => name_at(self.namings, *number, own),
            None => own,
        }
    }

    // The row has the identifier that copies of the old row have.
    fn has_name(&self, from: u32, own: &'a [u8], name: &[u8]) -> bool
        ensures { IsTrue result ↔ (name.now ≡ spec.name_in self.now.namings.now self.now.numbers.now from own.now) }
    {
        name == self.name_in(from, own)
    }

    // The row of a number is a copy of the old one of this number, or of none.
    #[tactic(auto, using(crate::proofs::Numbers::copy_by))]
    fn is_copy(&self, from: u32, is_turned: bool, rest: u32, at: usize, new: &Row) -> bool
        ensures { IsTrue result → from ≢ no_row → spec.IsCopy self.now.old.now (spec.name_in self.now.namings.now self.now.numbers.now) from is_turned rest at new.now }
    {
        if from == NO_ROW {
            return true;
        }
        match self.old.get(from as usize) {
            Some(old) => {
                has_label(&old.label, is_turned, &new.label)
                    && self.has_name(from, old.name.bytes(), new.name.bytes())
                    && ends_alike(old, from, rest, new, at)
            }
            None => false,
        }
    }

    /// Each row has the label of its origin, unless it is turned, and the identifier that copies of it have, and ends where its origin does.
    #[tactic(auto, using(crate::proofs::Numbers::no_copies, crate::proofs::Numbers::copies_more))]
    pub fn are_copies(&self, all: &Origins, new: &[Row]) -> bool
        ensures { IsTrue result → spec.AllCopies self.now.old.now (spec.name_in self.now.namings.now self.now.numbers.now) all.now.origin.items all.now.is_turned.items all.now.rest.items new.now (length new.now) }
    {
        for at in 0..new.len() {
            let turned = turned_at(&all.is_turned, at);
            let rest = rest_at(&all.rest, at);
            if !self.is_copy(origin_at(&all.origin, at), turned, rest, at, &new[at]) {
                return false;
            }
        }
        true
    }
}
