// Rows and targets of the old program as those of the changed one.

ghost use Rattle.std.specs.Prelude.{◌≡◌, ◌≤◌, IfOk, length, slice_set};
ghost use Rattle.jr_defs.specs.Referents.{entries};
ghost use Rattle.jr_defs.specs.declared.referent.Referent.TheVariants as Referent;
ghost use Rattle.jr_locks.specs.Origins.{no_row, origin_of, row_by};
ghost use Rattle.jr_locks.specs.Locked as locked;
ghost use Rattle.jr_locks.specs.Copies as told;

use jr_base::OutOfMemory;
use jr_change::{Added, NO_ROW, Raised, RowRange, Target};
use jr_defs::Referent;
use std::alloc::Global;

/// What a table of copies or origins has for a row, if it is one.
pub fn row_for(all: &[u32], at: u32) -> Option<u32>
    ensures { result ≡ row_by (origin_of all.now at) }
{
    match all.get(at as usize) {
        Some(row) => { if *row == NO_ROW { None } else { Some(*row) } }
        None => None,
    }
}

/// The origin of a row.
pub fn origin_at(origin: &[u32], at: usize) -> u32
    ensures { result ≡ origin_of origin.now at }
{
    match origin.get(at) {
        Some(from) => *from,
        None => NO_ROW,
    }
}

// Makes a row the copy of an old one that has none.
#[tactic(auto, using(std::proofs::lemmas::List::set_past))]
fn set_first(copy: &mut [u32], from: u32, at: u32)
    ensures { copy.new ≡ told.with_first copy.old from at }
{
    let place = from as usize;
    if place < copy.len() && copy[place] == NO_ROW {
        copy[place] = at;
    }
}

// Makes a row the copy of its origin.
fn set_row(copy: &mut [u32], origin: &[u32], at: u32)
    ensures { copy.new ≡ told.with_row origin.now at copy.old }
{
    if let Some(from) = row_for(origin, at) {
        set_first(copy, from, at);
    }
}

// Tells of each old row its first copy among the rows of a range, where nothing is told yet.
#[tactic(auto, using(crate::proofs::Told::told_next, crate::proofs::Told::told_range))]
fn tell_copies(copy: &mut [u32], origin: &[u32], range: RowRange, old: usize)
    requires few { old ≤ no_row }
    requires begun { told.AreToldTo origin.now old copy.old range range.first }
    ensures { told.AreTold (locked.is_within range) origin.now old copy.new }
{
    for at in range.first..range.end {
        set_row(copy, origin, at);
    }
}

/// The first copy of each of so many old rows that the rows from `first` to before `end` have, or `NO_ROW`.
#[tactic(auto, using(crate::proofs::Told::told_begun))]
fn copies_in(
    alloc: Global,
    origin: &[u32],
    range: RowRange,
    old: usize,
) -> Result<Vec<u32>, OutOfMemory>
    requires { old ≤ no_row }
    ensures { IfOk result (λ copy. told.AreTold (locked.is_within range) origin.now old copy.items) }
{
    let mut copy = vec![in alloc; NO_ROW; old]?;
    tell_copies(&mut copy, origin, range, old);
    Ok(copy)
}

fn is_within(range: RowRange, at: u32) -> bool
    ensures { result ≡ locked.is_within range at }
{
    range.first <= at && at < range.end
}

fn is_in(range: Option<RowRange>, at: u32) -> bool
    ensures { result ≡ locked.is_in range at }
{
    match range {
        Some(range) => is_within(range, at),
        None => false,
    }
}

/// The copies of old rows: the first of all, and where there is a range, the first among its rows and the first outside.
#[derive(Drop)]
pub struct Copies {
    pub first: Vec<u32>,
    inner: Vec<u32>,
    outer: Vec<u32>,
    range: Option<RowRange>,
}

// Takes over what others tell of an old row that has no copy.
fn set_later(all: &mut [u32], later: &[u32], at: u32)
    ensures { all.new ≡ told.with_later later.now at all.old }
{
    set_first(all, at, origin_at(later, at as usize));
}

// The first table, and what the second one tells of old rows of which the first tells nothing.
#[tactic(auto, using(crate::proofs::Told::none_joined, crate::proofs::Told::joined_more))]
fn join(all: &mut [u32], later: &[u32], old: u32)
    requires { length all.old ≡ old }
    ensures { told.AreJoined all.old later.now all.new old }
{
    for at in 0..old {
        set_later(all, later, at);
    }
}

// The first copy outside the range, which may be before or behind it.
#[tactic(auto, using(crate::proofs::Told::told_outside))]
fn copies_outside(
    alloc: Global,
    origin: &[u32],
    range: RowRange,
    count: u32,
    old: u32,
) -> Result<Vec<u32>, OutOfMemory>
    requires { count ≡ length origin.now }
    ensures { IfOk result (λ all. told.AreTold (locked.is_outside range) origin.now old all.items) }
{
    let before = RowRange {
        first: 0,
        end: range.first,
    };
    let behind = RowRange {
        first: range.end,
        end: count,
    };
    let mut all = copies_in(alloc, origin, before, old as usize)?;
    let later = copies_in(alloc, origin, behind, old as usize)?;
    join(&mut all, &later, old);
    Ok(all)
}

impl Copies {
    /// The copies of so many old rows, where those that are declared twice are found among the rows of the range.
    #[tactic(auto, using(crate::proofs::Told::told_by_range, crate::proofs::Told::told_by_all))]
    pub fn of(
        alloc: Global,
        origin: &[u32],
        inner: Option<RowRange>,
        old: u32,
    ) -> Result<Copies, OutOfMemory>
        ensures copies { IfOk result (λ copies. told.AreAllTold origin.now copies) }
        ensures count { IfOk result (λ copies. told.old_count copies ≡ old) }
        ensures range { IfOk result (λ copies. copies.range ≡ inner) }
    {
        let Ok(count) = u32::try_from(origin.len()) else {
            return Err(OutOfMemory);
        };
        let whole = RowRange {
            first: 0,
            end: count,
        };
        let first = copies_in(alloc, origin, whole, old as usize)?;
        match inner {
            Some(range) => Ok(Copies {
                first,
                inner: copies_in(alloc, origin, range, old as usize)?,
                outer: copies_outside(alloc, origin, range, count, old)?,
                range: inner,
            }),
            None => Ok(Copies {
                first,
                inner: Vec::new(alloc),
                outer: Vec::new(alloc),
                range: None,
            }),
        }
    }

    // The copies among which what is seen from a row is looked for first.
    fn near(&self, from: u32) -> &[u32]
        ensures { result.now ≡ told.near_in self.now from }
    {
        if is_in(self.range, from) {
            &self.inner
        } else {
            &self.outer
        }
    }

    // The copy of an old row as it is seen from a row.
    fn seen(&self, from: u32, row: u32) -> Option<u32>
        ensures { result ≡ told.seen_in self.now from row }
    {
        match row_for(self.near(from), row) {
            Some(copy) => Some(copy),
            None => row_for(&self.first, row),
        }
    }

    // The copy of a declaration, through the copy of its level. Where one has no copy, nothing is bound.
    fn moved_declaration(&self, from: u32, row: u32, level: Option<u32>) -> Referent
        ensures { result ≡ told.moved_declaration self.now from row level }
    {
        match self.seen(from, row) {
            Some(copy) => self.at_level(from, copy, level),
            None => Referent::Unbound,
        }
    }

    // A declaration through the copy of its level.
    fn at_level(&self, from: u32, row: u32, level: Option<u32>) -> Referent
        ensures { result ≡ told.at_level self.now from row level }
    {
        match level {
            None => Referent::Declared { row, level: None },
            Some(over) => match self.seen(from, over) {
                Some(over) => Referent::Declared {
                    row,
                    level: Some(over),
                },
                None => Referent::Unbound,
            },
        }
    }

    // What a row must refer to whose old row referred to this.
    fn moved(&self, from: u32, target: Referent) -> Referent
        ensures { result ≡ told.moved_in self.now from target }
    {
        match target {
            Referent::Declared { row, level } => self.moved_declaration(from, row, level),
            Referent::Unbound => Referent::Unbound,
            Referent::Ambiguous => Referent::Ambiguous,
            Referent::ArrayLength => Referent::ArrayLength,
            Referent::Package => Referent::Package,
        }
    }

    // What a row must refer to that comes from no old row.
    fn added(&self, added: Added) -> Referent {
        match added.target {
            Target::Old(row) => self.moved_declaration(added.row, row, added.level),
            Target::New(row) => self.at_level(added.row, row, added.level),
            Target::Package => Referent::Package,
        }
    }
}

// The level of an old row in a method that is pulled up.
fn raised_level(raised: Raised, target: Referent) -> Referent
    ensures { result ≡ locked.raised_level raised target }
{
    match target {
        Referent::Declared {
            row,
            level: Some(level),
        } if level == raised.from => Referent::Declared {
            row,
            level: Some(raised.to),
        },
        _ => target,
    }
}

// The level of an old row, where that of a method that is pulled up is another.
fn raised_to(raised: Option<Raised>, from: u32, target: Referent) -> Referent
    ensures { result ≡ locked.raised_to raised from target }
{
    match raised {
        Some(raised) if is_within(raised.method, from) => raised_level(raised, target),
        _ => target,
    }
}

// What an old row refers to.
fn target_at(table: &[Referent], from: u32) -> Referent
    ensures { result ≡ entries table.now from }
{
    match table.get(from as usize) {
        Some(target) => *target,
        None => Referent::Unbound,
    }
}

// What a row of this origin must refer to.
fn lock_of(
    copies: &Copies,
    raised: Option<Raised>,
    table: &[Referent],
    row: u32,
    from: u32,
) -> Referent
    ensures { result ≡ told.lock_in copies.now raised (entries table.now) row from }
{
    if from == NO_ROW {
        return Referent::Unbound;
    }
    copies.moved(row, raised_to(raised, from, target_at(table, from)))
}

/// What rows with these origins must refer to: the copy of what the old row referred to. What comes from no old row is unbound.
#[tactic(auto, using(crate::proofs::Locked::none_made, crate::proofs::Locked::made_next))]
pub fn table_of(
    alloc: Global,
    origin: &[u32],
    copies: &Copies,
    raised: Option<Raised>,
    table: &[Referent],
) -> Result<Vec<Referent>, OutOfMemory>
    requires { told.AreAllTold origin.now copies.now }
    ensures { IfOk result (λ all. told.AreMade origin.now copies.now (entries table.now) raised all.items (length origin.now)) }
{
    let mut all = Vec::new(alloc);
    let mut row = 0u32;
    for at in 0..origin.len() {
        all.push(lock_of(copies, raised, table, row, origin_at(origin, at)))?;
        row = row.saturating_add(1);
    }
    Ok(all)
}

#[tactic(auto, using(std::proofs::lemmas::List::set_past))]
fn set_lock(all: &mut [Referent], row: u32, lock: Referent)
    ensures { all.new ≡ slice_set all.old row lock }
{
    if (row as usize) < all.len() {
        all[row as usize] = lock;
    }
}

/// Sets what added rows refer to.
#[tactic(auto, using(crate::proofs::Locked::keeps_all))]
pub fn set_added(all: &mut [Referent], copies: &Copies, added: &[Added])
    ensures { told.KeepsOthers added.now all.old all.new }
{
    for one in added {
        set_lock(all, one.row, copies.added(*one));
    }
}
