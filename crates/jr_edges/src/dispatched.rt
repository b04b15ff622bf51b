// What calls find in classes, before and after (JLS 15.12.4.4).
ghost use Rattle.std.specs.Prelude.{◌≡◌, IfOk, Decides};
ghost use Rattle.jr_defs.specs.Referents.{Table};
ghost use Rattle.jr_dispatch.specs.Methods.{AreMethods};
ghost use Rattle.jr_edges.specs.Dispatched as tell;

use jr_base::OutOfMemory;
use jr_dispatch::{Found, Methods};
use jr_locks::row_for;
use jr_places::is_class;
use std::alloc::Global;

/// A class and a method that it had, by rows of the old program: a call of the method finds there another one than it found.
#[derive(Clone, Copy, Debug, PartialEq, Eq)]
pub struct Lost {
    pub class: u32,
    pub method: u32,
}

// The copy of an old row was found.
fn is_copy_found(copy: &[u32], at: u32, found: Option<u32>) -> bool
    ensures { result ≡ tell.is_copy_found copy.now at found }
{
    let Some(row) = row_for(copy, at) else {
        return false;
    };
    match found {
        Some(method) => row == method,
        None => false,
    }
}

// A call finds the copy of what it found. A class or method without a copy is passed.
fn is_kept(alloc: Global, locked: Methods, copy: &[u32], before: Found) -> Result<bool, OutOfMemory>
    ensures { (l : Table) → AreMethods locked.entry.under.rows.now l locked.entry → IfOk result (λ is. Decides is (tell.KeepsCall locked.entry.under.rows.now l copy.now before.class before.method before.found)) }
{
    let Some(class) = row_for(copy, before.class) else {
        return Ok(true);
    };
    let Some(method) = row_for(copy, before.method) else {
        return Ok(true);
    };
    let found = locked.dispatch(alloc, class, method)?;
    Ok(is_copy_found(copy, before.found, found))
}

// The first edge of a list that is not kept.
fn first_lost(
    alloc: Global,
    locked: Methods,
    copy: &[u32],
    all: &[Found],
) -> Result<Option<Lost>, OutOfMemory>
    ensures { (l : Table) → AreMethods locked.entry.under.rows.now l locked.entry → IfOk result (λ lost. tell.IsFirstLost locked.entry.under.rows.now l copy.now all.now lost) }
{
    for before in all {
        if !is_kept(alloc, locked, copy, *before)? {
            return Ok(Some(Lost {
                class: before.class,
                method: before.method,
            }));
        }
    }
    Ok(None)
}

// The first method of a class whose call is not kept.
fn lost_in_class(
    alloc: Global,
    old: Methods,
    locked: Methods,
    copy: &[u32],
    class: u32,
) -> Result<Option<Lost>, OutOfMemory>
    ensures { (t l : Table) → AreMethods old.entry.under.rows.now t old.entry → AreMethods locked.entry.under.rows.now l locked.entry → IfOk result (λ lost. tell.IsClassTold locked.entry.under.rows.now l copy.now old.entry.under.rows.now t class lost) }
{
    if !is_class(old.under.rows, class) {
        return Ok(None);
    }
    let all = old.found_in(alloc, class)?;
    first_lost(alloc, locked, copy, &all)
}

// The first such class before the end.
fn lost_before(
    alloc: Global,
    old: Methods,
    locked: Methods,
    copy: &[u32],
    end: u32,
) -> Result<Option<Lost>, OutOfMemory>
    ensures { (t l : Table) → AreMethods old.entry.under.rows.now t old.entry → AreMethods locked.entry.under.rows.now l locked.entry → IfOk result (λ lost. tell.AreTold locked.entry.under.rows.now l copy.now old.entry.under.rows.now t end lost) }
{
    for class in 0..end {
        if let Some(lost) = lost_in_class(alloc, old, locked, copy, class)? {
            return Ok(Some(lost));
        }
    }
    Ok(None)
}

/// Whether calls in the copies of classes find the copies of what they found: none where they do, else the first class, and of it the first method, by old rows, where
/// they do not. Where a call finds another method, that edge of the changed program comes after the old one, which is lost too. Of 2^32 rows or more it is not told.
pub fn lost_dispatch(
    alloc: Global,
    old: Methods,
    new: Methods,
    copy: &[u32],
) -> Result<Option<Lost>, OutOfMemory>
    ensures { (t l : Table) → AreMethods old.entry.under.rows.now t old.entry → AreMethods new.entry.under.rows.now l new.entry → IfOk result (λ lost. tell.IsTold old.entry.under.rows.now t new.entry.under.rows.now l copy.now lost) }
{
    let Ok(end) = u32::try_from(old.under.rows.len()) else {
        return Err(OutOfMemory);
    };
    lost_before(alloc, old, new, copy, end)
}
