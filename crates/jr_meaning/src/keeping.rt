// Whether the bodies that a change leaves alone mean what they meant.
ghost use Rattle.std.specs.Prelude.{◌≡◌, ◌+◌, ◌-◌, ◌<◌, ◌≤◌, true, IfOk, length};
ghost use Rattle.jr_tree.specs.Rows.{label};
ghost use Rattle.jr_tree.specs.Tree.{IsTree};
ghost use Rattle.jr_flow_defs.specs.Meaning.{Meaning};
ghost use Rattle.jr_flow_laws.specs.Shifted as laws;
ghost use Rattle.jr_change.specs.declared.change.Change.{Change};
ghost use Rattle.jr_locks.specs.Changed.{IsChanged, copies_by, origins_by};
ghost use Rattle.jr_locks.specs.Origins.{no_row};
ghost use Rattle.jr_meaning.specs.Meaning.{IsMeant};
ghost use Rattle.jr_meaning.specs.Kept as tell;

use crate::holding::{Near, is_whole_at};
use crate::nearing::nears_of;
use crate::reading::{Meant, row_in};
use crate::telling::is_alike;
use jr_base::OutOfMemory;
use jr_change::{NO_ROW, RowRange};
use jr_places::end_at;
use jr_tree::{Label, Row};
use std::alloc::Global;

// A row of a run that begins with the row `from`, whose copy is `first`, has its copy so far behind that.
fn follows(first: u32, from: u32, copy: u32, at: u32) -> bool
    ensures { copy ≡ first + (at - from) → copy < no_row → result ≡ true }
{
    copy < NO_ROW && (first <= copy && copy.saturating_sub(first) == at.saturating_sub(from))
}

// The rows of a range have copies, one behind the other, as those of a body that is left alone.
fn is_run(copy: &[u32], range: RowRange) -> bool
    ensures { tell.IsRun copy.now range → result ≡ true }
{
    let first = row_in(copy, range.first);
    for at in range.first..range.end {
        if !follows(first, range.first, row_in(copy, at), at) {
            return false;
        }
    }
    true
}

// The row has what a body by itself has, and means what its copy means.
fn keeps_row(old: &Meant, new: &Meant, near: Near, range: RowRange, at: u32, copy: u32) -> bool
    ensures { at < length old.now.rows.now → (m w : Meaning) → IsMeant old.now m → IsMeant new.now w → result ≡ true
        → tell.IsKeptRow old.now.rows.now new.now.rows.now m w near.entry.targets.now near.entry.loops.now range at copy }
{
    if (copy as usize) >= new.rows.len() {
        return false;
    }
    is_whole_at(old, near, range, at) && is_alike(old, new, at, copy)
}

fn keeps_rows(old: &Meant, new: &Meant, near: Near, copy: &[u32], range: RowRange) -> bool
    ensures { range.end ≤ length old.now.rows.now → (m w : Meaning) → IsMeant old.now m → IsMeant new.now w → result ≡ true
        → tell.AreKept old.now.rows.now new.now.rows.now m w near.entry.targets.now near.entry.loops.now copy.now range range.end }
{
    for at in range.first..range.end {
        if !keeps_row(old, new, near, range, at, row_in(copy, at)) {
            return false;
        }
    }
    true
}

fn declares_code(label: &Label) -> bool
    ensures { result ≡ laws.declares_code label.now }
{
    match label {
        Label::Method { .. } => true,
        Label::Constructor { .. } => true,
        Label::DefaultConstructor => true,
        Label::Initializer { .. } => true,
        Label::Field { .. } => true,
        _ => false,
    }
}

fn is_body(rows: &[Row], at: u32) -> bool
    ensures { result ≡ laws.declares_code (label rows.now at) }
{
    match rows.get(at as usize) {
        Some(row) => declares_code(&row.label),
        None => false,
    }
}

// A body that is left alone means what it meant.
fn keeps_body(old: &Meant, new: &Meant, near: Near, copy: &[u32], body: u32) -> bool
    ensures { body < length old.now.rows.now → IsTree old.now.rows.now → (m w : Meaning) → IsMeant old.now m → IsMeant new.now w → result ≡ true
        → tell.KeepsBody old.now.rows.now new.now.rows.now m w near.entry.targets.now near.entry.loops.now copy.now body }
{
    if !is_body(old.rows, body) {
        return true;
    }
    let range = RowRange {
        first: body,
        end: end_at(old.rows, body),
    };
    if !is_run(copy, range) {
        return true;
    }
    keeps_rows(old, new, near, copy, range)
}

// The first so many rows that are bodies left alone mean what they meant. No body stands in another, so that each row is met once.
fn keeps_bodies(old: &Meant, new: &Meant, near: Near, copy: &[u32], count: u32) -> bool
    ensures { count ≤ length old.now.rows.now → IsTree old.now.rows.now → (m w : Meaning) → IsMeant old.now m → IsMeant new.now w → result ≡ true
        → tell.KeepBodies old.now.rows.now new.now.rows.now m w near.entry.targets.now near.entry.loops.now copy.now count }
{
    for body in 0..count {
        if !keeps_body(old, new, near, copy, body) {
            return false;
        }
    }
    true
}

// The same by what stands round rows.
#[tactic(auto, using(crate::proofs::Bodies::bodies_kept))]
fn keeps_among(old: &Meant, new: &Meant, copy: &[u32], targets: &[u32], loops: &[u32]) -> bool
    ensures { tell.AreNears old.now.rows.now targets.now loops.now → (m w : Meaning) (change : Change) → IsMeant old.now m → IsMeant new.now w
        → copy.now ≡ copies_by (origins_by change) (length old.now.rows.now) → IsTree old.now.rows.now → IsTree new.now.rows.now
        → IsChanged old.now.rows.now m.targets change new.now.rows.now w.targets → result ≡ true → tell.KeepsBodies old.now.rows.now new.now.rows.now m w change }
{
    let Ok(count) = u32::try_from(old.rows.len()) else {
        return false;
    };
    keeps_bodies(old, new, Near { targets, loops }, copy, count)
}

/// Each body that the change leaves alone means what it meant: it has its rows copied in one run, and each of them is constant where its copy is, refers to what has the same role, and is
/// a string, is shown as one, or is a cast that can fail, where its copy is. In such a body jumps have their targets, and locals are its own. So it keeps its edges of control and those
/// from definitions to uses. `copy` is the first copy of each old row.
pub fn keeps_meaning(
    alloc: Global,
    old: &Meant,
    new: &Meant,
    copy: &[u32],
) -> Result<bool, OutOfMemory>
    ensures { (m w : Meaning) (change : Change) → IsMeant old.now m → IsMeant new.now w → copy.now ≡ copies_by (origins_by change) (length old.now.rows.now)
        → IsTree old.now.rows.now → IsTree new.now.rows.now → IsChanged old.now.rows.now m.targets change new.now.rows.now w.targets
        → IfOk result (λ is. is ≡ true → tell.KeepsBodies old.now.rows.now new.now.rows.now m w change) }
{
    if old.rows.len() >= u32::MAX as usize {
        return Err(OutOfMemory);
    }
    let targets = nears_of(alloc, old.rows, true)?;
    let loops = nears_of(alloc, old.rows, false)?;
    Ok(keeps_among(old, new, copy, &targets, &loops))
}
