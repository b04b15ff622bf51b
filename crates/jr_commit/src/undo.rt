// Takes the last change back, by the journal that stands.
ghost use Rattle.std.specs.Prelude.{◌≡◌, ◌≤◌, ◌<◌, ◌^◌, ◌↔◌, ℕ, List, length, Option, Some, IsTrue, IfOk, IfErr, IfNone, IfSome, IsErrOf};
ghost use Rattle.std.specs.List.{AllByRecursion};
ghost use Rattle.std.specs.Option.{option_copied};
ghost use Rattle.jr_store.specs.Image.{Image, Elapses, LeavesOnly, HasStoreCause, Rose};
ghost use Rattle.jr_commit.specs.Differences.{changes};
ghost use Rattle.jr_commit.specs.Entries.{PlainEntry, known_of, plain};
ghost use Rattle.jr_commit.specs.Journal.{IsIn, entries_text, new_sides};
ghost use Rattle.jr_commit.specs.Steps.{sides_of};
ghost use Rattle.jr_commit.specs.Undoing.{KeepsBoth, HoldsNew, IsUndoable, IsFirstEdited, IsUndoFault, TakesBack, bytes_of, pairs_back};
ghost use Rattle.jr_commit.specs.declared.entry.Version.TheVariants.{Two};
ghost use Rattle.jr_commit.specs.declared.undo.UndoFault.TheVariants as faults;

use crate::actions::Step;
use crate::differences::push_change;
use crate::entry::{Entry, Side, own_path};
use crate::plan::{Plan, framed};
use crate::reading::read_journal;
use jr_base::{OutOfMemory, Path};
use jr_store::{Store, StoreError};
use std::alloc::Global;

/// The most bytes of a journal, and one more.
const MOST_READ: u32 = 50_331_649;

/// Why the last change is not taken back: the first reason, in the order of the variants from `NoJournal` on.
#[derive(Debug, Drop)]
pub enum UndoFault {
    /// The store failed.
    Failed,
    OutOfMemory,
    /// There is no journal.
    NoJournal,
    /// The journal is not of version 2, which keeps both sides.
    OneSided,
    /// The first path of the journal that does not hold its new side.
    Edited(Path),
}

// The entries, or None where the bytes are no journal of version 2.
#[tactic(auto, using(crate::proofs::Undoing::two_of, crate::proofs::Undoing::not_two, crate::proofs::Undoing::none_two))]
fn both_sides(alloc: Global, bytes: &[u8]) -> Result<Option<Vec<Entry>>, OutOfMemory>
    ensures found { IfOk result (λ o. IfSome o (λ v. IsIn Two bytes.now (plain v.items))) }
    ensures none { IfOk result (λ o. IfNone o ((es : List PlainEntry) → IsIn Two bytes.now es → ⊥)) }
{
    match read_journal(alloc, bytes)? {
        Some(journal) => {
            if journal.version == 2 {
                Ok(Some(journal.entries))
            } else {
                Ok(None)
            }
        }
        None => Ok(None),
    }
}

// The entries of the journal that keeps both sides.
fn read_last<S: Store>(alloc: Global, store: &mut S) -> Result<Vec<Entry>, UndoFault>
    ensures kept { IfOk result (λ v. (bytes : List ℕ) × IsIn Two bytes (plain v.items)) }
    ensures there { IfOk result (λ v. (f : Image) → S.files store.old ≡ Some f → KeepsBoth f (plain v.items)) }
    ensures fault { IfErr result (λ fault. (f : Image) → S.files store.old ≡ Some f → IsUndoFault f fault) }
    ensures told { S.files store.new ≡ S.files store.old }
    ensures crash { (c : Image) → S.may_leave store.new c → S.may_leave store.old c }
    ensures any_moment { LeavesOnly S.moment S.left_since store.old store.new (S.may_leave store.old) }
    ensures later { S.faults store.old ≤ S.faults store.new }
    ensures failed { IsErrOf result faults.Failed → Rose (S.faults store.old) (S.faults store.new) }
{
    let Ok(path) = own_path(alloc, ".refactor-journal") else {
        return Err(UndoFault::OutOfMemory);
    };
    let bytes = match store.read(alloc, &path, MOST_READ) {
        Ok(Some(bytes)) => bytes,
        Ok(None) => return Err(UndoFault::NoJournal),
        Err(StoreError::Failed) => return Err(UndoFault::Failed),
        Err(StoreError::OutOfMemory) => return Err(UndoFault::OutOfMemory),
    };
    match both_sides(alloc, &bytes) {
        Ok(Some(entries)) => Ok(entries),
        Ok(None) => Err(UndoFault::OneSided),
        Err(_) => Err(UndoFault::OutOfMemory),
    }
}

// Whether the path holds just this side. A side past the length of a journal is taken for want of memory.
fn holds<S: Store>(
    alloc: Global,
    store: &mut S,
    path: &Path,
    side: &Side,
) -> Result<bool, StoreError>
    ensures held { IfOk result (λ yes. (f : Image) → S.files store.old ≡ Some f → (IsTrue yes ↔ (known_of side.now ≡ Some (f path.now)))) }
    ensures told { S.files store.new ≡ S.files store.old }
    ensures crash { (c : Image) → S.may_leave store.new c → S.may_leave store.old c }
    ensures any_moment { LeavesOnly S.moment S.left_since store.old store.new (S.may_leave store.old) }
    ensures cause { HasStoreCause (S.faults store.old) (S.faults store.new) result }
{
    match side {
        Side::Absent => match store.read(alloc, path, 1)? {
            Some(_) => Ok(false),
            None => Ok(true),
        },
        Side::Holds(bytes) => {
            if bytes.len() > 50_331_648 {
                return Err(StoreError::OutOfMemory);
            }
            match store.read(alloc, path, bytes.len() as u32 + 1)? {
                Some(found) => Ok(found.as_slice() == bytes.as_slice()),
                None => Ok(false),
            }
        }
        Side::Unknown => Ok(false),
    }
}

// The first path that does not hold its new side.
fn find_edited<S: Store>(
    alloc: Global,
    store: &mut S,
    entries: &[Entry],
) -> Result<Option<Path>, StoreError>
    ensures none { IfOk result (λ o. IfNone o ((f : Image) → S.files store.old ≡ Some f → AllByRecursion (HoldsNew f) (plain entries.now))) }
    ensures some { IfOk result (λ o. IfSome o (λ path. (f : Image) → S.files store.old ≡ Some f → IsFirstEdited f (plain entries.now) path)) }
    ensures told { S.files store.new ≡ S.files store.old }
    ensures crash { (c : Image) → S.may_leave store.new c → S.may_leave store.old c }
    ensures any_moment { LeavesOnly S.moment S.left_since store.old store.new (S.may_leave store.old) }
    ensures cause { HasStoreCause (S.faults store.old) (S.faults store.new) result }
{
    let mut rest = entries;
    while let [first, after @ ..] = rest {
        if !holds(alloc, store, &first.path, &first.new)? {
            return Ok(Some(first.path.copy(alloc)?));
        }
        rest = after;
    }
    Ok(None)
}

fn side_bytes(side: &Side) -> Option<&[u8]>
    ensures { option_copied result ≡ bytes_of (known_of side.now) }
{
    match side {
        Side::Holds(bytes) => Some(bytes.as_slice()),
        Side::Absent | Side::Unknown => None,
    }
}

// The text of the change back, and its steps.
fn change_back(alloc: Global, entries: &[Entry]) -> Result<(Vec<u8>, Vec<Step>), OutOfMemory>
    requires { length (entries_text Two (changes (pairs_back (plain entries.now)))) < 2 ^ 32 }
    ensures text { IfOk result (λ r. r.0.items ≡ entries_text Two (changes (pairs_back (plain entries.now)))) }
    ensures steps { IfOk result (λ r. sides_of r.1.items ≡ new_sides (changes (pairs_back (plain entries.now)))) }
{
    let mut text = Vec::new(alloc);
    let mut steps = Vec::new(alloc);
    let mut rest = entries;
    while let [entry, after @ ..] = rest {
        let old = side_bytes(&entry.new);
        let new = side_bytes(&entry.old);
        push_change(alloc, &mut text, &mut steps, &entry.path, old, new)?;
        rest = after;
    }
    Ok((text, steps))
}

// The plan of the change back.
fn plan_back(alloc: Global, entries: &[Entry]) -> Result<Plan, OutOfMemory>
    requires { (bytes : List ℕ) × IsIn Two bytes (plain entries.now) }
    ensures { IfOk result (λ plan. TakesBack (plain entries.now) plan) }
{
    let (text, steps) = change_back(alloc, entries)?;
    let journal = framed(alloc, steps.len() as u32, &text)?;
    let journal_path = own_path(alloc, ".refactor-journal")?;
    let gate_path = own_path(alloc, ".refactor-gate")?;
    Ok(Plan {
        journal,
        steps,
        journal_path,
        gate_path,
    })
}

/// The plan that takes back the change that the journal keeps: each path gets its old side, where all still hold their
/// new sides. The gate is closed. Nothing is written.
pub fn plan_undo<S: Store>(alloc: Global, store: &mut S) -> Result<Plan, UndoFault>
    // There is a plan just where the change can be taken back, and it does that.
    ensures plan { IfOk result (λ plan. (es : List PlainEntry) × TakesBack es plan × ((f : Image) → S.files store.old ≡ Some f → IsUndoable f es)) }
    ensures fault { IfErr result (λ fault. (f : Image) → S.files store.old ≡ Some f → IsUndoFault f fault) }
    ensures told { S.files store.new ≡ S.files store.old }
    ensures crash { (c : Image) → S.may_leave store.new c → S.may_leave store.old c }
    ensures any_moment { LeavesOnly S.moment S.left_since store.old store.new (S.may_leave store.old) }
    ensures later { S.faults store.old ≤ S.faults store.new }
    ensures failed { IsErrOf result faults.Failed → Rose (S.faults store.old) (S.faults store.new) }
{
    let entries = match read_last(alloc, store) {
        Ok(entries) => entries,
        Err(fault) => return Err(fault),
    };
    match find_edited(alloc, store, &entries) {
        Ok(None) => (),
        Ok(Some(path)) => return Err(UndoFault::Edited(path)),
        Err(StoreError::Failed) => return Err(UndoFault::Failed),
        Err(StoreError::OutOfMemory) => return Err(UndoFault::OutOfMemory),
    }
    match plan_back(alloc, &entries) {
        Ok(plan) => Ok(plan),
        Err(_) => Err(UndoFault::OutOfMemory),
    }
}
