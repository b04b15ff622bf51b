// Puts the old files back after a crash within a commit.
ghost use Rattle.std.specs.Prelude.{◌≡◌, ◌<◌, ◌≤◌, ◌^◌, List, [], ◌∷◌, ◌++◌, ℕ, length, Option, Some, IfOk, OnOk, IsErrOf};
ghost use Rattle.jr_store.specs.Image.{Image, Tells, Elapses, LeavesOnly, HasStoreCause, Rose};
ghost use Rattle.jr_commit.specs.Steps.{sides_of};
ghost use Rattle.jr_commit.specs.Entries.{plain, plain_of};
ghost use Rattle.jr_commit.specs.Journal.{old_sides};
ghost use Rattle.jr_commit.specs.Restoring.{IsOpen, Restored, RestoresTo, SameFiles, KeepsOthers, StartsRecover, MayBegin, FindsOlds, HasNoJournal, SaysOpen};
ghost use Rattle.jr_commit.specs.Recovered.{Answers};
ghost use Rattle.jr_commit.specs.declared.recovery.RecoverFault.TheVariants as faults;

use crate::actions::{Step, remove_synced, take_steps_synced};
use crate::entry::{Entry, Side, own_path};
use crate::reading::read_journal;
use jr_base::{OutOfMemory, Path};
use jr_store::{Failed, Store, StoreError};
use std::alloc::Global;

const OPEN: [u8; 1] = [b'1'];

/// The most bytes of a journal, and one more.
const MOST_READ: u32 = 50_331_649;

/// What a recovery did.
#[derive(Clone, Copy, Debug, PartialEq, Eq)]
pub enum Recovered {
    /// The gate was closed.
    Clean,
    /// The gate was open. So many files were put back.
    RolledBack(u32),
}

/// Why a recovery did not end. The last two come before its first write.
#[derive(Clone, Copy, Debug, PartialEq, Eq)]
pub enum RecoverFault {
    /// The store failed.
    Failed,
    /// The gate is open, and the journal is absent or in no version's grammar.
    BadJournal,
    OutOfMemory,
}

impl From<OutOfMemory> for RecoverFault {
    ghost from_gives = { λ _ e. e ≡ faults.OutOfMemory };

    fn from(_: OutOfMemory) -> Self {
        RecoverFault::OutOfMemory
    }
}

impl From<Failed> for RecoverFault {
    ghost from_gives = { λ _ e. e ≡ faults.Failed };

    fn from(_: Failed) -> Self {
        RecoverFault::Failed
    }
}

// Whether the file is the one byte `1`.
fn reads_open<S: Store>(alloc: Global, store: &mut S, path: &Path) -> Result<bool, StoreError>
    ensures open { IfOk result (λ says. SaysOpen says (S.files store.old) path.now) }
    ensures told { S.files store.new ≡ S.files store.old }
    ensures crash { (c : Image) → S.may_leave store.new c → S.may_leave store.old c }
    ensures time { Elapses (S.moment store.old) (S.moment store.new) (S.left_since store.old) (S.left_since store.new) (S.may_leave store.new) }
    ensures cause { HasStoreCause (S.faults store.old) (S.faults store.new) result }
{
    match store.read(alloc, path, 2)? {
        Some(bytes) => Ok(bytes.as_slice() == OPEN.as_slice()),
        None => Ok(false),
    }
}

// Adds the step that puts the old side back.
fn push_back(steps: &mut Vec<Step>, entry: Entry) -> Result<(), OutOfMemory>
    ensures { OnOk result (sides_of steps.new.items ≡ sides_of steps.old.items ++ old_sides (plain_of entry ∷ [])) }
{
    let Entry { path, old, new: _ } = entry;
    match old {
        Side::Holds(bytes) => Ok(steps.push(Step::Write { path, bytes })?),
        Side::Absent => Ok(steps.push(Step::Remove { path })?),
        Side::Unknown => Ok(()),
    }
}

// The steps that put the old sides back.
#[tactic(auto, using(crate::proofs::Olds::olds_push))]
fn steps_back(alloc: Global, entries: Vec<Entry>) -> Result<Vec<Step>, OutOfMemory>
    ensures { IfOk result (λ v. sides_of v.items ≡ old_sides (plain entries.items)) }
{
    let mut steps = Vec::new(alloc);
    for entry in entries {
        push_back(&mut steps, entry)?;
    }
    Ok(steps)
}

// The steps that put back the old sides of the journal at a path.
fn read_steps<S: Store>(
    alloc: Global,
    store: &mut S,
    path: &Path,
) -> Result<Vec<Step>, RecoverFault>
    ensures found { IfOk result (λ v. FindsOlds (S.files store.old) path.now (sides_of v.items)) }
    ensures bad { IsErrOf result faults.BadJournal → HasNoJournal (S.files store.old) path.now }
    ensures count { IfOk result (λ v. length v.items < 2 ^ 32) }
    ensures told { S.files store.new ≡ S.files store.old }
    ensures crash { (c : Image) → S.may_leave store.new c → S.may_leave store.old c }
    ensures time { Elapses (S.moment store.old) (S.moment store.new) (S.left_since store.old) (S.left_since store.new) (S.may_leave store.new) }
    ensures later { S.faults store.old ≤ S.faults store.new }
    ensures failed { IsErrOf result faults.Failed → Rose (S.faults store.old) (S.faults store.new) }
{
    let bytes = match store.read(alloc, path, MOST_READ) {
        Ok(Some(bytes)) => bytes,
        Ok(None) => return Err(RecoverFault::BadJournal),
        Err(StoreError::Failed) => return Err(RecoverFault::Failed),
        Err(StoreError::OutOfMemory) => return Err(RecoverFault::OutOfMemory),
    };
    let journal = match read_journal(alloc, &bytes) {
        Ok(Some(journal)) => journal,
        Ok(None) => return Err(RecoverFault::BadJournal),
        Err(_) => return Err(RecoverFault::OutOfMemory),
    };
    match steps_back(alloc, journal.entries) {
        Ok(steps) => Ok(steps),
        Err(_) => Err(RecoverFault::OutOfMemory),
    }
}

/// Puts the old files back where a crash left the gate open. A crash within it is recovered from too.
pub fn recover<S: Store>(alloc: Global, store: &mut S) -> Result<Recovered, RecoverFault>
    // The files are those that the image stood for, and the gate is closed.
    ensures done { OnOk result (Tells (S.files store.old) (S.files store.new) (λ f g. (IsOpen g → ⊥) × ((r : Image) → Restored f r → SameFiles g r))) }
    ensures answer { IfOk result (λ answer. Answers answer (S.files store.old)) }

    // Only Java files and the gate change.
    ensures others { Tells (S.files store.old) (S.files store.new) KeepsOthers }

    // A crash at any moment leaves an image of the same files.
    ensures any_moment { (f r : Image) → S.files store.old ≡ Some f → Restored f r → StartsRecover f (S.may_leave store.old) →
        LeavesOnly S.moment S.left_since store.old store.new (λ c. RestoresTo c r) }

    // Without a crash, so do reads, after a fault too.
    ensures read_back { (f r g : Image) → S.files store.old ≡ Some f → Restored f r → StartsRecover f (S.may_leave store.old) → S.files store.new ≡ Some g → RestoresTo g r }

    // At `Ok` a crash leaves the files and a closed gate.
    ensures after { OnOk result ((f r : Image) → S.files store.old ≡ Some f → Restored f r → StartsRecover f (S.may_leave store.old) →
        (c : Image) → S.may_leave store.new c → (IsOpen c → ⊥) × SameFiles c r) }

    // After any end but a fault of the store the next call may begin.
    ensures next { (IsErrOf result faults.Failed → ⊥) → MayBegin (S.files store.old) (S.may_leave store.old) → MayBegin (S.files store.new) (S.may_leave store.new) }

    // Where the journal is bad or memory is short, nothing has changed.
    ensures bad { IsErrOf result faults.BadJournal → (f : Image) → S.files store.old ≡ Some f → (r : Image) → Restored f r → ⊥ }
    ensures unchanged { IsErrOf result faults.BadJournal → (S.files store.new ≡ S.files store.old) × ((c : Image) → S.may_leave store.new c → S.may_leave store.old c) }
    ensures unchanged_memory { IsErrOf result faults.OutOfMemory → (S.files store.new ≡ S.files store.old) × ((c : Image) → S.may_leave store.new c → S.may_leave store.old c) }

    ensures later { S.faults store.old ≤ S.faults store.new }
    ensures failed { IsErrOf result faults.Failed → Rose (S.faults store.old) (S.faults store.new) }
{
    let gate = own_path(alloc, ".refactor-gate")?;
    let journal = own_path(alloc, ".refactor-journal")?;
    let is_open = match reads_open(alloc, store, &gate) {
        Ok(is_open) => is_open,
        Err(StoreError::Failed) => return Err(RecoverFault::Failed),
        Err(StoreError::OutOfMemory) => return Err(RecoverFault::OutOfMemory),
    };
    if !is_open {
        return Ok(Recovered::Clean);
    }
    let steps = match read_steps(alloc, store, &journal) {
        Ok(steps) => steps,
        Err(fault) => return Err(fault),
    };
    take_steps_synced(store, &steps)?;
    remove_synced(store, &gate)?;
    Ok(Recovered::RolledBack(steps.len() as u32))
}
