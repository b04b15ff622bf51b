// A change of many files, all or nothing.
ghost use Rattle.std.specs.Prelude.{◌≡◌, ◌≢◌, ◌⊎◌, ◌++◌, List, [], Option, Some, OnOk, IfOk};
ghost use Rattle.jr_store.specs.Image.{Image, Tells, OnlyTold, LeavesOnly, HasCause};
ghost use Rattle.jr_commit.specs.SidesAt.{with_sides};
ghost use Rattle.jr_commit.specs.Steps.{sides_of};
ghost use Rattle.jr_commit.specs.Journal.{magic, number, ending};
ghost use Rattle.jr_commit.specs.Restoring.{RestoresTo, SameFiles};
ghost use Rattle.jr_commit.specs.declared.entry.Version.TheVariants.{Two};
ghost use Rattle.jr_commit.specs.Planned.{IsPlan, StartsCommit, KeepsJournal, ChangesOnlyPlanned};

use crate::actions::{Step, remove_synced, take_steps_synced, write_synced};
use crate::differences::differences_of;
use crate::entry::own_path;
use jr_base::{Files, OutOfMemory, Path};
use jr_store::{Failed, Store};
use std::alloc::Global;
use std::marker::Model;

const OPEN: [u8; 1] = [b'1'];

const MAGIC: [u8; 5] = [b'J', b'R', b'J', b'2', b'\n'];

const END: [u8; 4] = [b'E', b'N', b'D', b'\n'];

/// Steps in path order. Where there is a step, the journal has both sides of each path, and the two paths are
/// `.refactor-journal` and `.refactor-gate`.
#[derive(Drop)]
pub struct Plan {
    pub journal: Vec<u8>,
    pub steps: Vec<Step>,
    pub journal_path: Path,
    pub gate_path: Path,
}

impl Model for Plan {
    ghost use Rattle.jr_commit.specs.Steps.{sides_of};
    ghost use Rattle.jr_commit.specs.Planned.{Planned, IsPlan};

    ghost Value = { Planned };

    ghost view = { λ p. record { journal = p.journal.items; steps = sides_of p.steps.items } };

    ghost invariant = { λ p. IsPlan p.journal.items (sides_of p.steps.items) p.journal_path p.gate_path };
}

// The journal of so many entries with this text.
pub fn framed(alloc: Global, count: u32, text: &[u8]) -> Result<Vec<u8>, OutOfMemory>
    ensures { IfOk result (λ v. v.items ≡ magic Two ++ (number count ++ (text.now ++ ending))) }
{
    let mut journal = Vec::new(alloc);
    journal.extend_from_slice(&MAGIC)?;
    journal.extend_from_slice(&count.to_be_bytes())?;
    journal.extend_from_slice(text)?;
    journal.extend_from_slice(&END)?;
    Ok(journal)
}

impl Plan {
    ghost use Rattle.std.specs.FinMap as map;
    ghost use Rattle.std.specs.Prelude.{◌≤◌, length, IfOk, OnOk};
    ghost use Rattle.std.specs.List.{AllByRecursion};
    ghost use Rattle.jr_store.specs.Image.{AreJava};
    ghost use Rattle.jr_store.specs.Replay.{image_of};
    ghost use Rattle.jr_commit.specs.SidesAt.{SideAt};
    ghost use Rattle.jr_commit.specs.Journal.{spelling, new_sides, PutsBack};
    ghost use Rattle.jr_commit.specs.Differences.{differences, IsDifference};
    ghost use Rattle.jr_commit.specs.declared.entry.Version.TheVariants.{Two};

    /// The plan that makes the new files of the old ones. Their paths end in `.java`, and the journal of their
    /// differences is at most 50,331,648 bytes long.
    pub fn new(alloc: Global, old: &Files, new: &Files) -> Result<Plan, OutOfMemory>
        requires java_old { AreJava (map.keys old.now) }
        requires java_new { AreJava (map.keys new.now) }
        requires short { length (spelling Two (differences old.now new.now)) ≤ 50331648 }
        ensures journal { IfOk result (λ plan. plan.journal ≡ spelling Two (differences old.now new.now)) }
        ensures steps { IfOk result (λ plan. plan.steps ≡ new_sides (differences old.now new.now)) }

        // The differences are what their name says, and the steps make the new files of the old ones.
        ensures differ { OnOk result (IsDifference old.now new.now (differences old.now new.now)) }
        ensures gives { IfOk result (λ plan. (f : Image) → SameFiles f (image_of old.now) → SameFiles (with_sides plan.steps f) (image_of new.now)) }

        // Where the files are the old ones, each path of the journal holds its entry's old side.
        ensures olds { IfOk result (λ plan. (f : Image) → SameFiles f (image_of old.now) → (olds : List SideAt) → PutsBack plan.journal olds → AllByRecursion (λ e. f e.0 ≡ e.1) olds) }
    {
        let (text, steps) = differences_of(alloc, old.entries(), new.entries())?;
        let journal = framed(alloc, steps.len() as u32, &text)?;
        let journal_path = own_path(alloc, ".refactor-journal")?;
        let gate_path = own_path(alloc, ".refactor-gate")?;
        Ok(Plan {
            journal,
            steps,
            journal_path,
            gate_path,
        })
    }

    /// How many paths are written or removed.
    pub fn count(&self) -> u32
        ensures { result ≡ length self.now.steps }
    {
        self.steps.len() as u32
    }
}

// The six actions of a commit.
fn commit_steps<S: Store>(
    store: &mut S,
    journal_path: &Path,
    journal: &[u8],
    gate_path: &Path,
    steps: &[Step],
) -> Result<(), Failed>
    requires { IsPlan journal.now (sides_of steps.now) journal_path.now gate_path.now }

    ensures none { sides_of steps.now ≡ [] → store.new ≡ store.old }
    ensures changes { Tells (S.files store.old) (S.files store.new) (ChangesOnlyPlanned (record { journal = journal.now; steps = sides_of steps.now })) }
    ensures steps { OnOk result (Tells (S.files store.old) (S.files store.new) (λ f g. SameFiles g (with_sides (sides_of steps.now) f))) }
    ensures journal { OnOk result (sides_of steps.now ≢ [] → Tells (S.files store.old) (S.files store.new) (λ f g. KeepsJournal (record { journal = journal.now; steps = sides_of steps.now }) g)) }
    ensures durable { OnOk result (sides_of steps.now ≢ [] → OnlyTold (S.files store.new) (S.may_leave store.new)) }
    ensures done { OnOk result ((f : Image) → S.files store.old ≡ Some f → StartsCommit f (S.may_leave store.old) (record { journal = journal.now; steps = sides_of steps.now }) →
        (c : Image) → S.may_leave store.new c → RestoresTo c (with_sides (sides_of steps.now) f)) }
    ensures any_moment { (f : Image) → S.files store.old ≡ Some f → StartsCommit f (S.may_leave store.old) (record { journal = journal.now; steps = sides_of steps.now }) →
        LeavesOnly S.moment S.left_since store.old store.new (λ c. RestoresTo c f ⊎ RestoresTo c (with_sides (sides_of steps.now) f)) }
    ensures cause { HasCause (S.faults store.old) (S.faults store.new) result }
{
    if steps.is_empty() {
        return Ok(());
    }
    write_synced(store, journal_path, journal)?;
    write_synced(store, gate_path, &OPEN)?;
    take_steps_synced(store, steps)?;
    remove_synced(store, gate_path)
}

/// Takes the steps of a plan: a crash at any moment leaves the files of before or those of after. Without steps it
/// makes no call.
pub fn commit<S: Store>(store: &mut S, plan: &Plan) -> Result<(), Failed>
    ensures none { plan.now.steps ≡ [] → store.new ≡ store.old }

    // Only the steps' paths, the journal and the gate change.
    ensures changes { Tells (S.files store.old) (S.files store.new) (ChangesOnlyPlanned plan.now) }

    // At `Ok` each step is done, and every other file is as before.
    ensures steps { OnOk result (Tells (S.files store.old) (S.files store.new) (λ f g. SameFiles g (with_sides plan.now.steps f))) }

    // At `Ok` with a step the journal is the plan's, the gate is closed, and a crash leaves what reads give.
    ensures journal { OnOk result (plan.now.steps ≢ [] → Tells (S.files store.old) (S.files store.new) (λ f g. KeepsJournal plan.now g)) }
    ensures durable { OnOk result (plan.now.steps ≢ [] → OnlyTold (S.files store.new) (S.may_leave store.new)) }

    // At `Ok` a crash leaves the files of after.
    ensures done { OnOk result ((f : Image) → S.files store.old ≡ Some f → StartsCommit f (S.may_leave store.old) plan.now →
        (c : Image) → S.may_leave store.new c → RestoresTo c (with_sides plan.now.steps f)) }

    // A crash at any moment leaves an image of the files of before or of those of after.
    ensures any_moment { (f : Image) → S.files store.old ≡ Some f → StartsCommit f (S.may_leave store.old) plan.now →
        LeavesOnly S.moment S.left_since store.old store.new (λ c. RestoresTo c f ⊎ RestoresTo c (with_sides plan.now.steps f)) }

    // Without a crash, so do reads, after a fault too.
    ensures read_back { (f g : Image) → S.files store.old ≡ Some f → StartsCommit f (S.may_leave store.old) plan.now → S.files store.new ≡ Some g →
        RestoresTo g f ⊎ RestoresTo g (with_sides plan.now.steps f) }

    ensures cause { HasCause (S.faults store.old) (S.faults store.new) result }
{
    commit_steps(
        store,
        &plan.journal_path,
        &plan.journal,
        &plan.gate_path,
        &plan.steps,
    )
}
