// Single actions on a store, each on the disk before the next begins.
ghost use Rattle.std.specs.Prelude.{◌≡◌, Option, Some, None, OnOk};
ghost use Rattle.jr_store.specs.Image.{Image, ChangesOnly, Puts, Tells, Follows, OnlyTold, Elapses, LeavesOnly, HasCause};
ghost use Rattle.jr_commit.specs.SidesAt.{After, ChangesOnlyOn, HasSides};
ghost use Rattle.jr_commit.specs.Steps.{path_of, side_of, sides_of};

use jr_base::Path;
use jr_store::{Failed, Store};

#[derive(Drop)]
pub enum Step {
    Write { path: Path, bytes: Vec<u8> },
    Remove { path: Path },
}

impl Step {
    ghost use Rattle.jr_commit.specs.Steps.{path_of};

    pub fn path(&self) -> &Path
        ensures { result.now ≡ path_of self.now }
    {
        match self {
            Step::Write { path, .. } => path,
            Step::Remove { path } => path,
        }
    }
}

/// Writes a file, and has it on the disk at `Ok`.
pub fn write_synced<S: Store>(store: &mut S, path: &Path, bytes: &[u8]) -> Result<(), Failed>
    ensures told { Tells (S.files store.old) (S.files store.new) (ChangesOnly path.now) }
    ensures written { OnOk result (Tells (S.files store.old) (S.files store.new) (Puts path.now (Some bytes.now))) }
    ensures durable { OnOk result (OnlyTold (S.files store.new) (S.may_leave store.new)) }
    ensures any_moment { LeavesOnly S.moment S.left_since store.old store.new (After (ChangesOnly path.now) (S.may_leave store.old)) }
    ensures cause { HasCause (S.faults store.old) (S.faults store.new) result }
{
    store.write(path, bytes)?;
    store.sync()
}

/// Removes a file, and has that on the disk at `Ok`.
pub fn remove_synced<S: Store>(store: &mut S, path: &Path) -> Result<(), Failed>
    ensures told { Tells (S.files store.old) (S.files store.new) (ChangesOnly path.now) }
    ensures removed { OnOk result (Tells (S.files store.old) (S.files store.new) (Puts path.now None)) }
    ensures durable { OnOk result (OnlyTold (S.files store.new) (S.may_leave store.new)) }
    ensures any_moment { LeavesOnly S.moment S.left_since store.old store.new (After (ChangesOnly path.now) (S.may_leave store.old)) }
    ensures cause { HasCause (S.faults store.old) (S.faults store.new) result }
{
    store.remove(path)?;
    store.sync()
}

/// Writes or removes one file.
fn take_step<S: Store>(store: &mut S, step: &Step) -> Result<(), Failed>
    ensures told { Tells (S.files store.old) (S.files store.new) (ChangesOnly (path_of step.now)) }
    ensures taken { OnOk result (Tells (S.files store.old) (S.files store.new) (Puts (path_of step.now) (side_of step.now))) }
    ensures crash { Follows (ChangesOnly (path_of step.now)) (S.may_leave store.old) (S.may_leave store.new) }
    ensures time { Elapses (S.moment store.old) (S.moment store.new) (S.left_since store.old) (S.left_since store.new) (S.may_leave store.new) }
    ensures cause { HasCause (S.faults store.old) (S.faults store.new) result }
{
    match step {
        Step::Write { path, bytes } => store.write(path, bytes),
        Step::Remove { path } => store.remove(path),
    }
}

/// Takes the steps in order.
fn take_steps<S: Store>(store: &mut S, steps: &[Step]) -> Result<(), Failed>
    ensures told { Tells (S.files store.old) (S.files store.new) (ChangesOnlyOn (sides_of steps.now)) }
    ensures taken { OnOk result (Tells (S.files store.old) (S.files store.new) (HasSides (sides_of steps.now))) }
    ensures crash { Follows (ChangesOnlyOn (sides_of steps.now)) (S.may_leave store.old) (S.may_leave store.new) }
    ensures any_moment { LeavesOnly S.moment S.left_since store.old store.new (After (ChangesOnlyOn (sides_of steps.now)) (S.may_leave store.old)) }
    ensures cause { HasCause (S.faults store.old) (S.faults store.new) result }
{
    for step in steps {
        take_step(store, step)?;
    }
    Ok(())
}

/// Takes the steps in order, and has them on the disk at `Ok`.
pub fn take_steps_synced<S: Store>(store: &mut S, steps: &[Step]) -> Result<(), Failed>
    ensures told { Tells (S.files store.old) (S.files store.new) (ChangesOnlyOn (sides_of steps.now)) }
    ensures taken { OnOk result (Tells (S.files store.old) (S.files store.new) (HasSides (sides_of steps.now))) }
    ensures durable { OnOk result (OnlyTold (S.files store.new) (S.may_leave store.new)) }
    ensures any_moment { LeavesOnly S.moment S.left_since store.old store.new (After (ChangesOnlyOn (sides_of steps.now)) (S.may_leave store.old)) }
    ensures cause { HasCause (S.faults store.old) (S.faults store.new) result }
{
    take_steps(store, steps)?;
    store.sync()
}
