// Whether a program is the changed one with its names spelled anew.

ghost use Rattle.std.specs.Prelude.{◌≡◌, ℕ, List, IfOk, IfErr, IsNone};
ghost use Rattle.jr_engine.specs.Barring.{Bars};
ghost use Rattle.jr_engine.specs.Written.{IsSpelledIn};
ghost use Rattle.jr_engine.specs.declared.fault.StepFault.TheVariants as StepFault;

use crate::asked::Asked;
use crate::fault::StepFault;
use crate::locked::Locked;
use jr_base::OutOfMemory;
use jr_change::Spelling;
use jr_front::Workspace;
use jr_runs::first_difference;
use std::alloc::Global;

/// A changed program under its locks, and how its references are to be written.
#[derive(Clone, Copy)]
pub struct Spelled<'a> {
    pub asked: Asked<'a>,
    pub locked: &'a Locked,
    pub spellings: &'a [Spelling],
}

// The row of the changed program whose run does not stand in the new one.
fn difference(alloc: Global, spelled: Spelled, new: &Workspace) -> Result<Option<u32>, OutOfMemory>
    ensures none { IfOk result (λ row. IsNone row → IsSpelledIn spelled.entry new.now) }
    ensures some { IfOk result (λ row. IsSpelledIn spelled.entry new.now → IsNone row) }
{
    let locked = spelled.locked;
    first_difference(
        alloc,
        locked.program.index.rows(),
        &locked.locks.table,
        spelled.spellings,
        new.index.rows(),
        &new.bound.table,
    )
}

/// The program is the changed one with its references written so, and each refers to its lock.
pub fn is_as_spelled(alloc: Global, spelled: Spelled, new: &Workspace) -> Result<(), StepFault>
    ensures ok { IfOk result (λ _. IsSpelledIn spelled.entry new.now) }
    ensures err { IsSpelledIn spelled.entry new.now → IfErr result (λ fault. fault ≡ StepFault.OutOfMemory) }
    ensures bars { (texts : List (List ℕ × List ℕ)) → IfErr result (Bars texts) }
{
    match difference(alloc, spelled, new) {
        Ok(None) => Ok(()),
        Ok(Some(row)) => Err(StepFault::Differs {
            place: spelled.asked.place_of(&spelled.locked.locks.origin, row),
        }),
        Err(_) => Err(StepFault::OutOfMemory),
    }
}
