// The answer where the last change is not taken back.
ghost use Rattle.std.specs.Prelude.{◌≡◌};
ghost use Rattle.jr_top.specs.Undoing.{no_undo};

use crate::status::{Phase, Status};
use jr_commit::UndoFault;

/// The answer to an undo for which there is no plan.
pub fn refusal(fault: UndoFault) -> Status
    ensures { result ≡ no_undo fault }
{
    match fault {
        UndoFault::Failed => Status::StoreFault {
            phase: Phase::Reading,
        },
        UndoFault::OutOfMemory => Status::OutOfMemory,
        UndoFault::NoJournal => Status::NoUndo {
            reason: 1,
            path: None,
        },
        UndoFault::OneSided => Status::NoUndo {
            reason: 2,
            path: None,
        },
        UndoFault::Edited(path) => Status::NoUndo {
            reason: 3,
            path: Some(path),
        },
    }
}
