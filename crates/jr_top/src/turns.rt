// Two commands, one after the other.
ghost use Rattle.std.specs.Prelude.{◌≡◌, ◌⊎◌, ℕ, suc, List, Option, Some, length};
ghost use Rattle.jr_base.specs.declared.request.Request.{Request};
ghost use Rattle.jr_commit.specs.Entries.{PlainEntry};
ghost use Rattle.jr_commit.specs.Restoring.{MayBegin, Restored};
ghost use Rattle.jr_store.specs.Image.{Image};
ghost use Rattle.jr_top.specs.Changing.{IsCommitted};
ghost use Rattle.jr_top.specs.Crash.{IsNoFault};
ghost use Rattle.jr_top.specs.Engine.{IsReplaced};
ghost use Rattle.jr_top.specs.Undoing.{AsksUndo, IsTakenBack, IsUndoAnswer, IsKept, GivesBack};
ghost use Rattle.jr_top.specs.declared.status.Report.TheVariants.{Changed};
ghost use Rattle.jr_top.specs.declared.status.Status.{Status};
ghost use Rattle.jr_top.specs.declared.status.Status.TheVariants.{Done, OutOfMemory};

use crate::status::Status;
use crate::top::refactor;
use jr_base::Text;
use jr_store::{Sink, Source, Store};
use std::alloc::Global;

/// Does what the first words ask for, and then what the second ask for. Where a call may begin before them and neither
/// answer is a fault, one may begin after them. Where the first have changed files, and the second ask for an undo, this
/// is done, with as many files, and gives the files of before both, but for want of memory and a fault.
pub fn in_turn<S: Store, I: Source, O: Sink>(
    alloc: Global,
    first: &[Text],
    second: &[Text],
    store: &mut S,
    input: &mut I,
    out: &mut O,
) -> (Status, Status)
    ensures next { IsNoFault result.0 → IsNoFault result.1 → MayBegin (S.files store.old) (S.may_leave store.old) → MayBegin (S.files store.new) (S.may_leave store.new) }
    ensures undone { (n : ℕ) (files found : Image) → S.files store.old ≡ Some files → Restored files found → AsksUndo second.now → result.0 ≡ Done (Changed (suc n)) → IsNoFault result.1
        → GivesBack (suc n) found (S.files store.new) result.1 ⊎ (result.1 ≡ OutOfMemory) }
{
    let before = refactor(alloc, first, store, input, out);
    let after = refactor(alloc, second, store, input, out);
    (before, after)
}

/// As long as neither the files nor the journal have changed since, an undo takes back what a change has left: it is answered done, with as many files,
/// and gives the files of before the change. So it is of a small rename, of what the engine makes, and of an undo itself.
pub fn an_undo_gives_back_what_was()
    ensures renamed { (file : List ℕ) (at : ℕ) (name : List ℕ) (old new later : Image) (left : Option Image) (said : Status) → IsCommitted file at name old new → IsKept new later → IsUndoAnswer later left said → GivesBack 1 old left said }
    ensures replaced { (requests : List Request) (count : ℕ) (old new later : Image) (left : Option Image) (said : Status) → IsReplaced requests count old new → IsKept new later → IsUndoAnswer later left said → GivesBack count old left said }
    ensures undone { (es : List PlainEntry) (old new later : Image) (left : Option Image) (said : Status) → IsTakenBack es old new → IsKept new later → IsUndoAnswer later left said → GivesBack (length es) old left said }
{}
