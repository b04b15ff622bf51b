// The change for which a request asks.

ghost use Rattle.jr_marks.specs.Places.{IsOrdered};
ghost use Rattle.jr_engine.specs.Requested.{IsAskedBy};

use jr_base::Request;
use jr_change::{Change, ChangeFault, Project};
use jr_delete::delete;
use jr_extract::extract;
use jr_inline::inline;
use jr_names::{move_type, rename};
use jr_package::{lift, repackage};
use jr_pullup::pull_up;
use std::alloc::Global;

/// What a request changes of a program, or the first reason why it is none.
pub fn change_of(alloc: Global, old: &Project, request: &Request) -> Result<Change, ChangeFault>
    ensures { IsOrdered old.now.marks → IsAskedBy old.now request.now result }
{
    match request {
        Request::Rename { file, at, name } => rename(alloc, old, file.bytes(), *at, name.bytes()),
        Request::Move { file, at, package } => {
            move_type(alloc, old, file.bytes(), *at, package.bytes())
        }
        Request::Extract {
            file,
            start,
            end,
            name,
        } => extract(alloc, old, file.bytes(), *start, *end, name.bytes()),
        Request::Inline { file, at } => inline(alloc, old, file.bytes(), *at),
        Request::PullUp { file, at } => pull_up(alloc, old, file.bytes(), *at),
        Request::Delete { file, at } => delete(alloc, old, file.bytes(), *at),
        Request::Repackage { old: from, new: to } => {
            repackage(alloc, old, from.bytes(), to.bytes())
        }
        Request::Lift { file, at } => lift(alloc, old, file.bytes(), *at),
    }
}
