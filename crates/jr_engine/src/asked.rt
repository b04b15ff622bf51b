// What is asked of a program, and places in its files.

ghost use Rattle.std.specs.Prelude.{◌≡◌, ℕ, List, length};
ghost use Rattle.jr_index.specs.NodeRows.{unit_rows};
ghost use Rattle.jr_front.specs.Bound.{rows_in};
ghost use Rattle.jr_front.specs.Viewed.{IsViewOf};
ghost use Rattle.jr_marks.specs.Places.{IsOrdered};
ghost use Rattle.jr_engine.specs.Barring.{Bars, IsDifference};
ghost use Rattle.jr_engine.specs.Refusing.{IsHinderedIn, IsShownAt};
ghost use Rattle.jr_engine.specs.Steps.{IsProjectIn};
ghost use Rattle.jr_engine.specs.Written.{AreNotLeft};

use crate::fault::StepFault;
use jr_base::{CuId, Place, Request, Text};
use jr_change::{Change, Project};
use jr_defs::UnitAt;
use jr_front::Workspace;
use jr_locks::row_for;

/// How many units the prelude has. They come first.
pub const PRELUDE: usize = 2;

/// A program that compiles, with its tables and texts, what is asked of it, and the change that this is.
#[derive(Clone, Copy)]
pub struct Asked<'a> {
    pub old: &'a Workspace,
    pub project: &'a Project<'a>,
    pub request: &'a Request,
    pub change: &'a Change,
}

/// The program with its tables and texts.
pub fn project_of(workspace: &Workspace) -> Project<'_>
    ensures rows { result.marks.rows.now ≡ rows_in workspace.now }
    ensures starts { result.marks.starts.now ≡ unit_rows (rows_in workspace.now) (length (rows_in workspace.now)) }
    ensures view { IsViewOf (rows_in workspace.now) workspace.now.places.value workspace.now.scopes.value workspace.now.bound.value result.view }
    ensures all { IsProjectIn workspace.now result }
{
    Project {
        marks: workspace.marks(),
        view: workspace.view(),
    }
}

// The file that a request names, if it names one.
fn file_of(request: &Request) -> Option<&Text> {
    match request {
        Request::Rename { file, .. } => Some(file),
        Request::Move { file, .. } => Some(file),
        Request::Extract { file, .. } => Some(file),
        Request::Inline { file, .. } => Some(file),
        Request::PullUp { file, .. } => Some(file),
        Request::Delete { file, .. } => Some(file),
        Request::Lift { file, .. } => Some(file),
        Request::Repackage { .. } => None,
    }
}

// The offset of a request in its file.
fn offset_of(request: &Request) -> u32 {
    match request {
        Request::Rename { at, .. } => *at,
        Request::Move { at, .. } => *at,
        Request::Extract { start, .. } => *start,
        Request::Inline { at, .. } => *at,
        Request::PullUp { at, .. } => *at,
        Request::Delete { at, .. } => *at,
        Request::Lift { at, .. } => *at,
        Request::Repackage { .. } => 0,
    }
}

// The number of the unit at a path.
fn unit_at(units: &[UnitAt], path: &[u8]) -> Option<u32> {
    for at in PRELUDE..units.len() {
        if let Some(unit) = units.get(at) {
            if unit.path.bytes() == path {
                return u32::try_from(at).ok();
            }
        }
    }
    None
}

// The unit of the file that a request names.
fn unit_of(units: &[UnitAt], request: &Request) -> Option<u32> {
    match file_of(request) {
        Some(file) => unit_at(units, file.bytes()),
        None => None,
    }
}

impl<'a> Asked<'a> {
    /// The place in the old files of what is asked for; that of the program where no such file is there.
    pub fn place(self) -> Place {
        match unit_of(self.old.program.units.as_slice(), self.request) {
            Some(unit) => Place {
                cu: CuId(unit),
                at: offset_of(self.request),
            },
            None => Place { cu: CuId(0), at: 0 },
        }
    }

    /// The place in the old files of the name of a row of the changed program; that of what is asked for where the row comes from no old one.
    pub fn place_of(self, origin: &[u32], row: u32) -> Place
        ensures { IsOrdered self.entry.project.now.marks → IsShownAt self.entry.project.now.marks origin.now row result }
    {
        match row_for(origin, row) {
            Some(from) => self.project.marks.name_place(from),
            None => self.place(),
        }
    }

    /// What was read is not what was to be written.
    pub fn differs(self) -> StepFault
        ensures difference { IsDifference result }
        ensures bars { (texts : List (List ℕ × List ℕ)) → Bars texts result }
        ensures left { (texts : List (List ℕ × List ℕ)) → AreNotLeft self.entry texts result }
        ensures hindered { IsHinderedIn self.entry result }
    {
        StepFault::Differs {
            place: self.place(),
        }
    }
}
