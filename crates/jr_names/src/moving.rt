// A move of a top-level type to another package.
ghost use Rattle.std.specs.Prelude.{◌≡◌, ◌<◌, ◌+◌, ◌^◌, IfErr, IfOk, IfSome, bytes_eq, codes, length};
ghost use Rattle.jr_marks.specs.Places.{IsOrdered};
ghost use Rattle.jr_change.specs.declared.change.Course.TheVariants as course;
ghost use Rattle.jr_change.specs.declared.reason.ChangeFault.TheVariants as ChangeFault;
ghost use Rattle.jr_draft.specs.Drafting as drafting;
ghost use Rattle.jr_names.specs.Moving as spec;

use crate::unit_move::UnitMove;
use jr_base::OutOfMemory;
use jr_change::{Change, ChangeFault, Project, Reason};
use jr_draft::{
    Draft, Head, Leaving, asked, head_of, is_package_name, name_of_package, path_of_type,
    unchanged, unit_row,
};
use jr_marks::Marks;
use jr_places::{end_at, is_top_level, name_at};
use jr_text::{extent, part, unit_bytes};
use jr_tree::Row;
use std::alloc::Global;

/// What moves the top-level type at an offset to the package that a word names, `-` for the unnamed one, or the first reason why that cannot be (JLS
/// 7.4, 7.6). Its unit goes with it where it is the only type there; else it gets a file of its own.
#[tactic(auto, using(crate::proofs::Moved::refused_so, crate::proofs::Moved::answered_so))]
pub fn move_type(
    alloc: Global,
    old: &Project,
    file: &[u8],
    at: u32,
    word: &[u8],
) -> Result<Change, ChangeFault>
    ensures { IsOrdered old.now.marks → spec.IsMoveAnswer old.now file.now at word.now result }
{
    match asked(old, file, at) {
        Ok(declared) => asked_for(alloc, &old.marks, declared, word),
        Err(why) => Err(why),
    }
}

// The word stands for the unnamed package (JLS 7.4.2).
fn is_dash(word: &[u8]) -> bool
    ensures { result ≡ bytes_eq word.now (codes "-") }
{
    word == b"-".as_slice()
}

// What comes of the declaration that is asked for.
#[tactic(auto, using(crate::proofs::Moved::unnamed_so, crate::proofs::Moved::bad_name_so, crate::proofs::Moved::named_so))]
fn asked_for(
    alloc: Global,
    marks: &Marks,
    declared: Option<u32>,
    word: &[u8],
) -> Result<Change, ChangeFault>
    ensures { IsOrdered marks.now → spec.IsAskedFor marks.now declared word.now result }
{
    if is_dash(word) {
        return in_package(alloc, marks, declared, &[]);
    }
    if !is_package_name(word) {
        return Err(ChangeFault::Bad(Reason::BadName));
    }
    in_package(alloc, marks, declared, word)
}

// What comes of it in a package.
#[tactic(auto, using(crate::proofs::Moved::other_kind_so, crate::proofs::Moved::moved_so))]
fn in_package(
    alloc: Global,
    marks: &Marks,
    declared: Option<u32>,
    named: &[u8],
) -> Result<Change, ChangeFault>
    ensures { IsOrdered marks.now → spec.IsInPackage marks.now declared named.now result }
{
    match top_level(marks.rows, declared) {
        Some(row) => moved(alloc, marks, row, named),
        None => Err(ChangeFault::Bad(Reason::WrongKind)),
    }
}

// The declaration, if it is a top-level type.
#[tactic(auto, using(crate::proofs::Moved::top_within))]
fn top_level(rows: &[Row], declared: Option<u32>) -> Option<u32>
    ensures is { result ≡ spec.top_level rows.now declared }
    ensures within { IfSome result (λ row. row < length rows.now) }
{
    let row = declared?;
    if is_top_level(rows, row) {
        Some(row)
    } else {
        None
    }
}

// A top-level type that goes to a package, with what stands before the types of its unit.
#[derive(Clone, Copy)]
struct TypeMove<'a> {
    row: u32,
    head: Head,
    named: &'a [u8],
}

// The change in which a top-level type is of a package.
fn moved(alloc: Global, marks: &Marks, row: u32, named: &[u8]) -> Result<Change, ChangeFault>
    ensures ok { IfOk result (λ change. IsOrdered marks.now → row + 1 < 2 ^ 32 → spec.IsMoved marks.now row named.now change) }
    ensures fault { IfErr result (λ fault. fault ≡ ChangeFault.OutOfMemory) }
{
    let head = head_over(marks, row);
    let is_there = is_of(alloc, marks.rows, head, named)?;
    if is_there {
        unchanged_all(alloc, marks)
    } else {
        moved_away(alloc, marks, &TypeMove { row, head, named })
    }
}

// What stands before the types of the unit of a row.
fn head_over(marks: &Marks, row: u32) -> Head
    ensures head { IsOrdered marks.now → result ≡ spec.head_over marks.now row }
    ensures declared { IsOrdered marks.now → IfSome result.declared (λ row. row + 1 < 2 ^ 32) }
    ensures fits { IsOrdered marks.now → result.unit + 1 < 2 ^ 32 }
{
    head_of(marks.rows, unit_row(marks, marks.unit_of(row)))
}

// A unit with this head is of the package.
fn is_of(alloc: Global, rows: &[Row], head: Head, named: &[u8]) -> Result<bool, OutOfMemory>
    ensures { IfOk result (λ is. IfSome head.declared (λ row. row + 1 < 2 ^ 32) → is ≡ spec.is_of rows.now head named.now) }
{
    let name = name_of_package(alloc, rows, head.declared)?;
    Ok(name.as_slice() == named)
}

// The change that keeps all.
fn unchanged_all(alloc: Global, marks: &Marks) -> Result<Change, ChangeFault>
    ensures ok { IfOk result (λ change. IsOrdered marks.now → drafting.IsFinished (drafting.unchanged marks.now) course.Same change) }
    ensures fault { IfErr result (λ fault. fault ≡ ChangeFault.OutOfMemory) }
{
    Ok(unchanged(alloc, marks)?)
}

// The change in which a top-level type is of another package than before.
fn moved_away(alloc: Global, marks: &Marks, of: &TypeMove) -> Result<Change, ChangeFault>
    ensures ok { IfOk result (λ change. IsOrdered marks.now → of.now.row + 1 < 2 ^ 32 → of.now.head.unit + 1 < 2 ^ 32 → of.now.head ≡ spec.head_over marks.now of.now.row
        → spec.IsMovedAway marks.now of.now.row of.now.named.now change) }
    ensures fault { IfErr result (λ fault. fault ≡ ChangeFault.OutOfMemory) }
{
    if has_others(marks.rows, of.row, of.head.unit) {
        moved_apart(alloc, marks, of)
    } else {
        moved_whole(alloc, marks, of)
    }
}

fn is_other_type(rows: &[Row], moved: u32, at: u32) -> bool
    ensures { result ≡ spec.is_other_type rows.now moved at }
{
    at != moved && is_top_level(rows, at)
}

// The unit at this row declares another top-level type.
fn has_others(rows: &[Row], moved: u32, unit: u32) -> bool
    ensures { unit + 1 < 2 ^ 32 → result ≡ spec.has_others rows.now moved unit }
{
    for at in unit..end_at(rows, unit) {
        if is_other_type(rows, moved, at) {
            return true;
        }
    }
    false
}

// The change in which the unit of a type goes with it.
fn moved_whole(alloc: Global, marks: &Marks, of: &TypeMove) -> Result<Change, ChangeFault>
    ensures ok { IfOk result (λ change. IsOrdered marks.now → of.now.head.unit + 1 < 2 ^ 32
        → drafting.IsFinished (spec.moved_whole marks.now of.now.head of.now.row of.now.named.now) course.Same change) }
    ensures fault { IfErr result (λ fault. fault ≡ ChangeFault.OutOfMemory) }
{
    let path = path_of_type(alloc, of.named, name_at(marks.rows, of.row))?;
    let mut draft = Draft::new(alloc, marks)?;
    let unit_move = UnitMove {
        marks,
        head: of.head,
        row: of.row,
        named: of.named,
        path: &path,
    };
    unit_move.add_all(alloc, &mut draft)?;
    Ok(draft.finish())
}

// The change in which a type leaves its unit, where there are others.
fn moved_apart(alloc: Global, marks: &Marks, of: &TypeMove) -> Result<Change, ChangeFault>
    ensures ok { IfOk result (λ change. IsOrdered marks.now → of.now.row + 1 < 2 ^ 32 → of.now.head ≡ spec.head_over marks.now of.now.row
        → spec.IsMovedApart marks.now of.now.row of.now.named.now change) }
    ensures fault { IfErr result (λ fault. fault ≡ ChangeFault.OutOfMemory) }
{
    let span = extent(marks, of.row);
    let declaration = part(unit_bytes(marks, of.row), span);
    let leaving = Leaving {
        head: of.head,
        row: of.row,
        is_turned: false,
        named: of.named,
        declaration,
        span,
    };
    leaving.to_own_file(alloc, marks)
}
