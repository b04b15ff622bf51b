// The order of the units of a changed program.
ghost use Rattle.std.specs.Prelude.{◌≡◌, ◌<◌, IfOk, OnOk, length, slice_get};
ghost use Rattle.jr_marks.specs.Places.{IsOrdered};
ghost use Rattle.jr_draft.specs.Drafting as drafting;
ghost use Rattle.jr_draft.specs.Ordering as ordering;

use crate::asking::{PRELUDE, count_units};
use jr_base::{OutOfMemory, Path};
use jr_marks::Marks;
use std::alloc::Global;
use std::cmp::Ordering;

/// A copy of the path of an old unit.
pub fn path_of(alloc: Global, marks: &Marks, unit: u32) -> Result<Path, OutOfMemory>
    ensures copy { IfOk result (λ path. path ≡ drafting.path_of marks.now unit) }
    ensures there { OnOk result (unit < length marks.now.units.now) }
{
    match marks.units.get(unit as usize) {
        Some(placed) => placed.path.copy(alloc),
        None => Err(OutOfMemory),
    }
}

// A unit stands before another one of these numbers, by the order of their paths.
fn is_before_by(order: Ordering, number: u32, unit: u32) -> bool
    ensures { result ≡ ordering.is_before_by order number unit }
{
    match order {
        Ordering::Less => true,
        Ordering::Equal => number < unit,
        Ordering::Greater => false,
    }
}

/// A unit of this path and number stands before an old unit that keeps its path.
pub fn is_before(marks: &Marks, path: &[u8], number: u32, unit: u32) -> bool
    ensures { result ≡ ordering.is_before marks.now path.now number unit }
{
    match marks.units.get(unit as usize) {
        Some(placed) => is_before_by(path.cmp(placed.path.bytes()), number, unit),
        None => false,
    }
}

// Adds the unit that moves, if it stands before this one and is not among them yet. It tells whether it is.
fn place_before(
    all: &mut Vec<u32>,
    marks: &Marks,
    moved: u32,
    path: &[u8],
    unit: u32,
    is_placed: bool,
) -> Result<bool, OutOfMemory>
    ensures { IfOk result (λ placed. record { units = all.new.items; is_placed = placed }
        ≡ ordering.placed_before marks.now moved path.now unit (record { units = all.old.items; is_placed = is_placed })) }
{
    if !is_placed && is_before(marks, path, moved, unit) {
        all.push(moved)?;
        Ok(true)
    } else {
        Ok(is_placed)
    }
}

// Adds a unit, and before it the one that moves if that stands there.
fn place(
    all: &mut Vec<u32>,
    marks: &Marks,
    moved: u32,
    path: &[u8],
    unit: u32,
    is_placed: bool,
) -> Result<bool, OutOfMemory>
    ensures { IfOk result (λ placed. record { units = all.new.items; is_placed = placed }
        ≡ ordering.with_placed marks.now moved path.now unit (record { units = all.old.items; is_placed = is_placed })) }
{
    let placed = place_before(all, marks, moved, path, unit, is_placed)?;
    if unit != moved {
        all.push(unit)?;
    }
    Ok(placed)
}

// Adds the unit that moves, if it is not among them yet.
fn place_last(all: &mut Vec<u32>, moved: u32, is_placed: bool) -> Result<(), OutOfMemory>
    ensures { OnOk result (all.new.items ≡ ordering.placed_last moved (record { units = all.old.items; is_placed = is_placed })) }
{
    if !is_placed {
        all.push(moved)?;
    }
    Ok(())
}

/// The units behind the prelude in the order of their paths, where one has a new path. Its number is that of the old unit, or that behind the last old
/// one where it is new. Of two units of one path the one of the lower number comes first.
pub fn order_with(
    alloc: Global,
    marks: &Marks,
    moved: u32,
    path: &[u8],
) -> Result<Vec<u32>, OutOfMemory>
    ensures { IfOk result (λ order. IsOrdered marks.now → order.items ≡ ordering.order_with marks.now moved path.now) }
{
    let mut all = Vec::new(alloc);
    let mut is_placed = false;
    for unit in PRELUDE..count_units(marks) {
        is_placed = place(&mut all, marks, moved, path, unit, is_placed)?;
    }
    place_last(&mut all, moved, is_placed)?;
    Ok(all)
}
