// Places as lines.
ghost use Rattle.std.specs.Prelude.{◌≡◌, ◌++◌, IfOk, OnOk, codes, decimal, flat_map, map, slice_get};
ghost use Rattle.jr_draft.specs.Drafting.{path_by};
ghost use Rattle.jr_marks.specs.Places.{IsOrdered, place_of_name};
ghost use Rattle.jr_report.specs.Reports as tell;

use jr_base::{OutOfMemory, Place};
use jr_defs::UnitAt;
use jr_draft::PRELUDE;
use jr_marks::Marks;
use std::alloc::Global;

// The places of the names of rows.
fn name_places(alloc: Global, marks: &Marks, rows: &[u32]) -> Result<Vec<Place>, OutOfMemory>
    ensures { IsOrdered marks.now → IfOk result (λ places. places.items ≡ map (place_of_name marks.now) rows.now) }
{
    let mut all = Vec::new(alloc);
    for row in rows {
        all.push(marks.name_place(*row))?;
    }
    Ok(all)
}

/// The places of the names of rows, in the order of the program.
pub fn places_of(alloc: Global, marks: &Marks, rows: &[u32]) -> Result<Vec<Place>, OutOfMemory>
    ensures { IsOrdered marks.now → IfOk result (λ places. tell.ArePlacesOf marks.now rows.now places.items) }
{
    let mut all = name_places(alloc, marks, rows)?;
    all.sort_unstable();
    Ok(all)
}

// Adds a number and the end of its line.
fn add_number(alloc: Global, out: &mut Vec<u8>, number: usize) -> Result<(), OutOfMemory>
    ensures { OnOk result (out.new.items ≡ out.old.items ++ decimal number ++ codes "\n") }
{
    let digits = format!(in alloc; "{number}\n")?;
    out.extend_from_slice(digits.as_bytes())?;
    Ok(())
}

// Adds the path of a unit.
fn add_path(out: &mut Vec<u8>, units: &[UnitAt], unit: u32) -> Result<(), OutOfMemory>
    ensures { OnOk result (out.new.items ≡ out.old.items ++ path_by (slice_get units.now unit)) }
{
    if let Some(unit) = units.get(unit as usize) {
        out.extend_from_slice(unit.path.bytes())?;
    }
    Ok(())
}

// Adds the line of a place of the workspace.
fn add_file_place(
    alloc: Global,
    out: &mut Vec<u8>,
    units: &[UnitAt],
    place: Place,
) -> Result<(), OutOfMemory>
    ensures { OnOk result (out.new.items ≡ out.old.items ++ path_by (slice_get units.now place.cu.0) ++ codes ":" ++ decimal place.at ++ codes "\n") }
{
    add_path(out, units, place.cu.0)?;
    out.push(b':')?;
    add_number(alloc, out, place.at as usize)
}

// Adds the line of a place.
fn add_place(
    alloc: Global,
    out: &mut Vec<u8>,
    units: &[UnitAt],
    place: Place,
) -> Result<(), OutOfMemory>
    ensures { OnOk result (out.new.items ≡ out.old.items ++ tell.place_line units.now place) }
{
    if place.cu.0 < PRELUDE {
        out.extend_from_slice(b"prelude\n")?;
        Ok(())
    } else {
        add_file_place(alloc, out, units, place)
    }
}

// Adds the lines of places.
fn add_places(
    alloc: Global,
    out: &mut Vec<u8>,
    units: &[UnitAt],
    places: &[Place],
) -> Result<(), OutOfMemory>
    ensures { OnOk result (out.new.items ≡ out.old.items ++ flat_map (tell.place_line units.now) places.now) }
{
    for place in places {
        add_place(alloc, out, units, *place)?;
    }
    Ok(())
}

/// A line for each place, and one with their number.
pub fn lines_of(alloc: Global, units: &[UnitAt], places: &[Place]) -> Result<Vec<u8>, OutOfMemory>
    ensures { IfOk result (λ text. text.items ≡ tell.report_text units.now places.now) }
{
    let mut out = Vec::new(alloc);
    add_places(alloc, &mut out, units, places)?;
    out.extend_from_slice(b"-- ")?;
    add_number(alloc, &mut out, places.len())?;
    Ok(out)
}
