// The edits of the texts of units by spellings.
ghost use Rattle.std.specs.Prelude.{◌≡◌, ◌++◌, IfOk, OnOk, Some, map, reverse, slice_set};
ghost use Rattle.jr_defs.specs.Referents.{entries};
ghost use Rattle.jr_edits.specs.Place.{pushed};
ghost use Rattle.jr_marks.specs.Places.{IsOrdered};
ghost use Rattle.jr_weave.specs.Pieces as spec;
ghost use Rattle.jr_weave.specs.Weaving as weaving;

use crate::pen::text_of;
use crate::piece::{Piece, Wording};
use crate::site::Site;
use jr_base::{OutOfMemory, Span, Text};
use jr_defs::{Referent, UnitAt};
use jr_edits::Edits;
use jr_marks::Marks;
use jr_shapes::Spelling;
use jr_tree::Row;
use std::alloc::Global;

/// How many bytes all that is written may have.
pub const MOST_BYTES: usize = 67108864;

#[tactic(auto, using(std::proofs::lemmas::List::set_past))]
fn choose(all: &mut [Option<usize>], row: u32, number: usize)
    ensures { all.new ≡ slice_set all.old row (Some number) }
{
    if (row as usize) < all.len() {
        all[row as usize] = Some(number);
    }
}

// The number of the spelling of each row, the last one that it has.
fn chosen_of(
    alloc: Global,
    rows: &[Row],
    spellings: &[Spelling],
) -> Result<Vec<Option<usize>>, OutOfMemory>
    ensures { IfOk result (λ all. all.items ≡ spec.choices rows.now spellings.now) }
{
    let mut all = vec![in alloc; None; rows.len()]?;
    for (number, spelling) in spellings.iter().enumerate() {
        choose(&mut all, spelling.row, number);
    }
    Ok(all)
}

fn push_spelling(
    alloc: Global,
    marks: &Marks,
    table: &[Referent],
    spelling: &Spelling,
    all: &mut Vec<Piece>,
) -> Result<(), OutOfMemory>
    ensures { OnOk result (IsOrdered marks.now → all.new.items ≡ all.old.items ++ spec.spelled marks.now (entries table.now) spelling.now) }
{
    let site = Site {
        alloc,
        marks: &*marks,
        table: &*table,
        unit: marks.unit_of(spelling.row),
    };
    site.push_spelled(all, spelling)
}

fn push_chosen(
    alloc: Global,
    marks: &Marks,
    table: &[Referent],
    spellings: &[Spelling],
    chosen: Option<usize>,
    all: &mut Vec<Piece>,
) -> Result<(), OutOfMemory>
    ensures { OnOk result (IsOrdered marks.now → all.new.items ≡ all.old.items ++ spec.spelled_by marks.now (entries table.now) (spec.spelling_in spellings.now chosen)) }
{
    let Some(number) = chosen else {
        return Ok(());
    };
    match spellings.get(number) {
        Some(spelling) => push_spelling(alloc, marks, table, spelling, all),
        None => Err(OutOfMemory),
    }
}

fn push_pieces(
    alloc: Global,
    marks: &Marks,
    table: &[Referent],
    spellings: &[Spelling],
    chosen: &[Option<usize>],
    all: &mut Vec<Piece>,
) -> Result<(), OutOfMemory>
    ensures { OnOk result (IsOrdered marks.now → all.new.items ≡ all.old.items ++ spec.pieces_from marks.now (entries table.now) spellings.now chosen.now) }
{
    for number in chosen {
        push_chosen(alloc, marks, table, spellings, *number, all)?;
    }
    Ok(())
}

// What the spellings change, row by row.
fn pieces_of(
    alloc: Global,
    marks: &Marks,
    table: &[Referent],
    spellings: &[Spelling],
) -> Result<Vec<Piece>, OutOfMemory>
    ensures { IfOk result (λ all. IsOrdered marks.now → all.items ≡ spec.pieces marks.now (entries table.now) spellings.now) }
{
    let chosen = chosen_of(alloc, marks.rows, spellings)?;
    let mut all = Vec::new(alloc);
    push_pieces(alloc, marks, table, spellings, &chosen, &mut all)?;
    Ok(all)
}

// No edits of a unit.
fn none_of(alloc: Global, unit: &UnitAt) -> Result<Edits, OutOfMemory>
    ensures { IfOk result (λ edits. edits ≡ weaving.no_edits unit.now) }
{
    match u32::try_from(unit.bytes.bytes().len()) {
        Ok(length) => Ok(Edits::new(alloc, length)),
        Err(_) => Err(OutOfMemory),
    }
}

fn no_edits(alloc: Global, units: &[UnitAt]) -> Result<Vec<Edits>, OutOfMemory>
    ensures { IfOk result (λ all. all.items ≡ map weaving.no_edits units.now) }
{
    let mut all = Vec::new(alloc);
    for unit in units {
        all.push(none_of(alloc, unit)?)?;
    }
    Ok(all)
}

fn closes(wording: Wording) -> bool
    ensures { result ≡ weaving.closes wording }
{
    match wording {
        Wording::Close(_) => true,
        _ => false,
    }
}

// What is left of so many bytes behind a text.
fn left_after(left: usize, text: &Text) -> Result<usize, OutOfMemory> {
    match left.checked_sub(text.bytes().len()) {
        Some(rest) => Ok(rest),
        None => Err(OutOfMemory),
    }
}

// One more edit of a unit; two that share a byte are no spelling.
fn put_edit(all: &mut Vec<Edits>, unit: u32, span: Span, text: Text) -> Result<(), OutOfMemory>
    ensures { OnOk result (all.new.items ≡ slice_set all.old.items unit (pushed (weaving.edits_at all.old.items unit) span text)) }
{
    let Some(edits) = all.get_mut(unit as usize) else {
        return Err(OutOfMemory);
    };
    match edits.push(span, text) {
        Ok(()) => Ok(()),
        Err(_) => Err(OutOfMemory),
    }
}

fn put_piece(
    alloc: Global,
    rows: &[Row],
    piece: Piece,
    left: &mut usize,
    all: &mut Vec<Edits>,
) -> Result<(), OutOfMemory>
    ensures { OnOk result (all.new.items ≡ weaving.with_piece rows.now piece all.old.items) }
{
    let text = text_of(alloc, rows, piece.wording)?;
    *left = left_after(*left, &text)?;
    put_edit(all, piece.unit, piece.span, text)
}

// What stands in place of something, and what opens, in the order of rows.
fn put_openings(
    alloc: Global,
    rows: &[Row],
    pieces: &[Piece],
    left: &mut usize,
    all: &mut Vec<Edits>,
) -> Result<(), OutOfMemory>
    ensures { OnOk result (all.new.items ≡ weaving.with_pieces rows.now (weaving.openings pieces.now) all.old.items) }
{
    for piece in pieces {
        if !closes(piece.wording) {
            put_piece(alloc, rows, *piece, left, all)?;
        }
    }
    Ok(())
}

// What closes.
fn put_closings(
    alloc: Global,
    rows: &[Row],
    pieces: &[Piece],
    left: &mut usize,
    all: &mut Vec<Edits>,
) -> Result<(), OutOfMemory>
    ensures { OnOk result (all.new.items ≡ weaving.with_pieces rows.now (weaving.closings pieces.now) all.old.items) }
{
    for piece in pieces {
        if closes(piece.wording) {
            put_piece(alloc, rows, *piece, left, all)?;
        }
    }
    Ok(())
}

fn reversed(pieces: Vec<Piece>) -> Vec<Piece>
    ensures { result.items ≡ reverse pieces.items }
{
    let mut all = pieces;
    all.reverse();
    all
}

// What closes comes against the order of rows.
#[tactic(auto, using(crate::proofs::Woven::put_both))]
fn put_all(
    alloc: Global,
    rows: &[Row],
    pieces: Vec<Piece>,
    all: &mut Vec<Edits>,
) -> Result<(), OutOfMemory>
    ensures { OnOk result (all.new.items ≡ weaving.with_pieces rows.now (weaving.ordered pieces.items) all.old.items) }
{
    let mut left = MOST_BYTES;
    put_openings(alloc, rows, &pieces, &mut left, all)?;
    let turned = reversed(pieces);
    put_closings(alloc, rows, &turned, &mut left, all)
}

#[tactic(auto, using(crate::proofs::Woven::respelled_so))]
/// The edits of the text of each unit by which its references are written as they are spelled under the table; there are none where the unit stays.
/// All that is written has 64 MiB at most. What is no spelling of its row is answered like want of memory.
pub fn respelled(
    alloc: Global,
    marks: &Marks,
    table: &[Referent],
    spellings: &[Spelling],
) -> Result<Vec<Edits>, OutOfMemory>
    ensures { IfOk result (λ all. IsOrdered marks.now → weaving.AreRespelled marks.now (entries table.now) spellings.now all.items) }
{
    let pieces = pieces_of(alloc, marks, table, spellings)?;
    let mut all = no_edits(alloc, marks.units)?;
    put_all(alloc, marks.rows, pieces, &mut all)?;
    Ok(all)
}
