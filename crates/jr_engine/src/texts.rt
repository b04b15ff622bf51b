// The texts of a changed program.
ghost use Rattle.std.specs.Prelude.{◌≡◌, ◌+◌, Some, IfOk, IfSome, length, slice_get};
ghost use Rattle.jr_base.specs.Files.{plain};
ghost use Rattle.jr_edits.specs.Place as place;
ghost use Rattle.jr_text.specs.Spans.{bytes_by};
ghost use Rattle.jr_engine.specs.Texts as spec;

use jr_base::{OutOfMemory, Path};
use jr_change::{Change, ChangedUnit, UnitSource};
use jr_defs::UnitAt;
use jr_edits::{Edits, apply};
use std::alloc::Global;

/// The most bytes of all texts of a changed program: four times what files may have. More is answered for want of memory.
const MOST: usize = 67_108_864;

/// Files that may share a path.
pub type Texts = Vec<(Path, Vec<u8>)>;

// The text with its edits. Edits of a text of another length are answered for want of memory.
fn edited(alloc: Global, bytes: &[u8], edits: &Edits) -> Result<Vec<u8>, OutOfMemory>
    ensures { IfOk result (λ text. text.items ≡ place.edited bytes.now 0 edits.now.edits) }
{
    if bytes.len() != edits.text_len() as usize {
        return Err(OutOfMemory);
    }
    apply(alloc, bytes, edits)
}

fn bytes_of(units: &[UnitAt], unit: u32) -> &[u8]
    ensures { result.now ≡ bytes_by (slice_get units.now unit) }
{
    match units.get(unit as usize) {
        Some(unit) => unit.bytes.bytes(),
        None => &[],
    }
}

fn text_from(alloc: Global, units: &[UnitAt], source: &UnitSource) -> Result<Vec<u8>, OutOfMemory>
    ensures { IfOk result (λ text. text.items ≡ spec.changed_text units.now source.now) }
{
    match source {
        UnitSource::Kept(unit) => Ok(bytes_of(units, *unit).to_vec(alloc)?),
        UnitSource::Edited { unit, edits } => edited(alloc, bytes_of(units, *unit), edits),
        UnitSource::New(text) => Ok(text.bytes().to_vec(alloc)?),
    }
}

// What is left of so many bytes behind a text.
fn left_after(left: usize, text: &[u8]) -> Result<usize, OutOfMemory>
    ensures { IfOk result (λ rest. rest + length text.now ≡ left) }
{
    match left.checked_sub(text.len()) {
        Some(rest) => Ok(rest),
        None => Err(OutOfMemory),
    }
}

/// The texts of a changed program in its order, without the prelude.
#[tactic(auto, using(crate::proofs::Small::one_more))]
pub fn changed_texts(alloc: Global, units: &[UnitAt], change: &Change) -> Result<Texts, OutOfMemory>
    ensures files { IfOk result (λ texts. plain texts.items ≡ spec.changed_files units.now change.now.units.items) }
    ensures small { IfOk result (λ texts. spec.AreSmall (plain texts.items)) }
{
    let mut texts = Vec::new(alloc);
    let mut left = MOST;
    for changed in &change.units {
        let text = text_from(alloc, units, &changed.source)?;
        left = left_after(left, &text)?;
        texts.push((changed.path.copy(alloc)?, text))?;
    }
    Ok(texts)
}

// The texts of units with their edits, of which each has some or none.
#[tactic(auto, using(crate::proofs::Small::one_more))]
fn edited_texts(alloc: Global, units: &[UnitAt], edits: &[Edits]) -> Result<Texts, OutOfMemory>
    ensures files { IfOk result (λ texts. plain texts.items ≡ spec.edited_files units.now edits.now) }
    ensures small { IfOk result (λ texts. spec.AreSmall (plain texts.items)) }
{
    let mut texts = Vec::new(alloc);
    let mut left = MOST;
    let mut rest = edits;
    for unit in units {
        let Some((own, after)) = rest.split_first() else {
            return Err(OutOfMemory);
        };
        let text = edited(alloc, unit.bytes.bytes(), own)?;
        left = left_after(left, &text)?;
        texts.push((unit.path.copy(alloc)?, text))?;
        rest = after;
    }
    Ok(texts)
}

/// The texts of a program with the edits of its units, without the prelude.
pub fn written_texts(alloc: Global, units: &[UnitAt], edits: &[Edits]) -> Result<Texts, OutOfMemory>
    ensures files { IfOk result (λ texts. plain texts.items ≡ spec.written_files units.now edits.now) }
    ensures small { IfOk result (λ texts. spec.AreSmall (plain texts.items)) }
{
    let [_, _, found @ ..] = units else {
        return Err(OutOfMemory);
    };
    let [_, _, own @ ..] = edits else {
        return Err(OutOfMemory);
    };
    edited_texts(alloc, found, own)
}

/// The number in its program of the first unit whose path the next one has too.
pub fn first_twice(texts: &[(Path, Vec<u8>)]) -> Option<u32>
    ensures { IfSome result (λ unit. spec.first_twice (plain texts.now) ≡ Some unit) }
{
    let Some((first, others)) = texts.split_first() else {
        return None;
    };
    let mut last = first.0.bytes();
    let mut rest = others;
    let mut number: u32 = 2;
    while let Some((next, after)) = rest.split_first() {
        if last == next.0.bytes() {
            return Some(number);
        }
        let Some(behind) = number.checked_add(1) else {
            return None;
        };
        number = behind;
        last = next.0.bytes();
        rest = after;
    }
    None
}
