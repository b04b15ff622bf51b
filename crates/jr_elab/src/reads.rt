// What is read of a row.
ghost use Rattle.std.specs.Prelude.{◌≡◌, ◌+◌, ◌<◌, ◌^◌, [], ◌∷◌, ◌++◌, Some, None, nat_lt, length, IfOk, OnOk, if◌then◌else◌};
ghost use Rattle.std.specs.Option.{option_copied};
ghost use Rattle.jr_tree.specs.Rows as rows;
ghost use Rattle.jr_plain.specs.Enclosing as enclosing;
ghost use Rattle.jr_codes.specs.Reads.{rows_of, facts};
ghost use Rattle.jr_elab.specs.Cores.{IsAdded, type_row};
ghost use Rattle.jr_elab.specs.Stacked.{IsLabelAt};

use jr_base::{Items, OutOfMemory, TypeId};
use jr_codes::Source;
use jr_tree::Label;

/// What the row is.
pub fn label_of<'a>(source: &Source<'a>, at: u32) -> Option<&'a Label>
    ensures { IsLabelAt (rows_of source.now) at (option_copied result) }
{
    match source.rows().get(at as usize) {
        Some(row) => Some(&row.label),
        None => None,
    }
}

/// The number behind the last row below a row.
pub fn end_of(source: &Source, at: u32) -> u32
    ensures ends { at + 1 < 2 ^ 32 → result ≡ rows.end (rows_of source.now) at }
    ensures fits { result < 2 ^ 32 }
{
    source.end(at)
}

/// The row, if it stands before another one.
pub fn row_before(row: u32, end: u32) -> Option<u32>
    ensures { result ≡ if nat_lt row end then Some row else None }
{
    if row < end { Some(row) } else { None }
}

/// How many rows there are.
pub fn row_count(source: &Source) -> Result<u32, OutOfMemory>
    ensures { IfOk result (λ count. count ≡ length (rows_of source.now)) }
{
    let Ok(count) = u32::try_from(source.rows().len()) else {
        return Err(OutOfMemory);
    };
    Ok(count)
}

// Adds a row.
fn add_row(all: &mut Vec<u32>, row: u32) -> Result<(), OutOfMemory>
    ensures { OnOk result (all.new.items ≡ all.old.items ++ row ∷ []) }
{
    all.push(row)?;
    Ok(())
}

// The rows right below a row, which stands before this many.
fn children_below(source: &Source, at: u32, count: u32) -> Result<Vec<u32>, OutOfMemory>
    ensures { IfOk result (λ all. count ≡ length (rows_of source.now) → at < count → all.items ≡ enclosing.children (rows_of source.now) at) }
{
    let mut all = Vec::new(source.alloc);
    let mut child = source.first(at);
    for _turn in 0..count {
        if source.parent(child) != at {
            return Ok(all);
        }
        add_row(&mut all, child)?;
        child = source.end(child);
    }
    Ok(all)
}

/// The rows right below a row.
#[tactic(auto, using(crate::proofs::Children::children_past))]
pub fn children(source: &Source, at: u32) -> Result<Vec<u32>, OutOfMemory>
    ensures { IfOk result (λ all. all.items ≡ enclosing.children (rows_of source.now) at) }
{
    let count = row_count(source)?;
    if at < count {
        children_below(source, at, count)
    } else {
        Ok(Vec::new(source.alloc))
    }
}

/// The type at a row, as the core knows it.
pub fn type_at(source: &Source, at: u32) -> TypeId
    ensures { result ≡ type_row (facts source.now) at }
{
    TypeId(source.decl(at))
}

/// Adds an item to a list, and fails where it was not made.
pub fn add_made<T: Drop>(
    all: &mut Items<T>,
    made: Result<T, OutOfMemory>,
) -> Result<(), OutOfMemory>
    ensures { OnOk result (IsAdded made all.old all.new) }
{
    all.push(made?)?;
    Ok(())
}
