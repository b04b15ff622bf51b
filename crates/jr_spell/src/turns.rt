// The rows that look for something, in their order.
ghost use Rattle.std.specs.Prelude.{◌≡◌, ◌<◌, ◌^◌, ℕ, true, false, length, slice_set, slice_index_or, IfOk, OnOk};
ghost use Rattle.std.specs.List.{Contains};
ghost use Rattle.jr_tree.specs.Rows.{sought_at as seeks};
ghost use Rattle.jr_tree.specs.declared.label.Sought.TheVariants as sought;
ghost use Rattle.jr_spell.specs.Shaping as shaping;

use jr_base::OutOfMemory;
use jr_marks::order_of_occurrences;
use jr_places::sought_at;
use jr_tree::{Row, Sought};
use std::alloc::Global;

#[tactic(auto, using(std::proofs::lemmas::List::set_past))]
fn mark(all: &mut Vec<bool>, at: u32)
    ensures { all.new.items ≡ slice_set all.old.items at true }
{
    if (at as usize) < all.len() {
        all[at as usize] = true;
    }
}

// Which of so many rows are in the list.
fn marks_of(alloc: Global, rows: &[u32], count: usize) -> Result<Vec<bool>, OutOfMemory>
    ensures { IfOk result (λ all. (n : ℕ) → slice_index_or all.items n false ≡ true → Contains rows.now n) }
{
    let mut all = vec![in alloc; false; count]?;
    for row in rows {
        mark(&mut all, *row);
    }
    Ok(all)
}

fn is_marked(marks: &[bool], at: u32) -> bool
    ensures { result ≡ slice_index_or marks.now at false }
{
    match marks.get(at as usize) {
        Some(is_marked) => *is_marked,
        None => false,
    }
}

// Adds a row that has no mark and looks for something.
fn add_left_out(
    order: &mut Vec<u32>,
    rows: &[Row],
    marks: &[bool],
    at: u32,
) -> Result<(), OutOfMemory>
    ensures keeps { OnOk result (shaping.KeepsAll order.old.items order.new.items) }
    ensures there { (slice_index_or marks.now at false ≡ true → Contains order.old.items at) → OnOk result ((seeks rows.now at ≡ sought.Nothing → ⊥) → Contains order.new.items at) }
{
    if is_marked(marks, at) {
        return Ok(());
    }
    match sought_at(rows, at) {
        Sought::Nothing => Ok(()),
        _ => {
            order.push(at)?;
            Ok(())
        }
    }
}

/// The rows in the order of occurrences, and behind them those that look for something and have no turn there.
pub fn order_of_rows(alloc: Global, rows: &[Row]) -> Result<Vec<u32>, OutOfMemory>
    ensures { IfOk result (λ all. (n : ℕ) → (seeks rows.now n ≡ sought.Nothing → ⊥) → Contains all.items n) }
{
    let Ok(count) = u32::try_from(rows.len()) else {
        return Err(OutOfMemory);
    };
    let mut order = order_of_occurrences(alloc, rows)?;
    let marks = marks_of(alloc, &order, rows.len())?;
    for at in 0..count {
        add_left_out(&mut order, rows, &marks, at)?;
    }
    Ok(order)
}
