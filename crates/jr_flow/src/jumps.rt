// Where jumps go to (JLS 14.15, 14.16).
ghost use Rattle.std.specs.Prelude.{◌≡◌, ◌+◌, ◌<◌, ◌^◌, if◌then◌else◌, length, Some, None};
ghost use Rattle.jr_tree.specs.Rows.{label};
ghost use Rattle.jr_flow_defs.specs.Meaning as meaning;
ghost use Rattle.jr_flow_defs.specs.Meaning.{Meaning};
ghost use Rattle.jr_flow_defs.specs.Acts as defs;
ghost use Rattle.jr_flow.specs.Seen.{completion_seen};
ghost use Rattle.jr_flow.specs.Views.{rows_in, IsViewOf};

use crate::acts::Completion;
use jr_places::parent_at;
use jr_tree::{Label, Row};
use jr_view::View;

fn is_loop(rows: &[Row], at: u32) -> bool
    ensures { result ≡ defs.is_loop (label rows.now at) }
{
    match rows.get(at as usize) {
        Some(row) => match row.label {
            Label::While => true,
            Label::Do => true,
            Label::For { .. } => true,
            _ => false,
        },
        None => false,
    }
}

fn is_loop_or_switch(rows: &[Row], at: u32) -> bool
    ensures { result ≡ defs.is_loop_or_switch (label rows.now at) }
{
    match rows.get(at as usize) {
        Some(row) => match row.label {
            Label::Switch => true,
            _ => is_loop(rows, at),
        },
        None => false,
    }
}

// The innermost loop that holds a row.
fn innermost_loop(rows: &[Row], at: u32) -> Option<u32>
    ensures { result ≡ defs.around rows.now defs.is_loop at at }
{
    let mut here = at;
    for _turn in 0..at {
        let over = parent_at(rows, here);
        if is_loop(rows, over) {
            return Some(over);
        }
        if over == here {
            return None;
        }
        here = over;
    }
    None
}

// The innermost loop or switch that holds a row.
fn innermost_loop_or_switch(rows: &[Row], at: u32) -> Option<u32>
    ensures { result ≡ defs.around rows.now defs.is_loop_or_switch at at }
{
    let mut here = at;
    for _turn in 0..at {
        let over = parent_at(rows, here);
        if is_loop_or_switch(rows, over) {
            return Some(over);
        }
        if over == here {
            return None;
        }
        here = over;
    }
    None
}

// The statement with the label, or the innermost loop or switch.
fn break_target(view: &View, at: u32, has_label: bool) -> Option<u32>
    ensures { (m : Meaning) → IsViewOf view.now m → result ≡ defs.break_target (rows_in view.now) m at has_label }
{
    let under = view.sight.world.under;
    if has_label {
        under.declared(at)
    } else {
        innermost_loop_or_switch(under.rows, at)
    }
}

// The loop right behind a label.
fn loop_behind(rows: &[Row], at: u32) -> Option<u32>
    ensures { length rows.now + 3 < 2 ^ 32 → result ≡ (if defs.is_loop (label rows.now (at + 1)) then Some (at + 1) else None) }
{
    let below = at.saturating_add(1);
    if is_loop(rows, below) {
        Some(below)
    } else {
        None
    }
}

// The loop below the label.
fn labeled_loop(rows: &[Row], declared: Option<u32>) -> Option<u32>
    ensures { length rows.now + 3 < 2 ^ 32 → result ≡ defs.labeled_loop rows.now declared }
{
    match declared {
        Some(at) => loop_behind(rows, at),
        None => None,
    }
}

// The loop with the label, or the innermost one.
fn continue_target(view: &View, at: u32, has_label: bool) -> Option<u32>
    ensures { (m : Meaning) → IsViewOf view.now m → result ≡ defs.continue_target (rows_in view.now) m at has_label }
{
    let under = view.sight.world.under;
    if has_label {
        labeled_loop(under.rows, under.declared(at))
    } else {
        innermost_loop(under.rows, at)
    }
}

/// How a `break` completes. One without target leaves the body.
pub(crate) fn breaks(view: &View, at: u32, has_label: bool) -> Completion
    ensures { (m : Meaning) → IsViewOf view.now m → completion_seen result ≡ defs.breaks (defs.break_target (rows_in view.now) m at has_label) }
{
    match break_target(view, at, has_label) {
        Some(target) => Completion::Break { target },
        None => Completion::Return,
    }
}

/// How a `continue` completes. One without target leaves the body.
pub(crate) fn continues(view: &View, at: u32, has_label: bool) -> Completion
    ensures { (m : Meaning) → IsViewOf view.now m → completion_seen result ≡ defs.continues (defs.continue_target (rows_in view.now) m at has_label) }
{
    match continue_target(view, at, has_label) {
        Some(target) => Completion::Continue { target },
        None => Completion::Return,
    }
}
