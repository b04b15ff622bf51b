// The loop or switch round each row.
ghost use Rattle.std.specs.Prelude.{◌≡◌, ◌<◌, ◌^◌, IfOk, length};
ghost use Rattle.jr_tree.specs.Rows.{label};
ghost use Rattle.jr_flow_defs.specs.Acts as acts;
ghost use Rattle.jr_meaning.specs.Whole as tell;

use crate::reading::row_in;
use jr_base::OutOfMemory;
use jr_change::NO_ROW;
use jr_places::parent_at;
use jr_tree::{Label, Row};
use std::alloc::Global;

fn is_loop(label: &Label) -> bool
    ensures { result ≡ acts.is_loop label.now }
{
    match label {
        Label::While => true,
        Label::Do => true,
        Label::For { .. } => true,
        _ => false,
    }
}

fn is_loop_or_switch(label: &Label) -> bool
    ensures { result ≡ acts.is_loop_or_switch label.now }
{
    match label {
        Label::Switch => true,
        Label::While => true,
        Label::Do => true,
        Label::For { .. } => true,
        _ => false,
    }
}

// A loop, or also a switch.
fn is_target(label: &Label, with_switch: bool) -> bool
    ensures { result ≡ tell.is_target with_switch label.now }
{
    if with_switch {
        is_loop_or_switch(label)
    } else {
        is_loop(label)
    }
}

/// The row is a loop, or also a switch.
pub(crate) fn is_target_at(rows: &[Row], at: u32, with_switch: bool) -> bool
    ensures { result ≡ tell.is_target with_switch (label rows.now at) }
{
    match rows.get(at as usize) {
        Some(row) => is_target(&row.label, with_switch),
        None => false,
    }
}

// The innermost loop round a row, or also switch, by those round the rows before it; or no row.
fn near_of(rows: &[Row], near: &[u32], with_switch: bool, at: u32) -> u32
    ensures { result ≡ tell.near_by rows.now with_switch near.now at }
{
    let over = parent_at(rows, at);
    if at <= over {
        return NO_ROW;
    }
    if is_target_at(rows, over, with_switch) {
        return over;
    }
    row_in(near, over)
}

/// The innermost loop round each row, or also switch (JLS 14.15, 14.16); or no row.
#[tactic(auto, using(crate::proofs::Nears::near_more))]
pub(crate) fn nears_of(
    alloc: Global,
    rows: &[Row],
    with_switch: bool,
) -> Result<Vec<u32>, OutOfMemory>
    requires { length rows.now < 2 ^ 32 }
    ensures { IfOk result (λ all. all.items ≡ tell.nears rows.now with_switch (length rows.now)) }
{
    let mut all = Vec::new(alloc);
    for at in 0..rows.len() {
        let near = near_of(rows, &all, with_switch, at as u32);
        all.push(near)?;
    }
    Ok(all)
}
