// Where jumps go to (JLS 14.15, 14.16).
ghost use Rattle.std.specs.Prelude.{◌≡◌, ◌<◌, ◌^◌, IfOk, Some, option_map, length};
ghost use Rattle.jr_tree.specs.Local.{IsLocal};
ghost use Rattle.jr_tree.specs.Rows.{label};
ghost use Rattle.jr_defs.specs.Referents.{entries};
ghost use Rattle.jr_places.specs.Tabulated.{tabulated};
ghost use Rattle.jr_reach.specs.declared.fact.Exit.TheVariants as exit;
ghost use Rattle.jr_rules.specs.StatementTests as tests;
ghost use Rattle.jr_flow_faults.specs.Computed as tell;

use jr_base::OutOfMemory;
use jr_places::parent_at;
use jr_reach::Exit;
use jr_supers::Tabled;
use jr_tree::{Label, Row};
use std::alloc::Global;

// The innermost loop round a row, and the innermost loop or switch.
#[derive(Clone, Copy)]
pub(crate) struct Targets {
    looping: Option<u32>,
    breaking: Option<u32>,
}

fn is_loop(rows: &[Row], at: u32) -> bool
    ensures { result ≡ tests.is_loop (label rows.now at) }
{
    match rows.get(at as usize) {
        Some(row) => match row.label {
            Label::While => true,
            Label::Do => true,
            Label::For { .. } => true,
            _ => false,
        },
        None => false,
    }
}

fn is_switch(rows: &[Row], at: u32) -> bool
    ensures { result ≡ tests.is_switch (label rows.now at) }
{
    match rows.get(at as usize) {
        Some(row) => match row.label {
            Label::Switch => true,
            _ => false,
        },
        None => false,
    }
}

// What is right below a row has, by what the row has.
fn targets_below(rows: &[Row], round: Targets, over: u32) -> Targets
    ensures { result ≡ tell.targets_below rows.now round over }
{
    if is_loop(rows, over) {
        return Targets {
            looping: Some(over),
            breaking: Some(over),
        };
    }
    if is_switch(rows, over) {
        return Targets {
            looping: round.looping,
            breaking: Some(over),
        };
    }
    round
}

// What a row has, by what the row round it has.
fn targets_at(rows: &[Row], known: &[Targets], at: u32) -> Targets
    ensures { result ≡ tell.targets_by rows.now known.now at }
{
    let over = parent_at(rows, at);
    targets_below(rows, targets_of(known, over), over)
}

/// What is known of a row.
pub(crate) fn targets_of(known: &[Targets], at: u32) -> Targets
    ensures { result ≡ tell.targets_in known.now at }
{
    match known.get(at as usize) {
        Some(targets) => *targets,
        None => Targets {
            looping: None,
            breaking: None,
        },
    }
}

/// For each row the innermost loop and the innermost loop or switch that hold it.
pub(crate) fn all_targets(
    alloc: Global,
    rows: &[Row],
    count: u32,
) -> Result<Vec<Targets>, OutOfMemory>
    ensures { IsLocal rows.now → count ≡ length rows.now → IfOk result (λ all. all.items ≡ tabulated (tell.targets rows.now) count) }
{
    let mut all = Vec::new(alloc);
    for at in 0..count {
        let targets = targets_at(rows, &all, at);
        all.push(targets)?;
    }
    Ok(all)
}

// The loop that a label stands at.
fn labeled_loop(rows: &[Row], labeled: u32) -> Option<u32>
    ensures { length rows.now < 2 ^ 32 → result ≡ tell.labeled_loop rows.now labeled }
{
    let body = labeled.checked_add(1)?;
    if parent_at(rows, body) == labeled && is_loop(rows, body) {
        Some(body)
    } else {
        None
    }
}

// The loop at the label that a row refers to.
fn referred_loop(under: &Tabled, at: u32) -> Option<u32>
    ensures { length under.now.rows.now < 2 ^ 32 → result ≡ tell.referred_loop under.now.rows.now (entries under.now.table.now) at }
{
    match under.declared(at) {
        Some(labeled) => labeled_loop(under.rows, labeled),
        None => None,
    }
}

fn break_to(row: Option<u32>) -> Option<Exit>
    ensures { result ≡ option_map exit.Break row }
{
    match row {
        Some(at) => Some(Exit::Break(at)),
        None => None,
    }
}

fn continue_to(row: Option<u32>) -> Option<Exit>
    ensures { result ≡ option_map exit.Continue row }
{
    match row {
        Some(at) => Some(Exit::Continue(at)),
        None => None,
    }
}

// Where a row of this label goes to.
fn exit_by(under: &Tabled, label: &Label, round: Targets, at: u32) -> Option<Exit>
    ensures { length under.now.rows.now < 2 ^ 32 → result ≡ tell.target_by label.now under.now.rows.now (entries under.now.table.now) round at }
{
    match label {
        Label::Break { has_label: true } => break_to(under.declared(at)),
        Label::Break { has_label: false } => break_to(round.breaking),
        Label::Continue { has_label: true } => continue_to(referred_loop(under, at)),
        Label::Continue { has_label: false } => continue_to(round.looping),
        _ => None,
    }
}

/// Where the jump at a row goes to, if it is one and has a target.
pub(crate) fn exit_at(under: &Tabled, round: Targets, at: u32) -> Option<Exit>
    ensures { length under.now.rows.now < 2 ^ 32 → result ≡ tell.target_by (label under.now.rows.now at) under.now.rows.now (entries under.now.table.now) round at }
{
    match under.rows.get(at as usize) {
        Some(row) => exit_by(under, &row.label, round, at),
        None => None,
    }
}
