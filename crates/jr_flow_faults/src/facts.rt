// What is known of rows besides their labels.
ghost use Rattle.std.specs.Prelude.{◌≡◌, ◌+◌, ◌<◌, ◌^◌, IfOk, None, Some, length, nat_lt, replicate, slice_set};
ghost use Rattle.jr_tree.specs.Local.{IsLocal};
ghost use Rattle.jr_tree.specs.Rows.{label};
ghost use Rattle.jr_constants.specs.Resting.{values_of};
ghost use Rattle.jr_flow_faults.specs.declared.facts.Part.TheVariants as part;
ghost use Rattle.jr_flow_faults.specs.Computed as tell;

use crate::jumps::{Targets, all_targets, exit_at, targets_of};
use jr_base::OutOfMemory;
use jr_constants::{Constants, Value};
use jr_places::parent_at;
use jr_reach::Fact;
use jr_tree::{Label, Row};
use jr_view::View;
use std::alloc::Global;

// The boolean that a value is, if it is one.
fn truth_of(value: Option<Value>) -> Option<bool>
    ensures { result ≡ tell.truth_of value }
{
    match value {
        Some(Value::Bool(truth)) => Some(truth),
        _ => None,
    }
}

// The value of a constant expression of type boolean (JLS 15.28).
#[tactic(auto, using(crate::proofs::Gathering::truth_told))]
fn truth_at(constants: &Constants, at: u32) -> Option<bool>
    ensures { result ≡ tell.truth_in (values_of constants.now at) }
{
    truth_of(constants.value(at))
}

// The parts of statements that are looked for.
#[derive(Clone, Copy)]
enum Part {
    /// The block of a `finally`: the last block of a `try` that has one, which is not its first.
    Finally,
    /// A label `default` of a switch.
    Default,
}

/// The row is a block.
pub(crate) fn is_block(rows: &[Row], at: u32) -> bool
    ensures { result ≡ tell.is_block (label rows.now at) }
{
    match rows.get(at as usize) {
        Some(row) => match row.label {
            Label::Block => true,
            _ => false,
        },
        None => false,
    }
}

// A `try` with a `finally`.
fn is_guarded(rows: &[Row], at: u32) -> bool
    ensures { result ≡ tell.is_guarded (label rows.now at) }
{
    match rows.get(at as usize) {
        Some(row) => match row.label {
            Label::Try { has_finally } => has_finally,
            _ => false,
        },
        None => false,
    }
}

fn is_default(rows: &[Row], at: u32) -> bool
    ensures { result ≡ tell.is_default (label rows.now at) }
{
    match rows.get(at as usize) {
        Some(row) => match row.label {
            Label::Default => true,
            _ => false,
        },
        None => false,
    }
}

// The row stands behind the one right after the other.
fn is_behind(over: u32, at: u32) -> bool
    ensures { result ≡ nat_lt (over + 1) at }
{
    over < at && at - over > 1
}

// The `try` of which the row is a block, and not its first.
fn guarding(rows: &[Row], at: u32) -> Option<u32>
    ensures { result ≡ tell.holder rows.now part.Finally at }
{
    let over = parent_at(rows, at);
    if is_block(rows, at) && is_guarded(rows, over) && is_behind(over, at) {
        Some(over)
    } else {
        None
    }
}

// The switch in which the row is a label `default`.
fn defaulted(rows: &[Row], at: u32) -> Option<u32>
    ensures { result ≡ tell.holder rows.now part.Default at }
{
    if is_default(rows, at) {
        Some(parent_at(rows, parent_at(rows, at)))
    } else {
        None
    }
}

// The statement that has the row as such a part.
fn holder(rows: &[Row], kind: Part, at: u32) -> Option<u32>
    ensures { result ≡ tell.holder rows.now kind at }
{
    match kind {
        Part::Finally => guarding(rows, at),
        Part::Default => defaulted(rows, at),
    }
}

fn put_row(all: &mut Vec<Option<u32>>, at: u32, row: u32)
    ensures { all.new.items ≡ slice_set all.old.items at (Some row) }
{
    if (at as usize) < all.len() {
        all[at as usize] = Some(row);
    }
}

fn put_part(all: &mut Vec<Option<u32>>, holder: Option<u32>, row: u32)
    ensures { all.new.items ≡ tell.put_part holder row all.old.items }
{
    if let Some(at) = holder {
        put_row(all, at, row);
    }
}

fn no_parts(alloc: Global, rows: &[Row]) -> Result<Vec<Option<u32>>, OutOfMemory>
    ensures { IfOk result (λ all. all.items ≡ replicate (length rows.now) None) }
{
    Ok(vec![in alloc; None; rows.len()]?)
}

// For each row its last part of the kind.
fn last_parts(
    alloc: Global,
    rows: &[Row],
    count: u32,
    kind: Part,
) -> Result<Vec<Option<u32>>, OutOfMemory>
    ensures { IfOk result (λ all. all.items ≡ tell.last_parts rows.now kind count) }
{
    let mut all = no_parts(alloc, rows)?;
    for at in 0..count {
        put_part(&mut all, holder(rows, kind, at), at);
    }
    Ok(all)
}

fn part_of(all: &[Option<u32>], at: u32) -> Option<u32>
    ensures { result ≡ tell.part_in all.now at }
{
    match all.get(at as usize) {
        Some(row) => *row,
        None => None,
    }
}

// What was found out of all rows, each table with an item for each.
#[derive(Clone, Copy)]
struct Told<'a> {
    targets: &'a [Targets],
    lasts: &'a [Option<u32>],
    defaults: &'a [Option<u32>],
}

// What is known of a row.
fn fact_at(view: &View, told: Told, at: u32) -> Fact
    ensures { length (tell.rows_in view.now) < 2 ^ 32 → result ≡ tell.fact_by (tell.rows_in view.now) (tell.table_in view.now) (tell.constants_in view.now) (tell.targets_in told.entry.targets.now at) (tell.part_in told.entry.lasts.now at) (tell.part_in told.entry.defaults.now at) at }
{
    let under = &view.sight.world.under;
    Fact {
        truth: truth_at(view.constants, at),
        exit: exit_at(under, targets_of(told.targets, at), at),
        last: part_of(told.lasts, at),
        has_default: part_of(told.defaults, at).is_some(),
    }
}

// What is known of each row, by the tables.
fn facts_by(alloc: Global, view: &View, count: u32, told: Told) -> Result<Vec<Fact>, OutOfMemory>
    ensures { count ≡ length (tell.rows_in view.now) → IfOk result (λ facts. facts.items ≡ tell.facts_by (tell.rows_in view.now) (tell.table_in view.now) (tell.constants_in view.now) told.entry.targets.now told.entry.lasts.now told.entry.defaults.now count) }
{
    let mut facts = Vec::new(alloc);
    for at in 0..count {
        let fact = fact_at(view, told, at);
        facts.push(fact)?;
    }
    Ok(facts)
}

/// What is known of each row of a bound program.
pub fn facts_of(alloc: Global, view: &View) -> Result<Vec<Fact>, OutOfMemory>
    ensures { IsLocal (tell.rows_in view.now) → IfOk result (λ facts. facts.items ≡ tell.facts_in view.now) }
{
    let rows = view.sight.world.under.rows;
    let Ok(count) = u32::try_from(rows.len()) else {
        return Err(OutOfMemory);
    };
    let targets = all_targets(alloc, rows, count)?;
    let lasts = last_parts(alloc, rows, count, Part::Finally)?;
    let defaults = last_parts(alloc, rows, count, Part::Default)?;
    let told = Told {
        targets: &targets,
        lasts: &lasts,
        defaults: &defaults,
    };
    facts_by(alloc, view, count, told)
}
