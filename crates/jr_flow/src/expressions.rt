// What expressions do, in the order of evaluation (JLS 15.7).
ghost use Rattle.std.specs.Prelude.{◌≡◌, ℕ, ◌+◌, ◌<◌, ◌^◌, ◌∷◌, ◌++◌, [], false, map, OnOk, Option};
ghost use Rattle.jr_tree.specs.declared.label.Label.TheVariants as is;
ghost use Rattle.jr_tree.specs.declared.tree.Primitive.{Primitive};
ghost use Rattle.jr_tree.specs.Rows.{end};
ghost use Rattle.jr_flow_defs.specs.Meaning.{Meaning};
ghost use Rattle.jr_flow_defs.specs.Acts as defs;
ghost use Rattle.jr_flow.specs.Seen.{act_seen, seen, stored, is_statement};
ghost use Rattle.jr_flow.specs.Views.{rows_in, IsViewOf};

use crate::acts::{Act, Acts};
use crate::meaning::{is_only_written, local_at, makes, narrows, operand, reads_field, shows_left};
use jr_base::{OutOfMemory, Symbol};
use jr_places::end_at;
use jr_tree::{Label, Row};
use jr_view::View;

/// Writes the rows from one on that stand before another, each behind the one before, so many at most.
pub(crate) fn write_siblings(
    rows: &[Row],
    acts: &mut Acts,
    from: u32,
    stop: u32,
    room: u32,
) -> Result<(), OutOfMemory>
    ensures { OnOk result (seen acts.new ≡ seen acts.old ++ map defs.part (defs.siblings rows.now room from stop)) }
{
    let mut part = from;
    for _turn in 0..room {
        if part >= stop {
            return Ok(());
        }
        acts.push(Act::Part { row: part })?;
        part = end_at(rows, part);
    }
    Ok(())
}

/// Writes all that stands right below a row, in turn.
pub(crate) fn write_parts(rows: &[Row], acts: &mut Acts, at: u32) -> Result<(), OutOfMemory>
    ensures { at + 1 < 2 ^ 32 → OnOk result (seen acts.new ≡ seen acts.old ++ defs.parts rows.now at) }
{
    let end = end_at(rows, at);
    write_siblings(
        rows,
        acts,
        at.saturating_add(1),
        end,
        end.saturating_sub(at),
    )
}

/// Writes all that stands right below a row, and then an act.
pub(crate) fn write_behind(
    rows: &[Row],
    acts: &mut Acts,
    at: u32,
    act: Act,
) -> Result<(), OutOfMemory>
    ensures { at + 1 < 2 ^ 32 → OnOk result (seen acts.new ≡ seen acts.old ++ defs.parts rows.now at ++ act_seen act ∷ []) }
{
    write_parts(rows, acts, at)?;
    acts.push(act)
}

fn write_event_if(acts: &mut Acts, is_event: bool, at: u32) -> Result<(), OutOfMemory>
    ensures { OnOk result (seen acts.new ≡ seen acts.old ++ defs.event_if is_event at) }
{
    if is_event {
        acts.push(Act::Event { row: at })?;
    }
    Ok(())
}

/// Writes a part that is done or passed over, as a test says.
pub(crate) fn write_guarded(acts: &mut Acts, test: u32, part: u32) -> Result<(), OutOfMemory>
    ensures { OnOk result (seen acts.new ≡ seen acts.old ++ defs.guarded test part) }
{
    acts.push(Act::Part { row: test })?;
    acts.push(Act::Quit)?;
    acts.push(Act::Part { row: part })
}

/// Writes two parts of which one is done, as a test says.
pub(crate) fn write_two_ways(
    acts: &mut Acts,
    test: u32,
    yes: u32,
    no: u32,
) -> Result<(), OutOfMemory>
    ensures { OnOk result (seen acts.new ≡ seen acts.old ++ defs.two_ways test yes no) }
{
    acts.push(Act::Part { row: test })?;
    acts.push(Act::Fork { to: 4 })?;
    acts.push(Act::Part { row: yes })?;
    acts.push(Act::Go { to: 5 })?;
    acts.push(Act::Part { row: no })
}

// The use of a local, or else the reading of a field.
fn write_fetched(
    view: &View,
    acts: &mut Acts,
    at: u32,
    local: Option<u32>,
) -> Result<(), OutOfMemory>
    ensures { (m : Meaning) → IsViewOf view.now m → OnOk result (seen acts.new ≡ seen acts.old ++ defs.fetched (rows_in view.now) m at local) }
{
    match local {
        Some(local) => acts.push(Act::Use { row: at, local }),
        None => write_event_if(acts, reads_field(view, at), at),
    }
}

// A name or a selection: what is before it, and then the use of a local or the reading of a field.
fn write_name(view: &View, acts: &mut Acts, at: u32) -> Result<(), OutOfMemory>
    ensures { at + 1 < 2 ^ 32 → (m : Meaning) → IsViewOf view.now m → OnOk result (seen acts.new ≡ seen acts.old ++ defs.name_acts (rows_in view.now) m at) }
{
    let rows = view.sight.world.under.rows;
    write_parts(rows, acts, at)?;
    if is_only_written(rows, at) {
        return Ok(());
    }
    write_fetched(view, acts, at, local_at(view, at))
}

// An element of an array. As the left side of a plain assignment it is not read.
fn write_index(rows: &[Row], acts: &mut Acts, at: u32) -> Result<(), OutOfMemory>
    ensures { at + 1 < 2 ^ 32 → OnOk result (seen acts.new ≡ seen acts.old ++ defs.index_acts rows.now at) }
{
    write_parts(rows, acts, at)?;
    if is_only_written(rows, at) {
        return Ok(());
    }
    acts.push(Act::Event { row: at })
}

// A local gets its value at a row, or else a field or an element is written.
fn write_written(
    acts: &mut Acts,
    at: u32,
    defining: u32,
    local: Option<u32>,
) -> Result<(), OutOfMemory>
    ensures { OnOk result (seen acts.new ≡ seen acts.old ++ defs.written at defining local) }
{
    match local {
        Some(local) => acts.push(Act::Define {
            row: defining,
            local,
        }),
        None => acts.push(Act::Event { row: at }),
    }
}

fn write_assignment(view: &View, acts: &mut Acts, at: u32, op: Symbol) -> Result<(), OutOfMemory>
    ensures { at + 1 < 2 ^ 32 → (m : Meaning) → IsViewOf view.now m → OnOk result (seen acts.new ≡ seen acts.old ++ defs.assignment_acts (rows_in view.now) m at op) }
{
    let rows = view.sight.world.under.rows;
    write_parts(rows, acts, at)?;
    write_event_if(acts, makes(view, at, op), at)?;
    let place = operand(rows, at);
    write_written(acts, at, place, local_at(view, place))
}

fn write_step(view: &View, acts: &mut Acts, at: u32) -> Result<(), OutOfMemory>
    ensures { at + 1 < 2 ^ 32 → (m : Meaning) → IsViewOf view.now m → OnOk result (seen acts.new ≡ seen acts.old ++ defs.step_acts (rows_in view.now) m at) }
{
    let rows = view.sight.world.under.rows;
    write_parts(rows, acts, at)?;
    write_written(acts, at, at, local_at(view, operand(rows, at)))
}

fn write_binary(view: &View, acts: &mut Acts, at: u32, op: Symbol) -> Result<(), OutOfMemory>
    ensures { at + 2 < 2 ^ 32 → (m : Meaning) → IsViewOf view.now m → OnOk result (seen acts.new ≡ seen acts.old ++ defs.binary_acts (rows_in view.now) m at op) }
{
    let left = at.saturating_add(1);
    let right = end_at(view.sight.world.under.rows, left);
    match op {
        Symbol::AndAnd => write_guarded(acts, left, right),
        Symbol::OrOr => write_guarded(acts, left, right),
        _ => {
            acts.push(Act::Part { row: left })?;
            write_event_if(acts, shows_left(view, at, op), at)?;
            acts.push(Act::Part { row: right })?;
            write_event_if(acts, makes(view, at, op), at)
        }
    }
}

fn write_cast(view: &View, acts: &mut Acts, at: u32) -> Result<(), OutOfMemory>
    ensures { at + 2 < 2 ^ 32 → (m : Meaning) → IsViewOf view.now m
        → OnOk result (seen acts.new ≡ seen acts.old ++ defs.acts_by is.Cast (rows_in view.now) m at) }
{
    write_parts(view.sight.world.under.rows, acts, at)?;
    write_event_if(acts, narrows(view, at), at)
}

// The items of an array, each evaluated and stored.
fn write_items(
    rows: &[Row],
    acts: &mut Acts,
    from: u32,
    stop: u32,
    room: u32,
) -> Result<(), OutOfMemory>
    ensures { OnOk result (seen acts.new ≡ seen acts.old ++ stored (defs.siblings rows.now room from stop)) }
{
    let mut item = from;
    for _turn in 0..room {
        if item >= stop {
            return Ok(());
        }
        acts.push(Act::Part { row: item })?;
        acts.push(Act::Event { row: item })?;
        item = end_at(rows, item);
    }
    Ok(())
}

/// Writes a test and two parts of which one is done.
pub(crate) fn write_conditional(rows: &[Row], acts: &mut Acts, at: u32) -> Result<(), OutOfMemory>
    ensures { at + 2 < 2 ^ 32 → end rows.now (at + 1) + 1 < 2 ^ 32 → OnOk result (seen acts.new ≡ seen acts.old ++ defs.two_ways (defs.first rows.now at) (defs.second rows.now at) (defs.third rows.now at)) }
{
    let test = at.saturating_add(1);
    let yes = end_at(rows, test);
    write_two_ways(acts, test, yes, end_at(rows, yes))
}

// An initializer of an array makes the array, and then each item is stored in it (JLS 10.6).
fn write_list(rows: &[Row], acts: &mut Acts, at: u32) -> Result<(), OutOfMemory>
    ensures { at + 1 < 2 ^ 32 → OnOk result (seen acts.new ≡ seen acts.old ++ defs.list_acts rows.now at) }
{
    acts.push(Act::Event { row: at })?;
    let end = end_at(rows, at);
    write_items(
        rows,
        acts,
        at.saturating_add(1),
        end,
        end.saturating_sub(at),
    )
}

// The array is made by its initializer where it has one (JLS 15.10.1).
fn write_new_array(
    rows: &[Row],
    acts: &mut Acts,
    at: u32,
    lengths: usize,
) -> Result<(), OutOfMemory>
    ensures { at + 1 < 2 ^ 32 → (m : Meaning) (primitive : Option Primitive) (more : ℕ) → OnOk result (seen acts.new ≡ seen acts.old ++ defs.acts_by (is.NewArray primitive lengths more) rows.now m at) }
{
    if lengths == 0 {
        return write_parts(rows, acts, at);
    }
    write_behind(rows, acts, at, Act::Event { row: at })
}

/// Writes what an expression does.
pub(crate) fn write_expression(
    view: &View,
    acts: &mut Acts,
    at: u32,
    label: &Label,
) -> Result<(), OutOfMemory>
    ensures { at + 2 < 2 ^ 32 → end (rows_in view.now) (at + 1) + 1 < 2 ^ 32 → (m : Meaning) → IsViewOf view.now m → is_statement label.now ≡ false
        → OnOk result (seen acts.new ≡ seen acts.old ++ defs.acts_by label.now (rows_in view.now) m at) }
{
    let rows = view.sight.world.under.rows;
    let event = Act::Event { row: at };
    match label {
        Label::Name { .. } => write_name(view, acts, at),
        Label::Select => write_name(view, acts, at),
        Label::SuperSelect => write_name(view, acts, at),
        Label::Index => write_index(rows, acts, at),
        Label::Assign { op } => write_assignment(view, acts, at, *op),
        Label::PreStep { .. } => write_step(view, acts, at),
        Label::PostStep { .. } => write_step(view, acts, at),
        Label::Conditional => write_conditional(rows, acts, at),
        Label::Binary { op } => write_binary(view, acts, at, *op),
        Label::Unary { op: Symbol::Not } => write_behind(rows, acts, at, Act::Node { row: at }),
        Label::Cast => write_cast(view, acts, at),
        Label::Call { .. } => write_behind(rows, acts, at, event),
        Label::New => write_behind(rows, acts, at, event),
        Label::NewArray { lengths, .. } => write_new_array(rows, acts, at, *lengths),
        Label::List => write_list(rows, acts, at),
        Label::ConstructorCall { .. } => write_behind(rows, acts, at, event),
        Label::ImplicitCall => acts.push(event),
        Label::TypeUse { .. } => Ok(()),
        _ => write_parts(rows, acts, at),
    }
}
