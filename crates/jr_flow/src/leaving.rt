// Where control is, and where it goes next (JLS 11.3, 14.1, 14.20, 15.6).
ghost use Rattle.std.specs.Prelude.{◌≡◌, ℕ, ◌+◌, ◌-◌, ◌<◌, ◌≤◌, ◌^◌, ◌∷◌, ◌++◌, [], List, Some, IfOk, OnOk, if◌then◌else◌, length, map, nat_eq, option_map, unwrap_or, ◌&&◌};
ghost use Rattle.jr_tree.specs.Rows.{Rows, label, parent, end};
ghost use Rattle.jr_flow_defs.specs.Meaning.{Meaning};
ghost use Rattle.jr_flow_defs.specs.Acts as acts;
ghost use Rattle.jr_flow_defs.specs.States as states;
ghost use Rattle.jr_flow_defs.specs.Edges as edges;
ghost use Rattle.jr_flow.specs.declared.pending.Waiting.{Waiting};
ghost use Rattle.jr_flow.specs.Keys as keys;
ghost use Rattle.jr_flow.specs.Seen.{completion_seen, act_seen};
ghost use Rattle.jr_flow.specs.Places.{moment_seen, list_seen, state_seen, ways_seen};
ghost use Rattle.jr_flow.specs.Coded as tell;
ghost use Rattle.jr_flow.specs.Coded.{IsCoded};
ghost use Rattle.jr_flow.specs.Pended.{lists_of, IsPending, IsState, AddsWays, ended, caught, catch_ways, hops_before, reason};

use crate::acts::{Act, Completion, completion_key};
use crate::code::Code;
use crate::pending::Pending;
use crate::point::{Point, PointKind};
use crate::statements::is_catch;
use jr_base::OutOfMemory;
use jr_places::{end_at, parent_at};
use jr_tree::{Label, Row};

/// Before the act of this number, or when the row has completed so.
#[derive(Clone, Copy)]
pub(crate) enum Moment {
    Before { act: u32 },
    Completed { completion: Completion },
}

/// Where control is: a moment of a row, with a list of pending completions.
#[derive(Clone, Copy)]
pub(crate) struct State {
    pub(crate) row: u32,
    pub(crate) moment: Moment,
    pub(crate) list: u32,
}

/// Where control goes to, and whether by a throw that happens here.
#[derive(Clone, Copy)]
pub(crate) struct Way {
    pub(crate) to: State,
    pub(crate) is_throw: bool,
}

/// The kind of a moment and its number, by which it is told from others.
pub(crate) fn moment_key(moment: Moment) -> (u32, u32)
    ensures { result ≡ keys.moment_key moment }
{
    match moment {
        Moment::Before { act } => (5, act),
        Moment::Completed { completion } => completion_key(completion),
    }
}

/// Before an act of a row.
pub(crate) fn before(row: u32, act: u32, list: u32) -> State
    ensures { (lists : List Waiting) → state_seen lists result ≡ states.at row act (list_seen lists list) }
{
    State {
        row,
        moment: Moment::Before { act },
        list,
    }
}

fn left(row: u32, completion: Completion, list: u32) -> State
    ensures { (lists : List Waiting) → state_seen lists result ≡ states.left row (completion_seen completion) (list_seen lists list) }
{
    State {
        row,
        moment: Moment::Completed { completion },
        list,
    }
}

fn is_throw(completion: Completion) -> bool
    ensures { result ≡ states.is_throw (completion_seen completion) }
{
    match completion {
        Completion::Throw => true,
        _ => false,
    }
}

// ---- what stands at a state

fn act_point(row: u32, act: Act) -> Option<Point>
    ensures { result ≡ edges.act_point row (Some (act_seen act)) }
{
    match act {
        Act::Event { row } => Some(Point {
            row,
            kind: PointKind::Node,
        }),
        Act::Node { row } => Some(Point {
            row,
            kind: PointKind::Node,
        }),
        Act::Define { row, local } => Some(Point {
            row,
            kind: PointKind::Definition { local },
        }),
        Act::Use { row, local } => Some(Point {
            row,
            kind: PointKind::Use { local },
        }),
        Act::Part { .. } => None,
        Act::Go { .. } => None,
        _ => Some(Point {
            row,
            kind: PointKind::Node,
        }),
    }
}

fn exit_kind(completion: Completion) -> PointKind
    ensures { result ≡ edges.exit_kind (completion_seen completion) }
{
    match completion {
        Completion::Throw => PointKind::Thrown,
        _ => PointKind::Exit,
    }
}

fn point_of(row: u32, found: Option<Act>) -> Option<Point>
    ensures { result ≡ edges.act_point row (option_map act_seen found) }
{
    match found {
        Some(act) => act_point(row, act),
        None => None,
    }
}

// The row is that of the declaration.
fn is_body(code: &Code, row: u32) -> bool
    ensures { result ≡ nat_eq row code.now.body }
{
    row == code.body()
}

// Before the first act of the declaration.
fn is_entry(code: &Code, row: u32, act: u32) -> bool
    ensures { result ≡ (nat_eq act 0 && nat_eq row code.now.body) }
{
    act == 0 && is_body(code, row)
}

// What stands before an act: the entry before the first one of the declaration.
fn point_before(code: &Code, row: u32, act: u32) -> Option<Point>
    ensures { (p : Rows) (m : Meaning) → IsCoded p m code.now → code.now.body ≤ row → row < end p code.now.body → result ≡ edges.point_by (states.before act) p m code.now.body row }
{
    if is_entry(code, row, act) {
        return Some(Point {
            row,
            kind: PointKind::Entry,
        });
    }
    point_of(row, code.act(row, act))
}

// How a body is left; where a row below it completes there is no point.
fn point_behind(code: &Code, row: u32, completion: Completion) -> Option<Point>
    ensures { (p : Rows) (m : Meaning) → result ≡ edges.point_by (states.completed (completion_seen completion)) p m code.now.body row }
{
    if is_body(code, row) {
        Some(Point {
            row,
            kind: exit_kind(completion),
        })
    } else {
        None
    }
}

/// The point that stands at a state, if one does.
pub(crate) fn point_at(code: &Code, at: State) -> Option<Point>
    ensures { (p : Rows) (m : Meaning) → IsCoded p m code.now → code.now.body ≤ at.row → at.row < end p code.now.body → result ≡ edges.point_by (moment_seen at.moment) p m code.now.body at.row }
{
    match at.moment {
        Moment::Before { act } => point_before(code, at.row, act),
        Moment::Completed { completion } => point_behind(code, at.row, completion),
    }
}

// ---- inside a row

#[tactic(auto, using(crate::proofs::Ways::ways_more))]
fn go(out: &mut Vec<Way>, to: State) -> Result<(), OutOfMemory>
    ensures { (lists : List Waiting) → OnOk result (ways_seen lists out.new.items ≡ ways_seen lists out.old.items ++ states.plainly (state_seen lists to) ∷ []) }
{
    out.push(Way {
        to,
        is_throw: false,
    })?;
    Ok(())
}

#[tactic(auto, using(crate::proofs::Ways::ways_more))]
fn complete(
    out: &mut Vec<Way>,
    row: u32,
    completion: Completion,
    list: u32,
) -> Result<(), OutOfMemory>
    ensures { (lists : List Waiting) → OnOk result (ways_seen lists out.new.items ≡ ways_seen lists out.old.items ++ states.completing row (completion_seen completion) (list_seen lists list) ∷ []) }
{
    out.push(Way {
        to: left(row, completion, list),
        is_throw: is_throw(completion),
    })?;
    Ok(())
}

// Before an act of a row.
fn go_to(out: &mut Vec<Way>, row: u32, act: u32, list: u32) -> Result<(), OutOfMemory>
    ensures { (lists : List Waiting) → OnOk result (ways_seen lists out.new.items ≡ ways_seen lists out.old.items ++ states.plainly (states.at row act (list_seen lists list)) ∷ []) }
{
    go(out, before(row, act, list))
}

// Before each act of a row from one up to another.
fn go_each(
    out: &mut Vec<Way>,
    row: u32,
    from: u32,
    count: u32,
    list: u32,
) -> Result<(), OutOfMemory>
    ensures { (lists : List Waiting) → OnOk result (ways_seen lists out.new.items ≡ ways_seen lists out.old.items ++ states.all_at row from (count - from) (list_seen lists list)) }
{
    for act in from..count {
        go_to(out, row, act, list)?;
    }
    Ok(())
}

// A row completes normally, unless something else holds.
fn go_out(out: &mut Vec<Way>, row: u32, is_such: bool, list: u32) -> Result<(), OutOfMemory>
    ensures { (lists : List Waiting) → OnOk result (ways_seen lists out.new.items ≡ ways_seen lists out.old.items ++ (if is_such then [] else states.plainly (states.left row acts.normally (list_seen lists list)) ∷ [])) }
{
    if is_such {
        return Ok(());
    }
    complete(out, row, Completion::Normally, list)
}

// From before an act of a row that has so many; the next one has the number behind.
fn found_ways(
    out: &mut Vec<Way>,
    found: Option<Act>,
    row: u32,
    behind: u32,
    count: u32,
    list: u32,
) -> Result<(), OutOfMemory>
    ensures { (lists : List Waiting) → OnOk result (ways_seen lists out.new.items ≡ ways_seen lists out.old.items ++ hops_before (option_map act_seen found) row behind count (list_seen lists list)) }
{
    match found {
        None => complete(out, row, Completion::Normally, list),
        Some(act) => act_ways(out, act, row, behind, count, list),
    }
}

// From before an act.
fn act_ways(
    out: &mut Vec<Way>,
    act: Act,
    row: u32,
    behind: u32,
    count: u32,
    list: u32,
) -> Result<(), OutOfMemory>
    ensures { (lists : List Waiting) → OnOk result (ways_seen lists out.new.items ≡ ways_seen lists out.old.items ++ hops_before (Some (act_seen act)) row behind count (list_seen lists list)) }
{
    match act {
        Act::Part { row: part } => go_to(out, part, 0, list),
        Act::Event { .. } => {
            go_to(out, row, behind, list)?;
            complete(out, row, Completion::Throw, list)
        }
        Act::Node { .. } => go_to(out, row, behind, list),
        Act::Define { .. } => go_to(out, row, behind, list),
        Act::Use { .. } => go_to(out, row, behind, list),
        Act::Quit => {
            go_to(out, row, behind, list)?;
            complete(out, row, Completion::Normally, list)
        }
        Act::Fork { to } => {
            go_to(out, row, behind, list)?;
            go_to(out, row, to, list)
        }
        Act::Choose { has_default } => {
            go_each(out, row, behind, count, list)?;
            go_out(out, row, has_default, list)
        }
        Act::Go { to } => go_to(out, row, to, list),
        Act::Jump { completion } => complete(out, row, completion, list),
    }
}

// From before the act of this number.
fn before_ways(
    out: &mut Vec<Way>,
    found: Option<Act>,
    row: u32,
    act: u32,
    count: u32,
    list: u32,
) -> Result<(), OutOfMemory>
    ensures { (lists : List Waiting) → OnOk result (ways_seen lists out.new.items ≡ ways_seen lists out.old.items ++ states.act_hops (option_map act_seen found) row act count (list_seen lists list)) }
{
    let Some(behind) = act.checked_add(1) else {
        return Err(OutOfMemory);
    };
    found_ways(out, found, row, behind, count, list)
}

// ---- out of a row

// The act at which the next turn of a loop begins.
fn next_turn(label: &Label) -> u32
    ensures { result ≡ acts.next_turn label.now }
{
    match label {
        Label::Do => 1,
        Label::For {
            has_first,
            has_condition,
        } => {
            let start = if *has_first { 1 } else { 0 };
            if *has_condition { start + 3 } else { start + 1 }
        }
        _ => 0,
    }
}

// The part of a row has completed, behind which the act of this number stands.
fn part_left(label: &Label, row: u32, behind: u32, completion: Completion, list: u32) -> State
    ensures { (lists : List Waiting) (all : acts.Acts) (k : ℕ) → behind ≡ states.behind all k → state_seen lists result ≡ states.part_left all label.now row k (completion_seen completion) (list_seen lists list) }
{
    match completion {
        Completion::Normally => before(row, behind, list),
        Completion::Break { target } => {
            if target == row {
                left(row, Completion::Normally, list)
            } else {
                left(row, completion, list)
            }
        }
        Completion::Continue { target } => {
            if target == row {
                before(row, next_turn(label), list)
            } else {
                left(row, completion, list)
            }
        }
        _ => left(row, completion, list),
    }
}

// A body is left by a throw, or else normally.
fn as_left(moment: Moment) -> Moment
    ensures { moment_seen result ≡ states.as_left (moment_seen moment) }
{
    match moment {
        Moment::Before { .. } => moment,
        Moment::Completed {
            completion: Completion::Throw,
        } => moment,
        Moment::Completed { .. } => Moment::Completed {
            completion: Completion::Normally,
        },
    }
}

fn ending(body: u32, at: State) -> State
    ensures { (lists : List Waiting) → state_seen lists result ≡ states.ending body (state_seen lists at) }
{
    if at.row == body {
        State {
            row: at.row,
            moment: as_left(at.moment),
            list: at.list,
        }
    } else {
        at
    }
}

// The `try` that a part of it leaves.
#[derive(Clone, Copy)]
struct Trying {
    row: u32,
    has_finally: bool,
    /// Its last part.
    last: u32,
}

// Into the block of `finally`, where what happened is pending; without one the `try` completes so.
fn into_finally(
    pending: &mut Pending,
    of: Trying,
    completion: Completion,
    list: u32,
) -> Result<State, OutOfMemory>
    ensures { IfOk result (λ s. IsPending pending.old → list ≤ length (lists_of pending.old) → (p : Rows) → of.last ≡ acts.last p of.row
        → IsState pending.old pending.new s (states.into_finally p of.row of.has_finally (completion_seen completion) (list_seen (lists_of pending.new) list))) }
{
    if of.has_finally {
        let inner = pending.with(list, completion)?;
        return Ok(before(of.last, 0, inner));
    }
    Ok(left(of.row, completion, list))
}

// Into the block of `finally`, or out of the `try`, which may be all of the body.
fn go_finally(
    pending: &mut Pending,
    out: &mut Vec<Way>,
    body: u32,
    of: Trying,
    completion: Completion,
    list: u32,
) -> Result<(), OutOfMemory>
    ensures { IsPending pending.old → list ≤ length (lists_of pending.old) → (p : Rows) → of.last ≡ acts.last p of.row
        → OnOk result (AddsWays pending.old pending.new out.old.items out.new.items (ended body (states.into_finally p of.row of.has_finally (completion_seen completion) (list_seen (lists_of pending.new) list) ∷ []))) }
{
    let to = into_finally(pending, of, completion, list)?;
    go(out, ending(body, to))
}

// What is thrown goes to each of the catches.
fn go_catches(
    rows: &[Row],
    out: &mut Vec<Way>,
    from: u32,
    stop: u32,
    room: u32,
    list: u32,
) -> Result<(), OutOfMemory>
    ensures { (lists : List Waiting) → OnOk result (ways_seen lists out.new.items ≡ ways_seen lists out.old.items ++ catch_ways rows.now (list_seen lists list) (acts.siblings rows.now room from stop)) }
{
    let mut part = from;
    for _turn in 0..room {
        if part >= stop {
            return Ok(());
        }
        go_if(out, is_catch(rows, part), before(part, 0, list))?;
        part = end_at(rows, part);
    }
    Ok(())
}

fn go_if(out: &mut Vec<Way>, is_such: bool, to: State) -> Result<(), OutOfMemory>
    ensures { (lists : List Waiting) → OnOk result (ways_seen lists out.new.items ≡ ways_seen lists out.old.items ++ (if is_such then states.plainly (state_seen lists to) ∷ [] else [])) }
{
    if is_such {
        go(out, to)?;
    }
    Ok(())
}

// What the body of a `try` throws goes to each of the catches.
fn go_caught(
    rows: &[Row],
    out: &mut Vec<Way>,
    at: u32,
    completion: Completion,
    list: u32,
) -> Result<(), OutOfMemory>
    ensures { at + 1 < 2 ^ 32 → (lists : List Waiting) → OnOk result (ways_seen lists out.new.items ≡ ways_seen lists out.old.items ++ map states.plainly (caught rows.now at (completion_seen completion) (list_seen lists list))) }
{
    if is_throw(completion) {
        let end = end_at(rows, at);
        let first = at.saturating_add(1);
        return go_catches(rows, out, first, end, end.saturating_sub(at), list);
    }
    Ok(())
}

// The body of a `try` has completed.
fn body_left(
    rows: &[Row],
    pending: &mut Pending,
    out: &mut Vec<Way>,
    body: u32,
    of: Trying,
    completion: Completion,
    list: u32,
) -> Result<(), OutOfMemory>
    ensures { of.row + 1 < 2 ^ 32 → IsPending pending.old → list ≤ length (lists_of pending.old) → of.last ≡ acts.last rows.now of.row
        → OnOk result (AddsWays pending.old pending.new out.old.items out.new.items (ended body (states.body_left rows.now of.row of.has_finally (completion_seen completion) (list_seen (lists_of pending.new) list)))) }
{
    go_caught(rows, out, of.row, completion, list)?;
    go_finally(pending, out, body, of, completion, list)
}

// Why a `try` completes whose block of `finally` has completed: as was pending, or for a reason of its own.
fn reason_of(completion: Completion, waiting: Completion) -> Completion
    ensures { completion_seen result ≡ reason (completion_seen completion) (completion_seen waiting) }
{
    match completion {
        Completion::Normally => waiting,
        _ => completion,
    }
}

// The block of `finally` has completed: what was pending goes on, or is discarded.
fn finally_left(
    pending: &Pending,
    out: &mut Vec<Way>,
    body: u32,
    row: u32,
    completion: Completion,
    list: u32,
) -> Result<(), OutOfMemory>
    ensures { IsPending pending.now → OnOk result (ways_seen (lists_of pending.now) out.new.items ≡ ways_seen (lists_of pending.now) out.old.items ++ ended body (states.finally_left row (completion_seen completion) (list_seen (lists_of pending.now) list))) }
{
    match pending.innermost(list) {
        Some(waiting) => {
            let reason = reason_of(completion, waiting.completion);
            go(out, ending(body, left(row, reason, waiting.outer)))
        }
        None => Ok(()),
    }
}

// The part is the body of the `try`.
fn is_first(of: Trying, part: u32) -> bool
    ensures { of.row + 1 < 2 ^ 32 → result ≡ nat_eq part (of.row + 1) }
{
    part == of.row.saturating_add(1)
}

// The part is the block of `finally`.
fn is_block(of: Trying, part: u32) -> bool
    ensures { result ≡ (of.has_finally && nat_eq part of.last) }
{
    of.has_finally && part == of.last
}

// A part of a `try` has completed.
fn try_left(
    rows: &[Row],
    pending: &mut Pending,
    out: &mut Vec<Way>,
    body: u32,
    of: Trying,
    part: u32,
    completion: Completion,
    list: u32,
) -> Result<(), OutOfMemory>
    ensures { of.row + 1 < 2 ^ 32 → IsPending pending.old → list ≤ length (lists_of pending.old) → of.last ≡ acts.last rows.now of.row
        → OnOk result (AddsWays pending.old pending.new out.old.items out.new.items (ended body (states.try_left rows.now of.row of.has_finally part (completion_seen completion) (list_seen (lists_of pending.new) list)))) }
{
    if is_first(of, part) {
        return body_left(rows, pending, out, body, of, completion, list);
    }
    if is_block(of, part) {
        return finally_left(pending, out, body, of.row, completion, list);
    }
    go_finally(pending, out, body, of, completion, list)
}

// A part of a row that is no `try` has completed.
fn go_behind(
    out: &mut Vec<Way>,
    body: u32,
    label: &Label,
    row: u32,
    behind: u32,
    completion: Completion,
    list: u32,
) -> Result<(), OutOfMemory>
    ensures { (lists : List Waiting) (all : acts.Acts) (k : ℕ) → behind ≡ states.behind all k
        → OnOk result (ways_seen lists out.new.items ≡ ways_seen lists out.old.items ++ ended body (states.part_left all label.now row k (completion_seen completion) (list_seen lists list) ∷ [])) }
{
    let to = part_left(label, row, behind, completion, list);
    go(out, ending(body, to))
}

// A part of a row with this label has completed.
fn part_ways(
    code: &Code,
    rows: &[Row],
    pending: &mut Pending,
    out: &mut Vec<Way>,
    label: &Label,
    row: u32,
    part: u32,
    completion: Completion,
    list: u32,
) -> Result<(), OutOfMemory>
    ensures { (m : Meaning) → row + 1 < 2 ^ 32 → unwrap_or (tell.item code.now.lasts.items code.now.body row) row ≡ acts.last rows.now row
        → unwrap_or (tell.item code.now.behinds.items code.now.body part) 0 ≡ states.behind (acts.acts rows.now m row) part → IsPending pending.old → list ≤ length (lists_of pending.old)
        → OnOk result (AddsWays pending.old pending.new out.old.items out.new.items (ended code.now.body (states.left_by label.now rows.now m row part (completion_seen completion) (list_seen (lists_of pending.new) list)))) }
{
    match label {
        Label::Try { has_finally } => {
            let of = Trying {
                row,
                has_finally: *has_finally,
                last: code.last(row),
            };
            try_left(rows, pending, out, code.body(), of, part, completion, list)
        }
        _ => {
            let behind = code.behind(part);
            go_behind(out, code.body(), label, row, behind, completion, list)
        }
    }
}

// A row below the declaration has completed.
fn left_ways(
    code: &Code,
    rows: &[Row],
    pending: &mut Pending,
    out: &mut Vec<Way>,
    part: u32,
    completion: Completion,
    list: u32,
) -> Result<(), OutOfMemory>
    ensures { (m : Meaning) → IsCoded rows.now m code.now → code.now.body < part → part < end rows.now code.now.body → IsPending pending.old → list ≤ length (lists_of pending.old)
        → OnOk result (AddsWays pending.old pending.new out.old.items out.new.items (ended code.now.body (states.left_by (label rows.now (parent rows.now part)) rows.now m (parent rows.now part) part (completion_seen completion) (list_seen (lists_of pending.new) list)))) }
{
    let row = parent_at(rows, part);
    match rows.get(row as usize) {
        Some(over) => part_ways(
            code,
            rows,
            pending,
            out,
            &over.label,
            row,
            part,
            completion,
            list,
        ),
        None => Ok(()),
    }
}

// A row has completed: that of the declaration, and control leaves the body, or one below it.
fn completed_ways(
    code: &Code,
    rows: &[Row],
    pending: &mut Pending,
    out: &mut Vec<Way>,
    row: u32,
    completion: Completion,
    list: u32,
) -> Result<(), OutOfMemory>
    ensures { (m : Meaning) → IsCoded rows.now m code.now → code.now.body ≤ row → row < end rows.now code.now.body → IsPending pending.old → list ≤ length (lists_of pending.old)
        → OnOk result (AddsWays pending.old pending.new out.old.items out.new.items (states.hops_by (states.completed (completion_seen completion)) rows.now m code.now.body row (list_seen (lists_of pending.new) list))) }
{
    if is_body(code, row) {
        return Ok(());
    }
    left_ways(code, rows, pending, out, row, completion, list)
}

/// Adds where control goes to from a state of a body.
pub(crate) fn ways_of(
    code: &Code,
    rows: &[Row],
    pending: &mut Pending,
    from: State,
    out: &mut Vec<Way>,
) -> Result<(), OutOfMemory>
    ensures { (m : Meaning) → IsCoded rows.now m code.now → code.now.body ≤ from.row → from.row < end rows.now code.now.body → IsPending pending.old → from.list ≤ length (lists_of pending.old)
        → OnOk result (AddsWays pending.old pending.new out.old.items out.new.items (states.hops rows.now m code.now.body (state_seen (lists_of pending.new) from))) }
{
    let row = from.row;
    match from.moment {
        Moment::Before { act } => {
            let found = code.act(row, act);
            let count = code.count(row);
            before_ways(out, found, row, act, count, from.list)
        }
        Moment::Completed { completion } => {
            completed_ways(code, rows, pending, out, row, completion, from.list)
        }
    }
}
