// Where the rules on jumps, unreached statements and completing bodies are broken.
ghost use Rattle.std.specs.Prelude.{◌≡◌, ◌++◌, ◌<◌, ◌^◌, OnOk, length};
ghost use Rattle.jr_tree.specs.Rows.{label};
ghost use Rattle.jr_reach.specs.Statements.{later};
ghost use Rattle.jr_reach.specs.Reached.{earlier};
ghost use Rattle.jr_reach.specs.Faults.{is_lost, is_statement, is_unreached, completes_wrongly, has_tested_end, may_break, fault_if, faults_at, faults_below};

use crate::fact::fact_of;
use crate::parts::parent_of;
use crate::reaching::was_reached;
use crate::table::completes_at;
use crate::{Entry, Fact};
use jr_base::OutOfMemory;
use jr_rule::{Fault, Rule};
use jr_tree::{Label, Row};

// A jump without target.
fn is_jump_lost(label: &Label, facts: &[Fact], n: usize) -> bool
    ensures { result ≡ is_lost label.now facts.now n }
{
    match label {
        Label::Break { .. } => fact_of(facts, n).exit.is_none(),
        Label::Continue { .. } => fact_of(facts, n).exit.is_none(),
        _ => false,
    }
}

fn is_stated(label: &Label) -> bool
    ensures { result ≡ is_statement label.now }
{
    match label {
        Label::Nest => true,
        Label::Locals => true,
        Label::Skip => true,
        Label::Do => true,
        Label::While => true,
        Label::If => true,
        Label::Eval => true,
        Label::For { .. } => true,
        Label::Switch => true,
        Label::Labeled => true,
        Label::Break { .. } => true,
        Label::Continue { .. } => true,
        Label::Return => true,
        Label::Throw => true,
        Label::Try { .. } => true,
        Label::ConstructorCall { .. } => true,
        _ => false,
    }
}

fn is_statement_at(rows: &[Row], n: usize) -> bool
    ensures { result ≡ is_statement (label rows.now n) }
{
    match rows.get(n) {
        Some(row) => is_stated(&row.label),
        None => true,
    }
}

// The first of statements that cannot be reached.
fn is_first_unreached(rows: &[Row], found: &[bool], n: usize) -> bool
    requires { n < length rows.now }
    ensures { result ≡ is_unreached rows.now (earlier found.now) n }
{
    let before = rows[n].previous as usize;
    is_statement_at(rows, n)
        && !was_reached(found, n)
        && was_reached(found, parent_of(rows, n))
        && (was_reached(found, before) || !is_statement_at(rows, before))
}

// A body that completes otherwise than it may.
fn is_completed_wrongly(label: &Label, completes: bool) -> bool
    ensures { result ≡ completes_wrongly label.now completes }
{
    match label {
        Label::Method {
            is_void: false,
            has_body: true,
            ..
        } => completes,
        Label::Initializer { .. } => !completes,
        _ => false,
    }
}

fn has_tested_end(label: &Label) -> bool
    ensures { result ≡ has_tested_end label.now }
{
    match label {
        Label::Method { .. } => true,
        Label::Initializer { .. } => true,
        _ => false,
    }
}

// At any other row no rule is broken.
fn may_break(label: &Label) -> bool
    ensures { result ≡ may_break label.now }
{
    is_stated(label) || has_tested_end(label)
}

fn note(out: &mut Vec<Fault>, is_broken: bool, n: usize, rule: Rule) -> Result<(), OutOfMemory>
    requires { n < 2 ^ 32 }
    ensures { OnOk result (out.new.items ≡ out.old.items ++ fault_if is_broken n rule) }
{
    if is_broken {
        out.push(Fault {
            row: n as u32,
            rule,
        })?;
    }
    Ok(())
}

// What the rules read: rows, what is known of them, their courses, and which can be reached.
#[derive(Clone, Copy)]
struct Reading<'a> {
    rows: &'a [Row],
    facts: &'a [Fact],
    all: &'a [Entry],
    found: &'a [bool],
}

// The faults of a row at which a rule may be broken.
fn note_tested(reading: Reading, n: usize, out: &mut Vec<Fault>) -> Result<(), OutOfMemory>
    requires there { n < length reading.rows.now }
    requires few { length reading.rows.now < 2 ^ 32 }
    ensures { OnOk result (out.new.items ≡ out.old.items ++ faults_at reading.entry.rows.now reading.entry.facts.now (later (length reading.entry.rows.now) reading.entry.all.now) (earlier reading.entry.found.now) n) }
{
    let label = &reading.rows[n].label;
    note(out, is_jump_lost(label, reading.facts, n), n, Rule::Jump)?;
    note(
        out,
        is_first_unreached(reading.rows, reading.found, n),
        n,
        Rule::Unreachable,
    )?;
    let completes = completes_at(reading.all, reading.rows.len(), n);
    note(
        out,
        is_completed_wrongly(label, completes),
        n,
        Rule::Completion,
    )
}

// The faults of a row.
fn note_row(reading: Reading, n: usize, out: &mut Vec<Fault>) -> Result<(), OutOfMemory>
    requires there { n < length reading.rows.now }
    requires few { length reading.rows.now < 2 ^ 32 }
    ensures { OnOk result (out.new.items ≡ out.old.items ++ faults_at reading.entry.rows.now reading.entry.facts.now (later (length reading.entry.rows.now) reading.entry.all.now) (earlier reading.entry.found.now) n) }
{
    if !may_break(&reading.rows[n].label) {
        return Ok(());
    }
    note_tested(reading, n, out)
}

/// Adds the jumps without target, the first of statements that cannot be reached, and the bodies that complete otherwise than they may, by the
/// courses of all rows and what of them can be reached.
pub fn reach_faults(
    rows: &[Row],
    facts: &[Fact],
    all: &[Entry],
    found: &[bool],
    out: &mut Vec<Fault>,
) -> Result<(), OutOfMemory>
    requires { length rows.now < 2 ^ 32 }
    ensures { OnOk result (out.new.items ≡ out.old.items ++ faults_below rows.now facts.now (later (length rows.now) all.now) (earlier found.now) (length rows.now)) }
{
    let reading = Reading {
        rows,
        facts,
        all,
        found,
    };
    for n in 0..rows.len() {
        note_row(reading, n, out)?;
    }
    Ok(())
}
