// Whether the rows of a changed program and their locks are as in all programs.

ghost use Rattle.std.specs.Prelude.{◌≡◌, ◌+◌, ◌<◌, ◌^◌, true, length, Decides, IfOk, IfErr};
ghost use Rattle.jr_tree.specs.Rows.{label};
ghost use Rattle.jr_defs.specs.Referents.{entries};
ghost use Rattle.jr_plain.specs.Declarations as plain;
ghost use Rattle.jr_plain.specs.Search.{all_below};
ghost use Rattle.jr_bind.specs.Confirmed as told;
ghost use Rattle.jr_bind.specs.Rebound.{AreLocks};
ghost use Rattle.jr_headed.specs.Founded.{AreWell};
ghost use Rattle.jr_front.specs.Bound.{rows_in};
ghost use Rattle.jr_engine.specs.Refusing.{IsHinderedIn};
ghost use Rattle.jr_engine.specs.Written.{IsSound, rows_of};

use crate::asked::Asked;
use crate::fault::StepFault;
use crate::locked::Locked;
use jr_defs::Referent;
use jr_headed::are_well;
use jr_places::{is_type, role_at};
use jr_tree::{Label, Role, Row};

// The row is a name, or a constructor, whose name is that of its class.
fn is_type_label(rows: &[Row], at: u32) -> bool
    ensures { result ≡ told.is_type_label (label rows.now at) }
{
    match rows.get(at as usize) {
        Some(row) => match row.label {
            Label::Name { .. } => true,
            Label::Constructor { .. } => true,
            _ => false,
        },
        None => false,
    }
}

// The row is a name, or a field behind a dot.
fn is_variable_label(rows: &[Row], at: u32) -> bool
    ensures { result ≡ told.is_variable_label (label rows.now at) }
{
    match rows.get(at as usize) {
        Some(row) => match row.label {
            Label::Name { .. } => true,
            Label::Select => true,
            Label::SuperSelect => true,
            _ => false,
        },
        None => false,
    }
}

// The row declares a variable.
fn is_variable(rows: &[Row], at: u32) -> bool
    ensures { result ≡ plain.is_variable rows.now at }
{
    match role_at(rows, at) {
        Role::Field => true,
        Role::Parameter => true,
        Role::Local => true,
        _ => false,
    }
}

// The row may refer to the declaration: to a type, or to a variable.
fn may_refer_to(rows: &[Row], at: u32, target: u32) -> bool
    ensures { result ≡ told.may_refer_to rows.now (label rows.now at) target }
{
    (!is_type(rows, target) || is_type_label(rows, at))
        && (!is_variable(rows, target) || is_variable_label(rows, at))
}

// The row may refer so.
fn may_refer(rows: &[Row], at: u32, lock: Referent) -> bool
    ensures { result ≡ told.may_refer rows.now (label rows.now at) lock }
{
    match lock {
        Referent::Declared { row, .. } => may_refer_to(rows, at, row),
        Referent::Package => is_type_label(rows, at),
        Referent::ArrayLength => is_variable_label(rows, at),
        _ => true,
    }
}

// What a table has for a row.
fn lock_at(table: &[Referent], at: u32) -> Referent
    ensures { result ≡ entries table.now at }
{
    match table.get(at as usize) {
        Some(lock) => *lock,
        None => Referent::Unbound,
    }
}

// So it is with the rows before the end.
fn may_all_refer(rows: &[Row], table: &[Referent], end: u32) -> bool
    ensures { result ≡ all_below end (told.may_refer_at rows.now (entries table.now)) }
{
    let mut may = true;
    for at in 0..end {
        may = may && may_refer(rows, at, lock_at(table, at));
    }
    may
}

// Each row has a lock, which may stand there.
fn are_locks(rows: &[Row], table: &[Referent]) -> bool
    ensures { result ≡ true → AreLocks rows.now table.now }
{
    let Ok(end) = u32::try_from(rows.len()) else {
        return false;
    };
    table.len() == rows.len() && may_all_refer(rows, table, end)
}

/// The rows can be counted, with room for three more.
pub fn are_few(rows: &[Row]) -> bool
    ensures { Decides result (length rows.now + 3 < 2 ^ 32) }
{
    rows.len() < u32::MAX as usize - 2
}

// The rows of both programs can be counted, and the changed ones and their locks are as in all programs.
fn are_as_in_programs(asked: Asked, locked: &Locked) -> bool
    ensures few { result ≡ true → length (rows_in asked.entry.old.now) + 3 < 2 ^ 32 }
    ensures few_new { result ≡ true → length (rows_of locked.now) + 3 < 2 ^ 32 }
    ensures well { result ≡ true → AreWell (rows_of locked.now) }
    ensures locks { result ≡ true → AreLocks (rows_of locked.now) locked.now.program.bound.value.table.items }
{
    let rows = locked.program.index.rows();
    are_few(asked.old.index.rows())
        && are_few(rows)
        && are_well(rows)
        && are_locks(rows, &locked.program.bound.table)
}

/// The changed rows and their locks are as in all programs, so that the tables under these are exact. Others were not to be written.
pub fn is_sound(asked: Asked, locked: &Locked) -> Result<(), StepFault>
    ensures ok { IfOk result (λ _. IsSound asked.entry locked.now) }
    ensures err { IfErr result (IsHinderedIn asked.entry) }
{
    if are_as_in_programs(asked, locked) {
        Ok(())
    } else {
        Err(asked.differs())
    }
}
