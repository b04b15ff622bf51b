// Whether a row and its copy mean the same.
ghost use Rattle.std.specs.Prelude.{◌≡◌, ◌+◌, ◌<◌, ◌^◌};
ghost use Rattle.jr_tree.specs.Rows.{label};
ghost use Rattle.jr_flow_defs.specs.Meaning as defs;
ghost use Rattle.jr_flow_defs.specs.Meaning.{Meaning};
ghost use Rattle.jr_meaning.specs.Meaning as tell;

use crate::reading::{Meant, declared_at, is_constant_at, is_shown_at, is_text_at, narrows_at};
use jr_places::role_at;
use jr_tree::{Label, Role, Row};

fn are_same(first: bool, second: bool) -> bool
    ensures { result ≡ tell.same first second }
{
    if first { second } else { !second }
}

fn role_number(role: Role) -> u32
    ensures { result ≡ tell.role_number role }
{
    match role {
        Role::Nothing => 0,
        Role::Type => 1,
        Role::Field => 2,
        Role::Method => 3,
        Role::Constructor => 4,
        Role::Parameter => 5,
        Role::Local => 6,
        Role::Label => 7,
    }
}

// The row is one of the old program, and the other has its role.
fn has_role_of(old: &[Row], from: u32, new: &[Row], to: u32) -> bool
    ensures { result ≡ tell.has_role_of old.now from new.now to }
{
    (from as usize) < old.len() && role_number(role_at(new, to)) == role_number(role_at(old, from))
}

// What was declared has become something with its role.
fn keeps_declared(old: &[Row], from: Option<u32>, new: &[Row], to: Option<u32>) -> bool
    ensures { result ≡ tell.keeps_declared old.now from new.now to }
{
    match from {
        Some(from) => match to {
            Some(to) => has_role_of(old, from, new, to),
            None => false,
        },
        None => true,
    }
}

fn is_cast(rows: &[Row], at: u32) -> bool
    ensures { result ≡ tell.is_cast (label rows.now at) }
{
    match rows.get(at as usize) {
        Some(row) => match row.label {
            Label::Cast => true,
            _ => false,
        },
        None => false,
    }
}

// A cast that can fail is one that can, and one that cannot one that cannot (JLS 15.16).
fn keeps_cast(old: &Meant, new: &Meant, at: u32, copy: u32) -> bool
    ensures { at + 2 < 2 ^ 32 → copy + 2 < 2 ^ 32 → (m w : Meaning) → tell.IsMeant old.now m → tell.IsMeant new.now w → result ≡ tell.keeps_cast old.now.rows.now new.now.rows.now m w at copy }
{
    if is_cast(old.rows, at) {
        are_same(narrows_at(old, at), narrows_at(new, copy))
    } else {
        true
    }
}

// The types of a row and of its copy are read alike.
fn keeps_type(old: &Meant, new: &Meant, at: u32, copy: u32) -> bool
    ensures { (m w : Meaning) → tell.IsMeant old.now m → tell.IsMeant new.now w → result ≡ tell.keeps_type old.now.rows.now new.now.rows.now m w at copy }
{
    are_same(is_text_at(old, at), is_text_at(new, copy))
        && are_same(is_shown_at(old, at), is_shown_at(new, copy))
}

// A row and its copy are both constant, or both are not (JLS 15.28).
fn keeps_constant(old: &Meant, new: &Meant, at: u32, copy: u32) -> bool
    ensures { (m w : Meaning) → tell.IsMeant old.now m → tell.IsMeant new.now w → result ≡ tell.same (defs.is_constant m at) (defs.is_constant w copy) }
{
    are_same(is_constant_at(old, at), is_constant_at(new, copy))
}

// A row and its copy refer to what has the same role.
fn keeps_referent(old: &Meant, new: &Meant, at: u32, copy: u32) -> bool
    ensures { (m w : Meaning) → tell.IsMeant old.now m → tell.IsMeant new.now w → result ≡ tell.keeps_declared old.now.rows.now (defs.declared (m.targets at)) new.now.rows.now (defs.declared (w.targets copy)) }
{
    keeps_declared(
        old.rows,
        declared_at(old, at),
        new.rows,
        declared_at(new, copy),
    )
}

/// A row means what its copy means.
pub(crate) fn is_alike(old: &Meant, new: &Meant, at: u32, copy: u32) -> bool
    ensures { at + 2 < 2 ^ 32 → copy + 2 < 2 ^ 32 → (m w : Meaning) → tell.IsMeant old.now m → tell.IsMeant new.now w → result ≡ tell.is_alike old.now.rows.now new.now.rows.now m w at copy }
{
    keeps_referent(old, new, at, copy)
        && keeps_constant(old, new, at, copy)
        && keeps_type(old, new, at, copy)
        && keeps_cast(old, new, at, copy)
}
