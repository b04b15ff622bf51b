// How far members are open (JLS 8.4.8.3).
ghost use Rattle.std.specs.Prelude.{◌≡◌};
ghost use Rattle.jr_plain.specs.Modifiers as modifiers;
ghost use Rattle.jr_member_rules.specs.Redefining as plain;
ghost use Rattle.jr_member_faults.specs.Redefined as tell;

use jr_places::{is_private, is_protected, is_public};
use jr_tree::Row;

// The least open access of a member: private, package, protected or public, by numbers from 0. A member may be written with two.
fn lowest_access(rows: &[Row], at: u32) -> u32
    ensures { result ≡ tell.lowest (modifiers.is_private rows.now at) (modifiers.is_protected rows.now at) (modifiers.is_public rows.now at) }
{
    if is_private(rows, at) {
        0
    } else if is_protected(rows, at) {
        2
    } else if is_public(rows, at) {
        3
    } else {
        1
    }
}

// The most open access of a member.
fn highest_access(rows: &[Row], at: u32) -> u32
    ensures { result ≡ tell.highest (modifiers.is_private rows.now at) (modifiers.is_protected rows.now at) (modifiers.is_public rows.now at) }
{
    if is_public(rows, at) {
        3
    } else if is_protected(rows, at) {
        2
    } else if is_private(rows, at) {
        0
    } else {
        1
    }
}

/// An access of the first member is narrower than one of the second.
pub fn is_narrower(rows: &[Row], at: u32, other: u32) -> bool
    ensures { result ≡ plain.is_narrower rows.now at other }
{
    lowest_access(rows, at) < highest_access(rows, other)
}
