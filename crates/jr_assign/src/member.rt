// The member that holds each row.
ghost use Rattle.std.specs.Prelude.{◌≡◌, ◌<◌, ◌^◌, IfOk, length};
ghost use Rattle.jr_tree.specs.Rows.{label};
ghost use Rattle.jr_assign.specs.Changes as changes;

use jr_base::OutOfMemory;
use jr_places::parent_at;
use jr_tree::{Label, Row};
use std::alloc::Global;

fn is_member(label: &Label) -> bool
    ensures { result ≡ changes.is_member label.now }
{
    match label {
        Label::Field { .. } => true,
        Label::Method { .. } => true,
        Label::Constructor { .. } => true,
        Label::DefaultConstructor => true,
        Label::Initializer { .. } => true,
        _ => false,
    }
}

fn is_member_at(rows: &[Row], at: u32) -> bool
    ensures { result ≡ changes.is_member (label rows.now at) }
{
    match rows.get(at as usize) {
        Some(row) => is_member(&row.label),
        None => false,
    }
}

/// The member that holds a row.
pub(crate) fn member_of(members: &[u32], at: u32) -> u32
    ensures { result ≡ changes.member_in members.now at }
{
    match members.get(at as usize) {
        Some(member) => *member,
        None => 0,
    }
}

// The member that holds a row, by those of the rows before it.
fn member_at(rows: &[Row], members: &[u32], at: u32) -> u32
    ensures { result ≡ changes.member_at rows.now (changes.member_in members.now) at }
{
    if is_member_at(rows, at) {
        return at;
    }
    member_of(members, parent_at(rows, at))
}

/// For each row the member that holds it; row 0 where there is none.
pub fn members_of(alloc: Global, rows: &[Row]) -> Result<Vec<u32>, OutOfMemory>
    requires { length rows.now < 2 ^ 32 }
    ensures { IfOk result (λ all. all.items ≡ changes.members rows.now (length rows.now)) }
{
    let mut all = Vec::new(alloc);
    for n in 0..rows.len() {
        let at = n as u32;
        let member = member_at(rows, &all, at);
        all.push(member)?;
    }
    Ok(all)
}
