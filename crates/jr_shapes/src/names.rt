// The identifiers of names.
ghost use Rattle.std.specs.Prelude.{◌≡◌, ◌+◌, ◌-◌, ◌++◌, ◌<◌, ◌^◌, IfOk, OnOk, take};
ghost use Rattle.std.specs.List.{range_with_len};
ghost use Rattle.jr_defs.specs.Referents.{entries};
ghost use Rattle.jr_shapes.specs.Names as spec;
ghost use Rattle.jr_shapes.specs.Parts.{type_of};

use crate::reading::{referent_at, type_of};
use crate::spelling::Suffix;
use jr_base::OutOfMemory;
use jr_defs::Referent;
use jr_places::parent_at;
use jr_tree::{Label, Row};
use std::alloc::Global;

fn is_atom_label(label: &Label) -> bool
    ensures { result ≡ spec.is_atom_label label.now }
{
    match label {
        Label::Literal { .. } => true,
        Label::Name { .. } => true,
        Label::This { .. } => true,
        Label::Select => true,
        Label::SuperSelect => true,
        Label::Index => true,
        Label::Call { .. } => true,
        Label::New => true,
        Label::Paren => true,
        _ => false,
    }
}

/// An expression that can stand behind a cast without parentheses.
pub fn is_atom(rows: &[Row], at: u32) -> bool
    ensures { result ≡ spec.is_atom rows.now at }
{
    match rows.get(at as usize) {
        Some(row) => is_atom_label(&row.label),
        None => false,
    }
}

fn has_identifier(label: &Label) -> bool
    ensures { result ≡ spec.has_identifier label.now }
{
    match label {
        Label::Name { .. } => true,
        Label::Select => true,
        Label::SuperSelect => true,
        Label::Call { .. } => true,
        Label::Constructor { .. } => true,
        Label::Break { has_label } => *has_label,
        Label::Continue { has_label } => *has_label,
        _ => false,
    }
}

/// The row refers by an identifier of its own, and not by that of a class or by a keyword.
pub fn has_own_identifier(rows: &[Row], at: u32) -> bool
    ensures { result ≡ spec.has_own_identifier rows.now at }
{
    match rows.get(at as usize) {
        Some(row) => has_identifier(&row.label),
        None => false,
    }
}

/// The row whose identifier a reference has now, by what it refers to: its own where that has no name.
pub fn named_by(rows: &[Row], row: u32, found: Referent) -> u32
    ensures { result ≡ spec.named_by rows.now row found }
{
    if !has_own_identifier(rows, row) {
        return row;
    }
    match found {
        Referent::Declared { row: target, .. } => target,
        _ => row,
    }
}

fn is_body(label: &Label) -> bool
    ensures { result ≡ spec.is_body label.now }
{
    match label {
        Label::Body => true,
        _ => false,
    }
}

fn is_body_at(rows: &[Row], at: u32) -> bool
    ensures { result ≡ spec.is_body_at rows.now at }
{
    match rows.get(at as usize) {
        Some(row) => is_body(&row.label),
        None => false,
    }
}

// The type whose member a type is.
fn around(rows: &[Row], class: u32) -> Option<u32>
    ensures { result ≡ spec.around rows.now class }
{
    let body = parent_at(rows, class);
    if is_body_at(rows, body) {
        Some(parent_at(rows, body))
    } else {
        None
    }
}

fn is_package(label: &Label) -> bool
    ensures { result ≡ spec.is_package label.now }
{
    match label {
        Label::Package => true,
        _ => false,
    }
}

// The number of a package declaration, and where its name ends.
fn package_at(rows: &[Row], at: usize) -> Option<u32>
    ensures { result ≡ spec.package_at rows.now at }
{
    match rows.get(at) {
        Some(row) => {
            if is_package(&row.label) {
                Some(row.end)
            } else {
                None
            }
        }
        None => None,
    }
}

// The rows from one to before another.
#[tactic(auto, using(crate::proofs::Pushes::range_more, crate::proofs::Pushes::range_end))]
fn push_range(all: &mut Vec<u32>, first: usize, end: u32) -> Result<(), OutOfMemory>
    ensures { OnOk result (all.new.items ≡ all.old.items ++ range_with_len first (end - first)) }
{
    for at in first..end as usize {
        all.push(at as u32)?;
    }
    Ok(())
}

/// The identifiers of the package of a type that is no member, from the last one back.
pub fn push_package(all: &mut Vec<u32>, rows: &[Row], class: u32) -> Result<(), OutOfMemory>
    ensures { OnOk result (all.new.items ≡ all.old.items ++ spec.package_names rows.now class) }
{
    let declared = parent_at(rows, class) as usize + 1;
    match package_at(rows, declared) {
        Some(end) => push_range(all, declared + 1, end),
        None => Ok(()),
    }
}

// The first items, so many at most.
#[tactic(auto, using(crate::proofs::Pushes::first_more, crate::proofs::Pushes::first_none, crate::proofs::Pushes::first_end))]
fn push_first(all: &mut Vec<u32>, some: &[u32], most: u32) -> Result<(), OutOfMemory>
    ensures { OnOk result (all.new.items ≡ all.old.items ++ take most some.now) }
{
    let mut left = most;
    let mut rest = some;
    while let Some((at, after)) = rest.split_first() {
        if left == 0 {
            return Ok(());
        }
        left -= 1;
        all.push(*at)?;
        rest = after;
    }
    Ok(())
}

fn push_last(
    alloc: Global,
    all: &mut Vec<u32>,
    rows: &[Row],
    class: u32,
    most: u32,
) -> Result<(), OutOfMemory>
    ensures { OnOk result (all.new.items ≡ all.old.items ++ take most (spec.package_names rows.now class)) }
{
    let mut names = Vec::new(alloc);
    push_package(&mut names, rows, class)?;
    push_first(all, &names, most)
}

/// The rows whose identifiers make the last identifiers of the canonical name of a type, from its last one back (JLS 6.7). There are fewer
/// where the name is shorter.
#[tactic(auto, using(crate::proofs::Suffixes::suffix_over, crate::proofs::Suffixes::suffix_top, crate::proofs::Suffixes::suffix_done))]
pub fn suffix_rows(alloc: Global, rows: &[Row], suffix: Suffix) -> Result<Vec<u32>, OutOfMemory>
    ensures { IfOk result (λ all. all.items ≡ spec.suffix rows.now suffix.count suffix.of) }
{
    let mut all = Vec::new(alloc);
    let mut at = suffix.of;
    let mut left = suffix.count;
    while left > 0 {
        all.push(at)?;
        left -= 1;
        match around(rows, at) {
            Some(over) => at = over,
            None => {
                push_last(alloc, &mut all, rows, at, left)?;
                return Ok(all);
            }
        }
    }
    Ok(all)
}

// The identifiers of a package behind which the type stands.
fn push_kept_package(
    all: &mut Vec<u32>,
    rows: &[Row],
    behind: Option<u32>,
    rest: &[u32],
) -> Result<(), OutOfMemory>
    ensures { OnOk result (all.new.items ≡ all.old.items ++ spec.kept_package rows.now behind rest.now) }
{
    match behind {
        Some(class) => push_package(all, rows, class),
        None => {
            all.extend_from_slice(rest)?;
            Ok(())
        }
    }
}

/// The rows whose identifiers stand before the last one of a reference that keeps its shape, from the last one back: each type by its name
/// now, a package as a whole by that of the type behind it. `parts` are its qualifiers, and `found` is what it refers to.
pub fn kept_rows(
    alloc: Global,
    rows: &[Row],
    table: &[Referent],
    found: Referent,
    parts: &[u32],
) -> Result<Vec<u32>, OutOfMemory>
    ensures { IfOk result (λ all. all.items ≡ spec.kept rows.now (entries table.now) (type_of rows.now found) parts.now) }
{
    let mut all = Vec::new(alloc);
    let mut behind = type_of(rows, found);
    let mut rest = parts;
    while let Some((at, after)) = rest.split_first() {
        match type_of(rows, referent_at(table, *at)) {
            Some(class) => {
                all.push(class)?;
                behind = Some(class);
                rest = after;
            }
            None => {
                push_kept_package(&mut all, rows, behind, rest)?;
                return Ok(all);
            }
        }
    }
    Ok(all)
}
