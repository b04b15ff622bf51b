// In which stage each row is bound.
ghost use Rattle.std.specs.Prelude.{◌≡◌, ℕ, true, IfOk};
ghost use Rattle.jr_tree.specs.Rows.{Rows, label, sought_at};
ghost use Rattle.jr_bind.specs.Late as late;

use jr_base::OutOfMemory;
use jr_lookup::import_kind;
use jr_places::{parent_at, sought_at};
use jr_supers::header_place;
use jr_tree::{Label, NameKind, NamePlace, Row, Sought};
use std::alloc::Global;

/// When a row is bound: what names refer to in headers comes first, then in imports, then types, then variables and packages, then all else.
#[derive(Clone, Copy, Debug, PartialEq, Eq)]
pub enum Stage {
    Header,
    Import,
    Type,
    Name,
    Other,
    /// The row looks for nothing.
    Nothing,
}

/// Where a row stands: in the name of a header, or in an import.
#[derive(Clone, Copy, Debug, PartialEq, Eq)]
struct Around {
    is_in_header: bool,
    is_in_import: bool,
}

const ELSEWHERE: Around = Around {
    is_in_header: false,
    is_in_import: false,
};

// The row is an identifier of a name, and before a dot of one.
fn is_qualifier(rows: &[Row], at: u32) -> bool {
    match rows.get(at as usize) {
        Some(row) => match row.label {
            Label::Name { place, .. } => place == NamePlace::Qualifier,
            _ => false,
        },
        None => false,
    }
}

fn is_name(rows: &[Row], at: u32) -> bool
    ensures { result ≡ late.is_name (label rows.now at) }
{
    match rows.get(at as usize) {
        Some(row) => match row.label {
            Label::Name { .. } => true,
            _ => false,
        },
        None => false,
    }
}

// The kind stands for a type, or for a qualifier of one.
fn is_type_kind(kind: NameKind) -> bool
    ensures { result ≡ late.is_type_kind kind }
{
    match kind {
        NameKind::Type => true,
        NameKind::PackageOrType => true,
        _ => false,
    }
}

/// What is sought is a type, or a qualifier of one.
pub fn seeks_type(sought: Sought) -> bool
    ensures { result ≡ late.seeks_type sought }
{
    match sought {
        Sought::Simple { kind } => is_type_kind(kind),
        Sought::Qualified { kind } => is_type_kind(kind),
        _ => false,
    }
}

fn seeks_nothing(sought: Sought) -> bool
    ensures { result ≡ late.seeks_nothing sought }
{
    match sought {
        Sought::Nothing => true,
        _ => false,
    }
}

// Where a row stands, by where the row round it does.
fn around_of(rows: &[Row], known: &[Around], at: u32) -> Around
    ensures { late.ends_header (label rows.now at) ≡ true → result.is_in_header ≡ true }
{
    let over = match known.get(parent_at(rows, at) as usize) {
        Some(around) => *around,
        None => ELSEWHERE,
    };
    Around {
        is_in_header: header_place(rows, at).is_some()
            || (is_qualifier(rows, at) && over.is_in_header),
        is_in_import: import_kind(rows, at).is_some() || over.is_in_import,
    }
}

// The stage of a row that seeks a type.
fn type_stage(around: Around) -> Stage
    ensures { (p : Rows) (n : ℕ) → late.seeks_type (sought_at p n) ≡ true → (late.ends_header (label p n) ≡ true → around.is_in_header ≡ true) → late.IsLateAt p n result }
{
    if around.is_in_header {
        return Stage::Header;
    }
    if around.is_in_import {
        return Stage::Import;
    }
    Stage::Type
}

// In headers stand names of types alone.
fn stage_of(rows: &[Row], around: Around, at: u32) -> Stage
    ensures { (late.ends_header (label rows.now at) ≡ true → around.is_in_header ≡ true) → late.IsLateAt rows.now at result }
{
    let sought = sought_at(rows, at);
    if seeks_nothing(sought) {
        return Stage::Nothing;
    }
    if seeks_type(sought) {
        return type_stage(around);
    }
    if is_name(rows, at) {
        return Stage::Name;
    }
    Stage::Other
}

/// The stage of each row.
pub fn stages_of(alloc: Global, rows: &[Row]) -> Result<Vec<Stage>, OutOfMemory>
    ensures { IfOk result (λ stages. late.AreLate rows.now stages.items) }
{
    let Ok(count) = u32::try_from(rows.len()) else {
        return Err(OutOfMemory);
    };
    let mut arounds = Vec::new(alloc);
    let mut stages = Vec::new(alloc);
    for at in 0..count {
        let around = around_of(rows, &arounds, at);
        arounds.push(around)?;
        stages.push(stage_of(rows, around, at))?;
    }
    Ok(stages)
}
