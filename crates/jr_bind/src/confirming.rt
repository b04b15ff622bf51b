// Whether the table of a program is its binding: each row refers to what lookup gives there under the table itself (JLS 6.5).
ghost use Rattle.std.specs.Prelude.{◌≡◌, ℕ, ◌+◌, ◌<◌, ◌^◌, true, length, IfOk, Decides};
ghost use Rattle.jr_tree.specs.Rows as program;
ghost use Rattle.jr_defs.specs.Referents.{entries};
ghost use Rattle.jr_headed.specs.Founded.{AreWell};
ghost use Rattle.jr_lookup.specs.Calls.{CanSee};
ghost use Rattle.jr_constants.specs.declared.constants.Constants as code;
ghost use Rattle.jr_bind.specs.Confirmed as tell;
ghost use Rattle.jr_bind.specs.Late as late;
ghost use Rattle.jr_bind.specs.Naming.{IsBoundByTypes};

use crate::dotted::look_at;
use crate::ranking::are_settled;
use crate::stages::seeks_type;
use jr_base::OutOfMemory;
use jr_defs::{Referent, RowType};
use jr_headed::{are_well, has_no_cycle};
use jr_lookup::Sight;
use jr_places::sought_at;
use jr_tree::Row;
use std::alloc::Global;

/// What a table has for a row.
pub fn referent_at(table: &[Referent], at: u32) -> Referent
    ensures { result ≡ entries table.now at }
{
    match table.get(at as usize) {
        Some(referent) => *referent,
        None => Referent::Unbound,
    }
}

/// Both are one.
pub fn is_same(one: Referent, other: Referent) -> bool
    ensures { Decides result (one ≡ other) }
{
    one == other
}

/// The rows can be counted, have one bare Object, and packages with names.
pub fn are_countable(rows: &[Row]) -> bool
    ensures { result ≡ true → AreWell rows.now × (length rows.now + 3 < 2 ^ 32) }
{
    let Ok(end) = u32::try_from(rows.len()) else {
        return false;
    };
    if end > u32::MAX - 3 {
        return false;
    }
    are_well(rows)
}

// The row refers to what lookup gives there. It seeks a type, and reads no types of expressions.
fn is_bound_at(
    alloc: Global,
    sight: Sight,
    types: &[Option<RowType>],
    at: u32,
) -> Result<bool, OutOfMemory>
    ensures { CanSee (tell.table_of sight.entry) sight.entry at → late.seeks_type (program.sought_at (tell.rows_of sight.entry) at) ≡ true → IfOk result (λ is. is ≡ true → tell.IsBoundAt sight.entry at) }
{
    let found = look_at(alloc, sight, types, at)?;
    Ok(is_same(referent_at(sight.world.under.table, at), found))
}

// So it does if it seeks a type.
fn is_type_bound_at(
    alloc: Global,
    sight: Sight,
    types: &[Option<RowType>],
    at: u32,
) -> Result<bool, OutOfMemory>
    ensures { CanSee (tell.table_of sight.entry) sight.entry at → IfOk result (λ is. is ≡ true → tell.IsTypeBoundAt sight.entry at) }
{
    if !seeks_type(sought_at(sight.world.under.rows, at)) {
        return Ok(true);
    }
    is_bound_at(alloc, sight, types, at)
}

// So it is at the rows before the end.
fn are_types_bound(
    alloc: Global,
    sight: Sight,
    types: &[Option<RowType>],
    end: u32,
) -> Result<bool, OutOfMemory>
    ensures { tell.CanSeeTo sight.entry end → IfOk result (λ are. are ≡ true → (n : ℕ) → n < end → tell.IsTypeBoundAt sight.entry n) }
{
    let mut are = true;
    for at in 0..end {
        are = are && is_type_bound_at(alloc, sight, types, at)?;
    }
    Ok(are)
}

// Each row that seeks a type refers to what lookup gives there under the table itself.
fn are_types_confirmed(
    alloc: Global,
    sight: Sight,
    types: &[Option<RowType>],
) -> Result<bool, OutOfMemory>
    ensures { tell.CanConfirmTypes sight.entry → IfOk result (λ are. are ≡ true → tell.AreTypesBound sight.entry) }
{
    let Ok(end) = u32::try_from(sight.world.under.rows.len()) else {
        return Ok(false);
    };
    are_types_bound(alloc, sight, types, end)
}

/// Whether the table is a binding: the rows can be counted, no type is above itself, each row that seeks a type refers to what lookup gives there under the table itself,
/// and all types are settled, which the ranks witness. That it is so at the other rows follows from how they were looked up.
pub fn is_binding(
    alloc: Global,
    sight: Sight,
    types: &[Option<RowType>],
    ranks: &[u32],
) -> Result<bool, OutOfMemory>
    ensures { (found : code.Constants) → tell.IsProgramOf (tell.rows_of sight.entry) sight.entry.world.under.places.now sight.entry.scopes.now → tell.AreTables (tell.rows_of sight.entry) (tell.table_of sight.entry) sight.entry.world.under.places.now sight.entry.world.supers.now sight.entry.world.members.now sight.entry.imports.now found types.now → IsBoundByTypes (tell.rows_of sight.entry) sight.entry.world.under.places.now sight.entry.scopes.now (tell.table_of sight.entry) → IfOk result (λ is. is ≡ true → tell.IsBindingUnder (tell.rows_of sight.entry) (tell.table_of sight.entry) sight.entry.world.under.places.now sight.entry.world.supers.now sight.entry.world.members.now found types.now) }
{
    let rows = sight.world.under.rows;
    if !are_countable(rows) {
        return Ok(false);
    }
    if !has_no_cycle(alloc, rows, sight.world.supers)? {
        return Ok(false);
    }
    if !are_types_confirmed(alloc, sight, types)? {
        return Ok(false);
    }
    are_settled(alloc, sight, ranks)
}
