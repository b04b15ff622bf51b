// What a row refers to, where a name behind a dot asks for the type of what stands before it alone (JLS 6.5).

ghost use Rattle.std.specs.Prelude.{◌≡◌, ◌+◌, IfOk};
ghost use Rattle.jr_tree.specs.declared.label.Sought.TheVariants as seeking;
ghost use Rattle.jr_tree.specs.Rows.{sought_at};
ghost use Rattle.jr_defs.specs.Constants.{HasConstantForm};
ghost use Rattle.jr_defs.specs.Lookup.{Look};
ghost use Rattle.jr_defs.specs.Referents.{Table, entries};
ghost use Rattle.jr_lookup.specs.Behind as behind;
ghost use Rattle.jr_lookup.specs.Calls as calls;
ghost use Rattle.jr_lookup.specs.Sights.{IsSight};
ghost use Rattle.jr_bind.specs.Before as before;

use jr_base::OutOfMemory;
use jr_defs::{Referent, RowType};
use jr_lookup::{Left, Sight};
use jr_places::sought_at;
use jr_tree::{NameKind, Sought};
use std::alloc::Global;

// What a table has for a row.
fn type_at(types: &[Option<RowType>], at: u32) -> Option<RowType>
    ensures { result ≡ behind.type_in types.now at }
{
    match types.get(at as usize) {
        Some(ty) => *ty,
        None => None,
    }
}

// An expression of a type that is known, or nothing.
fn left_by(ty: Option<RowType>) -> Left
    ensures { result ≡ behind.left_by ty }
{
    match ty {
        Some(found) => Left::Value(found),
        None => Left::Nothing,
    }
}

// Where it is neither a package nor a type, an expression of this type, or nothing.
fn with_type(left: Left, ty: Option<RowType>) -> Left
    ensures { result ≡ before.with_type left ty }
{
    match left {
        Left::Package(number) => Left::Package(number),
        Left::OfType(over) => Left::OfType(over),
        Left::Value(_) => left_by(ty),
        Left::Nothing => left_by(ty),
    }
}

// What stands before the dot of a row.
fn left_before(sight: Sight, types: &[Option<RowType>], at: u32) -> Left
    ensures before { (t : Table) → IsSight t sight.entry → entries sight.entry.world.under.table.now (at + 1) ≡ t (at + 1) → behind.IsLeftOf sight.entry.world.under.rows.now t sight.entry.world.under.places.now at result }
    ensures value { (t : Table) → IsSight t sight.entry → entries sight.entry.world.under.table.now (at + 1) ≡ t (at + 1) → before.IsTypedBefore sight.entry.world.under.rows.now t types.now at → behind.HasValue sight.entry.world.under.rows.now t (HasConstantForm sight.entry.world.under.rows.now t) at result }
{
    match sight.world.under.first_child(at) {
        Some(child) => {
            let left = sight.left_of(types, at);
            let ty = type_at(types, child);
            with_type(left, ty)
        }
        None => Left::Nothing,
    }
}

// What a name of this kind behind a dot refers to.
fn look_behind(
    alloc: Global,
    sight: Sight,
    types: &[Option<RowType>],
    kind: NameKind,
    at: u32,
) -> Result<Referent, OutOfMemory>
    ensures { (t : Table) → calls.CanSee t sight.entry at → (behind.NeedsValue kind → before.IsTypedBefore sight.entry.world.under.rows.now t types.now at) → sought_at sight.entry.world.under.rows.now at ≡ seeking.Qualified kind → IfOk result (λ a. Look sight.entry.world.under.rows.now t (HasConstantForm sight.entry.world.under.rows.now t) at a) }
{
    let left = left_before(sight, types, at);
    let name = sight.world.under.places.name(at);
    sight.qualified(alloc, left, kind, name)
}

// What a row that seeks so refers to.
fn look_so(
    alloc: Global,
    sight: Sight,
    types: &[Option<RowType>],
    sought: Sought,
    at: u32,
) -> Result<Referent, OutOfMemory>
    ensures { (t : Table) → calls.CanSee t sight.entry at → (before.NeedsBefore sought → before.IsTypedBefore sight.entry.world.under.rows.now t types.now at) → (before.NeedsBehind sought → behind.CanLook t sight.entry types.now at) → sought_at sight.entry.world.under.rows.now at ≡ sought → IfOk result (λ a. Look sight.entry.world.under.rows.now t (HasConstantForm sight.entry.world.under.rows.now t) at a) }
{
    match sought {
        Sought::Qualified { kind } => look_behind(alloc, sight, types, kind, at),
        _ => sight.look(alloc, types, at),
    }
}

/// What a row refers to, where all else is as the table says.
pub fn look_at(
    alloc: Global,
    sight: Sight,
    types: &[Option<RowType>],
    at: u32,
) -> Result<Referent, OutOfMemory>
    ensures { (t : Table) → calls.CanSee t sight.entry at → (before.NeedsBefore (sought_at sight.entry.world.under.rows.now at) → before.IsTypedBefore sight.entry.world.under.rows.now t types.now at) → (before.NeedsBehind (sought_at sight.entry.world.under.rows.now at) → behind.CanLook t sight.entry types.now at) → IfOk result (λ a. Look sight.entry.world.under.rows.now t (HasConstantForm sight.entry.world.under.rows.now t) at a) }
{
    let sought = sought_at(sight.world.under.rows, at);
    look_so(alloc, sight, types, sought, at)
}
