// Lookup under a table of locks.
ghost use Rattle.std.specs.Prelude.{◌≡◌, ◌<◌, ◌++◌, IfOk, IfSome, OnOk, MatchOption, Decides};
ghost use Rattle.jr_tree.specs.Rows as program;
ghost use Rattle.jr_defs.specs.Referents.{entries};
ghost use Rattle.jr_supers.specs.Supers.{IsWellHeaded, HasNoCycle, AreSupersOf};
ghost use Rattle.jr_members.specs.Held.{ObjectIsBare};
ghost use Rattle.jr_members.specs.Sources.{ArePlaced};
ghost use Rattle.jr_lookup.specs.Behind.{CanLook};
ghost use Rattle.jr_lookup.specs.Imports.{AreImports};
ghost use Rattle.jr_bind.specs.Filled as filled;
ghost use Rattle.jr_bind.specs.Filled.{IsReady};
ghost use Rattle.jr_bind.specs.Exact as exact;
ghost use Rattle.jr_bind.specs.Confirmed as confirmed;
ghost use Rattle.jr_bind.specs.Rebound as tell;

use crate::binder::{Bound, sight_of};
use crate::boxes::{imports_of, members_of, supers_of};
use crate::confirming::{are_countable, is_same};
use crate::filling::{Filling, Known};
use crate::headers::Setting;
use jr_base::OutOfMemory;
use jr_constants::Constants;
use jr_defs::{Referent, RowType};
use jr_headed::has_no_cycle;
use jr_lookup::{Imports, Scopes, Sight};
use jr_members::Members;
use jr_places::{Places, sought_at};
use jr_supers::{Supers, Tabled};
use jr_tree::{Row, Sought};
use std::alloc::Global;

/// A row whose lookup gives another declaration than its lock.
#[derive(Clone, Copy, Debug, PartialEq, Eq)]
pub struct Rebound {
    pub row: u32,
    pub found: Referent,
}

// Both are one declaration, found through any level, or the same in all else.
fn is_same_target(lock: Referent, found: Referent) -> bool
    ensures { Decides result (tell.IsSameTarget lock found) }
{
    match lock {
        Referent::Declared { row, .. } => match found {
            Referent::Declared { row: other, .. } => row == other,
            _ => false,
        },
        _ => is_same(lock, found),
    }
}

// The row looks for something.
fn seeks(rows: &[Row], at: u32) -> bool
    ensures { result ≡ tell.seeks (program.sought_at rows.now at) }
{
    match sought_at(rows, at) {
        Sought::Nothing => false,
        _ => true,
    }
}

// It does, and has a lock.
fn has_lock(under: Tabled, at: u32) -> bool
    ensures { Decides result (tell.HasLock under.entry.rows.now (entries under.entry.table.now) at) }
{
    if !seeks(under.rows, at) {
        return false;
    }
    !is_same(under.referent(at), Referent::Unbound)
}

// The row, where its lookup gives another declaration than its lock.
fn rebound_at(
    alloc: Global,
    sight: Sight,
    types: &[Option<RowType>],
    at: u32,
) -> Result<Option<Rebound>, OutOfMemory>
    ensures { CanLook (confirmed.table_of sight.entry) sight.entry types.now at → IfOk result (tell.IsReboundAt (confirmed.rows_of sight.entry) (confirmed.table_of sight.entry) at) }
{
    if !has_lock(sight.world.under, at) {
        return Ok(None);
    }
    let found = sight.look(alloc, types, at)?;
    if is_same_target(sight.world.under.referent(at), found) {
        Ok(None)
    } else {
        Ok(Some(Rebound { row: at, found }))
    }
}

// One more, if there is one.
fn push_if(all: &mut Vec<Rebound>, answer: Option<Rebound>) -> Result<(), OutOfMemory>
    ensures { OnOk result (all.new.items ≡ all.old.items ++ tell.one_if answer) }
{
    if let Some(rebound) = answer {
        all.push(rebound)?;
    }
    Ok(())
}

// Those of the rows before the end, as they rise.
fn all_rebound(
    alloc: Global,
    sight: Sight,
    types: &[Option<RowType>],
    end: u32,
) -> Result<Vec<Rebound>, OutOfMemory>
    ensures { confirmed.CanLookTo sight.entry types.now end → IfOk result (λ all. tell.AreReboundTo (confirmed.rows_of sight.entry) (confirmed.table_of sight.entry) end all.items) }
{
    let mut all = Vec::new(alloc);
    for at in 0..end {
        let answer = rebound_at(alloc, sight, types, at)?;
        push_if(&mut all, answer)?;
    }
    Ok(all)
}

// All of them, of a program under its locks.
fn rebound_under(
    alloc: Global,
    setting: Setting,
    bound: &Bound,
) -> Result<Vec<Rebound>, OutOfMemory>
    ensures { tell.IsLockedBy setting.entry bound.now → IfOk result (λ all. tell.AreRebound setting.entry.rows.now (entries bound.now.table.items) all.items) }
{
    let Ok(end) = u32::try_from(setting.rows.len()) else {
        return Err(OutOfMemory);
    };
    let sight = sight_of(setting, bound);
    all_rebound(alloc, sight, &bound.types, end)
}

// The same, of a program that nothing needs behind it.
fn rebound_by(alloc: Global, setting: Setting, bound: Bound) -> Result<Vec<Rebound>, OutOfMemory>
    ensures { tell.IsLockedBy setting.entry bound → IfOk result (λ all. tell.AreRebound setting.entry.rows.now (entries bound.table.items) all.items) }
{
    rebound_under(alloc, setting, &bound)
}

/// What is made of supertypes and a table.
#[derive(Drop)]
struct Made {
    members: Box<Members>,
    imports: Box<Imports>,
    constants: Box<Constants>,
}

// The members, imports and constants under the locks; the types of expressions go to the table.
fn made_by(
    alloc: Global,
    setting: Setting,
    supers: &Supers,
    filling: &mut Filling,
) -> Result<Made, OutOfMemory>
    ensures table { filling.new.table ≡ filling.old.table }
    ensures imports { ArePlaced setting.entry.rows.now setting.entry.places.now → IfOk result (λ made. AreImports setting.entry.rows.now (filled.table_of filling.old) made.imports.value) }
    ensures exact { IsReady setting.entry.rows.now filling.old → (HasNoCycle setting.entry.rows.now (filled.table_of filling.old) → IsWellHeaded setting.entry.rows.now → AreSupersOf setting.entry.rows.now (filled.table_of filling.old) supers.now) → IfOk result (λ made. exact.IsProgramIn setting.entry.rows.now setting.entry.places.now → HasNoCycle setting.entry.rows.now (filled.table_of filling.old) → exact.AreUnder setting.entry.rows.now (filled.table_of filling.old) setting.entry.places.now supers.now made.members.value made.constants.value filling.new.types.items) }
{
    let under = Tabled {
        rows: setting.rows,
        places: setting.places,
        table: &filling.table,
    };
    let members = members_of(alloc, under, supers)?;
    let imports = imports_of(alloc, under)?;
    let known = Known {
        setting,
        supers: &*supers,
        members: &members,
        imports: &imports,
    };
    let constants = filling.find_constants(alloc, known)?;
    filling.find_types(known)?;
    Ok(Made {
        members,
        imports,
        constants,
    })
}

// The program under the locks, where their supertypes have no cycle.
fn bind_locked(
    alloc: Global,
    setting: Setting,
    supers: Box<Supers>,
    locks: Vec<Referent>,
) -> Result<Bound, OutOfMemory>
    ensures table { IfOk result (λ bound. bound.table ≡ locks) }
    ensures imports { ArePlaced setting.entry.rows.now setting.entry.places.now → IfOk result (λ bound. AreImports setting.entry.rows.now (entries bound.table.items) bound.imports.value) }
    ensures exact { (HasNoCycle setting.entry.rows.now (entries locks.items) → IsWellHeaded setting.entry.rows.now → AreSupersOf setting.entry.rows.now (entries locks.items) supers.value) → IfOk result (λ bound. exact.IsExact setting.entry.rows.now setting.entry.places.now bound) }
{
    let mut filling = Filling::new(alloc, setting.rows, locks)?;
    let made = made_by(alloc, setting, &supers, &mut filling)?;
    let Filling { table, types, .. } = filling;
    Ok(Bound {
        table,
        types,
        supers,
        members: made.members,
        imports: made.imports,
        constants: made.constants,
    })
}

/// The program under a table of locks: what occurrences refer to is what the locks say, and supertypes, members, imports, types of expressions and
/// constants are those under them. There is no answer where some type stands above itself.
pub fn bind_under(
    alloc: Global,
    rows: &[Row],
    places: &Places,
    scopes: &Scopes,
    locks: Vec<Referent>,
) -> Result<Option<Bound>, OutOfMemory>
    ensures table { IfOk result (λ bound. IfSome bound (λ all. all.table ≡ locks)) }
    ensures exact { IfOk result (λ bound. IfSome bound (λ all. exact.IsExact rows.now places.now all)) }
    ensures imports { ArePlaced rows.now places.now → IfOk result (λ bound. IfSome bound (λ all. AreImports rows.now (entries all.table.items) all.imports.value)) }
    ensures cycle { IsWellHeaded rows.now → ObjectIsBare rows.now → IfOk result (λ bound. MatchOption bound (HasNoCycle rows.now (entries locks.items) → ⊥) (λ all. HasNoCycle rows.now (entries all.table.items))) }
{
    let under = Tabled {
        rows,
        places,
        table: &locks,
    };
    let supers = supers_of(alloc, under)?;
    let is_acyclic = has_no_cycle(alloc, rows, &supers)?;
    if !is_acyclic {
        return Ok(None);
    }
    let setting = Setting {
        rows,
        places,
        scopes,
    };
    let bound = bind_locked(alloc, setting, supers, locks)?;
    Ok(Some(bound))
}

/// The rows of a program, as they rise, whose lookup under a table of locks gives another declaration than their locks (JLS 6.5), each once (`AreRebound`). Supertypes, members,
/// imports, constants and types of expressions are those under the same table; a row without a lock is passed. There is no answer where some type stands above itself under
/// the locks. Rows that cannot be counted, have not one bare Object, or have packages without a name are answered by want of memory.
pub fn rebind(
    alloc: Global,
    rows: &[Row],
    places: &Places,
    scopes: &Scopes,
    locks: &[Referent],
) -> Result<Option<Vec<Rebound>>, OutOfMemory>
    ensures { confirmed.IsProgramOf rows.now places.now scopes.now → tell.AreLocks rows.now locks.now → IfOk result (λ answer. MatchOption answer (HasNoCycle rows.now (entries locks.now) → ⊥) (λ all. tell.IsRebinding rows.now (entries locks.now) all.items)) }
{
    if !are_countable(rows) {
        return Err(OutOfMemory);
    }
    let setting = Setting {
        rows,
        places,
        scopes,
    };
    let table = locks.to_vec(alloc)?;
    match bind_under(alloc, rows, places, scopes, table)? {
        Some(bound) => {
            let all = rebound_by(alloc, setting, bound)?;
            Ok(Some(all))
        }
        None => Ok(None),
    }
}
