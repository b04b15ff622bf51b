// The binding of a program.
ghost use Rattle.std.specs.Prelude.{◌≡◌, true, IfOk, OnOk};
ghost use Rattle.jr_defs.specs.Binding.{IsFirstOnCycle};
ghost use Rattle.jr_bind.specs.Late.{AreLate};
ghost use Rattle.jr_defs.specs.Referents.{entries};
ghost use Rattle.jr_supers.specs.Supers.{HasNoCycle};
ghost use Rattle.jr_bind.specs.Filled.{table_of, IsReady, KeepsRest};
ghost use Rattle.jr_bind.specs.Naming as naming;
ghost use Rattle.jr_bind.specs.Naming.{FillsNames};
ghost use Rattle.jr_bind.specs.Exact as exact;
ghost use Rattle.jr_bind.specs.Confirmed as confirmed;
ghost use Rattle.jr_bind.specs.Rebound as rebound;

use crate::boxes::{boxed, imports_none, imports_of, members_of, supers_of};
use crate::confirming::is_binding;
use crate::cycles::first_on_cycle;
use crate::filling::{Filling, Known, headers_of};
use crate::headers::{Setting, Settled, settle};
use crate::stages::{Stage, stages_of};
use jr_base::OutOfMemory;
use jr_constants::Constants;
use jr_defs::{Referent, RowType};
use jr_lookup::{Imports, Scopes, Sight};
use jr_members::{Members, World};
use jr_places::Places;
use jr_supers::{Supers, Tabled};
use jr_tree::Row;
use std::alloc::Global;

/// What occurrences refer to, with the types of expressions.
#[derive(Drop)]
pub struct Bound {
    pub table: Vec<Referent>,
    pub types: Vec<Option<RowType>>,
    pub supers: Box<Supers>,
    pub members: Box<Members>,
    pub imports: Box<Imports>,
    pub constants: Box<Constants>,
}

/// The binding, or the first type on a cycle of headers.
#[derive(Drop)]
pub enum Binding {
    Bound(Box<Bound>),
    Cycle(u32),
}

// The stage of types in imports, where none holds. It gives what the imports bring.
fn fill_imports(
    alloc: Global,
    known: Known,
    stages: &[Stage],
    filling: &mut Filling,
) -> Result<Box<Imports>, OutOfMemory>
    ensures rest { OnOk result (KeepsRest filling.old filling.new) }
    ensures types { AreLate known.entry.setting.rows.now stages.now → naming.BindsTypes known.entry.setting.rows.now filling.old.table.items → OnOk result (naming.BindsTypes known.entry.setting.rows.now filling.new.table.items) }
{
    filling.fill(alloc, known, stages, Stage::Import)?;
    imports_of(alloc, filling.under(known))
}

// The stages of types: those in imports first, then all others.
fn fill_types<'a>(
    alloc: Global,
    setting: Setting<'a>,
    stages: &[Stage],
    supers: &'a Supers,
    members: &'a Members,
    filling: &mut Filling,
) -> Result<(), OutOfMemory>
    ensures rest { OnOk result (KeepsRest filling.old filling.new) }
    ensures types { AreLate setting.entry.rows.now stages.now → naming.BindsTypes setting.entry.rows.now filling.old.table.items → OnOk result (naming.BindsTypes setting.entry.rows.now filling.new.table.items) }
{
    let none = imports_none(alloc)?;
    let known = Known {
        setting,
        supers,
        members,
        imports: &none,
    };
    let imports = fill_imports(alloc, known, stages, filling)?;
    let known = Known {
        setting,
        supers,
        members,
        imports: &imports,
    };
    filling.fill(alloc, known, stages, Stage::Type)
}

// The stages of names and of all else. It gives the values of constants.
fn fill_names(
    alloc: Global,
    known: Known,
    stages: &[Stage],
    filling: &mut Filling,
) -> Result<Box<Constants>, OutOfMemory>
    ensures fills { exact.IsProgramIn known.entry.setting.rows.now known.entry.setting.places.now → AreLate known.entry.setting.rows.now stages.now → IsReady known.entry.setting.rows.now filling.old → IfOk result (λ found. FillsNames known.entry.setting.rows.now known.entry.setting.places.now known.entry.supers.now filling.old filling.new found.value) }
    ensures looked { exact.IsProgramIn known.entry.setting.rows.now known.entry.setting.places.now → AreLate known.entry.setting.rows.now stages.now → IsReady known.entry.setting.rows.now filling.old → naming.IsReadyToName known.entry filling.old → HasNoCycle known.entry.setting.rows.now (table_of filling.new) → naming.HasHeaderTypes known.entry.setting.rows.now (table_of filling.new) → OnOk result (naming.AreLookedUpIn known.entry.setting.rows.now stages.now (table_of filling.new)) }
{
    filling.fill_typed(alloc, known, stages, Stage::Name)?;
    let constants = filling.find_constants(alloc, known)?;
    filling.fill_typed(alloc, known, stages, Stage::Other)?;
    Ok(constants)
}

// All members and names, once types are looked up.
fn bind_names(
    alloc: Global,
    setting: Setting,
    stages: &[Stage],
    filling: Filling,
) -> Result<Bound, OutOfMemory>
    ensures tables { AreLate setting.entry.rows.now stages.now → IsReady setting.entry.rows.now filling → IfOk result (λ bound. confirmed.AreTablesOf setting.entry.rows.now setting.entry.places.now bound) }
    ensures bound { AreLate setting.entry.rows.now stages.now → IsReady setting.entry.rows.now filling → naming.BindsTypes setting.entry.rows.now filling.table.items → IfOk result (λ bound. naming.IsBoundByTypes setting.entry.rows.now setting.entry.places.now setting.entry.scopes.now (entries bound.table.items)) }
{
    let mut filling = filling;
    let under = Tabled {
        rows: setting.rows,
        places: setting.places,
        table: &filling.table,
    };
    let supers = supers_of(alloc, under)?;
    let members = members_of(alloc, under, &supers)?;
    let imports = imports_of(alloc, under)?;
    let known = Known {
        setting,
        supers: &supers,
        members: &members,
        imports: &imports,
    };
    let constants = fill_names(alloc, known, stages, &mut filling)?;
    let Filling { table, types, .. } = filling;
    Ok(Bound {
        table,
        types,
        supers,
        members,
        imports,
        constants,
    })
}

// The stages behind that of headers.
fn bind_rest(
    alloc: Global,
    setting: Setting,
    stages: &[Stage],
    settled: Settled,
) -> Result<Bound, OutOfMemory>
    ensures tables { AreLate setting.entry.rows.now stages.now → IfOk result (λ bound. confirmed.AreTablesOf setting.entry.rows.now setting.entry.places.now bound) }
    ensures bound { AreLate setting.entry.rows.now stages.now → IfOk result (λ bound. naming.IsBoundByTypes setting.entry.rows.now setting.entry.places.now setting.entry.scopes.now (entries bound.table.items)) }
{
    let Settled {
        table,
        supers,
        members,
        ..
    } = settled;
    let headers = headers_of(alloc, stages, &table)?;
    drop(table);
    let mut filling = Filling::new(alloc, setting.rows, headers)?;
    fill_types(alloc, setting, stages, &supers, &members, &mut filling)?;
    drop(members);
    drop(supers);
    bind_names(alloc, setting, stages, filling)
}

/// The rows under the table of a bound program, as lookup reads them.
pub fn sight_of<'a>(setting: Setting<'a>, bound: &'a Bound) -> Sight<'a>
    ensures { rebound.parts_of result ≡ rebound.parts_by setting.entry bound.now }
{
    let under = Tabled {
        rows: setting.rows,
        places: setting.places,
        table: &bound.table,
    };
    let world = World {
        under,
        supers: &bound.supers,
        members: &bound.members,
    };
    Sight {
        world,
        scopes: setting.scopes,
        imports: &bound.imports,
    }
}

// The table of the program is its binding.
fn is_binding_of(
    alloc: Global,
    setting: Setting,
    bound: &Bound,
    ranks: &[u32],
) -> Result<bool, OutOfMemory>
    ensures { confirmed.AreTablesOf setting.entry.rows.now setting.entry.places.now bound.now → naming.IsBoundByTypes setting.entry.rows.now setting.entry.places.now setting.entry.scopes.now (entries bound.now.table.items) → confirmed.IsProgramOf setting.entry.rows.now setting.entry.places.now setting.entry.scopes.now → IfOk result (λ is. is ≡ true → confirmed.IsBindingOf setting.entry.rows.now setting.entry.places.now bound.now) }
{
    let sight = sight_of(setting, bound);
    is_binding(alloc, sight, &bound.types, ranks)
}

// The binding where all headers are settled. Where lookup does not confirm the names of types, or their order, the table is no binding, and is answered by want of memory.
fn bind_all(
    alloc: Global,
    setting: Setting,
    stages: &[Stage],
    settled: Settled,
) -> Result<Bound, OutOfMemory>
    ensures { AreLate setting.entry.rows.now stages.now → confirmed.IsProgramOf setting.entry.rows.now setting.entry.places.now setting.entry.scopes.now → IfOk result (λ bound. confirmed.IsBindingOf setting.entry.rows.now setting.entry.places.now bound) }
{
    let ranks = settled.ranks.to_vec(alloc)?;
    let bound = bind_rest(alloc, setting, stages, settled)?;
    if is_binding_of(alloc, setting, &bound, &ranks)? {
        Ok(bound)
    } else {
        Err(OutOfMemory)
    }
}

// The first type on a cycle of headers, where some type is not settled.
fn cycle_of<'a>(
    alloc: Global,
    setting: Setting<'a>,
    settled: &'a Settled,
) -> Result<u32, OutOfMemory>
    ensures { confirmed.IsProgramOf setting.entry.rows.now setting.entry.places.now setting.entry.scopes.now → IfOk result (λ first. IsFirstOnCycle setting.entry.rows.now first) }
{
    first_on_cycle(alloc, setting, &settled.table, &settled.ranks)
}

/// What the occurrences of a program refer to: headers first, then imports, types, other names and calls. Of the rows of a program the table is a binding (`IsBinding`):
/// each row refers to what lookup gives there under the table itself, and all types are settled; and the other tables are those under it. Where headers lead back to their own type
/// (JLS 8.1.4, 9.1.3) the answer is the first type on such a cycle (`IsFirstOnCycle`), and there is no binding. Rows that cannot be counted, have not one bare Object, or have
/// packages without a name are answered by want of memory. So is a table whose names of types, or their order, lookup does not confirm, and a table of headers with types left open
/// that it does not confirm (`first_on_cycle`): that neither comes is not proved, and neither was ever seen.
pub fn bind(
    alloc: Global,
    rows: &[Row],
    places: &Places,
    scopes: &Scopes,
) -> Result<Binding, OutOfMemory>
    ensures { confirmed.IsProgramOf rows.now places.now scopes.now → IfOk result (λ binding. confirmed.IsFoundBinding rows.now places.now binding) }
{
    let setting = Setting {
        rows,
        places,
        scopes,
    };
    let stages = stages_of(alloc, rows)?;
    let mut settled = Settled::new(alloc, setting)?;
    let is_settled = settle(alloc, setting, &mut settled)?;
    if !is_settled {
        let first = cycle_of(alloc, setting, &settled)?;
        return Ok(Binding::Cycle(first));
    }
    let bound = boxed(alloc, bind_all(alloc, setting, &stages, settled))?;
    Ok(Binding::Bound(bound))
}
