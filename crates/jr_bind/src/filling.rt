// Rows that are looked up under a table that grows, with the types of those behind them.

ghost use Rattle.std.specs.Prelude.{◌≡◌, ◌+◌, ◌<◌, ◌^◌, ℕ, length, None, Some, Decides, IfOk, OnOk, replicate, slice_get, slice_set, slice_index_or};
ghost use Rattle.jr_tree.specs.Rows.{label};
ghost use Rattle.jr_tree.specs.Tree.{IsTree};
ghost use Rattle.jr_defs.specs.Formed.{IsFormed};
ghost use Rattle.jr_defs.specs.declared.referent.Referent.TheVariants.{Unbound};
ghost use Rattle.jr_defs.specs.Referents.{Table, entries};
ghost use Rattle.jr_plain.specs.Conversions as values;
ghost use Rattle.jr_plain.specs.Typing as plain;
ghost use Rattle.jr_supers.specs.Tabled.{IsSized};
ghost use Rattle.jr_types.specs.Typed.{CanType, AreTypes, types_in};
ghost use Rattle.jr_bind.specs.Filled as filled;
ghost use Rattle.jr_bind.specs.Filled.{IsReady, KeepsRest, FillsRow, FillsRows};
ghost use Rattle.jr_bind.specs.Exact as exact;
ghost use Rattle.jr_bind.specs.Looked as looked;
ghost use Rattle.jr_bind.specs.Turns as turns;

use crate::boxes::constants_of;
use crate::confirming::referent_at;
use crate::dotted::look_at;
use crate::headers::Setting;
use crate::stages::Stage;
use jr_base::OutOfMemory;
use jr_constants::{Constants, Value, constant_forms};
use jr_defs::{Referent, RowType};
use jr_lookup::{Imports, Sight};
use jr_members::{Members, World};
use jr_supers::{Supers, Tabled};
use jr_tree::Row;
use jr_types::{Typing, find_string, set_types};
use std::alloc::Global;

/// What rows refer to and the types of expressions, as far as they are known.
#[derive(Drop)]
pub struct Filling {
    pub table: Vec<Referent>,
    pub types: Vec<Option<RowType>>,
    ints: Vec<Option<i32>>,
    string: Option<u32>,
}

/// What stays the same while rows are looked up.
#[derive(Clone, Copy)]
pub struct Known<'a> {
    pub setting: Setting<'a>,
    pub supers: &'a Supers,
    pub members: &'a Members,
    pub imports: &'a Imports,
}

// The number of a row that has the value of an int.
fn int_of(constants: &Constants, at: u32) -> Option<i32>
    ensures { result ≡ filled.int_at constants.now at }
{
    match constants.value(at) {
        Some(Value::Int(number)) => Some(number),
        _ => None,
    }
}

// Puts one int in its place.
fn put_int(ints: &mut [Option<i32>], at: u32, int: Option<i32>)
    requires { at < length ints.old }
    ensures { ints.new ≡ slice_set ints.old at int }
{
    ints[at as usize] = int;
}

// The constant ints, of which the types of conditional expressions are made.
fn set_ints(ints: &mut [Option<i32>], constants: &Constants)
    ensures size { length ints.new ≡ length ints.old }
    ensures each { length ints.old < 2 ^ 32 → length ints.old ≡ length constants.now.values.items → (k : ℕ) → slice_index_or ints.new k None ≡ filled.int_at constants.now k }
{
    let Ok(count) = u32::try_from(ints.len()) else {
        return;
    };
    for at in 0..count {
        put_int(ints, at, int_of(constants, at));
    }
}

// Puts what a row refers to in its place, if there is one.
fn put_referent(table: &mut Vec<Referent>, at: u32, referent: Referent)
    ensures { table.new.items ≡ slice_set table.old.items at referent }
{
    if (at as usize) < table.len() {
        table[at as usize] = referent;
    }
}

// Puts the type of a row in its place, if there is one.
fn put_type(types: &mut Vec<Option<RowType>>, at: u32, ty: Option<RowType>)
    ensures { types.new.items ≡ slice_set types.old.items at ty }
{
    if (at as usize) < types.len() {
        types[at as usize] = ty;
    }
}

fn is_same(one: Stage, other: Stage) -> bool
    ensures { Decides result (one ≡ other) }
{
    one == other
}

// The row is of the stage.
fn is_of(stages: &[Stage], stage: Stage, at: u32) -> bool
    ensures { Decides result (slice_get stages.now at ≡ Some stage) }
{
    match stages.get(at as usize) {
        Some(found) => is_same(*found, stage),
        None => false,
    }
}

// The values of constants under a table, with the references that have the form of one.
fn constants_by_form(alloc: Global, under: Tabled) -> Result<Box<Constants>, OutOfMemory>
    ensures { IsSized under.entry.rows.now → IsTree under.entry.rows.now → IfOk result (λ found. exact.AreFormed under.entry.rows.now (entries under.entry.table.now) found.value) }
{
    let forms = constant_forms(alloc, under)?;
    constants_of(alloc, under, &forms)
}

// No types yet.
fn no_types(alloc: Global, rows: &[Row]) -> Result<Vec<Option<RowType>>, OutOfMemory>
    ensures { IfOk result (λ all. all.items ≡ replicate (length rows.now) None) }
{
    Ok(vec![in alloc; None; rows.len()]?)
}

// No ints yet.
fn no_ints(alloc: Global, rows: &[Row]) -> Result<Vec<Option<i32>>, OutOfMemory>
    ensures { IfOk result (λ all. all.items ≡ replicate (length rows.now) None) }
{
    Ok(vec![in alloc; None; rows.len()]?)
}

// Nothing yet, in a place for each row.
fn no_referents(alloc: Global, stages: &[Stage]) -> Result<Vec<Referent>, OutOfMemory>
    ensures { IfOk result (λ all. all.items ≡ replicate (length stages.now) Unbound) }
{
    Ok(vec![in alloc; Referent::Unbound; stages.len()]?)
}

// One row as the table has it, if it is the name of a type in a header.
fn keep_header(kept: &mut Vec<Referent>, stages: &[Stage], table: &[Referent], at: u32)
    ensures { filled.HoldsHeaders stages.now table.now kept.old.items at → filled.HoldsHeaders stages.now table.now kept.new.items (at + 1) }
{
    if !is_of(stages, Stage::Header, at) {
        return;
    }
    put_referent(kept, at, referent_at(table, at));
}

/// The names of types in headers as the table has them, and nothing else.
pub fn headers_of(
    alloc: Global,
    stages: &[Stage],
    table: &[Referent],
) -> Result<Vec<Referent>, OutOfMemory>
    ensures { IfOk result (λ kept. filled.HoldsHeaders stages.now table.now kept.items (length stages.now)) }
{
    let Ok(count) = u32::try_from(stages.len()) else {
        return Err(OutOfMemory);
    };
    let mut kept = no_referents(alloc, stages)?;
    for at in 0..count {
        keep_header(&mut kept, stages, table, at);
    }
    Ok(kept)
}

impl Filling {
    /// The table as it is given, and no types yet.
    pub fn new(alloc: Global, rows: &[Row], table: Vec<Referent>) -> Result<Filling, OutOfMemory>
        ensures ready { IfOk result (λ filling. IsReady rows.now filling) }
        ensures same { IfOk result (λ filling. filling.table ≡ table) }
    {
        let types = no_types(alloc, rows)?;
        let ints = no_ints(alloc, rows)?;
        Ok(Filling {
            table,
            types,
            ints,
            string: find_string(rows),
        })
    }

    /// The rows under the table.
    pub fn under<'a>(&'a self, known: Known<'a>) -> Tabled<'a> {
        Tabled {
            rows: known.setting.rows,
            places: known.setting.places,
            table: &self.table,
        }
    }

    // What a row refers to under the table, with the types of the rows behind it.
    fn look(&self, alloc: Global, known: Known, at: u32) -> Result<Referent, OutOfMemory>
        ensures { turns.IsKnownUnder (filled.table_of self.now) known.entry → at < length known.entry.setting.rows.now → looked.AreTypedIfNeeded known.entry.setting.rows.now (filled.table_of self.now) self.now.types.items at → IfOk result (looked.IsLookedUp known.entry.setting.rows.now (filled.table_of self.now) at) }
    {
        let world = World {
            under: Tabled {
                rows: known.setting.rows,
                places: known.setting.places,
                table: &self.table,
            },
            supers: known.supers,
            members: known.members,
        };
        let sight = Sight {
            world,
            scopes: known.setting.scopes,
            imports: known.imports,
        };
        look_at(alloc, sight, &self.types, at)
    }

    // The type of a row, where those of its parts are known.
    fn type_of(&self, known: Known, at: u32) -> Option<RowType>
        ensures { (constant : values.Constants) → CanType constant known.entry.setting.rows.now (filled.table_of self.now) known.entry.setting.places.now known.entry.supers.now self.now.ints.items self.now.string → result ≡ plain.typed_by known.entry.setting.rows.now (filled.table_of self.now) constant (types_in self.now.types.items) at (label known.entry.setting.rows.now at) }
    {
        let world = World {
            under: Tabled {
                rows: known.setting.rows,
                places: known.setting.places,
                table: &self.table,
            },
            supers: known.supers,
            members: known.members,
        };
        let typing = Typing {
            world,
            types: &self.types,
            ints: &self.ints,
            string: self.string,
        };
        typing.type_of(at)
    }

    // Sets the type of a row, where those of its parts are known.
    fn set_type(&mut self, known: Known, at: u32)
        ensures typed { (constant : values.Constants) → CanType constant known.entry.setting.rows.now (filled.table_of self.old) known.entry.setting.places.now known.entry.supers.now self.old.ints.items self.old.string → self.new.types.items ≡ slice_set self.old.types.items at (plain.typed_by known.entry.setting.rows.now (filled.table_of self.old) constant (types_in self.old.types.items) at (label known.entry.setting.rows.now at)) }
        ensures rest { KeepsRest self.old self.new }
        ensures table { self.new.table ≡ self.old.table }
    {
        let ty = self.type_of(known, at);
        put_type(&mut self.types, at, ty);
    }

    /// The values of constants under the table, whose ints the types of expressions read from here on.
    pub fn find_constants(
        &mut self,
        alloc: Global,
        known: Known,
    ) -> Result<Box<Constants>, OutOfMemory>
        ensures table { self.new.table ≡ self.old.table }
        ensures types { self.new.types ≡ self.old.types }
        ensures string { self.new.string ≡ self.old.string }
        ensures size { length self.new.ints.items ≡ length self.old.ints.items }
        ensures found { IsSized known.entry.setting.rows.now → IsTree known.entry.setting.rows.now → IfOk result (λ found. exact.AreFormed known.entry.setting.rows.now (filled.table_of self.old) found.value) }
        ensures ints { IsSized known.entry.setting.rows.now → IsTree known.entry.setting.rows.now → length self.old.ints.items ≡ length known.entry.setting.rows.now → IfOk result (λ found. (k : ℕ) → slice_index_or self.new.ints.items k None ≡ filled.int_at found.value k) }
    {
        let under = Tabled {
            rows: known.setting.rows,
            places: known.setting.places,
            table: &self.table,
        };
        let constants = constants_by_form(alloc, under)?;
        set_ints(&mut self.ints, &constants);
        Ok(constants)
    }

    // One row, if it is of the stage.
    fn fill_row(
        &mut self,
        alloc: Global,
        known: Known,
        stages: &[Stage],
        stage: Stage,
        at: u32,
    ) -> Result<(), OutOfMemory>
        ensures fills { OnOk result (FillsRow stages.now stage at self.old self.new) }
        ensures looked { slice_get stages.now at ≡ Some stage → turns.IsKnownUnder (filled.table_of self.old) known.entry → at < length known.entry.setting.rows.now → length self.old.table.items ≡ length known.entry.setting.rows.now → looked.AreTypedIfNeeded known.entry.setting.rows.now (filled.table_of self.old) self.old.types.items at → OnOk result (looked.IsLookedUp known.entry.setting.rows.now (filled.table_of self.old) at (filled.table_of self.new at)) }
    {
        if !is_of(stages, stage, at) {
            return Ok(());
        }
        let found = self.look(alloc, known, at)?;
        put_referent(&mut self.table, at, found);
        Ok(())
    }

    /// The rows of a stage that looks up types.
    pub fn fill(
        &mut self,
        alloc: Global,
        known: Known,
        stages: &[Stage],
        stage: Stage,
    ) -> Result<(), OutOfMemory>
        ensures { OnOk result (FillsRows stages.now stage self.old self.new) }
    {
        let Ok(count) = u32::try_from(stages.len()) else {
            return Err(OutOfMemory);
        };
        for at in (0..count).rev() {
            self.fill_row(alloc, known, stages, stage, at)?;
        }
        Ok(())
    }

    /// The rows of a stage that looks up by the types of what is behind them.
    pub fn fill_typed(
        &mut self,
        alloc: Global,
        known: Known,
        stages: &[Stage],
        stage: Stage,
    ) -> Result<(), OutOfMemory>
        ensures rows { OnOk result (FillsRows stages.now stage self.old self.new) }
        ensures types { (constant : values.Constants) → IsFormed known.entry.setting.rows.now → filled.SeeksNoType known.entry.setting.rows.now stages.now stage → length stages.now ≡ length known.entry.setting.rows.now → CanType constant known.entry.setting.rows.now (filled.table_of self.old) known.entry.setting.places.now known.entry.supers.now self.old.ints.items self.old.string → length self.old.types.items ≡ length known.entry.setting.rows.now → OnOk result (AreTypes known.entry.setting.rows.now (filled.table_of self.new) constant self.new.types.items) }
        ensures looked { (constant : values.Constants) → turns.CanFill known.entry stages.now stage constant self.old → OnOk result (looked.AreFilledFrom known.entry.setting.rows.now stages.now stage (filled.table_of self.old) (filled.table_of self.new) 0) }
    {
        let Ok(count) = u32::try_from(stages.len()) else {
            return Err(OutOfMemory);
        };
        for at in (0..count).rev() {
            self.fill_row(alloc, known, stages, stage, at)?;
            self.set_type(known, at);
        }
        Ok(())
    }

    /// The types of all expressions under the table.
    pub fn find_types(&mut self, known: Known) -> Result<(), OutOfMemory>
        ensures table { self.new.table ≡ self.old.table }
        ensures ints { self.new.ints ≡ self.old.ints }
        ensures string { self.new.string ≡ self.old.string }
        ensures size { length self.new.types.items ≡ length self.old.types.items }
        ensures types { (constant : values.Constants) → CanType constant known.entry.setting.rows.now (entries self.old.table.items) known.entry.setting.places.now known.entry.supers.now self.old.ints.items self.old.string → length self.old.types.items ≡ length known.entry.setting.rows.now → AreTypes known.entry.setting.rows.now (entries self.old.table.items) constant self.new.types.items }
    {
        if u32::try_from(known.setting.rows.len()).is_err() {
            return Err(OutOfMemory);
        }
        let world = World {
            under: Tabled {
                rows: known.setting.rows,
                places: known.setting.places,
                table: &self.table,
            },
            supers: known.supers,
            members: known.members,
        };
        set_types(world, &self.ints, self.string, &mut self.types);
        Ok(())
    }
}
