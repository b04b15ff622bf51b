// What is found out once for all rows, each from what is known of the rows before it.

ghost use Rattle.std.specs.Prelude.{◌≡◌, IfOk, codes, is_some, length, option_and_then};
ghost use Rattle.jr_tree.specs.Rows as all_rows;
ghost use Rattle.jr_plain.specs.Declarations.{is_prelude};
ghost use Rattle.jr_plain.specs.Typing as typing;
ghost use Rattle.jr_supers.specs.Tabled.{IsSized};
ghost use Rattle.jr_rules.specs.PlaceTests as places;
ghost use Rattle.jr_type_facts.specs.Views.{rows_in, table_in, types_in, constants_in, IsSeenView};
ghost use Rattle.jr_type_facts.specs.Cases.{AreRepeated};
ghost use Rattle.jr_type_facts.specs.Rounds.{HaveOneCall, AreRoundsOf};
ghost use Rattle.jr_type_facts.specs.Tables as tell;

use crate::facts::{is_variable, type_of};
use crate::labels::is_call_of_constructor;
use crate::repeated::repeated_of;
use crate::rounds::rounds_of;
use jr_base::OutOfMemory;
use jr_defs::RowType;
use jr_places::{is_body_of, is_type, name_at, parent_at};
use jr_tree::{Label, Row};
use jr_view::View;
use std::alloc::Global;

/// Tables with an item for each row.
#[derive(Drop)]
pub struct Tables {
    members: Vec<Option<u32>>,
    calls: Vec<bool>,
    initializers: Vec<Option<RowType>>,
    rounds: Vec<Option<u32>>,
    repeated: Vec<bool>,
    pub throwable: Option<u32>,
}

// What a table of marks has for a row.
fn is_marked(all: &[bool], at: u32) -> bool
    ensures { result ≡ tell.is_marked all.now at }
{
    match all.get(at as usize) {
        Some(mark) => *mark,
        None => false,
    }
}

// The member of the innermost type that holds a row, by those of the rows before it.
fn member_round(rows: &[Row], known: &[Option<u32>], at: u32) -> Option<u32>
    ensures { result ≡ tell.member_by rows.now known.now at }
{
    let over = parent_at(rows, at);
    if is_body_of(rows, parent_at(rows, over), over) {
        return Some(at);
    }
    match known.get(over as usize) {
        Some(member) => *member,
        None => None,
    }
}

fn members_of(alloc: Global, rows: &[Row], count: u32) -> Result<Vec<Option<u32>>, OutOfMemory>
    ensures { IfOk result (λ all. all.items ≡ tell.grown (tell.member_by rows.now) count) }
{
    let mut all = Vec::new(alloc);
    for at in 0..count {
        let member = member_round(rows, &all, at);
        all.push(member)?;
    }
    Ok(all)
}

// The row stands in a call of a constructor, by the rows before it.
fn is_in_call(rows: &[Row], known: &[bool], at: u32) -> bool
    ensures { result ≡ tell.call_by rows.now known.now at }
{
    let over = parent_at(rows, at);
    is_call_of_constructor(rows, over) || is_marked(known, over)
}

// The rows that stand in a call of a constructor.
fn calls_of(alloc: Global, rows: &[Row], count: u32) -> Result<Vec<bool>, OutOfMemory>
    ensures { IfOk result (λ all. all.items ≡ tell.grown (tell.call_by rows.now) count) }
{
    let mut all = Vec::new(alloc);
    for at in 0..count {
        let inside = is_in_call(rows, &all, at);
        all.push(inside)?;
    }
    Ok(all)
}

// The type of the items of an array type.
#[tactic(auto, using(jr_types::proofs::Operands::item_none, jr_types::proofs::Operands::item_some))]
fn item_of(array: RowType) -> Option<RowType>
    ensures { result ≡ typing.item_type array }
{
    if array.dims == 0 {
        return None;
    }
    Some(RowType {
        element: array.element,
        dims: array.dims - 1,
    })
}

fn item_type(array: Option<RowType>) -> Option<RowType>
    ensures { result ≡ option_and_then typing.item_type array }
{
    match array {
        Some(ty) => item_of(ty),
        None => None,
    }
}

// The type of a variable at a row.
fn variable_type(view: &View, at: u32) -> Option<RowType>
    ensures { IsSized (rows_in view.now) → result ≡ tell.variable_at (rows_in view.now) (table_in view.now) at }
{
    let under = &view.sight.world.under;
    if is_variable(under.rows, at) {
        under.type_of_declared(at)
    } else {
        None
    }
}

// The type of what a row of this label holds as an initializer, where that of a list is known.
fn held_by_label(view: &View, over: u32, of_list: Option<RowType>, label: &Label) -> Option<RowType>
    ensures { IsSized (rows_in view.now) → result ≡ places.held_by (rows_in view.now) (table_in view.now) (types_in view.now) over of_list label.now }
{
    match label {
        Label::List => item_type(of_list),
        Label::NewArray { .. } => type_of(view, over),
        _ => variable_type(view, over),
    }
}

// The type of what a row holds as an initializer, where that of a list is known.
fn held_by(view: &View, over: u32, of_list: Option<RowType>) -> Option<RowType>
    ensures { IsSized (rows_in view.now) → result ≡ places.held_by (rows_in view.now) (table_in view.now) (types_in view.now) over of_list (all_rows.label (rows_in view.now) over) }
{
    let rows = view.sight.world.under.rows;
    match rows.get(over as usize) {
        Some(row) => held_by_label(view, over, of_list, &row.label),
        None => None,
    }
}

// What a table of types has for a row.
fn type_in(types: &[Option<RowType>], at: u32) -> Option<RowType>
    ensures { result ≡ tell.item types.now at }
{
    match types.get(at as usize) {
        Some(ty) => *ty,
        None => None,
    }
}

// The type that a row stands for as an initializer, by those of the rows before it.
fn initializer_by(view: &View, known: &[Option<RowType>], at: u32) -> Option<RowType>
    ensures { IsSized (rows_in view.now) → result ≡ tell.initializer_by (rows_in view.now) (table_in view.now) (types_in view.now) known.now at }
{
    let over = parent_at(view.sight.world.under.rows, at);
    held_by(view, over, type_in(known, over))
}

fn initializers_of(
    alloc: Global,
    view: &View,
    count: u32,
) -> Result<Vec<Option<RowType>>, OutOfMemory>
    ensures { IsSized (rows_in view.now) → IfOk result (λ all. all.items ≡ tell.grown (tell.initializer_by (rows_in view.now) (table_in view.now) (types_in view.now)) count) }
{
    let mut all = Vec::new(alloc);
    for at in 0..count {
        let ty = initializer_by(view, &all, at);
        all.push(ty)?;
    }
    Ok(all)
}

fn is_of_prelude(all: &[Row], at: u32, name: &[u8]) -> bool
    ensures { result ≡ is_prelude all.now name.now at }
{
    is_type(all, at) && parent_at(all, at) == 1 && name_at(all, at) == name
}

// The class Throwable of the prelude, which its first unit declares.
fn is_prelude_throwable(rows: &[Row], at: u32) -> bool
    ensures { result ≡ is_prelude rows.now (codes "Throwable") at }
{
    is_of_prelude(rows, at, b"Throwable")
}

// The class Throwable, if there is one.
fn find_throwable(rows: &[Row], count: u32) -> Option<u32>
    ensures { count ≡ length rows.now → result ≡ tell.throwable_row rows.now }
{
    for at in 0..count {
        if is_prelude_throwable(rows, at) {
            return Some(at);
        }
    }
    None
}

impl Tables {
    /// The tables of a bound program.
    pub fn of(alloc: Global, view: View) -> Result<Tables, OutOfMemory>
        ensures right { IsSeenView view.entry → IfOk result (λ tables. tell.AreTables (rows_in view.entry) (table_in view.entry) (types_in view.entry) tables) }
        ensures repeated { IsSeenView view.entry → IfOk result (λ tables. AreRepeated (rows_in view.entry) (constants_in view.entry) (types_in view.entry) tables.repeated.items) }
        ensures rounds { HaveOneCall (rows_in view.entry) → IfOk result (λ tables. AreRoundsOf (rows_in view.entry) (table_in view.entry) tables.rounds.items) }
    {
        let rows = view.sight.world.under.rows;
        let Ok(count) = u32::try_from(rows.len()) else {
            return Err(OutOfMemory);
        };
        let members = members_of(alloc, rows, count)?;
        let calls = calls_of(alloc, rows, count)?;
        let initializers = initializers_of(alloc, &view, count)?;
        let rounds = rounds_of(alloc, view.sight.world.under, count)?;
        let repeated = repeated_of(alloc, &view, count)?;
        Ok(Tables {
            members,
            calls,
            initializers,
            rounds,
            repeated,
            throwable: find_throwable(rows, count),
        })
    }

    /// The member of the innermost type that holds a row.
    pub fn member(&self, at: u32) -> Option<u32>
        ensures { result ≡ tell.item self.now.members.items at }
    {
        match self.members.get(at as usize) {
            Some(member) => *member,
            None => None,
        }
    }

    /// The row stands in a call of a constructor.
    pub fn is_in_constructor_call(&self, at: u32) -> bool
        ensures { result ≡ tell.is_marked self.now.calls.items at }
    {
        is_marked(&self.calls, at)
    }

    /// The type that a row stands for as an initializer.
    pub fn initializer_type(&self, at: u32) -> Option<RowType>
        ensures { result ≡ tell.item self.now.initializers.items at }
    {
        match self.initializers.get(at as usize) {
            Some(ty) => *ty,
            None => None,
        }
    }

    /// The row is a constructor that comes back to itself by `this(..)`.
    pub fn calls_itself_round(&self, at: u32) -> bool
        ensures { result ≡ is_some (tell.item self.now.rounds.items at) }
    {
        match self.rounds.get(at as usize) {
            Some(round) => round.is_some(),
            None => false,
        }
    }

    /// The row is a label of a switch that has the same one before it.
    pub fn is_repeated(&self, at: u32) -> bool
        ensures { result ≡ tell.is_marked self.now.repeated.items at }
    {
        is_marked(&self.repeated, at)
    }
}
