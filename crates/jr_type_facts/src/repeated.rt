// Labels of switches that are repeated (JLS 14.11).
ghost use Rattle.std.specs.Prelude.{◌≡◌, ◌+◌, ◌<◌, ◌^◌, ◌||◌, ℕ, List, IfOk, OnOk, Some, is_some, length, option_and_then};
ghost use Rattle.jr_tree.specs.Rows.{Rows};
ghost use Rattle.jr_tree.specs.Tree.{IsTree};
ghost use Rattle.jr_defs.specs.Operators as operators;
ghost use Rattle.jr_plain.specs.Conversions.{Constants, of_two};
ghost use Rattle.jr_plain.specs.Overloads.{Types};
ghost use Rattle.jr_constants.specs.Values.{value_in, value_in_if};
ghost use Rattle.jr_rules.specs.Statements as statements;
ghost use Rattle.jr_rules.specs.StatementTests as labels;
ghost use Rattle.jr_type_facts.specs.Views.{rows_in, types_in, constants_in, IsSeenView};
ghost use Rattle.jr_type_facts.specs.Cases as tell;

use crate::facts::first;
use crate::labels::{is_case, is_default};
use jr_base::OutOfMemory;
use jr_constants::{Value, as_long, assigned_to};
use jr_defs::Element;
use jr_places::{Stamps, parent_at};
use jr_tree::Row;
use jr_types::plain_of;
use jr_view::View;
use std::alloc::Global;
use std::collections::HashMap;

/// The switch of a label, which stands below a group, and that below the switch.
pub fn switch_of(rows: &[Row], at: u32) -> u32
    ensures { result ≡ statements.switch_of rows.now at }
{
    parent_at(rows, parent_at(rows, at))
}

// The type of the switch at a row, if it is plain.
fn element_of(view: &View, at: u32) -> Option<Element>
    ensures { length (rows_in view.now) < 2 ^ 32 → result ≡ tell.element_of (rows_in view.now) (types_in view.now) at }
{
    match first(view, at) {
        Some(ty) => plain_of(ty),
        None => None,
    }
}

fn bit(is: bool) -> i64
    ensures { result ≡ tell.bit is }
{
    if is { 1 } else { 0 }
}

// Values of one type by numbers.
fn number_of(value: Value) -> Option<i64>
    ensures { result ≡ tell.number_in value }
{
    match value {
        Value::Bool(is) => Some(bit(is)),
        _ => as_long(value),
    }
}

// The number of a value, as one of a type.
fn assigned_number(element: Element, value: Value) -> Option<i64>
    ensures { (texts : List (List ℕ)) → result ≡ option_and_then tell.number_of (operators.assigned_to element (value_in texts value)) }
{
    match assigned_to(element, value) {
        Some(assigned) => number_of(assigned),
        None => None,
    }
}

fn value_number(element: Element, value: Option<Value>) -> Option<i64>
    ensures { (texts : List (List ℕ)) → result ≡ option_and_then tell.number_of (of_two operators.assigned_to (Some element) (value_in_if texts value)) }
{
    match value {
        Some(known) => assigned_number(element, known),
        None => None,
    }
}

// The number of the constant at a row, as one of a type.
fn typed_number(view: &View, element: Option<Element>, at: u32) -> Option<i64>
    ensures { result ≡ option_and_then tell.number_of (of_two operators.assigned_to element (constants_in view.now at)) }
{
    match element {
        Some(plain) => value_number(plain, view.constants.value(at)),
        None => None,
    }
}

// The number of the label at a row, as one of the type of its switch.
fn label_number(view: &View, at: u32) -> Option<i64>
    ensures { length (rows_in view.now) < 2 ^ 32 → at + 1 < 2 ^ 32 → result ≡ tell.label_number (rows_in view.now) (constants_in view.now) (types_in view.now) at }
{
    let switch = switch_of(view.sight.world.under.rows, at);
    match at.checked_add(1) {
        Some(next) => typed_number(view, element_of(view, switch), next),
        None => None,
    }
}

// The same, of a label `case`.
fn case_number(view: &View, at: u32) -> Option<i64>
    ensures { length (rows_in view.now) < 2 ^ 32 → at + 1 < 2 ^ 32 → result ≡ tell.case_number (rows_in view.now) (constants_in view.now) (types_in view.now) at }
{
    if is_case(view.sight.world.under.rows, at) {
        label_number(view, at)
    } else {
        None
    }
}

fn is_either(one: bool, other: bool) -> bool
    ensures { result ≡ (one || other) }
{
    one || other
}

// The labels that were met: values under their switches, and switches that have a default.
#[derive(Drop)]
struct Met {
    values: HashMap<(u32, i64), u32>,
    defaults: Stamps,
}

impl Met {
    // The number was met before in the switch; now it is.
    fn meet_number(&mut self, over: u32, number: i64, at: u32) -> Result<bool, OutOfMemory>
        ensures met { OnOk result (tell.PutsNumber over number at self.old self.new) }
        ensures told { IfOk result (λ is_met. is_met ≡ tell.was_number self.old over number) }
    {
        let earlier = self.values.insert((over, number), at)?;
        Ok(earlier.is_some())
    }

    // The value of a label `case` was met before in its switch; now it is.
    fn meet_value(&mut self, view: &View, at: u32) -> Result<bool, OutOfMemory>
        ensures met { length (rows_in view.now) < 2 ^ 32 → at + 1 < 2 ^ 32 → tell.HasMet (rows_in view.now) (constants_in view.now) (types_in view.now) at at self.old → OnOk result (tell.HasMet (rows_in view.now) (constants_in view.now) (types_in view.now) (at + 1) at self.new) }
        ensures told { length (rows_in view.now) < 2 ^ 32 → at + 1 < 2 ^ 32 → tell.HasMet (rows_in view.now) (constants_in view.now) (types_in view.now) at at self.old → IfOk result (λ is_met. is_met ≡ labels.is_repeated (rows_in view.now) (constants_in view.now) (types_in view.now) at) }
    {
        let Some(number) = case_number(view, at) else {
            return Ok(false);
        };
        let over = switch_of(view.sight.world.under.rows, at);
        let is_met = self.meet_number(over, number, at)?;
        Ok(is_met)
    }

    // A label `default` was met before in its switch; now it is.
    fn meet_default(&mut self, rows: &[Row], at: u32) -> bool
        ensures met { (constant : Constants) (types : Types) (n : ℕ) → IsTree rows.now → at < length rows.now → tell.HasMet rows.now constant types n at self.old → tell.HasMet rows.now constant types n (at + 1) self.new }
        ensures told { (constant : Constants) (types : Types) (n : ℕ) → IsTree rows.now → at < length rows.now → tell.HasMet rows.now constant types n at self.old → result ≡ labels.is_second_default rows.now at }
    {
        if !is_default(rows, at) {
            return false;
        }
        let over = switch_of(rows, at);
        !self.defaults.add(over)
    }

    // The label at a row was met before in its switch; now it is.
    fn meet(&mut self, view: &View, at: u32) -> Result<bool, OutOfMemory>
        ensures met { IsSeenView view.now → at < length (rows_in view.now) → tell.HasMet (rows_in view.now) (constants_in view.now) (types_in view.now) at at self.old → OnOk result (tell.HasMet (rows_in view.now) (constants_in view.now) (types_in view.now) (at + 1) (at + 1) self.new) }
        ensures told { IsSeenView view.now → at < length (rows_in view.now) → tell.HasMet (rows_in view.now) (constants_in view.now) (types_in view.now) at at self.old → IfOk result (λ is_met. is_met ≡ tell.is_met (rows_in view.now) (constants_in view.now) (types_in view.now) at) }
    {
        let is_value_met = self.meet_value(view, at)?;
        let is_default_met = self.meet_default(view.sight.world.under.rows, at);
        Ok(is_either(is_value_met, is_default_met))
    }
}

/// The labels of switches that have the same one before them.
pub fn repeated_of(alloc: Global, view: &View, count: u32) -> Result<Vec<bool>, OutOfMemory>
    ensures { IsSeenView view.now → count ≡ length (rows_in view.now) → IfOk result (λ all. tell.AreRepeated (rows_in view.now) (constants_in view.now) (types_in view.now) all.items) }
{
    let mut met = Met {
        values: HashMap::new(alloc),
        defaults: Stamps::new(alloc, view.sight.world.under.rows.len())?,
    };
    let mut all = Vec::new(alloc);
    for at in 0..count {
        let is_met = met.meet(view, at)?;
        all.push(is_met)?;
    }
    Ok(all)
}
