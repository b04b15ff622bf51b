// Constant variables and constant expressions (JLS 4.12.4, 15.28).

ghost use Rattle.std.specs.Prelude.{◌≡◌, ◌+◌, ◌<◌, ◌^◌, if◌then◌else◌, true, false, Some, None, ℕ, Bool, length, replicate, slice_get, slice_set, slice_index_or, IfSome, IfOk, OnOk};
ghost use Rattle.jr_tree.specs.Rows.{label};
ghost use Rattle.jr_tree.specs.Tree.{IsTree};
ghost use Rattle.jr_base.specs.declared.constant.Const.{Const};
ghost use Rattle.jr_defs.specs.Constants.{Constant};
ghost use Rattle.jr_defs.specs.Operators as defined;
ghost use Rattle.jr_defs.specs.Referents.{Table, entries};
ghost use Rattle.jr_plain.specs.Declarations as declared;
ghost use Rattle.jr_plain.specs.Constants as plain;
ghost use Rattle.jr_plain.specs.Conversions.{of_two};
ghost use Rattle.jr_plain.specs.Types.{type_of_declared};
ghost use Rattle.jr_plain.specs.Typing.{IsTypable};
ghost use Rattle.jr_supers.specs.Tabled.{IsSized};
ghost use Rattle.jr_constants.specs.Values.{seen_if, text_at};
ghost use Rattle.jr_constants.specs.Tables as tell;
ghost use Rattle.jr_constants.specs.Known.{IsKnown};
ghost use Rattle.jr_constants.specs.Resting as resting;

use crate::row_value::{assigned, item, value_of};
use crate::texts::Texts;
use crate::value::Value;
use jr_base::OutOfMemory;
use jr_places::{end_at, is_final, parent_at, role_at, sought_at};
use jr_supers::Tabled;
use jr_tree::{Label, NameKind, Role, Row, Sought};
use std::alloc::Global;

/// What stands in the way of the value of a variable.
#[derive(Clone, Copy, Debug, PartialEq, Eq)]
enum Progress {
    Untouched,
    /// Its value waits for those of others; one that comes back to it has none.
    Begun,
    Done,
}

/// The values of constant expressions by row, and those of constant variables.
#[derive(Drop)]
pub struct Constants {
    texts: Texts,
    values: Vec<Option<Value>>,
    variables: Vec<Option<Value>>,
}

// How far the variables are, and those that are open.
#[derive(Drop)]
struct Waiting {
    progress: Vec<Progress>,
    open: Vec<u32>,
}

fn is_variable(rows: &[Row], at: u32) -> bool
    ensures { result ≡ declared.is_variable rows.now at }
{
    match role_at(rows, at) {
        Role::Field => true,
        Role::Parameter => true,
        Role::Local => true,
        _ => false,
    }
}

// The row is that of an initializer.
fn is_value(rows: &[Row], at: u32) -> bool
    ensures { result ≡ plain.is_value (label rows.now at) }
{
    match rows.get(at as usize) {
        Some(row) => match row.label {
            Label::Value => true,
            _ => false,
        },
        None => false,
    }
}

// The row of the initializer of a final variable, if that is an expression.
#[tactic(auto, using(crate::proofs::Knowing::initializer_is))]
fn initializer(rows: &[Row], at: u32) -> Option<u32>
    ensures exact { at + 2 < 2 ^ 32 → result ≡ (if plain.is_initialized rows.now at then Some (at + 2) else None) }
    ensures sound { IfSome result (λ expression. tell.IsInitializer rows.now at expression) }
{
    let value = at.checked_add(1)?;
    let expression = at.checked_add(2)?;
    if is_variable(rows, at)
        && is_final(rows, at)
        && parent_at(rows, value) == at
        && is_value(rows, value)
        && parent_at(rows, expression) == value
    {
        Some(expression)
    } else {
        None
    }
}

/// A reference that may be constant by its form: a simple name, or `TypeName.Identifier` (JLS 15.28).
pub fn has_constant_form(under: Tabled, at: u32) -> bool
    ensures { length under.entry.rows.now < 2 ^ 32 → result ≡ plain.has_constant_form under.entry.rows.now (entries under.entry.table.now) at }
{
    match sought_at(under.rows, at) {
        Sought::Simple {
            kind: NameKind::Variable,
        } => true,
        Sought::Qualified {
            kind: NameKind::Variable,
        } => under.named_type(at).is_some(),
        _ => false,
    }
}

fn set_value(all: &mut Vec<Option<Value>>, at: u32, value: Option<Value>)
    ensures { all.new.items ≡ slice_set all.old.items at value }
{
    if (at as usize) < all.len() {
        all[at as usize] = value;
    }
}

// No values.
fn no_values(alloc: Global, rows: &[Row]) -> Result<Vec<Option<Value>>, OutOfMemory>
    ensures { IfOk result (λ all. all.items ≡ replicate (length rows.now) None) }
{
    Ok(vec![in alloc; None; rows.len()]?)
}

// The value of a variable, where that of its initializer is known.
fn variable_value(
    under: Tabled,
    values: &[Option<Value>],
    at: u32,
    expression: u32,
) -> Option<Value>
    ensures { IsSized under.entry.rows.now → seen_if result ≡ of_two (plain.converted_as under.entry.rows.now defined.assigned_to) (type_of_declared under.entry.rows.now (entries under.entry.table.now) at) (seen_if (tell.item values.now expression)) }
{
    assigned(
        under.rows,
        under.type_of_declared(at)?,
        item(values, expression)?,
    )
}

impl Waiting {
    fn new(alloc: Global, rows: &[Row]) -> Result<Waiting, OutOfMemory> {
        Ok(Waiting {
            progress: vec![in alloc; Progress::Untouched; rows.len()]?,
            open: Vec::new(alloc),
        })
    }

    fn progress(&self, at: u32) -> Progress {
        match self.progress.get(at as usize) {
            Some(progress) => *progress,
            None => Progress::Done,
        }
    }

    fn set_progress(&mut self, at: u32, progress: Progress) {
        if let Some(place) = self.progress.get_mut(at as usize) {
            *place = progress;
        }
    }

    // The variable that was opened last is done.
    fn close(&mut self, at: u32) {
        self.set_progress(at, Progress::Done);
        let _ = self.open.pop();
    }

    // Opens the variables that an initializer reads and that were not touched yet.
    fn open_read(
        &mut self,
        under: Tabled,
        constant: &[bool],
        expression: u32,
    ) -> Result<(), OutOfMemory> {
        for at in expression..end_at(under.rows, expression) {
            if let Some(true) = constant.get(at as usize) {
                if let Some(row) = under.declared(at) {
                    if self.progress(row) == Progress::Untouched {
                        self.open.push(row)?;
                    }
                }
            }
        }
        Ok(())
    }
}

impl Constants {
    fn new(alloc: Global, rows: &[Row]) -> Result<Constants, OutOfMemory>
        ensures { (t : Table) (k : ℕ → Bool) → IfOk result (λ constants. tell.AreKnown rows.now t k constants.texts constants.variables.items constants.values.items) }
    {
        let variables = no_values(alloc, rows)?;
        let values = no_values(alloc, rows)?;
        Ok(Constants {
            texts: Texts::new(alloc),
            values,
            variables,
        })
    }

    /// The value of an expression, if it is constant.
    pub fn value(&self, at: u32) -> Option<Value>
        ensures { result ≡ slice_index_or self.now.values.items at None }
    {
        item(&self.values, at)
    }

    /// The value of a variable, if it is constant.
    pub fn variable(&self, at: u32) -> Option<Value>
        ensures { result ≡ slice_index_or self.now.variables.items at None }
    {
        item(&self.variables, at)
    }

    /// The units of a constant string.
    pub fn units(&self, text: u32) -> &[u16]
        ensures { result.now ≡ text_at (slice_get self.now.texts text) }
    {
        self.texts.units(text)
    }

    // The value of a row, where those of its parts are known.
    fn set(
        &mut self,
        alloc: Global,
        under: Tabled,
        constant: &[bool],
        at: u32,
    ) -> Result<(), OutOfMemory>
        ensures known { IsSized under.entry.rows.now → IsKnown under.entry constant.now self.old → OnOk result (IsKnown under.entry constant.now self.new) }
        ensures row { length under.entry.rows.now < 2 ^ 32 → OnOk result (resting.SetsRow under.entry.rows.now (entries under.entry.table.now) (tell.picks constant.now) at self.old self.new) }
    {
        let value = value_of(
            alloc,
            under,
            constant,
            &self.variables,
            &self.values,
            &mut self.texts,
            at,
        )?;
        set_value(&mut self.values, at, value);
        Ok(())
    }

    // The values of the rows of an initializer, where those of the variables that it reads are known.
    fn set_all(
        &mut self,
        alloc: Global,
        under: Tabled,
        constant: &[bool],
        expression: u32,
    ) -> Result<(), OutOfMemory>
        ensures { IsSized under.entry.rows.now → IsKnown under.entry constant.now self.old → OnOk result (IsKnown under.entry constant.now self.new) }
    {
        for part in (expression..end_at(under.rows, expression)).rev() {
            self.set(alloc, under, constant, part)?;
        }
        Ok(())
    }

    // The value of a variable, by that of its initializer.
    fn find(&mut self, under: Tabled, at: u32, expression: u32)
        ensures { (k : ℕ → Bool) → IsSized under.entry.rows.now → tell.IsInitializer under.entry.rows.now at expression → tell.AreKnown under.entry.rows.now (entries under.entry.table.now) k self.old.texts self.old.variables.items self.old.values.items → tell.AreKnown under.entry.rows.now (entries under.entry.table.now) k self.new.texts self.new.variables.items self.new.values.items }
    {
        let found = variable_value(under, &self.values, at, expression);
        set_value(&mut self.variables, at, found);
    }

    // The value of a variable, where those of the variables that it reads are known.
    fn finish(
        &mut self,
        alloc: Global,
        under: Tabled,
        constant: &[bool],
        at: u32,
        expression: u32,
    ) -> Result<(), OutOfMemory>
        ensures { IsSized under.entry.rows.now → tell.IsInitializer under.entry.rows.now at expression → IsKnown under.entry constant.now self.old → OnOk result (IsKnown under.entry constant.now self.new) }
    {
        self.set_all(alloc, under, constant, expression)?;
        self.find(under, at, expression);
        Ok(())
    }

    // The variable that was opened last: those that it reads come first.
    fn step(
        &mut self,
        alloc: Global,
        under: Tabled,
        constant: &[bool],
        waiting: &mut Waiting,
        at: u32,
    ) -> Result<(), OutOfMemory>
        ensures { IsSized under.entry.rows.now → IsKnown under.entry constant.now self.old → OnOk result (IsKnown under.entry constant.now self.new) }
    {
        let Some(expression) = initializer(under.rows, at) else {
            waiting.close(at);
            return Ok(());
        };
        match waiting.progress(at) {
            Progress::Untouched => {
                waiting.set_progress(at, Progress::Begun);
                waiting.open_read(under, constant, expression)?;
                Ok(())
            }
            Progress::Begun => {
                waiting.close(at);
                self.finish(alloc, under, constant, at, expression)
            }
            Progress::Done => {
                waiting.close(at);
                Ok(())
            }
        }
    }

    // The value of a variable, and of those that it reads. Each variable is begun once, and each row of an initializer opens at most one,
    // so where no initializer stands in another the turns suffice. Else they may run out, and what is still open then is found later.
    fn settle(
        &mut self,
        alloc: Global,
        under: Tabled,
        constant: &[bool],
        waiting: &mut Waiting,
        at: u32,
    ) -> Result<(), OutOfMemory>
        ensures { IsSized under.entry.rows.now → IsKnown under.entry constant.now self.old → OnOk result (IsKnown under.entry constant.now self.new) }
    {
        if waiting.progress(at) != Progress::Untouched {
            return Ok(());
        }
        waiting.open.push(at)?;
        for _turn in 0..under.rows.len().saturating_mul(3) {
            let Some(top) = waiting.open.last().copied() else {
                return Ok(());
            };
            self.step(alloc, under, constant, waiting, top)?;
        }
        Ok(())
    }

    // The values of all constant variables.
    fn settle_all(
        &mut self,
        alloc: Global,
        under: Tabled,
        constant: &[bool],
        count: u32,
    ) -> Result<(), OutOfMemory>
        ensures { IsSized under.entry.rows.now → IsKnown under.entry constant.now self.old → OnOk result (IsKnown under.entry constant.now self.new) }
    {
        let mut waiting = Waiting::new(alloc, under.rows)?;
        for at in 0..count {
            if initializer(under.rows, at).is_some() {
                self.settle(alloc, under, constant, &mut waiting, at)?;
            }
        }
        Ok(())
    }

    // The values of all rows, from the last one back, where those of variables are known.
    fn set_rows(
        &mut self,
        alloc: Global,
        under: Tabled,
        constant: &[bool],
        count: u32,
    ) -> Result<(), OutOfMemory>
        ensures known { IsSized under.entry.rows.now → IsKnown under.entry constant.now self.old → OnOk result (IsKnown under.entry constant.now self.new) }
        ensures stable { IsSized under.entry.rows.now → IsTree under.entry.rows.now → count ≡ length under.entry.rows.now → IsKnown under.entry constant.now self.old → OnOk result (resting.IsStable under.entry.rows.now (entries under.entry.table.now) (tell.picks constant.now) self.new) }
    {
        for at in (0..count).rev() {
            self.set(alloc, under, constant, at)?;
        }
        Ok(())
    }

    // A variable has no value, and its initializer has one that makes it one.
    fn lacks(&self, under: Tabled, at: u32, expression: u32) -> bool
        ensures { IsSized under.entry.rows.now → tell.IsInitializer under.entry.rows.now at expression → result ≡ false → resting.IsRestingAt under.entry.rows.now (entries under.entry.table.now) self.now at }
    {
        if self.variable(at).is_some() {
            return false;
        }
        variable_value(under, &self.values, at, expression).is_some()
    }

    // So it is with the row, if it is a variable with an initializer.
    fn lacks_at(&self, under: Tabled, at: u32) -> bool
        ensures { IsSized under.entry.rows.now → result ≡ false → resting.IsRestingAt under.entry.rows.now (entries under.entry.table.now) self.now at }
    {
        match initializer(under.rows, at) {
            Some(expression) => self.lacks(under, at, expression),
            None => false,
        }
    }

    // So it is with no variable.
    fn is_at_rest(&self, under: Tabled, count: u32) -> bool
        ensures { IsSized under.entry.rows.now → count ≡ length under.entry.rows.now → result ≡ true → resting.IsResting under.entry.rows.now (entries under.entry.table.now) self.now }
    {
        for at in 0..count {
            if self.lacks_at(under, at) {
                return false;
            }
        }
        true
    }

    // The value of a variable by its initializer, where it has one.
    fn find_at(&mut self, under: Tabled, at: u32)
        ensures { (k : ℕ → Bool) → IsSized under.entry.rows.now → tell.AreKnown under.entry.rows.now (entries under.entry.table.now) k self.old.texts self.old.variables.items self.old.values.items → tell.AreKnown under.entry.rows.now (entries under.entry.table.now) k self.new.texts self.new.variables.items self.new.values.items }
    {
        match initializer(under.rows, at) {
            Some(expression) => self.find(under, at, expression),
            None => {}
        }
    }

    // The same, where it lacks it.
    fn find_lacking(&mut self, under: Tabled, at: u32)
        ensures { (k : ℕ → Bool) → IsSized under.entry.rows.now → tell.AreKnown under.entry.rows.now (entries under.entry.table.now) k self.old.texts self.old.variables.items self.old.values.items → tell.AreKnown under.entry.rows.now (entries under.entry.table.now) k self.new.texts self.new.variables.items self.new.values.items }
    {
        if !self.lacks_at(under, at) {
            return;
        }
        self.find_at(under, at);
    }

    // The values of variables that lack them.
    fn find_all(&mut self, under: Tabled, count: u32)
        ensures { (k : ℕ → Bool) → IsSized under.entry.rows.now → tell.AreKnown under.entry.rows.now (entries under.entry.table.now) k self.old.texts self.old.variables.items self.old.values.items → tell.AreKnown under.entry.rows.now (entries under.entry.table.now) k self.new.texts self.new.variables.items self.new.values.items }
    {
        for at in 0..count {
            self.find_lacking(under, at);
        }
    }

    // The values of all rows, and of variables that have one by them, until none does. Each round finds one, so there are few enough.
    fn come_to_rest(
        &mut self,
        alloc: Global,
        under: Tabled,
        constant: &[bool],
        count: u32,
    ) -> Result<(), OutOfMemory>
        ensures known { IsSized under.entry.rows.now → IsKnown under.entry constant.now self.old → OnOk result (IsKnown under.entry constant.now self.new) }
        ensures whole { IsSized under.entry.rows.now → IsTree under.entry.rows.now → count ≡ length under.entry.rows.now → IsKnown under.entry constant.now self.old → OnOk result (resting.IsAtRest under.entry.rows.now (entries under.entry.table.now) (tell.picks constant.now) self.new) }
    {
        for _round in 0..under.rows.len().saturating_add(1) {
            self.set_rows(alloc, under, constant, count)?;
            if self.is_at_rest(under, count) {
                return Ok(());
            }
            self.find_all(under, count);
        }
        Err(OutOfMemory)
    }

    /// The values of constant variables and expressions, where the references that are picked are read as constants. Under a table in which
    /// expressions have one type they are all that there are.
    pub fn of(alloc: Global, under: Tabled, constant: &[bool]) -> Result<Constants, OutOfMemory>
        ensures known { IsSized under.entry.rows.now → IfOk result (λ found. IsKnown under.entry constant.now found) }
        ensures whole { IsSized under.entry.rows.now → IsTree under.entry.rows.now → IfOk result (λ found. resting.IsAtRest under.entry.rows.now (entries under.entry.table.now) (tell.picks constant.now) found) }
        ensures sound { IsSized under.entry.rows.now → ((n : ℕ) → tell.picks constant.now n ≡ plain.has_constant_form under.entry.rows.now (entries under.entry.table.now) n) → IfOk result (λ found. (n : ℕ) (v : Const) → tell.values_in found.texts found.values.items n ≡ Some v → Constant under.entry.rows.now (entries under.entry.table.now) n v) }
        ensures all { IsSized under.entry.rows.now → IsTree under.entry.rows.now → IsTypable under.entry.rows.now (entries under.entry.table.now) → IfOk result (λ found. (n : ℕ) → tell.values_in found.texts found.values.items n ≡ plain.constants under.entry.rows.now (entries under.entry.table.now) (tell.picks constant.now) n) }
    {
        let Ok(count) = u32::try_from(under.rows.len()) else {
            return Err(OutOfMemory);
        };
        let mut constants = Constants::new(alloc, under.rows)?;
        constants.settle_all(alloc, under, constant, count)?;
        constants.come_to_rest(alloc, under, constant, count)?;
        Ok(constants)
    }
}

/// The references that may be constant by their form.
pub fn constant_forms(alloc: Global, under: Tabled) -> Result<Vec<bool>, OutOfMemory>
    ensures { length under.entry.rows.now < 2 ^ 32 → IfOk result (λ all. (n : ℕ) → tell.picks all.items n ≡ plain.has_constant_form under.entry.rows.now (entries under.entry.table.now) n) }
{
    let Ok(count) = u32::try_from(under.rows.len()) else {
        return Err(OutOfMemory);
    };
    let mut all = Vec::new(alloc);
    for at in 0..count {
        all.push(has_constant_form(under, at))?;
    }
    Ok(all)
}
