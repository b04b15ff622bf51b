// The catches of each `try`, and what arrives there (JLS 11.2.3, 14.20).
ghost use Rattle.std.specs.Prelude.{◌≡◌, ℕ, Bool, [], length, IfOk, OnOk, Decides};
ghost use Rattle.std.specs.List.{list_any};
ghost use Rattle.jr_tree.specs.Rows.{Rows, label};
ghost use Rattle.jr_defs.specs.Referents.{Table, entries};
ghost use Rattle.jr_defs.specs.Supertypes.{AtOrAbove};
ghost use Rattle.jr_plain.specs.Overloads.{Types};
ghost use Rattle.jr_rule.specs.Faults.{AreFaultsOf};
ghost use Rattle.jr_rule.specs.declared.Rule.TheVariants as rule;
ghost use Rattle.jr_rules.specs.StatementTests as statements;
ghost use Rattle.jr_supers.specs.Supers.{AreSupersOf, ListsOnce};
ghost use Rattle.jr_supers.specs.Pairs.{has_pair, with_pair};
ghost use Rattle.jr_supers.specs.Tabled.{IsSized};
ghost use Rattle.jr_faults.specs.Added.{row_if, is_rule, AreOnly};
ghost use Rattle.jr_flow_faults.specs.ExceptionTests as tests;
ghost use Rattle.jr_flow_faults.specs.Faults.{is_of_exceptions};
ghost use Rattle.jr_flow_faults.specs.Outwards.{AreAbove};
ghost use Rattle.jr_flow_faults.specs.Roots.{AreRoots};
ghost use Rattle.jr_flow_faults.specs.Arriving as tell;

use crate::classes::{Roots, is_either};
use crate::pairs::{add_pair, add_pairs, is_any_pair, is_pair};
use crate::thrown::catch_class;
use jr_base::OutOfMemory;
use jr_faults::rule_if;
use jr_places::{Chains, parent_at};
use jr_rule::{Fault, Rule};
use jr_supers::{Supers, Tabled};
use jr_tree::{Label, Row};
use std::alloc::Global;

/// The row is a catch.
pub(crate) fn is_catch(rows: &[Row], at: u32) -> bool
    ensures { result ≡ statements.is_catch (label rows.now at) }
{
    match rows.get(at as usize) {
        Some(row) => match row.label {
            Label::Catch => true,
            _ => false,
        },
        None => false,
    }
}

/// The catches of a program, by their `try` and class.
#[derive(Drop)]
pub struct Catches {
    table: Chains,
}

// The `try` catches the class, or one above it, by the catches in a table.
pub(crate) fn is_caught(
    alloc: Global,
    rows: &[Row],
    supers: &Supers,
    table: &Chains,
    over: u32,
    class: u32,
) -> Result<bool, OutOfMemory>
    ensures { (t : Table) → (n : ℕ) → AreSupersOf rows.now t supers.now → tests.AreCatchesTo rows.now t n table.now → IfOk result (λ b. b ≡ tests.catches_before rows.now t over n class) }
{
    let uppers = supers.with_above(alloc, rows, class)?;
    Ok(is_any_pair(table, over, &uppers))
}

// A catch is of a class that an earlier one of the same `try` catches, by those in a table.
fn is_covered(
    alloc: Global,
    under: &Tabled,
    supers: &Supers,
    table: &Chains,
    at: u32,
) -> Result<bool, OutOfMemory>
    ensures { IsSized under.now.rows.now → AreSupersOf under.now.rows.now (entries under.now.table.now) supers.now → tests.AreCatchesTo under.now.rows.now (entries under.now.table.now) at table.now
        → IfOk result (λ b. b ≡ tests.is_covered under.now.rows.now (entries under.now.table.now) at) }
{
    match catch_class(under, at) {
        Some(class) => {
            is_caught(
                alloc,
                under.rows,
                supers,
                table,
                parent_at(under.rows, at),
                class,
            )
        }
        None => Ok(false),
    }
}

// The class of a catch stands under its `try`.
fn add_catch(alloc: Global, under: &Tabled, table: &mut Chains, at: u32) -> Result<(), OutOfMemory>
    ensures { IsSized under.now.rows.now → OnOk result (table.new ≡ tests.with_catch under.now.rows.now (entries under.now.table.now) table.old at) }
{
    match catch_class(under, at) {
        Some(class) => add_pair(alloc, table, parent_at(under.rows, at), class),
        None => Ok(()),
    }
}

// One row more.
fn note_catch(
    alloc: Global,
    under: &Tabled,
    supers: &Supers,
    table: &mut Chains,
    at: u32,
    out: &mut Vec<Fault>,
) -> Result<(), OutOfMemory>
    ensures only { OnOk result (AreOnly (is_rule rule.CoveredCatch) out.old.items out.new.items) }
    ensures added { IsSized under.now.rows.now → OnOk result (table.new ≡ tests.with_catch under.now.rows.now (entries under.now.table.now) table.old at) }
    ensures covered { IsSized under.now.rows.now → AreSupersOf under.now.rows.now (entries under.now.table.now) supers.now → tests.AreCatchesTo under.now.rows.now (entries under.now.table.now) at table.old
        → OnOk result (AreFaultsOf rule.CoveredCatch (row_if (tests.is_covered under.now.rows.now (entries under.now.table.now) at) at) out.old.items out.new.items) }
{
    let is_broken = is_covered(alloc, under, supers, table, at)?;
    rule_if(out, is_broken, at, Rule::CoveredCatch)?;
    add_catch(alloc, under, table, at)
}

impl Catches {
    /// The catches of the rows. Those whose class an earlier one of the same `try` catches are faults.
    pub fn of(
        alloc: Global,
        under: &Tabled,
        supers: &Supers,
        out: &mut Vec<Fault>,
    ) -> Result<Catches, OutOfMemory>
        ensures only { OnOk result (AreOnly is_of_exceptions out.old.items out.new.items) }
        ensures own { OnOk result (AreOnly (is_rule rule.CoveredCatch) out.old.items out.new.items) }
        ensures all { IsSized under.now.rows.now → IfOk result (λ catches. tests.AreCatchesTo under.now.rows.now (entries under.now.table.now) (length under.now.rows.now) catches.table) }
        ensures covered { IsSized under.now.rows.now → AreSupersOf under.now.rows.now (entries under.now.table.now) supers.now
            → OnOk result (AreFaultsOf rule.CoveredCatch (tests.covered_rows under.now.rows.now (entries under.now.table.now)) out.old.items out.new.items) }
    {
        let Ok(count) = u32::try_from(under.rows.len()) else {
            return Err(OutOfMemory);
        };
        let mut table = Chains::new(alloc);
        for at in 0..count {
            note_catch(alloc, under, supers, &mut table, at, out)?;
        }
        Ok(Catches { table })
    }

    /// The `try` catches one of the classes.
    pub(crate) fn has_any(&self, over: u32, classes: &[u32]) -> bool
        ensures { result ≡ list_any (λ high. has_pair self.now.table over high) classes.now }
    {
        is_any_pair(&self.table, over, classes)
    }

    /// The `try` catches the class, or one above it.
    pub fn catches(
        &self,
        alloc: Global,
        rows: &[Row],
        supers: &Supers,
        over: u32,
        class: u32,
    ) -> Result<bool, OutOfMemory>
        ensures { (t : Table) → AreSupersOf rows.now t supers.now → tests.AreCatchesTo rows.now t (length rows.now) self.now.table → IfOk result (λ b. b ≡ tests.catches rows.now t over class) }
    {
        is_caught(alloc, rows, supers, &self.table, over, class)
    }
}

/// What the bodies of `try` statements throw.
#[derive(Drop)]
pub(crate) struct Arrived {
    /// The classes that are thrown, by their `try`.
    thrown: Chains,
    /// Those and the classes above them.
    above: Chains,
}

impl Arrived {
    pub(crate) fn new(alloc: Global) -> Arrived
        ensures thrown { result.thrown ≡ [] }
        ensures above { result.above ≡ [] }
    {
        Arrived {
            thrown: Chains::new(alloc),
            above: Chains::new(alloc),
        }
    }

    /// The body of the `try` throws the class, with these at or above it.
    pub(crate) fn add(
        &mut self,
        alloc: Global,
        over: u32,
        class: u32,
        uppers: &[u32],
    ) -> Result<(), OutOfMemory>
        ensures thrown { OnOk result (self.new.thrown ≡ with_pair self.old.thrown over class) }
        ensures above { (p : Rows) → (t : Table) → ListsOnce uppers.now (AtOrAbove p t class) → AreAbove p t self.old.thrown self.old.above → OnOk result (AreAbove p t self.new.thrown self.new.above) }
    {
        if is_pair(&self.thrown, over, class) {
            return Ok(());
        }
        add_pair(alloc, &mut self.thrown, over, class)?;
        add_pairs(alloc, &mut self.above, over, uppers)
    }

    // The body of the `try` can throw the class: one at or below it is thrown, or one above it.
    fn has(&self, over: u32, class: u32, uppers: &[u32]) -> bool
        ensures { (p : Rows) → (t : Table) → ListsOnce uppers.now (AtOrAbove p t class) → AreAbove p t self.now.thrown self.now.above → Decides result (tell.HasRelated p t self.now.thrown over class) }
    {
        let is_below = is_pair(&self.above, over, class);
        let is_above = is_any_pair(&self.thrown, over, uppers);
        is_either(is_below, is_above)
    }

    // The body of the `try` can throw the class.
    fn can_throw(
        &self,
        alloc: Global,
        under: &Tabled,
        supers: &Supers,
        over: u32,
        class: u32,
    ) -> Result<bool, OutOfMemory>
        ensures { (t : Table) → AreSupersOf under.now.rows.now t supers.now → AreAbove under.now.rows.now t self.now.thrown self.now.above
            → IfOk result (λ b. Decides b (tell.HasRelated under.now.rows.now t self.now.thrown over class)) }
    {
        let uppers = supers.with_above(alloc, under.rows, class)?;
        Ok(self.has(over, class, &uppers))
    }

    // The class is checked, and neither Exception nor Throwable; and the body of the `try` cannot throw it.
    fn is_unthrown_class(
        &self,
        alloc: Global,
        under: &Tabled,
        supers: &Supers,
        roots: Roots,
        over: u32,
        class: u32,
    ) -> Result<bool, OutOfMemory>
        ensures { (t : Table) → AreSupersOf under.now.rows.now t supers.now → AreRoots under.now.rows.now roots → AreAbove under.now.rows.now t self.now.thrown self.now.above
            → IfOk result (λ b. Decides b (tell.IsUnthrownClass under.now.rows.now t self.now.thrown over class)) }
    {
        if !roots.is_checked(supers, under.rows, class) {
            return Ok(false);
        }
        if roots.is_general(class) {
            return Ok(false);
        }
        let can = self.can_throw(alloc, under, supers, over, class)?;
        Ok(!can)
    }

    // The catch is of a checked class that the body cannot throw.
    fn is_unthrown(
        &self,
        alloc: Global,
        under: &Tabled,
        supers: &Supers,
        roots: Roots,
        at: u32,
    ) -> Result<bool, OutOfMemory>
        ensures { (t : Table) → entries under.now.table.now ≡ t → IsSized under.now.rows.now → AreSupersOf under.now.rows.now t supers.now → AreRoots under.now.rows.now roots → AreAbove under.now.rows.now t self.now.thrown self.now.above
            → IfOk result (λ b. Decides b (tell.IsUnthrownCatch under.now.rows.now t self.now.thrown at)) }
    {
        match catch_class(under, at) {
            Some(class) => self.is_unthrown_class(
                alloc,
                under,
                supers,
                roots,
                parent_at(under.rows, at),
                class,
            ),
            None => Ok(false),
        }
    }

    // A catch of what is never thrown.
    fn note_catch(
        &self,
        alloc: Global,
        under: &Tabled,
        supers: &Supers,
        roots: Roots,
        at: u32,
        out: &mut Vec<Fault>,
    ) -> Result<(), OutOfMemory>
        ensures only { OnOk result (AreOnly (is_rule rule.UnthrownCatch) out.old.items out.new.items) }
        ensures unthrown { tell.IsTelling under.now supers.now roots self.now → (type_of : Types) → (completes : ℕ → Bool) → tell.AreAllArrived under.now type_of completes self.now
            → OnOk result (AreFaultsOf rule.UnthrownCatch (row_if (tests.is_unthrown under.now.rows.now (entries under.now.table.now) type_of completes at) at) out.old.items out.new.items) }
    {
        let is_broken = self.is_unthrown(alloc, under, supers, roots, at)?;
        rule_if(out, is_broken, at, Rule::UnthrownCatch)
    }

    /// The catches of what is never thrown.
    pub(crate) fn note_unthrown(
        &self,
        alloc: Global,
        under: &Tabled,
        supers: &Supers,
        roots: Roots,
        out: &mut Vec<Fault>,
    ) -> Result<(), OutOfMemory>
        ensures only { OnOk result (AreOnly (is_rule rule.UnthrownCatch) out.old.items out.new.items) }
        ensures unthrown { tell.IsTelling under.now supers.now roots self.now → (type_of : Types) → (completes : ℕ → Bool) → tell.AreAllArrived under.now type_of completes self.now
            → OnOk result (AreFaultsOf rule.UnthrownCatch (tests.unthrown_rows under.now.rows.now (entries under.now.table.now) type_of completes) out.old.items out.new.items) }
    {
        let Ok(count) = u32::try_from(under.rows.len()) else {
            return Err(OutOfMemory);
        };
        for at in 0..count {
            self.note_catch(alloc, under, supers, roots, at, out)?;
        }
        Ok(())
    }
}
