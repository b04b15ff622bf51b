// Checked exceptions that are neither caught nor declared (JLS 11.2.3).
ghost use Rattle.std.specs.Prelude.{◌≡◌, ◌+◌, ◌<◌, IfOk, OnOk, length};
ghost use Rattle.jr_tree.specs.Rows.{label};
ghost use Rattle.jr_defs.specs.Supertypes.{AtOrAbove};
ghost use Rattle.jr_rule.specs.Faults.{AreFaultsOf};
ghost use Rattle.jr_rule.specs.declared.Rule.TheVariants as rule;
ghost use Rattle.jr_supers.specs.Supers.{AreSupersOf, ListsOnce};
ghost use Rattle.jr_supers.specs.Tabled.{IsSized};
ghost use Rattle.jr_faults.specs.Added.{row_if, is_rule, AreOnly};
ghost use Rattle.jr_flow_faults.specs.Computed.{rows_in, table_in, facts_in};
ghost use Rattle.jr_flow_faults.specs.Exceptions.{IsCode};
ghost use Rattle.jr_flow_faults.specs.ExceptionTests as tests;
ghost use Rattle.jr_flow_faults.specs.Faults.{is_of_exceptions, is_followed, is_of_flow, AreFlowFaults, AreThrowFaults};
ghost use Rattle.jr_flow_faults.specs.Reading as tell;

use crate::catches::{Arrived, Catches};
use crate::classes::{Roots, is_either};
use crate::guards::{Around, first_guard, is_try};
use crate::thrown::{lets_out, thrown_at};
use jr_base::OutOfMemory;
use jr_faults::rule_if;
use jr_reach::{Fact, courses_of, reach_faults, reached_of};
use jr_rule::{Fault, Rule};
use jr_view::View;
use std::alloc::Global;

// What is read to follow what is thrown.
#[derive(Clone, Copy)]
struct Reading<'a> {
    view: &'a View<'a>,
    around: &'a Around<'a>,
    guards: &'a [Option<u32>],
    catches: &'a Catches,
    roots: Roots,
}

impl<'a> Reading<'a> {
    // What a class meets next that comes out of the body of a `try`, with these classes at or above it; nothing where it is caught or lost.
    fn onward(&self, over: u32, class: u32, uppers: &[u32]) -> Option<u32>
        ensures { tell.IsReading self.now → ListsOnce uppers.now (AtOrAbove (tell.rows_of self.now) (tell.table_of self.now) class)
            → tell.IsOnward (tell.rows_of self.now) (tell.table_of self.now) (tell.completes_of self.now) class over result }
    {
        if self.catches.has_any(over, uppers) {
            return None;
        }
        let around = self.around;
        around.next_guard(self.guards, over)
    }

    // Follows a class from a row outwards, to its member; nothing where it is caught or lost. Each body on the way throws it.
    fn follow(
        &self,
        alloc: Global,
        arrived: &mut Arrived,
        at: u32,
        class: u32,
        uppers: &[u32],
    ) -> Result<Option<u32>, OutOfMemory>
        ensures { tell.IsReading self.now → (IsCode (label (tell.rows_of self.now) at) → ⊥) → at < length (tell.rows_of self.now) → ListsOnce uppers.now (AtOrAbove (tell.rows_of self.now) (tell.table_of self.now) class)
            → IfOk result (λ member. tell.FollowsClass (tell.rows_of self.now) (tell.table_of self.now) (tell.completes_of self.now) at class arrived.old arrived.new member) }
    {
        let view = self.view;
        let rows = view.sight.world.under.rows;
        let mut next = first_guard(self.guards, at);
        for _turn in 0..rows.len() {
            let Some(over) = next else {
                return Ok(None);
            };
            if !is_try(rows, over) {
                return Ok(Some(over));
            }
            arrived.add(alloc, over, class, uppers)?;
            next = self.onward(over, class, uppers);
        }
        Ok(None)
    }

    // A checked class thrown at a row comes to a member that does not let it out.
    fn comes_uncaught(
        &self,
        alloc: Global,
        arrived: &mut Arrived,
        at: u32,
        class: u32,
    ) -> Result<bool, OutOfMemory>
        ensures { tell.IsReading self.now → (IsCode (label (tell.rows_of self.now) at) → ⊥) → at < length (tell.rows_of self.now)
            → IfOk result (λ b. tell.FollowsUncaught (tell.rows_of self.now) (tell.table_of self.now) (tell.completes_of self.now) at class arrived.old arrived.new b) }
    {
        let view = self.view;
        let world = &view.sight.world;
        let uppers = world.supers.with_above(alloc, world.under.rows, class)?;
        let Some(member) = self.follow(alloc, arrived, at, class, &uppers)? else {
            return Ok(false);
        };
        let lets = lets_out(alloc, &world.under, world.supers, member, class)?;
        Ok(!lets)
    }

    // A class thrown at a row is neither caught nor declared.
    fn is_uncaught(
        &self,
        alloc: Global,
        arrived: &mut Arrived,
        at: u32,
        class: u32,
    ) -> Result<bool, OutOfMemory>
        ensures { tell.IsReading self.now → (IsCode (label (tell.rows_of self.now) at) → ⊥) → at < length (tell.rows_of self.now)
            → IfOk result (λ b. tell.NotesClass (tell.rows_of self.now) (tell.table_of self.now) (tell.completes_of self.now) at class arrived.old arrived.new b) }
    {
        let view = self.view;
        let world = &view.sight.world;
        let roots = self.roots;
        if !roots.is_checked(world.supers, world.under.rows, class) {
            return Ok(false);
        }
        self.comes_uncaught(alloc, arrived, at, class)
    }

    // One of some classes thrown at a row is neither caught nor declared.
    fn are_uncaught(
        &self,
        alloc: Global,
        arrived: &mut Arrived,
        at: u32,
        classes: &[u32],
    ) -> Result<bool, OutOfMemory>
        ensures { tell.IsReading self.now → (IsCode (label (tell.rows_of self.now) at) → ⊥) → at < length (tell.rows_of self.now)
            → IfOk result (λ b. tell.NotesClasses (tell.rows_of self.now) (tell.table_of self.now) (tell.completes_of self.now) at classes.now arrived.old arrived.new b) }
    {
        let mut is_broken = false;
        for class in classes {
            let is_uncaught = self.is_uncaught(alloc, arrived, at, *class)?;
            is_broken = is_either(is_broken, is_uncaught);
        }
        Ok(is_broken)
    }

    // What a row throws is neither caught nor declared.
    fn is_row_uncaught(
        &self,
        alloc: Global,
        arrived: &mut Arrived,
        at: u32,
    ) -> Result<bool, OutOfMemory>
        ensures { tell.IsReading self.now → at < length (tell.rows_of self.now) → tell.AreArrived (tell.rows_of self.now) (tell.table_of self.now) (tell.completes_of self.now) at arrived.old
            → IfOk result (λ b. tell.NotesRow (tell.rows_of self.now) (tell.table_of self.now) (tell.types_in self.now.view.now) (tell.completes_of self.now) at arrived.new b) }
    {
        let view = self.view;
        let classes = thrown_at(alloc, &view.sight.world.under, view.types, at)?;
        if classes.is_empty() {
            return Ok(false);
        }
        self.are_uncaught(alloc, arrived, at, &classes)
    }

    // Whether what a row throws is caught or declared.
    fn note_row(
        &self,
        alloc: Global,
        arrived: &mut Arrived,
        at: u32,
        out: &mut Vec<Fault>,
    ) -> Result<(), OutOfMemory>
        ensures only { OnOk result (AreOnly (is_rule rule.UncaughtException) out.old.items out.new.items) }
        ensures arrived { tell.IsReading self.now → at < length (tell.rows_of self.now) → tell.AreArrived (tell.rows_of self.now) (tell.table_of self.now) (tell.completes_of self.now) at arrived.old
            → OnOk result (tell.AreArrived (tell.rows_of self.now) (tell.table_of self.now) (tell.completes_of self.now) (at + 1) arrived.new) }
        ensures uncaught { tell.IsReading self.now → at < length (tell.rows_of self.now) → tell.AreArrived (tell.rows_of self.now) (tell.table_of self.now) (tell.completes_of self.now) at arrived.old
            → OnOk result (AreFaultsOf rule.UncaughtException (row_if (tests.is_uncaught (tell.rows_of self.now) (tell.table_of self.now) (tell.types_in self.now.view.now) (tell.completes_of self.now) at) at) out.old.items out.new.items) }
    {
        let is_broken = self.is_row_uncaught(alloc, arrived, at)?;
        rule_if(out, is_broken, at, Rule::UncaughtException)
    }

    // All rows; what came out of bodies is put into a table.
    fn note_rows(
        &self,
        alloc: Global,
        arrived: &mut Arrived,
        out: &mut Vec<Fault>,
    ) -> Result<(), OutOfMemory>
        ensures only { OnOk result (AreOnly (is_rule rule.UncaughtException) out.old.items out.new.items) }
        ensures arrived { tell.IsReading self.now → tell.AreArrived (tell.rows_of self.now) (tell.table_of self.now) (tell.completes_of self.now) 0 arrived.old
            → OnOk result (tell.AreArrived (tell.rows_of self.now) (tell.table_of self.now) (tell.completes_of self.now) (length (tell.rows_of self.now)) arrived.new) }
        ensures uncaught { tell.IsReading self.now → tell.AreArrived (tell.rows_of self.now) (tell.table_of self.now) (tell.completes_of self.now) 0 arrived.old
            → OnOk result (AreFaultsOf rule.UncaughtException (tests.uncaught_rows (tell.rows_of self.now) (tell.table_of self.now) (tell.types_in self.now.view.now) (tell.completes_of self.now)) out.old.items out.new.items) }
    {
        let view = self.view;
        let Ok(count) = u32::try_from(view.sight.world.under.rows.len()) else {
            return Err(OutOfMemory);
        };
        for at in 0..count {
            self.note_row(alloc, arrived, at, out)?;
        }
        Ok(())
    }

    fn note_all(&self, alloc: Global, out: &mut Vec<Fault>) -> Result<(), OutOfMemory>
        ensures only { OnOk result (AreOnly is_followed out.old.items out.new.items) }
        ensures uncaught { tell.IsReading self.now → OnOk result (AreFaultsOf rule.UncaughtException (tests.uncaught_rows (tell.rows_of self.now) (tell.table_of self.now) (tell.types_in self.now.view.now) (tell.completes_of self.now)) out.old.items out.new.items) }
        ensures unthrown { tell.IsReading self.now → OnOk result (AreFaultsOf rule.UnthrownCatch (tests.unthrown_rows (tell.rows_of self.now) (tell.table_of self.now) (tell.types_in self.now.view.now) (tell.completes_of self.now)) out.old.items out.new.items) }
    {
        let view = self.view;
        let world = &view.sight.world;
        let mut arrived = Arrived::new(alloc);
        self.note_rows(alloc, &mut arrived, out)?;
        arrived.note_unthrown(alloc, &world.under, world.supers, self.roots, out)
    }
}

// The faults of exceptions, by what is round each row and by the catches.
fn follow_faults(
    alloc: Global,
    view: &View,
    around: &Around,
    catches: &Catches,
    out: &mut Vec<Fault>,
) -> Result<(), OutOfMemory>
    ensures only { OnOk result (AreOnly is_followed out.old.items out.new.items) }
    ensures uncaught { tell.IsThrowingView view.now → tell.IsAround view.now around.now → tests.AreCatchesTo (rows_in view.now) (table_in view.now) (length (rows_in view.now)) catches.now.table
        → OnOk result (AreFaultsOf rule.UncaughtException (tests.uncaught_rows (rows_in view.now) (table_in view.now) (tell.types_in view.now) (tell.completes_in view.now)) out.old.items out.new.items) }
    ensures unthrown { tell.IsThrowingView view.now → tell.IsAround view.now around.now → tests.AreCatchesTo (rows_in view.now) (table_in view.now) (length (rows_in view.now)) catches.now.table
        → OnOk result (AreFaultsOf rule.UnthrownCatch (tests.unthrown_rows (rows_in view.now) (table_in view.now) (tell.types_in view.now) (tell.completes_in view.now)) out.old.items out.new.items) }
{
    let guards = around.guards(alloc)?;
    let reading = Reading {
        view: &*view,
        around: &*around,
        guards: &guards,
        catches: &*catches,
        roots: Roots::of(around.rows),
    };
    reading.note_all(alloc, out)
}

// The faults of exceptions.
fn throw_faults(
    alloc: Global,
    view: &View,
    around: &Around,
    out: &mut Vec<Fault>,
) -> Result<(), OutOfMemory>
    ensures only { OnOk result (AreOnly is_of_exceptions out.old.items out.new.items) }
    ensures covered { IsSized (rows_in view.now) → AreSupersOf (rows_in view.now) (table_in view.now) view.now.sight.world.supers.now → OnOk result (AreFaultsOf rule.CoveredCatch (tests.covered_rows (rows_in view.now) (table_in view.now)) out.old.items out.new.items) }
    ensures thrown { tell.IsThrowingView view.now → tell.IsAround view.now around.now → OnOk result (AreThrowFaults view.now out.old.items out.new.items) }
{
    let world = &view.sight.world;
    let catches = Catches::of(alloc, &world.under, world.supers, out)?;
    follow_faults(alloc, view, around, &catches, out)
}

/// Adds where the rules on jumps, on reaching and completing, and on checked exceptions are broken, by what is known of each row (`facts_of`).
pub fn flow_faults(
    alloc: Global,
    view: &View,
    facts: &[Fact],
    out: &mut Vec<Fault>,
) -> Result<(), OutOfMemory>
    ensures exact { facts.now ≡ facts_in view.now → OnOk result (AreFlowFaults view.now out.old.items out.new.items) }
    ensures covered { IsSized (rows_in view.now) → AreSupersOf (rows_in view.now) (table_in view.now) view.now.sight.world.supers.now → OnOk result (AreFaultsOf rule.CoveredCatch (tests.covered_rows (rows_in view.now) (table_in view.now)) out.old.items out.new.items) }
    ensures thrown { tell.IsThrowingView view.now → facts.now ≡ facts_in view.now → OnOk result (AreThrowFaults view.now out.old.items out.new.items) }
    ensures only { OnOk result (AreOnly is_of_flow out.old.items out.new.items) }
{
    let rows = view.sight.world.under.rows;
    if rows.len() >= u32::MAX as usize {
        return Err(OutOfMemory);
    }
    let all = courses_of(alloc, rows, facts)?;
    let found = reached_of(alloc, rows, facts, &all)?;
    reach_faults(rows, facts, &all, &found, out)?;
    let around = Around {
        rows,
        facts,
        all: &all,
    };
    throw_faults(alloc, view, &around, out)
}
