// The classes that a run of statements throws (JLS 11.2).
ghost use Rattle.std.specs.Prelude.{◌≡◌, true, IfOk, OnOk};
ghost use Rattle.jr_flow_faults.specs.Reading.{IsAround, IsThrowingView};
ghost use Rattle.jr_extract.specs.Running.{holds};
ghost use Rattle.jr_extract.specs.Throwing as spec;

use crate::run::Run;
use jr_base::OutOfMemory;
use jr_flow_faults::{Around, Catches, Roots, Tracing, facts_of, thrown_at};
use jr_members::has;
use jr_places::parent_at;
use jr_reach::courses_of;
use jr_view::View;
use std::alloc::Global;

// What is read to follow what is thrown in a run.
#[derive(Clone, Copy)]
struct Reading<'a> {
    trace: &'a Tracing<'a>,
    roots: Roots,
    run: Run,
}

// Puts a class behind others, if that is told.
fn push_told(all: &mut Vec<u32>, is_told: bool, class: u32) -> Result<(), OutOfMemory>
    ensures { OnOk result (all.new.items ≡ spec.with_told is_told class all.old.items) }
{
    if is_told {
        all.push(class)?;
    }
    Ok(())
}

impl<'a> Reading<'a> {
    // The class, thrown at a row of the run, is thrown out of a statement of it.
    fn comes_out(&self, alloc: Global, class: u32, at: u32) -> Result<bool, OutOfMemory>
        ensures { spec.IsReading self.now → holds self.now.run at ≡ true → IfOk result (λ b. b ≡ spec.leaves self.now class at) }
    {
        let trace = self.trace;
        let view = trace.view;
        let rows = view.sight.world.under.rows;
        let run = self.run;
        let mut here = at;
        for _turn in 0..rows.len() {
            let over = parent_at(rows, here);
            if !run.holds(over) {
                return Ok(true);
            }
            let goes = trace.goes_on(alloc, class, here)?;
            if !goes {
                return Ok(false);
            }
            here = over;
        }
        Ok(false)
    }

    // The class is checked, and comes out of the run.
    fn is_thrown_out(&self, alloc: Global, class: u32, at: u32) -> Result<bool, OutOfMemory>
        ensures { spec.IsReading self.now → holds self.now.run at ≡ true → IfOk result (λ b. b ≡ spec.is_told self.now at class) }
    {
        let trace = self.trace;
        let view = trace.view;
        let world = &view.sight.world;
        let roots = self.roots;
        if !roots.is_checked(world.supers, world.under.rows, class) {
            return Ok(false);
        }
        self.comes_out(alloc, class, at)
    }

    // Adds the class that is thrown at a row, if it comes out of the run and is not there yet.
    fn add_class(
        &self,
        alloc: Global,
        all: &mut Vec<u32>,
        class: u32,
        at: u32,
    ) -> Result<(), OutOfMemory>
        ensures { spec.IsReading self.now → holds self.now.run at ≡ true → OnOk result (all.new.items ≡ spec.with_class (spec.is_told self.now at class) class all.old.items) }
    {
        if has(all, class) {
            return Ok(());
        }
        let is_thrown = self.is_thrown_out(alloc, class, at)?;
        push_told(all, is_thrown, class)
    }

    // Adds those of the classes that are thrown at a row.
    fn add_classes(
        &self,
        alloc: Global,
        all: &mut Vec<u32>,
        classes: &[u32],
        at: u32,
    ) -> Result<(), OutOfMemory>
        ensures { spec.IsReading self.now → holds self.now.run at ≡ true → OnOk result (all.new.items ≡ spec.with_classes (spec.is_told self.now at) classes.now all.old.items) }
    {
        for class in classes {
            self.add_class(alloc, all, *class, at)?;
        }
        Ok(())
    }

    // Adds those that come out of the run from a row.
    fn add_thrown_at(&self, alloc: Global, all: &mut Vec<u32>, at: u32) -> Result<(), OutOfMemory>
        ensures { spec.IsReading self.now → holds self.now.run at ≡ true → OnOk result (all.new.items ≡ spec.with_row self.now at all.old.items) }
    {
        let trace = self.trace;
        let view = trace.view;
        let world = &view.sight.world;
        let classes = thrown_at(alloc, &world.under, view.types, at)?;
        self.add_classes(alloc, all, &classes, at)
    }

    // All of them.
    fn all_thrown(&self, alloc: Global) -> Result<Vec<u32>, OutOfMemory>
        ensures { spec.IsReading self.now → IfOk result (λ all. all.items ≡ spec.thrown_out (spec.view_of self.now) self.now.run) }
    {
        let run = self.run;
        let mut all = Vec::new(alloc);
        for at in run.rows.first..run.rows.end {
            self.add_thrown_at(alloc, &mut all, at)?;
        }
        Ok(all)
    }
}

// The classes that come out of the run, by what is round each row.
fn thrown_by(alloc: Global, view: &View, around: &Around, run: Run) -> Result<Vec<u32>, OutOfMemory>
    ensures { IsThrowingView view.now → IsAround view.now around.now → IfOk result (λ all. all.items ≡ spec.thrown_out view.now run) }
{
    let world = &view.sight.world;
    let mut faults = Vec::new(alloc);
    let catches = Catches::of(alloc, &world.under, world.supers, &mut faults)?;
    let trace = Tracing {
        view: &*view,
        around: &*around,
        catches: &catches,
    };
    let roots = Roots::of(world.under.rows);
    let reading = Reading {
        trace: &trace,
        roots,
        run,
    };
    reading.all_thrown(alloc)
}

/// The checked classes that the run can throw out, in the order of the first rows at which they are thrown.
pub(crate) fn thrown_out(alloc: Global, view: &View, run: Run) -> Result<Vec<u32>, OutOfMemory>
    ensures { IsThrowingView view.now → IfOk result (λ all. spec.AreThrownOut view.now run all.items) }
{
    let rows = view.sight.world.under.rows;
    if rows.len() >= u32::MAX as usize {
        return Err(OutOfMemory);
    }
    let facts = facts_of(alloc, view)?;
    let all = courses_of(alloc, rows, &facts)?;
    let around = Around {
        rows,
        facts: &facts,
        all: &all,
    };
    thrown_by(alloc, view, &around, run)
}
