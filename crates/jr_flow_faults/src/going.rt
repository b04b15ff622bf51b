// How what is thrown goes outwards, from a row to the one round it (JLS 11.2.2, 14.20).
ghost use Rattle.std.specs.Prelude.{◌≡◌, IfOk, Decides};
ghost use Rattle.jr_tree.specs.Rows.{label, parent};
ghost use Rattle.jr_flow_faults.specs.Computed.{rows_in, table_in};
ghost use Rattle.jr_flow_faults.specs.Exceptions.{Catches as CatchesClass, GoesOn, IsTry};
ghost use Rattle.jr_flow_faults.specs.ExceptionTests as tests;
ghost use Rattle.jr_flow_faults.specs.Reading.{IsTracing, completes_in};

use crate::catches::{Catches, is_catch};
use crate::facts::is_block;
use crate::guards::{Around, is_next, is_try};
use jr_base::OutOfMemory;
use jr_places::parent_at;
use jr_tree::{Label, Row};
use jr_view::View;
use std::alloc::Global;

/// What is read to trace what is thrown from row to row.
#[derive(Clone, Copy)]
pub struct Tracing<'a> {
    pub view: &'a View<'a>,
    pub around: &'a Around<'a>,
    pub catches: &'a Catches,
}

// What is thrown at the row goes no further: it is a method, a constructor, an initializer, or a field.
fn is_code(rows: &[Row], at: u32) -> bool
    ensures { result ≡ tests.is_code (label rows.now at) }
{
    match rows.get(at as usize) {
        Some(row) => match row.label {
            Label::Method { .. } => true,
            Label::Constructor { .. } => true,
            Label::DefaultConstructor => true,
            Label::Initializer { .. } => true,
            Label::Field { .. } => true,
            _ => false,
        },
        None => false,
    }
}

// A block right behind the row over it: of a `try` that is its body.
fn is_first_block(rows: &[Row], at: u32) -> bool
    ensures { result ≡ tests.is_first_block rows.now at }
{
    is_block(rows, at) && is_next(parent_at(rows, at), at)
}

impl<'a> Tracing<'a> {
    // No catch of the `try` is of the class, or of one above it.
    fn is_uncaught(&self, alloc: Global, over: u32, class: u32) -> Result<bool, OutOfMemory>
        ensures { IsTracing self.now → IfOk result (λ b. Decides b (CatchesClass (rows_in self.now.view.now) (table_in self.now.view.now) over class → ⊥)) }
    {
        let view = self.view;
        let catches = self.catches;
        let world = &view.sight.world;
        let is_caught = catches.catches(alloc, world.under.rows, world.supers, over, class)?;
        Ok(!is_caught)
    }

    // The class, thrown inside a row right in a `try`, is thrown out of that.
    fn leaves_try(&self, alloc: Global, class: u32, at: u32) -> Result<bool, OutOfMemory>
        ensures { IsTracing self.now → IsTry (label (rows_in self.now.view.now) (parent (rows_in self.now.view.now) at))
            → IfOk result (λ b. Decides b (GoesOn (rows_in self.now.view.now) (table_in self.now.view.now) (completes_in self.now.view.now) class at)) }
    {
        let view = self.view;
        let rows = view.sight.world.under.rows;
        let around = self.around;
        let over = parent_at(rows, at);
        if around.is_last(over, at) {
            return Ok(true);
        }
        if around.loses(over) {
            return Ok(false);
        }
        if is_catch(rows, at) {
            return Ok(true);
        }
        if is_first_block(rows, at) {
            return self.is_uncaught(alloc, over, class);
        }
        Ok(false)
    }

    /// The class, thrown inside a row, is thrown out of the row round it too (JLS 11.2.2, 14.20).
    pub fn goes_on(&self, alloc: Global, class: u32, at: u32) -> Result<bool, OutOfMemory>
        ensures { IsTracing self.now → IfOk result (λ b. Decides b (GoesOn (rows_in self.now.view.now) (table_in self.now.view.now) (completes_in self.now.view.now) class at)) }
    {
        let view = self.view;
        let rows = view.sight.world.under.rows;
        if is_try(rows, parent_at(rows, at)) {
            return self.leaves_try(alloc, class, at);
        }
        Ok(!is_code(rows, at))
    }
}
