//! Rows of a program from its trees, and where they stand among the tokens.
#![tactic(auto)]

ghost use Rattle.std.specs.Prelude.{◌≡◌, IfOk, map};
ghost use Rattle.jr_tree.specs.Rows.{program_rows};
ghost use Rattle.jr_index.specs.Events as e;
ghost use Rattle.jr_index.specs.Marking.{program_marks};
ghost use Rattle.jr_index.specs.Within.{AreWithin};
ghost use Rattle.jr_index.specs.Writing.{Adds};

mod building;
mod decl;
mod expr;
mod index;
mod law;
mod mark;
mod stmt;
mod words;
mod writer;

use crate::decl::add_unit;
pub use crate::writer::MarkedRows;
use crate::writer::RowWriter;
pub use index::{Index, NodeOfRow, node_count};
use jr_base::OutOfMemory;
use jr_defs::{Program, UnitAt};
use jr_tree::{Label, Row};
pub use law::{
    marks_are_own, marks_are_within, nodes_are_numbered, units_are_in_order, units_have_rows,
};
pub use mark::{Mark, NO_TOKEN};
use std::alloc::Global;

fn add_units(out: &mut RowWriter, units: &[UnitAt])
    ensures { Adds out.old out.new (e.units_events (map (λ u. u.unit) units.now)) }
{
    for placed in units {
        add_unit(out, &placed.unit);
    }
}

fn add_program(out: &mut RowWriter, program: &Program)
    ensures { Adds out.old out.new (e.program_events (map (λ u. u.unit) program.now.units)) }
{
    out.begin(Label::Program);
    add_units(out, program.units.as_slice());
    out.restart();
    out.close();
}

/// The rows of a program and their marks: row 0 is the program, and each row stands behind the one round it (preorder).
#[tactic(auto, using(crate::proofs::Labels::built_program, crate::proofs::Nesting::marks_within))]
pub fn marked_rows_of(alloc: Global, program: &Program) -> Result<MarkedRows, OutOfMemory>
    ensures marks { IfOk result (λ marked. marked.marks.items ≡ program_marks (map (λ u. u.unit) program.now.units)) }
    ensures within { IfOk result (λ marked. AreWithin marked.rows.items marked.marks.items) }
    ensures rows { IfOk result (λ marked. marked.rows.items ≡ program_rows (map (λ u. u.unit) program.now.units)) }
{
    let mut out = RowWriter::new(alloc);
    add_program(&mut out, program);
    out.finish()
}

/// The rows of a program.
pub fn rows_of(alloc: Global, program: &Program) -> Result<Vec<Row>, OutOfMemory>
    ensures { IfOk result (λ rows. rows.items ≡ program_rows (map (λ u. u.unit) program.now.units)) }
{
    Ok(marked_rows_of(alloc, program)?.rows)
}
