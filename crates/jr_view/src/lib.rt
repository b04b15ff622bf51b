//! A program with all its tables, as rules, changes and reports read it.
#![tactic(auto)]

use jr_constants::Constants;
use jr_defs::RowType;
use jr_lookup::Sight;

/// A bound program: its rows under the binding, with what lookup reads, the types of its expressions, and the values of those that are constant.
#[derive(Clone, Copy)]
pub struct View<'a> {
    pub sight: Sight<'a>,
    pub types: &'a [Option<RowType>],
    pub constants: &'a Constants,
    /// The class String, if there is one.
    pub string: Option<u32>,
}
