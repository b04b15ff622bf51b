// The rows of one source.

use crate::fault::ReadFault;
use crate::program::read_unit;
use jr_base::{CuId, Items, OutOfMemory, Path};
use jr_defs::{Program, UnitAt};
use jr_index::rows_of;
use jr_tree::Row;
use std::alloc::Global;

// The rows of a program of one unit.
fn rows_of_unit(alloc: Global, unit: UnitAt) -> Result<Vec<Row>, OutOfMemory> {
    let mut units = Items::new(alloc);
    units.push(unit)?;
    rows_of(alloc, &Program { units })
}

/// The rows of the program that one source is by itself, without the prelude, or why it is no unit.
pub fn rows_of_source(alloc: Global, path: Path, bytes: &[u8]) -> Result<Vec<Row>, ReadFault> {
    match read_unit(alloc, path, bytes, CuId(0)) {
        Ok(unit) => Ok(rows_of_unit(alloc, unit)?),
        Err(fault) => Err(fault),
    }
}
