// Which names become selections.
ghost use Rattle.std.specs.Prelude.{◌≡◌, ◌<◌, ◌^◌, IfOk, length};
ghost use Rattle.jr_runs.specs.Forms as spec;
ghost use Rattle.jr_runs.specs.Marks.{seen};

use crate::marking::Marking;
use crate::shaping::{shape_at, turns_label};
use jr_base::OutOfMemory;
use jr_shapes::Spelling;
use jr_tree::Row;
use std::alloc::Global;

fn turns(rows: &[Row], spellings: &[Spelling], marks: &Marking, at: u32, next: bool) -> bool
    ensures { result ≡ spec.turns rows.now spellings.now (seen marks.now) at next }
{
    match rows.get(at as usize) {
        Some(row) => {
            !marks.is_dropped(at) && turns_label(&row.label, shape_at(marks, spellings, at), next)
        }
        None => false,
    }
}

/// Of each row from the last one back, whether it is a name that becomes a selection.
pub fn turned(
    alloc: Global,
    rows: &[Row],
    spellings: &[Spelling],
    marks: &Marking,
) -> Result<Vec<bool>, OutOfMemory>
    requires { length rows.now < 2 ^ 32 }
    ensures { IfOk result (λ back. back.items ≡ spec.turned rows.now spellings.now (seen marks.now)) }
{
    let mut back = Vec::new(alloc);
    let mut next = false;
    for done in 0..rows.len() {
        next = turns(rows, spellings, marks, (rows.len() - done - 1) as u32, next);
        back.push(next)?;
    }
    Ok(back)
}
