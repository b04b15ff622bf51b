// Rows from labels that open and close.
ghost use Rattle.std.specs.Prelude.{◌≡◌, ◌+◌, ◌<◌, ◌^◌, true, IfSome, OnOk};
ghost use Rattle.jr_index.specs.Building as spec;
ghost use Rattle.jr_index.specs.Views.{state};

use jr_base::{OutOfMemory, Text};
use jr_tree::{Label, Row};
use std::alloc::Global;

/// The rows so far, the innermost one that is open, and the one that opened or closed last.
#[derive(Drop)]
pub struct Building {
    pub rows: Vec<Row>,
    pub over: u32,
    pub before: u32,
}

impl Building {
    pub fn new(alloc: Global) -> Building
        ensures { state result ≡ spec.start }
    {
        Building {
            rows: Vec::new(alloc),
            over: 0,
            before: 0,
        }
    }

    pub fn open(&mut self, label: Label, name: Text) -> Result<(), OutOfMemory>
        ensures { OnOk result (state self.new ≡ spec.opened label name (state self.old)) }
    {
        let Some(at) = next_row(self.rows.len()) else {
            drop(label);
            drop(name);
            return Err(OutOfMemory);
        };
        self.rows.push(Row {
            label,
            name,
            parent: self.over,
            end: at,
            previous: self.before,
        })?;
        self.over = at;
        self.before = at;
        Ok(())
    }

    /// Whether the number behind the last row fits.
    pub fn close(&mut self) -> bool
        ensures { result ≡ true → state self.new ≡ spec.closed (state self.old) }
    {
        let Ok(end) = u32::try_from(self.rows.len()) else {
            return false;
        };
        self.before = self.over;
        if let Some(row) = self.rows.get_mut(self.over as usize) {
            row.end = end;
            self.over = row.parent;
        }
        true
    }
}

/// The number of a row behind so many, where the number behind it fits too.
fn next_row(count: usize) -> Option<u32>
    ensures { IfSome result (λ at. (at ≡ count) × (at + 1 < 2 ^ 32)) }
{
    let Ok(at) = u32::try_from(count) else {
        return None;
    };
    if at == u32::MAX {
        return None;
    }
    Some(at)
}
