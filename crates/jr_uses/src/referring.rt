// The rows that refer to each declaration, under a table of what rows refer to.
ghost use Rattle.std.specs.Prelude.{◌≡◌, ◌++◌, ◌∷◌, [], ℕ, OnOk, IfOk, if◌then◌else◌, nat_eq, length};
ghost use Rattle.jr_uses.specs.Referring.{declared_at, rows_in, rows_of, uses_below, refers};

use indexmap::IndexMap;
use jr_base::OutOfMemory;
use jr_defs::Referent;
use std::alloc::Global;
use std::marker::Model;

/// The rows that refer to each declaration, seen by contracts as a list of declarations and rows.
#[derive(Drop)]
pub struct Uses {
    rows: IndexMap<u32, Vec<u32>>,
}

impl Model for Uses {
    ghost use Rattle.std.specs.Prelude.{ℕ, List};
    ghost use Rattle.std.specs.Global.{Vec};

    ghost Value = { List (ℕ × Vec ℕ) };

    ghost view = { λ uses. uses.rows.entries };
}

// One more row that refers to a declaration.
fn add(uses: &mut IndexMap<u32, Vec<u32>>, declaration: u32, row: u32) -> Result<(), OutOfMemory>
    ensures { OnOk result ((d : ℕ) → rows_of uses.new d ≡ rows_of uses.old d ++ (if nat_eq declaration d then row ∷ [] else [])) }
{
    uses.entry(declaration)?.or_default().push(row)?;
    Ok(())
}

// The row that a referent declares.
fn declared(table: &[Referent], row: u32) -> Option<u32>
    ensures { result ≡ declared_at table.now row }
{
    match table.get(row as usize) {
        Some(Referent::Declared { row, .. }) => Some(*row),
        _ => None,
    }
}

// One more row, if it refers to a declaration.
fn add_row(
    uses: &mut IndexMap<u32, Vec<u32>>,
    table: &[Referent],
    row: u32,
) -> Result<(), OutOfMemory>
    ensures { OnOk result ((d : ℕ) → rows_of uses.new d ≡ rows_of uses.old d ++ (if refers table.now row d then row ∷ [] else [])) }
{
    match declared(table, row) {
        Some(over) => add(uses, over, row),
        None => Ok(()),
    }
}

// All rows that refer to declarations.
fn all_of(alloc: Global, table: &[Referent]) -> Result<IndexMap<u32, Vec<u32>>, OutOfMemory>
    ensures { IfOk result (λ uses. (d : ℕ) → rows_of uses d ≡ uses_below table.now d (length table.now)) }
{
    let Ok(count) = u32::try_from(table.len()) else {
        return Err(OutOfMemory);
    };
    let mut uses = IndexMap::new(alloc);
    for row in 0..count {
        add_row(&mut uses, table, row)?;
    }
    Ok(uses)
}

impl Uses {
    /// The uses of declarations under a table.
    pub fn of(alloc: Global, table: &[Referent]) -> Result<Uses, OutOfMemory>
        ensures { IfOk result (λ uses. (d : ℕ) → rows_in uses d ≡ uses_below table.now d (length table.now)) }
    {
        Ok(Uses {
            rows: all_of(alloc, table)?,
        })
    }

    /// The rows that refer to a declaration, as they rise.
    pub fn uses(&self, declaration: u32) -> &[u32]
        ensures { result.now ≡ rows_in self.now declaration }
    {
        match self.rows.get(&declaration) {
            Some(rows) => rows.as_slice(),
            None => &[],
        }
    }
}
