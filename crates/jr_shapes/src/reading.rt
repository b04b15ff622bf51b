// What stands at a number.
ghost use Rattle.std.specs.Prelude.{◌≡◌};
ghost use Rattle.jr_defs.specs.Referents.{entries};
ghost use Rattle.jr_shapes.specs.Parts as spec;

use jr_defs::Referent;
use jr_places::is_type;
use jr_tree::Row;

/// Where what is below a row ends; the row itself where there is none.
pub fn end_of(rows: &[Row], at: u32) -> u32
    ensures { result ≡ spec.end_of rows.now at }
{
    match rows.get(at as usize) {
        Some(row) => row.end,
        None => at,
    }
}

/// What a row refers to.
pub fn referent_at(table: &[Referent], at: u32) -> Referent
    ensures { result ≡ entries table.now at }
{
    match table.get(at as usize) {
        Some(found) => *found,
        None => Referent::Unbound,
    }
}

/// A package, or a type of the rows.
pub fn is_part(rows: &[Row], found: Referent) -> bool
    ensures { result ≡ spec.is_part rows.now found }
{
    match found {
        Referent::Package => true,
        Referent::Declared { row, .. } => is_type(rows, row),
        _ => false,
    }
}

/// The type that is referred to.
pub fn type_of(rows: &[Row], found: Referent) -> Option<u32>
    ensures { result ≡ spec.type_of rows.now found }
{
    match found {
        Referent::Declared { row, .. } => { if is_type(rows, row) { Some(row) } else { None } }
        _ => None,
    }
}
