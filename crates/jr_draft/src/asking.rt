// The declaration for which a request asks.
ghost use Rattle.std.specs.Prelude.{◌≡◌, length, slice_get};
ghost use Rattle.jr_marks.specs.Places.{IsOrdered};
ghost use Rattle.jr_draft.specs.Asking as asking;

use jr_change::{ChangeFault, Project, Reason};
use jr_defs::Referent;
use jr_marks::Marks;
use jr_places::{constructed_class, role_at};
use jr_tree::{Role, Row};

/// How many units the prelude has. They come first.
pub const PRELUDE: u32 = 2;

/// How many units there are.
pub fn count_units(marks: &Marks) -> u32
    ensures { IsOrdered marks.now → result ≡ length marks.now.units.now }
{
    match u32::try_from(marks.units.len()) {
        Ok(count) => count,
        Err(_) => u32::MAX,
    }
}

fn has_path(marks: &Marks, unit: u32, path: &[u8]) -> bool
    ensures { result ≡ asking.has_path path.now (slice_get marks.now.units.now unit) }
{
    match marks.units.get(unit as usize) {
        Some(unit) => unit.path.bytes() == path,
        None => false,
    }
}

/// The unit of a file of the workspace.
pub fn unit_of_file(marks: &Marks, path: &[u8]) -> Option<u32>
    ensures { IsOrdered marks.now → result ≡ asking.unit_of_file marks.now path.now }
{
    for unit in PRELUDE..count_units(marks) {
        if has_path(marks, unit, path) {
            return Some(unit);
        }
    }
    None
}

/// The declaration stands in the prelude.
pub fn is_in_prelude(marks: &Marks, row: u32) -> bool
    ensures { IsOrdered marks.now → result ≡ asking.is_in_prelude marks.now row }
{
    marks.unit_of(row) < PRELUDE
}

/// The declaration to which a row refers.
pub fn refers_to(old: &Project, row: u32) -> Option<u32>
    ensures { result ≡ asking.refers_to old.now row }
{
    match old.view.sight.world.under.table.get(row as usize) {
        Some(Referent::Declared { row, .. }) => Some(*row),
        _ => None,
    }
}

// What a request for a declaration means: a constructor stands for its class.
fn meant(rows: &[Row], declared: Option<u32>) -> Option<u32>
    ensures { result ≡ asking.meant rows.now declared }
{
    let row = declared?;
    match role_at(rows, row) {
        Role::Nothing => None,
        Role::Constructor => constructed_class(rows, row),
        _ => Some(row),
    }
}

// The declaration that a row is or to which it refers, if any.
fn declaration_at(old: &Project, row: u32) -> Option<u32>
    ensures { result ≡ asking.declaration_at old.now row }
{
    let rows = old.marks.rows;
    match role_at(rows, row) {
        Role::Nothing => meant(rows, refers_to(old, row)),
        _ => meant(rows, Some(row)),
    }
}

/// The declaration whose name, or the name of an occurrence of which, holds the offset of a file, in the prelude too; None where the identifier there
/// names a package, the length of an array, or what a static import brings.
pub fn named_at(old: &Project, file: &[u8], at: u32) -> Result<Option<u32>, ChangeFault>
    ensures { IsOrdered old.now.marks → result ≡ asking.named_at old.now file.now at }
{
    let Some(unit) = unit_of_file(&old.marks, file) else {
        return Err(ChangeFault::Bad(Reason::NoFile));
    };
    let Some(row) = old.marks.row_at(unit, at) else {
        return Err(ChangeFault::Bad(Reason::NoIdentifier));
    };
    Ok(declaration_at(old, row))
}

/// The same, but for declarations of the prelude, which are not changed.
pub fn asked(old: &Project, file: &[u8], at: u32) -> Result<Option<u32>, ChangeFault>
    ensures { IsOrdered old.now.marks → result ≡ asking.asked old.now file.now at }
{
    match named_at(old, file, at)? {
        Some(declared) => {
            if is_in_prelude(&old.marks, declared) {
                Err(ChangeFault::Bad(Reason::InPrelude))
            } else {
                Ok(Some(declared))
            }
        }
        None => Ok(None),
    }
}
