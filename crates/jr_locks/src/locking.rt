// The locks of a changed program.

ghost use Rattle.std.specs.Prelude.{◌≡◌, IfOk, IfSome, length};
ghost use Rattle.jr_defs.specs.Referents.{entries};
ghost use Rattle.jr_locks.specs.Changed.{IsChanged, copies_by, origins_by};
ghost use Rattle.jr_locks.specs.Locked.{AllLocked};

use crate::agreeing::{Copying, numbers_of};
use crate::moving::{Copies, set_added, table_of};
use crate::origins::origins_of;
use jr_base::OutOfMemory;
use jr_change::{Change, Locks};
use jr_defs::Referent;
use jr_tree::Row;
use std::alloc::Global;

// The locks by the origins of rows.
#[tactic(auto, using(crate::proofs::Locked::locked_by, crate::proofs::Changing::copies_by_told))]
fn locks_by(
    alloc: Global,
    old: u32,
    table: &[Referent],
    change: &Change,
    origin: Vec<u32>,
) -> Result<Locks, OutOfMemory>
    ensures origin { IfOk result (λ locks. locks.origin.items ≡ origin.items) }
    ensures copy { IfOk result (λ locks. locks.copy.items ≡ copies_by origin.items old) }
    ensures locked { IfOk result (λ locks. AllLocked change.now.inner origin.items old (entries table.now) change.now.raised change.now.added.items (entries locks.table.items) (length origin.items)) }
{
    let copies = Copies::of(alloc, &origin, change.inner, old)?;
    let mut table = table_of(alloc, &origin, &copies, change.raised, table)?;
    set_added(&mut table, &copies, &change.added);
    Ok(Locks {
        origin,
        copy: copies.first,
        table,
    })
}

/// How the rows of the changed program stand to the old ones, and what they must refer to: `table` is what the old rows refer to. None where the
/// rows are not those that the change says: each copy has the label of its origin, unless it is turned, and its identifier or the one that the change
/// gives it, and ends where its origin does.
#[tactic(auto, using(crate::proofs::Changing::changed_by))]
pub fn locks(
    alloc: Global,
    old: &[Row],
    table: &[Referent],
    change: &Change,
    new: &[Row],
) -> Result<Option<Locks>, OutOfMemory>
    ensures origin { IfOk result (λ found. IfSome found (λ locks. locks.origin.items ≡ origins_by change.now)) }
    ensures copy { IfOk result (λ found. IfSome found (λ locks. locks.copy.items ≡ copies_by (origins_by change.now) (length old.now))) }
    ensures changed { IfOk result (λ found. IfSome found (λ locks. IsChanged old.now (entries table.now) change.now new.now (entries locks.table.items))) }
{
    let Ok(count) = u32::try_from(old.len()) else {
        return Err(OutOfMemory);
    };
    let Some(origins) = origins_of(alloc, &change.segments, old.len(), new.len())? else {
        return Ok(None);
    };
    let numbers = numbers_of(alloc, &change.namings, old.len())?;
    let copying = Copying {
        old,
        namings: &change.namings,
        numbers: &numbers,
    };
    if !copying.are_copies(&origins, new) {
        return Ok(None);
    }
    let locks = locks_by(alloc, count, table, change, origins.origin)?;
    Ok(Some(locks))
}
