// One file in a store in memory, and where it may stand afterwards.
use jr_base::OutOfMemory;
use jr_store::MemStore;
use std::alloc::Global;

/// What the file holds.
pub const OLD: &str = "class A { static int f(int a) { return a + 1; } }";

/// A store that holds the file. The call with this number fails, counted from 1.
pub fn store_of(alloc: Global, failing: u64) -> Result<MemStore, OutOfMemory> {
    crate::files::store_of(alloc, &[("A.java", OLD)], failing)
}

/// Whether `A.java` and `p/A.java` hold these texts. The empty text stands for no file.
pub fn are_left(
    alloc: Global,
    store: &MemStore,
    here: &str,
    there: &str,
) -> Result<bool, OutOfMemory> {
    crate::files::are_left(alloc, store, &[("A.java", here), ("p/A.java", there)])
}
