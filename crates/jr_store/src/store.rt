// A store of named files as its callers see it: what reads give, and what a crash may leave.
ghost use Rattle.std.specs.Prelude.{◌≡◌, ◌≤◌, ℕ, List, length, Option, Some, None, IfOk, OnOk, IfSome, bytes_eq, option_map};
ghost use Rattle.std.specs.List.{IsDistinct};
ghost use Rattle.jr_store.specs.Image.{Image, ChangesOnly, Puts, Tells, Lists, Reads, AreJava, Follows, OnlyTold, Elapses, HasCause, HasStoreCause};

use jr_base::{OutOfMemory, Path};
use std::alloc::Global;

/// A call that failed, and counted a fault.
#[derive(Clone, Copy, Debug, PartialEq, Eq)]
pub struct Failed;

/// Why a call of a store that takes memory gave nothing: a counted fault, or want of memory.
#[derive(Clone, Copy, Debug, PartialEq, Eq)]
pub enum StoreError {
    Failed,
    OutOfMemory,
}

impl From<OutOfMemory> for StoreError {
    ghost use Rattle.jr_store.specs.declared.store.StoreError.TheVariants.{OutOfMemory};

    ghost from_gives = { λ _ e. e ≡ OutOfMemory };

    fn from(_: OutOfMemory) -> Self {
        StoreError::OutOfMemory
    }
}

impl From<Failed> for StoreError {
    ghost use Rattle.jr_store.specs.declared.store.StoreError.TheVariants.{Failed};

    ghost from_gives = { λ _ e. e ≡ Failed };

    fn from(_: Failed) -> Self {
        StoreError::Failed
    }
}

/// A folder of files.
pub trait Store {
    /// What reads give now: a store that doesn't tell has `None`.
    ghost files: { Self → Option Image };

    /// What a crash at this moment may leave.
    ghost may_leave: { Self → Image → Type 0 };

    /// The moment, as a number that doesn't fall.
    ghost moment: { Self → ℕ };

    /// What a crash at some moment from that one on might have left, during a call or between two.
    ghost left_since: { Self → ℕ → Image → Type 0 };

    /// How often the store has failed.
    ghost faults: { Self → ℕ };

    /// Distinct paths of files that end in `.java`: all where there are at most `most`, else some `most` of them.
    fn list(&mut self, alloc: Global, most: u32) -> Result<Vec<Path>, StoreError>
        ensures distinct { IfOk result (λ v. IsDistinct bytes_eq v.items) }
        ensures java { IfOk result (λ v. AreJava v.items) }
        ensures at_most { IfOk result (λ v. length v.items ≤ most) }
        ensures listed { IfOk result (λ v. Lists (files self.old) most v.items) }
        ensures told { files self.new ≡ files self.old }
        ensures crash { (c : Image) → may_leave self.new c → may_leave self.old c }
        ensures time { Elapses (moment self.old) (moment self.new) (left_since self.old) (left_since self.new) (may_leave self.new) }
        ensures cause { HasStoreCause (faults self.old) (faults self.new) result };

    /// The first `most` bytes of a file, or `None` where there is none.
    fn read(&mut self, alloc: Global, path: &Path, most: u32) -> Result<Option<Vec<u8>>, StoreError>
        ensures at_most { IfOk result (λ o. IfSome o (λ v. length v.items ≤ most)) }
        ensures bytes { IfOk result (λ o. Reads (files self.old) path.now most (option_map (λ v. v.items) o)) }
        ensures told { files self.new ≡ files self.old }
        ensures crash { (c : Image) → may_leave self.new c → may_leave self.old c }
        ensures time { Elapses (moment self.old) (moment self.new) (left_since self.old) (left_since self.new) (may_leave self.new) }
        ensures cause { HasStoreCause (faults self.old) (faults self.new) result };

    /// Makes the file hold the bytes. Until a sync, a crash may leave any bytes at the path, or no file.
    fn write(&mut self, path: &Path, bytes: &[u8]) -> Result<(), Failed>
        ensures told { Tells (files self.old) (files self.new) (ChangesOnly path.now) }
        ensures written { OnOk result (Tells (files self.old) (files self.new) (Puts path.now (Some bytes.now))) }
        ensures crash { Follows (ChangesOnly path.now) (may_leave self.old) (may_leave self.new) }
        ensures time { Elapses (moment self.old) (moment self.new) (left_since self.old) (left_since self.new) (may_leave self.new) }
        ensures cause { HasCause (faults self.old) (faults self.new) result };

    /// Removes the file. Until a sync, a crash may leave any bytes at the path, or no file.
    fn remove(&mut self, path: &Path) -> Result<(), Failed>
        ensures told { Tells (files self.old) (files self.new) (ChangesOnly path.now) }
        ensures removed { OnOk result (Tells (files self.old) (files self.new) (Puts path.now None)) }
        ensures crash { Follows (ChangesOnly path.now) (may_leave self.old) (may_leave self.new) }
        ensures time { Elapses (moment self.old) (moment self.new) (left_since self.old) (left_since self.new) (may_leave self.new) }
        ensures cause { HasCause (faults self.old) (faults self.new) result };

    /// After it, a crash leaves what reads give.
    fn sync(&mut self) -> Result<(), Failed>
        ensures durable { OnOk result (OnlyTold (files self.old) (may_leave self.new)) }
        ensures told { files self.new ≡ files self.old }
        ensures crash { (c : Image) → may_leave self.new c → may_leave self.old c }
        ensures time { Elapses (moment self.old) (moment self.new) (left_since self.old) (left_since self.new) (may_leave self.new) }
        ensures cause { HasCause (faults self.old) (faults self.new) result };

    /// What reads give is one of the images that a crash now may leave.
    ghost reads_now: { (store : Self) (f : Image) → files store ≡ Some f → may_leave store f };

    /// This moment is one of those since an earlier one.
    ghost counts_now: { (store : Self) (t : ℕ) (c : Image) → t ≤ moment store → may_leave store c → left_since store t c };

    /// Since this moment there is no other.
    ghost only_now: { (store : Self) (c : Image) → left_since store (moment store) c → may_leave store c };
}
