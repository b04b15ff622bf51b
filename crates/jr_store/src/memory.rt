// A store in memory. It keeps the files that it was made with, and a record of each write, removal and sync since.
ghost use Rattle.std.specs.Prelude.{◌≡◌, ◌≤◌, ℕ, List, [], ◌∷◌, ◌++◌, length, take, Some, None, Contains, IfOk, OnOk, OnErr, MatchResult, option_map, ◌⊎◌};
ghost use Rattle.jr_base.specs.Files.{FileMap, plain};
ghost use Rattle.jr_store.specs.Calls.{IsFull};
ghost use Rattle.jr_store.specs.Image.{Image, ChangesOnly, HasCause};
ghost use Rattle.jr_store.specs.Listing.{java_paths};
ghost use Rattle.jr_store.specs.Record.{kept_call};
ghost use Rattle.jr_store.specs.Replay.{State, IsLeft, KeepsOne, Replays, image_of, state_of, after_call};
ghost use Rattle.jr_store.specs.Sides.{put_side};

use crate::calls::Calls;
use crate::record::{Action, KeptCall, Record};
use crate::{Failed, Store, StoreError};
use jr_base::{Files, OutOfMemory, Path};
use std::alloc::Global;

#[derive(Drop)]
pub struct MemStore {
    files: Files,
    kept: Record,
    calls: Calls,
}

impl MemStore {
    ghost use Rattle.jr_store.specs.Memory.{state_now, files_now, LeftSince, LeftByCrashIn, IsNew};

    /// A store that holds these files, none of them pending. Of its calls, which are numbered from 1, those with the
    /// failing numbers fail. Memory for 16,384 writes, removals and syncs, and for 64 MiB of their paths and contents,
    /// is taken here; a call past it fails.
    pub fn new(alloc: Global, files: Files, failing: Vec<u64>) -> Result<MemStore, OutOfMemory>
        ensures { IfOk result (λ store. IsNew store files failing.items) }
    {
        Ok(MemStore {
            files,
            kept: Record::new(alloc)?,
            calls: Calls::new(failing),
        })
    }

    /// The files that the store holds now.
    pub fn files(&self, alloc: Global) -> Result<Files, OutOfMemory>
        ensures { IfOk result (λ files. image_of files ≡ files_now self.now) }
    {
        let replayed = replay(alloc, &self.files, &self.kept, self.kept.len(), 0)?;
        Ok(replayed.now)
    }

    /// What a crash in the call with this number leaves, by a choice: 0 is before the first call, and a number past
    /// the last is now. The new store has had no call, nothing in it is pending, and none of its calls is to fail.
    pub fn image(&self, alloc: Global, call: u64, pick: u64) -> Result<MemStore, OutOfMemory>
        ensures { IfOk result (λ store. (files : FileMap) × IsNew store files []
            × LeftByCrashIn self.now call (image_of files) × LeftSince self.now 0 (image_of files)) }
    {
        // The lowest digit says whether the call has had its effect.
        let last = if pick % 2 == 0 {
            call
        } else {
            call.saturating_sub(1)
        };
        let count = self.kept.count_until(last);
        let replayed = replay(alloc, &self.files, &self.kept, count, pick / 2)?;
        MemStore::new(alloc, replayed.left, Vec::new(alloc))
    }

    // What the store holds at a path.
    fn found_at(&self, path: &Path) -> Option<&[u8]>
        ensures { option_map (λ b. b.now) result ≡ files_now self.now path.now }
    {
        let mut found = match self.files.get(path) {
            Some(bytes) => Some(bytes.as_slice()),
            None => None,
        };
        for index in 0..self.kept.len() {
            if let Some(call) = self.kept.get(index) {
                found = found_after(found, call, path.bytes());
            }
        }
        found
    }

    // Keeps a call, or counts a fault where the record is full.
    fn keep(&mut self, call: KeptCall<'_>) -> Result<(), Failed>
        ensures files { self.new.files ≡ self.old.files }
        ensures ok { OnOk result (self.new.kept ≡ self.old.kept ++ kept_call call.entry ∷ []) }
        ensures err { OnErr result (self.new.kept ≡ self.old.kept) }
        ensures full { OnErr result (IsFull self.old.kept call.entry.path.now call.entry.bytes.now) }
        ensures cause { HasCause self.old.calls.faults self.new.calls.faults result }
    {
        match self.kept.push(call) {
            Ok(()) => Ok(()),
            Err(Failed) => Err(self.calls.fault()),
        }
    }

    // A write or a removal. One that is to fail is kept as in doubt where there is room.
    fn change(&mut self, action: Action, path: &Path, bytes: &[u8]) -> Result<(), Failed>
        ensures files { self.new.files ≡ self.old.files }
        ensures ok { OnOk result (KeepsOne action path.now bytes.now self.old.kept self.new.kept) }
        ensures err { OnErr result ((self.new.kept ≡ self.old.kept) ⊎ KeepsOne Action.Unsure path.now bytes.now self.old.kept self.new.kept) }
        ensures asked { OnErr result (Contains self.old.calls.failing.items self.new.calls.made ⊎ IsFull self.old.kept path.now bytes.now) }
        ensures cause { HasCause self.old.calls.faults self.new.calls.faults result }
    {
        let path = path.bytes();
        match self.calls.next() {
            Ok(number) => self.keep(KeptCall {
                number,
                action,
                path,
                bytes,
            }),
            Err(Failed) => {
                let number = self.calls.made();
                let _ = self.kept.push(KeptCall {
                    number,
                    action: Action::Unsure,
                    path,
                    bytes,
                });
                Err(Failed)
            }
        }
    }
}

// What stands at a path after one call more.
fn found_after<'a>(found: Option<&'a [u8]>, call: KeptCall<'a>, path: &[u8]) -> Option<&'a [u8]>
    ensures { (s : State) → option_map (λ b. b.now) found.entry ≡ s.0 path.now
        → option_map (λ b. b.now) result ≡ (after_call (kept_call call.entry) s).0 path.now }
{
    match call.action {
        Action::Wrote => {
            if path == call.path {
                Some(call.bytes)
            } else {
                found
            }
        }
        Action::Removed => { if path == call.path { None } else { found } }
        Action::Unsure | Action::Synced => found,
    }
}

// The path of these bytes, which are those of a path, so that only memory can be wanting.
fn path_of(alloc: Global, bytes: &[u8]) -> Result<Path, OutOfMemory>
    ensures { IfOk result (λ path. path ≡ bytes.now) }
{
    match Path::parse(alloc, bytes) {
        Ok(path) => Ok(path),
        Err(_) => Err(OutOfMemory),
    }
}

// Puts a side at a path.
fn set_side(
    alloc: Global,
    files: &mut Files,
    path: &[u8],
    side: Option<&[u8]>,
) -> Result<(), OutOfMemory>
    ensures { OnOk result (image_of files.new ≡ put_side path.now (option_map (λ b. b.now) side.entry) (image_of files.old)) }
{
    let path = path_of(alloc, path)?;
    match side {
        None => {
            files.remove(&path);
            Ok(())
        }
        Some(bytes) => {
            let bytes = bytes.to_vec(alloc)?;
            files.insert(path, bytes)
        }
    }
}

// Leaves the path of a call as a crash may, by a choice: the new side, what was there, no file, or a prefix of the
// new bytes.
fn tear(alloc: Global, left: &mut Files, call: KeptCall<'_>, pick: u64) -> Result<(), OutOfMemory>
    ensures { OnOk result (ChangesOnly call.entry.path.now (image_of left.old) (image_of left.new)) }
{
    let side = match pick % 4 {
        0 => new_side(call),
        1 => return Ok(()),
        2 => None,
        _ => Some(prefix(call.bytes, pick / 4)),
    };
    set_side(alloc, left, call.path, side)
}

fn new_side<'a>(call: KeptCall<'a>) -> Option<&'a [u8]> {
    match call.action {
        Action::Removed => None,
        Action::Wrote | Action::Unsure | Action::Synced => Some(call.bytes),
    }
}

// A prefix of the bytes, not all of them where there are some.
fn prefix(bytes: &[u8], pick: u64) -> &[u8] {
    let count = pick % (bytes.len() as u64).max(1);
    &bytes[..count as usize]
}

// The files that reads give, and files that a crash leaves.
#[derive(Drop)]
struct Replayed {
    now: Files,
    left: Files,
}

// The files after the first calls of a record, by a choice of what a crash leaves.
fn replay(
    alloc: Global,
    files: &Files,
    kept: &Record,
    count: usize,
    pick: u64,
) -> Result<Replayed, OutOfMemory>
    ensures { IfOk result (λ replayed. Replays (state_of files.now (take count kept.now)) (image_of replayed.now) (image_of replayed.left)) }
{
    let mut replayed = Replayed {
        now: files.copy(alloc)?,
        left: files.copy(alloc)?,
    };
    let mut choice = pick;
    for index in 0..count {
        if let Some(call) = kept.get(index) {
            replay_call(alloc, &mut replayed, call, choice)?;
            choice /= 4;
        }
    }
    Ok(replayed)
}

// One call more.
fn replay_call(
    alloc: Global,
    replayed: &mut Replayed,
    call: KeptCall<'_>,
    pick: u64,
) -> Result<(), OutOfMemory>
    ensures { OnOk result ((s : State) → Replays s (image_of replayed.old.now) (image_of replayed.old.left) → Replays (after_call (kept_call call.entry) s) (image_of replayed.new.now) (image_of replayed.new.left)) }
{
    match call.action {
        Action::Wrote => set_side(alloc, &mut replayed.now, call.path, Some(call.bytes))?,
        Action::Removed => set_side(alloc, &mut replayed.now, call.path, None)?,
        Action::Unsure => {}
        Action::Synced => {
            replayed.left = replayed.now.copy(alloc)?;
            return Ok(());
        }
    }
    tear(alloc, &mut replayed.left, call, pick)
}

// The first `most` paths that end in `.java`.
fn java_paths(
    alloc: Global,
    entries: &[(Path, Vec<u8>)],
    most: usize,
) -> Result<Vec<Path>, OutOfMemory>
    ensures { IfOk result (λ paths. paths.items ≡ take most (java_paths (plain entries.now))) }
{
    let mut paths = Vec::new(alloc);
    for entry in entries {
        if entry.0.is_java() {
            if paths.len() == most {
                return Ok(paths);
            }
            paths.push(entry.0.copy(alloc)?)?;
        }
    }
    Ok(paths)
}

fn first_bytes(alloc: Global, bytes: &[u8], most: usize) -> Result<Vec<u8>, OutOfMemory>
    ensures { IfOk result (λ copy. copy.items ≡ take most bytes.now) }
{
    if bytes.len() <= most {
        Ok(bytes.to_vec(alloc)?)
    } else {
        Ok(bytes[..most].to_vec(alloc)?)
    }
}

impl Store for MemStore {
    ghost use Rattle.jr_store.specs.Memory.{state_now, files_now, LeftSince};
    ghost use Rattle.jr_store.specs.MemoryLaws.{memory_reads_now, memory_counts_now, memory_only_now};

    ghost files = { λ m. Some (files_now m) };

    ghost may_leave = { λ m. IsLeft (state_now m) };

    ghost moment = { λ m. length m.kept };

    ghost left_since = { LeftSince };

    ghost faults = { λ m. m.calls.faults };

    ghost reads_now = { memory_reads_now };

    ghost counts_now = { memory_counts_now };

    ghost only_now = { memory_only_now };

    fn list(&mut self, alloc: Global, most: u32) -> Result<Vec<Path>, StoreError> {
        self.calls.next()?;
        let files = self.files(alloc)?;
        Ok(java_paths(alloc, files.entries(), most as usize)?)
    }

    fn read(
        &mut self,
        alloc: Global,
        path: &Path,
        most: u32,
    ) -> Result<Option<Vec<u8>>, StoreError> {
        self.calls.next()?;
        match self.found_at(path) {
            Some(bytes) => Ok(Some(first_bytes(alloc, bytes, most as usize)?)),
            None => Ok(None),
        }
    }

    fn write(&mut self, path: &Path, bytes: &[u8]) -> Result<(), Failed> {
        self.change(Action::Wrote, path, bytes)
    }

    fn remove(&mut self, path: &Path) -> Result<(), Failed> {
        self.change(Action::Removed, path, b"")
    }

    fn sync(&mut self) -> Result<(), Failed> {
        let number = self.calls.next()?;
        self.keep(KeptCall {
            number,
            action: Action::Synced,
            path: b"",
            bytes: b"",
        })
    }
}
