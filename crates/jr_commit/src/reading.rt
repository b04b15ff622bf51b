// Reading a journal.
ghost use Rattle.std.specs.Prelude.{◌≡◌, ◌≤◌, ◌↔◌, ◌^◌, ◌<◌, ℕ, List, length, IfOk, IfSome, IfNone, IsTrue};
ghost use Rattle.std.specs.List.{AllByRecursion};
ghost use Rattle.jr_commit.specs.Entries.{PlainEntry, known_of, plain_of, plain, raw_of, raw, names_of};
ghost use Rattle.jr_commit.specs.Journal.{IsJournal, IsChange, IsRising, most_bytes, fewest};
ghost use Rattle.jr_commit.specs.Reading.{Gives, number_at, string_at, side_at, tagged_at, sided_at, entry_at, entries_at, version_at, journal_at};
ghost use Rattle.jr_commit.specs.declared.reading.ReadFault.TheVariants.{Memory};

use crate::entry::{Entry, Journal, RawEntry, Side, Version};
use jr_base::{OutOfMemory, Path, PathFault};
use std::alloc::{AllocError, AllocFailed, Global};
use std::cmp::Ordering;

const MAGIC_1: [u8; 5] = [b'J', b'R', b'J', b'1', b'\n'];

const MAGIC_2: [u8; 5] = [b'J', b'R', b'J', b'2', b'\n'];

const END: [u8; 4] = [b'E', b'N', b'D', b'\n'];

/// The most bytes of a journal of version 1.
const MOST_1: usize = 33_554_432;

/// The most bytes of a journal.
const MOST_2: usize = 50_331_648;

#[derive(Debug, Drop)]
pub enum ReadFault {
    Memory,
    Bad,
}

impl From<AllocError> for ReadFault {
    ghost from_gives = { λ _ e. e ≡ Memory };

    fn from(_: AllocError) -> ReadFault {
        ReadFault::Memory
    }
}

impl<T: Drop> From<AllocFailed<T>> for ReadFault {
    ghost from_gives = { λ _ e. e ≡ Memory };

    fn from(_: AllocFailed<T>) -> ReadFault {
        ReadFault::Memory
    }
}

fn number_of(bytes: &[u8]) -> Result<(u32, &[u8]), ReadFault>
    ensures { Gives (λ x. (x.0, x.1.now)) result (number_at bytes.now) }
{
    if bytes.len() < 4 {
        return Err(ReadFault::Bad);
    }
    let (front, rest) = bytes.split_at(4);
    let number = u32::from_be_bytes([front[0], front[1], front[2], front[3]]);
    Ok((number, rest))
}

#[tactic(auto, unfolding(crate::specs::Reading::string_at))]
fn string_of(alloc: Global, bytes: &[u8]) -> Result<(Vec<u8>, &[u8]), ReadFault>
    ensures { Gives (λ x. (x.0.items, x.1.now)) result (string_at bytes.now) }
{
    let (len, rest) = number_of(bytes)?;
    let len = len as usize;
    if rest.len() < len {
        return Err(ReadFault::Bad);
    }
    let (text, rest) = rest.split_at(len);
    Ok((Vec::from_slice(alloc, text)?, rest))
}

#[tactic(auto, unfolding(crate::specs::Reading::side_at))]
fn side_of(alloc: Global, bytes: &[u8]) -> Result<(Side, &[u8]), ReadFault>
    ensures { Gives (λ x. (known_of x.0, x.1.now)) result (side_at bytes.now) }
{
    match bytes {
        [b'F', rest @ ..] => {
            let (bytes, rest) = string_of(alloc, rest)?;
            Ok((Side::Holds(bytes), rest))
        }
        [b'A', rest @ ..] => Ok((Side::Absent, rest)),
        _ => Err(ReadFault::Bad),
    }
}

// An entry of version 1.
#[tactic(auto, unfolding(crate::specs::Reading::tagged_at))]
fn tagged_entry(alloc: Global, bytes: &[u8]) -> Result<(RawEntry, &[u8]), ReadFault>
    ensures { Gives (λ x. (raw_of x.0, x.1.now)) result (tagged_at bytes.now) }
{
    match bytes {
        [b'F', rest @ ..] => {
            let (path, rest) = string_of(alloc, rest)?;
            let (bytes, rest) = string_of(alloc, rest)?;
            let old = Side::Holds(bytes);
            let new = Side::Unknown;
            Ok((RawEntry { path, old, new }, rest))
        }
        [b'A', rest @ ..] => {
            let (path, rest) = string_of(alloc, rest)?;
            let old = Side::Absent;
            let new = Side::Unknown;
            Ok((RawEntry { path, old, new }, rest))
        }
        _ => Err(ReadFault::Bad),
    }
}

// An entry of version 2.
#[tactic(auto, unfolding(crate::specs::Reading::sided_at))]
fn sided_entry(alloc: Global, bytes: &[u8]) -> Result<(RawEntry, &[u8]), ReadFault>
    ensures { Gives (λ x. (raw_of x.0, x.1.now)) result (sided_at bytes.now) }
{
    let (path, rest) = string_of(alloc, bytes)?;
    let (old, rest) = side_of(alloc, rest)?;
    let (new, rest) = side_of(alloc, rest)?;
    Ok((RawEntry { path, old, new }, rest))
}

fn entry_of(alloc: Global, version: Version, bytes: &[u8]) -> Result<(RawEntry, &[u8]), ReadFault>
    ensures { Gives (λ x. (raw_of x.0, x.1.now)) result (entry_at version bytes.now) }
{
    match version {
        Version::One => tagged_entry(alloc, bytes),
        Version::Two => sided_entry(alloc, bytes),
    }
}

fn entries(
    alloc: Global,
    version: Version,
    count: u32,
    bytes: &[u8],
) -> Result<(Vec<RawEntry>, &[u8]), ReadFault>
    ensures { Gives (λ x. (raw x.0.items, x.1.now)) result (entries_at version count bytes.now) }
{
    let mut entries = Vec::new(alloc);
    let mut rest = bytes;
    for _ in 0..count {
        let (entry, after) = entry_of(alloc, version, rest)?;
        entries.push(entry)?;
        rest = after;
    }
    Ok((entries, rest))
}

#[tactic(auto, unfolding(crate::specs::Reading::version_at))]
fn version_of(bytes: &[u8]) -> Result<(Version, &[u8]), ReadFault>
    ensures { Gives (λ x. (x.0, x.1.now)) result (version_at bytes.now) }
{
    if bytes.len() < 5 {
        return Err(ReadFault::Bad);
    }
    let (front, rest) = bytes.split_at(5);
    if front == MAGIC_1.as_slice() {
        Ok((Version::One, rest))
    } else if front == MAGIC_2.as_slice() {
        Ok((Version::Two, rest))
    } else {
        Err(ReadFault::Bad)
    }
}

#[tactic(auto, unfolding(crate::specs::Reading::journal_at))]
fn all(alloc: Global, bytes: &[u8]) -> Result<(Version, Vec<RawEntry>), ReadFault>
    ensures { Gives (λ x. (x.0, raw x.1.items)) result (journal_at bytes.now) }
{
    let (version, rest) = version_of(bytes)?;
    let (count, rest) = number_of(rest)?;
    let (entries, rest) = entries(alloc, version, count, rest)?;
    if rest == END.as_slice() {
        Ok((version, entries))
    } else {
        Err(ReadFault::Bad)
    }
}

// The most bytes of a journal.
fn most(version: Version) -> usize
    ensures { result ≡ most_bytes version }
{
    match version {
        Version::One => MOST_1,
        Version::Two => MOST_2,
    }
}

// The fewest entries of a journal.
fn fewest(version: Version) -> usize
    ensures { result ≡ fewest version }
{
    match version {
        Version::One => 0,
        Version::Two => 1,
    }
}

// Whether each path is below the next.
fn rises(entries: &[RawEntry]) -> bool
    ensures { IsTrue result ↔ IsRising (names_of (raw entries.now)) }
{
    let mut rest = entries;
    while let [first, after @ ..] = rest {
        if let [second, ..] = after {
            match first.path.as_slice().cmp(second.path.as_slice()) {
                Ordering::Less => (),
                Ordering::Equal | Ordering::Greater => return false,
            }
        }
        rest = after;
    }
    true
}

// The entry, or None where it is no change of a Java file.
fn checked(alloc: Global, entry: RawEntry) -> Result<Option<Entry>, OutOfMemory>
    ensures found { IfOk result (λ o. IfSome o (λ e. (plain_of e ≡ raw_of entry) × IsChange (raw_of entry))) }
    ensures none { IfOk result (λ o. IfNone o (IsChange (raw_of entry) → ⊥)) }
{
    let path = match Path::parse(alloc, &entry.path) {
        Ok(path) => path,
        Err(PathFault::OutOfMemory) => return Err(OutOfMemory),
        Err(_) => return Ok(None),
    };
    if !path.is_java() {
        return Ok(None);
    }
    let RawEntry { path: _, old, new } = entry;
    if old.is_same(&new) {
        return Ok(None);
    }
    Ok(Some(Entry { path, old, new }))
}

// The entries, or None where one of them is no change of a Java file.
fn all_checked(alloc: Global, entries: Vec<RawEntry>) -> Result<Option<Vec<Entry>>, OutOfMemory>
    ensures found { IfOk result (λ o. IfSome o (λ v. (plain v.items ≡ raw entries.items) × AllByRecursion IsChange (raw entries.items))) }
    ensures none { IfOk result (λ o. IfNone o (AllByRecursion IsChange (raw entries.items) → ⊥)) }
{
    let mut changes = Vec::new(alloc);
    for entry in entries {
        match checked(alloc, entry)? {
            Some(change) => changes.push(change)?,
            None => return Ok(None),
        }
    }
    Ok(Some(changes))
}

/// The version of a journal and its entries, or None where the bytes are in neither grammar.
pub fn read_journal(alloc: Global, bytes: &[u8]) -> Result<Option<Journal>, OutOfMemory>
    ensures found { IfOk result (λ o. IfSome o (λ j. IsJournal j.version bytes.now (plain j.entries.items))) }
    ensures only { IfOk result (λ o. IfSome o (λ j. (n : ℕ) (es : List PlainEntry) → IsJournal n bytes.now es → (n ≡ j.version) × (es ≡ plain j.entries.items))) }
    ensures none { IfOk result (λ o. IfNone o ((n : ℕ) (es : List PlainEntry) → IsJournal n bytes.now es → ⊥)) }
    ensures count { IfOk result (λ o. IfSome o (λ j. length j.entries.items < 2 ^ 32)) }
{
    let (version, entries) = match all(alloc, bytes) {
        Ok(read) => read,
        Err(ReadFault::Bad) => return Ok(None),
        Err(ReadFault::Memory) => return Err(OutOfMemory),
    };
    if bytes.len() > most(version) || entries.len() < fewest(version) {
        return Ok(None);
    }
    if !rises(&entries) {
        return Ok(None);
    }
    match all_checked(alloc, entries)? {
        Some(entries) => Ok(Some(Journal {
            version: version.number(),
            entries,
        })),
        None => Ok(None),
    }
}
