// Journals of both versions are put back, others are refused, and what a crash leaves of a commit is recovered to all of it or to nothing.
use crate::limits::plan_of;
use jr_base::{Files, Path};
use jr_commit::{RecoverFault, Recovered, commit, recover};
use jr_store::{MemStore, Store};
use std::alloc::Global;
use std::test::Fail;

/// What is to stand at a path.
type At = (&'static str, Option<&'static [u8]>);

fn files_of(alloc: Global, rows: &[At]) -> Result<Files, Fail> {
    let mut files = Files::new(alloc);
    for (path, bytes) in rows {
        if let Some(bytes) = bytes {
            files.insert(Path::parse(alloc, path.as_bytes())?, bytes.to_vec(alloc)?)?;
        }
    }
    Ok(files)
}

/// Whether this stands at the path.
fn holds(files: &Files, path: &str, wanted: Option<&[u8]>) -> bool {
    for (found, bytes) in files.entries() {
        if found.bytes() == path.as_bytes() {
            return match wanted {
                Some(wanted) => bytes.as_slice() == wanted,
                None => false,
            };
        }
    }
    wanted.is_none()
}

fn holds_all(files: &Files, rows: &[At]) -> bool {
    for (path, wanted) in rows {
        if !holds(files, path, *wanted) {
            return false;
        }
    }
    true
}

/// What recovery says.
#[derive(Clone, Copy, Debug, PartialEq, Eq)]
enum Said {
    Clean,
    RolledBack(u32),
    BadJournal,
    Other,
}

fn recovery<S: Store>(alloc: Global, store: &mut S) -> Said {
    match recover(alloc, store) {
        Ok(Recovered::Clean) => Said::Clean,
        Ok(Recovered::RolledBack(count)) => Said::RolledBack(count),
        Err(RecoverFault::BadJournal) => Said::BadJournal,
        Err(_) => Said::Other,
    }
}

/// A store with an open gate over a journal, if there is one, and one file.
fn stopped(alloc: Global, journal: Option<&'static [u8]>) -> Result<MemStore, Fail> {
    let files = files_of(
        alloc,
        &[
            (".refactor-gate", Some(b"1")),
            (".refactor-journal", journal),
            ("A.java", Some(b"x")),
        ],
    )?;
    Ok(MemStore::new(alloc, files, Vec::new(alloc))?)
}

const VERSION_1: &[u8] =
    b"JRJ1\n\x00\x00\x00\x01F\x00\x00\x00\x06A.java\x00\x00\x00\x0bclass A { }END\n";

const VERSION_2: &[u8] =
    b"JRJ2\n\x00\x00\x00\x01\x00\x00\x00\x06A.javaF\x00\x00\x00\x12class A { int a; }F\x00\x00\x00\x12class A { int b; }END\n";

/// The first version and one byte more.
const LONGER: &[u8] =
    b"JRJ1\n\x00\x00\x00\x01F\x00\x00\x00\x06A.java\x00\x00\x00\x0bclass A { }END\n\n";

/// The second version without its last byte.
const CUT: &[u8] =
    b"JRJ2\n\x00\x00\x00\x01\x00\x00\x00\x06A.javaF\x00\x00\x00\x12class A { int a; }F\x00\x00\x00\x12class A { int b; }END";

/// Journals, what recovery says at first and then, and what stands at `A.java` behind it.
const JOURNALS: [(Option<&[u8]>, Said, Said, &[u8]); 6] = [
    (
        Some(VERSION_1),
        Said::RolledBack(1),
        Said::Clean,
        b"class A { }",
    ),
    (
        Some(VERSION_2),
        Said::RolledBack(1),
        Said::Clean,
        b"class A { int a; }",
    ),
    (Some(LONGER), Said::BadJournal, Said::BadJournal, b"x"),
    (Some(CUT), Said::BadJournal, Said::BadJournal, b"x"),
    (Some(b""), Said::BadJournal, Said::BadJournal, b"x"),
    (None, Said::BadJournal, Said::BadJournal, b"x"),
];

#[test]
fn journals_are_put_back_or_refused(rt: HostRuntime) -> Result<(), Fail> {
    let alloc = rt.alloc();
    for (journal, first, second, bytes) in JOURNALS {
        let mut store = stopped(alloc, journal)?;
        assert_eq!(rt; recovery(alloc, &mut store), first);
        assert_eq!(rt; recovery(alloc, &mut store), second);
        let files = store.files(alloc)?;
        assert!(rt; holds(&files, "A.java", Some(bytes)));
    }
    Ok(())
}

const OLD: [At; 3] = [
    ("A.java", Some(b"a")),
    ("B.java", Some(b"b")),
    ("C.java", None),
];

const NEW: [At; 3] = [
    ("A.java", Some(b"xy")),
    ("B.java", None),
    ("C.java", Some(b"c")),
];

/// What a commit of the new files over the old leaves beside them.
const BESIDE: [At; 2] = [
    (".refactor-gate", None),
    (
        ".refactor-journal",
        Some(
            b"JRJ2\n\x00\x00\x00\x03\x00\x00\x00\x06A.javaF\x00\x00\x00\x01aF\x00\x00\x00\x02xy\x00\x00\x00\x06B.javaF\x00\x00\x00\x01bA\x00\x00\x00\x06C.javaAF\x00\x00\x00\x01cEND\n",
        ),
    ),
];

/// Whether the files were within the limits, and their change is made.
fn is_committed<S: Store>(
    alloc: Global,
    old: &Files,
    new: &Files,
    store: &mut S,
) -> Result<bool, Fail> {
    match plan_of(alloc, old, new)? {
        Some(plan) => Ok(commit(store, &plan).is_ok()),
        None => Ok(false),
    }
}

/// The store after the commit.
fn committed(alloc: Global) -> Result<MemStore, Fail> {
    let old = files_of(alloc, &OLD)?;
    let new = files_of(alloc, &NEW)?;
    let mut store = MemStore::new(alloc, old.copy(alloc)?, Vec::new(alloc))?;
    if is_committed(alloc, &old, &new, &mut store)? {
        Ok(store)
    } else {
        Err(Fail::new("no commit"))
    }
}

/// Whether what a crash leaves is recovered to the files of before or to those of after.
fn is_recovered(alloc: Global, mut image: MemStore) -> Result<bool, Fail> {
    let said = recovery(alloc, &mut image);
    let files = image.files(alloc)?;
    let is_done = said == Said::Clean || said == Said::RolledBack(3);
    Ok(is_done && (holds_all(&files, &OLD) || holds_all(&files, &NEW)))
}

#[test]
fn a_crash_leaves_all_of_a_commit_or_nothing(rt: HostRuntime) -> Result<(), Fail> {
    let alloc = rt.alloc();
    let store = committed(alloc)?;
    let files = store.files(alloc)?;
    assert!(rt; holds_all(&files, &NEW) && holds_all(&files, &BESIDE));
    for call in 0..12u64 {
        for pick in [0u64, 1, 2, 3, 4, 14, 64] {
            let image = store.image(alloc, call, pick)?;
            assert!(rt; is_recovered(alloc, image)?, "at {call}, {pick}");
        }
    }
    Ok(())
}
