// The answers of the top call on a store and an output in memory.
use crate::calls::{answers, answers_with, comes_to, gives, recovers, source_of};
use crate::files::{are_left, path_of, store_of};
use jr_base::OutOfMemory;
use jr_store::{MemSource, MemStore, Store};
use std::alloc::Global;
use std::test::Fail;

const OLD: &str = "class A { static int f(int a) { return a + 1; } }";

const NEW: &str = "class A { static int f(int b) { return b + 1; } }";

const RENAME: &str = ". rename A.java 27 b";

const DONE: &str = "done, files changed: 1\n";

const CHECK: &str = ". check";

const SOUND: &str = "ok, files: 1\n";

// A store with one file. The call with this number fails, or none where it is 0.
fn one_file(alloc: Global, text: &str, failing: u64) -> Result<MemStore, OutOfMemory> {
    store_of(alloc, &[("A.java", text)], failing)
}

fn is_left(alloc: Global, store: &MemStore, text: &str) -> Result<bool, OutOfMemory> {
    are_left(alloc, store, &[("A.java", text)])
}

// Whether the words get this number and this line in the store, and leave this text.
fn says(
    alloc: Global,
    store: &mut MemStore,
    words: &str,
    number: u8,
    line: &str,
    left: &str,
) -> Result<bool, OutOfMemory> {
    gives(alloc, store, words, "", number, line, &[("A.java", left)])
}

// Whether they do where the store holds one file. The call with this number fails, or none where it is 0.
fn is_answered(
    alloc: Global,
    text: &str,
    failing: u64,
    words: &str,
    number: u8,
    line: &str,
    left: &str,
) -> Result<bool, OutOfMemory> {
    let mut store = one_file(alloc, text, failing)?;
    says(alloc, &mut store, words, number, line, left)
}

#[test]
fn a_rename_is_made(rt: HostRuntime) -> Result<(), Fail> {
    let alloc = rt.alloc();
    assert!(rt; is_answered(alloc, OLD, 0, RENAME, 0, DONE, NEW)?);
    assert!(rt; is_answered(alloc, OLD, 0, ". rename A.java 39 b", 0, DONE, NEW)?);
    // Nothing is written: the fourth call of the store would fail.
    let none = "done, files changed: 0\n";
    assert!(rt; is_answered(alloc, OLD, 4, ". rename A.java 27 a", 0, none, OLD)?);
    Ok(())
}

// Texts that are left, each with words, and the number and the line that they get.
fn are_refused(alloc: Global, cases: &[(&str, &str, u8, &str)]) -> Result<bool, OutOfMemory> {
    for (text, words, number, line) in cases {
        if !is_answered(alloc, *text, 0, *words, *number, *line, *text)? {
            return Ok(false);
        }
    }
    Ok(true)
}

const REFUSED: [(&str, &str, u8, &str); 5] = [
    (
        "class A { static int f(int a) { int b = 1; return a; } }",
        RENAME,
        4,
        "no spelling: A.java:50\n",
    ),
    (
        "class A { static int f(int y) { int x = 1; return 0; } }",
        ". rename A.java 27 x",
        6,
        "broken rule: 6 A.java:36\n",
    ),
    (OLD, ". inline A.java 27", 2, "bad request: 6\n"),
    (OLD, ". rename B.java 27 b", 2, "bad request: 1\n"),
    (OLD, ". rename A.java 27 int", 2, "bad request: 5\n"),
];

#[test]
fn a_rename_is_refused(rt: HostRuntime) -> Result<(), Fail> {
    let alloc = rt.alloc();
    assert!(rt; are_refused(alloc, &REFUSED)?);
    // The store is not called: its first call would fail.
    let bad = "bad words\n";
    assert!(rt; is_answered(alloc, OLD, 1, ". rename A.java x b", 1, bad, OLD)?);
    Ok(())
}

const LARGER: &str =
    "class A { int f(A a) { int x = 1; while (x < 9) { x++; } return a.f(this) + x; } }";

#[test]
fn a_check_is_made(rt: HostRuntime) -> Result<(), Fail> {
    let alloc = rt.alloc();
    // Nothing is written: the fourth call of the store would fail.
    assert!(rt; is_answered(alloc, OLD, 4, CHECK, 0, SOUND, OLD)?);
    let fault = "store fault: reading\n";
    assert!(rt; is_answered(alloc, OLD, 2, CHECK, 7, fault, OLD)?);
    assert!(rt; is_answered(alloc, OLD, 3, CHECK, 7, fault, OLD)?);
    assert!(rt; is_answered(alloc, LARGER, 0, CHECK, 0, SOUND, LARGER)?);
    Ok(())
}

const NOT_COMPILING: [(&str, &str, u8, &str); 8] = [
    (
        "class A { # }",
        CHECK,
        3,
        "not compiling: lex BadByte A.java:10\n",
    ),
    (
        "class A { int }",
        CHECK,
        3,
        "not compiling: parse NoTree A.java:14\n",
    ),
    (
        "package p; class A { }",
        CHECK,
        3,
        "not compiling: path A.java\n",
    ),
    (
        "class A { } class A { }",
        CHECK,
        3,
        "not compiling: duplicate A.java:18\n",
    ),
    (
        "class A extends A { }",
        CHECK,
        3,
        "not compiling: cycle A.java:6\n",
    ),
    (
        "class A { int f() { return x; } }",
        CHECK,
        3,
        "not compiling: unbound A.java:27\n",
    ),
    (
        "class A { int a; int a; }",
        CHECK,
        3,
        "not compiling: rule 3 A.java:21\n",
    ),
    (
        "class A { int f() { return 1; return 2; } }",
        CHECK,
        3,
        "not compiling: rule 36 A.java:30\n",
    ),
];

#[test]
fn a_check_tells_why_and_where(rt: HostRuntime) -> Result<(), Fail> {
    let alloc = rt.alloc();
    assert!(rt; are_refused(alloc, &NOT_COMPILING)?);
    Ok(())
}

fn is_not_told(alloc: Global, store: &mut MemStore) -> Result<bool, OutOfMemory> {
    let mut input = source_of(alloc, "", 0)?;
    answers_with(alloc, store, RENAME, &mut input, 1, 14, "")
}

fn is_made_in(alloc: Global, store: &mut MemStore) -> Result<bool, OutOfMemory> {
    Ok(is_not_told(alloc, store)? && is_left(alloc, store, NEW)?)
}

// The write of the line fails.
fn is_made_and_not_told(alloc: Global) -> Result<bool, OutOfMemory> {
    let mut store = one_file(alloc, OLD, 0)?;
    is_made_in(alloc, &mut store)
}

// Calls of the store that fail, each with the line, and the text that is left.
fn are_faults(alloc: Global, cases: &[(u64, &str, &str)]) -> Result<bool, OutOfMemory> {
    for (failing, line, left) in cases {
        if !is_answered(alloc, OLD, *failing, RENAME, 7, *line, *left)? {
            return Ok(false);
        }
    }
    Ok(true)
}

// At the last the file has the new bytes, but a crash may lose them.
const FAULTS: [(u64, &str, &str); 5] = [
    (1, "store fault: recovering\n", OLD),
    (2, "store fault: reading\n", OLD),
    (3, "store fault: reading\n", OLD),
    (8, "store fault: writing\n", OLD),
    (9, "store fault: writing\n", NEW),
];

#[test]
fn a_fault_is_answered(rt: HostRuntime) -> Result<(), Fail> {
    let alloc = rt.alloc();
    assert!(rt; are_faults(alloc, &FAULTS)?);
    assert!(rt; is_made_and_not_told(alloc)?);
    Ok(())
}

// Whether the batch gets this number and this line, and leaves the file.
fn is_read_in(
    alloc: Global,
    store: &mut MemStore,
    input: &mut MemSource,
    number: u8,
    line: &str,
) -> Result<bool, OutOfMemory> {
    Ok(
        answers_with(alloc, store, ". batch", input, 0, number, line)?
            && is_left(alloc, store, OLD)?,
    )
}

fn is_read(
    alloc: Global,
    input: &mut MemSource,
    number: u8,
    line: &str,
) -> Result<bool, OutOfMemory> {
    let mut store = one_file(alloc, OLD, 0)?;
    is_read_in(alloc, &mut store, input, number, line)
}

// The read of the input with this number fails, or none where it is 0.
fn is_text_read(
    alloc: Global,
    text: &str,
    failing: u64,
    number: u8,
    line: &str,
) -> Result<bool, OutOfMemory> {
    let mut input = source_of(alloc, text, failing)?;
    is_read(alloc, &mut input, number, line)
}

// Inputs, each with the read that fails, and the number and the line that they get.
fn are_read(alloc: Global, cases: &[(&str, u64, u8, &str)]) -> Result<bool, OutOfMemory> {
    for (text, failing, number, line) in cases {
        if !is_text_read(alloc, *text, *failing, *number, *line)? {
            return Ok(false);
        }
    }
    Ok(true)
}

const INPUTS: [(&str, u64, u8, &str); 5] = [
    ("[]", 0, 0, "done, files changed: 0\n"),
    ("{", 0, 2, "bad request: 9\n"),
    ("{}", 0, 2, "bad request: 9 do\n"),
    (
        r#"[{"do":"inline","file":"A.java"}]"#,
        0,
        2,
        "request 1: bad request: 9 at\n",
    ),
    ("[]", 1, 8, "input fault\n"),
];

#[test]
fn a_batch_is_read(rt: HostRuntime) -> Result<(), Fail> {
    let alloc = rt.alloc();
    assert!(rt; are_read(alloc, &INPUTS)?);
    Ok(())
}

fn blanks(alloc: Global) -> Result<MemSource, OutOfMemory> {
    let bytes = vec![in alloc; b' '; 1_048_577]?;
    Ok(MemSource::new(bytes, Vec::new(alloc)))
}

fn are_blanks_refused(alloc: Global) -> Result<bool, OutOfMemory> {
    let mut input = blanks(alloc)?;
    is_read(alloc, &mut input, 9, "too large: input\n")
}

#[test]
fn a_large_batch_is_refused(rt: HostRuntime) -> Result<(), Fail> {
    let alloc = rt.alloc();
    assert!(rt; are_blanks_refused(alloc)?);
    Ok(())
}

// Whether all is old or all is new once the next call has recovered.
fn is_whole(alloc: Global, image: &mut MemStore) -> Result<bool, OutOfMemory> {
    Ok(recovers(alloc, image)? && (is_left(alloc, image, OLD)? || is_left(alloc, image, NEW)?))
}

fn stops_at(alloc: Global, store: &MemStore, call: u64, pick: u64) -> Result<bool, OutOfMemory> {
    let mut image = store.image(alloc, call, pick)?;
    is_whole(alloc, &mut image)
}

// Whether it is so of a stop at each of these calls.
fn stops(alloc: Global, store: &MemStore, first: u64, end: u64) -> Result<bool, OutOfMemory> {
    for call in first..end {
        for pick in 0..4u64 {
            if !stops_at(alloc, store, call, pick)? {
                return Ok(false);
            }
        }
    }
    Ok(true)
}

fn is_put_back_in(alloc: Global, store: &mut MemStore) -> Result<bool, OutOfMemory> {
    let fault = "store fault: writing\n";
    Ok(says(alloc, store, RENAME, 7, fault, NEW)? && says(alloc, store, CHECK, 0, SOUND, OLD)?)
}

// The sync of the new bytes fails, and the next call recovers.
fn is_put_back(alloc: Global) -> Result<bool, OutOfMemory> {
    let mut store = one_file(alloc, OLD, 9)?;
    is_put_back_in(alloc, &mut store)
}

fn is_stopped_in(alloc: Global, store: &mut MemStore) -> Result<bool, OutOfMemory> {
    Ok(says(alloc, store, RENAME, 0, DONE, NEW)? && stops(alloc, store, 4, 12)?)
}

fn is_stopped(alloc: Global) -> Result<bool, OutOfMemory> {
    let mut store = one_file(alloc, OLD, 0)?;
    is_stopped_in(alloc, &mut store)
}

#[test]
fn a_stop_is_recovered_from(rt: HostRuntime) -> Result<(), Fail> {
    let alloc = rt.alloc();
    assert!(rt; is_put_back(alloc)?);
    assert!(rt; is_stopped(alloc)?);
    Ok(())
}

const FIRST: &str = "JRJ1\n\x00\x00\x00\x01F\x00\x00\x00\x06A.java\x00\x00\x00\x0bclass A { }END\n";

const SECOND: &str =
    "JRJ2\n\x00\x00\x00\x01\x00\x00\x00\x06A.javaF\x00\x00\x00\x12class A { int a; }F\x00\x00\x00\x12class A { int b; }END\n";

// Whether a check of these files gets this number and this line, and leaves this text.
fn is_checked(
    alloc: Global,
    texts: &[(&str, &str)],
    number: u8,
    line: &str,
    left: &str,
) -> Result<bool, OutOfMemory> {
    comes_to(alloc, texts, CHECK, "", number, line, &[("A.java", left)])
}

// An earlier run was stopped: the gate is open, and this is the journal.
const OVER_FIRST: [(&str, &str); 3] = [
    (".refactor-gate", "1"),
    (".refactor-journal", FIRST),
    ("A.java", OLD),
];

const OVER_SECOND: [(&str, &str); 3] = [
    (".refactor-gate", "1"),
    (".refactor-journal", SECOND),
    ("A.java", OLD),
];

#[test]
fn a_journal_is_read(rt: HostRuntime) -> Result<(), Fail> {
    let alloc = rt.alloc();
    assert!(rt; is_checked(alloc, &OVER_FIRST, 0, SOUND, "class A { }")?);
    assert!(rt; is_checked(alloc, &OVER_SECOND, 0, SOUND, "class A { int a; }")?);
    Ok(())
}

const OVER_CUT: [(&str, &str); 3] = [
    (".refactor-gate", "1"),
    (".refactor-journal", "JRJ2\n"),
    ("A.java", OLD),
];

const OVER_NONE: [(&str, &str); 2] = [(".refactor-gate", "1"), ("A.java", OLD)];

#[test]
fn a_bad_journal_is_refused(rt: HostRuntime) -> Result<(), Fail> {
    let alloc = rt.alloc();
    assert!(rt; is_checked(alloc, &OVER_CUT, 11, "bad journal\n", OLD)?);
    assert!(rt; is_checked(alloc, &OVER_NONE, 11, "bad journal\n", OLD)?);
    Ok(())
}

const UNDO: &str = ". undo";

// A store in which a rename was made. The call with this number fails, or none where it is 0. The rename takes eleven.
fn renamed(alloc: Global, failing: u64) -> Result<MemStore, OutOfMemory> {
    let mut store = one_file(alloc, OLD, failing)?;
    let _ = answers(alloc, &mut store, RENAME, "", 0, DONE)?;
    Ok(store)
}

fn is_taken_back(alloc: Global, store: &mut MemStore) -> Result<bool, OutOfMemory> {
    for left in [OLD, NEW, OLD] {
        if !says(alloc, store, UNDO, 0, DONE, left)? {
            return Ok(false);
        }
    }
    Ok(true)
}

fn is_rename_taken_back(alloc: Global) -> Result<bool, OutOfMemory> {
    let mut store = renamed(alloc, 0)?;
    is_taken_back(alloc, &mut store)
}

#[test]
fn the_last_change_is_taken_back(rt: HostRuntime) -> Result<(), Fail> {
    let alloc = rt.alloc();
    assert!(rt; is_rename_taken_back(alloc)?);
    Ok(())
}

fn write(alloc: Global, store: &mut MemStore, path: &str, text: &str) -> Result<bool, OutOfMemory> {
    let path = path_of(alloc, path)?;
    Ok(store.write(&path, text.as_bytes()).is_ok())
}

fn remove(alloc: Global, store: &mut MemStore, path: &str) -> Result<bool, OutOfMemory> {
    let path = path_of(alloc, path)?;
    Ok(store.remove(&path).is_ok())
}

const SPACED: &str = "class A { static int f(int b) { return b + 1; } } ";

// An edited file and a removed one, and a journal with one side.
fn is_undo_refused(alloc: Global, store: &mut MemStore) -> Result<bool, OutOfMemory> {
    let edited = "no undo: 3 A.java\n";
    Ok(
        write(alloc, store, "A.java", SPACED)?
            && says(alloc, store, UNDO, 12, edited, SPACED)?
            && remove(alloc, store, "A.java")?
            && says(alloc, store, UNDO, 12, edited, "")?
            && write(alloc, store, ".refactor-journal", FIRST)?
            && says(alloc, store, UNDO, 12, "no undo: 2\n", "")?,
    )
}

fn is_undo_of_edits_refused(alloc: Global) -> Result<bool, OutOfMemory> {
    let mut store = renamed(alloc, 0)?;
    is_undo_refused(alloc, &mut store)
}

#[test]
fn an_undo_is_refused(rt: HostRuntime) -> Result<(), Fail> {
    let alloc = rt.alloc();
    assert!(rt; is_answered(alloc, OLD, 0, UNDO, 12, "no undo: 1\n", OLD)?);
    assert!(rt; is_undo_of_edits_refused(alloc)?);
    Ok(())
}

fn is_undo_at_fault_in(
    alloc: Global,
    store: &mut MemStore,
    line: &str,
    left: &str,
) -> Result<bool, OutOfMemory> {
    Ok(says(alloc, store, UNDO, 7, line, left)? && says(alloc, store, CHECK, 0, SOUND, NEW)?)
}

fn is_undo_at_fault(
    alloc: Global,
    failing: u64,
    line: &str,
    left: &str,
) -> Result<bool, OutOfMemory> {
    let mut store = renamed(alloc, failing)?;
    is_undo_at_fault_in(alloc, &mut store, line, left)
}

// Calls of the store that fail in an undo, each with the line, and the text that is left.
fn are_undo_faults(alloc: Global, cases: &[(u64, &str, &str)]) -> Result<bool, OutOfMemory> {
    for (failing, line, left) in cases {
        if !is_undo_at_fault(alloc, *failing, *line, *left)? {
            return Ok(false);
        }
    }
    Ok(true)
}

const UNDO_FAULTS: [(u64, &str, &str); 5] = [
    (12, "store fault: recovering\n", NEW),
    (13, "store fault: reading\n", NEW),
    (14, "store fault: reading\n", NEW),
    (19, "store fault: writing\n", NEW),
    (20, "store fault: writing\n", OLD),
];

#[test]
fn a_fault_of_an_undo_is_answered(rt: HostRuntime) -> Result<(), Fail> {
    let alloc = rt.alloc();
    assert!(rt; are_undo_faults(alloc, &UNDO_FAULTS)?);
    Ok(())
}

fn is_undo_stopped_in(alloc: Global, store: &mut MemStore) -> Result<bool, OutOfMemory> {
    Ok(says(alloc, store, UNDO, 0, DONE, OLD)? && stops(alloc, store, 12, 24)?)
}

fn is_undo_stopped(alloc: Global) -> Result<bool, OutOfMemory> {
    let mut store = renamed(alloc, 0)?;
    is_undo_stopped_in(alloc, &mut store)
}

#[test]
fn a_stop_in_an_undo_is_recovered_from(rt: HostRuntime) -> Result<(), Fail> {
    let alloc = rt.alloc();
    assert!(rt; is_undo_stopped(alloc)?);
    Ok(())
}
