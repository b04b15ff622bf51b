// Each call of the store in a rename fails in turn. There are eleven: one recovers, two read, and eight write the journal, the gate, the file and the gate again, each with
// a sync behind it.
use crate::calls::{answers, recovers};
use crate::one::{OLD, are_left, store_of};
use jr_base::OutOfMemory;
use jr_store::MemStore;
use std::alloc::Global;
use std::test::Fail;

const NEW: &str = "class A { static int f(int b) { return b + 1; } }";

const RENAME: &str = ". rename A.java 27 b";

fn line_of(call: u64) -> &'static str {
    if call == 1 {
        "store fault: recovering\n"
    } else if call < 4 {
        "store fault: reading\n"
    } else {
        "store fault: writing\n"
    }
}

// What stands after the call that fails, and after the next one.
fn fails_in(alloc: Global, store: &mut MemStore, call: u64) -> Result<bool, OutOfMemory> {
    let found = if call < 9 { OLD } else { NEW };
    let recovered = if call < 11 { OLD } else { NEW };
    Ok(
        answers(alloc, store, RENAME, "", 7, line_of(call))?
            && are_left(alloc, store, found, "")?
            && recovers(alloc, store)?
            && are_left(alloc, store, recovered, "")?,
    )
}

fn fails(alloc: Global, call: u64) -> Result<bool, OutOfMemory> {
    let mut store = store_of(alloc, call)?;
    fails_in(alloc, &mut store, call)
}

#[test]
fn each_call_of_the_store_fails_in_turn(rt: HostRuntime) -> Result<(), Fail> {
    let alloc = rt.alloc();
    for call in 1..=11u64 {
        assert!(rt; fails(alloc, call)?, "call {call}");
    }
    Ok(())
}

fn is_done(alloc: Global) -> Result<bool, OutOfMemory> {
    let mut store = store_of(alloc, 12)?;
    answers(alloc, &mut store, RENAME, "", 0, "done, files changed: 1\n")
}

#[test]
fn no_other_call_is_made(rt: HostRuntime) -> Result<(), Fail> {
    let alloc = rt.alloc();
    assert!(rt; is_done(alloc)?);
    Ok(())
}
