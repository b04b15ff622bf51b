// A move and a batch are stopped at each call of the store that writes. There are twelve calls: one recovers, two read, and nine write.
use crate::calls::{answers, recovers};
use crate::one::{OLD, are_left, store_of};
use jr_base::OutOfMemory;
use jr_store::MemStore;
use std::alloc::Global;
use std::test::Fail;

const MOVED: &str = "package p;\nclass A { static int f(int a) { return a + 1; } }";

const BOTH: &str = "package p;\nclass A { static int f(int b) { return b + 1; } }";

const REQUESTS: &str = r#"[{"do":"rename","file":"A.java","at":27,"name":"b"},
    {"do":"move","file":"A.java","at":6,"package":"p"}]"#;

// Whether all is old or all is new once the next call has recovered.
fn is_whole(alloc: Global, image: &mut MemStore, new: &str) -> Result<bool, OutOfMemory> {
    Ok(
        recovers(alloc, image)?
            && (are_left(alloc, image, OLD, "")? || are_left(alloc, image, "", new)?),
    )
}

fn stops_at(
    alloc: Global,
    store: &MemStore,
    call: u64,
    pick: u64,
    new: &str,
) -> Result<bool, OutOfMemory> {
    let mut image = store.image(alloc, call, pick)?;
    is_whole(alloc, &mut image, new)
}

fn stops(alloc: Global, store: &MemStore, new: &str) -> Result<bool, OutOfMemory> {
    for call in 4..=12u64 {
        for pick in 0..4u64 {
            if !stops_at(alloc, store, call, pick, new)? {
                return Ok(false);
            }
        }
    }
    Ok(true)
}

fn is_made(
    alloc: Global,
    store: &mut MemStore,
    words: &str,
    input: &str,
    new: &str,
) -> Result<bool, OutOfMemory> {
    let line = "done, files changed: 2\n";
    Ok(
        answers(alloc, store, words, input, 0, line)?
            && are_left(alloc, store, "", new)?
            && stops(alloc, store, new)?,
    )
}

fn is_stopped(alloc: Global, words: &str, input: &str, new: &str) -> Result<bool, OutOfMemory> {
    let mut store = store_of(alloc, 13)?;
    is_made(alloc, &mut store, words, input, new)
}

#[test]
fn a_stop_in_a_move_is_recovered_from(rt: HostRuntime) -> Result<(), Fail> {
    let alloc = rt.alloc();
    assert!(rt; is_stopped(alloc, ". move A.java 6 p", "", MOVED)?);
    Ok(())
}

#[test]
fn a_stop_in_a_batch_is_recovered_from(rt: HostRuntime) -> Result<(), Fail> {
    let alloc = rt.alloc();
    assert!(rt; is_stopped(alloc, ". batch", REQUESTS, BOTH)?);
    Ok(())
}
