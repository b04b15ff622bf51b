// Values from the store's model: which call fails, and what a crash may leave between two syncs.
use jr_base::{Files, Path};
use jr_store::{MemSink, MemSource, MemStore, Sink, Source, Store};
use std::alloc::Global;
use std::test::Fail;

fn path_of(alloc: Global, name: &str) -> Result<Path, Fail> {
    Ok(Path::parse(alloc, name.as_bytes())?)
}

// A store that holds `a` at `A.java` and nothing else.
fn store_of(alloc: Global, failing: &[u64]) -> Result<MemStore, Fail> {
    let mut files = Files::new(alloc);
    files.insert(path_of(alloc, "A.java")?, b"a".to_vec(alloc)?)?;
    Ok(MemStore::new(alloc, files, failing.to_vec(alloc)?)?)
}

fn holds(alloc: Global, store: &mut MemStore, path: &Path, bytes: Option<&[u8]>) -> bool {
    match (store.read(alloc, path, 100), bytes) {
        (Ok(None), None) => true,
        (Ok(Some(found)), Some(bytes)) => found.as_slice() == bytes,
        _ => false,
    }
}

#[test]
fn the_call_with_the_failing_number_fails(rt: HostRuntime) -> Result<(), Fail> {
    let alloc = rt.alloc();
    let path = path_of(alloc, "A.java")?;
    for number in 1..=6u64 {
        let mut store = store_of(alloc, &[number])?;
        assert_eq!(rt; store.list(alloc, 9).is_err(), number == 1);
        assert_eq!(rt; store.read(alloc, &path, 9).is_err(), number == 2);
        assert_eq!(rt; store.write(&path, b"xy").is_err(), number == 3);
        assert_eq!(rt; store.sync().is_err(), number == 4);
        assert_eq!(rt; store.remove(&path).is_err(), number == 5);
    }
    Ok(())
}

#[test]
fn a_crash_leaves_what_the_syncs_allow(rt: HostRuntime) -> Result<(), Fail> {
    let alloc = rt.alloc();
    let a = path_of(alloc, "A.java")?;
    let b = path_of(alloc, "b/B.txt")?;
    let mut store = store_of(alloc, &[])?;
    assert!(rt; store.write(&a, b"xy").is_ok());
    assert!(rt; store.sync().is_ok());
    assert!(rt; store.write(&b, b"b").is_ok());
    for (call, pick, a_left, b_left) in [
        (0, 0, Some(b"a".as_slice()), None),
        (1, 0, Some(b"xy".as_slice()), None),
        (1, 1, Some(b"a".as_slice()), None),
        (1, 2, Some(b"a".as_slice()), None),
        (1, 4, None, None),
        (1, 14, Some(b"x".as_slice()), None),
        (2, 3, Some(b"a".as_slice()), None),
        (2, 4, Some(b"xy".as_slice()), None),
        (3, 0, Some(b"xy".as_slice()), Some(b"b".as_slice())),
        (9, 64, Some(b"xy".as_slice()), None),
    ] {
        let mut image = store.image(alloc, call, pick)?;
        assert!(rt; holds(alloc, &mut image, &a, a_left), "A at {call}, {pick}");
        assert!(rt; holds(alloc, &mut image, &b, b_left), "B at {call}, {pick}");
    }
    assert_eq!(rt; store.files(alloc)?.entries().len(), 2);
    assert_eq!(rt; store.list(alloc, 9).is_ok(), true);
    Ok(())
}

#[test]
fn streams_in_memory_move_bytes(rt: HostRuntime) -> Result<(), Fail> {
    let alloc = rt.alloc();
    let mut source = MemSource::new(b"abc".to_vec(alloc)?, [2u64].as_slice().to_vec(alloc)?);
    let mut sink = MemSink::new(alloc, [2u64].as_slice().to_vec(alloc)?)?;
    let mut buffer = [0u8; 2];
    assert_eq!(rt; source.read(&mut buffer).is_ok(), true);
    assert_eq!(rt; sink.write(&buffer).is_ok(), true);
    assert_eq!(rt; source.read(&mut buffer).is_ok(), false);
    assert_eq!(rt; sink.write(&buffer).is_ok(), false);
    assert_eq!(rt; sink.bytes(), b"ab".as_slice());
    Ok(())
}
