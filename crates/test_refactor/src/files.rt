// Stores in memory, by the paths and the texts of their files.
use jr_base::{Files, OutOfMemory, Path};
use jr_store::MemStore;
use std::alloc::Global;

/// The path that is spelled so; any other spelling is taken for want of memory.
pub fn path_of(alloc: Global, path: &str) -> Result<Path, OutOfMemory> {
    match Path::parse(alloc, path.as_bytes()) {
        Ok(path) => Ok(path),
        Err(_) => Err(OutOfMemory),
    }
}

fn put(alloc: Global, files: &mut Files, path: &str, text: &str) -> Result<(), OutOfMemory> {
    let bytes = text.as_bytes().to_vec(alloc)?;
    files.insert(path_of(alloc, path)?, bytes)?;
    Ok(())
}

fn put_all(alloc: Global, files: &mut Files, texts: &[(&str, &str)]) -> Result<(), OutOfMemory> {
    for (path, text) in texts {
        put(alloc, files, *path, *text)?;
    }
    Ok(())
}

fn files_of(alloc: Global, texts: &[(&str, &str)]) -> Result<Files, OutOfMemory> {
    let mut files = Files::new(alloc);
    put_all(alloc, &mut files, texts)?;
    Ok(files)
}

/// A store with these paths and texts. The call with this number fails, counted from 1; none does where it is 0.
pub fn store_of(
    alloc: Global,
    texts: &[(&str, &str)],
    failing: u64,
) -> Result<MemStore, OutOfMemory> {
    let failing = [failing].as_slice().to_vec(alloc)?;
    MemStore::new(alloc, files_of(alloc, texts)?, failing)
}

// The empty text stands for no file.
fn holds(files: &Files, path: &str, text: &str) -> bool {
    for (found, bytes) in files.entries() {
        if found.bytes() == path.as_bytes() {
            return bytes.as_slice() == text.as_bytes();
        }
    }
    text.is_empty()
}

fn hold_all(files: &Files, texts: &[(&str, &str)]) -> bool {
    for (path, text) in texts {
        if !holds(files, *path, *text) {
            return false;
        }
    }
    true
}

/// Whether the paths hold these texts. The empty text stands for no file.
pub fn are_left(
    alloc: Global,
    store: &MemStore,
    texts: &[(&str, &str)],
) -> Result<bool, OutOfMemory> {
    let files = store.files(alloc)?;
    Ok(hold_all(&files, texts))
}
