// Three refactorings of generated files.

use crate::demo_fault::{DemoFault, not_changed};
use jr_base::{Files, OutOfMemory, Path, Request, Text};
use jr_engine::plan;
use jr_gen::{requests, workspace};
use std::alloc::Global;

/// The most files that are generated.
const MOST: u32 = 4000;

// The file is there with these bytes.
fn has_file(files: &Files, path: &Path, bytes: &[u8]) -> bool {
    match files.get(path) {
        Some(found) => found.as_slice() == bytes,
        None => false,
    }
}

// How many paths are written or removed where files become others.
fn count_changed(old: &Files, new: &Files) -> usize {
    let mut count: usize = 0;
    for (path, bytes) in old.entries() {
        if !has_file(new, path, bytes) {
            count = count.saturating_add(1);
        }
    }
    for (path, _) in new.entries() {
        if old.get(path).is_none() {
            count = count.saturating_add(1);
        }
    }
    count
}

// The files that a request leaves.
fn left_by(alloc: Global, files: &Files, request: &Request) -> Result<Files, DemoFault> {
    match plan(alloc, files, request) {
        Ok(left) => Ok(left),
        Err(refused) => Err(not_changed(&refused)),
    }
}

// How many files each of the requests changes, each asked of what the one before has left.
fn changed_by(alloc: Global, files: Files, requests: &[Request]) -> Result<Vec<usize>, DemoFault> {
    let mut now = files;
    let mut all = Vec::new(alloc);
    for request in requests {
        let left = left_by(alloc, &now, request)?;
        all.push(count_changed(&now, &left))?;
        now = left;
    }
    Ok(all)
}

// The line that tells the numbers.
fn line_of(
    alloc: Global,
    count: u32,
    renamed: usize,
    moved: usize,
    extracted: usize,
) -> Result<Text, OutOfMemory> {
    let line = format!(in alloc;
        "demo {count}: rename {renamed}, move {moved}, extract {extracted}\n"
    )?;
    Ok(Text::new(line.into_bytes()))
}

/// A rename, a move and an extraction on so many generated files, from 1 to 4,000, and how many files each of them changes.
pub fn demo(alloc: Global, count: u32) -> Result<Text, DemoFault> {
    if count == 0 || count > MOST {
        return Err(DemoFault::Refused);
    }
    let requests = requests(alloc, count)?;
    let files = workspace(alloc, count)?;
    let changed = changed_by(alloc, files, &requests)?;
    match changed.as_slice() {
        [renamed, moved, extracted] => Ok(line_of(alloc, count, *renamed, *moved, *extracted)?),
        _ => Err(DemoFault::Refused),
    }
}
