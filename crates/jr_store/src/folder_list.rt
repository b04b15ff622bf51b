// The paths of the files below a folder of the system.
ghost use Rattle.std.specs.Prelude.{◌≡◌, ◌++◌, ◌∷◌, [], if◌then◌else◌, List, ℕ, true, IfOk, OnOk, bytes_eq, string_bytes};
ghost use Rattle.std.specs.HashSet.{contains_text};
ghost use Rattle.jr_store.specs.Listing.{IsListing, IsListed};

use crate::StoreError;
use crate::folder::store_error;
use jr_base::{OutOfMemory, Path, PathFault};
use std::alloc::{Allocator, Global};
use std::collections::HashSet;
use std::fs::{DirEntry, FileType, ReadDir};
use std::rt::Files;
use std::{fs, io};

/// The paths that were found, and the same as texts.
#[derive(Drop)]
struct Listed {
    paths: Vec<Path>,
    names: HashSet<String>,
}

/// The paths below the folder that end in `.java`: all where there are at most `most`, else some `most` of them.
pub fn list_all<R: Files>(
    rt: &R,
    alloc: Global,
    dir: &str,
    most: usize,
) -> Result<Vec<Path>, StoreError>
    ensures { IfOk result (λ paths. IsListing most paths.items) }
{
    let mut listed = Listed {
        paths: Vec::new(alloc),
        names: HashSet::new(alloc),
    };
    // The folders that were found and not listed yet, each with a slash behind it.
    let mut pending = Vec::new(alloc);
    list_one(rt, alloc, dir, "", most, &mut listed, &mut pending)?;
    for _ in 0..u64::MAX {
        let Some(below) = pending.pop() else {
            return Ok(listed.paths);
        };
        list_one(
            rt,
            alloc,
            dir,
            below.as_str(),
            most,
            &mut listed,
            &mut pending,
        )?;
    }
    Err(StoreError::Failed)
}

// The names in one folder below.
fn list_one<R: Files>(
    rt: &R,
    alloc: Global,
    dir: &str,
    below: &str,
    most: usize,
    listed: &mut Listed,
    pending: &mut Vec<String>,
) -> Result<(), StoreError>
    ensures { IsListed most listed.old → OnOk result (IsListed most listed.new) }
{
    let folder = joined(alloc, dir, "/", below)?;
    let system = (rt, alloc);
    for entry in open_folder(&system, folder.as_str())? {
        let (entry, kind) = with_kind(entry)?;
        take(alloc, below, entry.file_name(), kind, most, listed, pending)?;
    }
    Ok(())
}

fn open_folder<S: Files + Alloc + Clone + Drop>(
    system: &S,
    folder: &str,
) -> Result<ReadDir<S, S::A>, StoreError> {
    match fs::read_dir(system, folder) {
        Ok(entries) => Ok(entries),
        Err(error) => Err(store_error(&error)),
    }
}

fn with_kind<S: Files + Drop, A: Allocator>(
    entry: io::Result<DirEntry<S, A>>,
) -> Result<(DirEntry<S, A>, FileType), StoreError> {
    let entry = match entry {
        Ok(entry) => entry,
        Err(error) => return Err(store_error(&error)),
    };
    match entry.file_type() {
        Ok(kind) => Ok((entry, kind)),
        Err(error) => Err(store_error(&error)),
    }
}

// A name in a folder below. A link, and what else is no file and no folder, is left out.
fn take(
    alloc: Global,
    below: &str,
    name: &str,
    kind: FileType,
    most: usize,
    listed: &mut Listed,
    pending: &mut Vec<String>,
) -> Result<(), StoreError>
    ensures { IsListed most listed.old → OnOk result (IsListed most listed.new) }
{
    if kind.is_dir() {
        let folder = joined(alloc, below, name, "/")?;
        if pending.push(folder).is_err() {
            return Err(StoreError::OutOfMemory);
        }
    } else if kind.is_file() {
        let file = joined(alloc, below, name, "")?;
        add(alloc, listed, file, most)?;
    }
    Ok(())
}

fn joined(alloc: Global, front: &str, middle: &str, back: &str) -> Result<String, OutOfMemory> {
    let mut whole = String::from_str(alloc, front)?;
    whole.push_str(middle)?;
    whole.push_str(back)?;
    Ok(whole)
}

// Adds a path that ends in `.java`, is new and for which there is room.
#[tactic(auto, using(crate::proofs::Listing::listed_more))]
fn add(alloc: Global, listed: &mut Listed, name: String, most: usize) -> Result<(), StoreError>
    ensures { IsListed most listed.old → OnOk result (IsListed most listed.new) }
{
    let path = match Path::parse(alloc, name.as_bytes()) {
        Ok(path) => path,
        Err(PathFault::OutOfMemory) => return Err(StoreError::OutOfMemory),
        Err(_) => return Err(StoreError::Failed),
    };
    if listed.paths.len() < most && path.is_java() && !listed.names.contains(name.as_str()) {
        put(listed, path, name)?;
    }
    Ok(())
}

// Adds a path, which is also given as a text.
#[tactic(auto, using(std::proofs::lemmas::Map::Text::hash_set_updates_text))]
fn put(listed: &mut Listed, path: Path, name: String) -> Result<(), StoreError>
    ensures paths { OnOk result (listed.new.paths.items ≡ listed.old.paths.items ++ path ∷ []) }
    ensures names { OnOk result ((q : List ℕ) → contains_text listed.new.names q ≡ (if bytes_eq (string_bytes name) q then true else contains_text listed.old.names q)) }
{
    if listed.names.insert(name).is_err() {
        return Err(StoreError::OutOfMemory);
    }
    if listed.paths.push(path).is_err() {
        return Err(StoreError::OutOfMemory);
    }
    Ok(())
}
