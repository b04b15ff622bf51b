// The store over a folder of the system. It tells nothing of its files, and counts each error of the system.
ghost use Rattle.std.specs.Prelude.{◌≡◌, ◌≤◌, ℕ, length, IfOk, IfSome, None};
ghost use Rattle.jr_store.specs.Image.{Rose, HasCause};
ghost use Rattle.jr_store.specs.Listing.{IsListing};

use crate::folder_list::list_all;
use crate::{Failed, Store, StoreError};
use jr_base::{OutOfMemory, Path, Text};
use std::alloc::Global;
use std::fs::OpenFile;
use std::io::{Error, ErrorKind, Read, Write};
use std::rt::Files;
use std::{fs, str};

/// The most bytes of a path for which the path buffer has room.
const MOST_PATH: usize = 1024;

/// A folder of the system, through the runtime that reaches it. Links below it are not followed: a call whose path
/// leads through one fails, and a listing leaves links out. A write or a removal that is `Ok` is on the disk, with the
/// folders that it changed.
#[derive(Drop)]
pub struct FolderStore<'a, R: Files> {
    rt: &'a R,
    // `None` where no folder has the name that was given: each call then fails.
    dir: Option<String>,
    // The path buffer, with room for the folder's name and a path.
    name: String,
    faults: u64,
    // Whether a write or a removal has failed, and may have left its path in doubt.
    is_in_doubt: bool,
}

impl<'a, R: Files> FolderStore<'a, R> {
    /// The store over the folder `dir`. A path of more than 1,024 bytes, a name that is no UTF-8 and every other error
    /// of the system is a counted fault.
    pub fn new(rt: &'a R, alloc: Global, dir: Text) -> Result<FolderStore<'a, R>, OutOfMemory> {
        let dir = dir_name(alloc, dir.bytes())?;
        let room = match &dir {
            Some(dir) => dir.len().saturating_add(MOST_PATH + 1),
            None => 0,
        };
        Ok(FolderStore {
            rt,
            dir,
            name: String::with_capacity(alloc, room)?,
            faults: 0,
            is_in_doubt: false,
        })
    }

    // Counts an error of the system.
    fn fault(&mut self) -> Failed
        ensures rose { Rose self.old.faults self.new.faults }
        ensures later { self.old.faults ≤ self.new.faults }
    {
        self.faults = self.faults.saturating_add(1);
        Failed
    }

    // Counts a write or a removal that failed, and keeps in mind that its path is in doubt.
    fn count(&mut self, done: Result<(), Failed>) -> Result<(), Failed>
        ensures { HasCause self.old.faults self.new.faults result }
    {
        if done.is_err() {
            self.is_in_doubt = true;
            return Err(self.fault());
        }
        Ok(())
    }

    fn write_path(&mut self, path: &Path, bytes: &[u8]) -> Result<(), Failed>
        ensures { self.new.faults ≡ self.old.faults }
    {
        let Some(dir) = &self.dir else {
            return Err(Failed);
        };
        let path = path_text(path)?;
        match find(self.rt, dir.as_str(), path, &mut self.name)? {
            Found::File => fill(self.rt, self.name.as_str(), bytes),
            Found::Folder => Err(Failed),
            Found::Absent => {
                make_folders(self.rt, dir.as_str(), path, &mut self.name)?;
                full_name(dir.as_str(), path, &mut self.name)?;
                fill(self.rt, self.name.as_str(), bytes)?;
                sync_folders(self.rt, dir.as_str(), path, &mut self.name)
            }
        }
    }

    fn remove_path(&mut self, path: &Path) -> Result<(), Failed>
        ensures { self.new.faults ≡ self.old.faults }
    {
        let Some(dir) = &self.dir else {
            return Err(Failed);
        };
        let path = path_text(path)?;
        match find(self.rt, dir.as_str(), path, &mut self.name)? {
            Found::Absent | Found::Folder => Ok(()),
            Found::File => {
                if fs::remove_file(self.rt, self.name.as_str()).is_err() {
                    return Err(Failed);
                }
                sync_folders(self.rt, dir.as_str(), path, &mut self.name)
            }
        }
    }

    fn read_path(
        &mut self,
        alloc: Global,
        path: &Path,
        most: u32,
    ) -> Result<Option<Vec<u8>>, StoreError>
        ensures faults { self.new.faults ≡ self.old.faults }
        ensures at_most { IfOk result (λ found. IfSome found (λ bytes. length bytes.items ≤ most)) }
    {
        let Some(dir) = &self.dir else {
            return Err(StoreError::Failed);
        };
        let path = path_text(path)?;
        match find(self.rt, dir.as_str(), path, &mut self.name)? {
            Found::Absent | Found::Folder => Ok(None),
            Found::File => Ok(Some(read_first(self.rt, alloc, self.name.as_str(), most)?)),
        }
    }
}

// The name of the folder, where it may be one.
fn dir_name(alloc: Global, dir: &[u8]) -> Result<Option<String>, OutOfMemory> {
    match str::from_utf8(dir) {
        Ok("") | Err(_) => Ok(None),
        Ok(dir) => Ok(Some(String::from_str(alloc, dir)?)),
    }
}

// The text of a path for which the path buffer has room.
fn path_text(path: &Path) -> Result<&str, Failed> {
    if path.bytes().len() > MOST_PATH {
        return Err(Failed);
    }
    match str::from_utf8(path.bytes()) {
        Ok(text) => Ok(text),
        Err(_) => Err(Failed),
    }
}

#[derive(Clone, Copy, PartialEq, Eq)]
enum Found {
    Absent,
    File,
    Folder,
}

// What stands at a name. A link, or what else is no file and no folder, is a failure.
fn look<R: Files>(rt: &R, name: &str) -> Result<Found, Failed> {
    match fs::symlink_metadata(rt, name) {
        Ok(metadata) => {
            if metadata.is_file() {
                Ok(Found::File)
            } else if metadata.is_dir() {
                Ok(Found::Folder)
            } else {
                Err(Failed)
            }
        }
        Err(error) => {
            if error.kind() == ErrorKind::NotFound {
                Ok(Found::Absent)
            } else {
                Err(Failed)
            }
        }
    }
}

fn extend(name: &mut String, text: &str) -> Result<(), Failed> {
    if name.push_str(text).is_err() {
        return Err(Failed);
    }
    Ok(())
}

// Puts the folder's name, a slash and the path into the buffer.
fn full_name(dir: &str, path: &str, name: &mut String) -> Result<(), Failed> {
    name.clear();
    extend(name, dir)?;
    extend(name, "/")?;
    extend(name, path)
}

// Goes to a path below the folder, part by part, and leaves its full name in the buffer.
fn find<R: Files>(rt: &R, dir: &str, path: &str, name: &mut String) -> Result<Found, Failed> {
    name.clear();
    extend(name, dir)?;
    let mut found = Found::Folder;
    for part in path.split('/') {
        extend(name, "/")?;
        extend(name, part)?;
        found = match found {
            Found::Folder => look(rt, name.as_str())?,
            Found::File | Found::Absent => Found::Absent,
        };
    }
    Ok(found)
}

// Makes the folders on the way to a path that are missing.
fn make_folders<R: Files>(rt: &R, dir: &str, path: &str, name: &mut String) -> Result<(), Failed> {
    let Some((folders, _)) = path.rsplit_once('/') else {
        return Ok(());
    };
    name.clear();
    extend(name, dir)?;
    for part in folders.split('/') {
        extend(name, "/")?;
        extend(name, part)?;
        match look(rt, name.as_str())? {
            Found::Folder => {}
            Found::File => return Err(Failed),
            Found::Absent => {
                if fs::create_dir(rt, name.as_str()).is_err() {
                    return Err(Failed);
                }
            }
        }
    }
    Ok(())
}

// Puts the folders on the way to a path on the disk.
fn sync_folders<R: Files>(rt: &R, dir: &str, path: &str, name: &mut String) -> Result<(), Failed> {
    sync_folder(rt, dir)?;
    let Some((folders, _)) = path.rsplit_once('/') else {
        return Ok(());
    };
    name.clear();
    extend(name, dir)?;
    for part in folders.split('/') {
        extend(name, "/")?;
        extend(name, part)?;
        sync_folder(rt, name.as_str())?;
    }
    Ok(())
}

fn sync_folder<R: Files>(rt: &R, name: &str) -> Result<(), Failed> {
    let Ok(folder) = fs::open(rt, name) else {
        return Err(Failed);
    };
    if folder.sync_all().is_err() {
        return Err(Failed);
    }
    Ok(())
}

// Makes a file hold the bytes, on the disk.
fn fill<R: Files>(rt: &R, name: &str, bytes: &[u8]) -> Result<(), Failed> {
    let Ok(mut file) = fs::create(rt, name) else {
        return Err(Failed);
    };
    if file.write_all(bytes).is_err() || file.sync_all().is_err() {
        return Err(Failed);
    }
    Ok(())
}

fn read_first<R: Files>(rt: &R, alloc: Global, name: &str, most: u32) -> Result<Vec<u8>, StoreError>
    ensures { IfOk result (λ bytes. length bytes.items ≤ most) }
{
    let file = match fs::open(rt, name) {
        Ok(file) => file,
        Err(error) => return Err(store_error(&error)),
    };
    let mut bytes = Vec::new(alloc);
    let mut first = file.take(u64::from(most));
    if let Err(error) = first.read_to_end(&mut bytes) {
        return Err(store_error(&error));
    }
    bytes.truncate(most as usize);
    Ok(bytes)
}

/// What an error of the system is to a caller.
pub fn store_error(error: &Error) -> StoreError {
    if error.kind() == ErrorKind::OutOfMemory {
        StoreError::OutOfMemory
    } else {
        StoreError::Failed
    }
}

impl<'a, R: Files> Store for FolderStore<'a, R> {
    ghost files = { λ _. None };

    ghost may_leave = { λ _ _. Unit {0} };

    ghost moment = { λ _. 0 };

    ghost left_since = { λ _ _ _. Unit {0} };

    ghost faults = { λ s. s.faults };

    ghost use Rattle.jr_store.specs.FolderLaws.{folder_reads_now};

    ghost reads_now = { folder_reads_now };

    ghost counts_now = { λ _ _ _ _ _. tt };

    ghost only_now = { λ _ _ _. tt };

    fn list(&mut self, alloc: Global, most: u32) -> Result<Vec<Path>, StoreError> {
        let listed = match &self.dir {
            Some(dir) => list_all(self.rt, alloc, dir.as_str(), most as usize),
            None => Err(StoreError::Failed),
        };
        match listed {
            Err(StoreError::Failed) => Err(StoreError::from(self.fault())),
            other => other,
        }
    }

    fn read(
        &mut self,
        alloc: Global,
        path: &Path,
        most: u32,
    ) -> Result<Option<Vec<u8>>, StoreError> {
        match self.read_path(alloc, path, most) {
            Err(StoreError::Failed) => Err(StoreError::from(self.fault())),
            other => other,
        }
    }

    fn write(&mut self, path: &Path, bytes: &[u8]) -> Result<(), Failed> {
        let done = self.write_path(path, bytes);
        self.count(done)
    }

    fn remove(&mut self, path: &Path) -> Result<(), Failed> {
        let done = self.remove_path(path);
        self.count(done)
    }

    // Each write and removal that was `Ok` is on the disk already. After one that failed nothing is known of its path.
    fn sync(&mut self) -> Result<(), Failed> {
        if self.is_in_doubt {
            return Err(self.fault());
        }
        Ok(())
    }
}
