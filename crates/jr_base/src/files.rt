// Files in the order of their paths, seen as a finite map.
ghost use Rattle.std.specs.Prelude.{◌≡◌, ◌↔◌, IsTrue, IfOk, OnOk, OnErr, option_map};
ghost use Rattle.std.specs.FinMap as map;
ghost use Rattle.jr_base.specs.Files.{plain};

use crate::{OutOfMemory, Path};
use std::alloc::Global;
use std::marker::Model;

/// Files by their paths, seen by contracts as a finite map from paths to bytes. The paths rise in the order of their bytes.
#[derive(Debug, Drop)]
pub struct Files {
    entries: Vec<(Path, Vec<u8>)>,
}

impl Model for Files {
    ghost use Rattle.std.specs.Prelude.{IsTrue, ℕ};
    ghost use Rattle.std.specs.Ordering.{nat_cmp};
    ghost use Rattle.std.specs.Cmp.Lexicographic.{slice_cmp};
    ghost use Rattle.std.specs.FinMap as map;
    ghost use Rattle.std.specs.Coded.{coded_ℕ, coded_list};
    ghost use Rattle.jr_base.specs.Files.{FileMap, plain};

    ghost Value = { FileMap };

    ghost coded = { map.code (coded_list coded_ℕ) (coded_list coded_ℕ) };

    ghost view = { λ f. map.from_sorted (plain f.entries.items) };

    ghost invariant = { λ f. IsTrue (map.is_sorted (slice_cmp nat_cmp) (plain f.entries.items)) };
}

impl Files {
    /// No files.
    pub fn new(alloc: Global) -> Files
        ensures { result ≡ map.empty }
    {
        Files {
            entries: Vec::new(alloc),
        }
    }

    /// How many files there are.
    pub fn len(&self) -> usize
        ensures { result ≡ map.len self.now }
    {
        self.entries.len()
    }

    /// Whether there are no files.
    pub fn is_empty(&self) -> bool
        ensures { IsTrue result ↔ (self.now ≡ map.empty) }
    {
        self.entries.is_empty()
    }

    /// The files. Their paths rise in the order of their bytes.
    pub fn entries(&self) -> &[(Path, Vec<u8>)]
        ensures { plain result.now ≡ map.entries self.now }
    {
        &self.entries
    }

    /// The bytes at the path, or `None` where no file is there.
    pub fn get(&self, path: &Path) -> Option<&Vec<u8>>
        ensures { option_map (λ bytes. bytes.now.items) result ≡ map.get self.now path.now }
    {
        match find_slot(&self.entries, path.bytes()) {
            Ok(index) => Some(&self.entries[index].1),
            Err(_) => None,
        }
    }

    /// Puts the bytes at the path, in place of what is there. An `Err` changes nothing.
    pub fn insert(&mut self, path: Path, bytes: Vec<u8>) -> Result<(), OutOfMemory>
        ensures ok { OnOk result (self.new ≡ map.insert self.old path bytes.items) }
        ensures err { OnErr result (self.new ≡ self.old) }
    {
        match find_slot(&self.entries, path.bytes()) {
            Ok(index) => {
                self.entries[index].1 = bytes;
                Ok(())
            }
            Err(index) => Ok(self.entries.insert(index, (path, bytes))?),
        }
    }

    /// Takes away the file at the path. Where none is, nothing changes.
    pub fn remove(&mut self, path: &Path)
        ensures { self.new ≡ map.remove self.old path.now }
    {
        self.entries.retain(|entry| path.bytes() != entry.0.bytes());
    }

    /// Equal files of their own.
    pub fn copy(&self, alloc: Global) -> Result<Files, OutOfMemory>
        ensures { IfOk result (λ copy. copy ≡ self.now) }
    {
        let mut entries = Vec::new(alloc);
        for (path, bytes) in &self.entries {
            entries.push((path.copy(alloc)?, bytes.to_vec(alloc)?))?;
        }
        Ok(Files { entries })
    }
}

ghost use Rattle.std.specs.Ordering.{nat_cmp};
ghost use Rattle.std.specs.Cmp.Lexicographic.{slice_cmp};
ghost use Rattle.jr_base.specs.Slots.{IsSlot};

// Where the path stands, or else where it would go.
fn find_slot(entries: &[(Path, Vec<u8>)], path: &[u8]) -> Result<usize, usize>
    requires { IsTrue (map.is_sorted (slice_cmp nat_cmp) (plain entries.now)) }
    ensures { IsSlot path.now (plain entries.now) result }
{
    entries.binary_search_by(|entry| entry.0.bytes().cmp(path))
}
