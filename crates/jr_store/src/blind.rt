// A store that tells nothing of its files, as one over a real folder.
ghost use Rattle.std.specs.Prelude.{ℕ, None};

use crate::{Failed, Store, StoreError};
use jr_base::Path;
use std::alloc::Global;

#[derive(Drop)]
pub struct BlindStore {
    pub faults: u64,
}

impl Store for BlindStore {
    ghost files = { λ _. None };

    ghost may_leave = { λ _ _. Unit {0} };

    ghost moment = { λ _. 0 };

    ghost left_since = { λ _ _ _. Unit {0} };

    ghost faults = { λ b. b.faults };

    ghost use Rattle.jr_store.specs.BlindLaws.{blind_reads_now};

    ghost reads_now = { blind_reads_now };

    ghost counts_now = { λ _ _ _ _ _. tt };

    ghost only_now = { λ _ _ _. tt };

    fn list(&mut self, alloc: Global, most: u32) -> Result<Vec<Path>, StoreError> {
        let _ = most;
        Ok(Vec::new(alloc))
    }

    fn read(
        &mut self,
        alloc: Global,
        path: &Path,
        most: u32,
    ) -> Result<Option<Vec<u8>>, StoreError> {
        if most == 0 {
            return Ok(None);
        }
        match path.bytes()[..path.bytes().len().min(1)].to_vec(alloc) {
            Ok(bytes) => Ok(Some(bytes)),
            Err(_) => Err(StoreError::OutOfMemory),
        }
    }

    fn write(&mut self, path: &Path, bytes: &[u8]) -> Result<(), Failed> {
        if path.bytes().len() > 1024 || bytes.is_empty() {
            self.faults = self.faults.saturating_add(1);
            return Err(Failed);
        }
        Ok(())
    }

    fn remove(&mut self, path: &Path) -> Result<(), Failed> {
        if path.bytes().len() > 1024 {
            self.faults = self.faults.saturating_add(1);
            return Err(Failed);
        }
        Ok(())
    }

    fn sync(&mut self) -> Result<(), Failed> {
        Ok(())
    }
}
