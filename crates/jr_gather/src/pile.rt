// Files that pile up, within the limits of one file and of all.
ghost use Rattle.std.specs.Prelude.{◌≡◌, Option, option_map, IfOk, ℕ, List, ◌≤◌, length};
ghost use Rattle.jr_gather.specs.Piles.{PlainPile, plain_pile, start, next};

use jr_base::{Files, Limits, OutOfMemory, Path};
use std::alloc::Global;

/// The files so far, how many bytes all may still have, and whether one was too large, or all.
#[derive(Drop)]
pub struct Pile {
    pub files: Files,
    pub left: usize,
    pub is_large: bool,
    pub is_past: bool,
}

impl Pile {
    /// No files.
    pub fn new(alloc: Global) -> Pile
        ensures { plain_pile result ≡ start }
    {
        Pile {
            files: Files::new(alloc),
            left: Limits::TOTAL as usize,
            is_large: false,
            is_past: false,
        }
    }

    /// The pile with a file more. A file that is too large, or for which nothing is left, is dropped, and that is marked.
    pub fn with_file(self, alloc: Global, path: &Path, bytes: Vec<u8>) -> Result<Pile, OutOfMemory>
        ensures { IfOk result (λ pile. plain_pile pile ≡ next (plain_pile self) path.now bytes.items) }
    {
        let mut pile = self;
        if bytes.len() > Limits::FILE as usize {
            pile.is_large = true;
        } else if bytes.len() > pile.left {
            pile.is_past = true;
        } else {
            pile.left -= bytes.len();
            pile.files.insert(path.copy(alloc)?, bytes)?;
        }
        Ok(pile)
    }
}
