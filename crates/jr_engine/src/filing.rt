// Texts as files.
ghost use Rattle.std.specs.Prelude.{◌≡◌, IfOk, IsTrue};
ghost use Rattle.std.specs.FinMap as map;
ghost use Rattle.std.specs.Ordering.{nat_cmp, is_lt};
ghost use Rattle.std.specs.Cmp.Lexicographic.{slice_cmp};
ghost use Rattle.jr_base.specs.Files.{plain};

use crate::texts::Texts;
use jr_base::{Files, OutOfMemory, Path};
use std::alloc::Global;
use std::cmp::Ordering;

// A path comes before the next one, in the order of bytes.
fn is_before(path: &[u8], next: &[u8]) -> bool
    ensures { result ≡ is_lt (slice_cmp nat_cmp path.now next.now) }
{
    match path.cmp(next) {
        Ordering::Less => true,
        _ => false,
    }
}

/// The paths rise in the order of their bytes, so that none stands twice.
#[tactic(auto, using(crate::proofs::Rising::all_rise))]
pub fn rise(texts: &[(Path, Vec<u8>)]) -> bool
    ensures { IsTrue result → IsTrue (map.is_sorted (slice_cmp nat_cmp) (plain texts.now)) }
{
    let Some((first, others)) = texts.split_first() else {
        return true;
    };
    let mut last = first.0.bytes();
    let mut rest = others;
    while let Some((next, after)) = rest.split_first() {
        if !is_before(last, next.0.bytes()) {
            return false;
        }
        last = next.0.bytes();
        rest = after;
    }
    true
}

/// The texts as files. Where their paths rise the files are these texts, one behind another.
pub fn files_of(alloc: Global, texts: Texts) -> Result<Files, OutOfMemory>
    ensures { IfOk result (λ files. IsTrue (map.is_sorted (slice_cmp nat_cmp) (plain texts.items)) → map.entries files ≡ plain texts.items) }
{
    let mut files = Files::new(alloc);
    for (path, bytes) in texts {
        files.insert(path, bytes)?;
    }
    Ok(files)
}
