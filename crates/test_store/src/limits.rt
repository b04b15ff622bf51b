// Files that a plan takes, and the plan.
ghost use Rattle.std.specs.FinMap as map;
ghost use Rattle.std.specs.List.{AllByRecursion};
ghost use Rattle.std.specs.Prelude.{◌≤◌, IsTrue, length};
ghost use Rattle.jr_base.specs.Files.{plain};
ghost use Rattle.jr_commit.specs.Sizes.{IsWithinLimits, content_bytes};
ghost use Rattle.test_store.specs.Names.{names};
ghost use Rattle.jr_store.specs.Image.{AreJava};

use jr_base::{Files, OutOfMemory, Path};
use jr_commit::{Plan, journal_fits};
use std::alloc::Global;

// Whether the files are Java files with short paths, and hold at most so many bytes in all.
fn fit(files: &[(Path, Vec<u8>)], room: usize) -> bool
    ensures java { IsTrue result → AreJava (names (plain files.now)) }
    ensures short { IsTrue result → AllByRecursion (λ p. length p ≤ 1024) (names (plain files.now)) }
    ensures bytes { IsTrue result → content_bytes (plain files.now) ≤ room }
{
    match files {
        [] => true,
        [(path, bytes), rest @ ..] => {
            path.is_java()
                && path.bytes().len() <= 1024
                && bytes.len() <= room
                && fit(rest, room - bytes.len())
        }
    }
}

// Whether the files are Java files within the limits.
fn are_within_limits(files: &Files) -> bool
    ensures java { IsTrue result → AreJava (map.keys files.now) }
    ensures within { IsTrue result → IsWithinLimits files.now }
{
    files.len() <= 4096 && fit(files.entries(), 16_777_216)
}

/// The plan of a change, where both sides are Java files within the limits.
pub fn plan_of(alloc: Global, old: &Files, new: &Files) -> Result<Option<Plan>, OutOfMemory> {
    if !are_within_limits(old) || !are_within_limits(new) {
        return Ok(None);
    }
    journal_fits(old, new);
    Ok(Some(Plan::new(alloc, old, new)?))
}
