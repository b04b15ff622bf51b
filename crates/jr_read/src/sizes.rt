// The sizes of the files found, in the order in which they are tested.
ghost use Rattle.std.specs.Prelude.{◌≡◌, ◌≤◌, map};
ghost use Rattle.jr_base.specs.Files.{plain};
ghost use Rattle.jr_read.specs.Sizes.{has_long_path, has_large_file, passes_total, first_too_large};

use jr_base::{Limits, Path, Size};

fn is_long_path(files: &[(Path, Vec<u8>)]) -> bool
    ensures { result ≡ has_long_path (plain files.now) }
{
    let mut rest = files;
    while let [(path, _), after @ ..] = rest {
        if path.bytes().len() > Limits::PATH as usize {
            return true;
        }
        rest = after;
    }
    false
}

fn is_large_file(files: &[(Path, Vec<u8>)]) -> bool
    ensures { result ≡ has_large_file (plain files.now) }
{
    let mut rest = files;
    while let [(_, bytes), after @ ..] = rest {
        if bytes.len() > Limits::FILE as usize {
            return true;
        }
        rest = after;
    }
    false
}

// Whether the bytes of the files are more than may be.
fn is_past(files: &[(Path, Vec<u8>)], most: usize) -> bool
    ensures { result ≡ passes_total (plain files.now) most }
{
    let mut left = most;
    let mut rest = files;
    while let [(_, bytes), after @ ..] = rest {
        if bytes.len() > left {
            return true;
        }
        left -= bytes.len();
        rest = after;
    }
    false
}

/// The first size of the files found that passes its limit: how many they are, a path, a file, or all together.
pub fn too_large(files: &[(Path, Vec<u8>)]) -> Option<Size>
    ensures { result ≡ first_too_large (plain files.now) }
{
    if files.len() > Limits::FILES as usize {
        return Some(Size::Files);
    }
    if is_long_path(files) {
        return Some(Size::Path);
    }
    if is_large_file(files) {
        return Some(Size::File);
    }
    if is_past(files, Limits::TOTAL as usize) {
        return Some(Size::Total);
    }
    None
}
