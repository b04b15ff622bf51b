// The differences of two lists of files, and the text of their journal.
ghost use Rattle.std.specs.Prelude.{◌≡◌, ◌+◌, ◌<◌, ◌^◌, List, [], ◌∷◌, ◌++◌, length, IfOk, OnOk, IfSome, MatchOption, Some};
ghost use Rattle.std.specs.Option.{option_copied};
ghost use Rattle.std.specs.List.{AllByRecursion};
ghost use Rattle.jr_base.specs.Files.{plain};
ghost use Rattle.jr_base.specs.Paths.{IsPath};
ghost use Rattle.jr_commit.specs.Steps.{path_of, side_of, sides_of};
ghost use Rattle.jr_commit.specs.Journal.{string, side_text, entries_text, new_sides};
ghost use Rattle.jr_commit.specs.Differences.{pairs, changes, same_side};
ghost use Rattle.jr_commit.specs.declared.entry.Version.TheVariants.{Two};

use crate::actions::Step;
use jr_base::{OutOfMemory, Path};
use std::alloc::Global;
use std::cmp::Ordering;

// A path of either list, what stands there in each, and the files after it.
#[derive(Drop)]
struct Pair<'a> {
    path: &'a Path,
    old: Option<&'a [u8]>,
    new: Option<&'a [u8]>,
    olds: &'a [(Path, Vec<u8>)],
    news: &'a [(Path, Vec<u8>)],
}

// The first path of either list, or None where both are empty.
fn first_pair<'a>(olds: &'a [(Path, Vec<u8>)], news: &'a [(Path, Vec<u8>)]) -> Option<Pair<'a>>
    ensures first { MatchOption result (pairs (plain olds.now) (plain news.now) ≡ [])
        (λ p. pairs (plain olds.now) (plain news.now) ≡ (p.path.now, option_copied p.old, option_copied p.new) ∷ pairs (plain p.olds.now) (plain p.news.now)) }
    ensures fewer { IfSome result (λ p. length p.olds.now + length p.news.now < length olds.now + length news.now) }
{
    match olds {
        [] => match news {
            [] => None,
            [added, after @ ..] => Some(Pair {
                path: &added.0,
                old: None,
                new: Some(&added.1),
                olds,
                news: after,
            }),
        },
        [file, rest @ ..] => match news {
            [] => Some(Pair {
                path: &file.0,
                old: Some(&file.1),
                new: None,
                olds: rest,
                news,
            }),
            [added, after @ ..] => match file.0.bytes().cmp(added.0.bytes()) {
                Ordering::Less => Some(Pair {
                    path: &file.0,
                    old: Some(&file.1),
                    new: None,
                    olds: rest,
                    news,
                }),
                Ordering::Equal => Some(Pair {
                    path: &file.0,
                    old: Some(&file.1),
                    new: Some(&added.1),
                    olds: rest,
                    news: after,
                }),
                Ordering::Greater => Some(Pair {
                    path: &added.0,
                    old: None,
                    new: Some(&added.1),
                    olds,
                    news: after,
                }),
            },
        },
    }
}

// Whether both sides are the same.
fn is_same(old: Option<&[u8]>, new: Option<&[u8]>) -> bool
    ensures { result ≡ same_side (option_copied old.entry) (option_copied new.entry) }
{
    match (old, new) {
        (None, None) => true,
        (Some(old), Some(new)) => old == new,
        _ => false,
    }
}

fn put_string(out: &mut Vec<u8>, bytes: &[u8]) -> Result<(), OutOfMemory>
    requires { length bytes.now < 2 ^ 32 }
    ensures { OnOk result (out.new.items ≡ out.old.items ++ string bytes.now) }
{
    out.extend_from_slice(&(bytes.len() as u32).to_be_bytes())?;
    out.extend_from_slice(bytes)?;
    Ok(())
}

fn put_side(out: &mut Vec<u8>, side: Option<&[u8]>) -> Result<(), OutOfMemory>
    requires { length (side_text (Some (option_copied side))) < 2 ^ 32 }
    ensures { OnOk result (out.new.items ≡ out.old.items ++ side_text (Some (option_copied side.entry))) }
{
    match side {
        Some(bytes) => {
            out.push(b'F')?;
            put_string(out, bytes)
        }
        None => Ok(out.push(b'A')?),
    }
}

// The step that leaves this side at the path.
fn step_to(alloc: Global, path: &Path, side: Option<&[u8]>) -> Result<Step, OutOfMemory>
    ensures path { IfOk result (λ s. (path_of s ≡ path.now) × IsPath path.now) }
    ensures side { IfOk result (λ s. side_of s ≡ option_copied side.entry) }
{
    let path = match Path::parse(alloc, path.bytes()) {
        Ok(path) => path,
        Err(_) => return Err(OutOfMemory),
    };
    match side {
        Some(bytes) => Ok(Step::Write {
            path,
            bytes: bytes.to_vec(alloc)?,
        }),
        None => Ok(Step::Remove { path }),
    }
}

// Adds the entry and the step of a pair whose sides differ.
pub fn push_change(
    alloc: Global,
    text: &mut Vec<u8>,
    steps: &mut Vec<Step>,
    path: &Path,
    old: Option<&[u8]>,
    new: Option<&[u8]>,
) -> Result<(), OutOfMemory>
    requires { length (entries_text Two (changes ((path.now, option_copied old, option_copied new) ∷ []))) < 2 ^ 32 }
    ensures text { OnOk result (text.new.items ≡ text.old.items ++ entries_text Two (changes ((path.now, option_copied old.entry, option_copied new.entry) ∷ []))) }
    ensures steps { OnOk result (sides_of steps.new.items ≡ sides_of steps.old.items ++ new_sides (changes ((path.now, option_copied old.entry, option_copied new.entry) ∷ []))) }
    ensures paths { OnOk result (AllByRecursion (λ e. IsPath e.0) (changes ((path.now, option_copied old.entry, option_copied new.entry) ∷ []))) }
{
    if is_same(old, new) {
        return Ok(());
    }
    put_string(text, path.bytes())?;
    put_side(text, old)?;
    put_side(text, new)?;
    steps.push(step_to(alloc, path, new)?)?;
    Ok(())
}

/// The text of the entries, and the steps, of the differences.
pub fn differences_of(
    alloc: Global,
    olds: &[(Path, Vec<u8>)],
    news: &[(Path, Vec<u8>)],
) -> Result<(Vec<u8>, Vec<Step>), OutOfMemory>
    requires { length (entries_text Two (changes (pairs (plain olds.now) (plain news.now)))) < 2 ^ 32 }
    ensures text { IfOk result (λ r. r.0.items ≡ entries_text Two (changes (pairs (plain olds.now) (plain news.now)))) }
    ensures steps { IfOk result (λ r. sides_of r.1.items ≡ new_sides (changes (pairs (plain olds.now) (plain news.now)))) }
    ensures paths { OnOk result (AllByRecursion (λ e. IsPath e.0) (changes (pairs (plain olds.now) (plain news.now)))) }
{
    let mut text = Vec::new(alloc);
    let mut steps = Vec::new(alloc);
    let mut old_rest = olds;
    let mut new_rest = news;
    while let Some(pair) = first_pair(old_rest, new_rest) {
        push_change(alloc, &mut text, &mut steps, pair.path, pair.old, pair.new)?;
        old_rest = pair.olds;
        new_rest = pair.news;
    }
    Ok((text, steps))
}
