// All files of a store.
ghost use Rattle.std.specs.Prelude.{◌≡◌, IfOk, ◌≤◌, length, nat_lt, Some};
ghost use Rattle.std.specs.List.{list_any};
ghost use Rattle.jr_store.specs.Image.{Image, AreJava, Lists, LeavesOnly, HasStoreCause};
ghost use Rattle.jr_gather.specs.Gathering.{IsGathered};
ghost use Rattle.jr_gather.specs.Piles.{plain_pile, start, with_side, pile_of, outcome_of};

use crate::pile::Pile;
use jr_base::{Files, Limits, Path, Size};
use jr_store::{Store, StoreError};
use std::alloc::Global;

/// The `.java` files of a store, or a size of theirs that passes its limit.
#[derive(Drop)]
pub enum Gathered {
    Files(Files),
    TooLarge(Size),
}

// The pile with the file at the path, if there is one.
fn add_file<S: Store>(
    alloc: Global,
    store: &mut S,
    pile: Pile,
    path: &Path,
) -> Result<Pile, StoreError>
    ensures piled { IfOk result (λ after. (f : Image) → S.files store.old ≡ Some f → plain_pile after ≡ with_side (plain_pile pile) path.now (f path.now)) }
    ensures told { S.files store.new ≡ S.files store.old }
    ensures crash { (c : Image) → S.may_leave store.new c → S.may_leave store.old c }
    ensures any_moment { LeavesOnly S.moment S.left_since store.old store.new (S.may_leave store.old) }
    ensures cause { HasStoreCause (S.faults store.old) (S.faults store.new) result }
{
    match store.read(alloc, path, 1_048_577)? {
        Some(bytes) => Ok(pile.with_file(alloc, path, bytes)?),
        None => Ok(pile),
    }
}

// The files at the paths, as they pile up.
fn pile_up<S: Store>(alloc: Global, store: &mut S, paths: &[Path]) -> Result<Pile, StoreError>
    ensures piled { IfOk result (λ pile. (f : Image) → S.files store.old ≡ Some f → plain_pile pile ≡ pile_of f start paths.now) }
    ensures told { S.files store.new ≡ S.files store.old }
    ensures crash { (c : Image) → S.may_leave store.new c → S.may_leave store.old c }
    ensures any_moment { LeavesOnly S.moment S.left_since store.old store.new (S.may_leave store.old) }
    ensures cause { HasStoreCause (S.faults store.old) (S.faults store.new) result }
{
    let mut pile = Pile::new(alloc);
    let mut rest = paths;
    while let [path, after @ ..] = rest {
        pile = add_file(alloc, store, pile, path)?;
        rest = after;
    }
    Ok(pile)
}

// Whether a path is too long.
fn has_long(paths: &[Path]) -> bool
    ensures { result ≡ list_any (λ path. nat_lt Limits.PATH (length path)) paths.now }
{
    paths
        .iter()
        .any(|path| path.bytes().len() > Limits::PATH as usize)
}

// What the pile comes to: a file that is too large first, and then all together.
fn outcome(pile: Pile) -> Gathered
    ensures { result ≡ outcome_of (plain_pile pile) }
{
    if pile.is_large {
        return Gathered::TooLarge(Size::File);
    }
    if pile.is_past {
        return Gathered::TooLarge(Size::Total);
    }
    Gathered::Files(pile.files)
}

/// The `.java` files of a store. Where a size of theirs passes its limit, the first of these: how many they are, a path, a file, all together.
pub fn gather<S: Store>(alloc: Global, store: &mut S) -> Result<Gathered, StoreError>
    ensures found { IfOk result (λ found. (f : Image) → S.files store.old ≡ Some f → IsGathered f found) }
    ensures told { S.files store.new ≡ S.files store.old }
    ensures crash { (c : Image) → S.may_leave store.new c → S.may_leave store.old c }
    ensures any_moment { LeavesOnly S.moment S.left_since store.old store.new (S.may_leave store.old) }
    ensures cause { HasStoreCause (S.faults store.old) (S.faults store.new) result }
{
    let paths = store.list(alloc, Limits::FILES + 1)?;
    if paths.len() > Limits::FILES as usize {
        return Ok(Gathered::TooLarge(Size::Files));
    }
    if has_long(&paths) {
        return Ok(Gathered::TooLarge(Size::Path));
    }
    Ok(outcome(pile_up(alloc, store, &paths)?))
}
