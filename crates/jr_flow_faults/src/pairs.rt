// Pairs of numbers, each once.
ghost use Rattle.std.specs.Prelude.{◌≡◌, OnOk};
ghost use Rattle.std.specs.List.{list_any};
ghost use Rattle.jr_supers.specs.Pairs.{has_pair, with_pair, with_pairs};

use jr_base::OutOfMemory;
use jr_places::{Chains, Entry};
use std::alloc::Global;

/// The pair is one of these.
pub(crate) fn is_pair(pairs: &Chains, low: u32, high: u32) -> bool
    ensures { result ≡ has_pair pairs.now low high }
{
    pairs.last(low, high).is_some()
}

/// One more pair, unless it is one of these.
pub(crate) fn add_pair(
    alloc: Global,
    pairs: &mut Chains,
    low: u32,
    high: u32,
) -> Result<(), OutOfMemory>
    ensures { OnOk result (pairs.new ≡ with_pair pairs.old low high) }
{
    if is_pair(pairs, low, high) {
        return Ok(());
    }
    pairs.add(
        alloc,
        Entry {
            first: low,
            second: high,
            row: high,
        },
    )
}

/// The pairs of a number and each item of a list.
pub(crate) fn add_pairs(
    alloc: Global,
    pairs: &mut Chains,
    low: u32,
    highs: &[u32],
) -> Result<(), OutOfMemory>
    ensures { OnOk result (pairs.new ≡ with_pairs pairs.old low highs.now) }
{
    for high in highs {
        add_pair(alloc, pairs, low, *high)?;
    }
    Ok(())
}

/// The number has a pair with an item of a list.
pub(crate) fn is_any_pair(pairs: &Chains, low: u32, highs: &[u32]) -> bool
    ensures { result ≡ list_any (λ high. has_pair pairs.now low high) highs.now }
{
    for high in highs {
        if is_pair(pairs, low, *high) {
            return true;
        }
    }
    false
}
