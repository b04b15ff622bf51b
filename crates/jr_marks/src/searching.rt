// Searches in lists that rise.
ghost use Rattle.std.specs.Prelude.{◌≡◌, ◌≤◌, ◌<◌, ◌^◌, IfSome, length, slice_get};
ghost use Rattle.std.specs.List.Sorted.{IsNonDecreasing};
ghost use Rattle.jr_marks.specs.Places as places;

use jr_base::{Kind, Token};

#[tactic(auto, using(crate::proofs::Cuts::halved_start, crate::proofs::Cuts::halved_low, crate::proofs::Cuts::halved_high, crate::proofs::Cuts::halved_end))]
/// How many numbers, from the first on, are not above this one.
pub fn count_up_to(numbers: &[u32], number: u32) -> usize
    ensures within { result ≤ length numbers.now }
    ensures up_to { IsNonDecreasing numbers.now → result ≡ places.count_to numbers.now number }
{
    let mut low = 0;
    let mut high = numbers.len();
    while low < high {
        let middle = low + (high - low) / 2;
        if numbers[middle] <= number {
            low = middle + 1;
        } else {
            high = middle;
        }
    }
    low
}

#[tactic(auto, using(crate::proofs::Cuts::tokens_start, crate::proofs::Cuts::tokens_low, crate::proofs::Cuts::tokens_high, crate::proofs::Cuts::tokens_end))]
/// How many tokens, from the first on, end at or before this offset.
fn count_before(tokens: &[Token], offset: u32) -> usize
    ensures within { result ≤ length tokens.now }
    ensures before { places.AreApart tokens.now → places.IsCut tokens.now offset result }
{
    let mut low = 0;
    let mut high = tokens.len();
    while low < high {
        let middle = low + (high - low) / 2;
        if tokens[middle].span.end <= offset {
            low = middle + 1;
        } else {
            high = middle;
        }
    }
    low
}

// The token is an identifier that holds the offset.
fn holds(tokens: &[Token], number: usize, offset: u32) -> bool
    ensures { result ≡ places.holds offset (slice_get tokens.now number) }
{
    match tokens.get(number) {
        Some(token) => {
            is_identifier(&token.kind) && token.span.start <= offset && offset < token.span.end
        }
        None => false,
    }
}

/// The number of the identifier that holds the offset, at its first byte or before its end.
pub fn identifier_at(tokens: &[Token], offset: u32) -> Option<u32>
    ensures within { IfSome result (λ number. number < length tokens.now) }
    ensures found { places.AreApart tokens.now → length tokens.now < 2 ^ 32 → result ≡ places.identifier_at tokens.now offset }
{
    let number = count_before(tokens, offset);
    if holds(tokens, number, offset) {
        small(number)
    } else {
        None
    }
}

// The number, if it fits.
fn small(number: usize) -> Option<u32>
    ensures same { IfSome result (λ small. small ≡ number) }
    ensures fits { number < 2 ^ 32 → result ≡ Some number }
{
    match u32::try_from(number) {
        Ok(small) => Some(small),
        Err(_) => None,
    }
}

fn is_identifier(kind: &Kind) -> bool
    ensures { result ≡ places.is_identifier kind.now }
{
    matches!(kind, Kind::Ident(_))
}
