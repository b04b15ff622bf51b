// The first escape in comments that is refused (JLS 3.3).
ghost use Rattle.std.specs.Prelude.{◌≡◌, ◌+◌, ◌<◌, ◌≤◌, ◌^◌, ◌==◌, ◌&&◌, ◌||◌, not, ℕ, length, drop, slice_index, MatchOption};
ghost use Rattle.jr_escapes.specs.Escapes.{AreRising, IsAhead, is_outside, is_bad_escape, HasNoBadEscape, IsFirstBadEscape};

use crate::units::is_bad_escape;
use jr_base::Token;

// Those of the tokens from the first on that ends behind the place.
fn tokens_ahead(tokens: &[Token], at: usize) -> &[Token]
    requires { AreRising tokens.now }
    ensures rising { AreRising result.now }
    ensures ahead { IsAhead result.now at }
    ensures same { (place : ℕ) → at ≤ place → is_outside result.now place ≡ is_outside tokens.now place }
{
    let mut rest = tokens;
    while let [token, after @ ..] = rest {
        if (token.span.end as usize) > at {
            return rest;
        }
        rest = after;
    }
    rest
}

// Whether the place is in none of the tokens, of which the first ends behind it.
fn is_outside(tokens: &[Token], at: usize) -> bool
    requires rising { AreRising tokens.now }
    requires ahead { IsAhead tokens.now at }
    ensures { result ≡ is_outside tokens.now at }
{
    match tokens {
        [token, ..] => at < token.span.start as usize,
        [] => true,
    }
}

// Whether a bad escape stands at the place, before which the number of backslashes is even or not, by the tokens from the first on that ends behind it.
fn is_bad_at(bytes: &[u8], tokens: &[Token], at: usize, is_even: bool) -> bool
    requires inside { at < length bytes.now }
    requires rising { AreRising tokens.now }
    requires ahead { IsAhead tokens.now at }
    ensures { result ≡ (((slice_index bytes.now at == 92) && is_even) && (is_outside tokens.now at && is_bad_escape (drop (at + 1) bytes.now))) }
{
    bytes[at] == b'\\' && is_even && is_outside(tokens, at) && is_bad_escape(&bytes[at + 1..])
}

// Whether the number of backslashes is even directly behind the byte, before which it is even or not.
fn is_even_behind(byte: u8, is_even: bool) -> bool
    ensures { result ≡ (not (byte == 92) || not is_even) }
{
    byte != b'\\' || !is_even
}

/// The first place, in bytes, where an escape stands in white space or a comment, by the tokens of the bytes, that is malformed, or stands for an end of a line,
/// `*`, `/` or a backslash, and so may change what is a comment (JLS 3.3, 3.7).
pub fn first_bad_escape(bytes: &[u8], tokens: &[Token]) -> Option<u32>
    requires short { length bytes.now < 2 ^ 32 }
    requires rising { AreRising tokens.now }
    ensures { MatchOption result (HasNoBadEscape bytes.now tokens.now) (IsFirstBadEscape bytes.now tokens.now) }
{
    let mut rest = tokens;
    let mut is_even = true;
    for at in 0..bytes.len() {
        rest = tokens_ahead(rest, at);
        if is_bad_at(bytes, rest, at, is_even) {
            return Some(at as u32);
        }
        is_even = is_even_behind(bytes[at], is_even);
    }
    None
}
