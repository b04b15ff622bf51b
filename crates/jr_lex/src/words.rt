// Words (JLS 3.8, 3.9).
ghost use Rattle.std.specs.Prelude.{◌≡◌, ◌<◌, ◌==◌, ◌||◌, ℕ, false, length, MatchOption};
ghost use Rattle.std.specs.Char.{is_ascii_alphabetic, is_ascii_alphanumeric};
ghost use Rattle.std.specs.Str.{IsCharBoundary};
ghost use Rattle.jr_base.specs.Identifiers.{WordAt, is_word_char};
ghost use Rattle.jr_base.specs.Places.{CharAt, CharRun};

use jr_base::{char_at, starts_word, word_end};

/// Whether an identifier begins with the ASCII character.
fn starts(b: u8) -> bool
    ensures { result ≡ (is_ascii_alphabetic b || ((b == 95) || (b == 36))) }
{
    b.is_ascii_alphabetic() || b == b'_' || b == b'$'
}

/// Whether an identifier goes on with the ASCII character.
fn goes_on(b: u8) -> bool
    ensures { result ≡ ((is_ascii_alphanumeric b || (b == 95)) || (b == 36)) }
{
    b.is_ascii_alphanumeric() || b == b'_' || b == b'$'
}

/// The byte offset where the run of characters that go on an identifier ends. The run begins at the byte offset `from`.
pub fn run_end(text: &str, from: usize) -> usize
    requires boundary { IsCharBoundary text.now from }
    ensures run { CharRun is_word_char text.now from result }
    ensures ends { (c : ℕ) → CharAt text.now result c → is_word_char c ≡ false }
    ensures after { IsCharBoundary text.now result }
{
    let bytes = text.as_bytes();
    let mut end = from;
    while end < bytes.len() {
        if !goes_on(bytes[end]) {
            if bytes[end] < 128 {
                break;
            }
            return word_end(text, end);
        }
        end += 1;
    }
    end
}

/// The byte offset behind the first character, where a word begins with it.
fn first_end(text: &str) -> Option<usize>
    requires { 0 < length text.now }
    ensures { MatchOption result
        ((len : ℕ) → WordAt text.now 0 len → ⊥)
        (λ next. IsCharBoundary text.now next × ((end : ℕ) → CharRun is_word_char text.now next end → WordAt text.now 0 end)) }
{
    let first = text.as_bytes()[0];
    if first < 128 {
        return if starts(first) { Some(1) } else { None };
    }
    let (c, next) = char_at(text, 0);
    if starts_word(c) { Some(next) } else { None }
}

/// The length of the word that the text begins with.
pub fn word_len(text: &str) -> Option<usize>
    requires { 0 < length text.now }
    ensures { MatchOption result
        ((len : ℕ) → WordAt text.now 0 len → ⊥)
        (λ len. IsCharBoundary text.now len × WordAt text.now 0 len × ((c : ℕ) → CharAt text.now len c → is_word_char c ≡ false)) }
{
    match first_end(text) {
        Some(next) => Some(run_end(text, next)),
        None => None,
    }
}
