// Characters at places of a text, and runs of them.
ghost use Rattle.std.specs.Prelude.{◌≡◌, ◌+◌, ◌<◌, ◌==◌, ◌||◌, ℕ, false, length};
ghost use Rattle.std.specs.Char.{is_ascii_alphabetic, is_ascii_alphanumeric, len_utf8};
ghost use Rattle.std.specs.Str.{IsCharBoundary};
ghost use Rattle.jr_base.specs.Places.{CharAt, CharRun};
ghost use Rattle.jr_base.specs.Identifiers.{is_start_char, is_word_char};

/// The character at a byte offset, and the byte offset where it ends.
pub fn char_at(text: &str, at: usize) -> (char, usize)
    requires inside { at < length text.now }
    requires boundary { IsCharBoundary text.now at }
    ensures char { CharAt text.now at result.0 }
    ensures ends { result.1 ≡ at + len_utf8 result.0 }
    ensures after { IsCharBoundary text.now result.1 }
{
    let first = text.as_bytes()[at];
    if first < 128 {
        return (char::from(first), at + 1);
    }
    let rest = &text[at..];
    match rest.chars().next() {
        Some(c) => (c, at + c.len_utf8()),
        None => unreachable!(),
    }
}

fn starts_ascii(c: char) -> bool
    ensures { result ≡ (is_ascii_alphabetic c || ((c == 95) || (c == 36))) }
{
    c.is_ascii_alphabetic() || c == '_' || c == '$'
}

fn continues_ascii(c: char) -> bool
    ensures { result ≡ ((is_ascii_alphanumeric c || (c == 95)) || (c == 36)) }
{
    c.is_ascii_alphanumeric() || c == '_' || c == '$'
}

/// Whether an identifier begins with the character (JLS 3.8): `_`, `$` or one of Unicode's class XID_Start.
pub fn starts_word(c: char) -> bool
    ensures { result ≡ is_start_char c }
{
    if c < '\u{80}' {
        return starts_ascii(c);
    }
    unicode_ident::is_xid_start(c) || c == '_' || c == '$'
}

/// Whether an identifier goes on with the character (JLS 3.8): `$` or one of Unicode's class XID_Continue.
pub fn continues_word(c: char) -> bool
    ensures { result ≡ is_word_char c }
{
    if c < '\u{80}' {
        return continues_ascii(c);
    }
    unicode_ident::is_xid_continue(c) || c == '$'
}

/// The byte offset where the run of characters that go on an identifier ends. The run begins at the byte offset `from`.
pub fn word_end(text: &str, from: usize) -> usize
    requires boundary { IsCharBoundary text.now from }
    ensures run { CharRun is_word_char text.now from result }
    ensures ends { (c : ℕ) → CharAt text.now result c → is_word_char c ≡ false }
    ensures after { IsCharBoundary text.now result }
{
    let mut end = from;
    while end < text.len() {
        let (c, next) = char_at(text, end);
        if !continues_word(c) {
            break;
        }
        end = next;
    }
    end
}
