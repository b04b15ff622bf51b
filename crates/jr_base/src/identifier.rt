// Identifiers (JLS 3.8).
ghost use Rattle.std.specs.Prelude.{◌≡◌, ◌↔◌, IsTrue};
ghost use Rattle.jr_base.specs.Identifiers.{IsIdentifier};

use crate::{char_at, keyword_of, starts_word, word_end};
use std::str;

/// Whether the bytes are an identifier (JLS 3.8): a word that is no keyword and not `true`, `false` or `null`.
pub fn is_identifier(bytes: &[u8]) -> bool
    ensures { IsTrue result ↔ IsIdentifier bytes.now }
{
    match str::from_utf8(bytes) {
        Ok(text) => is_word(text) && keyword_of(text).is_none(),
        Err(_) => false,
    }
}

ghost use Rattle.std.specs.Prelude.{length};
ghost use Rattle.jr_base.specs.Identifiers.{WordAt};

fn is_word(text: &str) -> bool
    ensures { IsTrue result ↔ WordAt text.now 0 (length text.now) }
{
    if text.is_empty() {
        return false;
    }
    let (first, next) = char_at(text, 0);
    starts_word(first) && word_end(text, next) == text.len()
}
