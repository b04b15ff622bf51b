// Separators and operators (JLS 3.11, 3.12).
ghost use Rattle.std.specs.Prelude.{◌≡◌, ◌+◌, ◌<◌, ◌≤◌, ◌∷◌, [], ℕ, true, length, MatchOption, IfSome};
ghost use Rattle.jr_base.specs.Tokens.{opens_fraction};
ghost use Rattle.jr_base.specs.Spellings.{symbol_text};
ghost use Rattle.jr_base.specs.declared.kind.Symbol.{Symbol};
ghost use Rattle.jr_lex.specs.Candidates.{is_second, is_lone};
ghost use Rattle.jr_lex.specs.Items.{HasSymbol};

use jr_base::{Symbol, symbol_of};

/// Whether the text begins with a point and a digit.
pub fn opens_fraction(text: &[u8]) -> bool
    ensures { result ≡ opens_fraction text.now }
{
    text.len() > 1 && text[0] == b'.' && text[1].is_ascii_digit()
}

/// The symbol of the byte, where no longer one begins with that byte.
fn lone_symbol(first: u8) -> Option<Symbol>
    ensures { IfSome result (λ s. (symbol_text s ≡ first ∷ []) × (is_lone first ≡ true)) }
{
    match first {
        b'(' => Some(Symbol::OpenParen),
        b')' => Some(Symbol::CloseParen),
        b'{' => Some(Symbol::OpenBrace),
        b'}' => Some(Symbol::CloseBrace),
        b'[' => Some(Symbol::OpenBracket),
        b']' => Some(Symbol::CloseBracket),
        b';' => Some(Symbol::Semicolon),
        b',' => Some(Symbol::Comma),
        b'.' => Some(Symbol::Dot),
        _ => None,
    }
}

/// Whether the byte may be the second one of a symbol.
fn is_second(second: u8) -> bool
    ensures { result ≡ is_second second }
{
    second == b'='
        || second == b'<'
        || second == b'>'
        || second == b'&'
        || second == b'|'
        || second == b'+'
        || second == b'-'
}

/// More than the length of each symbol that the text begins with.
fn past_symbols(text: &[u8]) -> usize
    ensures { (len : ℕ) (s : Symbol) → HasSymbol text.now len s → len < result }
{
    if text.len() < 2 {
        return 2;
    }
    if is_second(text[1]) { 5 } else { 2 }
}

/// The longest symbol that the text begins with, and its length.
pub fn symbol_at(text: &[u8]) -> Option<(Symbol, usize)>
    ensures { MatchOption result
        ((len : ℕ) (s : Symbol) → HasSymbol text.now len s → ⊥)
        (λ found. HasSymbol text.now found.1 found.0
        × ((len : ℕ) (s : Symbol) → HasSymbol text.now len s → len ≤ found.1)) }
{
    if text.is_empty() {
        return None;
    }
    if let Some(symbol) = lone_symbol(text[0]) {
        return Some((symbol, 1));
    }
    let past = past_symbols(text);
    for len in (1..past).rev() {
        if len <= text.len() {
            if let Some(symbol) = symbol_of(&text[..len]) {
                return Some((symbol, len));
            }
        }
    }
    None
}
