// What stands at the front of a text: a gap, a token or a fault.
ghost use Rattle.std.specs.Prelude.{◌≡◌, ◌^◌, ◌<◌, ◌≤◌, ◌==◌, ◌∷◌, [], ℕ, true, false, length, take, slice_index, IfOk, MatchOption, MatchResult};
ghost use Rattle.std.specs.Char.{is_ascii_digit};
ghost use Rattle.jr_base.specs.Gaps.{is_blank};
ghost use Rattle.jr_base.specs.Identifiers.{WordAt};
ghost use Rattle.jr_base.specs.Literals.{is_quote};
ghost use Rattle.jr_base.specs.Numerals.{integer_of};
ghost use Rattle.jr_lex.specs.Items.{IsKindOf, NoInteger, IsItem, IsFault};

use crate::LexFault;
use crate::gaps::{block_comment, line_comment, opens_block_comment, opens_line_comment};
use crate::keywords::keyword_in;
use crate::literals::{Scan, is_quote, scan_literal};
use crate::numerals::integer_of;
use crate::symbols::{opens_fraction, symbol_at};
use crate::words::{run_end, word_len};
use jr_base::{Kind, OutOfMemory, Text, Units};
use std::alloc::Global;

/// A gap or a token, and its length.
#[derive(Drop)]
pub enum Item {
    Gap(usize),
    Found(Kind, usize),
}

/// The keyword of a spelling, or else a name.
fn kind_of(alloc: Global, word: &str) -> Result<Kind, OutOfMemory>
    ensures { IfOk result (λ kind. IsKindOf word.now kind) }
{
    match keyword_in(word) {
        Some(keyword) => Ok(Kind::Word(keyword)),
        None => Ok(Kind::Ident(Text::of(alloc, word.as_bytes())?)),
    }
}

/// The keyword or the name that the text begins with.
fn word_item(alloc: Global, text: &str) -> Result<Option<Item>, OutOfMemory>
    requires { 0 < length text.now }
    ensures { IfOk result (λ found. MatchOption found
        ((len : ℕ) → WordAt text.now 0 len → ⊥)
        (λ item. IsItem text.now item)) }
{
    match word_len(text) {
        Some(end) => {
            let kind = kind_of(alloc, &text[..end])?;
            Ok(Some(Item::Found(kind, end)))
        }
        None => Ok(None),
    }
}

/// Whether a point stands at a place.
fn has_point(text: &str, at: usize) -> bool
    ensures { result ≡ (slice_index text.now at == 46) }
{
    let bytes = text.as_bytes();
    at < bytes.len() && bytes[at] == b'.'
}

/// The integer that the first `len` bytes are.
fn integer_in(text: &str, len: usize) -> Option<Kind>
    requires { len ≤ length text.now }
    ensures { result ≡ integer_of (take len text.now) }
{
    integer_of(&text.as_bytes()[..len])
}

/// The integer that the text begins with.
fn integer_item(text: &str) -> Option<Item>
    ensures { MatchOption result (NoInteger text.now) (IsItem text.now) }
{
    let end = run_end(text, 0);
    if has_point(text, end) {
        return None;
    }
    match integer_in(text, end) {
        Some(kind) => Some(Item::Found(kind, end)),
        None => None,
    }
}

fn only_unit(units: &[u16]) -> Option<u16>
    ensures { MatchOption result (length units.now ≡ 1 → ⊥) (λ unit. units.now ≡ unit ∷ []) }
{
    match units {
        [unit] => Some(*unit),
        _ => None,
    }
}

/// The literal that begins with the quote.
fn literal_item(alloc: Global, text: &str, quote: u8, place: u32) -> Result<Item, LexFault>
    requires short { length text.now < 2 ^ 32 }
    requires quote { is_quote quote ≡ true }
    requires opens { slice_index text.now 0 ≡ quote }
    ensures { MatchResult result (λ item. IsItem text.now item) (λ fault. IsFault text.now place fault) }
{
    match scan_literal(alloc, text, quote)? {
        Scan::BadEscape => Err(LexFault::BadEscape(place)),
        Scan::Open => Err(LexFault::OpenLiteral(place)),
        Scan::Literal(units, len) => {
            if quote == b'"' {
                return Ok(Item::Found(Kind::Str(Units::new(units)), len));
            }
            match only_unit(units.as_slice()) {
                Some(unit) => Ok(Item::Found(Kind::Char(unit), len)),
                None => Err(LexFault::OpenLiteral(place)),
            }
        }
    }
}

/// What stands at the front of a text that begins with no blank. The text stands at a place.
pub fn item_at(alloc: Global, text: &str, place: u32) -> Result<Item, LexFault>
    requires inside { 0 < length text.now }
    requires short { length text.now < 2 ^ 32 }
    requires dark { is_blank (slice_index text.now 0) ≡ false }
    ensures { MatchResult result (λ item. IsItem text.now item) (λ fault. IsFault text.now place fault) }
{
    if let Some(item) = word_item(alloc, text)? {
        return Ok(item);
    }
    let bytes = text.as_bytes();
    if opens_line_comment(bytes) {
        return Ok(Item::Gap(line_comment(bytes)));
    }
    if opens_block_comment(bytes) {
        return match block_comment(bytes) {
            Some(len) => Ok(Item::Gap(len)),
            None => Err(LexFault::OpenComment(place)),
        };
    }
    if bytes[0].is_ascii_digit() {
        return match integer_item(text) {
            Some(item) => Ok(item),
            None => Err(LexFault::BadNumber(place)),
        };
    }
    if is_quote(bytes[0]) {
        return literal_item(alloc, text, bytes[0], place);
    }
    if opens_fraction(bytes) {
        return Err(LexFault::BadNumber(place));
    }
    match symbol_at(bytes) {
        Some((symbol, len)) => Ok(Item::Found(Kind::Sym(symbol), len)),
        None => Err(LexFault::BadByte(place)),
    }
}
