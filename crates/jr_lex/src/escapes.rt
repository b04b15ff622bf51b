// Escapes (JLS 3.3, 3.10.6).
ghost use Rattle.std.specs.Prelude.{◌≡◌, ◌+◌, ◌^◌, ◌<◌, ◌≤◌, true, drop, take, length, slice_index, option_map};
ghost use Rattle.std.specs.Char.{is_digit};
ghost use Rattle.std.specs.Str.Parse.{digits_value};
ghost use Rattle.jr_base.specs.Literals.{simple_escape, octal_count, is_reserved, hex_unit, mark_count, escaped, escape_of};

use crate::numerals::{all_digits, digit_value};

/// The unit of the escape that the text begins with, and its length behind the backslash.
#[tactic(auto, unfolding(jr_base::specs::Literals::escape_of))]
pub fn escape_of(text: &[u8]) -> Option<(u16, usize)>
    ensures { result ≡ escape_of text.now }
{
    match text {
        [b'\\', behind @ ..] => escaped(behind),
        _ => None,
    }
}

fn escaped(text: &[u8]) -> Option<(u16, usize)>
    ensures { result ≡ escaped text.now }
{
    if text.is_empty() {
        return None;
    }
    if text[0] == b'u' {
        return unicode_escape(text);
    }
    if is_octal(text[0]) {
        return Some(octal_escape(text));
    }
    let unit = simple_escape(text[0])?;
    Some((unit, 1))
}

fn is_octal(c: u8) -> bool
    ensures { result ≡ is_digit c 8 }
{
    b'0' <= c && c <= b'7'
}

fn simple_escape(c: u8) -> Option<u16>
    ensures { result ≡ simple_escape c }
{
    match c {
        b'b' => Some(8),
        b't' => Some(9),
        b'n' => Some(10),
        b'f' => Some(12),
        b'r' => Some(13),
        b'"' | b'\'' | b'\\' => Some(u16::from(c)),
        _ => None,
    }
}

/// How many of up to three octal digits make the escape.
fn octal_count(digits: &[u8]) -> usize
    requires { is_digit (slice_index digits.now 0) 8 ≡ true }
    ensures count { result ≡ octal_count digits.now }
    ensures inside { result ≤ length digits.now }
{
    if digits.len() > 1 && is_octal(digits[1]) {
        if digits[0] <= b'3' && digits.len() > 2 && is_octal(digits[2]) {
            3
        } else {
            2
        }
    } else {
        1
    }
}

fn octal_escape(text: &[u8]) -> (u16, usize)
    requires { is_digit (slice_index text.now 0) 8 ≡ true }
    ensures unit { result.0 ≡ digits_value 8 (take (octal_count text.now) text.now) }
    ensures count { result.1 ≡ octal_count text.now }
{
    let count = octal_count(text);
    (small_value(&text[..count], 8), count)
}

/// How many `u` the text begins with.
fn mark_count(text: &[u8]) -> usize
    ensures count { result ≡ mark_count text.now }
    ensures inside { result ≤ length text.now }
{
    text.iter().take_while(|c| **c == b'u').count()
}

fn unicode_escape(text: &[u8]) -> Option<(u16, usize)>
    ensures { result ≡ option_map (λ unit. (unit, mark_count text.now + 4)) (hex_unit (take 4 (drop (mark_count text.now) text.now))) }
{
    let marks = mark_count(text);
    let unit = hex_unit(front(&text[marks..], 4))?;
    Some((unit, marks + 4))
}

/// The first `len` bytes, or all where there are fewer.
fn front(text: &[u8], len: usize) -> &[u8]
    ensures { result.now ≡ take len text.now }
{
    if text.len() < len { text } else { &text[..len] }
}

fn is_reserved(unit: u16) -> bool
    ensures { result ≡ is_reserved unit }
{
    unit == 34 || unit == 39 || unit == 92 || unit == 10 || unit == 13
}

/// The unit of four hexadecimal digits.
fn hex_unit(digits: &[u8]) -> Option<u16>
    ensures { result ≡ hex_unit digits.now }
{
    if digits.len() != 4 || !all_digits(digits, 16) {
        return None;
    }
    let unit = small_value(digits, 16);
    if is_reserved(unit) { None } else { Some(unit) }
}

/// The value of digits in a base, which is a unit.
#[tactic(auto, using(crate::proofs::Digits::digits_grow, std::proofs::lemmas::Int::Digits::digits_value_more))]
fn small_value(digits: &[u8], radix: u64) -> u16
    requires base { 2 ≤ radix }
    requires small { digits_value radix digits.now < 2 ^ 16 }
    ensures { result ≡ digits_value radix digits.now }
{
    let mut value: u64 = 0;
    for digit in digits {
        value = value * radix + u64::from(digit_value(*digit));
    }
    value as u16
}
