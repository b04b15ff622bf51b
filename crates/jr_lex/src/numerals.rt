// Integer literals (JLS 3.10.1).
ghost use Rattle.std.specs.Prelude.{◌≡◌, ◌⊎◌, ◌+◌, ◌*◌, ◌^◌, ◌<◌, ◌≤◌, ◌&&◌, ◌||◌, ◌==◌, true, false, nat_lt, length, slice_index, MatchOption};
ghost use Rattle.std.specs.Char.{digit_value, is_digit};
ghost use Rattle.std.specs.List.{list_all};
ghost use Rattle.std.specs.Str.Parse.{digits_value};
ghost use Rattle.jr_base.specs.Numerals.{is_hex_mark, is_long_mark, radix_of, digits_of, is_numeral, numeral_value, int_of, long_of, has_long_mark, numeral_in, integer_of};

use jr_base::Kind;

/// The integer literal that the whole word is.
#[tactic(auto, unfolding(jr_base::specs::Numerals::integer_of))]
pub fn integer_of(word: &[u8]) -> Option<Kind>
    ensures { result ≡ integer_of word.now }
{
    let numeral = without_long_mark(word);
    let value = numeral_value(numeral)?;
    let radix = radix_of(numeral);
    if numeral.len() < word.len() {
        long_of(radix, value)
    } else {
        int_of(radix, value)
    }
}

/// The word without the `l` or `L` at its end.
fn without_long_mark(word: &[u8]) -> &[u8]
    ensures { result.now ≡ numeral_in word.now }
{
    match word {
        [numeral @ .., b'l' | b'L'] => numeral,
        _ => word,
    }
}

/// The base of a numeral.
fn radix_of(numeral: &[u8]) -> u64
    ensures { result ≡ radix_of numeral.now }
{
    match numeral {
        [b'0', b'x' | b'X', ..] => 16,
        [b'0', _, ..] => 8,
        _ => 10,
    }
}

/// The digits of a numeral.
fn digits_of(numeral: &[u8]) -> &[u8]
    ensures { result.now ≡ digits_of numeral.now }
{
    if radix_of(numeral) == 16 {
        &numeral[2..]
    } else {
        numeral
    }
}

fn are_digits(digits: &[u8], radix: u64) -> bool
    ensures { result ≡ (nat_lt 0 (length digits.now) && list_all (λ c. is_digit c radix) digits.now) }
{
    !digits.is_empty() && all_digits(digits, radix)
}

pub fn all_digits(digits: &[u8], radix: u64) -> bool
    ensures { result ≡ list_all (λ c. is_digit c radix) digits.now }
{
    digits.iter().all(|c| is_digit(*c, radix))
}

fn is_digit(c: u8, radix: u64) -> bool
    ensures { result ≡ is_digit c radix }
{
    u64::from(digit_value(c)) < radix
}

/// The value of a numeral, where the bytes are one and the value is below 2 ^ 64.
fn numeral_value(numeral: &[u8]) -> Option<u64>
    ensures { MatchOption result
        ((is_numeral numeral.now ≡ false) ⊎ (2 ^ 64 ≤ numeral_value numeral.now))
        (λ value. (is_numeral numeral.now ≡ true) × (value ≡ numeral_value numeral.now)) }
{
    let digits = digits_of(numeral);
    let radix = radix_of(numeral);
    if !are_digits(digits, radix) {
        return None;
    }
    value_of_digits(digits, radix)
}

/// The int of a value in a base.
fn int_of(radix: u64, value: u64) -> Option<Kind>
    ensures { result ≡ int_of radix value }
{
    if radix == 10 {
        if value < 1 << 31 {
            return Some(Kind::Int(value as i32));
        }
        return if value == 1 << 31 {
            Some(Kind::IntMin)
        } else {
            None
        };
    }
    match u32::try_from(value) {
        Ok(bits) => Some(Kind::Int(bits.cast_signed())),
        Err(_) => None,
    }
}

/// The long of a value in a base.
fn long_of(radix: u64, value: u64) -> Option<Kind>
    ensures { result ≡ long_of radix value }
{
    if radix == 10 {
        if value < 1 << 63 {
            return Some(Kind::Long(value as i64));
        }
        return if value == 1 << 63 {
            Some(Kind::LongMin)
        } else {
            None
        };
    }
    Some(Kind::Long(value.cast_signed()))
}

/// The value of a digit or a letter, and 36 of any other byte.
pub fn digit_value(b: u8) -> u8
    ensures { result ≡ digit_value b }
{
    match b {
        b'0'..=b'9' => b - b'0',
        b'A'..=b'Z' => b - b'A' + 10,
        b'a'..=b'z' => b - b'a' + 10,
        _ => 36,
    }
}

/// One more digit at the end, where the value stays below 2 ^ 64.
fn with_digit(value: u64, radix: u64, digit: u8) -> Option<u64>
    ensures { MatchOption result
        (2 ^ 64 ≤ value * radix + digit)
        (λ more. more ≡ value * radix + digit) }
{
    value.checked_mul(radix)?.checked_add(u64::from(digit))
}

/// The value of digits in a base, where it is below 2 ^ 64.
#[tactic(auto, using(crate::proofs::Digits::digits_grow, std::proofs::lemmas::Int::Digits::digits_value_more))]
fn value_of_digits(digits: &[u8], radix: u64) -> Option<u64>
    requires base { 2 ≤ radix }
    ensures { MatchOption result
        (2 ^ 64 ≤ digits_value radix digits.now)
        (λ value. value ≡ digits_value radix digits.now) }
{
    let mut value: u64 = 0;
    for digit in digits {
        match with_digit(value, radix, digit_value(*digit)) {
            Some(more) => value = more,
            None => return None,
        }
    }
    Some(value)
}
