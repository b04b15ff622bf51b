// What is written behind a backslash (JLS 3.3).
ghost use Rattle.std.specs.Prelude.{◌≡◌, ◌<◌, ◌≤◌, ◌^◌, take, length, slice_index};
ghost use Rattle.std.specs.Char.{digit_value, is_digit};
ghost use Rattle.std.specs.List.{list_all};
ghost use Rattle.std.specs.Str.Parse.{digits_value};
ghost use Rattle.jr_base.specs.Literals.{mark_count};
ghost use Rattle.jr_escapes.specs.Escapes.{unit_of, is_delimiter, is_bad_escape};

/// Whether the text behind a backslash is one `u` or more, and then no four hexadecimal digits, or those of an end of a line, `*`, `/` or a backslash.
pub fn is_bad_escape(text: &[u8]) -> bool
    ensures { result ≡ is_bad_escape text.now }
{
    if text.is_empty() || text[0] != b'u' {
        return false;
    }
    match unit_of(front(&text[mark_count(text)..])) {
        Some(unit) => is_delimiter(unit),
        None => true,
    }
}

// How many `u` the text begins with.
fn mark_count(text: &[u8]) -> usize
    ensures count { result ≡ mark_count text.now }
    ensures inside { result ≤ length text.now }
{
    text.iter().take_while(|c| **c == b'u').count()
}

// The first four bytes, or all where there are fewer.
fn front(text: &[u8]) -> &[u8]
    ensures { result.now ≡ take 4 text.now }
{
    if text.len() < 4 { text } else { &text[..4] }
}

// The unit of four hexadecimal digits.
fn unit_of(digits: &[u8]) -> Option<u32>
    ensures { result ≡ unit_of digits.now }
{
    if digits.len() != 4 || !are_digits(digits) {
        return None;
    }
    Some(value_of(digits))
}

fn are_digits(digits: &[u8]) -> bool
    ensures { result ≡ list_all (λ c. is_digit c 16) digits.now }
{
    digits.iter().all(|c| is_digit(*c))
}

fn is_digit(c: u8) -> bool
    ensures { result ≡ is_digit c 16 }
{
    digit_value(c) < 16
}

// The value of a digit or a letter, and 36 of any other byte.
fn digit_value(c: u8) -> u8
    ensures { result ≡ digit_value c }
{
    match c {
        b'0'..=b'9' => c - b'0',
        b'A'..=b'Z' => c - b'A' + 10,
        b'a'..=b'z' => c - b'a' + 10,
        _ => 36,
    }
}

// The value of hexadecimal digits, which is a unit.
#[tactic(auto, using(std::proofs::lemmas::Int::Digits::digits_value_more))]
fn value_of(digits: &[u8]) -> u32
    requires { digits_value 16 digits.now < 2 ^ 16 }
    ensures { result ≡ digits_value 16 digits.now }
{
    let mut value: u32 = 0;
    for digit in digits {
        value = value * 16 + u32::from(digit_value(*digit));
    }
    value
}

// Whether the unit is an end of a line, `*`, `/` or a backslash.
fn is_delimiter(unit: u32) -> bool
    ensures { result ≡ is_delimiter unit }
{
    unit == 10 || unit == 13 || unit == 42 || unit == 47 || unit == 92
}
