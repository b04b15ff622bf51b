// Keywords (JLS 3.9), told by their length and first letters.
ghost use Rattle.std.specs.Prelude.{◌≡◌, ◌≢◌, MatchOption, Some};
ghost use Rattle.jr_base.specs.Spellings.{keyword_text};
ghost use Rattle.jr_base.specs.declared.kind.Keyword.{Keyword};
ghost use Rattle.jr_lex.specs.Candidates.{of_two, of_three, of_four, of_five, of_six, of_seven, of_eight, of_nine, of_ten, of_twelve, candidate};

use jr_base::Keyword;

/// The keyword that is spelled so, and None where none is.
pub fn keyword_in(word: &str) -> Option<Keyword>
    ensures { MatchOption result
        ((k : Keyword) → keyword_text k ≢ word.now)
        (λ k. keyword_text k ≡ word.now) }
{
    match candidate(word.as_bytes()) {
        Some(keyword) => {
            if keyword.text() == word {
                Some(keyword)
            } else {
                None
            }
        }
        None => None,
    }
}

/// The one keyword that may be spelled so.
fn candidate(word: &[u8]) -> Option<Keyword>
    ensures { (k : Keyword) → keyword_text k ≡ word.now → result ≡ Some k }
{
    if word.len() < 2 {
        return None;
    }
    by_length(word.len(), word[0], word[1])
}

/// The one keyword of that length that may begin with these two letters.
fn by_length(len: usize, first: u8, second: u8) -> Option<Keyword>
    ensures { result ≡ candidate len first second }
{
    match len {
        2 => of_two(first),
        3 => of_three(first),
        4 => of_four(first, second),
        5 => of_five(first, second),
        6 => of_six(first, second),
        7 => of_seven(first, second),
        8 => of_eight(first),
        9 => of_nine(first),
        10 => of_ten(second),
        12 => of_twelve(first),
        _ => None,
    }
}

fn of_two(first: u8) -> Option<Keyword>
    ensures { result ≡ of_two first }
{
    match first {
        b'd' => Some(Keyword::Do),
        b'i' => Some(Keyword::If),
        _ => None,
    }
}

fn of_three(first: u8) -> Option<Keyword>
    ensures { result ≡ of_three first }
{
    match first {
        b'f' => Some(Keyword::For),
        b'i' => Some(Keyword::Int),
        b'n' => Some(Keyword::New),
        b't' => Some(Keyword::Try),
        _ => None,
    }
}

fn of_four(first: u8, second: u8) -> Option<Keyword>
    ensures { result ≡ of_four first second }
{
    match first {
        b'b' => Some(Keyword::Byte),
        b'c' => match second {
            b'a' => Some(Keyword::Case),
            b'h' => Some(Keyword::Char),
            _ => None,
        },
        b'e' => match second {
            b'l' => Some(Keyword::Else),
            b'n' => Some(Keyword::Enum),
            _ => None,
        },
        b'g' => Some(Keyword::Goto),
        b'l' => Some(Keyword::Long),
        b'n' => Some(Keyword::Null),
        b't' => match second {
            b'h' => Some(Keyword::This),
            b'r' => Some(Keyword::True),
            _ => None,
        },
        b'v' => Some(Keyword::Void),
        _ => None,
    }
}

fn of_five(first: u8, second: u8) -> Option<Keyword>
    ensures { result ≡ of_five first second }
{
    match first {
        b'b' => Some(Keyword::Break),
        b'c' => match second {
            b'a' => Some(Keyword::Catch),
            b'l' => Some(Keyword::Class),
            b'o' => Some(Keyword::Const),
            _ => None,
        },
        b'f' => match second {
            b'a' => Some(Keyword::False),
            b'i' => Some(Keyword::Final),
            b'l' => Some(Keyword::Float),
            _ => None,
        },
        b's' => match second {
            b'h' => Some(Keyword::Short),
            b'u' => Some(Keyword::Super),
            _ => None,
        },
        b't' => Some(Keyword::Throw),
        b'w' => Some(Keyword::While),
        _ => None,
    }
}

fn of_six(first: u8, second: u8) -> Option<Keyword>
    ensures { result ≡ of_six first second }
{
    match first {
        b'a' => Some(Keyword::Assert),
        b'd' => Some(Keyword::Double),
        b'i' => Some(Keyword::Import),
        b'n' => Some(Keyword::Native),
        b'p' => Some(Keyword::Public),
        b'r' => Some(Keyword::Return),
        b's' => match second {
            b't' => Some(Keyword::Static),
            b'w' => Some(Keyword::Switch),
            _ => None,
        },
        b't' => Some(Keyword::Throws),
        _ => None,
    }
}

fn of_seven(first: u8, second: u8) -> Option<Keyword>
    ensures { result ≡ of_seven first second }
{
    match first {
        b'b' => Some(Keyword::Boolean),
        b'd' => Some(Keyword::Default),
        b'e' => Some(Keyword::Extends),
        b'f' => Some(Keyword::Finally),
        b'p' => match second {
            b'a' => Some(Keyword::Package),
            b'r' => Some(Keyword::Private),
            _ => None,
        },
        _ => None,
    }
}

fn of_eight(first: u8) -> Option<Keyword>
    ensures { result ≡ of_eight first }
{
    match first {
        b'a' => Some(Keyword::Abstract),
        b'c' => Some(Keyword::Continue),
        b's' => Some(Keyword::Strictfp),
        b'v' => Some(Keyword::Volatile),
        _ => None,
    }
}

fn of_nine(first: u8) -> Option<Keyword>
    ensures { result ≡ of_nine first }
{
    match first {
        b'i' => Some(Keyword::Interface),
        b'p' => Some(Keyword::Protected),
        b't' => Some(Keyword::Transient),
        _ => None,
    }
}

fn of_ten(second: u8) -> Option<Keyword>
    ensures { result ≡ of_ten second }
{
    match second {
        b'm' => Some(Keyword::Implements),
        b'n' => Some(Keyword::Instanceof),
        _ => None,
    }
}

fn of_twelve(first: u8) -> Option<Keyword>
    ensures { result ≡ of_twelve first }
{
    match first {
        b's' => Some(Keyword::Synchronized),
        _ => None,
    }
}
