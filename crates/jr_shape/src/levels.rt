// Which symbols are operators, how tightly they bind, and which tokens are literals.
ghost use Rattle.std.specs.Prelude.{◌≡◌, ◌≤◌};
ghost use Rattle.jr_tree.specs.Levels as t;

use jr_base::{Keyword, Kind, Symbol};

/// From loose, which is 2, to tight, which is 11; 0 where the symbol is no binary operator.
pub fn binary_level(op: Symbol) -> u8
    ensures value { result ≡ t.binary_level op }
    ensures bound { result ≤ 11 }
{
    match op {
        Symbol::OrOr => 2,
        Symbol::AndAnd => 3,
        Symbol::Or => 4,
        Symbol::Caret => 5,
        Symbol::And => 6,
        Symbol::Equal | Symbol::NotEqual => 7,
        Symbol::Less | Symbol::Greater | Symbol::LessEqual | Symbol::GreaterEqual => 8,
        Symbol::ShiftLeft | Symbol::ShiftRight | Symbol::ShiftRightUnsigned => 9,
        Symbol::Plus | Symbol::Minus => 10,
        Symbol::Star | Symbol::Slash | Symbol::Percent => 11,
        _ => 0,
    }
}

pub fn is_assignment(op: Symbol) -> bool
    ensures { result ≡ t.is_assignment op }
{
    match op {
        Symbol::Assign
        | Symbol::PlusAssign
        | Symbol::MinusAssign
        | Symbol::StarAssign
        | Symbol::SlashAssign
        | Symbol::AndAssign
        | Symbol::OrAssign
        | Symbol::CaretAssign
        | Symbol::PercentAssign
        | Symbol::ShiftLeftAssign
        | Symbol::ShiftRightAssign
        | Symbol::ShiftRightUnsignedAssign => true,
        _ => false,
    }
}

pub fn is_unary(op: Symbol) -> bool
    ensures { result ≡ t.is_unary op }
{
    match op {
        Symbol::Plus | Symbol::Minus | Symbol::Tilde | Symbol::Not => true,
        _ => false,
    }
}

pub fn is_sign(op: Symbol) -> bool
    ensures { result ≡ t.is_sign op }
{
    match op {
        Symbol::Plus | Symbol::Minus => true,
        _ => false,
    }
}

pub fn is_minus(op: Symbol) -> bool
    ensures { result ≡ t.is_minus op }
{
    match op {
        Symbol::Minus => true,
        _ => false,
    }
}

pub fn is_step(op: Symbol) -> bool
    ensures { result ≡ t.is_step op }
{
    match op {
        Symbol::PlusPlus | Symbol::MinusMinus => true,
        _ => false,
    }
}

fn is_literal_word(word: Keyword) -> bool
    ensures { result ≡ t.is_literal_word word }
{
    match word {
        Keyword::True | Keyword::False | Keyword::Null => true,
        _ => false,
    }
}

pub fn is_literal(kind: &Kind) -> bool
    ensures { result ≡ t.is_literal kind.now }
{
    match kind {
        Kind::Word(word) => is_literal_word(*word),
        Kind::Ident(_) | Kind::Sym(_) => false,
        _ => true,
    }
}

/// Whether the token is a number that stands only directly under a minus (JLS 3.10.1).
pub fn is_least_kind(kind: &Kind) -> bool
    ensures { result ≡ t.is_least_kind kind.now }
{
    match kind {
        Kind::IntMin | Kind::LongMin => true,
        _ => false,
    }
}
