// Which tokens begin what (JLS 15).
ghost use Rattle.std.specs.Prelude.{◌≡◌};
ghost use Rattle.jr_tree.specs.Levels as level;
ghost use Rattle.jr_parse_laws.specs.Parsers.{kinds, first};
ghost use Rattle.jr_parse_starts.specs.Starts as spec;

use jr_base::{Keyword, Kind, Symbol};
use jr_parse_laws::Cursor;

/// Whether the symbol is one of `+ - ~ !` (JLS 15.15).
pub fn is_unary(symbol: Symbol) -> bool
    ensures { result ≡ level.is_unary symbol }
{
    matches!(
        symbol,
        Symbol::Plus | Symbol::Minus | Symbol::Tilde | Symbol::Not
    )
}

/// Whether the symbol is `++` or `--` (JLS 15.14, 15.15).
pub fn is_step(symbol: Symbol) -> bool
    ensures { result ≡ level.is_step symbol }
{
    matches!(symbol, Symbol::PlusPlus | Symbol::MinusMinus)
}

/// Whether the token is a number that stands only directly under a minus (JLS 3.10.1).
pub fn is_least_kind(kind: &Kind) -> bool
    ensures { result ≡ level.is_least_kind kind.now }
{
    matches!(kind, Kind::IntMin | Kind::LongMin)
}

/// Whether the token is a literal that stands anywhere (JLS 15.8.1).
pub fn is_plain_literal(kind: &Kind) -> bool
    ensures { result ≡ spec.is_plain_literal kind.now }
{
    matches!(
        kind,
        Kind::Word(Keyword::True | Keyword::False | Keyword::Null)
            | Kind::Int(_)
            | Kind::Long(_)
            | Kind::Char(_)
            | Kind::Str(_)
    )
}

/// Whether the token begins an operand of a cast to a name: no sign and no step (JLS 15.16).
pub fn begins_cast_operand(kind: &Kind) -> bool
    ensures { result ≡ spec.begins_cast_operand kind.now }
{
    match kind {
        Kind::Ident(_) => true,
        Kind::Sym(symbol) => matches!(symbol, Symbol::OpenParen | Symbol::Not | Symbol::Tilde),
        Kind::Word(Keyword::This | Keyword::Super | Keyword::New) => true,
        _ => is_plain_literal(kind),
    }
}

/// Whether the token begins an expression.
pub fn begins_operand(kind: &Kind) -> bool
    ensures { result ≡ spec.begins_operand kind.now }
{
    match kind {
        Kind::Sym(symbol) => {
            *symbol == Symbol::OpenParen || is_unary(*symbol) || is_step(*symbol)
        }
        _ => begins_cast_operand(kind),
    }
}

/// Whether the token begins an expression that stands as a statement (JLS 14.8).
pub fn begins_effect(kind: &Kind) -> bool
    ensures { result ≡ spec.begins_effect kind.now }
{
    match kind {
        Kind::Sym(symbol) => *symbol == Symbol::OpenParen || is_step(*symbol),
        _ => begins_cast_operand(kind),
    }
}

/// Whether an operand of a cast to a name comes next.
pub fn starts_cast_operand(cursor: &Cursor<'_>) -> bool
    ensures { result ≡ spec.next_is spec.begins_cast_operand (first (kinds cursor.now)) }
{
    match cursor.peek() {
        Some(kind) => begins_cast_operand(kind),
        None => false,
    }
}

/// Whether a literal comes next that stands anywhere.
pub fn starts_plain_literal(cursor: &Cursor<'_>) -> bool
    ensures { result ≡ spec.next_is spec.is_plain_literal (first (kinds cursor.now)) }
{
    match cursor.peek() {
        Some(kind) => is_plain_literal(kind),
        None => false,
    }
}

/// Whether an expression comes next.
pub fn starts_expr(cursor: &Cursor<'_>) -> bool
    ensures { result ≡ spec.starts_expr (first (kinds cursor.now)) }
{
    match cursor.peek() {
        Some(kind) => begins_operand(kind),
        None => false,
    }
}

/// Whether an expression that stands as a statement comes next.
pub fn starts_effect(cursor: &Cursor<'_>) -> bool
    ensures { result ≡ spec.starts_effect (first (kinds cursor.now)) }
{
    match cursor.peek() {
        Some(kind) => begins_effect(kind),
        None => false,
    }
}

/// Whether a list in braces comes next.
pub fn starts_list(cursor: &Cursor<'_>) -> bool
    ensures { result ≡ spec.starts_list (first (kinds cursor.now)) }
{
    matches!(cursor.peek(), Some(Kind::Sym(Symbol::OpenBrace)))
}

/// Whether an initializer comes next.
pub fn starts_init(cursor: &Cursor<'_>) -> bool
    ensures { result ≡ spec.starts_init (first (kinds cursor.now)) }
{
    match cursor.peek() {
        Some(Kind::Sym(Symbol::OpenBrace)) => true,
        Some(kind) => begins_operand(kind),
        None => false,
    }
}
