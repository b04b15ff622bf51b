// How an operand begins (JLS 15.8, 15.15).
ghost use Rattle.std.specs.Prelude.{◌≡◌};
ghost use Rattle.jr_parse_laws.specs.Parsers.{kinds};
ghost use Rattle.jr_parse_expr.specs.Begun as begun;

use jr_base::{Keyword, Kind, Symbol};
use jr_parse_laws::Cursor;

/// How an operand begins of which nothing was read.
#[derive(Clone, Copy)]
pub enum OperandStart {
    /// An identifier
    Name,
    /// `this`
    This,
    /// `super`
    Super,
    /// `new`
    New,
    /// `(`
    Parenthesis,
    /// `-`
    Minus,
    /// Another symbol: a sign or a step, if an operand begins with it
    Sign(Symbol),
    /// Any other token: a literal, if an operand begins with it
    Literal,
}

/// How an operand begins with the symbol.
fn symbol_start(symbol: Symbol) -> OperandStart
    ensures { result ≡ begun.symbol_start symbol }
{
    match symbol {
        Symbol::OpenParen => OperandStart::Parenthesis,
        Symbol::Minus => OperandStart::Minus,
        symbol => OperandStart::Sign(symbol),
    }
}

/// How an operand begins with the word.
fn word_start(word: Keyword) -> OperandStart
    ensures { result ≡ begun.word_start word }
{
    match word {
        Keyword::This => OperandStart::This,
        Keyword::Super => OperandStart::Super,
        Keyword::New => OperandStart::New,
        _ => OperandStart::Literal,
    }
}

/// How an operand begins with the next token.
pub fn operand_start(cursor: &Cursor<'_>) -> Option<OperandStart>
    ensures { result ≡ begun.start_at (kinds cursor.now) }
{
    match cursor.peek()? {
        Kind::Ident(_) => Some(OperandStart::Name),
        Kind::Sym(symbol) => Some(symbol_start(*symbol)),
        Kind::Word(word) => Some(word_start(*word)),
        _ => Some(OperandStart::Literal),
    }
}
