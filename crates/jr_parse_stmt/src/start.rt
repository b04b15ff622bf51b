// Which tokens begin what in a block (JLS 14).
ghost use Rattle.std.specs.Prelude.{◌≡◌, Some};
ghost use Rattle.jr_parse_laws.specs.Parsers.{first, kinds};
ghost use Rattle.jr_parse_starts.specs.Starts.{next_is};
ghost use Rattle.jr_parse_defs.specs.Begins as spec;
ghost use Rattle.jr_parse_stmt.specs.Begun as begun;

use jr_base::{Keyword, Kind, Symbol};
use jr_parse_laws::Cursor;
use jr_parse_starts::starts_effect;

/// A word behind which a statement or an expression must stand, which has a level less.
#[derive(Clone, Copy)]
pub enum PartWord {
    Do,
    While,
    If,
    For,
    Switch,
    Throw,
}

/// How a statement begins.
#[derive(Clone, Copy)]
pub enum StmtStart {
    /// `{`
    Block,
    /// `;`
    Skip,
    Part(PartWord),
    Break,
    Continue,
    Return,
    Try,
    /// An identifier
    Name,
    /// Any other token: a declaration of variables or an expression, if a statement begins with it
    Other,
}

/// How a statement begins with the symbol.
fn symbol_start(symbol: Symbol) -> StmtStart
    ensures { result ≡ begun.symbol_start symbol }
{
    match symbol {
        Symbol::OpenBrace => StmtStart::Block,
        Symbol::Semicolon => StmtStart::Skip,
        _ => StmtStart::Other,
    }
}

/// How a statement begins with the word.
fn word_start(word: Keyword) -> StmtStart
    ensures { result ≡ begun.word_start word }
{
    match word {
        Keyword::Do => StmtStart::Part(PartWord::Do),
        Keyword::While => StmtStart::Part(PartWord::While),
        Keyword::If => StmtStart::Part(PartWord::If),
        Keyword::For => StmtStart::Part(PartWord::For),
        Keyword::Switch => StmtStart::Part(PartWord::Switch),
        Keyword::Throw => StmtStart::Part(PartWord::Throw),
        Keyword::Break => StmtStart::Break,
        Keyword::Continue => StmtStart::Continue,
        Keyword::Return => StmtStart::Return,
        Keyword::Try => StmtStart::Try,
        _ => StmtStart::Other,
    }
}

/// How a statement begins with the next token.
pub fn stmt_start(cursor: &Cursor<'_>) -> Option<StmtStart>
    ensures { result ≡ begun.start_at (kinds cursor.now) }
{
    match cursor.peek()? {
        Kind::Ident(_) => Some(StmtStart::Name),
        Kind::Sym(symbol) => Some(symbol_start(*symbol)),
        Kind::Word(word) => Some(word_start(*word)),
        _ => Some(StmtStart::Other),
    }
}

/// Whether the word begins a statement that is no expression and declares nothing.
fn is_stmt_word(word: Keyword) -> bool
    ensures { result ≡ spec.stmt_word word }
{
    matches!(
        word,
        Keyword::Do
            | Keyword::While
            | Keyword::If
            | Keyword::For
            | Keyword::Switch
            | Keyword::Break
            | Keyword::Continue
            | Keyword::Return
            | Keyword::Throw
            | Keyword::Try
    )
}

/// Whether a statement comes next that may be a part of another (JLS 14.5).
pub fn starts_stmt(cursor: &Cursor<'_>) -> bool
    ensures { result ≡ spec.starts_stmt (first (kinds cursor.now)) }
{
    match cursor.peek() {
        Some(Kind::Sym(Symbol::OpenBrace | Symbol::Semicolon)) => true,
        Some(Kind::Word(word)) => is_stmt_word(*word) || starts_effect(cursor),
        _ => starts_effect(cursor),
    }
}

/// Whether `final` or a primitive type comes next, which begins a declaration of variables (JLS 14.4).
pub fn starts_local(cursor: &Cursor<'_>) -> bool
    ensures { result ≡ next_is spec.begins_local (first (kinds cursor.now)) }
{
    matches!(
        cursor.peek(),
        Some(Kind::Word(
            Keyword::Final
                | Keyword::Boolean
                | Keyword::Byte
                | Keyword::Short
                | Keyword::Char
                | Keyword::Int
                | Keyword::Long
        ))
    )
}

/// Whether a statement comes next that stands directly in a block (JLS 14.2).
pub fn starts_block_stmt(cursor: &Cursor<'_>) -> bool
    ensures { result ≡ spec.starts_block_stmt (first (kinds cursor.now)) }
{
    starts_stmt(cursor) || starts_local(cursor)
}

/// Whether a label of a switch comes next (JLS 14.11).
pub fn starts_label(cursor: &Cursor<'_>) -> bool
    ensures { result ≡ spec.starts_label (first (kinds cursor.now)) }
{
    matches!(
        cursor.peek(),
        Some(Kind::Word(Keyword::Case | Keyword::Default))
    )
}

/// Whether a handler comes next (JLS 14.20).
pub fn starts_catch(cursor: &Cursor<'_>) -> bool
    ensures { result ≡ next_is spec.is_catch (first (kinds cursor.now)) }
{
    matches!(cursor.peek(), Some(Kind::Word(Keyword::Catch)))
}
