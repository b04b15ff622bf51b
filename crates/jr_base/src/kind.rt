// The kinds of tokens (JLS 3.9, 3.10, 3.11, 3.12).
ghost use Rattle.std.specs.Prelude.{◌≡◌, ◌≢◌, MatchOption, IfOk};
ghost use Rattle.jr_base.specs.Spellings.{keyword_text, symbol_text};
ghost use Rattle.jr_base.specs.declared.kind.Keyword.{Keyword};
ghost use Rattle.jr_base.specs.declared.kind.Symbol.{Symbol};

use crate::{OutOfMemory, Text, Units};
use std::alloc::Global;

/// A keyword, or one of the words `true`, `false` and `null` (JLS 3.9, 3.10.3, 3.10.7).
#[derive(Clone, Copy, Debug, PartialEq, Eq)]
pub enum Keyword {
    Abstract,
    Assert,
    Boolean,
    Break,
    Byte,
    Case,
    Catch,
    Char,
    Class,
    Const,
    Continue,
    Default,
    Do,
    Double,
    Else,
    Enum,
    Extends,
    Final,
    Finally,
    Float,
    For,
    Goto,
    If,
    Implements,
    Import,
    Instanceof,
    Int,
    Interface,
    Long,
    Native,
    New,
    Package,
    Private,
    Protected,
    Public,
    Return,
    Short,
    Static,
    Strictfp,
    Super,
    Switch,
    Synchronized,
    This,
    Throw,
    Throws,
    Transient,
    Try,
    Void,
    Volatile,
    While,
    True,
    False,
    Null,
}

/// A separator or an operator (JLS 3.11, 3.12).
#[derive(Clone, Copy, Debug, PartialEq, Eq)]
pub enum Symbol {
    OpenParen,
    CloseParen,
    OpenBrace,
    CloseBrace,
    OpenBracket,
    CloseBracket,
    Semicolon,
    Comma,
    Dot,
    Assign,
    Greater,
    Less,
    Not,
    Tilde,
    Question,
    Colon,
    Equal,
    NotEqual,
    LessEqual,
    GreaterEqual,
    AndAnd,
    OrOr,
    PlusPlus,
    MinusMinus,
    Plus,
    Minus,
    Star,
    Slash,
    And,
    Or,
    Caret,
    Percent,
    ShiftLeft,
    ShiftRight,
    ShiftRightUnsigned,
    PlusAssign,
    MinusAssign,
    StarAssign,
    SlashAssign,
    AndAssign,
    OrAssign,
    CaretAssign,
    PercentAssign,
    ShiftLeftAssign,
    ShiftRightAssign,
    ShiftRightUnsignedAssign,
}

/// What a token is, with the value of a literal (JLS 3.5, 3.8 to 3.12).
#[derive(Debug, Drop)]
pub enum Kind {
    /// A keyword, or one of the words `true`, `false` and `null`.
    Word(Keyword),
    /// An identifier, in UTF-8.
    Ident(Text),
    /// A literal of type `int`. A hexadecimal or octal one may be below 0 (JLS 3.10.1).
    Int(i32),
    /// `2147483648`, which stands only under a minus (JLS 3.10.1).
    IntMin,
    /// A literal of type `long`. A hexadecimal or octal one may be below 0 (JLS 3.10.1).
    Long(i64),
    /// `9223372036854775808L`, which stands only under a minus (JLS 3.10.1).
    LongMin,
    /// A character literal, as one 16-bit unit (JLS 3.10.4).
    Char(u16),
    /// A string literal, without its quotes and with its escapes read (JLS 3.10.5, 3.10.6).
    Str(Units),
    /// A separator or an operator.
    Sym(Symbol),
}

impl Kind {
    /// An equal kind of its own.
    pub fn copy(&self, alloc: Global) -> Result<Kind, OutOfMemory>
        ensures { IfOk result (λ copy. copy ≡ self.now) }
    {
        match self {
            Kind::Word(word) => Ok(Kind::Word(*word)),
            Kind::Ident(name) => Ok(Kind::Ident(name.copy(alloc)?)),
            Kind::Int(value) => Ok(Kind::Int(*value)),
            Kind::IntMin => Ok(Kind::IntMin),
            Kind::Long(value) => Ok(Kind::Long(*value)),
            Kind::LongMin => Ok(Kind::LongMin),
            Kind::Char(unit) => Ok(Kind::Char(*unit)),
            Kind::Str(units) => Ok(Kind::Str(units.copy(alloc)?)),
            Kind::Sym(symbol) => Ok(Kind::Sym(*symbol)),
        }
    }
}

impl Keyword {
    /// The spelling of the word.
    pub fn text(self) -> &'static str
        ensures { result.now ≡ keyword_text self }
    {
        match self {
            Keyword::Abstract => "abstract",
            Keyword::Assert => "assert",
            Keyword::Boolean => "boolean",
            Keyword::Break => "break",
            Keyword::Byte => "byte",
            Keyword::Case => "case",
            Keyword::Catch => "catch",
            Keyword::Char => "char",
            Keyword::Class => "class",
            Keyword::Const => "const",
            Keyword::Continue => "continue",
            Keyword::Default => "default",
            Keyword::Do => "do",
            Keyword::Double => "double",
            Keyword::Else => "else",
            Keyword::Enum => "enum",
            Keyword::Extends => "extends",
            Keyword::Final => "final",
            Keyword::Finally => "finally",
            Keyword::Float => "float",
            Keyword::For => "for",
            Keyword::Goto => "goto",
            Keyword::If => "if",
            Keyword::Implements => "implements",
            Keyword::Import => "import",
            Keyword::Instanceof => "instanceof",
            Keyword::Int => "int",
            Keyword::Interface => "interface",
            Keyword::Long => "long",
            Keyword::Native => "native",
            Keyword::New => "new",
            Keyword::Package => "package",
            Keyword::Private => "private",
            Keyword::Protected => "protected",
            Keyword::Public => "public",
            Keyword::Return => "return",
            Keyword::Short => "short",
            Keyword::Static => "static",
            Keyword::Strictfp => "strictfp",
            Keyword::Super => "super",
            Keyword::Switch => "switch",
            Keyword::Synchronized => "synchronized",
            Keyword::This => "this",
            Keyword::Throw => "throw",
            Keyword::Throws => "throws",
            Keyword::Transient => "transient",
            Keyword::Try => "try",
            Keyword::Void => "void",
            Keyword::Volatile => "volatile",
            Keyword::While => "while",
            Keyword::True => "true",
            Keyword::False => "false",
            Keyword::Null => "null",
        }
    }
}

impl Symbol {
    /// The spelling of the symbol.
    pub fn text(self) -> &'static str
        ensures { result.now ≡ symbol_text self }
    {
        match self {
            Symbol::OpenParen => "(",
            Symbol::CloseParen => ")",
            Symbol::OpenBrace => "{",
            Symbol::CloseBrace => "}",
            Symbol::OpenBracket => "[",
            Symbol::CloseBracket => "]",
            Symbol::Semicolon => ";",
            Symbol::Comma => ",",
            Symbol::Dot => ".",
            Symbol::Assign => "=",
            Symbol::Greater => ">",
            Symbol::Less => "<",
            Symbol::Not => "!",
            Symbol::Tilde => "~",
            Symbol::Question => "?",
            Symbol::Colon => ":",
            Symbol::Equal => "==",
            Symbol::NotEqual => "!=",
            Symbol::LessEqual => "<=",
            Symbol::GreaterEqual => ">=",
            Symbol::AndAnd => "&&",
            Symbol::OrOr => "||",
            Symbol::PlusPlus => "++",
            Symbol::MinusMinus => "--",
            Symbol::Plus => "+",
            Symbol::Minus => "-",
            Symbol::Star => "*",
            Symbol::Slash => "/",
            Symbol::And => "&",
            Symbol::Or => "|",
            Symbol::Caret => "^",
            Symbol::Percent => "%",
            Symbol::ShiftLeft => "<<",
            Symbol::ShiftRight => ">>",
            Symbol::ShiftRightUnsigned => ">>>",
            Symbol::PlusAssign => "+=",
            Symbol::MinusAssign => "-=",
            Symbol::StarAssign => "*=",
            Symbol::SlashAssign => "/=",
            Symbol::AndAssign => "&=",
            Symbol::OrAssign => "|=",
            Symbol::CaretAssign => "^=",
            Symbol::PercentAssign => "%=",
            Symbol::ShiftLeftAssign => "<<=",
            Symbol::ShiftRightAssign => ">>=",
            Symbol::ShiftRightUnsignedAssign => ">>>=",
        }
    }
}

/// The keyword that is spelled so, and None where none is.
pub fn keyword_of(word: &str) -> Option<Keyword>
    ensures { MatchOption result
        ((k : Keyword) → keyword_text k ≢ word.now)
        (λ k. keyword_text k ≡ word.now) }
{
    match word.as_bytes() {
        [b'a', ..] => match word {
            "abstract" => Some(Keyword::Abstract),
            "assert" => Some(Keyword::Assert),
            _ => None,
        },
        [b'b', ..] => match word {
            "boolean" => Some(Keyword::Boolean),
            "break" => Some(Keyword::Break),
            "byte" => Some(Keyword::Byte),
            _ => None,
        },
        [b'c', ..] => match word {
            "case" => Some(Keyword::Case),
            "catch" => Some(Keyword::Catch),
            "char" => Some(Keyword::Char),
            "class" => Some(Keyword::Class),
            "const" => Some(Keyword::Const),
            "continue" => Some(Keyword::Continue),
            _ => None,
        },
        [b'd', ..] => match word {
            "default" => Some(Keyword::Default),
            "do" => Some(Keyword::Do),
            "double" => Some(Keyword::Double),
            _ => None,
        },
        [b'e', ..] => match word {
            "else" => Some(Keyword::Else),
            "enum" => Some(Keyword::Enum),
            "extends" => Some(Keyword::Extends),
            _ => None,
        },
        [b'f', ..] => match word {
            "false" => Some(Keyword::False),
            "final" => Some(Keyword::Final),
            "finally" => Some(Keyword::Finally),
            "float" => Some(Keyword::Float),
            "for" => Some(Keyword::For),
            _ => None,
        },
        [b'g', ..] => match word {
            "goto" => Some(Keyword::Goto),
            _ => None,
        },
        [b'i', ..] => match word {
            "if" => Some(Keyword::If),
            "implements" => Some(Keyword::Implements),
            "import" => Some(Keyword::Import),
            "instanceof" => Some(Keyword::Instanceof),
            "int" => Some(Keyword::Int),
            "interface" => Some(Keyword::Interface),
            _ => None,
        },
        [b'l', ..] => match word {
            "long" => Some(Keyword::Long),
            _ => None,
        },
        [b'n', ..] => match word {
            "native" => Some(Keyword::Native),
            "new" => Some(Keyword::New),
            "null" => Some(Keyword::Null),
            _ => None,
        },
        [b'p', ..] => match word {
            "package" => Some(Keyword::Package),
            "private" => Some(Keyword::Private),
            "protected" => Some(Keyword::Protected),
            "public" => Some(Keyword::Public),
            _ => None,
        },
        [b'r', ..] => match word {
            "return" => Some(Keyword::Return),
            _ => None,
        },
        [b's', ..] => match word {
            "short" => Some(Keyword::Short),
            "static" => Some(Keyword::Static),
            "strictfp" => Some(Keyword::Strictfp),
            "super" => Some(Keyword::Super),
            "switch" => Some(Keyword::Switch),
            "synchronized" => Some(Keyword::Synchronized),
            _ => None,
        },
        [b't', ..] => match word {
            "this" => Some(Keyword::This),
            "throw" => Some(Keyword::Throw),
            "throws" => Some(Keyword::Throws),
            "transient" => Some(Keyword::Transient),
            "true" => Some(Keyword::True),
            "try" => Some(Keyword::Try),
            _ => None,
        },
        [b'v', ..] => match word {
            "void" => Some(Keyword::Void),
            "volatile" => Some(Keyword::Volatile),
            _ => None,
        },
        [b'w', ..] => match word {
            "while" => Some(Keyword::While),
            _ => None,
        },
        _ => None,
    }
}

/// The symbol that is spelled so, and None where none is.
pub fn symbol_of(text: &[u8]) -> Option<Symbol>
    ensures { MatchOption result
        ((s : Symbol) → symbol_text s ≢ text.now)
        (λ s. symbol_text s ≡ text.now) }
{
    match text {
        b"(" => Some(Symbol::OpenParen),
        b")" => Some(Symbol::CloseParen),
        b"{" => Some(Symbol::OpenBrace),
        b"}" => Some(Symbol::CloseBrace),
        b"[" => Some(Symbol::OpenBracket),
        b"]" => Some(Symbol::CloseBracket),
        b";" => Some(Symbol::Semicolon),
        b"," => Some(Symbol::Comma),
        b"." => Some(Symbol::Dot),
        [b'=', ..] => match text {
            b"=" => Some(Symbol::Assign),
            b"==" => Some(Symbol::Equal),
            _ => None,
        },
        [b'>', ..] => match text {
            b">" => Some(Symbol::Greater),
            b">=" => Some(Symbol::GreaterEqual),
            b">>" => Some(Symbol::ShiftRight),
            b">>>" => Some(Symbol::ShiftRightUnsigned),
            b">>=" => Some(Symbol::ShiftRightAssign),
            b">>>=" => Some(Symbol::ShiftRightUnsignedAssign),
            _ => None,
        },
        [b'<', ..] => match text {
            b"<" => Some(Symbol::Less),
            b"<=" => Some(Symbol::LessEqual),
            b"<<" => Some(Symbol::ShiftLeft),
            b"<<=" => Some(Symbol::ShiftLeftAssign),
            _ => None,
        },
        [b'!', ..] => match text {
            b"!" => Some(Symbol::Not),
            b"!=" => Some(Symbol::NotEqual),
            _ => None,
        },
        b"~" => Some(Symbol::Tilde),
        b"?" => Some(Symbol::Question),
        b":" => Some(Symbol::Colon),
        [b'&', ..] => match text {
            b"&&" => Some(Symbol::AndAnd),
            b"&" => Some(Symbol::And),
            b"&=" => Some(Symbol::AndAssign),
            _ => None,
        },
        [b'|', ..] => match text {
            b"||" => Some(Symbol::OrOr),
            b"|" => Some(Symbol::Or),
            b"|=" => Some(Symbol::OrAssign),
            _ => None,
        },
        [b'+', ..] => match text {
            b"++" => Some(Symbol::PlusPlus),
            b"+" => Some(Symbol::Plus),
            b"+=" => Some(Symbol::PlusAssign),
            _ => None,
        },
        [b'-', ..] => match text {
            b"--" => Some(Symbol::MinusMinus),
            b"-" => Some(Symbol::Minus),
            b"-=" => Some(Symbol::MinusAssign),
            _ => None,
        },
        [b'*', ..] => match text {
            b"*" => Some(Symbol::Star),
            b"*=" => Some(Symbol::StarAssign),
            _ => None,
        },
        [b'/', ..] => match text {
            b"/" => Some(Symbol::Slash),
            b"/=" => Some(Symbol::SlashAssign),
            _ => None,
        },
        [b'^', ..] => match text {
            b"^" => Some(Symbol::Caret),
            b"^=" => Some(Symbol::CaretAssign),
            _ => None,
        },
        [b'%', ..] => match text {
            b"%" => Some(Symbol::Percent),
            b"%=" => Some(Symbol::PercentAssign),
            _ => None,
        },
        _ => None,
    }
}
