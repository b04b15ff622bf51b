// Equality of tokens.
ghost use Rattle.std.specs.Prelude.{◌≡◌, ◌↔◌, IsTrue};
ghost use Rattle.jr_base.specs.declared.kind.Kind.TheVariants as is;

use jr_base::{Keyword, Kind, Symbol, Text, Units};

fn same_keyword(one: Keyword, other: Keyword) -> bool
    ensures { IsTrue result ↔ (one ≡ other) }
{
    one == other
}

fn is_word(kind: &Kind, word: Keyword) -> bool
    ensures { IsTrue result ↔ (kind.now ≡ is.Word word) }
{
    match kind {
        Kind::Word(again) => same_keyword(*again, word),
        _ => false,
    }
}

fn is_ident(kind: &Kind, name: &Text) -> bool
    ensures { IsTrue result ↔ (kind.now ≡ is.Ident name.now) }
{
    match kind {
        Kind::Ident(again) => again.bytes() == name.bytes(),
        _ => false,
    }
}

fn is_text(kind: &Kind, text: &Units) -> bool
    ensures { IsTrue result ↔ (kind.now ≡ is.Str text.now) }
{
    match kind {
        Kind::Str(again) => again.units() == text.units(),
        _ => false,
    }
}

fn is_symbol(kind: &Kind, symbol: Symbol) -> bool
    ensures { IsTrue result ↔ (kind.now ≡ is.Sym symbol) }
{
    match kind {
        Kind::Sym(again) => *again == symbol,
        _ => false,
    }
}

fn is_int(kind: &Kind, value: i32) -> bool
    ensures { IsTrue result ↔ (kind.now ≡ is.Int value) }
{
    match kind {
        Kind::Int(again) => *again == value,
        _ => false,
    }
}

fn is_long(kind: &Kind, value: i64) -> bool
    ensures { IsTrue result ↔ (kind.now ≡ is.Long value) }
{
    match kind {
        Kind::Long(again) => *again == value,
        _ => false,
    }
}

fn is_char(kind: &Kind, unit: u16) -> bool
    ensures { IsTrue result ↔ (kind.now ≡ is.Char unit) }
{
    match kind {
        Kind::Char(again) => *again == unit,
        _ => false,
    }
}

fn is_least_int(kind: &Kind) -> bool
    ensures { IsTrue result ↔ (kind.now ≡ is.IntMin) }
{
    match kind {
        Kind::IntMin => true,
        _ => false,
    }
}

fn is_least_long(kind: &Kind) -> bool
    ensures { IsTrue result ↔ (kind.now ≡ is.LongMin) }
{
    match kind {
        Kind::LongMin => true,
        _ => false,
    }
}

/// Equality of tokens.
pub fn same_kind(one: &Kind, other: &Kind) -> bool
    ensures { IsTrue result ↔ (one.now ≡ other.now) }
{
    match one {
        Kind::Word(word) => is_word(other, *word),
        Kind::Ident(name) => is_ident(other, name),
        Kind::Int(value) => is_int(other, *value),
        Kind::IntMin => is_least_int(other),
        Kind::Long(value) => is_long(other, *value),
        Kind::LongMin => is_least_long(other),
        Kind::Char(unit) => is_char(other, *unit),
        Kind::Str(text) => is_text(other, text),
        Kind::Sym(symbol) => is_symbol(other, *symbol),
    }
}
