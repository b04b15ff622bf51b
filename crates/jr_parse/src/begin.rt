// Which tokens begin modifiers, members, declarations and parameters (JLS 7, 8, 9).
ghost use Rattle.std.specs.Prelude.{◌≡◌};
ghost use Rattle.jr_parse_laws.specs.Parsers.{first, kinds};
ghost use Rattle.jr_parse_starts.specs.Starts.{next_is};
ghost use Rattle.jr_parse_defs.specs.Begins as spec;
ghost use Rattle.jr_parse.specs.Begun as begun;

use jr_base::{Keyword, Kind, Symbol};
use jr_parse_laws::Cursor;
use jr_tree::Modifier;

/// How a member that is no type begins behind its modifiers.
#[derive(Clone, Copy)]
pub enum MemberStart {
    /// `{`, of an initializer (JLS 8.6, 8.7)
    Brace,
    /// `void` (JLS 8.4)
    Void,
    /// An identifier, which is a constructor's or begins a type (JLS 8.3, 8.4, 8.8)
    Name,
    /// A primitive type (JLS 8.3, 8.4)
    Primitive,
}

/// How a declaration of a type begins behind its modifiers.
#[derive(Clone, Copy)]
pub enum DeclStart {
    /// `class` (JLS 8.1)
    Class,
    /// `interface` (JLS 9.1)
    Interface,
    /// `;` (JLS 7.6)
    Semicolon,
}

/// The modifier that the word is.
fn modifier_of(word: Keyword) -> Option<Modifier>
    ensures { result ≡ spec.modifier_of word }
{
    match word {
        Keyword::Public => Some(Modifier::Public),
        Keyword::Protected => Some(Modifier::Protected),
        Keyword::Private => Some(Modifier::Private),
        Keyword::Abstract => Some(Modifier::Abstract),
        Keyword::Static => Some(Modifier::Static),
        Keyword::Final => Some(Modifier::Final),
        Keyword::Native => Some(Modifier::Native),
        _ => None,
    }
}

/// The modifier that comes next.
pub fn modifier_at(cursor: &Cursor<'_>) -> Option<Modifier>
    ensures { result ≡ begun.modifier_at (kinds cursor.now) }
{
    match cursor.peek() {
        Some(Kind::Word(word)) => modifier_of(*word),
        _ => None,
    }
}

/// Whether a declaration of a type, or a modifier of one, begins with the token.
fn begins_decl(kind: &Kind) -> bool
    ensures { result ≡ spec.begins_decl kind.now }
{
    match kind {
        Kind::Sym(symbol) => *symbol == Symbol::Semicolon,
        Kind::Word(Keyword::Class | Keyword::Interface) => true,
        Kind::Word(
            Keyword::Public
            | Keyword::Protected
            | Keyword::Private
            | Keyword::Abstract
            | Keyword::Static
            | Keyword::Final
            | Keyword::Native,
        ) => true,
        _ => false,
    }
}

/// Whether a member, or a modifier of one, begins with the token.
fn begins_member(kind: &Kind) -> bool
    ensures { result ≡ spec.begins_member kind.now }
{
    match kind {
        Kind::Ident(_) | Kind::Sym(Symbol::OpenBrace) => true,
        Kind::Word(
            Keyword::Void
            | Keyword::Boolean
            | Keyword::Byte
            | Keyword::Short
            | Keyword::Char
            | Keyword::Int
            | Keyword::Long,
        ) => true,
        _ => begins_decl(kind),
    }
}

/// Whether a parameter begins with the token (JLS 8.4.1).
fn begins_param(kind: &Kind) -> bool
    ensures { result ≡ spec.begins_param kind.now }
{
    matches!(
        kind,
        Kind::Ident(_)
            | Kind::Word(
                Keyword::Final
                    | Keyword::Boolean
                    | Keyword::Byte
                    | Keyword::Short
                    | Keyword::Char
                    | Keyword::Int
                    | Keyword::Long,
            )
    )
}

/// Whether a declaration of a type comes next.
pub fn starts_decl(cursor: &Cursor<'_>) -> bool
    ensures { result ≡ spec.starts_decl (first (kinds cursor.now)) }
{
    match cursor.peek() {
        Some(kind) => begins_decl(kind),
        None => false,
    }
}

/// Whether a member comes next.
pub fn starts_member(cursor: &Cursor<'_>) -> bool
    ensures { result ≡ spec.starts_member (first (kinds cursor.now)) }
{
    match cursor.peek() {
        Some(kind) => begins_member(kind),
        None => false,
    }
}

/// Whether a parameter comes next.
pub fn starts_param(cursor: &Cursor<'_>) -> bool
    ensures { result ≡ spec.starts_param (first (kinds cursor.now)) }
{
    match cursor.peek() {
        Some(kind) => begins_param(kind),
        None => false,
    }
}

/// Whether an import comes next (JLS 7.5).
pub fn starts_import(cursor: &Cursor<'_>) -> bool
    ensures { result ≡ next_is spec.is_import (first (kinds cursor.now)) }
{
    matches!(cursor.peek(), Some(Kind::Word(Keyword::Import)))
}

/// How a declaration of a type goes on behind its modifiers.
pub fn decl_start(cursor: &Cursor<'_>) -> Option<DeclStart>
    ensures { result ≡ begun.decl_start_at (kinds cursor.now) }
{
    match cursor.peek() {
        Some(Kind::Sym(Symbol::Semicolon)) => Some(DeclStart::Semicolon),
        Some(Kind::Word(Keyword::Class)) => Some(DeclStart::Class),
        Some(Kind::Word(Keyword::Interface)) => Some(DeclStart::Interface),
        _ => None,
    }
}

/// How a member that is no type begins with the word.
fn member_start_of(word: Keyword) -> Option<MemberStart>
    ensures { result ≡ begun.member_start_of word }
{
    match word {
        Keyword::Void => Some(MemberStart::Void),
        Keyword::Boolean
        | Keyword::Byte
        | Keyword::Short
        | Keyword::Char
        | Keyword::Int
        | Keyword::Long => Some(MemberStart::Primitive),
        _ => None,
    }
}

/// How a member that is no type goes on behind its modifiers.
pub fn member_start(cursor: &Cursor<'_>) -> Option<MemberStart>
    ensures { result ≡ begun.member_start_at (kinds cursor.now) }
{
    match cursor.peek() {
        Some(Kind::Ident(_)) => Some(MemberStart::Name),
        Some(Kind::Sym(Symbol::OpenBrace)) => Some(MemberStart::Brace),
        Some(Kind::Word(word)) => member_start_of(*word),
        _ => None,
    }
}
