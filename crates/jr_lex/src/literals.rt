// Character and string literals (JLS 3.10.4, 3.10.5).
ghost use Rattle.std.specs.Prelude.{◌≡◌, ◌+◌, ◌++◌, ◌^◌, ◌<◌, ◌≤◌, true, drop, length, slice_index, IfOk, OnOk};
ghost use Rattle.std.specs.Char.Escape.{encode_utf16};
ghost use Rattle.std.specs.Str.{IsCharBoundary};
ghost use Rattle.jr_base.specs.Literals.{is_quote, escape_of};
ghost use Rattle.jr_lex.specs.Items.{IsPiece, IsScan};

use crate::escapes::escape_of;
use crate::gaps::is_line_end;
use jr_base::{OutOfMemory, char_at};
use std::alloc::Global;

/// What stands at a place between two quotes, and where it ends.
pub enum Piece {
    Plain(char, usize),
    Escape(u16, usize),
    Close,
    BadEscape,
    /// The end of the line or of the text.
    End,
}

/// What begins with a quote.
#[derive(Drop)]
pub enum Scan {
    /// A literal, with the units between the quotes and its length.
    Literal(Vec<u16>, usize),
    BadEscape,
    Open,
}

pub fn is_quote(c: u8) -> bool
    ensures { result ≡ is_quote c }
{
    c == b'\'' || c == b'"'
}

/// The unit of the escape at a place, and its length behind the backslash.
fn escape_at(text: &str, at: usize) -> Option<(u16, usize)>
    requires { at ≤ length text.now }
    ensures { result ≡ escape_of (drop at text.now) }
{
    escape_of(&text.as_bytes()[at..])
}

fn piece_at(text: &str, quote: u8, at: usize) -> Piece
    requires short { length text.now < 2 ^ 32 }
    requires quote { is_quote quote ≡ true }
    requires boundary { IsCharBoundary text.now at }
    ensures { IsPiece quote text.now at result }
{
    let bytes = text.as_bytes();
    if at == bytes.len() || is_line_end(bytes[at]) {
        return Piece::End;
    }
    if bytes[at] == quote {
        return Piece::Close;
    }
    if bytes[at] == b'\\' {
        return match escape_at(text, at) {
            Some((unit, len)) => Piece::Escape(unit, at + 1 + len),
            None => Piece::BadEscape,
        };
    }
    let (c, end) = char_at(text, at);
    Piece::Plain(c, end)
}

/// Adds the one or two units of a character.
fn push_char(units: &mut Vec<u16>, c: char) -> Result<(), OutOfMemory>
    ensures { OnOk result (units.new.items ≡ units.old.items ++ encode_utf16 c) }
{
    if c < '\u{80}' {
        units.push(c as u16)?;
        return Ok(());
    }
    let mut buffer = [0; 2];
    let encoded = c.encode_utf16(&mut buffer);
    units.extend_from_slice(encoded)?;
    Ok(())
}

/// How many bytes stand behind the quote before the next such quote, of those that are looked at: room for most literals.
fn room_for(text: &[u8], quote: u8) -> usize {
    text.iter()
        .skip(1)
        .take(64)
        .take_while(|c| **c != quote)
        .count()
}

/// The literal that begins with the quote, or why there is none.
pub fn scan_literal(alloc: Global, text: &str, quote: u8) -> Result<Scan, OutOfMemory>
    requires short { length text.now < 2 ^ 32 }
    requires quote { is_quote quote ≡ true }
    requires opens { slice_index text.now 0 ≡ quote }
    ensures { IfOk result (IsScan quote text.now) }
{
    let mut units = Vec::with_capacity(alloc, room_for(text.as_bytes(), quote))?;
    let mut at = 1;
    while at <= text.len() {
        match piece_at(text, quote, at) {
            Piece::Plain(c, end) => {
                push_char(&mut units, c)?;
                at = end;
            }
            Piece::Escape(unit, end) => {
                units.push(unit)?;
                at = end;
            }
            Piece::Close => return Ok(Scan::Literal(units, at + 1)),
            Piece::BadEscape => return Ok(Scan::BadEscape),
            Piece::End => break,
        }
    }
    Ok(Scan::Open)
}
