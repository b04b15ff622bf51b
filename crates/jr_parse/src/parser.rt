// Parsing all tokens of a file.
ghost use Rattle.std.specs.Prelude.{◌≡◌, ◌-◌, ◌<◌, ◌≤◌, ◌^◌, length, map};
ghost use Rattle.jr_parse_laws.specs.Parsers.{kinds};
ghost use Rattle.jr_parse.specs.Answers.{Answers};

use crate::ParseFault;
use crate::unit::whole_unit;
use jr_base::{Limits, Token};
use jr_parse_laws::{Cursor, Fault};
use jr_tree::Unit;
use std::alloc::Global;

/// The number of the token that the cursor stands at, or of all tokens at their end.
fn token_number(tokens: &[Token], cursor: &Cursor<'_>) -> u32
    requires { length tokens.now < 2 ^ 32 }
    ensures { result ≡ length (map (λ t. t.kind) tokens.now) - length (kinds cursor.now) }
{
    tokens.len().saturating_sub(cursor.rest.len()) as u32
}

/// The unit of at most `Limits::NESTING` levels that the tokens are, as `parse_within` tells it.
pub fn parse(alloc: Global, tokens: &[Token]) -> Result<Unit, ParseFault>
    requires { length tokens.now < 2 ^ 32 }
    ensures { Answers Limits.NESTING (map (λ t. t.kind) tokens.now) result }
{
    parse_within(alloc, tokens, Limits::NESTING)
}

/// The unit of at most so many levels that the tokens are (JLS 7.3, 18). There is at most one. The fault counts tokens from 0: it names the
/// first with which no such unit begins, or the number of all tokens, where one begins so and none ends.
pub fn parse_within(alloc: Global, tokens: &[Token], levels: u32) -> Result<Unit, ParseFault>
    requires few { length tokens.now < 2 ^ 32 }
    requires some { 1 ≤ levels }
    ensures { Answers levels (map (λ t. t.kind) tokens.now) result }
{
    let mut cursor = Cursor { rest: tokens };
    match whole_unit(alloc, &mut cursor, levels as usize) {
        Ok(unit) => Ok(unit),
        Err(Fault::NoTree) => Err(ParseFault::NoTree(token_number(tokens, &cursor))),
        Err(Fault::TooDeep) => Err(ParseFault::TooDeep(token_number(tokens, &cursor))),
        Err(Fault::OutOfMemory) => Err(ParseFault::OutOfMemory),
    }
}
