// The files with their tokens.
ghost use Rattle.std.specs.Prelude.{◌≡◌, IfOk, IfErr, IfSome};
ghost use Rattle.jr_read.specs.Reading.{IsLexed, IsUnlexed};
ghost use Rattle.jr_read.specs.Reading as reading;

use crate::fault::ReadFault;
use jr_base::{CuId, Items, Path, Text, Token};
use jr_escapes::first_bad_escape;
use jr_lex::{LexFault, lex};
use std::alloc::Global;

/// A file with its tokens.
#[derive(Drop)]
pub struct Lexed {
    pub path: Path,
    pub bytes: Text,
    pub tokens: Items<Token>,
}

/// The offset of a token, or of the end where there are not so many. A place past 4 GiB is none.
pub fn offset_of(tokens: &[Token], bytes: &[u8], number: u32) -> Option<u32>
    ensures { IfSome result (λ at. at ≡ reading.offset_of tokens.now bytes.now number) }
{
    match tokens.get(number as usize) {
        Some(token) => Some(token.span.start),
        None => match u32::try_from(bytes.len()) {
            Ok(end) => Some(end),
            Err(_) => None,
        },
    }
}

/// The file with its tokens. An escape in its comments that may change what is a comment is a bad one (JLS 3.3). A text of 4 GiB is answered for want of memory.
pub fn lex_file(alloc: Global, path: Path, bytes: &[u8], cu: CuId) -> Result<Lexed, ReadFault>
    ensures ok { IfOk result (IsLexed path bytes.now) }
    ensures err { IfErr result (IsUnlexed bytes.now cu) }
{
    if bytes.len() >= u32::MAX as usize {
        return Err(ReadFault::OutOfMemory);
    }
    let tokens = match lex(alloc, bytes) {
        Ok(tokens) => tokens,
        Err(LexFault::OutOfMemory) => return Err(ReadFault::OutOfMemory),
        Err(fault) => return Err(ReadFault::Lex { cu, fault }),
    };
    if let Some(at) = first_bad_escape(bytes, &tokens) {
        return Err(ReadFault::Lex {
            cu,
            fault: LexFault::BadEscape(at),
        });
    }
    let bytes = Text::of(alloc, bytes)?;
    Ok(Lexed {
        path,
        bytes,
        tokens: Items::from_vec(tokens),
    })
}
