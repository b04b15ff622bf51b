// Whether texts are nested too deep.

ghost use Rattle.std.specs.Prelude.{◌≡◌, true, IfOk, IfSome};
ghost use Rattle.jr_base.specs.Files.{plain};
ghost use Rattle.jr_engine.specs.Barring.{AreTooDeep, HasDeepText, HasText, IsDepth, IsNestedTooDeep};

use crate::asked::PRELUDE;
use jr_base::{CuId, OutOfMemory, Path, Token};
use jr_lex::lex;
use jr_parse::{ParseFault, parse};
use std::alloc::Global;

// The fault is that of tokens that are nested too deep.
fn is_depth(fault: ParseFault) -> bool
    ensures { result ≡ true → IsDepth fault }
{
    match fault {
        ParseFault::TooDeep(_) => true,
        _ => false,
    }
}

// Whether tokens are nested too deep. So many that they cannot be counted are answered for want of memory.
fn are_too_deep(alloc: Global, tokens: &[Token]) -> Result<bool, OutOfMemory>
    ensures { IfOk result (λ is. is ≡ true → AreTooDeep tokens.now) }
{
    if tokens.len() >= u32::MAX as usize {
        return Err(OutOfMemory);
    }
    match parse(alloc, tokens) {
        Ok(unit) => {
            drop(unit);
            Ok(false)
        }
        Err(fault) => Ok(is_depth(fault)),
    }
}

// Whether the tokens of a text are nested too deep. A text of 4 GiB is answered for want of memory.
fn is_too_deep(alloc: Global, text: &[u8]) -> Result<bool, OutOfMemory>
    ensures { IfOk result (λ is. is ≡ true → IsNestedTooDeep text.now) }
{
    if text.len() >= u32::MAX as usize {
        return Err(OutOfMemory);
    }
    match lex(alloc, text) {
        Ok(tokens) => are_too_deep(alloc, &tokens),
        Err(_) => Ok(false),
    }
}

// The text of this number, if there is one.
fn text_at(texts: &[(Path, Vec<u8>)], at: usize) -> Option<&[u8]>
    ensures { IfSome result (λ text. HasText (plain texts.now) text.now) }
{
    match texts.get(at) {
        Some(file) => Some(file.1.as_slice()),
        None => None,
    }
}

// Whether the text of this number is nested too deep.
fn is_deep_at(alloc: Global, texts: &[(Path, Vec<u8>)], at: usize) -> Result<bool, OutOfMemory>
    ensures { IfOk result (λ is. is ≡ true → HasDeepText (plain texts.now)) }
{
    match text_at(texts, at) {
        Some(text) => is_too_deep(alloc, text),
        None => Ok(false),
    }
}

/// Whether the unit of this number, behind the prelude, is nested too deep by its text.
pub fn is_deep_unit(
    alloc: Global,
    texts: &[(Path, Vec<u8>)],
    unit: CuId,
) -> Result<bool, OutOfMemory>
    ensures { IfOk result (λ is. is ≡ true → HasDeepText (plain texts.now)) }
{
    match (unit.0 as usize).checked_sub(PRELUDE) {
        Some(at) => is_deep_at(alloc, texts, at),
        None => Ok(false),
    }
}
