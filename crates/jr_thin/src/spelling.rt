// Spells a declaration and its uses anew.
ghost use Rattle.std.specs.Prelude.{◌≡◌, ◌+◌, ◌-◌, ◌<◌, ◌≤◌, ◌++◌, ◌↔◌, ℕ, IsTrue, IfOk, OnOk, MatchOption, length, slice_range, slice_index_or, Some, None, if◌then◌else◌};
ghost use Rattle.jr_base.specs.Respelled.{respelled, new_spelling, new_width, moved_tokens};
ghost use Rattle.jr_thin.specs.Served.{SpansRise, RiseFrom};
ghost use Rattle.jr_thin.specs.Text.{Covers, is_of, choices, span_at};

use crate::reading::added;
use crate::sites::{Role, Site};
use jr_base::{OutOfMemory, Token};
use std::alloc::Global;

/// The name that holds the offset, at its first byte or before its end.
pub fn name_at(tokens: &[Token], sites: &[Site], at: u32) -> Option<usize>
    requires { length sites.now ≡ length tokens.now }
    ensures { MatchOption result ((i : ℕ) → Covers tokens.now sites.now at i → ⊥) (λ i. Covers tokens.now sites.now at i) }
{
    for (index, token) in tokens.iter().enumerate() {
        if sites[index].role != Role::Plain && token.span.start <= at && at < token.span.end {
            return Some(index);
        }
    }
    None
}

/// Whether the token refers to the declaration.
pub fn is_of(declaration: usize, target: Option<usize>) -> bool
    ensures { result ≡ is_of declaration target }
{
    target == Some(declaration)
}

// Adds the bytes from a place up to the token, and the token, or the name where it is spelled anew.
fn spell_one(
    bytes: &[u8],
    from: usize,
    token: &Token,
    anew: bool,
    name: &[u8],
    new: &mut Vec<u8>,
) -> Result<(), OutOfMemory>
    requires order { from ≤ token.now.span.start }
    requires within { token.now.span.start ≤ token.now.span.end }
    requires inside { token.now.span.end ≤ length bytes.now }
    ensures { OnOk result (new.new.items ≡ new.old.items
        ++ (slice_range bytes.now from token.now.span.start ++ new_spelling bytes.now (token.now, (if anew then Some name.now else None)))) }
{
    let start = token.span.start as usize;
    new.extend_from_slice(&bytes[from..start])?;
    if anew {
        new.extend_from_slice(name)?;
    } else {
        new.extend_from_slice(&bytes[start..token.span.end as usize])?;
    }
    Ok(())
}

/// The bytes with the name in the place of each token that refers to the declaration.
pub fn respell(
    alloc: Global,
    bytes: &[u8],
    tokens: &[Token],
    targets: &[Option<usize>],
    declaration: usize,
    name: &[u8],
) -> Result<Vec<u8>, OutOfMemory>
    requires size { length targets.now ≡ length tokens.now }
    requires rise { SpansRise 0 (length bytes.now) tokens.now }
    ensures { IfOk result (λ new. new.items ≡ respelled bytes.now 0 (choices declaration name.now tokens.now targets.now)) }
{
    let mut new = Vec::new(alloc);
    let mut done = 0;
    for (index, token) in tokens.iter().enumerate() {
        let anew = is_of(declaration, targets[index]);
        spell_one(bytes, done, token, anew, name, &mut new)?;
        done = token.span.end as usize;
    }
    new.extend_from_slice(&bytes[done..])?;
    Ok(new)
}

// How many bytes are written for the token: the name where it is spelled anew.
fn new_width(token: &Token, anew: bool, name: &[u8]) -> usize
    requires { token.now.span.start ≤ token.now.span.end }
    ensures { result ≡ new_width (token.now, (if anew then Some name.now else None)) }
{
    if anew {
        name.len()
    } else {
        (token.span.end - token.span.start) as usize
    }
}

/// The place of the token `last` in the text with the name in the place of each token that refers to the declaration.
/// It is a number below 2^32, or memory is wanting.
pub fn moved_start(
    tokens: &[Token],
    targets: &[Option<usize>],
    declaration: usize,
    name: &[u8],
    last: usize,
) -> Result<u32, OutOfMemory>
    requires size { length targets.now ≡ length tokens.now }
    requires inside { last < length tokens.now }
    requires rise { RiseFrom 0 tokens.now }
    ensures { IfOk result (λ start. start ≡ (span_at (moved_tokens 0 0 (choices declaration name.now tokens.now targets.now)) last).start) }
{
    let mut from = 0;
    let mut at = 0;
    for index in 0..last {
        let token = &tokens[index];
        let start = added(at, (token.span.start - from) as usize)?;
        at = added(
            start,
            new_width(token, is_of(declaration, targets[index]), name),
        )?;
        from = token.span.end;
    }
    added(at, (tokens[last].span.start - from) as usize)
}
