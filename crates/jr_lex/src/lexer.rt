// The tokens of a file.
ghost use Rattle.std.specs.Prelude.{◌≡◌, ◌^◌, ◌<◌, ℕ, List, drop, length, IfOk, IfErr, MatchResult};
ghost use Rattle.std.specs.Str.{IsCharBoundary, IsValidUpTo};
ghost use Rattle.jr_base.specs.Reading.{Lex, StopsAt};
ghost use Rattle.jr_base.specs.declared.token.Token.{Token};
ghost use Rattle.jr_lex.specs.Faults.{IsFirstFault, IsMemory, IsStop};

use crate::LexFault;
use crate::gaps::is_blank;
use crate::items::{Item, item_at};
use jr_base::{Span, Token};
use std::alloc::Global;
use std::str;

/// The tokens of a file's bytes, or the first place where they have none. Spans are in byte offsets.
pub fn lex(alloc: Global, bytes: &[u8]) -> Result<Vec<Token>, LexFault>
    requires { length bytes.now < 2 ^ 32 }

    // What is answered is how the bytes read, and a fault is the first.
    ensures found { IfOk result (λ tokens. Lex bytes.now tokens.items) }
    ensures fault { IfErr result (λ fault. IsFirstFault bytes.now fault) }

    // What the bytes read as is answered, unless memory runs out, and so is their first fault.
    ensures only { (tokens : List Token) → Lex bytes.now tokens
        → MatchResult result (λ v. v.items ≡ tokens) IsMemory }
    ensures only_fault { (place : ℕ) → StopsAt bytes.now place
        → MatchResult result (λ _. ⊥) (λ fault. IsStop bytes.now place fault) }
    ensures not_utf8 { (at : ℕ) → IsValidUpTo bytes.now at
        → MatchResult result (λ _. ⊥) (λ fault. fault ≡ LexFault.NotUtf8 at) }
{
    match str::from_utf8(bytes) {
        Ok(text) => lex_text(alloc, text),
        Err(fault) => Err(LexFault::NotUtf8(fault.valid_up_to() as u32)),
    }
}

fn lex_text(alloc: Global, text: &str) -> Result<Vec<Token>, LexFault>
    requires { length text.now < 2 ^ 32 }
    ensures found { IfOk result (λ tokens. Lex text.now tokens.items) }
    ensures fault { IfErr result (λ fault. IsFirstFault text.now fault) }
    ensures only { (tokens : List Token) → Lex text.now tokens
        → MatchResult result (λ v. v.items ≡ tokens) IsMemory }
    ensures only_fault { (place : ℕ) → StopsAt text.now place
        → MatchResult result (λ _. ⊥) (λ fault. IsStop text.now place fault) }
{
    let mut tokens = Vec::with_capacity(alloc, text.len() / 3 + 1)?;
    let mut at = 0;
    while at < text.len() {
        if is_blank(text.as_bytes()[at]) {
            at += 1;
            continue;
        }
        let rest = from_place(text, at);
        match item_at(alloc, rest, at as u32)? {
            Item::Gap(len) => at += len,
            Item::Found(kind, len) => {
                let end = at + len;
                let span = Span {
                    start: at as u32,
                    end: end as u32,
                };
                tokens.push(Token { kind, span })?;
                at = end;
            }
        }
    }
    Ok(tokens)
}

/// The text from a place on.
fn from_place(text: &str, at: usize) -> &str
    requires { IsCharBoundary text.now at }
    ensures { result.now ≡ drop at text.now }
{
    &text[at..]
}
