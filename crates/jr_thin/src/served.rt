// Reads a file, and finds what each of its names refers to.
ghost use Rattle.std.specs.Prelude.{◌<◌, ◌^◌, List, IfOk, MatchOption, length};
ghost use Rattle.jr_base.specs.Reading.{Lex};
ghost use Rattle.jr_base.specs.declared.token.Token.{Token};
ghost use Rattle.jr_escapes.specs.Escapes.{HasNoBadEscape};
ghost use Rattle.jr_thin.specs.Served.{AreTokens, IsRead, IsUnread};

use crate::binding::targets;
use crate::reading::sites_in;
use crate::sites::Site;
use jr_base::{OutOfMemory, Token};
use jr_escapes::first_bad_escape;
use jr_lex::{LexFault, lex};
use std::alloc::Global;

/// A class that is served: its tokens, what each is, and what each refers to.
#[derive(Drop)]
pub struct Class {
    pub tokens: Vec<Token>,
    pub sites: Vec<Site>,
    pub targets: Vec<Option<usize>>,
}

/// The tokens of a text, where it has some and no bad escape in its comments (JLS 3.2, 3.3).
pub fn tokens_of(alloc: Global, bytes: &[u8]) -> Result<Option<Vec<Token>>, OutOfMemory>
    requires { length bytes.now < 2 ^ 32 }
    ensures { IfOk result (λ found. MatchOption found ((tokens : List Token) → Lex bytes.now tokens → HasNoBadEscape bytes.now tokens → ⊥)
        (λ tokens. AreTokens bytes.now tokens.items)) }
{
    match lex(alloc, bytes) {
        Ok(tokens) => {
            if first_bad_escape(bytes, &tokens).is_some() {
                return Ok(None);
            }
            Ok(Some(tokens))
        }
        Err(LexFault::OutOfMemory) => Err(OutOfMemory),
        Err(_) => Ok(None),
    }
}

/// The class in a file. None where the file is no class that is served, or not all of its names bind, or a local or
/// parameter is declared in the scope of one of its name.
pub fn class_in(alloc: Global, bytes: &[u8]) -> Result<Option<Class>, OutOfMemory>
    requires { length bytes.now < 2 ^ 32 }
    ensures { IfOk result (λ found. MatchOption found (IsUnread bytes.now)
        (λ c. IsRead bytes.now c.tokens.items c.sites.items c.targets.items)) }
{
    let Some(tokens) = tokens_of(alloc, bytes)? else {
        return Ok(None);
    };
    let Some(sites) = sites_in(alloc, &tokens)? else {
        return Ok(None);
    };
    let Some(targets) = targets(alloc, &sites)? else {
        return Ok(None);
    };
    Ok(Some(Class {
        tokens,
        sites,
        targets,
    }))
}
