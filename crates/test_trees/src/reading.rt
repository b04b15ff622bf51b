// Sources are lexed and parsed.
use jr_base::Token;
use jr_lex::lex;
use jr_parse::parse;
use jr_tree::Unit;
use std::alloc::Global;
use std::test::Fail;

/// The tokens of a text.
pub fn lexed(alloc: Global, text: &str) -> Result<Vec<Token>, Fail> {
    if text.len() > 100_000 {
        return Err(Fail::new("the text is too long"));
    }
    match lex(alloc, text.as_bytes()) {
        Ok(tokens) => Ok(tokens),
        Err(_) => Err(Fail::new("the text has no tokens")),
    }
}

/// The tree of the tokens.
pub fn parsed(alloc: Global, tokens: &[Token]) -> Result<Unit, Fail> {
    if tokens.len() > 100_000 {
        return Err(Fail::new("the tokens are too many"));
    }
    match parse(alloc, tokens) {
        Ok(unit) => Ok(unit),
        Err(_) => Err(Fail::new("the tokens have no tree")),
    }
}

/// The tree of a text.
pub fn read(alloc: Global, text: &str) -> Result<Unit, Fail> {
    let tokens = lexed(alloc, text)?;
    parsed(alloc, &tokens)
}
