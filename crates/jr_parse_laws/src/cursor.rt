// A cursor over tokens, of which contracts see the kinds.
ghost use Rattle.std.specs.Prelude.{◌≡◌, drop};
ghost use Rattle.jr_parse_laws.specs.Parsers as spec;
ghost use Rattle.jr_parse_laws.specs.Parsers.{Reads, SeesFirst, kinds, done};

use crate::Fault;
use jr_base::{Keyword, Kind, Symbol, Text, Token};
use std::alloc::Global;

/// The tokens that are still to be read.
#[derive(Drop)]
pub struct Cursor<'a> {
    pub rest: &'a [Token],
}

impl<'a> Cursor<'a> {
    /// The kind of the next token.
    pub fn peek(&self) -> Option<&'a Kind>
        ensures { SeesFirst (kinds self.now) result }
    {
        match self.rest {
            [first, ..] => Some(&first.kind),
            [] => None,
        }
    }

    /// The symbol that comes next.
    pub fn symbol(&self) -> Option<Symbol>
        ensures { result ≡ spec.symbol_at (kinds self.now) }
    {
        match self.peek() {
            Some(Kind::Sym(symbol)) => Some(*symbol),
            _ => None,
        }
    }

    /// Whether this symbol comes next.
    pub fn is_at(&self, symbol: Symbol) -> bool
        ensures { result ≡ spec.is_at symbol (kinds self.now) }
    {
        match self.peek() {
            Some(Kind::Sym(found)) => *found == symbol,
            _ => false,
        }
    }

    /// Whether this word comes next.
    pub fn is_at_word(&self, word: Keyword) -> bool
        ensures { result ≡ spec.is_at_word word (kinds self.now) }
    {
        match self.peek() {
            Some(Kind::Word(found)) => *found == word,
            _ => false,
        }
    }

    /// Leaves the next token behind.
    pub fn skip(&mut self)
        ensures { kinds self.new ≡ drop 1 (kinds self.old) }
    {
        if let [_, rest @ ..] = self.rest {
            self.rest = rest;
        }
    }

    /// Reads this symbol.
    pub fn expect(&mut self, symbol: Symbol) -> Result<(), Fault>
        ensures { Reads done (spec.expect symbol (kinds self.old)) result (kinds self.new) }
    {
        match self.rest {
            [
                Token {
                    kind: Kind::Sym(found),
                    ..
                },
                rest @ ..,
            ] if *found == symbol => {
                self.rest = rest;
                Ok(())
            }
            _ => Err(Fault::NoTree),
        }
    }

    /// Reads this word.
    pub fn expect_word(&mut self, word: Keyword) -> Result<(), Fault>
        ensures { Reads done (spec.expect_word word (kinds self.old)) result (kinds self.new) }
    {
        match self.rest {
            [
                Token {
                    kind: Kind::Word(found),
                    ..
                },
                rest @ ..,
            ] if *found == word => {
                self.rest = rest;
                Ok(())
            }
            _ => Err(Fault::NoTree),
        }
    }

    /// Reads an identifier.
    pub fn identifier(&mut self, alloc: Global) -> Result<Text, Fault>
        ensures { Reads (λ (name : _). name) (spec.identifier (kinds self.old)) result (kinds self.new) }
    {
        match self.rest {
            [
                Token {
                    kind: Kind::Ident(name),
                    ..
                },
                rest @ ..,
            ] => {
                self.rest = rest;
                Ok(name.copy(alloc)?)
            }
            _ => Err(Fault::NoTree),
        }
    }
}
