// Readers of names, types and pairs of brackets (JLS 4, 6.2).
ghost use Rattle.std.specs.Prelude.{◌≡◌, ◌+◌, ◌≤◌, ◌<◌, true, [], ◌∷◌, ◌++◌, drop, length, IfOk};
ghost use Rattle.jr_base.specs.declared.kind.Symbol.TheVariants as y;
ghost use Rattle.jr_parse_laws.specs.Parsers.{Reads, is_at, kinds};
ghost use Rattle.jr_parse_expr.specs.Names as spec;
ghost use Rattle.jr_parse_expr.specs.Views.{plain_dotted};

use jr_base::{Items, Keyword, Kind, Symbol, Text, Token};
use jr_parse_laws::{Cursor, Fault};
use jr_tree::{Base, Name, Primitive, TypeUse};
use std::alloc::{AllocError, Global};

/// A name at the head of an expression: its identifiers, the last one apart, and whether `this` stands behind them.
#[derive(Drop)]
pub struct Dotted {
    pub before: Items<Text>,
    pub last: Text,
    pub has_this: bool,
}

/// Pairs of brackets, and how many.
#[tactic(auto, unfolding(crate::specs::Names::dims))]
pub fn dims(cursor: &mut Cursor<'_>) -> Result<usize, Fault>
    ensures reads { Reads (λ (n : _). n) (spec.dims (kinds cursor.old)) result (kinds cursor.new) }
    ensures few { IfOk result (λ n. n + length cursor.new.rest.now ≤ length cursor.old.rest.now) }
{
    let mut pairs = 0;
    'pairs: while cursor.is_at(Symbol::OpenBracket) {
        cursor.skip();
        cursor.expect(Symbol::CloseBracket)?;
        pairs += 1;
    }
    Ok(pairs)
}

/// Pairs of brackets behind an open bracket and at the close bracket of its pair, and how many; with that pair there is one more.
pub fn dims_behind(cursor: &mut Cursor<'_>) -> Result<usize, Fault>
    requires { is_at y.CloseBracket (kinds cursor.old) ≡ true }
    ensures reads { Reads (λ (n : _). n) (spec.dims (drop 1 (kinds cursor.old))) result (kinds cursor.new) }
    ensures few { IfOk result (λ n. n < usize.MAX) }
{
    cursor.skip();
    dims(cursor)
}

/// A name, behind its first identifier.
#[tactic(auto, unfolding(crate::specs::Names::name_after))]
pub fn name_after(alloc: Global, cursor: &mut Cursor<'_>, head: Text) -> Result<Name, Fault>
    ensures { Reads (λ (n : _). n) (spec.name_after head (kinds cursor.old)) result (kinds cursor.new) }
{
    let mut parts = Items::new(alloc);
    parts.push(head)?;
    'parts: while cursor.is_at(Symbol::Dot) {
        cursor.skip();
        parts.push(cursor.identifier(alloc)?)?;
    }
    Ok(Name { parts })
}

/// The name of these identifiers.
pub fn whole_name(before: Items<Text>, last: Text) -> Result<Name, AllocError>
    ensures { IfOk result (λ n. n ≡ spec.name_of (before ++ last ∷ [])) }
{
    let mut parts = before;
    parts.push(last)?;
    Ok(Name { parts })
}

/// The primitive type that comes next.
pub fn primitive_at(cursor: &Cursor<'_>) -> Option<Primitive>
    ensures { result ≡ spec.primitive_at (kinds cursor.now) }
{
    match cursor.peek() {
        Some(Kind::Word(Keyword::Boolean)) => Some(Primitive::Boolean),
        Some(Kind::Word(Keyword::Byte)) => Some(Primitive::Byte),
        Some(Kind::Word(Keyword::Short)) => Some(Primitive::Short),
        Some(Kind::Word(Keyword::Char)) => Some(Primitive::Char),
        Some(Kind::Word(Keyword::Int)) => Some(Primitive::Int),
        Some(Kind::Word(Keyword::Long)) => Some(Primitive::Long),
        _ => None,
    }
}

/// An element type.
#[tactic(auto, unfolding(crate::specs::Names::element))]
pub fn element(alloc: Global, cursor: &mut Cursor<'_>) -> Result<Base, Fault>
    ensures { Reads (λ (b : _). b) (spec.element (kinds cursor.old)) result (kinds cursor.new) }
{
    if let Some(primitive) = primitive_at(cursor) {
        cursor.skip();
        return Ok(Base::Primitive(primitive));
    }
    let head = cursor.identifier(alloc)?;
    Ok(Base::Named(name_after(alloc, cursor, head)?))
}

/// A type.
#[tactic(auto, unfolding(crate::specs::Names::type_use))]
pub fn type_use(alloc: Global, cursor: &mut Cursor<'_>) -> Result<TypeUse, Fault>
    ensures { Reads (λ (t : _). t) (spec.type_use (kinds cursor.old)) result (kinds cursor.new) }
{
    let base = element(alloc, cursor)?;
    let dims = dims(cursor)?;
    Ok(TypeUse { base, dims })
}

/// A name at the head of an expression, behind its first identifier. `has_level` says whether there is a level for an expression.
#[tactic(auto, unfolding(crate::specs::Names::dotted))]
pub fn dotted_name(
    alloc: Global,
    cursor: &mut Cursor<'_>,
    has_level: bool,
    head: Text,
) -> Result<Dotted, Fault>
    ensures { Reads plain_dotted (spec.dotted has_level [] head (kinds cursor.old)) result (kinds cursor.new) }
{
    let mut before = Items::new(alloc);
    let mut last = head;
    'parts: while cursor.is_at(Symbol::Dot) {
        cursor.skip();
        if cursor.is_at_word(Keyword::This) {
            if !has_level {
                return Err(Fault::TooDeep);
            }
            cursor.skip();
            return Ok(Dotted {
                before,
                last,
                has_this: true,
            });
        }
        let next = cursor.identifier(alloc)?;
        before.push(last)?;
        last = next;
    }
    Ok(Dotted {
        before,
        last,
        has_this: false,
    })
}
