// Modifiers, and lists of names and parameters (JLS 8.1, 8.4, 9.1).
ghost use Rattle.std.specs.Prelude.{◌≡◌};
ghost use Rattle.jr_base.specs.declared.kind.Symbol.TheVariants as y;
ghost use Rattle.jr_parse_laws.specs.Parsers.{Reads, after_comma, begins_with, commas, kinds, many, with_front};
ghost use Rattle.jr_parse_expr.specs.Exprs.{any_commas};
ghost use Rattle.jr_parse_expr.specs.Names as reader;
ghost use Rattle.jr_parse_defs.specs.Begins as begins;
ghost use Rattle.jr_parse_defs.specs.Decls as spec;
ghost use Rattle.jr_parse_defs.specs.Stmts as stmts;
ghost use Rattle.jr_parse.specs.Begun as begun;

use crate::begin::{modifier_at, starts_param};
use jr_base::{Items, Keyword, Symbol};
use jr_parse_expr::name_after;
use jr_parse_laws::{Cursor, Fault};
use jr_parse_stmt::param;
use jr_tree::{Modifier, Name, Param};
use std::alloc::Global;

/// Modifiers, as long as one comes.
pub fn modifiers(alloc: Global, cursor: &mut Cursor<'_>) -> Result<Items<Modifier>, Fault>
    ensures { Reads (λ (mods : _). mods) (spec.modifiers (kinds cursor.old)) result (kinds cursor.new) }
{
    let mut all = Items::new(alloc);
    'modifiers: while let Some(modifier) = modifier_at(cursor) {
        cursor.skip();
        all.push(modifier)?;
    }
    Ok(all)
}

/// Whether there are no modifiers.
pub fn is_bare(mods: &Items<Modifier>) -> bool
    ensures { result ≡ begun.is_bare mods.now }
{
    matches!(mods.as_slice(), [])
}

/// Whether the modifiers are `static` alone.
pub fn is_static(mods: &Items<Modifier>) -> bool
    ensures { result ≡ begun.is_static mods.now }
{
    matches!(mods.as_slice(), [Modifier::Static])
}

/// A name (JLS 6.2).
pub fn name(alloc: Global, cursor: &mut Cursor<'_>) -> Result<Name, Fault>
    ensures { Reads (λ (n : _). n) (reader.name (kinds cursor.old)) result (kinds cursor.new) }
{
    let head = cursor.identifier(alloc)?;
    name_after(alloc, cursor, head)
}

/// Further names behind these, each behind a comma.
fn more_names(
    alloc: Global,
    cursor: &mut Cursor<'_>,
    front: Items<Name>,
) -> Result<Items<Name>, Fault>
    ensures { Reads (λ (all : _). all) (with_front front (many (begins_with y.Comma) (after_comma reader.name) (kinds cursor.old))) result (kinds cursor.new) }
{
    let mut all = front;
    'names: while cursor.is_at(Symbol::Comma) {
        cursor.skip();
        let next = name(alloc, cursor)?;
        all.push(next)?;
    }
    Ok(all)
}

/// Names with commas between them.
fn names(alloc: Global, cursor: &mut Cursor<'_>) -> Result<Items<Name>, Fault>
    ensures { Reads (λ (all : _). all) (commas reader.name (kinds cursor.old)) result (kinds cursor.new) }
{
    let first = name(alloc, cursor)?;
    let mut front = Items::new(alloc);
    front.push(first)?;
    more_names(alloc, cursor, front)
}

/// Names with commas between them behind the word, if it comes.
pub fn names_after(
    alloc: Global,
    cursor: &mut Cursor<'_>,
    word: Keyword,
) -> Result<Items<Name>, Fault>
    ensures { Reads (λ (all : _). all) (spec.names_after word (kinds cursor.old)) result (kinds cursor.new) }
{
    if cursor.is_at_word(word) {
        cursor.skip();
        return names(alloc, cursor);
    }
    Ok(Items::new(alloc))
}

/// The superclass, if one is named (JLS 8.1.4).
pub fn parent(alloc: Global, cursor: &mut Cursor<'_>) -> Result<Option<Name>, Fault>
    ensures { Reads (λ (n : _). n) (spec.parent (kinds cursor.old)) result (kinds cursor.new) }
{
    if cursor.is_at_word(Keyword::Extends) {
        cursor.skip();
        return Ok(Some(name(alloc, cursor)?));
    }
    Ok(None)
}

/// Further parameters behind these, each behind a comma.
fn more_params(
    alloc: Global,
    cursor: &mut Cursor<'_>,
    front: Items<Param>,
) -> Result<Items<Param>, Fault>
    ensures { Reads (λ (all : _). all) (with_front front (many (begins_with y.Comma) (after_comma stmts.param) (kinds cursor.old))) result (kinds cursor.new) }
{
    let mut all = front;
    'params: while cursor.is_at(Symbol::Comma) {
        cursor.skip();
        let next = param(alloc, cursor)?;
        all.push(next)?;
    }
    Ok(all)
}

/// Parameters with commas between them.
fn some_params(alloc: Global, cursor: &mut Cursor<'_>) -> Result<Items<Param>, Fault>
    ensures { Reads (λ (all : _). all) (commas stmts.param (kinds cursor.old)) result (kinds cursor.new) }
{
    let first = param(alloc, cursor)?;
    let mut front = Items::new(alloc);
    front.push(first)?;
    more_params(alloc, cursor, front)
}

/// The same, if one begins.
fn any_params(alloc: Global, cursor: &mut Cursor<'_>) -> Result<Items<Param>, Fault>
    ensures { Reads (λ (all : _). all) (any_commas begins.starts_param stmts.param (kinds cursor.old)) result (kinds cursor.new) }
{
    if starts_param(cursor) {
        return some_params(alloc, cursor);
    }
    Ok(Items::new(alloc))
}

/// Parameters in parentheses (JLS 8.4.1).
pub fn params(alloc: Global, cursor: &mut Cursor<'_>) -> Result<Items<Param>, Fault>
    ensures { Reads (λ (all : _). all) (spec.params (kinds cursor.old)) result (kinds cursor.new) }
{
    cursor.expect(Symbol::OpenParen)?;
    let all = any_params(alloc, cursor)?;
    cursor.expect(Symbol::CloseParen)?;
    Ok(all)
}
