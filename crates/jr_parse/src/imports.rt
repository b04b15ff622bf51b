// The package and the imports of a unit (JLS 7.4, 7.5).
ghost use Rattle.std.specs.Prelude.{◌≡◌, [], ◌∷◌, ◌++◌, IfOk};
ghost use Rattle.jr_parse_laws.specs.Parsers.{Reads, kinds, many};
ghost use Rattle.jr_parse_expr.specs.Names.{name_of};
ghost use Rattle.jr_parse_starts.specs.Starts.{next_is};
ghost use Rattle.jr_parse_defs.specs.Begins.{is_import};
ghost use Rattle.jr_parse_defs.specs.Decls as spec;
ghost use Rattle.jr_parse.specs.Importing as begun;

use crate::begin::starts_import;
use crate::lists::name;
use jr_base::{Items, Keyword, Symbol, Text};
use jr_parse_laws::{Cursor, Fault};
use jr_tree::{Import, Name, PackageDecl};
use std::alloc::{AllocError, Global};

/// The package, if one is named (JLS 7.4).
pub fn package_decl(alloc: Global, cursor: &mut Cursor<'_>) -> Result<Option<PackageDecl>, Fault>
    ensures { Reads (λ (p : _). p) (spec.package_decl (kinds cursor.old)) result (kinds cursor.new) }
{
    if cursor.is_at_word(Keyword::Package) {
        cursor.skip();
        let name = name(alloc, cursor)?;
        cursor.expect(Symbol::Semicolon)?;
        return Ok(Some(PackageDecl { name }));
    }
    Ok(None)
}

/// The name of these identifiers.
fn whole_name(before: Items<Text>, last: Text) -> Result<Name, AllocError>
    ensures { IfOk result (λ n. n ≡ name_of (before ++ last ∷ [])) }
{
    let mut parts = before;
    parts.push(last)?;
    Ok(Name { parts })
}

/// An import of one type, behind its name (JLS 7.5.1).
fn single(cursor: &mut Cursor<'_>, name: Name) -> Result<Import, Fault>
    ensures { Reads (λ (i : _). i) (begun.single name (kinds cursor.old)) result (kinds cursor.new) }
{
    cursor.expect(Symbol::Semicolon)?;
    Ok(Import::Single { name })
}

/// An import on demand, behind the star (JLS 7.5.2).
fn on_demand(cursor: &mut Cursor<'_>, name: Name) -> Result<Import, Fault>
    ensures { Reads (λ (i : _). i) (begun.on_demand name (kinds cursor.old)) result (kinds cursor.new) }
{
    cursor.expect(Symbol::Semicolon)?;
    Ok(Import::OnDemand { name })
}

/// An import that is not static, behind the name's first identifier (JLS 7.5.1, 7.5.2).
fn imported(alloc: Global, cursor: &mut Cursor<'_>, head: Text) -> Result<Import, Fault>
    ensures { Reads (λ (i : _). i) (begun.imported [] head (kinds cursor.old)) result (kinds cursor.new) }
{
    let mut before = Items::new(alloc);
    let mut last = head;
    'parts: while cursor.is_at(Symbol::Dot) {
        cursor.skip();
        if cursor.is_at(Symbol::Star) {
            cursor.skip();
            let name = whole_name(before, last)?;
            return on_demand(cursor, name);
        }
        let next = cursor.identifier(alloc)?;
        before.push(last)?;
        last = next;
    }
    let name = whole_name(before, last)?;
    single(cursor, name)
}

/// A static import, behind the member's name (JLS 7.5.3).
fn static_end(cursor: &mut Cursor<'_>, parts: Items<Text>, member: Text) -> Result<Import, Fault>
    ensures { Reads (λ (i : _). i) (begun.static_end parts member (kinds cursor.old)) result (kinds cursor.new) }
{
    if has_no_parts(&parts) {
        return Err(Fault::NoTree);
    }
    cursor.expect(Symbol::Semicolon)?;
    Ok(Import::StaticSingle {
        name: Name { parts },
        member,
    })
}

/// Whether there are no identifiers.
fn has_no_parts(parts: &Items<Text>) -> bool
    ensures { result ≡ begun.has_no_parts parts.now }
{
    matches!(parts.as_slice(), [])
}

/// A static import, behind the name's first identifier (JLS 7.5.3).
fn static_imported(alloc: Global, cursor: &mut Cursor<'_>, head: Text) -> Result<Import, Fault>
    ensures { Reads (λ (i : _). i) (begun.static_imported [] head (kinds cursor.old)) result (kinds cursor.new) }
{
    let mut before = Items::new(alloc);
    let mut last = head;
    'parts: while cursor.is_at(Symbol::Dot) {
        cursor.skip();
        let next = cursor.identifier(alloc)?;
        before.push(last)?;
        last = next;
    }
    static_end(cursor, before, last)
}

/// An import (JLS 7.5).
#[tactic(auto, unfolding(jr_parse_defs::specs::Decls::import_decl))]
fn import_decl(alloc: Global, cursor: &mut Cursor<'_>) -> Result<Import, Fault>
    ensures { Reads (λ (i : _). i) (spec.import_decl (kinds cursor.old)) result (kinds cursor.new) }
{
    cursor.expect_word(Keyword::Import)?;
    if cursor.is_at_word(Keyword::Static) {
        cursor.skip();
        let head = cursor.identifier(alloc)?;
        return static_imported(alloc, cursor, head);
    }
    let head = cursor.identifier(alloc)?;
    imported(alloc, cursor, head)
}

/// Imports, as long as one begins.
pub fn imports(alloc: Global, cursor: &mut Cursor<'_>) -> Result<Items<Import>, Fault>
    ensures { Reads (λ (all : _). all) (many (next_is is_import) spec.import_decl (kinds cursor.old)) result (kinds cursor.new) }
{
    let mut all = Items::new(alloc);
    'imports: while starts_import(cursor) {
        let next = import_decl(alloc, cursor)?;
        all.push(next)?;
    }
    Ok(all)
}
