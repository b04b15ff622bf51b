// Compilation units (JLS 7.3).
ghost use Rattle.std.specs.Prelude.{◌≡◌, map};
ghost use Rattle.jr_tree.specs.Mirror.Decls.{plain_decl, plain_unit};
ghost use Rattle.jr_parse_laws.specs.Parsers.{Reads, kinds, many};
ghost use Rattle.jr_parse_defs.specs.Begins as begins;
ghost use Rattle.jr_parse_defs.specs.Decls as spec;
ghost use Rattle.jr_parse.specs.Begun as begun;

use crate::begin::starts_decl;
use crate::declaration::decl;
use crate::imports::{imports, package_decl};
use crate::lists::modifiers;
use jr_base::Items;
use jr_parse_laws::{Cursor, Fault};
use jr_tree::{TypeDecl, Unit};
use std::alloc::Global;

/// A declaration of a type with its modifiers.
fn whole_decl(alloc: Global, cursor: &mut Cursor<'_>, room: usize) -> Result<TypeDecl, Fault>
    ensures { Reads plain_decl (begun.whole_decl room (kinds cursor.old)) result (kinds cursor.new) }
{
    let mods = modifiers(alloc, cursor)?;
    decl(alloc, cursor, room, mods)
}

/// Declarations of types, as long as one begins.
fn decls(alloc: Global, cursor: &mut Cursor<'_>, room: usize) -> Result<Items<TypeDecl>, Fault>
    ensures { Reads (λ (all : _). map plain_decl all) (many begins.starts_decl (begun.whole_decl room) (kinds cursor.old)) result (kinds cursor.new) }
{
    let mut all = Items::new(alloc);
    'decls: while starts_decl(cursor) {
        let next = whole_decl(alloc, cursor, room)?;
        all.push(next)?;
    }
    Ok(all)
}

/// A unit of at most so many levels, which is all the tokens.
#[tactic(auto, unfolding(jr_parse_defs::specs::Decls::unit))]
pub fn whole_unit(alloc: Global, cursor: &mut Cursor<'_>, room: usize) -> Result<Unit, Fault>
    ensures { Reads plain_unit (spec.unit room (kinds cursor.old)) result (kinds cursor.new) }
{
    let declared = package_decl(alloc, cursor)?;
    let imports = imports(alloc, cursor)?;
    let types = decls(alloc, cursor, room)?;
    match cursor.rest {
        [] => Ok(Unit {
            package: declared,
            imports,
            types,
        }),
        _ => Err(Fault::NoTree),
    }
}
