// Declarations of types and members of at most so many levels (JLS 7.6, 8, 9).
ghost use Rattle.std.specs.Prelude.{◌≡◌, ◌<◌, if◌then◌else◌};
ghost use Rattle.jr_tree.specs.Mirror.Decls.{plain_decl, plain_member};
ghost use Rattle.jr_parse_laws.specs.declared.fault.Fault.TheVariants.{NoTree, TooDeep};
ghost use Rattle.jr_parse_laws.specs.Parsers.{Reads, kinds};
ghost use Rattle.jr_parse_defs.specs.Decls as spec;
ghost use Rattle.jr_parse.specs.Begun as begun;

use crate::begin::{DeclStart, decl_start, starts_decl, starts_member};
use crate::grammar::Grammar;
use crate::lists::{is_bare, modifiers};
use crate::member::own_member;
use jr_base::Items;
use jr_parse_laws::{Cursor, Fault};
use jr_tree::{Member, Modifier, TypeDecl};
use std::alloc::Global;

/// The fault where no level is left: too deep if a tree begins here.
fn lowest(begins: bool) -> Fault
    ensures { result ≡ (if begins then TooDeep else NoTree) }
{
    if begins {
        Fault::TooDeep
    } else {
        Fault::NoTree
    }
}

/// Whether a declaration of a type goes on behind the modifiers.
fn is_nested(mods: &Items<Modifier>, cursor: &Cursor<'_>) -> bool
    ensures { result ≡ begun.is_nested mods.now (begun.decl_start_at (kinds cursor.now)) }
{
    match decl_start(cursor) {
        Some(DeclStart::Class | DeclStart::Interface) => true,
        Some(DeclStart::Semicolon) => is_bare(mods),
        None => false,
    }
}

/// A declaration of a type of at most so many levels, behind its modifiers (JLS 7.6).
#[cycle(declaration)]
pub fn decl(
    alloc: Global,
    cursor: &mut Cursor<'_>,
    room: usize,
    mods: Items<Modifier>,
) -> Result<TypeDecl, Fault>
    ensures { Reads plain_decl (spec.decl room mods (kinds cursor.old)) result (kinds cursor.new) }
{
    if room == 0 {
        return Err(lowest(starts_decl(cursor)));
    }
    Grammar {
        alloc,
        room: room - 1,
        member,
    }
    .type_decl(cursor, mods)
}

/// A member that is a declaration of a type, which is one level below (JLS 8.5, 9.5).
#[cycle(declaration)]
fn nested(
    alloc: Global,
    cursor: &mut Cursor<'_>,
    room: usize,
    mods: Items<Modifier>,
) -> Result<Member, Fault>
    ensures { Reads plain_member (begun.nested room (spec.decl room) mods (kinds cursor.old)) result (kinds cursor.new) }
{
    if room < 1 {
        return Err(Fault::TooDeep);
    }
    let decl = decl(alloc, cursor, room, mods)?;
    Ok(Member::Nested { decl })
}

/// A member, behind its modifiers (JLS 8.1.6, 9.1.4).
#[cycle(declaration)]
fn begun_member(
    alloc: Global,
    cursor: &mut Cursor<'_>,
    room: usize,
    mods: Items<Modifier>,
) -> Result<Member, Fault>
    requires { room < usize.MAX }
    ensures { Reads plain_member (begun.new_member room (spec.decl room) mods (kinds cursor.old)) result (kinds cursor.new) }
{
    if is_nested(&mods, cursor) {
        return nested(alloc, cursor, room, mods);
    }
    own_member(alloc, cursor, room, mods)
}

/// A member of at most so many levels.
#[cycle(declaration)]
fn member(alloc: Global, cursor: &mut Cursor<'_>, room: usize) -> Result<Member, Fault>
    ensures { Reads plain_member (spec.member room (kinds cursor.old)) result (kinds cursor.new) }
{
    if room == 0 {
        return Err(lowest(starts_member(cursor)));
    }
    let mods = modifiers(alloc, cursor)?;
    begun_member(alloc, cursor, room - 1, mods)
}
