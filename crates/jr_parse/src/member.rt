// Members that are no types, behind their modifiers (JLS 8.3, 8.4, 8.6 to 8.8, 9.4).
ghost use Rattle.std.specs.Prelude.{◌≡◌, ◌<◌};
ghost use Rattle.std.specs.Option.{option_map};
ghost use Rattle.jr_tree.specs.Mirror.Decls.{plain_member};
ghost use Rattle.jr_tree.specs.Mirror.Stmts.{plain_block};
ghost use Rattle.jr_parse_laws.specs.Parsers.{Reads, kinds};
ghost use Rattle.jr_parse_defs.specs.Decls as spec;
ghost use Rattle.jr_parse.specs.Begun as begun;

use crate::begin::{MemberStart, member_start};
use crate::lists::{is_bare, is_static, names_after, params};
use jr_base::{Items, Keyword, Symbol, Text};
use jr_parse_expr::{dims, name_after, type_use};
use jr_parse_laws::{Cursor, Fault};
use jr_parse_stmt::{body, ctor_body, declarators_after};
use jr_tree::{Base, Block, Member, Modifier, ResultType, TypeUse};
use std::alloc::Global;

/// The body of a method, or the semicolon in its place (JLS 8.4.7).
fn method_body(alloc: Global, cursor: &mut Cursor<'_>, room: usize) -> Result<Option<Block>, Fault>
    requires { room < usize.MAX }
    ensures { Reads (option_map plain_block) (spec.method_body room (spec.decl room) (kinds cursor.old)) result (kinds cursor.new) }
{
    if cursor.is_at(Symbol::Semicolon) {
        cursor.skip();
        return Ok(None);
    }
    Ok(Some(body(alloc, cursor, room)?))
}

/// A method, behind its name (JLS 8.4, 9.4).
#[tactic(auto, unfolding(jr_parse_defs::specs::Decls::method))]
fn method(
    alloc: Global,
    cursor: &mut Cursor<'_>,
    room: usize,
    mods: Items<Modifier>,
    gives: ResultType,
    name: Text,
) -> Result<Member, Fault>
    requires { room < usize.MAX }
    ensures { Reads plain_member (spec.method room (spec.decl room) mods gives name (kinds cursor.old)) result (kinds cursor.new) }
{
    let params = match params(alloc, cursor) {
        Ok(params) => params,
        Err(fault) => {
            drop(gives);
            return Err(fault);
        }
    };
    let thrown = match names_after(alloc, cursor, Keyword::Throws) {
        Ok(thrown) => thrown,
        Err(fault) => {
            drop(gives);
            return Err(fault);
        }
    };
    let body = match method_body(alloc, cursor, room) {
        Ok(body) => body,
        Err(fault) => {
            drop(gives);
            return Err(fault);
        }
    };
    Ok(Member::Method {
        mods,
        result_: gives,
        name,
        params,
        thrown,
        body,
    })
}

/// A constructor, behind its name (JLS 8.8).
#[tactic(auto, unfolding(jr_parse_defs::specs::Decls::constructor))]
fn constructor(
    alloc: Global,
    cursor: &mut Cursor<'_>,
    room: usize,
    mods: Items<Modifier>,
    name: Text,
) -> Result<Member, Fault>
    requires { room < usize.MAX }
    ensures { Reads plain_member (spec.constructor room (spec.decl room) mods name (kinds cursor.old)) result (kinds cursor.new) }
{
    let params = params(alloc, cursor)?;
    let thrown = names_after(alloc, cursor, Keyword::Throws)?;
    let body = ctor_body(alloc, cursor, room)?;
    Ok(Member::Constructor {
        mods,
        name,
        params,
        thrown,
        body,
    })
}

/// Fields, behind the name of the first (JLS 8.3, 9.3).
#[tactic(auto, unfolding(jr_parse_defs::specs::Decls::field))]
fn field(
    alloc: Global,
    cursor: &mut Cursor<'_>,
    room: usize,
    mods: Items<Modifier>,
    ty: TypeUse,
    name: Text,
) -> Result<Member, Fault>
    requires { room < usize.MAX }
    ensures { Reads plain_member (spec.field room (spec.decl room) mods ty name (kinds cursor.old)) result (kinds cursor.new) }
{
    let decls = match declarators_after(alloc, cursor, room, name) {
        Ok(decls) => decls,
        Err(fault) => {
            drop(ty);
            return Err(fault);
        }
    };
    if let Err(fault) = cursor.expect(Symbol::Semicolon) {
        drop(ty);
        return Err(fault);
    }
    Ok(Member::Field { mods, ty, decls })
}

/// A method or fields, behind the type.
#[tactic(auto, unfolding(jr_parse_defs::specs::Decls::typed))]
fn typed(
    alloc: Global,
    cursor: &mut Cursor<'_>,
    room: usize,
    mods: Items<Modifier>,
    ty: TypeUse,
) -> Result<Member, Fault>
    requires { room < usize.MAX }
    ensures { Reads plain_member (spec.typed room (spec.decl room) mods ty (kinds cursor.old)) result (kinds cursor.new) }
{
    let name = match cursor.identifier(alloc) {
        Ok(name) => name,
        Err(fault) => {
            drop(ty);
            return Err(fault);
        }
    };
    if cursor.is_at(Symbol::OpenParen) {
        return method(alloc, cursor, room, mods, ResultType::Of { ty }, name);
    }
    field(alloc, cursor, room, mods, ty, name)
}

/// A method that gives nothing, behind `void`.
fn void_method(
    alloc: Global,
    cursor: &mut Cursor<'_>,
    room: usize,
    mods: Items<Modifier>,
) -> Result<Member, Fault>
    requires { room < usize.MAX }
    ensures { Reads plain_member (begun.void_method room (spec.decl room) mods (kinds cursor.old)) result (kinds cursor.new) }
{
    let name = cursor.identifier(alloc)?;
    method(alloc, cursor, room, mods, ResultType::Void, name)
}

/// A constructor, a method or fields, behind an identifier.
#[tactic(auto, unfolding(jr_parse_defs::specs::Decls::identified))]
fn identified(
    alloc: Global,
    cursor: &mut Cursor<'_>,
    room: usize,
    mods: Items<Modifier>,
    head: Text,
) -> Result<Member, Fault>
    requires { room < usize.MAX }
    ensures { Reads plain_member (spec.identified room (spec.decl room) mods head (kinds cursor.old)) result (kinds cursor.new) }
{
    if cursor.is_at(Symbol::OpenParen) {
        return constructor(alloc, cursor, room, mods, head);
    }
    let name = name_after(alloc, cursor, head)?;
    let dims = dims(cursor)?;
    let ty = TypeUse {
        base: Base::Named(name),
        dims,
    };
    typed(alloc, cursor, room, mods, ty)
}

/// An initializer (JLS 8.6, 8.7).
fn initializer(
    alloc: Global,
    cursor: &mut Cursor<'_>,
    room: usize,
    is_static: bool,
) -> Result<Member, Fault>
    requires { room < usize.MAX }
    ensures { Reads plain_member (spec.initializer_block room (spec.decl room) is_static (kinds cursor.old)) result (kinds cursor.new) }
{
    let body = body(alloc, cursor, room)?;
    Ok(Member::Init { is_static, body })
}

/// An initializer, behind its modifiers: none, or `static`.
fn braced(
    alloc: Global,
    cursor: &mut Cursor<'_>,
    room: usize,
    mods: Items<Modifier>,
) -> Result<Member, Fault>
    requires { room < usize.MAX }
    ensures { Reads plain_member (begun.braced room (spec.decl room) mods (kinds cursor.old)) result (kinds cursor.new) }
{
    if is_bare(&mods) {
        return initializer(alloc, cursor, room, false);
    }
    if is_static(&mods) {
        return initializer(alloc, cursor, room, true);
    }
    Err(Fault::NoTree)
}

/// A member that is no type, behind its modifiers.
pub fn own_member(
    alloc: Global,
    cursor: &mut Cursor<'_>,
    room: usize,
    mods: Items<Modifier>,
) -> Result<Member, Fault>
    requires { room < usize.MAX }
    ensures { Reads plain_member (begun.own_member room (spec.decl room) mods (kinds cursor.old)) result (kinds cursor.new) }
{
    match member_start(cursor) {
        Some(MemberStart::Brace) => braced(alloc, cursor, room, mods),
        Some(MemberStart::Void) => {
            cursor.skip();
            void_method(alloc, cursor, room, mods)
        }
        Some(MemberStart::Name) => {
            let head = cursor.identifier(alloc)?;
            identified(alloc, cursor, room, mods, head)
        }
        Some(MemberStart::Primitive) => {
            let ty = type_use(alloc, cursor)?;
            typed(alloc, cursor, room, mods, ty)
        }
        None => Err(Fault::NoTree),
    }
}
