// Tests of declarations and units.
ghost use Rattle.std.specs.Prelude.{◌≡◌, true};
ghost use Rattle.std.specs.List.{list_all};
ghost use Rattle.std.specs.Option.{option_map, option_map_or};
ghost use Rattle.jr_tree.specs.Mirror.Decls as m;
ghost use Rattle.jr_tree.specs.Mirror.Stmts as s;
ghost use Rattle.jr_shape.specs.Decls as t;
ghost use Rattle.jr_shape.specs.Stmts as e;

use crate::parts::{
    are_shaped_imports, are_shaped_names, are_shaped_params, is_shaped_any_name,
    is_shaped_any_package, is_shaped_result,
};
use crate::stmt::{are_shaped_variables, is_shaped_block, is_shaped_ctor_body};
use jr_tree::{Block, Member, TypeDecl, Unit};

fn is_shaped_any_block(body: &Option<Block>) -> bool
    ensures { result ≡ option_map_or e.is_shaped_block (option_map s.plain_block body.now) true }
{
    match body {
        None => true,
        Some(body) => is_shaped_block(body),
    }
}

#[cycle(is_shaped_decl)]
fn is_shaped_decl(decl: &TypeDecl) -> bool
    ensures { result ≡ t.is_shaped_decl (m.plain_decl decl.now) }
{
    match decl {
        TypeDecl::Class {
            parent,
            faces,
            body,
            ..
        } => {
            is_shaped_any_name(parent)
                && are_shaped_names(faces.as_slice())
                && are_shaped_members(body.as_slice())
        }
        TypeDecl::Interface { faces, body, .. } => {
            are_shaped_names(faces.as_slice()) && are_shaped_members(body.as_slice())
        }
        TypeDecl::Empty => true,
    }
}

#[cycle(is_shaped_decl)]
fn is_shaped_member(member: &Member) -> bool
    ensures { result ≡ t.is_shaped_member (m.plain_member member.now) }
{
    match member {
        Member::Field { ty, decls, .. } => are_shaped_variables(ty, decls.as_slice()),
        Member::Method {
            result_,
            params,
            thrown,
            body,
            ..
        } => {
            is_shaped_result(result_)
                && are_shaped_params(params.as_slice())
                && are_shaped_names(thrown.as_slice())
                && is_shaped_any_block(body)
        }
        Member::Constructor {
            params,
            thrown,
            body,
            ..
        } => {
            are_shaped_params(params.as_slice())
                && are_shaped_names(thrown.as_slice())
                && is_shaped_ctor_body(body)
        }
        Member::Init { body, .. } => is_shaped_block(body),
        Member::Nested { decl } => is_shaped_decl(decl),
    }
}

#[cycle(is_shaped_decl)]
fn are_shaped_members(members: &[Member]) -> bool
    ensures { result ≡ t.are_shaped_members (m.plain_members members.now) }
{
    let mut shaped = true;
    for member in members {
        shaped = shaped && is_shaped_member(member);
    }
    shaped
}

fn are_shaped_decls(decls: &[TypeDecl]) -> bool
    ensures { result ≡ list_all t.is_shaped_decl (m.plain_decls decls.now) }
{
    let mut shaped = true;
    for decl in decls {
        shaped = shaped && is_shaped_decl(decl);
    }
    shaped
}

pub fn is_shaped_unit(unit: &Unit) -> bool
    ensures { result ≡ t.is_shaped_unit (m.plain_unit unit.now) }
{
    is_shaped_any_package(&unit.package)
        && are_shaped_imports(unit.imports.as_slice())
        && are_shaped_decls(unit.types.as_slice())
}
