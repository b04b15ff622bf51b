// The search over declarations and units.
ghost use Rattle.std.specs.Prelude.{◌≡◌};
ghost use Rattle.std.specs.Option.{option_map};
ghost use Rattle.jr_tree.specs.Mirror.Stmts as s;
ghost use Rattle.jr_tree.specs.Mirror.Decls as d;
ghost use Rattle.jr_tree.specs.Nodes as n;
ghost use Rattle.jr_nodes.specs.Progress.{go_on, progress};

use crate::node_ref::NodeRef;
use crate::search::{Search, step};
use crate::stmt::{in_block, in_variables};
use crate::words::{in_any_name, in_imports, in_names, in_package, in_params, in_result};
use jr_tree::{Block, Member, TypeDecl, Unit};

fn in_body<'a>(state: Search<'a>, body: &'a Option<Block>) -> Search<'a>
    ensures { progress result ≡ go_on (n.if_some n.block_nodes (option_map s.plain_block body.now)) (progress state.entry) }
{
    match body {
        None => state,
        Some(body) => in_block(state, body),
    }
}

#[cycle(in_decl)]
fn in_decl<'a>(state: Search<'a>, decl: &'a TypeDecl) -> Search<'a>
    ensures { progress result ≡ go_on (n.decl_nodes (d.plain_decl decl.now)) (progress state.entry) }
{
    let state = step(state, NodeRef::TypeDecl(decl));
    match decl {
        TypeDecl::Class {
            parent,
            faces,
            body,
            ..
        } => {
            let state = in_names(in_any_name(state, parent), faces.as_slice());
            in_members(state, body.as_slice())
        }
        TypeDecl::Interface { faces, body, .. } => {
            in_members(in_names(state, faces.as_slice()), body.as_slice())
        }
        TypeDecl::Empty => state,
    }
}

#[cycle(in_decl)]
fn in_members<'a>(mut state: Search<'a>, members: &'a [Member]) -> Search<'a>
    ensures { progress result ≡ go_on (n.members_nodes (d.plain_members members.now)) (progress state.entry) }
{
    for member in members {
        state = in_member(state, member);
    }
    state
}

#[cycle(in_decl)]
fn in_member<'a>(state: Search<'a>, member: &'a Member) -> Search<'a>
    ensures { progress result ≡ go_on (n.member_nodes (d.plain_member member.now)) (progress state.entry) }
{
    let state = step(state, NodeRef::Member(member));
    match member {
        Member::Field { ty, decls, .. } => in_variables(state, ty, decls.as_slice()),
        Member::Method {
            result_,
            params,
            thrown,
            body,
            ..
        } => {
            let state = in_params(in_result(state, result_), params.as_slice());
            in_body(in_names(state, thrown.as_slice()), body)
        }
        Member::Constructor {
            params,
            thrown,
            body,
            ..
        } => {
            let state = in_names(in_params(state, params.as_slice()), thrown.as_slice());
            in_block(state, body)
        }
        Member::Init { body, .. } => in_block(state, body),
        Member::Nested { decl } => in_decl(state, decl),
    }
}

fn in_decls<'a>(mut state: Search<'a>, decls: &'a [TypeDecl]) -> Search<'a>
    ensures { progress result ≡ go_on (n.each n.decl_nodes (d.plain_decls decls.now)) (progress state.entry) }
{
    for decl in decls {
        state = in_decl(state, decl);
    }
    state
}

/// Over all nodes of a unit.
pub fn in_unit<'a>(state: Search<'a>, unit: &'a Unit) -> Search<'a>
    ensures { progress result ≡ go_on (n.nodes unit.now) (progress state.entry) }
{
    let state = in_package(step(state, NodeRef::Unit(unit)), &unit.package);
    in_decls(
        in_imports(state, unit.imports.as_slice()),
        unit.types.as_slice(),
    )
}
