// Depth of declarations and units.
ghost use Rattle.std.specs.Prelude.{◌≡◌, true};
ghost use Rattle.std.specs.List.{list_all};
ghost use Rattle.std.specs.Option.{option_map, option_map_or};
ghost use Rattle.jr_tree.specs.Mirror.Decls as m;
ghost use Rattle.jr_tree.specs.Mirror.Stmts as s;
ghost use Rattle.jr_depth.specs.Within as t;

use crate::stmt::{are_declarators_within, is_block_within};
use jr_tree::{Block, Member, TypeDecl, Unit};

fn is_any_block_within(most: usize, body: &Option<Block>) -> bool
    ensures { result ≡ option_map_or (t.block_within most) (option_map s.plain_block body.now) true }
{
    match body {
        None => true,
        Some(body) => is_block_within(most, body),
    }
}

#[cycle(is_decl_within)]
fn is_decl_within(most: usize, decl: &TypeDecl) -> bool
    ensures { result ≡ t.decl_within most (m.plain_decl decl.now) }
{
    0 < most && are_decl_parts_within(most - 1, decl)
}

#[cycle(is_decl_within)]
fn are_decl_parts_within(most: usize, decl: &TypeDecl) -> bool
    ensures { result ≡ t.decl_parts_within most (m.plain_decl decl.now) }
{
    match decl {
        TypeDecl::Class { body, .. } | TypeDecl::Interface { body, .. } => {
            are_members_within(most, body.as_slice())
        }
        TypeDecl::Empty => true,
    }
}

#[cycle(is_decl_within)]
fn is_member_within(most: usize, member: &Member) -> bool
    ensures { result ≡ t.member_within most (m.plain_member member.now) }
{
    0 < most && are_member_parts_within(most - 1, member)
}

#[cycle(is_decl_within)]
fn are_member_parts_within(most: usize, member: &Member) -> bool
    ensures { result ≡ t.member_parts_within most (m.plain_member member.now) }
{
    match member {
        Member::Field { decls, .. } => are_declarators_within(most, decls.as_slice()),
        Member::Method { body, .. } => is_any_block_within(most, body),
        Member::Constructor { body, .. } | Member::Init { body, .. } => is_block_within(most, body),
        Member::Nested { decl } => is_decl_within(most, decl),
    }
}

#[cycle(is_decl_within)]
fn are_members_within(most: usize, members: &[Member]) -> bool
    ensures { result ≡ t.members_within most (m.plain_members members.now) }
{
    let mut within = true;
    for member in members {
        within = within && is_member_within(most, member);
    }
    within
}

fn are_decls_within(most: usize, decls: &[TypeDecl]) -> bool
    ensures { result ≡ list_all (t.decl_within most) (m.plain_decls decls.now) }
{
    let mut within = true;
    for decl in decls {
        within = within && is_decl_within(most, decl);
    }
    within
}

pub fn is_unit_within(most: usize, unit: &Unit) -> bool
    ensures { result ≡ t.unit_within most (m.plain_unit unit.now) }
{
    are_decls_within(most, unit.types.as_slice())
}
