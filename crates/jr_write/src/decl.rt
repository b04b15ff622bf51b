// Tokens of declarations and units.
ghost use Rattle.std.specs.Prelude.{◌≡◌, ◌++◌, OnOk};
ghost use Rattle.std.specs.Option.{option_map};
ghost use Rattle.jr_base.specs.declared.kind.Keyword.TheVariants as k;
ghost use Rattle.jr_tree.specs.Mirror.Decls as d;
ghost use Rattle.jr_tree.specs.Mirror.Stmts as s;
ghost use Rattle.jr_tree.specs.Tokens as t;
ghost use Rattle.jr_tree.specs.Words as w;

use crate::stmt::{write_block, write_declarators};
use crate::words::{
    ident, mark, word, word_if, write_imports, write_modifiers, write_names_after, write_package,
    write_params, write_parent, write_result, write_type,
};
use jr_base::{Items, Keyword, Kind, OutOfMemory, Symbol, Text};
use jr_tree::{Block, Declarator, Member, Modifier, Name, Param, TypeDecl, TypeUse, Unit};
use std::alloc::Global;

fn write_body(alloc: Global, out: &mut Vec<Kind>, body: &Option<Block>) -> Result<(), OutOfMemory>
    ensures { OnOk result (out.new.items ≡ out.old.items ++ t.body_tokens (option_map s.plain_block body.now)) }
{
    match body {
        None => mark(out, Symbol::Semicolon),
        Some(body) => write_block(alloc, out, body),
    }
}

/// The modifiers of a declaration, its word and its name.
fn write_named(
    alloc: Global,
    out: &mut Vec<Kind>,
    mods: &Items<Modifier>,
    keyword: Keyword,
    name: &Text,
) -> Result<(), OutOfMemory>
    ensures { OnOk result (out.new.items ≡ out.old.items ++ w.modifiers_tokens mods.now ++ w.word keyword ++ w.ident name.now) }
{
    write_modifiers(out, mods.as_slice())?;
    word(out, keyword)?;
    ident(alloc, out, name)
}

/// What a class extends and implements.
fn write_parents(
    alloc: Global,
    out: &mut Vec<Kind>,
    parent: &Option<Name>,
    faces: &Items<Name>,
) -> Result<(), OutOfMemory>
    ensures { OnOk result (out.new.items ≡ out.old.items ++ w.parent_tokens parent.now ++ w.names_after k.Implements faces.now) }
{
    write_parent(alloc, out, parent)?;
    write_names_after(alloc, out, Keyword::Implements, faces.as_slice())
}

fn write_field(
    alloc: Global,
    out: &mut Vec<Kind>,
    mods: &Items<Modifier>,
    ty: &TypeUse,
    decls: &Items<Declarator>,
) -> Result<(), OutOfMemory>
    ensures { OnOk result (out.new.items ≡ out.old.items ++ t.member_tokens (d.Field mods.now ty.now (s.plain_declarators decls.now))) }
{
    write_modifiers(out, mods.as_slice())?;
    write_type(alloc, out, ty)?;
    write_declarators(alloc, out, decls.as_slice())?;
    mark(out, Symbol::Semicolon)
}

/// The name of a method or a constructor, its parameters and what it throws.
fn write_signature(
    alloc: Global,
    out: &mut Vec<Kind>,
    name: &Text,
    params: &Items<Param>,
    thrown: &Items<Name>,
) -> Result<(), OutOfMemory>
    ensures { OnOk result (out.new.items ≡ out.old.items ++ w.ident name.now ++ w.params_tokens params.now ++ w.names_after k.Throws thrown.now) }
{
    ident(alloc, out, name)?;
    write_params(alloc, out, params.as_slice())?;
    write_names_after(alloc, out, Keyword::Throws, thrown.as_slice())
}

#[cycle(write_decl)]
fn write_decl(alloc: Global, out: &mut Vec<Kind>, decl: &TypeDecl) -> Result<(), OutOfMemory>
    ensures { OnOk result (out.new.items ≡ out.old.items ++ t.decl_tokens (d.plain_decl decl.now)) }
{
    match decl {
        TypeDecl::Class {
            mods,
            name,
            parent,
            faces,
            body,
        } => {
            write_named(alloc, out, mods, Keyword::Class, name)?;
            write_parents(alloc, out, parent, faces)?;
            write_members(alloc, out, body.as_slice())
        }
        TypeDecl::Interface {
            mods,
            name,
            faces,
            body,
        } => {
            write_named(alloc, out, mods, Keyword::Interface, name)?;
            write_names_after(alloc, out, Keyword::Extends, faces.as_slice())?;
            write_members(alloc, out, body.as_slice())
        }
        TypeDecl::Empty => mark(out, Symbol::Semicolon),
    }
}

#[cycle(write_decl)]
fn write_members(alloc: Global, out: &mut Vec<Kind>, members: &[Member]) -> Result<(), OutOfMemory>
    ensures { OnOk result (out.new.items ≡ out.old.items ++ w.in_braces (t.members_tokens (d.plain_members members.now))) }
{
    mark(out, Symbol::OpenBrace)?;
    for member in members {
        write_member(alloc, out, member)?;
    }
    mark(out, Symbol::CloseBrace)
}

#[cycle(write_decl)]
fn write_member(alloc: Global, out: &mut Vec<Kind>, member: &Member) -> Result<(), OutOfMemory>
    ensures { OnOk result (out.new.items ≡ out.old.items ++ t.member_tokens (d.plain_member member.now)) }
{
    match member {
        Member::Field { mods, ty, decls } => write_field(alloc, out, mods, ty, decls),
        Member::Method {
            mods,
            result_,
            name,
            params,
            thrown,
            body,
        } => {
            write_modifiers(out, mods.as_slice())?;
            write_result(alloc, out, result_)?;
            write_signature(alloc, out, name, params, thrown)?;
            write_body(alloc, out, body)
        }
        Member::Constructor {
            mods,
            name,
            params,
            thrown,
            body,
        } => {
            write_modifiers(out, mods.as_slice())?;
            write_signature(alloc, out, name, params, thrown)?;
            write_block(alloc, out, body)
        }
        Member::Init { is_static, body } => {
            word_if(out, *is_static, Keyword::Static)?;
            write_block(alloc, out, body)
        }
        Member::Nested { decl } => write_decl(alloc, out, decl),
    }
}

fn write_decls(alloc: Global, out: &mut Vec<Kind>, decls: &[TypeDecl]) -> Result<(), OutOfMemory>
    ensures { OnOk result (out.new.items ≡ out.old.items ++ t.decls_tokens (d.plain_decls decls.now)) }
{
    for decl in decls {
        write_decl(alloc, out, decl)?;
    }
    Ok(())
}

pub fn write_unit(alloc: Global, out: &mut Vec<Kind>, unit: &Unit) -> Result<(), OutOfMemory>
    ensures { OnOk result (out.new.items ≡ out.old.items ++ t.tokens_of unit.now) }
{
    write_package(alloc, out, &unit.package)?;
    write_imports(alloc, out, unit.imports.as_slice())?;
    write_decls(alloc, out, unit.types.as_slice())
}
