// The labels of declarations and units (JLS 7, 8, 9).
ghost use Rattle.std.specs.Prelude.{◌≡◌};
ghost use Rattle.std.specs.Option.{option_map};
ghost use Rattle.jr_base.specs.declared.text.Text.{Text};
ghost use Rattle.jr_tree.specs.Mirror.Decls as m;
ghost use Rattle.jr_tree.specs.Mirror.Stmts as s;
ghost use Rattle.jr_index.specs.Events as e;
ghost use Rattle.jr_index.specs.Writing.{Adds};
ghost use Rattle.jr_tree.specs.Decls as d;
ghost use Rattle.jr_tree.specs.Stmts as l;
ghost use Rattle.jr_tree.specs.declared.label.NameKind.TheVariants as kind;
ghost use Rattle.jr_tree.specs.declared.label.NamePlace.TheVariants as place;

use crate::expr::add_any_init;
use crate::stmt::add_block;
use crate::words::{
    add_imports, add_name, add_package, add_params, add_result, add_type, add_type_names, is_void,
    modifiers_of,
};
use crate::writer::RowWriter;
use jr_tree::{
    Block, Declarator, Label, Member, Modifier, Name, NameKind, NamePlace, Stmt, TypeDecl, Unit,
};

fn add_field(out: &mut RowWriter, mods: &[Modifier], field: &Declarator)
    ensures { Adds out.old out.new (e.field_events mods.now (s.plain_declarator field.now)) }
{
    let label = Label::Field {
        modifiers: modifiers_of(mods),
        dims: field.dims,
    };
    out.open(label, &field.name);
    out.own();
    out.pass_brackets(field.dims);
    add_any_init(out, &field.init);
    out.close();
}

fn add_fields(out: &mut RowWriter, mods: &[Modifier], fields: &[Declarator])
    ensures { Adds out.old out.new (e.fields_events 0 mods.now (s.plain_declarators fields.now)) }
{
    let mut commas = 0;
    for field in fields {
        out.pass(commas);
        add_field(out, mods, field);
        commas = 1;
    }
}

/// Whether a constructor's body begins with a call of a constructor (JLS 8.8.7.1).
fn calls_first(body: &Block) -> bool
    ensures { result ≡ l.calls_first (s.plain_block body.now) }
{
    matches!(body.stmts.as_slice(), [Stmt::CtorCall { .. }, ..])
}

/// The call of `super()` where none is written (JLS 8.8.7). It stands at the name of the constructor.
#[tactic(auto, using(crate::proofs::Adding::adds_two))]
fn add_implicit_call(out: &mut RowWriter, is_written: bool)
    ensures { Adds out.old out.new (e.implicit_call is_written) }
{
    if is_written {
        return;
    }
    out.begin(Label::ImplicitCall);
    out.close();
}

/// The constructor of a class in which none is written (JLS 8.8.9). It stands at the name of the class.
#[tactic(auto, using(crate::proofs::Adding::adds_two))]
fn add_default_constructor(out: &mut RowWriter, is_written: bool)
    ensures { Adds out.old out.new (e.default_constructor is_written) }
{
    if is_written {
        return;
    }
    out.begin(Label::DefaultConstructor);
    add_implicit_call(out, false);
    out.close();
}

fn has_constructor(members: &[Member]) -> bool
    ensures { result ≡ d.has_constructor (m.plain_members members.now) }
{
    let mut has = false;
    for member in members {
        has = has || matches!(member, Member::Constructor { .. });
    }
    has
}

/// The body of a method, or the `;` in its place.
fn add_any_block(out: &mut RowWriter, body: &Option<Block>)
    ensures { Adds out.old out.new (e.body_or_semicolon (option_map s.plain_block body.now)) }
{
    match body {
        None => out.pass(1),
        Some(body) => add_block(out, body),
    }
}

fn add_superclass(out: &mut RowWriter, parent: &Option<Name>)
    ensures { Adds out.old out.new (e.superclass_events parent.now) }
{
    if let Some(name) = parent {
        out.pass(1);
        add_name(out, NameKind::Type, NamePlace::Superclass, name);
    }
}

#[cycle(add_decl)]
fn add_decl(out: &mut RowWriter, is_member: bool, decl: &TypeDecl)
    ensures { Adds out.old out.new (e.decl_events is_member (m.plain_decl decl.now)) }
{
    match decl {
        TypeDecl::Class {
            mods,
            name,
            parent,
            faces,
            body,
        } => {
            let modifiers = modifiers_of(mods.as_slice());
            out.open(
                Label::Class {
                    modifiers,
                    is_member,
                },
                name,
            );
            out.pass(mods.as_slice().len());
            out.pass(1);
            out.declare();
            add_superclass(out, parent);
            add_type_names(out, NamePlace::Superinterface, faces.as_slice());
            add_body(out, true, body.as_slice());
            out.close();
        }
        TypeDecl::Interface {
            mods,
            name,
            faces,
            body,
        } => {
            let modifiers = modifiers_of(mods.as_slice());
            out.open(
                Label::Interface {
                    modifiers,
                    is_member,
                },
                name,
            );
            out.pass(mods.as_slice().len());
            out.pass(1);
            out.declare();
            add_type_names(out, NamePlace::Superinterface, faces.as_slice());
            add_body(out, false, body.as_slice());
            out.close();
        }
        TypeDecl::Empty => out.leaf(Label::EmptyDecl { is_member }, 1),
    }
}

/// The body of a type.
#[cycle(add_decl)]
fn add_body(out: &mut RowWriter, is_class: bool, members: &[Member])
    ensures { Adds out.old out.new (e.body_events is_class (m.plain_members members.now)) }
{
    out.begin(Label::Body);
    out.pass(1);
    add_default_constructor(out, !is_class || has_constructor(members));
    add_members(out, members);
    out.pass(1);
    out.close();
}

#[cycle(add_decl)]
fn add_members(out: &mut RowWriter, members: &[Member])
    ensures { Adds out.old out.new (e.members_events (m.plain_members members.now)) }
{
    for member in members {
        add_member(out, member);
    }
}

#[cycle(add_decl)]
fn add_member(out: &mut RowWriter, member: &Member)
    ensures { Adds out.old out.new (e.member_events (m.plain_member member.now)) }
{
    match member {
        Member::Field { mods, ty, decls } => {
            let modifiers = modifiers_of(mods.as_slice());
            out.begin(Label::Fields { modifiers });
            out.pass(mods.as_slice().len());
            add_type(out, ty);
            add_fields(out, mods.as_slice(), decls.as_slice());
            out.pass(1);
            out.close();
        }
        Member::Method {
            mods,
            result_,
            name,
            params,
            thrown,
            body,
        } => {
            let label = Label::Method {
                modifiers: modifiers_of(mods.as_slice()),
                is_void: is_void(result_),
                has_body: body.is_some(),
            };
            out.open(label, name);
            out.pass(mods.as_slice().len());
            add_result(out, result_);
            out.own();
            out.pass(1);
            add_params(out, params.as_slice());
            out.pass(1);
            add_type_names(out, NamePlace::Other, thrown.as_slice());
            add_any_block(out, body);
            out.close();
        }
        Member::Constructor {
            mods,
            name,
            params,
            thrown,
            body,
        } => {
            let modifiers = modifiers_of(mods.as_slice());
            out.open(Label::Constructor { modifiers }, name);
            out.pass(mods.as_slice().len());
            out.declare();
            add_implicit_call(out, calls_first(body));
            out.pass(1);
            add_params(out, params.as_slice());
            out.pass(1);
            add_type_names(out, NamePlace::Other, thrown.as_slice());
            add_block(out, body);
            out.close();
        }
        Member::Init { is_static, body } => {
            out.begin(Label::Initializer {
                is_static: *is_static,
            });
            out.pass_if(*is_static);
            add_block(out, body);
            out.close();
        }
        Member::Nested { decl } => add_decl(out, true, decl),
    }
}

fn add_decls(out: &mut RowWriter, decls: &[TypeDecl])
    ensures { Adds out.old out.new (e.decls_events (m.plain_decls decls.now)) }
{
    for decl in decls {
        add_decl(out, false, decl);
    }
}

pub fn add_unit(out: &mut RowWriter, unit: &Unit)
    ensures { Adds out.old out.new (e.unit_events (m.plain_unit unit.now)) }
{
    out.restart();
    out.begin(Label::Unit);
    add_package(out, &unit.package);
    add_imports(out, unit.imports.as_slice());
    add_decls(out, unit.types.as_slice());
    out.close();
}
