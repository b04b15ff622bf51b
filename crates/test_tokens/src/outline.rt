// The nodes of a tree in preorder, a word or two for each; numbers behind a slash count the parts that stand in lists.
use jr_base::{Items, Kind, NodeId, Text};
use jr_nodes::{NodeRef, node};
use jr_tree::{
    Base, Declarator, Expr, ForInit, Group, Import, InitList, Member, Name, Primitive, Receiver,
    Stmt, SwitchLabel, ThisOrSuper, TypeDecl, TypeUse, Unit,
};
use std::alloc::{AllocError, Global};
use std::fmt::Write;
use std::str;

/// Which nodes of a unit are outlined.
#[derive(Clone, Copy, PartialEq, Eq)]
pub enum Part {
    /// All
    Whole,
    /// Those behind the first block
    Body,
    /// Those behind the first variable
    Value,
}

fn spelled(text: &Text) -> &str {
    str::from_utf8(text.bytes()).unwrap_or("?")
}

fn name_words(out: &mut String, name: &Name) -> Result<(), AllocError> {
    let mut is_first = true;
    for part in name.parts.as_slice() {
        if !is_first {
            out.push_str(".")?;
        }
        is_first = false;
        out.push_str(spelled(part))?;
    }
    Ok(())
}

fn literal_words(out: &mut String, kind: &Kind) -> Result<(), AllocError> {
    match kind {
        Kind::Word(word) => out.push_str(word.text()),
        Kind::Int(value) => write!(out, "{value}"),
        Kind::IntMin => out.push_str("least"),
        Kind::Long(value) => write!(out, "{value}L"),
        Kind::LongMin => out.push_str("leastL"),
        Kind::Char(unit) => write!(out, "'{unit}'"),
        Kind::Str(_) => out.push_str("text"),
        Kind::Ident(_) | Kind::Sym(_) => out.push_str("?"),
    }
}

fn creation_words(
    out: &mut String,
    sizes: &Items<Expr>,
    more: usize,
    base: &Base,
) -> Result<(), AllocError> {
    let sizes = sizes.len();
    write!(out, "new[]/{sizes}/{more}")?;
    match base {
        Base::Primitive(primitive) => write!(out, " {}", primitive_word(*primitive)),
        Base::Named(_) => Ok(()),
    }
}

fn expr_words(out: &mut String, expr: &Expr) -> Result<(), AllocError> {
    match expr {
        Expr::Assign { op, .. } | Expr::Binary { op, .. } => out.push_str(op.text()),
        Expr::Cond { .. } => out.push_str("?:"),
        Expr::IsA { .. } => out.push_str("instanceof"),
        Expr::Unary { op, .. } => write!(out, "u{}", op.text()),
        Expr::Cast { .. } => out.push_str("cast"),
        Expr::PreStep { op, .. } => write!(out, "{}_", op.text()),
        Expr::PostStep { op, .. } => write!(out, "_{}", op.text()),
        Expr::Lit { kind } => literal_words(out, kind),
        Expr::This { .. } => out.push_str("this"),
        Expr::Paren { .. } => out.push_str("()"),
        Expr::NameExpr { .. } => Ok(()),
        Expr::Select { name, .. } => write!(out, ".{}", spelled(name)),
        Expr::SuperSelect { name } => write!(out, "super.{}", spelled(name)),
        Expr::Index { .. } => out.push_str("[]"),
        Expr::Call { name, args, .. } => write!(out, "{}/{}", spelled(name), args.len()),
        Expr::New { args, .. } => write!(out, "new/{}", args.len()),
        Expr::NewArray {
            base,
            dims,
            more,
            ..
        } => creation_words(out, dims, *more, base),
    }
}

fn label_words(out: &mut String, label: &Option<Text>) -> Result<(), AllocError> {
    match label {
        Some(label) => write!(out, " {}", spelled(label)),
        None => Ok(()),
    }
}

fn stmt_words(out: &mut String, stmt: &Stmt) -> Result<(), AllocError> {
    match stmt {
        Stmt::Nest { .. } => out.push_str("nest"),
        Stmt::Local {
            is_final,
            decls,
            ..
        } => {
            let word = if *is_final { "final-local" } else { "local" };
            write!(out, "{word}/{}", decls.len())
        }
        Stmt::Skip => out.push_str("skip"),
        Stmt::Do { .. } => out.push_str("do"),
        Stmt::While { .. } => out.push_str("while"),
        Stmt::If { no: Some(_), .. } => out.push_str("if-else"),
        Stmt::If { no: None, .. } => out.push_str("if"),
        Stmt::Eval { .. } => out.push_str("eval"),
        Stmt::For { update, .. } => write!(out, "for/{}", update.len()),
        Stmt::Switch { groups, .. } => write!(out, "switch/{}", groups.len()),
        Stmt::Labeled { label, .. } => write!(out, "{}:", spelled(label)),
        Stmt::Break { label } => {
            out.push_str("break")?;
            label_words(out, label)
        }
        Stmt::Continue { label } => {
            out.push_str("continue")?;
            label_words(out, label)
        }
        Stmt::Return { .. } => out.push_str("return"),
        Stmt::Throw { .. } => out.push_str("throw"),
        Stmt::Try { catches, .. } => write!(out, "try/{}", catches.len()),
        Stmt::CtorCall { which, args } => {
            let word = match which {
                ThisOrSuper::This => "this",
                ThisOrSuper::Super => "super",
            };
            write!(out, "{word}/{}", args.len())
        }
    }
}

fn group_words(out: &mut String, group: &Group) -> Result<(), AllocError> {
    out.push_str("group")?;
    for label in group.labels.as_slice() {
        out.push_str(match label {
            SwitchLabel::Case { .. } => ":case",
            SwitchLabel::Default => ":default",
        })?;
    }
    write!(out, "/{}", group.stmts.len())
}

fn primitive_word(primitive: Primitive) -> &'static str {
    match primitive {
        Primitive::Boolean => "boolean",
        Primitive::Byte => "byte",
        Primitive::Short => "short",
        Primitive::Char => "char",
        Primitive::Int => "int",
        Primitive::Long => "long",
    }
}

fn type_words(out: &mut String, ty: &TypeUse) -> Result<(), AllocError> {
    match &ty.base {
        Base::Primitive(primitive) => out.push_str(primitive_word(*primitive))?,
        Base::Named(_) => out.push_str("type")?,
    }
    brackets(out, ty.dims)
}

fn brackets(out: &mut String, pairs: usize) -> Result<(), AllocError> {
    for _ in 0..pairs {
        out.push_str("[]")?;
    }
    Ok(())
}

fn declarator_words(out: &mut String, declarator: &Declarator) -> Result<(), AllocError> {
    out.push_str(spelled(&declarator.name))?;
    brackets(out, declarator.dims)
}

fn list_words(out: &mut String, list: &InitList) -> Result<(), AllocError> {
    let comma = if list.is_open_ended { "," } else { "" };
    write!(out, "{{{}{comma}}}", list.items.len())
}

fn member_words(out: &mut String, member: &Member) -> Result<(), AllocError> {
    match member {
        Member::Field { mods, decls, .. } => write!(out, "field/{}/{}", mods.len(), decls.len()),
        Member::Method {
            mods,
            name,
            params,
            thrown,
            ..
        } => {
            let (mods, params, thrown) = (mods.len(), params.len(), thrown.len());
            write!(out, "method/{mods}/{params}/{thrown} {}", spelled(name))
        }
        Member::Constructor {
            mods,
            name,
            params,
            thrown,
            ..
        } => {
            let (mods, params, thrown) = (mods.len(), params.len(), thrown.len());
            write!(
                out,
                "constructor/{mods}/{params}/{thrown} {}",
                spelled(name)
            )
        }
        Member::Init { is_static, .. } => {
            out.push_str(if *is_static { "static-init" } else { "init" })
        }
        Member::Nested { .. } => out.push_str("nested"),
    }
}

fn decl_words(out: &mut String, decl: &TypeDecl) -> Result<(), AllocError> {
    match decl {
        TypeDecl::Class {
            mods,
            name,
            faces,
            body,
            ..
        } => {
            let (mods, faces, members) = (mods.len(), faces.len(), body.len());
            write!(out, "class/{mods}/{faces}/{members} {}", spelled(name))
        }
        TypeDecl::Interface {
            mods,
            name,
            faces,
            body,
        } => {
            let (mods, faces, members) = (mods.len(), faces.len(), body.len());
            write!(out, "interface/{mods}/{faces}/{members} {}", spelled(name))
        }
        TypeDecl::Empty => out.push_str(";"),
    }
}

fn import_words(out: &mut String, import: &Import) -> Result<(), AllocError> {
    match import {
        Import::Single { .. } => out.push_str("import"),
        Import::OnDemand { .. } => out.push_str("import-all"),
        Import::StaticSingle { member, .. } => write!(out, "import-static {}", spelled(member)),
    }
}

fn node_words(out: &mut String, node: NodeRef<'_>) -> Result<(), AllocError> {
    match node {
        NodeRef::Unit(_) => out.push_str("unit"),
        NodeRef::PackageDecl(_) => out.push_str("package"),
        NodeRef::Import(import) => import_words(out, import),
        NodeRef::TypeDecl(decl) => decl_words(out, decl),
        NodeRef::Member(member) => member_words(out, member),
        NodeRef::Block(block) => write!(out, "block/{}", block.stmts.len()),
        NodeRef::Stmt(stmt) => stmt_words(out, stmt),
        NodeRef::ForInit(ForInit::Locals { .. }) => out.push_str("first-local"),
        NodeRef::ForInit(ForInit::Exprs { exprs }) => write!(out, "first/{}", exprs.len()),
        NodeRef::Group(group) => group_words(out, group),
        NodeRef::Catch(_) => out.push_str("catch"),
        NodeRef::Expr(expr) => expr_words(out, expr),
        NodeRef::Receiver(Receiver::Super) => out.push_str("super"),
        NodeRef::Receiver(_) => out.push_str("of"),
        NodeRef::Declarator(declarator) => declarator_words(out, declarator),
        NodeRef::Init(_) => Ok(()),
        NodeRef::InitList(list) => list_words(out, list),
        NodeRef::Param(param) => write!(out, "param {}", spelled(&param.name)),
        NodeRef::TypeUse(ty) => type_words(out, ty),
        NodeRef::Name(name) => name_words(out, name),
    }
}

/// Whether the node has no words, since the one behind it says all.
fn is_silent(node: NodeRef<'_>) -> bool {
    matches!(
        node,
        NodeRef::Init(_) | NodeRef::Expr(Expr::NameExpr { .. })
    )
}

/// Whether the part begins behind the node.
fn begins(part: Part, node: NodeRef<'_>) -> bool {
    match node {
        NodeRef::Unit(_) => part == Part::Whole,
        NodeRef::Block(_) => part == Part::Body,
        NodeRef::Declarator(_) => part == Part::Value,
        _ => false,
    }
}

/// The outline of a part of a unit.
pub fn outline(alloc: Global, unit: &Unit, part: Part) -> Result<String, AllocError> {
    let mut out = String::new(alloc);
    let mut is_begun = false;
    for id in 0..10_000 {
        let Some(found) = node(unit, NodeId(id)) else {
            return Ok(out);
        };
        if is_begun && !is_silent(found) {
            if !out.is_empty() {
                out.push_str(" ")?;
            }
            node_words(&mut out, found)?;
        }
        is_begun = is_begun || begins(part, found);
    }
    Ok(out)
}
