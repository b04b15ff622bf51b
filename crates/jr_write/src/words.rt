// Tokens of what holds no expression.
ghost use Rattle.std.specs.Prelude.{◌≡◌, [], ◌∷◌, ◌++◌, map, OnOk};
ghost use Rattle.jr_base.specs.declared.kind.Symbol.TheVariants as y;
ghost use Rattle.jr_tree.specs.Words as t;

use jr_base::{Keyword, Kind, OutOfMemory, Symbol, Text};
use jr_tree::{
    Base, Import, Modifier, Name, PackageDecl, Param, Primitive, ResultType, ThisOrSuper, TypeUse,
};
use std::alloc::Global;

pub fn write_token(out: &mut Vec<Kind>, kind: Kind) -> Result<(), OutOfMemory>
    ensures { OnOk result (out.new.items ≡ out.old.items ++ kind ∷ []) }
{
    out.push(kind)?;
    Ok(())
}

pub fn word(out: &mut Vec<Kind>, keyword: Keyword) -> Result<(), OutOfMemory>
    ensures { OnOk result (out.new.items ≡ out.old.items ++ t.word keyword) }
{
    write_token(out, Kind::Word(keyword))
}

pub fn mark(out: &mut Vec<Kind>, symbol: Symbol) -> Result<(), OutOfMemory>
    ensures { OnOk result (out.new.items ≡ out.old.items ++ t.mark symbol) }
{
    write_token(out, Kind::Sym(symbol))
}

pub fn ident(alloc: Global, out: &mut Vec<Kind>, name: &Text) -> Result<(), OutOfMemory>
    ensures { OnOk result (out.new.items ≡ out.old.items ++ t.ident name.now) }
{
    write_token(out, Kind::Ident(name.copy(alloc)?))
}

pub fn word_if(out: &mut Vec<Kind>, holds: bool, keyword: Keyword) -> Result<(), OutOfMemory>
    ensures { OnOk result (out.new.items ≡ out.old.items ++ t.if_true holds (t.word keyword)) }
{
    if holds { word(out, keyword) } else { Ok(()) }
}

pub fn mark_if(out: &mut Vec<Kind>, holds: bool, symbol: Symbol) -> Result<(), OutOfMemory>
    ensures { OnOk result (out.new.items ≡ out.old.items ++ t.if_true holds (t.mark symbol)) }
{
    if holds { mark(out, symbol) } else { Ok(()) }
}

#[tactic(auto, using(crate::proofs::Pairs::brackets_step))]
pub fn brackets(out: &mut Vec<Kind>, pairs: usize) -> Result<(), OutOfMemory>
    ensures { OnOk result (out.new.items ≡ out.old.items ++ t.brackets pairs) }
{
    let mut left = pairs;
    while left > 0 {
        mark(out, Symbol::OpenBracket)?;
        mark(out, Symbol::CloseBracket)?;
        left -= 1;
    }
    Ok(())
}

pub fn write_name(alloc: Global, out: &mut Vec<Kind>, name: &Name) -> Result<(), OutOfMemory>
    ensures { OnOk result (out.new.items ≡ out.old.items ++ t.name_tokens name.now) }
{
    if let [first, rest @ ..] = name.parts.as_slice() {
        ident(alloc, out, first)?;
        for part in rest {
            mark(out, Symbol::Dot)?;
            ident(alloc, out, part)?;
        }
    }
    Ok(())
}

fn primitive_word(primitive: Primitive) -> Keyword
    ensures { result ≡ t.primitive_word primitive }
{
    match primitive {
        Primitive::Boolean => Keyword::Boolean,
        Primitive::Byte => Keyword::Byte,
        Primitive::Short => Keyword::Short,
        Primitive::Char => Keyword::Char,
        Primitive::Int => Keyword::Int,
        Primitive::Long => Keyword::Long,
    }
}

pub fn write_base(alloc: Global, out: &mut Vec<Kind>, base: &Base) -> Result<(), OutOfMemory>
    ensures { OnOk result (out.new.items ≡ out.old.items ++ t.base_tokens base.now) }
{
    match base {
        Base::Primitive(primitive) => word(out, primitive_word(*primitive)),
        Base::Named(name) => write_name(alloc, out, name),
    }
}

pub fn write_type(alloc: Global, out: &mut Vec<Kind>, ty: &TypeUse) -> Result<(), OutOfMemory>
    ensures { OnOk result (out.new.items ≡ out.old.items ++ t.type_tokens ty.now) }
{
    write_base(alloc, out, &ty.base)?;
    brackets(out, ty.dims)
}

pub fn write_param(alloc: Global, out: &mut Vec<Kind>, param: &Param) -> Result<(), OutOfMemory>
    ensures { OnOk result (out.new.items ≡ out.old.items ++ t.param_tokens param.now) }
{
    word_if(out, param.is_final, Keyword::Final)?;
    write_type(alloc, out, &param.ty)?;
    ident(alloc, out, &param.name)?;
    brackets(out, param.dims)
}

fn write_param_list(alloc: Global, out: &mut Vec<Kind>, params: &[Param]) -> Result<(), OutOfMemory>
    ensures { OnOk result (out.new.items ≡ out.old.items ++ t.between y.Comma (map t.param_tokens params.now)) }
{
    if let [first, rest @ ..] = params {
        write_param(alloc, out, first)?;
        for param in rest {
            mark(out, Symbol::Comma)?;
            write_param(alloc, out, param)?;
        }
    }
    Ok(())
}

pub fn write_params(alloc: Global, out: &mut Vec<Kind>, params: &[Param]) -> Result<(), OutOfMemory>
    ensures { OnOk result (out.new.items ≡ out.old.items ++ t.params_tokens params.now) }
{
    mark(out, Symbol::OpenParen)?;
    write_param_list(alloc, out, params)?;
    mark(out, Symbol::CloseParen)
}

pub fn which_word(which: ThisOrSuper) -> Keyword
    ensures { result ≡ t.which_word which }
{
    match which {
        ThisOrSuper::This => Keyword::This,
        ThisOrSuper::Super => Keyword::Super,
    }
}

fn modifier_word(modifier: Modifier) -> Keyword
    ensures { result ≡ t.modifier_word modifier }
{
    match modifier {
        Modifier::Public => Keyword::Public,
        Modifier::Protected => Keyword::Protected,
        Modifier::Private => Keyword::Private,
        Modifier::Abstract => Keyword::Abstract,
        Modifier::Static => Keyword::Static,
        Modifier::Final => Keyword::Final,
        Modifier::Native => Keyword::Native,
    }
}

pub fn write_modifiers(out: &mut Vec<Kind>, mods: &[Modifier]) -> Result<(), OutOfMemory>
    ensures { OnOk result (out.new.items ≡ out.old.items ++ t.modifiers_tokens mods.now) }
{
    for modifier in mods {
        word(out, modifier_word(*modifier))?;
    }
    Ok(())
}

pub fn write_result(
    alloc: Global,
    out: &mut Vec<Kind>,
    result_type: &ResultType,
) -> Result<(), OutOfMemory>
    ensures { OnOk result (out.new.items ≡ out.old.items ++ t.result_tokens result_type.now) }
{
    match result_type {
        ResultType::Void => word(out, Keyword::Void),
        ResultType::Of { ty } => write_type(alloc, out, ty),
    }
}

/// A word and names with commas, or nothing where there is no name.
pub fn write_names_after(
    alloc: Global,
    out: &mut Vec<Kind>,
    keyword: Keyword,
    names: &[Name],
) -> Result<(), OutOfMemory>
    ensures { OnOk result (out.new.items ≡ out.old.items ++ t.names_after keyword names.now) }
{
    if let [first, rest @ ..] = names {
        word(out, keyword)?;
        write_name(alloc, out, first)?;
        for name in rest {
            mark(out, Symbol::Comma)?;
            write_name(alloc, out, name)?;
        }
    }
    Ok(())
}

pub fn write_parent(
    alloc: Global,
    out: &mut Vec<Kind>,
    parent: &Option<Name>,
) -> Result<(), OutOfMemory>
    ensures { OnOk result (out.new.items ≡ out.old.items ++ t.parent_tokens parent.now) }
{
    match parent {
        None => Ok(()),
        Some(name) => {
            word(out, Keyword::Extends)?;
            write_name(alloc, out, name)
        }
    }
}

pub fn write_package(
    alloc: Global,
    out: &mut Vec<Kind>,
    declared: &Option<PackageDecl>,
) -> Result<(), OutOfMemory>
    ensures { OnOk result (out.new.items ≡ out.old.items ++ t.if_some t.package_tokens declared.now) }
{
    match declared {
        None => Ok(()),
        Some(declared) => {
            word(out, Keyword::Package)?;
            write_name(alloc, out, &declared.name)?;
            mark(out, Symbol::Semicolon)
        }
    }
}

fn write_import(alloc: Global, out: &mut Vec<Kind>, import: &Import) -> Result<(), OutOfMemory>
    ensures { OnOk result (out.new.items ≡ out.old.items ++ t.import_tokens import.now) }
{
    match import {
        Import::Single { name } => {
            word(out, Keyword::Import)?;
            write_name(alloc, out, name)?;
            mark(out, Symbol::Semicolon)
        }
        Import::OnDemand { name } => {
            word(out, Keyword::Import)?;
            write_name(alloc, out, name)?;
            mark(out, Symbol::Dot)?;
            mark(out, Symbol::Star)?;
            mark(out, Symbol::Semicolon)
        }
        Import::StaticSingle { name, member } => {
            word(out, Keyword::Import)?;
            word(out, Keyword::Static)?;
            write_name(alloc, out, name)?;
            mark(out, Symbol::Dot)?;
            ident(alloc, out, member)?;
            mark(out, Symbol::Semicolon)
        }
    }
}

pub fn write_imports(
    alloc: Global,
    out: &mut Vec<Kind>,
    imports: &[Import],
) -> Result<(), OutOfMemory>
    ensures { OnOk result (out.new.items ≡ out.old.items ++ t.joined (map t.import_tokens imports.now)) }
{
    for import in imports {
        write_import(alloc, out, import)?;
    }
    Ok(())
}
