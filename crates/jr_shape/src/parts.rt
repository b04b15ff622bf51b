// Tests of names, types and imports.
ghost use Rattle.std.specs.Prelude.{◌≡◌, true};
ghost use Rattle.std.specs.List.{list_all};
ghost use Rattle.std.specs.Option.{option_map_or};
ghost use Rattle.jr_shape.specs.Parts as t;

use jr_tree::{Base, Import, Name, PackageDecl, Param, ResultType, TypeUse};

#[tactic(auto, using(crate::proofs::Empty::length_empty))]
pub fn is_shaped_name(name: &Name) -> bool
    ensures { result ≡ t.is_shaped_name name.now }
{
    !name.parts.as_slice().is_empty()
}

/// A name that may be left out.
pub fn is_shaped_any_name(name: &Option<Name>) -> bool
    ensures { result ≡ option_map_or t.is_shaped_name name.now true }
{
    match name {
        None => true,
        Some(name) => is_shaped_name(name),
    }
}

pub fn are_shaped_names(names: &[Name]) -> bool
    ensures { result ≡ list_all t.is_shaped_name names.now }
{
    let mut shaped = true;
    for name in names {
        shaped = shaped && is_shaped_name(name);
    }
    shaped
}

pub fn is_shaped_base(base: &Base) -> bool
    ensures { result ≡ t.is_shaped_base base.now }
{
    match base {
        Base::Primitive(_) => true,
        Base::Named(name) => is_shaped_name(name),
    }
}

pub fn is_shaped_type(ty: &TypeUse) -> bool
    ensures { result ≡ t.is_shaped_type ty.now }
{
    is_shaped_base(&ty.base)
}

pub fn is_shaped_param(param: &Param) -> bool
    ensures { result ≡ t.is_shaped_param param.now }
{
    is_shaped_type(&param.ty)
}

pub fn are_shaped_params(params: &[Param]) -> bool
    ensures { result ≡ list_all t.is_shaped_param params.now }
{
    let mut shaped = true;
    for param in params {
        shaped = shaped && is_shaped_param(param);
    }
    shaped
}

pub fn is_shaped_result(result_type: &ResultType) -> bool
    ensures { result ≡ t.is_shaped_result result_type.now }
{
    match result_type {
        ResultType::Void => true,
        ResultType::Of { ty } => is_shaped_type(ty),
    }
}

pub fn is_shaped_any_package(declared: &Option<PackageDecl>) -> bool
    ensures { result ≡ option_map_or t.is_shaped_package declared.now true }
{
    match declared {
        None => true,
        Some(declared) => is_shaped_name(&declared.name),
    }
}

fn is_shaped_import(import: &Import) -> bool
    ensures { result ≡ t.is_shaped_import import.now }
{
    match import {
        Import::Single { name } | Import::OnDemand { name } => is_shaped_name(name),
        Import::StaticSingle { name, .. } => is_shaped_name(name),
    }
}

pub fn are_shaped_imports(imports: &[Import]) -> bool
    ensures { result ≡ list_all t.is_shaped_import imports.now }
{
    let mut shaped = true;
    for import in imports {
        shaped = shaped && is_shaped_import(import);
    }
    shaped
}
