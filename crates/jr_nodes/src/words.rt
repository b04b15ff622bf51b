// The search over names, types, parameters and imports.
#![tactic(auto, using(crate::proofs::Passing::go_on_append))]

ghost use Rattle.std.specs.Prelude.{◌≡◌};
ghost use Rattle.jr_tree.specs.Nodes as n;
ghost use Rattle.jr_nodes.specs.Progress.{go_on, progress};

use crate::node_ref::NodeRef;
use crate::search::{Search, step};
use jr_tree::{Base, Import, Name, PackageDecl, Param, ResultType, TypeUse};

pub fn in_name<'a>(state: Search<'a>, name: &'a Name) -> Search<'a>
    ensures { progress result ≡ go_on (n.name_nodes name.now) (progress state.entry) }
{
    step(state, NodeRef::Name(name))
}

pub fn in_any_name<'a>(state: Search<'a>, name: &'a Option<Name>) -> Search<'a>
    ensures { progress result ≡ go_on (n.if_some n.name_nodes name.now) (progress state.entry) }
{
    match name {
        None => state,
        Some(name) => in_name(state, name),
    }
}

pub fn in_names<'a>(mut state: Search<'a>, names: &'a [Name]) -> Search<'a>
    ensures { progress result ≡ go_on (n.each n.name_nodes names.now) (progress state.entry) }
{
    for name in names {
        state = in_name(state, name);
    }
    state
}

pub fn in_base<'a>(state: Search<'a>, base: &'a Base) -> Search<'a>
    ensures { progress result ≡ go_on (n.base_nodes base.now) (progress state.entry) }
{
    match base {
        Base::Primitive(_) => state,
        Base::Named(name) => in_name(state, name),
    }
}

pub fn in_type<'a>(state: Search<'a>, ty: &'a TypeUse) -> Search<'a>
    ensures { progress result ≡ go_on (n.type_nodes ty.now) (progress state.entry) }
{
    in_base(step(state, NodeRef::TypeUse(ty)), &ty.base)
}

pub fn in_param<'a>(state: Search<'a>, param: &'a Param) -> Search<'a>
    ensures { progress result ≡ go_on (n.param_nodes param.now) (progress state.entry) }
{
    in_type(step(state, NodeRef::Param(param)), &param.ty)
}

pub fn in_params<'a>(mut state: Search<'a>, params: &'a [Param]) -> Search<'a>
    ensures { progress result ≡ go_on (n.each n.param_nodes params.now) (progress state.entry) }
{
    for param in params {
        state = in_param(state, param);
    }
    state
}

pub fn in_result<'a>(state: Search<'a>, result_: &'a ResultType) -> Search<'a>
    ensures { progress result ≡ go_on (n.result_nodes result_.now) (progress state.entry) }
{
    match result_ {
        ResultType::Void => state,
        ResultType::Of { ty } => in_type(state, ty),
    }
}

pub fn in_package<'a>(state: Search<'a>, declared: &'a Option<PackageDecl>) -> Search<'a>
    ensures { progress result ≡ go_on (n.if_some n.package_nodes declared.now) (progress state.entry) }
{
    match declared {
        None => state,
        Some(declared) => in_name(step(state, NodeRef::PackageDecl(declared)), &declared.name),
    }
}

fn in_import<'a>(state: Search<'a>, import: &'a Import) -> Search<'a>
    ensures { progress result ≡ go_on (n.import_nodes import.now) (progress state.entry) }
{
    let state = step(state, NodeRef::Import(import));
    match import {
        Import::Single { name } => in_name(state, name),
        Import::OnDemand { name } => in_name(state, name),
        Import::StaticSingle { name, .. } => in_name(state, name),
    }
}

pub fn in_imports<'a>(mut state: Search<'a>, imports: &'a [Import]) -> Search<'a>
    ensures { progress result ≡ go_on (n.each n.import_nodes imports.now) (progress state.entry) }
{
    for import in imports {
        state = in_import(state, import);
    }
    state
}
