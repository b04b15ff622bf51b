// The labels of what holds no expression.
ghost use Rattle.std.specs.Prelude.{◌≡◌, ◌<◌, length};
ghost use Rattle.jr_index.specs.Events as e;
ghost use Rattle.jr_index.specs.Writing.{Adds};
ghost use Rattle.jr_tree.specs.Exprs as l;
ghost use Rattle.jr_tree.specs.Decls as d;

use crate::writer::RowWriter;
use jr_base::Text;
use jr_tree::{
    Base, Import, ImportKind, Label, Modifier, Modifiers, Name, NameKind, NamePlace, PackageDecl,
    Param, Primitive, ResultType, TypeUse,
};

fn left_kind(meant: NameKind) -> NameKind
    ensures { result ≡ l.left_kind meant }
{
    match meant {
        NameKind::Variable => NameKind::Ambiguous,
        NameKind::Ambiguous => NameKind::Ambiguous,
        NameKind::Type => NameKind::PackageOrType,
        NameKind::PackageOrType => NameKind::PackageOrType,
        NameKind::Package => NameKind::Package,
    }
}

/// The label of the identifier with so many before it, in a name of so many.
fn name_label(meant: NameKind, place: NamePlace, count: usize, index: usize) -> Label
    requires { index < count }
    ensures { result ≡ e.name_label meant place count index }
{
    let is_qualified = index > 0;
    if index + 1 < count {
        Label::Name {
            kind: left_kind(meant),
            place: NamePlace::Qualifier,
            is_qualified,
        }
    } else {
        Label::Name {
            kind: meant,
            place,
            is_qualified,
        }
    }
}

/// The identifiers from the last one back.
#[tactic(auto, using(crate::proofs::Counting::opens_step, crate::proofs::Adding::goes_on))]
fn open_parts(out: &mut RowWriter, meant: NameKind, place: NamePlace, parts: &[Text])
    ensures { Adds out.old out.new (e.opens meant place parts.now (length parts.now)) }
{
    let mut left = parts.len();
    while left > 0 {
        left -= 1;
        out.open(name_label(meant, place, parts.len(), left), &parts[left]);
    }
}

/// Passes and closes so many identifiers, with a dot before each but the first.
fn close_parts(out: &mut RowWriter, count: usize)
    ensures { Adds out.old out.new (e.closes 0 count) }
{
    let mut left = count;
    let mut dots = 0;
    while left > 0 {
        out.pass(dots);
        out.own();
        out.close();
        dots = 1;
        left -= 1;
    }
}

/// The identifiers of a name, from the last one back (JLS 6.2).
pub fn add_name(out: &mut RowWriter, meant: NameKind, place: NamePlace, name: &Name)
    ensures { Adds out.old out.new (e.name_events meant place name.now) }
{
    open_parts(out, meant, place, name.parts.as_slice());
    close_parts(out, name.parts.as_slice().len())
}

pub fn add_type_name(out: &mut RowWriter, name: &Name)
    ensures { Adds out.old out.new (e.type_name name.now) }
{
    add_name(out, NameKind::Type, NamePlace::Other, name)
}

/// Names with a word or comma before each.
pub fn add_type_names(out: &mut RowWriter, place: NamePlace, names: &[Name])
    ensures { Adds out.old out.new (e.names_events place names.now) }
{
    for name in names {
        out.pass(1);
        add_name(out, NameKind::Type, place, name);
    }
}

pub fn primitive_of(base: &Base) -> Option<Primitive>
    ensures { result ≡ l.primitive_of base.now }
{
    match base {
        Base::Primitive(primitive) => Some(*primitive),
        Base::Named(_) => None,
    }
}

pub fn add_base(out: &mut RowWriter, base: &Base)
    ensures { Adds out.old out.new (e.base_events base.now) }
{
    match base {
        Base::Primitive(_) => out.pass(1),
        Base::Named(name) => add_type_name(out, name),
    }
}

pub fn add_type(out: &mut RowWriter, ty: &TypeUse)
    ensures { Adds out.old out.new (e.type_events ty.now) }
{
    out.begin(Label::TypeUse {
        primitive: primitive_of(&ty.base),
        dims: ty.dims,
    });
    add_base(out, &ty.base);
    out.pass_brackets(ty.dims);
    out.close();
}

pub fn add_param(out: &mut RowWriter, param: &Param)
    ensures { Adds out.old out.new (e.param_events param.now) }
{
    let label = Label::Parameter {
        is_final: param.is_final,
        dims: param.dims,
    };
    out.open(label, &param.name);
    out.pass_if(param.is_final);
    add_type(out, &param.ty);
    out.own();
    out.pass_brackets(param.dims);
    out.close();
}

pub fn add_params(out: &mut RowWriter, params: &[Param])
    ensures { Adds out.old out.new (e.params_events 0 params.now) }
{
    let mut commas = 0;
    for param in params {
        out.pass(commas);
        add_param(out, param);
        commas = 1;
    }
}

/// The modifiers as flags (JLS 8.1.1, 8.3.1, 8.4.3).
pub fn modifiers_of(modifiers: &[Modifier]) -> Modifiers
    ensures { result ≡ d.modifiers_of modifiers.now }
{
    let mut all = Modifiers {
        is_public: false,
        is_protected: false,
        is_private: false,
        is_abstract: false,
        is_static: false,
        is_final: false,
        is_native: false,
    };
    let mut left = modifiers.len();
    while left > 0 {
        left -= 1;
        all = with_modifier(modifiers[left], all);
    }
    all
}

fn with_modifier(modifier: Modifier, all: Modifiers) -> Modifiers
    ensures { result ≡ d.with_modifier modifier all }
{
    match modifier {
        Modifier::Public => Modifiers {
            is_public: true,
            ..all
        },
        Modifier::Protected => Modifiers {
            is_protected: true,
            ..all
        },
        Modifier::Private => Modifiers {
            is_private: true,
            ..all
        },
        Modifier::Abstract => Modifiers {
            is_abstract: true,
            ..all
        },
        Modifier::Static => Modifiers {
            is_static: true,
            ..all
        },
        Modifier::Final => Modifiers {
            is_final: true,
            ..all
        },
        Modifier::Native => Modifiers {
            is_native: true,
            ..all
        },
    }
}

pub fn is_void(result_type: &ResultType) -> bool
    ensures { result ≡ d.is_void result_type.now }
{
    match result_type {
        ResultType::Void => true,
        ResultType::Of { .. } => false,
    }
}

pub fn add_result(out: &mut RowWriter, result_type: &ResultType)
    ensures { Adds out.old out.new (e.result_events result_type.now) }
{
    match result_type {
        ResultType::Void => out.pass(1),
        ResultType::Of { ty } => add_type(out, ty),
    }
}

pub fn add_package(out: &mut RowWriter, declared: &Option<PackageDecl>)
    ensures { Adds out.old out.new (e.if_some e.package_events declared.now) }
{
    if let Some(declared) = declared {
        out.begin(Label::Package);
        out.pass(1);
        add_name(out, NameKind::Package, NamePlace::Other, &declared.name);
        out.pass(1);
        out.close();
    }
}

fn add_import(out: &mut RowWriter, import: &Import)
    ensures { Adds out.old out.new (e.import_events import.now) }
{
    match import {
        Import::Single { name } => {
            out.begin(Label::Import {
                kind: ImportKind::Single,
            });
            out.pass(1);
            add_type_name(out, name);
            out.pass(1);
            out.close();
        }
        Import::OnDemand { name } => {
            out.begin(Label::Import {
                kind: ImportKind::OnDemand,
            });
            out.pass(1);
            add_name(out, NameKind::PackageOrType, NamePlace::Other, name);
            out.pass(3);
            out.close();
        }
        Import::StaticSingle { name, member } => {
            let label = Label::Import {
                kind: ImportKind::StaticSingle,
            };
            out.open(label, member);
            out.pass(2);
            add_type_name(out, name);
            out.pass(1);
            out.own();
            out.pass(1);
            out.close();
        }
    }
}

pub fn add_imports(out: &mut RowWriter, imports: &[Import])
    ensures { Adds out.old out.new (e.imports_events imports.now) }
{
    for import in imports {
        add_import(out, import);
    }
}
