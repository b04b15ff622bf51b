// The bytes that are written.
ghost use Rattle.std.specs.Prelude.{◌≡◌, ◌++◌, IfOk, OnOk};
ghost use Rattle.jr_shapes.specs.Names.{package_names};
ghost use Rattle.jr_shapes.specs.declared.spelling.Shape.TheVariants as shapes;
ghost use Rattle.jr_weave.specs.declared.piece.Wording.TheVariants as wordings;
ghost use Rattle.jr_weave.specs.Wording as spec;

use crate::piece::Wording;
use jr_base::{OutOfMemory, Text};
use jr_defs::Element;
use jr_places::name_at;
use jr_shapes::{Shape, Suffix, TypeName, push_package, suffix_rows};
use jr_tree::Row;
use std::alloc::Global;

fn put(text: &mut Vec<u8>, bytes: &[u8]) -> Result<(), OutOfMemory>
    ensures { OnOk result (text.new.items ≡ text.old.items ++ bytes.now) }
{
    text.extend_from_slice(bytes)?;
    Ok(())
}

// The identifiers of rows, each with a dot behind it; that of the last row comes first.
fn put_with_dots(text: &mut Vec<u8>, rows: &[Row], names: &[u32]) -> Result<(), OutOfMemory>
    ensures { OnOk result (text.new.items ≡ text.old.items ++ spec.with_dots rows.now names.now) }
{
    let mut at = names.len();
    while at > 0 {
        at -= 1;
        put(text, name_at(rows, names[at]))?;
        put(text, b".")?;
    }
    Ok(())
}

// The identifiers of rows with dots between them; that of the last row comes first.
#[tactic(auto, using(crate::proofs::Adding::adds_two))]
fn put_dotted(text: &mut Vec<u8>, rows: &[Row], names: &[u32]) -> Result<(), OutOfMemory>
    ensures { OnOk result (text.new.items ≡ text.old.items ++ spec.dotted rows.now names.now) }
{
    match names.split_first() {
        Some((last, before)) => {
            put_with_dots(text, rows, before)?;
            put(text, name_at(rows, *last))
        }
        None => Ok(()),
    }
}

// The package of the unit of a type.
fn put_package(
    alloc: Global,
    text: &mut Vec<u8>,
    rows: &[Row],
    class: u32,
) -> Result<(), OutOfMemory>
    ensures { OnOk result (text.new.items ≡ text.old.items ++ spec.dotted rows.now (package_names rows.now class)) }
{
    let mut names = Vec::new(alloc);
    push_package(&mut names, rows, class)?;
    put_dotted(text, rows, &names)
}

// The last identifiers of a type's name.
fn put_named(
    alloc: Global,
    text: &mut Vec<u8>,
    rows: &[Row],
    suffix: Suffix,
) -> Result<(), OutOfMemory>
    ensures { OnOk result (text.new.items ≡ text.old.items ++ spec.suffix_text rows.now suffix) }
{
    let names = suffix_rows(alloc, rows, suffix)?;
    put_dotted(text, rows, &names)
}

// `(S)`
#[tactic(auto, using(crate::proofs::Adding::adds_three))]
fn put_cast(
    alloc: Global,
    text: &mut Vec<u8>,
    rows: &[Row],
    suffix: Suffix,
) -> Result<(), OutOfMemory>
    ensures { OnOk result (text.new.items ≡ text.old.items ++ spec.cast rows.now suffix) }
{
    put(text, b"(")?;
    put_named(alloc, text, rows, suffix)?;
    put(text, b")")
}

// `((S)this)`
#[tactic(auto, using(crate::proofs::Adding::adds_three))]
fn put_cast_this(
    alloc: Global,
    text: &mut Vec<u8>,
    rows: &[Row],
    suffix: Suffix,
) -> Result<(), OutOfMemory>
    ensures { OnOk result (text.new.items ≡ text.old.items ++ spec.cast_this rows.now suffix) }
{
    put(text, b"(")?;
    put_cast(alloc, text, rows, suffix)?;
    put(text, b"this)")
}

// `((S)T.this)`
#[tactic(auto, using(crate::proofs::Adding::adds_four))]
fn put_cast_outer(
    alloc: Global,
    text: &mut Vec<u8>,
    rows: &[Row],
    suffix: Suffix,
    outer: Suffix,
) -> Result<(), OutOfMemory>
    ensures { OnOk result (text.new.items ≡ text.old.items ++ spec.cast_outer rows.now suffix outer) }
{
    put(text, b"(")?;
    put_cast(alloc, text, rows, suffix)?;
    put_named(alloc, text, rows, outer)?;
    put(text, b".this)")
}

// `T.this`
#[tactic(auto, using(crate::proofs::Adding::adds_two))]
fn put_outer(
    alloc: Global,
    text: &mut Vec<u8>,
    rows: &[Row],
    outer: Suffix,
) -> Result<(), OutOfMemory>
    ensures { OnOk result (text.new.items ≡ text.old.items ++ spec.before_dot rows.now (shapes.Outer outer)) }
{
    put_named(alloc, text, rows, outer)?;
    put(text, b".this")
}

// What stands before the dot in a shape that has it; nothing in the others.
#[tactic(auto, using(crate::proofs::Adding::adds_none))]
fn put_before_dot(
    alloc: Global,
    text: &mut Vec<u8>,
    rows: &[Row],
    shape: Shape,
) -> Result<(), OutOfMemory>
    ensures { OnOk result (text.new.items ≡ text.old.items ++ spec.before_dot rows.now shape) }
{
    match shape {
        Shape::This => put(text, b"this"),
        Shape::Super => put(text, b"super"),
        Shape::Outer(outer) => put_outer(alloc, text, rows, outer),
        Shape::CastThis(suffix) => put_cast_this(alloc, text, rows, suffix),
        Shape::CastOuter(suffix, outer) => put_cast_outer(alloc, text, rows, suffix, outer),
        Shape::Type(of) => put_named(alloc, text, rows, of),
        _ => Ok(()),
    }
}

// What stands before a dot, the dot, and the identifier of a row.
#[tactic(auto, using(crate::proofs::Adding::adds_three))]
fn put_selected(
    alloc: Global,
    text: &mut Vec<u8>,
    rows: &[Row],
    shape: Shape,
    name: u32,
) -> Result<(), OutOfMemory>
    ensures { OnOk result (text.new.items ≡ text.old.items ++ spec.selected rows.now shape name) }
{
    put_before_dot(alloc, text, rows, shape)?;
    put(text, b".")?;
    put(text, name_at(rows, name))
}

// A reference by its shape, whose last identifier is that of this row.
fn put_shaped(
    alloc: Global,
    text: &mut Vec<u8>,
    rows: &[Row],
    shape: Shape,
    name: u32,
) -> Result<(), OutOfMemory>
    ensures { OnOk result (text.new.items ≡ text.old.items ++ spec.shape_text rows.now shape name) }
{
    match shape {
        Shape::Named(suffix) => put_named(alloc, text, rows, suffix),
        Shape::Bare => put(text, name_at(rows, name)),
        _ => put_selected(alloc, text, rows, shape, name),
    }
}

/// The word of a primitive type; none for what cannot be written.
pub fn word_of(element: Element) -> &'static [u8]
    ensures { result.now ≡ spec.word_of element }
{
    match element {
        Element::Boolean => b"boolean",
        Element::Byte => b"byte",
        Element::Short => b"short",
        Element::Char => b"char",
        Element::Int => b"int",
        Element::Long => b"long",
        _ => b"",
    }
}

fn put_element(
    alloc: Global,
    text: &mut Vec<u8>,
    rows: &[Row],
    count: u32,
    element: Element,
) -> Result<(), OutOfMemory>
    ensures { OnOk result (text.new.items ≡ text.old.items ++ spec.element_text rows.now count element) }
{
    match element {
        Element::Class(of) => put_named(alloc, text, rows, Suffix { of, count }),
        _ => put(text, word_of(element)),
    }
}

fn put_brackets(text: &mut Vec<u8>, pairs: usize) -> Result<(), OutOfMemory>
    ensures { OnOk result (text.new.items ≡ text.old.items ++ spec.brackets pairs) }
{
    for _pair in 0..pairs {
        put(text, b"[]")?;
    }
    Ok(())
}

#[tactic(auto, using(crate::proofs::Adding::adds_two))]
fn put_typed(
    alloc: Global,
    text: &mut Vec<u8>,
    rows: &[Row],
    ty: TypeName,
) -> Result<(), OutOfMemory>
    ensures { OnOk result (text.new.items ≡ text.old.items ++ spec.type_text rows.now ty) }
{
    put_element(alloc, text, rows, ty.count, ty.element)?;
    put_brackets(text, ty.dims)
}

#[tactic(auto, using(crate::proofs::Adding::adds_none))]
fn put_open_paren(text: &mut Vec<u8>, is_atom: bool) -> Result<(), OutOfMemory>
    ensures { OnOk result (text.new.items ≡ text.old.items ++ spec.open_paren is_atom) }
{
    if is_atom { Ok(()) } else { put(text, b"(") }
}

fn put_close(text: &mut Vec<u8>, has_two: bool) -> Result<(), OutOfMemory>
    ensures { OnOk result (text.new.items ≡ text.old.items ++ spec.close_parens has_two) }
{
    if has_two {
        put(text, b"))")
    } else {
        put(text, b")")
    }
}

// What opens before a receiver that is cast.
#[tactic(auto, using(crate::proofs::Adding::adds_three))]
fn put_open_receiver(
    alloc: Global,
    text: &mut Vec<u8>,
    rows: &[Row],
    suffix: Suffix,
    is_atom: bool,
) -> Result<(), OutOfMemory>
    ensures { OnOk result (text.new.items ≡ text.old.items ++ spec.text_of rows.now (wordings.OpenReceiver suffix is_atom)) }
{
    put(text, b"(")?;
    put_cast(alloc, text, rows, suffix)?;
    put_open_paren(text, is_atom)
}

// What opens before an argument that is cast.
#[tactic(auto, using(crate::proofs::Adding::adds_four))]
fn put_open_argument(
    alloc: Global,
    text: &mut Vec<u8>,
    rows: &[Row],
    ty: TypeName,
    is_atom: bool,
) -> Result<(), OutOfMemory>
    ensures { OnOk result (text.new.items ≡ text.old.items ++ spec.text_of rows.now (wordings.OpenArgument ty is_atom)) }
{
    put(text, b"(")?;
    put_typed(alloc, text, rows, ty)?;
    put(text, b")")?;
    put_open_paren(text, is_atom)
}

fn put_wording(
    alloc: Global,
    text: &mut Vec<u8>,
    rows: &[Row],
    wording: Wording,
) -> Result<(), OutOfMemory>
    ensures { OnOk result (text.new.items ≡ text.old.items ++ spec.text_of rows.now wording) }
{
    match wording {
        Wording::Identifier(row) => put(text, name_at(rows, row)),
        Wording::Package(of) => put_package(alloc, text, rows, of),
        Wording::Shaped(shape, name) => put_shaped(alloc, text, rows, shape, name),
        Wording::CastThis(suffix) => put_cast_this(alloc, text, rows, suffix),
        Wording::OpenReceiver(suffix, is_atom) => {
            put_open_receiver(alloc, text, rows, suffix, is_atom)
        }
        Wording::OpenArgument(ty, is_atom) => put_open_argument(alloc, text, rows, ty, is_atom),
        Wording::Close(has_two) => put_close(text, has_two),
    }
}

/// The bytes that are written at a place.
pub fn text_of(alloc: Global, rows: &[Row], wording: Wording) -> Result<Text, OutOfMemory>
    ensures { IfOk result (λ text. text ≡ spec.text_of rows.now wording) }
{
    let mut text = Vec::new(alloc);
    put_wording(alloc, &mut text, rows, wording)?;
    Ok(Text::new(text))
}
