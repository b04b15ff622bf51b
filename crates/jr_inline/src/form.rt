// The form in which an initializer stands in place of a use.
ghost use Rattle.std.specs.Prelude.{◌≡◌, ◌++◌, IfOk, OnOk, Some};
ghost use Rattle.jr_marks.specs.Places.{IsOrdered};
ghost use Rattle.jr_weave.specs.Wording.{brackets};
ghost use Rattle.jr_inline.specs.Forms as spec;

use crate::local::Local;
use jr_base::{OutOfMemory, Text};
use jr_change::{Project, Target};
use jr_defs::{Element, RowType};
use jr_draft::Draft;
use jr_marks::Marks;
use jr_places::name_at;
use jr_shapes::end_of;
use jr_supers::Tabled;
use jr_text::{part, tokens_span, unit_bytes};
use jr_tree::{Label, NamePlace, Row};
use jr_weave::{is_atom, word_of};
use std::alloc::Global;

/// How an initializer `a` stands in place of a use: as `a`, `(a)`, `((T)a)` or `((T)(a))`.
#[derive(Clone, Copy)]
pub struct Form {
    /// The declared type T, where the initializer has another one.
    pub cast: Option<RowType>,
    /// The initializer has parentheses of its own.
    pub is_enclosed: bool,
}

/// The type of the expression at a row, if it is one, by the types of the program.
pub fn type_of(types: &[Option<RowType>], at: u32) -> Option<RowType>
    ensures { result ≡ spec.type_in types.now at }
{
    match types.get(at as usize) {
        Some(ty) => *ty,
        None => None,
    }
}

// Where an identifier of a name stands, if the row is one.
fn name_place(rows: &[Row], at: u32) -> Option<NamePlace>
    ensures { result ≡ spec.name_place rows.now at }
{
    match rows.get(at as usize) {
        Some(row) => match row.label {
            Label::Name { place, .. } => Some(place),
            _ => None,
        },
        None => None,
    }
}

/// The row is an identifier of a name.
pub fn is_name(rows: &[Row], at: u32) -> bool
    ensures { result ≡ spec.is_name rows.now at }
{
    name_place(rows, at).is_some()
}

// A dot stands behind such an identifier.
fn is_dotted(place: NamePlace) -> bool
    ensures { result ≡ spec.is_dotted place }
{
    match place {
        NamePlace::Qualifier => true,
        NamePlace::Receiver => true,
        _ => false,
    }
}

// The row is an identifier with a dot behind it.
fn is_before_dot(rows: &[Row], at: u32) -> bool
    ensures { result ≡ spec.is_before_dot rows.now at }
{
    match name_place(rows, at) {
        Some(place) => is_dotted(place),
        None => false,
    }
}

/// What is found is this type.
pub fn has_type(found: Option<RowType>, ty: RowType) -> bool
    ensures { result ≡ spec.has_type found ty }
{
    match found {
        Some(found) => found == ty,
        None => false,
    }
}

// The first type, unless the other one is the same.
fn cast_by(declared: Option<RowType>, found: Option<RowType>) -> Option<RowType>
    ensures { result ≡ spec.cast_by declared found }
{
    let declared = declared?;
    if has_type(found, declared) {
        None
    } else {
        Some(declared)
    }
}

/// The declared type of a local, where its initializer has another one.
pub fn cast_of(old: &Project, local: Local) -> Option<RowType>
    ensures { spec.IsCast old.now local result }
{
    let under = old.view.sight.world.under;
    let tabled = Tabled {
        rows: old.marks.rows,
        places: under.places,
        table: under.table,
    };
    cast_by(
        tabled.type_of_declared(local.declarator),
        type_of(old.view.types, local.value),
    )
}

// Adds bytes.
fn add(out: &mut Vec<u8>, bytes: &[u8]) -> Result<(), OutOfMemory>
    ensures { OnOk result (out.new.items ≡ out.old.items ++ bytes.now) }
{
    out.extend_from_slice(bytes)?;
    Ok(())
}

// A type without its brackets by the simple name of its class or its word.
fn add_element(out: &mut Vec<u8>, rows: &[Row], element: Element) -> Result<(), OutOfMemory>
    ensures { OnOk result (out.new.items ≡ out.old.items ++ spec.element_text rows.now element) }
{
    match element {
        Element::Class(class) => add(out, name_at(rows, class)),
        _ => add(out, word_of(element)),
    }
}

fn add_brackets(out: &mut Vec<u8>, dims: usize) -> Result<(), OutOfMemory>
    ensures { OnOk result (out.new.items ≡ out.old.items ++ brackets dims) }
{
    for _pair in 0..dims {
        add(out, b"[]")?;
    }
    Ok(())
}

#[tactic(auto, using(jr_weave::proofs::Adding::adds_two))]
fn add_type(out: &mut Vec<u8>, rows: &[Row], ty: RowType) -> Result<(), OutOfMemory>
    ensures { OnOk result (out.new.items ≡ out.old.items ++ spec.type_text rows.now ty) }
{
    add_element(out, rows, ty.element)?;
    add_brackets(out, ty.dims)
}

#[tactic(auto, using(jr_weave::proofs::Adding::adds_three))]
fn add_typed_cast(out: &mut Vec<u8>, rows: &[Row], ty: RowType) -> Result<(), OutOfMemory>
    ensures { OnOk result (out.new.items ≡ out.old.items ++ spec.cast_text rows.now (Some ty)) }
{
    add(out, b"((")?;
    add_type(out, rows, ty)?;
    add(out, b")")
}

#[tactic(auto, using(jr_weave::proofs::Adding::adds_none))]
fn add_cast(out: &mut Vec<u8>, rows: &[Row], cast: Option<RowType>) -> Result<(), OutOfMemory>
    ensures { OnOk result (out.new.items ≡ out.old.items ++ spec.cast_text rows.now cast) }
{
    match cast {
        Some(ty) => add_typed_cast(out, rows, ty),
        None => Ok(()),
    }
}

#[tactic(auto, using(jr_weave::proofs::Adding::adds_none))]
fn add_open(out: &mut Vec<u8>, is_open: bool) -> Result<(), OutOfMemory>
    ensures { OnOk result (out.new.items ≡ out.old.items ++ spec.open_text is_open) }
{
    if is_open { add(out, b"(") } else { Ok(()) }
}

#[tactic(auto, using(jr_weave::proofs::Adding::adds_none))]
fn add_close(out: &mut Vec<u8>, is_open: bool) -> Result<(), OutOfMemory>
    ensures { OnOk result (out.new.items ≡ out.old.items ++ spec.close_text is_open) }
{
    if is_open { add(out, b")") } else { Ok(()) }
}

/// The bytes of an expression.
pub fn value_bytes<'p>(marks: &Marks<'p>, value: u32) -> &'p [u8]
    ensures { IsOrdered marks.now → result.now ≡ spec.value_text marks.now value }
{
    part(unit_bytes(marks, value), tokens_span(marks, value))
}

// The name of a class refers to that.
fn add_element_rows(draft: &mut Draft, element: Element) -> Result<(), OutOfMemory>
    ensures { OnOk result (draft.new ≡ spec.element_rows element draft.old) }
{
    match element {
        Element::Class(class) => draft.refer(Target::Old(class), None),
        _ => Ok(()),
    }
}

// Adds the rows of parentheses, a cast and its type.
fn add_type_rows(draft: &mut Draft, ty: RowType) -> Result<(), OutOfMemory>
    ensures { OnOk result (draft.new ≡ spec.cast_rows (Some ty) draft.old) }
{
    draft.glue(3)?;
    add_element_rows(draft, ty.element)
}

// The same, if there is a cast.
fn add_cast_rows(draft: &mut Draft, cast: Option<RowType>) -> Result<(), OutOfMemory>
    ensures { OnOk result (draft.new ≡ spec.cast_rows cast draft.old) }
{
    match cast {
        Some(ty) => add_type_rows(draft, ty),
        None => Ok(()),
    }
}

// Adds the row of parentheses, if there are any.
fn add_open_row(draft: &mut Draft, is_open: bool) -> Result<(), OutOfMemory>
    ensures { OnOk result (draft.new ≡ spec.open_rows is_open draft.old) }
{
    if is_open { draft.glue(1) } else { Ok(()) }
}

impl Form {
    /// The form in which the initializer at a row stands in place of a use, where it is cast to a type, if any.
    pub fn of(rows: &[Row], value: u32, cast: Option<RowType>, used: u32) -> Form
        ensures { result ≡ spec.form_of rows.now value cast used }
    {
        Form {
            cast,
            is_enclosed: is_enclosed(rows, value, cast, used),
        }
    }

    // What stands before the initializer.
    #[tactic(auto, using(jr_weave::proofs::Adding::adds_two))]
    fn add_front(self, out: &mut Vec<u8>, rows: &[Row]) -> Result<(), OutOfMemory>
        ensures { OnOk result (out.new.items ≡ out.old.items ++ spec.front_text rows.now self) }
    {
        add_cast(out, rows, self.cast)?;
        add_open(out, self.is_enclosed)
    }

    // What stands behind the initializer.
    #[tactic(auto, using(jr_weave::proofs::Adding::adds_two))]
    fn add_back(self, out: &mut Vec<u8>) -> Result<(), OutOfMemory>
        ensures { OnOk result (out.new.items ≡ out.old.items ++ spec.back_text self) }
    {
        add_close(out, self.is_enclosed)?;
        add_close(out, self.cast.is_some())
    }

    // These bytes in this form.
    #[tactic(auto, using(jr_weave::proofs::Adding::adds_three))]
    fn add_all(self, out: &mut Vec<u8>, rows: &[Row], value: &[u8]) -> Result<(), OutOfMemory>
        ensures { OnOk result (out.new.items ≡ out.old.items ++ spec.form_text rows.now value.now self) }
    {
        self.add_front(out, rows)?;
        add(out, value)?;
        self.add_back(out)
    }

    /// The text of an initializer of these bytes in this form.
    pub fn text(self, alloc: Global, rows: &[Row], value: &[u8]) -> Result<Text, OutOfMemory>
        ensures { IfOk result (λ text. text ≡ spec.form_text rows.now value.now self) }
    {
        let mut out = Vec::new(alloc);
        self.add_all(&mut out, rows, value)?;
        Ok(Text::new(out))
    }

    /// Adds the rows of that text: parentheses and cast come from no old row.
    pub fn add_rows(self, draft: &mut Draft, rows: &[Row], value: u32) -> Result<(), OutOfMemory>
        ensures { OnOk result (draft.new ≡ spec.form_rows rows.now value self draft.old) }
    {
        add_cast_rows(draft, self.cast)?;
        add_open_row(draft, self.is_enclosed)?;
        draft.copy(value, end_of(rows, value))
    }
}

// A name before a dot, which would become one name with what stands behind it.
fn is_merged(rows: &[Row], value: u32, used: u32) -> bool
    ensures { result ≡ spec.is_merged rows.now value used }
{
    is_name(rows, value) && is_before_dot(rows, used)
}

// The initializer has parentheses of its own.
fn is_enclosed(rows: &[Row], value: u32, cast: Option<RowType>, used: u32) -> bool
    ensures { result ≡ spec.is_enclosed rows.now value cast used }
{
    match cast {
        Some(_) => !is_atom(rows, value),
        None => is_merged(rows, value, used) || !is_atom(rows, value),
    }
}
