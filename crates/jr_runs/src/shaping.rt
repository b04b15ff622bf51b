// The labels of rows that are spelled anew.
ghost use Rattle.std.specs.Prelude.{◌≡◌, ◌+◌, ◌<◌, ◌^◌, length, Some, if◌then◌else◌};
ghost use Rattle.jr_runs.specs.declared.item.Form.TheVariants as form_is;
ghost use Rattle.std.specs.Option.{option_copied};
ghost use Rattle.jr_runs.specs.Forms as spec;
ghost use Rattle.jr_runs.specs.Marks.{seen};

use crate::item::{Form, Front};
use crate::marking::Marking;
use jr_shapes::{Shape, Spelling};
use jr_tree::{Label, NameKind, NamePlace, ReceiverKind, Row};

/// The spelling of a row, if it has one.
pub fn spelling_of<'a>(marks: &Marking, spellings: &'a [Spelling], row: u32) -> Option<&'a Spelling>
    ensures { option_copied result ≡ spec.spelling_at spellings.now (seen marks.now) row }
{
    let number = marks.chosen(row)?;
    let spelling = spellings.get(number)?;
    if spelling.row == row {
        Some(spelling)
    } else {
        None
    }
}

/// The shape of a row that is spelled.
pub fn shape_at(marks: &Marking, spellings: &[Spelling], row: u32) -> Option<Shape>
    ensures { result ≡ spec.shape_at spellings.now (seen marks.now) row }
{
    match spelling_of(marks, spellings, row) {
        Some(spelling) => Some(spelling.shape),
        None => None,
    }
}

// A name of this shape is a selection.
fn is_selection(shape: Shape) -> bool
    ensures { result ≡ spec.is_selection shape }
{
    match shape {
        Shape::This => true,
        Shape::Outer(_) => true,
        Shape::Super => true,
        Shape::CastThis(_) => true,
        Shape::CastOuter(_, _) => true,
        Shape::Cast(_) => true,
        _ => false,
    }
}

// What is before the dot stands there still.
fn keeps_left(shape: Option<Shape>) -> bool
    ensures { result ≡ spec.keeps_left shape }
{
    match shape {
        None => true,
        Some(shape) => match shape {
            Shape::Kept => true,
            _ => false,
        },
    }
}

fn selects(shape: Option<Shape>) -> bool
    ensures { result ≡ spec.selects shape }
{
    match shape {
        Some(shape) => is_selection(shape),
        None => false,
    }
}

fn turns_name(shape: Option<Shape>, is_qualified: bool, next: bool) -> bool
    ensures { result ≡ spec.turns_name shape is_qualified next }
{
    if keeps_left(shape) {
        is_qualified && next
    } else {
        selects(shape)
    }
}

/// A name becomes a selection: by its own shape, or because what is before its dot does.
pub fn turns_label(label: &Label, shape: Option<Shape>, next: bool) -> bool
    ensures { result ≡ spec.turns_label label.now shape next }
{
    match label {
        Label::Name { is_qualified, .. } => turns_name(shape, *is_qualified, next),
        _ => false,
    }
}

fn shape_still_qualified(shape: Shape, is_qualified: bool) -> bool
    ensures { result ≡ spec.is_still_qualified (Some shape) is_qualified }
{
    match shape {
        Shape::Bare => false,
        Shape::Type(_) => true,
        Shape::Named(suffix) => 1 < suffix.count,
        _ => is_qualified,
    }
}

fn is_still_qualified(shape: Option<Shape>, is_qualified: bool) -> bool
    ensures { result ≡ spec.is_still_qualified shape is_qualified }
{
    match shape {
        Some(shape) => shape_still_qualified(shape, is_qualified),
        None => is_qualified,
    }
}

fn shape_receiver(shape: Shape, receiver: ReceiverKind) -> ReceiverKind
    ensures { result ≡ spec.receiver_form (Some shape) receiver }
{
    match shape {
        Shape::Kept => receiver,
        Shape::Bare => ReceiverKind::Absent,
        Shape::Type(_) => ReceiverKind::Name,
        _ => ReceiverKind::Expression,
    }
}

fn receiver_form(shape: Option<Shape>, receiver: ReceiverKind) -> ReceiverKind
    ensures { result ≡ spec.receiver_form shape receiver }
{
    match shape {
        None => receiver,
        Some(shape) => shape_receiver(shape, receiver),
    }
}

fn is_super(shape: Option<Shape>) -> bool
    ensures { result ≡ spec.is_super shape }
{
    match shape {
        Some(shape) => match shape {
            Shape::Super => true,
            _ => false,
        },
        None => false,
    }
}

fn casts_this(shape: Option<Shape>) -> bool
    ensures { result ≡ spec.casts_this shape }
{
    match shape {
        Some(shape) => match shape {
            Shape::CastThis(_) => true,
            _ => false,
        },
        None => false,
    }
}

fn is_receiver(front: Front) -> bool
    ensures { result ≡ spec.is_receiver front }
{
    match front {
        Front::Receiver { .. } => true,
        _ => false,
    }
}

fn plain_name(is_cast: bool, kind: NameKind, place: NamePlace, is_qualified: bool) -> Form
    ensures { result ≡ spec.plain_name is_cast kind place is_qualified }
{
    if is_cast {
        Form::Name {
            kind: NameKind::Variable,
            place: NamePlace::Expression,
            is_qualified,
        }
    } else {
        Form::Name {
            kind,
            place,
            is_qualified,
        }
    }
}

fn name_form(
    shape: Option<Shape>,
    is_turned: bool,
    is_cast: bool,
    kind: NameKind,
    place: NamePlace,
    is_qualified: bool,
) -> Form
    ensures { result ≡ spec.name_form shape is_turned is_cast kind place is_qualified }
{
    if is_super(shape) {
        return Form::SuperSelect;
    }
    if is_turned {
        return Form::Select;
    }
    plain_name(
        is_cast,
        kind,
        place,
        is_still_qualified(shape, is_qualified),
    )
}

fn is_named(receiver: ReceiverKind) -> bool
    ensures { result ≡ spec.is_named receiver }
{
    match receiver {
        ReceiverKind::Name => true,
        _ => false,
    }
}

fn call_form(shape: Option<Shape>, next: bool, receiver: ReceiverKind) -> Form
    ensures { result ≡ spec.call_form shape next receiver }
{
    if is_named(receiver) && keeps_left(shape) && next {
        Form::Call {
            receiver: ReceiverKind::Expression,
        }
    } else {
        Form::Call {
            receiver: receiver_form(shape, receiver),
        }
    }
}

fn super_form(shape: Option<Shape>) -> Form
    ensures { result ≡ (if spec.casts_this shape then form_is.Select else form_is.Same) }
{
    if casts_this(shape) {
        Form::Select
    } else {
        Form::Same
    }
}

fn form_by(label: &Label, shape: Option<Shape>, is_turned: bool, next: bool, is_cast: bool) -> Form
    ensures { result ≡ spec.form_by label.now shape is_turned next is_cast }
{
    match label {
        Label::Name {
            kind,
            place,
            is_qualified,
        } => name_form(shape, is_turned, is_cast, *kind, *place, *is_qualified),
        Label::Call { receiver } => call_form(shape, next, *receiver),
        Label::SuperSelect => super_form(shape),
        _ => Form::Same,
    }
}

fn is_turned(back: &[bool], at: usize) -> bool
    ensures { result ≡ spec.is_turned back.now at }
{
    if at < back.len() {
        match back.get(back.len() - at - 1) {
            Some(is_turned) => *is_turned,
            None => false,
        }
    } else {
        false
    }
}

/// The label of a row, where `back` says of each row from the last one back whether it becomes a selection.
pub fn form_of(
    rows: &[Row],
    spellings: &[Spelling],
    marks: &Marking,
    back: &[bool],
    row: u32,
) -> Form
    ensures { result ≡ spec.form_of rows.now spellings.now (seen marks.now) back.now row }
{
    let Some(here) = rows.get(row as usize) else {
        return Form::Same;
    };
    form_by(
        &here.label,
        shape_at(marks, spellings, row),
        is_turned(back, row as usize),
        is_turned(back, row as usize + 1),
        is_receiver(marks.front(row)),
    )
}
