// Expressions that have another type after an inline.
ghost use Rattle.std.specs.Prelude.{◌≡◌, ◌<◌, ◌^◌, length};
ghost use Rattle.jr_constants.specs.Resting.{values_of};
ghost use Rattle.jr_constants.specs.Values as values;
ghost use Rattle.jr_marks.specs.Places.{IsOrdered};
ghost use Rattle.jr_draft.specs.Asking.{rows_of as rows_in};
ghost use Rattle.jr_inline.specs.Retyping as spec;

use crate::form::{has_type, type_of};
use crate::removal::{is_gone, rows_of};
use jr_base::Place;
use jr_change::{Change, Course, Locks, Project, RowRange};
use jr_constants::{Constants, Value};
use jr_defs::{Element, RowType};
use jr_locks::row_for;
use jr_marks::Marks;

/// The types of a program's expressions, and the values of those that are constant.
#[derive(Clone, Copy)]
pub struct Typing<'a> {
    pub types: &'a [Option<RowType>],
    pub constants: &'a Constants,
}

/// The types before and after an inline of a local, and which rows come from which.
#[derive(Clone, Copy)]
pub struct Retyping<'a> {
    pub before: Typing<'a>,
    pub after: Typing<'a>,
    /// The old row of which each row is a copy.
    pub origin: &'a [u32],
    /// The first copy of each old row.
    pub copy: &'a [u32],
    /// The old rows of the declarator of the local.
    pub gone: RowRange,
}

fn is_text(value: Value) -> bool
    ensures { result ≡ values.is_text value }
{
    matches!(value, Value::Str(_))
}

fn is_text_if(value: Option<Value>) -> bool
    ensures { result ≡ spec.is_text_if value }
{
    match value {
        Some(value) => is_text(value),
        None => false,
    }
}

// The expression is a constant string (JLS 15.28).
fn is_constant_string(constants: &Constants, at: u32) -> bool
    ensures { result ≡ spec.is_string (values_of constants.now at) }
{
    is_text_if(constants.value(at))
}

// A type with the class of this row, if there is one.
fn class_type(class: Option<u32>, dims: usize) -> Option<RowType>
    ensures { result ≡ spec.class_type class dims }
{
    match class {
        Some(class) => Some(RowType {
            element: Element::Class(class),
            dims,
        }),
        None => None,
    }
}

fn moved_by(copy: &[u32], ty: RowType) -> Option<RowType>
    ensures { result ≡ spec.moved_by ty.element copy.now ty }
{
    match ty.element {
        Element::Class(class) => class_type(row_for(copy, class), ty.dims),
        _ => Some(ty),
    }
}

// An old type as one of the changed program; none where its class is not there.
fn moved_type(copy: &[u32], ty: Option<RowType>) -> Option<RowType>
    ensures { result ≡ spec.moved_type copy.now ty }
{
    match ty {
        Some(ty) => moved_by(copy, ty),
        None => None,
    }
}

// Both are this type, or there is none.
fn is_same_type(ty: Option<RowType>, found: Option<RowType>) -> bool
    ensures { result ≡ spec.is_same_type ty found }
{
    match ty {
        Some(ty) => has_type(found, ty),
        None => match found {
            Some(_) => false,
            None => true,
        },
    }
}

fn is_other(one: bool, other: bool) -> bool
    ensures { result ≡ spec.is_other one other }
{
    if one { !other } else { other }
}

// The first place stands before the second.
fn is_before(one: Place, other: Place) -> bool
    ensures { result ≡ spec.is_before one other }
{
    one.cu.0 < other.cu.0 || (one.cu.0 == other.cu.0 && one.at < other.at)
}

// Of two rows with their places the second, if it stands before the first.
fn earlier(first: u32, place: Place, row: u32, other: Place) -> u32
    ensures { result ≡ spec.earlier first place row other }
{
    if is_before(other, place) { row } else { first }
}

// The row, unless there is another that stands before it or at its place.
fn first_of(marks: &Marks, first: Option<u32>, row: u32) -> Option<u32>
    ensures { IsOrdered marks.now → result ≡ spec.first_of marks.now first row }
{
    match first {
        Some(known) => Some(earlier(known, marks.name_place(known), row, marks.name_place(row))),
        None => Some(row),
    }
}

fn count_of(origin: &[u32]) -> u32
    ensures { length origin.now < 2 ^ 32 → result ≡ length origin.now }
{
    match u32::try_from(origin.len()) {
        Ok(count) => count,
        Err(_) => u32::MAX,
    }
}

impl<'a> Retyping<'a> {
    fn of(old: &'a Project<'a>, new: &'a Project<'a>, locks: &'a Locks, local: u32) -> Retyping<'a>
        ensures { spec.comparison result ≡ spec.comparison_of old.now new.now locks.now local }
    {
        Retyping {
            before: Typing {
                types: old.view.types,
                constants: old.view.constants,
            },
            after: Typing {
                types: new.view.types,
                constants: new.view.constants,
            },
            origin: &locks.origin,
            copy: &locks.copy,
            gone: rows_of(old.marks.rows, local),
        }
    }

    // A copy of the old row has another type than that.
    fn has_other_type(&self, from: u32, row: u32) -> bool
        ensures { result ≡ spec.has_other_type (spec.comparison self.now) from row }
    {
        !is_same_type(
            moved_type(self.copy, type_of(self.before.types, from)),
            type_of(self.after.types, row),
        )
    }

    // One of the two is a constant string, and the other is not.
    fn has_other_string(&self, from: u32, row: u32) -> bool
        ensures { result ≡ spec.has_other_string (spec.comparison self.now) from row }
    {
        is_other(
            is_constant_string(self.before.constants, from),
            is_constant_string(self.after.constants, row),
        )
    }

    fn is_typed_anew(&self, from: u32, row: u32) -> bool
        ensures { result ≡ spec.is_typed_anew (spec.comparison self.now) from row }
    {
        self.has_other_type(from, row) || self.has_other_string(from, row)
    }

    fn is_retyped_from(&self, from: u32, row: u32) -> bool
        ensures { result ≡ spec.is_retyped_from (spec.comparison self.now) from row }
    {
        !is_gone(self.gone, from) && self.is_typed_anew(from, row)
    }

    // The row comes from one outside the declarator of the local, and has another type than that, or is a constant string where that is none, or the
    // other way.
    fn is_retyped(&self, row: u32) -> bool
        ensures { result ≡ spec.is_retyped (spec.comparison self.now) row }
    {
        match row_for(self.origin, row) {
            Some(from) => self.is_retyped_from(from, row),
            None => false,
        }
    }

    // The first of the rows found so far and this one, if it is retyped.
    fn first_with(&self, marks: &Marks, first: Option<u32>, row: u32) -> Option<u32>
        ensures { IsOrdered marks.now → result ≡ spec.first_with (spec.comparison self.now) marks.now first row }
    {
        if self.is_retyped(row) {
            first_of(marks, first, row)
        } else {
            first
        }
    }

    // The first row that is retyped, by the marks of the changed program.
    fn first(&self, marks: &Marks) -> Option<u32>
        ensures { IsOrdered marks.now → length self.now.origin.now < 2 ^ 32 → spec.IsFoundBelow (spec.is_retyped (spec.comparison self.now)) marks.now (length self.now.origin.now) result }
    {
        let mut first = None;
        for row in 0..count_of(self.origin) {
            first = self.first_with(marks, first, row);
        }
        first
    }
}

// The local that a change inlines, if it does.
fn inlined_local(course: &Course) -> Option<u32>
    ensures { result ≡ spec.inlined_local course.now }
{
    match course {
        Course::Inlined { local, .. } => Some(*local),
        _ => None,
    }
}

/// The first row of the changed program, by its place, that has another type than the row from which it comes, or is a constant string where that is
/// none, or the other way; the copies of the initializer are passed over. None for a change that inlines no local. `new` is the changed program
/// under its locks, once what is written of it is known to compile.
pub fn first_retyped(old: &Project, new: &Project, locks: &Locks, change: &Change) -> Option<u32>
    ensures { (before after : spec.Typed) → spec.AreCompared old.now new.now locks.now change.now before after → spec.IsRetypedIf (rows_in old.now) change.now before after new.now.marks result }
{
    match inlined_local(&change.course) {
        Some(local) => {
            let retyping = Retyping::of(old, new, locks, local);
            retyping.first(&new.marks)
        }
        None => None,
    }
}
