// What is not accessible (JLS 6.6).
ghost use Rattle.std.specs.Prelude.{◌≡◌, ◌<◌, ◌^◌, ◌&&◌, None, length, not, option_map, slice_index_or};
ghost use Rattle.jr_tree.specs.Rows as rows;
ghost use Rattle.jr_defs.specs.Types.{class_type as class_type_of};
ghost use Rattle.jr_plain.specs.Access.{is_accessible};
ghost use Rattle.jr_plain.specs.Declarations as declared;
ghost use Rattle.jr_name_rules.specs.AccessTests as plain;
ghost use Rattle.jr_name_rules.specs.Found.{declared_row, found};
ghost use Rattle.jr_name_faults.specs.Views as tell;

use jr_defs::{Element, RowType};
use jr_places::{is_object, parent_at, sought_at};
use jr_supers::class_type;
use jr_tree::{Label, Row, Sought};
use jr_view::View;

// What is sought behind a dot.
fn is_behind_dot(sought: Sought) -> bool
    ensures { result ≡ plain.is_behind_dot sought }
{
    match sought {
        Sought::Qualified { .. } => true,
        Sought::FieldOf => true,
        Sought::MethodOf => true,
        _ => false,
    }
}

fn is_implicit_call(all: &[Row], at: u32) -> bool
    ensures { result ≡ declared.is_implicit_call (rows.label all.now at) }
{
    match all.get(at as usize) {
        Some(row) => match row.label {
            Label::ImplicitCall => true,
            _ => false,
        },
        None => false,
    }
}

fn is_nothing(sought: Sought) -> bool
    ensures { result ≡ declared.is_nothing sought }
{
    match sought {
        Sought::Nothing => true,
        _ => false,
    }
}

// The class of the constructor in which the row stands is Object.
fn is_in_object(all: &[Row], at: u32) -> bool
    ensures { result ≡ declared.is_object all.now (rows.parent all.now (rows.parent all.now (rows.parent all.now at))) }
{
    is_object(all, parent_at(all, parent_at(all, parent_at(all, at))))
}

/// The row refers to something: it looks for it, and is not the call of super() that Object does without.
pub fn is_occurrence(all: &[Row], at: u32) -> bool
    ensures { result ≡ declared.is_occurrence all.now at }
{
    !is_nothing(sought_at(all, at)) && !(is_implicit_call(all, at) && is_in_object(all, at))
}

// The type of the expression at a row.
fn type_in(types: &[Option<RowType>], at: u32) -> Option<RowType>
    ensures { result ≡ slice_index_or types.now at None }
{
    match types.get(at as usize) {
        Some(ty) => *ty,
        None => None,
    }
}

// The type of the expression before the dot of a row.
fn type_before(view: &View, at: u32) -> Option<RowType>
    ensures { length (tell.rows_in view.now) < 2 ^ 32 → result ≡ tell.type_before (tell.rows_in view.now) (tell.types_in view.now) at }
{
    match view.sight.world.under.first_child(at) {
        Some(next) => type_in(view.types, next),
        None => None,
    }
}

fn object_type(object: Option<u32>) -> Option<RowType>
    ensures { result ≡ option_map class_type_of object }
{
    match object {
        Some(class) => Some(class_type(class)),
        None => None,
    }
}

// The type through which the members of a value are reached: a class, or that of Object for an array.
fn object_of(object: Option<u32>, ty: RowType) -> Option<RowType>
    ensures { result ≡ tell.object_by object ty ty.dims ty.element }
{
    if ty.dims > 0 {
        return object_type(object);
    }
    match ty.element {
        Element::Class(_) => Some(ty),
        _ => None,
    }
}

// The same, of the expression before the dot of a row.
fn object_before(view: &View, at: u32) -> Option<RowType>
    ensures { length (tell.rows_in view.now) < 2 ^ 32 → result ≡ tell.object_of view.now.sight.world.supers.now.direct.object (tell.type_before (tell.rows_in view.now) (tell.types_in view.now) at) }
{
    match type_before(view, at) {
        Some(ty) => object_of(view.sight.world.supers.object(), ty),
        None => None,
    }
}

// The declaration is not accessible at the row, through a receiver of this type where there is one.
fn is_hidden(view: &View, row: u32, at: u32, receiver: Option<RowType>) -> bool
    ensures { tell.IsSeenView view.now → result ≡ not (is_accessible (tell.rows_in view.now) (tell.table_in view.now) row at receiver) }
{
    let world = &view.sight.world;
    !world.is_accessible(row, at, receiver)
}

// The declaration is not accessible through a value, or through a type before the dot of the row.
fn is_hidden_through(
    view: &View,
    row: u32,
    at: u32,
    object: Option<RowType>,
    has_type: bool,
) -> bool
    ensures { tell.IsSeenView view.now → result ≡ tell.is_hidden_through (tell.rows_in view.now) (tell.table_in view.now) row at object has_type }
{
    match object {
        Some(_) => {
            is_hidden(view, row, at, object) || (has_type && is_hidden(view, row, at, None))
        }
        None => is_hidden(view, row, at, None),
    }
}

// The declaration is not accessible through what stands before the dot of the row: an expression, or a type.
fn is_hidden_behind(view: &View, row: u32, at: u32) -> bool
    ensures { tell.IsSeenView view.now → result ≡ tell.is_hidden_behind view.now row at }
{
    let object = object_before(view, at);
    let has_type = view.sight.world.under.named_type(at).is_some();
    is_hidden_through(view, row, at, object, has_type)
}

// The declaration is not accessible through what stands before the dot of the row, if there is one.
fn is_hidden_from(view: &View, row: u32, at: u32, is_behind: bool) -> bool
    ensures { tell.IsSeenView view.now → result ≡ tell.is_hidden_from view.now row at is_behind }
{
    if is_behind {
        is_hidden_behind(view, row, at)
    } else {
        is_hidden(view, row, at, None)
    }
}

// What the row refers to is not accessible.
fn is_target_hidden(view: &View, at: u32, is_behind: bool) -> bool
    ensures { tell.IsSeenView view.now → result ≡ found (declared_row (tell.table_in view.now at)) (λ d. tell.is_hidden_from view.now d at is_behind) }
{
    match view.sight.world.under.declared(at) {
        Some(row) => is_hidden_from(view, row, at, is_behind),
        None => false,
    }
}

// The class of such a value, or of an array of such, is not accessible.
fn has_hidden_class(view: &View, at: u32, ty: RowType) -> bool
    ensures { tell.IsSeenView view.now → result ≡ plain.has_hidden_class (tell.rows_in view.now) (tell.table_in view.now) at ty }
{
    match ty.element {
        Element::Class(class) => is_hidden(view, class, at, None),
        _ => false,
    }
}

// What stands before the dot is a value of a class, or an array of one, that is not accessible.
fn is_of_hidden_type(view: &View, at: u32) -> bool
    ensures { tell.IsSeenView view.now → result ≡ found (tell.type_before (tell.rows_in view.now) (tell.types_in view.now) at) (λ a. plain.has_hidden_class (tell.rows_in view.now) (tell.table_in view.now) at a) }
{
    match type_before(view, at) {
        Some(ty) => has_hidden_class(view, at, ty),
        None => false,
    }
}

// What the row refers to is not accessible, or no member of what stands before its dot is.
fn is_hidden_at(view: &View, at: u32, is_behind: bool) -> bool
    ensures { tell.IsSeenView view.now → result ≡ tell.is_hidden_at view.now at is_behind }
{
    is_target_hidden(view, at, is_behind) || (is_behind && is_of_hidden_type(view, at))
}

// The row refers to something, which is hidden there.
fn is_hidden_occurrence(view: &View, at: u32) -> bool
    ensures { tell.IsSeenView view.now → result ≡ (declared.is_occurrence (tell.rows_in view.now) at && tell.is_hidden_at view.now at (plain.is_behind_dot (rows.sought_at (tell.rows_in view.now) at))) }
{
    let rows = view.sight.world.under.rows;
    is_occurrence(rows, at) && is_hidden_at(view, at, is_behind_dot(sought_at(rows, at)))
}

/// What the row refers to is not accessible, or no member of what stands before its dot is.
pub fn is_not_accessible(view: &View, at: u32) -> bool
    ensures { tell.IsSeenView view.now → result ≡ plain.is_not_accessible (tell.rows_in view.now) (tell.table_in view.now) (tell.types_in view.now) at }
{
    is_hidden_occurrence(view, at)
}
