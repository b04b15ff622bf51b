// The first name that has no declaration, or more than one.
ghost use Rattle.std.specs.Prelude.{◌≡◌, ◌<◌, ◌^◌, Decides, IfSome, None, length};
ghost use Rattle.jr_tree.specs.Rows.{label, parent};
ghost use Rattle.jr_defs.specs.Compiling.{AllFound};
ghost use Rattle.jr_defs.specs.Referents.{entries};
ghost use Rattle.jr_marks.specs.Places.{IsOrdered};
ghost use Rattle.jr_plain.specs.Declarations as plain;
ghost use Rattle.jr_front.specs.Unbound.{IsBefore, IsEarlier, IsFirstLost, is_lost};

use jr_base::Place;
use jr_defs::Referent;
use jr_marks::Marks;
use jr_places::{is_object, parent_at, sought_at};
use jr_tree::{Label, Row, Sought};

// The row is a call of `super()` that is not written.
fn is_implicit_call(rows: &[Row], at: u32) -> bool
    ensures { result ≡ plain.is_implicit_call (label rows.now at) }
{
    match rows.get(at as usize) {
        Some(row) => match row.label {
            Label::ImplicitCall => true,
            _ => false,
        },
        None => false,
    }
}

fn is_nothing(sought: Sought) -> bool
    ensures { result ≡ plain.is_nothing sought }
{
    match sought {
        Sought::Nothing => true,
        _ => false,
    }
}

// The row three rows up.
fn third_parent(rows: &[Row], at: u32) -> u32
    ensures { result ≡ parent rows.now (parent rows.now (parent rows.now at)) }
{
    parent_at(rows, parent_at(rows, parent_at(rows, at)))
}

// Whether the row is an occurrence, which refers to something (JLS 6.5); the implicit call of the constructor of Object refers to nothing (JLS 8.8.7).
fn is_occurrence(rows: &[Row], at: u32) -> bool
    ensures { result ≡ plain.is_occurrence rows.now at }
{
    !is_nothing(sought_at(rows, at))
        && !(is_implicit_call(rows, at) && is_object(rows, third_parent(rows, at)))
}

// Whether what the occurrence refers to is not found, or is not one.
fn is_lost(table: &[Referent], at: u32) -> bool
    ensures { result ≡ is_lost (entries table.now at) }
{
    match table.get(at as usize) {
        Some(Referent::Unbound) => true,
        Some(Referent::Ambiguous) => true,
        Some(_) => false,
        None => true,
    }
}

/// Of the occurrences that have no declaration, or more than one, the first by place (JLS 6.5); where there are more rows than numbers, the last that has a number.
pub fn first_unbound(marks: &Marks, table: &[Referent]) -> Option<Place>
    ensures none { result ≡ None → AllFound marks.now.rows.now (entries table.now) }
    ensures found { length marks.now.rows.now < 2 ^ 32 → AllFound marks.now.rows.now (entries table.now) → result ≡ None }
    ensures first { IsOrdered marks.now → IfSome result (IsFirstLost marks.now (entries table.now)) }
{
    let rows = marks.rows;
    let mut first = None;
    let Ok(count) = u32::try_from(rows.len()) else {
        return Some(marks.name_place(u32::MAX));
    };
    for at in 0..count {
        if is_occurrence(rows, at) && is_lost(table, at) {
            first = Some(earlier(first, marks.name_place(at)));
        }
    }
    first
}

/// The place that comes first, by unit and offset.
pub fn earlier(best: Option<Place>, place: Place) -> Place
    ensures { IsEarlier best place result }
{
    match best {
        Some(best) if !is_before(place, best) => best,
        _ => place,
    }
}

/// Whether the first place comes before the second, by unit and offset.
pub fn is_before(one: Place, other: Place) -> bool
    ensures { Decides result (IsBefore one other) }
{
    one.cu.0 < other.cu.0 || (one.cu.0 == other.cu.0 && one.at < other.at)
}
