// Static contexts, and the classes that have an instance at a place (JLS 8.1.3, 8.3.2, 8.4.3.2, 8.8.7.1, 15.8.3, 15.8.4).
ghost use Rattle.std.specs.Prelude.{◌≡◌, ◌||◌};
ghost use Rattle.jr_tree.specs.Rows.{label};
ghost use Rattle.jr_tree.specs.Tree.{IsTree};
ghost use Rattle.jr_defs.specs.Enclosing.{InBody};
ghost use Rattle.jr_defs.specs.Instances as context;
ghost use Rattle.jr_plain.specs.Search.{Finds};
ghost use Rattle.jr_plain.specs.Declarations as declared;
ghost use Rattle.jr_plain.specs.Instances as plain;
ghost use Rattle.jr_members.specs.Sources.{ArePlaced};
ghost use Rattle.jr_lookup.specs.Instances as tell;

use jr_places::{
    Places, declaring_type, is_body_of, is_inner, is_interface, parent_at, written_at,
};
use jr_tree::{Label, Row};

// The code of a member is static: of a static method or initializer, or in the initializer of a static field.
fn is_static_code(rows: &[Row], at: u32) -> bool
    ensures { result ≡ context.is_static_code (label rows.now at) }
{
    match rows.get(at as usize) {
        Some(row) => match row.label {
            Label::Initializer { is_static } => is_static,
            _ => written_at(rows, at).is_static,
        },
        None => false,
    }
}

// The row right below the body of the type that holds the place.
fn member_round(rows: &[Row], place: u32, over: u32) -> Option<u32>
    ensures { IsTree rows.now → InBody rows.now over place → Finds result (tell.IsMemberRound rows.now place over) }
{
    let mut here = place;
    for _turn in 0..place {
        let body = parent_at(rows, here);
        if is_body_of(rows, over, body) {
            return Some(here);
        }
        here = body;
    }
    None
}

// The member, in the body of the type, is static code, or a field of an interface.
fn is_static_member(rows: &[Row], over: u32, member: u32) -> bool
    ensures { result ≡ (context.is_static_code (label rows.now member) || declared.is_interface rows.now over) }
{
    is_static_code(rows, member) || is_interface(rows, over)
}

// The place, in the body of the type, stands in static code of it, or in a field of an interface.
fn is_static_in(rows: &[Row], place: u32, over: u32) -> bool
    ensures { IsTree rows.now → InBody rows.now over place → result ≡ plain.is_static_in rows.now place over }
{
    match member_round(rows, place, over) {
        Some(member) => is_static_member(rows, over, member),
        None => false,
    }
}

/// The place stands in static code of the innermost type round it, or in a field of an interface.
pub fn is_in_static_context(rows: &[Row], places: &Places, place: u32) -> bool
    ensures { ArePlaced rows.now places.now → result ≡ plain.is_in_static_context rows.now place }
{
    match places.around(place) {
        Some(over) => is_static_in(rows, place, over),
        None => false,
    }
}

// The class whose objects enclose those of an inner class.
fn enclosing_class(rows: &[Row], class: u32) -> Option<u32>
    ensures { result ≡ tell.enclosing_class rows.now class }
{
    if is_inner(rows, class) {
        declaring_type(rows, class)
    } else {
        None
    }
}

/// There is an instance of the class at the place: it is the innermost one, outside static contexts, or encloses an instance of an inner class.
pub fn has_instance(rows: &[Row], places: &Places, place: u32, class: u32) -> bool
    ensures { ArePlaced rows.now places.now → result ≡ plain.has_instance rows.now place class }
{
    if is_in_static_context(rows, places, place) {
        return false;
    }
    let mut around = places.around(place);
    for _turn in 0..place {
        match around {
            Some(here) => {
                if here == class {
                    return true;
                }
                around = enclosing_class(rows, here);
            }
            None => return false,
        }
    }
    false
}

// The row, unless this is so.
fn unless(is_so: bool, row: u32) -> Option<u32>
    ensures { result ≡ tell.unless is_so row }
{
    if is_so { None } else { Some(row) }
}

/// The innermost type round the place, where that has an instance there.
pub fn instance_round(rows: &[Row], places: &Places, place: u32) -> Option<u32>
    ensures { ArePlaced rows.now places.now → Finds result (tell.IsInstanceRound rows.now place) }
{
    match places.around(place) {
        Some(over) => unless(is_in_static_context(rows, places, place), over),
        None => None,
    }
}
