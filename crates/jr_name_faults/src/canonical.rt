// Canonical names of types (JLS 6.7).
ghost use Rattle.std.specs.Prelude.{◌≡◌, ◌<◌, ◌≤◌, ◌^◌, length};
ghost use Rattle.std.specs.Bool.{Decides};
ghost use Rattle.jr_tree.specs.Below.{IsTypeName};
ghost use Rattle.jr_tree.specs.Rows.{label};
ghost use Rattle.jr_defs.specs.Declarations.{IsType};
ghost use Rattle.jr_defs.specs.Packages.{InPackage, spelled};
ghost use Rattle.jr_defs.specs.Rules.{CanonicalName};
ghost use Rattle.jr_places.specs.Packages.{same_some};
ghost use Rattle.jr_members.specs.Sources.{ArePlaced};
ghost use Rattle.jr_name_faults.specs.Canonical.{IsTopOf};

use jr_places::{Places, declaring_type, end_at, is_top_level};
use jr_tree::Row;

fn is_one(one: Option<u32>, other: Option<u32>) -> bool
    ensures { result ≡ same_some one other }
{
    match one {
        Some(first) => match other {
            Some(second) => first == second,
            None => false,
        },
        None => false,
    }
}

// The row stands in the package that a name spells, by the row of its last identifier.
fn is_in_package(rows: &[Row], places: &Places, row: u32, name: u32) -> bool
    ensures { ArePlaced rows.now places.now → length rows.now < 2 ^ 32 → name < length rows.now → Decides result (InPackage rows.now (spelled rows.now name) row) }
{
    is_one(places.spelled(rows, name), places.package(row))
}

// A type that its unit declares outside any other, of the package that a name spells from the row on, if it has not ended there.
fn is_top_of(rows: &[Row], places: &Places, class: u32, from: u32, end: u32) -> bool
    ensures { ArePlaced rows.now places.now → length rows.now < 2 ^ 32 → end ≤ length rows.now → Decides result (IsTopOf rows.now class from end) }
{
    if from >= end || !is_top_level(rows, class) {
        return false;
    }
    is_in_package(rows, places, class, from)
}

/// The name whose last identifier is the row is the canonical name of the type: that of its package, or of the type that declares it, and its own.
pub fn is_canonical_name(rows: &[Row], places: &Places, class: u32, at: u32) -> bool
    ensures { ArePlaced rows.now places.now → length rows.now < 2 ^ 32 → IsType rows.now class → IsTypeName (label rows.now at) → Decides result (CanonicalName rows.now class (spelled rows.now at)) }
{
    let end = end_at(rows, at);
    let mut here = class;
    for place in at..end {
        if places.name(here) != places.name(place) {
            return false;
        }
        match declaring_type(rows, here) {
            Some(over) => here = over,
            None => return is_top_of(rows, places, here, place.saturating_add(1), end),
        }
    }
    false
}
