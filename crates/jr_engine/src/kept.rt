// Whether a change changes anything.

ghost use Rattle.std.specs.Prelude.{◌≡◌, true};
ghost use Rattle.jr_engine.specs.Requested as told;

use jr_change::{ChangedUnit, UnitSource};
use jr_defs::UnitAt;

/// How many units the prelude has. They come first.
const PRELUDE: usize = 2;

// The unit is this one as it is, whose number is told.
fn is_kept(unit: &UnitAt, number: usize, changed: &ChangedUnit) -> bool
    ensures { result ≡ told.is_kept unit.now number changed.now }
{
    match changed.source {
        UnitSource::Kept(from) => from as usize == number
            && unit.path.bytes() == changed.path.bytes(),
        _ => false,
    }
}

// The units are these as they are, the first of this number, one after another.
fn are_kept(units: &[UnitAt], first: usize, changed: &[ChangedUnit]) -> bool
    ensures { result ≡ true → told.are_kept units.now first changed.now ≡ true }
{
    let mut number = first;
    let mut rest = units;
    let mut more = changed;
    while let [next, after @ ..] = more {
        let [unit, behind @ ..] = rest else {
            return false;
        };
        if !is_kept(unit, number, next) {
            return false;
        }
        let Some(behind_it) = number.checked_add(1) else {
            return false;
        };
        number = behind_it;
        rest = behind;
        more = after;
    }
    rest.is_empty()
}

/// The units of the change are all units of the program but the prelude, each as it is.
pub fn changes_nothing(units: &[UnitAt], changed: &[ChangedUnit]) -> bool
    ensures { result ≡ true → told.keeps_all units.now changed.now ≡ true }
{
    match units {
        [_, _, rest @ ..] => are_kept(rest, PRELUDE, changed),
        _ => false,
    }
}
