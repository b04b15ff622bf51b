// Values and the types that they are to fit (JLS 5.2).
ghost use Rattle.std.specs.Prelude.{◌≡◌};
ghost use Rattle.jr_type_facts.specs.Facts as tell;
ghost use Rattle.jr_type_faults.specs.Parts as parts;

use jr_defs::RowType;
use jr_type_facts::Facts;

/// The value at a row, of a type, is not assignable to a type.
pub fn does_not_fit(facts: &Facts, at: u32, to: Option<RowType>, from: Option<RowType>) -> bool
    ensures { tell.AreSeenFacts facts.now → result ≡ parts.does_not_fit facts.now at to from }
{
    match to {
        Some(high) => match from {
            Some(low) => !facts.is_assignable(at, low, high),
            None => false,
        },
        None => false,
    }
}

/// The first child of a row is a value that is not assignable to a type.
pub fn first_does_not_fit(facts: &Facts, at: u32, to: Option<RowType>) -> bool
    ensures { tell.AreSeenFacts facts.now → result ≡ parts.first_does_not_fit facts.now at to }
{
    match facts.view.sight.world.under.first_child(at) {
        Some(value) => does_not_fit(facts, value, to, facts.type_of(value)),
        None => false,
    }
}
