// Abstract classes and methods that are used (JLS 15.9.1, 15.12.3).
ghost use Rattle.std.specs.Prelude.{◌≡◌};
ghost use Rattle.jr_rules.specs.CreationTests as creations;
ghost use Rattle.jr_type_facts.specs.Facts as tell;
ghost use Rattle.jr_type_faults.specs.Parts as parts;

use jr_places::is_abstract;
use jr_type_facts::{Facts, is_new, is_super_call};

// The type that is named at a row is abstract.
fn names_abstract(facts: &Facts, at: u32) -> bool
    ensures { tell.AreSeenFacts facts.now → result ≡ parts.names_abstract facts.now at }
{
    match facts.view.sight.world.under.named_type(at) {
        Some(class) => is_abstract(facts.rows(), class),
        None => false,
    }
}

// What a row refers to is abstract.
fn refers_to_abstract(facts: &Facts, at: u32) -> bool
    ensures { result ≡ parts.refers_to_abstract facts.now at }
{
    match facts.view.sight.world.under.declared(at) {
        Some(method) => is_abstract(facts.rows(), method),
        None => false,
    }
}

/// A creation of an abstract class or an interface, or a call of an abstract method through `super`.
pub fn abstract_is_used(facts: &Facts, at: u32) -> bool
    ensures { tell.AreSeenFacts facts.now → result ≡ creations.abstract_is_used (tell.rows_of facts.now) (tell.table_of facts.now) at }
{
    (is_new(facts.rows(), at) && names_abstract(facts, at))
        || (is_super_call(facts.rows(), at) && refers_to_abstract(facts, at))
}
