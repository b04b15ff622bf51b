// Switches and their labels (JLS 14.11).
ghost use Rattle.std.specs.Prelude.{◌≡◌, ◌+◌, ◌<◌, ◌^◌};
ghost use Rattle.jr_rules.specs.StatementTests as statements;
ghost use Rattle.jr_type_facts.specs.Facts as tell;
ghost use Rattle.jr_type_facts.specs.Cases.{is_met};
ghost use Rattle.jr_type_faults.specs.Parts as parts;
ghost use Rattle.jr_type_faults.specs.Parts.{AreRepeatedIn};

use crate::values::first_does_not_fit;
use jr_type_facts::{Facts, is_case, is_int_like, is_switch, switch_of};

// A switch on another type than char, byte, short and int.
fn type_is_not_switched(facts: &Facts, at: u32) -> bool
    ensures { tell.AreSeenFacts facts.now → result ≡ parts.type_is_not_switched facts.now at }
{
    is_switch(facts.rows(), at) && first_is_no_int(facts, at)
}

// The first child has a type that does not promote to int.
fn first_is_no_int(facts: &Facts, at: u32) -> bool
    ensures { tell.AreSeenFacts facts.now → result ≡ parts.first_is_no_int facts.now at }
{
    match facts.first(at) {
        Some(ty) => !is_int_like(ty),
        None => false,
    }
}

// A label that is not constant.
fn label_is_not_constant(facts: &Facts, at: u32) -> bool
    ensures { at + 1 < 2 ^ 32 → result ≡ parts.label_is_not_constant facts.now at }
{
    match at.checked_add(1) {
        Some(value) => !facts.is_constant(value),
        None => true,
    }
}

// A label that is not assignable to the type of its switch.
fn label_is_not_assignable(facts: &Facts, at: u32) -> bool
    ensures { tell.AreSeenFacts facts.now → result ≡ parts.label_is_not_assignable facts.now at }
{
    first_does_not_fit(facts, at, facts.first(switch_of(facts.rows(), at)))
}

// A label that is not constant or not assignable.
fn label_is_wrong(facts: &Facts, at: u32) -> bool
    ensures { tell.AreSeenFacts facts.now → at + 1 < 2 ^ 32 → result ≡ parts.label_is_wrong facts.now at }
{
    label_is_not_constant(facts, at) || label_is_not_assignable(facts, at)
}

fn label_does_not_fit(facts: &Facts, at: u32) -> bool
    ensures { tell.AreSeenFacts facts.now → at + 1 < 2 ^ 32 → result ≡ parts.label_does_not_fit facts.now at }
{
    is_case(facts.rows(), at) && label_is_wrong(facts, at)
}

// The same label stands before this one in its switch.
fn is_repeated(facts: &Facts, at: u32) -> bool
    ensures { AreRepeatedIn facts.now → result ≡ is_met (tell.rows_of facts.now) (tell.constants_of facts.now) (tell.types_of facts.now) at }
{
    facts.tables.is_repeated(at)
}

// A label that is not constant, not assignable or repeated.
fn label_is_refused(facts: &Facts, at: u32) -> bool
    ensures { tell.AreSeenFacts facts.now → at + 1 < 2 ^ 32 → AreRepeatedIn facts.now → result ≡ parts.label_is_refused facts.now at }
{
    label_does_not_fit(facts, at) || is_repeated(facts, at)
}

/// A switch on another type than char, byte, short and int; a label that is not constant, not assignable or repeated; a second default.
pub fn switch_does_not_fit(facts: &Facts, at: u32) -> bool
    ensures { tell.AreSeenFacts facts.now → at + 1 < 2 ^ 32 → AreRepeatedIn facts.now → result ≡ statements.switch_does_not_fit (tell.rows_of facts.now) (tell.table_of facts.now) (tell.constants_of facts.now) (tell.types_of facts.now) at }
{
    type_is_not_switched(facts, at) || label_is_refused(facts, at)
}
