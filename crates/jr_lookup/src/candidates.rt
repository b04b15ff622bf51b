// What an occurrence may refer to, and the answer (JLS 6.5).
ghost use Rattle.std.specs.Prelude.{◌≡◌, [], None, nat_eq};
ghost use Rattle.std.specs.List.{list_all};
ghost use Rattle.jr_plain.specs.Lists.{at_level};
ghost use Rattle.jr_plain.specs.Referents as plain;

use jr_defs::Referent;
use std::alloc::Global;

/// The declarations that an occurrence may refer to, all found through one level.
#[derive(Drop)]
pub struct Candidates {
    pub rows: Vec<u32>,
    pub level: Option<u32>,
}

// Each of the rows is this one.
fn are_all(found: &[u32], first: u32) -> bool
    ensures { result ≡ list_all (nat_eq first) found.now }
{
    found.iter().all(|row| first == *row)
}

// The answer among rows that are found through one level.
#[tactic(auto, using(crate::proofs::Answering::none_is, crate::proofs::Answering::one_is, crate::proofs::Answering::several_are))]
fn answer_of(found: &[u32], level: Option<u32>, otherwise: Referent) -> Referent
    ensures { result ≡ plain.answer_of (at_level level found.now) otherwise }
{
    let Some(first) = found.first().copied() else {
        return otherwise;
    };
    if are_all(found, first) {
        Referent::Declared { row: first, level }
    } else {
        Referent::Ambiguous
    }
}

impl Candidates {
    /// None.
    pub fn none(alloc: Global) -> Candidates
        ensures rows { result.rows.items ≡ [] }
        ensures level { result.level ≡ None }
    {
        Candidates {
            rows: Vec::new(alloc),
            level: None,
        }
    }

    /// The answer: one declaration, or several that are ambiguous, or another answer where there is none.
    pub fn answer(&self, otherwise: Referent) -> Referent
        ensures { result ≡ plain.answer_of (at_level self.now.level self.now.rows.items) otherwise }
    {
        answer_of(&self.rows, self.level, otherwise)
    }
}
