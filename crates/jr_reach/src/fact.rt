// What is known of rows besides their labels.
ghost use Rattle.std.specs.Prelude.{◌≡◌, None, false};
ghost use Rattle.jr_reach.specs.Statements.{fact};

/// Where a jump goes to: behind a statement, or to the next turn of a loop (JLS 14.15, 14.16).
#[derive(Clone, Copy, Debug, PartialEq, Eq)]
pub enum Exit {
    Break(u32),
    Continue(u32),
}

/// What is known of a row.
#[derive(Clone, Copy, Debug, PartialEq, Eq)]
pub struct Fact {
    /// The value of an expression that is constant and of type boolean (JLS 15.28).
    pub truth: Option<bool>,
    /// Where a jump goes to, if it has a target.
    pub exit: Option<Exit>,
    /// The block of a `finally`.
    pub last: Option<u32>,
    /// A switch has a label `default`.
    pub has_default: bool,
}

/// What is known of a row of which nothing is.
pub fn no_fact() -> Fact
    ensures { result ≡ record { truth = None; exit = None; last = None; has_default = false } }
{
    Fact {
        truth: None,
        exit: None,
        last: None,
        has_default: false,
    }
}

pub(crate) fn fact_of(facts: &[Fact], n: usize) -> Fact
    ensures { result ≡ fact facts.now n }
{
    match facts.get(n) {
        Some(known) => *known,
        None => no_fact(),
    }
}
