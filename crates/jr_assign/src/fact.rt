// What is known of rows besides their labels.
ghost use Rattle.std.specs.Prelude.{◌≡◌, None, false};
ghost use Rattle.jr_assign.specs.Changes.{fact};

/// A way out of a row other than by completing (JLS 14.15 to 14.17).
#[derive(Clone, Copy, PartialEq, Eq)]
pub enum Way {
    Break(u32),
    Continue(u32),
    /// Out of a constructor.
    Return,
}

/// What is known of a row.
#[derive(Clone, Copy)]
pub struct Fact {
    /// The value of an expression that is constant and of type boolean (JLS 15.28).
    pub truth: Option<bool>,
    /// Where a break or continue goes to, if it has a target; `Return` at a return in a constructor.
    pub way: Option<Way>,
    /// The last part, where it has one: of a `for` its body, of a guarded `try` the block of its `finally`.
    pub last: Option<u32>,
    /// A switch has a label `default`.
    pub has_default: bool,
    /// The local that the row reads: a name of it that is not the target of a plain assignment.
    pub read: Option<u32>,
    /// The local, or the blank final field of what is made there, that is assigned once the parts of the row are done: an assignment, or a local with
    /// an initializer.
    pub assigned: Option<u32>,
}

/// What is known of a row of which nothing is.
pub fn no_fact() -> Fact
    ensures { result ≡ record { truth = None; way = None; last = None; has_default = false; read = None; assigned = None } }
{
    Fact {
        truth: None,
        way: None,
        last: None,
        has_default: false,
        read: None,
        assigned: None,
    }
}

pub(crate) fn fact_of(facts: &[Fact], at: usize) -> Fact
    ensures { result ≡ fact facts.now at }
{
    match facts.get(at) {
        Some(known) => *known,
        None => no_fact(),
    }
}
