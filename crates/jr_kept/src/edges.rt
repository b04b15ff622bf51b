// Edges that stand on one side alone, and the first of them.
ghost use Rattle.std.specs.Prelude.{◌≡◌, Some, None};
ghost use Rattle.jr_kept.specs.Ordered.{is_before, first_with, AreNone};

/// An edge between two nodes, by their rows in the old program.
#[derive(Clone, Copy, Debug, PartialEq, Eq)]
pub(crate) struct Edge {
    pub(crate) first: u32,
    pub(crate) second: u32,
}

impl Edge {
    fn is_before(self, other: Edge) -> bool
        ensures { result ≡ is_before self other }
    {
        self.first < other.first || self.first == other.first && self.second < other.second
    }
}

fn earlier(known: Option<Edge>, edge: Edge) -> Edge
    ensures { result ≡ first_with known edge }
{
    match known {
        Some(before) => { if edge.is_before(before) { edge } else { before } }
        None => edge,
    }
}

/// The first edge so far that stands in the old program alone, and the first that stands in the changed one alone.
#[derive(Clone, Copy, Debug, PartialEq, Eq)]
pub(crate) struct Firsts {
    pub(crate) before: Option<Edge>,
    pub(crate) after: Option<Edge>,
}

impl Firsts {
    pub(crate) fn none() -> Firsts
        ensures { AreNone result }
    {
        Firsts {
            before: None,
            after: None,
        }
    }

    /// An edge stands in the old program alone.
    pub(crate) fn put_old(&mut self, edge: Edge)
        ensures before { self.new.before ≡ Some (first_with self.old.before edge) }
        ensures after { self.new.after ≡ self.old.after }
    {
        self.before = Some(earlier(self.before, edge));
    }

    /// An edge stands in the changed program alone.
    pub(crate) fn put_new(&mut self, edge: Edge)
        ensures before { self.new.before ≡ self.old.before }
        ensures after { self.new.after ≡ Some (first_with self.old.after edge) }
    {
        self.after = Some(earlier(self.after, edge));
    }
}
