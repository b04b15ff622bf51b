// Where the rows of a changed program come from.

ghost use Rattle.std.specs.Prelude.{◌≡◌, ◌-◌, ◌≤◌, ◌∷◌, [], IsTrue, IfOk, IfSome, OnOk, true, false, length, replicate};
ghost use Rattle.jr_locks.specs.Origins as spec;
ghost use Rattle.jr_locks.specs.Adding.{Adds};

use jr_base::OutOfMemory;
use jr_change::{NO_ROW, Segment};
use std::alloc::Global;

/// Where rows come from.
#[derive(Drop)]
pub struct Origins {
    /// The old row of which each row is a copy, or `NO_ROW`.
    pub origin: Vec<u32>,
    /// Which rows have another label than the old one.
    pub is_turned: Vec<bool>,
    /// How many rows of its run of copies stand from each row on; 0 for a row that stands in none.
    pub rest: Vec<u32>,
}

impl Origins {
    fn push(&mut self, from: u32, is_turned: bool, rest: u32) -> Result<(), OutOfMemory>
        ensures { OnOk result (Adds self.old self.new (from ∷ []) (is_turned ∷ []) (rest ∷ [])) }
    {
        self.origin.push(from)?;
        self.is_turned.push(is_turned)?;
        self.rest.push(rest)?;
        Ok(())
    }

    #[tactic(auto, using(crate::proofs::Adding::adds_none, crate::proofs::Adding::adds_copy))]
    fn push_copies(&mut self, first: u32, end: u32) -> Result<(), OutOfMemory>
        requires { first ≤ end }
        ensures { OnOk result (Adds self.old self.new (spec.run first (end - first)) (replicate (end - first) false) (spec.down (end - first) (end - first))) }
    {
        for at in first..end {
            self.push(at, false, end - at)?;
        }
        Ok(())
    }

    #[tactic(auto, using(crate::proofs::Adding::adds_none, crate::proofs::Adding::adds_glue))]
    fn push_glue(&mut self, count: u32) -> Result<(), OutOfMemory>
        ensures { OnOk result (Adds self.old self.new (replicate count spec.no_row) (replicate count false) (replicate count 0)) }
    {
        for turn in 0..count {
            let _ = turn;
            self.push(NO_ROW, false, 0)?;
        }
        Ok(())
    }

    // Pushes the rows of a segment whose rows are there.
    fn push_rows(&mut self, segment: Segment) -> Result<(), OutOfMemory>
        requires { spec.IsRun segment }
        ensures { OnOk result (Adds self.old self.new (spec.of_segment segment) (spec.turned_in segment) (spec.rest_in segment)) }
    {
        match segment {
            Segment::Copy { first, end } => self.push_copies(first, end),
            Segment::Turned { row } => self.push(row, true, 0),
            Segment::Glue { count } => self.push_glue(count),
        }
    }

    // Pushes the rows of a segment, and says whether it can be: its rows are there, and all are at most so many then.
    fn push_segment(
        &mut self,
        segment: Segment,
        old: usize,
        most: usize,
    ) -> Result<bool, OutOfMemory>
        ensures { IfOk result (λ can. IsTrue can → Adds self.old self.new (spec.of_segment segment) (spec.turned_in segment) (spec.rest_in segment)) }
    {
        let Some(length) = length_of(segment, old) else {
            return Ok(false);
        };
        if length > most.saturating_sub(self.origin.len()) {
            return Ok(false);
        }
        self.push_rows(segment)?;
        Ok(true)
    }
}

// How many rows a segment has, unless it copies rows that are not there.
fn length_of(segment: Segment, old: usize) -> Option<usize>
    ensures { IfSome result (λ _. spec.IsRun segment) }
{
    match segment {
        Segment::Copy { first, end } => {
            if first <= end && end as usize <= old {
                Some((end - first) as usize)
            } else {
                None
            }
        }
        Segment::Turned { row } => { if (row as usize) < old { Some(1) } else { None } }
        Segment::Glue { count } => Some(count as usize),
    }
}

/// The old row of which each row is a copy, where the segments are of so many old rows and make so many rows.
#[tactic(auto, using(crate::proofs::Adding::begun, crate::proofs::Adding::begun_more, crate::proofs::Adding::ended_origin, crate::proofs::Adding::ended_turned, crate::proofs::Adding::ended_rest))]
pub fn origins_of(
    alloc: Global,
    segments: &[Segment],
    old: usize,
    new: usize,
) -> Result<Option<Origins>, OutOfMemory>
    ensures origin { IfOk result (λ found. IfSome found (λ all. all.origin.items ≡ spec.origins segments.now)) }
    ensures turned { IfOk result (λ found. IfSome found (λ all. all.is_turned.items ≡ spec.turned segments.now)) }
    ensures rest { IfOk result (λ found. IfSome found (λ all. all.rest.items ≡ spec.rests segments.now)) }
    ensures count { IfOk result (λ found. IfSome found (λ all. length all.origin.items ≡ new)) }
{
    let mut all = Origins {
        origin: Vec::new(alloc),
        is_turned: Vec::new(alloc),
        rest: Vec::new(alloc),
    };
    for segment in segments {
        if !all.push_segment(*segment, old, new)? {
            return Ok(None);
        }
    }
    if all.origin.len() == new {
        Ok(Some(all))
    } else {
        Ok(None)
    }
}
