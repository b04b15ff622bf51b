// The points among places, each with a number.
ghost use Rattle.std.specs.Prelude.{◌≡◌, ℕ, true, false, ◌∷◌, ◌++◌, [], List, Option, Some, None, ◌+◌, ◌<◌, ◌≤◌, IfOk, IfErr, OnOk, option_and_then, slice_get, slice_set};
ghost use Rattle.jr_flow_defs.specs.declared.point.Point as defs;
ghost use Rattle.jr_flow_defs.specs.Edges as edges;
ghost use Rattle.jr_flow.specs.Numbered.{points_in, taken_in, numbers_in, is_free, IsAtBody, HasOwn, TakesNumber, HaveNumbers, ArePointed, AddsPoint, same_number, count_points, OnlyWhere};

use crate::point::{FlowFault, Point, PointKind};
use jr_base::{Limits, OutOfMemory};
use std::alloc::Global;

/// The points of a body, and for each place the number of its point.
#[derive(Drop)]
pub(crate) struct Numbering {
    points: Vec<Point>,
    /// Of the entry and the exits, which have the first three numbers, whether control comes to them.
    taken: Vec<bool>,
    /// For each place the number of the point that stands there, if one does.
    numbers: Vec<Option<u32>>,
    /// How many points control comes to.
    count: u32,
}

// The number of the entry and of each exit.
fn own_number(kind: PointKind) -> Option<u32>
    ensures { result ≡ edges.own_number kind }
{
    match kind {
        PointKind::Entry => Some(0),
        PointKind::Exit => Some(1),
        PointKind::Thrown => Some(2),
        _ => None,
    }
}

#[tactic(auto, using(std::proofs::lemmas::List::set_past))]
fn mark(all: &mut Vec<bool>, at: u32)
    ensures { all.new.items ≡ slice_set all.old.items at true }
{
    if (at as usize) < all.len() {
        all[at as usize] = true;
    }
}

impl Numbering {
    fn new(alloc: Global) -> Numbering
        ensures points { points_in result ≡ [] }
        ensures taken { taken_in result ≡ [] }
        ensures numbers { numbers_in result ≡ [] }
        ensures count { result.count ≡ 0 }
    {
        Numbering {
            points: Vec::new(alloc),
            taken: Vec::new(alloc),
            numbers: Vec::new(alloc),
            count: 0,
        }
    }

    fn begin_one(&mut self, row: u32, kind: PointKind) -> Result<(), OutOfMemory>
        ensures points { OnOk result (points_in self.new ≡ points_in self.old ++ record { row = row; kind = kind } ∷ []) }
        ensures taken { OnOk result (taken_in self.new ≡ taken_in self.old ++ false ∷ []) }
        ensures numbers { numbers_in self.new ≡ numbers_in self.old }
        ensures count { self.new.count ≡ self.old.count }
    {
        self.points.push(Point { row, kind })?;
        self.taken.push(false)?;
        Ok(())
    }

    /// The entry and the exits of a body, and no place yet.
    pub(crate) fn begin(alloc: Global, row: u32) -> Result<Numbering, OutOfMemory>
        ensures { IfOk result (λ numbering. ArePointed row numbering []) }
    {
        let mut numbering = Numbering::new(alloc);
        numbering.begin_one(row, PointKind::Entry)?;
        numbering.begin_one(row, PointKind::Exit)?;
        numbering.begin_one(row, PointKind::Thrown)?;
        Ok(numbering)
    }

    // Control did not come to the entry or exit of this number yet.
    fn is_free(&self, number: u32) -> bool
        ensures { result ≡ is_free (slice_get (taken_in self.now) number) }
    {
        match self.taken.get(number as usize) {
            Some(is_taken) => !*is_taken,
            None => false,
        }
    }

    // The number of the entry or of an exit, to which control comes at one place alone.
    fn take(&mut self, number: u32) -> Result<u32, OutOfMemory>
        ensures taken { (body : ℕ) (x : defs.Point) → HasOwn body self.old → IsAtBody body x → edges.own_number x.kind ≡ Some number → IfOk result (λ n. TakesNumber self.old self.new x n) }
        ensures count { self.new.count ≡ self.old.count }
    {
        if !self.is_free(number) {
            return Err(OutOfMemory);
        }
        mark(&mut self.taken, number);
        Ok(number)
    }

    // The number of any other point.
    fn push(&mut self, point: Point) -> Result<u32, OutOfMemory>
        ensures taken { (body : ℕ) → HasOwn body self.old → edges.own_number point.kind ≡ None → IfOk result (λ n. TakesNumber self.old self.new point n) }
        ensures count { self.new.count ≡ self.old.count }
    {
        let Ok(number) = u32::try_from(self.points.len()) else {
            return Err(OutOfMemory);
        };
        self.points.push(point)?;
        Ok(number)
    }

    fn number(&mut self, point: Point) -> Result<u32, OutOfMemory>
        ensures taken { (body : ℕ) → HasOwn body self.old → IsAtBody body point → IfOk result (λ n. TakesNumber self.old self.new point n) }
        ensures count { self.new.count ≡ self.old.count }
    {
        match own_number(point.kind) {
            Some(number) => self.take(number),
            None => self.push(point),
        }
    }

    // There is one point more.
    fn count_one(&mut self) -> Result<(), FlowFault>
        ensures points { points_in self.new ≡ points_in self.old }
        ensures taken { taken_in self.new ≡ taken_in self.old }
        ensures numbers { numbers_in self.new ≡ numbers_in self.old }
        ensures counted { OnOk result ((self.new.count ≡ self.old.count + 1) × (self.new.count ≤ 65536)) }
        ensures large { IfErr result (OnlyWhere (65536 < self.old.count + 1)) }
    {
        self.count = self.count.saturating_add(1);
        if self.count > Limits::FLOW {
            return Err(FlowFault::TooManyPoints);
        }
        Ok(())
    }

    // A point stands at the next place.
    fn add_point(&mut self, point: Point) -> Result<(), FlowFault>
        ensures added { (body : ℕ) (all : List (Option defs.Point)) → ArePointed body self.old all → IsAtBody body point → OnOk result (ArePointed body self.new (all ++ Some point ∷ [])) }
        ensures large { (body : ℕ) (all : List (Option defs.Point)) → ArePointed body self.old all → IfErr result (OnlyWhere (65536 < count_points (all ++ Some point ∷ []))) }
    {
        self.count_one()?;
        let number = self.number(point)?;
        self.numbers.push(Some(number))?;
        Ok(())
    }

    // No point stands at the next place.
    fn add_none(&mut self) -> Result<(), OutOfMemory>
        ensures { (body : ℕ) (all : List (Option defs.Point)) → ArePointed body self.old all → OnOk result (ArePointed body self.new (all ++ None ∷ [])) }
    {
        self.numbers.push(None)?;
        Ok(())
    }

    /// What stands at the next place.
    pub(crate) fn add(&mut self, found: Option<Point>) -> Result<(), FlowFault>
        ensures added { (body : ℕ) (all : List (Option defs.Point)) → ArePointed body self.old all → AddsPoint body found → OnOk result (ArePointed body self.new (all ++ found ∷ [])) }
        ensures large { (body : ℕ) (all : List (Option defs.Point)) → ArePointed body self.old all → IfErr result (OnlyWhere (65536 < count_points (all ++ found ∷ []))) }
    {
        match found {
            Some(point) => self.add_point(point),
            None => Ok(self.add_none()?),
        }
    }

    /// The number of the point at a place.
    pub(crate) fn at(&self, place: u32) -> Option<u32>
        ensures { result ≡ option_and_then same_number (slice_get (numbers_in self.now) place) }
    {
        *self.numbers.get(place as usize)?
    }

    pub(crate) fn points(&self) -> &[Point]
        ensures { result.now ≡ points_in self.now }
    {
        &self.points
    }
}
