// The locals of a graph by number.
ghost use Rattle.std.specs.Prelude.{◌≡◌, ◌+◌, ◌∷◌, ◌++◌, [], ℕ, List, None, IfOk, OnOk, Some, length, slice_get};
ghost use Rattle.jr_flow_defs.specs.declared.point.Point as defs;
ghost use Rattle.jr_flow_defs.specs.declared.point.PointKind.TheVariants as kind;
ghost use Rattle.jr_flow_defs.specs.Edges.{point};
ghost use Rattle.jr_flow.specs.Linked.{AreLinked};
ghost use Rattle.jr_flow.specs.Woven.{rows_of, definitions_of, uses_of, number_of, AreNumbered, HasLocal, AreLocals};

use crate::links::Links;
use crate::point::{Point, PointKind};
use jr_base::OutOfMemory;
use std::alloc::Global;
use std::collections::HashMap;

/// The locals of a graph in the order of their points, and the points that define and use each.
#[derive(Drop)]
pub(crate) struct Locals {
    numbers: HashMap<u32, u32>,
    rows: Vec<u32>,
    definitions: Vec<(u32, u32)>,
    uses: Vec<(u32, u32)>,
}

impl Locals {
    pub(crate) fn new(alloc: Global) -> Locals
        ensures { (points : List defs.Point) → AreLocals points 0 result }
    {
        Locals {
            numbers: HashMap::new(alloc),
            rows: Vec::new(alloc),
            definitions: Vec::new(alloc),
            uses: Vec::new(alloc),
        }
    }

    fn find(&self, local: u32) -> Option<u32>
        ensures { result ≡ number_of self.now local }
    {
        self.numbers.get(&local).copied()
    }

    // A local that has no number gets the next one.
    fn push(&mut self, local: u32) -> Result<u32, OutOfMemory>
        ensures { AreNumbered self.old → number_of self.old local ≡ None → IfOk result (λ n. HasLocal self.old self.new local n) }
    {
        let Ok(number) = u32::try_from(self.rows.len()) else {
            return Err(OutOfMemory);
        };
        self.rows.push(local)?;
        self.numbers.insert(local, number)?;
        Ok(number)
    }

    // The number of a local, which may be new.
    fn number(&mut self, local: u32) -> Result<u32, OutOfMemory>
        ensures { AreNumbered self.old → IfOk result (λ n. HasLocal self.old self.new local n) }
    {
        match self.find(local) {
            Some(known) => Ok(known),
            None => self.push(local),
        }
    }

    fn add_definition(&mut self, number: u32, local: u32) -> Result<(), OutOfMemory>
        ensures { (points : List defs.Point) (row : ℕ) → slice_get points number ≡ point row (kind.Definition local) → AreLocals points number self.old → OnOk result (AreLocals points (number + 1) self.new) }
    {
        let key = self.number(local)?;
        self.definitions.push((key, number))?;
        Ok(())
    }

    fn add_use(&mut self, number: u32, local: u32) -> Result<(), OutOfMemory>
        ensures { (points : List defs.Point) (row : ℕ) → slice_get points number ≡ point row (kind.Use local) → AreLocals points number self.old → OnOk result (AreLocals points (number + 1) self.new) }
    {
        let key = self.number(local)?;
        self.uses.push((key, number))?;
        Ok(())
    }

    fn add(&mut self, number: u32, kind: PointKind) -> Result<(), OutOfMemory>
        ensures { (points : List defs.Point) (row : ℕ) → slice_get points number ≡ point row kind → AreLocals points number self.old → OnOk result (AreLocals points (number + 1) self.new) }
    {
        match kind {
            PointKind::Definition { local } => self.add_definition(number, local),
            PointKind::Use { local } => self.add_use(number, local),
            _ => Ok(()),
        }
    }

    /// Adds the locals of all points.
    pub(crate) fn add_all(&mut self, points: &[Point]) -> Result<(), OutOfMemory>
        ensures { AreLocals points.now 0 self.old → OnOk result (AreLocals points.now (length points.now) self.new) }
    {
        let Ok(count) = u32::try_from(points.len()) else {
            return Err(OutOfMemory);
        };
        for number in 0..count {
            self.add(number, points[number as usize].kind)?;
        }
        Ok(())
    }

    /// The points that define each.
    pub(crate) fn link_definitions(&mut self, alloc: Global) -> Result<Links, OutOfMemory>
        ensures linked { IfOk result (λ links. AreLinked (definitions_of self.old) links) }
        ensures rows { rows_of self.new ≡ rows_of self.old }
        ensures uses { uses_of self.new ≡ uses_of self.old }
    {
        Links::of(alloc, &mut self.definitions)
    }

    /// The points that use each.
    pub(crate) fn link_uses(&mut self, alloc: Global) -> Result<Links, OutOfMemory>
        ensures linked { IfOk result (λ links. AreLinked (uses_of self.old) links) }
        ensures rows { rows_of self.new ≡ rows_of self.old }
    {
        Links::of(alloc, &mut self.uses)
    }

    /// The locals.
    pub(crate) fn rows(&self) -> &[u32]
        ensures { result.now ≡ rows_of self.now }
    {
        &self.rows
    }
}
