// Edges from definitions to uses that are lost.
ghost use Rattle.std.specs.Prelude.{◌≡◌, ◌<◌, ℕ, Some, true, IfOk, OnOk, length};
ghost use Rattle.std.specs.List.{Contains};
ghost use Rattle.jr_places.specs.Stamps.{is_stamped, IsStamping, IsEmptied};
ghost use Rattle.jr_kept.specs.Listed.{under_in};
ghost use Rattle.jr_kept.specs.Named.{origin_in};
ghost use Rattle.jr_kept.specs.Ordered.{AreNone, Checks, Tells};
ghost use Rattle.jr_kept.specs.Gathered.{use_in, is_original, AreBelow, AreInside, AreOriginals};
ghost use Rattle.jr_kept.specs.Arrived as tell;

use crate::defining::defining_row;
use crate::edges::{Edge, Firsts};
use crate::flows::Flows;
use crate::gathering::{Gathering, Originals, definitions_by_use, point_at, row_bound};
use crate::handing::Handing;
use crate::lists::Lists;
use jr_base::OutOfMemory;
use jr_flow::{Point, PointKind};
use jr_locks::row_for;
use jr_places::Stamps;
use jr_tree::Row;
use std::alloc::Global;

/// The definitions that reach each use before and after the change.
#[derive(Clone, Copy)]
struct Uses<'a> {
    /// The rows of the old program.
    rows: &'a [Row],
    before: &'a Lists,
    after: &'a Lists,
    handing: &'a Handing,
    /// The old row of which each row of the changed program is a copy, or `NO_ROW`.
    origin: &'a [u32],
}

// Puts an edge of the old program from a definition to a use, unless it is there.
fn put_old_unless(rows: &[Row], definition: u32, used: u32, is_there: bool, lost: &mut Firsts)
    ensures { Tells lost.old lost.new (is_there ≡ true) }
{
    if !is_there {
        lost.put_old(Edge {
            first: defining_row(rows, definition),
            second: used,
        });
    }
}

// Puts an edge of the changed program from a definition to a use, unless it is there.
fn put_new_unless(rows: &[Row], definition: u32, used: u32, is_there: bool, lost: &mut Firsts)
    ensures { Tells lost.old lost.new (is_there ≡ true) }
{
    if !is_there {
        lost.put_new(Edge {
            first: defining_row(rows, definition),
            second: used,
        });
    }
}

// Puts the definitions of the old use that do not reach its copy.
fn put_old_alone(
    rows: &[Row],
    definitions: &[u32],
    originals: &Originals,
    used: u32,
    lost: &mut Firsts,
)
    ensures { Tells lost.old lost.new ((n : ℕ) → Contains definitions.now n → is_original originals.now n ≡ true) }
{
    for definition in definitions {
        put_old_unless(rows, *definition, used, originals.has(*definition), lost);
    }
}

// Puts the definitions that reach the copy of the old use, and not this.
fn put_new_alone(rows: &[Row], definitions: &[u32], old: &Stamps, used: u32, lost: &mut Firsts)
    ensures { Tells lost.old lost.new ((n : ℕ) → Contains definitions.now n → is_stamped old.now n ≡ true) }
{
    for definition in definitions {
        put_new_unless(rows, *definition, used, old.has(*definition), lost);
    }
}

/// Puts rows into a set.
pub(crate) fn fill(set: &mut Stamps, rows: &[u32])
    ensures { (bound : ℕ) → IsEmptied set.old bound → IsStamping set.new bound × ((n : ℕ) → is_stamped set.new n ≡ true → Contains rows.now n) × ((n : ℕ) → Contains rows.now n → n < bound → is_stamped set.new n ≡ true) }
{
    for row in rows {
        let _ = set.add(*row);
    }
}

/// The definitions of a use of the old program, and those of its copy.
#[derive(Drop)]
struct Sides {
    known: Stamps,
    gathering: Gathering,
}

impl Sides {
    // Puts the definitions that reach just one of an old use and its copy.
    fn compare(
        &mut self,
        uses: &Uses,
        used: u32,
        old: u32,
        lost: &mut Firsts,
    ) -> Result<(), OutOfMemory>
        ensures checks { (many bound : ℕ) → AreInside (under_in uses.now.after.now) bound → tell.AreSides self.old many bound → OnOk result (tell.AreSides self.new many bound × Checks lost.old lost.new (tell.IsSame uses.now used old)) }
        ensures kept { (many bound : ℕ) → AreInside (under_in uses.now.before.now) many → AreInside (under_in uses.now.after.now) bound → tell.AreSides self.old many bound → OnOk result (AreNone lost.old → tell.IsSame uses.now used old → AreNone lost.new) }
    {
        self.known.empty()?;
        self.gathering
            .run(uses.after, uses.handing, uses.origin, used)?;
        fill(&mut self.known, uses.before.under(old));
        put_old_alone(
            uses.rows,
            uses.before.under(old),
            &self.gathering.originals,
            old,
            lost,
        );
        put_new_alone(
            uses.rows,
            self.gathering.originals.rows(),
            &self.known,
            old,
            lost,
        );
        Ok(())
    }
}

/// What comparing works with.
#[derive(Drop)]
struct Comparing {
    sides: Sides,
    /// The uses of the changed program that were compared.
    done: Stamps,
}

impl Comparing {
    // Nothing was compared. Rows of both programs are below these bounds.
    fn new(alloc: Global, old: usize, new: usize) -> Result<Comparing, OutOfMemory>
        ensures { IfOk result (λ comparing. tell.AreSides comparing.sides old new × IsEmptied comparing.done new) }
    {
        let done = Stamps::new(alloc, new)?;
        let known = Stamps::new(alloc, old)?;
        let gathering = Gathering::new(alloc, old, new)?;
        Ok(Comparing {
            sides: Sides { known, gathering },
            done,
        })
    }

    // Compares what reaches a use with what reached the old one, unless this was done.
    fn compare(
        &mut self,
        uses: &Uses,
        used: u32,
        old: u32,
        lost: &mut Firsts,
    ) -> Result<(), OutOfMemory>
        ensures checks { (many bound : ℕ) → AreInside (under_in uses.now.after.now) bound → used < bound → origin_in uses.now.origin.now used ≡ Some old → tell.CanCompare self.old many bound
            → OnOk result (tell.CanCompare self.new many bound × tell.Compares uses.now self.old.done self.new.done lost.old lost.new × (is_stamped self.new.done used ≡ true)) }
        ensures kept { (many bound : ℕ) → AreInside (under_in uses.now.before.now) many → AreInside (under_in uses.now.after.now) bound → tell.CanCompare self.old many bound → OnOk result (AreNone lost.old → tell.IsSame uses.now used old → AreNone lost.new) }
    {
        if self.done.add(used) {
            return self.sides.compare(uses, used, old, lost);
        }
        Ok(())
    }

    // Compares at a point, if it is a use that is a copy.
    fn compare_at(
        &mut self,
        uses: &Uses,
        point: Point,
        lost: &mut Firsts,
    ) -> Result<(), OutOfMemory>
        ensures checks { (many bound : ℕ) → AreInside (under_in uses.now.after.now) bound → point.row < bound → tell.CanCompare self.old many bound
            → OnOk result (tell.CanCompare self.new many bound × tell.Compares uses.now self.old.done self.new.done lost.old lost.new × tell.IsDone uses.now self.new.done point) }
        ensures kept { (many bound : ℕ) → AreInside (under_in uses.now.before.now) many → AreInside (under_in uses.now.after.now) bound → tell.CanCompare self.old many bound
            → OnOk result (AreNone lost.old → ((old : ℕ) → tell.old_use (origin_in uses.now.origin.now) point ≡ Some old → tell.IsSame uses.now point.row old) → AreNone lost.new) }
    {
        match old_use(uses.origin, point) {
            Some(old) => self.compare(uses, point.row, old, lost),
            None => Ok(()),
        }
    }

    // Compares at each point.
    fn compare_all(
        &mut self,
        uses: &Uses,
        points: &[Point],
        lost: &mut Firsts,
    ) -> Result<(), OutOfMemory>
        ensures checks { (many bound : ℕ) → AreInside (under_in uses.now.after.now) bound → AreBelow points.now (length points.now) bound → tell.CanCompare self.old many bound
            → OnOk result (tell.Compares uses.now self.old.done self.new.done lost.old lost.new × tell.AreDone uses.now self.new.done points.now (length points.now)) }
        ensures kept { (many bound : ℕ) → AreInside (under_in uses.now.before.now) many → AreInside (under_in uses.now.after.now) bound → AreBelow points.now (length points.now) bound → tell.CanCompare self.old many bound
            → OnOk result (AreNone lost.old → tell.AreSame uses.now points.now → AreNone lost.new) }
    {
        for number in 0..points.len() {
            let Some(point) = point_at(points, number) else {
                return Err(OutOfMemory);
            };
            self.compare_at(uses, point, lost)?;
        }
        Ok(())
    }
}

// The old row of a use that is a copy.
fn old_use(origin: &[u32], point: Point) -> Option<u32>
    ensures { result ≡ tell.old_use (origin_in origin.now) point }
{
    match point.kind {
        PointKind::Use { .. } => row_for(origin, point.row),
        _ => None,
    }
}

// Compares what reaches each use that is a copy. Rows of both programs are below these bounds.
fn compare_uses(
    alloc: Global,
    uses: &Uses,
    points: &[Point],
    old: usize,
    new: usize,
    lost: &mut Firsts,
) -> Result<(), OutOfMemory>
    ensures checks { AreInside (under_in uses.now.after.now) new → AreBelow points.now (length points.now) new → OnOk result (Checks lost.old lost.new (tell.AreSame uses.now points.now)) }
    ensures kept { AreInside (under_in uses.now.before.now) old → AreInside (under_in uses.now.after.now) new → AreBelow points.now (length points.now) new → OnOk result (AreNone lost.old → tell.AreSame uses.now points.now → AreNone lost.new) }
{
    let mut comparing = Comparing::new(alloc, old, new)?;
    comparing.compare_all(uses, points, lost)
}

/// Puts the first edges from a definition to a use that are lost, where both are named by what they are copies of: for each use that is a copy the
/// definitions that reach it are compared with those that reached the old use.
pub(crate) fn put_lost_definitions(
    alloc: Global,
    flows: &Flows,
    handing: &Handing,
    lost: &mut Firsts,
) -> Result<(), OutOfMemory>
    ensures checks { OnOk result (Checks lost.old lost.new (tell.KeepsUses flows.now (use_in handing.now))) }
    ensures kept { OnOk result (AreNone lost.old → tell.KeepsUses flows.now (use_in handing.now) → AreNone lost.new) }
{
    let before = definitions_by_use(alloc, flows.before)?;
    let after = definitions_by_use(alloc, flows.after)?;
    let old = row_bound(flows.before.points.as_slice());
    let new = row_bound(flows.after.points.as_slice());
    let uses = Uses {
        rows: flows.names.rows,
        before: &before,
        after: &after,
        handing,
        origin: flows.origin,
    };
    compare_uses(alloc, &uses, flows.after.points.as_slice(), old, new, lost)
}
