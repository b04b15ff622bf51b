// A change as it is put together.
ghost use Rattle.std.specs.Prelude.{◌≡◌, ◌<◌, IfOk, OnOk, length};
ghost use Rattle.jr_marks.specs.Places.{IsOrdered};
ghost use Rattle.jr_text.specs.Spans.{unit_bytes};
ghost use Rattle.jr_draft.specs.Drafting as drafting;

use crate::asking::{PRELUDE, count_units};
use crate::order::path_of;
use jr_base::{OutOfMemory, Path, Span, Text};
use jr_change::{
    Added, Change, ChangeFault, ChangedUnit, Course, Naming, Segment, Target, UnitSource,
};
use jr_edits::Edits;
use jr_marks::Marks;
use jr_places::end_at;
use jr_text::unit_bytes;
use std::alloc::Global;
use std::marker::Model;

/// The units and rows of a changed program so far. Contracts see its lists.
#[derive(Drop)]
pub struct Draft {
    units: Vec<ChangedUnit>,
    segments: Vec<Segment>,
    namings: Vec<Naming>,
    added: Vec<Added>,
    count: u32,
}

impl Model for Draft {
    ghost use Rattle.jr_draft.specs.Drafting.{Drafted};

    ghost Value = { Drafted };

    ghost view = { λ d. record { units = d.units.items; segments = d.segments.items; namings = d.namings.items; added = d.added.items; count = d.count } };
}

/// The row of a unit; behind the last unit that behind the last row.
pub fn unit_row(marks: &Marks, unit: u32) -> u32
    ensures { result ≡ drafting.unit_row marks.now unit }
{
    match marks.starts.get(unit as usize) {
        Some(row) => *row,
        None => end_at(marks.rows, 0),
    }
}

impl Draft {
    fn empty(alloc: Global) -> Draft
        ensures { result ≡ drafting.nothing }
    {
        Draft {
            units: Vec::new(alloc),
            segments: Vec::new(alloc),
            namings: Vec::new(alloc),
            added: Vec::new(alloc),
            count: 0,
        }
    }

    /// The program and the prelude.
    pub fn new(alloc: Global, marks: &Marks) -> Result<Draft, OutOfMemory>
        ensures { IfOk result (λ draft. draft ≡ drafting.begun marks.now) }
    {
        let mut draft = Draft::empty(alloc);
        draft.copy(0, unit_row(marks, PRELUDE))?;
        Ok(draft)
    }

    /// How many rows there are so far: the number of the next one.
    pub fn rows(&self) -> u32
        ensures { result ≡ self.now.count }
    {
        self.count
    }

    /// Adds copies of the rows from the first up to before the end.
    pub fn copy(&mut self, first: u32, end: u32) -> Result<(), OutOfMemory>
        ensures { OnOk result (self.new ≡ drafting.copied self.old first end) }
    {
        if first < end {
            self.segments.push(Segment::Copy { first, end })?;
            self.count = self.count.saturating_add(end - first);
        }
        Ok(())
    }

    /// Adds a copy of one row with another label.
    pub fn turned(&mut self, row: u32) -> Result<(), OutOfMemory>
        ensures { OnOk result (self.new ≡ drafting.turned self.old row) }
    {
        self.segments.push(Segment::Turned { row })?;
        self.count = self.count.saturating_add(1);
        Ok(())
    }

    /// Adds so many rows that come from no old row.
    pub fn glue(&mut self, count: u32) -> Result<(), OutOfMemory>
        ensures { OnOk result (self.new ≡ drafting.glued self.old count) }
    {
        if count > 0 {
            self.segments.push(Segment::Glue { count })?;
            self.count = self.count.saturating_add(count);
        }
        Ok(())
    }

    /// Adds a row that comes from no old row and must refer to this.
    pub fn refer(&mut self, target: Target, level: Option<u32>) -> Result<(), OutOfMemory>
        ensures { OnOk result (self.new ≡ drafting.referred self.old target level) }
    {
        self.added.push(Added {
            row: self.count,
            target,
            level,
        })?;
        self.glue(1)
    }

    /// Gives old rows, as they rise, an identifier.
    pub fn name(&mut self, naming: Naming) -> Result<(), OutOfMemory>
        ensures { OnOk result (self.new ≡ drafting.with_naming self.old naming) }
    {
        self.namings.push(naming)?;
        Ok(())
    }

    /// Adds a unit, but not its rows.
    pub fn add(&mut self, path: Path, source: UnitSource) -> Result<(), OutOfMemory>
        ensures { OnOk result (self.new ≡ drafting.with_unit self.old (record { path = path; source = source })) }
    {
        self.units.push(ChangedUnit { path, source })?;
        Ok(())
    }

    /// Adds copies of all rows of a unit.
    pub fn copy_unit(&mut self, marks: &Marks, unit: u32) -> Result<(), OutOfMemory>
        ensures { OnOk result (IsOrdered marks.now → unit < length marks.now.units.now → self.new ≡ drafting.rows_kept marks.now unit self.old) }
    {
        let row = unit_row(marks, unit);
        self.copy(row, end_at(marks.rows, row))
    }

    /// Adds an old unit at a path, to be edited, but not its rows.
    pub fn open(
        &mut self,
        alloc: Global,
        marks: &Marks,
        unit: u32,
        path: Path,
    ) -> Result<(), OutOfMemory> {
        match u32::try_from(unit_bytes(marks, unit_row(marks, unit)).len()) {
            Ok(length) => {
                let edits = Edits::new(alloc, length);
                self.add(path, UnitSource::Edited { unit, edits })
            }
            Err(_) => Err(OutOfMemory),
        }
    }

    /// Replaces bytes of the unit that was added last. One that is not to be edited stays as it is.
    pub fn replace(&mut self, alloc: Global, span: Span, bytes: &[u8]) -> Result<(), ChangeFault> {
        if let Some(last) = self.units.last_mut() {
            if let UnitSource::Edited { edits, .. } = &mut last.source {
                edits.push(span, Text::of(alloc, bytes)?)?;
            }
        }
        Ok(())
    }

    /// Adds an old unit as it is.
    pub fn keep(&mut self, alloc: Global, marks: &Marks, unit: u32) -> Result<(), OutOfMemory>
        ensures { OnOk result (IsOrdered marks.now → self.new ≡ drafting.kept marks.now unit self.old) }
    {
        self.add(path_of(alloc, marks, unit)?, UnitSource::Kept(unit))?;
        self.copy_unit(marks, unit)
    }

    /// Adds the old units from the first up to before the end as they are.
    pub fn keep_all(
        &mut self,
        alloc: Global,
        marks: &Marks,
        first: u32,
        end: u32,
    ) -> Result<(), OutOfMemory> {
        for unit in first..end {
            self.keep(alloc, marks, unit)?;
        }
        Ok(())
    }

    // Adds a unit as it is, but not its rows.
    fn keep_text(&mut self, alloc: Global, marks: &Marks, unit: u32) -> Result<(), OutOfMemory>
        ensures { OnOk result (self.new ≡ drafting.text_kept marks.now unit self.old) }
    {
        self.add(path_of(alloc, marks, unit)?, UnitSource::Kept(unit))
    }

    // Adds all units as they are, but not their rows.
    fn keep_texts(&mut self, alloc: Global, marks: &Marks) -> Result<(), OutOfMemory>
        ensures { OnOk result (IsOrdered marks.now → self.old ≡ drafting.nothing → self.new ≡ drafting.texts_kept marks.now (length marks.now.units.now)) }
    {
        for unit in PRELUDE..count_units(marks) {
            self.keep_text(alloc, marks, unit)?;
        }
        Ok(())
    }

    /// The change, in which each body stays as it is.
    pub fn finish(self) -> Change
        ensures { drafting.IsFinished self Course.Same result }
    {
        self.finish_as(Course::Same)
    }

    /// The change, which does this to the order in which statements run.
    pub fn finish_as(self, course: Course) -> Change
        ensures { drafting.IsFinished self course result }
    {
        Change {
            units: self.units,
            segments: self.segments,
            namings: self.namings,
            added: self.added,
            inner: None,
            raised: None,
            course,
        }
    }
}

/// The change that keeps all.
pub fn unchanged(alloc: Global, marks: &Marks) -> Result<Change, OutOfMemory>
    ensures { IfOk result (λ change. IsOrdered marks.now → drafting.IsFinished (drafting.unchanged marks.now) Course.Same change) }
{
    let mut draft = Draft::empty(alloc);
    draft.keep_texts(alloc, marks)?;
    draft.copy(0, end_at(marks.rows, 0))?;
    Ok(draft.finish())
}

/// No edits of the unit in which a row stands.
pub fn edits_of(alloc: Global, marks: &Marks, row: u32) -> Result<Edits, OutOfMemory>
    ensures { IfOk result (λ edits. IsOrdered marks.now → edits ≡ drafting.no_edits (length (unit_bytes marks.now row))) }
{
    match u32::try_from(unit_bytes(marks, row).len()) {
        Ok(length) => Ok(Edits::new(alloc, length)),
        Err(_) => Err(OutOfMemory),
    }
}
