// The spellings of all references.
ghost use Rattle.std.specs.Prelude.{◌≡◌, ◌<◌, ◌++◌, ◌∷◌, [], true, IfOk, IfErr, IfSome, OnOk, List, Option, Some, length, option_map};
ghost use Rattle.jr_defs.specs.declared.referent.RowType.{RowType as Ty};
ghost use Rattle.jr_spelling_rules.specs.Candidates as candidate;
ghost use Rattle.jr_spelling_rules.specs.Spelling as rule;
ghost use Rattle.jr_shapes.specs.declared.spelling.TypeName.{TypeName as Names};
ghost use Rattle.jr_spell.specs.declared.fault.SpellFault.TheVariants as faults;
ghost use Rattle.jr_spell.specs.declared.speller.Speller.{Speller as Reader};
ghost use Rattle.jr_spell.specs.Calling as calling;
ghost use Rattle.jr_spell.specs.Shaping as shaping;
ghost use Rattle.jr_spell.specs.Spellers as tell;
ghost use Rattle.jr_spell.specs.Spelling as spelled;

use crate::fault::SpellFault;
use crate::fitting::{Fit, Looked, level_of, target_of};
use crate::paths::Paths;
use crate::reference::Reference;
use crate::speller::Speller;
use crate::turns::order_of_rows;
use jr_base::OutOfMemory;
use jr_change::{Project, Spelling, TypeName};
use jr_defs::{Referent, RowType};
use jr_tree::Row;
use std::alloc::Global;

/// How many units the prelude has. They come first.
const PRELUDE: usize = 2;

/// What is referred to is a row.
fn has_target(rows: &[Row], lock: Referent) -> bool
    ensures { result ≡ true → tell.HasTarget rows.now lock }
{
    match target_of(lock) {
        Some(target) => (target as usize) < rows.len(),
        None => true,
    }
}

/// The type whose object it is reached through is a row.
fn has_level(rows: &[Row], lock: Referent) -> bool
    ensures { result ≡ true → tell.HasLevel rows.now lock }
{
    match level_of(lock) {
        Some(level) => (level as usize) < rows.len(),
        None => true,
    }
}

impl<'a> Speller<'a> {
    // The spelling without casts of arguments, these having such types.
    fn spelling_with(
        &self,
        alloc: Global,
        reference: &Reference,
        arguments: &[RowType],
    ) -> Result<Option<Spelling>, OutOfMemory>
        ensures row { IfOk result (λ o. IfSome o (λ a. a.row ≡ reference.now.row)) }
        ensures first { (given : Option (List Ty)) → tell.IsWholeSpeller self.now → tell.IsSought self.now reference.now → shaping.IsGiven reference.now given arguments.now → spelled.IsExactAt (tell.rows_of self.now) (tell.table_of self.now) (tell.types_of self.now) reference.now.row → IfOk result (λ o. spelled.IsWritten reference.now.row o (shaping.plainly self.now reference.now.row given)) }
    {
        let fit = self.first_fit(alloc, reference, arguments)?;
        Ok(spelling_of(alloc, reference.row, fit))
    }

    // The spelling of a call without casts of arguments.
    fn uncast(&self, alloc: Global, reference: &Reference) -> Result<Option<Spelling>, OutOfMemory>
        ensures row { IfOk result (λ o. IfSome o (λ a. a.row ≡ reference.now.row)) }
        ensures first { tell.IsWholeSpeller self.now → tell.IsSought self.now reference.now → candidate.is_call reference.now.sought ≡ true → spelled.IsExactAt (tell.rows_of self.now) (tell.table_of self.now) (tell.types_of self.now) reference.now.row → IfOk result (λ o. spelled.IsWritten reference.now.row o (calling.uncast_at self.now reference.now.row)) }
    {
        match self.argument_types(alloc, reference)? {
            Some(arguments) => self.spelling_with(alloc, reference, &arguments),
            None => Ok(None),
        }
    }

    // This spelling of a call, with each argument cast to the type of its parameter.
    fn cast_fit(
        &self,
        alloc: Global,
        reference: &Reference,
        parameters: &[RowType],
        fit: Fit,
    ) -> Result<Option<Spelling>, OutOfMemory>
        ensures row { IfOk result (λ o. IfSome o (λ a. a.row ≡ reference.now.row)) }
        ensures first { (c : candidate.Candidate) → tell.IsWholeSpeller self.now → tell.IsSought self.now reference.now → calling.IsFit self.now reference.now.row fit c → IfOk result (λ o. spelled.IsWritten reference.now.row o (calling.written_with self.now reference.now.row c parameters.now)) }
    {
        let casts = self.casts(alloc, reference.row, parameters)?;
        Ok(cast_spelling(reference.row, fit, casts))
    }

    // The spelling with each argument cast to one of these types.
    fn with_casts(
        &self,
        alloc: Global,
        reference: &Reference,
        parameters: &[RowType],
    ) -> Result<Option<Spelling>, OutOfMemory>
        ensures row { IfOk result (λ o. IfSome o (λ a. a.row ≡ reference.now.row)) }
        ensures first { tell.IsWholeSpeller self.now → tell.IsSought self.now reference.now → spelled.IsExactAt (tell.rows_of self.now) (tell.table_of self.now) (tell.types_of self.now) reference.now.row → IfOk result (λ o. spelled.IsWritten reference.now.row o (calling.with_casts_at self.now reference.now.row parameters.now)) }
    {
        let fit = self.first_fit(alloc, reference, parameters)?;
        match fit {
            Some(found) => self.cast_fit(alloc, reference, parameters, found),
            None => Ok(None),
        }
    }

    // The spelling with each argument cast to one of these types, if there are any.
    fn cast_to(
        &self,
        alloc: Global,
        reference: &Reference,
        parameters: &[RowType],
    ) -> Result<Option<Spelling>, OutOfMemory>
        ensures row { IfOk result (λ o. IfSome o (λ a. a.row ≡ reference.now.row)) }
        ensures first { tell.IsWholeSpeller self.now → tell.IsSought self.now reference.now → spelled.IsExactAt (tell.rows_of self.now) (tell.table_of self.now) (tell.types_of self.now) reference.now.row → IfOk result (λ o. spelled.IsWritten reference.now.row o (calling.cast_to_at self.now reference.now.row (rule.some_types (Some parameters.now)))) }
    {
        if parameters.is_empty() {
            return Ok(None);
        }
        self.with_casts(alloc, reference, parameters)
    }

    // The spelling with each argument cast to the type of its parameter.
    fn cast(&self, alloc: Global, reference: &Reference) -> Result<Option<Spelling>, OutOfMemory>
        ensures row { IfOk result (λ o. IfSome o (λ a. a.row ≡ reference.now.row)) }
        ensures first { tell.IsWholeSpeller self.now → tell.IsSought self.now reference.now → spelled.IsExactAt (tell.rows_of self.now) (tell.table_of self.now) (tell.types_of self.now) reference.now.row → IfOk result (λ o. spelled.IsWritten reference.now.row o (calling.cast_at self.now reference.now.row)) }
    {
        match self.parameter_types(alloc, reference)? {
            Some(parameters) => self.cast_to(alloc, reference, &parameters),
            None => Ok(None),
        }
    }

    // The spelling with casts of arguments, where the row has a text to change.
    fn cast_here(
        &self,
        alloc: Global,
        reference: &Reference,
    ) -> Result<Option<Spelling>, OutOfMemory>
        ensures row { IfOk result (λ o. IfSome o (λ a. a.row ≡ reference.now.row)) }
        ensures first { tell.IsWholeSpeller self.now → tell.IsSought self.now reference.now → spelled.IsExactAt (tell.rows_of self.now) (tell.table_of self.now) (tell.types_of self.now) reference.now.row → IfOk result (λ o. spelled.IsWritten reference.now.row o (calling.cast_here_at self.now reference.now.row)) }
    {
        if self.is_prelude(reference.row) {
            return Ok(None);
        }
        self.cast(alloc, reference)
    }

    // The first spelling of a call that fits.
    fn call_spelling(
        &self,
        alloc: Global,
        reference: &Reference,
    ) -> Result<Option<Spelling>, OutOfMemory>
        ensures row { IfOk result (λ o. IfSome o (λ a. a.row ≡ reference.now.row)) }
        ensures first { tell.IsWholeSpeller self.now → tell.IsSought self.now reference.now → candidate.is_call reference.now.sought ≡ true → spelled.IsExactAt (tell.rows_of self.now) (tell.table_of self.now) (tell.types_of self.now) reference.now.row → IfOk result (λ o. spelled.IsWritten reference.now.row o (shaping.spelling_at self.now reference.now.row)) }
    {
        let uncast = self.uncast(alloc, reference)?;
        match uncast {
            Some(spelling) => Ok(Some(spelling)),
            None => self.cast_here(alloc, reference),
        }
    }

    // The first spelling that fits.
    fn first_spelling(
        &self,
        alloc: Global,
        reference: &Reference,
    ) -> Result<Option<Spelling>, OutOfMemory>
        ensures row { IfOk result (λ o. IfSome o (λ a. a.row ≡ reference.now.row)) }
        ensures first { tell.IsWholeSpeller self.now → tell.IsSought self.now reference.now → spelled.IsExactAt (tell.rows_of self.now) (tell.table_of self.now) (tell.types_of self.now) reference.now.row → IfOk result (λ o. spelled.IsWritten reference.now.row o (shaping.spelling_at self.now reference.now.row)) }
    {
        if reference.is_call() {
            self.call_spelling(alloc, reference)
        } else {
            self.spelling_with(alloc, reference, &[])
        }
    }

    // What the old shape finds, where it finds anything; for a package also a type that is found in its place.
    fn found_instead(&self, alloc: Global, reference: &Reference) -> Result<Referent, OutOfMemory> {
        let mut arguments = Vec::new(alloc);
        if reference.is_call() {
            if let Some(types) = self.argument_types(alloc, reference)? {
                arguments = types;
            }
        }
        match self.look_kept(alloc, reference, &arguments)? {
            Some(Looked { found, trace, .. }) => Ok(last_found(found, &trace)),
            None => Ok(Referent::Unbound),
        }
    }

    // Why the reference cannot be written.
    fn refused(&self, alloc: Global, reference: &Reference) -> SpellFault
        ensures { spelled.IsFaultAt reference.now.row result }
    {
        match self.found_instead(alloc, reference) {
            Ok(found) => SpellFault::NoSpelling {
                row: reference.row,
                found,
            },
            Err(_) => SpellFault::OutOfMemory,
        }
    }

    // Adds the spelling of a reference, unless it stays as it stands.
    fn add(
        &self,
        alloc: Global,
        all: &mut Vec<Spelling>,
        reference: &Reference,
        spelling: Spelling,
    ) -> Result<(), SpellFault>
        ensures spelled { shaping.IsSpelled self.now spelling → shaping.AreSpelled self.now all.old.items → OnOk result (shaping.AreSpelled self.now all.new.items) }
        ensures keeps { OnOk result (shaping.KeepsAll all.old.items all.new.items) }
        ensures told { tell.IsWholeSpeller self.now → tell.IsSought self.now reference.now → spelling.row ≡ reference.now.row → shaping.IsSpelled self.now spelling → OnOk result (shaping.IsTold self.now all.new.items reference.now.row) }
        ensures fault { IfErr result (λ fault. fault ≡ faults.OutOfMemory) }
    {
        let Ok(is_plain) = self.is_plain(alloc, reference, &spelling) else {
            return Err(SpellFault::OutOfMemory);
        };
        if is_plain {
            return Ok(());
        }
        push_spelling(all, spelling)
    }

    // Adds the spelling of a reference, if it does not stay as it stands.
    fn spell_reference(
        &self,
        alloc: Global,
        all: &mut Vec<Spelling>,
        reference: &Reference,
    ) -> Result<(), SpellFault>
        ensures spelled { tell.IsWholeSpeller self.now → tell.IsSought self.now reference.now → shaping.AreSpelled self.now all.old.items → OnOk result (shaping.AreSpelled self.now all.new.items) }
        ensures keeps { OnOk result (shaping.KeepsAll all.old.items all.new.items) }
        ensures told { tell.IsWholeSpeller self.now → tell.IsSought self.now reference.now → OnOk result (shaping.IsTold self.now all.new.items reference.now.row) }
        ensures fault { tell.IsWholeSpeller self.now → tell.IsSought self.now reference.now → IfErr result (λ fault. shaping.HasNone self.now fault) }
    {
        let Ok(first) = self.first_spelling(alloc, reference) else {
            return Err(SpellFault::OutOfMemory);
        };
        match first {
            Some(spelling) => self.add(alloc, all, reference, spelling),
            None => Err(self.refused(alloc, reference)),
        }
    }

    // The row is one of the program, and so is what it must refer to.
    fn is_known(&self, row: u32) -> bool
        ensures there { result ≡ true → row < length (tell.rows_of self.now) }
        ensures target { result ≡ true → tell.HasTarget (tell.rows_of self.now) (tell.table_of self.now row) }
        ensures level { result ≡ true → tell.HasLevel (tell.rows_of self.now) (tell.table_of self.now row) }
    {
        let view = self.view;
        let under = view.sight.world.under;
        if (row as usize) >= under.rows.len() {
            return false;
        }
        let lock = under.referent(row);
        has_target(under.rows, lock) && has_level(under.rows, lock)
    }

    // Adds the spelling of one row, if it is a reference and does not stay as it stands.
    fn spell_row(&self, alloc: Global, all: &mut Vec<Spelling>, row: u32) -> Result<(), SpellFault>
        ensures spelled { tell.IsWholeSpeller self.now → shaping.AreSpelled self.now all.old.items → OnOk result (shaping.AreSpelled self.now all.new.items) }
        ensures keeps { OnOk result (shaping.KeepsAll all.old.items all.new.items) }
        ensures told { tell.IsWholeSpeller self.now → OnOk result (shaping.IsTold self.now all.new.items row) }
        ensures fault { tell.IsWholeSpeller self.now → IfErr result (λ fault. shaping.HasNone self.now fault) }
    {
        if !self.is_known(row) {
            return Err(SpellFault::OutOfMemory);
        }
        match self.reference(row) {
            Some(reference) => self.spell_reference(alloc, all, &reference),
            None => Ok(()),
        }
    }

    // The spellings of these rows that do not stay as they stand.
    fn spell_all(&self, alloc: Global, order: &[u32]) -> Result<Vec<Spelling>, SpellFault>
        ensures spelled { tell.IsWholeSpeller self.now → IfOk result (λ all. shaping.AreSpelled self.now all.items) }
        ensures told { tell.IsWholeSpeller self.now → IfOk result (λ all. shaping.AreTold self.now order.now all.items) }
        ensures fault { tell.IsWholeSpeller self.now → IfErr result (λ fault. shaping.HasNone self.now fault) }
    {
        let mut all = Vec::new(alloc);
        for row in order {
            match self.spell_row(alloc, &mut all, *row) {
                Ok(()) => (),
                Err(fault) => return Err(fault),
            }
        }
        Ok(all)
    }
}

fn push_spelling(all: &mut Vec<Spelling>, spelling: Spelling) -> Result<(), SpellFault>
    ensures pushed { OnOk result (all.new.items ≡ all.old.items ++ spelling ∷ []) }
    ensures fault { IfErr result (λ fault. fault ≡ faults.OutOfMemory) }
{
    if all.push(spelling).is_err() {
        return Err(SpellFault::OutOfMemory);
    }
    Ok(())
}

/// What is found, or the last type before it where nothing is.
fn last_found(found: Referent, trace: &[Referent]) -> Referent {
    match found {
        Referent::Unbound => match trace.last() {
            Some(before) => *before,
            None => found,
        },
        _ => found,
    }
}

/// A spelling without casts.
fn spelling_of(alloc: Global, row: u32, fit: Option<Fit>) -> Option<Spelling>
    ensures row { IfSome result (λ a. a.row ≡ row) }
    ensures first { (o : Option candidate.Candidate) (s : Reader) → shaping.IsFitOf s row fit o → spelled.IsWritten row result (shaping.written_plain s row o) }
{
    match fit {
        Some(
            Fit {
                shape,
                found,
                trace,
            },
        ) => Some(Spelling {
            row,
            shape,
            casts: Vec::new(alloc),
            found,
            trace,
        }),
        None => None,
    }
}

/// A spelling with casts, where all types can be written.
fn cast_spelling(row: u32, fit: Fit, casts: Option<Vec<TypeName>>) -> Option<Spelling>
    ensures row { IfSome result (λ a. a.row ≡ row) }
    ensures first { (c : candidate.Candidate) (s : Reader) (names : Option (List Names)) → calling.IsFit s row fit c → option_map (λ all. all.items) casts ≡ names → spelled.IsWritten row result (calling.written_by s row c names) }
{
    let Fit {
        shape,
        found,
        trace,
    } = fit;
    match casts {
        Some(casts) => Some(Spelling {
            row,
            shape,
            casts,
            found,
            trace,
        }),
        None => None,
    }
}

/// The first row behind the prelude.
fn first_written(units: &[u32]) -> u32
    ensures { result ≡ spelled.first_written units.now }
{
    match units.get(PRELUDE) {
        Some(row) => *row,
        None => u32::MAX,
    }
}

/// The first spelling that fits, for each reference that does not stay as it stands, in the order of occurrences. The program is the changed one
/// under its locks: its declarations have their new names, and its references still have their old text. Each reference must be a constant
/// expression exactly where `constant` says so.
pub fn spell(
    alloc: Global,
    locked: &Project,
    constant: &[bool],
) -> Result<Vec<Spelling>, SpellFault>
    ensures spelled { shaping.IsWholeView locked.now.view → IfOk result (λ all. shaping.AreSpelledIn locked.now.view constant.now (spelled.first_written locked.now.marks.starts.now) all.items) }
    ensures told { shaping.IsWholeView locked.now.view → IfOk result (λ all. shaping.AreToldIn locked.now.view constant.now (spelled.first_written locked.now.marks.starts.now) all.items) }
    ensures fault { shaping.IsWholeView locked.now.view → IfErr result (λ fault. shaping.HasNoneIn locked.now.view constant.now (spelled.first_written locked.now.marks.starts.now) fault) }
{
    let view = &locked.view;
    let rows = view.sight.world.under.rows;
    let Ok(paths) = Paths::of(alloc, rows, view.sight.world.under.places) else {
        return Err(SpellFault::OutOfMemory);
    };
    let Ok(order) = order_of_rows(alloc, rows) else {
        return Err(SpellFault::OutOfMemory);
    };
    let units = locked.marks.starts;
    let speller = Speller {
        view,
        constant,
        paths: &paths,
        written: first_written(units),
    };
    speller.spell_all(alloc, &order)
}
