// References that stay as they stand.
ghost use Rattle.std.specs.Prelude.{◌≡◌, [], true, map, reverse, Decides, IfOk, List};
ghost use Rattle.jr_base.specs.declared.text.Text.{Text};
ghost use Rattle.jr_shapes.specs.declared.spelling.Shape.TheVariants as shapes;
ghost use Rattle.jr_shapes.specs.Parts as part;
ghost use Rattle.jr_spelling_rules.specs.Candidates as candidate;
ghost use Rattle.jr_spell.specs.Adding as adding;
ghost use Rattle.jr_spell.specs.Spellers as tell;
ghost use Rattle.jr_spell.specs.Spelling as spelled;

use crate::fitting::is_same;
use crate::reference::{Reference, is_names};
use crate::speller::Speller;
use jr_base::OutOfMemory;
use jr_change::{Shape, Spelling};
use jr_defs::Referent;
use std::alloc::Global;

// Both are one list.
fn are_equal(one: &[u32], other: &[u32]) -> bool
    ensures { Decides result (one.now ≡ other.now) }
{
    one == other
}

fn is_number(one: u32, other: u32) -> bool
    ensures { result ≡ true → one ≡ other }
{
    one == other
}

/// The shape is the old one.
fn is_kept(shape: Shape) -> bool
    ensures { result ≡ true → shape ≡ shapes.Kept }
{
    match shape {
        Shape::Kept => true,
        _ => false,
    }
}

// It is written in the old shape, without casts.
fn is_old(spelling: &Spelling) -> bool
    ensures shape { result ≡ true → spelling.now.shape ≡ shapes.Kept }
    ensures casts { result ≡ true → spelling.now.casts.items ≡ [] }
{
    is_kept(spelling.shape) && spelling.casts.is_empty()
}

impl<'a> Speller<'a> {
    // The identifier is the name of what it must refer to.
    fn is_named_so(&self, reference: &Reference) -> bool
        ensures { tell.IsWholeSpeller self.now → tell.IsSought self.now reference.now → result ≡ true → spelled.IsNamedSo (tell.rows_of self.now) reference.now.row reference.now.lock }
    {
        is_number(self.places().name(reference.row), reference.name)
    }

    // What it refers to then is its lock, by whose name it stands there.
    fn is_at_lock(&self, reference: &Reference, found: Referent) -> bool
        ensures found { result ≡ true → found ≡ reference.now.lock }
        ensures named { tell.IsWholeSpeller self.now → tell.IsSought self.now reference.now → result ≡ true → spelled.IsNamedSo (tell.rows_of self.now) reference.now.row reference.now.lock }
    {
        if !is_same(found, reference.lock) {
            return false;
        }
        self.is_named_so(reference)
    }

    // The packages and types before the reference are those of the locks.
    fn is_trace_kept(&self, parts: &[u32], trace: &[Referent]) -> bool
        ensures { result ≡ true → trace.now ≡ reverse (map (tell.table_of self.now) parts.now) }
    {
        let mut left = trace.len();
        for part in parts {
            if left == 0 {
                return false;
            }
            left -= 1;
            if !is_same(trace[left], self.lock_of(*part)) {
                return false;
            }
        }
        left == 0
    }

    // What a row must refer to.
    fn lock_of(&self, row: u32) -> Referent
        ensures { result ≡ tell.table_of self.now row }
    {
        let view = self.view;
        view.sight.world.under.referent(row)
    }

    // These numbers are those of the names of rows, from the last row back.
    fn are_numbers_back(
        &self,
        alloc: Global,
        names: &[u32],
        rows: &[u32],
    ) -> Result<bool, OutOfMemory>
        ensures { (texts : List Text) → tell.IsWholeSpeller self.now → adding.AreWithin (tell.rows_of self.now) rows.now → adding.AreNumbersOf (tell.rows_of self.now) texts names.now → IfOk result (λ b. b ≡ true → texts ≡ candidate.texts (tell.rows_of self.now) rows.now) }
    {
        let back = self.numbers_back(alloc, rows)?;
        Ok(are_equal(names, &back))
    }

    // The packages and types before the reference have the names that stand there.
    fn are_parts_named_so(
        &self,
        alloc: Global,
        reference: &Reference,
        parts: &[u32],
    ) -> Result<bool, OutOfMemory>
        ensures { tell.IsWholeSpeller self.now → tell.IsSought self.now reference.now → parts.now ≡ part.parts (tell.rows_of self.now) (tell.table_of self.now) reference.now.row → IfOk result (λ b. b ≡ true → spelled.ArePartsNamedSo (tell.rows_of self.now) (tell.table_of self.now) reference.now.row reference.now.lock) }
    {
        if !is_names(reference.dot) {
            return Ok(true);
        }
        let kept = self.kept_names(alloc, reference)?;
        match kept {
            Some(names) => self.are_numbers_back(alloc, &names, parts),
            None => Ok(false),
        }
    }

    /// The reference is written as it stands, and all that it names is as the locks say.
    pub fn is_plain(
        &self,
        alloc: Global,
        reference: &Reference,
        spelling: &Spelling,
    ) -> Result<bool, OutOfMemory>
        ensures { tell.IsWholeSpeller self.now → tell.IsSought self.now reference.now → IfOk result (λ b. b ≡ true → spelled.IsAsItStands (tell.rows_of self.now) (tell.table_of self.now) reference.now.row (spelled.written_of spelling.now)) }
    {
        if !is_old(spelling) {
            return Ok(false);
        }
        if !self.is_at_lock(reference, spelling.found) {
            return Ok(false);
        }
        let parts = self.parts(alloc, reference)?;
        if !self.is_trace_kept(&parts, &spelling.trace) {
            return Ok(false);
        }
        self.are_parts_named_so(alloc, reference, &parts)
    }
}
