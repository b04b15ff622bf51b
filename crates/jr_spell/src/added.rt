// Names of types that a spelling adds.
ghost use Rattle.std.specs.Prelude.{◌≡◌, ◌<◌, ◌++◌, ℕ, IfOk, length, map, reverse, suc, option_map};
ghost use Rattle.jr_tree.specs.declared.label.NameKind.TheVariants as names;
ghost use Rattle.jr_defs.specs.declared.referent.Element.TheVariants as elements;
ghost use Rattle.jr_places.specs.Names.{name_row};
ghost use Rattle.jr_shapes.specs.Names.{suffix as suffix_of};
ghost use Rattle.jr_spelling_rules.specs.Candidates as candidate;
ghost use Rattle.jr_spelling_rules.specs.Spelling as rule;
ghost use Rattle.jr_spell.specs.Adding as adding;
ghost use Rattle.jr_spell.specs.Calling as calling;
ghost use Rattle.jr_spell.specs.Spellers as tell;

use crate::fitting::target_of;
use crate::resolving::Resolved;
use crate::speller::Speller;
use jr_base::OutOfMemory;
use jr_defs::{Element, Referent, RowType};
use jr_shapes::{Suffix, TypeName, suffix_rows};
use jr_tree::NameKind;
use std::alloc::Global;

/// The name of a type, and what its identifiers refer to.
#[derive(Drop)]
pub struct Added {
    pub suffix: Suffix,
    pub trace: Vec<Referent>,
}

/// Both lists, one behind the other.
pub fn joined(mut all: Vec<Referent>, rest: &[Referent]) -> Result<Vec<Referent>, OutOfMemory>
    ensures { IfOk result (λ both. both.items ≡ all.items ++ rest.now) }
{
    all.extend_from_slice(rest)?;
    Ok(all)
}

// All but the first item.
fn behind_first(all: &[u32]) -> &[u32]
    ensures { result.now ≡ candidate.behind_first all.now }
{
    match all.split_first() {
        Some((_, rest)) => rest,
        None => all,
    }
}

fn in_reverse(mut all: Vec<u32>) -> Vec<u32>
    ensures { result.items ≡ reverse all.items }
{
    all.reverse();
    all
}

// What is found is the type.
fn is_type_found(found: Referent, class: u32) -> bool
    ensures { result ≡ candidate.is_same_row (candidate.target found) class }
{
    match target_of(found) {
        Some(row) => row == class,
        None => false,
    }
}

// The trace with what is found, where it is the type.
fn with_type(
    found: Referent,
    trace: Vec<Referent>,
    class: u32,
) -> Result<Option<Vec<Referent>>, OutOfMemory>
    ensures { IfOk result (λ o. option_map (λ all. all.items) o ≡ adding.traced (candidate.is_same_row (candidate.target found) class) trace.items found) }
{
    if !is_type_found(found, class) {
        return Ok(None);
    }
    let mut all = trace;
    all.push(found)?;
    Ok(Some(all))
}

impl<'a> Speller<'a> {
    // The numbers of the names of rows.
    fn numbers_of(&self, alloc: Global, at: &[u32]) -> Result<Vec<u32>, OutOfMemory>
        ensures { tell.IsWholeSpeller self.now → adding.AreWithin (tell.rows_of self.now) at.now → IfOk result (λ all. all.items ≡ map (λ n. name_row (tell.rows_of self.now) n) at.now) }
    {
        let mut all = Vec::new(alloc);
        for row in at {
            all.push(self.places().name(*row))?;
        }
        Ok(all)
    }

    /// The numbers of the names of rows, from the last row back.
    pub fn numbers_back(&self, alloc: Global, at: &[u32]) -> Result<Vec<u32>, OutOfMemory>
        ensures { tell.IsWholeSpeller self.now → adding.AreWithin (tell.rows_of self.now) at.now → IfOk result (λ all. adding.AreNumbersOf (tell.rows_of self.now) (candidate.texts (tell.rows_of self.now) at.now) all.items) }
    {
        let all = self.numbers_of(alloc, at)?;
        Ok(in_reverse(all))
    }

    /// The identifiers before the last one of so many last ones of the canonical name of a type, by their numbers (JLS 6.7).
    pub fn names_before(&self, alloc: Global, suffix: Suffix) -> Result<Vec<u32>, OutOfMemory>
        ensures { tell.IsWholeSpeller self.now → suffix.of < length (tell.rows_of self.now) → IfOk result (λ all. adding.AreNumbersOf (tell.rows_of self.now) (candidate.texts (tell.rows_of self.now) (candidate.behind_first (suffix_of (tell.rows_of self.now) suffix.count suffix.of))) all.items) }
    {
        let rows = suffix_rows(alloc, self.rows(), suffix)?;
        self.numbers_back(alloc, behind_first(&rows))
    }

    /// How many identifiers the canonical name of a type has (JLS 6.7).
    pub fn name_length(&self, alloc: Global, class: u32) -> Result<u32, OutOfMemory>
        ensures { IfOk result (λ n. n ≡ candidate.name_length (tell.rows_of self.now) class) }
    {
        let Ok(most) = u32::try_from(self.rows().len()) else {
            return Err(OutOfMemory);
        };
        let suffix = Suffix {
            of: class,
            count: most,
        };
        let rows = suffix_rows(alloc, self.rows(), suffix)?;
        let Ok(count) = u32::try_from(rows.len()) else {
            return Err(OutOfMemory);
        };
        Ok(count)
    }

    // What the last identifiers of the name of a type refer to at a place, where that is the type.
    fn resolve_suffix(
        &self,
        alloc: Global,
        place: u32,
        kind: NameKind,
        suffix: Suffix,
    ) -> Result<Option<Vec<Referent>>, OutOfMemory>
        ensures { (more : ℕ) → suffix.count ≡ suc more → tell.IsWholeSpeller self.now → suffix.of < length (tell.rows_of self.now) → place < length (tell.rows_of self.now) → IfOk result (λ o. option_map (λ all. all.items) o ≡ candidate.suffix_trace (tell.rows_of self.now) (tell.table_of self.now) place kind suffix.of more) }
    {
        let names = self.names_before(alloc, suffix)?;
        let name = self.places().name(suffix.of);
        let resolved = self.resolve(alloc, place, kind, &names, name)?;
        match resolved {
            Some(Resolved { found, trace }) => with_type(found, trace, suffix.of),
            None => Ok(None),
        }
    }

    // The first of the last identifiers of the name of a type that refer to it at a place.
    fn first_suffix(
        &self,
        alloc: Global,
        place: u32,
        kind: NameKind,
        class: u32,
    ) -> Result<Option<Added>, OutOfMemory>
        ensures { tell.IsWholeSpeller self.now → class < length (tell.rows_of self.now) → place < length (tell.rows_of self.now) → IfOk result (λ o. adding.IsAdded o (candidate.suffix_from (tell.rows_of self.now) (tell.table_of self.now) place kind class 0 (candidate.name_length (tell.rows_of self.now) class))) }
    {
        let count = self.name_length(alloc, class)?;
        for more in 0..count {
            let suffix = Suffix {
                of: class,
                count: more + 1,
            };
            let traced = self.resolve_suffix(alloc, place, kind, suffix)?;
            match traced {
                Some(trace) => return Ok(Some(Added { suffix, trace })),
                None => (),
            }
        }
        Ok(None)
    }

    /// The name of an accessible type at a place where an identifier of this kind stands.
    pub fn added(
        &self,
        alloc: Global,
        place: u32,
        kind: NameKind,
        class: u32,
    ) -> Result<Option<Added>, OutOfMemory>
        ensures { tell.IsWholeSpeller self.now → class < length (tell.rows_of self.now) → place < length (tell.rows_of self.now) → IfOk result (λ o. adding.IsAdded o (candidate.added (tell.rows_of self.now) (tell.table_of self.now) place kind class)) }
    {
        if !self.is_accessible(class, place, None) {
            return Ok(None);
        }
        self.first_suffix(alloc, place, kind, class)
    }

    /// The name of a type in a cast or before `this`.
    pub fn added_type(
        &self,
        alloc: Global,
        place: u32,
        class: u32,
    ) -> Result<Option<Added>, OutOfMemory>
        ensures { tell.IsWholeSpeller self.now → class < length (tell.rows_of self.now) → place < length (tell.rows_of self.now) → IfOk result (λ o. adding.IsAdded o (candidate.added (tell.rows_of self.now) (tell.table_of self.now) place names.Type class)) }
    {
        self.added(alloc, place, NameKind::Type, class)
    }

    /// The name of a type before the dot of a member.
    pub fn added_before_dot(
        &self,
        alloc: Global,
        place: u32,
        class: u32,
    ) -> Result<Option<Added>, OutOfMemory>
        ensures { tell.IsWholeSpeller self.now → class < length (tell.rows_of self.now) → place < length (tell.rows_of self.now) → IfOk result (λ o. adding.IsAdded o (candidate.added (tell.rows_of self.now) (tell.table_of self.now) place names.Ambiguous class)) }
    {
        self.added(alloc, place, NameKind::Ambiguous, class)
    }

    // How a type of the class is written in a cast. A class that is no row of the program is answered by want of memory.
    fn written_class(
        &self,
        alloc: Global,
        place: u32,
        ty: RowType,
        class: u32,
    ) -> Result<Option<TypeName>, OutOfMemory>
        ensures { tell.IsWholeSpeller self.now → place < length (tell.rows_of self.now) → IfOk result (λ o. o ≡ rule.written_by (tell.rows_of self.now) (tell.table_of self.now) place ty (elements.Class class)) }
    {
        let view = self.view;
        if (class as usize) >= view.sight.world.under.rows.len() {
            return Err(OutOfMemory);
        }
        let added = self.added_type(alloc, place, class)?;
        match added {
            Some(found) => Ok(Some(type_name(ty, found.suffix.count))),
            None => Ok(None),
        }
    }

    /// How the type is written in a cast of an argument.
    pub fn written_type(
        &self,
        alloc: Global,
        place: u32,
        ty: RowType,
    ) -> Result<Option<TypeName>, OutOfMemory>
        ensures { tell.IsWholeSpeller self.now → place < length (tell.rows_of self.now) → IfOk result (λ o. o ≡ rule.written_type (tell.rows_of self.now) (tell.table_of self.now) place ty) }
    {
        match ty.element {
            Element::Class(class) => self.written_class(alloc, place, ty, class),
            Element::Null => Ok(None),
            Element::Void => Ok(None),
            _ => Ok(Some(type_name(ty, 0))),
        }
    }
}

fn type_name(ty: RowType, count: u32) -> TypeName
    ensures { result ≡ calling.type_name ty count }
{
    TypeName {
        element: ty.element,
        count,
        dims: ty.dims,
    }
}
