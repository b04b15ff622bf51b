// The old shape of a reference with the new names.
ghost use Rattle.std.specs.Prelude.{◌≡◌, ◌∷◌, ℕ, false, IfOk, List, Option, option_map};
ghost use Rattle.jr_defs.specs.declared.referent.Referent.{Referent as Found};
ghost use Rattle.jr_defs.specs.declared.referent.RowType.{RowType as Ty};
ghost use Rattle.jr_defs.specs.Referents.{entries};
ghost use Rattle.jr_shapes.specs.declared.spelling.Shape.{Shape as Written};
ghost use Rattle.jr_shapes.specs.declared.spelling.Shape.TheVariants as shapes;
ghost use Rattle.jr_shapes.specs.Names.{kept_package};
ghost use Rattle.jr_shapes.specs.Parts as part;
ghost use Rattle.jr_spelling_rules.specs.Candidates as candidate;
ghost use Rattle.jr_spelling_rules.specs.Fitting as fitting;
ghost use Rattle.jr_spelling_rules.specs.Naming as naming;
ghost use Rattle.jr_spell.specs.Adding as adding;
ghost use Rattle.jr_spell.specs.Packaging as packaging;
ghost use Rattle.jr_spell.specs.Shaping as shaping;
ghost use Rattle.jr_spell.specs.Spellers as tell;
ghost use Rattle.jr_spell.specs.Spelling as spelled;
ghost use Rattle.jr_spell.specs.Standing as standing;

use crate::fitting::{Fit, Looked, Way, level_of};
use crate::reference::Reference;
use crate::resolving::{Before, Qualifiers};
use crate::speller::Speller;
use jr_base::OutOfMemory;
use jr_defs::{Element, Referent, RowType};
use jr_shapes::{Shape, kept_rows, parts_of, push_package, referent_at, type_of};
use jr_supers::class_type;
use jr_tree::{Row, Sought};
use std::alloc::Global;

/// The way of a name alone, or of `super` and a name.
pub fn way_of(found: Referent, is_constant_form: bool) -> Way
    ensures { result ≡ shaping.way_of found is_constant_form }
{
    Way {
        receiver: None,
        level: level_of(found),
        is_constant_form,
    }
}

/// The way of what stands behind an expression of this type, or behind none.
pub fn standing_way(receiver: Option<RowType>, found: Referent) -> Way
    ensures { result ≡ shaping.standing_way receiver found }
{
    Way {
        receiver,
        level: level_of(found),
        is_constant_form: false,
    }
}

// The type of an object of the class.
fn object_type(class: Option<u32>) -> Option<RowType>
    ensures { result ≡ shaping.object_type class }
{
    match class {
        Some(found) => Some(class_type(found)),
        None => None,
    }
}

// The type of an object of the class that the element of a type is.
fn class_type_in(element: Element) -> Option<RowType>
    ensures { result ≡ shaping.class_type_in element }
{
    match element {
        Element::Class(class) => Some(class_type(class)),
        _ => None,
    }
}

// The type through which a member of an expression of this type is reached, where this is Object (JLS 10.7).
fn receiver_by(object: Option<u32>, ty: RowType) -> Option<RowType>
    ensures { result ≡ shaping.receiver_by object ty }
{
    if ty.dims > 0 {
        object_type(object)
    } else {
        class_type_in(ty.element)
    }
}

// A member of what stands in the first child is sought.
fn has_left(sought: Sought) -> bool
    ensures { result ≡ candidate.has_left sought }
{
    match sought {
        Sought::Qualified { .. } => true,
        Sought::FieldOf => true,
        Sought::MethodOf => true,
        _ => false,
    }
}

// The package of the type behind is the unnamed one.
fn is_unnamed(alloc: Global, rows: &[Row], behind: Option<u32>) -> Result<bool, OutOfMemory>
    ensures { (n : ℕ) (rest : List ℕ) → IfOk result (λ b. b ≡ candidate.is_empty (kept_package rows.now behind (n ∷ rest))) }
{
    match behind {
        Some(class) => {
            let mut names = Vec::new(alloc);
            push_package(&mut names, rows, class)?;
            Ok(names.is_empty())
        }
        None => Ok(false),
    }
}

// A package among the parts of a reference would become the unnamed one.
fn loses_package(
    alloc: Global,
    rows: &[Row],
    table: &[Referent],
    found: Referent,
    parts: &[u32],
) -> Result<bool, OutOfMemory>
    ensures { IfOk result (λ b. b ≡ adding.loses rows.now (entries table.now) (part.type_of rows.now found) parts.now) }
{
    let mut behind = type_of(rows, found);
    for at in parts {
        match type_of(rows, referent_at(table, *at)) {
            Some(class) => behind = Some(class),
            None => return is_unnamed(alloc, rows, behind),
        }
    }
    Ok(false)
}

impl<'a> Speller<'a> {
    /// The packages and types before a reference, from the last one back.
    pub fn parts(&self, alloc: Global, reference: &Reference) -> Result<Vec<u32>, OutOfMemory>
        ensures { IfOk result (λ all. all.items ≡ part.parts (tell.rows_of self.now) (tell.table_of self.now) reference.now.row) }
    {
        if reference.row == u32::MAX {
            return Err(OutOfMemory);
        }
        let view = self.view;
        let under = view.sight.world.under;
        parts_of(alloc, under.rows, under.table, reference.row)
    }

    /// The packages and types before a reference, by the numbers of the names that they have now; none where a package would become the unnamed one.
    pub fn kept_names(
        &self,
        alloc: Global,
        reference: &Reference,
    ) -> Result<Option<Vec<u32>>, OutOfMemory>
        ensures { tell.IsWholeSpeller self.now → tell.IsAtRow self.now reference.now → IfOk result (λ o. adding.AreNumbered (tell.rows_of self.now) (option_map (λ all. all.items) o) (candidate.kept_names (tell.rows_of self.now) (tell.table_of self.now) reference.now.row)) }
    {
        let view = self.view;
        let under = view.sight.world.under;
        let lock = reference.lock;
        let parts = self.parts(alloc, reference)?;
        let loses = loses_package(alloc, under.rows, under.table, lock, &parts)?;
        if loses {
            return Ok(None);
        }
        let rows = kept_rows(alloc, under.rows, under.table, lock, &parts)?;
        let names = self.numbers_back(alloc, &rows)?;
        Ok(Some(names))
    }

    /// What the last identifier refers to behind packages and types.
    pub fn look_behind(
        &self,
        alloc: Global,
        reference: &Reference,
        arguments: &[RowType],
        before: Before,
    ) -> Result<Referent, OutOfMemory>
        ensures { (b : naming.Before) (given : Option (List Ty)) (shape : Written) (trace : List Found) → tell.IsWholeSpeller self.now → tell.IsSought self.now reference.now → shaping.IsGiven reference.now given arguments.now → standing.StandsFor self.now before b → IfOk result (λ a. a ≡ fitting.found (tell.rows_of self.now) (tell.table_of self.now) reference.now.row (candidate.behind (tell.rows_of self.now) (tell.table_of self.now) given reference.now.row shape trace b)) }
    {
        if reference.is_call() {
            self.named_method(alloc, reference, arguments, before)
        } else {
            self.look_up(
                alloc,
                reference.row,
                before,
                reference.kind(),
                reference.name,
            )
        }
    }

    /// What the reference finds behind these packages and types, which may be none.
    pub fn look_behind_names(
        &self,
        alloc: Global,
        reference: &Reference,
        arguments: &[RowType],
        names: &[u32],
    ) -> Result<Option<Looked>, OutOfMemory>
        ensures { (given : Option (List Ty)) (shape : Written) → tell.IsWholeSpeller self.now → tell.IsSought self.now reference.now → shaping.IsGiven reference.now given arguments.now → packaging.AreNumbers (tell.rows_of self.now) names.now → IfOk result (λ o. shaping.AreLooked self.now reference.now.row shape o (candidate.behind_names (tell.rows_of self.now) (tell.table_of self.now) given reference.now.row shape (standing.texts_of (tell.rows_of self.now) names.now))) }
    {
        let led = self.qualifiers(alloc, reference.row, reference.kind_before(), names)?;
        match led {
            Some(Qualifiers { last, trace }) => {
                let found = self.look_behind(alloc, reference, arguments, last)?;
                let way = way_of(found, reference.is_variable());
                Ok(Some(Looked { found, trace, way }))
            }
            None => Ok(None),
        }
    }

    // The type of the expression that stands first below a row, if one does.
    fn type_behind(&self, row: u32) -> Option<RowType>
        ensures { tell.IsSeenSpeller self.now → result ≡ shaping.type_behind (tell.rows_of self.now) (tell.types_of self.now) row }
    {
        let view = self.view;
        match view.sight.world.under.first_child(row) {
            Some(child) => self.type_at(child),
            None => None,
        }
    }

    // The type through which a member of the expression before the dot is reached, where one is sought.
    fn receiver_behind(&self, reference: &Reference) -> Option<RowType>
        ensures { (given : Option (List Ty)) → tell.IsSeenSpeller self.now → tell.IsAtRow self.now reference.now → result ≡ fitting.receiver_type (tell.rows_of self.now) (shaping.as_it_stands self.now given reference.now.row).left }
    {
        if !has_left(reference.sought) {
            return None;
        }
        let view = self.view;
        match self.type_behind(reference.row) {
            Some(ty) => receiver_by(view.sight.world.supers.object(), ty),
            None => None,
        }
    }

    // What the name of a reference that is no call is behind the expression, `super` or nothing that stands there.
    fn find_as_it_stands(
        &self,
        alloc: Global,
        reference: &Reference,
    ) -> Result<Referent, OutOfMemory>
        ensures { (given : Option (List Ty)) → tell.IsWholeSpeller self.now → tell.IsSought self.now reference.now → candidate.is_call reference.now.sought ≡ false → spelled.HasTypes (tell.rows_of self.now) (tell.table_of self.now) (tell.types_of self.now) → IfOk result (λ a. a ≡ fitting.found (tell.rows_of self.now) (tell.table_of self.now) reference.now.row (shaping.as_it_stands self.now given reference.now.row)) }
    {
        let view = self.view;
        view.sight.look_for(
            alloc,
            view.types,
            reference.row,
            reference.name,
            reference.sought,
        )
    }

    // What a reference finds behind the expression, `super`, `new` or nothing that stands there.
    fn found_standing(
        &self,
        alloc: Global,
        reference: &Reference,
        arguments: &[RowType],
    ) -> Result<Referent, OutOfMemory>
        ensures { (given : Option (List Ty)) → tell.IsWholeSpeller self.now → tell.IsSought self.now reference.now → shaping.IsGiven reference.now given arguments.now → spelled.HasTypes (tell.rows_of self.now) (tell.table_of self.now) (tell.types_of self.now) → IfOk result (λ a. a ≡ fitting.found (tell.rows_of self.now) (tell.table_of self.now) reference.now.row (shaping.as_it_stands self.now given reference.now.row)) }
    {
        if reference.is_call() {
            self.called(alloc, reference, arguments)
        } else {
            self.find_as_it_stands(alloc, reference)
        }
    }

    // What the old shape finds that is not written by identifiers alone.
    fn look_standing(
        &self,
        alloc: Global,
        reference: &Reference,
        arguments: &[RowType],
    ) -> Result<Looked, OutOfMemory>
        ensures { (given : Option (List Ty)) → tell.IsWholeSpeller self.now → tell.IsSought self.now reference.now → shaping.IsGiven reference.now given arguments.now → spelled.HasTypes (tell.rows_of self.now) (tell.table_of self.now) (tell.types_of self.now) → IfOk result (λ looked. shaping.IsLookedAs self.now reference.now.row looked (shaping.as_it_stands self.now given reference.now.row)) }
    {
        let found = self.found_standing(alloc, reference, arguments)?;
        let way = standing_way(self.receiver_behind(reference), found);
        let trace = Vec::new(alloc);
        Ok(Looked { found, trace, way })
    }

    // What the old shape finds behind its packages and types.
    fn look_kept_names(
        &self,
        alloc: Global,
        reference: &Reference,
        arguments: &[RowType],
    ) -> Result<Option<Looked>, OutOfMemory>
        ensures { (given : Option (List Ty)) → tell.IsWholeSpeller self.now → tell.IsSought self.now reference.now → shaping.IsGiven reference.now given arguments.now → IfOk result (λ o. shaping.AreLooked self.now reference.now.row shapes.Kept o (shaping.kept_by_names (tell.rows_of self.now) (tell.table_of self.now) given reference.now.row)) }
    {
        let kept = self.kept_names(alloc, reference)?;
        match kept {
            Some(names) => self.look_behind_names(alloc, reference, arguments, &names),
            None => Ok(None),
        }
    }

    /// What the old shape finds with the new names.
    pub fn look_kept(
        &self,
        alloc: Global,
        reference: &Reference,
        arguments: &[RowType],
    ) -> Result<Option<Looked>, OutOfMemory>
        ensures { (given : Option (List Ty)) → tell.IsWholeSpeller self.now → tell.IsSought self.now reference.now → shaping.IsGiven reference.now given arguments.now → spelled.IsExactAt (tell.rows_of self.now) (tell.table_of self.now) (tell.types_of self.now) reference.now.row → IfOk result (λ o. shaping.AreLooked self.now reference.now.row shapes.Kept o (candidate.old (tell.rows_of self.now) (tell.table_of self.now) (tell.types_of self.now) given reference.now.row)) }
    {
        if reference.is_by_names() {
            return self.look_kept_names(alloc, reference, arguments);
        }
        let looked = self.look_standing(alloc, reference, arguments)?;
        Ok(Some(looked))
    }

    /// The old shape, where it fits.
    pub fn kept(
        &self,
        alloc: Global,
        reference: &Reference,
        arguments: &[RowType],
    ) -> Result<Option<Fit>, OutOfMemory>
        ensures { (given : Option (List Ty)) → tell.IsWholeSpeller self.now → tell.IsSought self.now reference.now → shaping.IsGiven reference.now given arguments.now → spelled.IsExactAt (tell.rows_of self.now) (tell.table_of self.now) (tell.types_of self.now) reference.now.row → IfOk result (λ o. shaping.IsFirstOf self.now reference.now.row (candidate.old (tell.rows_of self.now) (tell.table_of self.now) (tell.types_of self.now) given reference.now.row) o) }
    {
        let looked = self.look_kept(alloc, reference, arguments)?;
        Ok(self.fit_found(reference, Shape::Kept, looked))
    }
}
