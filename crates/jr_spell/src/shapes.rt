// The other shapes of a reference, in their order.
ghost use Rattle.std.specs.Prelude.{◌≡◌, ◌<◌, ◌-◌, ◌∷◌, [], ℕ, true, false, suc, IfOk, List, Option, length};
ghost use Rattle.jr_defs.specs.declared.referent.RowType.{RowType as Ty};
ghost use Rattle.jr_shapes.specs.declared.spelling.Shape.TheVariants as shapes;
ghost use Rattle.jr_spelling_rules.specs.Candidates as candidate;
ghost use Rattle.jr_spelling_rules.specs.Naming as naming;
ghost use Rattle.jr_spell.specs.declared.reference.Form.TheVariants as forms;
ghost use Rattle.jr_spell.specs.Forming as forming;
ghost use Rattle.jr_spell.specs.Objects as object;
ghost use Rattle.jr_spell.specs.Shaping as shaping;
ghost use Rattle.jr_spell.specs.Spellers as tell;
ghost use Rattle.jr_spell.specs.Spelling as spelled;

use crate::added::Added;
use crate::fitting::{Fit, Looked};
use crate::kept::way_of;
use crate::reference::{Form, Reference, is_names};
use crate::resolving::Before;
use crate::speller::Speller;
use jr_base::OutOfMemory;
use jr_defs::{Referent, RowType};
use jr_shapes::{Shape, Suffix};
use std::alloc::Global;

impl<'a> Speller<'a> {
    // `x`
    fn bare(
        &self,
        alloc: Global,
        reference: &Reference,
        arguments: &[RowType],
    ) -> Result<Option<Fit>, OutOfMemory>
        ensures { (given : Option (List Ty)) → tell.IsWholeSpeller self.now → tell.IsSought self.now reference.now → shaping.IsGiven reference.now given arguments.now → IfOk result (λ o. shaping.IsFirstOf self.now reference.now.row (candidate.bare (tell.rows_of self.now) (tell.table_of self.now) given reference.now.row) o) }
    {
        if !is_names(reference.dot) {
            return Ok(None);
        }
        let looked = self.look_behind_names(alloc, reference, arguments, &[])?;
        Ok(self.fit_found(reference, Shape::Bare, looked))
    }

    // `T.x`, by the name of this type.
    fn behind_type(
        &self,
        alloc: Global,
        reference: &Reference,
        arguments: &[RowType],
        class: u32,
        suffix: Suffix,
        trace: Vec<Referent>,
    ) -> Result<Option<Fit>, OutOfMemory>
        ensures { (given : Option (List Ty)) → tell.IsWholeSpeller self.now → tell.IsSought self.now reference.now → shaping.IsGiven reference.now given arguments.now → IfOk result (λ o. shaping.IsFirstOf self.now reference.now.row (candidate.behind (tell.rows_of self.now) (tell.table_of self.now) given reference.now.row (shapes.Type suffix) trace.items (naming.in_type class) ∷ []) o) }
    {
        let found = self.look_behind(alloc, reference, arguments, Before::OfType(class))?;
        let way = way_of(found, reference.is_variable());
        let looked = Looked { found, trace, way };
        Ok(self.fit_of(reference, Shape::Type(suffix), looked))
    }

    // `T.x`, T this type.
    fn by_type(
        &self,
        alloc: Global,
        reference: &Reference,
        arguments: &[RowType],
        class: u32,
    ) -> Result<Option<Fit>, OutOfMemory>
        ensures { (given : Option (List Ty)) → tell.IsWholeSpeller self.now → tell.IsSought self.now reference.now → shaping.IsGiven reference.now given arguments.now → class < length (tell.rows_of self.now) → IfOk result (λ o. shaping.IsFirstOf self.now reference.now.row (object.by_type (tell.rows_of self.now) (tell.table_of self.now) given reference.now.row class) o) }
    {
        let added = self.added_before_dot(alloc, reference.row, class)?;
        match added {
            Some(Added { suffix, trace }) => {
                self.behind_type(alloc, reference, arguments, class, suffix, trace)
            }
            None => Ok(None),
        }
    }

    // `T.x`, T the type that declares the member.
    fn on_type(
        &self,
        alloc: Global,
        reference: &Reference,
        arguments: &[RowType],
    ) -> Result<Option<Fit>, OutOfMemory>
        ensures { (given : Option (List Ty)) → tell.IsWholeSpeller self.now → tell.IsSought self.now reference.now → shaping.IsGiven reference.now given arguments.now → IfOk result (λ o. shaping.IsFirstOf self.now reference.now.row (candidate.on_type (tell.rows_of self.now) (tell.table_of self.now) given reference.now.row) o) }
    {
        match self.declaring(reference) {
            Some(class) => self.by_type(alloc, reference, arguments, class),
            None => Ok(None),
        }
    }

    // A static member, by its name alone or behind the type that declares it.
    fn static_fit(
        &self,
        alloc: Global,
        reference: &Reference,
        arguments: &[RowType],
    ) -> Result<Option<Fit>, OutOfMemory>
        ensures { (given : Option (List Ty)) → tell.IsWholeSpeller self.now → tell.IsSought self.now reference.now → shaping.IsGiven reference.now given arguments.now → IfOk result (λ o. shaping.IsFirstOf self.now reference.now.row (candidate.on_static (tell.rows_of self.now) (tell.table_of self.now) given reference.now.row) o) }
    {
        let fit = self.bare(alloc, reference, arguments)?;
        match fit {
            Some(found) => Ok(Some(found)),
            None => self.on_type(alloc, reference, arguments),
        }
    }

    // A type by so many last identifiers of its name.
    fn named(
        &self,
        alloc: Global,
        reference: &Reference,
        suffix: Suffix,
    ) -> Result<Option<Fit>, OutOfMemory>
        ensures { (given : Option (List Ty)) (more : ℕ) → suffix.count ≡ suc more → tell.IsWholeSpeller self.now → tell.IsSought self.now reference.now → candidate.is_call reference.now.sought ≡ false → suffix.of < length (tell.rows_of self.now) → IfOk result (λ o. shaping.IsFirstOf self.now reference.now.row (candidate.named (tell.rows_of self.now) (tell.table_of self.now) given reference.now.row suffix.of more) o) }
    {
        let names = self.names_before(alloc, suffix)?;
        let looked = self.look_behind_names(alloc, reference, &[], &names)?;
        Ok(self.fit_found(reference, Shape::Named(suffix), looked))
    }

    // The shortest end of the name of a type that fits.
    fn first_end(
        &self,
        alloc: Global,
        reference: &Reference,
        class: u32,
    ) -> Result<Option<Fit>, OutOfMemory>
        ensures { (given : Option (List Ty)) → tell.IsWholeSpeller self.now → tell.IsSought self.now reference.now → candidate.is_call reference.now.sought ≡ false → class < length (tell.rows_of self.now) → IfOk result (λ o. shaping.IsFirstOf self.now reference.now.row (candidate.named_from (tell.rows_of self.now) (tell.table_of self.now) given reference.now.row class 0 (candidate.name_length (tell.rows_of self.now) class)) o) }
    {
        let count = self.name_length(alloc, class)?;
        for more in 0..count {
            let suffix = Suffix {
                of: class,
                count: more + 1,
            };
            let fit = self.named(alloc, reference, suffix)?;
            match fit {
                Some(found) => return Ok(Some(found)),
                None => (),
            }
        }
        Ok(None)
    }

    // A type by the shortest end of its name that fits.
    fn type_fit(&self, alloc: Global, reference: &Reference) -> Result<Option<Fit>, OutOfMemory>
        ensures { (given : Option (List Ty)) → tell.IsWholeSpeller self.now → tell.IsSought self.now reference.now → candidate.is_call reference.now.sought ≡ false → IfOk result (λ o. shaping.IsFirstOf self.now reference.now.row (forming.by_form (tell.rows_of self.now) (tell.table_of self.now) given reference.now.row forms.OfType) o) }
    {
        match reference.target() {
            Some(class) => self.first_end(alloc, reference, class),
            None => Ok(None),
        }
    }

    // A type by its whole name.
    fn whole_name(
        &self,
        alloc: Global,
        reference: &Reference,
        class: u32,
    ) -> Result<Option<Fit>, OutOfMemory>
        ensures { (given : Option (List Ty)) → tell.IsWholeSpeller self.now → tell.IsSought self.now reference.now → candidate.is_call reference.now.sought ≡ false → class < length (tell.rows_of self.now) → IfOk result (λ o. shaping.IsFirstOf self.now reference.now.row (candidate.named (tell.rows_of self.now) (tell.table_of self.now) given reference.now.row class (candidate.name_length (tell.rows_of self.now) class - 1)) o) }
    {
        let count = self.name_length(alloc, class)?;
        self.named(alloc, reference, Suffix { of: class, count })
    }

    // A type in an import.
    fn import_fit(&self, alloc: Global, reference: &Reference) -> Result<Option<Fit>, OutOfMemory>
        ensures { (given : Option (List Ty)) → tell.IsWholeSpeller self.now → tell.IsSought self.now reference.now → candidate.is_call reference.now.sought ≡ false → IfOk result (λ o. shaping.IsFirstOf self.now reference.now.row (forming.by_form (tell.rows_of self.now) (tell.table_of self.now) given reference.now.row forms.Import) o) }
    {
        match reference.target() {
            Some(class) => self.whole_name(alloc, reference, class),
            None => Ok(None),
        }
    }

    // The first other shape that fits.
    fn reshaped(
        &self,
        alloc: Global,
        reference: &Reference,
        arguments: &[RowType],
    ) -> Result<Option<Fit>, OutOfMemory>
        ensures { (given : Option (List Ty)) → tell.IsWholeSpeller self.now → tell.IsSought self.now reference.now → shaping.IsGiven reference.now given arguments.now → IfOk result (λ o. shaping.IsFirstOf self.now reference.now.row (forming.by_form (tell.rows_of self.now) (tell.table_of self.now) given reference.now.row reference.now.form) o) }
    {
        match reference.form {
            Form::Fixed => Ok(None),
            Form::OfType => self.type_fit(alloc, reference),
            Form::Import => self.import_fit(alloc, reference),
            Form::Instance => self.instance_fit(alloc, reference, arguments),
            Form::Static => self.static_fit(alloc, reference, arguments),
            Form::Behind => self.on_cast(alloc, reference, arguments),
            Form::Super => self.super_fit(alloc, reference),
        }
    }

    // The first other shape that fits, where the row has a text to change.
    fn reshaped_here(
        &self,
        alloc: Global,
        reference: &Reference,
        arguments: &[RowType],
    ) -> Result<Option<Fit>, OutOfMemory>
        ensures { (given : Option (List Ty)) → tell.IsWholeSpeller self.now → tell.IsSought self.now reference.now → shaping.IsGiven reference.now given arguments.now → IfOk result (λ o. shaping.IsFirstOf self.now reference.now.row (shaping.others_from (tell.rows_of self.now) (tell.table_of self.now) given reference.now.row self.now.written) o) }
    {
        if self.is_prelude(reference.row) {
            return Ok(None);
        }
        self.reshaped(alloc, reference, arguments)
    }

    /// The first shape that fits, the arguments having these types.
    pub fn first_fit(
        &self,
        alloc: Global,
        reference: &Reference,
        arguments: &[RowType],
    ) -> Result<Option<Fit>, OutOfMemory>
        ensures { (given : Option (List Ty)) → tell.IsWholeSpeller self.now → tell.IsSought self.now reference.now → shaping.IsGiven reference.now given arguments.now → spelled.IsExactAt (tell.rows_of self.now) (tell.table_of self.now) (tell.types_of self.now) reference.now.row → IfOk result (λ o. shaping.IsFirstOf self.now reference.now.row (candidate.candidates (tell.rows_of self.now) (tell.table_of self.now) (tell.types_of self.now) given reference.now.row self.now.written) o) }
    {
        let kept = self.kept(alloc, reference, arguments)?;
        match kept {
            Some(fit) => Ok(Some(fit)),
            None => self.reshaped_here(alloc, reference, arguments),
        }
    }
}
