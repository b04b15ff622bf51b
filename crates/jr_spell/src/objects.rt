// A member of an object that is written: `this`, one round it, `super`, or a cast of what stands there (JLS 15.8.3, 15.8.4, 15.11, 15.16).
ghost use Rattle.std.specs.Prelude.{◌≡◌, ◌<◌, ◌∷◌, [], false, if◌then◌else◌, is_some, IfOk, List, Option, length};
ghost use Rattle.jr_defs.specs.declared.referent.Referent.{Referent as Found};
ghost use Rattle.jr_defs.specs.declared.referent.RowType.{RowType as Ty};
ghost use Rattle.jr_shapes.specs.declared.spelling.Shape.{Shape as Written};
ghost use Rattle.jr_spelling_rules.specs.Candidates as candidate;
ghost use Rattle.jr_spelling_rules.specs.Fitting as fitting;
ghost use Rattle.jr_spell.specs.Objects as object;
ghost use Rattle.jr_spell.specs.Shaping as shaping;
ghost use Rattle.jr_spell.specs.Spellers as tell;

use crate::added::{Added, joined};
use crate::fitting::{Fit, Looked, Way};
use crate::reference::Reference;
use crate::speller::Speller;
use jr_base::OutOfMemory;
use jr_defs::{Referent, RowType};
use jr_lookup::has_instance;
use jr_places::declaring_type;
use jr_shapes::{Shape, Suffix};
use jr_supers::class_type;
use jr_tree::{NameKind, Sought};
use std::alloc::Global;

/// What is written before a member by the name of a type.
#[derive(Clone, Copy, Debug, PartialEq, Eq)]
pub enum Addition {
    /// `T.this`
    Outer,
    /// `((S)this)`
    CastThis,
    /// `((S)e)`
    Cast,
}

// The shape, by the name that is added.
fn shape_by(addition: Addition, suffix: Suffix) -> Shape
    ensures { result ≡ object.shape_by addition suffix }
{
    match addition {
        Addition::Outer => Shape::Outer(suffix),
        Addition::CastThis => Shape::CastThis(suffix),
        Addition::Cast => Shape::Cast(suffix),
    }
}

// The way of a member of an object of a class, which is that of the level.
fn object_way(class: u32, level: Option<u32>) -> Way
    ensures { result ≡ object.object_way class level }
{
    Way {
        receiver: Some(class_type(class)),
        level,
        is_constant_form: false,
    }
}

// The way of a field through `super`.
fn super_way(level: Option<u32>) -> Way
    ensures { result ≡ object.super_way level }
{
    Way {
        receiver: None,
        level,
        is_constant_form: false,
    }
}

// The row, if the other one is the same.
fn only_same(one: Option<u32>, row: u32) -> Option<u32>
    ensures { result ≡ object.only_same one row }
{
    match one {
        Some(found) => if found == row { Some(row) } else { None },
        None => None,
    }
}

// The row, if this is so.
fn only_if(is_so: bool, row: u32) -> Option<u32>
    ensures { result ≡ object.only_if is_so row }
{
    if is_so { Some(row) } else { None }
}

impl<'a> Speller<'a> {
    // The innermost type round a place, where it has an instance there.
    pub fn instance_round(&self, place: u32) -> Option<u32>
        ensures { tell.IsSeenSpeller self.now → result ≡ candidate.instance_round (tell.rows_of self.now) (tell.table_of self.now) place }
    {
        let view = self.view;
        let under = view.sight.world.under;
        match under.places.around(place) {
            Some(class) => {
                let has = has_instance(under.rows, under.places, place, class);
                only_if(has, class)
            }
            None => None,
        }
    }

    // The level of a reference, where it is the innermost type and has an instance.
    fn innermost_level(&self, reference: &Reference) -> Option<u32>
        ensures { tell.IsSeenSpeller self.now → tell.IsAtRow self.now reference.now → result ≡ candidate.level_here (tell.rows_of self.now) (tell.table_of self.now) reference.now.row }
    {
        match reference.level() {
            Some(level) => only_same(self.instance_round(reference.row), level),
            None => None,
        }
    }

    // The level of a reference, where it has an instance.
    fn instance_level(&self, reference: &Reference) -> Option<u32>
        ensures { tell.IsSeenSpeller self.now → tell.IsAtRow self.now reference.now → result ≡ candidate.level_with_instance (tell.rows_of self.now) (tell.table_of self.now) reference.now.row }
    {
        let view = self.view;
        let under = view.sight.world.under;
        match reference.level() {
            Some(level) => {
                let has = has_instance(under.rows, under.places, reference.row, level);
                only_if(has, level)
            }
            None => None,
        }
    }

    /// The type that declares what a reference must refer to.
    pub fn declaring(&self, reference: &Reference) -> Option<u32>
        ensures { tell.IsAtRow self.now reference.now → result ≡ candidate.declaring (tell.rows_of self.now) (tell.table_of self.now) reference.now.row }
    {
        let view = self.view;
        match reference.target() {
            Some(target) => declaring_type(view.sight.world.under.rows, target),
            None => None,
        }
    }

    // What the name of a reference is as a member of an object of a class.
    fn member_of_class(
        &self,
        alloc: Global,
        reference: &Reference,
        arguments: &[RowType],
        class: u32,
    ) -> Result<Referent, OutOfMemory>
        ensures { (given : Option (List Ty)) (shape : Written) (trace : List Found) → tell.IsWholeSpeller self.now → tell.IsSought self.now reference.now → shaping.IsGiven reference.now given arguments.now → IfOk result (λ a. a ≡ fitting.found (tell.rows_of self.now) (tell.table_of self.now) reference.now.row (candidate.on_object (tell.rows_of self.now) (tell.table_of self.now) given reference.now.row shape trace class)) }
    {
        if reference.is_call() {
            self.method_of_class(alloc, reference, arguments, class)
        } else {
            self.look_up_of(
                alloc,
                reference.row,
                class,
                NameKind::Variable,
                reference.name,
            )
        }
    }

    // The shape, where the member of an object of this class fits; the object is that of the level.
    fn through(
        &self,
        alloc: Global,
        reference: &Reference,
        arguments: &[RowType],
        class: u32,
        shape: Shape,
        trace: Vec<Referent>,
    ) -> Result<Option<Fit>, OutOfMemory>
        ensures { (given : Option (List Ty)) → tell.IsWholeSpeller self.now → tell.IsSought self.now reference.now → shaping.IsGiven reference.now given arguments.now → IfOk result (λ o. shaping.IsFirstOf self.now reference.now.row (candidate.on_object (tell.rows_of self.now) (tell.table_of self.now) given reference.now.row shape trace.items class ∷ []) o) }
    {
        let found = self.member_of_class(alloc, reference, arguments, class)?;
        let way = object_way(class, reference.level());
        Ok(self.fit_of(reference, shape, Looked { found, trace, way }))
    }

    // The member of an object of a class, by the name of this class.
    fn by_added(
        &self,
        alloc: Global,
        reference: &Reference,
        arguments: &[RowType],
        addition: Addition,
        class: u32,
    ) -> Result<Option<Fit>, OutOfMemory>
        ensures { (given : Option (List Ty)) → tell.IsWholeSpeller self.now → tell.IsSought self.now reference.now → shaping.IsGiven reference.now given arguments.now → class < length (tell.rows_of self.now) → IfOk result (λ o. shaping.IsFirstOf self.now reference.now.row (object.by_added (tell.rows_of self.now) (tell.table_of self.now) given reference.now.row addition class) o) }
    {
        let added = self.added_type(alloc, reference.row, class)?;
        match added {
            Some(Added { suffix, trace }) => {
                let shape = shape_by(addition, suffix);
                self.through(alloc, reference, arguments, class, shape, trace)
            }
            None => Ok(None),
        }
    }

    // `this.x`
    fn on_this(
        &self,
        alloc: Global,
        reference: &Reference,
        arguments: &[RowType],
    ) -> Result<Option<Fit>, OutOfMemory>
        ensures { (given : Option (List Ty)) → tell.IsWholeSpeller self.now → tell.IsSought self.now reference.now → shaping.IsGiven reference.now given arguments.now → IfOk result (λ o. shaping.IsFirstOf self.now reference.now.row (candidate.on_this (tell.rows_of self.now) (tell.table_of self.now) given reference.now.row) o) }
    {
        match self.innermost_level(reference) {
            Some(level) => {
                let trace = Vec::new(alloc);
                self.through(alloc, reference, arguments, level, Shape::This, trace)
            }
            None => Ok(None),
        }
    }

    // `T.this.x`
    fn on_outer(
        &self,
        alloc: Global,
        reference: &Reference,
        arguments: &[RowType],
    ) -> Result<Option<Fit>, OutOfMemory>
        ensures { (given : Option (List Ty)) → tell.IsWholeSpeller self.now → tell.IsSought self.now reference.now → shaping.IsGiven reference.now given arguments.now → IfOk result (λ o. shaping.IsFirstOf self.now reference.now.row (candidate.on_outer (tell.rows_of self.now) (tell.table_of self.now) given reference.now.row) o) }
    {
        match self.instance_level(reference) {
            Some(level) => self.by_added(alloc, reference, arguments, Addition::Outer, level),
            None => Ok(None),
        }
    }

    // What the name of a reference is as a field of the superclass.
    fn field_of_super(&self, alloc: Global, reference: &Reference) -> Result<Referent, OutOfMemory>
        ensures { (given : Option (List Ty)) → tell.IsWholeSpeller self.now → tell.IsSought self.now reference.now → IfOk result (λ a. a ≡ fitting.found (tell.rows_of self.now) (tell.table_of self.now) reference.now.row (candidate.by_super (tell.rows_of self.now) (tell.table_of self.now) given reference.now.row)) }
    {
        let view = self.view;
        view.sight.look_for(
            alloc,
            view.types,
            reference.row,
            reference.name,
            Sought::SuperField,
        )
    }

    // `super.x`, where there is such an object.
    fn through_super(
        &self,
        alloc: Global,
        reference: &Reference,
    ) -> Result<Option<Fit>, OutOfMemory>
        ensures { (given : Option (List Ty)) → tell.IsWholeSpeller self.now → tell.IsSought self.now reference.now → IfOk result (λ o. shaping.IsFirstOf self.now reference.now.row (candidate.by_super (tell.rows_of self.now) (tell.table_of self.now) given reference.now.row ∷ []) o) }
    {
        let found = self.field_of_super(alloc, reference)?;
        let way = super_way(reference.level());
        let trace = Vec::new(alloc);
        Ok(self.fit_of(reference, Shape::Super, Looked { found, trace, way }))
    }

    // `super.x`, a field
    fn on_super(&self, alloc: Global, reference: &Reference) -> Result<Option<Fit>, OutOfMemory>
        ensures { (given : Option (List Ty)) → tell.IsWholeSpeller self.now → tell.IsSought self.now reference.now → IfOk result (λ o. shaping.IsFirstOf self.now reference.now.row (candidate.on_super (tell.rows_of self.now) (tell.table_of self.now) given reference.now.row) o) }
    {
        if reference.is_call() {
            return Ok(None);
        }
        match self.innermost_level(reference) {
            Some(_) => self.through_super(alloc, reference),
            None => Ok(None),
        }
    }

    /// `((S)this).x`, S the type that declares the member.
    pub fn on_cast_this(
        &self,
        alloc: Global,
        reference: &Reference,
        arguments: &[RowType],
    ) -> Result<Option<Fit>, OutOfMemory>
        ensures { (given : Option (List Ty)) → tell.IsWholeSpeller self.now → tell.IsSought self.now reference.now → shaping.IsGiven reference.now given arguments.now → IfOk result (λ o. shaping.IsFirstOf self.now reference.now.row (candidate.on_cast_this (tell.rows_of self.now) (tell.table_of self.now) given reference.now.row) o) }
    {
        match self.declaring(reference) {
            Some(class) => self.by_added(alloc, reference, arguments, Addition::CastThis, class),
            None => Ok(None),
        }
    }

    /// `((S)e).x`, S the type that declares the member.
    pub fn on_cast(
        &self,
        alloc: Global,
        reference: &Reference,
        arguments: &[RowType],
    ) -> Result<Option<Fit>, OutOfMemory>
        ensures { (given : Option (List Ty)) → tell.IsWholeSpeller self.now → tell.IsSought self.now reference.now → shaping.IsGiven reference.now given arguments.now → IfOk result (λ o. shaping.IsFirstOf self.now reference.now.row (candidate.on_cast (tell.rows_of self.now) (tell.table_of self.now) given reference.now.row) o) }
    {
        match self.declaring(reference) {
            Some(class) => self.by_added(alloc, reference, arguments, Addition::Cast, class),
            None => Ok(None),
        }
    }

    // `((S)T.this).x`, both names being found.
    fn by_both(
        &self,
        alloc: Global,
        reference: &Reference,
        arguments: &[RowType],
        class: u32,
        cast: Added,
        outer: Added,
    ) -> Result<Option<Fit>, OutOfMemory>
        ensures { (given : Option (List Ty)) (a b : candidate.Added) → object.IsSame cast a → object.IsSame outer b → tell.IsWholeSpeller self.now → tell.IsSought self.now reference.now → shaping.IsGiven reference.now given arguments.now → IfOk result (λ o. shaping.IsFirstOf self.now reference.now.row (candidate.cast_outer (tell.rows_of self.now) (tell.table_of self.now) given reference.now.row class a b ∷ []) o) }
    {
        let shape = Shape::CastOuter(cast.suffix, outer.suffix);
        let trace = joined(cast.trace, &outer.trace)?;
        self.through(alloc, reference, arguments, class, shape, trace)
    }

    // `((S)T.this).x`, T this level.
    fn by_level(
        &self,
        alloc: Global,
        reference: &Reference,
        arguments: &[RowType],
        class: u32,
        level: u32,
        cast: Added,
    ) -> Result<Option<Fit>, OutOfMemory>
        ensures { (given : Option (List Ty)) (a : candidate.Added) → object.IsSame cast a → tell.IsWholeSpeller self.now → tell.IsSought self.now reference.now → shaping.IsGiven reference.now given arguments.now → level < length (tell.rows_of self.now) → IfOk result (λ o. shaping.IsFirstOf self.now reference.now.row (object.by_level (tell.rows_of self.now) (tell.table_of self.now) given reference.now.row class level a) o) }
    {
        let added = self.added_type(alloc, reference.row, level)?;
        match added {
            Some(outer) => self.by_both(alloc, reference, arguments, class, cast, outer),
            None => Ok(None),
        }
    }

    // `((S)T.this).x`, S this class and T this level.
    fn by_class(
        &self,
        alloc: Global,
        reference: &Reference,
        arguments: &[RowType],
        class: u32,
        level: u32,
    ) -> Result<Option<Fit>, OutOfMemory>
        ensures { (given : Option (List Ty)) → tell.IsWholeSpeller self.now → tell.IsSought self.now reference.now → shaping.IsGiven reference.now given arguments.now → class < length (tell.rows_of self.now) → level < length (tell.rows_of self.now) → IfOk result (λ o. shaping.IsFirstOf self.now reference.now.row (object.by_class (tell.rows_of self.now) (tell.table_of self.now) given reference.now.row class level) o) }
    {
        let added = self.added_type(alloc, reference.row, class)?;
        match added {
            Some(cast) => self.by_level(alloc, reference, arguments, class, level, cast),
            None => Ok(None),
        }
    }

    // `((S)T.this).x`
    fn on_cast_outer(
        &self,
        alloc: Global,
        reference: &Reference,
        arguments: &[RowType],
    ) -> Result<Option<Fit>, OutOfMemory>
        ensures { (given : Option (List Ty)) → tell.IsWholeSpeller self.now → tell.IsSought self.now reference.now → shaping.IsGiven reference.now given arguments.now → IfOk result (λ o. shaping.IsFirstOf self.now reference.now.row (candidate.on_cast_outer (tell.rows_of self.now) (tell.table_of self.now) given reference.now.row) o) }
    {
        match self.declaring(reference) {
            Some(class) => match self.instance_level(reference) {
                Some(level) => self.by_class(alloc, reference, arguments, class, level),
                None => Ok(None),
            },
            None => Ok(None),
        }
    }

    // The cast of the object of the level to the type that declares the member.
    fn on_cast_object(
        &self,
        alloc: Global,
        reference: &Reference,
        arguments: &[RowType],
    ) -> Result<Option<Fit>, OutOfMemory>
        ensures { (given : Option (List Ty)) → tell.IsWholeSpeller self.now → tell.IsSought self.now reference.now → shaping.IsGiven reference.now given arguments.now → IfOk result (λ o. shaping.IsFirstOf self.now reference.now.row (object.on_cast_object (tell.rows_of self.now) (tell.table_of self.now) given reference.now.row) o) }
    {
        match self.innermost_level(reference) {
            Some(_) => self.on_cast_this(alloc, reference, arguments),
            None => self.on_cast_outer(alloc, reference, arguments),
        }
    }

    // By `super`, or by a cast.
    fn on_super_or_cast(
        &self,
        alloc: Global,
        reference: &Reference,
        arguments: &[RowType],
    ) -> Result<Option<Fit>, OutOfMemory>
        ensures { (given : Option (List Ty)) → tell.IsWholeSpeller self.now → tell.IsSought self.now reference.now → shaping.IsGiven reference.now given arguments.now → IfOk result (λ o. shaping.IsFirstOf self.now reference.now.row (object.on_super_or_cast (tell.rows_of self.now) (tell.table_of self.now) given reference.now.row) o) }
    {
        let fit = self.on_super(alloc, reference)?;
        match fit {
            Some(found) => Ok(Some(found)),
            None => self.on_cast_object(alloc, reference, arguments),
        }
    }

    // By an object round the innermost one, by `super`, or by a cast.
    fn on_outer_or_cast(
        &self,
        alloc: Global,
        reference: &Reference,
        arguments: &[RowType],
    ) -> Result<Option<Fit>, OutOfMemory>
        ensures { (given : Option (List Ty)) → tell.IsWholeSpeller self.now → tell.IsSought self.now reference.now → shaping.IsGiven reference.now given arguments.now → IfOk result (λ o. shaping.IsFirstOf self.now reference.now.row (object.on_outer_or_cast (tell.rows_of self.now) (tell.table_of self.now) given reference.now.row) o) }
    {
        let fit = self.on_outer(alloc, reference, arguments)?;
        match fit {
            Some(found) => Ok(Some(found)),
            None => self.on_super_or_cast(alloc, reference, arguments),
        }
    }

    /// An instance member without a receiver, by its object.
    pub fn instance_fit(
        &self,
        alloc: Global,
        reference: &Reference,
        arguments: &[RowType],
    ) -> Result<Option<Fit>, OutOfMemory>
        ensures { (given : Option (List Ty)) → tell.IsWholeSpeller self.now → tell.IsSought self.now reference.now → shaping.IsGiven reference.now given arguments.now → IfOk result (λ o. shaping.IsFirstOf self.now reference.now.row (candidate.on_instance (tell.rows_of self.now) (tell.table_of self.now) given reference.now.row) o) }
    {
        let fit = self.on_this(alloc, reference, arguments)?;
        match fit {
            Some(found) => Ok(Some(found)),
            None => self.on_outer_or_cast(alloc, reference, arguments),
        }
    }

    /// A field through `super`, by a cast of `this`.
    pub fn super_fit(
        &self,
        alloc: Global,
        reference: &Reference,
    ) -> Result<Option<Fit>, OutOfMemory>
        ensures { (given : Option (List Ty)) → tell.IsWholeSpeller self.now → tell.IsSought self.now reference.now → candidate.is_call reference.now.sought ≡ false → IfOk result (λ o. shaping.IsFirstOf self.now reference.now.row (candidate.in_place_of_super (tell.rows_of self.now) (tell.table_of self.now) given reference.now.row) o) }
    {
        match self.instance_round(reference.row) {
            Some(_) => self.on_cast_this(alloc, reference, &[]),
            None => Ok(None),
        }
    }
}
