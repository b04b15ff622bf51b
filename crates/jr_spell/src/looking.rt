// What an identifier refers to behind nothing, a package or a type (JLS 6.5).
ghost use Rattle.std.specs.Prelude.{◌≡◌, ◌<◌, IfOk, length, List};
ghost use Rattle.jr_base.specs.declared.text.Text.{Text};
ghost use Rattle.jr_tree.specs.Rows.{name as name_of};
ghost use Rattle.jr_tree.specs.declared.label.NameKind.TheVariants as names;
ghost use Rattle.jr_defs.specs.Packages.{spelled};
ghost use Rattle.jr_plain.specs.Search.{Lists};
ghost use Rattle.jr_lookup.specs.Sights.{IsTopNamed};
ghost use Rattle.jr_spelling_rules.specs.Naming as naming;
ghost use Rattle.jr_spelling_rules.specs.Behind as behind;
ghost use Rattle.jr_spell.specs.Packaging as packaging;
ghost use Rattle.jr_spell.specs.Spellers as tell;
ghost use Rattle.jr_spell.specs.Standing as standing;

use crate::resolving::Before;
use crate::speller::Speller;
use jr_base::OutOfMemory;
use jr_defs::Referent;
use jr_lookup::Candidates;
use jr_members::MemberKind;
use jr_tree::NameKind;
use std::alloc::Global;

// An identifier of this kind may name a package.
fn otherwise_in_package(kind: NameKind) -> Referent
    ensures { (path : List Text) → result ≡ behind.else_behind (naming.in_package path) kind }
{
    match kind {
        NameKind::PackageOrType => Referent::Package,
        NameKind::Ambiguous => Referent::Package,
        _ => Referent::Unbound,
    }
}

impl<'a> Speller<'a> {
    // The fields of the class.
    fn fields_of(&self, alloc: Global, class: u32, name: u32) -> Result<Vec<u32>, OutOfMemory>
        ensures { tell.IsWholeSpeller self.now → packaging.IsNumber (tell.rows_of self.now) name → IfOk result (λ found. Lists found.items (behind.FieldBehind (tell.rows_of self.now) (tell.table_of self.now) (name_of (tell.rows_of self.now) name) (naming.in_type class))) }
    {
        let view = self.view;
        view.sight
            .world
            .named(alloc, MemberKind::Field, class, name)
    }

    // The member types of the class.
    fn types_of(&self, alloc: Global, class: u32, name: u32) -> Result<Vec<u32>, OutOfMemory>
        ensures { tell.IsWholeSpeller self.now → packaging.IsNumber (tell.rows_of self.now) name → IfOk result (λ found. Lists found.items (behind.TypeBehind (tell.rows_of self.now) (tell.table_of self.now) (name_of (tell.rows_of self.now) name) (naming.in_type class))) }
    {
        let view = self.view;
        view.sight.world.named(alloc, MemberKind::Type, class, name)
    }

    // The types of the package that the name at a row spells.
    fn types_beside(&self, alloc: Global, row: u32, name: u32) -> Result<Vec<u32>, OutOfMemory>
        ensures { tell.IsWholeSpeller self.now → row < length (tell.rows_of self.now) → IfOk result (λ found. Lists found.items (IsTopNamed (tell.rows_of self.now) (spelled (tell.rows_of self.now) row) name)) }
    {
        let view = self.view;
        let under = view.sight.world.under;
        match under.places.spelled(under.rows, row) {
            Some(number) => { view.sight.scopes.types_of_package(alloc, number, name) }
            None => Ok(Vec::new(alloc)),
        }
    }

    // The types of the package.
    fn types_in(
        &self,
        alloc: Global,
        number: Option<u32>,
        name: u32,
    ) -> Result<Vec<u32>, OutOfMemory>
        ensures { (path : List Text) → tell.IsWholeSpeller self.now → packaging.IsPath (tell.rows_of self.now) self.now.paths.now number path → packaging.IsNumber (tell.rows_of self.now) name → IfOk result (λ found. Lists found.items (behind.TypeBehind (tell.rows_of self.now) (tell.table_of self.now) (name_of (tell.rows_of self.now) name) (naming.in_package path))) }
    {
        match number {
            Some(row) => self.types_beside(alloc, row, name),
            None => Ok(Vec::new(alloc)),
        }
    }

    // The fields of the class, or its member types where it has no such field.
    fn fields_or_types_of(
        &self,
        alloc: Global,
        class: u32,
        name: u32,
    ) -> Result<Vec<u32>, OutOfMemory>
        ensures { tell.IsWholeSpeller self.now → packaging.IsNumber (tell.rows_of self.now) name → IfOk result (λ found. Lists found.items (behind.NamedBehind (tell.rows_of self.now) (tell.table_of self.now) (name_of (tell.rows_of self.now) name) (naming.in_type class) names.Ambiguous)) }
    {
        let fields = self.fields_of(alloc, class, name)?;
        if !fields.is_empty() {
            return Ok(fields);
        }
        self.types_of(alloc, class, name)
    }

    // What a name of this kind may refer to behind the class.
    fn named_of(
        &self,
        alloc: Global,
        class: u32,
        kind: NameKind,
        name: u32,
    ) -> Result<Vec<u32>, OutOfMemory>
        ensures { tell.IsWholeSpeller self.now → packaging.IsNumber (tell.rows_of self.now) name → IfOk result (λ found. Lists found.items (behind.NamedBehind (tell.rows_of self.now) (tell.table_of self.now) (name_of (tell.rows_of self.now) name) (naming.in_type class) kind)) }
    {
        match kind {
            NameKind::Variable => self.fields_of(alloc, class, name),
            NameKind::Type => self.types_of(alloc, class, name),
            NameKind::PackageOrType => self.types_of(alloc, class, name),
            NameKind::Ambiguous => self.fields_or_types_of(alloc, class, name),
            NameKind::Package => Ok(Vec::new(alloc)),
        }
    }

    // What a name of this kind may refer to in the package.
    fn named_in(
        &self,
        alloc: Global,
        number: Option<u32>,
        kind: NameKind,
        name: u32,
    ) -> Result<Vec<u32>, OutOfMemory>
        ensures { (path : List Text) → tell.IsWholeSpeller self.now → packaging.IsPath (tell.rows_of self.now) self.now.paths.now number path → packaging.IsNumber (tell.rows_of self.now) name → IfOk result (λ found. Lists found.items (behind.NamedBehind (tell.rows_of self.now) (tell.table_of self.now) (name_of (tell.rows_of self.now) name) (naming.in_package path) kind)) }
    {
        match kind {
            NameKind::Type => self.types_in(alloc, number, name),
            NameKind::PackageOrType => self.types_in(alloc, number, name),
            NameKind::Ambiguous => self.types_in(alloc, number, name),
            _ => Ok(Vec::new(alloc)),
        }
    }

    /// What the name refers to behind the class.
    pub fn look_up_of(
        &self,
        alloc: Global,
        place: u32,
        class: u32,
        kind: NameKind,
        name: u32,
    ) -> Result<Referent, OutOfMemory>
        ensures { tell.IsWholeSpeller self.now → packaging.IsNumber (tell.rows_of self.now) name → IfOk result (λ a. a ≡ naming.look_up (tell.rows_of self.now) (tell.table_of self.now) place (naming.in_type class) kind (name_of (tell.rows_of self.now) name)) }
    {
        let rows = self.named_of(alloc, class, kind, name)?;
        Ok(Candidates { rows, level: None }.answer(Referent::Unbound))
    }

    // What the name refers to in the package.
    fn look_up_in(
        &self,
        alloc: Global,
        place: u32,
        number: Option<u32>,
        kind: NameKind,
        name: u32,
    ) -> Result<Referent, OutOfMemory>
        ensures { (path : List Text) → tell.IsWholeSpeller self.now → packaging.IsPath (tell.rows_of self.now) self.now.paths.now number path → packaging.IsNumber (tell.rows_of self.now) name → IfOk result (λ a. a ≡ naming.look_up (tell.rows_of self.now) (tell.table_of self.now) place (naming.in_package path) kind (name_of (tell.rows_of self.now) name)) }
    {
        let rows = self.named_in(alloc, number, kind, name)?;
        let otherwise = otherwise_in_package(kind);
        Ok(Candidates { rows, level: None }.answer(otherwise))
    }

    // What the name refers to with nothing before it.
    fn look_up_alone(
        &self,
        alloc: Global,
        place: u32,
        kind: NameKind,
        name: u32,
    ) -> Result<Referent, OutOfMemory>
        ensures { tell.IsWholeSpeller self.now → packaging.IsNumber (tell.rows_of self.now) name → place < length (tell.rows_of self.now) → IfOk result (λ a. a ≡ naming.look_up (tell.rows_of self.now) (tell.table_of self.now) place naming.at_start kind (name_of (tell.rows_of self.now) name)) }
    {
        let view = self.view;
        view.sight.simple(alloc, place, kind, name)
    }

    /// What one identifier refers to.
    pub fn look_up(
        &self,
        alloc: Global,
        place: u32,
        before: Before,
        kind: NameKind,
        name: u32,
    ) -> Result<Referent, OutOfMemory>
        ensures { (b : naming.Before) → tell.IsWholeSpeller self.now → standing.StandsFor self.now before b → packaging.IsNumber (tell.rows_of self.now) name → place < length (tell.rows_of self.now) → IfOk result (λ a. a ≡ naming.look_up (tell.rows_of self.now) (tell.table_of self.now) place b kind (name_of (tell.rows_of self.now) name)) }
    {
        match before {
            Before::Nothing => self.look_up_alone(alloc, place, kind, name),
            Before::Package(number) => self.look_up_in(alloc, place, number, kind, name),
            Before::OfType(class) => self.look_up_of(alloc, place, class, kind, name),
        }
    }
}
