// Names without a dot (JLS 6.3, 6.3.1, 6.5.2, 15.12.1).
ghost use Rattle.std.specs.Prelude.{◌≡◌, ◌++◌, ◌<◌, ◌&&◌, ◌||◌, not, nat_eq, None, IfOk, OnOk, Decides, filter, length};
ghost use Rattle.jr_base.specs.declared.text.Text.{Text};
ghost use Rattle.jr_tree.specs.declared.label.NameKind.TheVariants as names;
ghost use Rattle.jr_tree.specs.declared.label.Role.TheVariants as role;
ghost use Rattle.jr_tree.specs.Rows as program;
ghost use Rattle.jr_defs.specs.declared.referent.Space.TheVariants as space;
ghost use Rattle.jr_defs.specs.Imports.{ImportsHold};
ghost use Rattle.jr_defs.specs.Lookup.{MethodLevel, SimpleCandidate};
ghost use Rattle.jr_defs.specs.Packages.{spelled};
ghost use Rattle.jr_defs.specs.Referents.{Table, entries};
ghost use Rattle.jr_plain.specs.Imports as imported;
ghost use Rattle.jr_plain.specs.Modifiers as modified;
ghost use Rattle.jr_plain.specs.Same as same;
ghost use Rattle.jr_plain.specs.Search.{Finds, Lists};
ghost use Rattle.jr_places.specs.Packages as packed;
ghost use Rattle.jr_places.specs.Places.{ArePlaces};
ghost use Rattle.jr_members.specs.declared.declared.MemberKind.TheVariants as kinds;
ghost use Rattle.jr_members.specs.Each.{ListsEach, if_such};
ghost use Rattle.jr_members.specs.Keys.{falling};
ghost use Rattle.jr_members.specs.Sources.{ArePlaced};
ghost use Rattle.jr_members.specs.Worlds.{IsWorld};
ghost use Rattle.jr_lookup.specs.Answers as answers;
ghost use Rattle.jr_lookup.specs.Labels as labeled;
ghost use Rattle.jr_lookup.specs.Levels as tell;
ghost use Rattle.jr_lookup.specs.Locals.{AreLocalsPlaced, IsVisibleLocal};
ghost use Rattle.jr_lookup.specs.Outward.{IsInnermostSuch, IsNumberOf};
ghost use Rattle.jr_lookup.specs.Scopes.{AreScopes, is_top_of};
ghost use Rattle.jr_lookup.specs.Sights as sights;
ghost use Rattle.jr_lookup.specs.Types.{AreTypesByName, AreVisibleAt};
ghost use Rattle.jr_lookup.specs.Variables.{AreFieldsAt, AreStaticFar, AreVariablesWithin};

use crate::candidates::Candidates;
use crate::imports::Imports;
use crate::scopes::Scopes;
use jr_base::OutOfMemory;
use jr_defs::Referent;
use jr_members::{MemberKind, World};
use jr_places::{Places, holders_of, is_private, is_public, is_static, role_at};
use jr_supers::Tabled;
use jr_tree::{NameKind, Role, Row};
use std::alloc::Global;

/// Rows under a table, with all that lookup reads.
#[derive(Clone, Copy)]
pub struct Sight<'a> {
    pub world: World<'a>,
    pub scopes: &'a Scopes,
    pub imports: &'a Imports,
}

// Fields have the type through which they are found as their level.
fn level_of(kind: MemberKind, over: u32) -> Option<u32>
    ensures { result ≡ tell.level_by kind over }
{
    match kind {
        MemberKind::Field => Some(over),
        _ => None,
    }
}

// The row is a labeled statement.
fn is_label(rows: &[Row], at: u32) -> bool
    ensures { result ≡ same.same_role (program.role_at rows.now at) role.Label }
{
    match role_at(rows, at) {
        Role::Label => true,
        _ => false,
    }
}

// The row is a labeled statement of the name.
fn is_label_named(under: Tabled, name: u32, at: u32) -> bool
    ensures { ArePlaces under.entry.rows.now under.entry.places.now → result ≡ labeled.is_label_named under.entry.rows.now name at }
{
    let number = under.places.name(at);
    is_label(under.rows, at) && number == name
}

// Such a one, other than the place.
fn is_label_over(under: Tabled, place: u32, name: u32, at: u32) -> bool
    ensures { ArePlaces under.entry.rows.now under.entry.places.now → result ≡ labeled.is_label_over under.entry.rows.now place name at }
{
    at != place && is_label_named(under, name, at)
}

fn push_if(all: &mut Vec<u32>, is_such: bool, at: u32) -> Result<(), OutOfMemory>
    ensures { OnOk result (all.new.items ≡ all.old.items ++ if_such is_such at) }
{
    if is_such {
        all.push(at)?;
    }
    Ok(())
}

// Of some rows the labeled statements of the name, but the place itself.
fn labels_among(
    alloc: Global,
    under: Tabled,
    over: &[u32],
    place: u32,
    name: u32,
) -> Result<Vec<u32>, OutOfMemory>
    ensures { ArePlaces under.entry.rows.now under.entry.places.now → IfOk result (λ found. found.items ≡ filter (labeled.is_label_over under.entry.rows.now place name) over.now) }
{
    let mut found = Vec::new(alloc);
    for at in over {
        let is_such = is_label_over(under, place, name, *at);
        push_if(&mut found, is_such, *at)?;
    }
    Ok(found)
}

// What is not private, and is public or of the package.
fn is_open(rows: &[Row], is_one_package: bool, at: u32) -> bool
    ensures { result ≡ (not (modified.is_private rows.now at) && (modified.is_public rows.now at || is_one_package)) }
{
    !is_private(rows, at) && (is_public(rows, at) || is_one_package)
}

// The row is static, and so it is told of it.
fn is_static_and(rows: &[Row], is_such: bool, at: u32) -> bool
    ensures { result ≡ (modified.is_static rows.now at && is_such) }
{
    is_static(rows, at) && is_such
}

// Puts some rows behind a list.
fn add_all(all: &mut Vec<u32>, more: &[u32]) -> Result<(), OutOfMemory>
    ensures { OnOk result (all.new.items ≡ all.old.items ++ more.now) }
{
    for at in more {
        all.push(*at)?;
    }
    Ok(())
}

// Both are there, and are one.
fn are_one(one: Option<u32>, other: Option<u32>) -> bool
    ensures { result ≡ packed.same_some one other }
{
    match one {
        Some(first) => match other {
            Some(second) => first == second,
            None => false,
        },
        None => false,
    }
}

// The first is not told, or the second is.
fn not_or(one: bool, other: bool) -> bool
    ensures { result ≡ (not one || other) }
{
    !one || other
}

// Where it is told that imports bring a type of the name, the row is of the unit of the place.
fn is_kept_beside(places: &Places, place: u32, has_imported: bool, at: u32) -> bool
    ensures { (p : program.Rows) → ArePlaced p places.now → result ≡ sights.is_kept_beside p place has_imported at }
{
    let one = places.unit(at);
    let other = places.unit(place);
    not_or(has_imported, are_one(one, other))
}

// Of some types of the package those that stay beside what imports bring.
fn kept_beside(
    alloc: Global,
    places: &Places,
    place: u32,
    has_imported: bool,
    types: &[u32],
) -> Result<Vec<u32>, OutOfMemory>
    ensures { (p : program.Rows) → ArePlaced p places.now → IfOk result (λ found. found.items ≡ filter (sights.is_kept_beside p place has_imported) types.now) }
{
    let mut found = Vec::new(alloc);
    for at in types {
        let is_such = is_kept_beside(places, place, has_imported, *at);
        push_if(&mut found, is_such, *at)?;
    }
    Ok(found)
}

impl<'a> Sight<'a> {
    // The locals and parameters of the name that are in scope furthest in.
    fn locals(&self, alloc: Global, place: u32, name: u32) -> Result<Vec<u32>, OutOfMemory>
        ensures { (t : Table) (x : Text) → IsWorld t self.now.world → AreScopes self.now.world.under.rows.now self.now.scopes.now → AreLocalsPlaced self.now.world.under.rows.now → place < length self.now.world.under.rows.now → IsNumberOf self.now.world.under.rows.now name x → IfOk result (λ found. ListsEach found.items (IsVisibleLocal self.now.world.under.rows.now t x place)) }
    {
        self.scopes
            .locals(alloc, self.world.under.rows, place, name)
    }

    // The type has a member of the kind and name.
    fn has_member(
        &self,
        alloc: Global,
        kind: MemberKind,
        over: u32,
        name: u32,
    ) -> Result<bool, OutOfMemory>
        ensures { (t : Table) → IsWorld t self.now.world → IfOk result (λ is. Decides is (tell.HasMemberAs self.now.world.under.rows.now t kind name over)) }
    {
        let found = self.world.named(alloc, kind, over, name)?;
        Ok(!found.is_empty())
    }

    // The innermost type round the place that has a member of the kind and name.
    fn innermost_with(
        &self,
        alloc: Global,
        kind: MemberKind,
        place: u32,
        name: u32,
    ) -> Result<Option<u32>, OutOfMemory>
        ensures { (t : Table) → IsWorld t self.now.world → IfOk result (λ found. Finds found (IsInnermostSuch self.now.world.under.rows.now (tell.HasMemberAs self.now.world.under.rows.now t kind name) place)) }
    {
        if !self.world.members.kind(kind).has_name(name) {
            return Ok(None);
        }
        let mut around = self.world.under.places.around(place);
        for _turn in 0..place {
            match around {
                Some(over) => {
                    let is_such = self.has_member(alloc, kind, over, name)?;
                    if is_such {
                        return Ok(Some(over));
                    }
                    let next = self.world.under.places.around(over);
                    around = next;
                }
                None => return Ok(None),
            }
        }
        Ok(None)
    }

    // The members of the name of the innermost type round the place that has any.
    fn members_around(
        &self,
        alloc: Global,
        kind: MemberKind,
        place: u32,
        name: u32,
    ) -> Result<Candidates, OutOfMemory>
        ensures { (t : Table) → IsWorld t self.now.world → IfOk result (λ found. tell.AreMembersAround self.now.world.under.rows.now t kind place name found.rows.items found.level) }
    {
        let found = self.innermost_with(alloc, kind, place, name)?;
        match found {
            Some(over) => {
                let rows = self.world.named(alloc, kind, over, name)?;
                let level = level_of(kind, over);
                Ok(Candidates { rows, level })
            }
            None => Ok(Candidates::none(alloc)),
        }
    }

    /// The innermost type round the place that has a member method of the name (JLS 15.12.1).
    pub fn method_level(
        &self,
        alloc: Global,
        place: u32,
        name: u32,
    ) -> Result<Option<u32>, OutOfMemory>
        ensures { (t : Table) (x : Text) → IsWorld t self.now.world → IsNumberOf self.now.world.under.rows.now name x → IfOk result (λ found. Finds found (MethodLevel self.now.world.under.rows.now t x place)) }
    {
        self.innermost_with(alloc, MemberKind::Method, place, name)
    }

    /// The unit whose imports hold at the place: in its types, and not in the imports themselves (JLS 6.3).
    pub fn importing_unit(&self, place: u32) -> Option<u32>
        ensures { ArePlaced self.now.world.under.rows.now self.now.world.under.places.now → Finds result (λ u. ImportsHold self.now.world.under.rows.now u place) }
    {
        let places = self.world.under.places;
        match places.top(place) {
            Some(top) => places.unit(top),
            None => None,
        }
    }

    // What a unit may import without naming it alone: what is public, or not private and of its own package (JLS 7.5.2, 7.5.3).
    fn can_import(&self, unit: u32, at: u32) -> bool
        ensures { ArePlaced self.now.world.under.rows.now self.now.world.under.places.now → result ≡ imported.can_import self.now.world.under.rows.now unit at }
    {
        let is_one_package = self.world.under.places.is_one_package(unit, at);
        is_open(self.world.under.rows, is_one_package, at)
    }

    // A static member that the unit may import.
    fn can_import_static(&self, unit: u32, at: u32) -> bool
        ensures { ArePlaced self.now.world.under.rows.now self.now.world.under.places.now → result ≡ sights.is_static_importable self.now.world.under.rows.now unit at }
    {
        let is_such = self.can_import(unit, at);
        is_static_and(self.world.under.rows, is_such, at)
    }

    // Adds those of some members that are static and that the unit may import.
    fn add_static(&self, all: &mut Vec<u32>, unit: u32, members: &[u32]) -> Result<(), OutOfMemory>
        ensures { ArePlaced self.now.world.under.rows.now self.now.world.under.places.now → OnOk result (all.new.items ≡ all.old.items ++ filter (sights.is_static_importable self.now.world.under.rows.now unit) members.now) }
    {
        for at in members {
            let is_such = self.can_import_static(unit, *at);
            push_if(all, is_such, *at)?;
        }
        Ok(())
    }

    // Adds the static members of the name that a type has.
    fn add_static_of(
        &self,
        alloc: Global,
        all: &mut Vec<u32>,
        kind: MemberKind,
        unit: u32,
        over: u32,
        name: u32,
    ) -> Result<(), OutOfMemory>
        ensures { (t : Table) → IsWorld t self.now.world → OnOk result (sights.AddsSuch (sights.IsReached self.now.world.under.rows.now t kind unit name over) all.old.items all.new.items) }
    {
        let members = self.world.named(alloc, kind, over, name)?;
        self.add_static(all, unit, &members)
    }

    // Adds the static members of the name that one static import brings.
    fn add_imported(
        &self,
        alloc: Global,
        all: &mut Vec<u32>,
        kind: MemberKind,
        unit: u32,
        import: u32,
        name: u32,
    ) -> Result<(), OutOfMemory>
        ensures { (t : Table) → sights.IsSight t self.now → sights.IsImport self.now.world.under.rows.now import → OnOk result (sights.AddsSuch (sights.IsNamedBy self.now.world.under.rows.now t kind unit name import) all.old.items all.new.items) }
    {
        match self.world.under.named_type(import) {
            Some(over) => self.add_static_of(alloc, all, kind, unit, over, name),
            None => Ok(()),
        }
    }

    // The static members of the name that some static imports bring.
    fn imported_each(
        &self,
        alloc: Global,
        kind: MemberKind,
        unit: u32,
        imports: &[u32],
        name: u32,
    ) -> Result<Vec<u32>, OutOfMemory>
        ensures { (t : Table) → sights.IsSight t self.now → sights.AreImportRows self.now.world.under.rows.now imports.now → IfOk result (λ found. Lists found.items (sights.IsBroughtBy (sights.IsNamedBy self.now.world.under.rows.now t kind unit name) imports.now)) }
    {
        let mut all = Vec::new(alloc);
        for import in imports {
            self.add_imported(alloc, &mut all, kind, unit, *import, name)?;
        }
        Ok(all)
    }

    // The static members of the name that single static imports bring to a unit.
    fn imported_to(
        &self,
        alloc: Global,
        kind: MemberKind,
        unit: u32,
        name: u32,
    ) -> Result<Vec<u32>, OutOfMemory>
        ensures { (t : Table) → sights.IsSight t self.now → IfOk result (λ found. Lists found.items (sights.IsStaticOf self.now.world.under.rows.now t kind unit name)) }
    {
        let imports = self.scopes.static_imports(alloc, unit, name)?;
        self.imported_each(alloc, kind, unit, &imports, name)
    }

    /// The static members of the name that single static imports bring to a place (JLS 7.5.3).
    pub fn imported(
        &self,
        alloc: Global,
        kind: MemberKind,
        place: u32,
        name: u32,
    ) -> Result<Vec<u32>, OutOfMemory>
        ensures { (t : Table) → sights.IsSight t self.now → IfOk result (λ found. Lists found.items (sights.IsStaticAt self.now.world.under.rows.now t kind place name)) }
    {
        match self.importing_unit(place) {
            Some(unit) => self.imported_to(alloc, kind, unit, name),
            None => Ok(Vec::new(alloc)),
        }
    }

    // The fields of the name that are in scope furthest in.
    fn fields(&self, alloc: Global, place: u32, name: u32) -> Result<Candidates, OutOfMemory>
        ensures far { (t : Table) → sights.IsSight t self.now → IfOk result (λ found. AreStaticFar self.now.world.under.rows.now t place name found.rows.items found.level) }
        ensures around { (t : Table) → IsWorld t self.now.world → IfOk result (λ found. AreFieldsAt self.now.world.under.rows.now t place name found.rows.items found.level) }
    {
        let members = self.members_around(alloc, MemberKind::Field, place, name)?;
        if !members.rows.is_empty() {
            return Ok(members);
        }
        let rows = self.imported(alloc, MemberKind::Field, place, name)?;
        Ok(Candidates { rows, level: None })
    }

    /// The variables of the name that are visible at the place.
    pub fn variables(&self, alloc: Global, place: u32, name: u32) -> Result<Candidates, OutOfMemory>
        ensures visible { (t : Table) (x : Text) → sights.IsSight t self.now → AreLocalsPlaced self.now.world.under.rows.now → place < length self.now.world.under.rows.now → IsNumberOf self.now.world.under.rows.now name x → IfOk result (λ found. AreVisibleAt self.now.world.under.rows.now t space.Variable x place found.rows.items found.level) }
        ensures within { (t : Table) (x : Text) → IsWorld t self.now.world → AreScopes self.now.world.under.rows.now self.now.scopes.now → AreLocalsPlaced self.now.world.under.rows.now → place < length self.now.world.under.rows.now → IsNumberOf self.now.world.under.rows.now name x → IfOk result (λ found. AreVariablesWithin self.now.world.under.rows.now t x place found.rows.items found.level) }
    {
        let locals = self.locals(alloc, place, name)?;
        if !locals.is_empty() {
            return Ok(Candidates {
                rows: locals,
                level: None,
            });
        }
        self.fields(alloc, place, name)
    }

    // Adds those of some types that a unit may import.
    fn add_importable(
        &self,
        all: &mut Vec<u32>,
        unit: u32,
        types: &[u32],
    ) -> Result<(), OutOfMemory>
        ensures { ArePlaced self.now.world.under.rows.now self.now.world.under.places.now → OnOk result (all.new.items ≡ all.old.items ++ filter (imported.can_import self.now.world.under.rows.now unit) types.now) }
    {
        for at in types {
            let is_such = self.can_import(unit, *at);
            push_if(all, is_such, *at)?;
        }
        Ok(())
    }

    // The top-level types of the name in the package that the name at a row spells.
    fn types_of_path(&self, alloc: Global, target: u32, name: u32) -> Result<Vec<u32>, OutOfMemory>
        ensures { (t : Table) → sights.IsSight t self.now → target < length self.now.world.under.rows.now → IfOk result (λ found. Lists found.items (sights.IsTopNamed self.now.world.under.rows.now (spelled self.now.world.under.rows.now target) name)) }
    {
        let under = self.world.under;
        match under.places.spelled(under.rows, target) {
            Some(number) => self.scopes.types_of_package(alloc, number, name),
            None => Ok(Vec::new(alloc)),
        }
    }

    // The types of the name that are declared in the type to which the name at a row refers.
    fn types_of_type(&self, alloc: Global, target: u32, name: u32) -> Result<Vec<u32>, OutOfMemory>
        ensures { (t : Table) → IsWorld t self.now.world → IfOk result (λ found. Lists found.items (sights.IsDeclaredNamed self.now.world.under.rows.now (entries self.now.world.under.table.now target) name)) }
    {
        match self.world.under.referred_type(target) {
            Some(over) => {
                let types = self.world.members.kind(MemberKind::Type);
                types.own(alloc, over, name)
            }
            None => Ok(Vec::new(alloc)),
        }
    }

    // The types of the name that the package has, or that the type declares, to which the name at a row refers.
    fn types_in(&self, alloc: Global, target: u32, name: u32) -> Result<Vec<u32>, OutOfMemory>
        ensures { (t : Table) → sights.IsSight t self.now → target < length self.now.world.under.rows.now → IfOk result (λ found. Lists found.items (sights.IsTypeIn self.now.world.under.rows.now (entries self.now.world.under.table.now target) target name)) }
    {
        match self.world.under.referent(target) {
            Referent::Package => self.types_of_path(alloc, target, name),
            _ => self.types_of_type(alloc, target, name),
        }
    }

    // The types of the name that an import on demand has.
    fn demanded(&self, alloc: Global, import: u32, name: u32) -> Result<Vec<u32>, OutOfMemory>
        ensures { (t : Table) → sights.IsSight t self.now → sights.IsImport self.now.world.under.rows.now import → IfOk result (λ found. Lists found.items (sights.IsDemandedAs self.now.world.under.rows.now t name import)) }
    {
        match self.world.under.first_child(import) {
            Some(target) => self.types_in(alloc, target, name),
            None => Ok(Vec::new(alloc)),
        }
    }

    // Adds the types of the name that an import on demand has, and that the unit may import.
    fn add_demanded(
        &self,
        alloc: Global,
        all: &mut Vec<u32>,
        unit: u32,
        import: u32,
        name: u32,
    ) -> Result<(), OutOfMemory>
        ensures { (t : Table) → sights.IsSight t self.now → sights.IsImport self.now.world.under.rows.now import → OnOk result (sights.AddsSuch (sights.IsDemanded self.now.world.under.rows.now t unit name import) all.old.items all.new.items) }
    {
        let types = self.demanded(alloc, import, name)?;
        self.add_importable(all, unit, &types)
    }

    // The types of the name that some imports on demand bring.
    fn demanded_each(
        &self,
        alloc: Global,
        unit: u32,
        imports: &[u32],
        name: u32,
    ) -> Result<Vec<u32>, OutOfMemory>
        ensures { (t : Table) → sights.IsSight t self.now → sights.AreImportRows self.now.world.under.rows.now imports.now → IfOk result (λ found. Lists found.items (sights.IsBroughtBy (sights.IsDemanded self.now.world.under.rows.now t unit name) imports.now)) }
    {
        let mut all = Vec::new(alloc);
        for import in imports {
            self.add_demanded(alloc, &mut all, unit, *import, name)?;
        }
        Ok(all)
    }

    // Adds those of some types of a package that a unit may import.
    fn add_of_package(
        &self,
        alloc: Global,
        all: &mut Vec<u32>,
        unit: u32,
        number: u32,
        name: u32,
    ) -> Result<(), OutOfMemory>
        ensures { (t : Table) → sights.IsSight t self.now → OnOk result (all.new.items ≡ all.old.items ++ filter (imported.can_import self.now.world.under.rows.now unit) (falling (length self.now.world.under.rows.now) (is_top_of self.now.world.under.rows.now self.now.world.under.places.now number name))) }
    {
        let types = self.scopes.types_of_package(alloc, number, name)?;
        self.add_importable(all, unit, &types)
    }

    // Adds the types of the name in java.lang, the package of row 1, that the unit may import.
    fn add_lang(
        &self,
        alloc: Global,
        all: &mut Vec<u32>,
        unit: u32,
        name: u32,
    ) -> Result<(), OutOfMemory>
        ensures { (t : Table) → sights.IsSight t self.now → OnOk result (sights.AddsSuch (sights.IsLang self.now.world.under.rows.now unit name) all.old.items all.new.items) }
    {
        match self.world.under.places.package(1) {
            Some(number) => self.add_of_package(alloc, all, unit, number, name),
            None => Ok(()),
        }
    }

    // The types of the name that imports on demand bring, those of java.lang among them.
    fn on_demand(&self, alloc: Global, unit: u32, name: u32) -> Result<Vec<u32>, OutOfMemory>
        ensures { (t : Table) → sights.IsSight t self.now → IfOk result (λ found. Lists found.items (sights.IsOnDemand self.now.world.under.rows.now t unit name)) }
    {
        let imports = self.scopes.imports_on_demand(alloc, unit)?;
        let mut all = self.demanded_each(alloc, unit, &imports, name)?;
        self.add_lang(alloc, &mut all, unit, name)?;
        Ok(all)
    }

    // The types of the name in the package of the place, or of its unit alone where imports bring one too (JLS 6.4.1, 7.5.1).
    fn of_package(
        &self,
        alloc: Global,
        place: u32,
        name: u32,
        has_imported: bool,
    ) -> Result<Vec<u32>, OutOfMemory>
        ensures { (t : Table) → sights.IsSight t self.now → IfOk result (λ found. Lists found.items (sights.IsKeptBeside self.now.world.under.rows.now place name has_imported)) }
    {
        let places = self.world.under.places;
        match places.package(place) {
            Some(number) => {
                let types = self.scopes.types_of_package(alloc, number, name)?;
                kept_beside(alloc, places, place, has_imported, &types)
            }
            None => Ok(Vec::new(alloc)),
        }
    }

    // Adds the types of the name that single-type imports bring to a place.
    fn add_singles(
        &self,
        alloc: Global,
        all: &mut Vec<u32>,
        place: u32,
        name: u32,
    ) -> Result<(), OutOfMemory>
        ensures { (t : Table) → sights.IsSight t self.now → OnOk result (sights.AddsSuch (sights.IsSingleAt self.now.world.under.rows.now t place name) all.old.items all.new.items) }
    {
        match self.importing_unit(place) {
            Some(unit) => {
                let types = self.imports.single(alloc, unit, name)?;
                add_all(all, &types)
            }
            None => Ok(()),
        }
    }

    // Adds the types of the name in the package of the place, or of its unit alone where there are others.
    fn add_beside(
        &self,
        alloc: Global,
        all: &mut Vec<u32>,
        place: u32,
        name: u32,
    ) -> Result<(), OutOfMemory>
        ensures { (t : Table) → sights.IsSight t self.now → OnOk result (sights.AddsSuch (sights.IsKeptBeside self.now.world.under.rows.now place name (not (nat_eq (length all.old.items) 0))) all.old.items all.new.items) }
    {
        let has_imported = !all.is_empty();
        let types = self.of_package(alloc, place, name, has_imported)?;
        add_all(all, &types)
    }

    // The types of the name that no type round the place has, by imports of one name and by packages.
    fn types_outside(&self, alloc: Global, place: u32, name: u32) -> Result<Vec<u32>, OutOfMemory>
        ensures { (t : Table) → sights.IsSight t self.now → IfOk result (λ found. Lists found.items (sights.IsOutside self.now.world.under.rows.now t place name)) }
    {
        let mut all = self.imported(alloc, MemberKind::Type, place, name)?;
        self.add_singles(alloc, &mut all, place, name)?;
        self.add_beside(alloc, &mut all, place, name)?;
        Ok(all)
    }

    /// The member types of the name that types round the place have.
    pub fn types_around(
        &self,
        alloc: Global,
        place: u32,
        name: u32,
    ) -> Result<Candidates, OutOfMemory>
        ensures { (t : Table) → IsWorld t self.now.world → IfOk result (λ found. tell.AreMembersAround self.now.world.under.rows.now t kinds.Type place name found.rows.items found.level) }
    {
        self.members_around(alloc, MemberKind::Type, place, name)
    }

    /// The types of the name that are visible at the place, but those that imports on demand bring.
    pub fn types_by_name(
        &self,
        alloc: Global,
        place: u32,
        name: u32,
    ) -> Result<Candidates, OutOfMemory>
        ensures { (t : Table) (x : Text) → sights.IsSight t self.now → IsNumberOf self.now.world.under.rows.now name x → IfOk result (λ found. AreTypesByName self.now.world.under.rows.now t x place found.rows.items found.level) }
    {
        let members = self.types_around(alloc, place, name)?;
        if !members.rows.is_empty() {
            return Ok(members);
        }
        let rows = self.types_outside(alloc, place, name)?;
        Ok(Candidates { rows, level: None })
    }

    /// The types of the name that are visible at the place.
    pub fn types(&self, alloc: Global, place: u32, name: u32) -> Result<Candidates, OutOfMemory>
        ensures { (t : Table) (x : Text) → sights.IsSight t self.now → IsNumberOf self.now.world.under.rows.now name x → IfOk result (λ found. AreVisibleAt self.now.world.under.rows.now t space.Type x place found.rows.items found.level) }
    {
        let found = self.types_by_name(alloc, place, name)?;
        if !found.rows.is_empty() {
            return Ok(found);
        }
        match self.importing_unit(place) {
            Some(unit) => {
                let rows = self.on_demand(alloc, unit, name)?;
                Ok(Candidates { rows, level: None })
            }
            None => Ok(found),
        }
    }

    /// The labels of the name that are in scope at the place; labels do not shadow one another (JLS 14.7).
    pub fn labels(&self, alloc: Global, place: u32, name: u32) -> Result<Candidates, OutOfMemory>
        ensures rows { (t : Table) (x : Text) → IsWorld t self.now.world → place < length self.now.world.under.rows.now → IsNumberOf self.now.world.under.rows.now name x → IfOk result (λ found. labeled.AreLabelsAt self.now.world.under.rows.now t x place found.rows.items) }
        ensures level { IfOk result (λ found. found.level ≡ None) }
    {
        let over = holders_of(alloc, self.world.under.rows, place)?;
        let rows = labels_among(alloc, self.world.under, &over, place, name)?;
        Ok(Candidates { rows, level: None })
    }

    // A name that may be a variable or a type is a variable if one is in scope (JLS 6.5.2).
    fn variables_or_types(
        &self,
        alloc: Global,
        place: u32,
        name: u32,
    ) -> Result<Candidates, OutOfMemory>
        ensures { (t : Table) (x : Text) → sights.IsSight t self.now → AreLocalsPlaced self.now.world.under.rows.now → place < length self.now.world.under.rows.now → IsNumberOf self.now.world.under.rows.now name x → IfOk result (λ found. answers.AreAllThrough (λ d l. SimpleCandidate self.now.world.under.rows.now t x place names.Ambiguous d l) found.rows.items found.level) }
    {
        let variables = self.variables(alloc, place, name)?;
        if !variables.rows.is_empty() {
            return Ok(variables);
        }
        self.types(alloc, place, name)
    }

    /// What a simple name of this kind refers to at a place, given by its number.
    pub fn simple(
        &self,
        alloc: Global,
        place: u32,
        kind: NameKind,
        name: u32,
    ) -> Result<Referent, OutOfMemory>
        ensures { (t : Table) (x : Text) → sights.IsSight t self.now → AreLocalsPlaced self.now.world.under.rows.now → place < length self.now.world.under.rows.now → IsNumberOf self.now.world.under.rows.now name x → IfOk result (λ a. answers.IsAnswerOr (λ d l. SimpleCandidate self.now.world.under.rows.now t x place kind d l) (answers.simple_otherwise kind) a) }
    {
        match kind {
            NameKind::Variable => {
                let found = self.variables(alloc, place, name)?;
                Ok(found.answer(Referent::Unbound))
            }
            NameKind::Type => {
                let found = self.types(alloc, place, name)?;
                Ok(found.answer(Referent::Unbound))
            }
            NameKind::PackageOrType => {
                let found = self.types(alloc, place, name)?;
                Ok(found.answer(Referent::Package))
            }
            NameKind::Ambiguous => {
                let found = self.variables_or_types(alloc, place, name)?;
                Ok(found.answer(Referent::Package))
            }
            NameKind::Package => Ok(Referent::Unbound),
        }
    }
}
