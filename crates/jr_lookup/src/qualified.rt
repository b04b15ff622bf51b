// Names behind a dot (JLS 6.5, 15.11).
ghost use Rattle.std.specs.Prelude.{◌≡◌, ℕ, IfOk, Some, None, bytes_eq, if◌then◌else◌, option_map};
ghost use Rattle.jr_base.specs.declared.text.Text.{Text};
ghost use Rattle.jr_tree.specs.declared.label.NameKind.TheVariants as names;
ghost use Rattle.jr_tree.specs.declared.label.Sought.TheVariants as sought;
ghost use Rattle.jr_tree.specs.Rows as program;
ghost use Rattle.jr_defs.specs.Constants.{HasConstantForm};
ghost use Rattle.jr_defs.specs.declared.referent.Referent.TheVariants as referring;
ghost use Rattle.jr_defs.specs.declared.referent.Space.TheVariants as space;
ghost use Rattle.jr_defs.specs.Lookup as tell;
ghost use Rattle.jr_defs.specs.Packages.{spelled};
ghost use Rattle.jr_defs.specs.Referents.{Table};
ghost use Rattle.jr_plain.specs.Lookup as plain;
ghost use Rattle.jr_plain.specs.Search.{Finds, Lists};
ghost use Rattle.jr_places.specs.Packages.{IsSpelled};
ghost use Rattle.jr_members.specs.Worlds.{IsWorld};
ghost use Rattle.jr_lookup.specs.Behind as behind;
ghost use Rattle.jr_lookup.specs.Outward.{IsNumberOf};
ghost use Rattle.jr_lookup.specs.Sights.{IsSight, IsTopNamed};

use crate::candidates::Candidates;
use crate::simple::Sight;
use jr_base::OutOfMemory;
use jr_defs::{Element, Referent, RowType};
use jr_members::MemberKind;
use jr_places::name_at;
use jr_supers::class_type;
use jr_tree::{NameKind, Row};
use std::alloc::Global;

/// What stands before a dot.
#[derive(Clone, Copy, Debug, PartialEq, Eq)]
pub enum Left {
    /// A package, by its number; one that no unit declares has none.
    Package(Option<u32>),
    /// The name of a type.
    OfType(u32),
    /// An expression of this type.
    Value(RowType),
    /// What is neither.
    Nothing,
}

/// A class whose members are meant, with the type of the expression before the dot if it is one.
#[derive(Clone, Copy, Debug, PartialEq, Eq)]
pub struct Receiver {
    pub class: u32,
    pub ty: Option<RowType>,
}

// A class, with the type of the expression before the dot if it is one.
fn receiver_with(ty: Option<RowType>, class: u32) -> Receiver
    ensures { result ≡ behind.receiver_with ty class }
{
    Receiver { class, ty }
}

// An expression of a class.
fn object_receiver(class: Option<u32>) -> Option<Receiver>
    ensures { result ≡ option_map behind.object_receiver class }
{
    match class {
        Some(found) => Some(receiver_with(Some(class_type(found)), found)),
        None => None,
    }
}

// An expression of a type that is no array.
fn plain_receiver(ty: RowType) -> Option<Receiver>
    ensures { result ≡ option_map (behind.receiver_with (Some ty)) (behind.class_in ty.element) }
{
    match ty.element {
        Element::Class(class) => Some(receiver_with(Some(ty), class)),
        _ => None,
    }
}

// The class whose members an expression of the type has, where this is Object (JLS 10.7).
fn receiver_by(object: Option<u32>, ty: RowType) -> Option<Receiver>
    ensures { result ≡ behind.receiver_by object ty }
{
    if ty.dims > 0 {
        object_receiver(object)
    } else {
        plain_receiver(ty)
    }
}

// The class whose members are meant behind the dot.
fn receiver_of(object: Option<u32>, left: Left) -> Option<Receiver>
    ensures { result ≡ behind.receiver_of object left }
{
    match left {
        Left::OfType(class) => Some(receiver_with(None, class)),
        Left::Value(ty) => receiver_by(object, ty),
        _ => None,
    }
}

// The row has this name.
fn is_named(rows: &[Row], at: u32, name: &[u8]) -> bool
    ensures { result ≡ bytes_eq (program.name rows.now at) name.now }
{
    name_at(rows, at) == name
}

// What the name of the row is behind an expression of the type (JLS 10.7).
fn length_by(rows: &[Row], ty: RowType, name: u32) -> Referent
    ensures { result ≡ behind.length_by ty (program.name rows.now name) }
{
    let is_length = is_named(rows, name, b"length");
    if ty.dims > 0 && is_length {
        Referent::ArrayLength
    } else {
        Referent::Unbound
    }
}

// The length of an array (JLS 10.7), or nothing.
fn length_of(rows: &[Row], left: Left, name: u32) -> Referent
    ensures { result ≡ behind.length_of left (program.name rows.now name) }
{
    match left {
        Left::Value(ty) => length_by(rows, ty, name),
        _ => Referent::Unbound,
    }
}

fn package_or_unbound(kind: NameKind) -> Referent
    ensures { result ≡ (if plain.may_be_package kind then referring.Package else referring.Unbound) }
{
    if may_be_package(kind) {
        Referent::Package
    } else {
        Referent::Unbound
    }
}

fn length_or_unbound(rows: &[Row], left: Left, kind: NameKind, name: u32) -> Referent
    ensures { result ≡ behind.length_or_unbound left kind (program.name rows.now name) }
{
    match kind {
        NameKind::Variable => length_of(rows, left, name),
        NameKind::Ambiguous => length_of(rows, left, name),
        _ => Referent::Unbound,
    }
}

// What a name behind a dot refers to where no declaration is found.
fn otherwise(rows: &[Row], left: Left, kind: NameKind, name: u32) -> Referent
    ensures { result ≡ behind.otherwise_by left kind (program.name rows.now name) }
{
    match left {
        Left::Package(_) => package_or_unbound(kind),
        _ => length_or_unbound(rows, left, kind, name),
    }
}

// An identifier of this kind may name a package.
fn may_be_package(kind: NameKind) -> bool
    ensures { result ≡ plain.may_be_package kind }
{
    match kind {
        NameKind::PackageOrType => true,
        NameKind::Ambiguous => true,
        _ => false,
    }
}

impl<'a> Sight<'a> {
    /// The class whose members are meant behind the dot; an array has those of Object (JLS 10.7).
    pub fn receiver(&self, left: Left) -> Option<Receiver>
        ensures { (t : Table) (o : ℕ) → IsWorld t self.now.world → behind.IsLeftOf self.now.world.under.rows.now t self.now.world.under.places.now o left → behind.HasValue self.now.world.under.rows.now t (HasConstantForm self.now.world.under.rows.now t) o left → Finds result (λ r. tell.Receiver self.now.world.under.rows.now t (HasConstantForm self.now.world.under.rows.now t) o r.class r.ty) }
    {
        receiver_of(self.world.supers.object(), left)
    }

    // The fields of the name behind the dot.
    fn fields_of(&self, alloc: Global, left: Left, name: u32) -> Result<Vec<u32>, OutOfMemory>
        ensures { (t : Table) (x : Text) (o : ℕ) → IsWorld t self.now.world → behind.IsLeftOf self.now.world.under.rows.now t self.now.world.under.places.now o left → behind.HasValue self.now.world.under.rows.now t (HasConstantForm self.now.world.under.rows.now t) o left → IsNumberOf self.now.world.under.rows.now name x → IfOk result (λ found. Lists found.items (λ d. tell.MemberBefore self.now.world.under.rows.now t (HasConstantForm self.now.world.under.rows.now t) space.Variable x o d)) }
    {
        match self.receiver(left) {
            Some(receiver) => {
                self.world
                    .named(alloc, MemberKind::Field, receiver.class, name)
            }
            None => Ok(Vec::new(alloc)),
        }
    }

    // The types of the name in the package with the number that is found for the name of a row.
    fn types_numbered(
        &self,
        alloc: Global,
        number: Option<u32>,
        name: u32,
    ) -> Result<Vec<u32>, OutOfMemory>
        ensures { (t : Table) (n : ℕ) → IsSight t self.now → Finds number (IsSpelled self.now.world.under.rows.now self.now.world.under.places.now.packages n) → IfOk result (λ found. Lists found.items (IsTopNamed self.now.world.under.rows.now (spelled self.now.world.under.rows.now n) name)) }
    {
        match number {
            Some(package) => self.scopes.types_of_package(alloc, package, name),
            None => Ok(Vec::new(alloc)),
        }
    }

    // The member types, or the types of a package, of the name behind the dot.
    fn types_of(&self, alloc: Global, left: Left, name: u32) -> Result<Vec<u32>, OutOfMemory>
        ensures { (t : Table) (x : Text) (o : ℕ) → IsSight t self.now → behind.IsLeftOf self.now.world.under.rows.now t self.now.world.under.places.now o left → IsNumberOf self.now.world.under.rows.now name x → IfOk result (λ found. Lists found.items (λ d. tell.TypeBefore self.now.world.under.rows.now t x o d)) }
    {
        match left {
            Left::OfType(over) => self.world.named(alloc, MemberKind::Type, over, name),
            Left::Package(number) => self.types_numbered(alloc, number, name),
            _ => Ok(Vec::new(alloc)),
        }
    }

    // A name that may be a field or a type is a field if there is one (JLS 6.5.2).
    fn fields_or_types_of(
        &self,
        alloc: Global,
        left: Left,
        name: u32,
    ) -> Result<Vec<u32>, OutOfMemory>
        ensures { (t : Table) (x : Text) (o : ℕ) → IsSight t self.now → behind.IsLeftOf self.now.world.under.rows.now t self.now.world.under.places.now o left → behind.HasValue self.now.world.under.rows.now t (HasConstantForm self.now.world.under.rows.now t) o left → IsNumberOf self.now.world.under.rows.now name x → IfOk result (λ found. Lists found.items (λ d. tell.QualifiedCandidate self.now.world.under.rows.now t (HasConstantForm self.now.world.under.rows.now t) x o names.Ambiguous d)) }
    {
        let fields = self.fields_of(alloc, left, name)?;
        if !fields.is_empty() {
            return Ok(fields);
        }
        self.types_of(alloc, left, name)
    }

    // What a name of this kind may refer to behind what stands before its dot.
    fn found_behind(
        &self,
        alloc: Global,
        left: Left,
        kind: NameKind,
        name: u32,
    ) -> Result<Vec<u32>, OutOfMemory>
        ensures { (t : Table) (x : Text) (o : ℕ) → IsSight t self.now → behind.IsLeftOf self.now.world.under.rows.now t self.now.world.under.places.now o left → (behind.NeedsValue kind → behind.HasValue self.now.world.under.rows.now t (HasConstantForm self.now.world.under.rows.now t) o left) → IsNumberOf self.now.world.under.rows.now name x → IfOk result (λ found. Lists found.items (λ d. tell.QualifiedCandidate self.now.world.under.rows.now t (HasConstantForm self.now.world.under.rows.now t) x o kind d)) }
    {
        match kind {
            NameKind::Variable => self.fields_of(alloc, left, name),
            NameKind::Type => self.types_of(alloc, left, name),
            NameKind::PackageOrType => self.types_of(alloc, left, name),
            NameKind::Ambiguous => self.fields_or_types_of(alloc, left, name),
            NameKind::Package => Ok(Vec::new(alloc)),
        }
    }

    /// What a name of this kind refers to behind what stands before its dot.
    pub fn qualified(
        &self,
        alloc: Global,
        left: Left,
        kind: NameKind,
        name: u32,
    ) -> Result<Referent, OutOfMemory>
        ensures { (t : Table) (x : Text) (o : ℕ) → IsSight t self.now → behind.IsLeftOf self.now.world.under.rows.now t self.now.world.under.places.now o left → (behind.NeedsValue kind → behind.HasValue self.now.world.under.rows.now t (HasConstantForm self.now.world.under.rows.now t) o left) → IsNumberOf self.now.world.under.rows.now name x → program.name self.now.world.under.rows.now name ≡ x → IfOk result (λ a. tell.LookFor self.now.world.under.rows.now t (HasConstantForm self.now.world.under.rows.now t) o x (sought.Qualified kind) a) }
    {
        let rows = self.found_behind(alloc, left, kind, name)?;
        let found = Candidates { rows, level: None };
        Ok(found.answer(otherwise(self.world.under.rows, left, kind, name)))
    }

    /// What the field of an expression refers to (JLS 15.11.1).
    pub fn field(&self, alloc: Global, left: Left, name: u32) -> Result<Referent, OutOfMemory>
        ensures { (t : Table) (x : Text) (o : ℕ) → IsWorld t self.now.world → behind.IsLeftOf self.now.world.under.rows.now t self.now.world.under.places.now o left → behind.HasValue self.now.world.under.rows.now t (HasConstantForm self.now.world.under.rows.now t) o left → IsNumberOf self.now.world.under.rows.now name x → program.name self.now.world.under.rows.now name ≡ x → IfOk result (λ a. tell.LookFor self.now.world.under.rows.now t (HasConstantForm self.now.world.under.rows.now t) o x sought.FieldOf a) }
    {
        let rows = self.fields_of(alloc, left, name)?;
        let found = Candidates { rows, level: None };
        Ok(found.answer(length_of(self.world.under.rows, left, name)))
    }
}
