// The parameter types of methods and constructors, and the numbers of their signatures.
ghost use Rattle.std.specs.Prelude.{◌≡◌, ◌<◌, ◌++◌, true, List, None, Option, length, nat_eq, option_map, slice_index_or, IfOk, OnOk};
ghost use Rattle.jr_tree.specs.Rows as all_rows;
ghost use Rattle.jr_tree.specs.Rows.{Rows};
ghost use Rattle.jr_tree.specs.declared.label.Role.TheVariants as role;
ghost use Rattle.jr_defs.specs.Referents.{Table, entries};
ghost use Rattle.jr_defs.specs.declared.referent.RowType.{RowType as TypeOf};
ghost use Rattle.jr_plain.specs.Same.{same_role};
ghost use Rattle.jr_plain.specs.Types as plain;
ghost use Rattle.jr_places.specs.Numbers.{IsNumbering};
ghost use Rattle.jr_places.specs.Places.{ArePlaces};
ghost use Rattle.jr_supers.specs.Tabled.{IsSized, is_callable as is_callable_role};
ghost use Rattle.jr_supers.specs.Signatures as tell;

use crate::tabled::{Tabled, is_callable};
use jr_base::OutOfMemory;
use jr_defs::{Element, RowType};
use jr_places::{Numbering, end_at, parent_at, role_at};
use jr_tree::{Role, Row};
use std::alloc::Global;

/// Where the parameters of a method stand in the list of all, and the number of its signature.
#[derive(Clone, Copy, Debug, PartialEq, Eq)]
struct Signature {
    first: u32,
    count: u32,
    number: u32,
}

/// The parameter types of the methods and constructors of a program. Two have one number where they have one name and the same parameter
/// types; one with a parameter whose type is not found has none (JLS 8.4.2).
#[derive(Drop)]
pub struct Signatures {
    types: Vec<RowType>,
    of_rows: Vec<Option<Signature>>,
}

// The number of an element type among its kind.
fn kind_of(element: Element) -> u32
    ensures { result ≡ tell.kind_of element }
{
    match element {
        Element::Boolean => 0,
        Element::Byte => 1,
        Element::Short => 2,
        Element::Char => 3,
        Element::Int => 4,
        Element::Long => 5,
        Element::Null => 6,
        Element::Void => 7,
        Element::Class(_) => 8,
    }
}

// The row of a class, or nothing to tell apart.
fn row_of(element: Element) -> u32
    ensures { result ≡ tell.row_of element }
{
    match element {
        Element::Class(row) => row,
        _ => 0,
    }
}

/// The number of a list of types with one type more.
pub fn with_type(numbers: &mut Numbering, list: u32, ty: RowType) -> Result<u32, OutOfMemory>
    ensures { IsNumbering numbers.old → IfOk result (λ number. tell.Continues numbers.old numbers.new list number (tell.with_type ty)) }
{
    let Ok(dims) = u32::try_from(ty.dims) else {
        return Err(OutOfMemory);
    };
    let kind = numbers.number(list, kind_of(ty.element))?;
    let class = numbers.number(kind, row_of(ty.element))?;
    let number = numbers.number(class, dims)?;
    Ok(number)
}

// The number of a list with the types behind it.
fn with_types(numbers: &mut Numbering, list: u32, all: &[RowType]) -> Result<u32, OutOfMemory>
    ensures { IsNumbering numbers.old → IfOk result (λ number. tell.Continues numbers.old numbers.new list number (tell.with_types all.now)) }
{
    let mut number = list;
    for ty in all {
        number = with_type(numbers, number, *ty)?;
    }
    Ok(number)
}

fn is_parameter(given: Role) -> bool
    ensures { result ≡ same_role given role.Parameter }
{
    match given {
        Role::Parameter => true,
        _ => false,
    }
}

// Adds the type of a parameter, if it is found.
#[tactic(auto, using(crate::proofs::Signing::no_parameter, crate::proofs::Signing::one_parameter, crate::proofs::Signing::lost_parameter))]
fn add_type(under: Tabled, types: &mut Vec<RowType>, at: u32) -> Result<bool, OutOfMemory>
    ensures { IsSized under.entry.rows.now → IfOk result (λ found. (rest : Option (List TypeOf)) → tell.behind types.old.items (tell.with_parameter under.entry.rows.now (entries under.entry.table.now) at rest) ≡ tell.behind_if found types.new.items rest) }
{
    if !is_parameter(role_at(under.rows, at)) {
        return Ok(true);
    }
    match under.type_of_declared(at) {
        Some(ty) => {
            types.push(ty)?;
            Ok(true)
        }
        None => Ok(false),
    }
}

fn is_child(rows: &[Row], child: u32, at: u32) -> bool
    ensures { result ≡ nat_eq (all_rows.parent rows.now child) at }
{
    parent_at(rows, child) == at
}

// Adds the types of the parameters of a method, if all are found.
fn add_types(under: Tabled, types: &mut Vec<RowType>, at: u32) -> Result<bool, OutOfMemory>
    ensures { IsSized under.entry.rows.now → at < length under.entry.rows.now → IfOk result (λ found. tell.behind types.old.items (plain.parameters under.entry.rows.now (entries under.entry.table.now) at) ≡ tell.found_if found types.new.items) }
{
    let mut child = at.saturating_add(1);
    for _turn in 0..under.rows.len() {
        if !is_child(under.rows, child, at) {
            return Ok(true);
        }
        let found = add_type(under, types, child)?;
        if !found {
            return Ok(false);
        }
        child = end_at(under.rows, child);
    }
    Ok(!is_child(under.rows, child, at))
}

// The types of the parameters of a method, if all are found.
#[tactic(auto, using(crate::proofs::Signing::all_types, crate::proofs::Signing::no_types))]
fn types_of(alloc: Global, under: Tabled, at: u32) -> Result<Option<Vec<RowType>>, OutOfMemory>
    ensures { IsSized under.entry.rows.now → at < length under.entry.rows.now → IfOk result (λ found. option_map (λ all. all.items) found ≡ plain.parameters under.entry.rows.now (entries under.entry.table.now) at) }
{
    let mut types = Vec::new(alloc);
    if add_types(under, &mut types, at)? {
        Ok(Some(types))
    } else {
        Ok(None)
    }
}

fn push_all(types: &mut Vec<RowType>, all: &[RowType]) -> Result<(), OutOfMemory>
    ensures { OnOk result (types.new.items ≡ types.old.items ++ all.now) }
{
    for ty in all {
        types.push(*ty)?;
    }
    Ok(())
}

fn made_signature(first: usize, count: usize, number: u32) -> Result<Signature, OutOfMemory>
    ensures { IfOk result (λ signature. tell.IsPart signature first count number) }
{
    let Ok(first) = u32::try_from(first) else {
        return Err(OutOfMemory);
    };
    let Ok(count) = u32::try_from(count) else {
        return Err(OutOfMemory);
    };
    Ok(Signature {
        first,
        count,
        number,
    })
}

// The signature of a name with these parameters, which stand at the end of the types.
fn add_signature(
    types: &mut Vec<RowType>,
    numbers: &mut Numbering,
    name: u32,
    own: &[RowType],
) -> Result<Signature, OutOfMemory>
    ensures { IsNumbering numbers.old → IfOk result (λ signature. tell.AddsTo numbers.old numbers.new types.old.items types.new.items name own.now signature) }
{
    let named = numbers.number(Numbering::EMPTY, name)?;
    let number = with_types(numbers, named, own)?;
    let first = types.len();
    push_all(types, own)?;
    let added = made_signature(first, own.len(), number)?;
    Ok(added)
}

// The signature of a method, where the types of its parameters are found.
fn signature_of(
    alloc: Global,
    under: Tabled,
    types: &mut Vec<RowType>,
    numbers: &mut Numbering,
    at: u32,
) -> Result<Option<Signature>, OutOfMemory>
    ensures { IsSized under.entry.rows.now → ArePlaces under.entry.rows.now under.entry.places.now → IsNumbering numbers.old → at < length under.entry.rows.now → IfOk result (λ signature. tell.AddsAt under.entry.rows.now (entries under.entry.table.now) numbers.old numbers.new types.old.items types.new.items at signature) }
{
    if !is_callable(role_at(under.rows, at)) {
        return Ok(None);
    }
    match types_of(alloc, under, at)? {
        Some(own) => {
            let added = add_signature(types, numbers, under.places.name(at), &own)?;
            Ok(Some(added))
        }
        None => Ok(None),
    }
}

impl Signatures {
    /// No signatures.
    pub fn none(alloc: Global) -> Signatures {
        Signatures {
            types: Vec::new(alloc),
            of_rows: Vec::new(alloc),
        }
    }

    /// The signatures under the table.
    pub fn of(alloc: Global, under: Tabled) -> Result<Signatures, OutOfMemory>
        ensures { IsSized under.entry.rows.now → ArePlaces under.entry.rows.now under.entry.places.now → IfOk result (λ signatures. tell.AreSignatures under.entry.rows.now (entries under.entry.table.now) signatures) }
    {
        let mut types = Vec::new(alloc);
        let mut numbers = Numbering::new(alloc);
        let mut of_rows = Vec::new(alloc);
        let Ok(count) = u32::try_from(under.rows.len()) else {
            return Err(OutOfMemory);
        };
        for at in 0..count {
            let signature = signature_of(alloc, under, &mut types, &mut numbers, at)?;
            of_rows.push(signature)?;
        }
        Ok(Signatures { types, of_rows })
    }

    fn signature(&self, at: u32) -> Option<Signature>
        ensures { result ≡ slice_index_or self.now.of_rows.items at None }
    {
        match self.of_rows.get(at as usize) {
            Some(signature) => *signature,
            None => None,
        }
    }

    /// The number of the signature of a method.
    pub fn number(&self, at: u32) -> Option<u32>
        ensures { result ≡ tell.number_of (slice_index_or self.now.of_rows.items at None) }
    {
        match self.signature(at) {
            Some(signature) => Some(signature.number),
            None => None,
        }
    }

    /// How many parameters the method has, if the types of all are found.
    pub fn count(&self, at: u32) -> Option<u32>
        ensures { (p : Rows) (t : Table) → tell.AreSignatures p t self.now → is_callable_role (all_rows.role_at p at) ≡ true → result ≡ option_map (λ all. length all) (plain.parameters p t at) }
    {
        count_of(self.signature(at))
    }

    /// The type of a parameter, counted from 0.
    pub fn parameter(&self, at: u32, nth: u32) -> Option<RowType>
        ensures { (p : Rows) (t : Table) → tell.AreSignatures p t self.now → is_callable_role (all_rows.role_at p at) ≡ true → result ≡ tell.nth_of (plain.parameters p t at) nth }
    {
        parameter_in(&self.types, self.signature(at), nth)
    }

    /// Both have one name and the same parameter types.
    pub fn are_same(&self, one: u32, other: u32) -> bool
        ensures { (p : Rows) (t : Table) → tell.AreSignatures p t self.now → is_callable_role (all_rows.role_at p one) ≡ true → is_callable_role (all_rows.role_at p other) ≡ true → result ≡ plain.is_same_signature p t one other }
    {
        same_numbers(self.number(one), self.number(other))
    }
}

fn count_of(signature: Option<Signature>) -> Option<u32>
    ensures { result ≡ option_map (λ s. s.count) signature }
{
    match signature {
        Some(signature) => Some(signature.count),
        None => None,
    }
}

// The type of a parameter in the list of all.
fn parameter_in(types: &[RowType], signature: Option<Signature>, nth: u32) -> Option<RowType>
    ensures { result ≡ tell.parameter_in types.now nth signature }
{
    match signature {
        Some(signature) => {
            if nth >= signature.count {
                return None;
            }
            types.get(signature.first as usize + nth as usize).copied()
        }
        None => None,
    }
}

fn same_numbers(one: Option<u32>, other: Option<u32>) -> bool
    ensures { result ≡ tell.same_numbers one other }
{
    match one {
        Some(first) => match other {
            Some(second) => first == second,
            None => false,
        },
        None => false,
    }
}
