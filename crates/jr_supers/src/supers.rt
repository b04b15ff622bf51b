// The direct supertypes of each type, and an order in which supertypes come first (JLS 8.1.4, 8.1.5, 9.1.3).

ghost use Rattle.std.specs.Prelude.{◌≡◌, ◌+◌, ◌<◌, ◌^◌, ◌++◌, None, Some, IfOk, length, replicate, slice_index_or, slice_set};
ghost use Rattle.jr_tree.specs.Rows.{label};
ghost use Rattle.jr_defs.specs.Referents.{entries};
ghost use Rattle.jr_plain.specs.Supertypes.{is_superclass_label};
ghost use Rattle.jr_supers.specs.Direct as direct;

use crate::tabled::{Tabled, referent_in};
use jr_base::OutOfMemory;
use jr_defs::Referent;
use jr_places::{Chains, Entry, end_at, is_class, is_object, is_type, parent_at};
use jr_tree::{Label, NamePlace, Row};
use std::alloc::Global;

/// The place of a name in a header.
#[derive(Clone, Copy, Debug, PartialEq, Eq)]
pub enum HeaderPlace {
    Superclass,
    Superinterface,
}

/// Where a name in a header stands, if the row is the last identifier of one.
pub fn header_place(rows: &[Row], at: u32) -> Option<HeaderPlace>
    ensures { result ≡ direct.header_place (label rows.now at) }
{
    match rows.get(at as usize) {
        Some(row) => match row.label {
            Label::Name { place, .. } => match place {
                NamePlace::Superclass => Some(HeaderPlace::Superclass),
                NamePlace::Superinterface => Some(HeaderPlace::Superinterface),
                _ => None,
            },
            _ => None,
        },
        None => None,
    }
}

// The row is the last identifier of the name of a superclass.
fn is_superclass_name(rows: &[Row], at: u32) -> bool
    ensures { result ≡ is_superclass_label (label rows.now at) }
{
    match rows.get(at as usize) {
        Some(row) => match row.label {
            Label::Name { place, .. } => match place {
                NamePlace::Superclass => true,
                _ => false,
            },
            _ => false,
        },
        None => false,
    }
}

/// The class names its superclass, which stands first below it.
pub fn names_superclass(rows: &[Row], at: u32) -> bool
    ensures { at + 1 < 2 ^ 32 → result ≡ direct.names_first rows.now at }
{
    match at.checked_add(1) {
        Some(next) => parent_at(rows, next) == at && is_superclass_name(rows, next),
        None => false,
    }
}

/// The class has Object as its superclass, since it names none.
pub fn has_implied_superclass(rows: &[Row], at: u32) -> bool
    ensures { at + 1 < 2 ^ 32 → result ≡ direct.has_implied rows.now at }
{
    is_class(rows, at) && !names_superclass(rows, at) && !is_object(rows, at)
}

/// The class Object, if there is one.
#[tactic(auto, using(crate::proofs::Firsts::object_found))]
pub fn find_object(rows: &[Row]) -> Option<u32>
    ensures { length rows.now < 2 ^ 32 → result ≡ direct.object_row rows.now }
{
    let Ok(count) = u32::try_from(rows.len()) else {
        return None;
    };
    for at in 0..count {
        if is_object(rows, at) {
            return Some(at);
        }
    }
    None
}

/// The direct supertypes of the types, under the key of the type and 0: the superclass first, then the superinterfaces as written.
#[derive(Drop)]
pub struct Direct {
    pub supers: Chains,
    /// The superclass of each class.
    pub superclasses: Vec<Option<u32>>,
    pub object: Option<u32>,
}

fn super_entry(over: u32, row: u32) -> Entry
    ensures { result ≡ direct.super_entry over row }
{
    Entry {
        first: over,
        second: 0,
        row,
    }
}

fn implied_entry(at: u32, object: Option<u32>) -> Option<Entry>
    ensures { result ≡ direct.implied_entry at object }
{
    match object {
        Some(row) => Some(super_entry(at, row)),
        None => None,
    }
}

fn declared_entry(at: u32, referent: Referent) -> Option<Entry>
    ensures { result ≡ direct.declared_entry at referent }
{
    match referent {
        Referent::Declared { row, .. } => Some(super_entry(at, row)),
        _ => None,
    }
}

// What a row adds to the supertypes: Object for a class that names none, or what a name in a header refers to.
fn super_at(rows: &[Row], table: &[Referent], object: Option<u32>, at: u32) -> Option<Entry>
    ensures { at + 1 < 2 ^ 32 → result ≡ direct.super_at rows.now (entries table.now) object at }
{
    if has_implied_superclass(rows, at) {
        return implied_entry(at, object);
    }
    match header_place(rows, at) {
        Some(_) => declared_entry(parent_at(rows, at), referent_in(table, at)),
        None => None,
    }
}

fn push_entry(supers: Chains, entry: Option<Entry>) -> Result<Chains, OutOfMemory>
    ensures { IfOk result (λ more. more ≡ supers ++ direct.entry_list entry) }
{
    match entry {
        Some(entry) => supers.push(entry),
        None => Ok(supers),
    }
}

// The supertypes under a table, in the order of the rows.
fn supers_under(
    alloc: Global,
    rows: &[Row],
    table: &[Referent],
    object: Option<u32>,
) -> Result<Chains, OutOfMemory>
    requires { length rows.now < 2 ^ 32 }
    ensures { IfOk result (λ supers. supers ≡ direct.super_entries rows.now (entries table.now) object (length rows.now)) }
{
    let mut supers = Chains::new(alloc);
    for at in 0..rows.len() {
        let entry = super_at(rows, table, object, at as u32);
        supers = push_entry(supers, entry)?;
    }
    Ok(supers)
}

// The row adds a superclass.
fn is_superclass_at(rows: &[Row], at: u32) -> bool
    ensures { result ≡ direct.is_superclass_at rows.now at }
{
    is_class(rows, at) || is_superclass_name(rows, at)
}

fn put_entry(all: &mut Vec<Option<u32>>, entry: Option<Entry>)
    ensures { all.new.items ≡ direct.put_entry entry all.old.items }
{
    if let Some(entry) = entry {
        put_row(all, entry.first, entry.row);
    }
}

fn put_row(all: &mut Vec<Option<u32>>, at: u32, row: u32)
    ensures { all.new.items ≡ slice_set all.old.items at (Some row) }
{
    if (at as usize) < all.len() {
        all[at as usize] = Some(row);
    }
}

// The superclass that a row adds.
fn put_superclass(rows: &[Row], all: &mut Vec<Option<u32>>, at: u32, entry: Option<Entry>)
    ensures { all.new.items ≡ direct.with_superclass rows.now at entry all.old.items }
{
    if is_superclass_at(rows, at) {
        put_entry(all, entry);
    }
}

fn no_superclasses(alloc: Global, rows: &[Row]) -> Result<Vec<Option<u32>>, OutOfMemory>
    ensures { IfOk result (λ all. all.items ≡ replicate (length rows.now) None) }
{
    Ok(vec![in alloc; None; rows.len()]?)
}

// The superclass of each class under a table.
fn superclasses_under(
    alloc: Global,
    rows: &[Row],
    table: &[Referent],
    object: Option<u32>,
) -> Result<Vec<Option<u32>>, OutOfMemory>
    requires { length rows.now < 2 ^ 32 }
    ensures { IfOk result (λ all. all.items ≡ direct.superclass_list rows.now (entries table.now) object (length rows.now)) }
{
    let mut all = no_superclasses(alloc, rows)?;
    for at in 0..rows.len() {
        let entry = super_at(rows, table, object, at as u32);
        put_superclass(rows, &mut all, at as u32, entry);
    }
    Ok(all)
}

impl Direct {
    /// No supertypes, and no room for any.
    pub fn nothing(alloc: Global) -> Direct {
        Direct {
            supers: Chains::new(alloc),
            superclasses: Vec::new(alloc),
            object: None,
        }
    }

    /// No supertypes yet.
    pub fn none(alloc: Global, rows: &[Row]) -> Result<Direct, OutOfMemory> {
        Ok(Direct {
            supers: Chains::new(alloc),
            superclasses: vec![in alloc; None; rows.len()]?,
            object: find_object(rows),
        })
    }

    // What one row adds.
    fn with_row(self, under: Tabled, at: u32) -> Result<Direct, OutOfMemory> {
        let Direct {
            supers,
            mut superclasses,
            object,
        } = self;
        let entry = super_at(under.rows, under.table, object, at);
        put_superclass(under.rows, &mut superclasses, at, entry);
        let supers = push_entry(supers, entry)?;
        Ok(Direct {
            supers,
            superclasses,
            object,
        })
    }

    /// The direct supertypes of one type more, under a table that has the names of its header.
    pub fn with_type(self, under: Tabled, at: u32) -> Result<Direct, OutOfMemory> {
        let mut direct = self.with_row(under, at)?;
        let mut child = at.saturating_add(1);
        for _turn in 0..under.rows.len() {
            if parent_at(under.rows, child) != at || header_place(under.rows, child).is_none() {
                return Ok(direct);
            }
            direct = direct.with_row(under, child)?;
            child = end_at(under.rows, child);
        }
        Ok(direct)
    }

    /// The direct supertypes under a table.
    pub fn of(alloc: Global, under: Tabled) -> Result<Direct, OutOfMemory>
        ensures supers { IfOk result (λ found. found.supers ≡ direct.super_entries under.entry.rows.now (entries under.entry.table.now) (direct.object_row under.entry.rows.now) (length under.entry.rows.now)) }
        ensures superclasses { IfOk result (λ found. found.superclasses.items ≡ direct.superclass_list under.entry.rows.now (entries under.entry.table.now) (direct.object_row under.entry.rows.now) (length under.entry.rows.now)) }
        ensures object { IfOk result (λ found. found.object ≡ direct.object_row under.entry.rows.now) }
    {
        if under.rows.len() >= u32::MAX as usize {
            return Err(OutOfMemory);
        }
        let object = find_object(under.rows);
        let supers = supers_under(alloc, under.rows, under.table, object)?;
        let superclasses = superclasses_under(alloc, under.rows, under.table, object)?;
        Ok(Direct {
            supers,
            superclasses,
            object,
        })
    }

    /// The superclass of a class.
    pub fn superclass(&self, at: u32) -> Option<u32>
        ensures { result ≡ slice_index_or self.now.superclasses.items at None }
    {
        match self.superclasses.get(at as usize) {
            Some(found) => *found,
            None => None,
        }
    }
}

// The place of the entry before this one under its key.
pub fn entry_before(chains: &Chains, place: u32) -> Option<u32> {
    if (place as usize) < chains.len() {
        chains.before(place)
    } else {
        None
    }
}
