// Methods by the types that declare them and their signatures, and constructors by their classes (JLS 8.4.2, 8.8).
ghost use Rattle.std.specs.Prelude.{◌≡◌, ◌++◌, ◌<◌, [], true, length, IfOk, OnOk};
ghost use Rattle.jr_tree.specs.Rows as all_rows;
ghost use Rattle.jr_tree.specs.Rows.{Rows};
ghost use Rattle.jr_defs.specs.Referents.{Table, entries};
ghost use Rattle.jr_plain.specs.Enclosing.{is_constructor_of};
ghost use Rattle.jr_places.specs.Places.{ArePlaces};
ghost use Rattle.jr_supers.specs.Tabled.{IsSized, is_callable};
ghost use Rattle.jr_supers.specs.Signatures.{AreSignatures};
ghost use Rattle.jr_members.specs.Keys as tell;

use crate::declared::{add_entry, entry_under};
use jr_base::OutOfMemory;
use jr_places::{Chains, Entry, constructed_class, declaring_type, role_at};
use jr_supers::{Signatures, Tabled};
use jr_tree::{Role, Row};
use std::alloc::Global;

/// Methods and constructors.
#[derive(Drop)]
pub struct Callables {
    pub signatures: Signatures,
    /// Methods under the keys of the types that declare them and the numbers of their signatures.
    by_signature: Chains,
    /// Constructors under the key of the class and 0.
    constructors: Chains,
}

fn signed(holder: Option<u32>, number: Option<u32>, row: u32) -> Option<Entry>
    ensures { result ≡ tell.entry_of row holder number }
{
    match holder {
        Some(first) => match number {
            Some(second) => Some(Entry { first, second, row }),
            None => None,
        },
        None => None,
    }
}

// Where a method stands under the type that declares it and the number of its signature.
fn signed_entry(all: &[Row], signatures: &Signatures, at: u32) -> Option<Entry>
    ensures { result ≡ tell.signed_entry all.now signatures.now at }
{
    match role_at(all, at) {
        Role::Method => signed(declaring_type(all, at), signatures.number(at), at),
        _ => None,
    }
}

fn constructor_entry(all: &[Row], at: u32) -> Option<Entry>
    ensures { result ≡ tell.constructor_entry all.now at }
{
    entry_under(constructed_class(all, at), 0, at)
}

// All methods under their types and signatures.
fn methods_of(alloc: Global, all: &[Row], signatures: &Signatures) -> Result<Chains, OutOfMemory>
    ensures { IfOk result (λ found. found ≡ tell.entries_of (tell.signed_entry all.now signatures.now) (length all.now)) }
{
    let mut found = Chains::new(alloc);
    let Ok(count) = u32::try_from(all.len()) else {
        return Err(OutOfMemory);
    };
    for at in 0..count {
        add_entry(alloc, &mut found, signed_entry(all, signatures, at))?;
    }
    Ok(found)
}

// All constructors under their classes.
fn constructors_of(alloc: Global, all: &[Row]) -> Result<Chains, OutOfMemory>
    ensures { IfOk result (λ found. found ≡ tell.entries_of (tell.constructor_entry all.now) (length all.now)) }
{
    let mut found = Chains::new(alloc);
    let Ok(count) = u32::try_from(all.len()) else {
        return Err(OutOfMemory);
    };
    for at in 0..count {
        add_entry(alloc, &mut found, constructor_entry(all, at))?;
    }
    Ok(found)
}

impl Callables {
    /// None, with these signatures.
    pub fn new(alloc: Global, signatures: Signatures) -> Callables {
        Callables {
            signatures,
            by_signature: Chains::new(alloc),
            constructors: Chains::new(alloc),
        }
    }

    /// The methods and constructors under a table.
    pub fn of(alloc: Global, under: Tabled) -> Result<Callables, OutOfMemory>
        ensures callables { IfOk result (λ callables. tell.AreCallables under.entry.rows.now callables) }
        ensures signatures { IsSized under.entry.rows.now → ArePlaces under.entry.rows.now under.entry.places.now → IfOk result (λ callables. AreSignatures under.entry.rows.now (entries under.entry.table.now) callables.signatures) }
    {
        let signatures = Signatures::of(alloc, under)?;
        let by_signature = methods_of(alloc, under.rows, &signatures)?;
        let constructors = constructors_of(alloc, under.rows)?;
        Ok(Callables {
            signatures,
            by_signature,
            constructors,
        })
    }

    /// The constructors of a class, from the last back.
    pub fn constructors(&self, alloc: Global, over: u32) -> Result<Vec<u32>, OutOfMemory>
        ensures { (p : Rows) → tell.AreCallables p self.now → IfOk result (λ rows. rows.items ≡ tell.falling (length p) (is_constructor_of p over)) }
    {
        self.constructors.rows(alloc, over, 0)
    }

    /// The methods that a type declares with the signature of a method, from the last back.
    pub fn declared_like(&self, alloc: Global, over: u32, at: u32) -> Result<Vec<u32>, OutOfMemory>
        ensures { (p : Rows) (t : Table) → tell.AreCallables p self.now → AreSignatures p t self.now.signatures → is_callable (all_rows.role_at p at) ≡ true → IfOk result (λ rows. rows.items ≡ tell.falling (length p) (tell.is_declared_like p t over at)) }
    {
        match self.signatures.number(at) {
            Some(number) => self.by_signature.rows(alloc, over, number),
            None => Ok(Vec::new(alloc)),
        }
    }
}
