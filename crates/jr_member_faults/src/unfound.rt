// Abstract methods of classes above that calls find (JLS 8.1.1.1, 15.12.4.4).
ghost use Rattle.std.specs.Prelude.{◌≡◌, ◌&&◌, IfOk};
ghost use Rattle.std.specs.List.{list_any};
ghost use Rattle.jr_defs.specs.Declarations.{IsClass, IsType};
ghost use Rattle.jr_defs.specs.Overriding.{Has};
ghost use Rattle.jr_defs.specs.Supertypes.{Above};
ghost use Rattle.jr_plain.specs.Modifiers as modifiers;
ghost use Rattle.jr_plain.specs.Overriding as overriding;
ghost use Rattle.jr_member_rules.specs.Inheriting as plain;
ghost use Rattle.jr_member_faults.specs.Unfound as tell;
ghost use Rattle.jr_member_faults.specs.Views as views;

use crate::listing::add_entry;
use jr_base::OutOfMemory;
use jr_dispatch::Methods;
use jr_members::World;
use jr_places::{
    Chains, Entry, Stamps, declaring_type, is_abstract, is_class, is_interface, is_method,
};
use jr_tree::Row;
use std::alloc::Global;

/// What calls find of abstract methods, the types that were looked at so far standing above the others.
#[derive(Drop)]
pub struct Unfound {
    /// The abstract methods that classes declare, under the class and 0.
    abstracts: Chains,
    /// The types above which a class declares an abstract method.
    below_abstract: Stamps,
}

// Where a method stands that the type declares, if that is a class.
fn class_entry(rows: &[Row], row: u32, over: Option<u32>) -> Option<Entry>
    ensures { result ≡ tell.class_entry rows.now row over }
{
    match over {
        Some(first) => if is_class(rows, first) {
            Some(Entry {
                first,
                second: 0,
                row,
            })
        } else {
            None
        },
        None => None,
    }
}

fn is_abstract_method(rows: &[Row], row: u32) -> bool
    ensures { result ≡ (overriding.is_method rows.now row && modifiers.is_abstract rows.now row) }
{
    is_method(rows, row) && is_abstract(rows, row)
}

// Where an abstract method stands that a class declares.
fn abstract_entry(rows: &[Row], row: u32) -> Option<Entry>
    ensures { result ≡ tell.abstract_entry rows.now row }
{
    if is_abstract_method(rows, row) {
        class_entry(rows, row, declaring_type(rows, row))
    } else {
        None
    }
}

// The abstract methods that classes declare.
fn abstracts_of(alloc: Global, rows: &[Row]) -> Result<Chains, OutOfMemory>
    ensures { IfOk result (λ abstracts. tell.AreAbstracts rows.now abstracts) }
{
    let mut abstracts = Chains::new(alloc);
    let Ok(count) = u32::try_from(rows.len()) else {
        return Err(OutOfMemory);
    };
    for row in 0..count {
        add_entry(alloc, &mut abstracts, abstract_entry(rows, row))?;
    }
    Ok(abstracts)
}

// A class that is not abstract.
fn is_concrete(rows: &[Row], class: u32) -> bool
    ensures { result ≡ tell.is_concrete rows.now class }
{
    is_class(rows, class) && !is_abstract(rows, class)
}

// The method that is found is abstract.
fn is_found_abstract(rows: &[Row], found: Option<u32>) -> bool
    ensures { result ≡ tell.is_found_abstract rows.now found }
{
    match found {
        Some(method) => is_abstract(rows, method),
        None => false,
    }
}

// A call of a method that the class has finds an abstract one on an object of the class.
fn finds_abstract(
    alloc: Global,
    world: &World,
    class: u32,
    method: u32,
) -> Result<bool, OutOfMemory>
    ensures { views.IsRightWorld world.now → IsClass (views.rows_of world.now) class → Has (views.rows_of world.now) (views.table_of world.now) class method → IfOk result (λ is. is ≡ plain.finds_abstract (views.rows_of world.now) (views.table_of world.now) class method) }
{
    let found = Methods::of(world).dispatch(alloc, class, method)?;
    Ok(is_found_abstract(world.under.rows, found))
}

// So does a call of one of these methods.
fn finds_some_abstract(
    alloc: Global,
    world: &World,
    class: u32,
    methods: &[u32],
) -> Result<bool, OutOfMemory>
    ensures { views.IsRightWorld world.now → IsClass (views.rows_of world.now) class → tell.AreHad (views.rows_of world.now) (views.table_of world.now) class methods.now → IfOk result (λ is. is ≡ list_any (λ m. plain.finds_abstract (views.rows_of world.now) (views.table_of world.now) class m) methods.now) }
{
    for method in methods {
        let is = finds_abstract(alloc, world, class, *method)?;
        if is {
            return Ok(true);
        }
    }
    Ok(false)
}

impl Unfound {
    /// No type was looked at.
    pub fn new(alloc: Global, rows: &[Row]) -> Result<Unfound, OutOfMemory>
        ensures { IfOk result (λ unfound. tell.AreUnfound rows.now unfound) }
    {
        let below_abstract = Stamps::new(alloc, rows.len())?;
        let abstracts = abstracts_of(alloc, rows)?;
        Ok(Unfound {
            abstracts,
            below_abstract,
        })
    }

    // The class declares an abstract method, or the type stands below one that does.
    fn has_abstract(&self, at: u32) -> bool
        ensures { result ≡ tell.has_abstract self.now at }
    {
        self.below_abstract.has(at) || self.abstracts.last(at, 0).is_some()
    }

    // One of these types does.
    fn has_some_abstract(&self, overs: &[u32]) -> bool
        ensures { result ≡ list_any (λ s. tell.has_abstract self.now s) overs.now }
    {
        for over in overs {
            if self.has_abstract(*over) {
                return true;
            }
        }
        false
    }

    fn object_has_abstract(&self, object: Option<u32>) -> bool
        ensures { result ≡ tell.object_has_abstract self.now object }
    {
        match object {
            Some(object) => self.has_abstract(object),
            None => false,
        }
    }

    // Object does, where the type is an interface.
    fn is_below_object(&self, world: &World, over: u32) -> bool
        ensures { result ≡ tell.is_below_object (views.rows_of world.now) self.now world.now.supers.now.direct.object over }
    {
        is_interface(world.under.rows, over) && self.object_has_abstract(world.supers.object())
    }

    // The type stands below a class with an abstract method: by one of these supertypes, or by Object.
    fn is_below_abstract(&self, world: &World, over: u32, supers: &[u32]) -> bool
        ensures { result ≡ tell.is_below_abstract (views.rows_of world.now) self.now world.now.supers.now.direct.object over supers.now }
    {
        self.has_some_abstract(supers) || self.is_below_object(world, over)
    }

    // A call of one of the abstract methods of the other class finds an abstract one.
    fn leaves_of(
        &self,
        alloc: Global,
        world: &World,
        class: u32,
        over: u32,
    ) -> Result<bool, OutOfMemory>
        ensures { views.IsRightWorld world.now → tell.AreAbstracts (views.rows_of world.now) self.now.abstracts → IsClass (views.rows_of world.now) class → Above (views.rows_of world.now) (views.table_of world.now) class over → IfOk result (λ is. is ≡ tell.leaves_of (views.rows_of world.now) (views.table_of world.now) self.now.abstracts class over) }
    {
        let methods = self.abstracts.rows(alloc, over, 0)?;
        let is = finds_some_abstract(alloc, world, class, &methods)?;
        Ok(is)
    }

    // The same, where the other stands above the class.
    fn leaves_at(
        &self,
        alloc: Global,
        world: &World,
        class: u32,
        over: u32,
    ) -> Result<bool, OutOfMemory>
        ensures { views.IsRightWorld world.now → tell.AreAbstracts (views.rows_of world.now) self.now.abstracts → IsClass (views.rows_of world.now) class → IfOk result (λ is. is ≡ tell.leaves_at (views.rows_of world.now) (views.table_of world.now) self.now.abstracts class over) }
    {
        if !world.is_above(class, over) {
            return Ok(false);
        }
        let is = self.leaves_of(alloc, world, class, over)?;
        Ok(is)
    }

    // The same of one of these types.
    fn leaves_among(
        &self,
        alloc: Global,
        world: &World,
        class: u32,
        overs: &[u32],
    ) -> Result<bool, OutOfMemory>
        ensures { views.IsRightWorld world.now → tell.AreAbstracts (views.rows_of world.now) self.now.abstracts → IsClass (views.rows_of world.now) class → IfOk result (λ is. is ≡ list_any (λ s. tell.leaves_at (views.rows_of world.now) (views.table_of world.now) self.now.abstracts class s) overs.now) }
    {
        for over in overs {
            let is = self.leaves_at(alloc, world, class, *over)?;
            if is {
                return Ok(true);
            }
        }
        Ok(false)
    }

    // A class that is not abstract leaves a method abstract that it does not have as a member.
    fn leaves_unfound(&self, alloc: Global, world: &World, class: u32) -> Result<bool, OutOfMemory>
        ensures { views.IsRightWorld world.now → tell.AreAbstracts (views.rows_of world.now) self.now.abstracts → IfOk result (λ is. is ≡ plain.leaves_unfound (views.rows_of world.now) (views.table_of world.now) class) }
    {
        if !is_concrete(world.under.rows, class) {
            return Ok(false);
        }
        let overs = world.supers.with_above(alloc, world.under.rows, class)?;
        let is = self.leaves_among(alloc, world, class, &overs)?;
        Ok(is)
    }

    /// A class that is not abstract leaves a method abstract that it does not have as a member. The types above it were looked at.
    pub fn leaves_above(
        &mut self,
        alloc: Global,
        world: &World,
        over: u32,
    ) -> Result<bool, OutOfMemory>
        ensures { views.IsRightWorld world.now → IsType (views.rows_of world.now) over → tell.AreUnfound (views.rows_of world.now) self.old → tell.AreStampedAbove (views.rows_of world.now) (views.table_of world.now) self.old over → IfOk result (λ is. tell.TellsUnfound (views.rows_of world.now) (views.table_of world.now) over self.old self.new is) }
    {
        let supers = world.supers.direct().rows(alloc, over, 0)?;
        if !self.is_below_abstract(world, over, &supers) {
            return Ok(false);
        }
        let is = self.leaves_unfound(alloc, world, over)?;
        let _ = self.below_abstract.add(over);
        Ok(is)
    }
}
