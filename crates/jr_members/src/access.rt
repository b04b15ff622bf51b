// Access (JLS 6.6, 6.6.1, 6.6.2).
ghost use Rattle.std.specs.Prelude.{◌≡◌, ◌&&◌, ◌||◌, Decides};
ghost use Rattle.jr_tree.specs.Rows as rows;
ghost use Rattle.jr_tree.specs.declared.label.Role.TheVariants as role;
ghost use Rattle.jr_defs.specs.Referents.{Table};
ghost use Rattle.jr_plain.specs.Access as access;
ghost use Rattle.jr_plain.specs.Modifiers as modifiers;
ghost use Rattle.jr_plain.specs.Same as same;
ghost use Rattle.jr_supers.specs.Supers.{AreSupersOf};
ghost use Rattle.jr_members.specs.Near.{IsSubclass, IsInSubclass, class_by, is_near};
ghost use Rattle.jr_members.specs.Sources.{AreSeen};

use crate::members::World;
use jr_defs::{Element, RowType};
use jr_places::{
    declaring_type, is_private, is_protected, is_public, needs_no_object, role_at, sought_at,
};
use jr_tree::{Role, Row, Sought, ThisOrSuper};

// Locals, parameters and labels have no access.
fn is_local_role(given: Role) -> bool
    ensures { result ≡ access.is_local_role given }
{
    match given {
        Role::Local => true,
        Role::Parameter => true,
        Role::Label => true,
        _ => false,
    }
}

fn is_constructor(all: &[Row], at: u32) -> bool
    ensures { result ≡ same.same_role (rows.role_at all.now at) role.Constructor }
{
    match role_at(all, at) {
        Role::Constructor => true,
        _ => false,
    }
}

fn is_super_call(sought: Sought) -> bool
    ensures { result ≡ access.is_super_call sought }
{
    match sought {
        Sought::ConstructorCall {
            which: ThisOrSuper::Super,
        } => true,
        _ => false,
    }
}

// A protected constructor is reached outside its package by `super(..)` alone (JLS 6.6.2.2).
fn is_by_super_call(rows: &[Row], at: u32, place: u32) -> bool
    ensures { result ≡ access.is_by_super_call rows.now at place }
{
    is_protected(rows, at) && is_constructor(rows, at) && is_super_call(sought_at(rows, place))
}

// What has no access, or is public.
fn is_open(all: &[Row], at: u32) -> bool
    ensures { result ≡ (access.is_local_role (rows.role_at all.now at) || modifiers.is_public all.now at) }
{
    is_local_role(role_at(all, at)) || is_public(all, at)
}

fn both(one: bool, other: bool) -> bool
    ensures { result ≡ (one && other) }
{
    one && other
}

fn either(one: bool, other: bool) -> bool
    ensures { result ≡ (one || other) }
{
    one || other
}

// The class of a type that is no array.
fn class_of(ty: RowType) -> Option<u32>
    ensures { result ≡ class_by ty.dims ty.element }
{
    if ty.dims > 0 {
        return None;
    }
    match ty.element {
        Element::Class(at) => Some(at),
        _ => None,
    }
}

impl<'a> World<'a> {
    // An instance member is reached through an object of the subclass or below; without a receiver, or through `super`, it is (JLS 6.6.2.1).
    fn is_through(self, subclass: u32, at: u32, receiver: Option<RowType>) -> bool
        ensures { (t : Table) → AreSupersOf self.entry.under.rows.now t self.entry.supers.now → result ≡ access.is_through self.entry.under.rows.now t subclass at receiver }
    {
        match receiver {
            None => true,
            Some(ty) => {
                let object = self.is_object_of(subclass, ty);
                either(needs_no_object(self.under.rows, at), object)
            }
        }
    }

    // The type is that of a class at or below this one.
    fn is_object_of(self, over: u32, ty: RowType) -> bool
        ensures { (t : Table) → AreSupersOf self.entry.under.rows.now t self.entry.supers.now → result ≡ access.is_object_of self.entry.under.rows.now t over ty.dims ty.element }
    {
        match class_of(ty) {
            Some(at) => self.supers.is_at_or_above(self.under.rows, at, over),
            None => false,
        }
    }

    // The class is at or below the one that declares the member, which is reached through it.
    fn is_subclass(self, here: u32, declaring: u32, at: u32, receiver: Option<RowType>) -> bool
        ensures { (t : Table) → AreSupersOf self.entry.under.rows.now t self.entry.supers.now → Decides result (IsSubclass self.entry.under.rows.now t declaring at receiver here) }
    {
        let through = self.is_through(here, at, receiver);
        let above = self.supers.is_at_or_above(self.under.rows, here, declaring);
        both(above, through)
    }

    // The place stands in the body of such a class.
    fn is_in_subclass(self, declaring: u32, at: u32, place: u32, receiver: Option<RowType>) -> bool
        ensures { (t : Table) → AreSeen self.entry.under.rows.now t self.entry.under.places.now self.entry.supers.now → Decides result (IsInSubclass self.entry.under.rows.now t declaring at place receiver) }
    {
        let mut around = self.under.places.around(place);
        for _turn in 0..self.under.rows.len() {
            let Some(here) = around else {
                return false;
            };
            let is_subclass = self.is_subclass(here, declaring, at, receiver);
            if is_subclass {
                return true;
            }
            around = self.under.places.around(here);
        }
        false
    }

    // A protected member, outside its package: the place stands in the body of a class at or below the one that declares it.
    fn is_by_protected(self, at: u32, place: u32, receiver: Option<RowType>) -> bool
        ensures { (t : Table) → AreSeen self.entry.under.rows.now t self.entry.under.places.now self.entry.supers.now → result ≡ access.is_by_protected self.entry.under.rows.now t at place receiver }
    {
        if !is_protected(self.under.rows, at) {
            return false;
        }
        match declaring_type(self.under.rows, at) {
            Some(declaring) => self.is_in_subclass(declaring, at, place, receiver),
            None => false,
        }
    }

    // A private member is accessible inside its top-level type, another one inside its package.
    fn is_near(self, at: u32, place: u32) -> bool
        ensures { (t : Table) → AreSeen self.entry.under.rows.now t self.entry.under.places.now self.entry.supers.now → result ≡ is_near self.entry.under.rows.now at place }
    {
        if is_private(self.under.rows, at) {
            return self.under.places.is_one_top(at, place);
        }
        self.under.places.is_one_package(at, place)
    }

    /// The declaration is accessible at the place, a member through a receiver of this type where there is one.
    pub fn is_accessible(self, at: u32, place: u32, receiver: Option<RowType>) -> bool
        ensures { (t : Table) → AreSeen self.entry.under.rows.now t self.entry.under.places.now self.entry.supers.now → result ≡ access.is_accessible self.entry.under.rows.now t at place receiver }
    {
        if is_open(self.under.rows, at) {
            return true;
        }
        if self.is_near(at, place) {
            return true;
        }
        let by_protected = self.is_by_protected(at, place, receiver);
        let by_call = is_by_super_call(self.under.rows, at, place);
        either(by_protected, by_call)
    }
}
