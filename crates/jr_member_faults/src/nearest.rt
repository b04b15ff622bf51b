// Methods that keep the rules over those of their signature that stand right above them, and so over all (JLS 8.4.3.3, 8.4.5, 8.4.6, 8.4.8).
ghost use Rattle.std.specs.Prelude.{◌≡◌, true, false, IfOk};
ghost use Rattle.std.specs.List.{list_any};
ghost use Rattle.jr_tree.specs.declared.label.Role.TheVariants as roles;
ghost use Rattle.jr_tree.specs.Rows.{role_at as role_of_row};
ghost use Rattle.jr_defs.specs.Enclosing.{DeclaredIn};
ghost use Rattle.jr_defs.specs.Declarations.{IsObject};
ghost use Rattle.jr_members.specs.declared.declared.MemberKind.TheVariants as kinds;
ghost use Rattle.jr_members.specs.Sources.{AreOfKind};
ghost use Rattle.jr_member_faults.specs.Descent.{IsDescent};
ghost use Rattle.jr_member_faults.specs.Nearest as tell;
ghost use Rattle.jr_member_faults.specs.Thrown.{AreThrown};
ghost use Rattle.jr_member_faults.specs.Views as views;

use crate::access::is_narrower;
use crate::descent::Descent;
use crate::redefining::{Redefining, are_mixed, is_final};
use crate::together::is_result_fit;
use jr_base::OutOfMemory;
use jr_members::{MemberKind, World};
use jr_places::declaring_type;
use std::alloc::Global;

// What a method breaks over another by its result, its access and its modifiers.
fn breaks_form(world: &World, method: u32, other: u32) -> bool
    ensures { views.IsRightWorld world.now → result ≡ tell.breaks_form (views.rows_of world.now) (views.table_of world.now) method other }
{
    !is_result_fit(world, method, other)
        || is_narrower(world.under.rows, method, other)
        || are_mixed(world.under.rows, method, other)
        || is_final(world.under.rows, other)
}

impl<'a> Redefining<'a> {
    // The first method breaks a rule over the second, if it overrides or hides that.
    fn breaks(&self, alloc: Global, method: u32, other: u32) -> Result<bool, OutOfMemory>
        ensures { views.IsRightWorld self.now.world.now → AreThrown (views.rows_of self.now.world.now) self.now.thrown.now → role_of_row (views.rows_of self.now.world.now) method ≡ roles.Method → role_of_row (views.rows_of self.now.world.now) other ≡ roles.Method → IfOk result (λ is. is ≡ tell.breaks (views.rows_of self.now.world.now) (views.table_of self.now.world.now) method other) }
    {
        if breaks_form(self.world, method, other) {
            return Ok(true);
        }
        let is = self.thrown.declares_more(alloc, self.world, method, other)?;
        Ok(is)
    }

    // The same, of methods of one signature.
    fn breaks_same(&self, alloc: Global, method: u32, other: u32) -> Result<bool, OutOfMemory>
        ensures { views.IsRightWorld self.now.world.now → AreThrown (views.rows_of self.now.world.now) self.now.thrown.now → role_of_row (views.rows_of self.now.world.now) method ≡ roles.Method → role_of_row (views.rows_of self.now.world.now) other ≡ roles.Method → IfOk result (λ is. is ≡ tell.breaks_same (views.rows_of self.now.world.now) (views.table_of self.now.world.now) method other) }
    {
        if !self.world.members.signatures().are_same(method, other) {
            return Ok(false);
        }
        let is = self.breaks(alloc, method, other)?;
        Ok(is)
    }

    // The method breaks a rule over one of these that has its signature.
    fn breaks_some(&self, alloc: Global, all: &[u32], method: u32) -> Result<bool, OutOfMemory>
        ensures { views.IsRightWorld self.now.world.now → AreThrown (views.rows_of self.now.world.now) self.now.thrown.now → role_of_row (views.rows_of self.now.world.now) method ≡ roles.Method → AreOfKind (views.rows_of self.now.world.now) kinds.Method all.now → IfOk result (λ is. is ≡ list_any (tell.breaks_same (views.rows_of self.now.world.now) (views.table_of self.now.world.now) method) all.now) }
    {
        for other in all {
            let is = self.breaks_same(alloc, method, *other)?;
            if is {
                return Ok(true);
            }
        }
        Ok(false)
    }

    // It breaks one over a member of a type.
    fn breaks_at(&self, alloc: Global, over: u32, method: u32) -> Result<bool, OutOfMemory>
        ensures { views.IsRightWorld self.now.world.now → AreThrown (views.rows_of self.now.world.now) self.now.thrown.now → role_of_row (views.rows_of self.now.world.now) method ≡ roles.Method → IfOk result (λ is. is ≡ false → tell.KeepsAt (views.rows_of self.now.world.now) (views.table_of self.now.world.now) method over) }
    {
        let world = self.world;
        let name = world.under.places.name(method);
        let methods = world.members.kind(MemberKind::Method);
        let held = methods.of_name(alloc, world.under, world.supers, over, name)?;
        let is = self.breaks_some(alloc, &held, method)?;
        Ok(is)
    }

    // It breaks one over a member of one of these types.
    fn breaks_at_some(&self, alloc: Global, overs: &[u32], method: u32) -> Result<bool, OutOfMemory>
        ensures { views.IsRightWorld self.now.world.now → AreThrown (views.rows_of self.now.world.now) self.now.thrown.now → role_of_row (views.rows_of self.now.world.now) method ≡ roles.Method → IfOk result (λ is. is ≡ false → tell.KeepsAtAll (views.rows_of self.now.world.now) (views.table_of self.now.world.now) method overs.now) }
    {
        for over in overs {
            let is = self.breaks_at(alloc, *over, method)?;
            if is {
                return Ok(true);
            }
        }
        Ok(false)
    }

    // It breaks one over a member of a direct supertype of its type, which this is.
    fn breaks_right_above(&self, alloc: Global, at: u32, method: u32) -> Result<bool, OutOfMemory>
        ensures { views.IsRightWorld self.now.world.now → AreThrown (views.rows_of self.now.world.now) self.now.thrown.now → role_of_row (views.rows_of self.now.world.now) method ≡ roles.Method → IfOk result (λ is. is ≡ false → tell.KeepsRightAbove (views.rows_of self.now.world.now) (views.table_of self.now.world.now) method at) }
    {
        let direct = self.world.supers.direct().rows(alloc, at, 0)?;
        let is = self.breaks_at_some(alloc, &direct, method)?;
        Ok(is)
    }

    // It breaks one over a method that Object declares, which stands above its type.
    fn breaks_at_object(
        &self,
        alloc: Global,
        at: u32,
        object: u32,
        method: u32,
    ) -> Result<bool, OutOfMemory>
        ensures { views.IsRightWorld self.now.world.now → AreThrown (views.rows_of self.now.world.now) self.now.thrown.now → role_of_row (views.rows_of self.now.world.now) method ≡ roles.Method → IfOk result (λ is. is ≡ false → tell.KeepsAtObject (views.rows_of self.now.world.now) (views.table_of self.now.world.now) method at object) }
    {
        if !self.world.is_above(at, object) {
            return Ok(false);
        }
        let like = self.world.members.declared_like(alloc, object, method)?;
        let is = self.breaks_some(alloc, &like, method)?;
        Ok(is)
    }

    // The same, if there is an Object.
    fn breaks_over_object(&self, alloc: Global, at: u32, method: u32) -> Result<bool, OutOfMemory>
        ensures { views.IsRightWorld self.now.world.now → AreThrown (views.rows_of self.now.world.now) self.now.thrown.now → role_of_row (views.rows_of self.now.world.now) method ≡ roles.Method → IfOk result (λ is. is ≡ false → tell.KeepsOverObject (views.rows_of self.now.world.now) (views.table_of self.now.world.now) method at) }
    {
        match self.world.supers.object() {
            Some(object) => self.breaks_at_object(alloc, at, object, method),
            None => Ok(false),
        }
    }

    // A method of this type keeps the rules over those right above it.
    fn keeps_in(&self, alloc: Global, at: u32, method: u32) -> Result<bool, OutOfMemory>
        ensures { views.IsRightWorld self.now.world.now → AreThrown (views.rows_of self.now.world.now) self.now.thrown.now → role_of_row (views.rows_of self.now.world.now) method ≡ roles.Method → IfOk result (λ is. is ≡ true → tell.KeepsIn (views.rows_of self.now.world.now) (views.table_of self.now.world.now) method at) }
    {
        let breaks_above = self.breaks_right_above(alloc, at, method)?;
        if breaks_above {
            return Ok(false);
        }
        let breaks_object = self.breaks_over_object(alloc, at, method)?;
        Ok(!breaks_object)
    }

    // The method keeps the rules over those right above it.
    fn keeps_right_above(&self, alloc: Global, method: u32) -> Result<bool, OutOfMemory>
        ensures { views.IsRightWorld self.now.world.now → AreThrown (views.rows_of self.now.world.now) self.now.thrown.now → role_of_row (views.rows_of self.now.world.now) method ≡ roles.Method → IfOk result (λ is. is ≡ true → tell.KeepsAbove (views.rows_of self.now.world.now) (views.table_of self.now.world.now) method) }
    {
        let world = self.world;
        match declaring_type(world.under.rows, method) {
            Some(at) => self.keeps_in(alloc, at, method),
            None => Ok(false),
        }
    }

    /// The method goes down to subtypes, throws nothing but what may be thrown, and keeps the rules over those right above it.
    pub fn keeps_near(
        &self,
        alloc: Global,
        descent: &Descent,
        method: u32,
    ) -> Result<bool, OutOfMemory>
        ensures { views.IsRightWorld self.now.world.now → AreThrown (views.rows_of self.now.world.now) self.now.thrown.now → IsDescent self.now.world.now descent.now → role_of_row (views.rows_of self.now.world.now) method ≡ roles.Method → IfOk result (λ is. is ≡ true → tell.KeepsNear (views.rows_of self.now.world.now) (views.table_of self.now.world.now) method) }
    {
        if !descent.is_plain() {
            return Ok(false);
        }
        if !descent.goes_down(self.world, method) {
            return Ok(false);
        }
        let throws_others = self.thrown.throws_others(alloc, self.world, method)?;
        if throws_others {
            return Ok(false);
        }
        let keeps = self.keeps_right_above(alloc, method)?;
        Ok(keeps)
    }
}
