// Methods of one name that a type has as members (JLS 8.1.1.1, 8.4.5, 8.4.8.4, 9.4.1).
ghost use Rattle.std.specs.Prelude.{◌≡◌, ◌&&◌, IfOk};
ghost use Rattle.jr_tree.specs.declared.label.Role.TheVariants as roles;
ghost use Rattle.jr_tree.specs.Rows.{role_at as role_of_row};
ghost use Rattle.jr_plain.specs.Enclosing as enclosing;
ghost use Rattle.jr_plain.specs.Members as members;
ghost use Rattle.jr_member_rules.specs.Inheriting as plain;
ghost use Rattle.jr_member_faults.specs.Beside as tell;
ghost use Rattle.jr_member_faults.specs.Lefts as lefts;
ghost use Rattle.jr_member_faults.specs.Views as views;

use crate::access::is_narrower;
use crate::throwing::Thrown;
use crate::together::{is_either, is_result_fit};
use jr_base::OutOfMemory;
use jr_members::{MemberKind, World};
use jr_places::{declaring_type, is_abstract, is_method, is_public, is_static};
use std::alloc::Global;

/// The rules that a type breaks by what it inherits.
#[derive(Clone, Copy, Debug, PartialEq, Eq)]
pub struct Left {
    /// A member is left abstract.
    pub abstracts: bool,
    /// Inherited results do not go together.
    pub results: bool,
    /// A method is inherited beside one of wider access.
    pub access: bool,
    /// A static method is inherited beside one of an instance.
    pub statics: bool,
    /// A method is inherited that declares more than one beside it allows.
    pub throws: bool,
}

/// What two inherited methods may break.
#[derive(Clone, Copy)]
pub enum Clash {
    Results,
    Access,
    Statics,
    Throws,
}

/// The methods that a type has beside each other.
#[derive(Clone, Copy)]
pub struct Beside<'a> {
    pub world: &'a World<'a>,
    pub thrown: &'a Thrown,
    pub over: u32,
}

impl Left {
    /// None.
    pub const NOTHING: Left = Left {
        abstracts: false,
        results: false,
        access: false,
        statics: false,
        throws: false,
    };

    /// The rules of both.
    pub fn or(self, other: Left) -> Left
        ensures { result ≡ lefts.or_left self other }
    {
        Left {
            abstracts: self.abstracts || other.abstracts,
            results: self.results || other.results,
            access: self.access || other.access,
            statics: self.statics || other.statics,
            throws: self.throws || other.throws,
        }
    }
}

// The body of the type declares the method.
fn is_declared_in(world: &World, over: u32, method: u32) -> bool
    ensures { result ≡ enclosing.is_declared_in (views.rows_of world.now) over method }
{
    match declaring_type(world.under.rows, method) {
        Some(found) => found == over,
        None => false,
    }
}

fn are_all(one: bool, other: bool, third: bool) -> bool
    ensures { result ≡ (one && other && third) }
{
    one && other && third
}

// Both are methods, of one signature.
fn are_same(world: &World, method: u32, other: u32) -> bool
    ensures { views.IsRightWorld world.now → result ≡ members.are_same_methods (views.rows_of world.now) (views.table_of world.now) method other }
{
    let is_one = is_method(world.under.rows, method);
    let is_other = is_method(world.under.rows, other);
    let is_same = world.members.signatures().are_same(method, other);
    are_all(is_one, is_other, is_same)
}

// A public method of an instance, and not abstract.
fn is_public_instance(world: &World, method: u32) -> bool
    ensures { result ≡ tell.is_public_instance (views.rows_of world.now) method }
{
    let rows = world.under.rows;
    is_public(rows, method) && (!is_static(rows, method) && !is_abstract(rows, method))
}

// The first method implements the other.
fn implements(world: &World, method: u32, other: u32) -> bool
    ensures { views.IsRightWorld world.now → result ≡ tell.implements (views.rows_of world.now) (views.table_of world.now) other method }
{
    are_same(world, method, other) && is_public_instance(world, method)
}

// One of the methods implements the method.
fn is_implemented(world: &World, all: &[u32], method: u32) -> bool
    ensures { views.IsRightWorld world.now → result ≡ plain.is_implemented (views.rows_of world.now) (views.table_of world.now) all.now method }
{
    for other in all {
        if implements(world, *other, method) {
            return true;
        }
    }
    false
}

// The method is abstract, and none of the methods implements it.
fn is_left(world: &World, all: &[u32], method: u32) -> bool
    ensures { views.IsRightWorld world.now → result ≡ tell.is_left (views.rows_of world.now) (views.table_of world.now) all.now method }
{
    is_method(world.under.rows, method)
        && is_abstract(world.under.rows, method)
        && !is_implemented(world, all, method)
}

// One of the methods is left abstract.
fn leaves_some(world: &World, all: &[u32]) -> bool
    ensures { views.IsRightWorld world.now → result ≡ plain.leaves_some (views.rows_of world.now) (views.table_of world.now) all.now }
{
    for method in all {
        if is_left(world, all, *method) {
            return true;
        }
    }
    false
}

// The method alone may break a rule below, beside itself.
fn is_odd(world: &World, method: u32) -> bool
    ensures { views.IsRightWorld world.now → result ≡ tell.is_odd (views.rows_of world.now) (views.table_of world.now) method }
{
    let rows = world.under.rows;
    !are_same(world, method, method)
        || (is_abstract(rows, method)
            || (!is_result_fit(world, method, method) || is_narrower(rows, method, method)))
}

// Two methods of one signature.
fn are_twins(world: &World, method: u32, other: u32) -> bool
    ensures { views.IsRightWorld world.now → result ≡ tell.are_twins (views.rows_of world.now) (views.table_of world.now) method other }
{
    method != other && are_same(world, method, other)
}

// Another one of the methods has the signature.
fn has_twin(world: &World, all: &[u32], method: u32) -> bool
    ensures { views.IsRightWorld world.now → result ≡ tell.has_twin (views.rows_of world.now) (views.table_of world.now) all.now method }
{
    for other in all {
        if are_twins(world, method, *other) {
            return true;
        }
    }
    false
}

// A type below may break a rule by the method, beside itself or another one.
fn is_open(world: &World, all: &[u32], method: u32) -> bool
    ensures { views.IsRightWorld world.now → result ≡ tell.is_open (views.rows_of world.now) (views.table_of world.now) all.now method }
{
    is_odd(world, method) || has_twin(world, all, method)
}

// A type below may break a rule by these methods, or this one does.
fn are_open(world: &World, all: &[u32]) -> bool
    ensures { views.IsRightWorld world.now → result ≡ tell.are_open (views.rows_of world.now) (views.table_of world.now) all.now }
{
    for method in all {
        if is_open(world, all, *method) {
            return true;
        }
    }
    false
}

impl<'a> Beside<'a> {
    // Both methods have one signature, and the type declares neither.
    fn are_beside(self, method: u32, other: u32) -> bool
        ensures { views.IsRightWorld self.entry.world.now → result ≡ tell.are_beside (views.rows_of self.entry.world.now) (views.table_of self.entry.world.now) self.entry.over method other }
    {
        are_same(self.world, method, other)
            && (!is_declared_in(self.world, self.over, method)
                && !is_declared_in(self.world, self.over, other))
    }

    // The first of two methods, by which a rule may be broken.
    fn is_first_in(self, clash: Clash, method: u32) -> bool
        ensures { result ≡ tell.is_first_in (views.rows_of self.entry.world.now) clash method }
    {
        let world = self.world;
        let rows = world.under.rows;
        match clash {
            Clash::Results => !is_abstract(rows, method),
            Clash::Access => !is_abstract(rows, method),
            Clash::Statics => is_static(rows, method),
            Clash::Throws => !is_abstract(rows, method),
        }
    }

    // The two methods break the rule.
    fn do_clash(
        self,
        alloc: Global,
        clash: Clash,
        method: u32,
        other: u32,
    ) -> Result<bool, OutOfMemory>
        ensures { lefts.CanJudge self.entry → role_of_row (views.rows_of self.entry.world.now) method ≡ roles.Method → role_of_row (views.rows_of self.entry.world.now) other ≡ roles.Method → IfOk result (λ is. is ≡ tell.do_clash (views.rows_of self.entry.world.now) (views.table_of self.entry.world.now) clash method other) }
    {
        let world = self.world;
        let rows = world.under.rows;
        match clash {
            Clash::Results => Ok(!is_result_fit(self.world, method, other)),
            Clash::Access => Ok(is_narrower(rows, method, other)),
            Clash::Statics => Ok(!is_static(rows, other)),
            Clash::Throws => self.thrown.declares_more(alloc, self.world, method, other),
        }
    }

    // The two stand beside each other, and break the rule.
    fn are_clashing(
        self,
        alloc: Global,
        clash: Clash,
        method: u32,
        other: u32,
    ) -> Result<bool, OutOfMemory>
        ensures { lefts.CanJudge self.entry → IfOk result (λ is. is ≡ tell.are_clashing (views.rows_of self.entry.world.now) (views.table_of self.entry.world.now) clash self.entry.over method other) }
    {
        if !self.are_beside(method, other) {
            return Ok(false);
        }
        let is = self.do_clash(alloc, clash, method, other)?;
        Ok(is)
    }

    // Of these methods one stands beside the method, and the two break the rule.
    fn has_clashing(
        self,
        alloc: Global,
        clash: Clash,
        all: &[u32],
        method: u32,
    ) -> Result<bool, OutOfMemory>
        ensures { lefts.CanJudge self.entry → IfOk result (λ is. is ≡ tell.has_clashing (views.rows_of self.entry.world.now) (views.table_of self.entry.world.now) clash self.entry.over all.now method) }
    {
        for other in all {
            let is = self.are_clashing(alloc, clash, method, *other)?;
            if is {
                return Ok(true);
            }
        }
        Ok(false)
    }

    // The method is the first of two that break the rule, of which the other is one of these.
    fn is_clashing(
        self,
        alloc: Global,
        clash: Clash,
        all: &[u32],
        method: u32,
    ) -> Result<bool, OutOfMemory>
        ensures { lefts.CanJudge self.entry → IfOk result (λ is. is ≡ tell.is_clashing (views.rows_of self.entry.world.now) (views.table_of self.entry.world.now) clash self.entry.over all.now method) }
    {
        if !self.is_first_in(clash, method) {
            return Ok(false);
        }
        let is = self.has_clashing(alloc, clash, all, method)?;
        Ok(is)
    }

    // Two of these methods break the rule.
    fn has_clash(self, alloc: Global, clash: Clash, all: &[u32]) -> Result<bool, OutOfMemory>
        ensures { lefts.CanJudge self.entry → IfOk result (λ is. is ≡ tell.has_clash (views.rows_of self.entry.world.now) (views.table_of self.entry.world.now) clash self.entry.over all.now) }
    {
        for method in all {
            let is = self.is_clashing(alloc, clash, all, *method)?;
            if is {
                return Ok(true);
            }
        }
        Ok(false)
    }

    // The other method has no signature of the first, or is abstract and its result does not fit that of another.
    fn fits_none(
        self,
        alloc: Global,
        all: &[u32],
        method: u32,
        other: u32,
    ) -> Result<bool, OutOfMemory>
        ensures { lefts.CanJudge self.entry → IfOk result (λ is. is ≡ tell.fits_none (views.rows_of self.entry.world.now) (views.table_of self.entry.world.now) self.entry.over all.now method other) }
    {
        if !are_same(self.world, other, method) {
            return Ok(true);
        }
        let world = self.world;
        if !is_abstract(world.under.rows, other) {
            return Ok(false);
        }
        let is = self.has_clashing(alloc, Clash::Results, all, other)?;
        Ok(is)
    }

    // So are all of these methods.
    fn fit_none(self, alloc: Global, all: &[u32], method: u32) -> Result<bool, OutOfMemory>
        ensures { lefts.CanJudge self.entry → IfOk result (λ is. is ≡ tell.fit_none (views.rows_of self.entry.world.now) (views.table_of self.entry.world.now) self.entry.over all.now method) }
    {
        for other in all {
            let is = self.fits_none(alloc, all, method, *other)?;
            if !is {
                return Ok(false);
            }
        }
        Ok(true)
    }

    // The results of abstract methods of one signature do not fit.
    fn has_unfit(self, alloc: Global, all: &[u32]) -> Result<bool, OutOfMemory>
        ensures { lefts.CanJudge self.entry → IfOk result (λ is. is ≡ tell.has_unfit (views.rows_of self.entry.world.now) (views.table_of self.entry.world.now) self.entry.over all.now) }
    {
        for method in all {
            let is = self.is_unfit(alloc, all, *method)?;
            if is {
                return Ok(true);
            }
        }
        Ok(false)
    }

    // Those of the signature of this one.
    fn is_unfit(self, alloc: Global, all: &[u32], method: u32) -> Result<bool, OutOfMemory>
        ensures { lefts.CanJudge self.entry → IfOk result (λ is. is ≡ tell.is_unfit (views.rows_of self.entry.world.now) (views.table_of self.entry.world.now) self.entry.over all.now method) }
    {
        let world = self.world;
        if !is_method(world.under.rows, method) {
            return Ok(false);
        }
        let is = self.fit_none(alloc, all, method)?;
        Ok(is)
    }

    // The rules that these methods break.
    fn left_of(self, alloc: Global, all: &[u32]) -> Result<Left, OutOfMemory>
        ensures { lefts.CanJudge self.entry → IfOk result (λ left. left ≡ lefts.left_of (views.rows_of self.entry.world.now) (views.table_of self.entry.world.now) self.entry.over all.now) }
    {
        let clashes = self.has_clash(alloc, Clash::Results, all)?;
        let unfit = self.has_unfit(alloc, all)?;
        let access = self.has_clash(alloc, Clash::Access, all)?;
        let statics = self.has_clash(alloc, Clash::Statics, all)?;
        let throws = self.has_clash(alloc, Clash::Throws, all)?;
        let results = is_either(clashes, unfit);
        let abstracts = leaves_some(self.world, all);
        Ok(Left {
            abstracts,
            results,
            access,
            statics,
            throws,
        })
    }

    /// The rules that the methods of a name break, given by its number, or none, where no type below breaks one by these alone.
    pub fn at_name(self, alloc: Global, name: u32) -> Result<Option<Left>, OutOfMemory>
        ensures { lefts.CanJudge self.entry → IfOk result (λ left. lefts.IsLeftAt self.entry.world.now self.entry.over name left) }
    {
        let all = self
            .world
            .named(alloc, MemberKind::Method, self.over, name)?;
        if !are_open(self.world, &all) {
            return Ok(None);
        }
        let left = self.left_of(alloc, &all)?;
        Ok(Some(left))
    }
}
