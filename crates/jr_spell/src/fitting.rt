// When a spelling fits.
ghost use Rattle.std.specs.Prelude.{true, false, ◌≡◌, ◌||◌, ◌&&◌, Some, List, not, nat_eq, Decides};
ghost use Rattle.std.specs.Option.{option_map_or};
ghost use Rattle.jr_plain.specs.Access as access;
ghost use Rattle.jr_plain.specs.Same.{same_level, same_role};
ghost use Rattle.jr_tree.specs.declared.label.Role.TheVariants as roles;
ghost use Rattle.jr_spelling_rules.specs.Candidates as candidate;
ghost use Rattle.jr_spelling_rules.specs.Fitting as fitting;
ghost use Rattle.jr_spell.specs.Shaping as shaping;
ghost use Rattle.jr_spell.specs.Spellers as tell;

use crate::reference::Reference;
use crate::speller::Speller;
use jr_defs::{Referent, RowType};
use jr_places::{is_static, role_at};
use jr_shapes::Shape;
use jr_tree::{Role, Row};

/// How a spelling reaches what it finds.
#[derive(Clone, Copy, Debug, PartialEq, Eq)]
pub struct Way {
    /// The type of the expression before the dot.
    pub receiver: Option<RowType>,
    /// The type of the object whose member it is, or that encloses the object that is made.
    pub level: Option<u32>,
    /// It is constant where it names a constant variable (JLS 15.28).
    pub is_constant_form: bool,
}

/// What is found in one way.
#[derive(Drop)]
pub struct Looked {
    pub found: Referent,
    pub trace: Vec<Referent>,
    pub way: Way,
}

/// A spelling that fits.
#[derive(Drop)]
pub struct Fit {
    pub shape: Shape,
    pub found: Referent,
    pub trace: Vec<Referent>,
}

/// The declaration that is referred to.
pub fn target_of(found: Referent) -> Option<u32>
    ensures { result ≡ candidate.target found }
{
    match found {
        Referent::Declared { row, .. } => Some(row),
        _ => None,
    }
}

/// The level of what is found.
pub fn level_of(found: Referent) -> Option<u32>
    ensures { result ≡ candidate.level_of found }
{
    match found {
        Referent::Declared { level, .. } => level,
        _ => None,
    }
}

/// Both are one.
pub fn is_same(one: Referent, other: Referent) -> bool
    ensures { Decides result (one ≡ other) }
{
    one == other
}

// What is found is this row.
fn is_row(found: Option<u32>, row: u32) -> bool
    ensures { result ≡ option_map_or (λ e. nat_eq e row) found false }
{
    match found {
        Some(at) => at == row,
        None => false,
    }
}

// What is found is what the reference must refer to, through any level.
#[tactic(auto, using(crate::proofs::LockCases::lock_declared, crate::proofs::LockCases::lock_other))]
fn is_lock(lock: Referent, found: Referent) -> bool
    ensures { result ≡ fitting.is_lock lock found }
{
    match target_of(lock) {
        Some(target) => is_row(target_of(found), target),
        None => is_same(found, lock),
    }
}

fn is_constructor(role: Role) -> bool
    ensures { result ≡ same_role role roles.Constructor }
{
    match role {
        Role::Constructor => true,
        _ => false,
    }
}

// It is reached through an object: a member that is not static, or the constructor of a class.
fn has_object(rows: &[Row], target: u32) -> bool
    ensures { result ≡ fitting.has_object rows.now target }
{
    is_constructor(role_at(rows, target)) || !is_static(rows, target)
}

fn target_has_object(rows: &[Row], target: Option<u32>) -> bool
    ensures { result ≡ option_map_or (fitting.has_object rows.now) target false }
{
    match target {
        Some(at) => has_object(rows, at),
        None => false,
    }
}

fn is_level(through: Option<u32>, level: u32) -> bool
    ensures { result ≡ same_level through (Some level) }
{
    match through {
        Some(at) => at == level,
        None => false,
    }
}

// The object is that of the lock.
fn is_same_object(rows: &[Row], lock: Referent, through: Option<u32>) -> bool
    ensures { result ≡ fitting.is_same_object rows.now lock through }
{
    match level_of(lock) {
        Some(level) => is_level(through, level) || !target_has_object(rows, target_of(lock)),
        None => true,
    }
}

impl<'a> Speller<'a> {
    /// The declaration is accessible at a place, through a receiver of this type where there is one.
    pub fn is_accessible(&self, target: u32, place: u32, receiver: Option<RowType>) -> bool
        ensures { tell.IsSeenSpeller self.now → result ≡ access.is_accessible (tell.rows_of self.now) (tell.table_of self.now) target place receiver }
    {
        let view = self.view;
        view.sight.world.is_accessible(target, place, receiver)
    }

    fn is_target_accessible(&self, lock: Referent, place: u32, receiver: Option<RowType>) -> bool
        ensures { tell.IsSeenSpeller self.now → result ≡ option_map_or (λ d. access.is_accessible (tell.rows_of self.now) (tell.table_of self.now) d place receiver) (candidate.target lock) true }
    {
        match target_of(lock) {
            Some(target) => self.is_accessible(target, place, receiver),
            None => true,
        }
    }

    fn names_constant(&self, lock: Referent) -> bool
        ensures { result ≡ option_map_or (tell.is_constant_variable self.now) (candidate.target lock) false }
    {
        match target_of(lock) {
            Some(target) => self.constants().variable(target).is_some(),
            None => false,
        }
    }

    fn is_constant(&self, lock: Referent, is_constant_form: bool) -> bool
        ensures { result ≡ fitting.is_constant (tell.is_constant_variable self.now) lock is_constant_form }
    {
        is_constant_form && self.names_constant(lock)
    }

    // It is a constant expression exactly where it was one.
    fn is_constant_as_before(&self, reference: &Reference, is_constant_form: bool) -> bool
        ensures { result ≡ fitting.same_truth (fitting.is_constant (tell.is_constant_variable self.now) reference.now.lock is_constant_form) (tell.was_constant self.now reference.now.row) }
    {
        same_truth(
            self.is_constant(reference.lock, is_constant_form),
            self.was_constant(reference.row),
        )
    }

    /// What is found in this way is what the reference must refer to: the same declaration on the same object, accessible, and constant as before.
    pub fn fits(&self, reference: &Reference, found: Referent, way: Way) -> bool
        ensures { tell.IsSeenSpeller self.now → tell.IsAtRow self.now reference.now → result ≡ fitting.fits_so (tell.rows_of self.now) (tell.table_of self.now) (tell.is_constant_variable self.now) (tell.was_constant self.now) reference.now.row found way.receiver way.level way.is_constant_form }
    {
        let lock = reference.lock;
        is_lock(lock, found)
            && is_same_object(self.rows(), lock, way.level)
            && self.is_target_accessible(lock, reference.row, way.receiver)
            && self.is_constant_as_before(reference, way.is_constant_form)
    }

    /// The spelling of this shape, where what it finds fits.
    pub fn fit_of(&self, reference: &Reference, shape: Shape, looked: Looked) -> Option<Fit>
        ensures { tell.IsSeenSpeller self.now → tell.IsAtRow self.now reference.now → result ≡ tell.fit_by (tell.fits_looked self.now reference.now looked) shape looked }
    {
        let Looked { found, trace, way } = looked;
        if self.fits(reference, found, way) {
            Some(Fit {
                shape,
                found,
                trace,
            })
        } else {
            None
        }
    }

    /// The spelling of this shape, where something is found in its way that fits.
    pub fn fit_found(
        &self,
        reference: &Reference,
        shape: Shape,
        looked: Option<Looked>,
    ) -> Option<Fit>
        ensures { (all : List candidate.Candidate) → tell.IsSeenSpeller self.now → tell.IsAtRow self.now reference.now → shaping.AreLooked self.now reference.now.row shape looked all → shaping.IsFirstOf self.now reference.now.row all result }
    {
        match looked {
            Some(way) => self.fit_of(reference, shape, way),
            None => None,
        }
    }
}

// Both are so, or neither is.
fn same_truth(one: bool, other: bool) -> bool
    ensures { result ≡ fitting.same_truth one other }
{
    if one { other } else { !other }
}
