// What a method overrides or hides, and how it differs from that (JLS 8.4.3.3, 8.4.5, 8.4.8.1 to 8.4.8.3).
ghost use Rattle.std.specs.Prelude.{◌≡◌, ◌++◌, true, not, Some, IfOk, IfSome, OnOk, Decides, filter, length};
ghost use Rattle.std.specs.List.{flat_map, list_any};
ghost use Rattle.jr_tree.specs.declared.label.Role.TheVariants as roles;
ghost use Rattle.jr_tree.specs.Rows.{role_at as role_of_row, label as label_of_row};
ghost use Rattle.jr_defs.specs.Enclosing.{DeclaredIn};
ghost use Rattle.jr_defs.specs.Members.{SameMethods};
ghost use Rattle.jr_defs.specs.MemberRules.{RedefinesMethod};
ghost use Rattle.jr_defs.specs.Modifiers.{written};
ghost use Rattle.jr_plain.specs.Overloads.{is_result_fit as is_fit};
ghost use Rattle.jr_plain.specs.Overriding.{overriding};
ghost use Rattle.jr_members.specs.Keys.{entries_of, signature_number};
ghost use Rattle.jr_members.specs.Named.{has_list, under};
ghost use Rattle.jr_dispatch.specs.Families.{declared_like};
ghost use Rattle.jr_member_rules.specs.Redefining as plain;
ghost use Rattle.jr_member_rules.specs.Throwing as throwing;
ghost use Rattle.jr_member_faults.specs.Descent.{IsDescent};
ghost use Rattle.jr_member_faults.specs.Nearest as near;
ghost use Rattle.jr_member_faults.specs.Redefined as tell;
ghost use Rattle.jr_member_faults.specs.Thrown.{AreThrown};
ghost use Rattle.jr_member_faults.specs.Views as views;

use crate::access::is_narrower;
use crate::descent::Descent;
use crate::listing::{add_entry, push_if};
use crate::throwing::Thrown;
use crate::together::is_result_fit;
use jr_base::OutOfMemory;
use jr_dispatch::Methods;
use jr_members::{World, can_inherit};
use jr_places::{Chains, Entry, declaring_type, is_method, is_static, written_at};
use jr_tree::Row;
use std::alloc::Global;

/// The methods of a program by their signatures.
#[derive(Drop)]
pub struct Uppers {
    /// Under the numbers of their signatures and 0.
    signed: Chains,
    /// Under such a number and 0, a method where not all methods of the signature are known to keep the rules over those right above.
    apart: Chains,
}

// Where a method stands that has a signature.
fn signed_entry(world: &World, row: u32) -> Option<Entry>
    ensures { result ≡ tell.number_entry_of world.now row }
{
    if !is_method(world.under.rows, row) {
        return None;
    }
    match world.members.signatures().number(row) {
        Some(first) => Some(Entry {
            first,
            second: 0,
            row,
        }),
        None => None,
    }
}

// All methods that have signatures.
fn signed_methods(alloc: Global, world: &World) -> Result<Chains, OutOfMemory>
    ensures { IfOk result (λ signed. signed ≡ entries_of (tell.number_entry_of world.now) (length (views.rows_of world.now))) }
{
    let mut signed = Chains::new(alloc);
    let Ok(count) = u32::try_from(world.under.rows.len()) else {
        return Err(OutOfMemory);
    };
    for row in 0..count {
        add_entry(alloc, &mut signed, signed_entry(world, row))?;
    }
    Ok(signed)
}

// Adds the methods of the signature that a type declares.
fn add_like(
    alloc: Global,
    world: &World,
    all: &mut Vec<u32>,
    over: u32,
    method: u32,
) -> Result<(), OutOfMemory>
    ensures { views.IsRightWorld world.now → role_of_row (views.rows_of world.now) method ≡ roles.Method → OnOk result (all.new.items ≡ all.old.items ++ declared_like (views.rows_of world.now) (views.table_of world.now) method over) }
{
    let like = world.members.declared_like(alloc, over, method)?;
    all.extend_from_slice(&like)?;
    Ok(())
}

// The methods of the signature that these types declare.
fn all_like(
    alloc: Global,
    world: &World,
    overs: &[u32],
    method: u32,
) -> Result<Vec<u32>, OutOfMemory>
    ensures { views.IsRightWorld world.now → role_of_row (views.rows_of world.now) method ≡ roles.Method → IfOk result (λ all. all.items ≡ flat_map (declared_like (views.rows_of world.now) (views.table_of world.now) method) overs.now) }
{
    let mut all = Vec::new(alloc);
    for over in overs {
        add_like(alloc, world, &mut all, *over, method)?;
    }
    Ok(all)
}

// Those that the type of a method, which is this, and the types above it declare.
fn like_from(alloc: Global, world: &World, over: u32, method: u32) -> Result<Vec<u32>, OutOfMemory>
    ensures { views.IsRightWorld world.now → role_of_row (views.rows_of world.now) method ≡ roles.Method → DeclaredIn (views.rows_of world.now) over method → IfOk result (λ all. tell.AreLike (views.rows_of world.now) (views.table_of world.now) method all.items) }
{
    let overs = world.supers.with_above(alloc, world.under.rows, over)?;
    let all = all_like(alloc, world, &overs, method)?;
    Ok(all)
}

// The same, of any method.
fn like_above(alloc: Global, world: &World, method: u32) -> Result<Vec<u32>, OutOfMemory>
    ensures { views.IsRightWorld world.now → role_of_row (views.rows_of world.now) method ≡ roles.Method → IfOk result (λ all. tell.AreLike (views.rows_of world.now) (views.table_of world.now) method all.items) }
{
    match declaring_type(world.under.rows, method) {
        Some(over) => like_from(alloc, world, over, method),
        None => Ok(Vec::new(alloc)),
    }
}

// The type stands below that of the method.
fn is_from_above(world: &World, over: u32, method: u32) -> bool
    ensures { views.IsRightWorld world.now → result ≡ plain.is_from_above (views.rows_of world.now) (views.table_of world.now) over method }
{
    match declaring_type(world.under.rows, method) {
        Some(upper) => world.is_above(over, upper),
        None => false,
    }
}

// The type of the first method stands below that of the other, which it would inherit if it declared nothing.
fn is_reached(world: &World, method: u32, other: u32) -> bool
    ensures { views.IsRightWorld world.now → result ≡ tell.is_reached (views.rows_of world.now) (views.table_of world.now) method other }
{
    match declaring_type(world.under.rows, method) {
        Some(over) => { is_from_above(world, over, other) && can_inherit(world.under, over, other) }
        None => false,
    }
}

// Of two methods of one signature the first overrides or hides the second.
fn redefines(alloc: Global, world: &World, method: u32, other: u32) -> Result<bool, OutOfMemory>
    ensures { views.IsRightWorld world.now → SameMethods (views.rows_of world.now) (views.table_of world.now) method other → IfOk result (λ is. Decides is (RedefinesMethod (views.rows_of world.now) (views.table_of world.now) method other)) }
{
    if is_static(world.under.rows, method) {
        return Ok(is_reached(world, method, other));
    }
    let is = Methods::of(world).overrides(alloc, method, other)?;
    Ok(is)
}

// Of these methods, those that a method overrides or hides.
fn redefined_among(
    alloc: Global,
    world: &World,
    like: &[u32],
    method: u32,
) -> Result<Vec<u32>, OutOfMemory>
    ensures { views.IsRightWorld world.now → tell.AreSame (views.rows_of world.now) (views.table_of world.now) method like.now → IfOk result (λ all. all.items ≡ filter (plain.redefines (views.rows_of world.now) (views.table_of world.now) (overriding (views.rows_of world.now) (views.table_of world.now)) method) like.now) }
{
    let mut all = Vec::new(alloc);
    for other in like {
        let is_such = redefines(alloc, world, method, *other)?;
        push_if(&mut all, is_such, *other)?;
    }
    Ok(all)
}

// So many methods of one signature are tested each. A class has a few types above it, so to test more would cost more than to list those.
const FEW: usize = 8;

impl Uppers {
    /// The methods by their signatures.
    pub fn new(alloc: Global, redefining: Redefining) -> Result<Uppers, OutOfMemory>
        ensures signed { IfOk result (λ uppers. tell.AreUppers redefining.entry.world.now uppers) }
        ensures kept { views.IsRightWorld redefining.entry.world.now → AreThrown (views.rows_of redefining.entry.world.now) redefining.entry.thrown.now → IfOk result (λ uppers. near.AreKept redefining.entry.world.now uppers.apart) }
    {
        let signed = signed_methods(alloc, redefining.world)?;
        let apart = Chains::new(alloc);
        let mut uppers = Uppers { signed, apart };
        uppers.set_all_apart(alloc, redefining)?;
        Ok(uppers)
    }

    // Sets apart the signatures of which not all methods are known to keep the rules.
    fn set_all_apart(&mut self, alloc: Global, redefining: Redefining) -> Result<(), OutOfMemory>
        ensures signed { OnOk result (self.new.signed ≡ self.old.signed) }
        ensures kept { views.IsRightWorld redefining.entry.world.now → AreThrown (views.rows_of redefining.entry.world.now) redefining.entry.thrown.now → OnOk result (near.AreKept redefining.entry.world.now self.new.apart) }
    {
        let world = redefining.world;
        let descent = Descent::of(alloc, world)?;
        let Ok(count) = u32::try_from(world.under.rows.len()) else {
            return Err(OutOfMemory);
        };
        for row in 0..count {
            self.set_apart(alloc, redefining, &descent, row)?;
        }
        Ok(())
    }

    // Sets the signature of a row apart, if the row is a method that is not known to keep them.
    fn set_apart(
        &mut self,
        alloc: Global,
        redefining: Redefining,
        descent: &Descent,
        row: u32,
    ) -> Result<(), OutOfMemory>
        ensures signed { OnOk result (self.new.signed ≡ self.old.signed) }
        ensures kept { views.IsRightWorld redefining.entry.world.now → AreThrown (views.rows_of redefining.entry.world.now) redefining.entry.thrown.now → IsDescent redefining.entry.world.now descent.now → OnOk result (near.SetsApart redefining.entry.world.now row self.old.apart self.new.apart) }
    {
        let world = redefining.world;
        if !is_method(world.under.rows, row) {
            return Ok(());
        }
        match world.members.signatures().number(row) {
            Some(number) => self.set_number_apart(alloc, redefining, descent, number, row),
            None => Ok(()),
        }
    }

    // The same, of a method whose signature has this number.
    fn set_number_apart(
        &mut self,
        alloc: Global,
        redefining: Redefining,
        descent: &Descent,
        number: u32,
        row: u32,
    ) -> Result<(), OutOfMemory>
        ensures signed { OnOk result (self.new.signed ≡ self.old.signed) }
        ensures kept { views.IsRightWorld redefining.entry.world.now → AreThrown (views.rows_of redefining.entry.world.now) redefining.entry.thrown.now → IsDescent redefining.entry.world.now descent.now → role_of_row (views.rows_of redefining.entry.world.now) row ≡ roles.Method → OnOk result (near.SetsNumberApart redefining.entry.world.now number row self.old.apart self.new.apart) }
    {
        if self.is_apart(number) {
            return Ok(());
        }
        let keeps = self.is_known(alloc, redefining, descent, number, row)?;
        if keeps {
            return Ok(());
        }
        let entry = Entry {
            first: number,
            second: 0,
            row,
        };
        self.apart.add(alloc, entry)?;
        Ok(())
    }

    fn is_apart(&self, number: u32) -> bool
        ensures { result ≡ has_list self.now.apart number 0 }
    {
        self.apart.last(number, 0).is_some()
    }

    // The method is known to keep the rules. Where there are few of its signature this is not looked for.
    fn is_known(
        &self,
        alloc: Global,
        redefining: Redefining,
        descent: &Descent,
        number: u32,
        method: u32,
    ) -> Result<bool, OutOfMemory>
        ensures { views.IsRightWorld redefining.entry.world.now → AreThrown (views.rows_of redefining.entry.world.now) redefining.entry.thrown.now → IsDescent redefining.entry.world.now descent.now → role_of_row (views.rows_of redefining.entry.world.now) method ≡ roles.Method → IfOk result (λ is. is ≡ true → near.KeepsNear (views.rows_of redefining.entry.world.now) (views.table_of redefining.entry.world.now) method) }
    {
        let few = self.few(alloc, number)?;
        if few.is_some() {
            return Ok(false);
        }
        let keeps = redefining.keeps_near(alloc, descent, method)?;
        Ok(keeps)
    }

    // All methods of the signature are known to keep the rules.
    fn is_kept(&self, world: &World, method: u32) -> bool
        ensures { result ≡ true → near.IsKept world.now self.now.apart method }
    {
        match world.members.signatures().number(method) {
            Some(number) => !self.is_apart(number),
            None => false,
        }
    }

    // The methods of the signature, where they are few.
    #[tactic(auto, using(jr_places::proofs::Tables::walked_done))]
    fn few(&self, alloc: Global, number: u32) -> Result<Option<Vec<u32>>, OutOfMemory>
        ensures { IfOk result (λ found. IfSome found (λ all. all.items ≡ under self.now.signed number 0)) }
    {
        let mut all = Vec::new(alloc);
        let mut at = self.signed.last(number, 0);
        while let Some(place) = at {
            if all.len() == FEW {
                return Ok(None);
            }
            all.push(self.signed.row(place))?;
            at = self.signed.before(place);
        }
        Ok(Some(all))
    }

    // Methods of the signature of a method, with all that it overrides or hides among them.
    fn like(&self, alloc: Global, world: &World, method: u32) -> Result<Vec<u32>, OutOfMemory>
        ensures { views.IsRightWorld world.now → tell.AreUppers world.now self.now → role_of_row (views.rows_of world.now) method ≡ roles.Method → IfOk result (λ all. tell.AreLike (views.rows_of world.now) (views.table_of world.now) method all.items) }
    {
        match world.members.signatures().number(method) {
            Some(number) => self.like_by(alloc, world, number, method),
            None => Ok(Vec::new(alloc)),
        }
    }

    // The same, where the number of the signature is known.
    fn like_by(
        &self,
        alloc: Global,
        world: &World,
        number: u32,
        method: u32,
    ) -> Result<Vec<u32>, OutOfMemory>
        ensures { views.IsRightWorld world.now → tell.AreUppers world.now self.now → role_of_row (views.rows_of world.now) method ≡ roles.Method → signature_number world.now.members.now.callables.signatures method ≡ Some number → IfOk result (λ all. tell.AreLike (views.rows_of world.now) (views.table_of world.now) method all.items) }
    {
        match self.few(alloc, number)? {
            Some(all) => Ok(all),
            None => like_above(alloc, world, method),
        }
    }

    /// The methods that a method overrides or hides, but for some over which it breaks no rule.
    pub fn redefined(
        &self,
        alloc: Global,
        world: &World,
        method: u32,
    ) -> Result<Vec<u32>, OutOfMemory>
        ensures { views.IsRightWorld world.now → tell.AreUppers world.now self.now → near.AreKept world.now self.now.apart → IfOk result (λ all. near.AreTelling (views.rows_of world.now) (views.table_of world.now) method all.items) }
    {
        if !is_method(world.under.rows, method) {
            return Ok(Vec::new(alloc));
        }
        if self.is_kept(world, method) {
            return Ok(Vec::new(alloc));
        }
        let like = self.like(alloc, world, method)?;
        let all = redefined_among(alloc, world, &like, method)?;
        Ok(all)
    }
}

/// How a method differs from those that it overrides or hides.
#[derive(Clone, Copy)]
pub struct Redefining<'a> {
    pub world: &'a World<'a>,
    pub thrown: &'a Thrown,
}

/// A static method and an instance method.
pub fn are_mixed(rows: &[Row], method: u32, other: u32) -> bool
    ensures { result ≡ tell.are_mixed rows.now method other }
{
    if is_static(rows, method) {
        !is_static(rows, other)
    } else {
        is_static(rows, other)
    }
}

/// It is written final.
pub fn is_final(rows: &[Row], at: u32) -> bool
    ensures { result ≡ (written (label_of_row rows.now at)).is_final }
{
    written_at(rows, at).is_final
}

/// One of these methods is of wider access.
pub fn is_narrowed(world: &World, method: u32, redefined: &[u32]) -> bool
    ensures { result ≡ list_any (λ k. plain.is_narrower (views.rows_of world.now) method k) redefined.now }
{
    for other in redefined {
        if is_narrower(world.under.rows, method, *other) {
            return true;
        }
    }
    false
}

/// Of these methods, which a method overrides or hides, one is static and it is not, or the other way round.
pub fn is_mixed(world: &World, method: u32, redefined: &[u32]) -> bool
    ensures { result ≡ list_any (λ k. tell.are_mixed (views.rows_of world.now) method k) redefined.now }
{
    for other in redefined {
        if are_mixed(world.under.rows, method, *other) {
            return true;
        }
    }
    false
}

/// One of these methods is final.
pub fn is_over_final(world: &World, redefined: &[u32]) -> bool
    ensures { result ≡ list_any (λ k. (written (label_of_row (views.rows_of world.now) k)).is_final) redefined.now }
{
    for other in redefined {
        if is_final(world.under.rows, *other) {
            return true;
        }
    }
    false
}

impl<'a> Redefining<'a> {
    /// The result does not fit that of one of them.
    pub fn has_other_result(&self, method: u32, redefined: &[u32]) -> bool
        ensures { views.IsRightWorld self.now.world.now → result ≡ list_any (λ k. not (is_fit (views.rows_of self.now.world.now) (views.table_of self.now.world.now) method k)) redefined.now }
    {
        for other in redefined {
            if !is_result_fit(self.world, method, *other) {
                return true;
            }
        }
        false
    }

    /// The method declares a checked class that one of them does not allow.
    pub fn throws_more(
        &self,
        alloc: Global,
        method: u32,
        redefined: &[u32],
    ) -> Result<bool, OutOfMemory>
        ensures { views.IsRightWorld self.now.world.now → AreThrown (views.rows_of self.now.world.now) self.now.thrown.now → tell.AreSame (views.rows_of self.now.world.now) (views.table_of self.now.world.now) method redefined.now → IfOk result (λ is. is ≡ list_any (λ k. throwing.declares_more (views.rows_of self.now.world.now) (views.table_of self.now.world.now) method k) redefined.now) }
    {
        for other in redefined {
            let is_more = self
                .thrown
                .declares_more(alloc, self.world, method, *other)?;
            if is_more {
                return Ok(true);
            }
        }
        Ok(false)
    }
}
