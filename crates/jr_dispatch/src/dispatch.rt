// Overriding, and the method that a call finds (JLS 8.4.8.1, 15.12.4.4).
ghost use Rattle.std.specs.Prelude.{◌≡◌, ◌++◌, if◌then◌else◌, ℕ, [], ◌∷◌, suc, None, Some, false, length, slice_get, Decides, IfOk, OnOk};
ghost use Rattle.std.specs.List.{flat_map};
ghost use Rattle.jr_tree.specs.declared.label.Role.TheVariants as role;
ghost use Rattle.jr_tree.specs.Rows.{role_at};
ghost use Rattle.jr_defs.specs.Referents.{Table};
ghost use Rattle.jr_defs.specs.Declarations.{IsClass};
ghost use Rattle.jr_defs.specs.Enclosing.{DeclaredIn};
ghost use Rattle.jr_defs.specs.Members.{CanInherit, MemberOf};
ghost use Rattle.jr_defs.specs.Overriding.{Has, Overrides, Implements, Serves, FoundFrom};
ghost use Rattle.jr_plain.specs.Search.{Reaches};
ghost use Rattle.jr_plain.specs.Overriding as plain;
ghost use Rattle.jr_supers.specs.Signatures.{AreSignatures};
ghost use Rattle.jr_supers.specs.Supers.{AreSupersOf, ListsOnce};
ghost use Rattle.jr_places.specs.Stamps.{IsStamping};
ghost use Rattle.jr_members.specs.Held.{ObjectIsBare};
ghost use Rattle.jr_dispatch.specs.Methods.{AreMethods, IsWholeWorld};
ghost use Rattle.jr_dispatch.specs.Overridden as tell;
ghost use Rattle.jr_dispatch.specs.Dispatching as dispatching;

use jr_base::OutOfMemory;
use jr_members::{Callables, Declared, MemberKind, World};
use jr_places::{
    Stamps, declaring_type, is_class, is_in_interface, is_interface, is_method, is_private,
    is_protected, is_public, is_static, passes,
};
use jr_supers::{Supers, Tabled, sorted_once};
use jr_tree::Row;
use std::alloc::Global;

/// A class, a method that it has, and the method that a call of it finds there.
#[derive(Clone, Copy, Debug, PartialEq, Eq)]
pub struct Found {
    pub class: u32,
    pub method: u32,
    pub found: u32,
}

// An instance method, and one that is not private, where it is told whether they have one signature; where an interface declares the first, the
// other is public.
fn may_override(rows: &[Row], method: u32, other: u32, are_same: bool) -> bool
    ensures { result ≡ tell.may_override rows.now method other are_same }
{
    are_same
        && !is_static(rows, method)
        && !is_private(rows, other)
        && (!is_in_interface(rows, method) || is_public(rows, other))
}

// A private or static method: a call of it finds the method itself.
fn is_fixed(rows: &[Row], method: u32) -> bool
    ensures { result ≡ tell.is_fixed rows.now method }
{
    is_private(rows, method) || is_static(rows, method)
}

// The body of the type declares the method.
fn is_declared_in(rows: &[Row], at: u32, method: u32) -> bool
    ensures { Decides result (DeclaredIn rows.now at method) }
{
    match declaring_type(rows, method) {
        Some(over) => over == at,
        None => false,
    }
}

// Puts a number behind the one list or the other.
fn put(
    first: &mut Vec<u32>,
    second: &mut Vec<u32>,
    at: u32,
    is_first: bool,
) -> Result<(), OutOfMemory>
    ensures first { OnOk result (first.new.items ≡ first.old.items ++ (if is_first then at ∷ [] else [])) }
    ensures second { OnOk result (second.new.items ≡ second.old.items ++ (if is_first then [] else at ∷ [])) }
{
    if is_first {
        first.push(at)?;
    } else {
        second.push(at)?;
    }
    Ok(())
}

// Stamps a type, if it passes the method on.
fn mark_if(rows: &[Row], met: &mut Stamps, over: u32, method: u32)
    ensures { (bound : ℕ) → IsStamping met.old bound → dispatching.IsMarkedIf rows.now over method met.old met.new bound }
{
    if !passes(rows, over, method) {
        return;
    }
    let _ = met.add(over);
}

// The number, or the one before, if it is not.
fn latest(before: Option<u32>, at: u32, is: bool) -> Option<u32>
    ensures { result ≡ (if is then Some at else before) }
{
    if is { Some(at) } else { before }
}

pub fn item_at(all: &[u32], at: usize) -> Option<u32>
    ensures { result ≡ slice_get all.now at }
{
    match all.get(at) {
        Some(item) => Some(*item),
        None => None,
    }
}

// One more than there are items.
fn one_more(all: &[u32]) -> usize
    ensures { result ≡ suc (length all.now) }
{
    all.len() + 1
}

// Puts what a call finds behind a list, if it finds a method.
fn push_found(
    all: &mut Vec<Found>,
    class: u32,
    method: u32,
    found: Option<u32>,
) -> Result<(), OutOfMemory>
    ensures { OnOk result (all.new.items ≡ all.old.items ++ dispatching.edge_list class method found) }
{
    match found {
        Some(found) => {
            all.push(Found {
                class,
                method,
                found,
            })?;
            Ok(())
        }
        None => Ok(()),
    }
}

/// Rows under a table, with what calls read: supertypes, and the methods that bodies declare.
#[derive(Clone, Copy)]
pub struct Methods<'a> {
    pub under: Tabled<'a>,
    pub supers: &'a Supers,
    pub callables: &'a Callables,
    pub declared: &'a Declared,
}

impl<'a> Methods<'a> {
    /// Those of a world.
    pub fn of(world: &World<'a>) -> Methods<'a>
        ensures under { result.under ≡ world.now.under }
        ensures methods { (t : Table) → IsWholeWorld t world.now → AreMethods world.now.under.rows.now t result }
    {
        Methods {
            under: world.under,
            supers: world.supers,
            callables: world.members.callables(),
            declared: world.members.kind(MemberKind::Method).in_bodies(),
        }
    }

    /// The class has the method: it is declared in the class or in a type above it.
    pub fn has_method(self, over: u32, at: u32) -> bool
        ensures { (t : Table) → AreSupersOf self.entry.under.rows.now t self.entry.supers.now → ObjectIsBare self.entry.under.rows.now → Decides result (Has self.entry.under.rows.now t over at) }
    {
        if !is_method(self.under.rows, at) {
            return false;
        }
        match declaring_type(self.under.rows, at) {
            Some(declaring) => self.supers.is_at_or_above(self.under.rows, over, declaring),
            None => false,
        }
    }

    // The type of the first method is strictly below that of the second.
    fn is_declared_below(self, method: u32, other: u32) -> bool
        ensures { (t : Table) → AreSupersOf self.entry.under.rows.now t self.entry.supers.now → result ≡ plain.is_declared_below self.entry.under.rows.now t method other }
    {
        match declaring_type(self.under.rows, method) {
            Some(at) => match declaring_type(self.under.rows, other) {
                Some(over) => self.supers.is_above(self.under.rows, at, over),
                None => false,
            },
            None => false,
        }
    }

    // An instance method, and one of its signature, not private, in a type strictly above; where an interface declares the first, the other is
    // public.
    fn is_above_method(self, method: u32, other: u32) -> bool
        ensures { (t : Table) → AreSupersOf self.entry.under.rows.now t self.entry.supers.now → AreSignatures self.entry.under.rows.now t self.entry.callables.now.signatures → role_at self.entry.under.rows.now method ≡ role.Method → role_at self.entry.under.rows.now other ≡ role.Method → result ≡ plain.is_above_method self.entry.under.rows.now t method other }
    {
        let are_same = self.callables.signatures.are_same(method, other);
        if !may_override(self.under.rows, method, other, are_same) {
            return false;
        }
        self.is_declared_below(method, other)
    }

    // The second method is public, protected, or of the package of the first.
    fn is_reachable(self, method: u32, other: u32) -> bool
        ensures { (t : Table) → AreMethods self.entry.under.rows.now t self.entry → result ≡ plain.is_reachable self.entry.under.rows.now method other }
    {
        if is_public(self.under.rows, other) {
            return true;
        }
        if is_protected(self.under.rows, other) {
            return true;
        }
        self.under.places.is_one_package(method, other)
    }

    // The first method overrides the second without another between.
    fn overrides_directly(self, method: u32, other: u32) -> bool
        ensures { (t : Table) → AreMethods self.entry.under.rows.now t self.entry → role_at self.entry.under.rows.now method ≡ role.Method → role_at self.entry.under.rows.now other ≡ role.Method → result ≡ tell.overrides_directly self.entry.under.rows.now t method other }
    {
        if !self.is_reachable(method, other) {
            return false;
        }
        self.is_above_method(method, other)
    }

    // Of these methods, those that one overrides directly go behind the ones that are met, and the others behind the rest.
    fn divide(
        self,
        left: &[u32],
        met: &mut Vec<u32>,
        rest: &mut Vec<u32>,
        method: u32,
    ) -> Result<(), OutOfMemory>
        ensures { (t : Table) → AreMethods self.entry.under.rows.now t self.entry → role_at self.entry.under.rows.now method ≡ role.Method → dispatching.AreMethodRows self.entry.under.rows.now left.now → OnOk result (tell.Divides (tell.overrides_directly self.entry.under.rows.now t) method left.now met.old.items met.new.items rest.old.items rest.new.items) }
    {
        for other in left {
            let is_direct = self.overrides_directly(method, *other);
            put(met, rest, *other, is_direct)?;
        }
        Ok(())
    }

    // The others, where those that one overrides directly go behind the ones that are met.
    fn others(
        self,
        alloc: Global,
        left: &[u32],
        met: &mut Vec<u32>,
        method: u32,
    ) -> Result<Vec<u32>, OutOfMemory>
        ensures { (t : Table) → AreMethods self.entry.under.rows.now t self.entry → role_at self.entry.under.rows.now method ≡ role.Method → dispatching.AreMethodRows self.entry.under.rows.now left.now → IfOk result (λ rest. tell.Divides (tell.overrides_directly self.entry.under.rows.now t) method left.now met.old.items met.new.items [] rest.items) }
    {
        let mut rest = Vec::new(alloc);
        self.divide(left, met, &mut rest, method)?;
        Ok(rest)
    }

    // The first method overrides the second through others (JLS 8.4.8.1).
    fn overrides_through(self, alloc: Global, method: u32, other: u32) -> Result<bool, OutOfMemory>
        ensures { (t : Table) → AreMethods self.entry.under.rows.now t self.entry → role_at self.entry.under.rows.now method ≡ role.Method → IfOk result (λ is. Decides is (Reaches (tell.OverridesDirectly self.entry.under.rows.now t) method other)) }
    {
        let name = self.under.places.name(method);
        let like = self.declared.by_name(alloc, name)?;
        let mut met = Vec::new(alloc);
        let mut left = self.others(alloc, &like, &mut met, method)?;
        for turn in 0..like.len() {
            let Some(next) = item_at(&met, turn) else {
                return Ok(false);
            };
            if next == other {
                return Ok(true);
            }
            left = self.others(alloc, &left, &mut met, next)?;
        }
        Ok(false)
    }

    /// The first method overrides the second, inherited or not. Both rows are methods.
    pub fn overrides(self, alloc: Global, method: u32, other: u32) -> Result<bool, OutOfMemory>
        ensures { (t : Table) → AreMethods self.entry.under.rows.now t self.entry → role_at self.entry.under.rows.now method ≡ role.Method → role_at self.entry.under.rows.now other ≡ role.Method → IfOk result (λ is. Decides is (Overrides self.entry.under.rows.now t method other)) }
    {
        if !self.is_above_method(method, other) {
            return Ok(false);
        }
        if self.is_reachable(method, other) {
            return Ok(true);
        }
        let is = self.overrides_through(alloc, method, other)?;
        Ok(is)
    }

    // The type declares a method of the signature.
    fn is_declared_like(self, alloc: Global, at: u32, method: u32) -> Result<bool, OutOfMemory>
        ensures { (t : Table) → AreMethods self.entry.under.rows.now t self.entry → role_at self.entry.under.rows.now method ≡ role.Method → IfOk result (λ is. Decides is (dispatching.DeclaresLike self.entry.under.rows.now t at method)) }
    {
        let own = self.callables.declared_like(alloc, at, method)?;
        Ok(!own.is_empty())
    }

    // The type may inherit the method: it is not private, and without an access modifier only inside its package.
    fn can_inherit(self, at: u32, method: u32) -> bool
        ensures { (t : Table) → AreMethods self.entry.under.rows.now t self.entry → Decides result (CanInherit self.entry.under.rows.now at method) }
    {
        if is_private(self.under.rows, method) {
            return false;
        }
        self.is_reachable(at, method)
    }

    // Stamps the supertypes of a type that pass the method on.
    fn mark_supers(
        self,
        alloc: Global,
        met: &mut Stamps,
        at: u32,
        method: u32,
    ) -> Result<(), OutOfMemory>
        ensures { (t : Table) (bound : ℕ) → AreMethods self.entry.under.rows.now t self.entry → IsStamping met.old bound → OnOk result (dispatching.IsMarked self.entry.under.rows.now t at method met.old met.new bound) }
    {
        let supers = self.supers.direct().rows(alloc, at, 0)?;
        for over in &supers {
            mark_if(self.under.rows, met, *over, method);
        }
        Ok(())
    }

    // A type that is stamped declares the method; or else the supertypes from which it has it are stamped (JLS 8.4.8).
    fn visit(
        self,
        alloc: Global,
        met: &mut Stamps,
        at: u32,
        method: u32,
    ) -> Result<bool, OutOfMemory>
        ensures { (t : Table) → AreMethods self.entry.under.rows.now t self.entry → role_at self.entry.under.rows.now method ≡ role.Method → IsStamping met.old (length self.entry.under.rows.now) → IfOk result (λ is. dispatching.IsVisited self.entry.under.rows.now t at method met.old met.new (length self.entry.under.rows.now) is) }
    {
        if !met.has(at) {
            return Ok(false);
        }
        if is_declared_in(self.under.rows, at, method) {
            return Ok(true);
        }
        if !self.can_inherit(at, method) {
            return Ok(false);
        }
        let is_replaced = self.is_declared_like(alloc, at, method)?;
        if is_replaced {
            return Ok(false);
        }
        self.mark_supers(alloc, met, at, method)?;
        Ok(false)
    }

    // A class has the method as a member: it comes down to it by supertypes none of which declares one of its signature but the one that
    // declares it (JLS 8.4.8). From the last type in the order back, each is seen before its supertypes.
    fn is_member(self, alloc: Global, class: u32, method: u32) -> Result<bool, OutOfMemory>
        ensures { (t : Table) → AreMethods self.entry.under.rows.now t self.entry → IsClass self.entry.under.rows.now class → role_at self.entry.under.rows.now method ≡ role.Method → IfOk result (λ is. Decides is (MemberOf self.entry.under.rows.now t class method)) }
    {
        let mut met = Stamps::new(alloc, self.under.rows.len())?;
        let _ = met.add(class);
        let order = self.supers.order();
        for turn in 0..order.len() {
            let at = order[order.len() - 1 - turn];
            let is_found = self.visit(alloc, &mut met, at, method)?;
            if is_found {
                return Ok(true);
            }
        }
        Ok(false)
    }

    // A method of an interface above the class.
    fn is_of_interface_above(self, class: u32, method: u32) -> bool
        ensures { (t : Table) → AreSupersOf self.entry.under.rows.now t self.entry.supers.now → result ≡ tell.is_of_interface_above self.entry.under.rows.now t class method }
    {
        match declaring_type(self.under.rows, method) {
            Some(over) => {
                is_interface(self.under.rows, over)
                    && self.supers.is_above(self.under.rows, class, over)
            }
            None => false,
        }
    }

    // A method of an interface above the class, and a public method of its signature.
    fn is_like_of_interface(self, class: u32, method: u32, other: u32) -> bool
        ensures { (t : Table) → AreMethods self.entry.under.rows.now t self.entry → role_at self.entry.under.rows.now method ≡ role.Method → role_at self.entry.under.rows.now other ≡ role.Method → Decides result (dispatching.IsLikeOfInterface self.entry.under.rows.now t class method other) }
    {
        if !is_public(self.under.rows, method) {
            return false;
        }
        if !self.is_of_interface_above(class, other) {
            return false;
        }
        self.callables.signatures.are_same(method, other)
    }

    // A method of an interface above the class, and a public member of the class of its signature.
    fn implements(
        self,
        alloc: Global,
        class: u32,
        method: u32,
        other: u32,
    ) -> Result<bool, OutOfMemory>
        ensures { (t : Table) → AreMethods self.entry.under.rows.now t self.entry → IsClass self.entry.under.rows.now class → role_at self.entry.under.rows.now method ≡ role.Method → role_at self.entry.under.rows.now other ≡ role.Method → IfOk result (λ is. Decides is (Implements self.entry.under.rows.now t class method other)) }
    {
        if !self.is_like_of_interface(class, method, other) {
            return Ok(false);
        }
        let is = self.is_member(alloc, class, method)?;
        Ok(is)
    }

    // A method serves a call of another on an object of the class.
    fn serves(
        self,
        alloc: Global,
        class: u32,
        called: u32,
        method: u32,
    ) -> Result<bool, OutOfMemory>
        ensures { (t : Table) → AreMethods self.entry.under.rows.now t self.entry → IsClass self.entry.under.rows.now class → role_at self.entry.under.rows.now method ≡ role.Method → role_at self.entry.under.rows.now called ≡ role.Method → IfOk result (λ is. Decides is (Serves self.entry.under.rows.now t class called method)) }
    {
        if method == called {
            return Ok(true);
        }
        let is_overriding = self.overrides(alloc, method, called)?;
        if is_overriding {
            return Ok(true);
        }
        let is = self.implements(alloc, class, method, called)?;
        Ok(is)
    }

    // The last of these methods that serves the call.
    fn last_serving(
        self,
        alloc: Global,
        class: u32,
        called: u32,
        all: &[u32],
    ) -> Result<Option<u32>, OutOfMemory>
        ensures { (t : Table) → AreMethods self.entry.under.rows.now t self.entry → IsClass self.entry.under.rows.now class → role_at self.entry.under.rows.now called ≡ role.Method → dispatching.AreMethodRows self.entry.under.rows.now all.now → IfOk result (λ last. dispatching.IsLastOf (Serves self.entry.under.rows.now t class called) None all.now last) }
    {
        let mut last = None;
        for method in all {
            let is_serving = self.serves(alloc, class, called, *method)?;
            last = latest(last, *method, is_serving);
        }
        Ok(last)
    }

    // The first method in the text of a body that serves the call.
    fn first_serving(
        self,
        alloc: Global,
        class: u32,
        called: u32,
        declaring: u32,
    ) -> Result<Option<u32>, OutOfMemory>
        ensures { (t : Table) → AreMethods self.entry.under.rows.now t self.entry → IsClass self.entry.under.rows.now class → role_at self.entry.under.rows.now called ≡ role.Method → IfOk result (λ first. dispatching.IsFirstServing self.entry.under.rows.now t class called declaring first) }
    {
        let like = self.callables.declared_like(alloc, declaring, called)?;
        let found = self.last_serving(alloc, class, called, &like)?;
        let is_own = is_declared_in(self.under.rows, declaring, called);
        match found {
            Some(method) => Ok(Some(method)),
            None => Ok(latest(None, called, is_own)),
        }
    }

    // The method that a call finds from a class up its superclasses.
    fn found_from(self, alloc: Global, class: u32, called: u32) -> Result<u32, OutOfMemory>
        ensures { (t : Table) → AreMethods self.entry.under.rows.now t self.entry → IsClass self.entry.under.rows.now class → role_at self.entry.under.rows.now called ≡ role.Method → IfOk result (λ method. FoundFrom self.entry.under.rows.now t class called class method) }
    {
        let turns = one_more(self.supers.order());
        let mut declaring = class;
        for _turn in 0..turns {
            let first = self.first_serving(alloc, class, called, declaring)?;
            if let Some(method) = first {
                return Ok(method);
            }
            match self.supers.superclass(declaring) {
                Some(over) => declaring = over,
                None => return Ok(called),
            }
        }
        Ok(called)
    }

    /// The method that a call of a method finds in a class, if the class has the method (JLS 15.12.4.4). Of methods of one body the first in its
    /// text is found.
    pub fn dispatch(
        self,
        alloc: Global,
        class: u32,
        method: u32,
    ) -> Result<Option<u32>, OutOfMemory>
        ensures { (t : Table) → AreMethods self.entry.under.rows.now t self.entry → IfOk result (λ found. dispatching.IsFoundAs self.entry.under.rows.now t class method found) }
    {
        if !is_class(self.under.rows, class) {
            return Ok(None);
        }
        if !self.has_method(class, method) {
            return Ok(None);
        }
        if is_fixed(self.under.rows, method) {
            return Ok(Some(method));
        }
        let found = self.found_from(alloc, class, method)?;
        Ok(Some(found))
    }

    // Adds the methods that a type declares.
    fn add_declared(self, alloc: Global, all: &mut Vec<u32>, at: u32) -> Result<(), OutOfMemory>
        ensures { (t : Table) → AreMethods self.entry.under.rows.now t self.entry → OnOk result (all.new.items ≡ all.old.items ++ dispatching.declared_methods self.entry.under.rows.now at) }
    {
        let methods = self.declared.by_type(alloc, at)?;
        all.extend_from_slice(&methods)?;
        Ok(())
    }

    // The methods that these types declare.
    fn all_declared(self, alloc: Global, overs: &[u32]) -> Result<Vec<u32>, OutOfMemory>
        ensures { (t : Table) → AreMethods self.entry.under.rows.now t self.entry → IfOk result (λ all. all.items ≡ flat_map (dispatching.declared_methods self.entry.under.rows.now) overs.now) }
    {
        let mut all = Vec::new(alloc);
        for over in overs {
            self.add_declared(alloc, &mut all, *over)?;
        }
        Ok(all)
    }

    /// The methods that a class has, as they rise, each once.
    pub fn methods_of(self, alloc: Global, class: u32) -> Result<Vec<u32>, OutOfMemory>
        ensures { (t : Table) → AreMethods self.entry.under.rows.now t self.entry → IfOk result (λ all. ListsOnce all.items (Has self.entry.under.rows.now t class)) }
    {
        let overs = self.supers.with_above(alloc, self.under.rows, class)?;
        let mut all = self.all_declared(alloc, &overs)?;
        let out = sorted_once(alloc, &mut all)?;
        Ok(out)
    }

    // Adds what a call of a method of the class finds there, if it has the method.
    fn add_found(
        self,
        alloc: Global,
        all: &mut Vec<Found>,
        class: u32,
        method: u32,
    ) -> Result<(), OutOfMemory>
        ensures { (t : Table) → AreMethods self.entry.under.rows.now t self.entry → OnOk result (dispatching.AddsFound self.entry.under.rows.now t class method all.old.items all.new.items) }
    {
        let found = self.dispatch(alloc, class, method)?;
        push_found(all, class, method, found)?;
        Ok(())
    }

    // What calls of these methods find in the class.
    fn all_found(
        self,
        alloc: Global,
        class: u32,
        methods: &[u32],
    ) -> Result<Vec<Found>, OutOfMemory>
        ensures { (t : Table) → AreMethods self.entry.under.rows.now t self.entry → ListsOnce methods.now (Has self.entry.under.rows.now t class) → IfOk result (λ all. dispatching.AreFoundIn self.entry.under.rows.now t class all.items) }
    {
        let mut all = Vec::new(alloc);
        for method in methods {
            self.add_found(alloc, &mut all, class, *method)?;
        }
        Ok(all)
    }

    /// What calls of the methods of a class find there, as the methods rise.
    pub fn found_in(self, alloc: Global, class: u32) -> Result<Vec<Found>, OutOfMemory>
        ensures { (t : Table) → AreMethods self.entry.under.rows.now t self.entry → IfOk result (λ all. dispatching.AreFoundIn self.entry.under.rows.now t class all.items) }
    {
        let methods = self.methods_of(alloc, class)?;
        let all = self.all_found(alloc, class, &methods)?;
        Ok(all)
    }
}
