// The members of the types of a program (JLS 8.2, 9.2).
ghost use Rattle.std.specs.Prelude.{◌≡◌, ◌&&◌, if◌then◌else◌, not, true, [], length, Some, Decides, IfOk, OnOk};
ghost use Rattle.jr_tree.specs.declared.label.Role.TheVariants as role;
ghost use Rattle.jr_tree.specs.Rows as all_rows;
ghost use Rattle.jr_tree.specs.Rows.{Rows};
ghost use Rattle.jr_defs.specs.Referents.{Table, entries};
ghost use Rattle.jr_defs.specs.Declarations.{IsInterface};
ghost use Rattle.jr_defs.specs.Enclosing.{DeclaredIn};
ghost use Rattle.jr_defs.specs.Members.{MemberOf};
ghost use Rattle.jr_defs.specs.Supertypes.{Above};
ghost use Rattle.jr_plain.specs.Enclosing.{is_constructor_of};
ghost use Rattle.jr_plain.specs.Modifiers as modifiers;
ghost use Rattle.jr_plain.specs.Supertypes as supertypes;
ghost use Rattle.jr_places.specs.Places.{ArePlaces};
ghost use Rattle.jr_supers.specs.Signatures.{AreSignatures};
ghost use Rattle.jr_supers.specs.Supers.{AreSupersOf};
ghost use Rattle.jr_supers.specs.Tabled.{IsSized, is_callable};
ghost use Rattle.jr_members.specs.declared.declared.MemberKind.TheVariants as kinds;
ghost use Rattle.jr_members.specs.Each as each;
ghost use Rattle.jr_members.specs.Gathered as gather;
ghost use Rattle.jr_members.specs.Held as held;
ghost use Rattle.jr_members.specs.Held.{role_of_kind, IsHeldAs, IsMemberAs};
ghost use Rattle.jr_members.specs.Keys as keys;
ghost use Rattle.jr_members.specs.Sources as given;
ghost use Rattle.jr_members.specs.Worlds as tell;

use crate::callables::Callables;
use crate::declared::MemberKind;
use crate::lists::{has, push_if};
use crate::named::{Named, Sources};
use jr_base::OutOfMemory;
use jr_places::{Stamps, declaring_type, is_interface, is_public, is_static, role_at};
use jr_supers::{Signatures, Supers, Tabled};
use jr_tree::{Role, Row};
use std::alloc::Global;

/// Members of the three kinds.
#[derive(Drop)]
struct Kinds {
    fields: Named,
    types: Named,
    methods: Named,
}

/// The members of the types of a program under a table, by kind and name.
#[derive(Drop)]
pub struct Members {
    kinds: Kinds,
    callables: Callables,
}

/// Rows under a table, with the supertypes and the members that they have there.
#[derive(Clone, Copy)]
pub struct World<'a> {
    pub under: Tabled<'a>,
    pub supers: &'a Supers,
    pub members: &'a Members,
}

impl Kinds {
    fn of(
        alloc: Global,
        under: Tabled,
        supers: &Supers,
        signatures: &Signatures,
    ) -> Result<Kinds, OutOfMemory>
        ensures { (t : Table) → given.AreSeen under.entry.rows.now t under.entry.places.now supers.now → AreSignatures under.entry.rows.now t signatures.now → IfOk result (λ kinds. tell.AreKinds under.entry.rows.now t supers.now kinds) }
    {
        let mut met = Stamps::new(alloc, under.rows.len())?;
        let sources = Sources {
            under,
            supers,
            signatures,
        };
        let fields = Named::of(alloc, sources, &mut met, MemberKind::Field)?;
        let types = Named::of(alloc, sources, &mut met, MemberKind::Type)?;
        let methods = Named::of(alloc, sources, &mut met, MemberKind::Method)?;
        Ok(Kinds {
            fields,
            types,
            methods,
        })
    }
}

impl Members {
    /// The members under a table, whose supertypes should have no cycle.
    pub fn of(alloc: Global, under: Tabled, supers: &Supers) -> Result<Members, OutOfMemory>
        ensures { IsSized under.entry.rows.now → given.AreSeen under.entry.rows.now (entries under.entry.table.now) under.entry.places.now supers.now → IfOk result (λ members. tell.AreMembersOf under.entry.rows.now (entries under.entry.table.now) supers.now members) }
    {
        let callables = Callables::of(alloc, under)?;
        let kinds = Kinds::of(alloc, under, supers, &callables.signatures)?;
        Ok(Members { kinds, callables })
    }

    /// Member types alone, of no type yet.
    pub fn of_types(alloc: Global, under: Tabled) -> Result<Members, OutOfMemory>
        ensures declared { ArePlaces under.entry.rows.now under.entry.places.now → IfOk result (λ members. keys.AreDeclared under.entry.rows.now kinds.Type members.kinds.types.declared) }
        ensures none { IfOk result (λ members. members.kinds.types.lists ≡ []) }
    {
        Ok(Members {
            kinds: Kinds {
                fields: Named::new(alloc, MemberKind::Field),
                types: Named::declared(alloc, under, MemberKind::Type)?,
                methods: Named::new(alloc, MemberKind::Method),
            },
            callables: Callables::new(alloc, Signatures::none(alloc)),
        })
    }

    /// Adds the member types of one type more, behind those of its supertypes.
    pub fn add_types_of(
        &mut self,
        alloc: Global,
        under: Tabled,
        supers: &Supers,
        met: &mut Stamps,
        over: u32,
    ) -> Result<(), OutOfMemory>
        ensures { (t : Table) → given.AreSeen under.entry.rows.now t under.entry.places.now supers.now → gather.CanAddTo under.entry.rows.now t supers.now kinds.Type self.old.kinds.types met.old over → OnOk result (gather.AddsType under.entry.rows.now t supers.now kinds.Type over self.old.kinds.types self.new.kinds.types met.new) }
    {
        let sources = Sources {
            under,
            supers,
            signatures: &self.callables.signatures,
        };
        self.kinds.types.add_type(alloc, sources, met, over)
    }

    /// The signatures of methods and constructors.
    pub fn signatures(&self) -> &Signatures
        ensures { result.now ≡ self.now.callables.signatures }
    {
        &self.callables.signatures
    }

    /// Methods by their signatures, and constructors.
    pub fn callables(&self) -> &Callables
        ensures { result.now ≡ self.now.callables }
    {
        &self.callables
    }

    /// The constructors of a class, from the last back.
    pub fn constructors(&self, alloc: Global, over: u32) -> Result<Vec<u32>, OutOfMemory>
        ensures { (p : Rows) → keys.AreCallables p self.now.callables → IfOk result (λ rows. rows.items ≡ keys.falling (length p) (is_constructor_of p over)) }
    {
        self.callables.constructors(alloc, over)
    }

    /// The methods that a type declares with the signature of a method, from the last back.
    pub fn declared_like(&self, alloc: Global, over: u32, at: u32) -> Result<Vec<u32>, OutOfMemory>
        ensures { (p : Rows) (t : Table) → keys.AreCallables p self.now.callables → AreSignatures p t self.now.callables.signatures → is_callable (all_rows.role_at p at) ≡ true → IfOk result (λ rows. rows.items ≡ keys.falling (length p) (keys.is_declared_like p t over at)) }
    {
        self.callables.declared_like(alloc, over, at)
    }

    /// The members of one kind.
    pub fn kind(&self, kind: MemberKind) -> &Named
        ensures { result.now ≡ tell.kind_in self.now kind }
    {
        match kind {
            MemberKind::Field => &self.kinds.fields,
            MemberKind::Type => &self.kinds.types,
            MemberKind::Method => &self.kinds.methods,
        }
    }
}

/// The kind of member that a role is.
pub fn kind_of(role: Role) -> Option<MemberKind>
    ensures { result ≡ held.kind_of role }
{
    match role {
        Role::Field => Some(MemberKind::Field),
        Role::Type => Some(MemberKind::Type),
        Role::Method => Some(MemberKind::Method),
        _ => None,
    }
}

// A public instance method.
fn is_public_instance(rows: &[Row], at: u32) -> bool
    ensures { result ≡ (modifiers.is_public rows.now at && not (modifiers.is_static rows.now at)) }
{
    is_public(rows, at) && !is_static(rows, at)
}

// The body of the type declares the member.
fn is_declared_in(rows: &[Row], over: u32, at: u32) -> bool
    ensures { Decides result (DeclaredIn rows.now over at) }
{
    match declaring_type(rows, at) {
        Some(found) => found == over,
        None => false,
    }
}

// The kind is that of methods, and the type is an interface.
fn is_of_interface(rows: &[Row], kind: MemberKind, over: u32) -> bool
    ensures { result ≡ tell.is_of_interface rows.now kind over }
{
    match kind {
        MemberKind::Method => is_interface(rows, over),
        MemberKind::Field => false,
        MemberKind::Type => false,
    }
}

// Puts a number behind the list, where it is such and not there.
fn push_other(all: &mut Vec<u32>, is_such: bool, at: u32) -> Result<(), OutOfMemory>
    ensures { OnOk result (all.new.items ≡ (if is_such then each.with_new all.old.items at else all.old.items)) }
{
    if !is_such {
        return Ok(());
    }
    let is_there = has(all, at);
    push_if(all, !is_there, at)
}

impl<'a> World<'a> {
    /// The rows.
    pub fn rows(self) -> &'a [Row] {
        self.under.rows
    }

    /// The members of a type that have a name, given by its number, each once (JLS 8.2, 9.2).
    pub fn named(
        self,
        alloc: Global,
        kind: MemberKind,
        over: u32,
        name: u32,
    ) -> Result<Vec<u32>, OutOfMemory>
        ensures { (t : Table) → tell.IsWorld t self.entry → IfOk result (λ all. each.ListsEach all.items (IsMemberAs self.entry.under.rows.now t kind over name)) }
    {
        let mut found = self
            .members
            .kind(kind)
            .of_name(alloc, self.under, self.supers, over, name)?;
        self.push_of_object(alloc, kind, over, name, &mut found)?;
        Ok(found)
    }

    // An interface has the public methods of Object besides, but those that it or an interface above declares (JLS 9.2).
    fn push_of_object(
        self,
        alloc: Global,
        kind: MemberKind,
        over: u32,
        name: u32,
        found: &mut Vec<u32>,
    ) -> Result<(), OutOfMemory>
        ensures { (t : Table) → tell.IsWorld t self.entry → each.ListsEach found.old.items (IsHeldAs self.entry.under.rows.now t kind over name) → OnOk result (each.ListsEach found.new.items (IsMemberAs self.entry.under.rows.now t kind over name)) }
    {
        if !is_of_interface(self.under.rows, kind, over) {
            return Ok(());
        }
        match self.supers.object() {
            Some(object) => self.push_from_object(alloc, object, over, name, found),
            None => Ok(()),
        }
    }

    // The same, of an interface and the class Object.
    fn push_from_object(
        self,
        alloc: Global,
        object: u32,
        over: u32,
        name: u32,
        found: &mut Vec<u32>,
    ) -> Result<(), OutOfMemory>
        ensures { (t : Table) → tell.IsWorld t self.entry → self.entry.supers.now.direct.object ≡ Some object → IsInterface self.entry.under.rows.now over → each.ListsEach found.old.items (IsHeldAs self.entry.under.rows.now t kinds.Method over name) → OnOk result (each.ListsEach found.new.items (IsMemberAs self.entry.under.rows.now t kinds.Method over name)) }
    {
        let own = self.members.kinds.methods.own(alloc, object, name)?;
        self.push_methods(alloc, over, &own, found)
    }

    // Of these methods, those that are public instance methods and that neither the type nor an interface above it declares.
    fn push_methods(
        self,
        alloc: Global,
        over: u32,
        own: &[u32],
        found: &mut Vec<u32>,
    ) -> Result<(), OutOfMemory>
        ensures { (t : Table) → tell.IsWorld t self.entry → given.AreOfKind self.entry.under.rows.now kinds.Method own.now → each.StandOnce found.old.items → OnOk result (tell.AddsLeft self.entry.under.rows.now t over own.now found.old.items found.new.items) }
    {
        if own.is_empty() {
            return Ok(());
        }
        let above = self.supers.with_above(alloc, self.under.rows, over)?;
        self.push_left(alloc, &above, own, found)
    }

    // The same, where these are the type and those above it.
    fn push_left(
        self,
        alloc: Global,
        above: &[u32],
        own: &[u32],
        found: &mut Vec<u32>,
    ) -> Result<(), OutOfMemory>
        ensures { (t : Table) → tell.IsWorld t self.entry → given.AreOfKind self.entry.under.rows.now kinds.Method own.now → each.StandOnce found.old.items → OnOk result (tell.IsAddingLeft self.entry.under.rows.now t above.now own.now found.old.items found.new.items []) }
    {
        for at in own {
            let is_such = self.is_public_left(alloc, above, *at)?;
            push_other(found, is_such, *at)?;
        }
        Ok(())
    }

    // A public instance method that none of these interfaces declares.
    fn is_public_left(self, alloc: Global, above: &[u32], at: u32) -> Result<bool, OutOfMemory>
        ensures { (t : Table) → tell.IsWorld t self.entry → all_rows.role_at self.entry.under.rows.now at ≡ role.Method → IfOk result (λ is. Decides is (tell.IsPublicLeft self.entry.under.rows.now t above.now at)) }
    {
        if !is_public_instance(self.under.rows, at) {
            return Ok(false);
        }
        self.is_left_above(alloc, above, at)
    }

    // None of these interfaces declares a method of the signature.
    fn is_left_above(self, alloc: Global, above: &[u32], at: u32) -> Result<bool, OutOfMemory>
        ensures { (t : Table) → tell.IsWorld t self.entry → all_rows.role_at self.entry.under.rows.now at ≡ role.Method → IfOk result (λ is. Decides is (tell.IsLeftBy self.entry.under.rows.now t above.now at)) }
    {
        for over in above {
            let is_replaced = self.is_replaced(alloc, *over, at)?;
            if is_replaced {
                return Ok(false);
            }
        }
        Ok(true)
    }

    // The type is an interface, and declares a method of the signature.
    fn is_replaced(self, alloc: Global, over: u32, at: u32) -> Result<bool, OutOfMemory>
        ensures { (t : Table) → tell.IsWorld t self.entry → all_rows.role_at self.entry.under.rows.now at ≡ role.Method → IfOk result (λ is. Decides is (tell.IsReplacedBy self.entry.under.rows.now t at over)) }
    {
        if !is_interface(self.under.rows, over) {
            return Ok(false);
        }
        let like = self.members.declared_like(alloc, over, at)?;
        Ok(!like.is_empty())
    }

    /// The declaration is a member of the type.
    pub fn is_member(self, alloc: Global, over: u32, at: u32) -> Result<bool, OutOfMemory>
        ensures { (t : Table) → tell.IsWorld t self.entry → IfOk result (λ is. Decides is (MemberOf self.entry.under.rows.now t over at)) }
    {
        if is_declared_in(self.under.rows, over, at) {
            return Ok(true);
        }
        match kind_of(role_at(self.under.rows, at)) {
            Some(kind) => self.is_named(alloc, kind, over, at),
            None => Ok(false),
        }
    }

    // The declaration, of this kind, is one of the members of the type with its name.
    fn is_named(
        self,
        alloc: Global,
        kind: MemberKind,
        over: u32,
        at: u32,
    ) -> Result<bool, OutOfMemory>
        ensures { (t : Table) → tell.IsWorld t self.entry → all_rows.role_at self.entry.under.rows.now at ≡ role_of_kind kind → IfOk result (λ is. Decides is (MemberOf self.entry.under.rows.now t over at)) }
    {
        let name = self.under.places.name(at);
        let all = self.named(alloc, kind, over, name)?;
        Ok(has(&all, at))
    }

    /// The type `over` stands strictly above the type `at`.
    pub fn is_above(self, at: u32, over: u32) -> bool
        ensures plain { (t : Table) → AreSupersOf self.entry.under.rows.now t self.entry.supers.now → result ≡ supertypes.is_above self.entry.under.rows.now t at over }
        ensures above { (t : Table) → AreSupersOf self.entry.under.rows.now t self.entry.supers.now → Decides result (Above self.entry.under.rows.now t at over) }
    {
        self.supers.is_above(self.under.rows, at, over)
    }
}
