// The members of one kind by their names, declared and inherited (JLS 8.2, 8.3, 8.4.8, 8.5).
ghost use Rattle.std.specs.Prelude.{◌≡◌, ◌++◌, ◌∷◌, [], ℕ, List, length, filter, Some, Decides, IfOk, OnOk};
ghost use Rattle.jr_tree.specs.Rows.{Rows};
ghost use Rattle.jr_defs.specs.Referents.{Table};
ghost use Rattle.jr_defs.specs.Members.{CanInherit};
ghost use Rattle.jr_plain.specs.Members as members;
ghost use Rattle.jr_plain.specs.Search.{any_below, Lists};
ghost use Rattle.jr_places.specs.Places.{ArePlaces};
ghost use Rattle.jr_places.specs.Stamps.{IsStamping};
ghost use Rattle.jr_members.specs.Each as each;
ghost use Rattle.jr_members.specs.Gathered as gather;
ghost use Rattle.jr_members.specs.Held.{IsHeldAs};
ghost use Rattle.jr_members.specs.Keys as keys;
ghost use Rattle.jr_members.specs.Named as tell;
ghost use Rattle.jr_members.specs.Nearest as near;
ghost use Rattle.jr_members.specs.Sources as given;
ghost use Rattle.jr_members.specs.declared.declared.MemberKind.{MemberKind as KindOf};

use crate::declared::{Declared, MemberKind};
use crate::inheriting::inherited;
use crate::lists::{push_each, push_if};
use crate::nearest::{Lister, Nearest, Outlook};
use crate::wanted::naming_types;
use jr_base::OutOfMemory;
use jr_places::{
    Chains, Entry, Stamps, is_in_interface, is_interface, is_private, is_protected, is_public,
};
use jr_supers::{Signatures, Supers, Tabled};
use jr_tree::Row;
use std::alloc::Global;

/// The members of one kind. A type has a list for each name that it declares, or that comes to it from several supertypes; for all other names
/// it has what its first supertype has, as far as that is inherited.
#[derive(Drop)]
pub struct Named {
    declared: Declared,
    /// The lists, under the keys of the type and the name.
    lists: Chains,
    /// Where the lists stand that are nearest to each type.
    nearest: Nearest,
}

/// What the tables of members are made from.
#[derive(Clone, Copy)]
pub struct Sources<'a> {
    pub under: Tabled<'a>,
    pub supers: &'a Supers,
    pub signatures: &'a Signatures,
}

// The way from a type up to one above it by first supertypes.
#[derive(Clone, Copy)]
struct Way {
    from: u32,
    here: u32,
    /// The last type is not the first.
    has_steps: bool,
    /// All types on it but the last stand in one package.
    is_in_one_package: bool,
    /// Some type on it but the first is an interface.
    has_interface: bool,
}

impl Way {
    // The way from a type to itself.
    fn from(over: u32) -> Way
        ensures { result ≡ tell.way_from over }
    {
        Way {
            from: over,
            here: over,
            has_steps: false,
            is_in_one_package: true,
            has_interface: false,
        }
    }

    // The way from a type with this outlook to one that has a list.
    fn to(over: u32, outlook: Outlook, lister: Lister) -> Way
        ensures { result ≡ near.way_to over outlook.runs lister }
    {
        Way {
            from: over,
            here: lister.at,
            has_steps: over != lister.at,
            is_in_one_package: outlook.runs.of_package == lister.runs.of_package,
            has_interface: outlook.runs.of_classes != lister.runs.of_classes,
        }
    }

    // One type further up.
    fn next(self, under: Tabled, up: u32) -> Way
        ensures { given.ArePlaced under.entry.rows.now under.entry.places.now → result ≡ tell.next_way under.entry.rows.now self up }
    {
        let is_same = under.places.is_one_package(self.from, self.here);
        self.next_by(under.rows, up, is_same)
    }

    // One type further up, where it is told whether the last one is of the package of the first.
    fn next_by(self, rows: &[Row], up: u32, is_same: bool) -> Way
        ensures { result ≡ tell.next_by rows.now self up is_same }
    {
        Way {
            from: self.from,
            here: up,
            has_steps: true,
            is_in_one_package: self.is_in_one_package && is_same,
            has_interface: self.has_interface || is_interface(rows, up),
        }
    }

    // A member of the last type is one of the first, where no type between has a list of its own.
    fn carries(self, under: Tabled, at: u32) -> bool
        ensures { given.ArePlaced under.entry.rows.now under.entry.places.now → result ≡ tell.carries under.entry.rows.now self at }
    {
        let is_same = under.places.is_one_package(self.from, at);
        self.carries_by(under.rows, at, is_same)
    }

    // The same, where it is told whether the member is of the package of the first.
    fn carries_by(self, rows: &[Row], at: u32, is_same: bool) -> bool
        ensures { result ≡ tell.carries_by rows.now self at is_same }
    {
        !self.has_steps
            || (!is_private(rows, at)
                && ((is_public(rows, at)
                    || (is_protected(rows, at) || (self.is_in_one_package && is_same)))
                    && (!self.has_interface || is_in_interface(rows, at))))
    }
}

// The member is not private, and without an access modifier it is told whether it is of the package.
fn is_open(rows: &[Row], at: u32, is_same: bool) -> bool
    ensures { result ≡ tell.is_open rows.now at is_same }
{
    !is_private(rows, at) && (is_public(rows, at) || (is_protected(rows, at) || is_same))
}

/// The type may inherit the member: it is not private, and without an access modifier only inside its package (JLS 8.2).
pub fn can_inherit(under: Tabled, over: u32, at: u32) -> bool
    ensures plain { given.ArePlaced under.entry.rows.now under.entry.places.now → result ≡ members.can_inherit under.entry.rows.now over at }
    ensures inherits { given.ArePlaced under.entry.rows.now under.entry.places.now → Decides result (CanInherit under.entry.rows.now over at) }
{
    let is_same = under.places.is_one_package(over, at);
    is_open(under.rows, at, is_same)
}

// The type has a list for the name.
fn is_listed(lists: &Chains, over: u32, name: u32) -> bool
    ensures { result ≡ tell.has_list lists.now over name }
{
    lists.last(over, name).is_some()
}

// The way up to the nearest type that has a list for the name, or to the last type.
fn way_up(lists: &Chains, under: Tabled, supers: &Supers, over: u32, name: u32) -> Way
    ensures { (t : Table) (kind : KindOf) → given.AreSeen under.entry.rows.now t under.entry.places.now supers.now → given.CanClimb under.entry.rows.now t supers.now kind lists.now over → tell.IsNearest under.entry.rows.now t kind lists.now over name result }
{
    let mut way = Way::from(over);
    for _turn in 0..supers.turns(over) {
        if is_listed(lists, way.here, name) {
            return way;
        }
        match supers.linked(way.here) {
            Some(up) => way = way.next(under, up),
            None => return way,
        }
    }
    way
}

// What of a list the way carries.
fn carried(alloc: Global, under: Tabled, way: Way, all: &[u32]) -> Result<Vec<u32>, OutOfMemory>
    ensures { given.ArePlaced under.entry.rows.now under.entry.places.now → IfOk result (λ found. found.items ≡ filter (tell.carries under.entry.rows.now way) all.now) }
{
    let mut found = Vec::new(alloc);
    for at in all {
        let carries = way.carries(under, *at);
        push_if(&mut found, carries, *at)?;
    }
    Ok(found)
}

// Puts what a list has under the keys of the type and the name.
fn add_all(
    alloc: Global,
    lists: &mut Chains,
    over: u32,
    name: u32,
    all: &[u32],
) -> Result<(), OutOfMemory>
    ensures { OnOk result (lists.new ≡ lists.old ++ tell.entries_for over name all.now) }
{
    for at in all {
        let entry = Entry {
            first: over,
            second: name,
            row: *at,
        };
        lists.add(alloc, entry)?;
    }
    Ok(())
}

impl Named {
    /// No members.
    pub fn new(alloc: Global, kind: MemberKind) -> Named {
        Named {
            declared: Declared::new(alloc, kind),
            lists: Chains::new(alloc),
            nearest: Nearest::new(alloc),
        }
    }

    /// The members of this kind that the bodies declare; no type has a list yet.
    pub fn declared(alloc: Global, under: Tabled, kind: MemberKind) -> Result<Named, OutOfMemory>
        ensures declared { ArePlaces under.entry.rows.now under.entry.places.now → IfOk result (λ named. keys.AreDeclared under.entry.rows.now kind named.declared) }
        ensures none { IfOk result (λ named. named.lists ≡ []) }
        ensures blank { IfOk result (λ named. near.IsBlank named.nearest) }
    {
        Ok(Named {
            declared: Declared::of(alloc, under, kind)?,
            lists: Chains::new(alloc),
            nearest: Nearest::new(alloc),
        })
    }

    /// The members of a type that have a name, but what an interface has of Object, each once (JLS 8.2).
    pub fn of_name(
        &self,
        alloc: Global,
        under: Tabled,
        supers: &Supers,
        over: u32,
        name: u32,
    ) -> Result<Vec<u32>, OutOfMemory>
        ensures { (t : Table) (kind : KindOf) → given.AreSeen under.entry.rows.now t under.entry.places.now supers.now → keys.AreDeclared under.entry.rows.now kind self.now.declared → given.CanClimb under.entry.rows.now t supers.now kind self.now.lists over → near.AreNear under.entry.rows.now t kind self.now.lists self.now.nearest → IfOk result (λ all. each.ListsEach all.items (IsHeldAs under.entry.rows.now t kind over name)) }
    {
        let has_name = self.declared.has_name(name);
        if !has_name {
            return Ok(Vec::new(alloc));
        }
        match self.nearest.outlook(over) {
            Some(outlook) => self.within(alloc, under, outlook, over, name),
            None => self.further_up(alloc, under, supers, over, name),
        }
    }

    // The same, of a type with this outlook.
    fn within(
        &self,
        alloc: Global,
        under: Tabled,
        outlook: Outlook,
        over: u32,
        name: u32,
    ) -> Result<Vec<u32>, OutOfMemory>
        ensures { (t : Table) (kind : KindOf) → given.ArePlaced under.entry.rows.now under.entry.places.now → tell.AreLists under.entry.rows.now t kind self.now.lists → near.AreNear under.entry.rows.now t kind self.now.lists self.now.nearest → near.known_in self.now.nearest over ≡ Some outlook → IfOk result (λ all. each.ListsEach all.items (IsHeldAs under.entry.rows.now t kind over name)) }
    {
        match self.nearest.lister(outlook, name) {
            Some(lister) => self.carried_from(alloc, under, Way::to(over, outlook, lister), name),
            None => Ok(Vec::new(alloc)),
        }
    }

    // The same, of a type whose nearest list is to be looked for.
    fn further_up(
        &self,
        alloc: Global,
        under: Tabled,
        supers: &Supers,
        over: u32,
        name: u32,
    ) -> Result<Vec<u32>, OutOfMemory>
        ensures { (t : Table) (kind : KindOf) → given.AreSeen under.entry.rows.now t under.entry.places.now supers.now → given.CanClimb under.entry.rows.now t supers.now kind self.now.lists over → IfOk result (λ all. each.ListsEach all.items (IsHeldAs under.entry.rows.now t kind over name)) }
    {
        let way = way_up(&self.lists, under, supers, over, name);
        self.carried_from(alloc, under, way, name)
    }

    // The same, by the way to the nearest list.
    fn carried_from(
        &self,
        alloc: Global,
        under: Tabled,
        way: Way,
        name: u32,
    ) -> Result<Vec<u32>, OutOfMemory>
        ensures { (t : Table) (kind : KindOf) (c : ℕ) → given.ArePlaced under.entry.rows.now under.entry.places.now → tell.AreLists under.entry.rows.now t kind self.now.lists → tell.IsNearest under.entry.rows.now t kind self.now.lists c name way → IfOk result (λ all. each.ListsEach all.items (IsHeldAs under.entry.rows.now t kind c name)) }
    {
        let all = self.lists.rows(alloc, way.here, name)?;
        carried(alloc, under, way, &all)
    }

    /// The members that bodies declare.
    pub fn in_bodies(&self) -> &Declared
        ensures { result.now ≡ self.now.declared }
    {
        &self.declared
    }

    /// The declared members that have a name, from the last in the program back.
    pub fn all_of_name(&self, alloc: Global, name: u32) -> Result<Vec<u32>, OutOfMemory>
        ensures { (p : Rows) (kind : KindOf) → keys.AreDeclared p kind self.now.declared → IfOk result (λ rows. rows.items ≡ keys.falling (length p) (keys.is_named p kind name)) }
    {
        self.declared.by_name(alloc, name)
    }

    /// Whether any member of the program has the name.
    pub fn has_name(&self, name: u32) -> bool
        ensures { (p : Rows) (kind : KindOf) → keys.AreDeclared p kind self.now.declared → result ≡ any_below (length p) (keys.is_named p kind name) }
    {
        self.declared.has_name(name)
    }

    /// What a type declares under a name, from the last back.
    pub fn own(&self, alloc: Global, over: u32, name: u32) -> Result<Vec<u32>, OutOfMemory>
        ensures { (p : Rows) (kind : KindOf) → keys.AreDeclared p kind self.now.declared → IfOk result (λ rows. rows.items ≡ keys.falling (length p) (keys.is_declared_as p kind over name)) }
    {
        self.declared.own(alloc, over, name)
    }

    /// What a type declares, from the last back.
    pub fn declared_by(&self, alloc: Global, over: u32) -> Result<Vec<u32>, OutOfMemory>
        ensures { (p : Rows) (kind : KindOf) → keys.AreDeclared p kind self.now.declared → IfOk result (λ rows. rows.items ≡ keys.falling (length p) (keys.is_declared_by p kind over)) }
    {
        self.declared.by_type(alloc, over)
    }

    // Adds to a list, whose items are stamped, what a type inherits of the name from one supertype.
    fn push_inherited(
        &self,
        alloc: Global,
        sources: Sources,
        stamps: &mut Stamps,
        all: &mut Vec<u32>,
        own: &[u32],
        over: u32,
        from: u32,
        name: u32,
    ) -> Result<(), OutOfMemory>
        ensures { (t : Table) (kind : KindOf) (rest : List ℕ) → given.AreSources t kind sources.entry → gather.CanGather sources.entry.under.rows.now t sources.entry.supers.now kind self.now over → gather.IsGatheringIn sources.entry.under.rows.now t kind over name own.now stamps.old all.old.items (from ∷ rest) → OnOk result (gather.IsGatheringIn sources.entry.under.rows.now t kind over name own.now stamps.new all.new.items rest) }
    {
        let found = self.of_name(alloc, sources.under, sources.supers, from, name)?;
        let some = inherited(alloc, self.declared.kind, sources, own, over, from, &found)?;
        push_each(stamps, all, &some)
    }

    // The same, from all supertypes.
    fn push_from(
        &self,
        alloc: Global,
        sources: Sources,
        stamps: &mut Stamps,
        all: &mut Vec<u32>,
        own: &[u32],
        direct: &[u32],
        over: u32,
        name: u32,
    ) -> Result<(), OutOfMemory>
        ensures { (t : Table) (kind : KindOf) → given.AreSources t kind sources.entry → gather.CanGather sources.entry.under.rows.now t sources.entry.supers.now kind self.now over → gather.IsGatheringIn sources.entry.under.rows.now t kind over name own.now stamps.old all.old.items direct.now → OnOk result (gather.IsGatheringIn sources.entry.under.rows.now t kind over name own.now stamps.new all.new.items []) }
    {
        for from in direct {
            self.push_inherited(alloc, sources, stamps, all, own, over, *from, name)?;
        }
        Ok(())
    }

    // What a type declares and inherits under the name.
    fn gathered(
        &self,
        alloc: Global,
        sources: Sources,
        stamps: &mut Stamps,
        over: u32,
        name: u32,
    ) -> Result<Vec<u32>, OutOfMemory>
        ensures listed { (t : Table) (kind : KindOf) → given.AreSources t kind sources.entry → gather.CanGather sources.entry.under.rows.now t sources.entry.supers.now kind self.now over → IsStamping stamps.old (length sources.entry.under.rows.now) → IfOk result (λ all. each.ListsEach all.items (IsHeldAs sources.entry.under.rows.now t kind over name)) }
        ensures counted { (t : Table) (kind : KindOf) → given.AreSources t kind sources.entry → gather.CanGather sources.entry.under.rows.now t sources.entry.supers.now kind self.now over → IsStamping stamps.old (length sources.entry.under.rows.now) → OnOk result (IsStamping stamps.new (length sources.entry.under.rows.now)) }
    {
        let own = self.declared.own(alloc, over, name)?;
        stamps.empty()?;
        let mut all = Vec::new(alloc);
        push_each(stamps, &mut all, &own)?;
        let direct = sources.supers.direct().rows(alloc, over, 0)?;
        self.push_from(alloc, sources, stamps, &mut all, &own, &direct, over, name)?;
        Ok(all)
    }

    // Adds the list of a type for a name, where it has none yet.
    fn add_list(
        &mut self,
        alloc: Global,
        sources: Sources,
        stamps: &mut Stamps,
        over: u32,
        name: u32,
    ) -> Result<(), OutOfMemory>
        ensures { (t : Table) (kind : KindOf) → given.AreSources t kind sources.entry → gather.CanAddTo sources.entry.under.rows.now t sources.entry.supers.now kind self.old stamps.old over → OnOk result (gather.AddsList sources.entry.under.rows.now t sources.entry.supers.now kind over name self.old self.new stamps.new) }
    {
        if is_listed(&self.lists, over, name) {
            return Ok(());
        }
        let all = self.gathered(alloc, sources, stamps, over, name)?;
        add_all(alloc, &mut self.lists, over, name, &all)
    }

    // Adds the lists of a type for the names of these rows.
    fn add_lists(
        &mut self,
        alloc: Global,
        sources: Sources,
        stamps: &mut Stamps,
        over: u32,
        rows: &[u32],
    ) -> Result<(), OutOfMemory>
        ensures { (t : Table) (kind : KindOf) → given.AreSources t kind sources.entry → gather.CanAddTo sources.entry.under.rows.now t sources.entry.supers.now kind self.old stamps.old over → Lists rows.now (gather.IsWantedAs sources.entry.under.rows.now t (given.links_of sources.entry.supers.now) kind over) → OnOk result (gather.AddsLists sources.entry.under.rows.now t sources.entry.supers.now kind over self.old self.new stamps.new) }
    {
        for at in rows {
            let name = sources.under.places.name(*at);
            self.add_list(alloc, sources, stamps, over, name)?;
        }
        Ok(())
    }

    // The rows for whose names a type has a list.
    fn wanted(&self, alloc: Global, sources: Sources, over: u32) -> Result<Vec<u32>, OutOfMemory>
        ensures { (t : Table) (kind : KindOf) → given.AreSources t kind sources.entry → keys.AreDeclared sources.entry.under.rows.now kind self.now.declared → IfOk result (λ rows. Lists rows.items (gather.IsWantedAs sources.entry.under.rows.now t (given.links_of sources.entry.supers.now) kind over)) }
    {
        let types = naming_types(alloc, sources.under.rows, sources.supers, over)?;
        self.declared.by_types(alloc, &types)
    }

    /// Adds the lists of one type, behind those of its supertypes.
    pub fn add_type(
        &mut self,
        alloc: Global,
        sources: Sources,
        stamps: &mut Stamps,
        over: u32,
    ) -> Result<(), OutOfMemory>
        ensures { (t : Table) (kind : KindOf) → given.AreSources t kind sources.entry → gather.CanAddTo sources.entry.under.rows.now t sources.entry.supers.now kind self.old stamps.old over → OnOk result (gather.AddsType sources.entry.under.rows.now t sources.entry.supers.now kind over self.old self.new stamps.new) }
    {
        let rows = self.wanted(alloc, sources, over)?;
        self.add_lists(alloc, sources, stamps, over, &rows)?;
        self.nearest.add(sources.under, sources.supers, over, &rows)
    }

    // Adds the lists of all types, in an order in which supertypes come first.
    fn add_types(
        &mut self,
        alloc: Global,
        sources: Sources,
        stamps: &mut Stamps,
    ) -> Result<(), OutOfMemory>
        ensures { (t : Table) (kind : KindOf) → given.AreSources t kind sources.entry → gather.CanAdd sources.entry.under.rows.now t kind self.old stamps.old → self.old.lists ≡ [] → OnOk result (gather.AddsAll sources.entry.under.rows.now t sources.entry.supers.now kind self.new stamps.new) }
    {
        let order = sources.supers.order();
        for over in order {
            self.add_type(alloc, sources, stamps, *over)?;
        }
        Ok(())
    }

    /// The members of a kind.
    pub fn of(
        alloc: Global,
        sources: Sources,
        stamps: &mut Stamps,
        kind: MemberKind,
    ) -> Result<Named, OutOfMemory>
        ensures { (t : Table) → given.AreSources t kind sources.entry → IsStamping stamps.old (length sources.entry.under.rows.now) → IfOk result (λ named. gather.AddsAll sources.entry.under.rows.now t sources.entry.supers.now kind named stamps.new) }
    {
        let mut named = Named::declared(alloc, sources.under, kind)?;
        named.add_types(alloc, sources, stamps)?;
        Ok(named)
    }
}
