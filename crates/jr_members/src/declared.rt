// The members of one kind that the bodies of types declare, by type and name (JLS 8.2).
ghost use Rattle.std.specs.Prelude.{◌≡◌, ◌++◌, ◌+◌, ◌<◌, [], length, flat_map, option_map, IfOk, OnOk};
ghost use Rattle.jr_tree.specs.Rows as all_rows;
ghost use Rattle.jr_tree.specs.Rows.{Rows};
ghost use Rattle.jr_plain.specs.Search.{any_below};
ghost use Rattle.jr_places.specs.Names.{name_row};
ghost use Rattle.jr_places.specs.Places.{ArePlaces};
ghost use Rattle.jr_members.specs.Keys as tell;
ghost use Rattle.jr_members.specs.declared.declared.MemberKind.{MemberKind as KindOf};

use jr_base::OutOfMemory;
use jr_places::{Chains, Entry, declaring_type, role_at};
use jr_supers::Tabled;
use jr_tree::{Role, Row};
use std::alloc::Global;

/// Fields, member types and methods, which have names apart from each other.
#[derive(Clone, Copy, Debug, PartialEq, Eq)]
pub enum MemberKind {
    Field,
    Type,
    Method,
}

/// The members of one kind that the bodies of types declare.
#[derive(Drop)]
pub struct Declared {
    pub kind: MemberKind,
    /// Under the keys of the type and the name.
    own: Chains,
    /// Under the key of the type and 0.
    by_type: Chains,
    /// Under the key of the name and 0.
    by_name: Chains,
}

fn is_of(all: &[Row], kind: MemberKind, at: u32) -> bool
    ensures { result ≡ tell.is_of all.now kind at }
{
    match kind {
        MemberKind::Field => match role_at(all, at) {
            Role::Field => true,
            _ => false,
        },
        MemberKind::Type => match role_at(all, at) {
            Role::Type => true,
            _ => false,
        },
        MemberKind::Method => match role_at(all, at) {
            Role::Method => true,
            _ => false,
        },
    }
}

// The type that declares the row, if the row is of the kind.
fn holder_of(all: &[Row], kind: MemberKind, at: u32) -> Option<u32>
    ensures { result ≡ tell.holder_of all.now kind at }
{
    if is_of(all, kind, at) {
        declaring_type(all, at)
    } else {
        None
    }
}

// The row under the key of what holds it and a name.
pub fn entry_under(holder: Option<u32>, second: u32, row: u32) -> Option<Entry>
    ensures { result ≡ option_map (λ c. tell.entry_for c second row) holder }
{
    match holder {
        Some(first) => Some(Entry { first, second, row }),
        None => None,
    }
}

// The row under its name, if something holds it.
fn entry_named(holder: Option<u32>, name: u32, row: u32) -> Option<Entry>
    ensures { result ≡ option_map (λ c. tell.entry_for name 0 row) holder }
{
    match holder {
        Some(_) => Some(Entry {
            first: name,
            second: 0,
            row,
        }),
        None => None,
    }
}

pub fn add_entry(alloc: Global, all: &mut Chains, entry: Option<Entry>) -> Result<(), OutOfMemory>
    ensures { OnOk result (all.new ≡ all.old ++ tell.entry_list entry) }
{
    match entry {
        Some(entry) => all.add(alloc, entry),
        None => Ok(()),
    }
}

impl Declared {
    /// No members.
    pub fn new(alloc: Global, kind: MemberKind) -> Declared
        ensures kind { result.kind ≡ kind }
        ensures own { result.own ≡ [] }
        ensures by_type { result.by_type ≡ [] }
        ensures by_name { result.by_name ≡ [] }
    {
        Declared {
            kind,
            own: Chains::new(alloc),
            by_type: Chains::new(alloc),
            by_name: Chains::new(alloc),
        }
    }

    // One more row, which the type declares if there is one.
    fn add_held(
        &mut self,
        alloc: Global,
        holder: Option<u32>,
        name: u32,
        row: u32,
    ) -> Result<(), OutOfMemory>
        ensures kind { OnOk result (self.new.kind ≡ self.old.kind) }
        ensures own { OnOk result (self.new.own ≡ self.old.own ++ tell.entry_list (option_map (λ c. tell.entry_for c name row) holder)) }
        ensures by_type { OnOk result (self.new.by_type ≡ self.old.by_type ++ tell.entry_list (option_map (λ c. tell.entry_for c 0 row) holder)) }
        ensures by_name { OnOk result (self.new.by_name ≡ self.old.by_name ++ tell.entry_list (option_map (λ c. tell.entry_for name 0 row) holder)) }
    {
        add_entry(alloc, &mut self.own, entry_under(holder, name, row))?;
        add_entry(alloc, &mut self.by_type, entry_under(holder, 0, row))?;
        add_entry(alloc, &mut self.by_name, entry_named(holder, name, row))
    }

    // One more row.
    fn add_row(&mut self, alloc: Global, under: Tabled, at: u32) -> Result<(), OutOfMemory>
        ensures { (kind : KindOf) → ArePlaces under.entry.rows.now under.entry.places.now → at < length under.entry.rows.now → tell.IsDeclaredTo under.entry.rows.now kind at self.old → OnOk result (tell.IsDeclaredTo under.entry.rows.now kind (at + 1) self.new) }
    {
        let holder = holder_of(under.rows, self.kind, at);
        let name = under.places.name(at);
        self.add_held(alloc, holder, name, at)?;
        Ok(())
    }

    // Adds all rows.
    fn add_rows(&mut self, alloc: Global, under: Tabled) -> Result<(), OutOfMemory>
        ensures { (kind : KindOf) → ArePlaces under.entry.rows.now under.entry.places.now → tell.IsDeclaredTo under.entry.rows.now kind 0 self.old → OnOk result (tell.AreDeclared under.entry.rows.now kind self.new) }
    {
        let Ok(count) = u32::try_from(under.rows.len()) else {
            return Err(OutOfMemory);
        };
        for at in 0..count {
            self.add_row(alloc, under, at)?;
        }
        Ok(())
    }

    /// The members of this kind that the bodies declare.
    pub fn of(alloc: Global, under: Tabled, kind: MemberKind) -> Result<Declared, OutOfMemory>
        ensures { ArePlaces under.entry.rows.now under.entry.places.now → IfOk result (λ declared. tell.AreDeclared under.entry.rows.now kind declared) }
    {
        let mut declared = Declared::new(alloc, kind);
        declared.add_rows(alloc, under)?;
        Ok(declared)
    }

    /// What a type declares under a name, from the last back.
    pub fn own(&self, alloc: Global, over: u32, name: u32) -> Result<Vec<u32>, OutOfMemory>
        ensures { (p : Rows) (kind : KindOf) → tell.AreDeclared p kind self.now → IfOk result (λ rows. rows.items ≡ tell.falling (length p) (tell.is_declared_as p kind over name)) }
    {
        self.own.rows(alloc, over, name)
    }

    /// What a type declares, from the last back.
    pub fn by_type(&self, alloc: Global, over: u32) -> Result<Vec<u32>, OutOfMemory>
        ensures { (p : Rows) (kind : KindOf) → tell.AreDeclared p kind self.now → IfOk result (λ rows. rows.items ≡ tell.falling (length p) (tell.is_declared_by p kind over)) }
    {
        self.by_type.rows(alloc, over, 0)
    }

    /// What types declare, each from its last back.
    pub fn by_types(&self, alloc: Global, types: &[u32]) -> Result<Vec<u32>, OutOfMemory>
        ensures { (p : Rows) (kind : KindOf) → tell.AreDeclared p kind self.now → IfOk result (λ rows. rows.items ≡ flat_map (λ c. tell.falling (length p) (tell.is_declared_by p kind c)) types.now) }
    {
        let mut all = Vec::new(alloc);
        for over in types {
            self.push_type(alloc, *over, &mut all)?;
        }
        Ok(all)
    }

    // Adds what a type declares.
    fn push_type(&self, alloc: Global, over: u32, all: &mut Vec<u32>) -> Result<(), OutOfMemory>
        ensures { (p : Rows) (kind : KindOf) → tell.AreDeclared p kind self.now → OnOk result (all.new.items ≡ all.old.items ++ tell.falling (length p) (tell.is_declared_by p kind over)) }
    {
        let own = self.by_type(alloc, over)?;
        all.extend_from_slice(&own)?;
        Ok(())
    }

    /// The declared members that have a name, from the last in the program back.
    pub fn by_name(&self, alloc: Global, name: u32) -> Result<Vec<u32>, OutOfMemory>
        ensures { (p : Rows) (kind : KindOf) → tell.AreDeclared p kind self.now → IfOk result (λ rows. rows.items ≡ tell.falling (length p) (tell.is_named p kind name)) }
    {
        self.by_name.rows(alloc, name, 0)
    }

    /// Whether any member of the program has the name.
    pub fn has_name(&self, name: u32) -> bool
        ensures { (p : Rows) (kind : KindOf) → tell.AreDeclared p kind self.now → result ≡ any_below (length p) (tell.is_named p kind name) }
    {
        self.by_name.last(name, 0).is_some()
    }
}
