// Members and constructors that a body declares twice, and types in a type of their name (JLS 8.1, 8.3, 8.4.2, 8.5, 8.8.2).
ghost use Rattle.std.specs.Prelude.{◌≡◌, ◌<◌, OnOk, IfOk, Some, false, true, length, []};
ghost use Rattle.jr_tree.specs.declared.label.Role.TheVariants as roles;
ghost use Rattle.jr_tree.specs.Rows.{Rows, name, role_at as role_of_row};
ghost use Rattle.jr_defs.specs.Referents.{Table};
ghost use Rattle.jr_plain.specs.Declarations as declared_as;
ghost use Rattle.jr_plain.specs.Same.{same_role};
ghost use Rattle.jr_plain.specs.Types.{parameters};
ghost use Rattle.jr_places.specs.Numbers.{IsNumbering};
ghost use Rattle.jr_places.specs.Places.{ArePlaces};
ghost use Rattle.jr_supers.specs.Signatures.{AreSignatures};
ghost use Rattle.jr_supers.specs.Tabled.{is_callable};
ghost use Rattle.jr_members.specs.Keys.{entry_of};
ghost use Rattle.jr_name_rules.specs.DeclarationTests as declaring;
ghost use Rattle.jr_member_faults.specs.Headers as keyed;
ghost use Rattle.jr_member_faults.specs.Twice as tell;
ghost use Rattle.jr_member_faults.specs.Views as views;

use jr_base::OutOfMemory;
use jr_members::World;
use jr_places::{
    Chains, Entry, Numbering, Places, constructed_class, declaring_type, is_method, is_type,
    role_at,
};
use jr_supers::{Signatures, with_type};
use jr_tree::{Role, Row};
use std::alloc::Global;

/// What bodies declare in the rows so far.
#[derive(Drop)]
pub struct Declared {
    /// Types and fields, under the type that declares them and their names.
    types: Chains,
    fields: Chains,
    /// Methods, under the type that declares them and the numbers of their signatures.
    methods: Chains,
    /// Constructors, under the class and the numbers of their lists of parameter types.
    constructors: Chains,
    lists: Numbering,
}

// The number of the parameter types of a constructor, of which there are so many.
fn number_types(
    lists: &mut Numbering,
    signatures: &Signatures,
    at: u32,
    count: u32,
) -> Result<Option<u32>, OutOfMemory>
    ensures { (p : Rows) (t : Table) → AreSignatures p t signatures.now → is_callable (role_of_row p at) ≡ true → IsNumbering lists.old → Some count ≡ tell.size_of (parameters p t at) → IfOk result (λ number. tell.NumbersList lists.old lists.new (parameters p t at) number) }
{
    let mut number = Numbering::EMPTY;
    for nth in 0..count {
        let Some(ty) = signatures.parameter(at, nth) else {
            return Ok(None);
        };
        number = with_type(lists, number, ty)?;
    }
    Ok(Some(number))
}

// The number of the parameter types of a constructor, if all are found.
fn number_parameters(
    lists: &mut Numbering,
    signatures: &Signatures,
    at: u32,
) -> Result<Option<u32>, OutOfMemory>
    ensures { (p : Rows) (t : Table) → AreSignatures p t signatures.now → is_callable (role_of_row p at) ≡ true → IsNumbering lists.old → IfOk result (λ number. tell.NumbersList lists.old lists.new (parameters p t at) number) }
{
    let Some(count) = signatures.count(at) else {
        return Ok(None);
    };
    let number = number_types(lists, signatures, at, count)?;
    Ok(number)
}

// The row under a key, where both parts of it are known.
fn entry_under(first: Option<u32>, second: Option<u32>, row: u32) -> Option<Entry>
    ensures { result ≡ entry_of row first second }
{
    match first {
        Some(first) => match second {
            Some(second) => Some(Entry { first, second, row }),
            None => None,
        },
        None => None,
    }
}

fn is_constructor(all: &[Row], at: u32) -> bool
    ensures { result ≡ same_role (role_of_row all.now at) roles.Constructor }
{
    match role_at(all, at) {
        Role::Constructor => true,
        _ => false,
    }
}

// A method goes by the number of its signature, all else by its name.
fn member_number(world: &World, at: u32) -> Option<u32>
    ensures { views.IsNamedWorld world.now → at < length (views.rows_of world.now) → result ≡ tell.member_number (views.rows_of world.now) world.now.members.now.callables.signatures at }
{
    if is_method(world.under.rows, at) {
        world.members.signatures().number(at)
    } else {
        Some(world.under.places.name(at))
    }
}

// A member under the type that declares it.
fn member_entry(world: &World, at: u32) -> Option<Entry>
    ensures { views.IsNamedWorld world.now → at < length (views.rows_of world.now) → result ≡ tell.member_entry (views.rows_of world.now) world.now.members.now.callables.signatures at }
{
    let first = declaring_type(world.under.rows, at);
    let second = member_number(world, at);
    entry_under(first, second, at)
}

/// Something stands under the key.
pub fn is_listed(all: &Chains, entry: Entry) -> bool
    ensures { result ≡ keyed.is_listed all.now entry.first entry.second }
{
    all.last(entry.first, entry.second).is_some()
}

impl Declared {
    /// Nothing.
    pub fn new(alloc: Global) -> Declared
        ensures types { result.types ≡ [] }
        ensures fields { result.fields ≡ [] }
        ensures methods { result.methods ≡ [] }
        ensures constructors { result.constructors ≡ [] }
        ensures lists { IsNumbering result.lists }
    {
        Declared {
            types: Chains::new(alloc),
            fields: Chains::new(alloc),
            methods: Chains::new(alloc),
            constructors: Chains::new(alloc),
            lists: Numbering::new(alloc),
        }
    }

    // A constructor under its class and the number of its parameter types.
    fn constructor_entry(&mut self, world: &World, at: u32) -> Result<Option<Entry>, OutOfMemory>
        ensures numbered { views.IsSignedWorld world.now → same_role (role_of_row (views.rows_of world.now) at) roles.Constructor ≡ true → IsNumbering self.old.lists → IfOk result (λ entry. tell.NumbersConstructor (views.rows_of world.now) (views.table_of world.now) self.old.lists self.new.lists at entry) }
        ensures tables { OnOk result (tell.AreSameTables self.old self.new) }
    {
        let number = number_parameters(&mut self.lists, world.members.signatures(), at)?;
        let class = constructed_class(world.under.rows, at);
        Ok(entry_under(class, number, at))
    }

    /// What a row adds, if it declares a member or constructor.
    pub fn entry(&mut self, world: &World, at: u32) -> Result<Option<Entry>, OutOfMemory>
        ensures found { views.IsNamedWorld world.now → at < length (views.rows_of world.now) → same_role (role_of_row (views.rows_of world.now) at) roles.Constructor ≡ false → IfOk result (λ entry. entry ≡ tell.member_entry (views.rows_of world.now) world.now.members.now.callables.signatures at) }
        ensures numbered { views.IsSignedWorld world.now → same_role (role_of_row (views.rows_of world.now) at) roles.Constructor ≡ true → IsNumbering self.old.lists → IfOk result (λ entry. tell.NumbersConstructor (views.rows_of world.now) (views.table_of world.now) self.old.lists self.new.lists at entry) }
        ensures kept { same_role (role_of_row (views.rows_of world.now) at) roles.Constructor ≡ false → OnOk result (self.new.lists ≡ self.old.lists) }
        ensures tables { OnOk result (tell.AreSameTables self.old self.new) }
    {
        if is_constructor(world.under.rows, at) {
            self.constructor_entry(world, at)
        } else {
            Ok(member_entry(world, at))
        }
    }

    // Something of the role stands under the key.
    fn has_key(&self, role: Role, entry: Entry) -> bool
        ensures { result ≡ keyed.is_listed (tell.entries_for self.now role) entry.first entry.second }
    {
        match role {
            Role::Type => is_listed(&self.types, entry),
            Role::Field => is_listed(&self.fields, entry),
            Role::Method => is_listed(&self.methods, entry),
            Role::Constructor => is_listed(&self.constructors, entry),
            _ => false,
        }
    }

    /// Something of the role is declared so far with the key of the entry.
    pub fn has(&self, role: Role, entry: Option<Entry>) -> bool
        ensures { result ≡ tell.has_entry (tell.entries_for self.now role) entry }
    {
        match entry {
            Some(entry) => self.has_key(role, entry),
            None => false,
        }
    }

    // One more row, of a role.
    fn add_row(&mut self, alloc: Global, role: Role, entry: Entry) -> Result<(), OutOfMemory>
        ensures types { OnOk result (self.new.types ≡ tell.with_entry (same_role role roles.Type) self.old.types (Some entry)) }
        ensures fields { OnOk result (self.new.fields ≡ tell.with_entry (same_role role roles.Field) self.old.fields (Some entry)) }
        ensures methods { OnOk result (self.new.methods ≡ tell.with_entry (same_role role roles.Method) self.old.methods (Some entry)) }
        ensures constructors { OnOk result (self.new.constructors ≡ tell.with_entry (same_role role roles.Constructor) self.old.constructors (Some entry)) }
        ensures lists { OnOk result (self.new.lists ≡ self.old.lists) }
    {
        match role {
            Role::Type => self.types.add(alloc, entry),
            Role::Field => self.fields.add(alloc, entry),
            Role::Method => self.methods.add(alloc, entry),
            Role::Constructor => self.constructors.add(alloc, entry),
            _ => Ok(()),
        }
    }

    /// One more row, of a role, if it has an entry.
    pub fn add(
        &mut self,
        alloc: Global,
        role: Role,
        entry: Option<Entry>,
    ) -> Result<(), OutOfMemory>
        ensures types { OnOk result (self.new.types ≡ tell.with_entry (same_role role roles.Type) self.old.types entry) }
        ensures fields { OnOk result (self.new.fields ≡ tell.with_entry (same_role role roles.Field) self.old.fields entry) }
        ensures methods { OnOk result (self.new.methods ≡ tell.with_entry (same_role role roles.Method) self.old.methods entry) }
        ensures constructors { OnOk result (self.new.constructors ≡ tell.with_entry (same_role role roles.Constructor) self.old.constructors entry) }
        ensures lists { OnOk result (self.new.lists ≡ self.old.lists) }
    {
        match entry {
            Some(entry) => self.add_row(alloc, role, entry),
            None => Ok(()),
        }
    }
}

// A type round the row has its name.
fn is_inside_name(rows: &[Row], places: &Places, at: u32) -> bool
    ensures { ArePlaces rows.now places.now → at < length rows.now → result ≡ declaring.is_inside rows.now (name rows.now at) (length rows.now) at }
{
    let name = places.name(at);
    let mut around = declaring_type(rows, at);
    for _turn in 0..rows.len() {
        let Some(over) = around else {
            return false;
        };
        let other = places.name(over);
        let is_found = other == name;
        if is_found {
            return true;
        }
        around = declaring_type(rows, over);
    }
    false
}

/// The type stands in one of its own name.
pub fn is_inside_its_name(rows: &[Row], places: &Places, at: u32) -> bool
    ensures none { declared_as.is_type rows.now at ≡ false → result ≡ false }
    ensures found { ArePlaces rows.now places.now → result ≡ declaring.is_inside_its_name rows.now at }
{
    if !is_type(rows, at) {
        return false;
    }
    is_inside_name(rows, places, at)
}
