// The core with its look-ups (JLS 8, 15.12.4.4).
ghost use Rattle.std.specs.Prelude.{◌≡◌, IfOk, OnOk, Some, if◌then◌else◌, length, map};
ghost use Rattle.std.specs.Option.{option_copied, option_map};
ghost use Rattle.std.specs.BTreeMap.{get};
ghost use Rattle.jr_base.specs.declared.ids.DeclId.{DeclId as Decl};
ghost use Rattle.jr_core.specs.Mirror.{plain_core, plain_body};
ghost use Rattle.jr_machine_defs.specs.Values.{same_decl};
ghost use Rattle.jr_machine_defs.specs.Classes.{class_among, body_among, found_among, class_in, body_in, found_in};
ghost use Rattle.jr_machine_ops.specs.Indices.{decl_cmp, class_of_decl, IsIndex};

use jr_base::{DeclId, OutOfMemory, TypeId};
use jr_core::{Body, Class, Core};
use std::alloc::Global;
use std::collections::BTreeMap;
use std::marker::Model;

/// A class or an interface, with the methods that are found in it by those that are called.
#[derive(Drop)]
struct Indexed<'a> {
    class: &'a Class,
    found: BTreeMap<DeclId, DeclId>,
    ghost all_found: { (method : Decl) → get decl_cmp found method ≡ found_among class.now.found method },
}

/// The core of the program that runs, with its classes and bodies by their declarations.
#[derive(Drop)]
pub struct Program<'a> {
    core: &'a Core,
    classes: BTreeMap<DeclId, Indexed<'a>>,
    bodies: BTreeMap<DeclId, &'a Body>,
}

impl<'a> Indexed<'a> {
    /// The method that a call of this one runs.
    fn found(&self, method: DeclId) -> Option<DeclId>
        ensures { result ≡ found_among self.now.class.now.found method }
    {
        self.found.get(&method).copied()
    }
}

impl<'a> Model for Program<'a> {
    ghost use Rattle.jr_core.specs.Mirror.{Core, plain_core, plain_body};
    ghost use Rattle.jr_machine_defs.specs.Codes.{code_of_core};
    ghost use Rattle.jr_machine_defs.specs.Classes.{body_in, class_among};
    ghost use Rattle.jr_machine_ops.specs.Indices.{class_of_decl, IsIndex};

    ghost Value = { Core };

    ghost coded = { code_of_core };

    ghost view = { λ p. plain_core p.core.now };

    ghost invariant = { λ p. IsIndex p.classes (λ c. c.class.now) (λ d. class_among p.core.now.classes (class_of_decl d)) × IsIndex p.bodies (λ b. plain_body b.now) (body_in (plain_core p.core.now)) };
}

/// Gives the declaration this value.
fn put<V: Drop>(index: &mut BTreeMap<DeclId, V>, decl: DeclId, value: V) -> Result<(), OutOfMemory>
    ensures { OnOk result ((other : Decl) → get decl_cmp index.new other ≡ (if same_decl decl other then Some value else get decl_cmp index.old other)) }
{
    index.insert(decl, value)?;
    Ok(())
}

/// The methods that are found, by those that are called.
fn index_found(
    alloc: Global,
    found: &[(DeclId, DeclId)],
) -> Result<BTreeMap<DeclId, DeclId>, OutOfMemory>
    ensures { IfOk result (λ index. (method : Decl) → get decl_cmp index method ≡ found_among found.now method) }
{
    let mut index = BTreeMap::new(alloc);
    let mut left = found.len();
    while left > 0 {
        left -= 1;
        put(&mut index, found[left].0, found[left].1)?;
    }
    Ok(index)
}

/// The classes by their declarations; of two with one declaration the first.
fn index_classes<'a>(
    alloc: Global,
    classes: &'a [Class],
) -> Result<BTreeMap<DeclId, Indexed<'a>>, OutOfMemory>
    ensures { IfOk result (λ index. IsIndex index (λ c. c.class.now) (λ d. class_among classes.entry.now (class_of_decl d))) }
{
    let mut index = BTreeMap::new(alloc);
    let mut left = classes.len();
    while left > 0 {
        left -= 1;
        let class = &classes[left];
        let found = index_found(alloc, class.found.as_slice())?;
        put(&mut index, class.id.0, Indexed { class, found })?;
    }
    Ok(index)
}

/// The bodies by their declarations; of two with one declaration the first.
fn index_bodies<'a>(
    alloc: Global,
    bodies: &'a [Body],
) -> Result<BTreeMap<DeclId, &'a Body>, OutOfMemory>
    ensures { IfOk result (λ index. IsIndex index (λ b. plain_body b.now) (body_among (map plain_body bodies.entry.now))) }
{
    let mut index = BTreeMap::new(alloc);
    let mut left = bodies.len();
    while left > 0 {
        left -= 1;
        let body = &bodies[left];
        put(&mut index, body.decl, body)?;
    }
    Ok(index)
}

impl<'a> Program<'a> {
    /// The core, with its look-ups.
    pub fn new(alloc: Global, core: &'a Core) -> Result<Program<'a>, OutOfMemory>
        ensures { IfOk result (λ program. program ≡ plain_core core.entry.now) }
    {
        let classes = index_classes(alloc, core.classes.as_slice())?;
        let bodies = index_bodies(alloc, core.bodies.as_slice())?;
        Ok(Program {
            core,
            classes,
            bodies,
        })
    }

    /// How many classes the core has.
    pub fn class_count(&self) -> usize
        ensures { result ≡ length self.now.classes }
    {
        self.core.classes.len()
    }

    /// The class or interface of this name.
    pub fn class(&self, id: TypeId) -> Option<&'a Class>
        ensures { option_copied result ≡ class_in self.now id }
    {
        match self.classes.get(&id.0) {
            None => None,
            Some(indexed) => Some(indexed.class),
        }
    }

    /// The body of this declaration.
    pub fn body(&self, decl: DeclId) -> Option<&'a Body>
        ensures { option_map (λ b. plain_body b.now) result ≡ body_in self.now decl }
    {
        self.bodies.get(&decl).copied()
    }

    /// The method that a call of this one runs on an instance of the class (JLS 15.12.4.4).
    pub fn found(&self, class: TypeId, method: DeclId) -> Option<DeclId>
        ensures { result ≡ found_in self.now class method }
    {
        match self.classes.get(&class.0) {
            None => None,
            Some(indexed) => indexed.found(method),
        }
    }
}
