// Families of methods, which a rename takes along together (JLS 8.4.8.1).
ghost use Rattle.std.specs.Prelude.{◌≡◌, ◌++◌, ℕ, [], filter, IfOk, OnOk};
ghost use Rattle.std.specs.List.{flat_map};
ghost use Rattle.jr_tree.specs.declared.label.Role.TheVariants as role;
ghost use Rattle.jr_tree.specs.Rows as all_rows;
ghost use Rattle.jr_tree.specs.Rows.{Rows};
ghost use Rattle.jr_defs.specs.Referents.{Table};
ghost use Rattle.jr_defs.specs.Enclosing.{DeclaredIn};
ghost use Rattle.jr_plain.specs.Search.{Lists};
ghost use Rattle.jr_places.specs.Stamps.{IsStamping};
ghost use Rattle.jr_supers.specs.Signatures.{AreSignatures};
ghost use Rattle.jr_dispatch.specs.Dispatching.{AreMethodRows};
ghost use Rattle.jr_dispatch.specs.Families as tell;
ghost use Rattle.jr_dispatch.specs.Methods.{AreMethods, IsWholeWorld};

use crate::dispatch::{Methods, item_at};
use jr_base::OutOfMemory;
use jr_members::{MemberKind, World};
use jr_places::{Chains, Entry, Stamps, declaring_type};
use jr_supers::{Signatures, sorted_once};
use std::alloc::Global;

// One link between two methods, both ways.
fn add_link(alloc: Global, links: &mut Chains, one: u32, other: u32) -> Result<(), OutOfMemory>
    ensures { OnOk result (links.new ≡ tell.with_link links.old one other) }
{
    let there = Entry {
        first: one,
        second: 0,
        row: other,
    };
    links.add(alloc, there)?;
    let back = Entry {
        first: other,
        second: 0,
        row: one,
    };
    links.add(alloc, back)?;
    Ok(())
}

// The same, if there is to be one.
fn add_link_if(
    alloc: Global,
    links: &mut Chains,
    one: u32,
    other: u32,
    is_linked: bool,
) -> Result<(), OutOfMemory>
    ensures { OnOk result (links.new ≡ tell.with_link_if is_linked links.old one other) }
{
    if is_linked {
        add_link(alloc, links, one, other)?;
    }
    Ok(())
}

// Puts a number behind the list, if it is such.
fn push_if(all: &mut Vec<u32>, at: u32, is_such: bool) -> Result<(), OutOfMemory>
    ensures { OnOk result (all.new.items ≡ tell.with_if is_such all.old.items at) }
{
    if is_such {
        all.push(at)?;
    }
    Ok(())
}

// Of these methods, those of the signature of one.
fn alike(
    alloc: Global,
    signatures: &Signatures,
    all: &[u32],
    method: u32,
) -> Result<Vec<u32>, OutOfMemory>
    ensures { (p : Rows) (t : Table) → AreSignatures p t signatures.now → all_rows.role_at p method ≡ role.Method → AreMethodRows p all.now → IfOk result (λ out. out.items ≡ filter (tell.is_like p t method) all.now) }
{
    let mut out = Vec::new(alloc);
    for other in all {
        let is_like = signatures.are_same(*other, method);
        push_if(&mut out, *other, is_like)?;
    }
    Ok(out)
}

// Adds the methods of the signature that a type declares.
fn add_like(
    alloc: Global,
    methods: Methods,
    all: &mut Vec<u32>,
    over: u32,
    method: u32,
) -> Result<(), OutOfMemory>
    ensures { (t : Table) → AreMethods methods.entry.under.rows.now t methods.entry → all_rows.role_at methods.entry.under.rows.now method ≡ role.Method → OnOk result (all.new.items ≡ all.old.items ++ tell.declared_like methods.entry.under.rows.now t method over) }
{
    let like = methods.callables.declared_like(alloc, over, method)?;
    all.extend_from_slice(&like)?;
    Ok(())
}

// The methods of the signature that these types declare.
fn all_like(
    alloc: Global,
    methods: Methods,
    overs: &[u32],
    method: u32,
) -> Result<Vec<u32>, OutOfMemory>
    ensures { (t : Table) → AreMethods methods.entry.under.rows.now t methods.entry → all_rows.role_at methods.entry.under.rows.now method ≡ role.Method → IfOk result (λ all. all.items ≡ flat_map (tell.declared_like methods.entry.under.rows.now t method) overs.now) }
{
    let mut all = Vec::new(alloc);
    for over in overs {
        add_like(alloc, methods, &mut all, *over, method)?;
    }
    Ok(all)
}

// Methods, with all that the method, declared in this type, overrides among them.
fn like_above(
    alloc: Global,
    methods: Methods,
    at: u32,
    method: u32,
) -> Result<Vec<u32>, OutOfMemory>
    ensures { (t : Table) → AreMethods methods.entry.under.rows.now t methods.entry → all_rows.role_at methods.entry.under.rows.now method ≡ role.Method → IfOk result (λ all. Lists all.items (tell.IsLikeAbove methods.entry.under.rows.now t at method)) }
{
    let overs = methods.supers.with_above(alloc, methods.under.rows, at)?;
    let all = all_like(alloc, methods, &overs, method)?;
    Ok(all)
}

// Links of a method to those of a list that it overrides.
fn add_those(
    alloc: Global,
    methods: Methods,
    links: &mut Chains,
    method: u32,
    all: &[u32],
) -> Result<(), OutOfMemory>
    ensures { (t : Table) → AreMethods methods.entry.under.rows.now t methods.entry → all_rows.role_at methods.entry.under.rows.now method ≡ role.Method → AreMethodRows methods.entry.under.rows.now all.now → OnOk result (tell.IsAddingOverridden methods.entry.under.rows.now t method all.now links.old links.new []) }
{
    for other in all {
        let is_over = methods.overrides(alloc, method, *other)?;
        add_link_if(alloc, links, method, *other, is_over)?;
    }
    Ok(())
}

// Links of a method to all that it overrides.
fn add_overridden(
    alloc: Global,
    methods: Methods,
    links: &mut Chains,
    method: u32,
) -> Result<(), OutOfMemory>
    ensures { (t : Table) → AreMethods methods.entry.under.rows.now t methods.entry → all_rows.role_at methods.entry.under.rows.now method ≡ role.Method → OnOk result (tell.AddsOverridden methods.entry.under.rows.now t method links.old links.new) }
{
    match declaring_type(methods.under.rows, method) {
        Some(at) => add_overridden_from(alloc, methods, links, at, method),
        None => Ok(()),
    }
}

// The same, of a method that is declared in this type.
fn add_overridden_from(
    alloc: Global,
    methods: Methods,
    links: &mut Chains,
    at: u32,
    method: u32,
) -> Result<(), OutOfMemory>
    ensures { (t : Table) → AreMethods methods.entry.under.rows.now t methods.entry → all_rows.role_at methods.entry.under.rows.now method ≡ role.Method → DeclaredIn methods.entry.under.rows.now at method → OnOk result (tell.AddsOverridden methods.entry.under.rows.now t method links.old links.new) }
{
    let like = like_above(alloc, methods, at, method)?;
    add_those(alloc, methods, links, method, &like)?;
    Ok(())
}

// Links of these methods to all that they override.
fn add_all(
    alloc: Global,
    methods: Methods,
    links: &mut Chains,
    all: &[u32],
) -> Result<(), OutOfMemory>
    ensures { (t : Table) → AreMethods methods.entry.under.rows.now t methods.entry → AreMethodRows methods.entry.under.rows.now all.now → OnOk result (tell.IsAddingOverriddenOf methods.entry.under.rows.now t all.now links.old links.new []) }
{
    for method in all {
        add_overridden(alloc, methods, links, *method)?;
    }
    Ok(())
}

// Links of all methods of the signature to all that they override.
fn add_of_signature(
    alloc: Global,
    methods: Methods,
    links: &mut Chains,
    method: u32,
) -> Result<(), OutOfMemory>
    ensures { (t : Table) → AreMethods methods.entry.under.rows.now t methods.entry → all_rows.role_at methods.entry.under.rows.now method ≡ role.Method → OnOk result (tell.AddsOverriddenLike methods.entry.under.rows.now t method links.old links.new) }
{
    let name = methods.under.places.name(method);
    let named = methods.declared.by_name(alloc, name)?;
    let like = alike(alloc, &methods.callables.signatures, &named, method)?;
    add_all(alloc, methods, links, &like)?;
    Ok(())
}

// Links of one method to all of a list.
fn join(alloc: Global, links: &mut Chains, one: u32, all: &[u32]) -> Result<(), OutOfMemory>
    ensures { OnOk result (tell.IsJoining one all.now links.old links.new []) }
{
    for other in all {
        add_link(alloc, links, one, *other)?;
    }
    Ok(())
}

// The members of a type of the signature of a method.
fn members_like(
    alloc: Global,
    world: &World,
    over: u32,
    method: u32,
) -> Result<Vec<u32>, OutOfMemory>
    ensures { (t : Table) → IsWholeWorld t world.now → all_rows.role_at world.now.under.rows.now method ≡ role.Method → IfOk result (λ all. Lists all.items (tell.IsMemberLike world.now.under.rows.now t over method)) }
{
    let name = world.under.places.name(method);
    let named = world.named(alloc, MemberKind::Method, over, name)?;
    let all = alike(alloc, world.members.signatures(), &named, method)?;
    Ok(all)
}

// Links of the first of a list to all of it.
fn join_first(alloc: Global, links: &mut Chains, all: &[u32]) -> Result<(), OutOfMemory>
    ensures { OnOk result (tell.JoinsFirst all.now links.old links.new) }
{
    match item_at(all, 0) {
        Some(first) => {
            join(alloc, links, first, all)?;
            Ok(())
        }
        None => Ok(()),
    }
}

// Links that lead from each member of a type of the signature to each other.
fn add_members(
    alloc: Global,
    world: &World,
    links: &mut Chains,
    over: u32,
    method: u32,
) -> Result<(), OutOfMemory>
    ensures { (t : Table) → IsWholeWorld t world.now → all_rows.role_at world.now.under.rows.now method ≡ role.Method → OnOk result (tell.AddsMembers world.now.under.rows.now t over method links.old links.new) }
{
    let all = members_like(alloc, world, over, method)?;
    join_first(alloc, links, &all)?;
    Ok(())
}

// The same, of all these types.
fn add_all_members(
    alloc: Global,
    world: &World,
    links: &mut Chains,
    overs: &[u32],
    method: u32,
) -> Result<(), OutOfMemory>
    ensures { (t : Table) → IsWholeWorld t world.now → all_rows.role_at world.now.under.rows.now method ≡ role.Method → OnOk result (tell.IsAddingMembers world.now.under.rows.now t method overs.now links.old links.new []) }
{
    for over in overs {
        add_members(alloc, world, links, *over, method)?;
    }
    Ok(())
}

// The links between all methods of the signature of one.
fn links_of(alloc: Global, world: &World, method: u32) -> Result<Chains, OutOfMemory>
    ensures { (t : Table) → IsWholeWorld t world.now → all_rows.role_at world.now.under.rows.now method ≡ role.Method → IfOk result (λ links. tell.AreLinksOf world.now.under.rows.now t method links) }
{
    let mut links = Chains::new(alloc);
    let methods = Methods::of(world);
    add_of_signature(alloc, methods, &mut links, method)?;
    add_all_members(alloc, world, &mut links, world.supers.order(), method)?;
    Ok(links)
}

// Lets a number wait, unless it was met.
fn put(met: &mut Stamps, waiting: &mut Vec<u32>, at: u32) -> Result<(), OutOfMemory>
    ensures { (bound : ℕ) → IsStamping met.old bound → OnOk result (tell.PutsOne bound at met.old met.new waiting.old.items waiting.new.items) }
{
    let is_new = met.add(at);
    push_if(waiting, at, is_new)?;
    Ok(())
}

// The same, of all these numbers.
fn put_all(met: &mut Stamps, waiting: &mut Vec<u32>, all: &[u32]) -> Result<(), OutOfMemory>
    ensures { (bound : ℕ) → IsStamping met.old bound → OnOk result (tell.IsPutting bound all.now met.old met.new waiting.old.items waiting.new.items []) }
{
    for at in all {
        put(met, waiting, *at)?;
    }
    Ok(())
}

// The same, of all that links lead to from a number at once.
fn put_linked(
    alloc: Global,
    links: &Chains,
    met: &mut Stamps,
    waiting: &mut Vec<u32>,
    at: u32,
) -> Result<(), OutOfMemory>
    ensures { (bound : ℕ) → IsStamping met.old bound → OnOk result (tell.IsPutting bound (tell.linked_at links.now at) met.old met.new waiting.old.items waiting.new.items []) }
{
    let linked = links.rows(alloc, at, 0)?;
    put_all(met, waiting, &linked)?;
    Ok(())
}

// What links lead to from a number, the number among it.
fn linked_to(
    alloc: Global,
    bound: usize,
    links: &Chains,
    method: u32,
) -> Result<Vec<u32>, OutOfMemory>
    ensures { tell.LinksAreBelow links.now bound → IfOk result (λ all. Lists all.items (tell.LeadsTo (tell.IsLinkIn links.now) method)) }
{
    let mut met = Stamps::new(alloc, bound)?;
    let _ = met.add(method);
    let mut waiting = Vec::new(alloc);
    waiting.push(method)?;
    let mut all = Vec::new(alloc);
    while let Some(next) = waiting.pop() {
        all.push(next)?;
        put_linked(alloc, links, &mut met, &mut waiting, next)?;
    }
    Ok(all)
}

/// The methods that are renamed together, as they rise, each once: those that override one another or that a type has as members with one
/// signature, and those linked so to one of them (JLS 8.4.8.1). The row is a method.
pub fn family(alloc: Global, world: &World, method: u32) -> Result<Vec<u32>, OutOfMemory>
    ensures { (t : Table) → IsWholeWorld t world.now → all_rows.role_at world.now.under.rows.now method ≡ role.Method → IfOk result (λ all. tell.IsFamilyOf world.now.under.rows.now t method all.items) }
{
    let links = links_of(alloc, world, method)?;
    let mut all = linked_to(alloc, world.under.rows.len(), &links, method)?;
    let out = sorted_once(alloc, &mut all)?;
    Ok(out)
}
