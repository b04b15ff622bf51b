// The names of methods at which a type may break a rule by what it inherits (JLS 8.4.8, 9.2).
ghost use Rattle.std.specs.Prelude.{◌≡◌, ◌++◌, ◌⊎◌, ℕ, true, length, map, IfOk, OnOk, Some};
ghost use Rattle.jr_tree.specs.Rows.{Rows};
ghost use Rattle.jr_defs.specs.Declarations.{IsInterface, IsObject};
ghost use Rattle.jr_plain.specs.Search.{has, Lists};
ghost use Rattle.jr_places.specs.Names.{name_row};
ghost use Rattle.jr_supers.specs.Supers.{AreSupersOf};
ghost use Rattle.jr_members.specs.Each.{AreBelow};
ghost use Rattle.jr_members.specs.Gathered as gather;
ghost use Rattle.jr_members.specs.Sources.{links_of};
ghost use Rattle.jr_member_faults.specs.Names as tell;
ghost use Rattle.jr_member_faults.specs.Views as views;

use jr_base::OutOfMemory;
use jr_members::{MemberKind, World};
use jr_places::is_interface;
use jr_supers::sorted_once;
use std::alloc::Global;

fn is_the(linked: Option<u32>, at: u32) -> bool
    ensures { result ≡ gather.is_the linked at }
{
    match linked {
        Some(up) => up == at,
        None => false,
    }
}

// Adds a supertype and all above it, unless it is the first one.
fn push_up(
    alloc: Global,
    world: &World,
    linked: Option<u32>,
    from: u32,
    all: &mut Vec<u32>,
) -> Result<(), OutOfMemory>
    ensures { views.IsRightWorld world.now → OnOk result (gather.PushesUp (views.rows_of world.now) (views.table_of world.now) linked from all.old.items all.new.items) }
{
    if is_the(linked, from) {
        return Ok(());
    }
    let above = world.supers.with_above(alloc, world.under.rows, from)?;
    all.extend_from_slice(&above)?;
    Ok(())
}

// Adds the supertypes other than the first, and all above them.
fn push_further(
    alloc: Global,
    world: &World,
    linked: Option<u32>,
    direct: &[u32],
    all: &mut Vec<u32>,
) -> Result<(), OutOfMemory>
    ensures { views.IsRightWorld world.now → OnOk result (Lists all.new.items (gather.IsAddedUp (views.rows_of world.now) (views.table_of world.now) linked direct.now all.old.items)) }
{
    for from in direct {
        push_up(alloc, world, linked, *from, all)?;
    }
    Ok(())
}

// The type itself, and what stands at or above its supertypes other than the first.
fn naming_types(alloc: Global, world: &World, over: u32) -> Result<Vec<u32>, OutOfMemory>
    ensures { views.IsRightWorld world.now → IfOk result (λ all. Lists all.items (gather.IsNaming (views.rows_of world.now) (views.table_of world.now) (links_of world.now.supers.now) over)) }
{
    let direct = world.supers.direct().rows(alloc, over, 0)?;
    let linked = world.supers.linked(over);
    let mut all = Vec::new(alloc);
    all.push(over)?;
    push_further(alloc, world, linked, &direct, &mut all)?;
    Ok(all)
}

// The methods that such types declare.
fn naming_methods(alloc: Global, world: &World, over: u32) -> Result<Vec<u32>, OutOfMemory>
    ensures { views.IsRightWorld world.now → IfOk result (λ all. tell.AreNaming world.now over all.items) }
{
    let types = naming_types(alloc, world, over)?;
    let methods = world.members.kind(MemberKind::Method).in_bodies();
    let all = methods.by_types(alloc, &types)?;
    Ok(all)
}

// The methods of Object, where the type is an interface.
fn object_methods(alloc: Global, world: &World, over: u32) -> Result<Vec<u32>, OutOfMemory>
    ensures { views.IsRightWorld world.now → IfOk result (λ all. tell.AreOfObject world.now over all.items) }
{
    if !is_interface(world.under.rows, over) {
        return Ok(Vec::new(alloc));
    }
    match world.supers.object() {
        Some(object) => world
            .members
            .kind(MemberKind::Method)
            .in_bodies()
            .by_type(alloc, object),
        None => Ok(Vec::new(alloc)),
    }
}

// Adds the names of methods.
fn add_names(world: &World, methods: &[u32], names: &mut Vec<u32>) -> Result<(), OutOfMemory>
    ensures { views.IsRightWorld world.now → AreBelow (length (views.rows_of world.now)) methods.now → OnOk result (names.new.items ≡ names.old.items ++ map (name_row (views.rows_of world.now)) methods.now) }
{
    for method in methods {
        names.push(world.under.places.name(*method))?;
    }
    Ok(())
}

/// The names of the methods that a type declares, that come to it by further supertypes or from Object, and those at which its first supertype
/// is open. By all others it has methods of that supertype alone.
pub fn names_at(
    alloc: Global,
    world: &World,
    over: u32,
    open_names: &[u32],
) -> Result<Vec<u32>, OutOfMemory>
    ensures { views.IsRightWorld world.now → IfOk result (λ all. tell.AreNamesAt world.now over open_names.now all.items) }
{
    let mut names = Vec::new(alloc);
    let own = naming_methods(alloc, world, over)?;
    add_names(world, &own, &mut names)?;
    let of_object = object_methods(alloc, world, over)?;
    add_names(world, &of_object, &mut names)?;
    names.extend_from_slice(open_names)?;
    let all = sorted_once(alloc, &mut names)?;
    Ok(all)
}
