// Which method or constructor a call chooses (JLS 15.12.2, 8.4.8.4, 8.4.5).
ghost use Rattle.std.specs.Prelude.{◌≡◌, ◌&&◌, ◌||◌, ◌++◌, if◌then◌else◌, true, Some, filter, not, length, nat_eq, nat_lt, slice_get, suc, Decides, IfOk, OnOk};
ghost use Rattle.std.specs.List.{list_all};
ghost use Rattle.jr_tree.specs.Rows.{role_at};
ghost use Rattle.jr_defs.specs.Referents.{Table};
ghost use Rattle.jr_defs.specs.Overloads.{Applicable, IsMostSpecific, Earlier, Choice, ImportedChoice};
ghost use Rattle.jr_plain.specs.Modifiers as modifiers;
ghost use Rattle.jr_plain.specs.Overloads as plain;
ghost use Rattle.jr_plain.specs.Same.{same_type};
ghost use Rattle.jr_supers.specs.Supers.{AreSupersOf};
ghost use Rattle.jr_supers.specs.Tabled.{is_callable};
ghost use Rattle.jr_members.specs.Each.{StandOnce, ListsEach, if_such};
ghost use Rattle.jr_members.specs.Worlds.{IsWorld};
ghost use Rattle.jr_lookup.specs.Choices as tell;
ghost use Rattle.jr_lookup.specs.Within.{IsWithin};

use jr_base::OutOfMemory;
use jr_defs::RowType;
use jr_members::World;
use jr_places::is_abstract;
use jr_supers::is_reference;
use std::alloc::Global;

// Both types are there, and the first is a subtype of the second.
fn is_below(world: World, low: Option<RowType>, high: Option<RowType>) -> bool
    ensures { (t : Table) → AreSupersOf world.entry.under.rows.now t world.entry.supers.now → result ≡ tell.is_some_subtype world.entry.under.rows.now t low high }
{
    match low {
        Some(low) => match high {
            Some(high) => world.supers.is_subtype(world.under.rows, low, high),
            None => false,
        },
        None => false,
    }
}

// The type at a place of a list.
fn type_at(all: &[RowType], nth: u32) -> Option<RowType>
    ensures { result ≡ slice_get all.now nth }
{
    all.get(nth as usize).copied()
}

// Each argument is of a subtype of the type of the parameter at its place (JLS 15.12.2.2).
fn takes(world: World, method: u32, arguments: &[RowType]) -> bool
    ensures { (t : Table) → IsWorld t world.entry → is_callable (role_at world.entry.under.rows.now method) ≡ true → result ≡ tell.takes world.entry.under.rows.now t arguments.now method }
{
    let signatures = world.members.signatures();
    let Some(count) = signatures.count(method) else {
        return false;
    };
    if arguments.len() != count as usize {
        return false;
    }
    for nth in 0..count {
        let argument = type_at(arguments, nth);
        let parameter = signatures.parameter(method, nth);
        let below = is_below(world, argument, parameter);
        if !below {
            return false;
        }
    }
    true
}

// Each parameter of the first method is of a subtype of that of the second (JLS 15.12.2.5).
fn is_more_specific(world: World, method: u32, other: u32) -> bool
    ensures { (t : Table) → IsWorld t world.entry → is_callable (role_at world.entry.under.rows.now method) ≡ true → is_callable (role_at world.entry.under.rows.now other) ≡ true → result ≡ plain.is_more_specific world.entry.under.rows.now t method other }
{
    let signatures = world.members.signatures();
    let Some(count) = signatures.count(method) else {
        return false;
    };
    let Some(others) = signatures.count(other) else {
        return false;
    };
    if count != others {
        return false;
    }
    for nth in 0..count {
        let first = signatures.parameter(method, nth);
        let second = signatures.parameter(other, nth);
        let below = is_below(world, first, second);
        if !below {
            return false;
        }
    }
    true
}

// Puts a number behind the list, where it is such.
fn push_if(all: &mut Vec<u32>, is_such: bool, at: u32) -> Result<(), OutOfMemory>
    ensures { OnOk result (all.new.items ≡ all.old.items ++ if_such is_such at) }
{
    if is_such {
        all.push(at)?;
    }
    Ok(())
}

// The first is such, and so is the second.
fn both(one: bool, other: bool) -> bool
    ensures { result ≡ (one && other) }
{
    one && other
}

// The method is accessible at the place and takes such arguments.
fn is_applicable(
    world: World,
    place: u32,
    receiver: Option<RowType>,
    arguments: &[RowType],
    method: u32,
) -> bool
    ensures { (t : Table) → IsWorld t world.entry → is_callable (role_at world.entry.under.rows.now method) ≡ true → result ≡ plain.is_applicable world.entry.under.rows.now t place receiver arguments.now method }
{
    let accessible = world.is_accessible(method, place, receiver);
    let fits = takes(world, method, arguments);
    both(accessible, fits)
}

/// Of some methods or constructors, those that are accessible at the place and take such arguments.
pub fn applicable(
    alloc: Global,
    world: World,
    place: u32,
    receiver: Option<RowType>,
    arguments: &[RowType],
    methods: &[u32],
) -> Result<Vec<u32>, OutOfMemory>
    ensures within { IfOk result (λ all. IsWithin methods.now all.items) }
    ensures plain { (t : Table) → tell.AreCandidates t world.entry methods.now → IfOk result (λ all. all.items ≡ plain.applicable world.entry.under.rows.now t place receiver arguments.now methods.now) }
    ensures listed { (t : Table) → tell.AreCandidates t world.entry methods.now → StandOnce methods.now → IfOk result (λ all. ListsEach all.items (Applicable world.entry.under.rows.now t place receiver arguments.now (tell.IsAmong methods.now))) }
{
    let mut all = Vec::new(alloc);
    for method in methods {
        let is_such = is_applicable(world, place, receiver, arguments, *method);
        push_if(&mut all, is_such, *method)?;
    }
    Ok(all)
}

// The method is more specific than each of the others.
fn is_most_specific(world: World, methods: &[u32], method: u32) -> bool
    ensures { (t : Table) → tell.AreCandidates t world.entry methods.now → is_callable (role_at world.entry.under.rows.now method) ≡ true → result ≡ list_all (plain.is_more_specific world.entry.under.rows.now t method) methods.now }
{
    for other in methods {
        let is_more = is_more_specific(world, method, *other);
        if !is_more {
            return false;
        }
    }
    true
}

// The better of two methods: the second, unless the first is more specific.
fn better(world: World, so_far: u32, method: u32) -> u32
    ensures { (t : Table) → IsWorld t world.entry → is_callable (role_at world.entry.under.rows.now so_far) ≡ true → is_callable (role_at world.entry.under.rows.now method) ≡ true → result ≡ tell.better (plain.is_more_specific world.entry.under.rows.now t) so_far method }
{
    if is_more_specific(world, so_far, method) {
        so_far
    } else {
        method
    }
}

// A method that is most specific, if any is.
fn best(world: World, first: u32, methods: &[u32]) -> u32
    ensures { (t : Table) → tell.AreCandidates t world.entry methods.now → is_callable (role_at world.entry.under.rows.now first) ≡ true → result ≡ tell.best (plain.is_more_specific world.entry.under.rows.now t) first methods.now }
{
    let mut best = first;
    for method in methods {
        best = better(world, best, *method);
    }
    best
}

// Those of the methods that are more specific than one of them.
fn specific_than(
    alloc: Global,
    world: World,
    methods: &[u32],
    best: u32,
) -> Result<Vec<u32>, OutOfMemory>
    ensures within { IfOk result (λ all. IsWithin methods.now all.items) }
    ensures plain { (t : Table) → tell.AreCandidates t world.entry methods.now → is_callable (role_at world.entry.under.rows.now best) ≡ true → IfOk result (λ all. all.items ≡ filter (λ m. plain.is_more_specific world.entry.under.rows.now t m best) methods.now) }
{
    let mut all = Vec::new(alloc);
    for method in methods {
        let is_such = is_more_specific(world, *method, best);
        push_if(&mut all, is_such, *method)?;
    }
    Ok(all)
}

// The first item.
fn first_of(all: &[u32]) -> Option<u32>
    ensures { result ≡ slice_get all.now 0 }
{
    all.first().copied()
}

// There is no item, or one.
fn is_few(all: &[u32]) -> bool
    ensures { result ≡ nat_lt (length all.now) 2 }
{
    all.len() < 2
}

/// Of these methods, those that are more specific than every other one.
pub fn most_specific(alloc: Global, world: World, methods: &[u32]) -> Result<Vec<u32>, OutOfMemory>
    ensures within { IfOk result (λ all. IsWithin methods.now all.items) }
    ensures plain { (t : Table) → tell.AreCandidates t world.entry methods.now → IfOk result (λ all. all.items ≡ plain.most_specific world.entry.under.rows.now t methods.now) }
    ensures listed { (t : Table) → tell.AreCandidates t world.entry methods.now → StandOnce methods.now → IfOk result (λ all. ListsEach all.items (IsMostSpecific world.entry.under.rows.now t (tell.IsAmong methods.now))) }
{
    let Some(first) = first_of(methods) else {
        return Ok(Vec::new(alloc));
    };
    let best = best(world, first, methods);
    let is_most = is_most_specific(world, methods, best);
    if !is_most {
        return Ok(Vec::new(alloc));
    }
    specific_than(alloc, world, methods, best)
}

// Both types are one.
fn is_same_type(first: RowType, second: RowType) -> bool
    ensures { result ≡ same_type first second }
{
    first == second
}

// The one type is the other, or a reference subtype of it.
fn is_type_fit(world: World, first: RowType, second: RowType) -> bool
    ensures { (t : Table) → AreSupersOf world.entry.under.rows.now t world.entry.supers.now → result ≡ plain.is_result_type_fit world.entry.under.rows.now t first second }
{
    let same = is_same_type(first, second);
    let below = world.supers.is_subtype(world.under.rows, first, second);
    same || (is_reference(first) && is_reference(second) && below)
}

// The result of the first method is that of the second, or a reference subtype of it (JLS 8.4.5).
fn is_result_fit(world: World, method: u32, other: u32) -> bool
    ensures { (t : Table) → tell.AreResults t world.entry → AreSupersOf world.entry.under.rows.now t world.entry.supers.now → is_callable (role_at world.entry.under.rows.now method) ≡ true → is_callable (role_at world.entry.under.rows.now other) ≡ true → result ≡ plain.is_result_fit world.entry.under.rows.now t method other }
{
    match world.under.type_of_declared(method) {
        Some(first) => match world.under.type_of_declared(other) {
            Some(second) => is_type_fit(world, first, second),
            None => false,
        },
        None => false,
    }
}

// The method's result fits that of each of the others.
fn returns_least(world: World, methods: &[u32], method: u32) -> bool
    ensures { (t : Table) → tell.AreCandidates t world.entry methods.now → tell.AreResults t world.entry → is_callable (role_at world.entry.under.rows.now method) ≡ true → result ≡ list_all (plain.is_result_fit world.entry.under.rows.now t method) methods.now }
{
    for other in methods {
        let is_fit = is_result_fit(world, method, *other);
        if !is_fit {
            return false;
        }
    }
    true
}

/// What a type says of the order in which it inherits two members.
#[derive(Clone, Copy, Debug, PartialEq, Eq)]
enum Step {
    Earlier,
    Later,
    /// It has both from this one: its own supertypes decide.
    Within(u32),
}

// A place that is such, or else the one before.
fn later(before: Option<usize>, is_such: bool, nth: usize) -> Option<usize>
    ensures { result ≡ (if is_such then Some nth else before) }
{
    if is_such { Some(nth) } else { before }
}

// The last of these types that has the member, by its place among them.
fn last_with(
    alloc: Global,
    world: World,
    direct: &[u32],
    at: u32,
) -> Result<Option<usize>, OutOfMemory>
    ensures { (t : Table) → IsWorld t world.entry → IfOk result (λ found. tell.IsLastWith world.entry.under.rows.now t direct.now at (length direct.now) found) }
{
    let mut found = None;
    for nth in 0..direct.len() {
        let has = world.is_member(alloc, direct[nth], at)?;
        found = later(found, has, nth);
    }
    Ok(found)
}

// The type at a place decides, if there is one.
fn within(direct: &[u32], place: usize) -> Step
    ensures { result ≡ tell.within direct.now place }
{
    match direct.get(place) {
        Some(at) => Step::Within(*at),
        None => Step::Later,
    }
}

// What the places of the first supertypes with two members say, counted from the last back.
fn step_by(direct: &[u32], one: Option<usize>, other: Option<usize>) -> Step
    ensures { result ≡ tell.step_by direct.now one other }
{
    match one {
        Some(first) => match other {
            Some(second) => {
                if second < first {
                    Step::Earlier
                } else if first == second {
                    within(direct, first)
                } else {
                    Step::Later
                }
            }
            None => Step::Later,
        },
        None => Step::Later,
    }
}

// What the first direct supertypes that have two members say of their order.
fn step_at(
    alloc: Global,
    world: World,
    over: u32,
    one: u32,
    other: u32,
) -> Result<Step, OutOfMemory>
    ensures { (t : Table) → IsWorld t world.entry → IfOk result (λ step. tell.IsStep world.entry.under.rows.now t over one other step) }
{
    let direct = world.supers.direct().rows(alloc, over, 0)?;
    let first = last_with(alloc, world, &direct, one)?;
    let second = last_with(alloc, world, &direct, other)?;
    Ok(step_by(&direct, first, second))
}

// One more than there are items.
fn one_more(all: &[u32]) -> usize
    ensures { result ≡ suc (length all.now) }
{
    all.len() + 1
}

// The type inherits one member before another: superclass first, then superinterfaces as written, each in its own order.
fn is_earlier(
    alloc: Global,
    world: World,
    over: u32,
    one: u32,
    other: u32,
) -> Result<bool, OutOfMemory>
    ensures { (t : Table) → IsWorld t world.entry → IfOk result (λ is. Decides is (Earlier world.entry.under.rows.now t over one other)) }
{
    let mut here = over;
    let turns = one_more(world.supers.order());
    for _turn in 0..turns {
        match step_at(alloc, world, here, one, other)? {
            Step::Earlier => return Ok(true),
            Step::Later => return Ok(false),
            Step::Within(next) => here = next,
        }
    }
    Ok(false)
}

// The one is the other, or the type inherits it before that.
fn is_before(
    alloc: Global,
    world: World,
    over: u32,
    one: u32,
    other: u32,
) -> Result<bool, OutOfMemory>
    ensures { (t : Table) → IsWorld t world.entry → IfOk result (λ is. is ≡ (nat_eq one other || plain.is_earlier world.entry.under.rows.now t over one other)) }
{
    if one == other {
        return Ok(true);
    }
    is_earlier(alloc, world, over, one, other)
}

// The type inherits the method before each of the others.
fn is_first(
    alloc: Global,
    world: World,
    over: u32,
    methods: &[u32],
    method: u32,
) -> Result<bool, OutOfMemory>
    ensures { (t : Table) → IsWorld t world.entry → IfOk result (λ is. is ≡ list_all (λ k. nat_eq method k || plain.is_earlier world.entry.under.rows.now t over method k) methods.now) }
{
    for other in methods {
        let before = is_before(alloc, world, over, method, *other)?;
        if !before {
            return Ok(false);
        }
    }
    Ok(true)
}

// Of these methods, those whose results fit all others.
fn returning(alloc: Global, world: World, methods: &[u32]) -> Result<Vec<u32>, OutOfMemory>
    ensures within { IfOk result (λ all. IsWithin methods.now all.items) }
    ensures plain { (t : Table) → tell.AreCandidates t world.entry methods.now → tell.AreResults t world.entry → IfOk result (λ all. all.items ≡ plain.returning world.entry.under.rows.now t methods.now) }
{
    let mut all = Vec::new(alloc);
    for method in methods {
        let is_such = returns_least(world, methods, *method);
        push_if(&mut all, is_such, *method)?;
    }
    Ok(all)
}

// Of these methods, those that the type inherits before each of the others.
fn firsts(alloc: Global, world: World, over: u32, methods: &[u32]) -> Result<Vec<u32>, OutOfMemory>
    ensures within { IfOk result (λ all. IsWithin methods.now all.items) }
    ensures plain { (t : Table) → IsWorld t world.entry → IfOk result (λ all. all.items ≡ plain.firsts world.entry.under.rows.now t over methods.now) }
{
    let mut all = Vec::new(alloc);
    for method in methods {
        let is_such = is_first(alloc, world, over, methods, *method)?;
        push_if(&mut all, is_such, *method)?;
    }
    Ok(all)
}

// Of abstract methods of one signature, the first whose result fits all others, else the first.
fn first_returning(
    alloc: Global,
    world: World,
    over: u32,
    methods: &[u32],
) -> Result<Vec<u32>, OutOfMemory>
    ensures within { IfOk result (λ all. IsWithin methods.now all.items) }
    ensures plain { (t : Table) → tell.AreCandidates t world.entry methods.now → tell.AreResults t world.entry → IfOk result (λ all. all.items ≡ plain.first_returning world.entry.under.rows.now t over methods.now) }
{
    let least = returning(alloc, world, methods)?;
    if least.is_empty() {
        return firsts(alloc, world, over, methods);
    }
    firsts(alloc, world, over, &least)
}

// Of these methods, those that are not abstract.
fn concrete(alloc: Global, world: World, methods: &[u32]) -> Result<Vec<u32>, OutOfMemory>
    ensures within { IfOk result (λ all. IsWithin methods.now all.items) }
    ensures plain { IfOk result (λ all. all.items ≡ filter (λ m. not (modifiers.is_abstract world.entry.under.rows.now m)) methods.now) }
{
    let mut all = Vec::new(alloc);
    for method in methods {
        let is_such = !is_abstract(world.under.rows, *method);
        push_if(&mut all, is_such, *method)?;
    }
    Ok(all)
}

// Of the most specific methods, which have one signature, what is not abstract, else the first.
fn preferred(
    alloc: Global,
    world: World,
    over: u32,
    methods: Vec<u32>,
) -> Result<Vec<u32>, OutOfMemory>
    ensures within { IfOk result (λ all. IsWithin methods.items all.items) }
    ensures plain { (t : Table) → tell.AreCandidates t world.entry methods.items → tell.AreResults t world.entry → IfOk result (λ all. all.items ≡ plain.preferred world.entry.under.rows.now t over methods.items) }
{
    let few = is_few(&methods);
    if few {
        return Ok(methods);
    }
    let left = concrete(alloc, world, &methods)?;
    if left.is_empty() {
        return first_returning(alloc, world, over, &methods);
    }
    Ok(left)
}

// What is left of what is applicable in a type: the preferred one of the most specific, or all where none is preferred.
fn left_of(alloc: Global, world: World, over: u32, all: Vec<u32>) -> Result<Vec<u32>, OutOfMemory>
    ensures within { IfOk result (λ left. IsWithin all.items left.items) }
    ensures plain { (t : Table) → tell.AreCandidates t world.entry all.items → tell.AreResults t world.entry → IfOk result (λ left. left.items ≡ plain.left_of world.entry.under.rows.now t over all.items) }
{
    let few = is_few(&all);
    if few {
        return Ok(all);
    }
    let specific = most_specific(alloc, world, &all)?;
    let left = preferred(alloc, world, over, specific)?;
    if left.is_empty() {
        return Ok(all);
    }
    Ok(left)
}

// The most specific ones, or all where there is none.
fn most_or_all(alloc: Global, world: World, all: Vec<u32>) -> Result<Vec<u32>, OutOfMemory>
    ensures within { IfOk result (λ left. IsWithin all.items left.items) }
    ensures plain { (t : Table) → tell.AreCandidates t world.entry all.items → IfOk result (λ left. left.items ≡ plain.most_specific_or_all world.entry.under.rows.now t all.items) }
{
    let few = is_few(&all);
    if few {
        return Ok(all);
    }
    let left = most_specific(alloc, world, &all)?;
    if left.is_empty() {
        return Ok(all);
    }
    Ok(left)
}

/// The choice among methods or constructors of a type, for a call at a place. One is the answer; several are ambiguous; none means that none is
/// applicable.
pub fn choose(
    alloc: Global,
    world: World,
    over: u32,
    place: u32,
    receiver: Option<RowType>,
    arguments: &[RowType],
    methods: &[u32],
) -> Result<Vec<u32>, OutOfMemory>
    ensures within { IfOk result (λ all. IsWithin methods.now all.items) }
    ensures plain { (t : Table) → tell.AreCandidates t world.entry methods.now → tell.AreResults t world.entry → IfOk result (λ all. all.items ≡ plain.choice world.entry.under.rows.now t over place receiver arguments.now methods.now) }
    ensures listed { (t : Table) → tell.AreCandidates t world.entry methods.now → tell.AreResults t world.entry → StandOnce methods.now → IfOk result (λ all. ListsEach all.items (Choice world.entry.under.rows.now t over place receiver arguments.now (tell.IsAmong methods.now))) }
{
    let all = applicable(alloc, world, place, receiver, arguments, methods)?;
    left_of(alloc, world, over, all)
}

/// The choice among methods that static imports bring, for a call at a place (JLS 15.12.3).
pub fn choose_imported(
    alloc: Global,
    world: World,
    place: u32,
    arguments: &[RowType],
    methods: &[u32],
) -> Result<Vec<u32>, OutOfMemory>
    ensures within { IfOk result (λ all. IsWithin methods.now all.items) }
    ensures plain { (t : Table) → tell.AreCandidates t world.entry methods.now → IfOk result (λ all. all.items ≡ plain.imported_choice world.entry.under.rows.now t place arguments.now methods.now) }
    ensures listed { (t : Table) → tell.AreCandidates t world.entry methods.now → StandOnce methods.now → IfOk result (λ all. ListsEach all.items (ImportedChoice world.entry.under.rows.now t place arguments.now (tell.IsAmong methods.now))) }
{
    let all = applicable(alloc, world, place, None, arguments, methods)?;
    most_or_all(alloc, world, all)
}
