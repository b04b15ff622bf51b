// Which types stand above which (JLS 4.10.2).
ghost use Rattle.std.specs.Prelude.{◌≡◌, ◌++◌, [], suc, slice_set, IfOk, OnOk, Some, None, Decides};
ghost use Rattle.jr_defs.specs.Referents.{Table};
ghost use Rattle.jr_defs.specs.Supertypes.{Above as AboveIn};
ghost use Rattle.jr_plain.specs.Headed.{IsHeaded};
ghost use Rattle.jr_supers.specs.Above as tell;
ghost use Rattle.jr_supers.specs.Direct.{supers_in};
ghost use Rattle.jr_supers.specs.Found.{with_items};

use crate::found::Found;
use crate::pairs::Pairs;
use crate::supers::{Direct, entry_before};
use jr_base::OutOfMemory;
use jr_places::{is_interface, is_object};
use jr_tree::Row;
use std::alloc::Global;

/// Where a type stands among those above it by first supertypes.
#[derive(Clone, Copy, Debug, PartialEq, Eq)]
pub struct Link {
    /// How many stand above it so.
    pub depth: u32,
    pub up: Option<u32>,
    /// One of those above it so, or itself where there is none.
    pub jump: u32,
    /// The nearest type, from this one up, that has more supertypes than the one above it here.
    pub branching: Option<u32>,
    pub has_object: bool,
}

/// The types above each type.
#[derive(Drop)]
pub struct Above {
    pub links: Vec<Option<Link>>,
    /// A type and what stands above it through its further supertypes.
    pub pairs: Pairs,
}

fn link_at(links: &[Option<Link>], at: u32) -> Option<Link>
    ensures { result ≡ tell.link_at links.now at }
{
    match links.get(at as usize) {
        Some(link) => *link,
        None => None,
    }
}

fn up_at(links: &[Option<Link>], at: u32) -> Option<u32>
    ensures { result ≡ tell.up_at links.now at }
{
    match link_at(links, at) {
        Some(link) => link.up,
        None => None,
    }
}

// How many types stand on the way up from a type by first supertypes.
fn turns_from(links: &[Option<Link>], at: u32) -> usize
    ensures { result ≡ suc (tell.depth_of (tell.link_at links.now at)) }
{
    match link_at(links, at) {
        Some(link) => link.depth as usize + 1,
        None => 1,
    }
}

// The nearest type above that has further supertypes.
fn branching_above(links: &[Option<Link>], at: u32) -> Option<u32>
    ensures { result ≡ tell.branching_above links.now at }
{
    match up_at(links, at) {
        Some(up) => match link_at(links, up) {
            Some(link) => link.branching,
            None => None,
        },
        None => None,
    }
}

// One step up from a type with this link, by the jump where that is not too far.
fn jump_up(here: u32, link: Link, far: Option<Link>, depth: u32) -> u32
    ensures { result ≡ tell.jump_up depth here link far }
{
    match far {
        Some(far) => {
            if depth <= far.depth && far.depth < link.depth {
                link.jump
            } else {
                link.up.unwrap_or(here)
            }
        }
        None => link.up.unwrap_or(here),
    }
}

// One step up, unless the type is no deeper.
fn step_up(links: &[Option<Link>], here: u32, depth: u32) -> Option<u32>
    ensures { result ≡ tell.step_up links.now depth here }
{
    match link_at(links, here) {
        Some(link) => {
            if link.depth <= depth {
                None
            } else {
                Some(jump_up(here, link, link_at(links, link.jump), depth))
            }
        }
        None => None,
    }
}

// The type so deep above another by first supertypes.
#[tactic(auto, using(crate::proofs::Walking::climb_more, crate::proofs::Walking::climb_stop, crate::proofs::Walking::climb_last))]
fn at_depth(links: &[Option<Link>], at: u32, depth: u32) -> u32
    ensures { result ≡ tell.at_depth links.now at depth }
{
    let turns = turns_from(links, at);
    let mut here = at;
    for _turn in 0..turns {
        match step_up(links, here, depth) {
            Some(over) => here = over,
            None => return here,
        }
    }
    here
}

// The one stands above the other by first supertypes.
fn is_linked(links: &[Option<Link>], at: u32, low: Link, over: u32) -> bool
    ensures { result ≡ tell.is_linked links.now at low over }
{
    match link_at(links, over) {
        Some(high) => high.depth < low.depth && at_depth(links, at, high.depth) == over,
        None => false,
    }
}

// The one stands above the other through the further supertypes of that or of one above it.
#[tactic(auto, using(crate::proofs::Walking::branched_found, crate::proofs::Walking::branched_none, crate::proofs::Walking::branched_last))]
fn is_branched(links: &[Option<Link>], pairs: &Pairs, low: Link, over: u32) -> bool
    ensures { result ≡ tell.is_branched links.now pairs.now low over }
{
    let mut branching = low.branching;
    let turns = low.depth as usize + 1;
    for _turn in 0..turns {
        match branching {
            Some(here) => {
                if pairs.has(here, over) {
                    return true;
                }
                branching = branching_above(links, here);
            }
            None => return false,
        }
    }
    false
}

// Collects a type, and what stands above it through its further supertypes.
fn add_uppers(alloc: Global, pairs: &Pairs, all: &mut Found, at: u32) -> Result<(), OutOfMemory>
    ensures { OnOk result (all.new ≡ with_items all.old (tell.with_uppers pairs.now at)) }
{
    all.add(alloc, at)?;
    for over in &pairs.uppers(alloc, at)? {
        all.add(alloc, *over)?;
    }
    Ok(())
}

// Collects a type and the types above it, but for Object above interfaces. What stands above a type that is there is there too.
#[tactic(auto, using(crate::proofs::Walking::added_there, crate::proofs::Walking::added_none, crate::proofs::Walking::added_last))]
fn add_above(
    alloc: Global,
    links: &[Option<Link>],
    pairs: &Pairs,
    all: &mut Found,
    at: u32,
) -> Result<(), OutOfMemory>
    ensures { OnOk result (all.new ≡ tell.with_above links.now pairs.now all.old at) }
{
    let turns = turns_from(links, at);
    let mut up = Some(at);
    for _turn in 0..turns {
        match up {
            Some(here) => {
                if all.has(here) {
                    return Ok(());
                }
                add_uppers(alloc, pairs, all, here)?;
                up = up_at(links, here);
            }
            None => return Ok(()),
        }
    }
    Ok(())
}

// The types in a list and those above them, each once.
fn all_above(
    alloc: Global,
    links: &[Option<Link>],
    pairs: &Pairs,
    lows: &[u32],
) -> Result<Vec<u32>, OutOfMemory>
    ensures { IfOk result (λ all. all.items ≡ tell.with_all_above links.now pairs.now [] lows.now) }
{
    let mut all = Found::new(alloc);
    for low in lows {
        add_above(alloc, links, pairs, &mut all, *low)?;
    }
    Ok(all.into_items())
}

// The first supertype, unless it stands above a lower type through further supertypes, as all above it do then.
fn open_up(links: &[Option<Link>], pairs: &Pairs, low: u32, at: u32) -> Option<u32>
    ensures { result ≡ tell.open_up links.now pairs.now low at }
{
    match up_at(links, at) {
        Some(up) => { if pairs.has(low, up) { None } else { Some(up) } }
        None => None,
    }
}

// Adds a type, and what stands above it through its further supertypes.
fn push_uppers(alloc: Global, pairs: &Pairs, all: &mut Vec<u32>, at: u32) -> Result<(), OutOfMemory>
    ensures { OnOk result (all.new.items ≡ all.old.items ++ tell.with_uppers pairs.now at) }
{
    all.push(at)?;
    for over in &pairs.uppers(alloc, at)? {
        all.push(*over)?;
    }
    Ok(())
}

// Adds a type and the types above it, but for Object above interfaces.
#[tactic(auto, using(crate::proofs::Walking::listed_none, crate::proofs::Walking::listed_last))]
fn push_above(
    alloc: Global,
    links: &[Option<Link>],
    pairs: &Pairs,
    all: &mut Vec<u32>,
    at: u32,
) -> Result<(), OutOfMemory>
    ensures { OnOk result (all.new.items ≡ all.old.items ++ tell.at_or_above links.now pairs.now at) }
{
    let turns = turns_from(links, at);
    let mut up = Some(at);
    for _turn in 0..turns {
        match up {
            Some(here) => {
                push_uppers(alloc, pairs, all, here)?;
                up = open_up(links, pairs, at, here);
            }
            None => return Ok(()),
        }
    }
    Ok(())
}

// Where the jump of a type ends that stands right below one with this link: as far as two equal jumps above that, or at that.
fn jump_over(links: &[Option<Link>], up: u32, over: Link) -> u32
    ensures { result ≡ tell.jump_over links.now up over }
{
    match link_at(links, over.jump) {
        Some(far) => match link_at(links, far.jump) {
            Some(farther) => {
                if over.depth.saturating_sub(far.depth) == far.depth.saturating_sub(farther.depth) {
                    far.jump
                } else {
                    up
                }
            }
            None => up,
        },
        None => up,
    }
}

fn top_link(at: u32, branches: bool, has_object: bool) -> Link
    ensures { result ≡ tell.top_link at branches has_object }
{
    Link {
        depth: 0,
        up: None,
        jump: at,
        branching: if branches { Some(at) } else { None },
        has_object,
    }
}

// The link of a type by its first supertype.
fn new_link(
    links: &[Option<Link>],
    at: u32,
    branches: bool,
    has_object: bool,
    first: Option<u32>,
) -> Result<Link, OutOfMemory>
    ensures { IfOk result (λ link. link ≡ tell.new_link links.now at branches has_object first) }
{
    let Some(up) = first else {
        return Ok(top_link(at, branches, has_object));
    };
    let Some(over) = link_at(links, up) else {
        return Ok(top_link(at, branches, has_object));
    };
    let Some(depth) = over.depth.checked_add(1) else {
        return Err(OutOfMemory);
    };
    Ok(Link {
        depth,
        up: Some(up),
        jump: jump_over(links, up, over),
        branching: if branches { Some(at) } else { over.branching },
        has_object,
    })
}

// The first of the supertypes, which stands last, where it is a type that is known.
fn known_first(links: &[Option<Link>], supers: &[u32]) -> Option<u32>
    ensures { result ≡ tell.known_first links.now supers.now }
{
    known_only(links, last_of(supers))
}

fn last_of(all: &[u32]) -> Option<u32>
    ensures { result ≡ tell.last_from None all.now }
{
    let mut before = None;
    for at in all {
        before = Some(*at);
    }
    before
}

fn known_only(links: &[Option<Link>], at: Option<u32>) -> Option<u32>
    ensures { result ≡ tell.known_only links.now at }
{
    match at {
        Some(at) => match link_at(links, at) {
            Some(_) => Some(at),
            None => None,
        },
        None => None,
    }
}

fn push_item(all: &mut Vec<u32>, item: Option<u32>) -> Result<(), OutOfMemory>
    ensures { OnOk result (all.new.items ≡ all.old.items ++ tell.item_list item) }
{
    match item {
        Some(at) => {
            all.push(at)?;
            Ok(())
        }
        None => Ok(()),
    }
}

fn push_unknown(
    all: &mut Vec<u32>,
    links: &[Option<Link>],
    item: Option<u32>,
) -> Result<(), OutOfMemory>
    ensures { OnOk result (all.new.items ≡ all.old.items ++ tell.unknown_list links.now item) }
{
    match item {
        Some(at) => match link_at(links, at) {
            Some(_) => Ok(()),
            None => {
                all.push(at)?;
                Ok(())
            }
        },
        None => Ok(()),
    }
}

// The others.
fn further(alloc: Global, links: &[Option<Link>], supers: &[u32]) -> Result<Vec<u32>, OutOfMemory>
    ensures { IfOk result (λ all. all.items ≡ tell.further links.now supers.now) }
{
    let mut all = Vec::new(alloc);
    let mut before = None;
    for over in supers {
        push_item(&mut all, before)?;
        before = Some(*over);
    }
    push_unknown(&mut all, links, before)?;
    Ok(all)
}

// Object is one of the supertypes, or above one.
fn reach_object(rows: &[Row], links: &[Option<Link>], supers: &[u32]) -> bool
    ensures { result ≡ tell.reach_object rows.now links.now supers.now }
{
    for over in supers {
        if is_object(rows, *over) || has_object(links, *over) {
            return true;
        }
    }
    false
}

fn has_object(links: &[Option<Link>], at: u32) -> bool
    ensures { result ≡ tell.object_of (tell.link_at links.now at) }
{
    match link_at(links, at) {
        Some(link) => link.has_object,
        None => false,
    }
}

fn put(links: &mut Vec<Option<Link>>, at: u32, link: Link)
    ensures { links.new.items ≡ slice_set links.old.items at (Some link) }
{
    if (at as usize) < links.len() {
        links[at as usize] = Some(link);
    }
}

// What stands above the further supertypes of a type, and these.
fn highs_of(
    alloc: Global,
    links: &[Option<Link>],
    pairs: &Pairs,
    supers: &[u32],
) -> Result<Vec<u32>, OutOfMemory>
    ensures { IfOk result (λ all. all.items ≡ tell.highs_of links.now pairs.now supers.now) }
{
    let others = further(alloc, links, supers)?;
    all_above(alloc, links, pairs, &others)
}

// The link of a type by its supertypes.
fn link_for(
    rows: &[Row],
    links: &[Option<Link>],
    at: u32,
    supers: &[u32],
    branches: bool,
) -> Result<Link, OutOfMemory>
    ensures { IfOk result (λ link. link ≡ tell.link_for rows.now links.now at supers.now branches) }
{
    let has_object = is_under_object(rows, links, at, supers);
    let first = known_first(links, supers);
    new_link(links, at, branches, has_object, first)
}

// Object stands above the type.
fn is_under_object(rows: &[Row], links: &[Option<Link>], at: u32, supers: &[u32]) -> bool
    ensures { result ≡ tell.is_under_object rows.now links.now at supers.now }
{
    is_interface(rows, at) || reach_object(rows, links, supers)
}

#[tactic(auto, using(crate::proofs::Keys::some_item_is))]
fn has_items(all: &[u32]) -> bool
    ensures { result ≡ tell.is_some_item all.now }
{
    !all.is_empty()
}

impl Above {
    /// No types, and no room for any.
    pub fn nothing(alloc: Global) -> Above {
        Above {
            links: Vec::new(alloc),
            pairs: Pairs::new(alloc),
        }
    }

    /// No types yet.
    pub fn new(alloc: Global, rows: &[Row]) -> Result<Above, OutOfMemory>
        ensures { IfOk result (λ above. tell.tables above ≡ tell.no_tables rows.now) }
    {
        Ok(Above {
            links: vec![in alloc; None; rows.len()]?,
            pairs: Pairs::new(alloc),
        })
    }

    /// The first supertype, where it is a type of its own.
    pub fn first(&self, at: u32) -> Option<u32>
        ensures { result ≡ tell.up_at self.now.links.items at }
    {
        up_at(&self.links, at)
    }

    /// How many types stand on the way up from a type by first supertypes, with itself.
    pub fn turns(&self, at: u32) -> usize
        ensures { result ≡ suc (tell.depth_of (tell.link_at self.now.links.items at)) }
    {
        turns_from(&self.links, at)
    }

    /// One more type, behind its supertypes. A type that is there already stays as it is.
    pub fn with_type(
        self,
        alloc: Global,
        rows: &[Row],
        direct: &Direct,
        at: u32,
    ) -> Result<Above, OutOfMemory>
        ensures { IfOk result (λ above. tell.tables above ≡ tell.with_type rows.now (supers_in direct.now.supers at) at (tell.tables self)) }
    {
        match self.link(at) {
            Some(_) => Ok(self),
            None => {
                let supers = direct.supers.rows(alloc, at, 0)?;
                self.with_new(alloc, rows, &supers, at)
            }
        }
    }

    fn link(&self, at: u32) -> Option<Link>
        ensures { result ≡ tell.link_at self.now.links.items at }
    {
        link_at(&self.links, at)
    }

    // One more type, with its supertypes from the last back.
    fn with_new(
        self,
        alloc: Global,
        rows: &[Row],
        supers: &[u32],
        at: u32,
    ) -> Result<Above, OutOfMemory>
        ensures { IfOk result (λ above. tell.tables above ≡ tell.with_new rows.now supers.now at (tell.tables self)) }
    {
        let Above { mut links, pairs } = self;
        let highs = highs_of(alloc, &links, &pairs, supers)?;
        let link = link_for(rows, &links, at, supers, has_items(&highs))?;
        let pairs = pairs.add_all(at, &highs)?;
        put(&mut links, at, link);
        Ok(Above { links, pairs })
    }

    /// The types above the types in this order.
    pub fn of(
        alloc: Global,
        rows: &[Row],
        direct: &Direct,
        order: &[u32],
    ) -> Result<Above, OutOfMemory>
        ensures { IfOk result (λ above. tell.tables above ≡ tell.with_types rows.now direct.now.supers (tell.no_tables rows.now) order.now) }
    {
        let mut above = Above::new(alloc, rows)?;
        for at in order {
            above = above.with_type(alloc, rows, direct, *at)?;
        }
        Ok(above)
    }

    /// The type `over` stands strictly above the type `at`.
    pub fn is_above(&self, rows: &[Row], at: u32, over: u32) -> bool
        ensures above { (t : Table) → IsHeaded rows.now → tell.HasNoOtherObject rows.now → tell.AreAllAbove rows.now t (tell.tables self.now) → Decides result (AboveIn rows.now t at over) }
    {
        self.is_above_by_tables(rows, at, over)
    }

    /// The same, as the tables have it.
    pub fn is_above_by_tables(&self, rows: &[Row], at: u32, over: u32) -> bool
        ensures { result ≡ tell.is_above_in rows.now (tell.tables self.now) at over }
    {
        match link_at(&self.links, at) {
            Some(low) => {
                (low.has_object && is_object(rows, over))
                    || is_linked(&self.links, at, low, over)
                    || is_branched(&self.links, &self.pairs, low, over)
            }
            None => false,
        }
    }

    /// A type and the types above it; some may stand there twice, and Object may be absent above an interface.
    pub fn with_above(&self, alloc: Global, at: u32) -> Result<Vec<u32>, OutOfMemory>
        ensures { IfOk result (λ all. all.items ≡ tell.at_or_above self.now.links.items self.now.pairs at) }
    {
        let mut all = Vec::new(alloc);
        push_above(alloc, &self.links, &self.pairs, &mut all, at)?;
        Ok(all)
    }
}

/// The first of the direct supertypes of a type.
pub fn first_super(direct: &Direct, at: u32) -> Option<u32> {
    let mut found = None;
    let mut place = direct.supers.last(at, 0);
    for _turn in 0..direct.supers.len() {
        let Some(here) = place else {
            return found;
        };
        if let Some(entry) = direct.supers.entry(here) {
            found = Some(entry.row);
        }
        place = entry_before(&direct.supers, here);
    }
    found
}
