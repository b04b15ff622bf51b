// The nearest type with a list under each name: for each type a tree of names, which shares with that of its first supertype what both have.
ghost use Rattle.std.specs.Prelude.{◌≡◌, ◌++◌, ◌∷◌, [], ℕ, List, length, Option, Some, None, IfOk, OnOk};
ghost use Rattle.jr_defs.specs.Referents.{Table};
ghost use Rattle.jr_places.specs.declared.chains.Entry.{Entry};
ghost use Rattle.jr_places.specs.Places.{ArePlaces};
ghost use Rattle.jr_supers.specs.Above.{up_at};
ghost use Rattle.jr_members.specs.declared.declared.MemberKind.{MemberKind as KindOf};
ghost use Rattle.jr_members.specs.Each.{AreBelow};
ghost use Rattle.jr_members.specs.Nearest as tell;
ghost use Rattle.jr_members.specs.Sources.{ArePlaced, links_of};

use jr_base::OutOfMemory;
use jr_places::is_interface;
use jr_supers::{Supers, Tabled};
use jr_tree::Row;
use std::alloc::Global;
use std::collections::HashMap;

/// The last types of two runs up from a type by first supertypes.
#[derive(Clone, Copy, Debug, PartialEq, Eq)]
pub struct Runs {
    /// All types of this run stand in one package.
    pub of_package: u32,
    /// All types of this run but its first are classes.
    pub of_classes: u32,
}

/// A type that has a list.
#[derive(Clone, Copy, Debug, PartialEq, Eq)]
pub struct Lister {
    pub at: u32,
    pub runs: Runs,
}

/// The nearest type that has a list for a name, and the trees of other names, by the bit in which they differ.
#[derive(Clone, Copy, Debug, PartialEq, Eq)]
pub struct Node {
    name: u32,
    lister: Lister,
    even: Option<u32>,
    odd: Option<u32>,
}

/// The names for which some type from this one up has a list, as a tree, and its runs.
#[derive(Clone, Copy, Debug, PartialEq, Eq)]
pub struct Outlook {
    pub tree: Option<u32>,
    pub runs: Runs,
}

/// The nearest types with lists, by type and name.
#[derive(Drop)]
pub struct Nearest {
    /// More than a tree of names of 32 bits has.
    levels: u32,
    nodes: Vec<Node>,
    outlooks: HashMap<u32, Outlook>,
}

fn node_of(nodes: &[Node], tree: Option<u32>) -> Option<Node>
    ensures { result ≡ tell.node_of nodes.now tree }
{
    match tree {
        Some(at) => nodes.get(at as usize).copied(),
        None => None,
    }
}

fn is_even(bits: u32) -> bool
    ensures { result ≡ tell.is_even bits }
{
    bits % 2 == 0
}

// The tree below a node on the side of the last bit.
fn below(node: Node, bits: u32) -> Option<u32>
    ensures { result ≡ tell.below node bits }
{
    if is_even(bits) { node.even } else { node.odd }
}

fn with_below(node: Node, bits: u32, tree: u32) -> Node
    ensures { result ≡ tell.with_below node bits tree }
{
    let Node {
        name,
        lister,
        even,
        odd,
    } = node;
    if is_even(bits) {
        Node {
            name,
            lister,
            even: Some(tree),
            odd,
        }
    } else {
        Node {
            name,
            lister,
            even,
            odd: Some(tree),
        }
    }
}

fn with_lister(node: Node, lister: Lister) -> Node
    ensures { result ≡ tell.with_lister node lister }
{
    Node {
        name: node.name,
        lister,
        even: node.even,
        odd: node.odd,
    }
}

fn leaf(name: u32, lister: Lister) -> Node
    ensures { result ≡ tell.leaf name lister }
{
    Node {
        name,
        lister,
        even: None,
        odd: None,
    }
}

// What a tree has for a name, within so many levels.
fn seek(nodes: &[Node], levels: u32, tree: Option<u32>, name: u32) -> Option<Lister>
    ensures { result ≡ tell.seek nodes.now levels name name tree }
{
    let mut here = tree;
    let mut bits = name;
    for _turn in 0..levels {
        match node_of(nodes, here) {
            Some(node) => {
                if node.name == name {
                    return Some(node.lister);
                }
                here = below(node, bits);
                bits /= 2;
            }
            None => return None,
        }
    }
    None
}

fn push_node(nodes: &mut Vec<Node>, node: Node) -> Result<u32, OutOfMemory>
    ensures at { IfOk result (λ at. at ≡ length nodes.old.items) }
    ensures items { OnOk result (nodes.new.items ≡ nodes.old.items ++ node ∷ []) }
{
    let Ok(at) = u32::try_from(nodes.len()) else {
        return Err(OutOfMemory);
    };
    nodes.push(node)?;
    Ok(at)
}

// A tree with one more name, or none where the levels do not reach; the other trees stay as they are.
fn set(
    nodes: &mut Vec<Node>,
    levels: u32,
    tree: Option<u32>,
    bits: u32,
    name: u32,
    lister: Lister,
) -> Result<Option<u32>, OutOfMemory>
    ensures { tell.IsClosed nodes.old.items → tell.IsIn nodes.old.items tree → IfOk result (λ found. tell.Sets levels tree bits name lister nodes.old.items nodes.new.items found) }
{
    if levels == 0 {
        return Ok(None);
    }
    match node_of(nodes, tree) {
        Some(node) => {
            if node.name == name {
                return Ok(Some(push_node(nodes, with_lister(node, lister))?));
            }
            match set(nodes, levels - 1, below(node, bits), bits / 2, name, lister)? {
                Some(under) => Ok(Some(push_node(nodes, with_below(node, bits, under))?)),
                None => Ok(None),
            }
        }
        None => Ok(Some(push_node(nodes, leaf(name, lister))?)),
    }
}

// The tree of a type above which the given outlook stands, with the names of these rows set, or none where some tree is too deep.
fn grow(
    nodes: &mut Vec<Node>,
    levels: u32,
    under: Tabled,
    over: u32,
    start: Outlook,
    rows: &[u32],
) -> Result<Option<Outlook>, OutOfMemory>
    ensures { ArePlaces under.entry.rows.now under.entry.places.now → AreBelow (length under.entry.rows.now) rows.now → tell.IsClosed nodes.old.items → tell.IsIn nodes.old.items start.tree → IfOk result (λ found. tell.Grows under.entry.rows.now over start levels rows.now nodes.old.items nodes.new.items found) }
{
    let runs = start.runs;
    let mut tree = start.tree;
    for at in rows {
        let name = under.places.name(*at);
        match set(nodes, levels, tree, name, name, Lister { at: over, runs })? {
            Some(found) => tree = Some(found),
            None => return Ok(None),
        }
    }
    Ok(Some(Outlook { tree, runs }))
}

impl Runs {
    // The runs of a type with nothing above it.
    fn at(over: u32) -> Runs
        ensures { result ≡ tell.runs_at over }
    {
        Runs {
            of_package: over,
            of_classes: over,
        }
    }

    // Those of the type right below, where it is told whether both are of one package.
    fn below(self, rows: &[Row], over: u32, up: u32, is_same: bool) -> Runs
        ensures { result ≡ tell.runs_below rows.now over up self is_same }
    {
        Runs {
            of_package: if is_same { self.of_package } else { over },
            of_classes: if is_interface(rows, up) {
                over
            } else {
                self.of_classes
            },
        }
    }
}

impl Nearest {
    /// No types.
    pub fn new(alloc: Global) -> Nearest
        ensures { tell.IsBlank result }
    {
        Nearest {
            levels: 33,
            nodes: Vec::new(alloc),
            outlooks: HashMap::new(alloc),
        }
    }

    /// What is known of a type.
    pub fn outlook(&self, over: u32) -> Option<Outlook>
        ensures { result ≡ tell.known_in self.now over }
    {
        self.outlooks.get(&over).copied()
    }

    /// The nearest type with a list for the name, from a type with this outlook up.
    pub fn lister(&self, outlook: Outlook, name: u32) -> Option<Lister>
        ensures { result ≡ tell.seek self.now.nodes.items self.now.levels name name outlook.tree }
    {
        seek(&self.nodes, self.levels, outlook.tree, name)
    }

    // The outlook of a type below its first supertype, without names of its own.
    fn start(&self, under: Tabled, over: u32, up: Option<u32>) -> Option<Outlook>
        ensures { ArePlaced under.entry.rows.now under.entry.places.now → result ≡ tell.first_outlook under.entry.rows.now (tell.known_in self.now) over up }
    {
        match up {
            Some(up) => self.start_below(under, over, up),
            None => Some(Outlook {
                tree: None,
                runs: Runs::at(over),
            }),
        }
    }

    fn start_below(&self, under: Tabled, over: u32, up: u32) -> Option<Outlook>
        ensures { ArePlaced under.entry.rows.now under.entry.places.now → result ≡ tell.outlook_below under.entry.rows.now over up (tell.known_in self.now up) }
    {
        let is_same = under.places.is_one_package(over, up);
        match self.outlook(up) {
            Some(above) => Some(Outlook {
                tree: above.tree,
                runs: above.runs.below(under.rows, over, up, is_same),
            }),
            None => None,
        }
    }

    /// One more type, behind its supertypes, which has a list for the names of these rows. A type that is known stays as it is.
    pub fn add(
        &mut self,
        under: Tabled,
        supers: &Supers,
        over: u32,
        rows: &[u32],
    ) -> Result<(), OutOfMemory>
        ensures { (t : Table) (kind : KindOf) (lists : List Entry) → ArePlaced under.entry.rows.now under.entry.places.now → tell.AreNear under.entry.rows.now t kind lists self.old → tell.IsListed under.entry.rows.now t kind lists (up_at (links_of supers.now) over) over rows.now → OnOk result (tell.AreNear under.entry.rows.now t kind lists self.new) }
    {
        match self.outlook(over) {
            Some(_) => Ok(()),
            None => self.add_below(under, over, supers.linked(over), rows),
        }
    }

    // A type that is not known, below its first supertype.
    fn add_below(
        &mut self,
        under: Tabled,
        over: u32,
        up: Option<u32>,
        rows: &[u32],
    ) -> Result<(), OutOfMemory>
        ensures { (t : Table) (kind : KindOf) (lists : List Entry) → ArePlaced under.entry.rows.now under.entry.places.now → tell.AreNear under.entry.rows.now t kind lists self.old → tell.IsListed under.entry.rows.now t kind lists up over rows.now → tell.known_in self.old over ≡ None → OnOk result (tell.AreNear under.entry.rows.now t kind lists self.new) }
    {
        match self.start(under, over, up) {
            Some(start) => self.add_from(under, over, start, rows),
            None => Ok(()),
        }
    }

    // The same, with the outlook that it has without names of its own.
    fn add_from(
        &mut self,
        under: Tabled,
        over: u32,
        start: Outlook,
        rows: &[u32],
    ) -> Result<(), OutOfMemory>
        ensures { (t : Table) (kind : KindOf) (lists : List Entry) (up : Option ℕ) → ArePlaced under.entry.rows.now under.entry.places.now → tell.AreNear under.entry.rows.now t kind lists self.old → tell.IsListed under.entry.rows.now t kind lists up over rows.now → tell.known_in self.old over ≡ None → tell.first_outlook under.entry.rows.now (tell.known_in self.old) over up ≡ Some start → OnOk result (tell.AreNear under.entry.rows.now t kind lists self.new) }
    {
        match grow(&mut self.nodes, self.levels, under, over, start, rows)? {
            Some(outlook) => {
                self.outlooks.insert(over, outlook)?;
                Ok(())
            }
            None => Ok(()),
        }
    }
}
