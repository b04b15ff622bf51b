// The definitions that reach each use.
ghost use Rattle.std.specs.Prelude.{◌≡◌, ◌+◌, ◌<◌, ◌≤◌, ◌∷◌, ◌++◌, [], ℕ, List, Bool, true, IfOk, OnOk, Some, length, map, slice_get, if◌then◌else◌};
ghost use Rattle.std.specs.List.Sorted.{IsPermutation};
ghost use Rattle.jr_tree.specs.Rows.{Rows};
ghost use Rattle.jr_flow_defs.specs.declared.point.Point as defs;
ghost use Rattle.jr_flow_defs.specs.declared.point.PointKind.TheVariants as kind;
ghost use Rattle.jr_flow_defs.specs.Meaning.{Meaning};
ghost use Rattle.jr_flow_defs.specs.Edges.{point};
ghost use Rattle.jr_flow.specs.declared.webs.Finder as code;
ghost use Rattle.jr_flow.specs.declared.point.Step as code_step;
ghost use Rattle.jr_places.specs.Stamps.{IsStamping};
ghost use Rattle.jr_flow.specs.Linked.{first_of, AreLinked};
ghost use Rattle.jr_flow.specs.Woven as tell;
ghost use Rattle.jr_flow.specs.Reached.{step_seen, steps_of, IsGraphOf, AreReaching, AreDefUses};

use crate::links::Links;
use crate::locals::Locals;
use crate::point::{Graph, Point, PointKind, Step};
use crate::search::{Gate, Search};
use jr_base::OutOfMemory;
use jr_places::Stamps;
use std::alloc::Global;

// The points of each local, and the points behind and before each point.
#[derive(Drop)]
pub(crate) struct Web {
    definitions: Links,
    uses: Links,
    behind: Links,
    before: Links,
}

// ---- the points and steps by number

fn pairs_behind(alloc: Global, steps: &[Step]) -> Result<Vec<(u32, u32)>, OutOfMemory>
    ensures { IfOk result (λ pairs. pairs.items ≡ map tell.pair_behind steps.now) }
{
    let mut pairs = Vec::new(alloc);
    for nth in 0..steps.len() {
        pairs.push((steps[nth].from, steps[nth].to))?;
    }
    Ok(pairs)
}

fn pairs_before(alloc: Global, steps: &[Step]) -> Result<Vec<(u32, u32)>, OutOfMemory>
    ensures { IfOk result (λ pairs. pairs.items ≡ map tell.pair_before steps.now) }
{
    let mut pairs = Vec::new(alloc);
    for nth in 0..steps.len() {
        pairs.push((steps[nth].to, steps[nth].from))?;
    }
    Ok(pairs)
}

fn links_behind(alloc: Global, steps: &[Step]) -> Result<Links, OutOfMemory>
    ensures { IfOk result (λ links. AreLinked (map tell.pair_behind steps.now) links) }
{
    let mut pairs = pairs_behind(alloc, steps)?;
    Links::of(alloc, &mut pairs)
}

fn links_before(alloc: Global, steps: &[Step]) -> Result<Links, OutOfMemory>
    ensures { IfOk result (λ links. AreLinked (map tell.pair_before steps.now) links) }
{
    let mut pairs = pairs_before(alloc, steps)?;
    Links::of(alloc, &mut pairs)
}

// The bound, or what is just above the number.
fn above(bound: usize, number: u32) -> usize
    ensures least { bound ≤ result }
    ensures inside { number < result }
{
    if (number as usize) < bound {
        bound
    } else {
        (number as usize).saturating_add(1)
    }
}

// Above the numbers of all points, also of those that have steps alone.
fn bound_of(points: &[Point], steps: &[Step]) -> usize
    ensures { tell.IsBound points.now steps.now result }
{
    let mut bound = points.len();
    for nth in 0..steps.len() {
        bound = above(above(bound, steps[nth].from), steps[nth].to);
    }
    bound
}

fn web_of(alloc: Global, steps: &[Step], locals: &mut Locals) -> Result<Box<Web>, OutOfMemory>
    ensures lists { IfOk result (λ web. tell.IsWeb (tell.definitions_of locals.old) (tell.uses_of locals.old) steps.now web.value) }
    ensures rows { tell.rows_of locals.new ≡ tell.rows_of locals.old }
{
    let definitions = locals.link_definitions(alloc)?;
    let uses = locals.link_uses(alloc)?;
    let behind = links_behind(alloc, steps)?;
    let before = links_before(alloc, steps)?;
    let web = Web {
        definitions,
        uses,
        behind,
        before,
    };
    Ok(Box::new(alloc, web)?)
}

// ---- the search

// The next number in the list of one.
fn put_at(set: &mut Stamps, links: &Links, nth: usize)
    ensures { (bound key : ℕ) (all : List (ℕ × ℕ)) → AreLinked all links.now → first_of links.now key ≤ nth → nth < first_of links.now (key + 1) → tell.HasBefore bound all links.now key nth set.old → tell.HasBefore bound all links.now key (nth + 1) set.new }
{
    let Some(number) = links.item(nth) else {
        return;
    };
    set.add(number);
}

// The numbers in the list of one.
fn put_list(set: &mut Stamps, links: &Links, key: u32) -> Result<(), OutOfMemory>
    ensures { (bound : ℕ) (all : List (ℕ × ℕ)) → AreLinked all links.now → IsStamping set.old bound → OnOk result (tell.HasList bound all key set.new) }
{
    set.empty()?;
    for nth in links.first(key as usize)..links.end(key) {
        put_at(set, links, nth);
    }
    Ok(())
}

// A use of the local has this number.
fn is_use(points: &[Point], number: u32, local: u32) -> bool
    ensures { result ≡ tell.is_use local (slice_get points.now number) }
{
    match points.get(number as usize) {
        Some(point) => match point.kind {
            PointKind::Use { local: row } => row == local,
            _ => false,
        },
        None => false,
    }
}

// Notes a number with a definition, if it is a use of the local.
fn note_use(
    pairs: &mut Vec<(u32, u32)>,
    points: &[Point],
    number: u32,
    local: u32,
    definition: u32,
) -> Result<(), OutOfMemory>
    ensures { OnOk result (pairs.new.items ≡ pairs.old.items ++ (if tell.is_use local (slice_get points.now number) then (definition, number) ∷ [] else [])) }
{
    if !is_use(points, number, local) {
        return Ok(());
    }
    pairs.push((definition, number))?;
    Ok(())
}

// Notes those of the numbers that are uses of the local.
fn note_uses(
    pairs: &mut Vec<(u32, u32)>,
    points: &[Point],
    found: &[u32],
    local: u32,
    definition: u32,
) -> Result<(), OutOfMemory>
    ensures { OnOk result (tell.NotesUses points.now local definition found.now (length found.now) pairs.old.items pairs.new.items) }
{
    for nth in 0..found.len() {
        note_use(pairs, points, found[nth], local, definition)?;
    }
    Ok(())
}

/// The search for the uses that definitions reach.
#[derive(Drop)]
pub(crate) struct Finder {
    /// The definitions of the local.
    walls: Stamps,
    /// Its uses, and the points from which steps lead to a use with no definition between.
    live: Search,
    /// What is live behind a definition, with no other definition between.
    behind: Search,
    pairs: Vec<(u32, u32)>,
}

impl Finder {
    fn new(alloc: Global, bound: usize) -> Result<Finder, OutOfMemory>
        ensures { IfOk result (λ finder. tell.IsFinder bound finder × (tell.pairs_in finder ≡ [])) }
    {
        let walls = Stamps::new(alloc, bound)?;
        let live = Search::new(alloc, bound)?;
        let behind = Search::new(alloc, bound)?;
        Ok(Finder {
            walls,
            live,
            behind,
            pairs: Vec::new(alloc),
        })
    }

    // Finds what is live for a local.
    fn find_live(&mut self, web: &Web, key: u32) -> Result<(), OutOfMemory>
        ensures live { (bound : ℕ) (definitions uses : List (ℕ × ℕ)) (steps : List code_step.Step) → tell.IsWeb definitions uses steps web.now → tell.IsFinder bound self.old → OnOk result (tell.HasLive bound definitions uses steps key self.new) }
        ensures pairs { OnOk result (tell.pairs_in self.new ≡ tell.pairs_in self.old) }
    {
        put_list(&mut self.walls, &web.definitions, key)?;
        let gate = Gate {
            set: &self.walls,
            is_inside: false,
        };
        self.live.run(&gate, &web.uses, key, &web.before)
    }

    // Notes the uses that a definition reaches.
    fn follow(
        &mut self,
        points: &[Point],
        web: &Web,
        local: u32,
        definition: u32,
    ) -> Result<(), OutOfMemory>
        ensures { (bound key row : ℕ) (steps : List code_step.Step) (rows : List ℕ) (woven : tell.IsWovenOf points.now steps rows web.now) → tell.IsBound points.now steps bound → slice_get rows key ≡ Some local
            → slice_get points.now definition ≡ point row (kind.Definition local) → tell.HasLive bound woven.definitions woven.uses steps key self.old
            → OnOk result (tell.Follows bound woven.definitions woven.uses points.now steps key (tell.of_definition definition local) self.old self.new) }
    {
        let gate = Gate {
            set: self.live.met(),
            is_inside: true,
        };
        self.behind
            .run(&gate, &web.behind, definition, &web.behind)?;
        note_uses(
            &mut self.pairs,
            points,
            self.behind.found(),
            local,
            definition,
        )
    }

    // Notes the uses that the next definition of a local reaches.
    fn follow_at(
        &mut self,
        points: &[Point],
        web: &Web,
        local: u32,
        nth: usize,
    ) -> Result<(), OutOfMemory>
        ensures { (bound key : ℕ) (steps : List code_step.Step) (rows : List ℕ) (first : code.Finder) (woven : tell.IsWovenOf points.now steps rows web.now) → tell.IsBound points.now steps bound → slice_get rows key ≡ Some local
            → first_of web.now.definitions key ≤ nth → nth < first_of web.now.definitions (key + 1) → tell.Follows bound woven.definitions woven.uses points.now steps key (tell.of_list web.now.definitions key nth local) first self.old
            → OnOk result (tell.Follows bound woven.definitions woven.uses points.now steps key (tell.of_list web.now.definitions key (nth + 1) local) first self.new) }
    {
        match web.definitions.item(nth) {
            Some(definition) => self.follow(points, web, local, definition),
            None => Ok(()),
        }
    }

    // Notes the uses that the definitions of a local reach.
    fn find(&mut self, points: &[Point], web: &Web, local: u32, key: u32) -> Result<(), OutOfMemory>
        ensures { (bound : ℕ) (steps : List code_step.Step) (rows : List ℕ) → tell.IsWovenOf points.now steps rows web.now → tell.IsBound points.now steps bound → slice_get rows key ≡ Some local
            → tell.IsFinder bound self.old → OnOk result (tell.Finds bound points.now steps (tell.of_local local) self.old self.new) }
    {
        self.find_live(web, key)?;
        for nth in web.definitions.first(key as usize)..web.definitions.end(key) {
            self.follow_at(points, web, local, nth)?;
        }
        Ok(())
    }

    // Notes the uses that the definitions of these locals reach.
    fn find_all(&mut self, points: &[Point], web: &Web, locals: &[u32]) -> Result<(), OutOfMemory>
        ensures { (bound : ℕ) (steps : List code_step.Step) → tell.IsWovenOf points.now steps locals.now web.now → tell.IsBound points.now steps bound
            → tell.IsFinder bound self.old → OnOk result (tell.Finds bound points.now steps (tell.of_first locals.now (length locals.now)) self.old self.new) }
    {
        let Ok(count) = u32::try_from(locals.len()) else {
            return Err(OutOfMemory);
        };
        for key in 0..count {
            self.find(points, web, locals[key as usize], key)?;
        }
        Ok(())
    }
}

// ---- all locals

// The pairs in the order in which they are found.
fn pairs_of(
    alloc: Global,
    points: &[Point],
    steps: &[Step],
    web: &Web,
    locals: &[u32],
) -> Result<Vec<(u32, u32)>, OutOfMemory>
    ensures { tell.IsWovenOf points.now steps.now locals.now web.now → IfOk result (λ pairs. AreReaching points.now (map step_seen steps.now) pairs.items) }
{
    let mut finder = Finder::new(alloc, bound_of(points, steps))?;
    finder.find_all(points, web, locals)?;
    Ok(finder.pairs)
}

fn locals_of(alloc: Global, points: &[Point]) -> Result<Box<Locals>, OutOfMemory>
    ensures { IfOk result (λ locals. tell.AreLocals points.now (length points.now) locals.value) }
{
    let mut locals = Locals::new(alloc);
    locals.add_all(points)?;
    Ok(Box::new(alloc, locals)?)
}

fn pairs_found(
    alloc: Global,
    points: &[Point],
    steps: &[Step],
    locals: &mut Locals,
) -> Result<Vec<(u32, u32)>, OutOfMemory>
    ensures { tell.AreLocals points.now (length points.now) locals.old → IfOk result (λ pairs. AreReaching points.now (map step_seen steps.now) pairs.items) }
{
    let web = web_of(alloc, steps, locals)?;
    pairs_of(alloc, points, steps, &web, locals.rows())
}

fn sort_found(pairs: &mut Vec<(u32, u32)>)
    ensures { IsPermutation pairs.old.items pairs.new.items }
{
    pairs.sort_unstable();
}

/// The pairs of a definition and a use of one local, by the numbers of their points, such that steps lead from the definition to the use with no other
/// definition of that local between. They rise, and each stands once. Where the graph is that of a body they are the edges from definitions to uses of its flow.
pub fn reaching(alloc: Global, graph: &Graph) -> Result<Vec<(u32, u32)>, OutOfMemory>
    ensures pairs { IfOk result (λ pairs. AreReaching graph.now.points.items (steps_of graph.now) pairs.items) }
    ensures edges { (p : Rows) (m : Meaning) → IsGraphOf p m graph.now → IfOk result (λ pairs. AreDefUses p m graph.now pairs.items) }
{
    let mut locals = locals_of(alloc, &graph.points)?;
    let mut pairs = pairs_found(alloc, &graph.points, &graph.steps, &mut *locals)?;
    sort_found(&mut pairs);
    Ok(pairs)
}
