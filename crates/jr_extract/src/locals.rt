// The locals that an added method takes, declares and gives back.
ghost use Rattle.std.specs.Prelude.{◌≡◌, ◌++◌, None, Some, IfOk, OnOk, option_and_then};
ghost use Rattle.jr_tree.specs.Rows.{role_at as role_in};
ghost use Rattle.jr_defs.specs.Referents.{entries};
ghost use Rattle.jr_supers.specs.Supers.{ListsOnce, SortsOnce, is_last, once};
ghost use Rattle.jr_supers.specs.Tabled.{IsSized};
ghost use Rattle.jr_flow.specs.Reached.{AreReaching, steps_of};
ghost use Rattle.jr_extract.specs.Handing as spec;

use crate::run::Run;
use jr_base::OutOfMemory;
use jr_defs::RowType;
use jr_flow::{Graph, Point, PointKind, reaching};
use jr_members::has;
use jr_places::role_at;
use jr_supers::Tabled;
use jr_tree::{Role, Row};
use std::alloc::Global;

/// A local or parameter, by the row that declares it, and its type.
#[derive(Clone, Copy)]
pub(crate) struct Variable {
    pub(crate) row: u32,
    pub(crate) ty: RowType,
}

/// The locals of an added method, in the order of their declarations.
#[derive(Drop)]
pub(crate) struct Locals {
    /// Those that are declared outside the run and have a value from there that is used in it.
    pub(crate) parameters: Vec<Variable>,
    /// The others that are declared outside the run and named in it.
    pub(crate) fresh: Vec<Variable>,
    /// The first that gets a value in the run which is used outside it.
    pub(crate) result: Option<Variable>,
}

// A local gets a value at one row that is used at another.
#[derive(Clone, Copy)]
struct Flow {
    local: u32,
    from: u32,
    to: u32,
}

// The value that a local gets at the first point is used at the second.
fn flow_between(from: Point, to: Point) -> Option<Flow>
    ensures { result ≡ spec.flow_by from.kind from.row to.row }
{
    match from.kind {
        PointKind::Definition { local } => Some(Flow {
            local,
            from: from.row,
            to: to.row,
        }),
        _ => None,
    }
}

// A definition and a use that it reaches, by the numbers of their points.
fn flow_of(points: &[Point], pair: (u32, u32)) -> Option<Flow>
    ensures { result ≡ spec.flow_of points.now pair }
{
    match points.get(pair.0 as usize) {
        Some(from) => match points.get(pair.1 as usize) {
            Some(to) => flow_between(*from, *to),
            None => None,
        },
        None => None,
    }
}

impl Flow {
    // A local from outside brings its value into the run.
    fn enters(self, run: Run) -> bool
        ensures { result ≡ spec.enters run self }
    {
        !run.holds(self.local) && !run.holds(self.from) && run.holds(self.to)
    }

    // A value leaves the run.
    fn leaves(self, run: Run) -> bool
        ensures { result ≡ spec.leaves run self }
    {
        run.holds(self.from) && !run.holds(self.to)
    }
}

// The local whose value enters the run by these points.
fn entering_by(points: &[Point], run: Run, pair: (u32, u32)) -> Option<u32>
    ensures { result ≡ spec.entering_by points.now run pair }
{
    match flow_of(points, pair) {
        Some(flow) => {
            if flow.enters(run) {
                Some(flow.local)
            } else {
                None
            }
        }
        None => None,
    }
}

// The local whose value leaves the run by these points.
fn leaving_by(points: &[Point], run: Run, pair: (u32, u32)) -> Option<u32>
    ensures { result ≡ spec.leaving_by points.now run pair }
{
    match flow_of(points, pair) {
        Some(flow) => {
            if flow.leaves(run) {
                Some(flow.local)
            } else {
                None
            }
        }
        None => None,
    }
}

// Adds what is found.
#[tactic(auto, using(jr_weave::proofs::Adding::adds_none))]
fn push_found(all: &mut Vec<u32>, found: Option<u32>) -> Result<(), OutOfMemory>
    ensures { OnOk result (all.new.items ≡ all.old.items ++ spec.listed found) }
{
    if let Some(row) = found {
        all.push(row)?;
    }
    Ok(())
}

fn is_same(last: Option<u32>, number: u32) -> bool
    ensures { result ≡ is_last last number }
{
    match last {
        Some(before) => before == number,
        None => false,
    }
}

// Numbers that rise, each once.
fn each_once(alloc: Global, numbers: &[u32]) -> Result<Vec<u32>, OutOfMemory>
    ensures { IfOk result (λ all. all.items ≡ once None numbers.now) }
{
    let mut all = Vec::new(alloc);
    let mut last = None;
    for number in numbers {
        if !is_same(last, *number) {
            all.push(*number)?;
        }
        last = Some(*number);
    }
    Ok(all)
}

// The numbers as they rise, each once.
fn in_order(alloc: Global, numbers: &mut [u32]) -> Result<Vec<u32>, OutOfMemory>
    ensures { IfOk result (λ all. SortsOnce numbers.old all.items) }
{
    numbers.sort_unstable();
    let all = each_once(alloc, numbers)?;
    Ok(all)
}

// The locals whose values enter the run, as they are found.
fn all_entering(
    alloc: Global,
    points: &[Point],
    pairs: &[(u32, u32)],
    run: Run,
) -> Result<Vec<u32>, OutOfMemory>
    ensures { IfOk result (λ all. all.items ≡ spec.given (spec.entering_by points.now run) pairs.now) }
{
    let mut all = Vec::new(alloc);
    for pair in pairs {
        push_found(&mut all, entering_by(points, run, *pair))?;
    }
    Ok(all)
}

// The locals whose values enter the run.
fn entering(
    alloc: Global,
    graph: &Graph,
    pairs: &[(u32, u32)],
    run: Run,
) -> Result<Vec<u32>, OutOfMemory>
    ensures { IfOk result (λ all. AreReaching graph.now.points.items (steps_of graph.now) pairs.now → ListsOnce all.items (spec.Enters graph.now run)) }
{
    let mut all = all_entering(alloc, &graph.points, pairs, run)?;
    let out = in_order(alloc, &mut all)?;
    Ok(out)
}

// The lower of both, where there are two.
fn lower(first: Option<u32>, found: Option<u32>) -> Option<u32>
    ensures { result ≡ spec.lower first found }
{
    match first {
        Some(row) => match found {
            Some(other) => { if other < row { Some(other) } else { Some(row) } }
            None => Some(row),
        },
        None => found,
    }
}

// The first local of which a value leaves the run.
fn first_leaving(points: &[Point], pairs: &[(u32, u32)], run: Run) -> Option<u32>
    ensures { result ≡ spec.lowest (spec.leaving_by points.now run) None pairs.now }
{
    let mut first = None;
    for pair in pairs {
        first = lower(first, leaving_by(points, run, *pair));
    }
    first
}

fn is_local(rows: &[Row], at: u32) -> bool
    ensures { result ≡ spec.is_local_role (role_in rows.now at) }
{
    match role_at(rows, at) {
        Role::Local => true,
        Role::Parameter => true,
        _ => false,
    }
}

// The local declared outside the run that a row names, if it names one.
fn outer_local(under: Tabled, run: Run, at: u32) -> Option<u32>
    ensures { result ≡ spec.outer_local under.entry.rows.now (entries under.entry.table.now) run at }
{
    match under.declared(at) {
        Some(row) => {
            if !run.holds(row) && is_local(under.rows, row) {
                Some(row)
            } else {
                None
            }
        }
        None => None,
    }
}

// The locals declared outside the run that are named in it, as they are found.
fn all_named(alloc: Global, under: &Tabled, run: Run) -> Result<Vec<u32>, OutOfMemory>
    ensures { IfOk result (λ all. all.items
        ≡ spec.given_from (spec.outer_local under.now.rows.now (entries under.now.table.now) run) run.rows.first run.rows.end) }
{
    let mut all = Vec::new(alloc);
    for at in run.rows.first..run.rows.end {
        push_found(&mut all, outer_local(*under, run, at))?;
    }
    Ok(all)
}

// The locals declared outside the run that are named in it.
fn named_in(alloc: Global, under: &Tabled, run: Run) -> Result<Vec<u32>, OutOfMemory>
    ensures { IfOk result (λ all. ListsOnce all.items (spec.IsNamedIn under.now.rows.now (entries under.now.table.now) run)) }
{
    let mut all = all_named(alloc, under, run)?;
    let out = in_order(alloc, &mut all)?;
    Ok(out)
}

// A local as a variable. In a program that is bound each has a type.
fn typed(under: &Tabled, row: u32) -> Result<Variable, OutOfMemory>
    ensures { IfOk result (λ variable. IsSized under.now.rows.now → Some variable ≡ spec.variable_of under.now.rows.now (entries under.now.table.now) row) }
{
    match under.type_of_declared(row) {
        Some(ty) => Ok(Variable { row, ty }),
        None => Err(OutOfMemory),
    }
}

// Adds a local as a variable.
fn push_typed(all: &mut Vec<Variable>, under: &Tabled, row: u32) -> Result<(), OutOfMemory>
    ensures { OnOk result (IsSized under.now.rows.now
        → all.new.items ≡ all.old.items ++ spec.typed under.now.rows.now (entries under.now.table.now) row) }
{
    let variable = typed(under, row)?;
    all.push(variable)?;
    Ok(())
}

// The locals as variables.
fn variables_of(alloc: Global, under: &Tabled, locals: &[u32]) -> Result<Vec<Variable>, OutOfMemory>
    ensures { IfOk result (λ all. IsSized under.now.rows.now → all.items ≡ spec.variables_of under.now.rows.now (entries under.now.table.now) locals.now) }
{
    let mut all = Vec::new(alloc);
    for row in locals {
        push_typed(&mut all, under, *row)?;
    }
    Ok(all)
}

// Adds a number that is not among others.
#[tactic(auto, using(jr_weave::proofs::Adding::adds_none))]
fn push_other(all: &mut Vec<u32>, others: &[u32], row: u32) -> Result<(), OutOfMemory>
    ensures { OnOk result (all.new.items ≡ all.old.items ++ spec.other_of others.now row) }
{
    if !has(others, row) {
        all.push(row)?;
    }
    Ok(())
}

// Those that are not among others.
fn without(alloc: Global, locals: &[u32], others: &[u32]) -> Result<Vec<u32>, OutOfMemory>
    ensures { IfOk result (λ all. all.items ≡ spec.without locals.now others.now) }
{
    let mut all = Vec::new(alloc);
    for row in locals {
        push_other(&mut all, others, *row)?;
    }
    Ok(all)
}

// The others that are named in the run.
fn fresh_of(
    alloc: Global,
    under: &Tabled,
    run: Run,
    entering: &[u32],
) -> Result<Vec<Variable>, OutOfMemory>
    ensures { IfOk result (λ all. IsSized under.now.rows.now → spec.AreFresh under.now.rows.now (entries under.now.table.now) run entering.now all.items) }
{
    let named = named_in(alloc, under, run)?;
    let others = without(alloc, &named, entering)?;
    let all = variables_of(alloc, under, &others)?;
    Ok(all)
}

fn result_of(under: &Tabled, leaving: Option<u32>) -> Result<Option<Variable>, OutOfMemory>
    ensures { IfOk result (λ given. IsSized under.now.rows.now
        → given ≡ option_and_then (spec.variable_of under.now.rows.now (entries under.now.table.now)) leaving) }
{
    match leaving {
        Some(row) => Ok(Some(typed(under, row)?)),
        None => Ok(None),
    }
}

// The locals, by those whose values enter the run and the one of which a value leaves it.
fn locals_by(
    alloc: Global,
    under: &Tabled,
    run: Run,
    entering: &[u32],
    leaving: Option<u32>,
) -> Result<Locals, OutOfMemory>
    ensures { IfOk result (λ locals. IsSized under.now.rows.now → spec.AreLocalsBy under.now.rows.now (entries under.now.table.now) run entering.now leaving locals) }
{
    let result = result_of(under, leaving)?;
    let parameters = variables_of(alloc, under, entering)?;
    let fresh = fresh_of(alloc, under, run, entering)?;
    Ok(Locals {
        parameters,
        fresh,
        result,
    })
}

/// The locals of the method that is made of a run, by the graph of the body in which that stands.
pub(crate) fn locals_of(
    alloc: Global,
    under: &Tabled,
    graph: &Graph,
    run: Run,
) -> Result<Locals, OutOfMemory>
    ensures { IfOk result (λ locals. IsSized under.now.rows.now → spec.AreHanded under.now.rows.now (entries under.now.table.now) graph.now run locals) }
{
    let pairs = reaching(alloc, graph)?;
    let entering = entering(alloc, graph, &pairs, run)?;
    let leaving = first_leaving(&graph.points, &pairs, run);
    let locals = locals_by(alloc, under, run, &entering, leaving)?;
    Ok(locals)
}
