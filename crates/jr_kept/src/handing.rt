// Definitions that only hand on what reaches a use: parameters of an added method, and the local to which its call is assigned.
ghost use Rattle.std.specs.Prelude.{◌≡◌, ◌+◌, ◌<◌, ◌^◌, ℕ, true, Decides, None, Some, IfNone, IfOk, IfSome, filter, length, slice_get, slice_set};
ghost use Rattle.jr_tree.specs.Rows as tree;
ghost use Rattle.jr_flow_defs.specs.Acts as acts;
ghost use Rattle.jr_flow_defs.specs.Kept as kept;
ghost use Rattle.jr_kept.specs.Named.{origin_in};
ghost use Rattle.jr_kept.specs.Gathered as tell;
ghost use Rattle.jr_kept.specs.Handed as handed;
ghost use Rattle.jr_kept.specs.Ordered.{AreNone, Checks, Tells};

use crate::dropped::{is_inside, some_if};
use crate::edges::{Edge, Firsts};
use crate::flows::{Flows, count_rows, is_parameter, rows_of};
use crate::gathering::point_at;
use crate::joined::push_if;
use jr_base::OutOfMemory;
use jr_change::{NO_ROW, RowRange};
use jr_flow::{Point, PointKind};
use jr_locks::row_for;
use jr_places::{end_at, parent_at};
use jr_tree::{Label, Row};
use std::alloc::Global;

/// The use from which each definition is handed on, by rows of the changed program.
#[derive(Drop)]
pub(crate) struct Handing {
    first: u32,
    /// The row of the use for each row from the first on, or `NO_ROW` where the row hands nothing on.
    uses: Vec<u32>,
}

/// What crosses between a call and the method that it calls.
#[derive(Drop)]
struct Crossing {
    parameters: Vec<u32>,
    arguments: Vec<u32>,
    /// The rows of the statement in which the call stands.
    statement: RowRange,
    method: RowRange,
    /// The row of the use of what the method returns: the first added use in it.
    returned: Option<u32>,
}

// ---- rows

// The rows from one on that stand before another, each behind the one before, so many at most.
fn siblings(
    alloc: Global,
    rows: &[Row],
    from: u32,
    stop: u32,
    room: u32,
) -> Result<Vec<u32>, OutOfMemory>
    ensures { IfOk result (λ all. all.items ≡ acts.siblings rows.now room from stop) }
{
    let mut all = Vec::new(alloc);
    let mut at = from;
    for _turn in 0..room {
        if at >= stop {
            return Ok(all);
        }
        all.push(at)?;
        at = end_at(rows, at);
    }
    Ok(all)
}

// The rows right below a row.
fn below(alloc: Global, rows: &[Row], over: u32) -> Result<Vec<u32>, OutOfMemory>
    ensures { over + 1 < 2 ^ 32 → IfOk result (λ all. all.items ≡ acts.children rows.now over) }
{
    let end = end_at(rows, over);
    siblings(
        alloc,
        rows,
        over.saturating_add(1),
        end,
        end.saturating_sub(over),
    )
}

// Those of the rows that are parameters.
fn parameters_among(alloc: Global, rows: &[Row], all: &[u32]) -> Result<Vec<u32>, OutOfMemory>
    ensures { IfOk result (λ found. found.items ≡ filter (λ k. acts.is_parameter (tree.label rows.now k)) all.now) }
{
    let mut found = Vec::new(alloc);
    for at in all {
        push_if(&mut found, is_parameter(rows, *at), *at)?;
    }
    Ok(found)
}

fn parameters(alloc: Global, rows: &[Row], method: u32) -> Result<Vec<u32>, OutOfMemory>
    ensures { method + 1 < 2 ^ 32 → IfOk result (λ all. all.items ≡ kept.parameters rows.now method) }
{
    let all = below(alloc, rows, method)?;
    parameters_among(alloc, rows, &all)
}

fn is_statement(rows: &[Row], at: u32) -> bool
    ensures { result ≡ kept.is_statement (tree.label rows.now at) }
{
    match rows.get(at as usize) {
        Some(row) => match row.label {
            Label::Eval => true,
            Label::Locals => true,
            _ => false,
        },
        None => false,
    }
}

// The statement in which a row stands.
fn statement_round(rows: &[Row], row: u32) -> u32
    ensures { result ≡ kept.statement_round rows.now row row }
{
    let mut at = row;
    for _turn in 0..row {
        if is_statement(rows, at) {
            return at;
        }
        at = parent_at(rows, at);
    }
    at
}

// ---- points

// The row of the point, where a local gets a value at it, inside a row.
fn defined_row(range: RowRange, point: Option<Point>) -> Option<u32>
    ensures { result ≡ handed.defined_in range.first range.end point }
{
    match point {
        Some(point) => match point.kind {
            PointKind::Definition { .. } => some_if(point.row, is_inside(range, point.row)),
            _ => None,
        },
        None => None,
    }
}

// The row of the point, where it is an added use, inside a row.
fn added_row(range: RowRange, origin: &[u32], point: Option<Point>) -> Option<u32>
    ensures { result ≡ handed.added_in range.first range.end (origin_in origin.now) point }
{
    match point {
        Some(point) => match point.kind {
            PointKind::Use { .. } => {
                let is_such = is_inside(range, point.row) && row_for(origin, point.row).is_none();
                some_if(point.row, is_such)
            }
            _ => None,
        },
        None => None,
    }
}

// The row of the first added use inside a row.
fn first_added(range: RowRange, origin: &[u32], points: &[Point]) -> Option<u32>
    ensures some { IfSome result (λ k. handed.IsAddedAt points.now range.first range.end (origin_in origin.now) k) }
    ensures none { IfNone result ((k : ℕ) → handed.IsAddedAt points.now range.first range.end (origin_in origin.now) k → ⊥) }
{
    for number in 0..points.len() {
        match added_row(range, origin, point_at(points, number)) {
            Some(row) => return Some(row),
            None => {}
        }
    }
    None
}

// Both are one row.
fn are_one(one: Option<u32>, other: Option<u32>) -> bool
    ensures { result ≡ handed.are_one one other }
{
    match one {
        Some(row) => match other {
            Some(same) => row == same,
            None => false,
        },
        None => false,
    }
}

// There is no row, or it is this one.
fn is_none_or(found: Option<u32>, row: Option<u32>) -> bool
    ensures { result ≡ handed.is_none_or found row }
{
    match found {
        Some(_) => are_one(found, row),
        None => true,
    }
}

// No other added use stands inside a row.
fn is_only(range: RowRange, origin: &[u32], points: &[Point], row: Option<u32>) -> bool
    ensures told { result ≡ true → handed.IsOnly points.now range.first range.end (origin_in origin.now) row (length points.now) }
    ensures exact { handed.IsOnly points.now range.first range.end (origin_in origin.now) row (length points.now) → result ≡ true }
{
    for number in 0..points.len() {
        if !is_none_or(added_row(range, origin, point_at(points, number)), row) {
            return false;
        }
    }
    true
}

impl Crossing {
    fn of(alloc: Global, flows: &Flows, call: u32, method: u32) -> Result<Crossing, OutOfMemory>
        ensures none { method + 1 < 2 ^ 32 → IfOk result (λ made. IfNone made.returned ((k : ℕ) → handed.IsAddedAt flows.now.after.now.points.items method (tree.end flows.now.rows.now method) (origin_in flows.now.origin.now) k → ⊥)) }
        ensures is { call + 1 < 2 ^ 32 → method + 1 < 2 ^ 32 → kept.statement_round flows.now.rows.now call call + 1 < 2 ^ 32
            → IfOk result (λ made. handed.IsCrossing made flows.now.rows.now flows.now.after.now.points.items call method (origin_in flows.now.origin.now)) }
    {
        let rows = flows.rows;
        let range = rows_of(rows, method);
        let returned = first_added(range, flows.origin, flows.after.points.as_slice());
        let parameters = parameters(alloc, rows, method)?;
        let arguments = below(alloc, rows, call)?;
        Ok(Crossing {
            parameters,
            arguments,
            statement: rows_of(rows, statement_round(rows, call)),
            method: range,
            returned,
        })
    }
}

// The row at a place.
fn row_in(all: &[u32], place: usize) -> Option<u32>
    ensures { result ≡ slice_get all.now place }
{
    all.get(place).copied()
}

impl Handing {
    /// No definition hands anything on.
    pub(crate) fn none(alloc: Global) -> Handing
        ensures { (d : ℕ) → tell.use_in result d ≡ None }
    {
        Handing {
            first: 0,
            uses: Vec::new(alloc),
        }
    }

    // No definition of these rows hands anything on so far.
    fn empty(alloc: Global, span: RowRange) -> Result<Handing, OutOfMemory>
        ensures none { IfOk result (λ handing. (d : ℕ) → tell.use_in handing d ≡ None) }
        ensures spans { IfOk result (λ handing. handed.Spans handing span) }
    {
        let uses = vec![in alloc; NO_ROW; count_rows(span)]?;
        Ok(Handing {
            first: span.first,
            uses,
        })
    }

    // Sets the use at a place, if there is that place.
    fn set(&mut self, place: usize, from: u32)
        ensures first { self.new.first ≡ self.old.first }
        ensures uses { self.new.uses.items ≡ slice_set self.old.uses.items place from }
    {
        if place < self.uses.len() {
            self.uses[place] = from;
        }
    }

    fn put(&mut self, definition: u32, from: u32)
        ensures adds { handed.AddsOne self.old self.new (Some definition) (Some from) }
        ensures puts { handed.PutsOne self.old self.new (Some definition) (Some from) }
    {
        if self.first <= definition {
            self.set((definition - self.first) as usize, from);
        }
    }

    // Puts the definition with the use, if there is one.
    fn put_from(&mut self, definition: u32, from: Option<u32>)
        ensures adds { handed.AddsOne self.old self.new (Some definition) from }
        ensures puts { handed.PutsOne self.old self.new (Some definition) from }
    {
        match from {
            Some(from) => self.put(definition, from),
            None => {}
        }
    }

    // Puts the definition with the use, if there are both.
    fn put_one(&mut self, definition: Option<u32>, from: Option<u32>)
        ensures adds { handed.AddsOne self.old self.new definition from }
        ensures puts { handed.PutsOne self.old self.new definition from }
    {
        match definition {
            Some(definition) => self.put_from(definition, from),
            None => {}
        }
    }

    // Each definition hands on what reaches the use at its place.
    fn put_pairs(&mut self, definitions: &[u32], uses: &[u32])
        ensures adds { handed.AddsPairs self.old self.new definitions.now uses.now }
        ensures puts { handed.ArePairedOnce definitions.now uses.now → handed.PutsPairs self.old self.new definitions.now uses.now (length definitions.now) }
    {
        for place in 0..definitions.len() {
            let definition = row_in(definitions, place);
            let from = row_in(uses, place);
            self.put_one(definition, from);
        }
    }

    // Each definition inside a row hands on what reaches the use.
    fn put_assigned(&mut self, range: RowRange, points: &[Point], from: Option<u32>)
        ensures adds { handed.AddsAssigned self.old self.new points.now range.first range.end from }
        ensures puts { handed.PutsAssigned self.old self.new points.now range.first range.end from (length points.now) }
    {
        for number in 0..points.len() {
            self.put_one(defined_row(range, point_at(points, number)), from);
        }
    }

    // What crosses is handed on, by definitions of the rows.
    fn crossed(
        alloc: Global,
        span: RowRange,
        points: &[Point],
        crossing: &Crossing,
    ) -> Result<Handing, OutOfMemory>
        ensures only { IfOk result (λ handing. handed.OnlyCrosses handing crossing.now points.now) }
        ensures every { (origin : kept.Origin) → handed.CrossesOnce span crossing.now points.now origin → IfOk result (λ handing. handed.HasCrossing handing crossing.now points.now origin) }
    {
        let mut handing = Handing::empty(alloc, span)?;
        handing.put_pairs(&crossing.parameters, &crossing.arguments);
        handing.put_assigned(crossing.statement, points, crossing.returned);
        Ok(handing)
    }

    /// The use whose definitions a definition hands on; None where it is one itself.
    pub(crate) fn use_of(&self, definition: u32) -> Option<u32>
        ensures { result ≡ tell.use_in self.now definition }
    {
        match definition.checked_sub(self.first) {
            Some(place) => row_for(&self.uses, place),
            None => None,
        }
    }

    // There is no definition, or it hands on from the use.
    fn is_from(&self, definition: Option<u32>, from: Option<u32>) -> bool
        ensures { result ≡ handed.is_from self.now definition from }
    {
        match definition {
            Some(definition) => are_one(from, self.use_of(definition)),
            None => true,
        }
    }

    // There is no definition or no use, or it hands on from this.
    fn has_pair(&self, definition: Option<u32>, from: Option<u32>) -> bool
        ensures { result ≡ handed.has_pair self.now definition from }
    {
        match from {
            Some(_) => self.is_from(definition, from),
            None => true,
        }
    }

    fn has_pairs(&self, definitions: &[u32], uses: &[u32]) -> bool
        ensures told { result ≡ true → handed.HasPairs self.now definitions.now uses.now (length definitions.now) }
        ensures exact { handed.HasPairs self.now definitions.now uses.now (length definitions.now) → result ≡ true }
    {
        for place in 0..definitions.len() {
            let definition = row_in(definitions, place);
            let from = row_in(uses, place);
            if !self.has_pair(definition, from) {
                return false;
            }
        }
        true
    }

    fn has_assigned(&self, range: RowRange, points: &[Point], from: Option<u32>) -> bool
        ensures told { result ≡ true → handed.HasAssigned self.now points.now range.first range.end from (length points.now) }
        ensures exact { handed.HasAssigned self.now points.now range.first range.end from (length points.now) → result ≡ true }
    {
        for number in 0..points.len() {
            if !self.is_from(defined_row(range, point_at(points, number)), from) {
                return false;
            }
        }
        true
    }

    // All that crosses is handed on, and just one added use is returned.
    fn has_all(&self, crossing: &Crossing, points: &[Point], origin: &[u32]) -> bool
        ensures { Decides result (handed.HasCrossing self.now crossing.now points.now (origin_in origin.now)) }
    {
        if !self.has_pairs(&crossing.parameters, &crossing.arguments) {
            return false;
        }
        if !self.has_assigned(crossing.statement, points, crossing.returned) {
            return false;
        }
        is_only(crossing.method, origin, points, crossing.returned)
    }

    /// What is handed on between a body and the method that it calls there. Where one table cannot tell it, since more than one added use stands in the
    /// method, or none and the call is assigned, an edge from the body to itself is put.
    pub(crate) fn of(
        alloc: Global,
        flows: &Flows,
        call: u32,
        method: u32,
        lost: &mut Firsts,
    ) -> Result<Handing, OutOfMemory>
        ensures kept { call + 1 < 2 ^ 32 → method + 1 < 2 ^ 32 → kept.statement_round flows.now.rows.now call call + 1 < 2 ^ 32
            → IfOk result (λ handing. AreNone lost.old → handed.IsHandingOf handing flows.now.rows.now flows.now.after.now.points.items call method (origin_in flows.now.origin.now) → AreNone lost.new) }
        ensures once { call + 1 < 2 ^ 32 → method + 1 < 2 ^ 32 → kept.statement_round flows.now.rows.now call call + 1 < 2 ^ 32
            → handed.HandsOnce flows.now.span flows.now.rows.now flows.now.after.now.points.items call method (origin_in flows.now.origin.now) → IfOk result (λ handing. AreNone lost.old → AreNone lost.new) }
        ensures checks { call + 1 < 2 ^ 32 → method + 1 < 2 ^ 32 → kept.statement_round flows.now.rows.now call call + 1 < 2 ^ 32
            → IfOk result (λ handing. Checks lost.old lost.new (handed.IsHandingOf handing flows.now.rows.now flows.now.after.now.points.items call method (origin_in flows.now.origin.now))) }
    {
        let points = flows.after.points.as_slice();
        let crossing = Crossing::of(alloc, flows, call, method)?;
        let handing = Handing::crossed(alloc, flows.span, points, &crossing)?;
        put_unless(
            flows.names.body,
            handing.has_all(&crossing, points, flows.origin),
            lost,
        );
        Ok(handing)
    }
}

// Puts an edge from the body to itself, unless all is handed on.
fn put_unless(body: u32, has_all: bool, lost: &mut Firsts)
    ensures { Tells lost.old lost.new (has_all ≡ true) }
{
    if !has_all {
        lost.put_old(Edge {
            first: body,
            second: body,
        });
    }
}
