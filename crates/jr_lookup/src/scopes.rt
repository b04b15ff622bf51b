// What is in scope by rows alone (JLS 6.3, 7.5, 7.6, 8.4.1, 14.4.2).
ghost use Rattle.std.specs.Prelude.{◌≡◌, ◌++◌, ◌∷◌, ◌+◌, ◌^◌, ◌<◌, [], length, option_map, IfOk, OnOk};
ghost use Rattle.jr_base.specs.declared.text.Text.{Text};
ghost use Rattle.jr_tree.specs.Local.{IsLocal};
ghost use Rattle.jr_tree.specs.Rows.{Rows, label};
ghost use Rattle.jr_tree.specs.declared.label.ImportKind.TheVariants as importing;
ghost use Rattle.jr_defs.specs.Referents.{Table};
ghost use Rattle.jr_plain.specs.Imports.{is_import_label, is_import_of};
ghost use Rattle.jr_plain.specs.Scope as plain;
ghost use Rattle.jr_plain.specs.Search.{last_below};
ghost use Rattle.jr_places.specs.Above as above;
ghost use Rattle.jr_places.specs.declared.places.Places as placing;
ghost use Rattle.jr_members.specs.Each.{ListsEach};
ghost use Rattle.jr_members.specs.Keys.{entry_for, entry_list, falling};
ghost use Rattle.jr_members.specs.Sources.{ArePlaced};
ghost use Rattle.jr_lookup.specs.Locals as nesting;
ghost use Rattle.jr_lookup.specs.Outward.{IsNumberOf};
ghost use Rattle.jr_lookup.specs.Scopes as tell;

use jr_base::OutOfMemory;
use jr_places::{Chains, Entry, Places, end_at, is_top_level, parent_at, role_at};
use jr_tree::{ImportKind, Label, Role, Row};
use std::alloc::Global;

/// Where locals, parameters, top-level types and imports are in scope, by the numbers of names.
#[derive(Drop)]
pub struct Scopes {
    /// Locals, under the row that ends where their block does.
    locals: Chains,
    /// Parameters, under the method, constructor or catch.
    parameters: Chains,
    /// Top-level types, under the numbers of their packages.
    tops: Chains,
    /// Single-type imports, under their units and the last identifiers of their names.
    singles: Chains,
    /// Single static imports, under their units.
    statics: Chains,
    /// Imports on demand, under their units and 0.
    on_demand: Chains,
}

// The row that ends where the block of a local does: all groups of a switch are one block (JLS 14.11).
fn block_of(rows: &[Row], at: u32) -> u32
    ensures { result ≡ above.block_of rows.now at }
{
    let block = parent_at(rows, parent_at(rows, at));
    match rows.get(block as usize) {
        Some(row) => match row.label {
            Label::Group => row.parent,
            _ => block,
        },
        None => block,
    }
}

/// The form of an import, if the row is one.
pub fn import_kind(rows: &[Row], at: u32) -> Option<ImportKind> {
    match rows.get(at as usize) {
        Some(row) => match row.label {
            Label::Import { kind } => Some(kind),
            _ => None,
        },
        None => None,
    }
}

/// The row is a single-type import.
pub fn is_single(rows: &[Row], at: u32) -> bool
    ensures { result ≡ is_import_label importing.Single (label rows.now at) }
{
    match rows.get(at as usize) {
        Some(row) => match row.label {
            Label::Import {
                kind: ImportKind::Single,
            } => true,
            _ => false,
        },
        None => false,
    }
}

fn is_static(rows: &[Row], at: u32) -> bool
    ensures { result ≡ is_import_label importing.StaticSingle (label rows.now at) }
{
    match rows.get(at as usize) {
        Some(row) => match row.label {
            Label::Import {
                kind: ImportKind::StaticSingle,
            } => true,
            _ => false,
        },
        None => false,
    }
}

fn is_on_demand(rows: &[Row], at: u32) -> bool
    ensures { result ≡ is_import_label importing.OnDemand (label rows.now at) }
{
    match rows.get(at as usize) {
        Some(row) => match row.label {
            Label::Import {
                kind: ImportKind::OnDemand,
            } => true,
            _ => false,
        },
        None => false,
    }
}

// The row under a key, if it is such.
fn entry_if(is_such: bool, first: u32, second: u32, row: u32) -> Option<Entry>
    ensures { result ≡ tell.entry_if is_such first second row }
{
    if is_such {
        Some(Entry { first, second, row })
    } else {
        None
    }
}

fn local_entry(rows: &[Row], name: u32, at: u32) -> Option<Entry>
    ensures { result ≡ tell.local_entry rows.now name at }
{
    match role_at(rows, at) {
        Role::Local => Some(Entry {
            first: block_of(rows, at),
            second: name,
            row: at,
        }),
        _ => None,
    }
}

fn parameter_entry(rows: &[Row], name: u32, at: u32) -> Option<Entry>
    ensures { result ≡ tell.parameter_entry rows.now name at }
{
    match role_at(rows, at) {
        Role::Parameter => Some(Entry {
            first: parent_at(rows, at),
            second: name,
            row: at,
        }),
        _ => None,
    }
}

fn entry_in(number: Option<u32>, name: u32, row: u32) -> Option<Entry>
    ensures { result ≡ option_map (λ n. entry_for n name row) number }
{
    match number {
        Some(first) => Some(Entry {
            first,
            second: name,
            row,
        }),
        None => None,
    }
}

fn top_entry(rows: &[Row], number: Option<u32>, name: u32, at: u32) -> Option<Entry>
    ensures { result ≡ tell.top_entry rows.now number name at }
{
    if is_top_level(rows, at) {
        entry_in(number, name, at)
    } else {
        None
    }
}

fn single_entry(rows: &[Row], name: u32, at: u32) -> Option<Entry>
    ensures { result ≡ tell.single_entry rows.now name at }
{
    entry_if(is_single(rows, at), parent_at(rows, at), name, at)
}

fn static_entry(rows: &[Row], name: u32, at: u32) -> Option<Entry>
    ensures { result ≡ tell.static_entry rows.now name at }
{
    entry_if(is_static(rows, at), parent_at(rows, at), name, at)
}

fn demand_entry(rows: &[Row], at: u32) -> Option<Entry>
    ensures { result ≡ tell.demand_entry rows.now at }
{
    entry_if(is_on_demand(rows, at), parent_at(rows, at), 0, at)
}

/// Puts an entry at the end, if there is one.
pub fn add_entry(alloc: Global, all: &mut Chains, entry: Option<Entry>) -> Result<(), OutOfMemory>
    ensures { OnOk result (all.new ≡ all.old ++ entry_list entry) }
{
    match entry {
        Some(entry) => all.add(alloc, entry),
        None => Ok(()),
    }
}

impl Scopes {
    // Adds what one row declares.
    fn add_declared(
        &mut self,
        alloc: Global,
        local: Option<Entry>,
        parameter: Option<Entry>,
        top: Option<Entry>,
    ) -> Result<(), OutOfMemory>
        ensures locals { OnOk result (self.new.locals ≡ self.old.locals ++ entry_list local) }
        ensures parameters { OnOk result (self.new.parameters ≡ self.old.parameters ++ entry_list parameter) }
        ensures tops { OnOk result (self.new.tops ≡ self.old.tops ++ entry_list top) }
        ensures singles { OnOk result (self.new.singles ≡ self.old.singles) }
        ensures statics { OnOk result (self.new.statics ≡ self.old.statics) }
        ensures demanded { OnOk result (self.new.on_demand ≡ self.old.on_demand) }
    {
        add_entry(alloc, &mut self.locals, local)?;
        add_entry(alloc, &mut self.parameters, parameter)?;
        add_entry(alloc, &mut self.tops, top)
    }

    // Adds what one row imports.
    fn add_imported(
        &mut self,
        alloc: Global,
        single: Option<Entry>,
        by_name: Option<Entry>,
        demanded: Option<Entry>,
    ) -> Result<(), OutOfMemory>
        ensures locals { OnOk result (self.new.locals ≡ self.old.locals) }
        ensures parameters { OnOk result (self.new.parameters ≡ self.old.parameters) }
        ensures tops { OnOk result (self.new.tops ≡ self.old.tops) }
        ensures singles { OnOk result (self.new.singles ≡ self.old.singles ++ entry_list single) }
        ensures statics { OnOk result (self.new.statics ≡ self.old.statics ++ entry_list by_name) }
        ensures demanded { OnOk result (self.new.on_demand ≡ self.old.on_demand ++ entry_list demanded) }
    {
        add_entry(alloc, &mut self.singles, single)?;
        add_entry(alloc, &mut self.statics, by_name)?;
        add_entry(alloc, &mut self.on_demand, demanded)
    }

    // Adds what one row brings into scope.
    fn add_row(
        &mut self,
        alloc: Global,
        rows: &[Row],
        places: &Places,
        at: u32,
    ) -> Result<(), OutOfMemory>
        ensures scopes { ArePlaced rows.now places.now → length rows.now < 2 ^ 32 → at < length rows.now → tell.AreScopesTo rows.now at self.old → OnOk result (tell.AreScopesTo rows.now (at + 1) self.new) }
        ensures tops { ArePlaced rows.now places.now → at < length rows.now → tell.AreTopsTo rows.now places.now at self.old → OnOk result (tell.AreTopsTo rows.now places.now (at + 1) self.new) }
    {
        let name = places.name(at);
        let local = local_entry(rows, name, at);
        let parameter = parameter_entry(rows, name, at);
        let top = top_entry(rows, places.package(at), name, at);
        self.add_declared(alloc, local, parameter, top)?;
        let next = at.saturating_add(1);
        let single = single_entry(rows, places.name(next), at);
        let by_name = static_entry(rows, name, at);
        let demanded = demand_entry(rows, at);
        self.add_imported(alloc, single, by_name, demanded)?;
        Ok(())
    }

    // Adds what is in scope by the rows.
    fn add_rows(&mut self, alloc: Global, rows: &[Row], places: &Places) -> Result<(), OutOfMemory>
        ensures scopes { ArePlaced rows.now places.now → tell.AreScopesTo rows.now 0 self.old → OnOk result (tell.AreScopes rows.now self.new) }
        ensures tops { ArePlaced rows.now places.now → tell.AreTopsTo rows.now places.now 0 self.old → OnOk result (tell.AreTops rows.now places.now self.new) }
    {
        let Ok(count) = u32::try_from(rows.len()) else {
            return Err(OutOfMemory);
        };
        for at in 0..count {
            self.add_row(alloc, rows, places, at)?;
        }
        Ok(())
    }

    // Nothing.
    fn new(alloc: Global) -> Scopes
        ensures locals { result.locals ≡ [] }
        ensures parameters { result.parameters ≡ [] }
        ensures tops { result.tops ≡ [] }
        ensures singles { result.singles ≡ [] }
        ensures statics { result.statics ≡ [] }
        ensures demanded { result.on_demand ≡ [] }
    {
        Scopes {
            locals: Chains::new(alloc),
            parameters: Chains::new(alloc),
            tops: Chains::new(alloc),
            singles: Chains::new(alloc),
            statics: Chains::new(alloc),
            on_demand: Chains::new(alloc),
        }
    }

    /// What is in scope by the rows.
    pub fn of(alloc: Global, rows: &[Row], places: &Places) -> Result<Scopes, OutOfMemory>
        ensures scopes { ArePlaced rows.now places.now → IfOk result (λ scopes. tell.AreScopes rows.now scopes) }
        ensures tops { ArePlaced rows.now places.now → IfOk result (λ scopes. tell.AreTops rows.now places.now scopes) }
    {
        let mut scopes = Scopes::new(alloc);
        scopes.add_rows(alloc, rows, places)?;
        Ok(scopes)
    }

    /// The last local of the name, in the block that ends with the row, that is declared before the place.
    pub fn local(
        &self,
        alloc: Global,
        block: u32,
        name: u32,
        place: u32,
    ) -> Result<Option<u32>, OutOfMemory>
        ensures { (p : Rows) → tell.AreScopes p self.now → IfOk result (λ found. found ≡ last_below (length p) (tell.is_local_before p block name place)) }
    {
        let rows = self.locals.rows(alloc, block, name)?;
        Ok(first_before(&rows, place))
    }

    /// The parameters of the name, of a method, constructor or catch, from the last back.
    pub fn parameters(&self, alloc: Global, over: u32, name: u32) -> Result<Vec<u32>, OutOfMemory>
        ensures { (p : Rows) → tell.AreScopes p self.now → IfOk result (λ rows. rows.items ≡ falling (length p) (tell.is_parameter_of p over name)) }
    {
        self.parameters.rows(alloc, over, name)
    }

    // The parameters of the name beside a block.
    fn parameters_beside(
        &self,
        alloc: Global,
        rows: &[Row],
        over: u32,
        name: u32,
    ) -> Result<Vec<u32>, OutOfMemory>
        ensures { tell.AreScopes rows.now self.now → IfOk result (λ found. found.items ≡ nesting.parameters_beside rows.now name over) }
    {
        if is_block(rows, over) {
            let beside = parent_at(rows, over);
            self.parameters(alloc, beside, name)
        } else {
            Ok(Vec::new(alloc))
        }
    }

    // The last local of the name before the place whose block ends with the row, or the parameters beside that.
    fn locals_in(
        &self,
        alloc: Global,
        rows: &[Row],
        over: u32,
        place: u32,
        name: u32,
    ) -> Result<Vec<u32>, OutOfMemory>
        ensures { tell.AreScopes rows.now self.now → IfOk result (λ found. found.items ≡ nesting.locals_in rows.now name place over) }
    {
        let last = self.local(alloc, over, name, place)?;
        match last {
            Some(local) => only(alloc, local),
            None => self.parameters_beside(alloc, rows, over, name),
        }
    }

    // What the innermost of the rows that hold the place has that has any such.
    fn first_locals(
        &self,
        alloc: Global,
        rows: &[Row],
        place: u32,
        name: u32,
    ) -> Result<Vec<u32>, OutOfMemory>
        ensures { tell.AreScopes rows.now self.now → IfOk result (λ found. found.items ≡ nesting.locals_at rows.now name place) }
    {
        let mut over = place;
        for _turn in 0..place {
            let found = self.locals_in(alloc, rows, over, place, name)?;
            if !found.is_empty() {
                return Ok(found);
            }
            if over == 0 {
                return Ok(found);
            }
            over = parent_at(rows, over);
        }
        let last = self.locals_in(alloc, rows, over, place, name)?;
        Ok(last)
    }

    /// The local, or the parameters, of the name that are in scope at the place and that none declared further in shadows (JLS 6.3.1, 8.4.1).
    pub fn locals(
        &self,
        alloc: Global,
        rows: &[Row],
        place: u32,
        name: u32,
    ) -> Result<Vec<u32>, OutOfMemory>
        ensures visible { (t : Table) (x : Text) → IsLocal rows.now → nesting.AreLocalsPlaced rows.now → tell.AreScopes rows.now self.now → place < length rows.now → IsNumberOf rows.now name x → IfOk result (λ found. ListsEach found.items (nesting.IsVisibleLocal rows.now t x place)) }
        ensures plain { tell.AreScopes rows.now self.now → IfOk result (λ found. found.items ≡ nesting.locals_at rows.now name place) }
    {
        self.first_locals(alloc, rows, place, name)
    }

    /// The top-level types of the name in a package, given by its number, from the last back.
    pub fn types_of_package(
        &self,
        alloc: Global,
        number: u32,
        name: u32,
    ) -> Result<Vec<u32>, OutOfMemory>
        ensures { (p : Rows) (places : placing.Places) → tell.AreTops p places self.now → IfOk result (λ rows. rows.items ≡ falling (length p) (tell.is_top_of p places number name)) }
    {
        self.tops.rows(alloc, number, name)
    }

    /// The single-type imports in a unit whose names end with this identifier, from the last back.
    pub fn single_imports(
        &self,
        alloc: Global,
        unit: u32,
        name: u32,
    ) -> Result<Vec<u32>, OutOfMemory>
        ensures { (p : Rows) → tell.AreScopes p self.now → IfOk result (λ rows. rows.items ≡ falling (length p) (tell.is_single_of p unit name)) }
    {
        self.singles.rows(alloc, unit, name)
    }

    /// The single static imports of the name in a unit, from the last back.
    pub fn static_imports(
        &self,
        alloc: Global,
        unit: u32,
        name: u32,
    ) -> Result<Vec<u32>, OutOfMemory>
        ensures { (p : Rows) → tell.AreScopes p self.now → IfOk result (λ rows. rows.items ≡ falling (length p) (tell.is_static_of p unit name)) }
    {
        self.statics.rows(alloc, unit, name)
    }

    /// The imports on demand of a unit, from the last back.
    pub fn imports_on_demand(&self, alloc: Global, unit: u32) -> Result<Vec<u32>, OutOfMemory>
        ensures { (p : Rows) → tell.AreScopes p self.now → IfOk result (λ rows. rows.items ≡ falling (length p) (is_import_of p unit importing.OnDemand)) }
    {
        self.on_demand.rows(alloc, unit, 0)
    }
}

// The row alone.
fn only(alloc: Global, row: u32) -> Result<Vec<u32>, OutOfMemory>
    ensures { IfOk result (λ all. all.items ≡ row ∷ []) }
{
    let mut all = Vec::new(alloc);
    all.push(row)?;
    Ok(all)
}

// The first of some rows that stands before the place.
fn first_before(rows: &[u32], place: u32) -> Option<u32>
    ensures { result ≡ tell.first_before place rows.now }
{
    for row in rows {
        if *row < place {
            return Some(*row);
        }
    }
    None
}

/// The row is a block, and stands beside the parameters of the row round it.
pub fn is_block(rows: &[Row], at: u32) -> bool
    ensures { result ≡ plain.is_block (label rows.now at) }
{
    match rows.get(at as usize) {
        Some(row) => match row.label {
            Label::Block => true,
            _ => false,
        },
        None => false,
    }
}

/// The row holds the place, or is it.
pub fn holds(rows: &[Row], at: u32, place: u32) -> bool {
    at <= place && place < end_at(rows, at)
}
