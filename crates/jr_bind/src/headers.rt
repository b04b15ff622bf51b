// What names in headers refer to, by settling one type at a time, and cycles of headers (JLS 8.1.4, 8.1.5, 9.1.3).

use crate::boxes::{boxed, imports_none, members_of_types, put, supers_none};
use jr_base::OutOfMemory;
use jr_defs::Referent;
use jr_lookup::{Candidates, Imports, Scopes, Sight, import_kind};
use jr_members::{Members, World};
use jr_places::{Places, Stamps, declaring_type, end_at, is_type, parent_at};
use jr_supers::{Supers, Tabled, find_object, header_place};
use jr_tree::{NameKind, Row, Sought};
use std::alloc::Global;

/// What rows alone give.
#[derive(Clone, Copy)]
pub struct Setting<'a> {
    pub rows: &'a [Row],
    pub places: &'a Places,
    pub scopes: &'a Scopes,
}

/// What is behind the search for headers.
#[derive(Drop)]
struct Passed {
    /// Imports whose names are looked up.
    imports: Stamps,
    /// Types whose headers are.
    types: Stamps,
    met: Stamps,
}

/// The headers of the types that are settled so far, with their supertypes and member types.
#[derive(Drop)]
pub struct Settled {
    pub table: Vec<Referent>,
    pub supers: Box<Supers>,
    pub members: Box<Members>,
    imports: Box<Imports>,
    passed: Box<Passed>,
    /// How many types were settled when this one was, and it; 0 for those that are not.
    pub ranks: Vec<u32>,
    count: u32,
}

/// What stands in the way of a type: nothing, or a type that has to be settled first.
#[derive(Clone, Copy, Debug, PartialEq, Eq)]
enum Attempt {
    Done,
    Waits(u32),
}

/// A type whose header is being looked up.
#[derive(Clone, Copy)]
struct Trial {
    at: u32,
    /// The name in its header that is looked up next.
    name: u32,
    /// The row behind those of its identifiers that are not looked up yet.
    end: u32,
    /// It was tried before, and waited for a type.
    has_waited: bool,
}

impl Trial {
    fn new(rows: &[Row], at: u32) -> Trial {
        let name = at.saturating_add(1);
        Trial {
            at,
            name,
            end: end_at(rows, name),
            has_waited: false,
        }
    }

    // Goes on with another name of the header.
    fn begin_name(&mut self, rows: &[Row], name: u32) {
        self.name = name;
        self.end = end_at(rows, name);
    }
}

// The row is a name in the header of the type.
fn is_in_header(rows: &[Row], at: u32, name: u32) -> bool {
    parent_at(rows, name) == at && header_place(rows, name).is_some()
}

fn referent_of(found: &Candidates, kind: NameKind) -> Referent {
    found.answer(match kind {
        NameKind::PackageOrType => Referent::Package,
        _ => Referent::Unbound,
    })
}

// Nothing is looked up of this many rows.
fn passed_none(alloc: Global, count: usize) -> Result<Passed, OutOfMemory> {
    let imports = Stamps::new(alloc, count)?;
    let types = Stamps::new(alloc, count)?;
    let met = Stamps::new(alloc, count)?;
    Ok(Passed {
        imports,
        types,
        met,
    })
}

impl Settled {
    /// No types are settled yet.
    pub fn new(alloc: Global, setting: Setting) -> Result<Settled, OutOfMemory> {
        let table = vec![in alloc; Referent::Unbound; setting.rows.len()]?;
        let supers = supers_none(alloc, setting.rows)?;
        let imports = imports_none(alloc)?;
        let passed = boxed(alloc, passed_none(alloc, setting.rows.len()))?;
        let under = Tabled {
            rows: setting.rows,
            places: setting.places,
            table: &[],
        };
        let members = members_of_types(alloc, under)?;
        Ok(Settled {
            table,
            supers,
            members,
            imports,
            passed,
            ranks: vec![in alloc; 0u32; setting.rows.len()]?,
            count: 0,
        })
    }

    fn under<'a>(&'a self, setting: Setting<'a>) -> Tabled<'a> {
        Tabled {
            rows: setting.rows,
            places: setting.places,
            table: &self.table,
        }
    }

    fn sight<'a>(&'a self, setting: Setting<'a>) -> Sight<'a> {
        Sight {
            world: World {
                under: self.under(setting),
                supers: &self.supers,
                members: &self.members,
            },
            scopes: setting.scopes,
            imports: &self.imports,
        }
    }

    fn set(&mut self, at: u32, referent: Referent) {
        if let Some(place) = self.table.get_mut(at as usize) {
            *place = referent;
        }
    }

    // The type to which a row refers has to be settled.
    fn waits_for(&self, setting: Setting, at: u32) -> Attempt {
        match self.under(setting).referred_type(at) {
            Some(over) => {
                if self.passed.types.has(over) {
                    Attempt::Done
                } else {
                    Attempt::Waits(over)
                }
            }
            None => Attempt::Done,
        }
    }

    // Looks up an identifier behind a dot.
    fn look_qualified(
        &mut self,
        alloc: Global,
        setting: Setting,
        at: u32,
        kind: NameKind,
    ) -> Result<(), OutOfMemory> {
        let sight = self.sight(setting);
        let left = sight.left_of(&[], at);
        let found = sight.qualified(alloc, left, kind, setting.places.name(at))?;
        self.set(at, found);
        Ok(())
    }

    // Looks up the first identifier of the name of an import, where no import holds.
    fn look_in_import(
        &mut self,
        alloc: Global,
        setting: Setting,
        at: u32,
    ) -> Result<(), OutOfMemory> {
        match jr_places::sought_at(setting.rows, at) {
            Sought::Simple { kind } => {
                let name = setting.places.name(at);
                let found = self.sight(setting).simple(alloc, at, kind, name)?;
                self.set(at, found);
                Ok(())
            }
            Sought::Qualified { kind } => self.look_qualified(alloc, setting, at, kind),
            _ => Ok(()),
        }
    }

    // Looks up the identifiers of an import, from the first on, as far as the types before their dots are settled.
    fn try_import(
        &mut self,
        alloc: Global,
        setting: Setting,
        import: u32,
    ) -> Result<Attempt, OutOfMemory> {
        if self.passed.imports.has(import) {
            return Ok(Attempt::Done);
        }
        let first = import.saturating_add(1);
        for at in (first..end_at(setting.rows, first)).rev() {
            self.look_in_import(alloc, setting, at)?;
            let attempt = self.waits_for(setting, at);
            if attempt != Attempt::Done {
                return Ok(attempt);
            }
        }
        let _ = self.passed.imports.add(import);
        let under = Tabled {
            rows: setting.rows,
            places: setting.places,
            table: &self.table,
        };
        self.imports.add_import(alloc, under, import)?;
        Ok(Attempt::Done)
    }

    // The types of the name at a place hide all imports.
    fn is_hidden(&self, alloc: Global, setting: Setting, at: u32) -> Result<bool, OutOfMemory> {
        let around = self
            .sight(setting)
            .types_around(alloc, at, setting.places.name(at))?;
        Ok(!around.rows.is_empty())
    }

    // The types of the name at a place hide imports on demand.
    fn is_named(&self, alloc: Global, setting: Setting, at: u32) -> Result<bool, OutOfMemory> {
        let named = self
            .sight(setting)
            .types_by_name(alloc, at, setting.places.name(at))?;
        Ok(!named.rows.is_empty())
    }

    // Looks up an identifier of a name in a header.
    fn look_identifier(
        &mut self,
        alloc: Global,
        setting: Setting,
        at: u32,
    ) -> Result<(), OutOfMemory> {
        match jr_places::sought_at(setting.rows, at) {
            Sought::Simple { kind } => self.look_simple(alloc, setting, at, kind),
            Sought::Qualified { kind } => self.look_qualified(alloc, setting, at, kind),
            _ => Ok(()),
        }
    }

    // Looks up the qualifiers of the names in a header, from the first on.
    fn look_at_qualifiers(
        &mut self,
        alloc: Global,
        setting: Setting,
        at: u32,
    ) -> Result<(), OutOfMemory> {
        let mut child = at.saturating_add(1);
        for _turn in 0..setting.rows.len() {
            if !is_in_header(setting.rows, at, child) {
                return Ok(());
            }
            let end = end_at(setting.rows, child);
            for qualifier in (child.saturating_add(1)..end).rev() {
                self.look_identifier(alloc, setting, qualifier)?;
            }
            child = end;
        }
        Ok(())
    }

    // The type is settled.
    fn has(&self, at: u32) -> bool {
        self.passed.types.has(at)
    }

    // Tries imports one after the other.
    fn try_imports(
        &mut self,
        alloc: Global,
        setting: Setting,
        imports: &[u32],
    ) -> Result<Attempt, OutOfMemory> {
        for import in imports {
            let attempt = self.try_import(alloc, setting, *import)?;
            if attempt != Attempt::Done {
                return Ok(attempt);
            }
        }
        Ok(Attempt::Done)
    }

    // The imports that may bring the name alone.
    fn try_imports_of(
        &mut self,
        alloc: Global,
        setting: Setting,
        unit: u32,
        name: u32,
    ) -> Result<Attempt, OutOfMemory> {
        let singles = setting.scopes.single_imports(alloc, unit, name)?;
        let attempt = self.try_imports(alloc, setting, &singles)?;
        if attempt != Attempt::Done {
            return Ok(attempt);
        }
        let statics = setting.scopes.static_imports(alloc, unit, name)?;
        self.try_imports(alloc, setting, &statics)
    }

    // The imports on demand of a unit.
    fn try_on_demand(
        &mut self,
        alloc: Global,
        setting: Setting,
        unit: u32,
    ) -> Result<Attempt, OutOfMemory> {
        let on_demand = setting.scopes.imports_on_demand(alloc, unit)?;
        self.try_imports(alloc, setting, &on_demand)
    }

    // The imports of a unit that are looked in for the name at a place: those that may bring it alone, and those on demand where nothing before them has it.
    fn try_unit(
        &mut self,
        alloc: Global,
        setting: Setting,
        at: u32,
        unit: u32,
    ) -> Result<Attempt, OutOfMemory> {
        let attempt = self.try_imports_of(alloc, setting, unit, setting.places.name(at))?;
        if attempt != Attempt::Done || self.is_named(alloc, setting, at)? {
            return Ok(attempt);
        }
        self.try_on_demand(alloc, setting, unit)
    }

    // Looks up an identifier among the types round it.
    fn look_around(
        &mut self,
        alloc: Global,
        setting: Setting,
        at: u32,
        kind: NameKind,
    ) -> Result<(), OutOfMemory> {
        let name = setting.places.name(at);
        let found = self.sight(setting).types_around(alloc, at, name)?;
        self.set(at, referent_of(&found, kind));
        Ok(())
    }

    // Looks up an identifier among all types.
    fn look_simple(
        &mut self,
        alloc: Global,
        setting: Setting,
        at: u32,
        kind: NameKind,
    ) -> Result<(), OutOfMemory> {
        let name = setting.places.name(at);
        let found = self.sight(setting).types(alloc, at, name)?;
        self.set(at, referent_of(&found, kind));
        Ok(())
    }

    // Looks up the first identifier of a name in a header: in the types round it, then in the imports that may bring it alone and the package,
    // and last in imports on demand. The types that an import names have to be settled before it is looked in.
    fn try_simple(
        &mut self,
        alloc: Global,
        setting: Setting,
        at: u32,
        kind: NameKind,
    ) -> Result<Attempt, OutOfMemory> {
        if self.is_hidden(alloc, setting, at)? {
            self.look_around(alloc, setting, at, kind)?;
            return Ok(Attempt::Done);
        }
        if let Some(unit) = self.sight(setting).importing_unit(at) {
            let attempt = self.try_unit(alloc, setting, at, unit)?;
            if attempt != Attempt::Done {
                return Ok(attempt);
            }
        }
        self.look_simple(alloc, setting, at, kind)?;
        Ok(Attempt::Done)
    }

    // Looks up one identifier of a name in a header, once those before it are.
    fn try_identifier(
        &mut self,
        alloc: Global,
        setting: Setting,
        at: u32,
    ) -> Result<Attempt, OutOfMemory> {
        let attempt = match jr_places::sought_at(setting.rows, at) {
            Sought::Simple { kind } => self.try_simple(alloc, setting, at, kind)?,
            Sought::Qualified { kind } => {
                self.look_qualified(alloc, setting, at, kind)?;
                Attempt::Done
            }
            _ => Attempt::Done,
        };
        if attempt != Attempt::Done {
            return Ok(attempt);
        }
        Ok(self.waits_for(setting, at))
    }

    // Looks up the identifiers of a name in a header that stand before a row, which are those behind the ones that are looked up. Where one waits it
    // is the next to be looked up.
    fn try_name(
        &mut self,
        alloc: Global,
        setting: Setting,
        trial: &mut Trial,
    ) -> Result<Attempt, OutOfMemory> {
        let end = trial.end.min(end_at(setting.rows, trial.name));
        for at in (trial.name..end).rev() {
            let attempt = self.try_identifier(alloc, setting, at)?;
            if attempt != Attempt::Done {
                trial.end = at.saturating_add(1);
                return Ok(attempt);
            }
        }
        Ok(Attempt::Done)
    }

    // Looks up the names in the header of a type that are not looked up yet; the type round it has to be settled first.
    fn try_header(
        &mut self,
        alloc: Global,
        setting: Setting,
        trial: &mut Trial,
    ) -> Result<Attempt, OutOfMemory> {
        if let Some(over) = declaring_type(setting.rows, trial.at) {
            if !self.passed.types.has(over) {
                return Ok(Attempt::Waits(over));
            }
        }
        for _turn in 0..setting.rows.len() {
            if !is_in_header(setting.rows, trial.at, trial.name) {
                return Ok(Attempt::Done);
            }
            let attempt = self.try_name(alloc, setting, trial)?;
            if attempt != Attempt::Done {
                return Ok(attempt);
            }
            trial.begin_name(setting.rows, end_at(setting.rows, trial.name));
        }
        Ok(Attempt::Done)
    }

    // One type more is settled, which ranks above those before.
    fn add_settled(&mut self, alloc: Global, setting: Setting, at: u32) -> Result<(), OutOfMemory> {
        let _ = self.passed.types.add(at);
        self.count = self.count.saturating_add(1);
        if let Some(rank) = self.ranks.get_mut(at as usize) {
            *rank = self.count;
        }
        self.add_type(alloc, setting, at)
    }

    // Adds the supertypes and the member types of one type more.
    fn add_type(&mut self, alloc: Global, setting: Setting, at: u32) -> Result<(), OutOfMemory> {
        let supers = std::mem::replace(&mut *self.supers, Supers::nothing(alloc));
        let more = supers.with_type(alloc, self.under(setting), at);
        put(&mut self.supers, more)?;
        let under = Tabled {
            rows: setting.rows,
            places: setting.places,
            table: &self.table,
        };
        self.members
            .add_types_of(alloc, under, &self.supers, &mut self.passed.met, at)
    }

    // Looks up the header of a type from its first name on, and settles the type if all that it meets is settled.
    fn try_type(
        &mut self,
        alloc: Global,
        setting: Setting,
        trial: &mut Trial,
    ) -> Result<Attempt, OutOfMemory> {
        *trial = Trial::new(setting.rows, trial.at);
        let attempt = self.try_header(alloc, setting, trial)?;
        if attempt == Attempt::Done {
            self.add_settled(alloc, setting, trial.at)?;
        }
        Ok(attempt)
    }

    // Goes on with a type that has waited. Where it waits for nothing more it is looked up once again from its first name on, with all that is settled now.
    fn try_again(
        &mut self,
        alloc: Global,
        setting: Setting,
        trial: &mut Trial,
    ) -> Result<Attempt, OutOfMemory> {
        let attempt = self.try_header(alloc, setting, trial)?;
        if attempt != Attempt::Done {
            return Ok(attempt);
        }
        self.try_type(alloc, setting, trial)
    }

    // The names in the header of a type refer to nothing.
    fn clear_header(&mut self, setting: Setting, at: u32) {
        let mut child = at.saturating_add(1);
        for _turn in 0..setting.rows.len() {
            if !is_in_header(setting.rows, at, child) {
                return;
            }
            self.set(child, Referent::Unbound);
            child = end_at(setting.rows, child);
        }
    }

    // The identifiers of an import are looked up, whether the types before their dots are settled or not.
    fn look_at_import(
        &mut self,
        alloc: Global,
        setting: Setting,
        import: u32,
    ) -> Result<(), OutOfMemory> {
        let first = import.saturating_add(1);
        for at in (first..end_at(setting.rows, first)).rev() {
            self.look_in_import(alloc, setting, at)?;
        }
        let under = Tabled {
            rows: setting.rows,
            places: setting.places,
            table: &self.table,
        };
        self.imports.add_import(alloc, under, import)
    }

    // The types that are not settled, without what their headers name.
    fn add_open_types(&mut self, alloc: Global, setting: Setting) -> Result<(), OutOfMemory> {
        let Ok(count) = u32::try_from(setting.rows.len()) else {
            return Err(OutOfMemory);
        };
        for at in 0..count {
            if is_type(setting.rows, at) && !self.has(at) {
                self.clear_header(setting, at);
                self.add_type(alloc, setting, at)?;
            }
        }
        Ok(())
    }

    // The imports that are not passed.
    fn look_at_imports(&mut self, alloc: Global, setting: Setting) -> Result<(), OutOfMemory> {
        let Ok(count) = u32::try_from(setting.rows.len()) else {
            return Err(OutOfMemory);
        };
        for at in 0..count {
            if import_kind(setting.rows, at).is_some() && self.passed.imports.add(at) {
                self.look_at_import(alloc, setting, at)?;
            }
        }
        Ok(())
    }

    // The qualifiers in the headers of types that are not settled.
    fn look_at_open_headers(&mut self, alloc: Global, setting: Setting) -> Result<(), OutOfMemory> {
        let Ok(count) = u32::try_from(setting.rows.len()) else {
            return Err(OutOfMemory);
        };
        for at in 0..count {
            if is_type(setting.rows, at) && !self.has(at) {
                self.look_at_qualifiers(alloc, setting, at)?;
            }
        }
        Ok(())
    }

    // Once all types are settled that can be, lookup is to see the others too, by what they declare; their headers name nothing.
    fn complete(&mut self, alloc: Global, setting: Setting) -> Result<(), OutOfMemory> {
        self.add_open_types(alloc, setting)?;
        self.look_at_imports(alloc, setting)?;
        self.look_at_open_headers(alloc, setting)
    }

    // All types are settled.
    fn has_all(&self, setting: Setting) -> bool {
        let Ok(count) = u32::try_from(setting.rows.len()) else {
            return false;
        };
        for at in 0..count {
            if is_type(setting.rows, at) && !self.has(at) {
                return false;
            }
        }
        true
    }
}

// The types that are tried.
#[derive(Drop)]
struct Waiting {
    open: Vec<Trial>,
    /// Types that were begun: they are settled, or wait for one that waits for them, or for ever.
    begun: Stamps,
}

impl Waiting {
    // Begins a type, unless it was begun before.
    fn begin(&mut self, rows: &[Row], at: u32) -> Result<(), OutOfMemory> {
        if self.begun.add(at) {
            self.open.push(Trial::new(rows, at))?;
        }
        Ok(())
    }

    // Goes back to a type once the one that it waits for is settled, unless that was begun before: then the type waits for ever.
    fn wait(&mut self, rows: &[Row], trial: Trial, over: u32) -> Result<(), OutOfMemory> {
        if self.begun.has(over) || !is_type(rows, over) {
            return Ok(());
        }
        self.open.push(Trial {
            has_waited: true,
            ..trial
        })?;
        self.begin(rows, over)
    }
}

// Goes on with a type: it is settled, or waits for another.
fn step(
    alloc: Global,
    setting: Setting,
    settled: &mut Settled,
    waiting: &mut Waiting,
    trial: Trial,
) -> Result<(), OutOfMemory> {
    if settled.has(trial.at) || !is_type(setting.rows, trial.at) {
        return Ok(());
    }
    let mut trial = trial;
    let attempt = if trial.has_waited {
        settled.try_again(alloc, setting, &mut trial)?
    } else {
        settled.try_type(alloc, setting, &mut trial)?
    };
    match attempt {
        Attempt::Done => Ok(()),
        Attempt::Waits(over) => waiting.wait(setting.rows, trial, over),
    }
}

// Settles a type, and those that it waits for.
fn settle_from(
    alloc: Global,
    setting: Setting,
    settled: &mut Settled,
    waiting: &mut Waiting,
    at: u32,
) -> Result<(), OutOfMemory> {
    waiting.begin(setting.rows, at)?;
    for _turn in 0..setting.rows.len().saturating_mul(2) {
        let Some(top) = waiting.open.pop() else {
            return Ok(());
        };
        step(alloc, setting, settled, waiting, top)?;
    }
    Ok(())
}

// Settles all types that can be, Object first.
fn settle_all(
    alloc: Global,
    setting: Setting,
    settled: &mut Settled,
    waiting: &mut Waiting,
) -> Result<(), OutOfMemory> {
    if let Some(object) = find_object(setting.rows) {
        let _ = waiting.begun.add(object);
        settled.add_settled(alloc, setting, object)?;
    }
    settle_types(alloc, setting, settled, waiting)
}

// Settles all types that can be, behind Object.
fn settle_types(
    alloc: Global,
    setting: Setting,
    settled: &mut Settled,
    waiting: &mut Waiting,
) -> Result<(), OutOfMemory> {
    let Ok(count) = u32::try_from(setting.rows.len()) else {
        return Err(OutOfMemory);
    };
    for at in 0..count {
        if is_type(setting.rows, at) {
            settle_from(alloc, setting, settled, waiting, at)?;
        }
    }
    Ok(())
}

// Tries a type that is not settled. If it is now, so it is told.
fn settle_once(
    alloc: Global,
    setting: Setting,
    settled: &mut Settled,
    at: u32,
) -> Result<bool, OutOfMemory> {
    if !is_type(setting.rows, at) || settled.has(at) {
        return Ok(false);
    }
    let mut trial = Trial::new(setting.rows, at);
    let attempt = settled.try_type(alloc, setting, &mut trial)?;
    Ok(attempt == Attempt::Done)
}

// Tries each type that is not settled against those that are. One was settled, if so it is told.
fn settle_again(
    alloc: Global,
    setting: Setting,
    settled: &mut Settled,
) -> Result<bool, OutOfMemory> {
    let Ok(count) = u32::try_from(setting.rows.len()) else {
        return Err(OutOfMemory);
    };
    let mut is_changed = false;
    for at in 0..count {
        let is_settled = settle_once(alloc, setting, settled, at)?;
        is_changed = is_changed || is_settled;
    }
    Ok(is_changed)
}

// Tries them again and again, until none is settled: so that what waits cannot be settled needs no argument.
fn settle_rest(alloc: Global, setting: Setting, settled: &mut Settled) -> Result<(), OutOfMemory> {
    for _turn in 0..setting.rows.len() {
        let is_changed = settle_again(alloc, setting, settled)?;
        if !is_changed {
            return Ok(());
        }
    }
    Ok(())
}

// No types are tried yet.
fn waiting_none(alloc: Global, setting: Setting) -> Result<Waiting, OutOfMemory> {
    Ok(Waiting {
        open: Vec::new(alloc),
        begun: Stamps::new(alloc, setting.rows.len())?,
    })
}

/// Settles all types that can be settled behind their enclosing type and all that their headers meet. Where some are not, the table has what lookup gives at headers with those
/// of settled types alone.
pub fn settle(alloc: Global, setting: Setting, settled: &mut Settled) -> Result<bool, OutOfMemory> {
    let mut waiting = waiting_none(alloc, setting)?;
    settle_all(alloc, setting, settled, &mut waiting)?;
    drop(waiting);
    settle_rest(alloc, setting, settled)?;
    if settled.has_all(setting) {
        return Ok(true);
    }
    settled.complete(alloc, setting)?;
    Ok(false)
}
