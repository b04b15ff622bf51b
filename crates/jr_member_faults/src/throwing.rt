// Checked classes that a method declares and another does not allow (JLS 8.4.6, 8.4.8.3, 11.2).
ghost use Rattle.std.specs.Prelude.{◌≡◌, ◌&&◌, not, IfOk, length};
ghost use Rattle.std.specs.List.{list_any};
ghost use Rattle.jr_tree.specs.declared.label.Role.TheVariants as roles;
ghost use Rattle.jr_tree.specs.Rows.{label, role_at as role_of_row};
ghost use Rattle.jr_plain.specs.Declarations.{is_prelude};
ghost use Rattle.jr_plain.specs.Search.{all_such};
ghost use Rattle.jr_plain.specs.Supertypes.{declaration, is_at_or_above};
ghost use Rattle.jr_members.specs.Keys.{entries_of};
ghost use Rattle.jr_member_rules.specs.Throwing as plain;
ghost use Rattle.jr_member_faults.specs.Thrown as tell;
ghost use Rattle.jr_member_faults.specs.Views as views;

use crate::listing::{add_entry, push_if};
use jr_base::OutOfMemory;
use jr_members::World;
use jr_places::{Chains, Entry, is_method, is_type, name_at, parent_at};
use jr_tree::{Label, NamePlace, Row};
use std::alloc::Global;

/// The classes that methods declare as thrown.
#[derive(Drop)]
pub struct Thrown {
    /// The names of the classes, under the method and 0.
    names: Chains,
    throwables: Vec<u32>,
    errors: Vec<u32>,
    runtimes: Vec<u32>,
}

// A name that stands for a class in the list of thrown classes.
fn is_other_name(rows: &[Row], at: u32) -> bool
    ensures { result ≡ plain.is_other_name (label rows.now at) }
{
    match rows.get(at as usize) {
        Some(row) => match row.label {
            Label::Name {
                place: NamePlace::Other,
                ..
            } => true,
            _ => false,
        },
        None => false,
    }
}

// Where a name stands that stands for a class right below a method.
fn thrown_entry(rows: &[Row], at: u32) -> Option<Entry>
    ensures { result ≡ tell.thrown_entry rows.now at }
{
    if is_other_name(rows, at) && is_method(rows, parent_at(rows, at)) {
        Some(Entry {
            first: parent_at(rows, at),
            second: 0,
            row: at,
        })
    } else {
        None
    }
}

// A type of this name that the first unit of the prelude declares.
fn is_of_prelude(rows: &[Row], at: u32, name: &[u8]) -> bool
    ensures { result ≡ is_prelude rows.now name.now at }
{
    parent_at(rows, at) == 1 && is_type(rows, at) && name_at(rows, at) == name
}

// All such types.
fn of_prelude(alloc: Global, rows: &[Row], name: &[u8]) -> Result<Vec<u32>, OutOfMemory>
    ensures { IfOk result (λ all. all.items ≡ all_such (length rows.now) (is_prelude rows.now name.now)) }
{
    let Ok(count) = u32::try_from(rows.len()) else {
        return Err(OutOfMemory);
    };
    let mut all = Vec::new(alloc);
    for at in 0..count {
        push_if(&mut all, is_of_prelude(rows, at, name), at)?;
    }
    Ok(all)
}

// One of the types is the class, or stands above it.
fn is_below(world: &World, uppers: &[u32], class: u32) -> bool
    ensures { views.IsRightWorld world.now → result ≡ list_any (λ s. is_at_or_above (views.rows_of world.now) (views.table_of world.now) class s) uppers.now }
{
    for over in uppers {
        if world.supers.is_at_or_above(world.under.rows, class, *over) {
            return true;
        }
    }
    false
}

// The names of the classes that methods declare as thrown.
fn names_of(alloc: Global, rows: &[Row]) -> Result<Chains, OutOfMemory>
    ensures { IfOk result (λ names. names ≡ entries_of (tell.thrown_entry rows.now) (length rows.now)) }
{
    let mut names = Chains::new(alloc);
    let Ok(count) = u32::try_from(rows.len()) else {
        return Err(OutOfMemory);
    };
    for at in 0..count {
        add_entry(alloc, &mut names, thrown_entry(rows, at))?;
    }
    Ok(names)
}

// The name is that of a class that stands above the class, or of the class.
fn is_name_above(world: &World, name: u32, class: u32) -> bool
    ensures { views.IsRightWorld world.now → result ≡ list_any (λ s. is_at_or_above (views.rows_of world.now) (views.table_of world.now) class s) (declaration (views.table_of world.now name)) }
{
    match world.under.declared(name) {
        Some(over) => world.supers.is_at_or_above(world.under.rows, class, over),
        None => false,
    }
}

// One of the names is that of the class, or of one above it.
fn is_any_above(world: &World, names: &[u32], class: u32) -> bool
    ensures { views.IsRightWorld world.now → result ≡ list_any (λ n. list_any (λ s. is_at_or_above (views.rows_of world.now) (views.table_of world.now) class s) (declaration (views.table_of world.now n))) names.now }
{
    for name in names {
        if is_name_above(world, *name, class) {
            return true;
        }
    }
    false
}

fn is_first_alone(one: bool, other: bool, third: bool) -> bool
    ensures { result ≡ (one && (not other && not third)) }
{
    one && (!other && !third)
}

impl Thrown {
    /// What the methods declare.
    pub fn of(alloc: Global, rows: &[Row]) -> Result<Thrown, OutOfMemory>
        ensures { IfOk result (λ thrown. tell.AreThrown rows.now thrown) }
    {
        let throwables = of_prelude(alloc, rows, b"Throwable")?;
        let errors = of_prelude(alloc, rows, b"Error")?;
        let runtimes = of_prelude(alloc, rows, b"RuntimeException")?;
        let names = names_of(alloc, rows)?;
        Ok(Thrown {
            names,
            throwables,
            errors,
            runtimes,
        })
    }

    // Throwable and what is below it, but for Error and RuntimeException and what is below those.
    fn is_checked(&self, world: &World, class: u32) -> bool
        ensures { views.IsRightWorld world.now → tell.AreThrown (views.rows_of world.now) self.now → result ≡ plain.is_checked (views.rows_of world.now) (views.table_of world.now) class }
    {
        let is_throwable = is_below(world, &self.throwables, class);
        let is_error = is_below(world, &self.errors, class);
        let is_runtime = is_below(world, &self.runtimes, class);
        is_first_alone(is_throwable, is_error, is_runtime)
    }

    // The method declares the class or one above it.
    fn allows(
        &self,
        alloc: Global,
        world: &World,
        method: u32,
        class: u32,
    ) -> Result<bool, OutOfMemory>
        ensures { views.IsRightWorld world.now → tell.AreThrown (views.rows_of world.now) self.now → role_of_row (views.rows_of world.now) method ≡ roles.Method → IfOk result (λ is. is ≡ plain.allows (views.rows_of world.now) (views.table_of world.now) method class) }
    {
        let names = self.names.rows(alloc, method, 0)?;
        Ok(is_any_above(world, &names, class))
    }

    // The class is a checked one that the method does not allow.
    fn is_class_not_allowed(
        &self,
        alloc: Global,
        world: &World,
        method: u32,
        class: u32,
    ) -> Result<bool, OutOfMemory>
        ensures { views.IsRightWorld world.now → tell.AreThrown (views.rows_of world.now) self.now → role_of_row (views.rows_of world.now) method ≡ roles.Method → IfOk result (λ is. is ≡ (plain.is_checked (views.rows_of world.now) (views.table_of world.now) class && not (plain.allows (views.rows_of world.now) (views.table_of world.now) method class))) }
    {
        if !self.is_checked(world, class) {
            return Ok(false);
        }
        let is_allowed = self.allows(alloc, world, method, class)?;
        Ok(!is_allowed)
    }

    // The name is that of a checked class that the method does not allow.
    fn is_not_allowed(
        &self,
        alloc: Global,
        world: &World,
        method: u32,
        name: u32,
    ) -> Result<bool, OutOfMemory>
        ensures { views.IsRightWorld world.now → tell.AreThrown (views.rows_of world.now) self.now → role_of_row (views.rows_of world.now) method ≡ roles.Method → IfOk result (λ is. is ≡ tell.is_name_not_allowed (views.rows_of world.now) (views.table_of world.now) method name) }
    {
        match world.under.declared(name) {
            Some(class) => self.is_class_not_allowed(alloc, world, method, class),
            None => Ok(false),
        }
    }

    // One of the names is that of such a class.
    fn is_any_not_allowed(
        &self,
        alloc: Global,
        world: &World,
        method: u32,
        names: &[u32],
    ) -> Result<bool, OutOfMemory>
        ensures { views.IsRightWorld world.now → tell.AreThrown (views.rows_of world.now) self.now → role_of_row (views.rows_of world.now) method ≡ roles.Method → IfOk result (λ is. is ≡ list_any (tell.is_name_not_allowed (views.rows_of world.now) (views.table_of world.now) method) names.now) }
    {
        for name in names {
            let is = self.is_not_allowed(alloc, world, method, *name)?;
            if is {
                return Ok(true);
            }
        }
        Ok(false)
    }

    // The name is that of a class that is neither Throwable nor below it.
    fn is_other_class(&self, world: &World, name: u32) -> bool
        ensures { views.IsRightWorld world.now → tell.AreThrown (views.rows_of world.now) self.now → result ≡ tell.is_other_class (views.rows_of world.now) (views.table_of world.now) name }
    {
        match world.under.declared(name) {
            Some(class) => !is_below(world, &self.throwables, class),
            None => false,
        }
    }

    // One of the names is that of such a class.
    fn has_other_class(&self, world: &World, names: &[u32]) -> bool
        ensures { views.IsRightWorld world.now → tell.AreThrown (views.rows_of world.now) self.now → result ≡ list_any (tell.is_other_class (views.rows_of world.now) (views.table_of world.now)) names.now }
    {
        for name in names {
            if self.is_other_class(world, *name) {
                return true;
            }
        }
        false
    }

    /// The method declares a class that is neither Throwable nor below it.
    pub fn throws_others(
        &self,
        alloc: Global,
        world: &World,
        method: u32,
    ) -> Result<bool, OutOfMemory>
        ensures { views.IsRightWorld world.now → tell.AreThrown (views.rows_of world.now) self.now → role_of_row (views.rows_of world.now) method ≡ roles.Method → IfOk result (λ is. is ≡ tell.throws_others (views.rows_of world.now) (views.table_of world.now) method) }
    {
        let names = self.names.rows(alloc, method, 0)?;
        let is = self.has_other_class(world, &names);
        Ok(is)
    }

    /// The first method declares a checked class that the second does not allow.
    pub fn declares_more(
        &self,
        alloc: Global,
        world: &World,
        method: u32,
        other: u32,
    ) -> Result<bool, OutOfMemory>
        ensures { views.IsRightWorld world.now → tell.AreThrown (views.rows_of world.now) self.now → role_of_row (views.rows_of world.now) method ≡ roles.Method → role_of_row (views.rows_of world.now) other ≡ roles.Method → IfOk result (λ is. is ≡ plain.declares_more (views.rows_of world.now) (views.table_of world.now) method other) }
    {
        let names = self.names.rows(alloc, method, 0)?;
        let is = self.is_any_not_allowed(alloc, world, other, &names)?;
        Ok(is)
    }
}
