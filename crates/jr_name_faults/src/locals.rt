// Locals and parameters in the scope of one of their name, and labels in a statement with one of theirs (JLS 8.4.1, 14.4.2, 14.7, 14.20).
ghost use Rattle.std.specs.Prelude.{◌≡◌, ◌++◌, ◌+◌, ◌<◌, ◌^◌, ◌&&◌, IfOk, OnOk, length, nat_lt};
ghost use Rattle.jr_tree.specs.declared.label.Role.TheVariants as role;
ghost use Rattle.jr_tree.specs.Rows as rows;
ghost use Rattle.jr_tree.specs.Rows.{Rows};
ghost use Rattle.jr_tree.specs.Tree.{IsTree};
ghost use Rattle.jr_defs.specs.Scope as scope;
ghost use Rattle.jr_plain.specs.Same as same;
ghost use Rattle.jr_members.specs.Keys.{entry_list};
ghost use Rattle.jr_members.specs.Sources.{ArePlaced};
ghost use Rattle.jr_lookup.specs.Scopes.{parameter_entry as entry_of};
ghost use Rattle.jr_name_rules.specs.DeclarationTests as plain;
ghost use Rattle.jr_name_faults.specs.Ends.{end_in};
ghost use Rattle.jr_name_faults.specs.Locals as tell;

use crate::ends::Ends;
use jr_base::OutOfMemory;
use jr_lookup::is_block;
use jr_places::{Chains, Entry, Places, end_at, parent_at, role_at};
use jr_tree::{Label, Role, Row};
use std::alloc::Global;

/// The scopes of locals, parameters and labels that were opened by the rows so far.
#[derive(Drop)]
pub struct Locals<'a> {
    rows: &'a [Row],
    places: &'a Places,
    variables: Ends,
    labels: Ends,
    /// All parameters, under the row round them and 0.
    parameters: Chains,
    /// The parameters so far, under the row round them and their names.
    listed: Chains,
}

// The row declares a local or a parameter.
fn is_local_or_parameter(all: &[Row], at: u32) -> bool
    ensures { result ≡ plain.is_local_or_parameter (rows.role_at all.now at) }
{
    match role_at(all, at) {
        Role::Local => true,
        Role::Parameter => true,
        _ => false,
    }
}

fn is_local(all: &[Row], at: u32) -> bool
    ensures { result ≡ same.same_role (rows.role_at all.now at) role.Local }
{
    match role_at(all, at) {
        Role::Local => true,
        _ => false,
    }
}

fn is_parameter(all: &[Row], at: u32) -> bool
    ensures { result ≡ same.same_role (rows.role_at all.now at) role.Parameter }
{
    match role_at(all, at) {
        Role::Parameter => true,
        _ => false,
    }
}

fn is_label(all: &[Row], at: u32) -> bool
    ensures { result ≡ same.same_role (rows.role_at all.now at) role.Label }
{
    match role_at(all, at) {
        Role::Label => true,
        _ => false,
    }
}

// A local, a parameter or a label has a scope.
fn has_scope(role: Role) -> bool
    ensures { result ≡ tell.has_scope role }
{
    match role {
        Role::Local => true,
        Role::Parameter => true,
        Role::Label => true,
        _ => false,
    }
}

// Where the block of a declaration of locals ends, whose parent is the row: all groups of a switch are one block (JLS 14.11).
fn block_end(all: &[Row], block: u32) -> u32
    ensures { length all.now < 2 ^ 32 → block < length all.now → rows.parent all.now block < length all.now → result ≡ scope.block_end all.now block }
{
    match all.get(block as usize) {
        Some(row) => match row.label {
            Label::Group => end_at(all, row.parent),
            _ => row.end,
        },
        None => end_at(all, block),
    }
}

// Opens the scope of a local, if the row is one.
fn open_local(ends: &mut Ends, all: &[Row], name: u32, at: u32)
    ensures { length all.now < 2 ^ 32 → at < length all.now → IsTree all.now → ends.new.ends.items ≡ tell.with_scope all.now role.Local (tell.local_end all.now) name at ends.old.ends.items }
{
    if is_local(all, at) {
        let block = parent_at(all, parent_at(all, at));
        ends.open_until(name, block_end(all, block));
    }
}

// Opens the scope of a label, if the row is one.
fn open_label(ends: &mut Ends, all: &[Row], name: u32, at: u32)
    ensures { length all.now < 2 ^ 32 → at < length all.now → ends.new.ends.items ≡ tell.with_scope all.now role.Label (rows.end all.now) name at ends.old.ends.items }
{
    if is_label(all, at) {
        ends.open_until(name, end_at(all, at));
    }
}

// The row under the row round it and a number, if it is a parameter.
fn parameter_entry(all: &[Row], second: u32, at: u32) -> Option<Entry>
    ensures { result ≡ entry_of all.now second at }
{
    match role_at(all, at) {
        Role::Parameter => Some(Entry {
            first: parent_at(all, at),
            second,
            row: at,
        }),
        _ => None,
    }
}

fn add_entry(alloc: Global, all: &mut Chains, entry: Option<Entry>) -> Result<(), OutOfMemory>
    ensures { OnOk result (all.new ≡ all.old ++ entry_list entry) }
{
    match entry {
        Some(entry) => all.add(alloc, entry),
        None => Ok(()),
    }
}

impl<'a> Locals<'a> {
    /// No scope is open, and no parameters are known.
    pub fn new(
        alloc: Global,
        rows: &'a [Row],
        places: &'a Places,
    ) -> Result<Locals<'a>, OutOfMemory>
        ensures { ArePlaced rows.now places.now → length rows.now < 2 ^ 32 → IfOk result (λ locals. tell.AreLocalsTo rows.now 0 0 0 locals) }
    {
        let variables = Ends::new(alloc, rows.len())?;
        let labels = Ends::new(alloc, rows.len())?;
        Ok(Locals {
            rows,
            places,
            variables,
            labels,
            parameters: Chains::new(alloc),
            listed: Chains::new(alloc),
        })
    }

    /// Adds all parameters.
    pub fn add_parameters(&mut self, alloc: Global) -> Result<(), OutOfMemory>
        ensures { (p : Rows) → tell.AreLocalsTo p 0 0 0 self.old → OnOk result (tell.IsBefore p 0 self.new) }
    {
        let Ok(count) = u32::try_from(self.rows.len()) else {
            return Err(OutOfMemory);
        };
        for row in 0..count {
            self.add_parameter(alloc, row)?;
        }
        Ok(())
    }

    // Adds a row, if it is a parameter.
    fn add_parameter(&mut self, alloc: Global, at: u32) -> Result<(), OutOfMemory>
        ensures { (p : Rows) → tell.AreLocalsTo p at 0 0 self.old → OnOk result (tell.AreLocalsTo p (at + 1) 0 0 self.new) }
    {
        let entry = parameter_entry(self.rows, 0, at);
        add_entry(alloc, &mut self.parameters, entry)?;
        Ok(())
    }

    /// Opens the scopes of the parameters beside a block, if the row is one.
    pub fn enter(&mut self, alloc: Global, at: u32) -> Result<(), OutOfMemory>
        ensures { (p : Rows) → at < length p → tell.IsBefore p at self.old → OnOk result (tell.IsEntered p at self.new) }
    {
        if !is_block(self.rows, at) {
            return Ok(());
        }
        let over = parent_at(self.rows, at);
        let end = end_at(self.rows, at);
        let beside = self.parameters.rows(alloc, over, 0)?;
        self.variables.open_all(self.places, &beside, end);
        Ok(())
    }

    /// The row declares a local, a parameter or a label.
    pub fn declares(&self, at: u32) -> bool
        ensures { result ≡ tell.has_scope (rows.role_at self.now.rows.now at) }
    {
        has_scope(role_at(self.rows, at))
    }

    // A parameter stands behind another of the name in one list.
    fn is_listed(&self, name: u32, at: u32) -> bool
        ensures { result ≡ tell.is_listed self.now name at }
    {
        is_parameter(self.rows, at) && self.listed.last(parent_at(self.rows, at), name).is_some()
    }

    // A scope of the name holds the row, or a list of parameters has the name before it.
    fn is_inside(&self, name: u32, at: u32) -> bool
        ensures { result ≡ tell.is_inside self.now name at }
    {
        self.variables.holds(name, at) || self.is_listed(name, at)
    }

    // The same, of a local or parameter.
    fn is_second(&self, name: u32, at: u32) -> bool
        ensures { result ≡ (plain.is_local_or_parameter (rows.role_at self.now.rows.now at) && tell.is_inside self.now name at) }
    {
        is_local_or_parameter(self.rows, at) && self.is_inside(name, at)
    }

    /// A local or parameter has the name of one that is in scope.
    pub fn is_second_local(&self, at: u32) -> bool
        ensures { (p : Rows) → at < length p → tell.IsEntered p at self.now → result ≡ plain.is_second_local p at }
    {
        self.is_second(self.places.name(at), at)
    }

    // A label stands in a statement with a label of the name.
    fn is_labeled(&self, name: u32, at: u32) -> bool
        ensures { result ≡ (same.same_role (rows.role_at self.now.rows.now at) role.Label && nat_lt at (end_in self.now.labels.ends.items name)) }
    {
        is_label(self.rows, at) && self.labels.holds(name, at)
    }

    /// A label stands in a statement with a label of the same name.
    pub fn is_second_label(&self, at: u32) -> bool
        ensures { (p : Rows) → at < length p → tell.IsEntered p at self.now → result ≡ plain.is_second_label p at }
    {
        self.is_labeled(self.places.name(at), at)
    }

    /// Opens the scope of what the row declares.
    pub fn declare(&mut self, alloc: Global, at: u32) -> Result<(), OutOfMemory>
        ensures { (p : Rows) → at < length p → tell.IsEntered p at self.old → OnOk result (tell.IsBefore p (at + 1) self.new) }
    {
        let name = self.places.name(at);
        open_local(&mut self.variables, self.rows, name, at);
        open_label(&mut self.labels, self.rows, name, at);
        let entry = parameter_entry(self.rows, name, at);
        add_entry(alloc, &mut self.listed, entry)?;
        Ok(())
    }
}
