// Types that units declare outside any other: two of one name in a package, or one that a subpackage is named as (JLS 7.1, 7.6).
ghost use Rattle.std.specs.Prelude.{◌≡◌, ◌||◌, ◌+◌, ◌<◌, ◌^◌, IfOk, OnOk, length};
ghost use Rattle.jr_tree.specs.Rows.{Rows, label};
ghost use Rattle.jr_plain.specs.Search.{all_such};
ghost use Rattle.jr_places.specs.Names.{name_row};
ghost use Rattle.jr_places.specs.Packages as packed;
ghost use Rattle.jr_places.specs.Places.{ArePlaces, package_number};
ghost use Rattle.jr_rule.specs.declared.Rule.TheVariants as rules;
ghost use Rattle.jr_rule.specs.Faults.{AreFaultsOf};
ghost use Rattle.jr_faults.specs.Added.{row_if};
ghost use Rattle.jr_members.specs.Sources.{ArePlaced};
ghost use Rattle.jr_lookup.specs.Scopes as scoped;
ghost use Rattle.jr_member_faults.specs.Tops as tell;
ghost use Rattle.jr_member_faults.specs.Twice as twice;

use crate::listing::add_entry;
use crate::twice::is_listed;
use jr_base::OutOfMemory;
use jr_faults::rule_if;
use jr_places::{Chains, Entry, Places, end_at, is_top_level, is_unit};
use jr_rule::{Fault, Rule};
use jr_tree::{Label, Row};
use std::alloc::Global;

fn is_package(rows: &[Row], at: u32) -> bool
    ensures { result ≡ packed.is_package (label rows.now at) }
{
    match rows.get(at as usize) {
        Some(row) => match row.label {
            Label::Package => true,
            _ => false,
        },
        None => false,
    }
}

// The last identifier of the name of the package that a unit declares.
fn package_name(rows: &[Row], unit: u32) -> Option<u32>
    ensures { unit + 2 < 2 ^ 32 → result ≡ tell.package_name rows.now unit }
{
    let declared = unit.saturating_add(1);
    if is_unit(rows, unit) && is_package(rows, declared) {
        return Some(unit.saturating_add(2));
    }
    None
}

// The number of the package whose name stands before this last identifier. It ends where the whole name does; where it did not, the answer were want of memory.
fn package_above(rows: &[Row], places: &Places, name: u32) -> Result<Option<u32>, OutOfMemory>
    ensures { ArePlaced rows.now places.now → length rows.now + 3 < 2 ^ 32 → name < length rows.now → IfOk result (tell.FindsAbove rows.now places.now name) }
{
    let before = name.saturating_add(1);
    let end = end_at(rows, name);
    if before >= end {
        return Ok(None);
    }
    if end_at(rows, before) != end {
        return Err(OutOfMemory);
    }
    Ok(places.spelled(rows, before))
}

// A unit under the package above its own and the last identifier of its own.
fn entry_above(places: &Places, unit: u32, name: u32, above: Option<u32>) -> Option<Entry>
    ensures { (p : Rows) → ArePlaces p places.now → name < length p → result ≡ tell.entry_above p unit name above }
{
    match above {
        Some(first) => Some(Entry {
            first,
            second: places.name(name),
            row: unit,
        }),
        None => None,
    }
}

// What a row adds, if it is a unit of a package that stands in another.
fn unit_entry(rows: &[Row], places: &Places, unit: u32) -> Result<Option<Entry>, OutOfMemory>
    ensures { ArePlaced rows.now places.now → length rows.now + 3 < 2 ^ 32 → unit < length rows.now → IfOk result (tell.IsUnitEntry rows.now places.now unit (tell.package_name rows.now unit)) }
{
    let Some(name) = package_name(rows, unit) else {
        return Ok(None);
    };
    let above = package_above(rows, places, name)?;
    Ok(entry_above(places, unit, name, above))
}

// The units of packages that stand in others.
fn units_of(alloc: Global, rows: &[Row], places: &Places, count: u32) -> Result<Chains, OutOfMemory>
    ensures { ArePlaced rows.now places.now → length rows.now + 3 < 2 ^ 32 → count ≡ length rows.now → IfOk result (λ units. tell.AreUnits rows.now places.now units) }
{
    let mut units = Chains::new(alloc);
    for unit in 0..count {
        let entry = unit_entry(rows, places, unit)?;
        add_entry(alloc, &mut units, entry)?;
    }
    Ok(units)
}

// What a row adds, if it is a type outside any other.
fn top_entry(rows: &[Row], places: &Places, row: u32) -> Option<Entry>
    ensures { ArePlaces rows.now places.now → row < length rows.now → result ≡ scoped.top_entry rows.now (package_number places.now row) (name_row rows.now row) row }
{
    if !is_top_level(rows, row) {
        return None;
    }
    match places.package(row) {
        Some(first) => Some(Entry {
            first,
            second: places.name(row),
            row,
        }),
        None => None,
    }
}

// Something stands under the key of the entry.
fn has_entry(all: &Chains, entry: Option<Entry>) -> bool
    ensures { result ≡ twice.has_entry all.now entry }
{
    match entry {
        Some(entry) => is_listed(all, entry),
        None => false,
    }
}

// The rule on names of types, where another type or a unit stands under the key.
fn top_fault(
    types: &Chains,
    units: &Chains,
    entry: Option<Entry>,
    row: u32,
    out: &mut Vec<Fault>,
) -> Result<(), OutOfMemory>
    ensures { OnOk result (AreFaultsOf rules.TypeNames (row_if (twice.has_entry types.now entry || twice.has_entry units.now entry) row) out.old.items out.new.items) }
{
    let is_broken = has_entry(types, entry) || has_entry(units, entry);
    rule_if(out, is_broken, row, Rule::TypeNames)?;
    Ok(())
}

// The rule on names of types outside any other, at all rows.
fn put_faults(
    alloc: Global,
    rows: &[Row],
    places: &Places,
    units: &Chains,
    count: u32,
    out: &mut Vec<Fault>,
) -> Result<(), OutOfMemory>
    ensures { ArePlaced rows.now places.now → count ≡ length rows.now → tell.AreUnits rows.now places.now units.now → OnOk result (AreFaultsOf rules.TypeNames (all_such (length rows.now) (tell.has_top_type_clash rows.now)) out.old.items out.new.items) }
{
    let mut types = Chains::new(alloc);
    for row in 0..count {
        let entry = top_entry(rows, places, row);
        top_fault(&types, units, entry, row, out)?;
        add_entry(alloc, &mut types, entry)?;
    }
    Ok(())
}

// How many rows there are, fewer than can be numbered.
fn row_count(rows: &[Row]) -> Result<u32, OutOfMemory>
    ensures counted { IfOk result (λ count. count ≡ length rows.now) }
    ensures few { OnOk result (length rows.now + 3 < 2 ^ 32) }
{
    if rows.len() >= u32::MAX as usize - 2 {
        return Err(OutOfMemory);
    }
    Ok(rows.len() as u32)
}

/// Adds the types outside any other that have the name of one before them in their package, or of a subpackage, as their rows rise.
/// These are the rows at which the definition breaks the rule so, where the places are right.
pub fn top_type_faults(
    alloc: Global,
    rows: &[Row],
    places: &Places,
    out: &mut Vec<Fault>,
) -> Result<(), OutOfMemory>
    ensures { ArePlaced rows.now places.now → OnOk result (AreFaultsOf rules.TypeNames (all_such (length rows.now) (tell.has_top_type_clash rows.now)) out.old.items out.new.items) }
{
    let count = row_count(rows)?;
    let units = units_of(alloc, rows, places, count)?;
    put_faults(alloc, rows, places, &units, count, out)?;
    Ok(())
}
