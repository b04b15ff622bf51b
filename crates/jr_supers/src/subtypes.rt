// The supertypes of the types of a program, and subtyping (JLS 4.10).
ghost use Rattle.std.specs.Prelude.{◌≡◌, ◌++◌, suc, None, IfOk, OnOk, Decides};
ghost use Rattle.jr_defs.specs.Referents.{Table, entries};
ghost use Rattle.jr_defs.specs.Supertypes.{Above as AboveIn, AtOrAbove, Subtype, Superclass};
ghost use Rattle.jr_tree.specs.Rows.{Rows};
ghost use Rattle.jr_plain.specs.Same as same;
ghost use Rattle.jr_plain.specs.Search.{Finds};
ghost use Rattle.jr_plain.specs.Supertypes as plain;
ghost use Rattle.jr_supers.specs.Above.{up_at, depth_of, link_at};
ghost use Rattle.jr_supers.specs.Direct.{HasSupers};
ghost use Rattle.jr_supers.specs.Supers as tell;

use crate::above::{Above, first_super};
use crate::ordering::order_of;
use crate::supers::Direct;
use crate::tabled::Tabled;
use jr_base::OutOfMemory;
use jr_defs::{Element, RowType};
use jr_places::{Chains, is_object};
use jr_tree::Row;
use std::alloc::Global;

/// The supertypes of each type of a program under a table, whose supertypes should have no cycle.
#[derive(Drop)]
pub struct Supers {
    direct: Direct,
    order: Vec<u32>,
    above: Above,
}

impl Supers {
    /// The supertypes under a table.
    pub fn of(alloc: Global, under: Tabled) -> Result<Supers, OutOfMemory>
        ensures direct { tell.IsWellHeaded under.entry.rows.now → IfOk result (λ supers. HasSupers under.entry.rows.now (entries under.entry.table.now) supers.direct.supers) }
        ensures all { tell.IsWellHeaded under.entry.rows.now → tell.HasNoCycle under.entry.rows.now (entries under.entry.table.now) → IfOk result (λ supers. tell.AreSupersOf under.entry.rows.now (entries under.entry.table.now) supers) }
    {
        let direct = Direct::of(alloc, under)?;
        let order = order_of(alloc, under.rows, &direct.supers)?;
        let above = Above::of(alloc, under.rows, &direct, &order)?;
        Ok(Supers {
            direct,
            order,
            above,
        })
    }

    /// No types, and no room for any.
    pub fn nothing(alloc: Global) -> Supers {
        Supers {
            direct: Direct::nothing(alloc),
            order: Vec::new(alloc),
            above: Above::nothing(alloc),
        }
    }

    /// No types yet.
    pub fn none(alloc: Global, rows: &[Row]) -> Result<Supers, OutOfMemory> {
        Ok(Supers {
            direct: Direct::none(alloc, rows)?,
            order: Vec::new(alloc),
            above: Above::new(alloc, rows)?,
        })
    }

    /// One type more, behind its supertypes, under a table that has the names of its header.
    pub fn with_type(self, alloc: Global, under: Tabled, at: u32) -> Result<Supers, OutOfMemory> {
        let Supers {
            direct,
            mut order,
            above,
        } = self;
        order.push(at)?;
        let direct = direct.with_type(under, at)?;
        let above = above.with_type(alloc, under.rows, &direct, at)?;
        Ok(Supers {
            direct,
            order,
            above,
        })
    }

    /// The types, each behind its supertypes.
    pub fn order(&self) -> &[u32]
        ensures { result.now ≡ self.now.order.items }
    {
        &self.order
    }

    /// The direct supertypes, under the key of the type and 0: the superclass first, then the superinterfaces as written.
    pub fn direct(&self) -> &Chains
        ensures { result.now ≡ self.now.direct.supers }
    {
        &self.direct.supers
    }

    /// The first of the direct supertypes.
    pub fn first(&self, at: u32) -> Option<u32> {
        first_super(&self.direct, at)
    }

    /// The first of the direct supertypes, where that is a type and stands before this one in the order.
    pub fn linked(&self, at: u32) -> Option<u32>
        ensures { result ≡ up_at self.now.above.links.items at }
    {
        self.above.first(at)
    }

    /// How many types stand on the way up from a type by `linked`, with itself.
    pub fn turns(&self, at: u32) -> usize
        ensures { result ≡ suc (depth_of (link_at self.now.above.links.items at)) }
    {
        self.above.turns(at)
    }

    /// The superclass.
    pub fn superclass(&self, at: u32) -> Option<u32>
        ensures { (p : Rows) (t : Table) → tell.AreSupersOf p t self.now → Finds result (Superclass p t at) }
    {
        self.direct.superclass(at)
    }

    /// The class Object.
    pub fn object(&self) -> Option<u32>
        ensures { result ≡ self.now.direct.object }
    {
        self.direct.object
    }

    /// The type `over` stands strictly above the type `at`.
    pub fn is_above(&self, rows: &[Row], at: u32, over: u32) -> bool
        ensures plain { (t : Table) → tell.AreSupersOf rows.now t self.now → result ≡ plain.is_above rows.now t at over }
        ensures above { (t : Table) → tell.AreSupersOf rows.now t self.now → Decides result (AboveIn rows.now t at over) }
    {
        self.above.is_above(rows, at, over)
    }

    /// The type `over` is the type `at`, or stands above it.
    pub fn is_at_or_above(&self, rows: &[Row], at: u32, over: u32) -> bool
        ensures { (t : Table) → tell.AreSupersOf rows.now t self.now → Decides result (AtOrAbove rows.now t at over) }
    {
        let above = self.is_above(rows, at, over);
        at == over || above
    }

    /// A type and all above it, as they rise, each once.
    pub fn with_above(&self, alloc: Global, rows: &[Row], at: u32) -> Result<Vec<u32>, OutOfMemory>
        ensures { (t : Table) → tell.AreSupersOf rows.now t self.now → IfOk result (λ all. tell.ListsOnce all.items (AtOrAbove rows.now t at)) }
    {
        let mut all = self.above.with_above(alloc, at)?;
        self.push_object(rows, &mut all, at)?;
        let out = sorted_once(alloc, &mut all)?;
        Ok(out)
    }

    // Adds Object, where it stands above the type.
    fn push_object(&self, rows: &[Row], all: &mut Vec<u32>, at: u32) -> Result<(), OutOfMemory>
        ensures { OnOk result (all.new.items ≡ all.old.items ++ tell.object_if rows.now self.now at self.now.direct.object) }
    {
        match self.direct.object {
            Some(object) => {
                if self.above.is_above_by_tables(rows, at, object) {
                    all.push(object)?;
                }
                Ok(())
            }
            None => Ok(()),
        }
    }

    /// The first type is a subtype of the second.
    pub fn is_subtype(&self, rows: &[Row], low: RowType, high: RowType) -> bool
        ensures plain { (t : Table) → tell.AreSupersOf rows.now t self.now → result ≡ plain.is_subtype rows.now t low high }
        ensures subtype { (t : Table) → tell.AreSupersOf rows.now t self.now → Decides result (Subtype rows.now t low high) }
    {
        let above = self.is_above_element(rows, low.element, high.element);
        is_subtype_where(rows, low, high, above)
    }

    // A class is below another.
    fn is_above_element(&self, rows: &[Row], low: Element, high: Element) -> bool
        ensures { (t : Table) → tell.AreSupersOf rows.now t self.now → result ≡ plain.is_above_class rows.now t low high }
    {
        match low {
            Element::Class(at) => match high {
                Element::Class(over) => self.is_above(rows, at, over),
                _ => false,
            },
            _ => false,
        }
    }
}

/// The items in order, each once.
pub fn sorted_once(alloc: Global, all: &mut [u32]) -> Result<Vec<u32>, OutOfMemory>
    ensures { IfOk result (λ out. tell.SortsOnce all.old out.items) }
{
    all.sort_unstable();
    let out = without_repeats(alloc, all)?;
    Ok(out)
}

// A list that rises, with each item once.
fn without_repeats(alloc: Global, all: &[u32]) -> Result<Vec<u32>, OutOfMemory>
    ensures { IfOk result (λ out. out.items ≡ tell.once None all.now) }
{
    let mut out = Vec::new(alloc);
    let mut last = None;
    for at in all {
        if !is_last(last, *at) {
            out.push(*at)?;
        }
        last = Some(*at);
    }
    Ok(out)
}

fn is_last(last: Option<u32>, at: u32) -> bool
    ensures { result ≡ tell.is_last last at }
{
    match last {
        Some(before) => before == at,
        None => false,
    }
}

// The type is a subtype of the other, where it is told whether its class is below that.
fn is_subtype_where(rows: &[Row], low: RowType, high: RowType, above: bool) -> bool
    ensures { result ≡ tell.is_subtype_where rows.now low high above }
{
    if low.dims == high.dims {
        return is_same(low.element, high.element)
            || (low.dims == 0 && is_below_plain(low.element, high.element))
            || above;
    }
    if high.dims < low.dims {
        return is_object_element(rows, high.element);
    }
    low.dims == 0 && is_null(low.element)
}

// Both element types are one.
fn is_same(low: Element, high: Element) -> bool
    ensures { result ≡ same.same_element low high }
{
    match low {
        Element::Boolean => match high {
            Element::Boolean => true,
            _ => false,
        },
        Element::Byte => match high {
            Element::Byte => true,
            _ => false,
        },
        Element::Short => match high {
            Element::Short => true,
            _ => false,
        },
        Element::Char => match high {
            Element::Char => true,
            _ => false,
        },
        Element::Int => match high {
            Element::Int => true,
            _ => false,
        },
        Element::Long => match high {
            Element::Long => true,
            _ => false,
        },
        Element::Null => match high {
            Element::Null => true,
            _ => false,
        },
        Element::Void => match high {
            Element::Void => true,
            _ => false,
        },
        Element::Class(at) => match high {
            Element::Class(over) => at == over,
            _ => false,
        },
    }
}

fn is_null(element: Element) -> bool
    ensures { result ≡ plain.is_null element }
{
    match element {
        Element::Null => true,
        _ => false,
    }
}

fn is_class_element(element: Element) -> bool
    ensures { result ≡ plain.is_reference 0 element }
{
    match element {
        Element::Class(_) => true,
        _ => false,
    }
}

// Widening between primitive types, and from the type of null to classes (JLS 4.10.1).
fn is_below_plain(low: Element, high: Element) -> bool
    ensures { result ≡ tell.is_below_plain low high }
{
    widens(low, high) || (is_null(low) && is_class_element(high))
}

/// Widening between primitive types: byte, short, int, long, and char below int (JLS 4.10.1).
pub fn widens(low: Element, high: Element) -> bool
    ensures { result ≡ plain.widens low high }
{
    match low {
        Element::Byte => match high {
            Element::Short => true,
            Element::Int => true,
            Element::Long => true,
            _ => false,
        },
        Element::Short => match high {
            Element::Int => true,
            Element::Long => true,
            _ => false,
        },
        Element::Char => match high {
            Element::Int => true,
            Element::Long => true,
            _ => false,
        },
        Element::Int => match high {
            Element::Long => true,
            _ => false,
        },
        _ => false,
    }
}

/// The element type is the class Object.
pub fn is_object_element(rows: &[Row], element: Element) -> bool
    ensures { result ≡ plain.is_object_type rows.now element }
{
    match element {
        Element::Class(at) => is_object(rows, at),
        _ => false,
    }
}

/// Class, interface and array types (JLS 4.3).
pub fn is_reference(ty: RowType) -> bool
    ensures { result ≡ plain.is_reference_type ty }
{
    if ty.dims > 0 {
        return true;
    }
    match ty.element {
        Element::Class(_) => true,
        _ => false,
    }
}
