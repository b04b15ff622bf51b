// Creation of arrays (JLS 15.10, 10.6).
ghost use Rattle.std.specs.Prelude.{◌≡◌, ◌+◌, ◌*◌, ◌++◌, [], IfOk, OnOk, false, length, replicate};
ghost use Rattle.jr_base.specs.Mirror.{plain_ty};
ghost use Rattle.jr_machine_defs.specs.Values.{default_of};
ghost use Rattle.jr_machine_defs.specs.Arrays.{makes_array, references, arrays_of_arrays, arrays, is_array_of, makes_fit, makes_arrays, sizes_from};
ghost use Rattle.jr_machine_defs.specs.Places.{place_in};
ghost use Rattle.jr_machine_defs.specs.Follows.{Follows};
ghost use Rattle.jr_machine_defs.specs.declared.heap.Cell.TheVariants as cell;

use crate::changes::{push, raise};
use crate::variables::default_of;
use jr_base::{Items, OutOfMemory, Ty};
use jr_machine_defs::{Cell, Cells, Fault, Sizes, Stack, State, TyRef, Value};
use std::alloc::Global;

/// The values from the top down.
fn items_of<'a>(
    alloc: Global,
    mut values: Stack<Value<'a>>,
) -> Result<Items<Value<'a>>, OutOfMemory>
    ensures { IfOk result (λ items. items ≡ values.entry) }
{
    let mut items = Items::new(alloc);
    while let Some(value) = values.pop() {
        items.push(value)?;
    }
    Ok(items)
}

/// So many default values of a type.
#[tactic(auto, using(crate::proofs::Counting::replicate_step, crate::proofs::Counting::append_one))]
fn defaults<'a>(alloc: Global, size: usize, item: &Ty) -> Result<Items<Value<'a>>, OutOfMemory>
    ensures { IfOk result (λ items. items ≡ replicate size (default_of (plain_ty item.now))) }
{
    let mut items = Items::new(alloc);
    for i in 0..size {
        items.push(default_of(item))?;
    }
    Ok(items)
}

/// So many references to cells that follow each other.
#[tactic(auto, using(crate::proofs::Counting::references_step, crate::proofs::Counting::append_one))]
fn references<'a>(alloc: Global, first: usize, size: usize) -> Result<Items<Value<'a>>, OutOfMemory>
    ensures { IfOk result (λ items. items ≡ references first size) }
{
    let mut items = Items::new(alloc);
    let mut at = first;
    for i in 0..size {
        items.push(Value::Ref(at))?;
        at = at.checked_add(1).ok_or(OutOfMemory)?;
    }
    Ok(items)
}

/// Adds so many arrays of default values.
#[tactic(auto, using(crate::proofs::Counting::replicate_step, crate::proofs::Counting::append_one))]
fn push_leaves<'a>(
    cells: &mut Cells<Cell<'a>>,
    alloc: Global,
    item: &'a Ty,
    count: usize,
    size: usize,
) -> Result<(), OutOfMemory>
    ensures { OnOk result (cells.new ≡ cells.old ++ replicate count (cell.Array (plain_ty item.entry.now) (replicate size (default_of (plain_ty item.entry.now))))) }
{
    for i in 0..count {
        let items = defaults(alloc, size, item)?;
        cells.push(Cell::Array {
            item: TyRef::new(item),
            items,
        })?;
    }
    Ok(())
}

/// Adds so many arrays of references to the cells that follow.
#[tactic(auto, using(crate::proofs::Counting::arrays_step, crate::proofs::Counting::append_one))]
fn push_level<'a>(
    cells: &mut Cells<Cell<'a>>,
    alloc: Global,
    item: &'a Ty,
    first: usize,
    size: usize,
    count: usize,
) -> Result<(), OutOfMemory>
    ensures { OnOk result (cells.new ≡ cells.old ++ arrays_of_arrays (plain_ty item.entry.now) first size count) }
{
    let mut at = first;
    for i in 0..count {
        let items = references(alloc, at, size)?;
        cells.push(Cell::Array {
            item: TyRef::new(item),
            items,
        })?;
        at = at.checked_add(size).ok_or(OutOfMemory)?;
    }
    Ok(())
}

/// Adds so many arrays of references to the cells that follow them, and gives how many cells these are.
fn push_next<'a>(
    cells: &mut Cells<Cell<'a>>,
    alloc: Global,
    item: &'a Ty,
    count: usize,
    size: usize,
) -> Result<usize, OutOfMemory>
    ensures total { IfOk result (λ total. total ≡ count * size) }
    ensures cells { OnOk result (cells.new ≡ cells.old ++ arrays_of_arrays (plain_ty item.entry.now) (length cells.old + count) size count) }
{
    let first = cells.len().checked_add(count).ok_or(OutOfMemory)?;
    let total = count.checked_mul(size).ok_or(OutOfMemory)?;
    push_level(cells, alloc, item, first, size, count)?;
    Ok(total)
}

/// Adds so many arrays of a type with these dimensions: first these arrays, then those that they refer to.
fn push_arrays<'a>(
    cells: &mut Cells<Cell<'a>>,
    alloc: Global,
    ty: &'a Ty,
    count: usize,
    sizes: &[usize],
) -> Result<(), OutOfMemory>
    ensures { OnOk result (cells.new ≡ cells.old ++ arrays (plain_ty ty.entry.now) (length cells.old) count sizes.now) }
{
    match (ty, sizes) {
        (Ty::Array(item), [size, rest @ ..]) => {
            if rest.len() > 0 {
                let total = push_next(cells, alloc, item.get(), count, *size)?;
                push_arrays(cells, alloc, item.get(), total, rest)?;
                Ok(())
            } else {
                push_leaves(cells, alloc, item.get(), count, *size)
            }
        }
        _ => Ok(()),
    }
}

/// Whether the type has as many dimensions.
fn is_array_of(ty: &Ty, sizes: &[usize]) -> bool
    ensures { result ≡ is_array_of (plain_ty ty.now) sizes.now }
{
    match sizes {
        [] => true,
        [_, rest @ ..] => match ty {
            Ty::Array(item) => is_array_of(item.get(), rest),
            _ => false,
        },
    }
}

/// The dimensions, where none is negative.
fn sizes_of(alloc: Global, mut dims: Stack<Value>) -> Result<Sizes, OutOfMemory>
    ensures { IfOk result (λ sizes. sizes ≡ sizes_from dims.entry false []) }
{
    let mut sizes = Items::new(alloc);
    let mut is_negative = false;
    while let Some(value) = dims.pop() {
        match value {
            Value::Int(size) => {
                if size < 0 {
                    is_negative = true;
                } else {
                    sizes.push(size as usize)?;
                }
            }
            _ => return Ok(Sizes::Unfit),
        }
    }
    Ok(if is_negative {
        Sizes::Negative
    } else {
        Sizes::Fit(sizes)
    })
}

/// The array with these components (JLS 10.6).
pub fn make_array<'a>(
    state: &mut State<'a>,
    alloc: Global,
    ty: &'a Ty,
    items: Stack<Value<'a>>,
) -> Result<bool, OutOfMemory>
    ensures { IfOk result (λ went. Follows (makes_array (plain_ty ty.entry.now) items.entry state.old) went state.old state.new) }
{
    match ty {
        Ty::Array(item) => {
            let at = state.heap.len();
            let items = items_of(alloc, items)?;
            state.heap.push(Cell::Array {
                item: TyRef::new(item.get()),
                items,
            })?;
            push(state, Value::Ref(at))
        }
        _ => Ok(false),
    }
}

fn make_sized<'a>(
    state: &mut State<'a>,
    alloc: Global,
    ty: &'a Ty,
    sizes: &[usize],
) -> Result<bool, OutOfMemory>
    ensures { IfOk result (λ went. Follows (makes_fit (plain_ty ty.entry.now) sizes.now state.old) went state.old state.new) }
{
    if sizes.is_empty() || !is_array_of(ty, sizes) {
        return Ok(false);
    }
    let at = state.heap.len();
    push_arrays(&mut state.heap, alloc, ty, 1, sizes)?;
    push(state, Value::Ref(at))
}

/// The array with these dimensions (JLS 15.10.1).
pub fn make_arrays<'a>(
    state: &mut State<'a>,
    alloc: Global,
    ty: &'a Ty,
    dims: Stack<Value<'a>>,
) -> Result<bool, OutOfMemory>
    ensures { IfOk result (λ went. Follows (makes_arrays (plain_ty ty.entry.now) dims.entry state.old) went state.old state.new) }
{
    match sizes_of(alloc, dims)? {
        Sizes::Unfit => Ok(false),
        Sizes::Negative => raise(state, alloc, Fault::NegativeArraySize),
        Sizes::Fit(sizes) => make_sized(state, alloc, ty, sizes.as_slice()),
    }
}

/// The place of an index in an array of this length, if it is in bounds.
pub fn place_in(size: usize, index: i32) -> Option<usize>
    ensures { result ≡ place_in size index }
{
    if index < 0 {
        return None;
    }
    let place = index as usize;
    if place < size { Some(place) } else { None }
}
