// Lists whose items are replaced in place.
ghost use Rattle.std.specs.Prelude.{◌≡◌, ◌<◌, [], ◌∷◌, ◌++◌, length, OnOk, slice_get, slice_set};

use jr_base::OutOfMemory;
use std::alloc::Global;
use std::marker::Model;
use std::mem;

/// A list whose items can be taken out and put back, which contracts see as the list.
#[derive(Drop)]
pub struct Cells<T> {
    cells: Vec<T>,
}

impl<T> Model for Cells<T> {
    ghost use Rattle.std.specs.Prelude.{List};
    ghost use Rattle.std.specs.Coded.{coded_list};

    ghost Value = { List T };

    ghost coded = { coded_list T.code };

    ghost view = { λ c. c.cells.items };
}

impl<T> Cells<T> {
    /// A list without items.
    pub fn new(alloc: Global) -> Cells<T>
        ensures { result ≡ [] }
    {
        Cells {
            cells: Vec::new(alloc),
        }
    }

    /// How many items there are.
    pub fn len(&self) -> usize
        ensures { result ≡ length self.now }
    {
        self.cells.len()
    }

    /// The items.
    pub fn as_slice(&self) -> &[T]
        ensures { result.now ≡ self.now }
    {
        self.cells.as_slice()
    }
}

impl<T: Drop> Cells<T> {
    /// Puts an item at the end.
    pub fn push(&mut self, item: T) -> Result<(), OutOfMemory>
        ensures { OnOk result (self.new ≡ self.old ++ item ∷ []) }
    {
        self.cells.push(item)?;
        Ok(())
    }

    /// Takes an item out, to be put back, and leaves another one in its place.
    pub fn take(&mut self, at: usize, hole: T) -> T
        requires { at < length self.old }
        ensures item { slice_get self.old at ≡ Some result }
        ensures rest { self.new ≡ slice_set self.old at hole }
    {
        mem::replace(&mut self.cells[at], hole)
    }

    /// Puts an item at this place.
    pub fn put(&mut self, at: usize, item: T)
        requires { at < length self.old }
        ensures { self.new ≡ slice_set self.old at item }
    {
        self.cells[at] = item;
    }
}
