// Searches over lists of numbers.
ghost use Rattle.std.specs.Prelude.{◌≡◌, ◌+◌, ◌<◌, ◌≤◌, ℕ, List, IfOk, OnOk, slice_get};
ghost use Rattle.jr_places.specs.Stamps.{IsStamping};
ghost use Rattle.jr_flow.specs.declared.search.Search as code;
ghost use Rattle.jr_flow.specs.Linked.{first_of, AreLinked};
ghost use Rattle.jr_flow.specs.Spread as tell;

use crate::links::Links;
use jr_base::OutOfMemory;
use jr_places::Stamps;
use std::alloc::Global;

/// The numbers that a set lets in: those in it, or those that are not.
#[derive(Clone, Copy)]
pub(crate) struct Gate<'a> {
    pub(crate) set: &'a Stamps,
    pub(crate) is_inside: bool,
}

/// What a search finds, each number once.
#[derive(Drop)]
pub(crate) struct Search {
    met: Stamps,
    found: Vec<u32>,
}

fn lets(gate: &Gate, number: u32) -> bool
    ensures { result ≡ tell.lets gate.now.set.now gate.now.is_inside number }
{
    if gate.is_inside {
        gate.set.has(number)
    } else {
        !gate.set.has(number)
    }
}

impl Search {
    pub(crate) fn new(alloc: Global, bound: usize) -> Result<Search, OutOfMemory>
        ensures { IfOk result (λ search. IsStamping search.met bound) }
    {
        let met = Stamps::new(alloc, bound)?;
        Ok(Search {
            met,
            found: Vec::new(alloc),
        })
    }

    // Nothing is found yet.
    fn begin(&mut self) -> Result<(), OutOfMemory>
        ensures { (bound : ℕ) → IsStamping self.old.met bound → OnOk result (tell.IsNew bound self.new) }
    {
        self.met.empty()?;
        self.found.clear();
        Ok(())
    }

    // A number that stands in a list.
    fn enter(&mut self, gate: &Gate, number: u32) -> Result<(), OutOfMemory>
        ensures { (bound : ℕ) → tell.IsMet bound self.old → OnOk result (tell.Enters bound (tell.lets gate.now.set.now gate.now.is_inside) self.old self.new number) }
    {
        if !lets(gate, number) {
            return Ok(());
        }
        if !self.met.add(number) {
            return Ok(());
        }
        self.found.push(number)?;
        Ok(())
    }

    // The next number in the list of one.
    fn enter_at(&mut self, gate: &Gate, links: &Links, nth: usize) -> Result<(), OutOfMemory>
        ensures { (bound key : ℕ) (all : List (ℕ × ℕ)) (first : code.Search) → AreLinked all links.now → first_of links.now key ≤ nth → nth < first_of links.now (key + 1)
            → tell.EntersBefore bound (tell.lets gate.now.set.now gate.now.is_inside) first self.old all links.now key nth → OnOk result (tell.EntersBefore bound (tell.lets gate.now.set.now gate.now.is_inside) first self.new all links.now key (nth + 1)) }
    {
        match links.item(nth) {
            Some(number) => self.enter(gate, number),
            None => Ok(()),
        }
    }

    // The numbers in the list of one.
    fn enter_all(&mut self, gate: &Gate, links: &Links, key: u32) -> Result<(), OutOfMemory>
        ensures { (bound : ℕ) (all : List (ℕ × ℕ)) → AreLinked all links.now → tell.IsMet bound self.old → OnOk result (tell.EntersAll bound (tell.lets gate.now.set.now gate.now.is_inside) self.old self.new all key) }
    {
        for nth in links.first(key as usize)..links.end(key) {
            self.enter_at(gate, links, nth)?;
        }
        Ok(())
    }

    fn at(&self, nth: usize) -> Option<u32>
        ensures { result ≡ slice_get (tell.found_in self.now) nth }
    {
        self.found.get(nth).copied()
    }

    // The lists of all numbers that were found.
    fn finish(&mut self, gate: &Gate, links: &Links) -> Result<(), OutOfMemory>
        ensures { (bound : ℕ) (starts all : List (ℕ × ℕ)) (key : ℕ) → AreLinked all links.now → tell.IsSearched bound (tell.lets gate.now.set.now gate.now.is_inside) starts key all self.old 0
            → OnOk result (tell.HasCome bound (tell.lets gate.now.set.now gate.now.is_inside) starts key all self.new) }
    {
        for nth in 0..u64::MAX {
            let Some(number) = self.at(nth as usize) else {
                return Ok(());
            };
            self.enter_all(gate, links, number)?;
        }
        Err(OutOfMemory)
    }

    /// Finds what is come to from the list of a number.
    pub(crate) fn run(
        &mut self,
        gate: &Gate,
        starts: &Links,
        key: u32,
        links: &Links,
    ) -> Result<(), OutOfMemory>
        ensures { (bound : ℕ) (first all : List (ℕ × ℕ)) → AreLinked first starts.now → AreLinked all links.now → IsStamping self.old.met bound
            → OnOk result (tell.HasCome bound (tell.lets gate.now.set.now gate.now.is_inside) first key all self.new) }
    {
        self.begin()?;
        self.enter_all(gate, starts, key)?;
        self.finish(gate, links)
    }

    /// What was met.
    pub(crate) fn met(&self) -> &Stamps
        ensures { result.now ≡ self.now.met }
    {
        &self.met
    }

    pub(crate) fn found(&self) -> &[u32]
        ensures { result.now ≡ tell.found_in self.now }
    {
        &self.found
    }
}
