// Where the scopes of names end.
ghost use Rattle.std.specs.Prelude.{◌≡◌, IfOk, length, nat_lt, replicate};
ghost use Rattle.jr_tree.specs.Rows.{Rows};
ghost use Rattle.jr_places.specs.Places.{ArePlaces};
ghost use Rattle.jr_members.specs.Each.{AreBelow};
ghost use Rattle.jr_name_faults.specs.Ends as tell;

use jr_base::OutOfMemory;
use jr_places::Places;
use std::alloc::Global;

/// For each name, by its number, where the last of the scopes that were opened ends.
#[derive(Drop)]
pub struct Ends {
    ends: Vec<u32>,
}

impl Ends {
    /// No scope is open, of names whose numbers are below the count.
    pub fn new(alloc: Global, count: usize) -> Result<Ends, OutOfMemory>
        ensures { IfOk result (λ ends. ends.ends.items ≡ replicate count 0) }
    {
        Ok(Ends {
            ends: vec![in alloc; 0u32; count]?,
        })
    }

    /// A scope of the name ends behind the row.
    pub fn holds(&self, name: u32, at: u32) -> bool
        ensures { result ≡ nat_lt at (tell.end_in self.now.ends.items name) }
    {
        match self.ends.get(name as usize) {
            Some(end) => at < *end,
            None => false,
        }
    }

    /// Opens a scope of the name.
    #[tactic(auto, using(std::proofs::lemmas::List::set_past))]
    pub fn open_until(&mut self, name: u32, end: u32)
        ensures { self.new.ends.items ≡ tell.opened self.old.ends.items name end }
    {
        let place = name as usize;
        if place < self.ends.len() && self.ends[place] < end {
            self.ends[place] = end;
        }
    }

    /// Opens a scope of the name of each row.
    pub fn open_all(&mut self, places: &Places, rows: &[u32], end: u32)
        ensures { (p : Rows) → ArePlaces p places.now → AreBelow (length p) rows.now → self.new.ends.items ≡ tell.all_opened p end rows.now self.old.ends.items }
    {
        for row in rows {
            self.open_until(places.name(*row), end);
        }
    }
}
