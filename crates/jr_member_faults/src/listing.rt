// Lists and tables, to which one is added where there is one.
ghost use Rattle.std.specs.Prelude.{◌≡◌, ◌++◌, OnOk};
ghost use Rattle.jr_members.specs.Each.{if_such};
ghost use Rattle.jr_members.specs.Keys.{entry_list};

use jr_base::OutOfMemory;
use jr_places::{Chains, Entry};
use std::alloc::Global;

/// Puts a number behind the list, if it is such.
pub fn push_if(all: &mut Vec<u32>, is_such: bool, at: u32) -> Result<(), OutOfMemory>
    ensures { OnOk result (all.new.items ≡ all.old.items ++ if_such is_such at) }
{
    if is_such {
        all.push(at)?;
    }
    Ok(())
}

/// Puts an entry at the end, if there is one.
pub fn add_entry(alloc: Global, all: &mut Chains, entry: Option<Entry>) -> Result<(), OutOfMemory>
    ensures { OnOk result (all.new ≡ all.old ++ entry_list entry) }
{
    match entry {
        Some(entry) => all.add(alloc, entry),
        None => Ok(()),
    }
}
