// Lists of rows, and lists that have each row once.
ghost use Rattle.std.specs.Prelude.{◌≡◌, ◌++◌, ◌<◌, ℕ, OnOk};
ghost use Rattle.jr_plain.specs.Search as search;
ghost use Rattle.jr_members.specs.Each as tell;

use jr_base::OutOfMemory;
use jr_places::Stamps;

/// The number is an item.
pub fn has(all: &[u32], at: u32) -> bool
    ensures { result ≡ search.has all.now at }
{
    all.contains(&at)
}

// Puts a number behind the list, where it is such.
pub fn push_if(all: &mut Vec<u32>, is_such: bool, at: u32) -> Result<(), OutOfMemory>
    ensures { OnOk result (all.new.items ≡ all.old.items ++ tell.if_such is_such at) }
{
    if is_such {
        all.push(at)?;
    }
    Ok(())
}

// Puts a number behind the list, whose items are stamped, unless it is one of them.
pub fn push_new(stamps: &mut Stamps, all: &mut Vec<u32>, at: u32) -> Result<(), OutOfMemory>
    ensures { (bound : ℕ) → tell.IsStampedAs bound stamps.old all.old.items → at < bound → OnOk result (tell.IsPushedAs bound stamps.new all.new.items (tell.with_new all.old.items at)) }
{
    let is_new = stamps.add(at);
    push_if(all, is_new, at)
}

// Puts numbers behind the list, whose items are stamped, but those that it has.
pub fn push_each(stamps: &mut Stamps, all: &mut Vec<u32>, some: &[u32]) -> Result<(), OutOfMemory>
    ensures { (bound : ℕ) → tell.IsStampedAs bound stamps.old all.old.items → tell.AreBelow bound some.now → OnOk result (tell.IsPushedAs bound stamps.new all.new.items (tell.with_each all.old.items some.now)) }
{
    for at in some {
        push_new(stamps, all, *at)?;
    }
    Ok(())
}
