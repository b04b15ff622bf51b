// Checked classes (JLS 11.2).
ghost use Rattle.std.specs.Prelude.{◌≡◌, ◌<◌, ◌^◌, ◌&&◌, ◌||◌, not, length, Decides};
ghost use Rattle.jr_defs.specs.Referents.{Table};
ghost use Rattle.jr_defs.specs.MemberRules.{IsChecked};
ghost use Rattle.jr_plain.specs.Declarations.{is_prelude};
ghost use Rattle.jr_supers.specs.Supers.{AreSupersOf};
ghost use Rattle.jr_flow_faults.specs.Roots as tell;

use jr_places::{is_type, name_at, parent_at};
use jr_supers::Supers;
use jr_tree::Row;

/// The classes of java.lang by which others are checked.
#[derive(Clone, Copy)]
pub struct Roots {
    throwable: Option<u32>,
    exception: Option<u32>,
    error: Option<u32>,
    runtime: Option<u32>,
}

// A type of this name that the first unit of the prelude declares.
fn is_of_prelude(rows: &[Row], at: u32, name: &[u8]) -> bool
    ensures { result ≡ is_prelude rows.now name.now at }
{
    is_type(rows, at) && parent_at(rows, at) == 1 && name_at(rows, at) == name
}

// The first one.
#[tactic(auto, using(crate::proofs::Rooted::root_found, crate::proofs::Rooted::root_next, crate::proofs::Rooted::root_none))]
fn prelude_type(rows: &[Row], name: &[u8]) -> Option<u32>
    ensures { length rows.now < 2 ^ 32 → result ≡ tell.prelude_type rows.now name.now }
{
    let Ok(count) = u32::try_from(rows.len()) else {
        return None;
    };
    for at in 0..count {
        if is_of_prelude(rows, at, name) {
            return Some(at);
        }
    }
    None
}

/// One of the two.
pub(crate) fn is_either(first: bool, second: bool) -> bool
    ensures { result ≡ (first || second) }
{
    first || second
}

fn is_first_alone(first: bool, second: bool, third: bool) -> bool
    ensures { result ≡ (first && (not second && not third)) }
{
    first && (!second && !third)
}

// The class, or one above it, is the root.
#[tactic(auto, using(crate::proofs::Rooted::below_some, crate::proofs::Rooted::below_none))]
fn is_below(supers: &Supers, rows: &[Row], at: u32, root: Option<u32>) -> bool
    ensures { (t : Table) → AreSupersOf rows.now t supers.now → Decides result (tell.IsBelow rows.now t at root) }
{
    match root {
        Some(over) => supers.is_at_or_above(rows, at, over),
        None => false,
    }
}

impl Roots {
    /// The classes that the prelude declares.
    pub fn of(rows: &[Row]) -> Roots
        ensures { length rows.now < 2 ^ 32 → tell.HasOneOfEach rows.now → tell.AreRoots rows.now result }
    {
        let throwable = prelude_type(rows, b"Throwable");
        let exception = prelude_type(rows, b"Exception");
        let error = prelude_type(rows, b"Error");
        let runtime = prelude_type(rows, b"RuntimeException");
        Roots {
            throwable,
            exception,
            error,
            runtime,
        }
    }

    /// Throwable and what is below it, but for Error and RuntimeException and what is below those.
    pub fn is_checked(self, supers: &Supers, rows: &[Row], at: u32) -> bool
        ensures { (t : Table) → AreSupersOf rows.now t supers.now → tell.AreRoots rows.now self → Decides result (IsChecked rows.now t at) }
    {
        let is_throwable = is_below(supers, rows, at, self.throwable);
        let is_error = is_below(supers, rows, at, self.error);
        let is_runtime = is_below(supers, rows, at, self.runtime);
        is_first_alone(is_throwable, is_error, is_runtime)
    }

    /// The class may be caught whatever is thrown: Exception or Throwable.
    pub(crate) fn is_general(self, at: u32) -> bool
        ensures { result ≡ tell.is_general self at }
    {
        self.exception == Some(at) || self.throwable == Some(at)
    }
}
