// The core of a program.
ghost use Rattle.std.specs.Prelude.{◌≡◌, IfOk};
ghost use Rattle.jr_codes.specs.Reads.{facts};
ghost use Rattle.jr_elab.specs.Cores.{IsCoreOf, IsReadWhole};

use crate::bodies::bodies_of;
use crate::classes::classes_of;
use jr_base::OutOfMemory;
use jr_codes::{Ids, Source};
use jr_core::Core;
use jr_view::View;
use std::alloc::Global;

// The core of a program, by its tables.
fn core_of(source: &Source) -> Result<Core, OutOfMemory>
    ensures { IfOk result (λ core. IsReadWhole source.now → IsCoreOf (facts source.now) core) }
{
    let classes = classes_of(source)?;
    let bodies = bodies_of(source)?;
    Ok(Core { classes, bodies })
}

/// The core of a program that compiles, with declarations as its ids name them. What typing does not know of a row that the core needs is
/// answered for want of memory, and so are parts of a body that are left below a row.
pub fn elaborate(alloc: Global, view: &View, ids: &Ids) -> Result<Core, OutOfMemory>
    ensures { IfOk result (λ core. IsReadWhole (record { alloc = alloc; view = view.entry; ids = ids.entry }) → IsCoreOf (facts (record { alloc = alloc; view = view.entry; ids = ids.entry })) core) }
{
    let source = Source { alloc, view, ids };
    core_of(&source)
}
