// Whether bodies that a change leaves alone mean what they meant.

ghost use Rattle.std.specs.Prelude.{◌≡◌, true, IfOk};
ghost use Rattle.jr_flow_defs.specs.Meaning.{Meaning};
ghost use Rattle.jr_flow.specs.Views as flow;
ghost use Rattle.jr_meaning.specs.Meaning.{IsMeant};
ghost use Rattle.jr_engine.specs.Written.{IsReady, KeepsBodiesIn};

use crate::asked::Asked;
use crate::locked::Locked;
use jr_base::OutOfMemory;
use jr_meaning::{Meant, keeps_meaning};
use jr_view::View;
use std::alloc::Global;

// What is read of a program for the meaning of its rows.
fn meant_by<'a>(view: &View<'a>) -> Meant<'a>
    ensures rows { result.rows.now ≡ flow.rows_in view.now }
    ensures meant { (m : Meaning) → flow.IsViewOf view.now m → IsMeant result m }
{
    let world = view.sight.world;
    Meant {
        rows: world.under.rows,
        table: world.under.table,
        types: view.types,
        constants: view.constants,
        supers: world.supers,
    }
}

/// Each body that the change leaves alone means in its copy what it meant.
pub fn keeps_bodies(alloc: Global, asked: Asked, locked: &Locked) -> Result<bool, OutOfMemory>
    requires { IsReady asked locked.now }
    ensures { IfOk result (λ is. is ≡ true → KeepsBodiesIn asked.entry locked.now) }
{
    let old = asked.old.view();
    let new = locked.program.view();
    keeps_meaning(alloc, &meant_by(&old), &meant_by(&new), &locked.locks.copy)
}
