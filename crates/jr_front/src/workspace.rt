// A program that compiles, with its tables.
ghost use Rattle.std.specs.Prelude.{◌≡◌, length, map};
ghost use Rattle.jr_defs.specs.Program.{rows_of};
ghost use Rattle.jr_index.specs.Marking.{program_marks};
ghost use Rattle.jr_index.specs.NodeRows.{unit_rows};
ghost use Rattle.jr_marks.specs.Made.{AreMade};
ghost use Rattle.jr_front.specs.Viewed.{IsViewOf};

use jr_bind::Bound;
use jr_defs::Program;
use jr_index::Index;
use jr_lookup::{Scopes, Sight};
use jr_marks::Marks;
use jr_members::World;
use jr_places::Places;
use jr_supers::Tabled;
use jr_tree::Row;
use jr_types::find_string;
use jr_view::View;

/// A program that compiles, with its rows, its binding and what lookup reads.
#[derive(Drop)]
pub struct Workspace {
    pub program: Program,
    pub index: Box<Index>,
    pub places: Box<Places>,
    pub scopes: Box<Scopes>,
    pub bound: Box<Bound>,
}

impl Workspace {
    /// Where the rows stand in texts.
    pub fn marks(&self) -> Marks<'_>
        ensures units { result.units.now ≡ self.now.program.units }
        ensures rows { result.rows.now ≡ self.now.index.value.rows }
        ensures starts { result.starts.now ≡ unit_rows self.now.index.value.rows (length self.now.index.value.rows) }
        ensures made { self.now.index.value.rows ≡ rows_of self.now.program → self.now.index.value.marks ≡ program_marks (map (λ u. u.unit) self.now.program.units) → AreMade self.now.program result }
    {
        Marks::of(&self.program, &self.index)
    }

    /// The tables.
    pub fn view(&self) -> View<'_>
        ensures table { result.sight.world.under.table.now ≡ self.now.bound.value.table.items }
        ensures all { IsViewOf self.now.index.value.rows self.now.places.value self.now.scopes.value self.now.bound.value result }
    {
        view_of(self.index.rows(), &self.places, &self.scopes, &self.bound)
    }
}

/// The tables of rows under a binding.
pub fn view_of<'a>(
    rows: &'a [Row],
    places: &'a Places,
    scopes: &'a Scopes,
    bound: &'a Bound,
) -> View<'a>
    ensures table { result.sight.world.under.table.now ≡ bound.now.table.items }
    ensures all { IsViewOf rows.now places.now scopes.now bound.now result }
{
    let under = Tabled {
        rows,
        places,
        table: &bound.table,
    };
    let world = World {
        under,
        supers: &bound.supers,
        members: &bound.members,
    };
    View {
        sight: Sight {
            world,
            scopes,
            imports: &bound.imports,
        },
        types: &bound.types,
        constants: &bound.constants,
        string: find_string(rows),
    }
}
