// What spelling reads.
ghost use Rattle.std.specs.Prelude.{◌≡◌, slice_index_or, nat_lt};
ghost use Rattle.jr_spell.specs.Spellers as tell;

use crate::paths::Paths;
use jr_constants::Constants;
use jr_defs::RowType;
use jr_lookup::Sight;
use jr_members::World;
use jr_places::Places;
use jr_supers::Tabled;
use jr_tree::Row;
use jr_view::View;

/// The changed program under its locks, with what its references were.
#[derive(Clone, Copy)]
pub struct Speller<'a> {
    pub view: &'a View<'a>,
    /// Whether the reference at each row was a constant expression.
    pub constant: &'a [bool],
    pub paths: &'a Paths,
    /// The first row behind the prelude.
    pub written: u32,
}

impl<'a> Speller<'a> {
    pub fn sight(&self) -> &'a Sight<'a>
        ensures { result.now ≡ self.now.view.now.sight }
    {
        let view = self.view;
        &view.sight
    }

    pub fn world(&self) -> &'a World<'a>
        ensures { result.now ≡ self.now.view.now.sight.world }
    {
        let view = self.view;
        &view.sight.world
    }

    pub fn under(&self) -> &'a Tabled<'a>
        ensures { result.now ≡ self.now.view.now.sight.world.under }
    {
        let view = self.view;
        &view.sight.world.under
    }

    pub fn rows(&self) -> &'a [Row]
        ensures { result.now ≡ tell.rows_of self.now }
    {
        let view = self.view;
        view.sight.world.under.rows
    }

    pub fn places(&self) -> &'a Places
        ensures { result.now ≡ self.now.view.now.sight.world.under.places.now }
    {
        let view = self.view;
        view.sight.world.under.places
    }

    /// The types of expressions.
    pub fn types(&self) -> &'a [Option<RowType>]
        ensures { result.now ≡ self.now.view.now.types.now }
    {
        let view = self.view;
        view.types
    }

    /// The values of constants.
    pub fn constants(&self) -> &'a Constants
        ensures { result.now ≡ self.now.view.now.constants.now }
    {
        let view = self.view;
        view.constants
    }

    /// The type of the expression at a row.
    pub fn type_at(&self, at: u32) -> Option<RowType>
        ensures { result ≡ tell.types_of self.now at }
    {
        match self.types().get(at as usize) {
            Some(ty) => *ty,
            None => None,
        }
    }

    /// The reference at the row was a constant expression.
    pub fn was_constant(&self, at: u32) -> bool
        ensures { result ≡ tell.was_constant self.now at }
    {
        let constant = self.constant;
        match constant.get(at as usize) {
            Some(was) => *was,
            None => false,
        }
    }

    /// The row is the prelude's, which has no file to change.
    pub fn is_prelude(&self, at: u32) -> bool
        ensures { result ≡ nat_lt at self.now.written }
    {
        at < self.written
    }
}
