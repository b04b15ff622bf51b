// Initializers (JLS 8.3, 10.6).
ghost use Rattle.std.specs.Prelude.{◌≡◌, ◌≤◌, suc, map, false, IfOk};
ghost use Rattle.jr_tree.specs.Mirror.Exprs.{plain_init};
ghost use Rattle.jr_parse_laws.specs.Parsers.{kinds};
ghost use Rattle.jr_parse_expr.specs.Exprs as spec;
ghost use Rattle.jr_parse_expr.specs.Nests.{Nests};
ghost use Rattle.jr_parse_expr.specs.Steps.{with_items, ReadsItems};
ghost use Rattle.jr_parse_expr.specs.Views.{ReadsInit, ReadsList};

use crate::grammar::Grammar;
use crate::lead::Lead;
use jr_base::Symbol;
use jr_parse_laws::{Cursor, Fault};
use jr_parse_parts::{ListItems, Measured, MeasuredInit, MeasuredList};
use jr_parse_starts::{starts_init, starts_list};
use std::alloc::Global;

impl<
    F: Fn(Global, &mut Cursor<'_>, usize, Lead, u8) -> Result<Measured, Fault>,
    L: Fn(Global, &mut Cursor<'_>, usize) -> Result<MeasuredList, Fault>,
> Grammar<F, L> {
    /// An initializer.
    #[tactic(auto, unfolding(crate::specs::Exprs::init_of))]
    pub fn init(&self, cursor: &mut Cursor<'_>) -> Result<MeasuredInit, Fault>
        requires { Nests self.now.room (F.pre self.now.expr) (F.post self.now.expr) (L.pre self.now.list) (L.post self.now.list) }
        ensures reads { ReadsInit (spec.init_of self.now.room (spec.expr self.now.room) (spec.list self.now.room) (kinds cursor.old)) result (kinds cursor.new) }
        ensures low { IfOk result (λ m. m.height ≤ self.now.room) }
    {
        if starts_list(cursor) {
            Ok(MeasuredInit::list(self.list(cursor)?))
        } else {
            Ok(MeasuredInit::value(self.expr(cursor, Lead::Nothing, 0)?))
        }
    }

    /// The items behind these, and whether a comma stands last.
    fn more_items(&self, cursor: &mut Cursor<'_>, front: ListItems) -> Result<ListItems, Fault>
        requires nests { Nests self.now.room (F.pre self.now.expr) (F.post self.now.expr) (L.pre self.now.list) (L.post self.now.list) }
        requires low { front.height ≤ self.now.room }
        requires end { front.is_open_ended ≡ false }
        ensures reads { ReadsItems (with_items (map plain_init front.items) (spec.after_item self.now.room (spec.expr self.now.room) (spec.list self.now.room) (kinds cursor.old))) result (kinds cursor.new) }
        ensures low { IfOk result (λ m. m.height ≤ self.now.room) }
    {
        let mut all = front;
        'items: while cursor.is_at(Symbol::Comma) {
            cursor.skip();
            if !starts_init(cursor) {
                return Ok(all.open_ended());
            }
            let item = self.init(cursor)?;
            all = all.with(item)?;
        }
        Ok(all)
    }

    /// The items of a list, and whether a comma stands last.
    #[tactic(auto, unfolding(crate::specs::Exprs::items))]
    fn items(&self, cursor: &mut Cursor<'_>) -> Result<ListItems, Fault>
        requires { Nests self.now.room (F.pre self.now.expr) (F.post self.now.expr) (L.pre self.now.list) (L.post self.now.list) }
        ensures reads { ReadsItems (spec.items self.now.room (spec.expr self.now.room) (spec.list self.now.room) (kinds cursor.old)) result (kinds cursor.new) }
        ensures low { IfOk result (λ m. m.height ≤ self.now.room) }
    {
        if starts_init(cursor) {
            let first = self.init(cursor)?;
            let front = ListItems::none(self.alloc, false).with(first)?;
            return self.more_items(cursor, front);
        }
        if cursor.is_at(Symbol::Comma) {
            cursor.skip();
            return Ok(ListItems::none(self.alloc, true));
        }
        Ok(ListItems::none(self.alloc, false))
    }

    /// A list in braces.
    #[tactic(auto, unfolding(crate::specs::Exprs::braces))]
    pub fn braces(&self, cursor: &mut Cursor<'_>) -> Result<MeasuredList, Fault>
        requires { Nests self.now.room (F.pre self.now.expr) (F.post self.now.expr) (L.pre self.now.list) (L.post self.now.list) }
        ensures reads { ReadsList (spec.braces self.now.room (spec.expr self.now.room) (spec.list self.now.room) (kinds cursor.old)) result (kinds cursor.new) }
        ensures low { IfOk result (λ m. m.height ≤ suc self.now.room) }
    {
        cursor.expect(Symbol::OpenBrace)?;
        let items = self.items(cursor)?;
        cursor.expect(Symbol::CloseBrace)?;
        Ok(MeasuredList::new(items))
    }
}
