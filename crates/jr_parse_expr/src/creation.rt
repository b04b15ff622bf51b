// Creations of objects and arrays (JLS 15.9, 15.10).
ghost use Rattle.std.specs.Prelude.{◌≡◌, ◌≤◌, suc, true, map, Some, IfOk};
ghost use Rattle.jr_base.specs.declared.kind.Symbol.TheVariants as y;
ghost use Rattle.jr_tree.specs.Mirror.Exprs.{plain_expr};
ghost use Rattle.jr_parse_laws.specs.Parsers.{is_at, kinds};
ghost use Rattle.jr_parse_expr.specs.Exprs as spec;
ghost use Rattle.jr_parse_expr.specs.Names.{primitive_at as spec_primitive_at};
ghost use Rattle.jr_parse_expr.specs.Nests.{Nests};
ghost use Rattle.jr_parse_expr.specs.Steps.{with_sizes, ReadsSizes};
ghost use Rattle.jr_parse_expr.specs.Views.{ReadsExpr};

use crate::grammar::Grammar;
use crate::lead::Lead;
use crate::name::{dims_behind, name_after, primitive_at};
use jr_base::Symbol;
use jr_parse_laws::{Cursor, Fault};
use jr_parse_parts::{Arguments, Measured, MeasuredList};
use jr_tree::{Base, Name, Primitive};
use std::alloc::Global;

/// The sizes of a new array, and how many empty pairs of brackets follow them.
#[derive(Drop)]
pub struct Sizes {
    pub dims: Arguments,
    pub more: usize,
}

impl<
    F: Fn(Global, &mut Cursor<'_>, usize, Lead, u8) -> Result<Measured, Fault>,
    L: Fn(Global, &mut Cursor<'_>, usize) -> Result<MeasuredList, Fault>,
> Grammar<F, L> {
    /// Further sizes in brackets, behind these, and then empty pairs.
    fn sizes(&self, cursor: &mut Cursor<'_>, front: Arguments) -> Result<Sizes, Fault>
        requires nests { Nests self.now.room (F.pre self.now.expr) (F.post self.now.expr) (L.pre self.now.list) (L.post self.now.list) }
        requires low { front.height ≤ self.now.room }
        ensures reads { ReadsSizes (with_sizes (map plain_expr front.args) (spec.sizes self.now.room (spec.expr self.now.room) (spec.list self.now.room) (kinds cursor.old))) result (kinds cursor.new) }
        ensures low { IfOk result (λ m. m.dims.height ≤ self.now.room) }
    {
        let mut all = front;
        'sizes: while cursor.is_at(Symbol::OpenBracket) {
            cursor.skip();
            if cursor.is_at(Symbol::CloseBracket) {
                let more = dims_behind(cursor)?;
                return Ok(Sizes {
                    dims: all,
                    more: more + 1,
                });
            }
            let size = self.expr(cursor, Lead::Nothing, 0)?;
            if let Err(fault) = cursor.expect(Symbol::CloseBracket) {
                drop(size);
                return Err(fault);
            }
            all = all.with(size)?;
        }
        Ok(Sizes { dims: all, more: 0 })
    }

    /// An array with sizes, behind the first open bracket.
    #[tactic(auto, unfolding(crate::specs::Exprs::sized))]
    fn sized(&self, cursor: &mut Cursor<'_>, base: Base) -> Result<Measured, Fault>
        requires { Nests self.now.room (F.pre self.now.expr) (F.post self.now.expr) (L.pre self.now.list) (L.post self.now.list) }
        ensures reads { ReadsExpr (spec.sized self.now.room (spec.expr self.now.room) (spec.list self.now.room) base (kinds cursor.old)) result (kinds cursor.new) }
        ensures low { IfOk result (λ m. m.height ≤ suc self.now.room) }
    {
        let size = self.expr(cursor, Lead::Nothing, 0)?;
        if let Err(fault) = cursor.expect(Symbol::CloseBracket) {
            drop(size);
            return Err(fault);
        }
        let first = Arguments::none(self.alloc).with(size)?;
        let sizes = self.sizes(cursor, first)?;
        Ok(Measured::sized_array(base, sizes.dims, sizes.more))
    }

    /// An array with its items, at the close bracket of the first pair.
    fn with_items(&self, cursor: &mut Cursor<'_>, base: Base) -> Result<Measured, Fault>
        requires nests { Nests self.now.room (F.pre self.now.expr) (F.post self.now.expr) (L.pre self.now.list) (L.post self.now.list) }
        requires at { is_at y.CloseBracket (kinds cursor.old) ≡ true }
        ensures reads { ReadsExpr (spec.skipping (spec.unsized self.now.room (spec.expr self.now.room) (spec.list self.now.room) base) (kinds cursor.old)) result (kinds cursor.new) }
        ensures low { IfOk result (λ m. m.height ≤ suc self.now.room) }
    {
        let more = dims_behind(cursor)?;
        let items = self.list(cursor)?;
        Ok(Measured::listed_array(base, Arguments::none(self.alloc), more + 1, items))
    }

    /// An array, behind the first open bracket.
    #[tactic(auto, unfolding(crate::specs::Exprs::array))]
    fn array(&self, cursor: &mut Cursor<'_>, base: Base) -> Result<Measured, Fault>
        requires { Nests self.now.room (F.pre self.now.expr) (F.post self.now.expr) (L.pre self.now.list) (L.post self.now.list) }
        ensures reads { ReadsExpr (spec.array self.now.room (spec.expr self.now.room) (spec.list self.now.room) base (kinds cursor.old)) result (kinds cursor.new) }
        ensures low { IfOk result (λ m. m.height ≤ suc self.now.room) }
    {
        if cursor.is_at(Symbol::CloseBracket) {
            self.with_items(cursor, base)
        } else {
            self.sized(cursor, base)
        }
    }

    /// What a name behind `new` makes, behind the name.
    pub fn created(&self, cursor: &mut Cursor<'_>, name: Name) -> Result<Measured, Fault>
        requires { Nests self.now.room (F.pre self.now.expr) (F.post self.now.expr) (L.pre self.now.list) (L.post self.now.list) }
        ensures reads { ReadsExpr (spec.next_token (spec.created_by self.now.room (spec.expr self.now.room) (spec.list self.now.room) name) (kinds cursor.old)) result (kinds cursor.new) }
        ensures low { IfOk result (λ m. m.height ≤ suc self.now.room) }
    {
        match cursor.symbol() {
            Some(Symbol::OpenParen) => {
                cursor.skip();
                let args = self.arguments(cursor)?;
                Ok(Measured::new(name, args))
            }
            Some(Symbol::OpenBracket) => {
                if self.is_lowest() {
                    return Err(Fault::TooDeep);
                }
                cursor.skip();
                self.array(cursor, Base::Named(name))
            }
            _ => Err(Fault::NoTree),
        }
    }

    /// An array of a primitive type, behind `new` and at the type.
    pub fn primitive_array(
        &self,
        cursor: &mut Cursor<'_>,
        primitive: Primitive,
    ) -> Result<Measured, Fault>
        requires nests { Nests self.now.room (F.pre self.now.expr) (F.post self.now.expr) (L.pre self.now.list) (L.post self.now.list) }
        requires at { spec_primitive_at (kinds cursor.old) ≡ Some primitive }
        ensures reads { ReadsExpr (spec.creation_by self.now.room (spec.expr self.now.room) (spec.list self.now.room) (Some primitive) (kinds cursor.old)) result (kinds cursor.new) }
        ensures low { IfOk result (λ m. m.height ≤ suc self.now.room) }
    {
        if self.is_lowest() {
            return Err(Fault::TooDeep);
        }
        cursor.skip();
        cursor.expect(Symbol::OpenBracket)?;
        self.array(cursor, Base::Primitive(primitive))
    }

    /// A creation, behind `new`.
    #[tactic(auto, unfolding(crate::specs::Exprs::creation))]
    pub fn creation(&self, cursor: &mut Cursor<'_>) -> Result<Measured, Fault>
        requires { Nests self.now.room (F.pre self.now.expr) (F.post self.now.expr) (L.pre self.now.list) (L.post self.now.list) }
        ensures reads { ReadsExpr (spec.creation self.now.room (spec.expr self.now.room) (spec.list self.now.room) (kinds cursor.old)) result (kinds cursor.new) }
        ensures low { IfOk result (λ m. m.height ≤ suc self.now.room) }
    {
        if let Some(primitive) = primitive_at(cursor) {
            return self.primitive_array(cursor, primitive);
        }
        let head = cursor.identifier(self.alloc)?;
        let name = name_after(self.alloc, cursor, head)?;
        self.created(cursor, name)
    }
}
