// Initializers that were read, each with its depth (JLS 8.3, 10.6).
ghost use Rattle.std.specs.Prelude.{◌≡◌, ◌<◌, [], ◌∷◌, ◌++◌, suc, max, true, IfOk};
ghost use Rattle.jr_tree.specs.Mirror.Exprs as x;
ghost use Rattle.jr_tree.specs.Mirror.Exprs.{plain_expr, plain_init, plain_inits, plain_list};
ghost use Rattle.jr_tree.specs.Depth.{init_depth, inits_depth, list_depth};

use crate::measured::Measured;
use jr_base::Items;
use jr_tree::{Init, InitList};
use std::alloc::{AllocError, Global};

/// A list in braces and how deep it is.
#[derive(Drop)]
pub struct MeasuredList {
    pub list: InitList,
    pub height: usize,
    ghost exact: { height ≡ list_depth (plain_list list) },
}

/// An initializer and how deep it is.
#[derive(Drop)]
pub struct MeasuredInit {
    pub init: Init,
    pub height: usize,
    ghost exact: { height ≡ init_depth (plain_init init) },
}

/// The initializers of a list, how deep the deepest is, and whether a comma follows the last.
#[derive(Drop)]
pub struct ListItems {
    pub items: Items<Init>,
    pub height: usize,
    pub is_open_ended: bool,
    ghost exact: { height ≡ inits_depth (plain_inits items) },
}

impl MeasuredList {
    /// The list of these items.
    pub fn new(items: ListItems) -> MeasuredList
        requires { items.height < usize.MAX }
        ensures tree { plain_list result.list ≡ x.ListOf (plain_inits items.items) items.is_open_ended }
        ensures height { result.height ≡ suc items.height }
    {
        MeasuredList {
            list: InitList {
                items: items.items,
                is_open_ended: items.is_open_ended,
            },
            height: items.height + 1,
        }
    }
}

impl MeasuredInit {
    /// An expression
    pub fn value(value: Measured) -> MeasuredInit
        ensures tree { plain_init result.init ≡ x.Value (plain_expr value.expr) }
        ensures height { result.height ≡ value.height }
    {
        MeasuredInit {
            init: Init::Value { value: value.expr },
            height: value.height,
        }
    }

    /// A list in braces
    pub fn list(list: MeasuredList) -> MeasuredInit
        ensures tree { plain_init result.init ≡ x.Listed (plain_list list.list) }
        ensures height { result.height ≡ list.height }
    {
        MeasuredInit {
            init: Init::List { list: list.list },
            height: list.height,
        }
    }
}

impl ListItems {
    /// No items, and perhaps a comma.
    pub fn none(alloc: Global, is_open_ended: bool) -> ListItems
        ensures items { result.items ≡ [] }
        ensures end { result.is_open_ended ≡ is_open_ended }
        ensures height { result.height ≡ 0 }
    {
        ListItems {
            items: Items::new(alloc),
            height: 0,
            is_open_ended,
        }
    }

    /// These, and then one more.
    pub fn with(self, item: MeasuredInit) -> Result<ListItems, AllocError>
        ensures items { IfOk result (λ all. all.items ≡ self.items ++ item.init ∷ []) }
        ensures end { IfOk result (λ all. all.is_open_ended ≡ self.is_open_ended) }
        ensures height { IfOk result (λ all. all.height ≡ max self.height item.height) }
    {
        let mut items = self.items;
        items.push(item.init)?;
        Ok(ListItems {
            items,
            height: self.height.max(item.height),
            is_open_ended: self.is_open_ended,
        })
    }

    /// These, and a comma after the last.
    pub fn open_ended(self) -> ListItems
        ensures items { result.items ≡ self.items }
        ensures end { result.is_open_ended ≡ true }
        ensures height { result.height ≡ self.height }
    {
        ListItems {
            items: self.items,
            height: self.height,
            is_open_ended: true,
        }
    }
}
