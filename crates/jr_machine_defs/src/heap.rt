// Objects, arrays and strings (JLS 4.3.1).

use crate::reference::TyRef;
use crate::slots::Slot;
use crate::value::Value;
use jr_base::{Items, TypeId, Units};

/// What stands at a place of the heap (JLS 4.3.1).
#[derive(Drop)]
pub enum Cell<'a> {
    /// An instance of a class. A field that has no slot has the default value of its type (JLS 4.12.5).
    Object {
        class: TypeId,
        /// The object that encloses it, where its class is an inner class, and else `null` (JLS 8.1.3).
        outer: Value<'a>,
        fields: Items<Slot<'a>>,
    },
    /// An array, with the type of its components (JLS 10).
    Array {
        item: TyRef<'a>,
        items: Items<Value<'a>>,
    },
    /// A string that a program made (JLS 4.3.3).
    Text {
        units: Units,
    },
}
