// Subtypes, and the class of a value (JLS 4.10, 15.20.2).
ghost use Rattle.std.specs.Prelude.{◌≡◌, [], ◌∷◌, length, OnOk, IfOk};
ghost use Rattle.std.specs.Option.{option_copied, option_map};
ghost use Rattle.jr_core.specs.Mirror as m;
ghost use Rattle.jr_base.specs.Mirror as t;
ghost use Rattle.jr_base.specs.Mirror.{plain_ty};
ghost use Rattle.jr_machine_defs.specs.Control.{catch_for};
ghost use Rattle.jr_machine_defs.specs.Classes.{is_among, with_other, with_others, with_parent, with_supers, with_supers_of, is_above, is_below, is_subtype, class_of_object, is_instance};

use crate::prelude::{object_class, string_class};
use crate::program::Program;
use crate::variables::same_type;
use jr_base::{Items, OutOfMemory, Ty, TypeId};
use jr_core::{Catch, Class};
use jr_machine_defs::{Cell, Value};
use std::alloc::Global;

/// Whether the class or interface is one of these.
pub fn is_among(these: &[TypeId], id: TypeId) -> bool
    ensures { result ≡ is_among these.now id }
{
    for x in these {
        if same_type(*x, id) {
            return true;
        }
    }
    false
}

fn add_other(these: &mut Items<TypeId>, id: TypeId) -> Result<(), OutOfMemory>
    ensures { OnOk result (these.new ≡ with_other these.old id) }
{
    if !is_among(these.as_slice(), id) {
        these.push(id)?;
    }
    Ok(())
}

fn add_others(these: &mut Items<TypeId>, others: &[TypeId]) -> Result<(), OutOfMemory>
    ensures { OnOk result (these.new ≡ with_others these.old others.now) }
{
    for other in others {
        add_other(these, *other)?;
    }
    Ok(())
}

fn add_parent(these: &mut Items<TypeId>, parent: Option<TypeId>) -> Result<(), OutOfMemory>
    ensures { OnOk result (these.new ≡ with_parent these.old parent) }
{
    match parent {
        None => Ok(()),
        Some(parent) => add_other(these, parent),
    }
}

fn add_supers(these: &mut Items<TypeId>, class: Option<&Class>) -> Result<(), OutOfMemory>
    ensures { OnOk result (these.new ≡ with_supers these.old (option_copied class.entry)) }
{
    match class {
        None => Ok(()),
        Some(class) => {
            add_parent(these, class.parent)?;
            add_others(these, class.faces.as_slice())
        }
    }
}

impl<'a> Program<'a> {
    fn add_supers_of(&self, these: &mut Items<TypeId>, others: &[TypeId]) -> Result<(), OutOfMemory>
        ensures { OnOk result (these.new ≡ with_supers_of self.now these.old others.now) }
    {
        for other in others {
            add_supers(these, self.class(*other))?;
        }
        Ok(())
    }

    /// Whether the second is among the classes and interfaces above the first, or is the first.
    #[tactic(auto, using(crate::proofs::Levels::above_step, crate::proofs::Levels::above_none))]
    fn is_above(&self, alloc: Global, low: TypeId, high: TypeId) -> Result<bool, OutOfMemory>
        ensures { IfOk result (λ answer. answer ≡ is_above self.now (length self.now.classes) (low ∷ []) high) }
    {
        let mut these = Items::new(alloc);
        these.push(low)?;
        let levels = self.class_count();
        for level in 0..levels {
            if is_among(these.as_slice(), high) {
                return Ok(true);
            }
            let mut above = Items::new(alloc);
            self.add_supers_of(&mut above, these.as_slice())?;
            if above.as_slice().is_empty() {
                return Ok(false);
            }
            these = above;
        }
        Ok(false)
    }

    /// Whether the first class or interface is the second or below it (JLS 4.10.2).
    pub fn is_below(&self, alloc: Global, low: TypeId, high: TypeId) -> Result<bool, OutOfMemory>
        ensures { IfOk result (λ answer. answer ≡ is_below self.now low high) }
    {
        if same_type(high, object_class()) || same_type(low, high) {
            return Ok(true);
        }
        self.is_above(alloc, low, high)
    }

    /// The first catch that takes an object of this class (JLS 11.3).
    pub fn catch_for(
        &self,
        alloc: Global,
        class: TypeId,
        catches: &'a [Catch],
    ) -> Result<Option<&'a Catch>, OutOfMemory>
        ensures { IfOk result (λ found. option_map (λ c. m.plain_catch c.now) found ≡ catch_for self.now class (m.plain_catches catches.entry.now)) }
    {
        for catch in catches {
            if self.is_below(alloc, class, catch.class)? {
                return Ok(Some(catch));
            }
        }
        Ok(None)
    }

    /// Whether a class is a subtype of a type.
    fn class_fits(&self, alloc: Global, class: TypeId, high: &Ty) -> Result<bool, OutOfMemory>
        ensures { IfOk result (λ answer. answer ≡ is_subtype self.now (t.Class class) (plain_ty high.now)) }
    {
        match high {
            Ty::Class(high) => self.is_below(alloc, class, *high),
            _ => Ok(false),
        }
    }

    /// Whether an array type with these components is a subtype of a type.
    #[cycle(subtypes)]
    fn array_fits(&self, alloc: Global, item: &Ty, high: &Ty) -> Result<bool, OutOfMemory>
        ensures { IfOk result (λ answer. answer ≡ is_subtype self.now (t.Array (plain_ty item.now)) (plain_ty high.now)) }
    {
        match high {
            Ty::Class(high) => Ok(same_type(*high, object_class())),
            Ty::Array(high) => self.is_subtype(alloc, item, high.get()),
            _ => Ok(false),
        }
    }

    /// Whether the first type is a subtype of the second, as types of objects and of components of arrays (JLS 4.10.3).
    #[cycle(subtypes)]
    fn is_subtype(&self, alloc: Global, low: &Ty, high: &Ty) -> Result<bool, OutOfMemory>
        ensures { IfOk result (λ answer. answer ≡ is_subtype self.now (plain_ty low.now) (plain_ty high.now)) }
    {
        match low {
            Ty::Class(class) => self.class_fits(alloc, *class, high),
            Ty::Array(item) => self.array_fits(alloc, item.get(), high),
            Ty::Boolean => Ok(matches!(high, Ty::Boolean)),
            Ty::Byte => Ok(matches!(high, Ty::Byte)),
            Ty::Short => Ok(matches!(high, Ty::Short)),
            Ty::Char => Ok(matches!(high, Ty::Char)),
            Ty::Int => Ok(matches!(high, Ty::Int)),
            Ty::Long => Ok(matches!(high, Ty::Long)),
            Ty::Null | Ty::Void => Ok(false),
        }
    }

    /// `value instanceof ty`, of a value that is not null (JLS 15.20.2).
    pub fn is_instance(
        &self,
        alloc: Global,
        heap: &[Cell<'a>],
        value: &Value<'a>,
        ty: &Ty,
    ) -> Result<bool, OutOfMemory>
        ensures { IfOk result (λ answer. answer ≡ is_instance self.now heap.now value.now (plain_ty ty.now)) }
    {
        match value {
            Value::Ref(at) => match heap.get(*at) {
                None => Ok(false),
                Some(Cell::Object { class, .. }) => self.class_fits(alloc, *class, ty),
                Some(Cell::Array { item, .. }) => self.array_fits(alloc, item.get(), ty),
                Some(Cell::Text { .. }) => self.class_fits(alloc, string_class(), ty),
            },
            Value::Text(_) => self.class_fits(alloc, string_class(), ty),
            _ => Ok(false),
        }
    }
}

/// The class whose methods an object has (JLS 10.7).
pub fn class_of_object(heap: &[Cell], value: &Value) -> Option<TypeId>
    ensures { result ≡ class_of_object heap.now value.now }
{
    match value {
        Value::Ref(at) => match heap.get(*at) {
            None => None,
            Some(Cell::Object { class, .. }) => Some(*class),
            Some(Cell::Array { .. }) => Some(object_class()),
            Some(Cell::Text { .. }) => Some(string_class()),
        },
        Value::Text(_) => Some(string_class()),
        _ => None,
    }
}
