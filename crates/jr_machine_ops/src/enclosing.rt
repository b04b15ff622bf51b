// Objects that enclose others (JLS 8.1.3).
ghost use Rattle.std.specs.Prelude.{◌≡◌};
ghost use Rattle.std.specs.Option.{option_copied};
ghost use Rattle.jr_machine_defs.specs.Control.{outer_of, outer_class, instance_of};

use crate::program::Program;
use crate::variables::same_type;
use jr_base::TypeId;
use jr_core::Class;
use jr_machine_defs::{Cell, Value};

/// The object that encloses an object.
fn outer_of<'a>(heap: &[Cell<'a>], object: &Value<'a>) -> Option<Value<'a>>
    ensures { result ≡ outer_of heap.now object.now }
{
    match object {
        Value::Ref(at) => match heap.get(*at) {
            Some(Cell::Object { outer, .. }) => Some(outer.copy()),
            Some(Cell::Array { .. }) | Some(Cell::Text { .. }) | None => None,
        },
        _ => None,
    }
}

fn outer_class(class: Option<&Class>) -> Option<TypeId>
    ensures { result ≡ outer_class (option_copied class.entry) }
{
    match class {
        None => None,
        Some(class) => class.outer,
    }
}

impl<'a> Program<'a> {
    /// The instance of a class, from that of the current class outwards (JLS 8.1.3, 15.8.4).
    #[tactic(auto, using(crate::proofs::Levels::outer_step))]
    pub fn instance_of(
        &self,
        heap: &[Cell<'a>],
        class: TypeId,
        current: TypeId,
        object: &Value<'a>,
    ) -> Option<Value<'a>>
        ensures { result ≡ instance_of self.now heap.now class current object.now }
    {
        let mut current = current;
        let mut object = object.copy();
        let levels = self.class_count();
        for level in 0..levels {
            if same_type(current, class) {
                return Some(object);
            }
            current = outer_class(self.class(current))?;
            object = outer_of(heap, &object)?;
        }
        None
    }
}
