// Types (JLS 4).
ghost use Rattle.std.specs.Prelude.{◌≡◌, IfOk};

use crate::{Boxed, Copied, OutOfMemory, TypeId};
use std::alloc::Global;

/// A type (JLS 4.1): a primitive type, a class or interface, an array type, that of `null`, or the `void` of a method without a result.
#[derive(Drop)]
pub enum Ty {
    Boolean,
    Byte,
    Short,
    Char,
    Int,
    Long,
    Null,
    Void,
    Class(TypeId),
    /// The array type of this component type (JLS 10.1).
    Array(Boxed<Ty>),
}

impl Ty {
    /// An equal type of its own.
    pub fn copy(&self, alloc: Global) -> Result<Ty, OutOfMemory>
        ensures { IfOk result (λ copy. copy ≡ self.now) }
    {
        match self {
            Ty::Boolean => Ok(Ty::Boolean),
            Ty::Byte => Ok(Ty::Byte),
            Ty::Short => Ok(Ty::Short),
            Ty::Char => Ok(Ty::Char),
            Ty::Int => Ok(Ty::Int),
            Ty::Long => Ok(Ty::Long),
            Ty::Null => Ok(Ty::Null),
            Ty::Void => Ok(Ty::Void),
            Ty::Class(id) => Ok(Ty::Class(*id)),
            Ty::Array(item) => Ok(Ty::Array(Boxed::new(alloc, item.get().copy(alloc)?)?)),
        }
    }
}

impl Copied for Ty {
    fn copy(&self, alloc: Global) -> Result<Ty, OutOfMemory> {
        Ty::copy(self, alloc)
    }
}
