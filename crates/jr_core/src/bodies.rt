// Classes and bodies (JLS 8, 9).

use crate::Code;
use jr_base::{Const, DeclId, Items, Ty, TypeId};

/// A class or an interface (JLS 8.1, 9.1).
#[derive(Drop)]
pub struct Class {
    pub id: TypeId,
    /// The superclass (JLS 8.1.4).
    pub parent: Option<TypeId>,
    /// The direct superinterfaces as written (JLS 8.1.5, 9.1.3).
    pub faces: Items<TypeId>,
    /// The class whose instance encloses each instance, where this is an inner class (JLS 8.1.3).
    pub outer: Option<TypeId>,
    /// The fields and initializers that it declares, in order of the text (JLS 8.3, 8.6, 8.7).
    pub members: Items<DeclId>,
    /// For each method that it has, the method that a call of it runs (JLS 15.12.4.4).
    pub found: Items<(DeclId, DeclId)>,
}

/// A method, constructor, initializer or field (JLS 8.3 to 8.8).
#[derive(Drop)]
pub struct Body {
    pub decl: DeclId,
    /// The class or interface that declares it.
    pub class: TypeId,
    pub is_static: bool,
    pub is_native: bool,
    /// The type of the result or of the field, and `void` where there is none.
    pub ty: Ty,
    /// The value of a field that is a constant variable (JLS 4.12.4).
    pub constant: Option<Const>,
    /// The parameters in order.
    pub params: Items<DeclId>,
    /// The statements; of a field with an initializer the one assignment to it.
    pub code: Items<Code>,
}

/// The core of a program.
#[derive(Drop)]
pub struct Core {
    pub classes: Items<Class>,
    pub bodies: Items<Body>,
}
