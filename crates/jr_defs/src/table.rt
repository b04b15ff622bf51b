// Tables of a program, by the numbers of its nodes.

ghost use Rattle.std.specs.Prelude.{◌≡◌, IfOk};

use jr_base::{Copied, DeclId, Items, OccId, OutOfMemory, TypeId};
use std::alloc::Global;

/// What an occurrence refers to.
#[derive(Clone, Copy, Debug, PartialEq, Eq)]
pub enum Target {
    Unbound,
    Ambiguous,
    /// `length` of an array (JLS 10.7)
    ArrayLength,
    Package,
    /// A package as qualifier inside a longer reference.
    PackagePart,
    /// A type as qualifier inside a longer reference.
    TypePart(TypeId),
    /// The level is the enclosing type whose member the field or method is, or the enclosing class whose instance encloses the object
    /// that a creation makes.
    Decl { decl: DeclId, level: Option<TypeId> },
}

/// The targets of occurrences, which rise.
#[derive(Drop)]
pub struct BindingTable {
    pub targets: Items<(OccId, Target)>,
}

/// The direct supertypes of a type: superclass first, then superinterfaces as written.
#[derive(Drop)]
pub struct Supers {
    pub of: TypeId,
    pub supers: Items<TypeId>,
}

/// The direct supertypes of types, which rise.
#[derive(Drop)]
pub struct Headers {
    pub supers: Items<Supers>,
}

/// The members of a type.
#[derive(Drop)]
pub struct TypeMembers {
    pub of: TypeId,
    pub members: Items<DeclId>,
}

/// Members and dispatch of types, which rise.
#[derive(Drop)]
pub struct MemberTable {
    /// The headers that the table was made from.
    pub supers: Headers,
    pub members: Items<TypeMembers>,
    /// A class, a method that it has, and the method that a call of it finds there.
    pub found: Items<(TypeId, DeclId, DeclId)>,
}

impl BindingTable {
    /// An equal table of its own.
    pub fn copy(&self, alloc: Global) -> Result<BindingTable, OutOfMemory>
        ensures { IfOk result (λ copy. copy ≡ self.now) }
    {
        Ok(BindingTable {
            targets: Items::from_slice(alloc, self.targets.as_slice())?,
        })
    }
}

impl Copied for Supers {
    fn copy(&self, alloc: Global) -> Result<Supers, OutOfMemory> {
        Ok(Supers {
            of: self.of,
            supers: Items::from_slice(alloc, self.supers.as_slice())?,
        })
    }
}

impl Headers {
    /// An equal table of its own.
    pub fn copy(&self, alloc: Global) -> Result<Headers, OutOfMemory>
        ensures { IfOk result (λ copy. copy ≡ self.now) }
    {
        Ok(Headers {
            supers: self.supers.copy(alloc)?,
        })
    }
}

impl Copied for TypeMembers {
    fn copy(&self, alloc: Global) -> Result<TypeMembers, OutOfMemory> {
        Ok(TypeMembers {
            of: self.of,
            members: Items::from_slice(alloc, self.members.as_slice())?,
        })
    }
}

impl MemberTable {
    /// An equal table of its own.
    pub fn copy(&self, alloc: Global) -> Result<MemberTable, OutOfMemory>
        ensures { IfOk result (λ copy. copy ≡ self.now) }
    {
        Ok(MemberTable {
            supers: self.supers.copy(alloc)?,
            members: self.members.copy(alloc)?,
            found: Items::from_slice(alloc, self.found.as_slice())?,
        })
    }
}
