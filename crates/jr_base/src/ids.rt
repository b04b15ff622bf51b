// Numbers that name things of a program.

/// A compilation unit of a program. 0 and 1 are the prelude (JLS 7.3).
#[derive(Clone, Copy, Debug, PartialEq, Eq, PartialOrd, Ord)]
pub struct CuId(pub u32);

/// A node of a unit's tree, numbered in preorder from 0.
#[derive(Clone, Copy, Debug, PartialEq, Eq, PartialOrd, Ord)]
pub struct NodeId(pub u32);

/// A node of a program: a unit of it, and a node of that unit.
#[derive(Clone, Copy, Debug, PartialEq, Eq, PartialOrd, Ord)]
pub struct NodeAt {
    pub cu: CuId,
    pub node: NodeId,
}

/// A declaration. Part 1 of a class is its default constructor (JLS 8.8.9); all else is part 0.
#[derive(Clone, Copy, Debug, PartialEq, Eq, PartialOrd, Ord)]
pub struct DeclId {
    pub at: NodeAt,
    pub part: u32,
}

/// An occurrence of an identifier. The part is the number of the identifier in the name, from 0.
#[derive(Clone, Copy, Debug, PartialEq, Eq, PartialOrd, Ord)]
pub struct OccId {
    pub at: NodeAt,
    pub part: u32,
}

/// A class or an interface, by its declaration.
#[derive(Clone, Copy, Debug, PartialEq, Eq, PartialOrd, Ord)]
pub struct TypeId(pub DeclId);

/// A rule that a program has to keep in order to compile, by its number in `docs/LANGUAGE.md`.
#[derive(Clone, Copy, Debug, PartialEq, Eq, PartialOrd, Ord)]
pub struct RuleId(pub u8);
