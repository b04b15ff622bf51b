//! The compile rules by name, their numbers in answers, and where a broken one is shown.
#![tactic(auto)]

ghost use Rattle.std.specs.Prelude.{◌≡◌};
ghost use Rattle.jr_rule.specs.Numbers.{number_of};
ghost use Rattle.jr_rule.specs.Shown.{place_kind};

/// A compile rule.
#[derive(Clone, Copy, Debug, PartialEq, Eq)]
pub enum Rule {
    /// A modifier is repeated or not allowed (JLS 8.1.1, 8.3.1, 8.4.3, 8.8.3, 9.1.1).
    Modifiers,
    /// Two types of one name in a body, a member type named as a type round it (JLS 8.1, 8.5).
    TypeNames,
    /// Two fields of one name in a body (JLS 8.3).
    FieldNames,
    /// Two methods of one signature in a body (JLS 8.4.2).
    MethodSignatures,
    /// Two constructors of one signature in a body (JLS 8.8.2).
    ConstructorSignatures,
    /// A local or parameter in the scope of one of its name (JLS 8.4.1, 14.4.2).
    LocalNames,
    /// A label inside a statement of the same label (JLS 14.7).
    Labels,
    /// Two imports of different types, or an import and a type of the unit, of one name (JLS 7.5.1).
    ImportNames,
    /// An import by a name that is not canonical, or of a type of the unnamed package (JLS 7.5.1).
    ImportedTypes,
    /// The target is not accessible (JLS 6.6).
    Access,
    /// An instance is wanted where there is none (JLS 8.1.3, 8.4.3.2, 8.8.7.1, 15.9.2).
    StaticContext,
    /// A field is read before it is declared (JLS 8.3.2.3).
    ForwardReference,
    /// A superclass or superinterface that may not be one (JLS 8.1.4, 8.1.5, 9.1.3).
    Supertypes,
    /// A class that is not abstract leaves a method abstract (JLS 8.1.1.1).
    AbstractMembers,
    /// The results of methods of one signature do not go together (JLS 8.4.5, 8.4.8.3).
    Results,
    /// An overriding or hiding method narrows access (JLS 8.4.8.3).
    NarrowedAccess,
    /// A static method for one of an instance, or the other way round (JLS 8.4.8.1, 8.4.8.2).
    StaticOverride,
    /// The overridden or hidden method is final (JLS 8.4.3.3).
    FinalOverride,
    /// An overriding method throws what the overridden one does not allow (JLS 8.4.8.3).
    OverrideThrows,
    /// A body that may not be there, or that is missing (JLS 8.4.7, 8.6, 8.8, 9.3, 9.4).
    Bodies,
    /// An inner class declares what is static (JLS 8.1.3).
    InnerStatics,
    /// Constructors call themselves (JLS 8.8.7.1).
    ConstructorCycle,
    /// What is thrown, caught or declared is not Throwable (JLS 8.4.6, 14.18, 14.20).
    Throwable,
    /// The operands of an operator have no type for it (JLS 15.15 to 15.24).
    Operands,
    /// A value is not assignable to its place (JLS 5.2).
    Assignable,
    /// What is assigned or stepped is no variable (JLS 15.14, 15.15, 15.26).
    Variable,
    /// A cast or `instanceof` that cannot be (JLS 15.16, 15.20.2).
    Cast,
    /// A condition is not boolean (JLS 14.9 to 14.14, 15.25).
    Condition,
    /// A switch on a type that has none, or a label that may not stand there (JLS 14.11).
    Switch,
    /// A void call is used as a value (JLS 14.8, 15.12.3).
    VoidValue,
    /// A return that does not go with its method (JLS 14.17).
    Return,
    /// A creation of, or a call through `super` to, what is abstract (JLS 15.9.1, 15.12.3).
    Abstract,
    /// An index or dimension that is no int, or a list or index of no array (JLS 10.6, 15.10, 15.13).
    Index,
    /// A jump without target (JLS 14.15, 14.16).
    Jump,
    /// Two branches of `?:` without a common type (JLS 15.25).
    Branches,
    /// A statement that cannot be reached (JLS 14.21).
    Unreachable,
    /// A body that can complete normally and may not, or cannot and must (JLS 8.4.7, 8.6).
    Completion,
    /// A local is used and not definitely assigned (JLS 16).
    UnassignedLocal,
    /// A final variable is assigned where it may not be (JLS 4.12.4, 8.3.1.2).
    FinalAssignment,
    /// A blank final field is not definitely assigned at the end (JLS 8.3.1.2).
    UnassignedFinal,
    /// A checked exception is neither caught nor declared (JLS 11.2).
    UncaughtException,
    /// A catch of a checked exception that the body cannot throw (JLS 11.2.3).
    UnthrownCatch,
    /// A catch of what an earlier catch has caught (JLS 14.20).
    CoveredCatch,
    /// Two units of the changed program have one path.
    PathTwice,
    /// An expression has another type after an inline.
    TypeChange,
    /// The headers of the changed program have a cycle (JLS 8.1.4).
    HeaderCycle,
    /// A static import of no member, or of a type whose name is taken (JLS 7.5.3).
    StaticImports,
}

/// Which token of a row shows that a rule is broken there.
#[derive(Clone, Copy, Debug, PartialEq, Eq)]
pub enum PlaceKind {
    /// The name that is declared, or the reference: the row's own token.
    Name,
    /// The first token of the row.
    First,
}

/// A rule that is broken at a row.
#[derive(Clone, Copy, Debug, PartialEq, Eq)]
pub struct Fault {
    pub row: u32,
    pub rule: Rule,
}

impl Rule {
    /// The number of the rule in answers, from 1.
    pub fn number(self) -> u8
        ensures { result ≡ number_of self }
    {
        match self {
            Rule::Modifiers => 1,
            Rule::TypeNames => 2,
            Rule::FieldNames => 3,
            Rule::MethodSignatures => 4,
            Rule::ConstructorSignatures => 5,
            Rule::LocalNames => 6,
            Rule::Labels => 7,
            Rule::ImportNames => 8,
            Rule::ImportedTypes => 9,
            Rule::Access => 10,
            Rule::StaticContext => 11,
            Rule::ForwardReference => 12,
            Rule::Supertypes => 13,
            Rule::AbstractMembers => 14,
            Rule::Results => 15,
            Rule::NarrowedAccess => 16,
            Rule::StaticOverride => 17,
            Rule::FinalOverride => 18,
            Rule::OverrideThrows => 19,
            Rule::Bodies => 20,
            Rule::InnerStatics => 21,
            Rule::ConstructorCycle => 22,
            Rule::Throwable => 23,
            Rule::Operands => 24,
            Rule::Assignable => 25,
            Rule::Variable => 26,
            Rule::Cast => 27,
            Rule::Condition => 28,
            Rule::Switch => 29,
            Rule::VoidValue => 30,
            Rule::Return => 31,
            Rule::Abstract => 32,
            Rule::Index => 33,
            Rule::Jump => 34,
            Rule::Branches => 35,
            Rule::Unreachable => 36,
            Rule::Completion => 37,
            Rule::UnassignedLocal => 38,
            Rule::FinalAssignment => 39,
            Rule::UnassignedFinal => 40,
            Rule::UncaughtException => 41,
            Rule::UnthrownCatch => 42,
            Rule::CoveredCatch => 43,
            Rule::PathTwice => 44,
            Rule::TypeChange => 45,
            Rule::HeaderCycle => 46,
            Rule::StaticImports => 47,
        }
    }

    /// Where the rule is shown.
    pub fn place(self) -> PlaceKind
        ensures { result ≡ place_kind self }
    {
        match self {
            Rule::Operands => PlaceKind::First,
            Rule::Cast => PlaceKind::First,
            Rule::Condition => PlaceKind::First,
            Rule::Index => PlaceKind::First,
            Rule::Jump => PlaceKind::First,
            Rule::Branches => PlaceKind::First,
            Rule::Unreachable => PlaceKind::First,
            _ => PlaceKind::Name,
        }
    }
}
