// What a row is, what it declares, and what it looks for.
ghost use Rattle.std.specs.Prelude.{◌≡◌};
ghost use Rattle.jr_tree.specs.Labels.{role_of, sought_by, name_sought, call_sought};

use crate::{Primitive, ThisOrSuper};
use jr_base::{Boxed, Kind, Symbol};

/// The modifiers that are written at a declaration (JLS 8.1.1, 8.3.1, 8.4.3, 8.8.3). What an interface's member has besides is not among them.
#[derive(Clone, Copy, Debug, PartialEq, Eq)]
pub struct Modifiers {
    pub is_public: bool,
    pub is_protected: bool,
    pub is_private: bool,
    pub is_abstract: bool,
    pub is_static: bool,
    pub is_final: bool,
    pub is_native: bool,
}

/// The form of an import (JLS 7.5).
#[derive(Clone, Copy, Debug, PartialEq, Eq)]
pub enum ImportKind {
    Single,
    OnDemand,
    /// The row's name is that of the imported members.
    StaticSingle,
}

/// What an identifier of a name means by where it stands (JLS 6.5.1).
#[derive(Clone, Copy, Debug, PartialEq, Eq)]
pub enum NameKind {
    Variable,
    Type,
    PackageOrType,
    Ambiguous,
    /// In a package declaration, whose name refers to nothing.
    Package,
}

/// Where an identifier of a name stands.
#[derive(Clone, Copy, Debug, PartialEq, Eq)]
pub enum NamePlace {
    /// Before a dot of a name.
    Qualifier,
    /// Last in a name that stands for a superclass (JLS 8.1.4).
    Superclass,
    /// Last in a name that stands for a superinterface (JLS 8.1.5, 9.1.3).
    Superinterface,
    /// Last in a name that stands as an expression (JLS 6.5.6).
    Expression,
    /// Last in a name that stands before the dot of a call (JLS 15.12).
    Receiver,
    /// Last in any other name.
    Other,
}

/// What stands before the dot of a call (JLS 15.12.1). It is the first child, unless it is `super`.
#[derive(Clone, Copy, Debug, PartialEq, Eq)]
pub enum ReceiverKind {
    Absent,
    Expression,
    Name,
    Super,
}

/// What a row is.
#[derive(Debug, Drop)]
pub enum Label {
    Program,
    /// JLS 7.3
    Unit,
    /// JLS 7.4; below it stands its name.
    Package,
    /// JLS 7.5; below it stands the name of a package or type.
    Import {
        kind: ImportKind,
    },
    /// An identifier of a name; below it stands what is before its dot (JLS 6.2).
    Name {
        kind: NameKind,
        place: NamePlace,
        is_qualified: bool,
    },
    /// A type as it is written; below it stands its name, where it has one (JLS 4).
    TypeUse {
        primitive: Option<Primitive>,
        dims: usize,
    },
    /// JLS 8.1; below it stand the superclass, the superinterfaces and the body.
    Class {
        modifiers: Modifiers,
        is_member: bool,
    },
    /// JLS 9.1; below it stand the superinterfaces and the body.
    Interface {
        modifiers: Modifiers,
        is_member: bool,
    },
    /// `;` in place of a type (JLS 7.6, 8.1.6).
    EmptyDecl {
        is_member: bool,
    },
    /// The body of a class or interface; below it stand its members (JLS 8.1.6, 9.1.4).
    Body,
    /// A declaration of fields; below it stand the type and the fields (JLS 8.3).
    Fields {
        modifiers: Modifiers,
    },
    /// A field; below it stands its initializer. The modifiers are those of its declaration (JLS 8.3).
    Field {
        modifiers: Modifiers,
        dims: usize,
    },
    /// JLS 8.4; below it stand the result unless it is void, the parameters, the thrown classes and the body.
    Method {
        modifiers: Modifiers,
        is_void: bool,
        has_body: bool,
    },
    /// JLS 8.8; below it stand a call of `super()` where none is written, the parameters, the thrown classes and the body.
    Constructor {
        modifiers: Modifiers,
    },
    /// The constructor of a class in which none is written; below it stands its call of `super()` (JLS 8.8.9).
    DefaultConstructor,
    /// The call `super()` of a constructor that begins with no call of a constructor (JLS 8.8.7).
    ImplicitCall,
    /// An initializer of a class (JLS 8.6, 8.7).
    Initializer {
        is_static: bool,
    },
    /// A parameter; below it stands its type (JLS 8.4.1, 14.20).
    Parameter {
        is_final: bool,
        dims: usize,
    },
    /// `Value e` as initializer or as item of one; below it stands the expression.
    Value,
    /// `{ item, .. }` (JLS 10.6)
    List,
    /// JLS 14.2
    Block,
    /// A block as a statement (JLS 14.2).
    Nest,
    /// A declaration of local variables; below it stand the type and the variables (JLS 14.4).
    Locals,
    /// A local variable; below it stands its initializer (JLS 14.4).
    Local {
        is_final: bool,
        dims: usize,
    },
    /// JLS 14.6
    Skip,
    /// JLS 14.13
    Do,
    /// JLS 14.12
    While,
    /// JLS 14.9
    If,
    /// JLS 14.8
    Eval,
    /// JLS 14.14.1
    For {
        has_first: bool,
        has_condition: bool,
    },
    /// A declaration in the header of a `for`; below it stand the type and the variables.
    ForLocals,
    /// Expressions as the first part of the header of a `for`.
    ForExprs,
    /// JLS 14.11
    Switch,
    /// Labels of a switch and the statements after them.
    Group,
    /// `case e:`
    Case,
    /// `default:`
    Default,
    /// JLS 14.7
    Labeled,
    /// JLS 14.15
    Break {
        has_label: bool,
    },
    /// JLS 14.16
    Continue {
        has_label: bool,
    },
    /// JLS 14.17
    Return,
    /// JLS 14.18
    Throw,
    /// JLS 14.20; below it stand the body, the catches and the block of `finally`.
    Try {
        has_finally: bool,
    },
    /// JLS 14.20
    Catch,
    /// `this(..)` or `super(..)`; below it stand the arguments (JLS 8.8.7.1).
    ConstructorCall {
        which: ThisOrSuper,
    },
    /// JLS 15.26
    Assign {
        op: Symbol,
    },
    /// JLS 15.25
    Conditional,
    /// JLS 15.17 to 15.24
    Binary {
        op: Symbol,
    },
    /// JLS 15.20.2
    IsA,
    /// JLS 15.15.3 to 15.15.6
    Unary {
        op: Symbol,
    },
    /// JLS 15.16
    Cast,
    /// JLS 15.15.1, 15.15.2
    PreStep {
        op: Symbol,
    },
    /// JLS 15.14
    PostStep {
        op: Symbol,
    },
    /// JLS 15.8.1
    Literal {
        kind: Boxed<Kind>,
    },
    /// JLS 15.8.3, 15.8.4; below it stands the class that is named.
    This {
        is_qualified: bool,
    },
    /// JLS 15.8.5
    Paren,
    /// `e.name` (JLS 15.11.1)
    Select,
    /// `super.name` (JLS 15.11.2)
    SuperSelect,
    /// JLS 15.13
    Index,
    /// JLS 15.12; below it stand the receiver, unless it is absent or `super`, and the arguments.
    Call {
        receiver: ReceiverKind,
    },
    /// JLS 15.9; below it stand the class and the arguments.
    New,
    /// JLS 15.10; below it stand the name of the element type, where it has one, the lengths and the initializer.
    NewArray {
        primitive: Option<Primitive>,
        lengths: usize,
        more: usize,
    },
}

/// What a row declares.
#[derive(Clone, Copy, Debug, PartialEq, Eq)]
pub enum Role {
    Nothing,
    Type,
    Field,
    Method,
    Constructor,
    Parameter,
    Local,
    Label,
}

/// What a row looks for.
#[derive(Clone, Copy, Debug, PartialEq, Eq)]
pub enum Sought {
    Nothing,
    /// A name without a dot.
    Simple { kind: NameKind },
    /// A name behind a dot; what is before the dot is the name in the first child.
    Qualified { kind: NameKind },
    /// A field of what the expression in the first child is.
    FieldOf,
    /// A field of the superclass.
    SuperField,
    /// A method without a receiver.
    Method,
    /// A method of what the first child is.
    MethodOf,
    /// A method of the superclass.
    SuperMethod,
    /// A constructor of the class that the first child names.
    Creation,
    /// A constructor of the class itself, or of its superclass.
    ConstructorCall { which: ThisOrSuper },
    /// The class itself, by the name of its constructor.
    OwnClass,
    /// A labeled statement.
    Label,
}

impl Label {
    /// What the row declares.
    pub fn role(&self) -> Role
        ensures { result ≡ role_of self.now }
    {
        match self {
            Label::Class { .. } => Role::Type,
            Label::Interface { .. } => Role::Type,
            Label::Field { .. } => Role::Field,
            Label::Method { .. } => Role::Method,
            Label::Constructor { .. } => Role::Constructor,
            Label::DefaultConstructor => Role::Constructor,
            Label::Parameter { .. } => Role::Parameter,
            Label::Local { .. } => Role::Local,
            Label::Labeled => Role::Label,
            _ => Role::Nothing,
        }
    }

    /// What the row looks for.
    pub fn sought(&self) -> Sought
        ensures { result ≡ sought_by self.now }
    {
        match self {
            Label::Name {
                kind,
                is_qualified,
                ..
            } => kind.sought(*is_qualified),
            Label::Select => Sought::FieldOf,
            Label::SuperSelect => Sought::SuperField,
            Label::Call { receiver } => receiver.sought(),
            Label::New => Sought::Creation,
            Label::ConstructorCall { which } => Sought::ConstructorCall { which: *which },
            Label::ImplicitCall => Sought::ConstructorCall {
                which: ThisOrSuper::Super,
            },
            Label::Constructor { .. } => Sought::OwnClass,
            Label::Break { has_label: true } => Sought::Label,
            Label::Continue { has_label: true } => Sought::Label,
            _ => Sought::Nothing,
        }
    }
}

impl NameKind {
    /// What an identifier of this kind looks for.
    pub fn sought(self, is_qualified: bool) -> Sought
        ensures { result ≡ name_sought self is_qualified }
    {
        match self {
            NameKind::Package => Sought::Nothing,
            _ => {
                if is_qualified {
                    Sought::Qualified { kind: self }
                } else {
                    Sought::Simple { kind: self }
                }
            }
        }
    }
}

impl ReceiverKind {
    /// What a call with this receiver looks for.
    pub fn sought(self) -> Sought
        ensures { result ≡ call_sought self }
    {
        match self {
            ReceiverKind::Absent => Sought::Method,
            ReceiverKind::Expression => Sought::MethodOf,
            ReceiverKind::Name => Sought::MethodOf,
            ReceiverKind::Super => Sought::SuperMethod,
        }
    }
}
