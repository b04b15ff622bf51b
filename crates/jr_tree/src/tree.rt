//! The syntax trees of a compilation unit (JLS 18). What the grammar allows beyond these shapes is `IsShaped` of the specs.

use jr_base::{Boxed, Items, Kind, Symbol, Text};

/// A simple or qualified name (JLS 6.2): its identifiers, which stand with dots between them.
#[derive(Drop)]
pub struct Name {
    pub parts: Items<Text>,
}

/// A primitive type (JLS 4.2).
#[derive(Clone, Copy, Debug, PartialEq, Eq)]
pub enum Primitive {
    Boolean,
    Byte,
    Short,
    Char,
    Int,
    Long,
}

/// The element type of a type as it is written.
#[derive(Drop)]
pub enum Base {
    Primitive(Primitive),
    Named(Name),
}

/// A type as it is written (JLS 4): its element type, and how many pairs of brackets follow.
#[derive(Drop)]
pub struct TypeUse {
    pub base: Base,
    pub dims: usize,
}

/// A modifier (JLS 8.1.1, 8.3.1, 8.4.3).
#[derive(Clone, Copy, Debug, PartialEq, Eq)]
pub enum Modifier {
    Public,
    Protected,
    Private,
    Abstract,
    Static,
    Final,
    Native,
}

/// An expression (JLS 15).
#[cycle(expr)]
#[derive(Drop)]
pub enum Expr {
    /// `target op value` (JLS 15.26)
    Assign {
        target: Boxed<Expr>,
        op: Symbol,
        value: Boxed<Expr>,
    },
    /// `cond ? yes : no` (JLS 15.25)
    Cond {
        cond: Boxed<Expr>,
        yes: Boxed<Expr>,
        no: Boxed<Expr>,
    },
    /// `left op right` (JLS 15.17 to 15.24)
    Binary {
        left: Boxed<Expr>,
        op: Symbol,
        right: Boxed<Expr>,
    },
    /// `value instanceof ty` (JLS 15.20.2)
    IsA {
        value: Boxed<Expr>,
        ty: TypeUse,
    },
    /// `op value` with one of `+ - ~ !` (JLS 15.15.3 to 15.15.6)
    Unary {
        op: Symbol,
        value: Boxed<Expr>,
    },
    /// `(ty) value` (JLS 15.16)
    Cast {
        ty: TypeUse,
        value: Boxed<Expr>,
    },
    /// `++ value` or `-- value` (JLS 15.15.1, 15.15.2)
    PreStep {
        op: Symbol,
        value: Boxed<Expr>,
    },
    /// `value ++` or `value --` (JLS 15.14)
    PostStep {
        value: Boxed<Expr>,
        op: Symbol,
    },
    /// A literal, as its token (JLS 15.8.1)
    Lit {
        kind: Kind,
    },
    /// `this` or `name.this` (JLS 15.8.3, 15.8.4)
    This {
        name: Option<Name>,
    },
    /// `(inner)` (JLS 15.8.5)
    Paren {
        inner: Boxed<Expr>,
    },
    /// A name that stands as an expression (JLS 6.5.6)
    NameExpr {
        name: Name,
    },
    /// `object.name` (JLS 15.11.1)
    Select {
        object: Boxed<Expr>,
        name: Text,
    },
    /// `super.name` (JLS 15.11.2)
    SuperSelect {
        name: Text,
    },
    /// `array[at]` (JLS 15.13)
    Index {
        array: Boxed<Expr>,
        at: Boxed<Expr>,
    },
    /// `receiver.name(args)` or `name(args)` (JLS 15.12)
    Call {
        receiver: Option<Receiver>,
        name: Text,
        args: Items<Expr>,
    },
    /// `new name(args)` (JLS 15.9)
    New {
        name: Name,
        args: Items<Expr>,
    },
    /// `new base[dim]..[]..` or `new base[].. { .. }`, with `more` empty pairs of brackets (JLS 15.10)
    NewArray {
        base: Base,
        dims: Items<Expr>,
        more: usize,
        init: Option<InitList>,
    },
}

/// What stands before the dot of a call (JLS 15.12.1).
#[cycle(expr)]
#[derive(Drop)]
pub enum Receiver {
    Of { object: Boxed<Expr> },
    OfName { name: Name },
    Super,
}

/// What a variable is initialized with (JLS 8.3, 10.6).
#[cycle(expr)]
#[derive(Drop)]
pub enum Init {
    Value { value: Expr },
    List { list: InitList },
}

/// `{ item, .. }`, and whether a comma follows the last item (JLS 10.6).
#[cycle(expr)]
#[derive(Drop)]
pub struct InitList {
    pub items: Items<Init>,
    pub is_open_ended: bool,
}

/// A formal parameter (JLS 8.4.1), or that of a `catch`.
#[derive(Drop)]
pub struct Param {
    pub is_final: bool,
    pub ty: TypeUse,
    pub name: Text,
    pub dims: usize,
}

/// `name [].. = init` in a declaration of fields or locals (JLS 8.3, 14.4).
#[derive(Drop)]
pub struct Declarator {
    pub name: Text,
    pub dims: usize,
    pub init: Option<Init>,
}

/// The first part of a `for` (JLS 14.14.1).
#[derive(Drop)]
pub enum ForInit {
    Locals {
        is_final: bool,
        ty: TypeUse,
        decls: Items<Declarator>,
    },
    Exprs {
        exprs: Items<Expr>,
    },
}

/// `case value:` or `default:` (JLS 14.11).
#[derive(Drop)]
pub enum SwitchLabel {
    Case { value: Expr },
    Default,
}

/// Which constructor a constructor begins by calling (JLS 8.8.7.1).
#[derive(Clone, Copy, Debug, PartialEq, Eq)]
pub enum ThisOrSuper {
    This,
    Super,
}

/// `{ stmt .. }` (JLS 14.2).
#[cycle(stmt)]
#[derive(Drop)]
pub struct Block {
    pub stmts: Items<Stmt>,
}

/// A statement (JLS 14).
#[cycle(stmt)]
#[derive(Drop)]
pub enum Stmt {
    /// A block (JLS 14.2)
    Nest {
        block: Block,
    },
    /// A declaration of local variables (JLS 14.4)
    Local {
        is_final: bool,
        ty: TypeUse,
        decls: Items<Declarator>,
    },
    /// `;` (JLS 14.6)
    Skip,
    /// `do body while (cond);` (JLS 14.13)
    Do {
        body: Boxed<Stmt>,
        cond: Expr,
    },
    /// `while (cond) body` (JLS 14.12)
    While {
        cond: Expr,
        body: Boxed<Stmt>,
    },
    /// `if (cond) yes` or `if (cond) yes else no` (JLS 14.9)
    If {
        cond: Expr,
        yes: Boxed<Stmt>,
        no: Option<Boxed<Stmt>>,
    },
    /// `value;` (JLS 14.8)
    Eval {
        value: Expr,
    },
    /// `for (first; cond; update) body` (JLS 14.14.1)
    For {
        first: Option<ForInit>,
        cond: Option<Expr>,
        update: Items<Expr>,
        body: Boxed<Stmt>,
    },
    /// `switch (value) { group .. }` (JLS 14.11)
    Switch {
        value: Expr,
        groups: Items<Group>,
    },
    /// `label: body` (JLS 14.7)
    Labeled {
        label: Text,
        body: Boxed<Stmt>,
    },
    /// `break;` or `break label;` (JLS 14.15)
    Break {
        label: Option<Text>,
    },
    /// `continue;` or `continue label;` (JLS 14.16)
    Continue {
        label: Option<Text>,
    },
    /// `return;` or `return value;` (JLS 14.17)
    Return {
        value: Option<Expr>,
    },
    /// `throw value;` (JLS 14.18)
    Throw {
        value: Expr,
    },
    /// `try body catch .. finally last` (JLS 14.20)
    Try {
        body: Block,
        catches: Items<Catch>,
        last: Option<Block>,
    },
    /// `this(args);` or `super(args);` (JLS 8.8.7.1)
    CtorCall {
        which: ThisOrSuper,
        args: Items<Expr>,
    },
}

/// Labels of a `switch` and the statements after them (JLS 14.11).
#[cycle(stmt)]
#[derive(Drop)]
pub struct Group {
    pub labels: Items<SwitchLabel>,
    pub stmts: Items<Stmt>,
}

/// `catch (param) body` (JLS 14.20).
#[cycle(stmt)]
#[derive(Drop)]
pub struct Catch {
    pub param: Param,
    pub body: Block,
}

/// The result of a method as it is written (JLS 8.4).
#[derive(Drop)]
pub enum ResultType {
    Void,
    Of { ty: TypeUse },
}

/// A declaration of a type (JLS 7.6), or a `;` in its place.
#[cycle(decl)]
#[derive(Drop)]
pub enum TypeDecl {
    /// JLS 8.1
    Class {
        mods: Items<Modifier>,
        name: Text,
        parent: Option<Name>,
        faces: Items<Name>,
        body: Items<Member>,
    },
    /// JLS 9.1
    Interface {
        mods: Items<Modifier>,
        name: Text,
        faces: Items<Name>,
        body: Items<Member>,
    },
    Empty,
}

/// A member of a type, a constructor or an initializer (JLS 8.1.6, 9.1.4).
#[cycle(decl)]
#[derive(Drop)]
pub enum Member {
    /// JLS 8.3
    Field {
        mods: Items<Modifier>,
        ty: TypeUse,
        decls: Items<Declarator>,
    },
    /// JLS 8.4
    Method {
        mods: Items<Modifier>,
        result_: ResultType,
        name: Text,
        params: Items<Param>,
        thrown: Items<Name>,
        body: Option<Block>,
    },
    /// JLS 8.8
    Constructor {
        mods: Items<Modifier>,
        name: Text,
        params: Items<Param>,
        thrown: Items<Name>,
        body: Block,
    },
    /// JLS 8.6, 8.7
    Init {
        is_static: bool,
        body: Block,
    },
    /// JLS 8.5, 9.5
    Nested {
        decl: TypeDecl,
    },
}

/// `package name;` (JLS 7.4).
#[derive(Drop)]
pub struct PackageDecl {
    pub name: Name,
}

/// An import (JLS 7.5).
#[derive(Drop)]
pub enum Import {
    /// `import name;` (JLS 7.5.1)
    Single { name: Name },
    /// `import name.*;` (JLS 7.5.2)
    OnDemand { name: Name },
    /// `import static name.member;` (JLS 7.5.3)
    StaticSingle { name: Name, member: Text },
}

/// A compilation unit (JLS 7.3).
#[derive(Drop)]
pub struct Unit {
    pub package: Option<PackageDecl>,
    pub imports: Items<Import>,
    pub types: Items<TypeDecl>,
}
