// Elaborated statements and expressions (JLS 14, 15).

use crate::{BinaryOp, StepOp, UnaryOp};
use jr_base::{Boxed, Const, DeclId, Items, Ty, TypeId};

/// A label of a `switch`; that of a case is the value of its constant expression (JLS 14.11).
#[derive(Clone, Copy, Debug, PartialEq, Eq)]
pub enum SwitchLabel {
    Case(i32),
    Default,
}

/// A statement or an expression after elaboration: names are declarations, `this` and conversions are written out, constant
/// expressions are literals, and what is parenthesized stands alone. Widening conversions of references and identity conversions are gone.
#[cycle(code)]
#[derive(Drop)]
pub enum Code {
    // Expressions (JLS 15)
    /// `target = value`, or `target op= value`; the target is a `Var`, a `FieldAt` or an `Index` (JLS 15.26)
    Assign {
        target: Boxed<Code>,
        op: Option<BinaryOp>,
        value: Boxed<Code>,
    },
    /// `cond ? yes : no` (JLS 15.25)
    Cond {
        cond: Boxed<Code>,
        yes: Boxed<Code>,
        no: Boxed<Code>,
    },
    /// `left && right` (JLS 15.23)
    AndAlso {
        left: Boxed<Code>,
        right: Boxed<Code>,
    },
    /// `left || right` (JLS 15.24)
    OrElse {
        left: Boxed<Code>,
        right: Boxed<Code>,
    },
    /// `left op right` (JLS 15.17 to 15.22)
    Binary {
        left: Boxed<Code>,
        op: BinaryOp,
        right: Boxed<Code>,
    },
    /// `value instanceof ty` (JLS 15.20.2)
    IsA {
        value: Boxed<Code>,
        ty: Ty,
    },
    /// `op value` (JLS 15.15.3 to 15.15.6)
    Unary {
        op: UnaryOp,
        value: Boxed<Code>,
    },
    /// A conversion, written or implicit, other than a string conversion (JLS 5, 15.16)
    Cast {
        ty: Ty,
        value: Boxed<Code>,
    },
    /// `op target` (JLS 15.15.1, 15.15.2)
    PreStep {
        op: StepOp,
        target: Boxed<Code>,
    },
    /// `target op` (JLS 15.14)
    PostStep {
        target: Boxed<Code>,
        op: StepOp,
    },
    /// A literal or a constant, or `null` (JLS 15.8.1, 15.28)
    Lit {
        value: Option<Const>,
    },
    /// The instance of this class: that of the running body, or one that encloses it (JLS 15.8.3, 15.8.4)
    This {
        class: TypeId,
    },
    /// A local variable or a parameter (JLS 4.12.3)
    Var {
        local: DeclId,
    },
    /// A field, of the object that `on` gives, if it stands there (JLS 15.11)
    FieldAt {
        on: Option<Boxed<Code>>,
        field: DeclId,
    },
    /// The length of an array (JLS 10.7)
    Length {
        array: Boxed<Code>,
    },
    /// `array[at]` (JLS 15.13)
    Index {
        array: Boxed<Code>,
        at: Boxed<Code>,
    },
    /// A call of a method, on what the receiver gives, if it stands there (JLS 15.12)
    Call {
        receiver: Option<Boxed<Code>>,
        is_super: bool,
        method: DeclId,
        args: Items<Code>,
    },
    /// A creation by this constructor; `outer` is the enclosing object of an inner class (JLS 15.9)
    New {
        outer: Option<Boxed<Code>>,
        ctor: DeclId,
        args: Items<Code>,
    },
    /// A creation of an array of type `ty`: with these dimensions, or with these items, of which a list in braces is a creation of
    /// its own (JLS 15.10, 10.6)
    NewArray {
        ty: Ty,
        dims: Items<Code>,
        init: Option<Items<Code>>,
    },
    /// The string conversion of an operand of `+` or `+=` (JLS 15.18.1.1)
    Show {
        value: Boxed<Code>,
    },
    // Statements (JLS 14)
    /// A block (JLS 14.2)
    Nest {
        stmts: Items<Code>,
    },
    /// One declared local variable, with its initial value (JLS 14.4)
    Local {
        local: DeclId,
        init: Option<Boxed<Code>>,
    },
    /// `;` (JLS 14.6)
    Skip,
    /// `do body while (cond);` (JLS 14.13)
    Do {
        body: Boxed<Code>,
        cond: Boxed<Code>,
    },
    /// `while (cond) body` (JLS 14.12)
    While {
        cond: Boxed<Code>,
        body: Boxed<Code>,
    },
    /// `if (cond) yes else no` (JLS 14.9)
    If {
        cond: Boxed<Code>,
        yes: Boxed<Code>,
        no: Option<Boxed<Code>>,
    },
    /// An expression as a statement (JLS 14.8)
    Eval {
        value: Boxed<Code>,
    },
    /// `for (first; cond; update) body`; the parts of the header are statements, `Local` or `Eval` (JLS 14.14.1)
    For {
        first: Items<Code>,
        cond: Option<Boxed<Code>>,
        update: Items<Code>,
        body: Boxed<Code>,
    },
    /// `switch (value) { group .. }` (JLS 14.11)
    Switch {
        value: Boxed<Code>,
        groups: Items<Group>,
    },
    /// `label: body` (JLS 14.7)
    Labeled {
        label: DeclId,
        body: Boxed<Code>,
    },
    /// `break;` or `break label;` (JLS 14.15)
    Break {
        label: Option<DeclId>,
    },
    /// `continue;` or `continue label;` (JLS 14.16)
    Continue {
        label: Option<DeclId>,
    },
    /// `return;` or `return value;` (JLS 14.17)
    Return {
        value: Option<Boxed<Code>>,
    },
    /// `throw value;` (JLS 14.18)
    Throw {
        value: Boxed<Code>,
    },
    /// `try body catch .. finally last` (JLS 14.20)
    Try {
        body: Items<Code>,
        catches: Items<Catch>,
        last: Option<Items<Code>>,
    },
    /// A call of a constructor of the same class, or of the superclass, written or implicit (JLS 8.8.7)
    CtorCall {
        is_super: bool,
        ctor: DeclId,
        args: Items<Code>,
    },
}

/// Labels of a `switch` and the statements after them (JLS 14.11).
#[cycle(code)]
#[derive(Drop)]
pub struct Group {
    pub labels: Items<SwitchLabel>,
    pub stmts: Items<Code>,
}

/// `catch (class param) body` (JLS 14.20).
#[cycle(code)]
#[derive(Drop)]
pub struct Catch {
    pub class: TypeId,
    pub param: DeclId,
    pub body: Items<Code>,
}
