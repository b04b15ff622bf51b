// What is left to be done in a frame.

use crate::reference::CodeRef;
use crate::value::Value;
use jr_base::{DeclId, TypeId};

/// A completion other than the normal one, on its way outwards (JLS 14.1).
#[derive(Drop)]
pub enum Exit<'a> {
    Throw(Value<'a>),
    Break(Option<DeclId>),
    Continue(Option<DeclId>),
    /// With the result, or with `Value::Void`.
    Return(Value<'a>),
}

/// An item of work. Code is replaced by its parts in the order of evaluation and its finishing item.
#[derive(Drop)]
pub enum Work<'a> {
    /// A statement or an expression.
    Eval(CodeRef<'a>),
    /// The finishing item of this code, which takes the values of its operands and acts.
    Finish(CodeRef<'a>),
    /// The target of a plain assignment.
    Target(CodeRef<'a>),
    /// The finishing item of such a target.
    Nothing,
    /// The target of a compound assignment, of `++` or of `--`.
    OldValue(CodeRef<'a>),
    /// The finishing item of such a target: it makes the checks and reads the old value.
    ReadOld(CodeRef<'a>),
    /// What follows the body of a loop, and where a `continue` goes on.
    AfterBody(CodeRef<'a>),
    /// The end of a `switch`.
    Breakable,
    /// The `finally` of this `try`, round one of its catches.
    Finally(CodeRef<'a>),
    /// The initialization of a class, where it has not begun.
    Begin(TypeId),
    /// A completion other than the normal one.
    Exiting(Exit<'a>),
}
