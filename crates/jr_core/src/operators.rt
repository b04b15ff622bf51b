// Operators (JLS 15.14 to 15.26).

/// An operator of two operands that evaluates both (JLS 15.17 to 15.22), also as part of a compound assignment (JLS 15.26.2).
#[derive(Clone, Copy, Debug, PartialEq, Eq)]
pub enum BinaryOp {
    Multiply,
    Divide,
    Remainder,
    Add,
    Subtract,
    ShiftLeft,
    ShiftRight,
    ShiftRightUnsigned,
    Less,
    Greater,
    LessEqual,
    GreaterEqual,
    Equal,
    NotEqual,
    And,
    Xor,
    Or,
}

/// An operator of one operand: `+`, `-`, `~` or `!` (JLS 15.15.3 to 15.15.6).
#[derive(Clone, Copy, Debug, PartialEq, Eq)]
pub enum UnaryOp {
    Plus,
    Minus,
    Complement,
    Not,
}

/// `++` or `--` (JLS 15.14, 15.15.1, 15.15.2).
#[derive(Clone, Copy, Debug, PartialEq, Eq)]
pub enum StepOp {
    Increment,
    Decrement,
}
