// Operators of a core (JLS 15.14 to 15.26).
ghost use Rattle.std.specs.Prelude.{◌≡◌, Some, IfOk};
ghost use Rattle.jr_plain.specs.Typing as typing;
ghost use Rattle.jr_codes.specs.Symbols as plain;

use jr_base::{OutOfMemory, Symbol};
use jr_core::{BinaryOp, StepOp, UnaryOp};

/// An operator that evaluates both operands.
pub fn binary_operator(symbol: Symbol) -> Result<BinaryOp, OutOfMemory>
    ensures { IfOk result (λ op. plain.binary_op symbol ≡ Some op) }
{
    match symbol {
        Symbol::Star => Ok(BinaryOp::Multiply),
        Symbol::Slash => Ok(BinaryOp::Divide),
        Symbol::Percent => Ok(BinaryOp::Remainder),
        Symbol::Plus => Ok(BinaryOp::Add),
        Symbol::Minus => Ok(BinaryOp::Subtract),
        Symbol::ShiftLeft => Ok(BinaryOp::ShiftLeft),
        Symbol::ShiftRight => Ok(BinaryOp::ShiftRight),
        Symbol::ShiftRightUnsigned => Ok(BinaryOp::ShiftRightUnsigned),
        Symbol::Less => Ok(BinaryOp::Less),
        Symbol::Greater => Ok(BinaryOp::Greater),
        Symbol::LessEqual => Ok(BinaryOp::LessEqual),
        Symbol::GreaterEqual => Ok(BinaryOp::GreaterEqual),
        Symbol::Equal => Ok(BinaryOp::Equal),
        Symbol::NotEqual => Ok(BinaryOp::NotEqual),
        Symbol::And => Ok(BinaryOp::And),
        Symbol::Caret => Ok(BinaryOp::Xor),
        Symbol::Or => Ok(BinaryOp::Or),
        _ => Err(OutOfMemory),
    }
}

/// The operator is `+`.
pub fn is_plus(symbol: Symbol) -> bool
    ensures { result ≡ typing.is_plus symbol }
{
    match symbol {
        Symbol::Plus => true,
        _ => false,
    }
}

/// An operator of one operand.
pub fn unary_operator(symbol: Symbol) -> Result<UnaryOp, OutOfMemory>
    ensures { IfOk result (λ op. plain.unary_op symbol ≡ Some op) }
{
    match symbol {
        Symbol::Plus => Ok(UnaryOp::Plus),
        Symbol::Minus => Ok(UnaryOp::Minus),
        Symbol::Tilde => Ok(UnaryOp::Complement),
        Symbol::Not => Ok(UnaryOp::Not),
        _ => Err(OutOfMemory),
    }
}

/// `++` or `--`.
pub fn step_operator(symbol: Symbol) -> Result<StepOp, OutOfMemory>
    ensures { IfOk result (λ op. plain.step_op symbol ≡ Some op) }
{
    match symbol {
        Symbol::PlusPlus => Ok(StepOp::Increment),
        Symbol::MinusMinus => Ok(StepOp::Decrement),
        _ => Err(OutOfMemory),
    }
}
