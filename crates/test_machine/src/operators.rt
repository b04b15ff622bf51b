// Operators by their numbers.

use jr_core::{BinaryOp, StepOp, UnaryOp};

fn comparison(number: u32) -> BinaryOp {
    match number {
        8 => BinaryOp::Less,
        9 => BinaryOp::Greater,
        10 => BinaryOp::LessEqual,
        11 => BinaryOp::GreaterEqual,
        12 => BinaryOp::Equal,
        13 => BinaryOp::NotEqual,
        14 => BinaryOp::And,
        15 => BinaryOp::Xor,
        _ => BinaryOp::Or,
    }
}

pub fn binary_op(number: u32) -> BinaryOp {
    match number {
        0 => BinaryOp::Multiply,
        1 => BinaryOp::Divide,
        2 => BinaryOp::Remainder,
        3 => BinaryOp::Add,
        4 => BinaryOp::Subtract,
        5 => BinaryOp::ShiftLeft,
        6 => BinaryOp::ShiftRight,
        7 => BinaryOp::ShiftRightUnsigned,
        _ => comparison(number),
    }
}

pub fn unary_op(number: u32) -> UnaryOp {
    match number {
        0 => UnaryOp::Plus,
        1 => UnaryOp::Minus,
        2 => UnaryOp::Complement,
        _ => UnaryOp::Not,
    }
}

pub fn step_op(number: u32) -> StepOp {
    match number {
        0 => StepOp::Increment,
        _ => StepOp::Decrement,
    }
}
