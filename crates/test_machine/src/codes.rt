// Code from its operands. Each function takes a line, whose second number says what it makes, and all operands.

use crate::line::{any_decl, decl, number};
use crate::operators::{binary_op, step_op, unary_op};
use crate::stacks::put;
use jr_base::{Boxed, Const, Items, Ty, TypeId, Units};
use jr_core::Code;
use std::alloc::Global;

/// The units from the third number on.
pub fn units(alloc: Global, line: &[u32]) -> Option<Units> {
    let mut units = Vec::new(alloc);
    for number in line.iter().skip(2) {
        put(&mut units, (*number % 65536) as u16)?;
    }
    Some(Units::new(units))
}

/// A constant other than a string.
fn plain_constant(line: &[u32]) -> Const {
    let value = number(line, 2);
    match number(line, 1) {
        0 => Const::Bool(value == 1),
        1 => Const::Byte(((value % 256) as u8).cast_signed()),
        2 => Const::Short(((value % 65536) as u16).cast_signed()),
        3 => Const::Char((value % 65536) as u16),
        4 => Const::Int(value.cast_signed()),
        _ => {
            let low = u64::from(number(line, 3));
            Const::Long((u64::from(value) * 4294967296 + low).cast_signed())
        }
    }
}

pub fn constant(alloc: Global, line: &[u32]) -> Option<Const> {
    if number(line, 1) < 6 {
        return Some(plain_constant(line));
    }
    match units(alloc, line) {
        Some(units) => Some(Const::Str(units)),
        None => None,
    }
}

fn leaf_stmt(line: &[u32]) -> Code {
    let label = any_decl(number(line, 2), number(line, 3));
    match number(line, 1) {
        5 => Code::Break { label },
        6 => Code::Continue { label },
        7 => Code::Return { value: None },
        _ => Code::Skip,
    }
}

pub fn leaf(line: &[u32]) -> Code {
    let decl = decl(number(line, 2), number(line, 3));
    match number(line, 1) {
        0 => Code::Lit { value: None },
        1 => Code::This {
            class: TypeId(decl),
        },
        2 => Code::Var { local: decl },
        3 => Code::FieldAt {
            on: None,
            field: decl,
        },
        4 => Code::Local {
            local: decl,
            init: None,
        },
        _ => leaf_stmt(line),
    }
}

fn one_stmt(line: &[u32], value: Boxed<Code>) -> Code {
    let decl = decl(number(line, 2), number(line, 3));
    match number(line, 1) {
        6 => Code::Local {
            local: decl,
            init: Some(value),
        },
        7 => Code::Eval { value },
        8 => Code::Labeled {
            label: decl,
            body: value,
        },
        9 => Code::Return { value: Some(value) },
        _ => Code::Throw { value },
    }
}

pub fn of_one(line: &[u32], value: Boxed<Code>) -> Code {
    let named = number(line, 2);
    match number(line, 1) {
        0 => Code::Unary {
            op: unary_op(named),
            value,
        },
        1 => Code::PreStep {
            op: step_op(named),
            target: value,
        },
        2 => Code::PostStep {
            target: value,
            op: step_op(named),
        },
        3 => Code::FieldAt {
            on: Some(value),
            field: decl(named, number(line, 3)),
        },
        4 => Code::Length { array: value },
        5 => Code::Show { value },
        _ => one_stmt(line, value),
    }
}

pub fn of_type(line: &[u32], ty: Ty, value: Boxed<Code>) -> Code {
    match number(line, 1) {
        0 => Code::Cast { ty, value },
        _ => Code::IsA { value, ty },
    }
}

fn two_stmt(line: &[u32], left: Boxed<Code>, right: Boxed<Code>) -> Code {
    match number(line, 1) {
        6 => Code::Do {
            body: left,
            cond: right,
        },
        7 => Code::While {
            cond: left,
            body: right,
        },
        _ => Code::If {
            cond: left,
            yes: right,
            no: None,
        },
    }
}

pub fn of_two(line: &[u32], left: Boxed<Code>, right: Boxed<Code>) -> Code {
    let op = binary_op(number(line, 2));
    match number(line, 1) {
        0 => Code::Binary { left, op, right },
        1 => Code::AndAlso { left, right },
        2 => Code::OrElse { left, right },
        3 => Code::Index {
            array: left,
            at: right,
        },
        4 => Code::Assign {
            target: left,
            op: None,
            value: right,
        },
        5 => Code::Assign {
            target: left,
            op: Some(op),
            value: right,
        },
        _ => two_stmt(line, left, right),
    }
}

pub fn of_three(line: &[u32], cond: Boxed<Code>, yes: Boxed<Code>, no: Boxed<Code>) -> Code {
    match number(line, 1) {
        0 => Code::Cond { cond, yes, no },
        _ => Code::If {
            cond,
            yes,
            no: Some(no),
        },
    }
}

pub fn of_list(line: &[u32], args: Items<Code>) -> Code {
    let decl = decl(number(line, 3), number(line, 4));
    let form = number(line, 1);
    match form {
        0 => Code::Nest { stmts: args },
        1 => Code::New {
            outer: None,
            ctor: decl,
            args,
        },
        2 | 3 => Code::CtorCall {
            is_super: form == 3,
            ctor: decl,
            args,
        },
        _ => Code::Call {
            receiver: None,
            is_super: form == 5,
            method: decl,
            args,
        },
    }
}

pub fn of_call(line: &[u32], on: Boxed<Code>, args: Items<Code>) -> Code {
    let decl = decl(number(line, 3), number(line, 4));
    match number(line, 1) {
        0 => Code::Call {
            receiver: Some(on),
            is_super: false,
            method: decl,
            args,
        },
        _ => Code::New {
            outer: Some(on),
            ctor: decl,
            args,
        },
    }
}

pub fn of_array(alloc: Global, line: &[u32], ty: Ty, list: Items<Code>) -> Code {
    match number(line, 1) {
        0 => Code::NewArray {
            ty,
            dims: list,
            init: None,
        },
        _ => Code::NewArray {
            ty,
            dims: Items::new(alloc),
            init: Some(list),
        },
    }
}

pub fn plain_type(line: &[u32]) -> Ty {
    match number(line, 1) {
        0 => Ty::Boolean,
        1 => Ty::Byte,
        2 => Ty::Short,
        3 => Ty::Char,
        4 => Ty::Int,
        5 => Ty::Long,
        6 => Ty::Void,
        _ => Ty::Class(TypeId(decl(number(line, 2), number(line, 3)))),
    }
}
