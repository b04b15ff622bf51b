// The numbers of a line.

use crate::stacks::put;
use jr_base::{CuId, DeclId, NodeAt, NodeId, TypeId};
use std::alloc::Global;

/// The numbers of a line.
pub fn numbers(alloc: Global, text: &str) -> Option<Vec<u32>> {
    let mut numbers = Vec::new(alloc);
    for word in text.split_whitespace() {
        let number = word.parse::<u32>().unwrap_or(0);
        put(&mut numbers, number)?;
    }
    Some(numbers)
}

/// The number at this place, and 0 where there is none.
pub fn number(line: &[u32], at: usize) -> u32 {
    match line.get(at) {
        Some(number) => *number,
        None => 0,
    }
}

/// The count at this place, and 0 where there is none.
pub fn count(line: &[u32], at: usize) -> usize {
    number(line, at) as usize
}

/// The declaration of this number in this unit.
pub fn decl(unit: u32, node: u32) -> DeclId {
    DeclId {
        at: NodeAt {
            cu: CuId(unit),
            node: NodeId(node),
        },
        part: 0,
    }
}

/// The declaration, if the number is not 0.
pub fn any_decl(unit: u32, node: u32) -> Option<DeclId> {
    if node == 0 {
        None
    } else {
        Some(decl(unit, node))
    }
}

/// The class, if the number is not 0.
pub fn any_class(unit: u32, node: u32) -> Option<TypeId> {
    if node == 0 {
        None
    } else {
        Some(TypeId(decl(unit, node)))
    }
}
