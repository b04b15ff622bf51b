// Stacks of what was read.

use jr_base::{Boxed, Items};
use std::alloc::Global;

/// Puts an item on top.
pub fn put<T: Drop>(stack: &mut Vec<T>, item: T) -> Option<()> {
    match stack.push(item) {
        Ok(()) => Some(()),
        Err(_) => None,
    }
}

/// Adds an item to a list.
pub fn add<T: Drop>(items: &mut Items<T>, item: T) -> Option<()> {
    match items.push(item) {
        Ok(()) => Some(()),
        Err(_) => None,
    }
}

/// Takes the uppermost item off, into a box.
pub fn one<T: Drop>(alloc: Global, stack: &mut Vec<T>) -> Option<Boxed<T>> {
    match stack.pop() {
        None => None,
        Some(item) => match Boxed::new(alloc, item) {
            Ok(item) => Some(item),
            Err(_) => None,
        },
    }
}

/// Takes so many items off, the uppermost last; fewer, where there are not as many.
pub fn take<T: Drop>(alloc: Global, stack: &mut Vec<T>, count: usize) -> Option<Items<T>> {
    let mut items = Vec::new(alloc);
    for _ in 0..count {
        if let Some(item) = stack.pop() {
            put(&mut items, item)?;
        }
    }
    items.reverse();
    Some(Items::from_vec(items))
}
