// The numbers of the variables that are followed: the blank final fields of each body, or the locals of each member.

use crate::member::member_of;
use crate::parts::{body_of_field, is_blank};
use crate::scope::is_local;
use jr_base::OutOfMemory;
use jr_places::end_at;
use jr_tree::Row;
use std::alloc::Global;

/// For each row the number of the variable that it declares and the body or member that holds it, and how many variables each of these has.
#[derive(Drop)]
pub(crate) struct Numbers {
    numbers: Vec<Option<u32>>,
    holders: Vec<u32>,
    counts: Vec<u32>,
}

fn is_open_local(rows: &[Row], open: &[bool], at: u32) -> bool {
    match open.get(at as usize) {
        Some(is_open) => *is_open && is_local(rows, at as usize),
        None => false,
    }
}

fn put_owner(owners: &mut Vec<Option<u32>>, number: u32, variable: u32) {
    if let Some(owner) = owners.get_mut(number as usize) {
        *owner = Some(variable);
    }
}

impl Numbers {
    /// How many variables the body or member at a row has.
    pub(crate) fn count(&self, at: u32) -> u32 {
        match self.counts.get(at as usize) {
            Some(count) => *count,
            None => 0,
        }
    }

    /// How many words have a bit for each of these variables.
    pub(crate) fn words(&self, at: u32) -> u32 {
        self.count(at).saturating_add(63) / 64
    }

    /// For each row the number of the variable that it declares.
    pub(crate) fn all(&self) -> &[Option<u32>] {
        &self.numbers
    }

    // The number of the variable of the body or member that a row declares.
    fn number(&self, holder: u32, at: u32) -> Option<u32> {
        match (self.holders.get(at as usize), self.numbers.get(at as usize)) {
            (Some(held), Some(number)) => { if *held == holder { *number } else { None } }
            _ => None,
        }
    }

    /// The variable of each number, in the body or member at a row.
    pub(crate) fn owners(
        &self,
        alloc: Global,
        rows: &[Row],
        holder: u32,
    ) -> Result<Vec<Option<u32>>, OutOfMemory> {
        let mut owners = vec![in alloc; None; self.count(holder) as usize]?;
        for at in holder..end_at(rows, holder) {
            if let Some(number) = self.number(holder, at) {
                put_owner(&mut owners, number, at);
            }
        }
        Ok(owners)
    }

    // One variable more in a body or member.
    fn add(&mut self, holder: u32, at: u32) {
        let next = self.count(holder);
        if let Some(number) = self.numbers.get_mut(at as usize) {
            *number = Some(next);
        }
        if let Some(held) = self.holders.get_mut(at as usize) {
            *held = holder;
        }
        if let Some(count) = self.counts.get_mut(holder as usize) {
            *count = next.saturating_add(1);
        }
    }

    fn none(alloc: Global, rows: &[Row]) -> Result<Numbers, OutOfMemory> {
        Ok(Numbers {
            numbers: vec![in alloc; None; rows.len()]?,
            holders: vec![in alloc; 0u32; rows.len()]?,
            counts: vec![in alloc; 0u32; rows.len()]?,
        })
    }

    /// The numbers of blank final fields, by the bodies in which they stand.
    pub(crate) fn of_fields(
        alloc: Global,
        rows: &[Row],
        size: u32,
    ) -> Result<Numbers, OutOfMemory> {
        let mut all = Numbers::none(alloc, rows)?;
        for at in 0..size {
            if is_blank(rows, at) {
                all.add(body_of_field(rows, at), at);
            }
        }
        Ok(all)
    }

    /// The numbers of the locals that are marked, by the members that hold them.
    pub(crate) fn of_locals(
        alloc: Global,
        rows: &[Row],
        members: &[u32],
        open: &[bool],
        size: u32,
    ) -> Result<Numbers, OutOfMemory> {
        let mut all = Numbers::none(alloc, rows)?;
        for at in 0..size {
            if is_open_local(rows, open, at) {
                all.add(member_of(members, at), at);
            }
        }
        Ok(all)
    }
}
