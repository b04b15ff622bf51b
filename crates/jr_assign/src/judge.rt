// Whether the locals that the rows of a member read are assigned there, by the table of the member.
ghost use Rattle.std.specs.Prelude.{◌≡◌, ◌<◌, ◌^◌, None, OnOk, Some, slice_index_or, slice_set};
ghost use Rattle.jr_tree.specs.Rows.{label};
ghost use Rattle.jr_assign.specs.Assigned.{guarded_in};
ghost use Rattle.jr_assign.specs.Changes.{member_in};
ghost use Rattle.jr_assign.specs.Judged as tell;
ghost use Rattle.jr_assign.specs.Walked.{frame_of, IsTableOf};

use crate::course::{Course, is_row};
use jr_base::OutOfMemory;
use jr_tree::Label;

/// What is known of the variables and rows of a member besides: the variable of each number, and the member that holds each row.
#[derive(Clone, Copy)]
pub(crate) struct Owners<'a> {
    pub(crate) owners: &'a [Option<u32>],
    pub(crate) members: &'a [u32],
}

fn member_in(members: &[u32], at: usize) -> usize
    ensures { result ≡ member_in members.now at }
{
    match members.get(at) {
        Some(member) => *member as usize,
        None => 0,
    }
}

fn owner_of(owners: &[Option<u32>], number: u32) -> Option<u32>
    ensures { result ≡ slice_index_or owners.now number None }
{
    match owners.get(number as usize) {
        Some(owner) => *owner,
        None => None,
    }
}

/// No other variable has this number.
pub(crate) fn is_owner(owners: &[Option<u32>], number: Option<u32>, variable: usize) -> bool
    ensures { result ≡ tell.is_owner owners.now number variable }
{
    match number {
        None => true,
        Some(number) => is_row(owner_of(owners, number), variable),
    }
}

/// Says of a row whether its variable is assigned.
pub(crate) fn put(verdicts: &mut Vec<Option<bool>>, at: usize, is_assigned: bool)
    ensures { verdicts.new.items ≡ slice_set verdicts.old.items at (Some is_assigned) }
{
    if at < verdicts.len() {
        verdicts[at] = Some(is_assigned);
    }
}

impl<'a> Course<'a> {
    fn number(self, variable: usize) -> Option<u32>
        ensures { result ≡ tell.number self.entry variable }
    {
        match self.numbers.get(variable) {
            Some(number) => *number,
            None => None,
        }
    }

    fn is_owned(self, owners: &[Option<u32>], variable: usize) -> bool
        ensures { result ≡ tell.is_owned self.entry owners.now variable }
    {
        is_owner(owners, self.number(variable), variable)
    }

    fn is_owned_if(self, owners: &[Option<u32>], variable: Option<u32>) -> bool
        ensures { result ≡ tell.is_owned_if self.entry owners.now variable }
    {
        match variable {
            None => true,
            Some(variable) => self.is_owned(owners, variable as usize),
        }
    }

    fn is_declared_owned(self, owners: &[Option<u32>], at: usize) -> bool
        ensures { result ≡ tell.is_declared_owned (label self.entry.rows.now at) self.entry owners.now at }
    {
        match self.rows.get(at) {
            Some(row) => match row.label {
                Label::Local { .. } => self.is_owned(owners, at),
                _ => true,
            },
            None => true,
        }
    }

    fn is_owned_at(self, owners: &[Option<u32>], at: usize) -> bool
        ensures { result ≡ tell.is_owned_at self.entry owners.now at }
    {
        self.is_declared_owned(owners, at) && self.is_owned_if(owners, self.fact(at).assigned)
    }

    /// The variables that the member declares and assigns have numbers of their own.
    pub(crate) fn are_owned(self, owners: &[Option<u32>]) -> bool
        requires { self.root < 2 ^ 32 }
        ensures { result ≡ tell.are_owned self.entry owners.now }
    {
        let mut are = true;
        for inside in 0..self.size() {
            let is_here = self.is_owned_at(owners, self.root + inside);
            are = are && is_here;
        }
        are
    }

    fn is_asked(self, start: u64, round: Owners, variable: usize, at: usize) -> bool
        ensures { result ≡ tell.is_asked self.entry start round.entry.owners.now round.entry.members.now variable at }
    {
        let mask = self.mask(variable);
        mask != 0
            && start & mask == 0
            && self.is_owned(round.owners, variable)
            && member_in(round.members, at) == self.root
    }

    fn judge_at(self, start: u64, round: Owners, at: usize, verdicts: &mut Vec<Option<bool>>)
        ensures { verdicts.new.items ≡ tell.judged_at self.entry start round.entry.owners.now round.entry.members.now at verdicts.old.items }
    {
        match self.fact(at).read {
            None => {}
            Some(variable) => {
                let variable = variable as usize;
                if self.is_asked(start, round, variable, at) {
                    let is_assigned = self.seen(at).before & self.mask(variable) != 0;
                    put(verdicts, at, is_assigned);
                }
            }
        }
    }

    fn judge_all(self, start: u64, round: Owners, verdicts: &mut Vec<Option<bool>>)
        requires { self.root < 2 ^ 32 }
        ensures { tell.IsConfirmed self.entry start round.entry.owners.now → tell.AreJudged self.entry.rows.now self.entry.facts.now round.entry.members.now verdicts.old.items → tell.AreJudged self.entry.rows.now self.entry.facts.now round.entry.members.now verdicts.new.items }
    {
        for inside in 0..self.size() {
            let at = self.root + inside;
            self.judge_at(start, round, at, verdicts);
        }
    }

    /// Judges the rows of the member, by its table.
    pub(crate) fn judge(
        self,
        start: u64,
        round: Owners,
        verdicts: &mut Vec<Option<bool>>,
    ) -> Result<(), OutOfMemory>
        requires guarded { self.guarded.now ≡ guarded_in self.rows.now self.root }
        requires few { self.root < 2 ^ 32 }
        ensures { IsTableOf (frame_of self.entry) start self.entry.seen.now → OnOk result (tell.AreJudged self.entry.rows.now self.entry.facts.now round.entry.members.now verdicts.old.items → tell.AreJudged self.entry.rows.now self.entry.facts.now round.entry.members.now verdicts.new.items) }
    {
        if !self.are_owned(round.owners) {
            return Err(OutOfMemory);
        }
        self.judge_all(start, round, verdicts);
        Ok(())
    }
}
