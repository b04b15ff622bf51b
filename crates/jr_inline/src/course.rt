// What becomes of each row where a local is inlined.
ghost use Rattle.std.specs.Prelude.{◌≡◌, IfOk, OnOk};
ghost use Rattle.jr_marks.specs.Places.{IsOrdered};
ghost use Rattle.jr_inline.specs.Inlining as spec;

use crate::form::{Form, cast_of, is_name};
use crate::local::{Local, is_row, refers_by};
use crate::removal::{Joined, Removal, is_gone, joined_by};
use jr_base::OutOfMemory;
use jr_change::{Project, RowRange};
use jr_defs::{Referent, RowType};
use jr_draft::Draft;
use jr_places::parent_at;
use jr_shapes::end_of;
use jr_tree::{Label, ReceiverKind, Row};

/// What becomes of a row.
#[derive(Clone, Copy)]
pub enum Fate {
    /// A copy stands in its place.
    Kept,
    /// A copy with another label stands in its place.
    Turned,
    /// Nothing stands in its place.
    Gone,
    /// The initializer stands in its place.
    Replaced,
    /// A copy of that row stands in its place.
    Instead(u32),
}

/// A local of a program that is inlined, and what goes with it.
#[derive(Clone, Copy)]
pub struct Inlining<'a> {
    pub rows: &'a [Row],
    /// What the rows refer to.
    pub table: &'a [Referent],
    pub local: Local,
    pub removal: Removal,
    pub joined: Option<Joined>,
    /// The declared type, where the initializer has another one.
    pub cast: Option<RowType>,
}

fn is_name_receiver(receiver: ReceiverKind) -> bool
    ensures { result ≡ spec.is_name_receiver receiver }
{
    matches!(receiver, ReceiverKind::Name)
}

// The row is a call with a name before its dot.
fn is_call_of_name(rows: &[Row], at: u32) -> bool
    ensures { result ≡ spec.is_call_of_name rows.now at }
{
    match rows.get(at as usize) {
        Some(row) => match row.label {
            Label::Call { receiver } => is_name_receiver(receiver),
            _ => false,
        },
        None => false,
    }
}

fn is_for(rows: &[Row], at: u32) -> bool
    ensures { result ≡ spec.is_for rows.now at }
{
    match rows.get(at as usize) {
        Some(row) => matches!(row.label, Label::For { .. }),
        None => false,
    }
}

// These rows begin right below the row, and behind it.
fn begins_with(rows: &[Row], gone: RowRange, at: u32) -> bool
    ensures { result ≡ spec.begins_with rows.now gone at }
{
    parent_at(rows, gone.first) == at && gone.first == at.saturating_add(1)
}

// What becomes of a row of two groups that become one: the copy of the second stands in place of the first.
fn fate_in(joined: Joined, at: u32) -> Fate
    ensures { result ≡ spec.fate_in joined at }
{
    if at == joined.first {
        Fate::Instead(joined.next)
    } else if at == joined.next {
        Fate::Gone
    } else {
        Fate::Kept
    }
}

// The same, where there may be no such groups.
fn joined_fate(joined: Option<Joined>, at: u32) -> Fate
    ensures { result ≡ spec.joined_fate joined at }
{
    match joined {
        Some(joined) => fate_in(joined, at),
        None => Fate::Kept,
    }
}

fn is_kept(fate: Fate) -> bool
    ensures { result ≡ spec.is_kept fate }
{
    matches!(fate, Fate::Kept)
}

/// The initializer stands in place of the row.
pub fn is_replaced(fate: Fate) -> bool
    ensures { result ≡ spec.is_replaced fate }
{
    matches!(fate, Fate::Replaced)
}

impl<'a> Inlining<'a> {
    /// The inlining of a local.
    pub fn of(old: &'a Project<'a>, local: Local) -> Inlining<'a>
        ensures local_is { result.local ≡ local }
        ensures plan { IsOrdered old.now.marks → spec.IsPlanOf old.now local (spec.plan_by result) }
    {
        let rows = old.marks.rows;
        let removal = Removal::of(&old.marks, local);
        let joined = joined_by(rows, removal.rows);
        let cast = cast_of(old, local);
        Inlining {
            rows,
            table: old.view.sight.world.under.table,
            local,
            removal,
            joined,
            cast,
        }
    }

    // The row refers to the local.
    fn is_use(&self, at: u32) -> bool
        ensures { result ≡ spec.is_use (spec.plan_by self.now) at }
    {
        is_row(refers_by(self.table, at), self.local.declarator)
    }

    // The row is the last identifier of a name whose first one, which is the last row below it, refers to the local.
    fn begins_with_local(&self, at: u32) -> bool
        ensures { result ≡ spec.begins_with_local (spec.plan_by self.now) at }
    {
        is_name(self.rows, at) && self.is_use(end_of(self.rows, at).saturating_sub(1))
    }

    // The row is a `for` whose first part goes.
    fn loses_first_part(&self, at: u32) -> bool
        ensures { result ≡ spec.loses_first_part (spec.plan_by self.now) at }
    {
        is_for(self.rows, at) && begins_with(self.rows, self.removal.rows, at)
    }

    // The row keeps its place, but not its label: of a longer name a selection is left, which is no name before the dot of a call.
    fn is_turned(&self, at: u32) -> bool
        ensures { result ≡ spec.is_turned (spec.plan_by self.now) at }
    {
        if is_call_of_name(self.rows, at) {
            self.begins_with_local(at.saturating_add(1))
        } else {
            self.begins_with_local(at) || self.loses_first_part(at)
        }
    }

    /// What becomes of a row.
    pub fn fate(&self, at: u32) -> Fate
        ensures { result ≡ spec.fate_of (spec.plan_by self.now) at }
    {
        if is_gone(self.removal.rows, at) {
            Fate::Gone
        } else if self.is_use(at) {
            Fate::Replaced
        } else if self.is_turned(at) {
            Fate::Turned
        } else {
            joined_fate(self.joined, at)
        }
    }

    /// The form in which the initializer stands in place of a use.
    pub fn form(&self, used: u32) -> Form
        ensures { result ≡ spec.form_at (spec.plan_by self.now) used }
    {
        Form::of(self.rows, self.local.value, self.cast, used)
    }

    // Adds what stands in place of a row.
    fn add_fate(&self, draft: &mut Draft, at: u32, fate: Fate) -> Result<(), OutOfMemory>
        ensures { OnOk result (draft.new ≡ spec.fate_rows fate (spec.plan_by self.now) at draft.old) }
    {
        match fate {
            Fate::Kept => draft.copy(at, at.saturating_add(1)),
            Fate::Turned => draft.turned(at),
            Fate::Gone => Ok(()),
            Fate::Replaced => self.form(at).add_rows(draft, self.rows, self.local.value),
            Fate::Instead(row) => draft.copy(row, row.saturating_add(1)),
        }
    }

    // Adds the rows that stay before a row that does not, and what stands in place of that. It gives the row behind it.
    fn add_past(&self, draft: &mut Draft, at: u32, kept: u32) -> Result<u32, OutOfMemory>
        ensures { IfOk result (λ behind. record { draft = draft.new; first = behind }
            ≡ spec.past_row (spec.plan_by self.now) at (record { draft = draft.old; first = kept })) }
    {
        draft.copy(kept, at)?;
        self.add_fate(draft, at, self.fate(at))?;
        Ok(at.saturating_add(1))
    }

    // Adds a row, unless it stays: then it is copied with those beside it. It gives the first of those that are to be copied.
    fn add_row(&self, draft: &mut Draft, at: u32, kept: u32) -> Result<u32, OutOfMemory>
        ensures { IfOk result (λ behind. record { draft = draft.new; first = behind }
            ≡ spec.with_row (spec.plan_by self.now) at (record { draft = draft.old; first = kept })) }
    {
        if is_kept(self.fate(at)) {
            Ok(kept)
        } else {
            self.add_past(draft, at, kept)
        }
    }

    // Adds what becomes of the rows from the first up to before the last one.
    fn add_between(&self, draft: &mut Draft, first: u32, behind: u32) -> Result<(), OutOfMemory>
        ensures { OnOk result (draft.new ≡ spec.rows_between (spec.plan_by self.now) first behind draft.old) }
    {
        let mut kept = first;
        for at in first..behind {
            kept = self.add_row(draft, at, kept)?;
        }
        draft.copy(kept, behind)?;
        Ok(())
    }

    /// Adds what becomes of a row and all below it.
    pub fn add_rows(&self, draft: &mut Draft, over: u32) -> Result<(), OutOfMemory>
        ensures { OnOk result (draft.new ≡ spec.with_rows (spec.plan_by self.now) over draft.old) }
    {
        self.add_between(draft, over, end_of(self.rows, over))
    }
}
