// Whether a written row is the one that is to be written.
ghost use Rattle.std.specs.Prelude.{◌≡◌, ◌↔◌, ◌<◌, IsTrue, length, slice_index_or};
ghost use Rattle.jr_tree.specs.Rows as rows_of;
ghost use Rattle.jr_defs.specs.Referents.{entries};
ghost use Rattle.jr_defs.specs.Correspondence.{moved, moved_level};
ghost use Rattle.jr_tree.specs.declared.label.Label.TheVariants as is;
ghost use Rattle.jr_runs.specs.Planned.{seen_plan};
ghost use Rattle.jr_runs.specs.Respelled as spec;

use crate::item::{Form, Item, Refers};
use crate::labels::{is_call, is_name, is_this, is_type_use, same_label};
use crate::plan::Plan;
use jr_defs::Referent;
use jr_places::{name_at, parent_at};
use jr_shapes::{end_of, is_part};
use jr_tree::{Label, Row};

fn is_paren(label: &Label) -> bool
    ensures { IsTrue result ↔ (label.now ≡ is.Paren) }
{
    match label {
        Label::Paren => true,
        _ => false,
    }
}

fn is_cast(label: &Label) -> bool
    ensures { IsTrue result ↔ (label.now ≡ is.Cast) }
{
    match label {
        Label::Cast => true,
        _ => false,
    }
}

fn is_select(label: &Label) -> bool
    ensures { IsTrue result ↔ (label.now ≡ is.Select) }
{
    match label {
        Label::Select => true,
        _ => false,
    }
}

fn is_super_select(label: &Label) -> bool
    ensures { IsTrue result ↔ (label.now ≡ is.SuperSelect) }
{
    match label {
        Label::SuperSelect => true,
        _ => false,
    }
}

fn has_form(label: &Label, old: &Label, form: Form) -> bool
    ensures { IsTrue result ↔ (label.now ≡ spec.label_by old.now form) }
{
    match form {
        Form::Same => same_label(label, old),
        Form::Paren => is_paren(label),
        Form::Cast => is_cast(label),
        Form::Select => is_select(label),
        Form::SuperSelect => is_super_select(label),
        Form::TypeUse { primitive, dims } => is_type_use(label, primitive, dims),
        Form::This { is_qualified } => is_this(label, is_qualified),
        Form::Name {
            kind,
            place,
            is_qualified,
        } => is_name(label, kind, place, is_qualified),
        Form::Call { receiver } => is_call(label, receiver),
    }
}

fn has_label(rows: &[Row], of: u32, form: Form, label: &Label) -> bool
    ensures { IsTrue result ↔ (label.now ≡ spec.label_by (rows_of.label rows.now of) form) }
{
    match rows.get(of as usize) {
        Some(old) => has_form(label, &old.label, form),
        None => has_form(label, &Label::Skip, form),
    }
}

fn name_of(rows: &[Row], of: Option<u32>) -> &[u8]
    ensures { result.now ≡ spec.name_of rows.now of }
{
    match of {
        Some(row) => name_at(rows, row),
        None => &[],
    }
}

fn has_name(rows: &[Row], of: Option<u32>, name: &[u8]) -> bool
    ensures { IsTrue result ↔ (name.now ≡ spec.name_of rows.now of) }
{
    name == name_of(rows, of)
}

impl Plan {
    fn over_of(&self, rows: &[Row], of: u32, over: Option<usize>) -> usize
        ensures { result ≡ spec.over_of rows.now (seen_plan self.now) of over }
    {
        match over {
            Some(at) => at,
            None => self.copy(parent_at(rows, of)),
        }
    }

    fn stop_of(&self, rows: &[Row], of: u32, end: Option<usize>) -> usize
        ensures { result ≡ spec.stop_of rows.now (seen_plan self.now) of end }
    {
        match end {
            Some(at) => at,
            None => self.start(end_of(rows, of)),
        }
    }

    fn is_level(&self, old: Option<u32>, new: Option<u32>) -> bool
        ensures { IsTrue result ↔ (new ≡ moved_level (spec.copy (seen_plan self.now)) old) }
    {
        match old {
            Some(level) => match new {
                Some(other) => other as usize == self.copy(level),
                None => false,
            },
            None => new.is_none(),
        }
    }

    fn is_moved(&self, old: Referent, new: Referent) -> bool
        ensures { IsTrue result ↔ (new ≡ moved (spec.copy (seen_plan self.now)) old) }
    {
        match old {
            Referent::Declared { row, level } => match new {
                Referent::Declared {
                    row: other,
                    level: now,
                } => other as usize == self.copy(row) && self.is_level(level, now),
                _ => false,
            },
            Referent::Unbound => new == Referent::Unbound,
            Referent::Ambiguous => new == Referent::Ambiguous,
            Referent::ArrayLength => new == Referent::ArrayLength,
            Referent::Package => new == Referent::Package,
        }
    }

    fn agrees(&self, new_rows: &[Row], said: Refers, found: Referent) -> bool
        ensures { IsTrue result ↔ spec.Agrees (seen_plan self.now) new_rows.now said found }
    {
        match said {
            Refers::To(old) => self.is_moved(old, found),
            Refers::ToPart => is_part(new_rows, found),
        }
    }

    fn stands_so(&self, rows: &[Row], new: &Row, item: Item) -> bool
        ensures sound { IsTrue result → spec.StandsSo rows.now (seen_plan self.now) new.now item }
        ensures whole { spec.StandsSo rows.now (seen_plan self.now) new.now item → IsTrue result }
    {
        if !has_label(rows, item.of, item.form, &new.label) {
            return false;
        }
        if !has_name(rows, item.name, new.name.bytes()) {
            return false;
        }
        if new.parent as usize != self.over_of(rows, item.of, item.over) {
            return false;
        }
        new.end as usize == self.stop_of(rows, item.of, item.end)
    }

    /// The row of this number of the new program is the one that is to be written there.
    pub fn stands(
        &self,
        rows: &[Row],
        new_rows: &[Row],
        new_table: &[Referent],
        at: usize,
        item: Item,
    ) -> bool
        ensures sound { IsTrue result → spec.Stands rows.now (seen_plan self.now) new_rows.now (entries new_table.now) at item }
        ensures whole { spec.Stands rows.now (seen_plan self.now) new_rows.now (entries new_table.now) at item → IsTrue result }
    {
        if at >= new_rows.len() {
            return false;
        }
        if !self.stands_so(rows, &new_rows[at], item) {
            return false;
        }
        self.agrees(new_rows, item.refers, found_at(new_table, at))
    }
}

fn found_at(table: &[Referent], at: usize) -> Referent
    ensures { result ≡ entries table.now at }
{
    match table.get(at) {
        Some(found) => *found,
        None => Referent::Unbound,
    }
}
