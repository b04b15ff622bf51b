// Rows and their marks, as labels open and close and tokens are passed.
ghost use Rattle.std.specs.Prelude.{◌≡◌, ◌+◌, true, false, [], ◌∷◌, IfOk, IfSome, if◌then◌else◌};
ghost use Rattle.jr_index.specs.Events.{Open, Close, Pass, Own, OwnLast, Declare, Restart};
ghost use Rattle.jr_index.specs.Events as e;
ghost use Rattle.jr_index.specs.Marking as spec;
ghost use Rattle.jr_index.specs.Writing.{Adds, course};
ghost use Rattle.jr_tree.specs.Rows.{label};

use crate::building::Building;
use crate::mark::{Mark, NO_TOKEN};
use jr_base::{OutOfMemory, Text};
use jr_tree::{Label, Row};
use std::alloc::Global;

/// What is written so far. Once memory has failed it is worth nothing, and `finish` says so.
#[derive(Drop)]
pub struct RowWriter {
    pub alloc: Global,
    pub building: Building,
    pub marks: Vec<Mark>,
    /// How many tokens of the unit are passed.
    pub at: u32,
    /// The token of the type or constructor that was declared last.
    pub declared: u32,
    pub has_failed: bool,
}

/// The rows of a program, and a mark for each.
#[derive(Drop)]
pub struct MarkedRows {
    pub rows: Vec<Row>,
    pub marks: Vec<Mark>,
}

impl RowWriter {
    pub fn new(alloc: Global) -> RowWriter
        ensures { course result ≡ spec.start }
    {
        RowWriter {
            alloc,
            building: Building::new(alloc),
            marks: Vec::new(alloc),
            at: 0,
            declared: 0,
            has_failed: false,
        }
    }

    /// Memory has failed.
    pub fn fail(&mut self)
        ensures { self.new.has_failed ≡ true }
    {
        self.has_failed = true;
    }

    fn push_row(&mut self, label: Label, name: Text, mark: Mark)
        ensures { self.new.has_failed ≡ false → (self.old.has_failed ≡ false) × (course self.new ≡ spec.opened_with label name mark (course self.old)) }
    {
        if self.building.open(label, name).is_err() {
            self.has_failed = true;
        }
        if self.marks.push(mark).is_err() {
            self.has_failed = true;
        }
    }

    /// The mark of a row that opens: what is not written stands at the name that was declared last.
    fn new_mark(&self, label: &Label) -> Mark
        ensures { result ≡ spec.new_mark label.now (course self.now) }
    {
        if is_hidden(label) {
            Mark {
                first: self.declared,
                after: self.declared,
                own: self.declared,
            }
        } else {
            Mark {
                first: self.at,
                after: self.at,
                own: NO_TOKEN,
            }
        }
    }

    fn open_row(&mut self, label: Label, name: Text)
        ensures { Adds self.old self.new (Open label name ∷ []) }
    {
        let mark = self.new_mark(&label);
        self.push_row(label, name, mark)
    }

    /// Opens a label with an identifier.
    pub fn open(&mut self, label: Label, name: &Text)
        ensures { Adds self.old self.new (Open label name.now ∷ []) }
    {
        match name.copy(self.alloc) {
            Ok(name) => self.open_row(label, name),
            Err(_) => {
                drop(label);
                self.fail()
            }
        }
    }

    /// Opens a label without identifier.
    pub fn begin(&mut self, label: Label)
        ensures { Adds self.old self.new (Open label [] ∷ []) }
    {
        self.open_row(label, Text::new(Vec::new(self.alloc)))
    }

    /// Closes the innermost label that is open, which ends here if it is written.
    pub fn close(&mut self)
        ensures { Adds self.old self.new (Close ∷ []) }
    {
        if !self.is_hidden() {
            self.end_at(self.at);
        }
        if !self.building.close() {
            self.has_failed = true;
        }
    }

    /// A label with so many tokens and nothing below it.
    #[tactic(auto, using(crate::proofs::Adding::adds_two))]
    pub fn leaf(&mut self, label: Label, count: usize)
        ensures { Adds self.old self.new (Open label [] ∷ Pass count ∷ Close ∷ []) }
    {
        self.begin(label);
        self.pass(count);
        self.close();
    }

    /// Passes so many tokens.
    pub fn pass(&mut self, count: usize)
        ensures { Adds self.old self.new (Pass count ∷ []) }
    {
        match self.ahead(count) {
            Some(at) => self.at = at,
            None => self.fail(),
        }
    }

    /// The next token is that of the innermost row that is open.
    pub fn own(&mut self)
        ensures { Adds self.old self.new (Own ∷ []) }
    {
        self.own_at(self.at);
        match self.ahead(1) {
            Some(at) => self.at = at,
            None => self.fail(),
        }
    }

    /// The next token is that of the innermost row that is open, which declares a type or constructor.
    pub fn declare(&mut self)
        ensures { Adds self.old self.new (Declare ∷ []) }
    {
        self.declared = self.at;
        self.own_at(self.at);
        match self.ahead(1) {
            Some(at) => self.at = at,
            None => self.fail(),
        }
    }

    /// The token that was passed last is that of the innermost row that is open.
    pub fn own_last(&mut self)
        ensures { Adds self.old self.new (OwnLast ∷ []) }
    {
        self.own_at(self.at.saturating_sub(1));
    }

    /// The token of the innermost row that is open.
    fn own_at(&mut self, token: u32)
        ensures marks { self.new.marks.items ≡ spec.with_own self.old.marks.items self.old.building.over token }
        ensures rows { self.new.building ≡ self.old.building }
        ensures at { self.new.at ≡ self.old.at }
        ensures declared { self.new.declared ≡ self.old.declared }
        ensures failed { self.new.has_failed ≡ self.old.has_failed }
    {
        if let Some(mark) = self.marks.get_mut(self.building.over as usize) {
            mark.own = token;
        }
    }

    /// Whether the innermost row that is open is not written.
    fn is_hidden(&self) -> bool
        ensures { result ≡ spec.is_hidden (label self.now.building.rows.items self.now.building.over) }
    {
        match self.building.rows.get(self.building.over as usize) {
            Some(row) => is_hidden(&row.label),
            None => false,
        }
    }

    /// The innermost row that is open ends before this token.
    fn end_at(&mut self, token: u32)
        ensures marks { self.new.marks.items ≡ spec.with_end self.old.marks.items self.old.building.over token }
        ensures rows { self.new.building ≡ self.old.building }
        ensures at { self.new.at ≡ self.old.at }
        ensures declared { self.new.declared ≡ self.old.declared }
        ensures failed { self.new.has_failed ≡ self.old.has_failed }
    {
        if let Some(mark) = self.marks.get_mut(self.building.over as usize) {
            mark.after = token;
        }
    }

    /// Goes on at the first token of a unit, where the program alone is open.
    pub fn restart(&mut self)
        ensures { Adds self.old self.new (Restart ∷ []) }
    {
        if self.building.over == 0 {
            self.at = 0;
        }
    }

    /// Passes so many pairs of brackets.
    #[tactic(auto, using(crate::proofs::Adding::adds_two))]
    pub fn pass_brackets(&mut self, pairs: usize)
        ensures { Adds self.old self.new (e.brackets pairs) }
    {
        self.pass(pairs);
        self.pass(pairs);
    }

    /// Passes a token if it is there.
    pub fn pass_if(&mut self, is_there: bool)
        ensures { Adds self.old self.new (Pass (if is_there then 1 else 0) ∷ []) }
    {
        self.pass(is_there as usize)
    }

    /// The number of the token so many behind the next one, if it fits.
    fn ahead(&self, count: usize) -> Option<u32>
        ensures { IfSome result (λ next. next ≡ self.now.at + count) }
    {
        let Ok(count) = u32::try_from(count) else {
            return None;
        };
        self.at.checked_add(count)
    }

    /// The rows and marks, if memory never failed.
    pub fn finish(self) -> Result<MarkedRows, OutOfMemory>
        ensures failed { IfOk result (λ marked. self.has_failed ≡ false) }
        ensures rows { IfOk result (λ marked. marked.rows.items ≡ self.building.rows.items) }
        ensures marks { IfOk result (λ marked. marked.marks.items ≡ self.marks.items) }
    {
        if self.has_failed {
            return Err(OutOfMemory);
        }
        Ok(MarkedRows {
            rows: self.building.rows,
            marks: self.marks,
        })
    }
}

/// Whether a label is of what is not written: a constructor, or a call of one (JLS 8.8.7, 8.8.9).
fn is_hidden(label: &Label) -> bool
    ensures { result ≡ spec.is_hidden label.now }
{
    match label {
        Label::ImplicitCall => true,
        Label::DefaultConstructor => true,
        _ => false,
    }
}
