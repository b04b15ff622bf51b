// Places of rows, and rows at places.
ghost use Rattle.std.specs.Prelude.{◌≡◌, ◌<◌, ◌^◌, length, map, slice_get};
ghost use Rattle.jr_tree.specs.Rows.{label};
ghost use Rattle.jr_defs.specs.Program.{rows_of};
ghost use Rattle.jr_index.specs.Marking.{program_marks};
ghost use Rattle.jr_index.specs.NodeRows.{unit_rows};
ghost use Rattle.jr_marks.specs.Made.{AreMade};
ghost use Rattle.jr_marks.specs.Places as places;

use crate::searching::{count_up_to, identifier_at};
use jr_base::{CuId, Place, Token};
use jr_defs::{Program, UnitAt};
use jr_index::{Index, Mark, NO_TOKEN};
use jr_rule::{Fault, PlaceKind};
use jr_tree::{Label, Role, Row};

/// How many units the prelude has. They come first.
const PRELUDE: u32 = 2;

/// The rows of a program, where they stand among the tokens of their units, and the units.
#[derive(Clone, Copy)]
pub struct Marks<'p> {
    pub units: &'p [UnitAt],
    pub rows: &'p [Row],
    pub marks: &'p [Mark],
    /// The rows of the units.
    pub starts: &'p [u32],
}

impl<'p> Marks<'p> {
    #[tactic(auto, using(crate::proofs::Made::made_by))]
    /// The marks of a program, by its index.
    pub fn of(program: &'p Program, index: &'p Index) -> Marks<'p>
        ensures units { result.units.now ≡ program.now.units }
        ensures rows { result.rows.now ≡ index.now.rows }
        ensures marks { result.marks.now ≡ index.now.marks }
        ensures starts { result.starts.now ≡ unit_rows index.now.rows (length index.now.rows) }
        ensures few { length result.rows.now < 2 ^ 32 }
        ensures made { index.now.rows ≡ rows_of program.now → index.now.marks ≡ program_marks (map (λ u. u.unit) program.now.units) → AreMade program.now result }
    {
        Marks {
            units: program.units.as_slice(),
            rows: index.rows(),
            marks: index.marks(),
            starts: index.units(),
        }
    }

    /// The number of the unit in which a row stands; 0 for the row of the program.
    pub fn unit_of(&self, row: u32) -> u32
        ensures { places.IsOrdered self.now → result ≡ places.unit_of self.now row }
    {
        let count = count_up_to(self.starts, row);
        u32::try_from(count).unwrap_or(NO_TOKEN).saturating_sub(1)
    }

    /// The place of an occurrence or declaration: the identifier by which the row refers or that it declares, else its first token.
    pub fn name_place(&self, row: u32) -> Place
        ensures { places.IsOrdered self.now → result ≡ places.place_of_name self.now row }
    {
        self.token_place(row, own_or_first(self.mark(row)))
    }

    /// The place of a node of flow: its first token, or the identifier that it declares.
    pub fn node_place(&self, row: u32) -> Place {
        if declares(self.rows, row) {
            self.name_place(row)
        } else {
            self.first_place(row)
        }
    }

    /// The place at which a broken rule is shown.
    pub fn fault_place(&self, fault: Fault) -> Place
        ensures { places.IsOrdered self.now → result ≡ places.place_of_fault self.now fault }
    {
        match fault.rule.place() {
            PlaceKind::Name => self.name_place(fault.row),
            PlaceKind::First => self.first_place(fault.row),
        }
    }

    /// The row whose identifier holds the offset: what declares or refers by a name. What is not written and creations, which share the
    /// identifier of another row, are passed over.
    pub fn row_at(&self, unit: u32, offset: u32) -> Option<u32>
        ensures { places.IsOrdered self.now → result ≡ places.row_at_offset self.now unit offset }
    {
        let token = identifier_at(self.tokens(unit), offset)?;
        let start = *self.starts.get(unit as usize)?;
        self.row_in(start, token)
    }

    // The first row from this one on, up to its end, whose own identifier is the token.
    fn row_in(&self, start: u32, token: u32) -> Option<u32>
        ensures { result ≡ places.row_in self.now start token }
    {
        match self.rows.get(start as usize) {
            Some(row) => self.first_named(start, row.end, token),
            None => None,
        }
    }

    fn first_named(&self, start: u32, end: u32, token: u32) -> Option<u32>
        ensures { result ≡ places.first_named self.now start end token }
    {
        for row in start..end {
            if self.is_named_by(token, row) {
                return Some(row);
            }
        }
        None
    }

    // The row's own identifier is this token.
    fn is_named_by(&self, token: u32, row: u32) -> bool
        ensures { result ≡ places.is_named_by self.now token row }
    {
        self.mark(row).own == token && has_own_name(self.rows, row)
    }

    /// The place of the first token of a row.
    fn first_place(&self, row: u32) -> Place
        ensures { places.IsOrdered self.now → result ≡ places.place_of_first self.now row }
    {
        self.token_place(row, self.mark(row).first)
    }

    /// The mark of a row; that of no token past the last row.
    pub fn mark(&self, row: u32) -> Mark
        ensures { result ≡ places.mark_of self.now row }
    {
        match self.marks.get(row as usize) {
            Some(mark) => *mark,
            None => Mark {
                first: NO_TOKEN,
                after: NO_TOKEN,
                own: NO_TOKEN,
            },
        }
    }

    fn tokens(&self, unit: u32) -> &'p [Token]
        ensures { result.now ≡ places.tokens_of self.now unit }
    {
        match self.units.get(unit as usize) {
            Some(placed) => placed.tokens.as_slice(),
            None => &[],
        }
    }

    /// The place of a token of the unit of a row; 0 in the prelude, and where there is no such token.
    fn token_place(&self, row: u32, token: u32) -> Place
        ensures { places.IsOrdered self.now → result ≡ places.place_in self.now (places.unit_of self.now row) token }
    {
        let unit = self.unit_of(row);
        let mut at = 0;
        if unit >= PRELUDE {
            at = start_of(self.tokens(unit), token);
        }
        Place { cu: CuId(unit), at }
    }
}

fn own_or_first(mark: Mark) -> u32
    ensures { result ≡ places.own_or_first mark }
{
    if mark.own == NO_TOKEN {
        mark.first
    } else {
        mark.own
    }
}

fn start_of(tokens: &[Token], number: u32) -> u32
    ensures { result ≡ places.start_by (slice_get tokens.now number) }
{
    match tokens.get(number as usize) {
        Some(token) => token.span.start,
        None => 0,
    }
}

fn declares(rows: &[Row], at: u32) -> bool {
    match rows.get(at as usize) {
        Some(row) => row.label.role() != Role::Nothing,
        None => false,
    }
}

/// Whether the identifier of a row is its own alone.
fn has_own_name(rows: &[Row], at: u32) -> bool
    ensures { result ≡ places.has_own_name rows.now at }
{
    let Some(row) = rows.get(at as usize) else {
        return false;
    };
    match row.label {
        Label::DefaultConstructor => false,
        Label::ImplicitCall => false,
        Label::New => false,
        _ => true,
    }
}
