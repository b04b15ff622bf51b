// The local that is inlined.
ghost use Rattle.std.specs.Prelude.{◌≡◌};
ghost use Rattle.jr_inline.specs.Inlinable as spec;

use jr_change::Project;
use jr_defs::Referent;
use jr_places::{parent_at, role_at};
use jr_shapes::end_of;
use jr_tree::{Label, Role, Row};

/// A local with an expression as initializer, by rows (JLS 14.4).
#[derive(Clone, Copy)]
pub struct Local {
    pub declarator: u32,
    /// The declaration in which the declarator stands: a statement, or the first part of a `for`.
    pub statement: u32,
    /// The expression.
    pub value: u32,
}

fn is_value(rows: &[Row], at: u32) -> bool
    ensures { result ≡ spec.is_value rows.now at }
{
    match rows.get(at as usize) {
        Some(row) => matches!(row.label, Label::Value),
        None => false,
    }
}

fn is_paren(rows: &[Row], at: u32) -> bool
    ensures { result ≡ spec.is_paren rows.now at }
{
    match rows.get(at as usize) {
        Some(row) => matches!(row.label, Label::Paren),
        None => false,
    }
}

/// The row is a group of a switch (JLS 14.11).
pub fn is_group(rows: &[Row], at: u32) -> bool
    ensures { result ≡ spec.is_group rows.now at }
{
    match rows.get(at as usize) {
        Some(row) => matches!(row.label, Label::Group),
        None => false,
    }
}

// The row assigns to its first operand (JLS 15.14, 15.15, 15.26).
fn is_assignment(rows: &[Row], at: u32) -> bool
    ensures { result ≡ spec.is_assignment rows.now at }
{
    match rows.get(at as usize) {
        Some(row) => match row.label {
            Label::PostStep { .. } => true,
            Label::PreStep { .. } => true,
            Label::Assign { .. } => true,
            _ => false,
        },
        None => false,
    }
}

/// The row declares a local variable.
pub fn is_local(rows: &[Row], at: u32) -> bool
    ensures { result ≡ spec.is_local rows.now at }
{
    match role_at(rows, at) {
        Role::Local => true,
        _ => false,
    }
}

// The initializer of a local is an expression.
fn has_value(rows: &[Row], declared: u32) -> bool
    ensures { result ≡ spec.has_value rows.now declared }
{
    let value = declared.saturating_add(1);
    parent_at(rows, value) == declared && is_value(rows, value)
}

// The row is no pair of parentheses.
fn is_bare(rows: &[Row], at: u32) -> bool
    ensures { result ≡ spec.is_bare rows.now at }
{
    !is_paren(rows, at)
}

// The first of these rows that is no pair of parentheses.
fn first_bare(rows: &[Row], first: u32, behind: u32) -> Option<u32>
    ensures { result ≡ spec.first_bare rows.now first behind }
{
    for at in first..behind {
        if is_bare(rows, at) {
            return Some(at);
        }
    }
    None
}

// What the row assigns to, if it assigns: its first operand without the parentheses round it.
fn assigned_by(rows: &[Row], at: u32) -> Option<u32>
    ensures { result ≡ spec.assigned_by rows.now at }
{
    if is_assignment(rows, at) {
        first_bare(rows, at.saturating_add(1), end_of(rows, at))
    } else {
        None
    }
}

/// What is found is this row.
pub fn is_row(found: Option<u32>, row: u32) -> bool
    ensures { result ≡ spec.is_row found row }
{
    match found {
        Some(found) => found == row,
        None => false,
    }
}

/// The declaration to which a row refers, by the table of the program.
pub fn refers_by(table: &[Referent], row: u32) -> Option<u32>
    ensures { result ≡ spec.refers_by table.now row }
{
    match table.get(row as usize) {
        Some(Referent::Declared { row, .. }) => Some(*row),
        _ => None,
    }
}

// The row assigns to the variable.
fn assigns_to(rows: &[Row], table: &[Referent], declared: u32, at: u32) -> bool
    ensures { result ≡ spec.assigns_to rows.now table.now declared at }
{
    match assigned_by(rows, at) {
        Some(operand) => is_row(refers_by(table, operand), declared),
        None => false,
    }
}

// The first of these rows that assigns to the variable.
fn first_assignment(
    rows: &[Row],
    table: &[Referent],
    declared: u32,
    first: u32,
    behind: u32,
) -> Option<u32>
    ensures { result ≡ spec.first_assignment rows.now table.now declared first behind }
{
    for at in first..behind {
        if assigns_to(rows, table, declared, at) {
            return Some(at);
        }
    }
    None
}

// Some assignment or step changes the local.
fn is_assigned(rows: &[Row], table: &[Referent], local: Local) -> bool
    ensures { result ≡ spec.is_assigned rows.now table.now local }
{
    let behind = local.scope_end(rows);
    first_assignment(rows, table, local.declarator, local.declarator, behind).is_some()
}

impl Local {
    /// The declaration, if it is a local with an expression as initializer.
    fn of(rows: &[Row], declared: u32) -> Option<Local>
        ensures { result ≡ spec.local_of rows.now declared }
    {
        if is_local(rows, declared) && has_value(rows, declared) {
            Some(Local {
                declarator: declared,
                statement: parent_at(rows, declared),
                value: declared.saturating_add(1).saturating_add(1),
            })
        } else {
            None
        }
    }

    /// The number behind the last row in which the local is in scope (JLS 6.3): its block, its `for`, or the switch of its group.
    pub fn scope_end(&self, rows: &[Row]) -> u32
        ensures { result ≡ spec.scope_end rows.now self.now }
    {
        end_of(rows, scope_over(rows, parent_at(rows, self.statement)))
    }
}

// What holds the scope of a declaration that stands right below a row.
fn scope_over(rows: &[Row], over: u32) -> u32
    ensures { result ≡ spec.scope_over rows.now over }
{
    if is_group(rows, over) {
        parent_at(rows, over)
    } else {
        over
    }
}

// The local, if it is never assigned again.
fn if_never_assigned(rows: &[Row], table: &[Referent], local: Option<Local>) -> Option<Local>
    ensures { result ≡ spec.if_never_assigned rows.now table.now local }
{
    let local = local?;
    if is_assigned(rows, table, local) {
        None
    } else {
        Some(local)
    }
}

/// The declaration, if it is a local that can be inlined: with an expression as initializer, and never assigned again.
pub fn inlinable(old: &Project, declared: Option<u32>) -> Option<Local>
    ensures { result ≡ spec.inlinable old.now declared }
{
    let declared = declared?;
    let rows = old.marks.rows;
    let table = old.view.sight.world.under.table;
    if_never_assigned(rows, table, Local::of(rows, declared))
}
