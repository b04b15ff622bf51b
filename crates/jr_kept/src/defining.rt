// The row of the assignment that a definition is.

use jr_places::parent_at;
use jr_tree::{Label, Row};

/// How a row stands below another.
#[derive(Clone, Copy)]
enum Standing {
    /// In parentheses.
    Wrapped,
    /// As the left side of an assignment.
    Assigned,
    Otherwise,
}

fn stands_as(rows: &[Row], at: u32, over: u32) -> Standing {
    match rows.get(over as usize) {
        Some(row) => match row.label {
            Label::Paren => Standing::Wrapped,
            Label::Assign { .. } => {
                if at == over.saturating_add(1) {
                    Standing::Assigned
                } else {
                    Standing::Otherwise
                }
            }
            _ => Standing::Otherwise,
        },
        None => Standing::Otherwise,
    }
}

fn is_name(rows: &[Row], at: u32) -> bool {
    match rows.get(at as usize) {
        Some(row) => match row.label {
            Label::Name { .. } => true,
            _ => false,
        },
        None => false,
    }
}

/// The row of the node that is a definition: where the name of a local is assigned, that of the assignment (JLS 15.26); each other row itself.
pub(crate) fn defining_row(rows: &[Row], row: u32) -> u32 {
    if !is_name(rows, row) {
        return row;
    }
    let mut at = row;
    for _turn in 0..row {
        let over = parent_at(rows, at);
        match stands_as(rows, at, over) {
            Standing::Wrapped => at = over,
            Standing::Assigned => return over,
            Standing::Otherwise => return row,
        }
    }
    row
}
