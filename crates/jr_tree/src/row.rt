// A row of the list.

use crate::Label;
use jr_base::Text;

/// A node of a program. Rows are numbered from 0, in preorder: row 0 is the program, and below it stand the units in order.
#[derive(Drop)]
pub struct Row {
    pub label: Label,
    /// The identifier that the row declares or refers by; empty where there is none.
    pub name: Text,
    /// The number of the row round it; that of row 0 is 0.
    pub parent: u32,
    /// The number after its last descendant.
    pub end: u32,
    /// The number of the sibling before it, and its parent's where it is the first.
    pub previous: u32,
}
