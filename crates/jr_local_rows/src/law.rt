// Where locals and parameters stand.
ghost use Rattle.jr_local_rows.specs.Placed.{EachProgramPlacesLocals, EachTryHasABlock};

/// In the rows of a program whose units are shaped, locals stand in blocks, groups of a switch and `for` statements, and parameters in methods, constructors
/// and catches, before the block there (JLS 8.4, 8.8, 14.4, 14.11, 14.14.1, 14.20).
pub fn locals_stand_where_they_may()
    ensures { EachProgramPlacesLocals }
{}

/// In the rows of a program whose units are shaped, the block of each `try` stands below it (JLS 14.20).
pub fn tries_have_blocks()
    ensures { EachTryHasABlock }
{}
