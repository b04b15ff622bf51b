// The laws of numbers, of marks and of units.
ghost use Rattle.jr_index.specs.NodeRows.{NodesAreNumbered};
ghost use Rattle.jr_index.specs.Naming.{MarksAreOwn};
ghost use Rattle.jr_index.specs.UnitRows.{UnitsAreInOrder, UnitsHaveRows};
ghost use Rattle.jr_index.specs.Within.{MarksAreWithin};

/// The node by which the definitions name a declaration or occurrence is one of those that its row stands for.
pub fn nodes_are_numbered()
    ensures { NodesAreNumbered }
{}

/// Of the rows of a program each has a mark, and one that is written stands inside the row over it.
pub fn marks_are_within()
    ensures { MarksAreWithin }
{}

/// What declares or refers by an identifier has that identifier of its unit as its own token, a call of a constructor its keyword, and a unit ends behind its last token.
pub fn marks_are_own()
    ensures { MarksAreOwn }
{}

/// The rows of units are among the rows, one behind another.
pub fn units_are_in_order()
    ensures { UnitsAreInOrder }
{}

/// Each unit of a program of shaped units has a row.
pub fn units_have_rows()
    ensures { UnitsHaveRows }
{}
