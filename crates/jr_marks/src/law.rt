// The law of order.
ghost use Rattle.jr_marks.specs.Made.{MarksAreOrdered};

/// The marks of a program of shaped units are ordered, where the prelude is there and the tokens of each unit stand apart and are not too many.
pub fn marks_are_ordered()
    ensures { MarksAreOrdered }
{}
