// The laws of courses and of what can be reached.
ghost use Rattle.jr_reach.specs.Statements.{EachHasCourses};
ghost use Rattle.jr_reach.specs.Reached.{EachIsReached};

/// The rules of completing have one solution, and it is the one that is computed.
pub fn each_program_has_courses()
    ensures { EachHasCourses }
{}

/// The rules of reaching have one solution, and it is the one that is computed.
pub fn each_row_is_reached_or_not()
    ensures { EachIsReached }
{}
