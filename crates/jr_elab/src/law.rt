// What elaboration is, on the definitions alone.
ghost use Rattle.jr_elab.specs.Laws.{ProgramsHaveOneCore, RowsHaveOneCode, RowsHaveParts, WholeWorldsAreRead};

/// A row comes to one code, and a program has one core, where types name one superclass at most and there is one Object.
pub fn a_program_has_one_core()
    ensures code { RowsHaveOneCode }
    ensures core { ProgramsHaveOneCore }
{}

/// The rows of bodies have parts, where they are those of a tree and none of them is as in no program that compiles.
pub fn rows_have_parts()
    ensures { RowsHaveParts }
{}

/// The tables of a program are read whole, where the world is that of the program under its table and the rows can be counted.
pub fn whole_worlds_are_read()
    ensures { WholeWorldsAreRead }
{}
