// Headers in the rows of programs.
ghost use Rattle.jr_headed.specs.Heads.{ProgramsAreHeaded};

/// In the rows of shaped units the names in headers stand below types, and that of a superclass first (JLS 8.1.4, 8.1.5, 9.1.3).
pub fn programs_are_headed()
    ensures { ProgramsAreHeaded }
{}
