// The laws of finals that are changed.
ghost use Rattle.jr_assign_faults.specs.Finals.{EachFinalIsFound, EachFoundFinalBreaks};

/// Each row that changes a final variable which may not be changed is found.
pub fn each_final_is_found()
    ensures { EachFinalIsFound }
{}

/// Each row that is found changes a final variable which may not be changed.
pub fn each_found_final_breaks()
    ensures { EachFoundFinalBreaks }
{}
