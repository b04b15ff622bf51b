// The laws of definite assignment.
ghost use Rattle.jr_assign.specs.Assigned.{EachMemberIsAssigned, EachMemberIsAssignedOnce};
ghost use Rattle.jr_assign.specs.Blank.{EachMakingIsOne};
ghost use Rattle.jr_assign.specs.Words.{EachWordIsOfVariables};

/// What the equations of a member say, followed so often that each row has it, is a solution of them.
pub fn each_member_is_assigned()
    ensures { EachMemberIsAssigned }
{}

/// The equations of a member have one solution.
pub fn each_member_is_assigned_once()
    ensures { EachMemberIsAssignedOnce }
{}

/// A solution for the bits of words is one for each of their variables.
pub fn each_word_is_of_variables()
    ensures { EachWordIsOfVariables }
{}

/// Whether a blank final field is assigned before a member of its class has one answer.
pub fn each_making_is_one()
    ensures { EachMakingIsOne }
{}
