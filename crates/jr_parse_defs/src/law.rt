// The laws of reading statements, declarations and units.
ghost use Rattle.jr_parse_defs.specs.Laws.{IsStmtStuck, IsBodyStuck, IsCtorBodyStuck, IsMemberStuck, IsDeclStuck, IsUnitStuck};
ghost use Rattle.jr_parse_defs.specs.Laws.{OneReading};
ghost use Rattle.jr_parse_defs.specs.Laws.{IsStmtWritten, IsUnitWritten, IsStmtComplete, IsStmtSound, IsBodyComplete, IsBodySound, IsCtorBodyComplete, IsCtorBodySound, IsMemberComplete, IsMemberSound, IsDeclComplete, IsDeclSound, IsUnitComplete, IsUnitSound};

/// Writing a statement or a unit in front of tokens is writing out its own tokens and then those (JLS 18).
pub fn statements_are_written()
    ensures statements { IsStmtWritten }
    ensures units { IsUnitWritten }
{}

/// Reading a statement, or the body of a method or constructor, answers exactly the tree that is written so, and ends where it does not go on (JLS 14, 8.8.7).
pub fn statements_are_read()
    ensures complete { IsStmtComplete }
    ensures sound { IsStmtSound }
    ensures bodies_complete { IsBodyComplete }
    ensures bodies_sound { IsBodySound }
    ensures ctors_complete { IsCtorBodyComplete }
    ensures ctors_sound { IsCtorBodySound }
{}

/// Reading a member, a declaration of a type or a whole unit answers exactly the tree that is written so (JLS 7, 8, 9).
pub fn units_are_read()
    ensures members_complete { IsMemberComplete }
    ensures members_sound { IsMemberSound }
    ensures decls_complete { IsDeclComplete }
    ensures decls_sound { IsDeclSound }
    ensures complete { IsUnitComplete }
    ensures sound { IsUnitSound }
{}

/// Where reading a statement, or the body of a method or constructor, stops with a fault, what stands before begins a tree and none goes on with the fault's token, or only a deeper one (JLS 14, 8.8.7).
pub fn statements_stop()
    ensures statements { IsStmtStuck }
    ensures bodies { IsBodyStuck }
    ensures ctors { IsCtorBodyStuck }
{}

/// The same of a member, of a declaration of a type and of a whole unit (JLS 7, 8, 9).
pub fn units_stop()
    ensures members { IsMemberStuck }
    ensures decls { IsDeclStuck }
    ensures units { IsUnitStuck }
{}

/// Units that are written alike are the same.
pub fn one_reading()
    ensures units { OneReading }
{}
