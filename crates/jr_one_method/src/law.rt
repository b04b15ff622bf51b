// A type names one superclass at most, and a call finds one method.
ghost use Rattle.jr_one_method.specs.OneMethod.{TypesNameOneSuperclass, CallsFindOneMethod};

/// In a program of shaped units the name of a superclass stands first below its type, and so there is one at most (JLS 8.1.4).
pub fn types_name_one_superclass()
    ensures { TypesNameOneSuperclass }
{}

/// Where there is one Object at most, a call finds at most one method in a class, under any table: also where a body declares two of one signature (JLS 15.12.4.4).
pub fn calls_find_one_method()
    ensures { CallsFindOneMethod }
{}
