// The laws of the definitions.
ghost use Rattle.jr_defs.specs.Overriding.{FindsOneMethod};
ghost use Rattle.jr_defs.specs.Laws.{OneAnswer, LookCarries, BindingsAgree, OneBinding, OneBindingOfUnits, ProgramsAreFormed, MutualHeadersAreCycle, BareTypeIsSettled};

/// Lookup has at most one answer.
pub fn lookup_is_unique()
    ensures { OneAnswer }
{}

/// What corresponding occurrences of two programs refer to corresponds: lookup sees how a name is spelled only at the one that is looked up.
pub fn lookup_carries()
    ensures { LookCarries }
{}

/// Two tables that agree with themselves, and with each other on the headers of types, are one.
pub fn bindings_agree()
    ensures { BindingsAgree }
{}

/// A program has at most one binding.
pub fn at_most_one_binding()
    ensures { OneBinding }
{}

/// The rows of shaped units are formed as the law of one binding asks.
pub fn programs_are_formed()
    ensures { ProgramsAreFormed }
{}

/// A program of shaped units has at most one binding.
pub fn units_have_at_most_one_binding()
    ensures { OneBindingOfUnits }
{}

/// Two types whose headers meet each other are a cycle (JLS 8.1.4).
pub fn mutual_headers_are_a_cycle()
    ensures { MutualHeadersAreCycle }
{}

/// A type whose header names nothing is settled where its enclosing types are.
pub fn a_bare_type_is_settled()
    ensures { BareTypeIsSettled }
{}

/// A call finds at most one method in a class, where types name one superclass at most and there is one Object at most: under any table, and also where a body declares two
/// methods of one signature (JLS 15.12.4.4).
pub fn a_call_finds_one_method()
    ensures { FindsOneMethod }
{}
