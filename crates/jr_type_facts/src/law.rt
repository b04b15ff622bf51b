// Where constructors call others.
ghost use Rattle.jr_type_facts.specs.Rounds.{EachBodyCallsOnce};

/// In the rows of a program whose units are shaped, the body of a constructor calls another by `this(..)` once at most (JLS 8.8.7).
pub fn each_body_calls_once()
    ensures { EachBodyCallsOnce }
{}
