// The law of the view of code as plain data.
ghost use Rattle.jr_base.specs.Faithful.{IsOneToOne, IsOnto};
ghost use Rattle.jr_core.specs.Mirror.{plain_code, plain_core};

/// Seen as plain data, code and a core are neither more nor less than they are: the views are one to one and onto.
pub fn plain_codes_are_faithful()
    ensures one_code { IsOneToOne plain_code }
    ensures every_code { IsOnto plain_code }
    ensures one_core { IsOneToOne plain_core }
    ensures every_core { IsOnto plain_core }
{}
