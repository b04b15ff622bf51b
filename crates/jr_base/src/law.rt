// The law of the view of types as plain data.
ghost use Rattle.jr_base.specs.Faithful.{IsOneToOne, IsOnto};
ghost use Rattle.jr_base.specs.Mirror.{plain_ty};

/// Seen as plain data, a type is neither more nor less than it is: the view is one to one and onto.
pub fn plain_types_are_faithful()
    ensures one_ty { IsOneToOne plain_ty }
    ensures every_ty { IsOnto plain_ty }
{}
