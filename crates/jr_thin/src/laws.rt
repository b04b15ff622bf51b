// A law of renames, for the layers above.
ghost use Rattle.jr_thin.specs.Laws.{OneAnswer};

/// A rename has one answer.
pub fn one_answer()
    ensures { OneAnswer }
{}
