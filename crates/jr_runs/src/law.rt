// What a comparison without a difference says.
ghost use Rattle.jr_runs.specs.Locked.{LocksAreKept};

/// Where the comparison finds no difference, each reference is bound to the declaration to which it was bound.
pub fn locks_are_kept()
    ensures { LocksAreKept }
{}
