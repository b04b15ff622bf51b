// Copies that stand as their origins did.
ghost use Rattle.std.specs.Prelude.{◌≡◌, ℕ, ◌+◌, ◌<◌, ◌≤◌, false, length};
ghost use Rattle.jr_tree.specs.Rows.{Rows, label};
ghost use Rattle.jr_tree.specs.Tree.{IsTree};
ghost use Rattle.jr_defs.specs.Referents.{Table};
ghost use Rattle.jr_change.specs.declared.change.Change.{Change};
ghost use Rattle.jr_locks.specs.Origins.{no_row, origin_of};
ghost use Rattle.jr_locks.specs.Ending.{size_at, takes_declarations, StandsInOne, StandsAgain};
ghost use Rattle.jr_locks.specs.Changed.{IsChanged, origins_by, rests_by};

/// A row that stands in one run of copies with all below it, as a method that a change leaves as it is, stands in the changed program as it stood: below
/// it are copies of what was below it and nothing else, and each ends where it did.
pub fn runs_stand_again()
    ensures again { (old : Rows) (t : Table) (change : Change) (rows : Rows) (locks : Table) → IsChanged old t change rows locks → IsTree old → IsTree rows → length old ≤ no_row
        → (d n : ℕ) → d < length old → takes_declarations (label old d) ≡ false → StandsInOne old (origins_by change) (rests_by change) d n → StandsAgain old rows d n }
    ensures origins { (old : Rows) (change : Change) (d n : ℕ) → StandsInOne old (origins_by change) (rests_by change) d n → (i : ℕ) → i < size_at old d
        → origin_of (origins_by change) (n + i) ≡ d + i }
{}
