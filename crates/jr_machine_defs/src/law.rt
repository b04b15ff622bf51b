// The law of renaming.
ghost use Rattle.std.specs.Prelude.{◌≡◌, ℕ, List};
ghost use Rattle.jr_base.specs.declared.ids.DeclId.{DeclId};
ghost use Rattle.jr_core.specs.Mirror.{Core};
ghost use Rattle.jr_machine_defs.specs.declared.state.Ran.{Ran};
ghost use Rattle.jr_machine_defs.specs.declared.state.State.{State};
ghost use Rattle.jr_machine_defs.specs.Classes.{found_among};
ghost use Rattle.jr_machine_defs.specs.Steps.{step, after, start_of, printed_of, IsRun};
ghost use Rattle.jr_machine_defs.specs.Renamed.{IsRenaming, IsTable, by_table, renamed_core, renamed_state, renamed_ran};

/// A step of the renamed machine is the renamed step: the map of declarations is one to one, and leaves those of the prelude that the machine knows by
/// itself. So any number of steps, and a run from the renamed method: it prints the same, it makes as many steps, and it ends in the same way.
pub fn renaming_commutes()
    ensures one_step { (f : DeclId → DeclId) (core : Core) (s : State) → IsRenaming f → step (renamed_core f core) (renamed_state f s) ≡ renamed_state f (step core s) }
    ensures steps { (f : DeclId → DeclId) (core : Core) (n : ℕ) (s : State) → IsRenaming f → after (renamed_core f core) n (renamed_state f s) ≡ renamed_state f (after core n s) }
    ensures start { (f : DeclId → DeclId) (start : DeclId) → IsRenaming f → start_of (f start) ≡ renamed_state f (start_of start) }
    ensures printed { (f : DeclId → DeclId) (core : Core) (start : DeclId) (n : ℕ) → IsRenaming f → printed_of (renamed_core f core) (f start) n ≡ printed_of core start n }
    ensures run { (f : DeclId → DeclId) (core : Core) (start : DeclId) (n : ℕ) (ran : Ran) → IsRenaming f → IsRun core start n ran → IsRun (renamed_core f core) (f start) n (renamed_ran f ran) }
{}

/// A table in which no two declarations have one copy, and those that the machine knows by itself are their own copies, gives a renaming, by which each
/// declaration of the table goes to its copy.
pub fn tables_rename()
    ensures renames { (pairs : List (DeclId × DeclId)) → IsTable pairs → IsRenaming (by_table pairs) }
    ensures copies { (pairs : List (DeclId × DeclId)) (d copy : DeclId) → found_among pairs d ≡ Some copy → by_table pairs d ≡ copy }
{}

/// One renaming after another is a renaming, by the one map after the other; the map that changes nothing is a renaming, and a core renamed by it is as it was.
pub fn renamings_compose()
    ensures map { (f g : DeclId → DeclId) → IsRenaming f → IsRenaming g → IsRenaming (λ d. g (f d)) }
    ensures core { (f g : DeclId → DeclId) (core : Core) → renamed_core g (renamed_core f core) ≡ renamed_core (λ d. g (f d)) core }
    ensures no_map { IsRenaming (λ d. d) }
    ensures no_core { (core : Core) → renamed_core (λ d. d) core ≡ core }
{}
