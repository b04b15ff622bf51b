// The laws of cores with the same look-ups.
ghost use Rattle.std.specs.Prelude.{◌≡◌, ℕ, List, map};
ghost use Rattle.std.specs.List.{Contains, IsDistinct};
ghost use Rattle.std.specs.List.Sorted.{IsPermutation};
ghost use Rattle.jr_base.specs.declared.ids.DeclId.{DeclId};
ghost use Rattle.jr_base.specs.declared.ids.TypeId.{TypeId};
ghost use Rattle.jr_core.specs.declared.bodies.Class.{Class};
ghost use Rattle.jr_core.specs.Mirror.{Core};
ghost use Rattle.jr_machine_defs.specs.declared.state.Ran.{Ran};
ghost use Rattle.jr_machine_defs.specs.declared.state.State.{State};
ghost use Rattle.jr_machine_defs.specs.Classes.{class_in, body_in, found_among};
ghost use Rattle.jr_machine_defs.specs.Renamed.{IsRenaming, renamed_core, renamed_ran};
ghost use Rattle.jr_machine_defs.specs.Steps.{next, step, after, steps_made, printed_of, IsRun};
ghost use Rattle.jr_machine_defs.specs.Values.{same_decl};
ghost use Rattle.jr_machine_laws.specs.SameCore.{AlikeClass, AlikeClasses, SameCore, IsKeyed, called};

/// Two cores with alike classes, the same bodies and as many classes make the same steps from each state. So a run of a method prints the same in both,
/// makes as many steps, and ends in the same way.
pub fn same_cores_step_alike()
    ensures next_state { (a b : Core) (s : State) → SameCore a b → next a s ≡ next b s }
    ensures one_step { (a b : Core) (s : State) → SameCore a b → step a s ≡ step b s }
    ensures steps { (a b : Core) (n : ℕ) (s : State) → SameCore a b → after a n s ≡ after b n s }
    ensures made { (a b : Core) (n : ℕ) (s : State) → SameCore a b → steps_made a n s ≡ steps_made b n s }
    ensures printed { (a b : Core) (start : DeclId) (n : ℕ) → SameCore a b → printed_of a start n ≡ printed_of b start n }
    ensures run { (a b : Core) (start : DeclId) (n : ℕ) (ran : Ran) → SameCore a b → IsRun a start n ran → IsRun b start n ran }
{}

/// That two cores are the same is reflexive, symmetric and transitive.
pub fn same_cores_are_an_equivalence()
    ensures itself { (a : Core) → SameCore a a }
    ensures turned { (a b : Core) → SameCore a b → SameCore b a }
    ensures joined { (a b c : Core) → SameCore a b → SameCore b c → SameCore a c }
{}

/// Of cores that are two finite maps the look-ups tell all, the number of classes too, and the order of classes and of bodies does not matter. Nor does the order
/// of the methods that calls in a class find, and classes may be replaced by alike ones in their places.
pub fn order_does_not_matter()
    ensures maps { (a b : Core) → IsKeyed a → IsKeyed b → ((id : TypeId) → AlikeClasses (class_in a id) (class_in b id)) → ((decl : DeclId) → body_in a decl ≡ body_in b decl) → SameCore a b }
    ensures core { (a b : Core) → IsKeyed a → IsPermutation a.classes b.classes → IsPermutation a.bodies b.bodies → SameCore a b }
    ensures found { (found others : List (DeclId × DeclId)) → IsDistinct same_decl (map called found) → IsPermutation found others → (method : DeclId) → found_among found method ≡ found_among others method }
    ensures each { (a : Core) (f : Class → Class) → ((c : Class) → Contains a.classes c → ((f c).id ≡ c.id) × AlikeClass c (f c)) → SameCore a (record a { classes = map f a.classes }) }
{}

/// Renamed alike, the same cores stay the same. So where a core is the same as a renamed one, a run of the renamed method prints the same as the run before, makes as
/// many steps, and ends in the same way; and what is so reached in two steps is reached in one.
pub fn renamings_keep_same_cores()
    ensures renamed { (f : DeclId → DeclId) (a b : Core) → IsRenaming f → SameCore a b → SameCore (renamed_core f a) (renamed_core f b) }
    ensures keyed { (f : DeclId → DeclId) (a : Core) → IsRenaming f → IsKeyed a → IsKeyed (renamed_core f a) }
    ensures printed { (f : DeclId → DeclId) (a b : Core) (start : DeclId) (n : ℕ) → IsRenaming f → SameCore (renamed_core f a) b → printed_of b (f start) n ≡ printed_of a start n }
    ensures run { (f : DeclId → DeclId) (a b : Core) (start : DeclId) (n : ℕ) (ran : Ran) → IsRenaming f → SameCore (renamed_core f a) b → IsRun a start n ran → IsRun b (f start) n (renamed_ran f ran) }
    ensures twice { (f g : DeclId → DeclId) (a b c : Core) → IsRenaming g → SameCore (renamed_core f a) b → SameCore (renamed_core g b) c → SameCore (renamed_core (λ d. g (f d)) a) c }
{}
