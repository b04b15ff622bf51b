// What members are, by what types declare and inherit.
ghost use Rattle.std.specs.Prelude.{◌⊎◌, ℕ};
ghost use Rattle.jr_tree.specs.Rows.{Rows};
ghost use Rattle.jr_defs.specs.Referents.{Table};
ghost use Rattle.jr_defs.specs.Declarations.{IsInterface, IsObject};
ghost use Rattle.jr_defs.specs.Members.{MemberOf};
ghost use Rattle.jr_members.specs.Held.{Holds, HasOfObject};

/// The members of a type are those that it declares or inherits without what interfaces have of Object, and those that an interface has of Object,
/// where Object is no interface.
pub fn members_are_held()
    ensures out { (p : Rows) (t : Table) (c d : ℕ) → ((o : ℕ) → IsObject p o → IsInterface p o → ⊥) → MemberOf p t c d → Holds p t c d ⊎ HasOfObject p t c d }
    ensures held { (p : Rows) (t : Table) (c d : ℕ) → Holds p t c d → MemberOf p t c d }
    ensures of_object { (p : Rows) (t : Table) (c d : ℕ) → HasOfObject p t c d → MemberOf p t c d }
{}
