// Each plain function tells where its rule is broken.
ghost use Rattle.std.specs.Prelude.{ℕ, ◌<◌, length, Decides};
ghost use Rattle.jr_tree.specs.Rows.{Rows};
ghost use Rattle.jr_tree.specs.Tree.{IsTree};
ghost use Rattle.jr_defs.specs.Referents.{Table};
ghost use Rattle.jr_defs.specs.MemberRules.{Hides, RedefinesMethod, IsOpenTo, Throws, IsChecked, Allows, Implemented, InheritsBoth, BreaksMembers};
ghost use Rattle.jr_plain.specs.Headed.{IsHeaded};
ghost use Rattle.jr_plain.specs.Members.{members};
ghost use Rattle.jr_plain.specs.Overriding.{overriding};
ghost use Rattle.jr_plain.specs.Typing.{IsTypable};
ghost use Rattle.jr_member_rules.specs.Redefining.{is_hiding, redefines, is_open_to};
ghost use Rattle.jr_member_rules.specs.Throwing.{throws, is_checked, allows};
ghost use Rattle.jr_member_rules.specs.Inheriting.{is_implemented, inherits_both};
ghost use Rattle.jr_member_rules.specs.Computed.{breaks_members, keeps_members};

/// What methods hide and redefine, and how far members are open.
pub fn redefined_methods_are_tested()
    ensures hiding { (p : Rows) (t : Table) (m k : ℕ) → IsHeaded p → Decides (is_hiding p t m k) (Hides p t m k) }
    ensures redefining { (p : Rows) (t : Table) (m k : ℕ) → IsHeaded p → Decides (redefines p t (overriding p t) m k) (RedefinesMethod p t m k) }
    ensures access { (p : Rows) (d level : ℕ) → Decides (is_open_to p d level) (IsOpenTo p d level) }
{}

/// The classes that methods throw, those that are checked, and those that a method allows.
pub fn thrown_classes_are_tested()
    ensures throwing { (p : Rows) (t : Table) (m n c : ℕ) → Decides (throws p t m n c) (Throws p t m n c) }
    ensures checked { (p : Rows) (t : Table) (c : ℕ) → IsHeaded p → Decides (is_checked p t c) (IsChecked p t c) }
    ensures allowed { (p : Rows) (t : Table) (k c : ℕ) → IsHeaded p → Decides (allows p t k c) (Allows p t k c) }
{}

/// Methods that a class implements, and those that it inherits beside each other.
pub fn inherited_methods_are_tested()
    ensures implemented { (p : Rows) (t : Table) (c m : ℕ) → IsHeaded p → Decides (is_implemented p t (members p t c) m) (Implemented p t c m) }
    ensures inherited { (p : Rows) (t : Table) (c m k : ℕ) → IsHeaded p → Decides (inherits_both p t (members p t c) c m k) (InheritsBoth p t c m k) }
{}

/// Each rule on members, by its number, at each row, and whether none is broken. Where one is broken there is a row.
pub fn member_rules_are_tested()
    ensures rules { (p : Rows) (t : Table) (rule n : ℕ) → IsTypable p t → Decides (breaks_members p t rule n) (BreaksMembers p t rule n) }
    ensures kept { (p : Rows) (t : Table) → IsTypable p t → Decides (keeps_members p t) ((rule n : ℕ) → BreaksMembers p t rule n → ⊥) }
    ensures bounded { (p : Rows) (t : Table) (rule n : ℕ) → IsTree p → BreaksMembers p t rule n → n < length p }
{}
