// The rules on names, members, types and static contexts together.
ghost use Rattle.std.specs.Prelude.{◌≡◌, ℕ, ◌≤◌, ◌<◌, length, Decides};
ghost use Rattle.jr_tree.specs.Rows.{Rows};
ghost use Rattle.jr_defs.specs.declared.referent.Referent.TheVariants.{Unbound};
ghost use Rattle.jr_defs.specs.Referents.{Table};
ghost use Rattle.jr_defs.specs.Formed.{IsFormed};
ghost use Rattle.jr_plain.specs.Typing.{IsTypable};
ghost use Rattle.jr_rules.specs.Compiling.{BreaksAll};
ghost use Rattle.jr_all_rules.specs.Computed.{breaks_all, keeps_all};

/// Each rule, by its number, at each row, and whether none is broken. Where the table has nothing past the end, a rule is broken at rows of the program alone.
pub fn all_rules_are_tested()
    ensures rules { (p : Rows) (t : Table) (rule n : ℕ) → IsTypable p t → Decides (breaks_all p t rule n) (BreaksAll p t rule n) }
    ensures bounded { (p : Rows) (t : Table) (rule n : ℕ) → IsFormed p → ((o : ℕ) → length p ≤ o → t o ≡ Unbound) → BreaksAll p t rule n → n < length p }
    ensures kept { (p : Rows) (t : Table) → IsFormed p → IsTypable p t → ((o : ℕ) → length p ≤ o → t o ≡ Unbound)
        → Decides (keeps_all p t) ((rule n : ℕ) → BreaksAll p t rule n → ⊥) }
{}
