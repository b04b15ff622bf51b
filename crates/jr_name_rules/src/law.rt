// Each plain function tells where its rule is broken.
ghost use Rattle.std.specs.Prelude.{◌≡◌, ℕ, ◌<◌, length, Decides};
ghost use Rattle.jr_tree.specs.Rows.{Rows};
ghost use Rattle.jr_tree.specs.Local.{IsLocal};
ghost use Rattle.jr_defs.specs.Referents.{Table};
ghost use Rattle.jr_defs.specs.Formed.{IsFormed};
ghost use Rattle.jr_defs.specs.Rules.{Breaks};
ghost use Rattle.jr_plain.specs.Headed.{IsHeaded};
ghost use Rattle.jr_plain.specs.Search.{has};
ghost use Rattle.jr_plain.specs.Overloads.{Types};
ghost use Rattle.jr_plain.specs.Typing.{IsTypable};
ghost use Rattle.jr_name_rules.specs.Computed.{broken_at, breaks};

/// Each rule on declarations, headers, imports and access, by its number, at each row. Only the rule on access asks for types of expressions.
/// A rule is broken at rows of the program alone, where behind each import stands its name, as in rows of shaped units.
pub fn name_rules_are_tested()
    ensures rules { (p : Rows) (t : Table) (rule n : ℕ) → IsTypable p t → Decides (breaks p t rule n) (Breaks p t rule n) }
    ensures others { (p : Rows) (t : Table) (type_of : Types) (rule n : ℕ) → IsHeaded p → (rule ≡ 10 → ⊥) → Decides (has (broken_at p t type_of n) rule) (Breaks p t rule n) }
    ensures bounded { (p : Rows) (t : Table) (rule n : ℕ) → IsFormed p → Breaks p t rule n → n < length p }
    ensures bounded_local { (p : Rows) (t : Table) (rule n : ℕ) → IsLocal p → Breaks p t rule n → n < length p }
{}
