// What gives views whose tables are right.
ghost use Rattle.std.specs.Prelude.{◌≡◌, ℕ, Bool};
ghost use Rattle.jr_tree.specs.Rows.{Rows};
ghost use Rattle.jr_defs.specs.Referents.{Table};
ghost use Rattle.jr_plain.specs.Constants.{has_constant_form, variable_value};
ghost use Rattle.jr_plain.specs.Typing.{IsTypable};
ghost use Rattle.jr_constants.specs.declared.constants.Constants as code;
ghost use Rattle.jr_constants.specs.Resting.{variables_of, IsAtRest};
ghost use Rattle.jr_member_rules.specs.Computed.{values};

/// The variables of constants as `Constants::of` gives them have the values of the definition.
pub fn variables_are_valued()
    ensures { (p : Rows) (t : Table) (k : ℕ → Bool) (found : code.Constants) → ((n : ℕ) → k n ≡ has_constant_form p t n) → IsTypable p t → IsAtRest p t k found → (d : ℕ) → variables_of found d ≡ variable_value p t (values p t) d }
{}
