// The first spelling that fits.
ghost use Rattle.std.specs.Prelude.{◌≡◌, ℕ, Bool, List, Option, Some, None, Decides};
ghost use Rattle.jr_base.specs.declared.text.Text.{Text};
ghost use Rattle.jr_tree.specs.Rows.{Rows};
ghost use Rattle.jr_tree.specs.declared.label.NameKind.{NameKind};
ghost use Rattle.jr_defs.specs.declared.referent.Referent.{Referent};
ghost use Rattle.jr_defs.specs.declared.referent.RowType.{RowType};
ghost use Rattle.jr_defs.specs.Referents.{Table};
ghost use Rattle.jr_plain.specs.Headed.{IsHeaded};
ghost use Rattle.jr_plain.specs.Overloads.{Types};
ghost use Rattle.jr_plain.specs.Search.{Finds};
ghost use Rattle.jr_spelling_rules.specs.Naming.{Before, Leads, look_up, qualify};
ghost use Rattle.jr_spelling_rules.specs.Behind.{IsFoundAt};
ghost use Rattle.jr_spelling_rules.specs.Candidates.{Candidate};
ghost use Rattle.jr_spelling_rules.specs.Fitting.{Fits, FitsSo, IsFirstFit, HasNoFit, TellsConstants, fits, fits_so, first_such};
ghost use Rattle.jr_spelling_rules.specs.Spelling.{IsSpelling, HasNoSpelling, Written, spelling};

/// What identifiers before the last one lead to, and what they refer to, is computed.
pub fn names_lead_one_way()
    ensures { (p : Rows) (t : Table) (o : ℕ) (k : NameKind) (b : Before) (names : List Text) → Finds (qualify p t o k b names) (λ it. Leads p t o k b names it.0 it.1) }
{}

/// Whether a way to write a reference fits, the first that does, and the spelling of a reference are computed.
pub fn spellings_are_computed()
    ensures so { (p : Rows) (t : Table) (variable was_constant : ℕ → Bool) → IsHeaded p → TellsConstants p t variable → (n : ℕ) (found : Referent) (receiver : Option RowType) (through : Option ℕ) (form : Bool)
        → Decides (fits_so p t variable was_constant n found receiver through form) (FitsSo p t was_constant n found receiver through form) }
    ensures fits { (p : Rows) (t : Table) (variable was_constant : ℕ → Bool) → IsHeaded p → TellsConstants p t variable → (n : ℕ) (c : Candidate)
        → Decides (fits p t n was_constant variable c) (Fits p t n was_constant c) }
    ensures first { (p : Rows) (t : Table) (variable was_constant : ℕ → Bool) → IsHeaded p → TellsConstants p t variable → (n : ℕ) (all : List Candidate)
        → Finds (first_such (fits p t n was_constant variable) all) (IsFirstFit (Fits p t n was_constant) all) }
    ensures no_first { (p : Rows) (t : Table) (variable was_constant : ℕ → Bool) → IsHeaded p → TellsConstants p t variable → (n : ℕ) (all : List Candidate)
        → first_such (fits p t n was_constant variable) all ≡ None → HasNoFit (Fits p t n was_constant) all }
    ensures spelling { (p : Rows) (t : Table) (type_of : Types) (variable was_constant : ℕ → Bool) → IsHeaded p → TellsConstants p t variable → (first n : ℕ)
        → Finds (spelling p t type_of was_constant first n variable) (IsSpelling p t type_of was_constant first n) }
    ensures none { (p : Rows) (t : Table) (type_of : Types) (variable was_constant : ℕ → Bool) → IsHeaded p → TellsConstants p t variable → (first n : ℕ)
        → spelling p t type_of was_constant first n variable ≡ None → HasNoSpelling p t type_of was_constant first n }
{}

/// A name behind nothing, a package or a type refers to the one that is found there, and to no other.
pub fn names_are_found()
    ensures found { (p : Rows) (t : Table) (o : ℕ) (b : Before) (k : NameKind) (x : Text) → IsHeaded p → IsFoundAt p t x o b k (look_up p t o b k x) }
    ensures only { (p : Rows) (t : Table) (o : ℕ) (b : Before) (k : NameKind) (x : Text) (a : Referent) → IsHeaded p → IsFoundAt p t x o b k a → a ≡ look_up p t o b k x }
{}
