// Each plain function tells where its rule is broken.
ghost use Rattle.std.specs.Prelude.{◌≡◌, ℕ, ◌+◌, ◌≤◌, ◌<◌, length, Decides};
ghost use Rattle.jr_tree.specs.Rows.{Rows, label, parent};
ghost use Rattle.jr_tree.specs.declared.label.Label.TheVariants as is;
ghost use Rattle.jr_defs.specs.declared.referent.Element.TheVariants as element;
ghost use Rattle.jr_defs.specs.declared.referent.RowType.{RowType};
ghost use Rattle.jr_defs.specs.Types.{plain, HasType};
ghost use Rattle.jr_defs.specs.Constants.{HasConstantForm};
ghost use Rattle.jr_defs.specs.Conversions.{IsCastable, IsAssignable};
ghost use Rattle.jr_rules.specs.Typed.{Typed, FirstOf, SecondOf, TypeBelow, InMember};
ghost use Rattle.jr_defs.specs.declared.referent.Referent.TheVariants.{Unbound};
ghost use Rattle.jr_defs.specs.Referents.{Table};
ghost use Rattle.jr_plain.specs.Typing.{IsTypable};
ghost use Rattle.jr_rules.specs.Objects.{NeedsObject, MayUse, LacksObject};
ghost use Rattle.jr_rules.specs.Initializing.{IsUsedTooEarly};
ghost use Rattle.jr_rules.specs.Creations.{CallsItselfRound, AbstractIsUsed};
ghost use Rattle.jr_rules.specs.Operands.{DenotesVariable, ChangesFirst, OperandsDoNotFit, IsNoVariable, CastIsNotAllowed, BranchesAreUnrelated};
ghost use Rattle.jr_rules.specs.Statements.{IsThrowable, IsCondition, GivesResult, IsNotThrowable, ConditionIsNotBoolean, SwitchDoesNotFit, ReturnDoesNotFit, HasNoTarget};
ghost use Rattle.jr_rules.specs.StatementTests.{is_not_throwable, condition_is_not_boolean, switch_does_not_fit, return_does_not_fit, has_no_target};
ghost use Rattle.jr_rules.specs.Places.{PlaceOf, ValueDoesNotFit, VoidIsUsed, ArrayDoesNotFit};
ghost use Rattle.jr_rules.specs.PlaceTests.{value_does_not_fit, void_is_used, array_does_not_fit};
ghost use Rattle.jr_rules.specs.ObjectTests.{lacks_object};
ghost use Rattle.jr_rules.specs.InitializingTests.{is_used_too_early};
ghost use Rattle.jr_rules.specs.CreationTests.{calls_itself_round, abstract_is_used};
ghost use Rattle.jr_rules.specs.OperandTests.{operands_do_not_fit, is_no_variable, cast_is_not_allowed, branches_are_unrelated};
ghost use Rattle.jr_rules.specs.TypeRules.{BreaksTypes};
ghost use Rattle.jr_rules.specs.Completeness.{HasTypedParts, IsTypedOrBreaks};
ghost use Rattle.jr_rules.specs.Compiling.{Compiles, KeepsTypes};
ghost use Rattle.jr_base.specs.Files.{FileMap};
ghost use Rattle.jr_defs.specs.declared.program.Program.{Program};
ghost use Rattle.jr_defs.specs.Compiling as names;
ghost use Rattle.jr_rules.specs.Computed.{values, types, breaks_types};

/// Where static contexts and initializers use what is not there, or not yet.
pub fn contexts_are_tested()
    ensures objects { (p : Rows) (t : Table) (o : ℕ) → Decides (lacks_object p t o) (LacksObject p t o) }
    ensures early { (p : Rows) (t : Table) (o : ℕ) → Decides (is_used_too_early p t o) (IsUsedTooEarly p t o) }
{}

/// Constructors that call themselves round, and abstract classes and methods that are used.
pub fn creations_are_tested()
    ensures rounds { (p : Rows) (t : Table) (k : ℕ) → Decides (calls_itself_round p t k) (CallsItselfRound p t k) }
    ensures abstracts { (p : Rows) (t : Table) (n : ℕ) → Decides (abstract_is_used p t n) (AbstractIsUsed p t n) }
{}

/// Operands, what is assigned to, casts and branches.
pub fn operands_are_tested()
    ensures operands { (p : Rows) (t : Table) (n : ℕ) → IsTypable p t → Decides (operands_do_not_fit p t (values p t) (types p t) n) (OperandsDoNotFit p t n) }
    ensures variables { (p : Rows) (t : Table) (n : ℕ) → IsTypable p t → Decides (is_no_variable p t n) (IsNoVariable p t n) }
    ensures casts { (p : Rows) (t : Table) (n : ℕ) → IsTypable p t → Decides (cast_is_not_allowed p t (types p t) n) (CastIsNotAllowed p t n) }
    ensures branches { (p : Rows) (t : Table) (n : ℕ) → IsTypable p t → Decides (branches_are_unrelated p t (types p t) n) (BranchesAreUnrelated p t n) }
{}

/// Thrown classes, conditions, switches, returns and jumps.
pub fn statements_are_tested()
    ensures throws { (p : Rows) (t : Table) (n : ℕ) → IsTypable p t → Decides (is_not_throwable p t (types p t) n) (IsNotThrowable p t n) }
    ensures conditions { (p : Rows) (t : Table) (n : ℕ) → IsTypable p t → Decides (condition_is_not_boolean p (types p t) n) (ConditionIsNotBoolean p t n) }
    ensures switches { (p : Rows) (t : Table) (n : ℕ) → IsTypable p t → Decides (switch_does_not_fit p t (values p t) (types p t) n) (SwitchDoesNotFit p t n) }
    ensures returning { (p : Rows) (t : Table) (n : ℕ) → IsTypable p t → Decides (return_does_not_fit p t (values p t) (types p t) n) (ReturnDoesNotFit p t n) }
    ensures jumps { (p : Rows) (t : Table) (n : ℕ) → Decides (has_no_target p t n) (HasNoTarget p t n) }
{}

/// Values and their places, void calls and arrays.
pub fn places_are_tested()
    ensures values { (p : Rows) (t : Table) (n : ℕ) → IsTypable p t → Decides (value_does_not_fit p t (values p t) (types p t) n) (ValueDoesNotFit p t n) }
    ensures voids { (p : Rows) (t : Table) (n : ℕ) → IsTypable p t → Decides (void_is_used p (types p t) n) (VoidIsUsed p t n) }
    ensures arrays { (p : Rows) (t : Table) (n : ℕ) → IsTypable p t → Decides (array_does_not_fit p t (types p t) n) (ArrayDoesNotFit p t n) }
{}

/// Each rule on types and static contexts, by its number, at each row. Where the table has nothing past the end, a rule is broken at rows of the program alone.
pub fn type_rules_are_tested()
    ensures rules { (p : Rows) (t : Table) (rule n : ℕ) → IsTypable p t → Decides (breaks_types p t rule n) (BreaksTypes p t rule n) }
    ensures bounded { (p : Rows) (t : Table) (rule n : ℕ) → ((o : ℕ) → length p ≤ o → t o ≡ Unbound) → BreaksTypes p t rule n → n < length p }
{}

/// The rules leave no operator, index, test or `this` without a type where its parts have theirs: it has one, or a rule is broken at it or at its first part.
pub fn expressions_have_types_or_break_rules()
    ensures typed { (p : Rows) (t : Table) (n : ℕ) → IsTypable p t → HasTypedParts p t n → IsTypedOrBreaks p t n }
{}

/// Files that compile by all these rules compile by those on names and members.
pub fn compiling_keeps_rules_of_names()
    ensures fewer { (found : FileMap) (program : Program) (t : Table) → Compiles found program t → names.Compiles found program t }
{}

/// In a program that keeps the rules on types there is an object wherever one is needed, conditions are boolean, values fit their places and results, casts are allowed, what changes
/// is a variable, and what is thrown is Throwable or below.
pub fn kept_rules_hold()
    ensures objects { (p : Rows) (t : Table) (o c : ℕ) → KeepsTypes p t → NeedsObject p t o c → MayUse p o c }
    ensures conditions { (p : Rows) (t : Table) (n : ℕ) (a : RowType) → KeepsTypes p t → IsCondition p n → Typed p t n a → a ≡ plain element.Boolean }
    ensures values { (p : Rows) (t : Table) (n : ℕ) (a b : RowType) → IsTypable p t → KeepsTypes p t → PlaceOf p t n a → Typed p t n b
        → IsAssignable p t (HasConstantForm p t) n b a }
    ensures results { (p : Rows) (t : Table) (n c m : ℕ) (a b : RowType) → IsTypable p t → KeepsTypes p t → label p n ≡ is.Return → InMember p n c m → GivesResult (label p m)
        → HasType p t m a → FirstOf p t n b → IsAssignable p t (HasConstantForm p t) (n + 1) b a }
    ensures casts { (p : Rows) (t : Table) (n : ℕ) (a b : RowType) → IsTypable p t → KeepsTypes p t → label p n ≡ is.Cast → TypeBelow p t n (n + 1) b → SecondOf p t n a
        → IsCastable p t a b }
    ensures variables { (p : Rows) (t : Table) (n : ℕ) → IsTypable p t → KeepsTypes p t → ChangesFirst (label p (parent p n)) → n ≡ parent p n + 1 → DenotesVariable p t n }
    ensures thrown { (p : Rows) (t : Table) (n : ℕ) (a : RowType) → IsTypable p t → KeepsTypes p t → label p n ≡ is.Throw → FirstOf p t n a → IsThrowable p t a }
{}
