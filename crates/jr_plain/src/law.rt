// Each plain function computes what its definition says.
ghost use Rattle.std.specs.Prelude.{◌≡◌, ℕ, ◌<◌, ◌≤◌, Bool, true, List, length, Option, Decides};
ghost use Rattle.jr_base.specs.declared.text.Text.{Text};
ghost use Rattle.jr_tree.specs.Local.{IsLocal};
ghost use Rattle.jr_tree.specs.declared.label.Sought.{Sought};
ghost use Rattle.jr_tree.specs.Rows.{Rows};
ghost use Rattle.jr_tree.specs.Tree.{IsTree};
ghost use Rattle.jr_defs.specs.declared.referent.Referent.{Referent};
ghost use Rattle.jr_defs.specs.declared.referent.RowType.{RowType};
ghost use Rattle.jr_defs.specs.declared.referent.Space.{Space};
ghost use Rattle.jr_defs.specs.Declarations.{Declares, IsType, IsClass, IsInterface, IsObject, IsString, IsVariable, IsPrelude, IsOccurrence, IsPart, IsReference};
ghost use Rattle.jr_defs.specs.Enclosing.{InBody, Innermost, DeclaredIn, ConstructorOf, IsTopLevel, InTopLevel, SameTopLevel};
ghost use Rattle.jr_defs.specs.Formed.{IsFormed};
ghost use Rattle.jr_defs.specs.Members.{MemberOf, MemberNamed, IsLeft, CanInherit};
ghost use Rattle.jr_defs.specs.Modifiers.{InInterface, IsPublic, IsProtected, IsPrivate, IsStatic, IsFinal, IsAbstract, IsInner};
ghost use Rattle.jr_defs.specs.Overriding.{Overrides, Has, Implements, Serves, Found, Dispatches};
ghost use Rattle.jr_defs.specs.Packages.{InUnit, InPackage, SamePackage, TypeOfPackage};
ghost use Rattle.jr_defs.specs.Referents.{Table, IsAnswer};
ghost use Rattle.jr_defs.specs.Supertypes.{SuperAt, Super, Superclass, Above, AtOrAbove, Subtype};
ghost use Rattle.jr_defs.specs.Types.{NamesType, TypeAt, HasType, Parameters, SameSignature};
ghost use Rattle.jr_plain.specs.Declarations.{declares, is_type, is_class, is_interface, is_variable, is_prelude, is_occurrence, is_part, is_reference};
ghost use Rattle.jr_plain.specs.Enclosing.{is_in_body, innermost, is_declared_in, declaring_type, declared_by, is_constructor_of, constructed_class, is_top_level, is_in_top_level, top_level_of, is_same_top_level};
ghost use Rattle.jr_plain.specs.Headed.{IsHeaded};
ghost use Rattle.jr_plain.specs.Members.{is_left, can_inherit, is_member, members, is_member_named, members_named};
ghost use Rattle.jr_plain.specs.Modifiers.{is_in_interface, is_public, is_protected, is_private, is_static, is_final, is_abstract, is_inner};
ghost use Rattle.jr_plain.specs.Overriding.{overrides, has_method, implements, serves, is_found, dispatches};
ghost use Rattle.jr_plain.specs.Packages.{is_in_unit, unit_of, is_in_package, is_same_package, is_type_of_package};
ghost use Rattle.jr_plain.specs.Referents.{answer_of, is_candidate};
ghost use Rattle.jr_plain.specs.Search.{any_below, all_below, first_below, IsFirst, IsLast, has, Lists, Finds, last_below, all_such, least_below, Reaches, reaches};
ghost use Rattle.jr_plain.specs.Supertypes.{is_super_at, supers, superclasses, is_above, is_at_or_above, is_subtype};
ghost use Rattle.jr_plain.specs.Types.{named_type, type_at, type_of_declared, parameters, is_same_signature};
ghost use Rattle.jr_defs.specs.Access.{IsThrough, ByProtected, IsAccessible};
ghost use Rattle.jr_defs.specs.Imports.{SingleImport, StaticImport, OnDemandImport, ImportsHold};
ghost use Rattle.jr_defs.specs.Instances.{InStaticContext, InConstructorCall, HasInstance};
ghost use Rattle.jr_defs.specs.Laws.{Picked};
ghost use Rattle.jr_defs.specs.Lookup.{Candidate, Look};
ghost use Rattle.jr_defs.specs.Overloads.{ArgumentTypes, IsApplicable, MoreSpecific, ResultFits, Earlier, Choice, ImportedChoice};
ghost use Rattle.jr_defs.specs.Scope.{Depth, HasScope, InScope, Shadows, Visible};
ghost use Rattle.jr_defs.specs.Typing.{LiteralType, OperatorClass, BinaryType, TypeOf};
ghost use Rattle.jr_plain.specs.Access.{is_through, is_by_protected, is_accessible};
ghost use Rattle.jr_plain.specs.Imports.{is_single_import, is_static_import, is_on_demand_import, imports_hold};
ghost use Rattle.jr_plain.specs.Instances.{is_in_static_context, is_in_constructor_call, has_instance};
ghost use Rattle.jr_plain.specs.Lookup.{candidates, look};
ghost use Rattle.jr_plain.specs.Overloads.{Types, argument_types, is_applicable, is_more_specific, is_result_fit, is_earlier, choice, imported_choice};
ghost use Rattle.jr_plain.specs.Scope.{has_scope, is_in_scope, shadows, is_visible};
ghost use Rattle.jr_base.specs.declared.kind.Kind.{Kind};
ghost use Rattle.jr_defs.specs.declared.referent.Element.{Element};
ghost use Rattle.jr_defs.specs.Headers.{NamesHeader, IsSettled};
ghost use Rattle.jr_defs.specs.declared.referent.Referent.TheVariants.{Declared};
ghost use Rattle.jr_defs.specs.Operators.{cast_to, assigned_to};
ghost use Rattle.jr_defs.specs.Constants.{Converts, ConstantOf, HasConstantForm};
ghost use Rattle.jr_base.specs.declared.constant.Const.{Const};
ghost use Rattle.jr_plain.specs.Constants.{converted_as, constants, has_constant_form};
ghost use Rattle.jr_defs.specs.Conversions.{Promotes, PromotesBoth, IsCastable, IsAssignable};
ghost use Rattle.jr_plain.specs.Conversions.{Constants, promoted_type, promoted_both, is_castable, is_assignable};
ghost use Rattle.jr_plain.specs.Typing.{IsTypable, literal_type, binary_type, expression_types};

/// What searches below a number find. A least set has all that follows from it, and nothing of which this does not hold; a number reaches another by edges as
/// its definition says, also where the graph has cycles.
pub fn searches_are_exact()
    ensures any { (test : ℕ → Bool) (n : ℕ) → Decides (any_below n test) ((k : ℕ) × (k < n) × (test k ≡ true)) }
    ensures all { (test : ℕ → Bool) (n : ℕ) → Decides (all_below n test) ((k : ℕ) → k < n → test k ≡ true) }
    ensures first { (test : ℕ → Bool) (n : ℕ) → Finds (first_below n test) (IsFirst (λ k. test k ≡ true) n) }
    ensures last { (test : ℕ → Bool) (n : ℕ) → Finds (last_below n test) (IsLast (λ k. test k ≡ true) n) }
    ensures such { (test : ℕ → Bool) (n : ℕ) → Lists (all_such n test) (λ k. (k < n) × (test k ≡ true)) }
    ensures closed { (n : ℕ) (follows : List ℕ → ℕ → Bool) (k : ℕ) → k < n → follows (least_below n follows) k ≡ true → has (least_below n follows) k ≡ true }
    ensures reached { (n : ℕ) (edge : ℕ → ℕ → Bool) → ((a b : ℕ) → edge a b ≡ true → a < n) → (a b : ℕ) → Decides (reaches n edge a b) (Reaches (λ a b. edge a b ≡ true) a b) }
{}

/// What rows declare, and which rows refer.
pub fn declarations_are_computed()
    ensures named { (p : Rows) (kind : Space) (x : Text) (d : ℕ) → Decides (declares p kind x d) (Declares p kind x d) }
    ensures types { (p : Rows) (c : ℕ) → Decides (is_type p c) (IsType p c) }
    ensures classes { (p : Rows) (c : ℕ) → Decides (is_class p c) (IsClass p c) }
    ensures interfaces { (p : Rows) (c : ℕ) → Decides (is_interface p c) (IsInterface p c) }
    ensures variables { (p : Rows) (d : ℕ) → Decides (is_variable p d) (IsVariable p d) }
    ensures prelude { (p : Rows) (x : Text) (c : ℕ) → Decides (is_prelude p x c) (IsPrelude p x c) }
    ensures occurrences { (p : Rows) (o : ℕ) → Decides (is_occurrence p o) (IsOccurrence p o) }
    ensures parts { (p : Rows) (t : Table) (o : ℕ) → Decides (is_part p t o) (IsPart p t o) }
    ensures references { (p : Rows) (t : Table) (o : ℕ) → Decides (is_reference p t o) (IsReference p t o) }
{}

/// Bodies, members and the types round a place.
pub fn enclosing_types_are_computed()
    ensures bodies { (p : Rows) (c o : ℕ) → Decides (is_in_body p c o) (InBody p c o) }
    ensures innermost { (p : Rows) (o : ℕ) → Finds (innermost p o) (λ c. Innermost p o c) }
    ensures declared { (p : Rows) (c d : ℕ) → Decides (is_declared_in p c d) (DeclaredIn p c d) }
    ensures declaring { (p : Rows) (d : ℕ) → Finds (declaring_type p d) (λ c. DeclaredIn p c d) }
    ensures members { (p : Rows) (c : ℕ) → IsTree p → Lists (declared_by p c) (λ d. DeclaredIn p c d) }
    ensures constructors { (p : Rows) (c k : ℕ) → Decides (is_constructor_of p c k) (ConstructorOf p c k) }
    ensures constructed { (p : Rows) (k : ℕ) → Finds (constructed_class p k) (λ c. ConstructorOf p c k) }
    ensures top_level { (p : Rows) (c : ℕ) → Decides (is_top_level p c) (IsTopLevel p c) }
    ensures in_top_level { (p : Rows) (k o : ℕ) → Decides (is_in_top_level p k o) (InTopLevel p k o) }
    ensures same_top_level { (p : Rows) (m n : ℕ) → Decides (is_same_top_level p m n) (SameTopLevel p m n) }
    ensures one_top_level { (p : Rows) (o : ℕ) → IsLocal p → Finds (top_level_of p o) (λ k. InTopLevel p k o) }
{}

/// The modifiers of declarations, with those that an interface gives its members.
pub fn modifiers_are_computed()
    ensures in_interface { (p : Rows) (d : ℕ) → Decides (is_in_interface p d) (InInterface p d) }
    ensures publics { (p : Rows) (d : ℕ) → Decides (is_public p d) (IsPublic p d) }
    ensures protecteds { (p : Rows) (d : ℕ) → Decides (is_protected p d) (IsProtected p d) }
    ensures privates { (p : Rows) (d : ℕ) → Decides (is_private p d) (IsPrivate p d) }
    ensures statics { (p : Rows) (d : ℕ) → Decides (is_static p d) (IsStatic p d) }
    ensures finals { (p : Rows) (d : ℕ) → Decides (is_final p d) (IsFinal p d) }
    ensures abstracts { (p : Rows) (d : ℕ) → Decides (is_abstract p d) (IsAbstract p d) }
    ensures inners { (p : Rows) (c : ℕ) → Decides (is_inner p c) (IsInner p c) }
{}

/// Units and packages.
pub fn packages_are_computed()
    ensures units { (p : Rows) (u o : ℕ) → Decides (is_in_unit p u o) (InUnit p u o) }
    ensures one_unit { (p : Rows) (o : ℕ) → IsLocal p → Finds (unit_of p o) (λ u. InUnit p u o) }
    ensures packages { (p : Rows) (path : List Text) (o : ℕ) → Decides (is_in_package p path o) (InPackage p path o) }
    ensures same { (p : Rows) (m n : ℕ) → Decides (is_same_package p m n) (SamePackage p m n) }
    ensures types { (p : Rows) (path : List Text) (d : ℕ) → Decides (is_type_of_package p path d) (TypeOfPackage p path d) }
{}

/// Types as they are written and declared. That the rows are a tree bounds how many children a method has.
pub fn types_are_computed()
    ensures named { (p : Rows) (t : Table) (n : ℕ) → Finds (named_type p t n) (λ c. NamesType p t n c) }
    ensures written { (p : Rows) (t : Table) (n : ℕ) → Finds (type_at p t n) (λ a. TypeAt p t n a) }
    ensures declared { (p : Rows) (t : Table) (d : ℕ) → Finds (type_of_declared p t d) (λ a. HasType p t d a) }
    ensures parameters { (p : Rows) (t : Table) (m : ℕ) → IsTree p → Finds (parameters p t m) (λ all. Parameters p t m all) }
    ensures signatures { (p : Rows) (t : Table) (m k : ℕ) → IsTree p → Decides (is_same_signature p t m k) (SameSignature p t m k) }
{}

/// What the laws on supertypes and members ask of rows is true of formed rows, and of rows that stand as their labels may.
pub fn headers_stand_below_types()
    ensures formed { (p : Rows) → IsFormed p → IsHeaded p }
    ensures local { (p : Rows) → IsLocal p → IsHeaded p }
{}

/// Supertypes and subtypes, whatever the table says, also where types are above themselves.
pub fn supertypes_are_computed()
    ensures at { (p : Rows) (t : Table) (c n s : ℕ) → IsHeaded p → Decides (is_super_at p t c n s) (SuperAt p t c n s) }
    ensures direct { (p : Rows) (t : Table) (c : ℕ) → IsHeaded p → Lists (supers p t c) (λ s. Super p t c s) }
    ensures superclass { (p : Rows) (t : Table) (c : ℕ) → IsHeaded p → Lists (superclasses p t c) (λ s. Superclass p t c s) }
    ensures above { (p : Rows) (t : Table) (c s : ℕ) → IsHeaded p → Decides (is_above p t c s) (Above p t c s) }
    ensures at_or_above { (p : Rows) (t : Table) (c s : ℕ) → IsHeaded p → Decides (is_at_or_above p t c s) (AtOrAbove p t c s) }
    ensures subtypes { (p : Rows) (t : Table) (a b : RowType) → IsHeaded p → Decides (is_subtype p t a b) (Subtype p t a b) }
{}

/// The members of types.
pub fn members_are_computed()
    ensures left { (p : Rows) (t : Table) (c d : ℕ) → IsHeaded p → Decides (is_left p t c d) (IsLeft p t c d) }
    ensures inherited { (p : Rows) (c d : ℕ) → Decides (can_inherit p c d) (CanInherit p c d) }
    ensures member { (p : Rows) (t : Table) (c d : ℕ) → IsHeaded p → Decides (is_member p t c d) (MemberOf p t c d) }
    ensures members { (p : Rows) (t : Table) (c : ℕ) → IsHeaded p → Lists (members p t c) (λ d. MemberOf p t c d) }
    ensures named { (p : Rows) (t : Table) (kind : Space) (x : Text) (c d : ℕ) → IsHeaded p → Decides (is_member_named p t kind x c d) (MemberNamed p t kind x c d) }
    ensures all_named { (p : Rows) (t : Table) (kind : Space) (x : Text) (c : ℕ) → IsHeaded p → Lists (members_named p t kind x c) (λ d. MemberNamed p t kind x c d) }
{}

/// Overriding, and the method that a call finds in a class.
pub fn overriding_is_computed()
    ensures overriding { (p : Rows) (t : Table) (m k : ℕ) → IsHeaded p → Decides (overrides p t m k) (Overrides p t m k) }
    ensures has { (p : Rows) (t : Table) (c m : ℕ) → IsHeaded p → Decides (has_method p t c m) (Has p t c m) }
    ensures implementing { (p : Rows) (t : Table) (c f m : ℕ) → IsHeaded p → Decides (implements p t c f m) (Implements p t c f m) }
    ensures serving { (p : Rows) (t : Table) (c m f : ℕ) → IsHeaded p → Decides (serves p t c m f) (Serves p t c m f) }
    ensures found { (p : Rows) (t : Table) (c m f : ℕ) → IsHeaded p → Decides (is_found p t c m f) (Found p t c m f) }
    ensures dispatch { (p : Rows) (t : Table) (c m f : ℕ) → IsHeaded p → Decides (dispatches p t c m f) (Dispatches p t c m f) }
{}

/// The answer of a list of candidates is an answer of their set. `other` is the answer for want of one.
pub fn answers_are_computed()
    ensures answer { (C : ℕ → Option ℕ → Bool) (other : Referent) (all : List (ℕ × Option ℕ)) → ((d : ℕ) (level : Option ℕ) → Decides (is_candidate all d level) (C d level ≡ true))
        → IsAnswer (λ d level. C d level ≡ true) (λ a. a ≡ other) (answer_of all other) }
{}

/// What imports bring into scope, and where they hold.
pub fn imports_are_computed()
    ensures single { (p : Rows) (t : Table) (u d : ℕ) → Decides (is_single_import p t u d) (SingleImport p t u d) }
    ensures statics { (p : Rows) (t : Table) (u d : ℕ) → IsHeaded p → Decides (is_static_import p t u d) (StaticImport p t u d) }
    ensures on_demand { (p : Rows) (t : Table) (u d : ℕ) → IsHeaded p → Decides (is_on_demand_import p t u d) (OnDemandImport p t u d) }
    ensures hold { (p : Rows) (u o : ℕ) → Decides (imports_hold p u o) (ImportsHold p u o) }
{}

/// Scope and shadowing.
pub fn scope_is_computed()
    ensures scope { (p : Rows) (t : Table) (o d : ℕ) (r : Depth) → IsHeaded p → Decides (has_scope p t o d r) (HasScope p t o d r) }
    ensures in_scope { (p : Rows) (t : Table) (kind : Space) (x : Text) (o d : ℕ) (r : Depth) → IsHeaded p → Decides (is_in_scope p t kind x o d r) (InScope p t kind x o d r) }
    ensures shadowing { (p : Rows) (t : Table) (o d e : ℕ) → IsHeaded p → Decides (shadows p t o d e) (Shadows p t o d e) }
    ensures visible { (p : Rows) (t : Table) (kind : Space) (x : Text) (o d : ℕ) (r : Depth) → IsHeaded p → Decides (is_visible p t kind x o d r) (Visible p t kind x o d r) }
{}

/// Static contexts, and the classes that have an instance at a place.
pub fn instances_are_computed()
    ensures static_context { (p : Rows) (o : ℕ) → Decides (is_in_static_context p o) (InStaticContext p o) }
    ensures constructor_call { (p : Rows) (o : ℕ) → Decides (is_in_constructor_call p o) (InConstructorCall p o) }
    ensures instances { (p : Rows) (o c : ℕ) → Decides (has_instance p o c) (HasInstance p o c) }
{}

/// What is accessible at a place.
pub fn access_is_computed()
    ensures through { (p : Rows) (t : Table) (s d : ℕ) (receiver : Option RowType) → IsHeaded p → Decides (is_through p t s d receiver) (IsThrough p t s d receiver) }
    ensures protecteds { (p : Rows) (t : Table) (d o : ℕ) (receiver : Option RowType) → IsHeaded p → Decides (is_by_protected p t d o receiver) (ByProtected p t d o receiver) }
    ensures access { (p : Rows) (t : Table) (d o : ℕ) (receiver : Option RowType) → IsHeaded p → Decides (is_accessible p t d o receiver) (IsAccessible p t d o receiver) }
{}

/// The types of arguments, where a function gives the types of expressions.
pub fn arguments_are_computed()
    ensures arguments { (p : Rows) (t : Table) (k : ℕ → Bool) (type_of : Types) → IsTree p → ((n : ℕ) → Finds (type_of n) (λ a. TypeOf p t (Picked k) n a))
        → (n first : ℕ) → n < first → Finds (argument_types p type_of n (length p) first) (λ all. ArgumentTypes p t (Picked k) n first all) }
{}

/// Which methods and constructors are applicable, the most specific of them, and the choice among them.
pub fn choices_are_computed()
    ensures applicable { (p : Rows) (t : Table) (o : ℕ) (receiver : Option RowType) (arguments : List RowType) (m : ℕ) → IsHeaded p
        → Decides (is_applicable p t o receiver arguments m) (IsApplicable p t o receiver arguments m) }
    ensures more_specific { (p : Rows) (t : Table) (m k : ℕ) → IsHeaded p → Decides (is_more_specific p t m k) (MoreSpecific p t m k) }
    ensures results { (p : Rows) (t : Table) (m k : ℕ) → IsHeaded p → Decides (is_result_fit p t m k) (ResultFits p t m k) }
    ensures order { (p : Rows) (t : Table) (c d e : ℕ) → IsHeaded p → Decides (is_earlier p t c d e) (Earlier p t c d e) }
    ensures choice { (p : Rows) (t : Table) (c o : ℕ) (receiver : Option RowType) (arguments : List RowType) (methods : List ℕ) → IsHeaded p
        → Lists (choice p t c o receiver arguments methods) (Choice p t c o receiver arguments (λ m. has methods m ≡ true)) }
    ensures imported { (p : Rows) (t : Table) (o : ℕ) (arguments : List RowType) (methods : List ℕ) → IsHeaded p
        → Lists (imported_choice p t o arguments methods) (ImportedChoice p t o arguments (λ m. has methods m ≡ true)) }
{}

/// What occurrences refer to, where a function gives the types of expressions: the answer that is computed is one, and the only one.
pub fn lookup_is_computed()
    ensures candidates { (p : Rows) (t : Table) (k : ℕ → Bool) (type_of : Types) → IsHeaded p → ((n : ℕ) → Finds (type_of n) (λ a. TypeOf p t (Picked k) n a))
        → (o : ℕ) (x : Text) (s : Sought) (d : ℕ) (level : Option ℕ) → Decides (is_candidate (candidates p t type_of o x s) d level) (Candidate p t (Picked k) o x s d level) }
    ensures answer { (p : Rows) (t : Table) (k : ℕ → Bool) (type_of : Types) → IsHeaded p → ((n : ℕ) → Finds (type_of n) (λ a. TypeOf p t (Picked k) n a))
        → (o : ℕ) → Look p t (Picked k) o (look p t type_of o) }
    ensures only { (p : Rows) (t : Table) (k : ℕ → Bool) (type_of : Types) → IsHeaded p → ((n : ℕ) → Finds (type_of n) (λ a. TypeOf p t (Picked k) n a))
        → (o : ℕ) (a : Referent) → Look p t (Picked k) o a → a ≡ look p t type_of o }
{}

/// Promotion, casts, and assignment where a function gives the values of constants.
pub fn conversions_are_computed()
    ensures promotion { (a : Element) → Finds (promoted_type a) (λ r. Promotes a r) }
    ensures both { (a b : Element) → Finds (promoted_both a b) (λ r. PromotesBoth a b r) }
    ensures casts { (p : Rows) (t : Table) (a b : RowType) → IsHeaded p → Decides (is_castable p t a b) (IsCastable p t a b) }
    ensures assignment { (p : Rows) (t : Table) (k : ℕ → Bool) (constant : Constants) (n : ℕ) (a b : RowType) → IsHeaded p
        → Finds (constant n) (λ v. ConstantOf p t (Picked k) n v) → Decides (is_assignable p t constant n a b) (IsAssignable p t (Picked k) n a b) }
{}

/// The types of literals, operators and expressions, where a function gives the values of constants.
pub fn expression_types_are_computed()
    ensures literals { (p : Rows) (t : Table) (token : Kind) → IsTypable p t → Finds (literal_type p token) (λ a. LiteralType p token a) }
    ensures operators { (p : Rows) (t : Table) (op : OperatorClass) (a b : RowType) → IsTypable p t → Finds (binary_type p t op a b) (λ r. BinaryType p t op a b r) }
    ensures types { (p : Rows) (t : Table) (k : ℕ → Bool) (constant : Constants) → IsTypable p t → ((n : ℕ) → Finds (constant n) (λ v. ConstantOf p t (Picked k) n v))
        → (n : ℕ) → Finds (expression_types p t constant n) (λ a. TypeOf p t (Picked k) n a) }
{}

/// Where a table agrees with lookup, names and fields alone refer to variables.
pub fn looked_up_tables_are_typable()
    ensures typable { (p : Rows) (t : Table) (k : ℕ → Bool) → IsHeaded p → ((s d : ℕ) → IsString p s → IsString p d → s ≡ d)
        → ((d s : ℕ) → Above p t d s → Above p t s d → d ≡ s) → ((n : ℕ) → Look p t (Picked k) n (t n)) → IsTypable p t }
    ensures acyclic { (p : Rows) (t : Table) → IsFormed p → ((c n s : ℕ) (level : Option ℕ) → NamesHeader p c n → t n ≡ Declared s level → IsType p s)
        → ((o e : ℕ) → IsObject p o → IsObject p e → o ≡ e) → ((c : ℕ) → IsType p c → IsSettled p t t c) → (d s : ℕ) → Above p t d s → Above p t s d → d ≡ s }
{}

/// In a table in which expressions have one type, lookup has an answer everywhere, and it is computed.
pub fn lookup_has_an_answer()
    ensures answer { (p : Rows) (t : Table) (k : ℕ → Bool) → IsTypable p t → (o : ℕ) → Look p t (Picked k) o (look p t (expression_types p t (constants p t k)) o) }
{}

/// The values of constant expressions, the form of references that may be constant, and with both the types of expressions.
pub fn constants_are_computed()
    ensures conversions { (p : Rows) (e : RowType) (v : Const) → Finds (converted_as p assigned_to e v) (λ w. Converts p assigned_to v w e) }
    ensures casts { (p : Rows) (e : RowType) (v : Const) → Finds (converted_as p cast_to e v) (λ w. Converts p cast_to v w e) }
    ensures constants { (p : Rows) (t : Table) (k : ℕ → Bool) → IsTypable p t → (n : ℕ) → Finds (constants p t k n) (λ v. ConstantOf p t (Picked k) n v) }
    ensures form { (p : Rows) (t : Table) (n : ℕ) → Decides (has_constant_form p t n) (HasConstantForm p t n) }
    ensures types { (p : Rows) (t : Table) (k : ℕ → Bool) → IsTypable p t → (n : ℕ) → Finds (expression_types p t (constants p t k) n) (λ a. TypeOf p t (Picked k) n a) }
{}
