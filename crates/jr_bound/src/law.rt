// The binding of a program of files.
ghost use Rattle.jr_prelude.specs.Laws.{OfFiles};
ghost use Rattle.std.specs.Prelude.{Decides};
ghost use Rattle.jr_tree.specs.Rows.{Rows};
ghost use Rattle.jr_defs.specs.Referents.{Table};
ghost use Rattle.jr_defs.specs.Compiling.{AllFound};
ghost use Rattle.jr_bound.specs.Found.{all_found};
ghost use Rattle.jr_bound.specs.Laws.{CallsFindOne, BindingIsTypable, TypeRulesAreDecided, KeepingIsDecided, IsBoundWhereSettled, IsUnboundElse, HasBindingDecided, BindingIsComputed, HasCycleOrBinding, HasNoneBesideCycle, FindsFirstOnCycle, IsBoundWhereNoneFound};

/// A program of files has a binding exactly where its headers are settled. It is the one that is computed, and there is no other.
pub fn files_have_one_binding()
    ensures one { OfFiles IsBoundWhereSettled }
    ensures none { OfFiles IsUnboundElse }
    ensures decided { OfFiles HasBindingDecided }
    ensures computed { OfFiles BindingIsComputed }
{}

/// A program of files has a cycle of headers or a binding, and never both. The first type on a cycle is computed: there is a binding exactly where there is none.
pub fn files_have_a_cycle_or_a_binding()
    ensures one { OfFiles HasCycleOrBinding }
    ensures other { OfFiles HasNoneBesideCycle }
    ensures first { OfFiles FindsFirstOnCycle }
    ensures none { OfFiles IsBoundWhereNoneFound }
{}

/// In the binding of a program of files an expression has one type at most, so the rules on types and static contexts are decided at each row. Whether each
/// occurrence refers to one thing is decided too; and whether the program has a binding in which that is so, and breaks none of the rules that are defined so far.
pub fn rules_of_files_are_decided()
    ensures typable { OfFiles BindingIsTypable }
    ensures rules { OfFiles TypeRulesAreDecided }
    ensures found { (p : Rows) (t : Table) → Decides (all_found p t) (AllFound p t) }
    ensures kept { OfFiles KeepingIsDecided }
{}

/// In a program of files a call finds one method at most in a class, under any table: also where a body declares two methods of one signature (JLS 15.12.4.4).
pub fn calls_of_files_find_one_method()
    ensures { OfFiles CallsFindOne }
{}
