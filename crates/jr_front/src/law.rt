// Laws of what is opened.
ghost use Rattle.jr_defs.specs.Referents.{entries};
ghost use Rattle.jr_dispatch.specs.Methods.{IsWholeWorld};
ghost use Rattle.jr_prelude.specs.Begins.{BeginsWithLang};
ghost use Rattle.jr_type_facts.specs.Views.{IsSeenView};
ghost use Rattle.jr_view.specs.declared.View.{View};
ghost use Rattle.jr_front.specs.Bound.{IsBoundIn, rows_in};
ghost use Rattle.jr_front.specs.Tested.{IsTestableView};
ghost use Rattle.jr_front.specs.Viewed.{HasTablesOfRows, IsViewOf};
ghost use Rattle.jr_front.specs.declared.workspace.Workspace.{Workspace};

/// The view of a bound program has the places, supertypes and members of its binding, as the rules and calls ask, and of each row the type, the value
/// and the class round it that the definitions give. Where the program begins with java.lang the rules
/// can be tested on it.
pub fn bound_views_are_right()
    ensures seen { (w : Workspace) (view : View) → IsBoundIn w → IsViewOf (rows_in w) w.places.value w.scopes.value w.bound.value view → IsSeenView view }
    ensures whole { (w : Workspace) (view : View) → IsBoundIn w → IsViewOf (rows_in w) w.places.value w.scopes.value w.bound.value view → IsWholeWorld (entries view.sight.world.under.table.now) view.sight.world }
    ensures tables { (w : Workspace) (view : View) → IsBoundIn w → IsViewOf (rows_in w) w.places.value w.scopes.value w.bound.value view → HasTablesOfRows view }
    ensures testable { (w : Workspace) (view : View) → IsBoundIn w → BeginsWithLang (rows_in w) → IsViewOf (rows_in w) w.places.value w.scopes.value w.bound.value view → IsTestableView view }
{}
