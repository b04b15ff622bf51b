// The rules on names that are broken at the rows of a program.
ghost use Rattle.std.specs.Prelude.{◌≡◌, ◌+◌, ◌-◌, ◌<◌, IfOk, OnOk, length};
ghost use Rattle.jr_tree.specs.Rows.{Rows};
ghost use Rattle.jr_defs.specs.Referents.{Table};
ghost use Rattle.jr_name_rules.specs.AccessTests as access;
ghost use Rattle.jr_name_rules.specs.DeclarationTests as plain;
ghost use Rattle.jr_name_rules.specs.Found.{is_next};
ghost use Rattle.jr_name_rules.specs.ImportTests.{has_import_clash, has_static_import_fault, is_import_not_canonical};
ghost use Rattle.jr_rule.specs.declared.Rule.TheVariants as rules;
ghost use Rattle.jr_rule.specs.Faults.{AreFaultsOf};
ghost use Rattle.jr_faults.specs.Added.{row_if, is_rule, AreOnly};
ghost use Rattle.jr_name_faults.specs.Faults as tell;
ghost use Rattle.jr_members.specs.declared.members.World as worlds;
ghost use Rattle.jr_name_faults.specs.Imports.{rows_of, table_of, AreImportsTo};
ghost use Rattle.jr_name_faults.specs.Locals.{AreLocalsTo, IsBefore, IsEntered};
ghost use Rattle.jr_name_faults.specs.Statics.{AreStatics, AreStaticsTo};
ghost use Rattle.jr_name_faults.specs.Views as views;

use crate::access::{is_not_accessible, is_occurrence};
use crate::imports::Imports;
use crate::locals::Locals;
use crate::statics::Statics;
use jr_base::OutOfMemory;
use jr_faults::rule_if;
use jr_rule::{Fault, Rule};
use jr_tree::Row;
use jr_view::View;
use std::alloc::Global;

// The rule on names of locals, where it is broken at a row.
fn name_fault(locals: &Locals, at: u32, out: &mut Vec<Fault>) -> Result<(), OutOfMemory>
    ensures found { (p : Rows) → at < length p → IsEntered p at locals.now → OnOk result (AreFaultsOf rules.LocalNames (row_if (plain.is_second_local p at) at) out.old.items out.new.items) }
    ensures others { OnOk result (AreOnly (is_rule rules.LocalNames) out.old.items out.new.items) }
{
    let is_broken = locals.is_second_local(at);
    rule_if(out, is_broken, at, Rule::LocalNames)?;
    Ok(())
}

// The rule on labels, where it is broken at a row.
fn label_fault(locals: &Locals, at: u32, out: &mut Vec<Fault>) -> Result<(), OutOfMemory>
    ensures found { (p : Rows) → at < length p → IsEntered p at locals.now → OnOk result (AreFaultsOf rules.Labels (row_if (plain.is_second_label p at) at) out.old.items out.new.items) }
    ensures others { OnOk result (AreOnly (is_rule rules.Labels) out.old.items out.new.items) }
{
    let is_broken = locals.is_second_label(at);
    rule_if(out, is_broken, at, Rule::Labels)?;
    Ok(())
}

// The rules on locals and labels that are broken at a local, parameter or label, whose scope is opened then.
fn scope_faults(
    alloc: Global,
    locals: &mut Locals,
    at: u32,
    out: &mut Vec<Fault>,
) -> Result<(), OutOfMemory>
    ensures open { (p : Rows) → at < length p → IsEntered p at locals.old → OnOk result (IsBefore p (at + 1) locals.new) }
    ensures names { (p : Rows) → at < length p → IsEntered p at locals.old → OnOk result (AreFaultsOf rules.LocalNames (row_if (plain.is_second_local p at) at) out.old.items out.new.items) }
    ensures labels { (p : Rows) → at < length p → IsEntered p at locals.old → OnOk result (AreFaultsOf rules.Labels (row_if (plain.is_second_label p at) at) out.old.items out.new.items) }
    ensures others { OnOk result (AreOnly tell.is_of_locals out.old.items out.new.items) }
{
    name_fault(locals, at, out)?;
    label_fault(locals, at, out)?;
    locals.declare(alloc, at)?;
    Ok(())
}

// The same, of any row.
fn any_scope_faults(
    alloc: Global,
    locals: &mut Locals,
    at: u32,
    out: &mut Vec<Fault>,
) -> Result<(), OutOfMemory>
    ensures open { (p : Rows) → at < length p → IsEntered p at locals.old → OnOk result (IsBefore p (at + 1) locals.new) }
    ensures names { (p : Rows) → at < length p → IsEntered p at locals.old → OnOk result (AreFaultsOf rules.LocalNames (row_if (plain.is_second_local p at) at) out.old.items out.new.items) }
    ensures labels { (p : Rows) → at < length p → IsEntered p at locals.old → OnOk result (AreFaultsOf rules.Labels (row_if (plain.is_second_label p at) at) out.old.items out.new.items) }
    ensures others { OnOk result (AreOnly tell.is_of_locals out.old.items out.new.items) }
{
    if !locals.declares(at) {
        return Ok(());
    }
    scope_faults(alloc, locals, at, out)?;
    Ok(())
}

// The rules on locals and labels that are broken at a row.
fn local_faults(
    alloc: Global,
    locals: &mut Locals,
    at: u32,
    out: &mut Vec<Fault>,
) -> Result<(), OutOfMemory>
    ensures open { (p : Rows) → at < length p → IsBefore p at locals.old → OnOk result (IsBefore p (at + 1) locals.new) }
    ensures names { (p : Rows) → at < length p → IsBefore p at locals.old → OnOk result (AreFaultsOf rules.LocalNames (row_if (plain.is_second_local p at) at) out.old.items out.new.items) }
    ensures labels { (p : Rows) → at < length p → IsBefore p at locals.old → OnOk result (AreFaultsOf rules.Labels (row_if (plain.is_second_label p at) at) out.old.items out.new.items) }
    ensures others { OnOk result (AreOnly tell.is_of_locals out.old.items out.new.items) }
{
    locals.enter(alloc, at)?;
    any_scope_faults(alloc, locals, at, out)?;
    Ok(())
}

// The rule on names of imports, where it is broken behind the import.
fn clash_fault(
    imports: &Imports,
    import: u32,
    at: u32,
    out: &mut Vec<Fault>,
) -> Result<(), OutOfMemory>
    ensures found { (p : Rows) (t : Table) → import + 1 < length p → AreImportsTo p t (length p) import imports.now → OnOk result (AreFaultsOf rules.ImportNames (row_if (has_import_clash p t import) at) out.old.items out.new.items) }
    ensures others { OnOk result (AreOnly (is_rule rules.ImportNames) out.old.items out.new.items) }
{
    let is_broken = imports.has_import_clash(import);
    rule_if(out, is_broken, at, Rule::ImportNames)?;
    Ok(())
}

// The rule on imported types, where it is broken behind the import.
fn canonical_fault(
    imports: &Imports,
    import: u32,
    at: u32,
    out: &mut Vec<Fault>,
) -> Result<(), OutOfMemory>
    ensures found { (p : Rows) (t : Table) → import + 1 < length p → AreImportsTo p t (length p) import imports.now → OnOk result (AreFaultsOf rules.ImportedTypes (row_if (is_import_not_canonical p t import) at) out.old.items out.new.items) }
    ensures others { OnOk result (AreOnly (is_rule rules.ImportedTypes) out.old.items out.new.items) }
{
    let is_broken = imports.is_import_not_canonical(import);
    rule_if(out, is_broken, at, Rule::ImportedTypes)?;
    Ok(())
}

// The rules on imports that are broken at a row: what an import names stands behind it.
fn import_faults(
    alloc: Global,
    imports: &mut Imports,
    at: u32,
    out: &mut Vec<Fault>,
) -> Result<(), OutOfMemory>
    ensures open { (p : Rows) (t : Table) → at < length p → AreImportsTo p t (length p) (at - 1) imports.old → OnOk result (AreImportsTo p t (length p) at imports.new) }
    ensures names { (p : Rows) (t : Table) → at < length p → AreImportsTo p t (length p) (at - 1) imports.old → OnOk result (AreFaultsOf rules.ImportNames (row_if (is_next (has_import_clash p t) at) at) out.old.items out.new.items) }
    ensures types { (p : Rows) (t : Table) → at < length p → AreImportsTo p t (length p) (at - 1) imports.old → OnOk result (AreFaultsOf rules.ImportedTypes (row_if (is_next (is_import_not_canonical p t) at) at) out.old.items out.new.items) }
    ensures others { OnOk result (AreOnly tell.is_of_imports out.old.items out.new.items) }
{
    let Some(import) = at.checked_sub(1) else {
        return Ok(());
    };
    if !imports.has_import(import) {
        return Ok(());
    }
    clash_fault(imports, import, at, out)?;
    canonical_fault(imports, import, at, out)?;
    imports.pass(alloc, import)?;
    Ok(())
}

// The rule on static imports, where it is broken at a row.
fn static_fault(
    alloc: Global,
    statics: &Statics,
    at: u32,
    out: &mut Vec<Fault>,
) -> Result<(), OutOfMemory>
    ensures found { (world : worlds.World) → AreStatics world statics.now → OnOk result (AreFaultsOf rules.StaticImports (row_if (has_static_import_fault (rows_of world) (table_of world) at) at) out.old.items out.new.items) }
    ensures others { OnOk result (AreOnly (is_rule rules.StaticImports) out.old.items out.new.items) }
{
    if !statics.has_static_import(at) {
        return Ok(());
    }
    let is_broken = statics.has_fault(alloc, at)?;
    rule_if(out, is_broken, at, Rule::StaticImports)?;
    Ok(())
}

// The rule on access, where it is broken at a row.
fn access_fault(view: &View, at: u32, out: &mut Vec<Fault>) -> Result<(), OutOfMemory>
    ensures found { views.IsSeenView view.now → OnOk result (AreFaultsOf rules.Access (row_if (access.is_not_accessible (views.rows_in view.now) (views.table_in view.now) (views.types_in view.now) at) at) out.old.items out.new.items) }
    ensures others { OnOk result (AreOnly (is_rule rules.Access) out.old.items out.new.items) }
{
    if !is_occurrence(view.sight.world.under.rows, at) {
        return Ok(());
    }
    let is_broken = is_not_accessible(view, at);
    rule_if(out, is_broken, at, Rule::Access)?;
    Ok(())
}

// The rules on names that are broken at a row.
fn row_faults(
    alloc: Global,
    view: &View,
    locals: &mut Locals,
    imports: &mut Imports,
    statics: &Statics,
    at: u32,
    out: &mut Vec<Fault>,
) -> Result<(), OutOfMemory>
    ensures open { (p : Rows) → at < length p → IsBefore p at locals.old → OnOk result (IsBefore p (at + 1) locals.new) }
    ensures local_names { (p : Rows) → at < length p → IsBefore p at locals.old → OnOk result (AreFaultsOf rules.LocalNames (row_if (plain.is_second_local p at) at) out.old.items out.new.items) }
    ensures labels { (p : Rows) → at < length p → IsBefore p at locals.old → OnOk result (AreFaultsOf rules.Labels (row_if (plain.is_second_label p at) at) out.old.items out.new.items) }
    ensures access { views.IsSeenView view.now → OnOk result (AreFaultsOf rules.Access (row_if (access.is_not_accessible (views.rows_in view.now) (views.table_in view.now) (views.types_in view.now) at) at) out.old.items out.new.items) }
    ensures passed { (p : Rows) (t : Table) → at < length p → AreImportsTo p t (length p) (at - 1) imports.old → OnOk result (AreImportsTo p t (length p) at imports.new) }
    ensures import_names { (p : Rows) (t : Table) → at < length p → AreImportsTo p t (length p) (at - 1) imports.old → OnOk result (AreFaultsOf rules.ImportNames (row_if (is_next (has_import_clash p t) at) at) out.old.items out.new.items) }
    ensures imported_types { (p : Rows) (t : Table) → at < length p → AreImportsTo p t (length p) (at - 1) imports.old → OnOk result (AreFaultsOf rules.ImportedTypes (row_if (is_next (is_import_not_canonical p t) at) at) out.old.items out.new.items) }
    ensures static_imports { AreStatics view.now.sight.world statics.now → OnOk result (AreFaultsOf rules.StaticImports (row_if (has_static_import_fault (views.rows_in view.now) (views.table_in view.now) at) at) out.old.items out.new.items) }
    ensures others { OnOk result (tell.AreOfNames out.old.items out.new.items) }
{
    local_faults(alloc, locals, at, out)?;
    import_faults(alloc, imports, at, out)?;
    access_fault(view, at, out)?;
    static_fault(alloc, statics, at, out)?;
    Ok(())
}

/// Adds the rules on names that are broken, as their rows rise: locals, labels, imports and access.
/// Of each of these rules they are the rows at which the definition breaks it, where the tables are right. Of no other rules are faults added.
pub fn name_faults(alloc: Global, view: &View, out: &mut Vec<Fault>) -> Result<(), OutOfMemory>
    ensures local_names { views.IsPlacedView view.now → OnOk result (tell.AreExactFaults view.now rules.LocalNames out.old.items out.new.items) }
    ensures labels { views.IsPlacedView view.now → OnOk result (tell.AreExactFaults view.now rules.Labels out.old.items out.new.items) }
    ensures access { views.IsSeenView view.now → OnOk result (tell.AreExactFaults view.now rules.Access out.old.items out.new.items) }
    ensures import_names { views.IsPlacedView view.now → OnOk result (tell.AreExactFaults view.now rules.ImportNames out.old.items out.new.items) }
    ensures imported_types { views.IsPlacedView view.now → OnOk result (tell.AreExactFaults view.now rules.ImportedTypes out.old.items out.new.items) }
    ensures static_imports { views.IsTabledView view.now → OnOk result (tell.AreExactFaults view.now rules.StaticImports out.old.items out.new.items) }
    ensures others { OnOk result (tell.AreOfNames out.old.items out.new.items) }
{
    let world = &view.sight.world;
    let mut locals = Locals::new(alloc, world.under.rows, world.under.places)?;
    let mut imports = Imports::new(alloc, world);
    let mut statics = Statics::new(alloc, world);
    all_faults(alloc, view, &mut locals, &mut imports, &mut statics, out)
}

// The same, by tables of no rows.
fn all_faults(
    alloc: Global,
    view: &View,
    locals: &mut Locals,
    imports: &mut Imports,
    statics: &mut Statics,
    out: &mut Vec<Fault>,
) -> Result<(), OutOfMemory>
    ensures local_names { AreLocalsTo (views.rows_in view.now) 0 0 0 locals.old → OnOk result (tell.AreExactFaults view.now rules.LocalNames out.old.items out.new.items) }
    ensures labels { AreLocalsTo (views.rows_in view.now) 0 0 0 locals.old → OnOk result (tell.AreExactFaults view.now rules.Labels out.old.items out.new.items) }
    ensures access { views.IsSeenView view.now → OnOk result (tell.AreExactFaults view.now rules.Access out.old.items out.new.items) }
    ensures import_names { AreImportsTo (views.rows_in view.now) (views.table_in view.now) 0 0 imports.old → OnOk result (tell.AreExactFaults view.now rules.ImportNames out.old.items out.new.items) }
    ensures imported_types { AreImportsTo (views.rows_in view.now) (views.table_in view.now) 0 0 imports.old → OnOk result (tell.AreExactFaults view.now rules.ImportedTypes out.old.items out.new.items) }
    ensures static_imports { AreStaticsTo view.now.sight.world 0 statics.old → OnOk result (tell.AreExactFaults view.now rules.StaticImports out.old.items out.new.items) }
    ensures others { OnOk result (tell.AreOfNames out.old.items out.new.items) }
{
    locals.add_parameters(alloc)?;
    imports.add_rows(alloc)?;
    statics.add_rows(alloc)?;
    put_faults(alloc, view, locals, imports, statics, out)
}

fn row_count(rows: &[Row]) -> Result<u32, OutOfMemory>
    ensures { IfOk result (λ count. count ≡ length rows.now) }
{
    let Ok(count) = u32::try_from(rows.len()) else {
        return Err(OutOfMemory);
    };
    Ok(count)
}

// The same, where all parameters and imports are known, and no row was looked at.
fn put_faults(
    alloc: Global,
    view: &View,
    locals: &mut Locals,
    imports: &mut Imports,
    statics: &Statics,
    out: &mut Vec<Fault>,
) -> Result<(), OutOfMemory>
    ensures local_names { IsBefore (views.rows_in view.now) 0 locals.old → OnOk result (tell.AreExactFaults view.now rules.LocalNames out.old.items out.new.items) }
    ensures labels { IsBefore (views.rows_in view.now) 0 locals.old → OnOk result (tell.AreExactFaults view.now rules.Labels out.old.items out.new.items) }
    ensures access { views.IsSeenView view.now → OnOk result (tell.AreExactFaults view.now rules.Access out.old.items out.new.items) }
    ensures import_names { AreImportsTo (views.rows_in view.now) (views.table_in view.now) (length (views.rows_in view.now)) 0 imports.old → OnOk result (tell.AreExactFaults view.now rules.ImportNames out.old.items out.new.items) }
    ensures imported_types { AreImportsTo (views.rows_in view.now) (views.table_in view.now) (length (views.rows_in view.now)) 0 imports.old → OnOk result (tell.AreExactFaults view.now rules.ImportedTypes out.old.items out.new.items) }
    ensures static_imports { AreStatics view.now.sight.world statics.now → OnOk result (tell.AreExactFaults view.now rules.StaticImports out.old.items out.new.items) }
    ensures others { OnOk result (tell.AreOfNames out.old.items out.new.items) }
{
    let count = row_count(view.sight.world.under.rows)?;
    for at in 0..count {
        row_faults(alloc, view, locals, imports, statics, at, out)?;
    }
    Ok(())
}
