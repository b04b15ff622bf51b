// The faults of all rows.
ghost use Rattle.std.specs.Prelude.{◌≡◌, ◌++◌, ◌+◌, ◌<◌, ◌^◌, IfOk, OnOk, length};
ghost use Rattle.jr_type_faults.specs.Faults as tell;

use crate::creations::abstract_is_used;
use crate::groups::{may_break_contexts, may_break_uses, may_break_values};
use crate::initializing::is_used_too_early;
use crate::objects::lacks_object;
use crate::operands::{
    branches_are_unrelated, cast_is_not_allowed, is_no_variable, operands_do_not_fit,
};
use crate::places::{array_does_not_fit, value_does_not_fit, void_is_used};
use crate::statements::{condition_is_not_boolean, is_not_throwable, return_does_not_fit};
use crate::switches::switch_does_not_fit;
use jr_base::OutOfMemory;
use jr_rule::{Fault, Rule};
use jr_tree::Row;
use jr_type_facts::{Facts, Tables};
use jr_view::View;
use std::alloc::Global;

// One fault more, if the rule is broken.
fn push_if(is_broken: bool, row: u32, rule: Rule, out: &mut Vec<Fault>) -> Result<(), OutOfMemory>
    ensures { OnOk result (out.new.items ≡ out.old.items ++ tell.fault_if is_broken row rule) }
{
    if is_broken {
        out.push(Fault { row, rule })?;
    }
    Ok(())
}

// Objects, initializers, constructors and what is thrown.
fn push_contexts(facts: &Facts, at: u32, out: &mut Vec<Fault>) -> Result<(), OutOfMemory>
    ensures exact { tell.CanTell facts.now → OnOk result (tell.AddsRules facts.now.view tell.contexts at out.old.items out.new.items) }
    ensures only { OnOk result (tell.AreOnlyOf tell.contexts out.old.items out.new.items) }
{
    push_if(lacks_object(facts, at), at, Rule::StaticContext, out)?;
    push_if(
        is_used_too_early(facts, at),
        at,
        Rule::ForwardReference,
        out,
    )?;
    push_if(
        facts.tables.calls_itself_round(at),
        at,
        Rule::ConstructorCycle,
        out,
    )?;
    push_if(is_not_throwable(facts, at), at, Rule::Throwable, out)?;
    Ok(())
}

// Operands, values, variables, casts and conditions.
fn push_values(facts: &Facts, at: u32, out: &mut Vec<Fault>) -> Result<(), OutOfMemory>
    ensures exact { tell.CanTell facts.now → OnOk result (tell.AddsRules facts.now.view tell.values at out.old.items out.new.items) }
    ensures only { OnOk result (tell.AreOnlyOf tell.values out.old.items out.new.items) }
{
    push_if(operands_do_not_fit(facts, at), at, Rule::Operands, out)?;
    push_if(value_does_not_fit(facts, at), at, Rule::Assignable, out)?;
    push_if(is_no_variable(facts, at), at, Rule::Variable, out)?;
    push_if(cast_is_not_allowed(facts, at), at, Rule::Cast, out)?;
    push_if(
        condition_is_not_boolean(facts, at),
        at,
        Rule::Condition,
        out,
    )?;
    Ok(())
}

// Switches, void calls, returns, what is abstract, arrays and branches.
fn push_uses(facts: &Facts, at: u32, out: &mut Vec<Fault>) -> Result<(), OutOfMemory>
    ensures exact { tell.CanTell facts.now → at + 1 < 2 ^ 32 → OnOk result (tell.AddsRules facts.now.view tell.uses at out.old.items out.new.items) }
    ensures only { OnOk result (tell.AreOnlyOf tell.uses out.old.items out.new.items) }
{
    push_if(switch_does_not_fit(facts, at), at, Rule::Switch, out)?;
    push_if(void_is_used(facts, at), at, Rule::VoidValue, out)?;
    push_if(return_does_not_fit(facts, at), at, Rule::Return, out)?;
    push_if(abstract_is_used(facts, at), at, Rule::Abstract, out)?;
    push_if(array_does_not_fit(facts, at), at, Rule::Index, out)?;
    push_if(branches_are_unrelated(facts, at), at, Rule::Branches, out)?;
    Ok(())
}

// The same, of any row.
fn push_any_contexts(facts: &Facts, at: u32, out: &mut Vec<Fault>) -> Result<(), OutOfMemory>
    ensures exact { tell.CanTell facts.now → OnOk result (tell.AddsRules facts.now.view tell.contexts at out.old.items out.new.items) }
    ensures only { OnOk result (tell.AreOnlyOf tell.contexts out.old.items out.new.items) }
{
    if !may_break_contexts(facts, at) {
        return Ok(());
    }
    push_contexts(facts, at, out)?;
    Ok(())
}

fn push_any_values(facts: &Facts, at: u32, out: &mut Vec<Fault>) -> Result<(), OutOfMemory>
    ensures exact { tell.CanTell facts.now → OnOk result (tell.AddsRules facts.now.view tell.values at out.old.items out.new.items) }
    ensures only { OnOk result (tell.AreOnlyOf tell.values out.old.items out.new.items) }
{
    if !may_break_values(facts.rows(), at) {
        return Ok(());
    }
    push_values(facts, at, out)?;
    Ok(())
}

fn push_any_uses(facts: &Facts, at: u32, out: &mut Vec<Fault>) -> Result<(), OutOfMemory>
    ensures exact { tell.CanTell facts.now → at + 1 < 2 ^ 32 → OnOk result (tell.AddsRules facts.now.view tell.uses at out.old.items out.new.items) }
    ensures only { OnOk result (tell.AreOnlyOf tell.uses out.old.items out.new.items) }
{
    if !may_break_uses(facts.rows(), at) {
        return Ok(());
    }
    push_uses(facts, at, out)?;
    Ok(())
}

// The faults at a row.
fn push_row(facts: &Facts, at: u32, out: &mut Vec<Fault>) -> Result<(), OutOfMemory>
    ensures exact { tell.CanTell facts.now → at + 1 < 2 ^ 32 → OnOk result (tell.AddsRow facts.now.view at out.old.items out.new.items) }
    ensures only { OnOk result (tell.AreOnlyOf tell.type_rules out.old.items out.new.items) }
{
    push_any_contexts(facts, at, out)?;
    push_any_values(facts, at, out)?;
    push_any_uses(facts, at, out)?;
    Ok(())
}

fn row_count(rows: &[Row]) -> Result<u32, OutOfMemory>
    ensures { IfOk result (λ count. count ≡ length rows.now) }
{
    let Ok(count) = u32::try_from(rows.len()) else {
        return Err(OutOfMemory);
    };
    Ok(count)
}

// The faults at all rows.
fn push_rows(facts: &Facts, out: &mut Vec<Fault>) -> Result<(), OutOfMemory>
    ensures exact { tell.CanTell facts.now → OnOk result (tell.AreExactTypeFaults facts.now.view out.old.items out.new.items) }
    ensures only { OnOk result (tell.AreOnlyOf tell.type_rules out.old.items out.new.items) }
{
    let count = row_count(facts.view.sight.world.under.rows)?;
    for at in 0..count {
        push_row(facts, at, out)?;
    }
    Ok(())
}

/// Where the rules on types and expressions in code are broken: by rising rows, and at each row by rising numbers of rules.
/// These are the rows at which the definition breaks the rule, where the tables of the view are right.
pub fn type_faults(alloc: Global, view: View, out: &mut Vec<Fault>) -> Result<(), OutOfMemory>
    ensures exact { tell.IsRightView view.entry → OnOk result (tell.AreExactTypeFaults view.entry out.old.items out.new.items) }
    ensures only { OnOk result (tell.AreOnlyOf tell.type_rules out.old.items out.new.items) }
{
    let tables = Tables::of(alloc, view)?;
    let facts = Facts {
        view,
        tables: &tables,
    };
    push_rows(&facts, out)?;
    Ok(())
}
