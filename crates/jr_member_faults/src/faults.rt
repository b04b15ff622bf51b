// The rules on members that are broken at the rows of a program.
ghost use Rattle.std.specs.Prelude.{◌≡◌, ◌+◌, ◌<◌, ◌^◌, ◌||◌, IfOk, OnOk, false, length};
ghost use Rattle.jr_tree.specs.declared.label.Role.TheVariants as roles;
ghost use Rattle.jr_tree.specs.Rows as rows;
ghost use Rattle.jr_defs.specs.Referents.{entries};
ghost use Rattle.jr_plain.specs.Declarations.{is_type};
ghost use Rattle.jr_rule.specs.Faults.{AreFaultsOf};
ghost use Rattle.jr_rule.specs.declared.Rule.TheVariants as rules;
ghost use Rattle.jr_name_rules.specs.DeclarationTests as declaring;
ghost use Rattle.jr_name_rules.specs.HeaderTests as heading;
ghost use Rattle.jr_member_rules.specs.Bodies as bodies;
ghost use Rattle.jr_member_rules.specs.Computed.{values};
ghost use Rattle.jr_member_rules.specs.Inner as inner;
ghost use Rattle.jr_faults.specs.Added.{row_if, is_rule, AreOnly};
ghost use Rattle.jr_member_faults.specs.Faults as tell;
ghost use Rattle.jr_member_faults.specs.Headers.{AreHeadersTo};
ghost use Rattle.jr_member_faults.specs.Twice.{AreDeclaredTo};
ghost use Rattle.jr_member_faults.specs.Inherited.{left_in, AreLefts};
ghost use Rattle.jr_member_faults.specs.Methods as of_methods;
ghost use Rattle.jr_member_faults.specs.Thrown.{AreThrown};
ghost use Rattle.jr_member_faults.specs.Views as views;

use crate::beside::Left;
use crate::bodies::{is_initializer, stands_wrong};
use crate::headers::Headers;
use crate::inheriting::put_lefts;
use crate::inner::is_static_there;
use crate::redefining::{Redefining, Uppers, is_mixed, is_narrowed, is_over_final};
use crate::throwing::Thrown;
use crate::together::is_either;
use crate::twice::{Declared, is_inside_its_name};
use jr_base::OutOfMemory;
use jr_faults::rule_if;
use jr_members::World;
use jr_places::role_at;
use jr_rule::{Fault, Rule};
use jr_supers::{Tabled, header_place};
use jr_tree::{Role, Row};
use jr_view::View;
use std::alloc::Global;

// The rule that a body declares a second one of the role breaks.
fn second_rule(role: Role) -> Rule
    ensures { result ≡ tell.second_rule role }
{
    match role {
        Role::Field => Rule::FieldNames,
        Role::Method => Rule::MethodSignatures,
        Role::Constructor => Rule::ConstructorSignatures,
        _ => Rule::TypeNames,
    }
}

// A second one of a name or signature, or a type in one of its name.
fn is_clash(world: &World, is_second: bool, at: u32) -> bool
    ensures others { is_type (views.rows_of world.now) at ≡ false → result ≡ is_second }
    ensures types { views.IsNamedWorld world.now → result ≡ (is_second || declaring.is_inside_its_name (views.rows_of world.now) at) }
{
    is_second || is_inside_its_name(world.under.rows, world.under.places, at)
}

// The rule on what is declared twice that is broken at a row, which declares this.
fn second_fault(
    world: &World,
    role: Role,
    is_second: bool,
    at: u32,
    out: &mut Vec<Fault>,
) -> Result<(), OutOfMemory>
    ensures fields { role ≡ rows.role_at (views.rows_of world.now) at → OnOk result (AreFaultsOf rules.FieldNames (row_if (tell.is_second_as roles.Field role is_second) at) out.old.items out.new.items) }
    ensures methods { role ≡ rows.role_at (views.rows_of world.now) at → OnOk result (AreFaultsOf rules.MethodSignatures (row_if (tell.is_second_as roles.Method role is_second) at) out.old.items out.new.items) }
    ensures constructors { role ≡ rows.role_at (views.rows_of world.now) at → OnOk result (AreFaultsOf rules.ConstructorSignatures (row_if (tell.is_second_as roles.Constructor role is_second) at) out.old.items out.new.items) }
    ensures types { views.IsNamedWorld world.now → OnOk result (AreFaultsOf rules.TypeNames (row_if (tell.is_type_clash (views.rows_of world.now) at role is_second) at) out.old.items out.new.items) }
    ensures others { OnOk result (AreOnly tell.is_of_declared out.old.items out.new.items) }
{
    let is_broken = is_clash(world, is_second, at);
    let rule = second_rule(role);
    rule_if(out, is_broken, at, rule)?;
    Ok(())
}

// The rules on what is declared twice that are broken at a row.
fn declared_faults(
    alloc: Global,
    world: &World,
    declared: &mut Declared,
    at: u32,
    out: &mut Vec<Fault>,
) -> Result<(), OutOfMemory>
    ensures open { at < length (views.rows_of world.now) → AreDeclaredTo world.now at declared.old → OnOk result (AreDeclaredTo world.now (at + 1) declared.new) }
    ensures fields { at < length (views.rows_of world.now) → AreDeclaredTo world.now at declared.old → views.IsNamedWorld world.now → OnOk result (AreFaultsOf rules.FieldNames (row_if (declaring.is_second_field (views.rows_of world.now) at) at) out.old.items out.new.items) }
    ensures methods { at < length (views.rows_of world.now) → AreDeclaredTo world.now at declared.old → views.IsNamedWorld world.now → views.IsSignedWorld world.now → OnOk result (AreFaultsOf rules.MethodSignatures (row_if (declaring.is_second_method (views.rows_of world.now) (views.table_of world.now) at) at) out.old.items out.new.items) }
    ensures constructors { at < length (views.rows_of world.now) → AreDeclaredTo world.now at declared.old → views.IsSignedWorld world.now → OnOk result (AreFaultsOf rules.ConstructorSignatures (row_if (declaring.is_second_constructor (views.rows_of world.now) (views.table_of world.now) at) at) out.old.items out.new.items) }
    ensures types { at < length (views.rows_of world.now) → AreDeclaredTo world.now at declared.old → views.IsNamedWorld world.now → OnOk result (AreFaultsOf rules.TypeNames (row_if (tell.has_member_type_clash (views.rows_of world.now) at) at) out.old.items out.new.items) }
    ensures others { OnOk result (AreOnly tell.is_of_declared out.old.items out.new.items) }
{
    let role = role_at(world.under.rows, at);
    let entry = declared.entry(world, at)?;
    let is_second = declared.has(role, entry);
    second_fault(world, role, is_second, at, out)?;
    declared.add(alloc, role, entry)?;
    Ok(())
}

// What the rules on redefined and inherited methods read.
#[derive(Drop)]
struct Methods<'a> {
    redefining: Redefining<'a>,
    uppers: Uppers,
    lefts: Vec<Left>,
}

impl<'a> Methods<'a> {
    // What a type breaks by what it inherits.
    fn left_at(&self, at: u32) -> Left
        ensures { result ≡ left_in self.now.lefts.items at }
    {
        match self.lefts.get(at as usize) {
            Some(left) => *left,
            None => Left::NOTHING,
        }
    }

    // The rules on methods beside and above others that are broken at a row.
    fn faults(&self, alloc: Global, at: u32, out: &mut Vec<Fault>) -> Result<(), OutOfMemory>
        ensures others { OnOk result (AreOnly tell.is_of_methods out.old.items out.new.items) }
        ensures found { of_methods.AreRight self.now → OnOk result (of_methods.AreFaultsOn self.now.redefining.world.now (λ test. row_if (test at) at) out.old.items out.new.items) }
    {
        let left = self.left_at(at);
        let redefining = self.redefining;
        let over = self.uppers.redefined(alloc, redefining.world, at)?;
        method_faults(alloc, redefining, left, at, &over, out)?;
        Ok(())
    }
}

// The rules that are broken at a row by the methods that it overrides or hides, or by what it inherits as a type.
fn method_faults(
    alloc: Global,
    redefining: Redefining,
    left: Left,
    at: u32,
    over: &[u32],
    out: &mut Vec<Fault>,
) -> Result<(), OutOfMemory>
    ensures others { OnOk result (AreOnly tell.is_of_methods out.old.items out.new.items) }
    ensures found { of_methods.CanTell redefining.entry → of_methods.IsTold redefining.entry.world.now at over.now left → OnOk result (of_methods.AreFaultsOn redefining.entry.world.now (λ test. row_if (test at) at) out.old.items out.new.items) }
{
    let is_other = redefining.has_other_result(at, over);
    let is_narrower = is_narrowed(redefining.world, at, over);
    let is_other_kind = is_mixed(redefining.world, at, over);
    let is_final = is_over_final(redefining.world, over);
    let throws_more = redefining.throws_more(alloc, at, over)?;
    let results = is_either(is_other, left.results);
    let access = is_either(is_narrower, left.access);
    let statics = is_either(is_other_kind, left.statics);
    let throws = is_either(throws_more, left.throws);
    rule_if(out, left.abstracts, at, Rule::AbstractMembers)?;
    rule_if(out, results, at, Rule::Results)?;
    rule_if(out, access, at, Rule::NarrowedAccess)?;
    rule_if(out, statics, at, Rule::StaticOverride)?;
    rule_if(out, is_final, at, Rule::FinalOverride)?;
    rule_if(out, throws, at, Rule::OverrideThrows)?;
    Ok(())
}

// What the types break by what they inherit, by their rows.
fn lefts_of(alloc: Global, world: &World, thrown: &Thrown) -> Result<Vec<Left>, OutOfMemory>
    ensures { views.IsRightWorld world.now → AreThrown (views.rows_of world.now) thrown.now → IfOk result (λ lefts. AreLefts world.now lefts.items) }
{
    let mut lefts = vec![in alloc; Left::NOTHING; world.under.rows.len()]?;
    put_lefts(alloc, world, thrown, &mut lefts)?;
    Ok(lefts)
}

// A type, field, method or constructor.
fn declares(role: Role) -> bool
    ensures { result ≡ tell.declares role }
{
    match role {
        Role::Type => true,
        Role::Field => true,
        Role::Method => true,
        Role::Constructor => true,
        _ => false,
    }
}

// A row at which a rule on members may be broken: a type, member, constructor or initializer, or a name in a header.
fn is_of_members(all: &[Row], at: u32) -> bool
    ensures { result ≡ tell.is_of_members all.now at }
{
    declares(role_at(all, at)) || (is_initializer(all, at) || header_place(all, at).is_some())
}

// The rule on what headers name, where it is broken at a row.
fn supertype_fault(
    under: &Tabled,
    headers: &Headers,
    at: u32,
    out: &mut Vec<Fault>,
) -> Result<(), OutOfMemory>
    ensures found { at < length under.now.rows.now → AreHeadersTo under.now.rows.now (entries under.now.table.now) at headers.now.superinterfaces → OnOk result (AreFaultsOf rules.Supertypes (row_if (heading.has_wrong_supertype under.now.rows.now (entries under.now.table.now) at) at) out.old.items out.new.items) }
    ensures others { OnOk result (AreOnly (is_rule rules.Supertypes) out.old.items out.new.items) }
{
    let is_broken = headers.has_wrong_supertype(under, at);
    rule_if(out, is_broken, at, Rule::Supertypes)?;
    Ok(())
}

// The rule on bodies, where it is broken at a row.
fn body_fault(all: &[Row], at: u32, out: &mut Vec<Fault>) -> Result<(), OutOfMemory>
    ensures found { at + 1 < 2 ^ 32 → OnOk result (AreFaultsOf rules.Bodies (row_if (bodies.stands_wrong all.now at) at) out.old.items out.new.items) }
    ensures others { OnOk result (AreOnly (is_rule rules.Bodies) out.old.items out.new.items) }
{
    let is_broken = stands_wrong(all, at);
    rule_if(out, is_broken, at, Rule::Bodies)?;
    Ok(())
}

// The rule on static members of inner classes, where it is broken at a row.
fn static_fault(view: &View, at: u32, out: &mut Vec<Fault>) -> Result<(), OutOfMemory>
    ensures found { views.IsValuedView view.now → OnOk result (AreFaultsOf rules.InnerStatics (row_if (inner.is_static_there (views.rows_in view.now) (views.table_in view.now) (values (views.rows_in view.now) (views.table_in view.now)) at) at) out.old.items out.new.items) }
    ensures others { OnOk result (AreOnly (is_rule rules.InnerStatics) out.old.items out.new.items) }
{
    let is_broken = is_static_there(view.sight.world.under.rows, view.constants, at);
    rule_if(out, is_broken, at, Rule::InnerStatics)?;
    Ok(())
}

// The rules on members that are broken at a row.
fn row_faults(
    alloc: Global,
    view: &View,
    methods: &Methods,
    declared: &mut Declared,
    headers: &mut Headers,
    at: u32,
    out: &mut Vec<Fault>,
) -> Result<(), OutOfMemory>
    ensures declared { at < length (views.rows_in view.now) → AreDeclaredTo view.now.sight.world at declared.old → OnOk result (AreDeclaredTo view.now.sight.world (at + 1) declared.new) }
    ensures headers { AreHeadersTo (views.rows_in view.now) (views.table_in view.now) at headers.old.superinterfaces → OnOk result (AreHeadersTo (views.rows_in view.now) (views.table_in view.now) (at + 1) headers.new.superinterfaces) }
    ensures found { at < length (views.rows_in view.now) → length (views.rows_in view.now) < 2 ^ 32 → of_methods.AreMethodsIn view.now methods.now → AreDeclaredTo view.now.sight.world at declared.old → AreHeadersTo (views.rows_in view.now) (views.table_in view.now) at headers.old.superinterfaces → OnOk result (tell.AreMemberFaultsOn view.now (λ test. row_if (test at) at) out.old.items out.new.items) }
    ensures only { OnOk result (AreOnly tell.is_on_members out.old.items out.new.items) }
{
    let world = &view.sight.world;
    declared_faults(alloc, world, declared, at, out)?;
    supertype_fault(&world.under, headers, at, out)?;
    headers.pass(alloc, &world.under, at)?;
    methods.faults(alloc, at, out)?;
    body_fault(world.under.rows, at, out)?;
    static_fault(view, at, out)?;
    Ok(())
}

// The same, of any row.
fn any_row_faults(
    alloc: Global,
    view: &View,
    methods: &Methods,
    declared: &mut Declared,
    headers: &mut Headers,
    at: u32,
    out: &mut Vec<Fault>,
) -> Result<(), OutOfMemory>
    ensures declared { at < length (views.rows_in view.now) → AreDeclaredTo view.now.sight.world at declared.old → OnOk result (AreDeclaredTo view.now.sight.world (at + 1) declared.new) }
    ensures headers { AreHeadersTo (views.rows_in view.now) (views.table_in view.now) at headers.old.superinterfaces → OnOk result (AreHeadersTo (views.rows_in view.now) (views.table_in view.now) (at + 1) headers.new.superinterfaces) }
    ensures found { at < length (views.rows_in view.now) → length (views.rows_in view.now) < 2 ^ 32 → of_methods.AreMethodsIn view.now methods.now → AreDeclaredTo view.now.sight.world at declared.old → AreHeadersTo (views.rows_in view.now) (views.table_in view.now) at headers.old.superinterfaces → OnOk result (tell.AreMemberFaultsOn view.now (λ test. row_if (test at) at) out.old.items out.new.items) }
    ensures only { OnOk result (AreOnly tell.is_on_members out.old.items out.new.items) }
{
    if !is_of_members(view.sight.world.under.rows, at) {
        return Ok(());
    }
    row_faults(alloc, view, methods, declared, headers, at, out)?;
    Ok(())
}

fn row_count(all: &[Row]) -> Result<u32, OutOfMemory>
    ensures counted { IfOk result (λ count. count ≡ length all.now) }
    ensures few { OnOk result (length all.now < 2 ^ 32) }
{
    let Ok(count) = u32::try_from(all.len()) else {
        return Err(OutOfMemory);
    };
    Ok(count)
}

// The rules that are broken at all rows, where those on what types inherit are known.
fn all_faults(
    alloc: Global,
    view: &View,
    methods: &Methods,
    out: &mut Vec<Fault>,
) -> Result<(), OutOfMemory>
    ensures exact { of_methods.AreMethodsIn view.now methods.now → OnOk result (tell.AreMemberFaults view.now out.old.items out.new.items) }
    ensures only { OnOk result (AreOnly tell.is_on_members out.old.items out.new.items) }
{
    let mut declared = Declared::new(alloc);
    let mut headers = Headers::new(alloc);
    put_faults(alloc, view, methods, &mut declared, &mut headers, out)?;
    Ok(())
}

// The same, with what bodies declare and what headers name, before any row was looked at.
fn put_faults(
    alloc: Global,
    view: &View,
    methods: &Methods,
    declared: &mut Declared,
    headers: &mut Headers,
    out: &mut Vec<Fault>,
) -> Result<(), OutOfMemory>
    ensures exact { of_methods.AreMethodsIn view.now methods.now → AreDeclaredTo view.now.sight.world 0 declared.old → AreHeadersTo (views.rows_in view.now) (views.table_in view.now) 0 headers.old.superinterfaces → OnOk result (tell.AreMemberFaults view.now out.old.items out.new.items) }
    ensures only { OnOk result (AreOnly tell.is_on_members out.old.items out.new.items) }
{
    let count = row_count(view.sight.world.under.rows)?;
    for at in 0..count {
        any_row_faults(alloc, view, methods, declared, headers, at, out)?;
    }
    Ok(())
}

/// Adds the rules on members that are broken, as their rows rise: what bodies declare, supertypes, overriding, what types inherit, and bodies.
/// Of what bodies declare twice, supertypes, bodies, and static members of inner classes these are the rows at which the definitions break the rule, where the tables are right. Of other rules than these and those on methods none is added.
pub fn member_faults(alloc: Global, view: &View, out: &mut Vec<Fault>) -> Result<(), OutOfMemory>
    ensures exact { OnOk result (tell.AreMemberFaults view.now out.old.items out.new.items) }
    ensures only { OnOk result (AreOnly tell.is_on_members out.old.items out.new.items) }
{
    let thrown = Thrown::of(alloc, view.sight.world.under.rows)?;
    faults_with(alloc, view, &thrown, out)?;
    Ok(())
}

// The same, where it is known what methods declare as thrown.
fn faults_with(
    alloc: Global,
    view: &View,
    thrown: &Thrown,
    out: &mut Vec<Fault>,
) -> Result<(), OutOfMemory>
    ensures exact { AreThrown (views.rows_in view.now) thrown.now → OnOk result (tell.AreMemberFaults view.now out.old.items out.new.items) }
    ensures only { OnOk result (AreOnly tell.is_on_members out.old.items out.new.items) }
{
    let world = &view.sight.world;
    let redefining = Redefining {
        world,
        thrown: &*thrown,
    };
    let lefts = lefts_of(alloc, world, thrown)?;
    let uppers = Uppers::new(alloc, redefining)?;
    let methods = Methods {
        redefining,
        uppers,
        lefts,
    };
    all_faults(alloc, view, &methods, out)?;
    Ok(())
}
