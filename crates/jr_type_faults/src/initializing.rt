// A field that an initializer reads too early (JLS 8.3.2.3).
ghost use Rattle.std.specs.Prelude.{◌≡◌, Some};
ghost use Rattle.jr_tree.specs.Rows as rows;
ghost use Rattle.jr_tree.specs.declared.label.Role.TheVariants as role;
ghost use Rattle.jr_plain.specs.Enclosing.{innermost, is_declared_in};
ghost use Rattle.jr_plain.specs.Instances.{is_in_static_context};
ghost use Rattle.jr_plain.specs.Same.{same_role};
ghost use Rattle.jr_rules.specs.InitializingTests as initializing;
ghost use Rattle.jr_type_facts.specs.Facts as tell;
ghost use Rattle.jr_type_facts.specs.Tables.{AreRightFacts};
ghost use Rattle.jr_type_faults.specs.Parts as parts;

use crate::objects::{innermost, member};
use crate::rows::{is_before_end, is_next};
use jr_lookup::is_in_static_context;
use jr_places::{declaring_type, is_static, parent_at, role_at, sought_at};
use jr_tree::{Role, Row, Sought};
use jr_type_facts::{Facts, is_initializing, is_plain_assignment};

// A name without a dot, or the first identifier of one with dots.
fn is_simple(all: &[Row], at: u32) -> bool
    ensures { result ≡ initializing.is_simple (rows.sought_at all.now at) }
{
    match sought_at(all, at) {
        Sought::Simple { .. } => true,
        _ => false,
    }
}

// The left side of a plain assignment.
fn is_assigned_to(rows: &[Row], at: u32) -> bool
    ensures { result ≡ initializing.is_assigned_to rows.now at }
{
    let over = parent_at(rows, at);
    is_plain_assignment(rows, over) && is_next(over, at)
}

fn is_field(all: &[Row], at: u32) -> bool
    ensures { result ≡ same_role (rows.role_at all.now at) role.Field }
{
    match role_at(all, at) {
        Role::Field => true,
        _ => false,
    }
}

// Both are so, or neither is.
fn are_same(one: bool, other: bool) -> bool
    ensures { result ≡ parts.are_same one other }
{
    (one && other) || (!one && !other)
}

// The place is static.
fn is_static_place(facts: &Facts, at: u32) -> bool
    ensures { tell.AreSeenFacts facts.now → result ≡ is_in_static_context (tell.rows_of facts.now) at }
{
    let world = &facts.view.sight.world;
    is_in_static_context(world.under.rows, world.under.places, at)
}

// Both the place and the field are static, or neither is.
fn are_alike(facts: &Facts, at: u32, field: u32) -> bool
    ensures { tell.AreSeenFacts facts.now → result ≡ initializing.are_alike (tell.rows_of facts.now) at field }
{
    are_same(is_static_place(facts, at), is_static(facts.rows(), field))
}

// The place is an initializer of the innermost type, which is the class.
fn is_in_initializer(facts: &Facts, at: u32, class: u32) -> bool
    ensures { AreRightFacts facts.now → innermost (tell.rows_of facts.now) at ≡ Some class → result ≡ initializing.is_in_initializer (tell.rows_of facts.now) at class }
{
    match member(facts, at) {
        Some(member) => is_initializing(facts.view.sight.world.under.rows, member),
        None => false,
    }
}

// The type declares the member.
fn declares(rows: &[Row], class: u32, member: u32) -> bool
    ensures { result ≡ is_declared_in rows.now class member }
{
    match declaring_type(rows, member) {
        Some(over) => over == class,
        None => false,
    }
}

// The innermost type, which is the class, declares the member, and the place is an initializer of it.
fn is_initialized_in(facts: &Facts, at: u32, declared: u32, class: u32) -> bool
    ensures { AreRightFacts facts.now → innermost (tell.rows_of facts.now) at ≡ Some class → result ≡ parts.is_initialized_in facts.now at declared class }
{
    declares(facts.rows(), class, declared) && is_in_initializer(facts, at, class)
}

// The innermost type declares the member, and the place is an initializer of it.
fn is_initialized_beside(facts: &Facts, at: u32, declared: u32) -> bool
    ensures { AreRightFacts facts.now → result ≡ parts.is_initialized_beside facts.now at declared }
{
    match innermost(facts, at) {
        Some(class) => is_initialized_in(facts, at, declared, class),
        None => false,
    }
}

// A field of the innermost class that is declared later or is being initialized.
fn is_early(facts: &Facts, at: u32, field: u32) -> bool
    ensures { AreRightFacts facts.now → result ≡ initializing.is_early (tell.rows_of facts.now) at field }
{
    is_field(facts.rows(), field)
        && is_before_end(facts.rows(), at, field)
        && are_alike(facts, at, field)
        && is_initialized_beside(facts, at, field)
}

// What the row refers to is such a field.
fn refers_to_early(facts: &Facts, at: u32) -> bool
    ensures { AreRightFacts facts.now → result ≡ parts.refers_to_early facts.now at }
{
    match facts.view.sight.world.under.declared(at) {
        Some(field) => is_early(facts, at, field),
        None => false,
    }
}

/// In an initializer, such a field by its simple name, other than as the left side of a plain assignment.
pub fn is_used_too_early(facts: &Facts, at: u32) -> bool
    ensures { AreRightFacts facts.now → result ≡ initializing.is_used_too_early (tell.rows_of facts.now) (tell.table_of facts.now) at }
{
    is_simple(facts.rows(), at) && !is_assigned_to(facts.rows(), at) && refers_to_early(facts, at)
}
