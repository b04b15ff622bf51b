// An instance member, `this`, `super` or an inner class where there is no object (JLS 6.5.6, 8.8.7.1, 15.8.3, 15.8.4, 15.9.2, 15.11.2, 15.12.3).
ghost use Rattle.std.specs.Prelude.{◌≡◌, is_some};
ghost use Rattle.jr_tree.specs.Rows as rows;
ghost use Rattle.jr_tree.specs.declared.label.Label.TheVariants as is;
ghost use Rattle.jr_plain.specs.Enclosing as enclosing;
ghost use Rattle.jr_plain.specs.Instances as instances;
ghost use Rattle.jr_plain.specs.Types as written;
ghost use Rattle.jr_rules.specs.ObjectTests as objects;
ghost use Rattle.jr_type_facts.specs.Facts as tell;
ghost use Rattle.jr_plain.specs.Search.{Finds};
ghost use Rattle.jr_type_facts.specs.Tables.{AreRightFacts, IsMemberOf};
ghost use Rattle.jr_type_faults.specs.Parts as parts;

use jr_defs::Referent;
use jr_lookup::has_instance;
use jr_places::sought_at;
use jr_tree::{Label, ReceiverKind, Row, Sought};
use jr_type_facts::{Facts, is_instance_member, is_new};

// The row stands behind a dot.
fn is_behind_dot(all: &[Row], at: u32) -> bool
    ensures { result ≡ objects.is_behind_dot (rows.sought_at all.now at) }
{
    match sought_at(all, at) {
        Sought::Qualified { .. } => true,
        Sought::FieldOf => true,
        Sought::MethodOf => true,
        _ => false,
    }
}

/// The innermost type whose body holds the row.
pub fn innermost(facts: &Facts, at: u32) -> Option<u32>
    ensures { tell.AreSeenFacts facts.now → result ≡ enclosing.innermost (tell.rows_of facts.now) at }
{
    let world = &facts.view.sight.world;
    world.under.places.around(at)
}

/// The member of the innermost type that holds the row.
pub fn member(facts: &Facts, at: u32) -> Option<u32>
    ensures { AreRightFacts facts.now → Finds result (λ m. IsMemberOf (tell.rows_of facts.now) at m) }
{
    facts.tables.member(at)
}

// The row stands in a call of a constructor.
fn is_in_constructor_call(facts: &Facts, at: u32) -> bool
    ensures { AreRightFacts facts.now → result ≡ instances.is_in_constructor_call (tell.rows_of facts.now) at }
{
    facts.tables.is_in_constructor_call(at)
}

// There is an object of the class at the place.
fn has_object(facts: &Facts, at: u32, class: u32) -> bool
    ensures { tell.AreSeenFacts facts.now → result ≡ instances.has_instance (tell.rows_of facts.now) at class }
{
    let world = &facts.view.sight.world;
    has_instance(world.under.rows, world.under.places, at, class)
}

// The class of which `this` or `T.this` needs an object.
fn object_of_this(facts: &Facts, at: u32, is_qualified: bool) -> Option<u32>
    ensures { tell.AreSeenFacts facts.now → result ≡ objects.object_of (tell.rows_of facts.now) (tell.table_of facts.now) at (is.This is_qualified) }
{
    if is_qualified {
        facts.view.sight.world.under.named_type(at)
    } else {
        innermost(facts, at)
    }
}

// The class of which a call on this receiver needs an object.
fn object_of_call(facts: &Facts, at: u32, receiver: ReceiverKind) -> Option<u32>
    ensures { tell.AreSeenFacts facts.now → result ≡ objects.object_of (tell.rows_of facts.now) (tell.table_of facts.now) at (is.Call receiver) }
{
    match receiver {
        ReceiverKind::Super => innermost(facts, at),
        _ => None,
    }
}

// The class of which a row of this label needs an object, as `this`, `T.this` or `super`.
fn object_by(facts: &Facts, at: u32, label: &Label) -> Option<u32>
    ensures { tell.AreSeenFacts facts.now → result ≡ objects.object_of (tell.rows_of facts.now) (tell.table_of facts.now) at label.now }
{
    match label {
        Label::This { is_qualified } => object_of_this(facts, at, *is_qualified),
        Label::SuperSelect => innermost(facts, at),
        Label::Call { receiver } => object_of_call(facts, at, *receiver),
        _ => None,
    }
}

// The class of which `this`, `T.this` or `super` needs an object.
fn object_of(facts: &Facts, at: u32) -> Option<u32>
    ensures { tell.AreSeenFacts facts.now → result ≡ objects.object_of (tell.rows_of facts.now) (tell.table_of facts.now) at (rows.label (tell.rows_of facts.now) at) }
{
    let rows = facts.view.sight.world.under.rows;
    match rows.get(at as usize) {
        Some(row) => object_by(facts, at, &row.label),
        None => None,
    }
}

// The class, if the row is an instance member.
fn object_for(rows: &[Row], row: u32, class: u32) -> Option<u32>
    ensures { result ≡ parts.object_for rows.now row class }
{
    if is_instance_member(rows, row) {
        Some(class)
    } else {
        None
    }
}

// The class of which an instance member without receiver needs an object.
fn object_of_member(rows: &[Row], referent: Referent) -> Option<u32>
    ensures { result ≡ objects.object_of_member rows.now referent }
{
    match referent {
        Referent::Declared { row, level } => match level {
            Some(class) => object_for(rows, row, class),
            None => None,
        },
        _ => None,
    }
}

// The class of which an object stands round one that is created.
fn object_round(referent: Referent) -> Option<u32>
    ensures { result ≡ objects.object_round referent }
{
    match referent {
        Referent::Declared { level, .. } => match level {
            Some(class) => Some(class),
            None => None,
        },
        _ => None,
    }
}

// The class is the innermost type round the row.
fn is_innermost(facts: &Facts, at: u32, class: u32) -> bool
    ensures { tell.AreSeenFacts facts.now → result ≡ instances.is_innermost (tell.rows_of facts.now) at class }
{
    match innermost(facts, at) {
        Some(over) => over == class,
        None => false,
    }
}

// The object of the class is the one whose constructor is being called.
fn is_constructed(facts: &Facts, at: u32, class: u32) -> bool
    ensures { AreRightFacts facts.now → result ≡ parts.is_constructed facts.now at class }
{
    is_in_constructor_call(facts, at) && is_innermost(facts, at, class)
}

// There is an object of the class, and it is not the one whose constructor is being called.
fn may_use(facts: &Facts, at: u32, class: u32) -> bool
    ensures { AreRightFacts facts.now → result ≡ objects.may_use (tell.rows_of facts.now) at class }
{
    has_object(facts, at, class) && !is_constructed(facts, at, class)
}

fn may_not_use(facts: &Facts, at: u32, needed: Option<u32>) -> bool
    ensures { AreRightFacts facts.now → result ≡ objects.may_not_use (tell.rows_of facts.now) at needed }
{
    match needed {
        Some(class) => !may_use(facts, at, class),
        None => false,
    }
}

// What the row refers to is an instance member.
fn refers_to_instance(facts: &Facts, at: u32) -> bool
    ensures { result ≡ parts.refers_to_instance facts.now at }
{
    match facts.view.sight.world.under.declared(at) {
        Some(member) => is_instance_member(facts.rows(), member),
        None => false,
    }
}

// An instance member behind the name of a type.
fn is_behind_type(facts: &Facts, at: u32) -> bool
    ensures { tell.AreSeenFacts facts.now → result ≡ objects.is_behind_type (tell.rows_of facts.now) (tell.table_of facts.now) at }
{
    is_behind_dot(facts.rows(), at)
        && facts.view.sight.world.under.named_type(at).is_some()
        && refers_to_instance(facts, at)
}

// The object round one that is created may not be used, or an instance member stands behind the name of a type.
fn lacks_round(facts: &Facts, at: u32) -> bool
    ensures { AreRightFacts facts.now → result ≡ parts.lacks_round facts.now at }
{
    (is_new(facts.rows(), at)
        && may_not_use(
            facts,
            at,
            object_round(facts.view.sight.world.under.referent(at)),
        ))
        || is_behind_type(facts, at)
}

// The same, or the object that an instance member needs may not be used.
fn lacks_member(facts: &Facts, at: u32) -> bool
    ensures { AreRightFacts facts.now → result ≡ parts.lacks_member facts.now at }
{
    may_not_use(
        facts,
        at,
        object_of_member(facts.rows(), facts.view.sight.world.under.referent(at)),
    ) || lacks_round(facts, at)
}

/// The object that the place needs may not be used, or an instance member stands behind the name of a type.
pub fn lacks_object(facts: &Facts, at: u32) -> bool
    ensures { AreRightFacts facts.now → result ≡ objects.lacks_object (tell.rows_of facts.now) (tell.table_of facts.now) at }
{
    may_not_use(facts, at, object_of(facts, at)) || lacks_member(facts, at)
}
