// What is thrown at a row, and what members declare (JLS 8.4.6, 8.8.5, 11.2).
ghost use Rattle.std.specs.Prelude.{◌≡◌, ◌+◌, ◌<◌, ◌^◌, ◌++◌, IfOk, OnOk, flat_map, length};
ghost use Rattle.std.specs.List.{list_any, list_all};
ghost use Rattle.jr_tree.specs.Rows.{label};
ghost use Rattle.jr_tree.specs.Tree.{IsTree};
ghost use Rattle.jr_defs.specs.Referents.{Table, entries};
ghost use Rattle.jr_plain.specs.Enclosing.{children};
ghost use Rattle.jr_plain.specs.Supertypes.{is_at_or_above};
ghost use Rattle.jr_plain.specs.Types.{type_of_declared};
ghost use Rattle.jr_plain.specs.Typing.{first};
ghost use Rattle.jr_places.specs.Childs as places;
ghost use Rattle.jr_rules.specs.StatementTests as statements;
ghost use Rattle.jr_supers.specs.Supers.{AreSupersOf};
ghost use Rattle.jr_supers.specs.Tabled.{IsSized};
ghost use Rattle.jr_flow_faults.specs.ExceptionTests as tests;

use crate::catches::is_catch;
use crate::guards::{Guard, guard_at};
use jr_base::OutOfMemory;
use jr_defs::{Element, RowType};
use jr_places::{is_static, parent_at, role_at};
use jr_supers::{Supers, Tabled};
use jr_tree::{Label, NamePlace, Role, Row};
use std::alloc::Global;

// The class that a type is.
fn class_of(ty: Option<RowType>) -> Option<u32>
    ensures { result ≡ tests.class_in ty }
{
    match ty {
        Some(
            RowType {
                element: Element::Class(row),
                dims: 0,
            },
        ) => Some(row),
        _ => None,
    }
}

fn type_of(types: &[Option<RowType>], at: u32) -> Option<RowType>
    ensures { result ≡ tests.types_of types.now at }
{
    match types.get(at as usize) {
        Some(ty) => *ty,
        None => None,
    }
}

// The row names a class that the member right above it throws.
fn is_thrown_name(rows: &[Row], at: u32) -> bool
    ensures { result ≡ statements.is_other_name (label rows.now at) }
{
    match rows.get(at as usize) {
        Some(row) => match row.label {
            Label::Name {
                place: NamePlace::Other,
                ..
            } => true,
            _ => false,
        },
        None => false,
    }
}

// Where a row right below another ends, if one begins here.
fn end_of_child(rows: &[Row], over: u32, at: u32) -> Option<u32>
    ensures { over < at → result ≡ places.end_of_child rows.now over at }
{
    match rows.get(at as usize) {
        Some(row) => {
            if row.parent == over {
                Some(row.end)
            } else {
                None
            }
        }
        None => None,
    }
}

// The rows right below a row.
#[tactic(auto, using(jr_places::proofs::Childs::child_last, jr_places::proofs::Childs::child_none, jr_places::proofs::Childs::child_more))]
fn children_of(alloc: Global, rows: &[Row], over: u32) -> Result<Vec<u32>, OutOfMemory>
    ensures { IsTree rows.now → IfOk result (λ all. all.items ≡ children rows.now over) }
{
    let mut all = Vec::new(alloc);
    let Some(mut at) = over.checked_add(1) else {
        return Err(OutOfMemory);
    };
    for _turn in 0..rows.len() {
        match end_of_child(rows, over, at) {
            None => return Ok(all),
            Some(end) => {
                all.push(at)?;
                at = end;
            }
        }
    }
    Ok(all)
}

// Adds the class that a row names, where it names one that a member throws.
fn add_named(under: &Tabled, all: &mut Vec<u32>, at: u32) -> Result<(), OutOfMemory>
    ensures { OnOk result (all.new.items ≡ all.old.items ++ tests.named_class under.now.rows.now (entries under.now.table.now) at) }
{
    if is_thrown_name(under.rows, at) {
        if let Some(class) = under.declared(at) {
            all.push(class)?;
        }
    }
    Ok(())
}

// The classes that some rows name.
fn named_classes(alloc: Global, under: &Tabled, names: &[u32]) -> Result<Vec<u32>, OutOfMemory>
    ensures { IfOk result (λ all. all.items ≡ flat_map (tests.named_class under.now.rows.now (entries under.now.table.now)) names.now) }
{
    let mut all = Vec::new(alloc);
    for name in names {
        add_named(under, &mut all, *name)?;
    }
    Ok(all)
}

/// The classes that a method or constructor declares.
pub(crate) fn declared_classes(
    alloc: Global,
    under: &Tabled,
    member: u32,
) -> Result<Vec<u32>, OutOfMemory>
    ensures { IsTree under.now.rows.now → IfOk result (λ all. all.items ≡ tests.declared_classes under.now.rows.now (entries under.now.table.now) member) }
{
    let children = children_of(alloc, under.rows, member)?;
    named_classes(alloc, under, &children)
}

// The type of the first child of a row.
fn first_type(under: &Tabled, types: &[Option<RowType>], at: u32) -> Option<RowType>
    ensures { length under.now.rows.now < 2 ^ 32 → result ≡ first under.now.rows.now (tests.types_of types.now) at }
{
    match under.first_child(at) {
        Some(child) => type_of(types, child),
        None => None,
    }
}

// The class of the value that a `throw` throws.
fn thrown_value(
    alloc: Global,
    under: &Tabled,
    types: &[Option<RowType>],
    at: u32,
) -> Result<Vec<u32>, OutOfMemory>
    ensures { length under.now.rows.now < 2 ^ 32 → IfOk result (λ all. all.items ≡ tests.items (tests.class_in (first under.now.rows.now (tests.types_of types.now) at))) }
{
    let mut all = Vec::new(alloc);
    if let Some(class) = class_of(first_type(under, types, at)) {
        all.push(class)?;
    }
    Ok(all)
}

// The classes that what is called declares.
fn thrown_by_call(alloc: Global, under: &Tabled, at: u32) -> Result<Vec<u32>, OutOfMemory>
    ensures { IsTree under.now.rows.now → IfOk result (λ all. all.items ≡ tests.invoked_classes under.now.rows.now (entries under.now.table.now) at) }
{
    match under.declared(at) {
        Some(member) => declared_classes(alloc, under, member),
        None => Ok(Vec::new(alloc)),
    }
}

// The same by the label of the row.
fn thrown_by(
    alloc: Global,
    under: &Tabled,
    types: &[Option<RowType>],
    label: &Label,
    at: u32,
) -> Result<Vec<u32>, OutOfMemory>
    ensures { length under.now.rows.now < 2 ^ 32 → IsTree under.now.rows.now → IfOk result (λ all. all.items ≡ tests.thrown_by label.now under.now.rows.now (entries under.now.table.now) (tests.types_of types.now) at) }
{
    match label {
        Label::Throw => thrown_value(alloc, under, types, at),
        Label::Call { .. } => thrown_by_call(alloc, under, at),
        Label::New => thrown_by_call(alloc, under, at),
        Label::ConstructorCall { .. } => thrown_by_call(alloc, under, at),
        Label::ImplicitCall => thrown_by_call(alloc, under, at),
        _ => Ok(Vec::new(alloc)),
    }
}

/// The classes that are thrown at a row, by a throw, a call or a creation.
pub fn thrown_at(
    alloc: Global,
    under: &Tabled,
    types: &[Option<RowType>],
    at: u32,
) -> Result<Vec<u32>, OutOfMemory>
    ensures { length under.now.rows.now < 2 ^ 32 → IsTree under.now.rows.now → IfOk result (λ all. all.items ≡ tests.thrown_at under.now.rows.now (entries under.now.table.now) (tests.types_of types.now) at) }
{
    match under.rows.get(at as usize) {
        Some(row) => thrown_by(alloc, under, types, &row.label, at),
        None => Ok(Vec::new(alloc)),
    }
}

// The class of the parameter behind a row.
#[tactic(auto, using(crate::proofs::Covered::no_parameter))]
fn parameter_class(under: &Tabled, at: u32) -> Option<u32>
    ensures { IsSized under.now.rows.now → result ≡ tests.class_in (type_of_declared under.now.rows.now (entries under.now.table.now) (at + 1)) }
{
    match at.checked_add(1) {
        Some(parameter) => class_of(under.type_of_declared(parameter)),
        None => None,
    }
}

/// The class of a catch.
pub(crate) fn catch_class(under: &Tabled, at: u32) -> Option<u32>
    ensures { IsSized under.now.rows.now → result ≡ tests.catch_class under.now.rows.now (entries under.now.table.now) at }
{
    if is_catch(under.rows, at) {
        parameter_class(under, at)
    } else {
        None
    }
}

// The class `over` is the class, or stands above it.
fn is_above(under: &Tabled, supers: &Supers, class: u32, over: u32) -> bool
    ensures { (t : Table) → AreSupersOf under.now.rows.now t supers.now → result ≡ is_at_or_above under.now.rows.now t class over }
{
    supers.is_at_or_above(under.rows, class, over)
}

// One of the classes is the class, or one above it.
#[tactic(auto, using(crate::proofs::Letting::any_now, crate::proofs::Letting::any_next, crate::proofs::Letting::any_end))]
fn is_any_above(under: &Tabled, supers: &Supers, class: u32, declared: &[u32]) -> bool
    ensures { (t : Table) → AreSupersOf under.now.rows.now t supers.now → result ≡ list_any (is_at_or_above under.now.rows.now t class) declared.now }
{
    for over in declared {
        if is_above(under, supers, class, *over) {
            return true;
        }
    }
    false
}

// The method or constructor declares the class, or one above it.
fn declares(
    alloc: Global,
    under: &Tabled,
    supers: &Supers,
    member: u32,
    class: u32,
) -> Result<bool, OutOfMemory>
    ensures { AreSupersOf under.now.rows.now (entries under.now.table.now) supers.now → IfOk result (λ b. b ≡ tests.declares under.now.rows.now (entries under.now.table.now) class member) }
{
    let all = declared_classes(alloc, under, member)?;
    Ok(is_any_above(under, supers, class, &all))
}

// A constructor of the type in whose body the row stands.
fn is_constructor(rows: &[Row], at: u32) -> bool
    ensures { result ≡ tests.is_constructor rows.now at }
{
    match role_at(rows, at) {
        Role::Constructor => true,
        _ => false,
    }
}

// One of the rows is a constructor.
fn has_constructor(rows: &[Row], all: &[u32]) -> bool
    ensures { result ≡ list_any (tests.is_constructor rows.now) all.now }
{
    for child in all {
        if is_constructor(rows, *child) {
            return true;
        }
    }
    false
}

// The row is no constructor, or declares the class or one above it.
fn lets_by(
    alloc: Global,
    under: &Tabled,
    supers: &Supers,
    class: u32,
    at: u32,
) -> Result<bool, OutOfMemory>
    ensures { AreSupersOf under.now.rows.now (entries under.now.table.now) supers.now → IfOk result (λ b. b ≡ tests.lets_by under.now.rows.now (entries under.now.table.now) class at) }
{
    if !is_constructor(under.rows, at) {
        return Ok(true);
    }
    declares(alloc, under, supers, at, class)
}

// Each constructor of the rows declares the class, or one above it.
#[tactic(auto, using(crate::proofs::Letting::all_now, crate::proofs::Letting::all_next, crate::proofs::Letting::all_end))]
fn each_lets_by(
    alloc: Global,
    under: &Tabled,
    supers: &Supers,
    class: u32,
    all: &[u32],
) -> Result<bool, OutOfMemory>
    ensures { AreSupersOf under.now.rows.now (entries under.now.table.now) supers.now → IfOk result (λ b. b ≡ list_all (tests.lets_by under.now.rows.now (entries under.now.table.now) class) all.now) }
{
    for child in all {
        let lets = lets_by(alloc, under, supers, class, *child)?;
        if !lets {
            return Ok(false);
        }
    }
    Ok(true)
}

// There are constructors in the body, and each of them declares the class, or one above it.
fn all_declare(
    alloc: Global,
    under: &Tabled,
    supers: &Supers,
    body: u32,
    class: u32,
) -> Result<bool, OutOfMemory>
    ensures { AreSupersOf under.now.rows.now (entries under.now.table.now) supers.now → IfOk result (λ b. b ≡ tests.all_declare under.now.rows.now (entries under.now.table.now) class body) }
{
    let all = children_of(alloc, under.rows, body)?;
    if !has_constructor(under.rows, &all) {
        return Ok(false);
    }
    each_lets_by(alloc, under, supers, class, &all)
}

/// The member lets the class out: a method or constructor that declares it, or an initializer of instances where each constructor does.
pub(crate) fn lets_out(
    alloc: Global,
    under: &Tabled,
    supers: &Supers,
    member: u32,
    class: u32,
) -> Result<bool, OutOfMemory>
    ensures { AreSupersOf under.now.rows.now (entries under.now.table.now) supers.now → IfOk result (λ b. b ≡ tests.lets_out under.now.rows.now (entries under.now.table.now) class member) }
{
    let rows = under.rows;
    match guard_at(rows, member) {
        Guard::Callable => declares(alloc, under, supers, member, class),
        Guard::Initializer { is_static } => {
            if is_static {
                return Ok(false);
            }
            all_declare(alloc, under, supers, parent_at(rows, member), class)
        }
        Guard::Field => {
            if is_static(rows, member) {
                return Ok(false);
            }
            all_declare(
                alloc,
                under,
                supers,
                parent_at(rows, parent_at(rows, member)),
                class,
            )
        }
        Guard::Try => Ok(false),
        Guard::Nothing => Ok(false),
    }
}
