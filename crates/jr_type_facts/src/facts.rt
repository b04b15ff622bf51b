// What the rules read of a bound program: what stands where, and the types of expressions.
ghost use Rattle.std.specs.Prelude.{◌≡◌, ◌+◌, ◌<◌, ◌^◌, ◌&&◌, ℕ, List, is_some, length};
ghost use Rattle.jr_tree.specs.Rows as all_rows;
ghost use Rattle.jr_defs.specs.Operators as operators;
ghost use Rattle.jr_plain.specs.Conversions as conversions;
ghost use Rattle.jr_plain.specs.Declarations as plain;
ghost use Rattle.jr_plain.specs.Supertypes as supertypes;
ghost use Rattle.jr_plain.specs.Typing as typing;
ghost use Rattle.jr_constants.specs.Values.{value_in, value_in_if};
ghost use Rattle.jr_types.specs.Typed as operands;
ghost use Rattle.jr_rules.specs.ObjectTests as objects;
ghost use Rattle.jr_rules.specs.TypedTests as typed;
ghost use Rattle.jr_type_facts.specs.Views.{rows_in, types_in, int_in};
ghost use Rattle.jr_type_facts.specs.Facts as tell;

use crate::tables::Tables;
use jr_constants::{Value, assigned_to};
use jr_defs::{Element, RowType};
use jr_places::{is_static, parent_at, role_at};
use jr_tree::{Role, Row};
use jr_types::{Operand, is_castable, is_integral, is_void, plain_of};
use jr_view::View;

/// A bound program, with what is found out once for all its rows.
#[derive(Clone, Copy)]
pub struct Facts<'a> {
    pub view: View<'a>,
    pub tables: &'a Tables,
}

/// The type of an expression, if it has one.
pub fn type_of(view: &View, at: u32) -> Option<RowType>
    ensures { result ≡ types_in view.now at }
{
    match view.types.get(at as usize) {
        Some(ty) => *ty,
        None => None,
    }
}

/// The type of a row, if it is a child of the other.
pub fn child(view: &View, over: u32, at: u32) -> Option<RowType>
    ensures { result ≡ typing.child (rows_in view.now) (types_in view.now) over at }
{
    if parent_at(view.sight.world.under.rows, at) == over {
        type_of(view, at)
    } else {
        None
    }
}

fn child_if(view: &View, over: u32, at: Option<u32>) -> Option<RowType>
    ensures { result ≡ operands.child_if (rows_in view.now) (types_in view.now) over at }
{
    match at {
        Some(row) => child(view, over, row),
        None => None,
    }
}

/// The type of the first child.
#[tactic(auto, using(jr_types::proofs::Operands::no_first))]
pub fn first(view: &View, at: u32) -> Option<RowType>
    ensures { length (rows_in view.now) < 2 ^ 32 → result ≡ typing.first (rows_in view.now) (types_in view.now) at }
{
    match at.checked_add(1) {
        Some(next) => child(view, at, next),
        None => None,
    }
}

// Where what is below a row ends, if there is such a row.
fn end_if(rows: &[Row], at: u32) -> Option<u32>
    ensures { result ≡ operands.end_if rows.now at }
{
    match rows.get(at as usize) {
        Some(row) => Some(row.end),
        None => None,
    }
}

/// A type that promotes to int: byte, short, char or int (JLS 5.6.1).
pub fn is_int_like(ty: RowType) -> bool
    ensures { result ≡ typed.is_int_like ty }
{
    match plain_of(ty) {
        Some(element) => is_integral(element),
        None => false,
    }
}

/// The row declares a variable.
pub fn is_variable(rows: &[Row], at: u32) -> bool
    ensures { result ≡ plain.is_variable rows.now at }
{
    match role_at(rows, at) {
        Role::Field => true,
        Role::Parameter => true,
        Role::Local => true,
        _ => false,
    }
}

fn is_field_or_method(role: Role) -> bool
    ensures { result ≡ objects.is_field_or_method role }
{
    match role {
        Role::Field => true,
        Role::Method => true,
        _ => false,
    }
}

/// The row is a field or method of objects.
pub fn is_instance_member(rows: &[Row], at: u32) -> bool
    ensures { result ≡ objects.is_instance_member rows.now at }
{
    is_field_or_method(role_at(rows, at)) && !is_static(rows, at)
}

// The int that a value is, if it is one.
fn int_of(value: Option<Value>) -> Option<i32>
    ensures { result ≡ int_in value }
{
    match value {
        Some(Value::Int(number)) => Some(number),
        _ => None,
    }
}

// The constant is one that may be assigned to a place of the type.
fn is_assigned_to(element: Element, value: Value) -> bool
    ensures { (texts : List (List ℕ)) → result ≡ is_some (operators.assigned_to element (value_in texts value)) }
{
    assigned_to(element, value).is_some()
}

impl<'a> Facts<'a> {
    /// The rows.
    pub fn rows(&self) -> &'a [Row]
        ensures { result.now ≡ tell.rows_of self.now }
    {
        self.view.sight.world.under.rows
    }

    /// The type of an expression, if it has one.
    pub fn type_of(&self, at: u32) -> Option<RowType>
        ensures { result ≡ tell.types_of self.now at }
    {
        type_of(&self.view, at)
    }

    /// The row where the second child begins, if there is a first one.
    #[tactic(auto, using(jr_types::proofs::Operands::no_second_row))]
    pub fn second_row(&self, at: u32) -> Option<u32>
        ensures { length (tell.rows_of self.now) < 2 ^ 32 → result ≡ operands.end_if (tell.rows_of self.now) (at + 1) }
    {
        match at.checked_add(1) {
            Some(next) => end_if(self.rows(), next),
            None => None,
        }
    }

    /// The row where the third child begins, if there is a second one.
    pub fn third_row(&self, at: u32) -> Option<u32>
        ensures { length (tell.rows_of self.now) < 2 ^ 32 → result ≡ operands.third_if (tell.rows_of self.now) at }
    {
        match self.second_row(at) {
            Some(second) => end_if(self.rows(), second),
            None => None,
        }
    }

    /// The type of the first child.
    pub fn first(&self, at: u32) -> Option<RowType>
        ensures { length (tell.rows_of self.now) < 2 ^ 32 → result ≡ typing.first (tell.rows_of self.now) (tell.types_of self.now) at }
    {
        first(&self.view, at)
    }

    /// The type of the second child.
    pub fn second(&self, at: u32) -> Option<RowType>
        ensures { length (tell.rows_of self.now) < 2 ^ 32 → result ≡ typing.second (tell.rows_of self.now) (tell.types_of self.now) at }
    {
        child_if(&self.view, at, self.second_row(at))
    }

    /// The type of the third child.
    pub fn third(&self, at: u32) -> Option<RowType>
        ensures { length (tell.rows_of self.now) < 2 ^ 32 → result ≡ typing.third (tell.rows_of self.now) (tell.types_of self.now) at }
    {
        child_if(&self.view, at, self.third_row(at))
    }

    // The type that is written at a row, if it is a child of the other.
    fn written(&self, over: u32, at: u32) -> Option<RowType>
        ensures { length (tell.rows_of self.now) < 2 ^ 32 → result ≡ typed.type_below (tell.rows_of self.now) (tell.table_of self.now) over at }
    {
        if parent_at(self.rows(), at) == over {
            self.view.sight.world.under.type_at(at)
        } else {
            None
        }
    }

    /// The type that is written at the first child.
    pub fn first_written(&self, at: u32) -> Option<RowType>
        ensures { length (tell.rows_of self.now) < 2 ^ 32 → result ≡ typed.type_below (tell.rows_of self.now) (tell.table_of self.now) at (at + 1) }
    {
        match at.checked_add(1) {
            Some(next) => self.written(at, next),
            None => None,
        }
    }

    /// The type that is written at the second child.
    pub fn second_written(&self, at: u32) -> Option<RowType>
        ensures { length (tell.rows_of self.now) < 2 ^ 32 → result ≡ typed.type_below (tell.rows_of self.now) (tell.table_of self.now) at (all_rows.end (tell.rows_of self.now) (at + 1)) }
    {
        match self.second_row(at) {
            Some(row) => self.written(at, row),
            None => None,
        }
    }

    /// The value of the expression at a row, if it is constant.
    pub fn value(&self, at: u32) -> Option<Value>
        ensures { value_in_if self.now.view.constants.now.texts result ≡ tell.constants_of self.now at }
    {
        self.view.constants.value(at)
    }

    /// The expression at a row is constant.
    #[tactic(auto, using(crate::proofs::Parts::value_there))]
    pub fn is_constant(&self, at: u32) -> bool
        ensures { result ≡ is_some (tell.constants_of self.now at) }
    {
        self.value(at).is_some()
    }

    /// The operand of `?:` at a row, of this type.
    pub fn operand(&self, at: u32, ty: RowType) -> Operand
        ensures { result ≡ operands.operand_of ty (operands.int_of (tell.constants_of self.now at)) }
    {
        let value = int_of(self.value(at));
        Operand { ty, value }
    }

    /// The first type is a subtype of the second.
    pub fn is_subtype(&self, low: RowType, high: RowType) -> bool
        ensures { tell.AreSeenFacts self.now → result ≡ supertypes.is_subtype (tell.rows_of self.now) (tell.table_of self.now) low high }
    {
        let world = &self.view.sight.world;
        world.supers.is_subtype(world.under.rows, low, high)
    }

    /// A cast from one type to another is allowed (JLS 5.5).
    pub fn is_castable(&self, from: RowType, to: RowType) -> bool
        ensures { tell.AreSeenFacts self.now → result ≡ conversions.is_castable (tell.rows_of self.now) (tell.table_of self.now) from to }
    {
        let world = &self.view.sight.world;
        is_castable(world.under.rows, world.supers, from, to)
    }

    // The constant at a row may be assigned to a place of this type.
    fn fits_as(&self, at: u32, element: Element) -> bool
        ensures { result ≡ conversions.fits_as element (tell.constants_of self.now at) }
    {
        match self.value(at) {
            Some(value) => is_assigned_to(element, value),
            None => false,
        }
    }

    // A constant of one integral type may be assigned to a place of another.
    fn is_fitting(&self, at: u32, from: Element, to: Element) -> bool
        ensures { result ≡ (conversions.is_integral from && conversions.is_integral to && conversions.fits_as to (tell.constants_of self.now at)) }
    {
        is_integral(from) && is_integral(to) && self.fits_as(at, to)
    }

    // The same, of types.
    fn is_fitting_type(&self, at: u32, from: RowType, to: RowType) -> bool
        ensures { result ≡ conversions.is_fitting (tell.constants_of self.now) at (conversions.plain_of from) (conversions.plain_of to) }
    {
        match plain_of(from) {
            Some(low) => match plain_of(to) {
                Some(high) => self.is_fitting(at, low, high),
                None => false,
            },
            None => false,
        }
    }

    /// The expression at a row, of the first type, may be assigned to a place of the second (JLS 5.2).
    pub fn is_assignable(&self, at: u32, from: RowType, to: RowType) -> bool
        ensures { tell.AreSeenFacts self.now → result ≡ conversions.is_assignable (tell.rows_of self.now) (tell.table_of self.now) (tell.constants_of self.now) at from to }
    {
        (!is_void(from) && self.is_subtype(from, to)) || self.is_fitting_type(at, from, to)
    }
}
