// Types of expressions (JLS 15).

ghost use Rattle.std.specs.Prelude.{◌≡◌, ◌+◌, ◌<◌, ◌^◌, true, false, if◌then◌else◌, length, None, option_map, option_and_then, slice_index_or};
ghost use Rattle.jr_tree.specs.Rows as all_rows;
ghost use Rattle.jr_tree.specs.Rows.{Rows};
ghost use Rattle.jr_tree.specs.declared.label.Label.TheVariants as is;
ghost use Rattle.jr_tree.specs.declared.label.Role.TheVariants as role;
ghost use Rattle.jr_base.specs.declared.kind.Kind.TheVariants as token;
ghost use Rattle.jr_defs.specs.Referents.{Table};
ghost use Rattle.jr_defs.specs.Types as defined;
ghost use Rattle.jr_defs.specs.Typing as classes;
ghost use Rattle.jr_plain.specs.Conversions as conversions;
ghost use Rattle.jr_plain.specs.Conversions.{Constants};
ghost use Rattle.jr_plain.specs.Declarations as declared;
ghost use Rattle.jr_plain.specs.Same.{same_role};
ghost use Rattle.jr_plain.specs.Types as written;
ghost use Rattle.jr_plain.specs.Typing as plain;
ghost use Rattle.jr_members.specs.Sources.{ArePlaced};
ghost use Rattle.jr_supers.specs.Supers.{AreSupersOf};
ghost use Rattle.jr_supers.specs.Tabled.{IsSized, dims_made};
ghost use Rattle.jr_types.specs.Typed as tell;
ghost use Rattle.jr_types.specs.Typed.{IsTyping};

use crate::conditional::{Operand, conditional_type};
use crate::conversions::{is_condition, is_number, is_reference_or_null, plain_type};
use crate::operators::{binary_type, class_of, is_compound, operator_of, unary_type};
use jr_base::{Keyword, Kind, Symbol};
use jr_defs::{Element, Referent, RowType};
use jr_lookup::has_instance;
use jr_members::World;
use jr_places::{Places, is_string, parent_at, role_at};
use jr_supers::{Supers, class_type, primitive_type};
use jr_tree::{Label, Primitive, Role, Row};

/// Rows under a table with their supertypes, the types of the rows behind the one that is typed, and the values of constant ints.
#[derive(Clone, Copy)]
pub struct Typing<'a> {
    pub world: World<'a>,
    pub types: &'a [Option<RowType>],
    pub ints: &'a [Option<i32>],
    pub string: Option<u32>,
}

/// The class String, if there is one.
#[tactic(auto, using(crate::proofs::Strings::string_found))]
pub fn find_string(rows: &[Row]) -> Option<u32>
    ensures { length rows.now < 2 ^ 32 → result ≡ tell.string_row rows.now }
{
    let Ok(count) = u32::try_from(rows.len()) else {
        return None;
    };
    for at in 0..count {
        if is_string(rows, at) {
            return Some(at);
        }
    }
    None
}

// The row declares a variable.
fn is_variable(rows: &[Row], at: u32) -> bool
    ensures { result ≡ declared.is_variable rows.now at }
{
    match role_at(rows, at) {
        Role::Field => true,
        Role::Parameter => true,
        Role::Local => true,
        _ => false,
    }
}

// The row declares a method.
fn is_method(rows: &[Row], at: u32) -> bool
    ensures { result ≡ same_role (all_rows.role_at rows.now at) role.Method }
{
    match role_at(rows, at) {
        Role::Method => true,
        _ => false,
    }
}

fn class_if(class: Option<u32>) -> Option<RowType>
    ensures { result ≡ option_map defined.class_type class }
{
    match class {
        Some(row) => Some(class_type(row)),
        None => None,
    }
}

// The class as a type, where it has an instance at the place (JLS 15.8.3, 15.8.4).
fn instance_type(rows: &[Row], places: &Places, at: u32, class: u32) -> Option<RowType>
    ensures { ArePlaced rows.now places.now → result ≡ plain.this_type rows.now at class }
{
    if has_instance(rows, places, at, class) {
        Some(class_type(class))
    } else {
        None
    }
}

// The dimensions of an array that is created: those with a length, and those without.
fn dims_of(lengths: usize, more: usize) -> usize
    ensures { lengths + more < 2 ^ 64 → result ≡ lengths + more }
{
    lengths.saturating_add(more)
}

// The type of the word true, false or null.
fn word_type(word: Keyword) -> Option<RowType>
    ensures { (p : Rows) → result ≡ plain.literal_type p (token.Word word) }
{
    match word {
        Keyword::True => Some(plain_type(Element::Boolean)),
        Keyword::False => Some(plain_type(Element::Boolean)),
        Keyword::Null => Some(plain_type(Element::Null)),
        _ => None,
    }
}

// The type of a literal (JLS 15.8.1), where the class String is known.
fn literal_type(kind: &Kind, string: Option<u32>) -> Option<RowType>
    ensures { (p : Rows) → string ≡ tell.string_row p → result ≡ plain.literal_type p kind.now }
{
    match kind {
        Kind::Int(_) => Some(plain_type(Element::Int)),
        Kind::IntMin => Some(plain_type(Element::Int)),
        Kind::Long(_) => Some(plain_type(Element::Long)),
        Kind::LongMin => Some(plain_type(Element::Long)),
        Kind::Char(_) => Some(plain_type(Element::Char)),
        Kind::Str(_) => class_if(string),
        Kind::Word(word) => word_type(*word),
        _ => None,
    }
}

// The type of the items of an array.
#[tactic(auto, using(crate::proofs::Operands::item_none, crate::proofs::Operands::item_some))]
fn item_of(array: RowType) -> Option<RowType>
    ensures { result ≡ plain.item_type array }
{
    if array.dims == 0 {
        return None;
    }
    Some(RowType {
        element: array.element,
        dims: array.dims - 1,
    })
}

fn item_type(array: Option<RowType>) -> Option<RowType>
    ensures { result ≡ option_and_then plain.item_type array }
{
    match array {
        Some(ty) => item_of(ty),
        None => None,
    }
}

// The type of `instanceof` on an operand.
fn tested_type(operand: Option<RowType>) -> Option<RowType>
    ensures { result ≡ option_and_then plain.tested_type operand }
{
    match operand {
        Some(ty) => {
            if is_reference_or_null(ty) {
                Some(plain_type(Element::Boolean))
            } else {
                None
            }
        }
        None => None,
    }
}

// The type of `++` and `--` on an operand.
fn stepped_type(operand: Option<RowType>) -> Option<RowType>
    ensures { result ≡ option_and_then plain.stepped_type operand }
{
    match operand {
        Some(ty) => { if is_number(ty) { Some(ty) } else { None } }
        None => None,
    }
}

fn unary_of(op: Symbol, operand: Option<RowType>) -> Option<RowType>
    ensures { result ≡ option_and_then (plain.unary_of op) operand }
{
    match operand {
        Some(ty) => unary_type(op, ty),
        None => None,
    }
}

// The type of a binary operator on two operands.
fn binary_of(
    rows: &[Row],
    supers: &Supers,
    op: Symbol,
    first: Option<RowType>,
    second: Option<RowType>,
) -> Option<RowType>
    ensures { (t : Table) → AreSupersOf rows.now t supers.now → result ≡ conversions.of_two (plain.binary_type rows.now t (classes.class_of op)) first second }
{
    match first {
        Some(low) => match second {
            Some(high) => binary_type(rows, supers, class_of(op), low, high),
            None => None,
        },
        None => None,
    }
}

fn compound_type(
    rows: &[Row],
    supers: &Supers,
    op: Symbol,
    place: RowType,
    value: RowType,
) -> Option<RowType>
    ensures { (t : Table) → AreSupersOf rows.now t supers.now → result ≡ plain.compound_type rows.now t op place value }
{
    if is_compound(rows, supers, op, place, value) {
        Some(place)
    } else {
        None
    }
}

// The type of a compound assignment to a place.
fn compound_of(
    rows: &[Row],
    supers: &Supers,
    op: Symbol,
    place: Option<RowType>,
    value: Option<RowType>,
) -> Option<RowType>
    ensures { (t : Table) → AreSupersOf rows.now t supers.now → result ≡ conversions.of_two (plain.compound_type rows.now t op) place value }
{
    match place {
        Some(low) => match value {
            Some(high) => compound_type(rows, supers, op, low, high),
            None => None,
        },
        None => None,
    }
}

// The type of the place, if the sign is `=`.
fn simply_assigned(sign: Symbol, place: Option<RowType>) -> Option<RowType>
    ensures { result ≡ (if plain.is_assign sign then place else None) }
{
    match sign {
        Symbol::Assign => place,
        _ => None,
    }
}

// What was chosen, where the condition is boolean.
fn chosen_type(condition: Option<RowType>, chosen: Option<RowType>) -> Option<RowType>
    ensures { result ≡ plain.chosen_type condition chosen }
{
    match condition {
        Some(ty) => { if is_condition(ty) { chosen } else { None } }
        None => None,
    }
}

// The type of two operands of `?:`, if both are known.
fn chosen_of(
    rows: &[Row],
    supers: &Supers,
    first: Option<Operand>,
    second: Option<Operand>,
) -> Option<RowType>
    ensures { (t : Table) → AreSupersOf rows.now t supers.now → result ≡ conversions.of_two (tell.conditional_on rows.now t) first second }
{
    match first {
        Some(low) => match second {
            Some(high) => conditional_type(rows, supers, low, high),
            None => None,
        },
        None => None,
    }
}

// Where what is below a row ends, if there is such a row.
fn end_if(rows: &[Row], at: u32) -> Option<u32>
    ensures { result ≡ tell.end_if rows.now at }
{
    match rows.get(at as usize) {
        Some(row) => Some(row.end),
        None => None,
    }
}

impl<'a> Typing<'a> {
    // The type of a row, if it is a child of the other.
    fn child(self, over: u32, at: u32) -> Option<RowType>
        ensures { result ≡ plain.child (tell.rows_of self.entry) (tell.types_of self.entry) over at }
    {
        if parent_at(self.world.under.rows, at) != over {
            return None;
        }
        match self.types.get(at as usize) {
            Some(ty) => *ty,
            None => None,
        }
    }

    fn child_if(self, over: u32, at: Option<u32>) -> Option<RowType>
        ensures { result ≡ tell.child_if (tell.rows_of self.entry) (tell.types_of self.entry) over at }
    {
        match at {
            Some(row) => self.child(over, row),
            None => None,
        }
    }

    // Where the second child of a row begins, if it has a first one.
    #[tactic(auto, using(crate::proofs::Operands::no_second_row))]
    fn second_row(self, at: u32) -> Option<u32>
        ensures { length (tell.rows_of self.entry) < 2 ^ 32 → result ≡ tell.end_if (tell.rows_of self.entry) (at + 1) }
    {
        match at.checked_add(1) {
            Some(next) => end_if(self.world.under.rows, next),
            None => None,
        }
    }

    fn third_row(self, at: u32) -> Option<u32>
        ensures { length (tell.rows_of self.entry) < 2 ^ 32 → result ≡ tell.third_if (tell.rows_of self.entry) at }
    {
        match self.second_row(at) {
            Some(second) => end_if(self.world.under.rows, second),
            None => None,
        }
    }

    #[tactic(auto, using(crate::proofs::Operands::no_first))]
    fn first(self, at: u32) -> Option<RowType>
        ensures { length (tell.rows_of self.entry) < 2 ^ 32 → result ≡ plain.first (tell.rows_of self.entry) (tell.types_of self.entry) at }
    {
        match at.checked_add(1) {
            Some(next) => self.child(at, next),
            None => None,
        }
    }

    fn second(self, at: u32) -> Option<RowType>
        ensures { length (tell.rows_of self.entry) < 2 ^ 32 → result ≡ plain.second (tell.rows_of self.entry) (tell.types_of self.entry) at }
    {
        self.child_if(at, self.second_row(at))
    }

    fn value(self, at: u32) -> Option<i32>
        ensures { result ≡ slice_index_or self.entry.ints.now at None }
    {
        match self.ints.get(at as usize) {
            Some(value) => *value,
            None => None,
        }
    }

    // The operand of `?:` at a row.
    fn operand(self, over: u32, at: u32) -> Option<Operand>
        ensures { result ≡ tell.operand_at (tell.rows_of self.entry) (tell.types_of self.entry) self.entry.ints.now over at }
    {
        match self.child(over, at) {
            Some(ty) => Some(Operand {
                ty,
                value: self.value(at),
            }),
            None => None,
        }
    }

    fn operand_if(self, over: u32, at: Option<u32>) -> Option<Operand>
        ensures { result ≡ tell.operand_if (tell.rows_of self.entry) (tell.types_of self.entry) self.entry.ints.now over at }
    {
        match at {
            Some(row) => self.operand(over, row),
            None => None,
        }
    }

    // The type of the variable that a row refers to.
    fn variable_type(self, at: u32) -> Option<RowType>
        ensures { IsSized (tell.rows_of self.entry) → result ≡ plain.variable_type (tell.rows_of self.entry) (tell.table_of self.entry) (tell.table_of self.entry at) }
    {
        match self.world.under.referent(at) {
            Referent::ArrayLength => Some(plain_type(Element::Int)),
            Referent::Declared { row, .. } => {
                if is_variable(self.world.under.rows, row) {
                    self.world.under.type_of_declared(row)
                } else {
                    None
                }
            }
            _ => None,
        }
    }

    // The type of the result of the method that a row refers to.
    fn result_type(self, at: u32) -> Option<RowType>
        ensures { IsSized (tell.rows_of self.entry) → result ≡ plain.result_type (tell.rows_of self.entry) (tell.table_of self.entry) (tell.table_of self.entry at) }
    {
        match self.world.under.referent(at) {
            Referent::Declared { row, .. } => {
                if is_method(self.world.under.rows, row) {
                    self.world.under.type_of_declared(row)
                } else {
                    None
                }
            }
            _ => None,
        }
    }

    // The class as a type, where it has an instance at the place.
    fn this_type(self, at: u32, class: Option<u32>) -> Option<RowType>
        ensures { ArePlaced (tell.rows_of self.entry) self.entry.world.under.places.now → result ≡ option_and_then (plain.this_type (tell.rows_of self.entry) at) class }
    {
        match class {
            Some(over) => instance_type(self.world.under.rows, self.world.under.places, at, over),
            None => None,
        }
    }

    // The type of `this` behind the name of a class (JLS 15.8.4).
    fn type_of_named_this(self, at: u32) -> Option<RowType>
        ensures { (constant : Constants) → IsTyping constant self.entry → result ≡ plain.typed_by (tell.rows_of self.entry) (tell.table_of self.entry) constant (tell.types_of self.entry) at (is.This true) }
    {
        self.this_type(at, self.world.under.named_type(at))
    }

    // The type of `this` alone (JLS 15.8.3).
    fn type_of_bare_this(self, at: u32) -> Option<RowType>
        ensures { (constant : Constants) → IsTyping constant self.entry → result ≡ plain.typed_by (tell.rows_of self.entry) (tell.table_of self.entry) constant (tell.types_of self.entry) at (is.This false) }
    {
        self.this_type(at, self.world.under.places.around(at))
    }

    fn type_of_this(self, at: u32, is_qualified: bool) -> Option<RowType>
        ensures { (constant : Constants) → IsTyping constant self.entry → result ≡ plain.typed_by (tell.rows_of self.entry) (tell.table_of self.entry) constant (tell.types_of self.entry) at (is.This is_qualified) }
    {
        if is_qualified {
            self.type_of_named_this(at)
        } else {
            self.type_of_bare_this(at)
        }
    }

    fn new_type(self, at: u32) -> Option<RowType>
        ensures { length (tell.rows_of self.entry) < 2 ^ 32 → result ≡ option_map defined.class_type (written.named_type (tell.rows_of self.entry) (tell.table_of self.entry) at) }
    {
        class_if(self.world.under.named_type(at))
    }

    // The type that a creation of an array gives.
    fn created_type(self, at: u32, primitive: Option<Primitive>, dims: usize) -> Option<RowType>
        ensures { length (tell.rows_of self.entry) < 2 ^ 32 → result ≡ tell.created_type (tell.rows_of self.entry) (tell.table_of self.entry) at primitive dims }
    {
        match primitive {
            Some(word) => Some(primitive_type(word, dims)),
            None => match self.world.under.named_type(at) {
                Some(class) => Some(RowType {
                    element: Element::Class(class),
                    dims,
                }),
                None => None,
            },
        }
    }

    // The type of an array that is created with some lengths, and more dimensions without one (JLS 15.10.1).
    fn new_array_type(
        self,
        at: u32,
        primitive: Option<Primitive>,
        lengths: usize,
        more: usize,
    ) -> Option<RowType>
        ensures { length (tell.rows_of self.entry) < 2 ^ 32 → lengths + more < 2 ^ 64 → result ≡ tell.created_type (tell.rows_of self.entry) (tell.table_of self.entry) at primitive (lengths + more) }
    {
        self.created_type(at, primitive, dims_of(lengths, more))
    }

    fn cast_type(self, at: u32) -> Option<RowType>
        ensures { length (tell.rows_of self.entry) < 2 ^ 32 → result ≡ tell.cast_type (tell.rows_of self.entry) (tell.table_of self.entry) at }
    {
        match self.world.under.first_child(at) {
            Some(child) => self.world.under.type_at(child),
            None => None,
        }
    }

    fn binary_type(self, at: u32, op: Symbol) -> Option<RowType>
        ensures { (constant : Constants) → IsTyping constant self.entry → result ≡ conversions.of_two (plain.binary_type (tell.rows_of self.entry) (tell.table_of self.entry) (classes.class_of op)) (plain.first (tell.rows_of self.entry) (tell.types_of self.entry) at) (plain.second (tell.rows_of self.entry) (tell.types_of self.entry) at) }
    {
        let first = self.first(at);
        let second = self.second(at);
        binary_of(self.world.under.rows, self.world.supers, op, first, second)
    }

    fn conditional_type(self, at: u32) -> Option<RowType>
        ensures { (constant : Constants) → IsTyping constant self.entry → result ≡ plain.typed_by (tell.rows_of self.entry) (tell.table_of self.entry) constant (tell.types_of self.entry) at is.Conditional }
    {
        let condition = self.first(at);
        let first = self.operand_if(at, self.second_row(at));
        let second = self.operand_if(at, self.third_row(at));
        let chosen = chosen_of(self.world.under.rows, self.world.supers, first, second);
        chosen_type(condition, chosen)
    }

    fn assigned_type(self, at: u32, sign: Symbol) -> Option<RowType>
        ensures { (constant : Constants) → IsTyping constant self.entry → result ≡ plain.assigned_type (tell.rows_of self.entry) (tell.table_of self.entry) (tell.types_of self.entry) at sign (classes.operator_of sign) }
    {
        let place = self.first(at);
        match operator_of(sign) {
            Some(op) => {
                let value = self.second(at);
                compound_of(self.world.under.rows, self.world.supers, op, place, value)
            }
            None => simply_assigned(sign, place),
        }
    }

    // The type of an expression that has operands.
    fn operated_type(self, at: u32, label: &Label) -> Option<RowType>
        ensures { (constant : Constants) → IsTyping constant self.entry → result ≡ tell.operated_by (tell.rows_of self.entry) (tell.table_of self.entry) constant (tell.types_of self.entry) at label.now }
    {
        match label {
            Label::Paren => self.first(at),
            Label::Index => item_type(self.first(at)),
            Label::IsA => tested_type(self.first(at)),
            Label::Unary { op } => unary_of(*op, self.first(at)),
            Label::PreStep { .. } => stepped_type(self.first(at)),
            Label::PostStep { .. } => stepped_type(self.first(at)),
            Label::Binary { op } => self.binary_type(at, *op),
            Label::Conditional => self.conditional_type(at),
            Label::Assign { op } => self.assigned_type(at, *op),
            _ => None,
        }
    }

    // The type of an expression by its label.
    fn typed_by(self, at: u32, label: &Label) -> Option<RowType>
        ensures { (constant : Constants) → IsTyping constant self.entry → dims_made label.now < 2 ^ 64 → result ≡ plain.typed_by (tell.rows_of self.entry) (tell.table_of self.entry) constant (tell.types_of self.entry) at label.now }
    {
        match label {
            Label::Literal { kind } => literal_type(kind.get(), self.string),
            Label::Name { .. } => self.variable_type(at),
            Label::Select => self.variable_type(at),
            Label::SuperSelect => self.variable_type(at),
            Label::Call { .. } => self.result_type(at),
            Label::New => self.new_type(at),
            Label::NewArray {
                primitive,
                lengths,
                more,
            } => self.new_array_type(at, *primitive, *lengths, *more),
            Label::Cast => self.cast_type(at),
            Label::This { is_qualified } => self.type_of_this(at, *is_qualified),
            _ => self.operated_type(at, label),
        }
    }

    /// The type of the expression at a row, where the types of its parts are known.
    pub fn type_of(self, at: u32) -> Option<RowType>
        ensures { (constant : Constants) → IsTyping constant self.entry → result ≡ plain.typed_by (tell.rows_of self.entry) (tell.table_of self.entry) constant (tell.types_of self.entry) at (all_rows.label (tell.rows_of self.entry) at) }
    {
        match self.world.under.rows.get(at as usize) {
            Some(row) => self.typed_by(at, &row.label),
            None => None,
        }
    }
}
