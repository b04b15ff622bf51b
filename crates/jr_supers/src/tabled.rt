// Rows under a table.
ghost use Rattle.std.specs.Prelude.{◌≡◌, ◌+◌, ◌<◌, ◌^◌, length, option_map};
ghost use Rattle.jr_tree.specs.Rows.{label};
ghost use Rattle.jr_tree.specs.declared.label.Label.TheVariants as is;
ghost use Rattle.jr_defs.specs.Referents.{entries};
ghost use Rattle.jr_defs.specs.Types as types;
ghost use Rattle.jr_defs.specs.declared.referent.Element.TheVariants as element;
ghost use Rattle.jr_plain.specs.Types as plain;
ghost use Rattle.jr_supers.specs.Tabled as tell;

use jr_defs::{Element, Referent, RowType};
use jr_places::{Places, is_type, parent_at};
use jr_tree::{Label, Primitive, Role, Row};

/// The rows of a program with their places, under a table of what occurrences refer to. A row past the end of the table is not bound.
#[derive(Clone, Copy)]
pub struct Tabled<'a> {
    pub rows: &'a [Row],
    pub places: &'a Places,
    pub table: &'a [Referent],
}

// The element type that a word stands for.
fn element_of(primitive: Primitive) -> Element
    ensures { result ≡ types.element_of primitive }
{
    match primitive {
        Primitive::Boolean => Element::Boolean,
        Primitive::Byte => Element::Byte,
        Primitive::Short => Element::Short,
        Primitive::Char => Element::Char,
        Primitive::Int => Element::Int,
        Primitive::Long => Element::Long,
    }
}

/// The type of a word with so many dimensions.
pub fn primitive_type(primitive: Primitive, dims: usize) -> RowType
    ensures { result ≡ types.array (types.element_of primitive) dims }
{
    RowType {
        element: element_of(primitive),
        dims,
    }
}

/// The class or interface as a type.
pub fn class_type(class: u32) -> RowType
    ensures { result ≡ types.class_type class }
{
    RowType {
        element: Element::Class(class),
        dims: 0,
    }
}

/// The type with so many dimensions more.
pub fn deeper(ty: RowType, more: usize) -> RowType
    ensures { ty.dims + more < 2 ^ 64 → result ≡ types.deeper ty more }
{
    RowType {
        element: ty.element,
        dims: ty.dims.saturating_add(more),
    }
}

/// The row that a referent declares.
pub fn declaration(referent: Referent) -> Option<u32>
    ensures { result ≡ tell.declared referent }
{
    match referent {
        Referent::Declared { row, .. } => Some(row),
        _ => None,
    }
}

fn void_type() -> RowType
    ensures { result ≡ types.plain element.Void }
{
    RowType {
        element: Element::Void,
        dims: 0,
    }
}

// The type of a class with so many dimensions.
fn array_of(class: Option<u32>, dims: usize) -> Option<RowType>
    ensures { result ≡ option_map (λ c. types.array (element.Class c) dims) class }
{
    match class {
        Some(row) => Some(RowType {
            element: Element::Class(row),
            dims,
        }),
        None => None,
    }
}

// The type that a referent declares.
fn type_of_referent(rows: &[Row], referent: Referent) -> Option<u32>
    ensures { result ≡ plain.referred_type rows.now referent }
{
    match referent {
        Referent::Declared { row, .. } => { if is_type(rows, row) { Some(row) } else { None } }
        _ => None,
    }
}

// The brackets behind a declared name.
fn brackets_at(rows: &[Row], at: u32) -> usize
    ensures { result ≡ types.brackets_of (label rows.now at) }
{
    match rows.get(at as usize) {
        Some(row) => match row.label {
            Label::Field { dims, .. } => dims,
            Label::Local { dims, .. } => dims,
            Label::Parameter { dims, .. } => dims,
            _ => 0,
        },
        None => 0,
    }
}

/// What a row refers to in a table.
pub fn referent_in(table: &[Referent], at: u32) -> Referent
    ensures { result ≡ entries table.now at }
{
    match table.get(at as usize) {
        Some(referent) => *referent,
        None => Referent::Unbound,
    }
}

impl<'a> Tabled<'a> {
    /// What a row refers to.
    pub fn referent(self, at: u32) -> Referent
        ensures { result ≡ entries self.entry.table.now at }
    {
        referent_in(self.table, at)
    }

    /// The declaration to which a row refers.
    pub fn declared(self, at: u32) -> Option<u32>
        ensures { result ≡ tell.declared (entries self.entry.table.now at) }
    {
        declaration(self.referent(at))
    }

    /// The type to which a row refers.
    pub fn referred_type(self, at: u32) -> Option<u32>
        ensures { result ≡ plain.referred_type self.entry.rows.now (entries self.entry.table.now at) }
    {
        type_of_referent(self.rows, self.referent(at))
    }

    /// The first row right below a row.
    #[tactic(auto, using(crate::proofs::Written::no_child))]
    pub fn first_child(self, at: u32) -> Option<u32>
        ensures { length self.entry.rows.now < 2 ^ 32 → result ≡ tell.first_child self.entry.rows.now at }
    {
        match at.checked_add(1) {
            Some(next) => {
                if parent_at(self.rows, next) == at {
                    Some(next)
                } else {
                    None
                }
            }
            None => None,
        }
    }

    /// The type to which the name in the first child refers.
    pub fn named_type(self, at: u32) -> Option<u32>
        ensures { length self.entry.rows.now < 2 ^ 32 → result ≡ plain.named_type self.entry.rows.now (entries self.entry.table.now) at }
    {
        match self.first_child(at) {
            Some(child) => self.referred_type(child),
            None => None,
        }
    }

    /// The type that is written at a row.
    pub fn type_at(self, at: u32) -> Option<RowType>
        ensures { length self.entry.rows.now < 2 ^ 32 → result ≡ plain.type_at self.entry.rows.now (entries self.entry.table.now) at }
    {
        match self.rows.get(at as usize) {
            Some(row) => match row.label {
                Label::TypeUse { primitive, dims } => self.written_type(at, primitive, dims),
                _ => None,
            },
            None => None,
        }
    }

    // The type of a use of a type.
    fn written_type(self, at: u32, primitive: Option<Primitive>, dims: usize) -> Option<RowType>
        ensures { length self.entry.rows.now < 2 ^ 32 → result ≡ plain.type_by self.entry.rows.now (entries self.entry.table.now) at (is.TypeUse primitive dims) }
    {
        match primitive {
            Some(word) => Some(primitive_type(word, dims)),
            None => array_of(self.named_type(at), dims),
        }
    }

    // The type that is written right behind a row.
    #[tactic(auto, using(crate::proofs::Written::no_type))]
    fn type_behind(self, at: u32) -> Option<RowType>
        ensures { length self.entry.rows.now < 2 ^ 32 → result ≡ plain.type_at self.entry.rows.now (entries self.entry.table.now) (at + 1) }
    {
        match at.checked_add(1) {
            Some(next) => self.type_at(next),
            None => None,
        }
    }

    // The type that is written right behind a row, with the brackets behind a declared name.
    fn type_with(self, declared: u32, before: u32) -> Option<RowType>
        ensures { tell.IsSized self.entry.rows.now → result ≡ plain.with_brackets self.entry.rows.now (entries self.entry.table.now) declared (before + 1) }
    {
        let brackets = brackets_at(self.rows, declared);
        match self.type_behind(before) {
            Some(ty) => Some(deeper(ty, brackets)),
            None => None,
        }
    }

    /// The type of a variable, or that of a method's result.
    pub fn type_of_declared(self, at: u32) -> Option<RowType>
        ensures { tell.IsSized self.entry.rows.now → result ≡ plain.type_of_declared self.entry.rows.now (entries self.entry.table.now) at }
    {
        match self.rows.get(at as usize) {
            Some(row) => match row.label {
                Label::Field { .. } => self.type_with(at, parent_at(self.rows, at)),
                Label::Local { .. } => self.type_with(at, parent_at(self.rows, at)),
                Label::Parameter { .. } => self.type_with(at, at),
                Label::Method { is_void: true, .. } => Some(void_type()),
                Label::Method { is_void: false, .. } => self.type_behind(at),
                _ => None,
            },
            None => None,
        }
    }
}

/// The role is that of a method or constructor.
pub fn is_callable(role: Role) -> bool
    ensures { result ≡ tell.is_callable role }
{
    match role {
        Role::Method => true,
        Role::Constructor => true,
        _ => false,
    }
}
