// Names, fields and `this` (JLS 6.5.6, 10.7, 15.8.3, 15.8.4, 15.11).
ghost use Rattle.std.specs.Prelude.{◌≡◌, ◌<◌, ◌^◌, ◌∷◌, true, Some, None, IfOk, OnOk, length as length_of};
ghost use Rattle.jr_core.specs.declared.code.Code.TheVariants as c;
ghost use Rattle.jr_tree.specs.Rows as all_rows;
ghost use Rattle.jr_supers.specs.Tabled as tell;
ghost use Rattle.jr_codes.specs.Facts.{has_child};
ghost use Rattle.jr_codes.specs.Making.{code, of_none, of_one};
ghost use Rattle.jr_constants.specs.Values.{value_in, value_in_if};
ghost use Rattle.jr_expressions.specs.Names as made;
ghost use Rattle.jr_codes.specs.Reads.{rows_of, table_of, texts_of, facts, IsReadAt, Becomes};
ghost use Rattle.jr_plain.specs.Types.{named_type};
ghost use Rattle.jr_codes.specs.Waiting.{waiting};

use crate::conversions::literal;
use jr_base::{Boxed, OutOfMemory};
use jr_codes::{Parts, Source};
use jr_constants::Value;
use jr_core::Code;
use jr_defs::Referent;
use jr_places::{is_static, role_at};
use jr_tree::Role;

/// The instance of a class.
pub fn this_of(source: &Source, class: u32) -> Result<Boxed<Code>, OutOfMemory>
    ensures { IfOk result (λ on. on ≡ made.this_in (facts source.now) class) }
{
    let class = source.type_id(class);
    Ok(Boxed::new(source.alloc, Code::This { class })?)
}

/// The instance of the class as whose member a name was found.
pub fn this_at(source: &Source, level: Option<u32>) -> Result<Boxed<Code>, OutOfMemory>
    ensures { IfOk result (λ on. made.object (facts source.now) level ≡ Some on) }
{
    match level {
        Some(class) => this_of(source, class),
        None => Err(OutOfMemory),
    }
}

// The instance of a class as the code of a row.
fn push_this(
    source: &Source,
    codes: &mut Parts<Code>,
    at: u32,
    class: u32,
) -> Result<(), OutOfMemory>
    ensures { OnOk result (waiting codes.new ≡ (at, made.this_in (facts source.now) class) ∷ waiting codes.old) }
{
    let made = this_of(source, class)?;
    codes.push_boxed(at, made)
}

fn class_of_this(source: &Source, at: u32, is_qualified: bool) -> Option<u32>
    ensures { IsReadAt source.now at → result ≡ made.class_of_this (facts source.now) at is_qualified }
{
    if is_qualified {
        type_before(source, at)
    } else {
        source.around(at)
    }
}

/// `this`, or `T.this`.
pub fn this(
    source: &Source,
    codes: &mut Parts<Code>,
    at: u32,
    is_qualified: bool,
) -> Result<(), OutOfMemory>
    ensures { OnOk result (Becomes source.now at (λ parts. made.this_made (facts source.now) at is_qualified parts) (waiting codes.old) (waiting codes.new)) }
{
    match class_of_this(source, at, is_qualified) {
        Some(class) => push_this(source, codes, at, class),
        None => Err(OutOfMemory),
    }
}

// The type that stands before a dot.
fn type_before(source: &Source, at: u32) -> Option<u32>
    ensures { length_of (rows_of source.now) < 2 ^ 32 → result ≡ named_type (rows_of source.now) (table_of source.now) at }
{
    source.under().named_type(at)
}

// A name that may be constant by its form: a simple one, or one behind that of a type (JLS 15.28).
fn has_constant_form(source: &Source, at: u32) -> bool
    ensures { IsReadAt source.now at → result ≡ made.has_constant_form (facts source.now) at }
{
    if source.has_child(at) {
        return type_before(source, at).is_some();
    }
    true
}

// The value of a constant variable that stands before a dot (JLS 15.28); other names have theirs in the table of constants.
fn constant_name(source: &Source, at: u32, row: u32) -> Option<Value>
    ensures { IsReadAt source.now at → value_in_if (texts_of source.now) result ≡ made.constant_name (facts source.now) at row }
{
    if has_constant_form(source, at) {
        source.variable(row)
    } else {
        None
    }
}

/// A constant expression that stands in no other one, as a constant variable by its name.
pub fn constant(
    source: &Source,
    codes: &mut Parts<Code>,
    at: u32,
    value: Value,
) -> Result<(), OutOfMemory>
    ensures { OnOk result (Becomes source.now at (λ parts. of_none parts (code (c.Lit (Some (value_in (texts_of source.now) value))))) (waiting codes.old) (waiting codes.new)) }
{
    let made = literal(source, value)?;
    codes.push_boxed(at, made)
}

// A field behind a dot: one of what stands before it, unless that is a type.
fn field_behind(
    source: &Source,
    codes: &mut Parts<Code>,
    at: u32,
    row: u32,
) -> Result<(), OutOfMemory>
    ensures { OnOk result (has_child (facts source.now) at ≡ true → Becomes source.now at (λ parts. made.field_behind (facts source.now) at row parts) (waiting codes.old) (waiting codes.new)) }
{
    let on = codes.boxed_if(source.alloc, Some(source.first(at)))?;
    let field = source.decl(row);
    codes.push(at, Code::FieldAt { on, field })
}

// A static field by its simple name.
fn static_field(
    source: &Source,
    codes: &mut Parts<Code>,
    at: u32,
    row: u32,
) -> Result<(), OutOfMemory>
    ensures { OnOk result (Becomes source.now at (λ parts. of_none parts (code (c.FieldAt None ((facts source.now).decl row)))) (waiting codes.old) (waiting codes.new)) }
{
    let field = source.decl(row);
    let on = None;
    codes.push(at, Code::FieldAt { on, field })
}

// A field by its simple name: one of the instance of the class as whose member it was found.
fn own_field(
    source: &Source,
    codes: &mut Parts<Code>,
    at: u32,
    row: u32,
    level: Option<u32>,
) -> Result<(), OutOfMemory>
    ensures { OnOk result (Becomes source.now at (λ parts. of_none parts (made.own_field (facts source.now) row level)) (waiting codes.old) (waiting codes.new)) }
{
    let on = Some(this_at(source, level)?);
    let field = source.decl(row);
    codes.push(at, Code::FieldAt { on, field })
}

fn field_alone(
    source: &Source,
    codes: &mut Parts<Code>,
    at: u32,
    row: u32,
    level: Option<u32>,
) -> Result<(), OutOfMemory>
    ensures { OnOk result (Becomes source.now at (λ parts. made.field_alone (facts source.now) row level parts) (waiting codes.old) (waiting codes.new)) }
{
    if is_static(source.rows(), row) {
        static_field(source, codes, at, row)
    } else {
        own_field(source, codes, at, row, level)
    }
}

fn field(
    source: &Source,
    codes: &mut Parts<Code>,
    at: u32,
    row: u32,
    level: Option<u32>,
) -> Result<(), OutOfMemory>
    ensures { OnOk result (Becomes source.now at (λ parts. made.field_made (facts source.now) at row level parts) (waiting codes.old) (waiting codes.new)) }
{
    if source.has_child(at) {
        field_behind(source, codes, at, row)
    } else {
        field_alone(source, codes, at, row, level)
    }
}

// A local variable or parameter by its name.
fn local(source: &Source, codes: &mut Parts<Code>, at: u32, row: u32) -> Result<(), OutOfMemory>
    ensures { OnOk result (Becomes source.now at (λ parts. of_none parts (code (c.Var ((facts source.now).decl row)))) (waiting codes.old) (waiting codes.new)) }
{
    let local = source.decl(row);
    codes.push(at, Code::Var { local })
}

// A variable by its name; another name is no code.
fn variable(
    source: &Source,
    codes: &mut Parts<Code>,
    at: u32,
    row: u32,
    level: Option<u32>,
) -> Result<(), OutOfMemory>
    ensures { OnOk result (Becomes source.now at (λ parts. made.variable_made (all_rows.role_at (rows_of source.now) row) (facts source.now) at row level parts) (waiting codes.old) (waiting codes.new)) }
{
    match role_at(source.rows(), row) {
        Role::Field => field(source, codes, at, row, level),
        Role::Local => local(source, codes, at, row),
        Role::Parameter => local(source, codes, at, row),
        _ => Ok(()),
    }
}

// The length of the array in the first child.
fn length(source: &Source, codes: &mut Parts<Code>, at: u32) -> Result<(), OutOfMemory>
    ensures { OnOk result (Becomes source.now at (λ parts. made.length_made parts) (waiting codes.old) (waiting codes.new)) }
{
    let array = codes.boxed(source.alloc, source.first(at))?;
    codes.push(at, Code::Length { array })
}

fn declared_name(
    source: &Source,
    codes: &mut Parts<Code>,
    at: u32,
    row: u32,
    level: Option<u32>,
) -> Result<(), OutOfMemory>
    ensures { OnOk result (Becomes source.now at (λ parts. made.declared_made (made.constant_name (facts source.now) at row) (facts source.now) at row level parts) (waiting codes.old) (waiting codes.new)) }
{
    match constant_name(source, at, row) {
        Some(value) => constant(source, codes, at, value),
        None => variable(source, codes, at, row, level),
    }
}

/// A name; one of a type or package makes no code.
pub fn name(source: &Source, codes: &mut Parts<Code>, at: u32) -> Result<(), OutOfMemory>
    ensures { OnOk result (Becomes source.now at (λ parts. made.name_made ((facts source.now).refers at) (facts source.now) at parts) (waiting codes.old) (waiting codes.new)) }
{
    match source.under().referent(at) {
        Referent::ArrayLength => length(source, codes, at),
        Referent::Declared { row, level } => declared_name(source, codes, at, row, level),
        _ => Ok(()),
    }
}

// A field of an object that an expression gives.
fn field_of(source: &Source, codes: &mut Parts<Code>, at: u32, row: u32) -> Result<(), OutOfMemory>
    ensures { OnOk result (Becomes source.now at (λ parts. of_one parts (λ m a. code (c.FieldAt (Some a) ((facts source.now).decl row)))) (waiting codes.old) (waiting codes.new)) }
{
    let on = Some(codes.boxed(source.alloc, source.first(at))?);
    let field = source.decl(row);
    codes.push(at, Code::FieldAt { on, field })
}

/// `e.name`
pub fn select(source: &Source, codes: &mut Parts<Code>, at: u32) -> Result<(), OutOfMemory>
    ensures { OnOk result (Becomes source.now at (λ parts. made.select_made ((facts source.now).refers at) (facts source.now) at parts) (waiting codes.old) (waiting codes.new)) }
{
    match source.under().referent(at) {
        Referent::ArrayLength => length(source, codes, at),
        Referent::Declared { row, .. } => field_of(source, codes, at, row),
        _ => Err(OutOfMemory),
    }
}

// A field of the instance of a class.
fn super_field(
    source: &Source,
    codes: &mut Parts<Code>,
    at: u32,
    class: u32,
    row: u32,
) -> Result<(), OutOfMemory>
    ensures { OnOk result (Becomes source.now at (λ parts. of_none parts (code (c.FieldAt (Some (made.this_in (facts source.now) class)) ((facts source.now).decl row)))) (waiting codes.old) (waiting codes.new)) }
{
    let on = Some(this_of(source, class)?);
    let field = source.decl(row);
    codes.push(at, Code::FieldAt { on, field })
}

fn super_of(
    source: &Source,
    codes: &mut Parts<Code>,
    at: u32,
    class: Option<u32>,
    row: Option<u32>,
) -> Result<(), OutOfMemory>
    ensures { OnOk result (Becomes source.now at (λ parts. made.super_made class row (facts source.now) parts) (waiting codes.old) (waiting codes.new)) }
{
    match class {
        Some(class) => match row {
            Some(row) => super_field(source, codes, at, class, row),
            None => Err(OutOfMemory),
        },
        None => Err(OutOfMemory),
    }
}

/// `super.name`
pub fn super_select(source: &Source, codes: &mut Parts<Code>, at: u32) -> Result<(), OutOfMemory>
    ensures { OnOk result (Becomes source.now at (λ parts. made.super_made ((facts source.now).around at) (tell.declared ((facts source.now).refers at)) (facts source.now) parts) (waiting codes.old) (waiting codes.new)) }
{
    let class = source.around(at);
    let row = source.under().declared(at);
    super_of(source, codes, at, class, row)
}
