// Calls and creations (JLS 8.8.7, 15.9, 15.12).
ghost use Rattle.std.specs.Prelude.{◌≡◌, true, false, [], IfOk, OnOk, Some, None, length, option_map};
ghost use Rattle.jr_core.specs.declared.code.Code.TheVariants as c;
ghost use Rattle.jr_codes.specs.Making.{code, of_none};
ghost use Rattle.jr_codes.specs.Waiting.{waiting};
ghost use Rattle.jr_tree.specs.declared.label.ReceiverKind.TheVariants as on;
ghost use Rattle.jr_defs.specs.declared.referent.Referent.TheVariants as r;
ghost use Rattle.jr_expressions.specs.Names as names;
ghost use Rattle.jr_expressions.specs.Calls as made;
ghost use Rattle.jr_supers.specs.Signatures.{AreSignatures, nth_of};
ghost use Rattle.jr_expressions.specs.Passing.{AddsArgument, TakesArguments};
ghost use Rattle.jr_codes.specs.Reads.{rows_of, table_of, signatures_of, facts, Becomes};

use crate::conversions::converted;
use crate::names::this_at;
use jr_base::{Boxed, Items, OutOfMemory};
use jr_codes::{Parts, Source, add_item};
use jr_core::Code;
use jr_defs::{Referent, RowType};
use jr_places::{constructed_class, is_inner, is_static, role_at};
use jr_supers::is_callable;
use jr_tree::{ReceiverKind, ThisOrSuper};

fn counted(count: usize) -> Result<u32, OutOfMemory>
    ensures { IfOk result (λ number. number ≡ count) }
{
    match u32::try_from(count) {
        Ok(number) => Ok(number),
        Err(_) => Err(OutOfMemory),
    }
}

// The type of a parameter, counted from 0.
fn parameter(source: &Source, method: u32, nth: u32) -> Result<RowType, OutOfMemory>
    ensures { IfOk result (λ ty. AreSignatures (rows_of source.now) (table_of source.now) (signatures_of source.now) → nth_of ((facts source.now).parameters method) nth ≡ Some ty) }
{
    if !is_callable(role_at(source.rows(), method)) {
        return Err(OutOfMemory);
    }
    match source.parameter(method, nth) {
        Some(ty) => Ok(ty),
        None => Err(OutOfMemory),
    }
}

// Adds the code of a row as the next argument of a call.
fn add_argument(
    source: &Source,
    codes: &mut Parts<Code>,
    all: &mut Items<Code>,
    method: u32,
    row: u32,
) -> Result<(), OutOfMemory>
    ensures { OnOk result (AddsArgument source.now method row (waiting codes.old) (waiting codes.new) all.old all.new) }
{
    let nth = counted(all.len())?;
    let wanted = parameter(source, method, nth)?;
    let argument = converted(source, codes, row, wanted)?;
    add_item(all, argument)
}

// The method has so many parameters.
fn has_parameters(source: &Source, method: u32, count: usize) -> bool
    ensures { AreSignatures (rows_of source.now) (table_of source.now) (signatures_of source.now) → result ≡ true → option_map (λ all. length all) ((facts source.now).parameters method) ≡ Some count }
{
    if !is_callable(role_at(source.rows(), method)) {
        return false;
    }
    match source.parameter_count(method) {
        Some(wanted) => wanted as usize == count,
        None => false,
    }
}

// The arguments that stand before a row, as values of the types of the parameters, one for each.
fn arguments(
    source: &Source,
    codes: &mut Parts<Code>,
    method: u32,
    end: u32,
) -> Result<Items<Code>, OutOfMemory>
    ensures { IfOk result (λ all. TakesArguments source.now method end (waiting codes.old) (waiting codes.new) all) }
{
    let mut all = Items::new(source.alloc);
    while let Some(row) = codes.next(end) {
        add_argument(source, codes, &mut all, method, row)?;
    }
    if !has_parameters(source, method, all.len()) {
        return Err(OutOfMemory);
    }
    Ok(all)
}

// ---- calls of methods

fn call_on(
    source: &Source,
    codes: &mut Parts<Code>,
    at: u32,
    row: u32,
    receiver: Option<Boxed<Code>>,
    is_super: bool,
) -> Result<(), OutOfMemory>
    ensures { OnOk result (Becomes source.now at (λ parts. made.call_on (facts source.now) row receiver is_super parts) (waiting codes.old) (waiting codes.new)) }
{
    let args = arguments(source, codes, row, source.end(at))?;
    let method = source.decl(row);
    codes.push(
        at,
        Code::Call {
            receiver,
            is_super,
            method,
            args,
        },
    )
}

// A method of the object of the class as whose member it was found.
fn own_call(
    source: &Source,
    codes: &mut Parts<Code>,
    at: u32,
    row: u32,
    level: Option<u32>,
) -> Result<(), OutOfMemory>
    ensures { OnOk result (Becomes source.now at (λ parts. made.call_alone (facts source.now) row (names.object (facts source.now) level) parts) (waiting codes.old) (waiting codes.new)) }
{
    let on = Some(this_at(source, level)?);
    call_on(source, codes, at, row, on, false)
}

// A call with no dot.
fn call_alone(
    source: &Source,
    codes: &mut Parts<Code>,
    at: u32,
    row: u32,
    level: Option<u32>,
) -> Result<(), OutOfMemory>
    ensures { OnOk result (Becomes source.now at (λ parts. made.call_by on.Absent (facts source.now) at row level parts) (waiting codes.old) (waiting codes.new)) }
{
    if is_static(source.rows(), row) {
        call_on(source, codes, at, row, None, false)
    } else {
        own_call(source, codes, at, row, level)
    }
}

// A call behind a dot.
fn call_behind(
    source: &Source,
    codes: &mut Parts<Code>,
    at: u32,
    row: u32,
) -> Result<(), OutOfMemory>
    ensures { OnOk result (Becomes source.now at (λ parts. made.call_behind (facts source.now) at row parts) (waiting codes.old) (waiting codes.new)) }
{
    let on = codes.boxed_if(source.alloc, source.child(at))?;
    call_on(source, codes, at, row, on, false)
}

fn call_by(
    source: &Source,
    codes: &mut Parts<Code>,
    at: u32,
    kind: ReceiverKind,
    row: u32,
    level: Option<u32>,
) -> Result<(), OutOfMemory>
    ensures { OnOk result (Becomes source.now at (λ parts. made.call_by kind (facts source.now) at row level parts) (waiting codes.old) (waiting codes.new)) }
{
    match kind {
        ReceiverKind::Absent => call_alone(source, codes, at, row, level),
        ReceiverKind::Super => call_on(source, codes, at, row, None, true),
        ReceiverKind::Expression => call_behind(source, codes, at, row),
        ReceiverKind::Name => call_behind(source, codes, at, row),
    }
}

/// A call of a method.
pub fn call(
    source: &Source,
    codes: &mut Parts<Code>,
    at: u32,
    kind: ReceiverKind,
) -> Result<(), OutOfMemory>
    ensures { OnOk result (Becomes source.now at (λ parts. made.call_made ((facts source.now).refers at) kind (facts source.now) at parts) (waiting codes.old) (waiting codes.new)) }
{
    match source.under().referent(at) {
        Referent::Declared { row, level } => call_by(source, codes, at, kind, row, level),
        _ => Err(OutOfMemory),
    }
}

// ---- creations

fn is_of_inner(source: &Source, class: Option<u32>) -> bool
    ensures { result ≡ made.is_of_inner (facts source.now) class }
{
    match class {
        Some(class) => is_inner(source.rows(), class),
        None => false,
    }
}

fn new_in(
    source: &Source,
    codes: &mut Parts<Code>,
    at: u32,
    row: u32,
    outer: Option<Boxed<Code>>,
) -> Result<(), OutOfMemory>
    ensures { OnOk result (Becomes source.now at (λ parts. made.new_in (facts source.now) row outer parts) (waiting codes.old) (waiting codes.new)) }
{
    let args = arguments(source, codes, row, source.end(at))?;
    let ctor = source.decl(row);
    codes.push(at, Code::New { outer, ctor, args })
}

// An object that another one encloses.
fn new_inside(
    source: &Source,
    codes: &mut Parts<Code>,
    at: u32,
    row: u32,
    level: Option<u32>,
) -> Result<(), OutOfMemory>
    ensures { OnOk result (Becomes source.now at (λ parts. made.new_inside (facts source.now) row (names.object (facts source.now) level) parts) (waiting codes.old) (waiting codes.new)) }
{
    let outer = Some(this_at(source, level)?);
    new_in(source, codes, at, row, outer)
}

fn new_of(
    source: &Source,
    codes: &mut Parts<Code>,
    at: u32,
    row: u32,
    level: Option<u32>,
) -> Result<(), OutOfMemory>
    ensures { OnOk result (Becomes source.now at (λ parts. made.new_made (r.Declared row level) (facts source.now) at parts) (waiting codes.old) (waiting codes.new)) }
{
    if is_of_inner(source, constructed_class(source.rows(), row)) {
        new_inside(source, codes, at, row, level)
    } else {
        new_in(source, codes, at, row, None)
    }
}

/// A creation of an object.
pub fn creation(source: &Source, codes: &mut Parts<Code>, at: u32) -> Result<(), OutOfMemory>
    ensures { OnOk result (Becomes source.now at (λ parts. made.new_made ((facts source.now).refers at) (facts source.now) at parts) (waiting codes.old) (waiting codes.new)) }
{
    match source.under().referent(at) {
        Referent::Declared { row, level } => new_of(source, codes, at, row, level),
        _ => Err(OutOfMemory),
    }
}

// ---- calls of constructors

fn is_super_of(which: ThisOrSuper) -> bool
    ensures { result ≡ made.is_super_of which }
{
    match which {
        ThisOrSuper::This => false,
        ThisOrSuper::Super => true,
    }
}

fn constructor_of(
    source: &Source,
    codes: &mut Parts<Code>,
    at: u32,
    which: ThisOrSuper,
    row: u32,
) -> Result<(), OutOfMemory>
    ensures { OnOk result (Becomes source.now at (λ parts. made.constructor_of which (facts source.now) row parts) (waiting codes.old) (waiting codes.new)) }
{
    let args = arguments(source, codes, row, source.end(at))?;
    let is_super = is_super_of(which);
    let ctor = source.decl(row);
    codes.push(
        at,
        Code::CtorCall {
            is_super,
            ctor,
            args,
        },
    )
}

/// `this(..)` or `super(..)`.
pub fn constructor_call(
    source: &Source,
    codes: &mut Parts<Code>,
    at: u32,
    which: ThisOrSuper,
) -> Result<(), OutOfMemory>
    ensures { OnOk result (Becomes source.now at (λ parts. made.constructor_call_made ((facts source.now).refers at) which (facts source.now) parts) (waiting codes.old) (waiting codes.new)) }
{
    match source.under().referent(at) {
        Referent::Declared { row, .. } => constructor_of(source, codes, at, which, row),
        _ => Err(OutOfMemory),
    }
}

// `super()`
fn implicit_of(
    source: &Source,
    codes: &mut Parts<Code>,
    at: u32,
    row: u32,
) -> Result<(), OutOfMemory>
    ensures { OnOk result (Becomes source.now at (λ parts. of_none parts (code (c.CtorCall true ((facts source.now).decl row) []))) (waiting codes.old) (waiting codes.new)) }
{
    let is_super = true;
    let ctor = source.decl(row);
    let args = Items::new(source.alloc);
    codes.push(
        at,
        Code::CtorCall {
            is_super,
            ctor,
            args,
        },
    )
}

/// The call `super()` of a constructor that begins with no call of a constructor. That of Object calls none.
pub fn implicit_call(source: &Source, codes: &mut Parts<Code>, at: u32) -> Result<(), OutOfMemory>
    ensures { OnOk result (Becomes source.now at (λ parts. made.implicit_call_made ((facts source.now).refers at) (facts source.now) parts) (waiting codes.old) (waiting codes.new)) }
{
    match source.under().referent(at) {
        Referent::Declared { row, .. } => implicit_of(source, codes, at, row),
        _ => Ok(()),
    }
}
