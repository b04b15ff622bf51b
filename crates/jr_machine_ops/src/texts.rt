// Strings: their units, string conversion and `+` (JLS 3.10.5, 5.1.11, 15.18.1).
ghost use Rattle.std.specs.Prelude.{◌≡◌, [], ◌∷◌, ◌++◌, IfOk, OnOk};
ghost use Rattle.std.specs.Option.{option_copied};
ghost use Rattle.std.specs.Fmt.{signed_decimal};
ghost use Rattle.jr_machine_defs.specs.Strings.{cell_units, units_of, shown, joined, bool_text, text_of, int_of_count};

use jr_base::{OutOfMemory, Units};
use jr_machine_defs::{Cell, Outcome, Value};
use std::alloc::Global;

static NULL_TEXT: [u16; 4] = [110, 117, 108, 108];

static TRUE_TEXT: [u16; 4] = [116, 114, 117, 101];

static FALSE_TEXT: [u16; 5] = [102, 97, 108, 115, 101];

/// The units of what stands in the heap, where it is a string.
fn cell_units<'h>(cell: &'h Cell) -> Option<&'h [u16]>
    ensures { option_copied result ≡ cell_units cell.entry.now }
{
    match cell {
        Cell::Text { units } => Some(units.units()),
        Cell::Object { .. } | Cell::Array { .. } => None,
    }
}

/// The units of a value that is a string.
pub fn units_of<'h, 'a>(heap: &'h [Cell<'a>], value: &Value<'a>) -> Option<&'h [u16]>
    ensures { option_copied result ≡ units_of heap.entry.now value.now }
{
    match value {
        Value::Text(text) => Some(text.get()),
        Value::Ref(at) => match heap.get(*at) {
            None => None,
            Some(cell) => cell_units(cell),
        },
        _ => None,
    }
}

/// The units of a string, or `null`.
pub fn shown<'h, 'a>(heap: &'h [Cell<'a>], value: &Value<'a>) -> Option<&'h [u16]>
    ensures { option_copied result ≡ shown heap.entry.now value.now }
{
    match value {
        Value::Null => Some(&NULL_TEXT),
        value => units_of(heap, value),
    }
}

/// Adds units at the end of others.
pub fn append(units: &mut Vec<u16>, more: &[u16]) -> Result<(), OutOfMemory>
    ensures { OnOk result (units.new.items ≡ units.old.items ++ more.now) }
{
    units.extend_from_slice(more)?;
    Ok(())
}

/// Two strings put together (JLS 15.18.1.2).
pub fn joined(
    alloc: Global,
    left: Option<&[u16]>,
    right: Option<&[u16]>,
) -> Result<Outcome<'static>, OutOfMemory>
    ensures { IfOk result (λ outcome. outcome ≡ joined (option_copied left.entry) (option_copied right.entry)) }
{
    let (Some(left), Some(right)) = (left, right) else {
        return Ok(Outcome::Unfit);
    };
    let mut units = Vec::new(alloc);
    append(&mut units, left)?;
    append(&mut units, right)?;
    Ok(Outcome::Makes(Units::new(units)))
}

fn copied(alloc: Global, units: &[u16]) -> Result<Units, OutOfMemory>
    ensures { IfOk result (λ copy. copy ≡ units.now) }
{
    let mut copy = Vec::new(alloc);
    append(&mut copy, units)?;
    Ok(Units::new(copy))
}

fn bool_text(alloc: Global, value: bool) -> Result<Units, OutOfMemory>
    ensures { IfOk result (λ units. units ≡ bool_text value) }
{
    if value {
        copied(alloc, &TRUE_TEXT)
    } else {
        copied(alloc, &FALSE_TEXT)
    }
}

/// ASCII text as 16-bit units.
fn widened(alloc: Global, bytes: &[u8]) -> Result<Units, OutOfMemory>
    ensures { IfOk result (λ units. units ≡ bytes.now) }
{
    let mut units = Vec::new(alloc);
    for byte in bytes {
        units.push(u16::from(*byte))?;
    }
    Ok(Units::new(units))
}

/// A number in decimal.
fn decimal(alloc: Global, number: i64) -> Result<Units, OutOfMemory>
    ensures { IfOk result (λ units. units ≡ signed_decimal number) }
{
    let text = format!(in alloc; "{number}")?;
    widened(alloc, text.as_bytes())
}

fn one_unit(alloc: Global, unit: u16) -> Result<Units, OutOfMemory>
    ensures { IfOk result (λ units. units ≡ unit ∷ []) }
{
    let mut units = Vec::new(alloc);
    units.push(unit)?;
    Ok(Units::new(units))
}

/// The string that a value without a `toString` of its own is shown as; null and strings have none here (JLS 5.1.11).
pub fn text_of(alloc: Global, value: &Value) -> Result<Option<Units>, OutOfMemory>
    ensures { IfOk result (λ text. text ≡ text_of value.now) }
{
    match value {
        Value::Bool(value) => Ok(Some(bool_text(alloc, *value)?)),
        Value::Char(unit) => Ok(Some(one_unit(alloc, *unit)?)),
        Value::Byte(value) => Ok(Some(decimal(alloc, i64::from(*value))?)),
        Value::Short(value) => Ok(Some(decimal(alloc, i64::from(*value))?)),
        Value::Int(value) => Ok(Some(decimal(alloc, i64::from(*value))?)),
        Value::Long(value) => Ok(Some(decimal(alloc, *value)?)),
        _ => Ok(None),
    }
}

/// A count as an `int`.
pub fn int_of_count(count: usize) -> i32
    ensures { result ≡ int_of_count count }
{
    ((count % 4_294_967_296) as u32).cast_signed()
}
