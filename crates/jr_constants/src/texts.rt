// The pool of constant strings (JLS 15.18.1, 15.28).
ghost use Rattle.std.specs.Prelude.{◌≡◌, [], ◌∷◌, ◌++◌, Some, true, IfOk, OnOk, slice_get, length};
ghost use Rattle.std.specs.Fmt.{signed_decimal};
ghost use Rattle.jr_base.specs.declared.constant.Const.TheVariants as c;
ghost use Rattle.jr_defs.specs.Operators as defined;
ghost use Rattle.jr_constants.specs.Values.{value_in, value_in_if, text_at, equal_texts, compared, has_text, texts_value};
ghost use Rattle.jr_constants.specs.Tables.{IsGrown, IsInIf};

use crate::value::Value;
use jr_base::{Limits, OutOfMemory, Symbol, Units};
use std::alloc::Global;
use std::marker::Model;

/// Constant strings, by their numbers. All together they have a bounded number of units, since a short program can make texts of any length (`s = t + t`).
#[derive(Drop)]
pub struct Texts {
    all: Vec<Units>,
    room: usize,
}

// The units that constant strings may have together: as many as files may have bytes.
const MOST_UNITS: usize = Limits::TOTAL as usize;

impl Model for Texts {
    ghost use Rattle.std.specs.Prelude.{List, ℕ};

    ghost Value = { List (List ℕ) };

    ghost view = { λ texts. texts.all.items };
}

static TRUE_TEXT: [u16; 4] = [116, 114, 117, 101];

static FALSE_TEXT: [u16; 5] = [102, 97, 108, 115, 101];

// Adds units.
fn add_units(out: &mut Vec<u16>, units: &[u16]) -> Result<(), OutOfMemory>
    ensures { OnOk result (out.new.items ≡ out.old.items ++ units.now) }
{
    out.extend_from_slice(units)?;
    Ok(())
}

// Adds one unit.
fn add_unit(out: &mut Vec<u16>, unit: u16) -> Result<(), OutOfMemory>
    ensures { OnOk result (out.new.items ≡ out.old.items ++ unit ∷ []) }
{
    out.push(unit)?;
    Ok(())
}

// ASCII text as units.
fn widened(alloc: Global, bytes: &[u8]) -> Result<Vec<u16>, OutOfMemory>
    ensures { IfOk result (λ units. units.items ≡ bytes.now) }
{
    let mut units = Vec::new(alloc);
    for byte in bytes {
        units.push(u16::from(*byte))?;
    }
    Ok(units)
}

// The digits of a number.
fn digits(alloc: Global, number: i64) -> Result<Vec<u16>, OutOfMemory>
    ensures { IfOk result (λ units. units.items ≡ signed_decimal number) }
{
    let text = format!(in alloc; "{number}")?;
    widened(alloc, text.as_bytes())
}

// Adds the digits of a number.
#[tactic(auto, using(crate::proofs::Digits::digits_are))]
fn add_number(alloc: Global, out: &mut Vec<u16>, number: i64) -> Result<(), OutOfMemory>
    ensures { OnOk result (out.new.items ≡ out.old.items ++ defined.digits number) }
{
    let units = digits(alloc, number)?;
    add_units(out, &units)
}

impl Texts {
    /// No texts.
    pub fn new(alloc: Global) -> Texts
        ensures { result ≡ [] }
    {
        Texts {
            all: Vec::new(alloc),
            room: MOST_UNITS,
        }
    }

    /// The units of a text.
    pub fn units(&self, text: u32) -> &[u16]
        ensures { result.now ≡ text_at (slice_get self.now text) }
    {
        match self.all.get(text as usize) {
            Some(units) => units.units(),
            None => &[],
        }
    }

    /// One more text, with its number.
    pub fn add(&mut self, units: Units) -> Result<u32, OutOfMemory>
        ensures kept { OnOk result (self.new ≡ self.old ++ units ∷ []) }
        ensures number { IfOk result (λ number. number ≡ length self.old) }
    {
        let Ok(number) = u32::try_from(self.all.len()) else {
            return Err(OutOfMemory);
        };
        let Some(room) = self.room.checked_sub(units.units().len()) else {
            return Err(OutOfMemory);
        };
        self.all.push(units)?;
        self.room = room;
        Ok(number)
    }

    // Adds a constant as text (JLS 15.18.1.1).
    fn add_value(&self, alloc: Global, out: &mut Vec<u16>, value: Value) -> Result<(), OutOfMemory>
        ensures { OnOk result (out.new.items ≡ out.old.items ++ defined.text_of (value_in self.now value)) }
    {
        match value {
            Value::Bool(true) => add_units(out, &TRUE_TEXT),
            Value::Bool(false) => add_units(out, &FALSE_TEXT),
            Value::Byte(number) => add_number(alloc, out, i64::from(number)),
            Value::Short(number) => add_number(alloc, out, i64::from(number)),
            Value::Char(unit) => add_unit(out, unit),
            Value::Int(number) => add_number(alloc, out, i64::from(number)),
            Value::Long(number) => add_number(alloc, out, number),
            Value::Str(text) => add_units(out, self.units(text)),
        }
    }

    // How many units a constant has, if it is a string.
    fn length(&self, value: Value) -> usize {
        match value {
            Value::Str(text) => self.units(text).len(),
            _ => 0,
        }
    }

    // Two constants as text, the one behind the other.
    fn text_of_both(&self, alloc: Global, left: Value, right: Value) -> Result<Units, OutOfMemory>
        ensures { IfOk result (λ units. units ≡ defined.text_of (value_in self.now left) ++ defined.text_of (value_in self.now right)) }
    {
        if self.room < self.length(left).saturating_add(self.length(right)) {
            return Err(OutOfMemory);
        }
        let mut out = Vec::new(alloc);
        self.add_value(alloc, &mut out, left)?;
        self.add_value(alloc, &mut out, right)?;
        Ok(Units::new(out))
    }

    // Two constants as a new text, the one behind the other.
    #[tactic(auto, using(crate::proofs::Adding::new_text, crate::proofs::Growing::added_in))]
    fn joined(
        &mut self,
        alloc: Global,
        left: Value,
        right: Value,
    ) -> Result<Option<Value>, OutOfMemory>
        ensures exact { IfOk result (λ value. value_in_if self.new value ≡ Some (c.Str (defined.text_of (value_in self.old left) ++ defined.text_of (value_in self.old right)))) }
        ensures grown { OnOk result (IsGrown self.old self.new) }
        ensures inside { IfOk result (λ value. IsInIf self.new value) }
    {
        let units = self.text_of_both(alloc, left, right)?;
        let number = self.add(units)?;
        Ok(Some(Value::Str(number)))
    }

    // Both texts are equal.
    fn are_equal(&self, left: Value, right: Value) -> Option<bool>
        ensures { result ≡ equal_texts (value_in self.now left) (value_in self.now right) }
    {
        match left {
            Value::Str(first) => match right {
                Value::Str(second) => Some(self.units(first) == self.units(second)),
                _ => None,
            },
            _ => None,
        }
    }

    // A test of two texts, where both are texts.
    fn compared(&self, is_wanted: bool, left: Value, right: Value) -> Option<Value>
        ensures { value_in_if self.now result ≡ compared is_wanted (value_in self.now left) (value_in self.now right) }
    {
        match self.are_equal(left, right) {
            Some(is_equal) => Some(Value::Bool(if is_wanted { is_equal } else { !is_equal })),
            None => None,
        }
    }

    // An operator that is read as one on texts.
    #[tactic(auto, using(crate::proofs::Growing::same_grown))]
    fn operated(
        &mut self,
        alloc: Global,
        op: Symbol,
        left: Value,
        right: Value,
    ) -> Result<Option<Value>, OutOfMemory>
        ensures exact { IfOk result (λ value. value_in_if self.new value ≡ texts_value op (value_in self.old left) (value_in self.old right)) }
        ensures grown { OnOk result (IsGrown self.old self.new) }
        ensures inside { IfOk result (λ value. IsInIf self.new value) }
    {
        match op {
            Symbol::Plus => self.joined(alloc, left, right),
            Symbol::Equal => Ok(self.compared(true, left, right)),
            Symbol::NotEqual => Ok(self.compared(false, left, right)),
            _ => Ok(None),
        }
    }

    /// An operator on two constants of which one at least is a string.
    pub fn value(
        &mut self,
        alloc: Global,
        op: Symbol,
        left: Value,
        right: Value,
    ) -> Result<Option<Value>, OutOfMemory>
        ensures exact { IfOk result (λ value. has_text left right ≡ true → value_in_if self.new value ≡ defined.binary_value op (value_in self.old left) (value_in self.old right)) }
        ensures grown { OnOk result (IsGrown self.old self.new) }
        ensures inside { IfOk result (λ value. IsInIf self.new value) }
    {
        let value = self.operated(alloc, op, left, right)?;
        Ok(value)
    }
}
