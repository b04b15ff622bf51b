// Values (JLS 4.2, 4.3).
ghost use Rattle.std.specs.Prelude.{◌≡◌};

use crate::reference::UnitsRef;

/// A value of a variable or of an expression (JLS 4.2, 4.3.1).
#[derive(Drop)]
pub enum Value<'a> {
    /// What a call of a `void` method gives.
    Void,
    Null,
    Bool(bool),
    Byte(i8),
    Short(i16),
    Char(u16),
    Int(i32),
    Long(i64),
    /// The object, array or string at this place of the heap.
    Ref(usize),
    /// The string of a constant: equal constants are one object (JLS 3.10.5).
    Text(UnitsRef<'a>),
}

impl<'a> Value<'a> {
    /// The same value.
    pub fn copy(&self) -> Value<'a>
        ensures { result ≡ self.now }
    {
        match self {
            Value::Void => Value::Void,
            Value::Null => Value::Null,
            Value::Bool(value) => Value::Bool(*value),
            Value::Byte(value) => Value::Byte(*value),
            Value::Short(value) => Value::Short(*value),
            Value::Char(value) => Value::Char(*value),
            Value::Int(value) => Value::Int(*value),
            Value::Long(value) => Value::Long(*value),
            Value::Ref(at) => Value::Ref(*at),
            Value::Text(text) => Value::Text(text.copy()),
        }
    }
}
