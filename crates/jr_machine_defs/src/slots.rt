// Variables with their values (JLS 4.12.3).

use crate::value::Value;
use jr_base::DeclId;

/// A variable that has been assigned, with its value.
#[derive(Drop)]
pub struct Slot<'a> {
    pub key: DeclId,
    pub value: Value<'a>,
}
