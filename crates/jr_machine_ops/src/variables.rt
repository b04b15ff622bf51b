// Look-ups and assignments of variables (JLS 4.12.3).
ghost use Rattle.std.specs.Prelude.{◌≡◌, OnOk};
ghost use Rattle.std.specs.Option.{option_copied};
ghost use Rattle.jr_machine_defs.specs.Values.{same_decl, same_type, value_of, assigned, default_of};
ghost use Rattle.jr_machine_defs.specs.Finding.{slot_index};
ghost use Rattle.jr_base.specs.Mirror.{plain_ty};

use jr_base::{DeclId, Items, OutOfMemory, Ty, TypeId};
use jr_machine_defs::{Slot, Value};

/// Whether the two are the same declaration.
pub fn same_decl(left: DeclId, right: DeclId) -> bool
    ensures { result ≡ same_decl left right }
{
    left.at.cu.0 == right.at.cu.0 && left.at.node.0 == right.at.node.0 && left.part == right.part
}

/// Whether the two are the same class or interface.
pub fn same_type(left: TypeId, right: TypeId) -> bool
    ensures { result ≡ same_type left right }
{
    same_decl(left.0, right.0)
}

/// The place of the variable's slot, or the number of slots.
fn slot_index(slots: &[Slot], key: DeclId) -> usize
    ensures { result ≡ slot_index slots.now key }
{
    for (i, slot) in slots.iter().enumerate() {
        if same_decl(slot.key, key) {
            return i;
        }
    }
    slots.len()
}

/// The variable's value, if it has been assigned.
pub fn value_of<'s, 'a>(slots: &'s [Slot<'a>], key: DeclId) -> Option<&'s Value<'a>>
    ensures { option_copied result ≡ value_of slots.entry.now key }
{
    for slot in slots {
        if same_decl(slot.key, key) {
            return Some(&slot.value);
        }
    }
    None
}

/// Gives the variable this value.
#[tactic(auto, using(crate::proofs::SlotLemmas::assigned_in_place, crate::proofs::SlotLemmas::assigned_at_end))]
pub fn assign<'a>(
    slots: &mut Items<Slot<'a>>,
    key: DeclId,
    value: Value<'a>,
) -> Result<(), OutOfMemory>
    ensures { OnOk result (slots.new ≡ assigned slots.old key value.entry) }
{
    let at = slot_index(slots.as_slice(), key);
    let slot = Slot { key, value };
    if at < slots.len() {
        slots.set(at, slot);
    } else {
        slots.push(slot)?;
    }
    Ok(())
}

/// The initial value of a field, and of a component of an array (JLS 4.12.5).
pub fn default_of(ty: &Ty) -> Value<'static>
    ensures { result ≡ default_of (plain_ty ty.now) }
{
    match ty {
        Ty::Boolean => Value::Bool(false),
        Ty::Byte => Value::Byte(0),
        Ty::Short => Value::Short(0),
        Ty::Char => Value::Char(0),
        Ty::Int => Value::Int(0),
        Ty::Long => Value::Long(0),
        Ty::Null | Ty::Void | Ty::Class(_) | Ty::Array(_) => Value::Null,
    }
}
