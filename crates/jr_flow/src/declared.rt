// The declarations that have code.
ghost use Rattle.std.specs.Prelude.{◌≡◌, ◌+◌, ◌<◌, ◌^◌, ◌++◌, ◌∷◌, [], if◌then◌else◌, length, IfOk, OnOk};
ghost use Rattle.jr_flow.specs.Bodies as tell;

use jr_base::OutOfMemory;
use jr_places::end_at;
use jr_tree::{Label, Row};
use std::alloc::Global;

// The row declares what has code, and it is written there.
fn has_code(rows: &[Row], at: u32) -> bool
    ensures { at + 1 < 2 ^ 32 → result ≡ tell.has_code rows.now at }
{
    match rows.get(at as usize) {
        Some(row) => match row.label {
            Label::Method { has_body, .. } => has_body,
            Label::Constructor { .. } => true,
            Label::DefaultConstructor => true,
            Label::Initializer { .. } => true,
            Label::Field { .. } => at.saturating_add(1) < end_at(rows, at),
            _ => false,
        },
        None => false,
    }
}

fn push_if(all: &mut Vec<u32>, is_such: bool, at: u32) -> Result<(), OutOfMemory>
    ensures { OnOk result (all.new.items ≡ all.old.items ++ (if is_such then at ∷ [] else [])) }
{
    if is_such {
        all.push(at)?;
    }
    Ok(())
}

/// The rows of all declarations with code, rising: methods with a body, constructors, initializers, and fields with an initializer (JLS 8.3.2, 8.4.7, 8.6, 8.7, 8.8.7).
pub fn bodies(alloc: Global, rows: &[Row]) -> Result<Vec<u32>, OutOfMemory>
    ensures { IfOk result (λ all. all.items ≡ tell.bodies_below rows.now (length rows.now)) }
{
    let Ok(count) = u32::try_from(rows.len()) else {
        return Err(OutOfMemory);
    };
    let mut all = Vec::new(alloc);
    for at in 0..count {
        push_if(&mut all, has_code(rows, at), at)?;
    }
    Ok(all)
}
