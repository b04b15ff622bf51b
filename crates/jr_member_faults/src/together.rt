// Methods of one signature beside each other (JLS 8.4.2, 8.4.5).
ghost use Rattle.std.specs.Prelude.{◌≡◌, ◌||◌};
ghost use Rattle.jr_plain.specs.Overloads as overloads;
ghost use Rattle.jr_plain.specs.Same.{same_type};
ghost use Rattle.jr_member_faults.specs.Views as views;

use jr_defs::RowType;
use jr_members::World;
use jr_supers::is_reference;

/// One of both.
pub fn is_either(one: bool, other: bool) -> bool
    ensures { result ≡ (one || other) }
{
    one || other
}

fn is_same_type(first: RowType, second: RowType) -> bool
    ensures { result ≡ same_type first second }
{
    first == second
}

// The type is the other, or a reference subtype of it.
fn is_type_fit(world: &World, first: RowType, second: RowType) -> bool
    ensures { views.IsRightWorld world.now → result ≡ overloads.is_result_type_fit (views.rows_of world.now) (views.table_of world.now) first second }
{
    is_same_type(first, second)
        || (is_reference(first)
            && is_reference(second)
            && world.supers.is_subtype(world.under.rows, first, second))
}

/// The result of the first method is that of the second, or a reference subtype of it.
pub fn is_result_fit(world: &World, method: u32, other: u32) -> bool
    ensures { views.IsRightWorld world.now → result ≡ overloads.is_result_fit (views.rows_of world.now) (views.table_of world.now) method other }
{
    match world.under.type_of_declared(method) {
        Some(first) => match world.under.type_of_declared(other) {
            Some(second) => is_type_fit(world, first, second),
            None => false,
        },
        None => false,
    }
}
