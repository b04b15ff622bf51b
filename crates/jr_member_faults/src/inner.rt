// Static members and initializers of inner classes (JLS 8.1.3).
ghost use Rattle.std.specs.Prelude.{◌≡◌, is_some};
ghost use Rattle.jr_tree.specs.Rows as rows;
ghost use Rattle.jr_defs.specs.Referents.{Table};
ghost use Rattle.jr_plain.specs.Conversions as plain_values;
ghost use Rattle.jr_plain.specs.Constants as constant;
ghost use Rattle.jr_constants.specs.Resting as valued;
ghost use Rattle.jr_member_rules.specs.Inner as plain;

use crate::bodies::body_type;
use jr_constants::Constants;
use jr_places::{declaring_type, is_inner, is_static};
use jr_tree::{Label, Row};

// The variable has a value.
#[tactic(auto, using(crate::proofs::Valued::valued_some))]
fn is_constant(constants: &Constants, at: u32) -> bool
    ensures { result ≡ is_some (valued.variables_of constants.now at) }
{
    constants.variable(at).is_some()
}

// A static member of an inner class that is no constant variable.
fn is_static_in_inner(all: &[Row], constants: &Constants, at: u32) -> bool
    ensures { (t : Table) (values : plain_values.Constants) → valued.variables_of constants.now at ≡ constant.variable_value all.now t values at → result ≡ plain.is_static_in_inner all.now t values at }
{
    match declaring_type(all, at) {
        Some(over) => is_inner(all, over) && is_static(all, at) && !is_constant(constants, at),
        None => false,
    }
}

fn is_static_initializer(all: &[Row], at: u32) -> bool
    ensures { result ≡ plain.is_static_initializer (rows.label all.now at) }
{
    match all.get(at as usize) {
        Some(row) => match row.label {
            Label::Initializer { is_static } => is_static,
            _ => false,
        },
        None => false,
    }
}

// A static initializer of an inner class.
fn is_initializer_in_inner(all: &[Row], at: u32) -> bool
    ensures { result ≡ plain.is_initializer_in_inner all.now at }
{
    match body_type(all, at) {
        Some(over) => is_static_initializer(all, at) && is_inner(all, over),
        None => false,
    }
}

/// A static member or initializer of an inner class, but for constants.
pub fn is_static_there(all: &[Row], constants: &Constants, at: u32) -> bool
    ensures { (t : Table) (values : plain_values.Constants) → valued.variables_of constants.now at ≡ constant.variable_value all.now t values at → result ≡ plain.is_static_there all.now t values at }
{
    is_static_in_inner(all, constants, at) || is_initializer_in_inner(all, at)
}
