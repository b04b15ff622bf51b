// Parameters (JLS 8.4.1, 14.20).
ghost use Rattle.std.specs.Prelude.{◌≡◌, Ok};
ghost use Rattle.jr_parse_laws.specs.Parsers.{Reads, kinds};
ghost use Rattle.jr_parse_defs.specs.Stmts as spec;

use jr_base::Keyword;
use jr_parse_expr::{dims, type_use};
use jr_parse_laws::{Cursor, Fault};
use jr_tree::Param;
use std::alloc::Global;

/// Whether `final` comes next, which is read.
pub fn finality(cursor: &mut Cursor<'_>) -> bool
    ensures { spec.finality (kinds cursor.old) ≡ Ok (result, kinds cursor.new) }
{
    let is_final = cursor.is_at_word(Keyword::Final);
    if is_final {
        cursor.skip();
    }
    is_final
}

/// A parameter.
#[tactic(auto, unfolding(jr_parse_defs::specs::Stmts::param))]
pub fn param(alloc: Global, cursor: &mut Cursor<'_>) -> Result<Param, Fault>
    ensures { Reads (λ (p : _). p) (spec.param (kinds cursor.old)) result (kinds cursor.new) }
{
    let is_final = finality(cursor);
    let ty = type_use(alloc, cursor)?;
    let name = cursor.identifier(alloc)?;
    let dims = dims(cursor)?;
    Ok(Param {
        is_final,
        ty,
        name,
        dims,
    })
}
