// Declarations of variables (JLS 8.3, 14.4).
ghost use Rattle.std.specs.Prelude.{◌≡◌, ◌<◌, map};
ghost use Rattle.std.specs.Option.{option_map};
ghost use Rattle.jr_base.specs.declared.kind.Symbol.TheVariants as y;
ghost use Rattle.jr_tree.specs.Mirror.Exprs.{plain_init};
ghost use Rattle.jr_tree.specs.Mirror.Stmts.{plain_declarator};
ghost use Rattle.jr_parse_laws.specs.Parsers.{Reads, after_comma, begins_with, kinds, many, with_front};
ghost use Rattle.jr_parse_defs.specs.Stmts as spec;

use jr_base::{Items, Symbol, Text};
use jr_parse_expr::{dims, init};
use jr_parse_laws::{Cursor, Fault};
use jr_tree::{Declarator, Init};
use std::alloc::Global;

/// What a variable is initialized with, if a sign of equality comes next.
fn initializer(alloc: Global, cursor: &mut Cursor<'_>, room: usize) -> Result<Option<Init>, Fault>
    requires { room < usize.MAX }
    ensures { Reads (option_map plain_init) (spec.initializer room (kinds cursor.old)) result (kinds cursor.new) }
{
    if !cursor.is_at(Symbol::Assign) {
        return Ok(None);
    }
    if room == 0 {
        return Err(Fault::TooDeep);
    }
    cursor.skip();
    Ok(Some(init(alloc, cursor, room)?))
}

/// A variable, behind its name.
#[tactic(auto, unfolding(jr_parse_defs::specs::Stmts::declarator_after))]
fn declarator_after(
    alloc: Global,
    cursor: &mut Cursor<'_>,
    room: usize,
    variable: Text,
) -> Result<Declarator, Fault>
    requires { room < usize.MAX }
    ensures { Reads plain_declarator (spec.declarator_after room variable (kinds cursor.old)) result (kinds cursor.new) }
{
    let dims = dims(cursor)?;
    let init = initializer(alloc, cursor, room)?;
    Ok(Declarator {
        name: variable,
        dims,
        init,
    })
}

/// A variable.
fn declarator(alloc: Global, cursor: &mut Cursor<'_>, room: usize) -> Result<Declarator, Fault>
    requires { room < usize.MAX }
    ensures { Reads plain_declarator (spec.declarator room (kinds cursor.old)) result (kinds cursor.new) }
{
    let variable = cursor.identifier(alloc)?;
    declarator_after(alloc, cursor, room, variable)
}

/// Further variables behind these, each behind a comma.
fn more_declarators(
    alloc: Global,
    cursor: &mut Cursor<'_>,
    room: usize,
    front: Items<Declarator>,
) -> Result<Items<Declarator>, Fault>
    requires { room < usize.MAX }
    ensures { Reads (λ (all : _). map plain_declarator all) (with_front (map plain_declarator front) (many (begins_with y.Comma) (after_comma (spec.declarator room)) (kinds cursor.old))) result (kinds cursor.new) }
{
    let mut all = front;
    'declarators: while cursor.is_at(Symbol::Comma) {
        cursor.skip();
        let next = declarator(alloc, cursor, room)?;
        all.push(next)?;
    }
    Ok(all)
}

/// Variables of a declaration, behind the first one's name, each of whose initializers has at most so many levels.
#[tactic(auto, unfolding(jr_parse_defs::specs::Stmts::declarators_after))]
pub fn declarators_after(
    alloc: Global,
    cursor: &mut Cursor<'_>,
    room: usize,
    variable: Text,
) -> Result<Items<Declarator>, Fault>
    requires { room < usize.MAX }
    ensures { Reads (λ (all : _). map plain_declarator all) (spec.declarators_after room variable (kinds cursor.old)) result (kinds cursor.new) }
{
    let mut front = Items::new(alloc);
    front.push(declarator_after(alloc, cursor, room, variable)?)?;
    more_declarators(alloc, cursor, room, front)
}

/// Variables with commas between them.
pub fn declarators(
    alloc: Global,
    cursor: &mut Cursor<'_>,
    room: usize,
) -> Result<Items<Declarator>, Fault>
    requires { room < usize.MAX }
    ensures { Reads (λ (all : _). map plain_declarator all) (spec.declarators room (kinds cursor.old)) result (kinds cursor.new) }
{
    let mut front = Items::new(alloc);
    front.push(declarator(alloc, cursor, room)?)?;
    more_declarators(alloc, cursor, room, front)
}
