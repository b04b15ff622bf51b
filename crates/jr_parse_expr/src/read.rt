// What statements and declarations read expressions with.
ghost use Rattle.std.specs.Prelude.{◌≡◌, ◌<◌, map};
ghost use Rattle.jr_tree.specs.Mirror.Exprs.{plain_expr, plain_init, plain_list};
ghost use Rattle.jr_parse_laws.specs.Parsers.{Reads, first, kinds};
ghost use Rattle.jr_parse_expr.specs.Exprs as spec;
ghost use Rattle.jr_parse_expr.specs.Views.{plain_lead, ReadsExpr};

use crate::effects::EffectGrammar;
use crate::grammar::{Grammar, lowest, nested_expr, nested_list};
use crate::lead::Lead;
use jr_base::{Items, Kind, Symbol};
use jr_parse_laws::{Cursor, Fault};
use jr_parse_parts::{Measured, is_assignment};
use jr_parse_starts::{is_step, starts_effect, starts_expr};
use jr_tree::{Expr, Init, InitList};
use std::alloc::Global;

/// An expression of at most so many levels behind what was read of it, from a level of binding on (JLS 15).
pub fn expr(
    alloc: Global,
    cursor: &mut Cursor<'_>,
    room: usize,
    lead: Lead,
    least: u8,
) -> Result<Expr, Fault>
    ensures { Reads plain_expr (spec.expr room (plain_lead lead) least (kinds cursor.old)) result (kinds cursor.new) }
{
    Ok(nested_expr(alloc, cursor, room, lead, least)?.expr)
}

/// A list in braces of at most so many levels (JLS 10.6).
pub fn list(alloc: Global, cursor: &mut Cursor<'_>, room: usize) -> Result<InitList, Fault>
    ensures { Reads plain_list (spec.list room (kinds cursor.old)) result (kinds cursor.new) }
{
    Ok(nested_list(alloc, cursor, room)?.list)
}

/// An initializer of at most so many levels (JLS 8.3, 10.6).
pub fn init(alloc: Global, cursor: &mut Cursor<'_>, room: usize) -> Result<Init, Fault>
    requires { room < usize.MAX }
    ensures { Reads plain_init (spec.init room (kinds cursor.old)) result (kinds cursor.new) }
{
    let grammar = Grammar {
        alloc,
        room,
        expr: nested_expr,
        list: nested_list,
    };
    Ok(grammar.init(cursor)?.init)
}

/// Arguments of at most so many levels, behind the open parenthesis (JLS 15.12).
pub fn call_arguments(
    alloc: Global,
    cursor: &mut Cursor<'_>,
    room: usize,
) -> Result<Items<Expr>, Fault>
    requires { room < usize.MAX }
    ensures { Reads (λ (args : _). map plain_expr args) (spec.arguments room (spec.expr room) (spec.list room) (kinds cursor.old)) result (kinds cursor.new) }
{
    let grammar = Grammar {
        alloc,
        room,
        expr: nested_expr,
        list: nested_list,
    };
    Ok(grammar.arguments(cursor)?.args)
}

/// Whether a primary expression that stands as a statement goes on with the token.
fn goes_on_primary(kind: &Kind) -> bool
    ensures { result ≡ spec.goes_on_primary kind.now }
{
    match kind {
        Kind::Sym(symbol) => *symbol == Symbol::Dot
            || *symbol == Symbol::OpenBracket
            || is_step(*symbol),
        _ => false,
    }
}

/// Whether a name that stands as a statement goes on with the token.
fn goes_on_name(kind: &Kind) -> bool
    ensures { result ≡ spec.goes_on_name kind.now }
{
    match kind {
        Kind::Sym(symbol) => *symbol == Symbol::OpenParen
            || is_step(*symbol)
            || is_assignment(*symbol),
        _ => false,
    }
}

/// Whether an expression that stands as a statement and begins so goes on with what comes next.
fn goes_on(lead: &Lead, cursor: &Cursor<'_>) -> bool
    ensures { result ≡ spec.goes_on (plain_lead lead.now) (first (kinds cursor.now)) }
{
    match lead {
        Lead::Nothing => starts_effect(cursor),
        Lead::Named(dotted) => match cursor.peek() {
            Some(kind) => {
                if dotted.has_this {
                    goes_on_primary(kind)
                } else {
                    goes_on_name(kind)
                }
            }
            None => false,
        },
        Lead::Indexed(_) => starts_expr(cursor),
        Lead::This => match cursor.peek() {
            Some(kind) => goes_on_primary(kind),
            None => false,
        },
        Lead::Super => matches!(cursor.peek(), Some(Kind::Sym(Symbol::Dot))),
    }
}

/// An expression of at most so many levels that stands as a statement, behind what was read of it (JLS 14.8).
pub fn effect(
    alloc: Global,
    cursor: &mut Cursor<'_>,
    room: usize,
    lead: Lead,
) -> Result<Expr, Fault>
    ensures { Reads plain_expr (spec.effect room (plain_lead lead) (kinds cursor.old)) result (kinds cursor.new) }
{
    if room == 0 {
        return Err(lowest(goes_on(&lead, cursor)));
    }
    let grammar = EffectGrammar {
        inner: Grammar {
            alloc,
            room: room - 1,
            expr: nested_expr,
            list: nested_list,
        },
        low: Grammar {
            alloc,
            room: room.saturating_sub(2),
            expr: nested_expr,
            list: nested_list,
        },
    };
    Ok(grammar.effects(cursor, lead)?.expr)
}
