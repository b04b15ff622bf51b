// Expressions and lists in braces, of at most so many levels. The rules that hold expressions take the readers of those as parameters, so that each is proved by itself.
ghost use Rattle.std.specs.Prelude.{◌≡◌, ◌≤◌, ◌<◌, ◌^◌, suc, nat_lt, if◌then◌else◌, IfOk};
ghost use Rattle.jr_parse_laws.specs.declared.fault.Fault.TheVariants.{NoTree, TooDeep};
ghost use Rattle.jr_parse_laws.specs.Parsers.{kinds};
ghost use Rattle.jr_parse_expr.specs.Exprs as spec;
ghost use Rattle.jr_parse_expr.specs.Nests.{Nests};
ghost use Rattle.jr_parse_expr.specs.Views.{plain_lead, ReadsExpr, ReadsList};

use crate::lead::Lead;
use jr_parse_laws::{Cursor, Fault};
use jr_parse_parts::{Measured, MeasuredList};
use jr_parse_starts::{starts_expr, starts_list};
use std::alloc::Global;

/// What the rules read the parts of an expression with.
#[derive(Drop)]
pub struct Grammar<F, L> {
    pub alloc: Global,
    /// How many levels a part may have.
    pub room: usize,
    /// Reads an expression of at most so many levels, from a level of binding on.
    pub expr: F,
    /// Reads a list in braces of at most so many levels.
    pub list: L,
    ghost fits: { suc room < 2 ^ 64 },
}

impl<
    F: Fn(Global, &mut Cursor<'_>, usize, Lead, u8) -> Result<Measured, Fault>,
    L: Fn(Global, &mut Cursor<'_>, usize) -> Result<MeasuredList, Fault>,
> Grammar<F, L> {
    /// A part that is an expression.
    pub fn expr(&self, cursor: &mut Cursor<'_>, lead: Lead, least: u8) -> Result<Measured, Fault>
        requires { Nests self.now.room (F.pre self.now.expr) (F.post self.now.expr) (L.pre self.now.list) (L.post self.now.list) }
        ensures reads { ReadsExpr (spec.expr self.now.room (plain_lead lead) least (kinds cursor.old)) result (kinds cursor.new) }
        ensures low { IfOk result (λ m. m.height ≤ self.now.room) }
    {
        (self.expr)(self.alloc, cursor, self.room, lead, least)
    }

    /// A part that is a list in braces.
    pub fn list(&self, cursor: &mut Cursor<'_>) -> Result<MeasuredList, Fault>
        requires { Nests self.now.room (F.pre self.now.expr) (F.post self.now.expr) (L.pre self.now.list) (L.post self.now.list) }
        ensures reads { ReadsList (spec.list self.now.room (kinds cursor.old)) result (kinds cursor.new) }
        ensures low { IfOk result (λ l. l.height ≤ self.now.room) }
    {
        (self.list)(self.alloc, cursor, self.room)
    }

    /// Whether there is no level for a part.
    pub fn is_lowest(&self) -> bool
        ensures { result ≡ nat_lt self.now.room 1 }
    {
        self.room < 1
    }
}

/// The fault where no level is left: too deep if a tree begins here.
pub fn lowest(begins: bool) -> Fault
    ensures { result ≡ (if begins then TooDeep else NoTree) }
{
    if begins {
        Fault::TooDeep
    } else {
        Fault::NoTree
    }
}

/// An expression of at most so many levels, from a level of binding on.
#[cycle(expr)]
pub fn nested_expr(
    alloc: Global,
    cursor: &mut Cursor<'_>,
    room: usize,
    lead: Lead,
    least: u8,
) -> Result<Measured, Fault>
    ensures reads { ReadsExpr (spec.expr room (plain_lead lead) least (kinds cursor.old)) result (kinds cursor.new) }
    ensures low { IfOk result (λ m. m.height ≤ room) }
{
    if room == 0 {
        return Err(lowest(starts_expr(cursor)));
    }
    Grammar {
        alloc,
        room: room - 1,
        expr: nested_expr,
        list: nested_list,
    }
    .operations(cursor, lead, least)
}

/// A list in braces of at most so many levels.
#[cycle(expr)]
pub fn nested_list(
    alloc: Global,
    cursor: &mut Cursor<'_>,
    room: usize,
) -> Result<MeasuredList, Fault>
    ensures reads { ReadsList (spec.list room (kinds cursor.old)) result (kinds cursor.new) }
    ensures low { IfOk result (λ l. l.height ≤ room) }
{
    if room == 0 {
        return Err(lowest(starts_list(cursor)));
    }
    Grammar {
        alloc,
        room: room - 1,
        expr: nested_expr,
        list: nested_list,
    }
    .braces(cursor)
}
