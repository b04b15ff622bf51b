// Loops with a first part, a condition and an update (JLS 14.14.1).
ghost use Rattle.std.specs.Prelude.{◌≡◌, ◌<◌, true, false, map};
ghost use Rattle.std.specs.Option.{option_map};
ghost use Rattle.jr_base.specs.declared.kind.Symbol.TheVariants as y;
ghost use Rattle.jr_tree.specs.Mirror.Exprs.{plain_expr};
ghost use Rattle.jr_tree.specs.Mirror.Stmts.{plain_for, plain_stmt};
ghost use Rattle.jr_parse_laws.specs.Parsers.{Reads, after_comma, begins_with, first, is_at, kinds, many, with_front};
ghost use Rattle.jr_parse_expr.specs.Exprs.{Nothing, any_commas, effect};
ghost use Rattle.jr_parse_starts.specs.Starts.{next_is, starts_effect};
ghost use Rattle.jr_parse_expr.specs.Views.{plain_dotted, plain_lead};
ghost use Rattle.jr_parse_defs.specs.Stmts as spec;
ghost use Rattle.jr_parse_stmt.specs.Named as named;
ghost use Rattle.jr_parse_stmt.specs.Firsts as parts;
ghost use Rattle.jr_parse_stmt.specs.Nests.{Nests, in_room};

use crate::declarator::declarators;
use crate::grammar::Grammar;
use crate::named::{NameEnd, name_end, named_type};
use crate::parameter::finality;
use crate::simple::any_expr;
use crate::start::starts_local;
use jr_base::{Items, Kind, Symbol};
use jr_parse_expr::{Dotted, Lead, dims_behind, dotted_name, effect, type_use, whole_name};
use jr_parse_laws::{Cursor, Fault};
use jr_parse_starts::starts_effect;
use jr_tree::{Expr, ForInit, Name, Stmt, TypeUse};
use std::alloc::Global;

/// Whether an identifier comes next.
fn starts_name(cursor: &Cursor<'_>) -> bool
    ensures { result ≡ next_is parts.is_name (first (kinds cursor.now)) }
{
    matches!(cursor.peek(), Some(Kind::Ident(_)))
}

impl<F> Grammar<F> {
    /// Further expressions behind these, each behind a comma.
    fn more_effects(
        &self,
        cursor: &mut Cursor<'_>,
        front: Items<Expr>,
    ) -> Result<Items<Expr>, Fault>
        ensures { Reads (λ (all : _). map plain_expr all) (with_front (map plain_expr front) (many (begins_with y.Comma) (after_comma (effect self.now.room Nothing)) (kinds cursor.old))) result (kinds cursor.new) }
    {
        let mut all = front;
        'effects: while cursor.is_at(Symbol::Comma) {
            cursor.skip();
            let next = effect(self.alloc, cursor, self.room, Lead::Nothing)?;
            all.push(next)?;
        }
        Ok(all)
    }

    /// Expressions that stand as statements, with commas between them, behind what was read of the first.
    fn effects(&self, cursor: &mut Cursor<'_>, lead: Lead) -> Result<Items<Expr>, Fault>
        ensures { Reads (λ (all : _). map plain_expr all) (parts.effects self.now.room (plain_lead lead) (kinds cursor.old)) result (kinds cursor.new) }
    {
        let mut front = Items::new(self.alloc);
        front.push(effect(self.alloc, cursor, self.room, lead)?)?;
        self.more_effects(cursor, front)
    }

    /// The update: expressions, if one begins.
    fn update(&self, cursor: &mut Cursor<'_>) -> Result<Items<Expr>, Fault>
        ensures { Reads (λ (all : _). map plain_expr all) (any_commas starts_effect (effect self.now.room Nothing) (kinds cursor.old)) result (kinds cursor.new) }
    {
        if starts_effect(cursor) {
            self.effects(cursor, Lead::Nothing)
        } else {
            Ok(Items::new(self.alloc))
        }
    }

    /// A first part that evaluates expressions, behind what was read of the first.
    fn first_effects(&self, cursor: &mut Cursor<'_>, lead: Lead) -> Result<ForInit, Fault>
        ensures { Reads plain_for (in_room spec.first_effects self.now.room (plain_lead lead) (kinds cursor.old)) result (kinds cursor.new) }
    {
        let exprs = self.effects(cursor, lead)?;
        Ok(ForInit::Exprs { exprs })
    }

    /// A first part that declares variables, behind their type.
    fn locals(&self, cursor: &mut Cursor<'_>, is_final: bool, ty: TypeUse) -> Result<ForInit, Fault>
        requires { self.now.room < usize.MAX }
        ensures { Reads plain_for (in_room spec.locals self.now.room is_final ty (kinds cursor.old)) result (kinds cursor.new) }
    {
        let decls = match declarators(self.alloc, cursor, self.room) {
            Ok(decls) => decls,
            Err(fault) => {
                drop(ty);
                return Err(fault);
            }
        };
        Ok(ForInit::Locals {
            is_final,
            ty,
            decls,
        })
    }

    /// Variables of a type of arrays, at the close bracket of its first pair.
    fn array_locals(&self, cursor: &mut Cursor<'_>, name: Name) -> Result<ForInit, Fault>
        requires room { self.now.room < usize.MAX }
        requires at { is_at y.CloseBracket (kinds cursor.old) ≡ true }
        ensures { Reads plain_for (in_room parts.array_locals self.now.room name (kinds cursor.old)) result (kinds cursor.new) }
    {
        let more = dims_behind(cursor)?;
        self.locals(cursor, false, named_type(name, more + 1))
    }

    /// Behind a name and an open bracket.
    fn first_bracketed(&self, cursor: &mut Cursor<'_>, name: Name) -> Result<ForInit, Fault>
        requires { self.now.room < usize.MAX }
        ensures { Reads plain_for (in_room parts.bracketed self.now.room name (kinds cursor.old)) result (kinds cursor.new) }
    {
        if cursor.is_at(Symbol::CloseBracket) {
            self.array_locals(cursor, name)
        } else {
            self.first_effects(cursor, Lead::Indexed(name))
        }
    }

    /// Behind a name that may be a declaration's type or the head of an expression, by what comes next.
    fn plain_first(&self, cursor: &mut Cursor<'_>, dotted: Dotted) -> Result<ForInit, Fault>
        requires room { self.now.room < usize.MAX }
        requires plain { dotted.has_this ≡ false }
        ensures { Reads plain_for (in_room parts.plain_first self.now.room dotted.before dotted.last (named.name_end (kinds cursor.old)) (kinds cursor.old)) result (kinds cursor.new) }
    {
        match name_end(cursor) {
            NameEnd::Name => {
                let name = whole_name(dotted.before, dotted.last)?;
                self.locals(cursor, false, named_type(name, 0))
            }
            NameEnd::Bracket => {
                cursor.skip();
                let name = whole_name(dotted.before, dotted.last)?;
                self.first_bracketed(cursor, name)
            }
            NameEnd::Colon | NameEnd::Other => self.first_effects(cursor, Lead::Named(dotted)),
        }
    }

    /// Behind a name.
    #[tactic(auto, using(crate::proofs::Begins::first_is_plain), unfolding(jr_parse_defs::specs::Stmts::first_named))]
    fn first_named(&self, cursor: &mut Cursor<'_>, dotted: Dotted) -> Result<ForInit, Fault>
        requires { self.now.room < usize.MAX }
        ensures { Reads plain_for (in_room spec.first_named self.now.room (plain_dotted dotted) (kinds cursor.old)) result (kinds cursor.new) }
    {
        if dotted.has_this {
            return self.first_effects(cursor, Lead::Named(dotted));
        }
        self.plain_first(cursor, dotted)
    }

    /// At the identifier that a first part begins with.
    fn first_from_name(&self, cursor: &mut Cursor<'_>) -> Result<ForInit, Fault>
        requires { self.now.room < usize.MAX }
        ensures { Reads plain_for (in_room parts.from_name self.now.room (kinds cursor.old)) result (kinds cursor.new) }
    {
        let head = cursor.identifier(self.alloc)?;
        let dotted = dotted_name(self.alloc, cursor, self.room >= 2, head)?;
        self.first_named(cursor, dotted)
    }

    /// A first part that begins with `final` or a primitive type.
    fn first_locals(&self, cursor: &mut Cursor<'_>) -> Result<Option<ForInit>, Fault>
        requires { self.now.room < usize.MAX }
        ensures { Reads (option_map plain_for) (in_room parts.typed self.now.room (kinds cursor.old)) result (kinds cursor.new) }
    {
        let is_final = finality(cursor);
        let ty = type_use(self.alloc, cursor)?;
        Ok(Some(self.locals(cursor, is_final, ty)?))
    }

    /// The first part, if there is one.
    #[tactic(auto, using(crate::proofs::Begins::first_is_begun))]
    fn for_first(&self, cursor: &mut Cursor<'_>) -> Result<Option<ForInit>, Fault>
        requires { self.now.room < usize.MAX }
        ensures { Reads (option_map plain_for) (in_room spec.for_first self.now.room (kinds cursor.old)) result (kinds cursor.new) }
    {
        if starts_name(cursor) {
            return Ok(Some(self.first_from_name(cursor)?));
        }
        if starts_local(cursor) {
            return self.first_locals(cursor);
        }
        if starts_effect(cursor) {
            return Ok(Some(self.first_effects(cursor, Lead::Nothing)?));
        }
        Ok(None)
    }
}

impl<F: Fn(Global, &mut Cursor<'_>, usize, bool) -> Result<Stmt, Fault>> Grammar<F> {
    /// The part that is repeated, behind all that stands in parentheses.
    fn for_body(
        &self,
        cursor: &mut Cursor<'_>,
        first: Option<ForInit>,
        cond: Option<Expr>,
        update: Items<Expr>,
    ) -> Result<Stmt, Fault>
        requires { Nests self.now.room (F.pre self.now.stmt) (F.post self.now.stmt) }
        ensures { Reads plain_stmt (in_room parts.for_body self.now.room (option_map plain_for first) (option_map plain_expr cond) (map plain_expr update) (kinds cursor.old)) result (kinds cursor.new) }
    {
        let body = match self.inner(cursor) {
            Ok(body) => body,
            Err(fault) => {
                drop(first);
                drop(cond);
                return Err(fault);
            }
        };
        Ok(Stmt::For {
            first,
            cond,
            update,
            body,
        })
    }

    /// Behind the second semicolon.
    fn for_update(
        &self,
        cursor: &mut Cursor<'_>,
        first: Option<ForInit>,
        cond: Option<Expr>,
    ) -> Result<Stmt, Fault>
        requires { Nests self.now.room (F.pre self.now.stmt) (F.post self.now.stmt) }
        ensures { Reads plain_stmt (in_room parts.for_update self.now.room (option_map plain_for first) (option_map plain_expr cond) (kinds cursor.old)) result (kinds cursor.new) }
    {
        let update = match self.update(cursor) {
            Ok(update) => update,
            Err(fault) => {
                drop(first);
                drop(cond);
                return Err(fault);
            }
        };
        if let Err(fault) = cursor.expect(Symbol::CloseParen) {
            drop(first);
            drop(cond);
            return Err(fault);
        }
        self.for_body(cursor, first, cond, update)
    }

    /// Behind the first part.
    fn for_cond(&self, cursor: &mut Cursor<'_>, first: Option<ForInit>) -> Result<Stmt, Fault>
        requires { Nests self.now.room (F.pre self.now.stmt) (F.post self.now.stmt) }
        ensures { Reads plain_stmt (in_room parts.for_cond self.now.room (option_map plain_for first) (kinds cursor.old)) result (kinds cursor.new) }
    {
        if let Err(fault) = cursor.expect(Symbol::Semicolon) {
            drop(first);
            return Err(fault);
        }
        let cond = match any_expr(self.alloc, cursor, self.room) {
            Ok(cond) => cond,
            Err(fault) => {
                drop(first);
                return Err(fault);
            }
        };
        if let Err(fault) = cursor.expect(Symbol::Semicolon) {
            drop(first);
            drop(cond);
            return Err(fault);
        }
        self.for_update(cursor, first, cond)
    }

    /// Behind `for`
    #[tactic(auto, unfolding(jr_parse_defs::specs::Stmts::for_stmt))]
    pub fn for_stmt(&self, cursor: &mut Cursor<'_>) -> Result<Stmt, Fault>
        requires nests { Nests self.now.room (F.pre self.now.stmt) (F.post self.now.stmt) }
        requires room { self.now.room < usize.MAX }
        ensures { Reads plain_stmt (in_room spec.for_stmt self.now.room (kinds cursor.old)) result (kinds cursor.new) }
    {
        cursor.expect(Symbol::OpenParen)?;
        let first = self.for_first(cursor)?;
        self.for_cond(cursor, first)
    }
}
