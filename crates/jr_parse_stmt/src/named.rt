// Statements that begin with a name: a declaration, a label or an expression (JLS 14.4, 14.7, 14.8).
ghost use Rattle.std.specs.Prelude.{◌≡◌, ◌<◌, true, false};
ghost use Rattle.jr_tree.specs.declared.tree.Base.TheVariants as base;
ghost use Rattle.jr_parse_expr.specs.Names.{type_of};
ghost use Rattle.jr_base.specs.declared.kind.Symbol.TheVariants as y;
ghost use Rattle.jr_tree.specs.Mirror.Stmts.{plain_stmt};
ghost use Rattle.jr_parse_laws.specs.Parsers.{Reads, is_at, kinds};
ghost use Rattle.jr_parse_expr.specs.Views.{plain_dotted};
ghost use Rattle.jr_parse_defs.specs.Stmts as spec;
ghost use Rattle.jr_parse_stmt.specs.Begun as begun;
ghost use Rattle.jr_parse_stmt.specs.Named as named;
ghost use Rattle.jr_parse_stmt.specs.Nests.{Nests, in_room};

use crate::grammar::Grammar;
use jr_base::{Kind, Symbol, Text};
use jr_parse_expr::{Dotted, Lead, dims_behind, dotted_name, whole_name};
use jr_parse_laws::{Cursor, Fault};
use jr_tree::{Base, Name, Stmt, TypeUse};
use std::alloc::Global;

/// What stands behind a name.
#[derive(Clone, Copy)]
pub enum NameEnd {
    /// An identifier
    Name,
    /// `[`
    Bracket,
    /// `:`
    Colon,
    /// Any other token, or none
    Other,
}

/// What comes next, behind a name.
pub fn name_end(cursor: &Cursor<'_>) -> NameEnd
    ensures { result ≡ named.name_end (kinds cursor.now) }
{
    match cursor.peek() {
        Some(Kind::Ident(_)) => NameEnd::Name,
        Some(Kind::Sym(Symbol::OpenBracket)) => NameEnd::Bracket,
        Some(Kind::Sym(Symbol::Colon)) => NameEnd::Colon,
        _ => NameEnd::Other,
    }
}

/// The type that a name and so many pairs of brackets are.
pub fn named_type(name: Name, dims: usize) -> TypeUse
    ensures { result ≡ type_of (base.Named name) dims }
{
    TypeUse {
        base: Base::Named(name),
        dims,
    }
}

impl<F> Grammar<F> {
    /// Variables of a type of arrays, at the close bracket of its first pair.
    fn array_local(&self, cursor: &mut Cursor<'_>, name: Name) -> Result<Stmt, Fault>
        requires room { self.now.room < usize.MAX }
        requires at { is_at y.CloseBracket (kinds cursor.old) ≡ true }
        ensures { Reads plain_stmt (in_room named.array_local self.now.room name (kinds cursor.old)) result (kinds cursor.new) }
    {
        let more = dims_behind(cursor)?;
        self.local(cursor, false, named_type(name, more + 1))
    }

    /// Behind a name and an open bracket, where variables may be declared.
    fn bracketed(&self, cursor: &mut Cursor<'_>, name: Name) -> Result<Stmt, Fault>
        requires { self.now.room < usize.MAX }
        ensures { Reads plain_stmt (in_room named.bracketed self.now.room name (kinds cursor.old)) result (kinds cursor.new) }
    {
        if cursor.is_at(Symbol::CloseBracket) {
            self.array_local(cursor, name)
        } else {
            self.evaluated(cursor, Lead::Indexed(name))
        }
    }

    /// At an open bracket behind a name.
    fn at_bracket(&self, cursor: &mut Cursor<'_>, declares: bool, name: Name) -> Result<Stmt, Fault>
        requires { self.now.room < usize.MAX }
        ensures { Reads plain_stmt (in_room named.at_bracket self.now.room declares name (kinds cursor.old)) result (kinds cursor.new) }
    {
        if !declares && self.room < 3 {
            return Err(Fault::TooDeep);
        }
        cursor.skip();
        if declares {
            self.bracketed(cursor, name)
        } else {
            self.evaluated(cursor, Lead::Indexed(name))
        }
    }
}

impl<F: Fn(Global, &mut Cursor<'_>, usize, bool) -> Result<Stmt, Fault>> Grammar<F> {
    /// At the colon behind a label.
    fn labeled(&self, cursor: &mut Cursor<'_>, label: Text) -> Result<Stmt, Fault>
        requires { Nests self.now.room (F.pre self.now.stmt) (F.post self.now.stmt) }
        ensures { Reads plain_stmt (in_room named.labeled self.now.room label (kinds cursor.old)) result (kinds cursor.new) }
    {
        if self.is_lowest() {
            return Err(Fault::TooDeep);
        }
        cursor.skip();
        let body = self.inner(cursor)?;
        Ok(Stmt::Labeled { label, body })
    }

    /// At an identifier behind a name.
    fn at_name(
        &self,
        cursor: &mut Cursor<'_>,
        declares: bool,
        dotted: Dotted,
    ) -> Result<Stmt, Fault>
        requires room { self.now.room < usize.MAX }
        requires plain { dotted.has_this ≡ false }
        ensures { Reads plain_stmt (in_room named.at_name self.now.room declares dotted.before dotted.last (kinds cursor.old)) result (kinds cursor.new) }
    {
        if !declares {
            return self.evaluated(cursor, Lead::Named(dotted));
        }
        let name = whole_name(dotted.before, dotted.last)?;
        self.local(cursor, false, named_type(name, 0))
    }

    /// At a colon behind a name, which is a label if it is simple.
    fn at_colon(&self, cursor: &mut Cursor<'_>, dotted: Dotted) -> Result<Stmt, Fault>
        requires nests { Nests self.now.room (F.pre self.now.stmt) (F.post self.now.stmt) }
        requires plain { dotted.has_this ≡ false }
        ensures { Reads plain_stmt (in_room named.at_colon self.now.room dotted.before dotted.last (kinds cursor.old)) result (kinds cursor.new) }
    {
        if dotted.before.is_empty() {
            self.labeled(cursor, dotted.last)
        } else {
            self.evaluated(cursor, Lead::Named(dotted))
        }
    }

    /// Behind a name that may be a declaration's type, a label or the head of an expression, by what comes next.
    fn plain_named(
        &self,
        cursor: &mut Cursor<'_>,
        declares: bool,
        dotted: Dotted,
    ) -> Result<Stmt, Fault>
        requires nests { Nests self.now.room (F.pre self.now.stmt) (F.post self.now.stmt) }
        requires room { self.now.room < usize.MAX }
        requires plain { dotted.has_this ≡ false }
        ensures { Reads plain_stmt (in_room named.plain_named self.now.room declares dotted.before dotted.last (named.name_end (kinds cursor.old)) (kinds cursor.old)) result (kinds cursor.new) }
    {
        match name_end(cursor) {
            NameEnd::Name => self.at_name(cursor, declares, dotted),
            NameEnd::Bracket => {
                let name = whole_name(dotted.before, dotted.last)?;
                self.at_bracket(cursor, declares, name)
            }
            NameEnd::Colon => self.at_colon(cursor, dotted),
            NameEnd::Other => self.evaluated(cursor, Lead::Named(dotted)),
        }
    }

    /// Behind a name.
    #[tactic(auto, using(crate::proofs::Begins::named_is_plain), unfolding(jr_parse_defs::specs::Stmts::named))]
    pub fn named(
        &self,
        cursor: &mut Cursor<'_>,
        declares: bool,
        dotted: Dotted,
    ) -> Result<Stmt, Fault>
        requires nests { Nests self.now.room (F.pre self.now.stmt) (F.post self.now.stmt) }
        requires room { self.now.room < usize.MAX }
        ensures { Reads plain_stmt (in_room spec.named self.now.room declares (plain_dotted dotted) (kinds cursor.old)) result (kinds cursor.new) }
    {
        if dotted.has_this {
            return self.evaluated(cursor, Lead::Named(dotted));
        }
        self.plain_named(cursor, declares, dotted)
    }

    /// At the identifier that a statement begins with.
    pub fn from_name(&self, cursor: &mut Cursor<'_>, declares: bool) -> Result<Stmt, Fault>
        requires nests { Nests self.now.room (F.pre self.now.stmt) (F.post self.now.stmt) }
        requires room { self.now.room < usize.MAX }
        ensures { Reads plain_stmt (in_room begun.name_begun self.now.room declares (kinds cursor.old)) result (kinds cursor.new) }
    {
        if !declares && self.is_lowest() {
            return Err(Fault::TooDeep);
        }
        let head = cursor.identifier(self.alloc)?;
        let dotted = dotted_name(self.alloc, cursor, self.room >= 2, head)?;
        self.named(cursor, declares, dotted)
    }
}
