// Tokens of statements that hold no others.
ghost use Rattle.std.specs.Prelude.{◌≡◌, ◌∷◌, ◌++◌, OnOk};
ghost use Rattle.std.specs.Option.{option_map};
ghost use Rattle.jr_base.specs.declared.kind.Kind.TheVariants as kind;
ghost use Rattle.jr_base.specs.declared.kind.Symbol.TheVariants as y;
ghost use Rattle.jr_tree.specs.Mirror.Exprs as x;
ghost use Rattle.jr_tree.specs.Mirror.Stmts as m;
ghost use Rattle.jr_tree.specs.Tokens as s;
ghost use Rattle.jr_tree.specs.Words as t;

use crate::expr::{write_args, write_expr};
use crate::stmt::{write_locals, write_target, write_value};
use crate::words::{mark, which_word, word};
use jr_base::{Items, Keyword, Kind, OutOfMemory, Symbol, Text};
use jr_tree::{Declarator, Expr, ThisOrSuper, TypeUse};
use std::alloc::Global;

pub fn write_local(
    alloc: Global,
    out: &mut Vec<Kind>,
    is_final: bool,
    ty: &TypeUse,
    decls: &Items<Declarator>,
) -> Result<(), OutOfMemory>
    ensures { OnOk result (out.new.items ≡ out.old.items ++ s.stmt_tokens (m.Local is_final ty.now (m.plain_declarators decls.now))) }
{
    write_locals(alloc, out, is_final, ty, decls.as_slice())?;
    mark(out, Symbol::Semicolon)
}

pub fn write_eval(alloc: Global, out: &mut Vec<Kind>, value: &Expr) -> Result<(), OutOfMemory>
    ensures { OnOk result (out.new.items ≡ out.old.items ++ s.stmt_tokens (m.Eval (x.plain_expr value.now))) }
{
    write_expr(alloc, out, value)?;
    mark(out, Symbol::Semicolon)
}

/// `break` or `continue`, and a label if there is one.
pub fn write_jump(
    alloc: Global,
    out: &mut Vec<Kind>,
    keyword: Keyword,
    label: &Option<Text>,
) -> Result<(), OutOfMemory>
    ensures { OnOk result (out.new.items ≡ out.old.items ++ kind.Word keyword ∷ (t.if_some t.ident label.now ++ t.mark y.Semicolon)) }
{
    word(out, keyword)?;
    write_target(alloc, out, label)?;
    mark(out, Symbol::Semicolon)
}

pub fn write_return(
    alloc: Global,
    out: &mut Vec<Kind>,
    value: &Option<Expr>,
) -> Result<(), OutOfMemory>
    ensures { OnOk result (out.new.items ≡ out.old.items ++ s.stmt_tokens (m.Return (option_map x.plain_expr value.now))) }
{
    word(out, Keyword::Return)?;
    write_value(alloc, out, value)?;
    mark(out, Symbol::Semicolon)
}

pub fn write_throw(alloc: Global, out: &mut Vec<Kind>, value: &Expr) -> Result<(), OutOfMemory>
    ensures { OnOk result (out.new.items ≡ out.old.items ++ s.stmt_tokens (m.Throw (x.plain_expr value.now))) }
{
    word(out, Keyword::Throw)?;
    write_expr(alloc, out, value)?;
    mark(out, Symbol::Semicolon)
}

pub fn write_ctor_call(
    alloc: Global,
    out: &mut Vec<Kind>,
    which: ThisOrSuper,
    args: &Items<Expr>,
) -> Result<(), OutOfMemory>
    ensures { OnOk result (out.new.items ≡ out.old.items ++ s.stmt_tokens (m.CtorCall which (x.plain_exprs args.now))) }
{
    word(out, which_word(which))?;
    write_args(alloc, out, args.as_slice())?;
    mark(out, Symbol::Semicolon)
}
