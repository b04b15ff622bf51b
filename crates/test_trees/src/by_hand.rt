// Trees that no source reads as: the grammar does not have them, or they are too deep.
use crate::written::check_unit;
use jr_base::{Boxed, Items, Keyword, Kind, OutOfMemory, Text};
use jr_tree::{Block, Expr, Member, Name, Stmt, ThisOrSuper, TypeDecl, Unit};
use std::alloc::{AllocError, Global};
use std::process::Abort;
use std::test::Fail;

/// `class A { static { stmt } }`
fn unit_with(alloc: Global, stmt: Stmt) -> Result<Unit, OutOfMemory> {
    let mut stmts = Items::new(alloc);
    stmts.push(stmt)?;
    let mut body = Items::new(alloc);
    body.push(Member::Init {
        is_static: true,
        body: Block { stmts },
    })?;
    let name = text(alloc, "A")?;
    let mut types = Items::new(alloc);
    types.push(TypeDecl::Class {
        mods: Items::new(alloc),
        name,
        parent: None,
        faces: Items::new(alloc),
        body,
    })?;
    Ok(Unit {
        package: None,
        imports: Items::new(alloc),
        types,
    })
}

fn text(alloc: Global, word: &str) -> Result<Text, OutOfMemory> {
    Ok(Text::new(word.as_bytes().to_vec(alloc)?))
}

/// A name that stands as an expression.
fn variable(alloc: Global, word: &str) -> Result<Boxed<Expr>, OutOfMemory> {
    let mut parts = Items::new(alloc);
    parts.push(text(alloc, word)?)?;
    let variable = Expr::NameExpr {
        name: Name { parts },
    };
    Ok(Boxed::new(alloc, variable)?)
}

/// `return x.f;`, where `x.f` is a selection and no name
fn selection(alloc: Global) -> Result<Stmt, OutOfMemory> {
    let name = text(alloc, "f")?;
    let object = variable(alloc, "x")?;
    Ok(Stmt::Return {
        value: Some(Expr::Select { object, name }),
    })
}

/// `if (true) if (true) ; else ;`, where the `else` is that of the first `if`
fn far_else(alloc: Global) -> Result<Stmt, OutOfMemory> {
    let skip = Boxed::new(alloc, Stmt::Skip)?;
    let inner = Stmt::If {
        cond: truth(),
        yes: skip,
        no: None,
    };
    let yes = Boxed::new(alloc, inner)?;
    let no = Boxed::new(alloc, Stmt::Skip)?;
    Ok(Stmt::If {
        cond: truth(),
        yes,
        no: Some(no),
    })
}

fn truth() -> Expr {
    Expr::Lit {
        kind: Kind::Word(Keyword::True),
    }
}

/// `return literal;`
fn returned(kind: Kind) -> Stmt {
    Stmt::Return {
        value: Some(Expr::Lit { kind }),
    }
}

/// A statement that the grammar does not have in this place.
#[derive(Clone, Copy)]
enum Odd {
    Literal,
    LongLiteral,
    NoEffect,
    BareTry,
    CallThis,
    Selection,
    FarElse,
}

fn odd_stmt(alloc: Global, odd: Odd) -> Result<Stmt, OutOfMemory> {
    match odd {
        Odd::Literal => Ok(returned(Kind::IntMin)),
        Odd::LongLiteral => Ok(returned(Kind::LongMin)),
        Odd::NoEffect => Ok(Stmt::Eval { value: truth() }),
        Odd::BareTry => Ok(Stmt::Try {
            body: Block {
                stmts: Items::new(alloc),
            },
            catches: Items::new(alloc),
            last: None,
        }),
        Odd::CallThis => Ok(Stmt::CtorCall {
            which: ThisOrSuper::This,
            args: Items::new(alloc),
        }),
        Odd::Selection => selection(alloc),
        Odd::FarElse => far_else(alloc),
    }
}

const ODD: [(Odd, &str, usize); 7] = [
    (Odd::Literal, "return 2147483648;", 4),
    (Odd::LongLiteral, "return 9223372036854775808L;", 4),
    (Odd::NoEffect, "true;", 4),
    (Odd::BareTry, "try { }", 3),
    (Odd::CallThis, "this();", 3),
    (Odd::Selection, "return x.f;", 5),
    (Odd::FarElse, "if (true) if (true) ; else ;", 5),
];

#[test]
fn trees_that_the_grammar_does_not_have(rt: HostRuntime) -> Result<(), Fail> {
    for (odd, text, depth) in ODD {
        let whole = format!(in rt.alloc(); "class A {{ static {{ {text} }} }}")?;
        let unit = unit_with(rt.alloc(), odd_stmt(rt.alloc(), odd)?)?;
        check_unit(&rt, &unit, whole.as_str(), false, depth)?;
    }
    Ok(())
}

/// `return (..(x)..);`, with one pair of parentheses and so many more, as a tree.
fn nested(alloc: Global, more: u32) -> Result<Stmt, OutOfMemory> {
    let mut inner = variable(alloc, "x")?;
    for _ in 0..more {
        inner = Boxed::new(alloc, Expr::Paren { inner })?;
    }
    Ok(Stmt::Return {
        value: Some(Expr::Paren { inner }),
    })
}

/// The text of its unit.
fn nested_text(alloc: Global, more: u32) -> Result<String, AllocError> {
    let mut text = String::from_str(alloc, "class A { static { return (")?;
    for _ in 0..more {
        text.push_str("(")?;
    }
    text.push_str("x")?;
    for _ in 0..more {
        text.push_str(")")?;
    }
    text.push_str("); } }")?;
    Ok(text)
}

/// A class, a member, a statement, a pair of parentheses and the variable are five deep.
fn check_nested<R: Abort + AllocGlobal>(rt: &R, more: u32, depth: usize) -> Result<(), Fail> {
    let text = nested_text(rt.alloc(), more)?;
    let unit = unit_with(rt.alloc(), nested(rt.alloc(), more)?)?;
    check_unit(rt, &unit, text.as_str(), true, depth)
}

#[test]
fn depth_round_the_limit_and_far_beyond(rt: HostRuntime) -> Result<(), Fail> {
    for (more, depth) in [(250, 255), (251, 256), (252, 257), (999, 1_004)] {
        check_nested(&rt, more, depth)?;
    }
    Ok(())
}
