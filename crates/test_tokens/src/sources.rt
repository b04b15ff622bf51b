// Sources are lexed and parsed.
use crate::outline::{Part, outline};
use crate::tables::{
    BROKEN_EXPRESSIONS, BROKEN_STATEMENTS, BROKEN_UNITS, EXPRESSIONS, STATEMENTS, UNITS,
};
use jr_base::Token;
use jr_lex::lex;
use jr_parse::parse;
use std::alloc::{AllocError, Global};
use std::process::Abort;
use std::test::Fail;

/// The outline of the part of the tree that the tokens are, or the fault.
fn parsed(alloc: Global, tokens: &[Token], part: Part) -> Result<String, AllocError> {
    if tokens.len() > 10_000 {
        return String::from_str(alloc, "too many tokens");
    }
    match parse(alloc, tokens) {
        Ok(unit) => outline(alloc, &unit, part),
        Err(fault) => format!(in alloc; "{fault:?}"),
    }
}

/// The outline of the part, or the fault.
fn answer(alloc: Global, text: &str, part: Part) -> Result<String, AllocError> {
    if text.len() > 10_000 {
        return String::from_str(alloc, "too long");
    }
    match lex(alloc, text.as_bytes()) {
        Ok(tokens) => parsed(alloc, &tokens, part),
        Err(fault) => format!(in alloc; "{fault:?}"),
    }
}

/// A text that stands between two others.
fn between(alloc: Global, before: &str, text: &str, after: &str) -> Result<String, AllocError> {
    let mut whole = String::from_str(alloc, before)?;
    whole.push_str(text)?;
    whole.push_str(after)?;
    Ok(whole)
}

/// Each source of the table, between two texts, is what stands behind it.
fn check_rows<R: Abort + AllocGlobal>(
    rt: &R,
    rows: &str,
    before: &str,
    after: &str,
    part: Part,
) -> Result<(), Fail> {
    for row in rows.lines() {
        if let Some((source, expected)) = row.split_once(" => ") {
            let text = between(rt.alloc(), before, source, after)?;
            let found = answer(rt.alloc(), text.as_str(), part)?;
            assert_eq!(rt; found.as_str(), expected, "{source}");
        }
    }
    Ok(())
}

/// The tables, and the texts between which their sources stand.
const TABLES: [(&str, &str, &str, Part); 6] = [
    (EXPRESSIONS, "class C { T x = ", "; }", Part::Value),
    (BROKEN_EXPRESSIONS, "class C { T x = ", "; }", Part::Value),
    (STATEMENTS, "class C { void m() { ", " } }", Part::Body),
    (
        BROKEN_STATEMENTS,
        "class C { void m() { ",
        " } }",
        Part::Body,
    ),
    (UNITS, "", "", Part::Whole),
    (BROKEN_UNITS, "", "", Part::Whole),
];

#[test]
fn sources_are_read(rt: HostRuntime) -> Result<(), Fail> {
    for (rows, before, after, part) in TABLES {
        check_rows(&rt, rows, before, after, part)?;
    }
    Ok(())
}

/// A source in which an opening and its closing stand so many times round a middle, and how its answer begins.
#[derive(Clone, Copy)]
struct Nest {
    times: usize,
    before: &'static str,
    opening: &'static str,
    middle: &'static str,
    closing: &'static str,
    after: &'static str,
    part: Part,
    answer: &'static str,
}

fn nested(alloc: Global, nest: Nest) -> Result<String, AllocError> {
    let mut text = String::from_str(alloc, nest.before)?;
    for _ in 0..nest.times {
        text.push_str(nest.opening)?;
    }
    text.push_str(nest.middle)?;
    for _ in 0..nest.times {
        text.push_str(nest.closing)?;
    }
    text.push_str(nest.after)?;
    Ok(text)
}

/// Parentheses round a name, below a class and a field.
const fn expressions(times: usize, answer: &'static str) -> Nest {
    Nest {
        times,
        before: "class C { T x = ",
        opening: "(",
        middle: "a",
        closing: ")",
        after: "; }",
        part: Part::Whole,
        answer,
    }
}

/// Blocks in the body of a method, below a class and the method.
const fn statements(times: usize, answer: &'static str) -> Nest {
    Nest {
        times,
        before: "class C { void m() { ",
        opening: "{ ",
        middle: "",
        closing: "} ",
        after: "} }",
        part: Part::Body,
        answer,
    }
}

/// Classes in classes, each two levels below the one round it.
const fn declarations(times: usize, answer: &'static str) -> Nest {
    Nest {
        times,
        before: "",
        opening: "class C { ",
        middle: "",
        closing: "} ",
        after: "",
        part: Part::Whole,
        answer,
    }
}

#[test]
fn depth_is_limited(rt: HostRuntime) -> Result<(), Fail> {
    for nest in [
        expressions(253, "class/0/0/1 C field/0/1 type T x () () "),
        expressions(254, "TooDeep(259)"),
        statements(254, "nest block/1 nest block/1 "),
        statements(255, "TooDeep(262)"),
        declarations(128, "class/0/0/1 C nested class/0/0/1 C nested "),
        declarations(129, "TooDeep(384)"),
    ] {
        let text = nested(rt.alloc(), nest)?;
        let found = answer(rt.alloc(), text.as_str(), nest.part)?;
        assert!(rt; found.starts_with(nest.answer), "{}", nest.answer);
    }
    Ok(())
}
