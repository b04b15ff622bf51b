use jr_thin::{Renaming, rename};
use std::process::Abort;
use std::test::Fail;

// The answer that is wanted.
#[derive(Clone, Copy)]
enum Wanted {
    NotServed,
    // The offset, the node of the use and the node of its declaration.
    NoSpelling(u32, u32, u32),
    BrokenRule(u32),
    Renamed(&'static str),
}

#[derive(Clone, Copy)]
struct Row {
    text: &'static str,
    at: u32,
    name: &'static str,
    wanted: Wanted,
}

const fn entry(text: &'static str, at: u32, name: &'static str, wanted: Wanted) -> Row {
    Row {
        text,
        at,
        name,
        wanted,
    }
}

fn is_wanted(answer: &Renaming, wanted: Wanted) -> bool {
    match (answer, wanted) {
        (Renaming::NotServed, Wanted::NotServed) => true,
        (Renaming::NoSpelling { occ, at, lock }, Wanted::NoSpelling(place, node, declared)) => {
            *at == place && occ.at.node.0 == node && lock.at.node.0 == declared
        }
        (Renaming::BrokenRule { at }, Wanted::BrokenRule(place)) => *at == place,
        (Renaming::Renamed(bytes), Wanted::Renamed(text)) => bytes.as_slice() == text.as_bytes(),
        _ => false,
    }
}

const SUM: &str = "class A { static int f(int a) { return a + 1; } }";

fn check(rt: &(impl Abort + AllocGlobal), row: Row) -> Result<(), Fail> {
    assert!(rt; row.text.len() <= 65536);
    let answer = rename(rt.alloc(), row.text.as_bytes(), row.at, row.name.as_bytes())?;
    assert!(rt;
        is_wanted(&answer, row.wanted),
        "{:?} at {}",
        row.text,
        row.at
    );
    Ok(())
}

#[test]
fn renames_and_refuses(rt: HostRuntime) -> Result<(), Fail> {
    let rows = [
        entry(
            SUM,
            27,
            "b",
            Wanted::Renamed("class A { static int f(int b) { return b + 1; } }"),
        ),
        entry(
            SUM,
            39,
            "b",
            Wanted::Renamed("class A { static int f(int b) { return b + 1; } }"),
        ),
        entry(SUM, 27, "a", Wanted::Renamed(SUM)),
        entry(SUM, 28, "b", Wanted::NotServed),
        entry(SUM, 21, "g", Wanted::NotServed),
        entry(SUM, 27, "int", Wanted::NotServed),
        entry(
            "class A { static int f(int a) { int b = 1; return a; } }",
            27,
            "b",
            Wanted::NoSpelling(50, 14, 4),
        ),
        entry(
            "class A { static int f(int y) { int x = 1; return 0; } }",
            27,
            "x",
            Wanted::BrokenRule(36),
        ),
        entry(
            "class A { static int f(int y) { int a = y; int xx = 1; return 0; } }",
            27,
            "xx",
            Wanted::BrokenRule(49),
        ),
        entry(
            "class A { static int f(int a) { return c; } }",
            27,
            "b",
            Wanted::NotServed,
        ),
        entry(
            "class A { static int f(int a) { int a = 1; return 0; } }",
            27,
            "b",
            Wanted::NotServed,
        ),
    ];
    for row in rows {
        check(&rt, row)?;
    }
    Ok(())
}

#[test]
fn keeps_what_is_not_its_own(rt: HostRuntime) -> Result<(), Fail> {
    let rows = [
        entry(
            "class A { static int f(int a) { return a; } static int g(int a) { return a; } }",
            27,
            "b",
            Wanted::Renamed(
                "class A { static int f(int b) { return b; } static int g(int a) { return a; } }",
            ),
        ),
        entry(
            "class A { static int f(int a/*x*/) { return /* a */a; } }",
            27,
            "bc",
            Wanted::Renamed("class A { static int f(int bc/*x*/) { return /* a */bc; } }"),
        ),
        entry(
            "class A {\r\n static int f(int a) {\r\n return a;\r\n }\r\n}\r\n",
            29,
            "b",
            Wanted::Renamed("class A {\r\n static int f(int b) {\r\n return b;\r\n }\r\n}\r\n"),
        ),
        entry(
            "class A { static int f(int a) { int b = b + a; return b; } }",
            27,
            "c",
            Wanted::Renamed("class A { static int f(int c) { int b = b + c; return b; } }"),
        ),
    ];
    for row in rows {
        check(&rt, row)?;
    }
    Ok(())
}
