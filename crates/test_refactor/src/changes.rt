// Renames and moves in any folder.
use crate::calling::{all_leave_it, changes, leaves, leaves_it};
use std::test::Fail;

const SHADOWED: &str = "class A { int x; int f(int y) { return x + y; } }";

const QUALIFIED: &str = "class A { int x; int f(int x) { return this.x + x; } }";

const BASE: &str = "package p; public class A { void m() { } }";

const DERIVED: &str = "package p; public class B extends A { void m() { } }";

#[test]
fn a_field_is_qualified(rt: HostRuntime) -> Result<(), Fail> {
    let alloc = rt.alloc();
    assert!(rt; changes(alloc, SHADOWED, ". rename A.java 27 x", QUALIFIED)?);
    let old = "class A { static int x; static int f(int y) { return x + y; } }";
    let new = "class A { static int x; static int f(int x) { return A.x + x; } }";
    assert!(rt; changes(alloc, old, ". rename A.java 41 x", new)?);
    Ok(())
}

#[test]
fn an_argument_is_cast(rt: HostRuntime) -> Result<(), Fail> {
    let alloc = rt.alloc();
    let old = "class A { void k(String s) { } void m(Object o) { } void t() { m(\"a\"); } }";
    let new =
        "class A { void m(String s) { } void m(Object o) { } void t() { m((Object)\"a\"); } }";
    assert!(rt; changes(alloc, old, ". rename A.java 15 m", new)?);
    Ok(())
}

const FAMILY: [(&str, &str); 2] = [("p/A.java", BASE), ("p/B.java", DERIVED)];

#[test]
fn a_family_is_renamed(rt: HostRuntime) -> Result<(), Fail> {
    let alloc = rt.alloc();
    let left = [
        ("p/A.java", "package p; public class A { void run() { } }"),
        (
            "p/B.java",
            "package p; public class B extends A { void run() { } }",
        ),
    ];
    let line = "done, files changed: 2\n";
    assert!(rt; leaves(alloc, &FAMILY, ". rename p/B.java 43 run", 0, line, &left)?);
    Ok(())
}

#[test]
fn a_type_takes_its_file_with_it(rt: HostRuntime) -> Result<(), Fail> {
    let alloc = rt.alloc();
    let left = [
        ("p/A.java", ""),
        (
            "p/Base.java",
            "package p; public class Base { void m() { } }",
        ),
        (
            "p/B.java",
            "package p; public class B extends Base { void m() { } }",
        ),
    ];
    let line = "done, files changed: 3\n";
    assert!(rt; leaves(alloc, &FAMILY, ". rename p/A.java 24 Base", 0, line, &left)?);
    Ok(())
}

const USER: &str = "package p; public class B { q.C c; A a; }";

#[test]
fn a_type_is_moved(rt: HostRuntime) -> Result<(), Fail> {
    let alloc = rt.alloc();
    let files = [
        ("p/A.java", "package p; public class A { }"),
        ("p/B.java", USER),
        ("q/C.java", "package q; public class C { }"),
    ];
    let left = [
        ("p/A.java", ""),
        ("q/A.java", "package q; public class A { }"),
        ("p/B.java", "package p; public class B { q.C c; q.A a; }"),
    ];
    let line = "done, files changed: 3\n";
    assert!(rt; leaves(alloc, &files, ". move p/A.java 24 q", 0, line, &left)?);
    let none = "done, files changed: 0\n";
    assert!(rt; leaves(alloc, &files, ". move p/A.java 24 p", 0, none, &files)?);
    Ok(())
}

const HIDDEN: [(&str, &str); 2] = [
    (
        "p/A.java",
        "package p; public class A { int f() { return new B().n; } }",
    ),
    ("p/B.java", "package p; public class B { int n; }"),
];

#[test]
fn a_move_is_refused(rt: HostRuntime) -> Result<(), Fail> {
    let alloc = rt.alloc();
    let lost = "no spelling: p/A.java:53\n";
    assert!(rt; leaves(alloc, &HIDDEN, ". move p/A.java 24 q", 4, lost, &HIDDEN)?);
    let edge = "lost edge: dispatch p/B.java:24 p/A.java:33\n";
    assert!(rt; leaves(alloc, &FAMILY, ". move p/B.java 24 q", 5, edge, &FAMILY)?);
    Ok(())
}

#[test]
fn a_rename_is_refused(rt: HostRuntime) -> Result<(), Fail> {
    let alloc = rt.alloc();
    let text = "class A { public String s() { return \"a\"; } }";
    let edge = "lost edge: dispatch A.java:6 prelude\n";
    assert!(rt; leaves_it(alloc, text, ". rename A.java 24 toString", 5, edge)?);
    let twice = "class A { int x; int f(int y) { int z = 1; return 0; } }";
    let rule = "broken rule: 6 A.java:36\n";
    assert!(rt; leaves_it(alloc, twice, ". rename A.java 27 z", 6, rule)?);
    let wrong = "class A { int x; int f() { return y; } }";
    let unbound = "not compiling: unbound A.java:34\n";
    assert!(rt; leaves_it(alloc, wrong, ". rename A.java 14 z", 3, unbound)?);
    Ok(())
}

const NONE: [(&str, u8, &str); 4] = [
    (". rename B.java 14 z", 2, "bad request: 1\n"),
    (". rename A.java 100 z", 2, "bad request: 2\n"),
    (". rename A.java 14 int", 2, "bad request: 5\n"),
    (". move A.java 14 q", 2, "bad request: 6\n"),
];

#[test]
fn a_request_that_cannot_be_is_refused(rt: HostRuntime) -> Result<(), Fail> {
    let alloc = rt.alloc();
    let none = "bad request: 1\n";
    assert!(rt; leaves(alloc, &[], ". rename A.java 0 b", 2, none, &[])?);
    assert!(rt; all_leave_it(alloc, SHADOWED, &NONE)?);
    Ok(())
}
