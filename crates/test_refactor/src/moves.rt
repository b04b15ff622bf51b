// Code that moves: extractions, inlinings, pull ups, removals, and types and packages that go elsewhere.
use crate::calling::{changes, leaves, leaves_it};
use std::test::Fail;

#[test]
fn statements_are_extracted(rt: HostRuntime) -> Result<(), Fail> {
    let alloc = rt.alloc();
    let old = "class A { static int f(int n) { int s = 1; s = s + n; s = s * 2; return s; } }";
    let new =
        "class A { static int f(int n) { int s = 1; s = g(n, s); return s; }\n\nprivate static int g(int n, int s) {\ns = s + n; s = s * 2;\nreturn s;\n} }";
    assert!(rt; changes(alloc, old, ". extract A.java 43 64 g", new)?);
    let two = "class A { static int f() { int a = 0; int b = 0; a = 1; b = 2; return a + b; } }";
    let edge = "lost edge: def-use A.java:56 A.java:74\n";
    assert!(rt; leaves_it(alloc, two, ". extract A.java 49 62 g", 5, edge)?);
    Ok(())
}

#[test]
fn a_local_is_inlined(rt: HostRuntime) -> Result<(), Fail> {
    let alloc = rt.alloc();
    let old = "class A { static int f(int a) { int b = a + 1; return b * 2; } }";
    let new = "class A { static int f(int a) {  return (a + 1) * 2; } }";
    assert!(rt; changes(alloc, old, ". inline A.java 36", new)?);
    let assigned = "class A { static int f(int a) { int b = a; a = a + 1; return b; } }";
    let edge = "lost edge: def-use A.java:27 A.java:40\n";
    assert!(rt; leaves_it(alloc, assigned, ". inline A.java 36", 5, edge)?);
    Ok(())
}

const CARRIED: &str =
    "class A { static boolean c() { return true; } static void p(int a) { } static void f() { int a = 0; while (c()) { do { p(a); a = 5; } while (c()); } } }";

const THROWN_PAST: &str =
    "class A { static void h() { } static void p(int a) { } static void f() { int a = 0; try { h(); a = 1; h(); h(); } catch (RuntimeException e) { p(a); } } }";

const RETURN_IN_TRY: &str =
    "class A { static void h() { } static void f(boolean c) { try { if (c) return; h(); } finally { h(); } h(); } }";

#[test]
fn statements_whose_values_or_returns_are_lost_are_not_extracted(
    rt: HostRuntime,
) -> Result<(), Fail> {
    let alloc = rt.alloc();
    let round = "lost edge: def-use A.java:125 A.java:125\n";
    assert!(rt; leaves_it(alloc, CARRIED, ". extract A.java 114 146 m", 5, round)?);
    let thrown = "lost edge: def-use A.java:95 A.java:145\n";
    assert!(rt; leaves_it(alloc, THROWN_PAST, ". extract A.java 95 106 m", 5, thrown)?);
    let held = "lost edge: control A.java:70 A.java:70\n";
    assert!(rt; leaves_it(alloc, RETURN_IN_TRY, ". extract A.java 63 82 m", 5, held)?);
    Ok(())
}

const THROWN_FROM: &str =
    "class A { static void h() { } static int g() { return 0; } static void p(int a, int b) { } static void f() { int x = 0; try { h(); int t = g(); p(x = 5, t); } catch (RuntimeException e) { p(x, 0); } } }";

#[test]
fn what_may_throw_is_not_inlined_past_a_definition(rt: HostRuntime) -> Result<(), Fail> {
    let alloc = rt.alloc();
    let edge = "lost edge: def-use A.java:146 A.java:146\n";
    assert!(rt; leaves_it(alloc, THROWN_FROM, ". inline A.java 135", 5, edge)?);
    Ok(())
}

const BEFORE_CREATION: &str =
    "class X { static int n = A.log; X(int k) { } } class A { static int log; static int a() { log = 1; return 2; } static X m() { int t = a(); return new X(t); } }";

#[test]
fn what_acts_is_not_inlined_into_a_creation_that_begins_an_initialization(
    rt: HostRuntime,
) -> Result<(), Fail> {
    let alloc = rt.alloc();
    let edge = "lost edge: control A.java:134 A.java:25\n";
    assert!(rt; leaves_it(alloc, BEFORE_CREATION, ". inline A.java 130", 5, edge)?);
    Ok(())
}

#[test]
fn a_method_is_pulled_up(rt: HostRuntime) -> Result<(), Fail> {
    let alloc = rt.alloc();
    let old = "class A { } class B extends A { int f; int m() { return f; } }";
    let new = "class A { int m() { return ((B)this).f; }\n} class B extends A { int f;  }";
    assert!(rt; changes(alloc, old, ". pullup A.java 43", new)?);
    Ok(())
}

const THROWN_IN_CATCH: &str =
    "class A { static void g() throws Exception { } static void f() { try { g(); } catch (Exception e) { g(); } finally { while (true) { } } } }";

#[test]
fn what_comes_out_of_the_statements_is_declared(rt: HostRuntime) -> Result<(), Fail> {
    let alloc = rt.alloc();
    let new =
        "class A { static void g() throws Exception { } static void f() { try { g(); } catch (Exception e) { h(); } finally { while (true) { } } }\n\nprivate static void h() throws Exception {\ng();\n} }";
    assert!(rt; changes(alloc, THROWN_IN_CATCH, ". extract A.java 100 104 h", new)?);
    Ok(())
}

const CAST_TO_ITS_CLASS: &str =
    "class A { } class B extends A { B m() { B b = (B) this; return b; } }";

#[test]
fn a_method_that_goes_up_keeps_its_edges(rt: HostRuntime) -> Result<(), Fail> {
    let alloc = rt.alloc();
    let edge = "lost edge: control A.java:34 A.java:40\n";
    assert!(rt; leaves_it(alloc, CAST_TO_ITS_CLASS, ". pullup A.java 34", 5, edge)?);
    Ok(())
}

#[test]
fn a_call_that_begins_an_initialization_keeps_its_class(rt: HostRuntime) -> Result<(), Fail> {
    let alloc = rt.alloc();
    let old =
        "class A { } class B extends A { static void h() { } static { h(); } static int w() { return 5; } } class C { int k = B.w(); }";
    let edge = "lost edge: control A.java:61 A.java:117\n";
    assert!(rt; leaves_it(alloc, old, ". pullup A.java 79", 5, edge)?);
    Ok(())
}

#[test]
fn what_nothing_uses_is_deleted(rt: HostRuntime) -> Result<(), Fail> {
    let alloc = rt.alloc();
    let old = "class A { int f; int g() { return 1; } }";
    let new = "class A {  int g() { return 1; } }";
    assert!(rt; changes(alloc, old, ". delete A.java 14", new)?);
    let used = "class A { int f; int g() { return f; } }";
    assert!(rt;
        leaves_it(
            alloc,
            used,
            ". delete A.java 14",
            13,
            "still used: A.java:34\n"
        )?
    );
    Ok(())
}

#[test]
fn packages_and_member_types_go_elsewhere(rt: HostRuntime) -> Result<(), Fail> {
    let alloc = rt.alloc();
    let files = [
        ("p/A.java", "package p; public class A { }"),
        ("p/B.java", "package p; class B { A a; }"),
    ];
    let left = [
        ("p/A.java", ""),
        ("q/r/B.java", "package q.r; class B { A a; }"),
    ];
    let line = "done, files changed: 4\n";
    assert!(rt; leaves(alloc, &files, ". repackage p q.r", 0, line, &left)?);
    let nested = [("A.java", "class A { static class N { } N n; }")];
    let lifted = [("A.java", "class A {  N n; }"), ("N.java", "class N { }\n")];
    let two = "done, files changed: 2\n";
    assert!(rt; leaves(alloc, &nested, ". lift A.java 23", 0, two, &lifted)?);
    Ok(())
}
