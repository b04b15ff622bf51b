// Runs, reports and demonstrations.
use crate::calling::{all_leave_it, leaves_it};
use std::test::Fail;

const PRODUCT: &str =
    "class A { public static void main(String[] s) { System.out.println(6 * 7); } }";

const ZERO: &str = "class A { public static void main(String[] s) { int z = 0; z = 1 / z; } }";

const CREATION: &str =
    "class X { static int n = A.log; static { System.out.println(1); } X(int k) { } } class A { static int log; static int a() { log = 3; System.out.println(2); return 2; } public static void main(String[] s) { new X(a()); System.out.println(X.n); } }";

const USES: &str = "class A { int f; int g() { return f + f; } int h() { return g(); } }";

const RUNS: [(&str, u8, &str); 3] = [
    (". run A 1000", 0, "42\n-- ended\n"),
    (". run A 0", 0, "-- running\n"),
    (". run B 5", 2, "bad request: 1\n"),
];

#[test]
fn a_program_is_run(rt: HostRuntime) -> Result<(), Fail> {
    let alloc = rt.alloc();
    assert!(rt; all_leave_it(alloc, PRODUCT, &RUNS)?);
    let uncaught = "-- uncaught java.lang.ArithmeticException\n";
    assert!(rt; leaves_it(alloc, ZERO, ". run A 1000", 0, uncaught)?);
    Ok(())
}

#[test]
fn a_creation_initializes_its_class_before_its_arguments(rt: HostRuntime) -> Result<(), Fail> {
    let alloc = rt.alloc();
    let line = "1\n2\n0\n-- ended\n";
    assert!(rt; leaves_it(alloc, CREATION, ". run A 1000", 0, line)?);
    Ok(())
}

const REPORTS: [(&str, u8, &str); 4] = [
    (". refs A.java 14", 0, "A.java:34\nA.java:38\n-- 2\n"),
    (". subtypes A.java 6", 0, "-- 0\n"),
    (". callers A.java 21", 0, "A.java:47\n-- 1\n"),
    (". callers A.java 14", 2, "bad request: 6\n"),
];

#[test]
fn uses_are_reported(rt: HostRuntime) -> Result<(), Fail> {
    let alloc = rt.alloc();
    assert!(rt; all_leave_it(alloc, USES, &REPORTS)?);
    Ok(())
}

#[test]
fn a_workspace_is_demonstrated(rt: HostRuntime) -> Result<(), Fail> {
    let alloc = rt.alloc();
    let line = "demo 1: rename 1, move 2, extract 1\n";
    assert!(rt; leaves_it(alloc, "", ". demo 1", 0, line)?);
    Ok(())
}
