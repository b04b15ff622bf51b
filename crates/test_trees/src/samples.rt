// Sources of every form, each with the depth of its tree, which is counted by hand along the grammar (JLS 18).
use crate::reading::read;
use crate::written::check_unit;
use std::process::Abort;
use std::test::Fail;

/// What stands before the member of a unit's class.
const BEFORE: &str = "package p; import p.T; import p.*; import static p.T.f;
    public protected private abstract static final native class C extends p.D implements E, p.F { ";

/// What stands after it.
const AFTER: &str = " }
    public protected private abstract static final native interface I extends E, p.F { ; } ;";

/// Expressions, in `static { return ; }`.
const EXPRESSIONS: [(&str, usize); 33] = [
    ("a = p.T", 5),
    ("a = a = b", 6),
    ("p.T ? a : c", 5),
    ("a - p.T", 5),
    ("a - -b", 6),
    ("a - b instanceof p.T[]", 6),
    ("-2147483648", 5),
    ("-9223372036854775808L", 5),
    ("(p.T) p.T", 5),
    ("(p.T) (b)", 6),
    ("++p.T", 5),
    ("p.T--", 5),
    ("(a = b)", 6),
    ("(b).f", 6),
    ("p.T[a]", 5),
    ("this.f(x, y)", 5),
    ("true", 4),
    ("1", 4),
    ("2L", 4),
    ("'u'", 4),
    ("\"uv\"", 4),
    ("this", 4),
    ("p.T.this", 4),
    ("p.T", 4),
    ("super.f", 4),
    ("f(x, y)", 5),
    ("p.T.f(x, y)", 5),
    ("super.f(x, y)", 5),
    ("new p.T(x, y)", 5),
    ("new p.T[x][y][]", 5),
    ("new p.T[][] { z, { }, }", 6),
    ("new int[] { }", 5),
    ("(int) x", 5),
];

/// Statements, in `static { }`.
const STATEMENTS: [(&str, usize); 24] = [
    ("do ; while (f(x, y));", 5),
    ("while (f(x, y)) ;", 5),
    ("if (f(x, y)) ;", 5),
    ("if (f(x, y)) ; else ;", 5),
    ("if (f(x, y)) if (f(x, y)) ; else ; else ;", 6),
    ("for (f(x, y), f(x, y); ; ) ;", 5),
    (
        "for (int[] i[] = { z, { }, }, j; f(x, y); f(x, y), f(x, y)) ;",
        5,
    ),
    ("for (; ; ) ;", 4),
    ("l: { ; }", 5),
    ("{ ; }", 4),
    ("final int[] i[] = { z, { }, }, j;", 5),
    (";", 3),
    ("f(x, y);", 5),
    ("switch (f(x, y)) { case a: default: ; case b: }", 5),
    ("break;", 3),
    ("break l;", 3),
    ("continue;", 3),
    ("continue l;", 3),
    ("return;", 3),
    ("return f(x, y);", 5),
    ("throw f(x, y);", 5),
    ("try { } catch (final int e[]) { ; }", 4),
    ("try { ; } catch (final int e[]) { ; } finally { }", 4),
    ("try { ; } finally { }", 4),
];

/// Members.
const MEMBERS: [(&str, usize); 8] = [
    (
        "public protected private abstract static final native int[] i[] = { z, { }, }, j;",
        4,
    ),
    (
        "public protected private abstract static final native int[] m(final boolean[] a[][], final byte[] a[][], final short[] a[][], final char[] a[][], final int[] a[][], final long[] a[][]) throws E, p.F { ; }",
        3,
    ),
    ("void m();", 3),
    (
        "public protected private abstract static final native m(final boolean[] a[][], final byte[] a[][]) throws E, p.F { this(x, y); }",
        4,
    ),
    ("m() { super(x, y); }", 4),
    ("static { ; }", 3),
    ("{ return; }", 3),
    (";", 3),
];

/// Each text, between two others, reads as a tree of its depth, which is written out as the whole again.
fn check_all<R: Abort + AllocGlobal>(
    rt: &R,
    rows: &[(&str, usize)],
    before: &str,
    after: &str,
) -> Result<(), Fail> {
    for (text, depth) in rows {
        let whole = format!(in rt.alloc(); "{BEFORE}{before}{text}{after}{AFTER}")?;
        let unit = read(rt.alloc(), whole.as_str())?;
        check_unit(rt, &unit, whole.as_str(), true, *depth)?;
    }
    Ok(())
}

#[test]
fn trees_are_written_as_they_are_read(rt: HostRuntime) -> Result<(), Fail> {
    check_all(&rt, &EXPRESSIONS, "static { return ", "; }")?;
    check_all(&rt, &STATEMENTS, "static { ", " }")?;
    check_all(&rt, &MEMBERS, "", "")?;
    let unit = read(rt.alloc(), "class A { }")?;
    check_unit(&rt, &unit, "class A { }", true, 1)
}
