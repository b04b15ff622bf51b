// Batches of requests.
use crate::calls::comes_to;
use jr_base::OutOfMemory;
use std::alloc::Global;
use std::test::Fail;

const SHADOWED: &str = "class A { int x; int f(int y) { return x + y; } }";

// Whether the requests get this number and this line on one file, and leave this text in it.
fn gives(
    alloc: Global,
    text: &str,
    requests: &str,
    number: u8,
    line: &str,
    left: &str,
) -> Result<bool, OutOfMemory> {
    comes_to(
        alloc,
        &[("A.java", text)],
        ". batch",
        requests,
        number,
        line,
        &[("A.java", left)],
    )
}

// The second offset is one in the text that the first request leaves.
const TWO: &str = r#"[{"do":"rename","file":"A.java","at":27,"name":"x"},
    {"do":"rename","file":"A.java","at":14,"name":"width"}]"#;

#[test]
fn a_batch_is_done(rt: HostRuntime) -> Result<(), Fail> {
    let alloc = rt.alloc();
    let both = "class A { int width; int f(int x) { return this.width + x; } }";
    assert!(rt; gives(alloc, SHADOWED, TWO, 0, "done, files changed: 1\n", both)?);
    assert!(rt;
        gives(
            alloc,
            SHADOWED,
            "[]",
            0,
            "done, files changed: 0\n",
            SHADOWED
        )?
    );
    let wrong = "class A { int }";
    let line = "not compiling: parse NoTree A.java:14\n";
    assert!(rt; gives(alloc, wrong, "[]", 3, line, wrong)?);
    Ok(())
}

const KEYWORD: &str = r#"[{"do":"rename","file":"A.java","at":27,"name":"z"},
    {"do":"rename","file":"A.java","at":14,"name":"int"}]"#;

const NO_LOCAL: &str = r#"[{"do":"rename","file":"A.java","at":27,"name":"z"},
    {"do":"inline","file":"A.java","at":14}]"#;

#[test]
fn a_batch_is_done_whole_or_not(rt: HostRuntime) -> Result<(), Fail> {
    let alloc = rt.alloc();
    let second = "request 2: bad request: 5\n";
    assert!(rt; gives(alloc, SHADOWED, KEYWORD, 2, second, SHADOWED)?);
    let kind = "request 2: bad request: 6\n";
    assert!(rt; gives(alloc, SHADOWED, NO_LOCAL, 2, kind, SHADOWED)?);
    Ok(())
}
