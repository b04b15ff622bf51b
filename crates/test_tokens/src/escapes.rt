// Escapes in comments (JLS 3.3): the first that is malformed, or stands for an end of a line, `*`, `/` or a backslash.
use jr_escapes::first_bad_escape;
use jr_lex::lex;
use std::alloc::Global;
use std::process::Abort;
use std::test::Fail;

/// The place of the first bad escape of a text that has tokens.
fn bad_escape(alloc: Global, text: &[u8]) -> Option<u32> {
    if text.len() > 1000 {
        return Some(1000);
    }
    match lex(alloc, text) {
        Ok(tokens) => first_bad_escape(text, &tokens),
        Err(_) => Some(1001),
    }
}

fn check_all<R: Abort + AllocGlobal>(rt: &R, rows: &[(&str, Option<u32>)]) -> Result<(), Fail> {
    for (text, expected) in rows {
        let found = bad_escape(rt.alloc(), text.as_bytes());
        assert_eq!(rt; found, *expected, "{text}");
    }
    Ok(())
}

#[test]
fn bad_escapes(rt: HostRuntime) -> Result<(), Fail> {
    check_all(
        &rt,
        &[
            ("int x = 1; // \\u000a x = 2;", Some(14)),
            ("// \\u000D", Some(3)),
            ("/* *\\u002f */ x", Some(4)),
            ("/* \\u002A/ */ x", Some(3)),
            ("// \\uuu000a", Some(3)),
            ("// \\u005c", Some(3)),
            ("// \\\\\\u000a", Some(5)),
            ("/* \\u00g1 */", Some(3)),
            ("// \\u00", Some(3)),
            ("x // \\u0041 \\u000a", Some(12)),
        ],
    )
}

#[test]
fn harmless_escapes(rt: HostRuntime) -> Result<(), Fail> {
    check_all(
        &rt,
        &[
            ("", None),
            ("// \\u0041 \\uu00e9 \\n \\", None),
            ("// \\\\u000a", None),
            ("/* \\\\u002f */ \"\\u0041\" // u000a", None),
        ],
    )
}
