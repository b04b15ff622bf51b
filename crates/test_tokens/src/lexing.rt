// Texts and their tokens, as the Java Language Specification has them.
use jr_base::{Kind, Token};
use jr_lex::{LexFault, lex};
use std::alloc::{AllocError, Global};
use std::fmt::Write;
use std::process::Abort;
use std::str;
use std::test::Fail;

/// The value of a token and its place. A word has `!` before it.
fn show(out: &mut String, token: &Token) -> Result<(), AllocError> {
    match &token.kind {
        Kind::Word(word) => write!(out, "!{}", word.text())?,
        Kind::Ident(name) => out.push_str(str::from_utf8(name.bytes()).unwrap_or("?"))?,
        Kind::Int(value) => write!(out, "{value}")?,
        Kind::IntMin => out.push_str("IntMin")?,
        Kind::Long(value) => write!(out, "{value}L")?,
        Kind::LongMin => out.push_str("LongMin")?,
        Kind::Char(unit) => write!(out, "'{unit}")?,
        Kind::Str(units) => {
            out.push_str("\"")?;
            for unit in units.units() {
                write!(out, " {unit}")?;
            }
        }
        Kind::Sym(symbol) => out.push_str(symbol.text())?,
    }
    let start = token.span.start;
    let end = token.span.end;
    write!(out, "@{start}-{end}")
}

fn shown(alloc: Global, bytes: &[u8]) -> Result<String, AllocError> {
    let mut out = String::new(alloc);
    if bytes.len() > 1000 {
        return Ok(out);
    }
    match lex(alloc, bytes) {
        Ok(tokens) => {
            for token in &tokens {
                if !out.is_empty() {
                    out.push_str(" ")?;
                }
                show(&mut out, token)?;
            }
        }
        Err(fault) => write!(out, "{fault:?}")?,
    }
    Ok(out)
}

fn check_all<R: Abort + AllocGlobal>(rt: &R, rows: &[(&str, &str)]) -> Result<(), Fail> {
    for (text, expected) in rows {
        let found = shown(rt.alloc(), text.as_bytes())?;
        assert_eq!(rt; found.as_str(), *expected);
    }
    Ok(())
}

#[test]
fn tokens_and_faults(rt: HostRuntime) -> Result<(), Fail> {
    check_all(
        &rt,
        &[
            ("a/*b*/+0x1F", "a@0-1 +@6-7 31@7-11"),
            ("", ""),
            ("\"a", "OpenLiteral(0)"),
            ("08", "BadNumber(0)"),
            ("#", "BadByte(0)"),
            ("/*", "OpenComment(0)"),
            ("'\\q'", "BadEscape(0)"),
        ],
    )?;
    assert_eq!(rt; shown(rt.alloc(), b"\xff")?.as_str(), "NotUtf8(0)");
    assert_eq!(rt; shown(rt.alloc(), b"# \xc3")?.as_str(), "NotUtf8(2)");
    Ok(())
}

#[test]
fn integers(rt: HostRuntime) -> Result<(), Fail> {
    check_all(
        &rt,
        &[
            ("0", "0@0-1"),
            ("00", "0@0-2"),
            ("2147483647", "2147483647@0-10"),
            ("2147483648", "IntMin@0-10"),
            ("2147483649", "BadNumber(0)"),
            ("0L", "0L@0-2"),
            ("9223372036854775807L", "9223372036854775807L@0-20"),
            ("9223372036854775808l", "LongMin@0-20"),
            ("9223372036854775809L", "BadNumber(0)"),
            ("9223372036854775808", "BadNumber(0)"),
            ("99999999999999999999L", "BadNumber(0)"),
            ("017", "15@0-3"),
            ("037777777777", "-1@0-12"),
            ("020000000000", "-2147483648@0-12"),
            ("040000000000", "BadNumber(0)"),
            ("0x7fffffff", "2147483647@0-10"),
            ("0x80000000", "-2147483648@0-10"),
            ("0XFFFFFFFF", "-1@0-10"),
            ("0x100000000", "BadNumber(0)"),
            ("0xFFFFFFFFFFFFFFFFl", "-1L@0-19"),
            ("0x10000000000000000L", "BadNumber(0)"),
            ("01777777777777777777777L", "-1L@0-24"),
            ("02000000000000000000000L", "BadNumber(0)"),
        ],
    )
}

#[test]
fn numbers_that_are_none(rt: HostRuntime) -> Result<(), Fail> {
    check_all(
        &rt,
        &[
            ("0x", "BadNumber(0)"),
            ("0xg", "BadNumber(0)"),
            ("1a", "BadNumber(0)"),
            ("1_0", "BadNumber(0)"),
            ("1.", "BadNumber(0)"),
            ("1.5", "BadNumber(0)"),
            (".5", "BadNumber(0)"),
            ("a.5", "BadNumber(1)"),
            ("1 .x", "1@0-1 .@2-3 x@3-4"),
            ("1\u{e9}", "BadNumber(0)"),
            ("L", "L@0-1"),
            ("1Lx", "BadNumber(0)"),
        ],
    )
}

#[test]
fn longest_symbols(rt: HostRuntime) -> Result<(), Fail> {
    check_all(
        &rt,
        &[
            (">>>=", ">>>=@0-4"),
            (">>>>=", ">>>@0-3 >=@3-5"),
            ("+++", "++@0-2 +@2-3"),
            ("a+++b", "a@0-1 ++@1-3 +@3-4 b@4-5"),
            ("<<=", "<<=@0-3"),
            ("<<<", "<<@0-2 <@2-3"),
            ("===", "==@0-2 =@2-3"),
            ("!==", "!=@0-2 =@2-3"),
            ("->", "-@0-1 >@1-2"),
            ("...", ".@0-1 .@1-2 .@2-3"),
            ("/=", "/=@0-2"),
            ("a/b", "a@0-1 /@1-2 b@2-3"),
            (
                "[]{}();,~?:",
                "[@0-1 ]@1-2 {@2-3 }@3-4 (@4-5 )@5-6 ;@6-7 ,@7-8 ~@8-9 ?@9-10 :@10-11",
            ),
            ("^=%=", "^=@0-2 %=@2-4"),
            ("@", "BadByte(0)"),
            ("a \\", "BadByte(2)"),
        ],
    )
}

#[test]
fn gaps_and_words(rt: HostRuntime) -> Result<(), Fail> {
    check_all(
        &rt,
        &[
            ("/**/", ""),
            ("/***/", ""),
            ("/*/*/", ""),
            ("/* /* */ */", "*@9-10 /@10-11"),
            ("// a\nb", "b@5-6"),
            ("// a\rb", "b@5-6"),
            ("// a\r\nb", "b@6-7"),
            ("//", ""),
            ("/*/", "OpenComment(0)"),
            ("a/*", "OpenComment(1)"),
            (" \t\x0c\r\na", "a@5-6"),
            ("\x0b", "BadByte(0)"),
            (
                "int x = 1;\r\nx++;",
                "!int@0-3 x@4-5 =@6-7 1@8-9 ;@9-10 x@12-13 ++@13-15 ;@15-16",
            ),
            ("abstract", "!abstract@0-8"),
            ("abstracts", "abstracts@0-9"),
            ("true false null", "!true@0-4 !false@5-10 !null@11-15"),
            ("_ $a1", "_@0-1 $a1@2-5"),
            ("\u{3bb}", "\u{3bb}@0-2"),
            ("\u{10400}x", "\u{10400}x@0-5"),
            ("goto1 goto", "goto1@0-5 !goto@6-10"),
        ],
    )
}

#[test]
fn characters(rt: HostRuntime) -> Result<(), Fail> {
    check_all(
        &rt,
        &[
            ("'a'", "'97@0-3"),
            ("'\\b'", "'8@0-4"),
            ("'\\0'", "'0@0-4"),
            ("'\\377'", "'255@0-6"),
            ("'\\400'", "OpenLiteral(0)"),
            ("'\\8'", "BadEscape(0)"),
            ("'\\u0041'", "'65@0-8"),
            ("'\\uuuu0041'", "'65@0-11"),
            ("'\\u004'", "BadEscape(0)"),
            ("'\\u000a'", "BadEscape(0)"),
            ("'\\u0027'", "BadEscape(0)"),
            ("'\\u005C'", "BadEscape(0)"),
            ("''", "OpenLiteral(0)"),
            ("'''", "OpenLiteral(0)"),
            ("'ab'", "OpenLiteral(0)"),
            ("'a", "OpenLiteral(0)"),
            ("'\n'", "OpenLiteral(0)"),
            ("'\"'", "'34@0-3"),
            ("'\u{e9}'", "'233@0-4"),
            ("'\u{ffff}'", "'65535@0-5"),
            ("'\u{10000}'", "OpenLiteral(0)"),
            ("'\\ud800'", "'55296@0-8"),
        ],
    )
}

#[test]
fn strings(rt: HostRuntime) -> Result<(), Fail> {
    check_all(
        &rt,
        &[
            ("\"\"", "\"@0-2"),
            ("\"ab\"", "\" 97 98@0-4"),
            (
                "\"\\b\\t\\n\\f\\r\\\"\\'\\\\\"",
                "\" 8 9 10 12 13 34 39 92@0-18",
            ),
            ("\"\\1234\"", "\" 83 52@0-7"),
            ("\"\\477\"", "\" 39 55@0-6"),
            ("\"\\08\"", "\" 0 56@0-5"),
            ("\"\u{1f600}\"", "\" 55357 56832@0-6"),
            ("\"a\nb\"", "OpenLiteral(0)"),
            ("\"a\rb\"", "OpenLiteral(0)"),
            ("\"\\\n\"", "BadEscape(0)"),
            ("\"\\", "BadEscape(0)"),
            ("\"a\\qb\n\"", "BadEscape(0)"),
            ("\"a\n\\q\"", "OpenLiteral(0)"),
            ("\"'\"", "\" 39@0-3"),
            ("1 \"\\u00e9\"+x", "1@0-1 \" 233@2-10 +@10-11 x@11-12"),
            ("\"\\u0022\"", "BadEscape(0)"),
            ("\"//\"", "\" 47 47@0-4"),
        ],
    )
}
