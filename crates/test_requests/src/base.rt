// Values from outside: JLS 3.8 and 3.9 for identifiers, and the shape of a path below a folder.
use jr_base::{
    Boxed, Copied, Files, Items, Kind, Path, PathFault, Request, Span, Text, Token, Units,
    is_identifier,
};
use std::alloc::Global;
use std::test::Fail;

fn fault_of(alloc: Global, bytes: &[u8]) -> Option<PathFault> {
    match Path::parse(alloc, bytes) {
        Ok(_) => None,
        Err(fault) => Some(fault),
    }
}

#[test]
fn paths_are_told_from_other_bytes(rt: HostRuntime) {
    for (bytes, fault) in [
        (b"a/B.java".as_slice(), None),
        (b"a/.b/..c/d...".as_slice(), None),
        (b"".as_slice(), Some(PathFault::Empty)),
        (b"/a".as_slice(), Some(PathFault::Absolute)),
        (b"a//b".as_slice(), Some(PathFault::DotPart)),
        (b"a/../b".as_slice(), Some(PathFault::DotPart)),
        (b".".as_slice(), Some(PathFault::DotPart)),
        (b"a/".as_slice(), Some(PathFault::DotPart)),
        (b"\xff".as_slice(), Some(PathFault::NotText)),
        (b"a\0".as_slice(), Some(PathFault::NotText)),
    ] {
        assert_eq!(rt; fault_of(rt.alloc(), bytes), fault);
    }
}

#[test]
fn identifiers_are_told_from_other_bytes(rt: HostRuntime) {
    for (bytes, answer) in [
        (b"a".as_slice(), true),
        (b"int".as_slice(), false),
        (b"true".as_slice(), false),
        (b"$x".as_slice(), true),
        (b"_1".as_slice(), true),
        (b"1a".as_slice(), false),
        (b"".as_slice(), false),
        ("\u{3bb}\u{3cc}\u{3b3}\u{3bf}\u{3c2}".as_bytes(), true),
        ("\u{1d400}".as_bytes(), true),
        (b"a-b".as_slice(), false),
        (b"\xff".as_slice(), false),
    ] {
        assert_eq!(rt; is_identifier(bytes), answer);
    }
}

#[test]
fn a_copy_of_a_request_is_equal(rt: HostRuntime) -> Result<(), Fail> {
    let file = Text::new(b"A.java".to_vec(rt.alloc())?);
    let name = Text::new(b"b".to_vec(rt.alloc())?);
    let request = Request::Rename { file, at: 27, name };
    let copy = request.copy(rt.alloc())?;
    match &copy {
        Request::Rename { file, at, name } => {
            assert_eq!(rt; file.bytes(), b"A.java".as_slice());
            assert_eq!(rt; *at, 27);
            assert_eq!(rt; name.bytes(), b"b".as_slice());
        }
        _ => assert!(rt; false),
    }
    Ok(())
}

#[test]
fn copies_of_lists_are_equal(rt: HostRuntime) -> Result<(), Fail> {
    let units = Units::new(vec![in rt.alloc(); 97, 98]?);
    let mut tokens = Items::new(rt.alloc());
    tokens.push(Token {
        kind: Kind::Str(units),
        span: Span { start: 1, end: 5 },
    })?;
    let copy = Some(Boxed::new(rt.alloc(), tokens)?).copy(rt.alloc())?;
    let mut found = 0;
    for boxed in &copy {
        for token in boxed.get().as_slice() {
            assert_eq!(rt; token.span, Span { start: 1, end: 5 });
            assert!(rt;
                matches!(&token.kind, Kind::Str(units) if units.units() == [97, 98].as_slice())
            );
            found = 1;
        }
    }
    assert_eq!(rt; found, 1);
    Ok(())
}

fn two_files(alloc: Global) -> Result<Files, Fail> {
    let mut files = Files::new(alloc);
    files.insert(Path::parse(alloc, b"b.java")?, b"2".to_vec(alloc)?)?;
    files.insert(Path::parse(alloc, b"a.java")?, b"1".to_vec(alloc)?)?;
    Ok(files)
}

#[test]
fn files_rise(rt: HostRuntime) -> Result<(), Fail> {
    let copy = two_files(rt.alloc())?.copy(rt.alloc())?;
    let mut paths = Vec::new(rt.alloc());
    for (path, _) in copy.entries() {
        paths.extend_from_slice(path.bytes())?;
    }
    assert_eq!(rt; paths.as_slice(), b"a.javab.java".as_slice());
    Ok(())
}
