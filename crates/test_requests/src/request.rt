use jr_base::{Request, Text};
use jr_request::{Command, RequestFault, read_batch, read_words};
use std::alloc::Global;
use std::test::Fail;

// What the bytes are expected to say: so many requests, no JSON, or an element and a field to blame.
#[derive(Clone, Copy)]
enum Said {
    Requests(usize),
    NoJson,
    Field(u32, &'static str),
}

fn fits(outcome: &Result<Vec<Request>, RequestFault>, said: Said) -> bool {
    match outcome {
        Ok(requests) => matches!(said, Said::Requests(count) if count == requests.len()),
        Err(RequestFault::BadJson) => matches!(said, Said::NoJson),
        Err(RequestFault::BadField { request, field }) => match said {
            Said::Field(number, key) => *request == number && field.bytes() == key.as_bytes(),
            _ => false,
        },
        Err(_) => false,
    }
}

const BATCHES: [(&str, Said); 66] = [
    (r#"[]"#, Said::Requests(0)),
    (r#" [ ] "#, Said::Requests(0)),
    (
        r#"[{"do":"rename","file":"A.java","at":27,"name":"b"}]"#,
        Said::Requests(1),
    ),
    (
        r#"[{"name":"b","at":27,"file":"A.java","do":"rename"}]"#,
        Said::Requests(1),
    ),
    (
        r#"[{"do":"move","file":"A.java","at":6,"package":"p.q"}]"#,
        Said::Requests(1),
    ),
    (
        r#"[{"do":"extract","file":"A.java","from":1,"to":2,"name":"m"}]"#,
        Said::Requests(1),
    ),
    (
        r#"[{"do":"inline","file":"A.java","at":0},{"do":"pullup","file":"A.java","at":9}]"#,
        Said::Requests(2),
    ),
    (
        r#"[{"do":"inline","file":"","at":4294967295}]"#,
        Said::Requests(1),
    ),
    (
        r#"[{"do":"rename","do":"inline","file":"A.java","at":0}]"#,
        Said::Requests(1),
    ),
    (
        r#"[{"do":"inline","file":1,"file":"A.java","at":0}]"#,
        Said::Requests(1),
    ),
    (
        r#"[{"do":"inline","file":"A.java","at":0,"at":"0"}]"#,
        Said::Field(1, "at"),
    ),
    (
        r#"[{"d\u006f":"inline","file":"A.java","at":0}]"#,
        Said::Requests(1),
    ),
    (r#"{"#, Said::NoJson),
    (r#""#, Said::NoJson),
    (r#"[}"#, Said::NoJson),
    (r#"[] []"#, Said::NoJson),
    (r#"[{"do":"inline","file":"A.java","at":0},]"#, Said::NoJson),
    (r#"[{"do":"inline","file":"A.java","at":0,}]"#, Said::NoJson),
    (r#"[{"do":"inline","file":"A.java","at":01}]"#, Said::NoJson),
    (r#"[{"do":"inline","file":"A.java","at":+1}]"#, Said::NoJson),
    (r#"[{do:"inline"}]"#, Said::NoJson),
    (r#"['a']"#, Said::NoJson),
    (r#"[1,2"#, Said::NoJson),
    (r#"[1e999]"#, Said::NoJson),
    ("\u{feff}[]", Said::NoJson),
    (r#"{}"#, Said::Field(0, "do")),
    (r#"null"#, Said::Field(0, "do")),
    (r#"7"#, Said::Field(0, "do")),
    (r#""do""#, Said::Field(0, "do")),
    (
        r#"{"do":"inline","file":"A.java","at":0}"#,
        Said::Field(0, "do"),
    ),
    (r#"[7]"#, Said::Field(1, "do")),
    (r#"[[]]"#, Said::Field(1, "do")),
    (r#"[{}]"#, Said::Field(1, "do")),
    (r#"[{"file":"A.java","at":0}]"#, Said::Field(1, "do")),
    (r#"[{"do":1}]"#, Said::Field(1, "do")),
    (
        r#"[{"do":"Rename","file":"A.java","at":0,"name":"b"}]"#,
        Said::Field(1, "do"),
    ),
    (
        r#"[{"do":"delete","file":"A.java","at":0}]"#,
        Said::Field(1, "do"),
    ),
    (
        r#"[{"do":"lift","file":"A.java","at":0}]"#,
        Said::Field(1, "do"),
    ),
    (r#"[{"do":"undo"}]"#, Said::Field(1, "do")),
    (r#"[{"do":"inline"}]"#, Said::Field(1, "file")),
    (
        r#"[{"do":"rename","at":0,"name":"b"}]"#,
        Said::Field(1, "file"),
    ),
    (
        r#"[{"do":"rename","file":7,"at":0,"name":"b"}]"#,
        Said::Field(1, "file"),
    ),
    (r#"[{"do":"inline","file":"A.java"}]"#, Said::Field(1, "at")),
    (
        r#"[{"do":"inline","file":"A.java","at":1.0}]"#,
        Said::Field(1, "at"),
    ),
    (
        r#"[{"do":"inline","file":"A.java","at":-1}]"#,
        Said::Field(1, "at"),
    ),
    (
        r#"[{"do":"inline","file":"A.java","at":-0}]"#,
        Said::Field(1, "at"),
    ),
    (
        r#"[{"do":"inline","file":"A.java","at":1e2}]"#,
        Said::Field(1, "at"),
    ),
    (
        r#"[{"do":"inline","file":"A.java","at":4294967296}]"#,
        Said::Field(1, "at"),
    ),
    (
        r#"[{"do":"inline","file":"A.java","at":18446744073709551616}]"#,
        Said::Field(1, "at"),
    ),
    (
        r#"[{"do":"inline","file":"A.java","at":null}]"#,
        Said::Field(1, "at"),
    ),
    (
        r#"[{"do":"rename","file":"A.java","name":"b"}]"#,
        Said::Field(1, "at"),
    ),
    (
        r#"[{"do":"extract","file":"A.java","at":0,"name":"b"}]"#,
        Said::Field(1, "from"),
    ),
    (
        r#"[{"do":"extract","file":"A.java","from":"0","to":1,"name":"b"}]"#,
        Said::Field(1, "from"),
    ),
    (
        r#"[{"do":"extract","file":"A.java","from":0,"name":"b"}]"#,
        Said::Field(1, "to"),
    ),
    (
        r#"[{"do":"extract","file":"A.java","from":0,"to":1}]"#,
        Said::Field(1, "name"),
    ),
    (
        r#"[{"do":"rename","file":"A.java","at":0}]"#,
        Said::Field(1, "name"),
    ),
    (
        r#"[{"do":"rename","file":"A.java","at":0,"name":null}]"#,
        Said::Field(1, "name"),
    ),
    (
        r#"[{"do":"move","file":"A.java","at":0,"name":"b"}]"#,
        Said::Field(1, "package"),
    ),
    (
        r#"[{"do":"move","file":"A.java","at":0,"package":["p"]}]"#,
        Said::Field(1, "package"),
    ),
    (
        r#"[{"do":"inline","file":"A.java","at":0,"name":"b"}]"#,
        Said::Field(1, "name"),
    ),
    (
        r#"[{"do":"inline","file":"A.java","at":0,"z":1,"to":2,"b":3}]"#,
        Said::Field(1, "b"),
    ),
    (
        r#"[{"do":"inline","file":"A.java","at":0,"b":3,"Z":1}]"#,
        Said::Field(1, "Z"),
    ),
    (
        r#"[{"do":"inline","file":"A.java","at":0,"ab":1,"":2,"a":3}]"#,
        Said::Field(1, ""),
    ),
    (
        r#"[{"do":"inline","file":"A.java","a":1}]"#,
        Said::Field(1, "at"),
    ),
    (
        r#"[{"do":"inline","file":"A.java","at":0},{"do":"inline","file":"A.java"}]"#,
        Said::Field(2, "at"),
    ),
    (
        r#"[{"do":"inline","file":"A.java"},7]"#,
        Said::Field(1, "at"),
    ),
];

#[test]
fn batches(rt: HostRuntime) -> Result<(), Fail> {
    for (text, said) in BATCHES {
        let result = read_batch(rt.alloc(), text.as_bytes());
        assert!(rt; fits(&result, said), "{text}");
    }
    Ok(())
}

// So many arrays, each in the one before.
fn nested(alloc: Global, depth: usize) -> Result<Vec<u8>, Fail> {
    let mut bytes = vec![in alloc; b'['; depth]?;
    for _ in 0..depth {
        bytes.push(b']')?;
    }
    Ok(bytes)
}

#[test]
fn nesting_ends_at_127(rt: HostRuntime) -> Result<(), Fail> {
    let deep = nested(rt.alloc(), 127)?;
    assert!(rt; fits(&read_batch(rt.alloc(), &deep), Said::Field(1, "do")));
    let too_deep = nested(rt.alloc(), 128)?;
    assert!(rt; fits(&read_batch(rt.alloc(), &too_deep), Said::NoJson));
    assert!(rt; fits(&read_batch(rt.alloc(), b"[\"\xff\"]"), Said::NoJson));
    Ok(())
}

#[test]
fn a_batch_of_each_kind(rt: HostRuntime) -> Result<(), Fail> {
    let text =
        r#"[{"do":"rename","file":"A","at":1,"name":"b"},{"do":"extract","file":"B","from":2,"to":3,"name":"m"},{"do":"move","file":"C","at":4,"package":"p"}]"#;
    let requests = read_batch(rt.alloc(), text.as_bytes())?;
    let ok = match requests.as_slice() {
        [
            Request::Rename { file, at: 1, name },
            Request::Extract {
                file: second,
                start: 2,
                end: 3,
                name: method,
            },
            Request::Move {
                file: third,
                at: 4,
                package,
            },
        ] => {
            file.bytes() == b"A".as_slice()
                && name.bytes() == b"b".as_slice()
                && second.bytes() == b"B".as_slice()
                && method.bytes() == b"m".as_slice()
                && third.bytes() == b"C".as_slice()
                && package.bytes() == b"p".as_slice()
        }
        _ => false,
    };
    assert!(rt; ok);
    Ok(())
}

// What the words are expected to be.
#[derive(Clone, Copy, PartialEq, Eq)]
enum Kind {
    Bad,
    One,
    Batch,
    Check,
    Run(u64),
    Demo(u32),
    Undo,
    Refs(u32),
    Subtypes(u32),
    Callers(u32),
}

fn kind_of(outcome: &Result<Command, RequestFault>) -> Option<Kind> {
    match outcome {
        Ok(Command::One(_)) => Some(Kind::One),
        Ok(Command::Batch) => Some(Kind::Batch),
        Ok(Command::Check) => Some(Kind::Check),
        Ok(Command::Run { steps, .. }) => Some(Kind::Run(*steps)),
        Ok(Command::Demo(count)) => Some(Kind::Demo(*count)),
        Ok(Command::Undo) => Some(Kind::Undo),
        Ok(Command::Refs { at, .. }) => Some(Kind::Refs(*at)),
        Ok(Command::Subtypes { at, .. }) => Some(Kind::Subtypes(*at)),
        Ok(Command::Callers { at, .. }) => Some(Kind::Callers(*at)),
        Err(RequestFault::BadWords) => Some(Kind::Bad),
        Err(_) => None,
    }
}

const LINES: [(&str, Kind); 40] = [
    ("", Kind::Bad),
    (".", Kind::Bad),
    (". rename A.java 27 b", Kind::One),
    (". rename A.java x b", Kind::Bad),
    (". rename A.java 27", Kind::Bad),
    (". rename A.java 27 b c", Kind::Bad),
    ("rename A.java 27 b", Kind::Bad),
    (". rename A.java 4294967295 b", Kind::One),
    (". rename A.java 4294967296 b", Kind::Bad),
    (". rename A.java -1 b", Kind::Bad),
    (". rename A.java +1 b", Kind::Bad),
    (". rename A.java 007 b", Kind::One),
    (". move A.java 6 p.q", Kind::One),
    (". extract A.java 1 2 m", Kind::One),
    (". extract A.java 1 m", Kind::Bad),
    (". inline A.java 3", Kind::One),
    (". pullup A.java 3", Kind::One),
    (". pullup A.java", Kind::Bad),
    (". batch", Kind::Batch),
    (". batch x", Kind::Bad),
    (". check", Kind::Check),
    (". Check", Kind::Bad),
    (". run A 10000000", Kind::Run(10_000_000)),
    (". run A 10000001", Kind::Bad),
    (". run A 0", Kind::Run(0)),
    (". run A", Kind::Bad),
    (". demo 1", Kind::Demo(1)),
    (". demo 4000", Kind::Demo(4_000)),
    (". demo 4001", Kind::Bad),
    (". demo 0", Kind::Bad),
    (". demo", Kind::Bad),
    (". undo", Kind::Undo),
    (". undo 1", Kind::Bad),
    (". refs A.java 5", Kind::Refs(5)),
    (". subtypes A.java 6", Kind::Subtypes(6)),
    (". callers A.java 7", Kind::Callers(7)),
    (". delete A.java 8", Kind::One),
    (". lift A.java 9", Kind::One),
    (". repackage p q", Kind::One),
    (". find A.java 9", Kind::Bad),
];

#[test]
fn words(rt: HostRuntime) -> Result<(), Fail> {
    for (line, kind) in LINES {
        let mut words = Vec::new(rt.alloc());
        for word in line.split_whitespace() {
            words.push(Text::new(word.as_bytes().to_vec(rt.alloc())?))?;
        }
        assert!(rt;
            kind_of(&read_words(rt.alloc(), &words)) == Some(kind),
            "{line}"
        );
    }
    Ok(())
}
