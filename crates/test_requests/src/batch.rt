// The batches of inputs in memory.
use jr_base::{Request, Size};
use jr_request::{BatchFault, read_requests};
use jr_store::MemSource;
use std::alloc::Global;
use std::process::Abort;
use std::test::Fail;

// What an input is expected to come to.
#[derive(Clone, Copy)]
enum Said {
    Requests(usize),
    NoJson,
    Field(u32, &'static str),
    TooLarge(Size),
    Fault,
}

fn fits(outcome: &Result<Vec<Request>, BatchFault>, said: Said) -> bool {
    match outcome {
        Ok(requests) => matches!(said, Said::Requests(count) if count == requests.len()),
        Err(
            BatchFault::Refused {
                element: 0,
                field: None,
            },
        ) => matches!(said, Said::NoJson),
        Err(
            BatchFault::Refused {
                element,
                field: Some(field),
            },
        ) => match said {
            Said::Field(number, key) => *element == number && field.bytes() == key.as_bytes(),
            _ => false,
        },
        Err(BatchFault::TooLarge(size)) => matches!(said, Said::TooLarge(what) if what == *size),
        Err(BatchFault::SourceFault) => matches!(said, Said::Fault),
        Err(_) => false,
    }
}

// Reads the requests of these bytes. The read with this number fails, or none where it is 0.
fn expect(
    rt: &impl Abort,
    alloc: Global,
    bytes: Vec<u8>,
    fails: u64,
    said: Said,
) -> Result<(), Fail> {
    let mut failing = Vec::new(alloc);
    if fails > 0 {
        failing.push(fails)?;
    }
    let mut input = MemSource::new(bytes, failing);
    let outcome = read_requests(alloc, &mut input);
    assert!(rt; fits(&outcome, said));
    Ok(())
}

const ONE: &str = r#"[{"do":"inline","file":"A.java","at":7}]"#;

const ROWS: [(&str, u64, Said); 9] = [
    ("[]", 0, Said::Requests(0)),
    (ONE, 0, Said::Requests(1)),
    ("{", 0, Said::NoJson),
    ("", 0, Said::NoJson),
    ("{}", 0, Said::Field(0, "do")),
    (
        r#"[{"do":"inline","file":"A.java"}]"#,
        0,
        Said::Field(1, "at"),
    ),
    (ONE, 1, Said::Fault),
    (ONE, 2, Said::Fault),
    (ONE, 3, Said::Requests(1)),
];

#[test]
fn an_input_is_read_to_its_end(rt: HostRuntime) -> Result<(), Fail> {
    let alloc = rt.alloc();
    for (text, fails, said) in ROWS {
        expect(&rt, alloc, text.as_bytes().to_vec(alloc)?, fails, said)?;
    }
    Ok(())
}

// So many blanks, and then an empty batch.
fn padded(alloc: Global, blanks: usize) -> Result<Vec<u8>, Fail> {
    let mut bytes = vec![in alloc; b' '; blanks]?;
    bytes.extend_from_slice(b"[]")?;
    Ok(bytes)
}

#[test]
fn an_input_has_1048576_bytes_at_most(rt: HostRuntime) -> Result<(), Fail> {
    let alloc = rt.alloc();
    expect(&rt, alloc, padded(alloc, 1_048_574)?, 0, Said::Requests(0))?;
    expect(
        &rt,
        alloc,
        padded(alloc, 1_048_575)?,
        0,
        Said::TooLarge(Size::Input),
    )?;
    // 16 parts of 64 KiB, and one byte: what stands after it is not read.
    expect(
        &rt,
        alloc,
        padded(alloc, 2_000_000)?,
        18,
        Said::TooLarge(Size::Input),
    )?;
    expect(&rt, alloc, padded(alloc, 2_000_000)?, 17, Said::Fault)?;
    Ok(())
}

// So many requests, or elements that are none.
fn repeated(alloc: Global, element: &str, count: usize) -> Result<Vec<u8>, Fail> {
    let mut bytes = vec![in alloc; b'[']?;
    for _ in 1..count {
        bytes.extend_from_slice(element.as_bytes())?;
        bytes.push(b',')?;
    }
    bytes.extend_from_slice(element.as_bytes())?;
    bytes.push(b']')?;
    Ok(bytes)
}

#[test]
fn a_batch_has_1024_requests_at_most(rt: HostRuntime) -> Result<(), Fail> {
    let alloc = rt.alloc();
    let request = r#"{"do":"pullup","file":"A.java","at":0}"#;
    expect(
        &rt,
        alloc,
        repeated(alloc, request, 1_024)?,
        0,
        Said::Requests(1_024),
    )?;
    expect(
        &rt,
        alloc,
        repeated(alloc, request, 1_025)?,
        0,
        Said::TooLarge(Size::Requests),
    )?;
    // What the elements say is tested before their number.
    expect(
        &rt,
        alloc,
        repeated(alloc, "7", 1_025)?,
        0,
        Said::Field(1, "do"),
    )?;
    Ok(())
}
