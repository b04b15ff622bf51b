//! Prints the rows of sources, to hold the parser against another.
//!
//! Each source on standard input ends with a zero byte. Its answer is one line for each row, with the number of the row round it, its
//! name (`-` where it has none) and its label, or one line that begins with `fault`. A line with a dot ends it.
#![tactic(auto)]

mod outline;

use jr_tree::Row;
use outline::{Outline, outline_of};
use std::alloc::Global;
use std::io::Read;
use std::process::ExitCode;
use std::{io, str};

fn print_rows(rt: &HostRuntime, rows: &[Row]) -> io::Result<()> {
    for row in rows {
        let name = match str::from_utf8(row.name.bytes()) {
            Ok("") | Err(_) => "-",
            Ok(name) => name,
        };
        println!(rt; "{} {} {:?}", row.parent, name, row.label)?;
    }
    Ok(())
}

fn print(rt: &HostRuntime, outline: &Outline) -> io::Result<()> {
    match outline {
        Outline::Rows(rows) => print_rows(rt, rows.as_slice())?,
        Outline::NoTokens => println!(rt; "fault of the lexer")?,
        Outline::NoTree(at) => println!(rt; "fault at token {}", at)?,
        Outline::TooDeep(at) => println!(rt; "fault of depth at token {}", at)?,
    }
    println!(rt; ".")
}

/// Whether all was printed.
#[derive(Clone, Copy)]
enum Ending {
    Whole,
    Broken,
}

fn run(rt: &HostRuntime, alloc: Global) -> io::Result<Ending> {
    let mut bytes = Vec::new(alloc);
    let mut input = rt.reader();
    input.read_to_end(&mut bytes)?;
    let mut rest = bytes.as_slice();
    while let Some(end) = rest.iter().position(|byte| *byte == 0) {
        let Ok(outline) = outline_of(alloc, &rest[..end]) else {
            return Ok(Ending::Broken);
        };
        print(rt, &outline)?;
        rest = &rest[end + 1..];
    }
    Ok(Ending::Whole)
}

fn main(rt: HostRuntime) -> ExitCode {
    match run(&rt, rt.alloc()) {
        Ok(Ending::Whole) => ExitCode::from(0),
        _ => ExitCode::from(1),
    }
}
