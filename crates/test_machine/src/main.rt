//! Runs cores that are given as numbers, for trials of the reference machine and of its cost.
//!
//! Each line is an instruction: its kind, in most kinds its form, and its arguments (`tools/machine/cores.py` has their names).
//! Code stands in postfix order: a line takes its operands off stacks and puts what it makes on one.
#![tactic(auto)]

mod codes;
mod line;
mod operators;
mod reader;
mod report;
mod stacks;

use line::numbers;
use reader::Reader;
use std::alloc::Global;
use std::io::{self, Read};
use std::process::ExitCode;

fn read(alloc: Global, reader: &mut Reader, text: &str) -> Option<()> {
    for text in text.lines() {
        let line = numbers(alloc, text)?;
        reader.read(alloc, line.as_slice())?;
    }
    Some(())
}

/// What each run printed, and how it ended; nothing, where memory is short or the text is no core.
fn reports(alloc: Global, text: &str) -> Option<String> {
    let mut reader = Reader::new(alloc);
    match read(alloc, &mut reader, text) {
        Some(()) => Some(reader.into_report()),
        None => {
            drop(reader);
            None
        }
    }
}

fn main(rt: HostRuntime) -> ExitCode {
    let alloc = rt.alloc();
    let Ok(text) = io::read_to_string(alloc, rt.reader()) else {
        return ExitCode::from(8);
    };
    match reports(alloc, text.as_str()) {
        None => ExitCode::from(1),
        Some(lines) => match rt.print(lines.as_str()) {
            Ok(()) => ExitCode::from(0),
            Err(_) => ExitCode::from(14),
        },
    }
}
