// What a run came to.

use jr_base::DeclId;
use jr_machine_defs::{Ran, RunEnd};
use std::fmt::Write;

/// Adds 16-bit units as characters.
fn add_units(lines: &mut String, units: &[u16]) -> Option<()> {
    for unit in units {
        let character = char::from_u32(u32::from(*unit)).unwrap_or('?');
        if lines.push(character).is_err() {
            return None;
        }
    }
    Some(())
}

fn add_word(lines: &mut String, word: &str) -> Option<()> {
    writeln!(lines, "== {word}").ok()
}

fn add_decl(lines: &mut String, word: &str, decl: DeclId) -> Option<()> {
    let unit = decl.at.cu.0;
    let node = decl.at.node.0;
    writeln!(lines, "== {word} {unit}:{node}").ok()
}

fn add_end(lines: &mut String, end: RunEnd) -> Option<()> {
    match end {
        RunEnd::Running => add_word(lines, "running"),
        RunEnd::Ended => add_word(lines, "ended"),
        RunEnd::Uncaught(class) => add_decl(lines, "uncaught", class.0),
        RunEnd::InitFailed(class) => add_decl(lines, "initialization failed", class.0),
        RunEnd::Native(method) => add_decl(lines, "native", method),
    }
}

/// Adds the name of a run.
pub fn report_name(lines: &mut String, name: &[u16]) -> Option<()> {
    lines.push_str("== ").ok()?;
    add_units(lines, name)?;
    lines.push('\n').ok()
}

/// Adds what a run printed and how it ended.
pub fn report(lines: &mut String, ran: &Ran) -> Option<()> {
    add_units(lines, ran.printed.units())?;
    add_end(lines, ran.end)
}
