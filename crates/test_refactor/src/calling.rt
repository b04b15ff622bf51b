// Calls on files in memory, and what they come to.
use crate::calls::comes_to;
use jr_base::OutOfMemory;
use std::alloc::Global;

// Whether the words get this number and this line on one file, and leave this text in it.
fn gives(
    alloc: Global,
    text: &str,
    words: &str,
    number: u8,
    line: &str,
    left: &str,
) -> Result<bool, OutOfMemory> {
    comes_to(
        alloc,
        &[("A.java", text)],
        words,
        "",
        number,
        line,
        &[("A.java", left)],
    )
}

/// Whether the words change one file so.
pub fn changes(alloc: Global, text: &str, words: &str, left: &str) -> Result<bool, OutOfMemory> {
    gives(alloc, text, words, 0, "done, files changed: 1\n", left)
}

/// Whether the words get this number and this line on one file, and leave it.
pub fn leaves_it(
    alloc: Global,
    text: &str,
    words: &str,
    number: u8,
    line: &str,
) -> Result<bool, OutOfMemory> {
    gives(alloc, text, words, number, line, text)
}

/// Whether each of these words gets this number and this line on one file, which is left.
pub fn all_leave_it(
    alloc: Global,
    text: &str,
    cases: &[(&str, u8, &str)],
) -> Result<bool, OutOfMemory> {
    for (words, number, line) in cases {
        if !leaves_it(alloc, text, *words, *number, *line)? {
            return Ok(false);
        }
    }
    Ok(true)
}

/// Whether the words get this number and this line on these files, and leave those. The empty text stands for no file.
pub fn leaves(
    alloc: Global,
    texts: &[(&str, &str)],
    words: &str,
    number: u8,
    line: &str,
    left: &[(&str, &str)],
) -> Result<bool, OutOfMemory> {
    comes_to(alloc, texts, words, "", number, line, left)
}
