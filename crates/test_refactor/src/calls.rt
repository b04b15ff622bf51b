// Calls, and what they come to.
use crate::files::{are_left, store_of};
use jr_base::{OutOfMemory, Text};
use jr_store::{MemSink, MemSource, MemStore, Sink, Source, Store};
use jr_top::refactor;
use std::alloc::Global;

fn words_of(alloc: Global, line: &str) -> Result<Vec<Text>, OutOfMemory> {
    let mut words = Vec::new(alloc);
    for word in line.split(' ') {
        words.push(Text::new(word.as_bytes().to_vec(alloc)?))?;
    }
    Ok(words)
}

/// An input of this text. The read with this number fails, counted from 1; none does where it is 0.
pub fn source_of(alloc: Global, text: &str, failing: u64) -> Result<MemSource, OutOfMemory> {
    let failing = [failing].as_slice().to_vec(alloc)?;
    Ok(MemSource::new(text.as_bytes().to_vec(alloc)?, failing))
}

// The contract of the call is read here alone, where a store, an input and an output have no parts.
fn number_of<S: Store, I: Source, O: Sink>(
    alloc: Global,
    words: &[Text],
    store: &mut S,
    input: &mut I,
    out: &mut O,
) -> u8 {
    refactor(alloc, words, store, input, out).number()
}

fn says(
    alloc: Global,
    words: &[Text],
    store: &mut MemStore,
    input: &mut MemSource,
    out: &mut MemSink,
    number: u8,
    line: &str,
) -> bool {
    number_of(alloc, words, store, input, out) == number && out.bytes() == line.as_bytes()
}

fn says_to(
    alloc: Global,
    words: &str,
    store: &mut MemStore,
    input: &mut MemSource,
    out: &mut MemSink,
    number: u8,
    line: &str,
) -> Result<bool, OutOfMemory> {
    let words = words_of(alloc, words)?;
    Ok(says(alloc, &words, store, input, out, number, line))
}

/// Whether the words and the input get this number and this line. The write of the line with this number fails, counted from 1; none does where it is 0.
pub fn answers_with(
    alloc: Global,
    store: &mut MemStore,
    words: &str,
    input: &mut MemSource,
    failing: u64,
    number: u8,
    line: &str,
) -> Result<bool, OutOfMemory> {
    let failing = [failing].as_slice().to_vec(alloc)?;
    let mut out = MemSink::new(alloc, failing)?;
    says_to(alloc, words, store, input, &mut out, number, line)
}

/// Whether the words get this number and this line, with this text as input.
pub fn answers(
    alloc: Global,
    store: &mut MemStore,
    words: &str,
    input: &str,
    number: u8,
    line: &str,
) -> Result<bool, OutOfMemory> {
    let mut input = source_of(alloc, input, 0)?;
    answers_with(alloc, store, words, &mut input, 0, number, line)
}

/// Whether the words get this number and this line, with this text as input, and these texts are left. The empty text stands for no file.
pub fn gives(
    alloc: Global,
    store: &mut MemStore,
    words: &str,
    input: &str,
    number: u8,
    line: &str,
    left: &[(&str, &str)],
) -> Result<bool, OutOfMemory> {
    Ok(answers(alloc, store, words, input, number, line)? && are_left(alloc, store, left)?)
}

/// The same in a store with these paths and texts, of which no call fails.
pub fn comes_to(
    alloc: Global,
    texts: &[(&str, &str)],
    words: &str,
    input: &str,
    number: u8,
    line: &str,
    left: &[(&str, &str)],
) -> Result<bool, OutOfMemory> {
    let mut store = store_of(alloc, texts, 0)?;
    gives(alloc, &mut store, words, input, number, line, left)
}

/// Whether the next call finds one file that compiles.
pub fn recovers(alloc: Global, store: &mut MemStore) -> Result<bool, OutOfMemory> {
    answers(alloc, store, ". check", "", 0, "ok, files: 1\n")
}
