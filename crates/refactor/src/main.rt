//! Changes a folder of Java source, keeping what each name refers to.
#![tactic(auto)]

use jr_base::{OutOfMemory, Text};
use jr_store::{FolderStore, Sink, Source, StdSink, StdSource, Store};
use jr_top::refactor;
use std::alloc::Global;
use std::process::ExitCode;
use std::rt::Env;
use std::{env, io};

const HELP: &str = "\
refactor DIR COMMAND ..: changes the Java source below the folder DIR, keeping what each name refers to

  rename FILE OFFSET NAME   gives what is declared or named at the byte offset of the file another name
  move FILE OFFSET PACKAGE  moves the type at the byte offset of the file to the package, `-` for the unnamed one
  extract FILE FROM TO NAME puts the statements between the byte offsets of the file into a method of that name
  inline FILE OFFSET        replaces the uses of the local at the byte offset of the file by its initializer
  pullup FILE OFFSET        puts the method at the byte offset of the file into the superclass
  delete FILE OFFSET        removes the method, type or field at the byte offset of the file, where nothing uses it
  repackage OLD NEW         gives all files of a package another package
  lift FILE OFFSET          makes the member type at the byte offset of the file a type of a file of its own
  check                     says whether the files compile, and if not, why and where
  undo                      takes the last change back, where no file of it was edited since
  batch                     does renames, moves, extractions, inlinings and pull ups, read as JSON from standard input,
                            one after the other, all or none
  run CLASS STEPS           runs the main method of the class for so many steps of the reference machine
  refs FILE OFFSET          lists the references to what is declared or named at the byte offset of the file
  subtypes FILE OFFSET      lists the types below the one at the byte offset of the file
  callers FILE OFFSET       lists what may call the method at the byte offset of the file
  demo COUNT                renames, moves and extracts in a workspace of so many classes in memory

Each answer but that of a run or report is one line on standard output, and a status: 0 done, 1 bad words, 2 bad request, 3 not compiling,
4 no spelling, 5 lost edge, 6 broken rule, 7 store fault, 8 input fault, 9 too large, 10 out of memory, 11 bad journal,
12 no undo, 13 still used, 14 output fault, 21 differs.
A run that was stopped while it wrote is first undone, by the files .refactor-gate and .refactor-journal.
";

const VERSION: &str = "refactor 0.1.0\n";

// The words after the program's name. Where the system gives no text, there are none.
fn arguments<R: Env + Alloc>(rt: &R, alloc: Global) -> Result<Vec<Text>, OutOfMemory> {
    let mut words = Vec::new(alloc);
    if let Ok(args) = env::args(rt) {
        for word in args.skip(1) {
            words.push(Text::new(word.as_bytes().to_vec(alloc)?))?;
        }
    }
    Ok(words)
}

fn folder(alloc: Global, words: &[Text]) -> Result<Text, OutOfMemory> {
    match words {
        [dir, ..] => dir.copy(alloc),
        [] => Ok(Text::new(b".".to_vec(alloc)?)),
    }
}

// What `--help` or `--version` alone asks for.
fn information(words: &[Text]) -> Option<&'static str> {
    match words {
        [word] if word.bytes() == b"--help".as_slice() => Some(HELP),
        [word] if word.bytes() == b"--version".as_slice() => Some(VERSION),
        _ => None,
    }
}

fn inform(rt: &HostRuntime, text: &str) -> u8 {
    match rt.print(text) {
        Ok(()) => 0,
        Err(_) => 14,
    }
}

// The contract of the call is read here alone, where a store, an input and an output have no parts.
fn number_of<S: Store, I: Source, O: Sink>(
    alloc: Global,
    words: &[Text],
    store: &mut S,
    input: &mut I,
    out: &mut O,
) -> u8 {
    refactor(alloc, words, store, input, out).number()
}

fn on_store<S: Store>(rt: &HostRuntime, alloc: Global, words: &[Text], store: &mut S) -> u8 {
    let mut input = StdSource::new(rt.stdin());
    let mut out = StdSink::new(io::writer(rt));
    number_of(alloc, words, store, &mut input, &mut out)
}

fn in_folder(rt: &HostRuntime, alloc: Global, words: &[Text]) -> Result<u8, OutOfMemory> {
    let mut store = FolderStore::new(rt, alloc, folder(alloc, words)?)?;
    Ok(on_store(rt, alloc, words, &mut store))
}

fn run(rt: &HostRuntime, alloc: Global) -> Result<u8, OutOfMemory> {
    let words = arguments(rt, alloc)?;
    match information(&words) {
        Some(text) => Ok(inform(rt, text)),
        None => in_folder(rt, alloc, &words),
    }
}

fn main(rt: HostRuntime) -> ExitCode {
    // Where memory is refused before the call, the status is its number, and there is no line.
    let number = run(&rt, rt.alloc()).unwrap_or(10);
    ExitCode::from(number)
}
