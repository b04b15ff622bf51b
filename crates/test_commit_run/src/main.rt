//! Commits changes of many files, for trials of crashes and of cost.
#![tactic(auto)]

mod trial;

use jr_base::{OutOfMemory, Text};
use jr_store::FolderStore;
use std::alloc::Global;
use std::env;
use std::process::ExitCode;
use std::rt::Env;
use trial::{Answer, act};

// The words after the program's name. Where the system gives no text, there are none.
fn arguments<R: Env + Alloc>(rt: &R, alloc: Global) -> Result<Vec<Text>, OutOfMemory> {
    let mut words = Vec::new(alloc);
    if let Ok(args) = env::args(rt) {
        for word in args.skip(1) {
            words.push(Text::new(word.as_bytes().to_vec(alloc)?))?;
        }
    }
    Ok(words)
}

fn run(rt: &HostRuntime, alloc: Global) -> Result<Answer, OutOfMemory> {
    let words = arguments(rt, alloc)?;
    let [dir, rest @ ..] = words.as_slice() else {
        return Ok(Answer::BadWords);
    };
    let mut store = FolderStore::new(rt, alloc, dir.copy(alloc)?)?;
    act(alloc, rest, &mut store)
}

fn main(rt: HostRuntime) -> ExitCode {
    let answer = run(&rt, rt.alloc()).unwrap_or(Answer::OutOfMemory);
    let printed = rt.print(answer.line());
    match (answer, printed) {
        (_, Err(_)) => ExitCode::from(14),
        (Answer::Clean | Answer::RolledBack | Answer::Done, Ok(())) => ExitCode::from(0),
        (_, Ok(())) => ExitCode::from(1),
    }
}
