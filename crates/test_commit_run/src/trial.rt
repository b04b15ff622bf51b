// What the words ask for: recovery, and then a commit of many files.
ghost use Rattle.std.specs.Prelude.{◌≤◌};

use jr_base::{Files, OutOfMemory, Path, PathFault, Text, parse_number};
use jr_commit::{RecoverFault, Recovered, commit, recover};
use jr_store::Store;
use std::alloc::Global;
use test_store::plan_of;

/// What the program did.
#[derive(Drop)]
pub enum Answer {
    /// There was nothing to put back, and no change was asked for.
    Clean,
    /// Files were put back, and no change was asked for.
    RolledBack,
    /// The change is made.
    Done,
    BadWords,
    TooLarge,
    Failed,
    BadJournal,
    OutOfMemory,
}

impl Answer {
    /// The line that is printed.
    pub fn line(&self) -> &'static str {
        match self {
            Answer::Clean => "clean\n",
            Answer::RolledBack => "rolled back\n",
            Answer::Done => "done\n",
            Answer::BadWords => "bad words\n",
            Answer::TooLarge => "too large\n",
            Answer::Failed => "store fault\n",
            Answer::BadJournal => "bad journal\n",
            Answer::OutOfMemory => "out of memory\n",
        }
    }
}

// The path of a file by its number.
fn path(alloc: Global, number: u32) -> Result<Path, OutOfMemory> {
    let name = format!(in alloc; "f/F{number}.java")?;
    match Path::parse(alloc, name.as_bytes()) {
        Ok(path) => Ok(path),
        Err(_) => Err(OutOfMemory),
    }
}

// So many files that hold the text; none where the text is `-`.
fn files_of(alloc: Global, count: u32, text: &[u8]) -> Result<Files, OutOfMemory>
    requires { count ≤ 4096 }
{
    let mut files = Files::new(alloc);
    if text == b"-".as_slice() {
        return Ok(files);
    }
    for number in 10_000..10_000 + count {
        files.insert(path(alloc, number)?, text.to_vec(alloc)?)?;
    }
    Ok(files)
}

// Commits the change of so many files from one text to another.
fn change<S: Store>(
    alloc: Global,
    count: u32,
    old: &Text,
    new: &Text,
    store: &mut S,
) -> Result<Answer, OutOfMemory>
    requires { count ≤ 4096 }
{
    let old = files_of(alloc, count, old.bytes())?;
    let new = files_of(alloc, count, new.bytes())?;
    let Some(plan) = plan_of(alloc, &old, &new)? else {
        return Ok(Answer::TooLarge);
    };
    match commit(store, &plan) {
        Ok(()) => Ok(Answer::Done),
        Err(_) => Ok(Answer::Failed),
    }
}

/// Puts back what an earlier run left half done. Then, where the words are COUNT OLD NEW, changes the files `f/F10000.java`
/// and on, so many of them, from the bytes OLD to the bytes NEW, where `-` stands for no files.
pub fn act<S: Store>(alloc: Global, words: &[Text], store: &mut S) -> Result<Answer, OutOfMemory> {
    let recovered = match recover(alloc, store) {
        Ok(Recovered::Clean) => Answer::Clean,
        Ok(Recovered::RolledBack(_)) => Answer::RolledBack,
        Err(RecoverFault::Failed) => return Ok(Answer::Failed),
        Err(RecoverFault::BadJournal) => return Ok(Answer::BadJournal),
        Err(RecoverFault::OutOfMemory) => return Err(OutOfMemory),
    };
    match words {
        [] => Ok(recovered),
        [count, old, new] => match parse_number(count.bytes(), 4096) {
            Some(count) => change(alloc, count, old, new, store),
            None => Ok(Answer::BadWords),
        },
        _ => Ok(Answer::BadWords),
    }
}
