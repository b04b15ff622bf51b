// The words of a command.
ghost use Rattle.std.specs.Prelude.{◌≡◌};
ghost use Rattle.jr_request.specs.Words.{command_of, one_word, demo_of, two_words, run_of, place_word, place_command, place_of, place_and_name, range_and_name, offset_of, ReadsAs};

use crate::{Command, RequestFault};
use jr_base::{Request, Text, parse_number};
use std::alloc::Global;

// The most steps that `run` takes.
const MOST_STEPS: u32 = 10_000_000;

// The most classes that `demo` makes.
const MOST_CLASSES: u32 = 4_000;

/// The command of the words after the program's name, of which the first is the folder.
/// `BadWords` comes exactly where they are no command.
pub fn read_words(alloc: Global, words: &[Text]) -> Result<Command, RequestFault>
    ensures { ReadsAs result (command_of words.now) }
{
    match words {
        [_, command] => one_word(command.bytes()),
        [_, command, number] => demo(command.bytes(), number),
        [_, command, first, second] => two_words(alloc, command.bytes(), first, second),
        [_, command, file, at, name] => place_and_name(alloc, command.bytes(), file, at, name),
        [_, command, file, start, end, name] => {
            range_and_name(alloc, command.bytes(), file, start, end, name)
        }
        _ => Err(RequestFault::BadWords),
    }
}

fn offset(word: &Text) -> Result<u32, RequestFault>
    ensures { ReadsAs result (offset_of word.now) }
{
    match parse_number(word.bytes(), u32::MAX) {
        Some(at) => Ok(at),
        None => Err(RequestFault::BadWords),
    }
}

fn one_word(command: &[u8]) -> Result<Command, RequestFault>
    ensures { ReadsAs result (one_word command.now) }
{
    if command == b"batch".as_slice() {
        Ok(Command::Batch)
    } else if command == b"check".as_slice() {
        Ok(Command::Check)
    } else if command == b"undo".as_slice() {
        Ok(Command::Undo)
    } else {
        Err(RequestFault::BadWords)
    }
}

fn demo(command: &[u8], number: &Text) -> Result<Command, RequestFault>
    ensures { ReadsAs result (demo_of command.now number.now) }
{
    if command != b"demo".as_slice() {
        return Err(RequestFault::BadWords);
    }
    match parse_number(number.bytes(), MOST_CLASSES) {
        None | Some(0) => Err(RequestFault::BadWords),
        Some(classes) => Ok(Command::Demo(classes)),
    }
}

fn two_words(
    alloc: Global,
    command: &[u8],
    first: &Text,
    second: &Text,
) -> Result<Command, RequestFault>
    ensures { ReadsAs result (two_words command.now first.now second.now) }
{
    if command == b"run".as_slice() {
        run(alloc, first, second)
    } else if command == b"repackage".as_slice() {
        let old = first.copy(alloc)?;
        let new = second.copy(alloc)?;
        Ok(Command::One(Request::Repackage { old, new }))
    } else {
        place(alloc, command, first, second)
    }
}

fn run(alloc: Global, class: &Text, steps: &Text) -> Result<Command, RequestFault>
    ensures { ReadsAs result (run_of class.now steps.now) }
{
    match parse_number(steps.bytes(), MOST_STEPS) {
        None => Err(RequestFault::BadWords),
        Some(steps) => {
            let class = class.copy(alloc)?;
            Ok(Command::Run {
                class,
                steps: u64::from(steps),
            })
        }
    }
}

// The commands that take a file and an offset.
#[derive(Clone, Copy)]
enum PlaceWord {
    Inline,
    PullUp,
    Delete,
    Lift,
    Refs,
    Subtypes,
    Callers,
}

impl PlaceWord {
    fn of(command: &[u8]) -> Option<PlaceWord>
        ensures { result ≡ place_word command.now }
    {
        if command == b"inline".as_slice() {
            Some(PlaceWord::Inline)
        } else if command == b"pullup".as_slice() {
            Some(PlaceWord::PullUp)
        } else if command == b"delete".as_slice() {
            Some(PlaceWord::Delete)
        } else if command == b"lift".as_slice() {
            Some(PlaceWord::Lift)
        } else if command == b"refs".as_slice() {
            Some(PlaceWord::Refs)
        } else if command == b"subtypes".as_slice() {
            Some(PlaceWord::Subtypes)
        } else if command == b"callers".as_slice() {
            Some(PlaceWord::Callers)
        } else {
            None
        }
    }

    fn command(self, file: Text, at: u32) -> Command
        ensures { result ≡ place_command self file at }
    {
        match self {
            PlaceWord::Inline => Command::One(Request::Inline { file, at }),
            PlaceWord::PullUp => Command::One(Request::PullUp { file, at }),
            PlaceWord::Delete => Command::One(Request::Delete { file, at }),
            PlaceWord::Lift => Command::One(Request::Lift { file, at }),
            PlaceWord::Refs => Command::Refs { file, at },
            PlaceWord::Subtypes => Command::Subtypes { file, at },
            PlaceWord::Callers => Command::Callers { file, at },
        }
    }
}

fn place(alloc: Global, command: &[u8], file: &Text, at: &Text) -> Result<Command, RequestFault>
    ensures { ReadsAs result (place_of command.now file.now at.now) }
{
    match PlaceWord::of(command) {
        None => Err(RequestFault::BadWords),
        Some(word) => {
            let at = offset(at)?;
            let file = file.copy(alloc)?;
            Ok(word.command(file, at))
        }
    }
}

fn place_and_name(
    alloc: Global,
    command: &[u8],
    file: &Text,
    at: &Text,
    name: &Text,
) -> Result<Command, RequestFault>
    ensures { ReadsAs result (place_and_name command.now file.now at.now name.now) }
{
    if command == b"rename".as_slice() {
        let at = offset(at)?;
        let file = file.copy(alloc)?;
        let name = name.copy(alloc)?;
        Ok(Command::One(Request::Rename { file, at, name }))
    } else if command == b"move".as_slice() {
        let at = offset(at)?;
        let file = file.copy(alloc)?;
        let package = name.copy(alloc)?;
        Ok(Command::One(Request::Move { file, at, package }))
    } else {
        Err(RequestFault::BadWords)
    }
}

fn range_and_name(
    alloc: Global,
    command: &[u8],
    file: &Text,
    start: &Text,
    end: &Text,
    name: &Text,
) -> Result<Command, RequestFault>
    ensures { ReadsAs result (range_and_name command.now file.now start.now end.now name.now) }
{
    if command != b"extract".as_slice() {
        return Err(RequestFault::BadWords);
    }
    let start = offset(start)?;
    let end = offset(end)?;
    let file = file.copy(alloc)?;
    let name = name.copy(alloc)?;
    Ok(Command::One(Request::Extract {
        file,
        start,
        end,
        name,
    }))
}
