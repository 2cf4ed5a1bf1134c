//! The words of a command, and what is read of them.

use command_words::{Command, RunOptions, read_command};
use std::alloc::{AllocError, Global};

/// The options of a command that gives none.
const USUAL: RunOptions = RunOptions {
    chunk: 64,
    queue: 8,
    workers: 1,
    patience: 1_000,
    whole: false,
    stop_first: false,
};

/// Lines of words, and the commands that they are.
const COMMANDS: [(&str, Command<'static>); 12] = [
    ("--help", Command::Help),
    ("--version", Command::Version),
    ("plan p.json", Command::Plan { file: "p.json" }),
    (
        "gen 0 a",
        Command::Gen {
            count: 0,
            name: "a",
        },
    ),
    (
        "gen 10000000 -",
        Command::Gen {
            count: 10_000_000,
            name: "-",
        },
    ),
    (
        "run p",
        Command::Run {
            file: "p",
            options: USUAL,
        },
    ),
    (
        "trial 7",
        Command::Trial {
            count: 7,
            options: USUAL,
        },
    ),
    (
        "trial 7 --whole",
        Command::Trial {
            count: 7,
            options: RunOptions {
                whole: true,
                ..USUAL
            },
        },
    ),
    (
        "run p --patience 0 --whole --workers 32 --chunk 1 --queue 64",
        Command::Run {
            file: "p",
            options: RunOptions {
                chunk: 1,
                queue: 64,
                workers: 32,
                patience: 0,
                whole: true,
                stop_first: false,
            },
        },
    ),
    (
        "run p --patience 1000000 --chunk 64",
        Command::Run {
            file: "p",
            options: RunOptions {
                patience: 1_000_000,
                ..USUAL
            },
        },
    ),
    (
        "run p --workers 4 --stop first --whole",
        Command::Run {
            file: "p",
            options: RunOptions {
                workers: 4,
                whole: true,
                stop_first: true,
                ..USUAL
            },
        },
    ),
    (
        "trial 7 --stop first",
        Command::Trial {
            count: 7,
            options: RunOptions {
                stop_first: true,
                ..USUAL
            },
        },
    ),
];

/// Lines of words, and the place of the first one that is wrong or missing.
const BAD: [(&str, usize); 32] = [
    ("fly", 0),
    ("run", 1),
    ("run --whole", 1),
    ("run p q", 2),
    ("run p --chunk 0", 3),
    ("run p --chunk 65", 3),
    ("run p --chunk 07", 3),
    ("run p --chunk +7", 3),
    ("run p --chunk 99999999999999999999", 3),
    ("run p --chunk 4 --chunk 4", 4),
    ("run p --chunk", 3),
    ("run p --whole 1", 3),
    ("run p --whole --whole", 3),
    ("run p --stop", 3),
    ("run p --stop last", 3),
    ("run p --stop --whole", 3),
    ("run p --stop first first", 4),
    ("run p --stop first --stop first", 4),
    ("plan p --stop first", 2),
    ("run p --workers 33", 3),
    ("run p --patience 1000001", 3),
    ("trial", 1),
    ("trial x", 1),
    ("trial 10000001", 1),
    ("trial 5 --queue --whole", 3),
    ("gen 5", 2),
    ("gen -5 a", 1),
    ("gen 5 a b", 3),
    ("plan p --whole", 2),
    ("--help --help", 1),
    ("--version x", 1),
    ("Run p", 0),
];

/// The words of a line, with one space between two of them.
fn words(alloc: Global, line: &str) -> Result<Vec<String>, AllocError> {
    let mut all = Vec::new(alloc);
    for word in line.split(' ') {
        all.push(String::from_str(alloc, word)?)?;
    }
    Ok(all)
}

/// Whether this is read of the words of a line.
fn is_read(alloc: Global, line: &str, read: &Result<Command<'static>, usize>) -> bool {
    match words(alloc, line) {
        Ok(words) => read_command(&words) == *read,
        Err(_) => false,
    }
}

pub(crate) fn commands_are_read(alloc: Global) -> bool {
    let mut right = true;
    for (line, command) in &COMMANDS {
        right &= is_read(alloc, line, &Ok(*command));
    }
    right
}

pub(crate) fn bad_words_are_placed(alloc: Global) -> bool {
    let mut right = read_command(&Vec::new(alloc)) == Err(0);
    for &(line, place) in &BAD {
        right &= is_read(alloc, line, &Err(place));
    }
    right
}
