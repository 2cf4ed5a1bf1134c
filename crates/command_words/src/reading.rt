//! A command is read a word at a time.

ghost use Rattle.std.specs.Prelude.{◌≡◌, option_map};
ghost use Rattle.command_words.specs.Commands.{is_name, command_in};
ghost use Rattle.command_words.specs.Machine.{state_in, task_in, counted, command_for, first_word, second_word, option_word, stopping, step, ended};

use crate::command::Command;
use crate::options::{GivenOptions, RunOptions, Setting, number_in};

/// The greatest number that `gen` and `trial` take.
const MOST_COUNT: u32 = 10_000_000;

/// A first word that others follow.
#[derive(Clone, Copy)]
pub(crate) enum Verb {
    Run,
    Plan,
    Gen,
    Trial,
}

/// What the options are for.
#[derive(Clone, Copy)]
pub(crate) enum Purpose<'a> {
    Run(&'a str),
    Trial(u32),
}

/// What was read so far.
#[derive(Clone, Copy)]
pub(crate) enum State<'a> {
    /// Nothing.
    Start,

    /// The first word.
    Behind(Verb),

    /// `gen N`.
    Counted(u32),

    /// A task, and options.
    Options(Purpose<'a>, GivenOptions),

    /// The same, and the name of one option more.
    Number(Purpose<'a>, GivenOptions, Setting),

    /// The same, and `--stop`.
    Stopping(Purpose<'a>, GivenOptions),

    /// A command that nothing may follow.
    Done(Command<'a>),
}

/// Whether a word is a name: it isn't empty and doesn't begin as an option does.
fn is_name(word: &str) -> bool
    ensures { result ≡ is_name word.now }
{
    let bytes = word.as_bytes();
    bytes.len() > 0 && !bytes.starts_with(b"--")
}

fn first_word<'a>(word: &str) -> Option<State<'a>>
    ensures { option_map state_in result ≡ first_word word.now }
{
    match word {
        "run" => Some(State::Behind(Verb::Run)),
        "plan" => Some(State::Behind(Verb::Plan)),
        "gen" => Some(State::Behind(Verb::Gen)),
        "trial" => Some(State::Behind(Verb::Trial)),
        "--help" => Some(State::Done(Command::Help)),
        "--version" => Some(State::Done(Command::Version)),
        _ => None,
    }
}

fn second_word<'a>(verb: Verb, word: &'a str) -> Option<State<'a>>
    ensures { option_map state_in result ≡ second_word verb word.now }
{
    match verb {
        Verb::Run => {
            if is_name(word) {
                Some(State::Options(Purpose::Run(word), GivenOptions::none()))
            } else {
                None
            }
        }
        Verb::Plan => {
            if is_name(word) {
                Some(State::Done(Command::Plan { file: word }))
            } else {
                None
            }
        }
        Verb::Gen => {
            let count = number_in(0, MOST_COUNT, word)?;
            Some(State::Counted(count))
        }
        Verb::Trial => {
            let count = number_in(0, MOST_COUNT, word)?;
            Some(State::Options(Purpose::Trial(count), GivenOptions::none()))
        }
    }
}

fn option_word<'a>(task: Purpose<'a>, given: GivenOptions, word: &str) -> Option<State<'a>>
    ensures { option_map state_in result ≡ option_word (task_in task.entry) given word.now }
{
    if word == "--whole" {
        if given.whole {
            return None;
        }
        return Some(State::Options(task, given.with_whole()));
    }
    if word == "--stop" {
        if given.stop_first {
            return None;
        }
        return Some(State::Stopping(task, given));
    }
    let setting = Setting::named(word)?;
    if given.is_free(setting) {
        Some(State::Number(task, given, setting))
    } else {
        None
    }
}

fn behind_stop<'a>(task: Purpose<'a>, given: GivenOptions, word: &str) -> Option<State<'a>>
    ensures { option_map state_in result ≡ step (stopping (task_in task.entry) given) word.now }
{
    if word == "first" {
        Some(State::Options(task, given.with_first()))
    } else {
        None
    }
}

fn last_name<'a>(count: u32, word: &'a str) -> Option<State<'a>>
    ensures { option_map state_in result ≡ step (counted count) word.now }
{
    if is_name(word) {
        Some(State::Done(Command::Gen { count, name: word }))
    } else {
        None
    }
}

impl<'a> State<'a> {
    /// The state behind one word more, where the words may go on so.
    pub(crate) fn step(self, word: &'a str) -> Option<State<'a>>
        ensures { option_map state_in result ≡ step (state_in self.entry) word.now }
    {
        match self {
            State::Start => first_word(word),
            State::Behind(verb) => second_word(verb, word),
            State::Counted(count) => last_name(count, word),
            State::Options(task, given) => option_word(task, given, word),
            State::Number(task, given, setting) => {
                let number = setting.number(word)?;
                Some(State::Options(task, given.with_number(setting, number)))
            }
            State::Stopping(task, given) => behind_stop(task, given, word),
            State::Done(_) => None,
        }
    }

    /// The command, where the words may end so.
    pub(crate) fn ended(self) -> Option<Command<'a>>
        ensures { option_map command_in result ≡ ended (state_in self.entry) }
    {
        match self {
            State::Options(task, given) => Some(command_for(task, given.filled())),
            State::Done(command) => Some(command),
            State::Start | State::Behind(_) | State::Counted(_) => None,
            State::Number(_, _, _) | State::Stopping(_, _) => None,
        }
    }
}

fn command_for(task: Purpose<'_>, options: RunOptions) -> Command<'_>
    ensures { command_in result ≡ command_for (task_in task.entry) options }
{
    match task {
        Purpose::Run(file) => Command::Run { file, options },
        Purpose::Trial(count) => Command::Trial { count, options },
    }
}
