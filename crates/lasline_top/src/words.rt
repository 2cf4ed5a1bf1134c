//! What the words of a command line ask for.

ghost use Rattle.std.specs.Prelude.{◌≡◌, ◌<◌, ◌≤◌, map, Ok, Err, IfOk, IfErr, IfSome, string_bytes};
ghost use Rattle.lasline_top.specs.Words.{engine_of, task_of, stop_in, stop_for};
ghost use Rattle.lasline_top.specs.Tasks.{engine_view, task_view};
ghost use Rattle.lasline_top.specs.Threads.{options_of};
ghost use Rattle.command_words.specs.Commands.{AreWithin};
ghost use Rattle.command_words.specs.Machine.{command_of};

use crate::count::PointCount;
use crate::pages::{help, version};
use command_words::{Command, RunOptions, read_command};
use network_core::Stop;
use run_engine::{Engine, Shape};
use run_report::Refusal;

/// What a command comes to.
#[derive(Clone, Copy)]
pub(crate) enum Task<'a> {
    /// The run of a pipeline's file by this engine.
    Run { file: &'a str, engine: Engine },

    /// The plan of a pipeline's file.
    Plan { file: &'a str },

    /// A LAS file of so many generated points.
    Generate { count: PointCount, name: &'a str },

    /// Such a file, and the run of a fixed pipeline on it.
    Trial { count: PointCount, engine: Engine },

    /// A page that is printed.
    Print(&'static str),
}

/// The engine that options ask for.
fn engine_of(options: RunOptions) -> Engine
    requires { AreWithin options }
    ensures { engine_view (stop_in (engine_of options)) result ≡ engine_of options }
{
    if options.whole {
        return Engine::Whole;
    }
    Engine::Queues(Shape::new(options.chunk as usize, options.queue as usize))
}

/// The task of the words.
pub(crate) fn task_of(words: &[String]) -> Result<Task<'_>, Refusal>
    ensures ok { IfOk result (λ task. task_of (map string_bytes words.now)
        ≡ Ok (task_view (stop_for (task_of (map string_bytes words.now))) task)) }
    ensures err { IfErr result (λ refusal. task_of (map string_bytes words.now) ≡ Err refusal) }
{
    let command = match read_command(words) {
        Ok(command) => command,
        Err(place) => return Err(Refusal::Usage(place)),
    };
    Ok(match command {
        Command::Run { file, options } => {
            let engine = engine_of(options);
            Task::Run { file, engine }
        }
        Command::Plan { file } => Task::Plan { file },
        Command::Gen { count, name } => {
            let count = PointCount { points: count };
            Task::Generate { count, name }
        }
        Command::Trial { count, options } => {
            let count = PointCount { points: count };
            let engine = engine_of(options);
            Task::Trial { count, engine }
        }
        Command::Help => Task::Print(help()),
        Command::Version => Task::Print(version()),
    })
}

/// The options of a run or a trial.
pub(crate) fn options_of(words: &[String]) -> Option<RunOptions>
    ensures asked { result ≡ options_of (command_of (map string_bytes words.now)) }
    ensures some { IfSome result (λ options. 0 < options.workers) }
    ensures most { IfSome result (λ options. options.workers ≤ 32) }
{
    match read_command(words) {
        Ok(Command::Run { file: _, options }) => Some(options),
        Ok(Command::Trial { count: _, options }) => Some(options),
        Ok(Command::Plan { file: _ }) => None,
        Ok(Command::Gen { count: _, name: _ }) => None,
        Ok(Command::Help) => None,
        Ok(Command::Version) => None,
        Err(_) => None,
    }
}

/// Where the turns of a run with these options end: where all is done, unless they are to end at the first fault. A run that is evaluated
/// whole has none.
fn stop_of(options: RunOptions) -> Stop
    ensures { result ≡ stop_in (engine_of options) }
{
    if options.stop_first && !options.whole {
        Stop::First
    } else {
        Stop::Last
    }
}

/// Where the turns of a command end.
pub(crate) fn stop_for(words: &[String]) -> Stop
    ensures { result ≡ stop_for (task_of (map string_bytes words.now)) }
{
    match options_of(words) {
        Some(options) => stop_of(options),
        None => Stop::Last,
    }
}
