//! The command that words are.

ghost use Rattle.std.specs.Prelude.{◌≡◌, Ok, Err, IfOk, IfErr, map, string_bytes};
ghost use Rattle.command_words.specs.Commands.{command_in, IsWithin};
ghost use Rattle.command_words.specs.Machine.{command_of};

use crate::options::RunOptions;
use crate::reading::State;

/// What is asked of the program.
#[derive(Clone, Copy, Debug, PartialEq, Eq)]
pub enum Command<'a> {
    /// `run FILE`, and options.
    Run {
        /// The name of the pipeline's file.
        file: &'a str,

        /// How it is run.
        options: RunOptions,
    },

    /// `plan FILE`.
    Plan {
        /// The name of the pipeline's file.
        file: &'a str,
    },

    /// `gen N NAME`.
    Gen {
        /// How many points there are to be.
        count: u32,

        /// The name of the file that is made.
        name: &'a str,
    },

    /// `trial N`, and options.
    Trial {
        /// How many points there are to be.
        count: u32,

        /// How the pipeline over them is run.
        options: RunOptions,
    },

    /// `--help`.
    Help,

    /// `--version`.
    Version,
}

/// The command that the words are. `Err(k)` is the place of the first word with which the words up to it begin no command,
/// or the number of words where all of them begin one and are none.
#[tactic(auto, unfolding(crate::specs::Machine::command_of))]
pub fn read_command(words: &[String]) -> Result<Command<'_>, usize>
    ensures ok { IfOk result (λ c. command_of (map string_bytes words.now) ≡ Ok (command_in c)) }
    ensures within { IfOk result (λ c. IsWithin (command_in c)) }
    ensures err { IfErr result (λ k. command_of (map string_bytes words.now) ≡ Err k) }
{
    let mut state = State::Start;
    for (place, word) in words.iter().enumerate() {
        match state.step(word.as_str()) {
            Some(next) => state = next,
            None => return Err(place),
        }
    }
    match state.ended() {
        Some(command) => Ok(command),
        None => Err(words.len()),
    }
}
