//! The commands of the program by their words, and the place of the first word that is wrong.
#![tactic(auto)]

mod command;
mod laws;
mod options;
mod reading;

pub use command::{Command, read_command};
pub use laws::{commands_are_told, numbers_are_decimals, places_are_so, places_are_told};
pub use options::RunOptions;
