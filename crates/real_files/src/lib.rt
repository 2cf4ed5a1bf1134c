//! The files and streams of the system behind the device traits, and the words of the command line. What they hold isn't told.
#![tactic(auto)]

mod command_line;
mod files;
mod sink;
mod stream;
mod target;

pub use command_line::words;
pub use files::RealFiles;
pub use sink::RealOut;
pub use stream::RealStream;
