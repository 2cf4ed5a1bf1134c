//! Open files of the system behind the device traits, read and written through buffers. What they hold isn't told.
#![tactic(auto)]

mod reader;
mod window;
mod writer;

pub use reader::BlockReader;
pub use writer::BlockWriter;
