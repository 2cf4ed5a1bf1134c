//! The devices: sources that are read at a place, sinks that are written at their end and patched, and
//! stores of named files, with implementations in memory.
#![tactic(auto)]

mod devices;
mod files;
mod memory;
mod reads;
mod store;
mod sure;
mod texts;
mod whole;

pub use devices::{DeviceErr, Failed, FileSink, Files, Gate, Op, Sink, Source};
pub use files::MemFiles;
pub use memory::{MemIn, MemOut};
pub use reads::fill;
pub use sure::{SureFiles, SureIn, SureOut};
pub use texts::{Bytes, Name};
pub use whole::{WholeErr, read_whole};
