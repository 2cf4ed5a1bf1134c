//! Reads LAS files (ASPRS LAS Specification 1.4 R15) from a source: the header, the variable length records, and the
//! points, a chunk at a time.
#![tactic(auto)]

mod laws;
mod opening;
mod reader;
mod records;

pub use laws::{
    cut_is_the_first, steps_come_to_the_end, steps_give_file, steps_stay_within, without_fields,
};
pub use opening::OpenErr;
pub use reader::{LasReader, Progress};
