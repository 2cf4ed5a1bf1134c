//! Points that are made of a number, and their LAS file: large jobs and trials need no file of others.
#![tactic(auto)]

mod faults;
mod file;
mod points;
mod steps;

pub use faults::GenerateError;
pub use file::generate;
pub use points::{first_point_is_known, gen_point};
