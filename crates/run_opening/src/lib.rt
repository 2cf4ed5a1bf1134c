//! The beginning of a run: its readers' files are opened, names of dimensions are bound, and its writers' files are created.
#![tactic(auto)]

mod begin;
mod bind;
mod open;
mod ready;

pub use ready::ready_works;
